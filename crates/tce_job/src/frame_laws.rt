//! A law of the definitions. The function does nothing: its contract is the law.

ghost use Rattle.tce_job.specs.FrameLaws.{FramesHaveRoom};

/// Each tile of the operands and the result fits a frame.
pub fn frames_have_room()
    ensures { FramesHaveRoom }
{}
