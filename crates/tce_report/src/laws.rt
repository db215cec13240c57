// Laws of node lines.
ghost use Rattle.tce_report.specs.Laws.{WrittenLinesSayThePlan};

/// The line that is written of a node by a plan that fits says its order, its fused indexes and its size, so that it is read back as these.
pub fn written_lines_say_the_plan()
    ensures { WrittenLinesSayThePlan }
{}
