// What the clauses of the devices say of every disk and sink.
ghost use Rattle.tce_outside.specs.Laws.{OtherFilesStay, DisksTellOrNot, SinksTellOrNot};

/// What a disk promises of all files but one holds of each file of another name.
pub fn other_files_stay()
    ensures { OtherFilesStay }
{}

/// No call changes whether a disk or a sink tells what it holds.
pub fn a_device_tells_or_not()
    ensures disks { DisksTellOrNot }
    ensures sinks { SinksTellOrNot }
{}
