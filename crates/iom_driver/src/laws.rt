//! Laws of drivers: functions that do nothing, whose contracts are proved.
ghost use Rattle.iom_driver.specs.Laws.{ReadyStays, ReadyAfterRecord, OthersLeaveStanding, RecordsLeaveStanding};

/// A driver stays ready while others leave its reserved frames, but that of the completion word, and its
/// rings where they are, with what was reported: so a fence may store its number, the IOMMU take commands, and
/// anybody write a frame that isn't reserved.
pub fn stays_ready()
    ensures { ReadyStays }
{}

/// A driver stays ready when the IOMMU reports a fault, and the report leaves all but the fault queue.
pub fn ready_after_record()
    ensures { ReadyAfterRecord }
{}

/// Tables and pages of the directory stay where they are while others leave the reserved frames, but that of the
/// completion word, and when the IOMMU reports a fault: as they do at each call of the driver.
pub fn others_leave_standing()
    ensures others { OthersLeaveStanding }
    ensures records { RecordsLeaveStanding }
{}
