//! What the facts on ways give the layers above.
ghost use Rattle.iom_reach.specs.Laws.{TransitionsAddNoWay, TurnsAddNoWay, AccessesHadWays, QuietIsTrue, FreeIsTrue, WaysCanBeTaken, TransitionsStay, TurnsStay};
ghost use Rattle.iom_reach.specs.Worked.{SpacesAreShared};

/// Nothing that hardware and devices do adds a way, where none of them can write what hardware reads. So a
/// device without a way to a frame, but those that it may take, makes no access to it that it may not make
/// (RISC-V IOMMU Architecture Specification, chapters 2 and 3).
pub fn reach_law()
    ensures each { TransitionsAddNoWay }
    ensures in_turn { TurnsAddNoWay }
    ensures made { AccessesHadWays }
    ensures quiet { QuietIsTrue }
    ensures free { FreeIsTrue }
{}

/// And each way can be taken: hardware and devices come to an access by it. So no way is one too many.
pub fn taken_law()
    ensures taken { WaysCanBeTaken }
{}

/// An address space is shared by all devices whose contexts name it (section 2.1.3, PSCID and GSCID): in a safe
/// scene a device whose own tables lead to one frame comes to another, by the tables of a device with the same
/// number.
pub fn shared_law()
    ensures shared { SpacesAreShared }
{}

/// Hardware may find more leaves in the same tables, as one whose walks know those of 64 KiB (RISC-V Privileged
/// Architecture, "Svnapot"): all that may occur without them may occur with them. So what is proved of calls by the
/// one format holds by the other.
pub fn wider_law()
    ensures each { TransitionsStay }
    ensures in_turn { TurnsStay }
{}
