// The records of faults: the words that they have, their order, and those that are dropped (IOMMU specification,
// section 3.2).
//
// The directory of one level is in the frame 60, with the context of the device: GSCID 1 and PSCID 1, a second stage
// with its root in the frames 56 to 59, and fsc as it is put there. The fault queue has 128 places in the frame 62.
use crate::bench::{Step, follow};
use crate::setup::{DDTP, FQB, FQCSR, FQH, FQT, IPSR};
use iom_base::Cause;
use iom_iommu::Reply;

/// The device that asks.
const ASKS: u32 = 1;

/// The address of fsc.
const FSC: u64 = 0x3c038;

/// The fsc of a guest whose root is in its page 0.
const GUEST_TABLES: u64 = 0x8000_0000_0000_0000;

/// The second stage has one leaf: the guest's page 3 is the frame 5.
static PAGE_3: [(u64, u64); 3] = [(0x38000, 0xdc01), (0x37000, 0xd801), (0x36018, 0x14d7)];

/// A read of a page that is there leaves no record. An address of 42 bits, and a write of a page that isn't there:
/// iotval2 has the guest physical address from bit 2 on.
static SECOND: [Step; 16] = [
    Step::Store(0x3c020, 1),
    Step::Store(0x3c028, 0x8000_1000_0000_0038),
    Step::Store(0x3c030, 0x1000),
    Step::Add(ASKS),
    Step::Write(DDTP, 0xf002),
    Step::Write(FQB, 0xf806),
    Step::Write(FQCSR, 1),
    Step::Ask(ASKS, 0x3000, b"", Reply::Accepted(1)),
    Step::Register(FQT, 0),
    Step::Ask(
        ASKS,
        0x200_0000_0000,
        b"",
        Reply::Fault(Cause::ReadGuestPageFault),
    ),
    Step::Ask(
        ASKS,
        0x4000,
        b"\0",
        Reply::Fault(Cause::WriteGuestPageFault),
    ),
    Step::Ask(
        ASKS,
        0x4ff3,
        b"\0",
        Reply::Fault(Cause::WriteGuestPageFault),
    ),
    Step::Record(
        0,
        [0x0000_0108_0000_0015, 0, 0x200_0000_0000, 0x200_0000_0000],
    ),
    Step::Record(1, [0x0000_010c_0000_0017, 0, 0x4000, 0x4000]),
    Step::Record(2, [0x0000_010c_0000_0017, 0, 0x4ff3, 0x4ff0]),
    Step::Register(FQT, 3),
];

/// The second stage leads the guest's page 0 to the frame 5. The guest's root is there, and its first entry names its
/// own page: so it is a table of each level. Its second names the guest's page 7, and its entry 3 is the leaf of page
/// 9, to be read; neither page is there.
static GUEST: [(u64, u64); 7] = [
    (FSC, GUEST_TABLES),
    (0x38000, 0xdc01),
    (0x37000, 0xd801),
    (0x36000, 0x14d7),
    (0x5000, 1),
    (0x5008, 0x1c01),
    (0x5018, 0x2453),
];

/// The guest physical address of the access itself, and that of an entry of the guest's tables, which is told by bit 0
/// of iotval2. A page fault of the guest's own tells none.
static OF_A_GUEST: [Step; 15] = [
    Step::Store(0x3c020, 1),
    Step::Store(0x3c028, 0x8000_1000_0000_0038),
    Step::Store(0x3c030, 0x1000),
    Step::Add(ASKS),
    Step::Write(DDTP, 0xf002),
    Step::Write(FQB, 0xf806),
    Step::Write(FQCSR, 1),
    Step::Ask(ASKS, 0x3010, b"", Reply::Fault(Cause::ReadGuestPageFault)),
    Step::Ask(
        ASKS,
        0x4000_0000,
        b"",
        Reply::Fault(Cause::ReadGuestPageFault),
    ),
    Step::Ask(ASKS, 0x3017, b"", Reply::Fault(Cause::ReadGuestPageFault)),
    Step::Ask(ASKS, 0x3010, b"\0", Reply::Fault(Cause::WritePageFault)),
    Step::Record(0, [0x0000_0108_0000_0015, 0, 0x3010, 0x9010]),
    Step::Record(1, [0x0000_0108_0000_0015, 0, 0x4000_0000, 0x7001]),
    Step::Record(2, [0x0000_0108_0000_0015, 0, 0x3017, 0x9014]),
    Step::Record(3, [0x0000_010c_0000_000f, 0, 0x3010, 0]),
];

/// Causes of the directory are recorded too, and requests that aren't translated at all.
static DIRECTORY: [Step; 14] = [
    Step::Store(0x3c020, 1),
    Step::Store(0x3c028, 0x8000_1000_0000_0038),
    Step::Store(0x3c030, 0x1000),
    Step::Add(ASKS),
    Step::Write(DDTP, 0xf002),
    Step::Write(FQB, 0xf806),
    Step::Write(FQCSR, 3),
    Step::Store(0x3c020, 0),
    Step::Ask(
        ASKS,
        0x3010,
        b"",
        Reply::Fault(Cause::DirectoryEntryNotValid),
    ),
    Step::Register(IPSR, 2),
    Step::Write(DDTP, 0),
    Step::Ask(
        ASKS,
        0x3010,
        b"\0",
        Reply::Fault(Cause::AllInboundDisallowed),
    ),
    Step::Record(0, [0x0000_0108_0000_0102, 0, 0x3010, 0]),
    Step::Record(1, [0x0000_010c_0000_0100, 0, 0x3010, 0]),
];

const NOT_THERE: Reply = Reply::Fault(Cause::ReadGuestPageFault);

/// A queue of 128 places has room for 127 records. One more is dropped and sets fqof, and none is written while that
/// is 1, though software has taken some. Bit 9 of fqcsr is fqof, bit 16 fqon.
static OVERFLOWS: [Step; 22] = [
    Step::Store(0x3c020, 1),
    Step::Store(0x3c028, 0x8000_1000_0000_0038),
    Step::Store(0x3c030, 0x1000),
    Step::Add(ASKS),
    Step::Write(DDTP, 0xf002),
    Step::Write(FQB, 0xf806),
    Step::Write(FQCSR, 1),
    Step::AskEach(127, NOT_THERE),
    Step::Register(FQCSR, 0x1_0001),
    Step::AskEach(1, NOT_THERE),
    Step::Register(FQCSR, 0x1_0201),
    Step::Register(FQT, 127),
    Step::Record(126, [0x0000_0108_0000_0015, 0, 0x407e, 0x407c]),
    Step::Record(127, [0, 0, 0, 0]),
    Step::Write(FQH, 127),
    Step::AskEach(1, NOT_THERE),
    Step::Register(FQT, 127),
    Step::Record(127, [0, 0, 0, 0]),
    Step::Write(FQCSR, 0x201),
    Step::AskEach(1, NOT_THERE),
    Step::Register(FQT, 0),
    Step::Record(127, [0x0000_0108_0000_0015, 0, 0x4000, 0x4000]),
];

const TOO_WIDE: Reply = Reply::Fault(Cause::TransactionTypeDisallowed);

/// Of a device whose number has more than 24 bits a record has the lower 24. While the queue is off there is none.
static CUT: [Step; 13] = [
    Step::Store(0x3c020, 1),
    Step::Store(0x3c028, 0x8000_1000_0000_0038),
    Step::Store(0x3c030, 0x1000),
    Step::Add(ASKS),
    Step::Write(DDTP, 0xf002),
    Step::Write(FQB, 0xf806),
    Step::Write(FQCSR, 0),
    Step::Add(0x9900_0007),
    Step::Ask(0x9900_0007, 0x3010, b"", TOO_WIDE),
    Step::Record(0, [0, 0, 0, 0]),
    Step::Write(FQCSR, 1),
    Step::Ask(0x9900_0007, 0x3010, b"", TOO_WIDE),
    Step::Record(0, [0x0000_0708_0000_0104, 0, 0x3010, 0]),
];

#[test]
fn faults_are_recorded(rt: HostRuntime) {
    follow(&rt, rt.alloc(), &PAGE_3, &SECOND);
    follow(&rt, rt.alloc(), &GUEST, &OF_A_GUEST);
    follow(&rt, rt.alloc(), &[], &DIRECTORY);
    follow(&rt, rt.alloc(), &PAGE_3, &OVERFLOWS);
    follow(&rt, rt.alloc(), &[], &CUT);
}
