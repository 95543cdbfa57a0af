use crate::bench::{Bench, Step, follow};
use crate::directories::{CONTEXT, ONE_LEVEL, THREE_LEVELS, WORDS};
use crate::setup::{BASE_VALUE, CQT, DDTP, DEVICE};
use iom_base::{AccessKind, Cause};
use iom_iommu::Reply;
use std::process::Abort;

/// A read and a write are accepted and made: the bytes of the write are stored when it is made, and not before. Through
/// a directory of one level.
static SERVES: [Step; 9] = [
    Step::TurnOn(BASE_VALUE),
    Step::Write(DDTP, ONE_LEVEL),
    Step::Ask(DEVICE, 0x3010, b"", Reply::Accepted(1)),
    Step::Ask(DEVICE, 0x3018, b"\xaa\xbb", Reply::Accepted(2)),
    Step::Made(32, 16, AccessKind::Read),
    Step::Word(0x20018, 0),
    Step::Made(32, 24, AccessKind::Write),
    Step::Word(0x20018, 0xbbaa),
    Step::NoneMade,
];

/// Through one of three.
static SERVES_BY_THREE: [Step; 9] = [
    Step::TurnOn(BASE_VALUE),
    Step::Write(DDTP, THREE_LEVELS),
    Step::Ask(DEVICE, 0x3010, b"", Reply::Accepted(1)),
    Step::Ask(DEVICE, 0x3018, b"\xaa\xbb", Reply::Accepted(2)),
    Step::Made(32, 16, AccessKind::Read),
    Step::Word(0x20018, 0),
    Step::Made(32, 24, AccessKind::Write),
    Step::Word(0x20018, 0xbbaa),
    Step::NoneMade,
];

/// `ddtp`, a word of the directories and its address, and the reply to a read at 0x3010: off, and each cause of the
/// directory; without translation, by `ddtp` or by a context.
static CAUSES: [(u64, u64, u64, Reply); 8] = [
    (0, CONTEXT, 1, Reply::Fault(Cause::AllInboundDisallowed)),
    (
        ONE_LEVEL,
        CONTEXT,
        0,
        Reply::Fault(Cause::DirectoryEntryNotValid),
    ),
    (
        ONE_LEVEL,
        CONTEXT,
        0x1001,
        Reply::Fault(Cause::DirectoryEntryMisconfigured),
    ),
    (ONE_LEVEL, 0x13018, 0, Reply::Fault(Cause::ReadPageFault)),
    (
        THREE_LEVELS,
        0x30000,
        0x1_0001,
        Reply::Fault(Cause::DirectoryLoadFault),
    ),
    (
        0x1_0002,
        CONTEXT,
        1,
        Reply::Fault(Cause::DirectoryLoadFault),
    ),
    (1, CONTEXT, 0, Reply::Accepted(1)),
    (ONE_LEVEL, CONTEXT + 24, 0, Reply::Accepted(1)),
];

fn replies(rt: &impl Abort, bench: &mut Bench, ddtp: u64, address: u64, word: u64, reply: Reply) {
    let steps = [
        Step::TurnOn(BASE_VALUE),
        Step::Write(DDTP, ddtp),
        Step::Store(address, word),
        Step::Ask(DEVICE, 0x3010, b"", reply),
    ];
    bench.store_all(rt, &WORDS);
    bench.follow(rt, &steps);
}

#[test]
fn causes(rt: HostRuntime) {
    for (ddtp, address, word, reply) in CAUSES.iter() {
        let mut bench = Bench::at_power_on(&rt, rt.alloc());
        replies(&rt, &mut bench, *ddtp, *address, *word, *reply);
    }
}

/// Without translation the address is that of memory, of which there are 64 frames.
static EDGES: [Step; 6] = [
    Step::TurnOn(BASE_VALUE),
    Step::Write(DDTP, 1),
    Step::Ask(DEVICE, 0x3_ffff, b"", Reply::Accepted(1)),
    Step::Ask(DEVICE, 0x4_0000, b"", Reply::Fault(Cause::ReadAccessFault)),
    Step::Ask(
        DEVICE,
        0x4_0000,
        b"\xaa",
        Reply::Fault(Cause::WriteAccessFault),
    ),
    Step::Ask(DEVICE, 0x3fff, b"\xaa\xbb", Reply::BadSpan),
];

/// An id of 8 bits is too wide for a directory of one level.
static WIDE: [Step; 4] = [
    Step::TurnOn(BASE_VALUE),
    Step::Write(DDTP, ONE_LEVEL),
    Step::Add(128),
    Step::Ask(
        128,
        0x3010,
        b"",
        Reply::Fault(Cause::TransactionTypeDisallowed),
    ),
];

/// Mode 9 in fsc: tables of four levels. The root's entry 5 leads to the frame 21, and from there on the tables are
/// those that three levels have from their root on.
static FOUR_LEVELS: [Step; 7] = [
    Step::TurnOn(BASE_VALUE),
    Step::Write(DDTP, ONE_LEVEL),
    Step::Store(CONTEXT + 24, 0x9000_0000_0000_0011),
    Step::Store(0x11028, 0x5401),
    Step::Store(0x15000, 0x4801),
    Step::GoesTo(0x280_0000_3010, b"", 32),
    Step::Ask(DEVICE, 0x3010, b"", Reply::Fault(Cause::ReadPageFault)),
];

/// IODIR.INVAL_DDT of the devices 4 and 5.
const OTHER_DEVICE: (u64, u64) = (0x0000_0402_0000_0003, 0);

const ITS_DEVICE: (u64, u64) = (0x0000_0502_0000_0003, 0);

/// A context stays cached when memory changes, and when another device's is dropped, until its own is.
static CACHED: [Step; 12] = [
    Step::TurnOn(BASE_VALUE),
    Step::Write(DDTP, ONE_LEVEL),
    Step::Put(0, OTHER_DEVICE),
    Step::Put(1, ITS_DEVICE),
    Step::Write(CQT, 2),
    Step::Ask(DEVICE, 0x3010, b"", Reply::Accepted(1)),
    Step::Store(CONTEXT, 0),
    Step::Ask(DEVICE, 0x3010, b"", Reply::Accepted(2)),
    Step::Effect(OTHER_DEVICE),
    Step::Ask(DEVICE, 0x3010, b"", Reply::Accepted(3)),
    Step::Effect(ITS_DEVICE),
    Step::Ask(
        DEVICE,
        0x3010,
        b"",
        Reply::Fault(Cause::DirectoryEntryNotValid),
    ),
];

#[test]
fn requests_are_answered(rt: HostRuntime) {
    follow(&rt, rt.alloc(), &WORDS, &SERVES);
    follow(&rt, rt.alloc(), &WORDS, &SERVES_BY_THREE);
    follow(&rt, rt.alloc(), &WORDS, &FOUR_LEVELS);
    follow(&rt, rt.alloc(), &WORDS, &EDGES);
    follow(&rt, rt.alloc(), &WORDS, &WIDE);
    follow(&rt, rt.alloc(), &WORDS, &CACHED);
}
