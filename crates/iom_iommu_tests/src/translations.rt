// Translations that are cached: until a command covers them, whatever becomes of the tables.
use crate::bench::{Bench, Step, follow};
use crate::directories::{LEAF, ONE_LEVEL, WORDS};
use crate::setup::{BASE_VALUE, CQT, DDTP, DEVICE};
use iom_base::Cause;
use iom_iommu::Reply;
use std::process::Abort;

/// The leaf of the frame 32, to be read and written; as it is at first.
const WRITABLE: u64 = 0x80d7;

/// The leaf of the frame 33, to be read and written.
const MOVED: u64 = 0x84d7;

/// The leaf of the frame 32, to be read.
const READ_ONLY: u64 = 0x8053;

/// The leaf of the frame 32, to be read and written, with D clear: it is to be set before a write.
const CLEAN: u64 = 0x8057;

/// The page goes to this frame after a command, where the leaf of a page that is cached was changed in memory before
/// it.
fn goes_after(rt: &impl Abort, bench: &mut Bench, command: (u64, u64), frame: u32) {
    let steps = [
        Step::TurnOn(BASE_VALUE),
        Step::Write(DDTP, ONE_LEVEL),
        Step::GoesTo(0x3010, b"", 32),
        Step::Store(LEAF, MOVED),
        Step::GoesTo(0x3010, b"", 32),
        Step::Put(0, command),
        Step::Write(CQT, 1),
        Step::Effect(command),
        Step::GoesTo(0x3010, b"", frame),
    ];
    bench.store_all(rt, &WORDS);
    bench.follow(rt, &steps);
}

/// Commands, and where the page goes after them: by the cached leaf where they cover other pages, or other address
/// spaces, or no translation; and else by the leaf in memory.
static COMMANDS: [((u64, u64), u32); 10] = [
    // IOTINVAL.VMA of the page 4, and of PSCID 2.
    ((0x0000_0001_0000_1401, 0x1000), 32),
    ((0x0000_0001_0000_2401, 0xc00), 32),
    // IOTINVAL.VMA of the VM with GSCID 1, and IOTINVAL.GVMA of all.
    ((0x0000_1002_0000_0001, 0), 32),
    ((0x81, 0), 32),
    // IODIR.INVAL_DDT of all, and a fence.
    ((3, 0), 32),
    ((2, 0), 32),
    // IOTINVAL.VMA of the page 3 of PSCID 1, of all pages of it, of the page 3 of all address spaces, and of all.
    ((0x0000_0001_0000_1401, 0xc00), 33),
    ((0x0000_0001_0000_1001, 0), 33),
    ((0x401, 0xc00), 33),
    ((1, 0), 33),
];

#[test]
fn a_translation_is_cached_until_it_is_taken_out(rt: HostRuntime) {
    for (command, frame) in COMMANDS.iter() {
        let mut bench = Bench::at_power_on(&rt, rt.alloc());
        goes_after(&rt, &mut bench, *command, *frame);
    }
}

/// A cached translation that may only be read, by this leaf, serves no write: the write walks, and is refused while the
/// leaf in memory isn't for it. Then it is served, and what it found is cached.
fn needs_its_right(rt: &impl Abort, bench: &mut Bench, leaf: u64) {
    let steps = [
        Step::TurnOn(BASE_VALUE),
        Step::Write(DDTP, ONE_LEVEL),
        Step::Store(LEAF, leaf),
        Step::GoesTo(0x3010, b"", 32),
        Step::Ask(DEVICE, 0x3010, b"\xaa", Reply::Fault(Cause::WritePageFault)),
        Step::Store(LEAF, MOVED),
        Step::GoesTo(0x3010, b"", 32),
        Step::GoesTo(0x3010, b"\xaa", 33),
        Step::GoesTo(0x3010, b"", 33),
    ];
    bench.store_all(rt, &WORDS);
    bench.follow(rt, &steps);
}

// By a leaf to be read, and by one whose D is clear.
#[test]
fn a_write_needs_its_right(rt: HostRuntime) {
    for leaf in [READ_ONLY, CLEAN] {
        let mut bench = Bench::at_power_on(&rt, rt.alloc());
        needs_its_right(&rt, &mut bench, leaf);
    }
}

/// A walk that was refused keeps nothing: the next one finds the leaf that is there now.
static FAULT: [Step; 6] = [
    Step::TurnOn(BASE_VALUE),
    Step::Write(DDTP, ONE_LEVEL),
    Step::Store(LEAF, 0),
    Step::Ask(DEVICE, 0x3010, b"", Reply::Fault(Cause::ReadPageFault)),
    Step::Store(LEAF, WRITABLE),
    Step::GoesTo(0x3010, b"", 32),
];

#[test]
fn a_fault_is_not_cached(rt: HostRuntime) {
    follow(&rt, rt.alloc(), &WORDS, &FAULT);
}

/// IOTINVAL.VMA of PSCID 1 and the page 5.
const PAGE_5: (u64, u64) = (0x0000_0001_0000_1401, 0x1400);

/// Two leaves of 2 MiB, for the pages 0 to 0x1ff and 0x200 to 0x3ff. A command that names any page of the first takes
/// out what is cached of it: the pages 3 and 0x20 go by the leaves that are there now. A page beside it stays cached.
static SUPERPAGE: [Step; 18] = [
    Step::TurnOn(BASE_VALUE),
    Step::Write(DDTP, ONE_LEVEL),
    Step::Store(0x12000, 0xd7),
    Step::Store(0x12008, 0xd7),
    Step::GoesTo(0x3010, b"", 3),
    Step::GoesTo(0x20010, b"", 32),
    Step::GoesTo(0x20_3010, b"", 3),
    Step::Store(0x12000, 0x4c01),
    Step::Store(0x12008, 0x4c01),
    Step::Store(0x13100, MOVED),
    Step::GoesTo(0x3010, b"", 3),
    Step::GoesTo(0x20010, b"", 32),
    Step::Put(0, PAGE_5),
    Step::Write(CQT, 1),
    Step::Effect(PAGE_5),
    Step::GoesTo(0x3010, b"", 32),
    Step::GoesTo(0x20010, b"", 33),
    Step::GoesTo(0x20_3010, b"", 3),
];

#[test]
fn a_superpage_goes_as_a_whole(rt: HostRuntime) {
    follow(&rt, rt.alloc(), &WORDS, &SUPERPAGE);
}
