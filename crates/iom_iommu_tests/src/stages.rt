// Requests of devices with a second stage, alone and below a first: by tables, and by what is cached of them.
use crate::bench::{Bench, Step, follow};
use crate::directories::{CONTEXT, ONE_LEVEL};
use crate::setup::{BASE_VALUE, CQT, DDTP, DEVICE};
use iom_base::Cause;
use iom_iommu::Reply;
use std::process::Abort;

/// The second stage's leaf of the guest's page 9: the frame 32, to be read and written; as it is at first.
const LEAF: u64 = 0x35048;

/// The leaf of the frame 33.
const MOVED: u64 = 0x84d7;

/// The fsc of a device whose guest has its root in its page 0.
const GUEST_TABLES: u64 = 0x8000_0000_0000_0000;

/// The context of a device, but for fsc, in a VM with GSCID 7: PSCID 1, and a second stage with its root in the frames
/// 48 to 51. It leads the guest's pages 0, 1, 2 and 9 to the frames 36, 37, 38 and 32. The tables of the guest are in
/// its pages 0, 1 and 2, and lead its page 3 to page 9.
static WORDS: [(u64, u64); 12] = [
    (CONTEXT, 1),
    (CONTEXT + 8, 0x8000_7000_0000_0030),
    (CONTEXT + 16, 0x1000),
    (0x30000, 0xd001),
    (0x34000, 0xd401),
    (0x35000, 0x90d7),
    (0x35008, 0x94d7),
    (0x35010, 0x98d7),
    (LEAF, 0x80d7),
    (0x24000, 0x401),
    (0x25000, 0x801),
    (0x26018, 0x24d7),
];

const NOT_THERE: Reply = Reply::Fault(Cause::ReadGuestPageFault);

const NOT_IN_TABLES: Reply = Reply::Fault(Cause::ReadPageFault);

/// A second stage alone: guest physical addresses have 41 bits.
static SECOND: [Step; 5] = [
    Step::TurnOn(BASE_VALUE),
    Step::Write(DDTP, ONE_LEVEL),
    Step::GoesTo(0x9010, b"", 32),
    Step::Ask(DEVICE, 0x3010, b"", NOT_THERE),
    Step::Ask(DEVICE, 0x200_0000_9010, b"", NOT_THERE),
];

/// A page that the guest's tables lack is its own fault; one that they lead to a page without a leaf, or whose table
/// is in such a page, the second stage's.
static BOTH: [Step; 6] = [
    Step::TurnOn(BASE_VALUE),
    Step::Write(DDTP, ONE_LEVEL),
    Step::Store(CONTEXT + 24, GUEST_TABLES),
    Step::GoesTo(0x3010, b"", 32),
    Step::Ask(DEVICE, 0x4010, b"", NOT_IN_TABLES),
    Step::Ask(DEVICE, 0x8000_0000_0000, b"", NOT_IN_TABLES),
];

static THIRD: [Step; 4] = [
    Step::TurnOn(BASE_VALUE),
    Step::Write(DDTP, ONE_LEVEL),
    Step::Store(CONTEXT + 24, GUEST_TABLES + 3),
    Step::Ask(DEVICE, 0x3010, b"", NOT_THERE),
];

/// In four levels the second stage's root leads to the frame 52 by its entry 4, that to 54, and that to the last table:
/// guest physical addresses have 50 bits, and 2^41 is the first of that entry.
static SECOND_OF_FOUR: [Step; 9] = [
    Step::TurnOn(BASE_VALUE),
    Step::Write(DDTP, ONE_LEVEL),
    Step::Store(CONTEXT + 8, 0x9000_7000_0000_0030),
    Step::Store(0x30020, 0xd001),
    Step::Store(0x34000, 0xd801),
    Step::Store(0x36000, 0xd401),
    Step::GoesTo(0x200_0000_9010, b"", 32),
    Step::Ask(DEVICE, 0x200_0000_3010, b"", NOT_THERE),
    Step::Ask(DEVICE, 0x4_0200_0000_9010, b"", NOT_THERE),
];

/// The guest's tables have three levels, and are read through four.
static THREE_OVER_FOUR: [Step; 7] = [
    Step::TurnOn(BASE_VALUE),
    Step::Write(DDTP, ONE_LEVEL),
    Step::Store(CONTEXT + 8, 0x9000_7000_0000_0030),
    Step::Store(CONTEXT + 24, GUEST_TABLES),
    Step::Store(0x34000, 0xd801),
    Step::Store(0x36000, 0xd401),
    Step::GoesTo(0x3010, b"", 32),
];

/// They have four, of which the last is the guest's page 3, in the frame 39, and are read through three.
static FOUR_OVER_THREE: [Step; 7] = [
    Step::TurnOn(BASE_VALUE),
    Step::Write(DDTP, ONE_LEVEL),
    Step::Store(CONTEXT + 24, 0x9000_0000_0000_0000),
    Step::Store(0x35018, 0x9cd7),
    Step::Store(0x26000, 0xc01),
    Step::Store(0x27018, 0x24d7),
    Step::GoesTo(0x3010, b"", 32),
];

/// With this word as fsc, a read at the address goes to this frame after a command, where the second stage's leaf of
/// the page that is cached was changed in memory before it.
fn goes_after(
    rt: &impl Abort,
    bench: &mut Bench,
    fsc: u64,
    address: u64,
    command: (u64, u64),
    frame: u32,
) {
    let steps = [
        Step::TurnOn(BASE_VALUE),
        Step::Write(DDTP, ONE_LEVEL),
        Step::Store(CONTEXT + 24, fsc),
        Step::GoesTo(address, b"", 32),
        Step::Store(LEAF, MOVED),
        Step::GoesTo(address, b"", 32),
        Step::Put(0, command),
        Step::Write(CQT, 1),
        Step::Effect(command),
        Step::GoesTo(address, b"", frame),
    ];
    bench.store_all(rt, &WORDS);
    bench.follow(rt, &steps);
}

/// Commands with a VM and a page, as their two words.
const GVMA_PAGE_9: (u64, u64) = (0x0000_7002_0000_0481, 0x2400);

const GVMA_PAGE_8: (u64, u64) = (0x0000_7002_0000_0481, 0x2000);

const GVMA_VM: (u64, u64) = (0x0000_7002_0000_0081, 0);

const GVMA_OTHER_VM: (u64, u64) = (0x0000_8002_0000_0081, 0);

const GVMA_ALL: (u64, u64) = (0x81, 0);

const VMA_VM: (u64, u64) = (0x0000_7002_0000_0001, 0);

const VMA_VM_PAGE_3: (u64, u64) = (0x0000_7002_0000_0401, 0xc00);

const VMA_VM_PAGE_4: (u64, u64) = (0x0000_7002_0000_0401, 0x1000);

const VMA_VM_PSCID_1: (u64, u64) = (0x0000_7003_0000_1001, 0);

const VMA_VM_PSCID_2: (u64, u64) = (0x0000_7003_0000_2001, 0);

const VMA_OTHER_VM: (u64, u64) = (0x0000_8002_0000_0001, 0);

const VMA_HOST: (u64, u64) = (1, 0);

/// Of a second stage alone IOTINVAL.GVMA takes out the page that it names, or all of its VM, or all; IOTINVAL.VMA
/// nothing, also where it is of a whole VM.
static PAGE_9: [((u64, u64), u32); 8] = [
    (GVMA_PAGE_9, 33),
    (GVMA_VM, 33),
    (GVMA_ALL, 33),
    (GVMA_PAGE_8, 32),
    (GVMA_OTHER_VM, 32),
    (VMA_VM, 32),
    (VMA_VM_PSCID_1, 32),
    (VMA_HOST, 32),
];

#[test]
fn a_guest_page_is_cached(rt: HostRuntime) {
    for (command, frame) in PAGE_9.iter() {
        let mut bench = Bench::at_power_on(&rt, rt.alloc());
        goes_after(&rt, &mut bench, 0, 0x9010, *command, *frame);
    }
}

/// Of both stages IOTINVAL.GVMA takes out all of its VM, whatever page it names: that is a guest physical page, and
/// what is cached doesn't tell through which it leads.
static GUEST_PAGE_3: [((u64, u64), u32); 12] = [
    (GVMA_PAGE_9, 33),
    (GVMA_PAGE_8, 33),
    (GVMA_VM, 33),
    (GVMA_ALL, 33),
    (VMA_VM, 33),
    (VMA_VM_PAGE_3, 33),
    (VMA_VM_PSCID_1, 33),
    (GVMA_OTHER_VM, 32),
    (VMA_VM_PAGE_4, 32),
    (VMA_VM_PSCID_2, 32),
    (VMA_OTHER_VM, 32),
    (VMA_HOST, 32),
];

#[test]
fn a_page_of_both_stages_is_cached(rt: HostRuntime) {
    for (command, frame) in GUEST_PAGE_3.iter() {
        let mut bench = Bench::at_power_on(&rt, rt.alloc());
        goes_after(&rt, &mut bench, GUEST_TABLES, 0x3010, *command, *frame);
    }
}

/// A second stage's leaves of 2 MiB, for the guest physical pages 0 to 0x1ff and 0x200 to 0x3ff. IOTINVAL.GVMA of any page of
/// the first takes out what is cached of it: the page 9 goes by the leaf that is there now. A page beside it stays cached.
static SECOND_SUPERPAGE: [Step; 14] = [
    Step::TurnOn(BASE_VALUE),
    Step::Write(DDTP, ONE_LEVEL),
    Step::Store(0x34000, 0xd7),
    Step::Store(0x34008, 0xd7),
    Step::GoesTo(0x9010, b"", 9),
    Step::GoesTo(0x20_9010, b"", 9),
    Step::Store(0x34000, 0xd401),
    Step::Store(0x34008, 0xd401),
    Step::GoesTo(0x9010, b"", 9),
    Step::Put(0, GVMA_PAGE_8),
    Step::Write(CQT, 1),
    Step::Effect(GVMA_PAGE_8),
    Step::GoesTo(0x9010, b"", 32),
    Step::GoesTo(0x20_9010, b"", 9),
];

/// A guest's leaf of 2 MiB, which leads its page 9 to its page 9, for which the second stage has one of 4 KiB. IOTINVAL.VMA of
/// any page of the guest's leaf takes out what is cached of it.
static GUEST_SUPERPAGE: [Step; 11] = [
    Step::TurnOn(BASE_VALUE),
    Step::Write(DDTP, ONE_LEVEL),
    Step::Store(CONTEXT + 24, GUEST_TABLES),
    Step::Store(0x25000, 0xd7),
    Step::GoesTo(0x9010, b"", 32),
    Step::Store(LEAF, MOVED),
    Step::GoesTo(0x9010, b"", 32),
    Step::Put(0, VMA_VM_PAGE_4),
    Step::Write(CQT, 1),
    Step::Effect(VMA_VM_PAGE_4),
    Step::GoesTo(0x9010, b"", 33),
];

#[test]
fn superpages_of_each_stage_go_as_a_whole(rt: HostRuntime) {
    follow(&rt, rt.alloc(), &WORDS, &SECOND_SUPERPAGE);
    follow(&rt, rt.alloc(), &WORDS, &GUEST_SUPERPAGE);
}

#[test]
fn stages_serve(rt: HostRuntime) {
    follow(&rt, rt.alloc(), &WORDS, &SECOND);
    follow(&rt, rt.alloc(), &WORDS, &BOTH);
    follow(&rt, rt.alloc(), &WORDS, &THIRD);
}

#[test]
fn stages_of_four_levels_serve(rt: HostRuntime) {
    follow(&rt, rt.alloc(), &WORDS, &SECOND_OF_FOUR);
    follow(&rt, rt.alloc(), &WORDS, &THREE_OVER_FOUR);
    follow(&rt, rt.alloc(), &WORDS, &FOUR_OVER_THREE);
}
