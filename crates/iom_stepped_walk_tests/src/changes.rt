// Walks in tables that change between two of their loads. What is expected is worked out by hand from the Privileged
// Architecture, section 12.3.2: each load gives what stands there at that moment, and an entry that is loaded already
// isn't looked at again.
use crate::expect::expect;
use iom_base::{AccessKind, Cause, Ppn, Rights, Size};
use iom_phys_mem::{Bytes, Memory};
use iom_stage_walk::{WalkFault, Walked};
use iom_stepped_walk::{Progress, TableWalk};
use std::alloc::Global;
use std::process::Abort;

/// V, R, W, U, A and D: the flags of a leaf that a device may read and write.
const LEAF: u64 = 0xd7;

/// V: those of a pointer.
const POINTER: u64 = 1;

/// What is done, one after another.
#[derive(Clone, Copy)]
enum Step {
    /// At the address stands an entry now that names this page as the next table.
    Pointer(u64, u64),
    /// One that maps this page, to be read and written.
    Leaf(u64, u64),
    /// None that is valid.
    Clear(u64),
    /// The walk makes a load, and goes on.
    Load,
    /// It makes its last load, and ends at the frame.
    Reaches(u32),
    /// The same, by a leaf with so many levels below it.
    ReachesByLeaf(u32, u8),
    /// The same, with frames of the guest's tables.
    ReachesBy(u32, [Option<u32>; 4]),
    /// It makes its last load, and ends with the fault.
    Faults(Cause),
    /// The same, at a guest physical address.
    FaultsAt(Cause, u64, bool),
}

type Answer = Result<Walked, WalkFault>;

/// The word that a step stores, and where; None where it makes a load.
fn stored(step: Step) -> Option<(u64, u64)> {
    match step {
        Step::Pointer(address, page) => Some((address, entry(page, POINTER))),
        Step::Leaf(address, page) => Some((address, entry(page, LEAF))),
        Step::Clear(address) => Some((address, 0)),
        _ => None,
    }
}

/// The word of an entry with this page number.
fn entry(page: u64, flags: u64) -> u64 {
    page.wrapping_mul(1024).wrapping_add(flags)
}

fn reached(frame: u32, level: u8, guest_frames: [Option<u32>; 4]) -> Answer {
    Ok(Walked {
        frame,
        rights: Rights::RW,
        level,
        guest_frames,
    })
}

fn refused(cause: Cause, gpa: u64, implicit: bool) -> Answer {
    Err(WalkFault {
        cause,
        gpa,
        implicit,
    })
}

fn loaded(rt: &impl Abort, memory: &Memory, progress: Progress) -> Progress {
    match progress {
        Progress::GoesOn(walk) => walk.load(memory),
        Progress::Ended(_) => panic!(rt; "the walk has ended before"),
    }
}

fn goes_on(progress: Progress) -> bool {
    matches!(progress, Progress::GoesOn(_))
}

fn ends_so(progress: Progress, wanted: Answer) -> bool {
    progress == Progress::Ended(wanted)
}

/// Whether a load that a step makes leaves the walk so.
fn is_right(now: Progress, step: Step) -> bool {
    match step {
        Step::Load => goes_on(now),
        Step::Reaches(frame) => ends_so(now, reached(frame, 0, [None; 4])),
        Step::ReachesByLeaf(frame, level) => ends_so(now, reached(frame, level, [None; 4])),
        Step::ReachesBy(frame, guest_frames) => ends_so(now, reached(frame, 0, guest_frames)),
        Step::Faults(cause) => ends_so(now, refused(cause, 0, false)),
        Step::FaultsAt(cause, gpa, implicit) => ends_so(now, refused(cause, gpa, implicit)),
        _ => false,
    }
}

fn effect(rt: &impl Abort, memory: &mut Memory, progress: Progress, step: Step) -> Progress {
    if let Some((address, word)) = stored(step) {
        expect(rt, memory.store_u64(address, word).is_some());
        return progress;
    }
    let now = loaded(rt, memory, progress);
    expect(rt, is_right(now, step));
    now
}

fn takes(rt: &impl Abort, memory: &mut Memory, begun: Progress, steps: &[Step]) -> Progress {
    let mut progress = begun;
    for step in steps.iter() {
        progress = effect(rt, memory, progress, *step);
    }
    progress
}

/// A walk that begins so, in a memory of 64 frames, and what is done before it and then.
fn follow(rt: &impl Abort, alloc: Global, begun: Progress, before: &[Step], steps: &[Step]) {
    let mut memory = Memory::new(alloc, 64).expect(rt, "memory for the frames");
    let standing = takes(rt, &mut memory, begun, before);
    let ended = takes(rt, &mut memory, standing, steps);
    expect(rt, !goes_on(ended));
}

/// A read of a first stage, Sv39, whose root is the frame 1, at page 0x5 of the address space.
fn first(rt: &impl Abort) -> Progress {
    let root = Ppn::new(1).expect(rt, "44 bits");
    TableWalk::begin_first(Size::Sv39, root, 0x5008, AccessKind::Read)
}

/// A write of both stages, Sv39 and Sv39x4, whose roots are the guest physical page 0 and the frame 8, at page 0.
fn both(rt: &impl Abort) -> Progress {
    let root = Ppn::new(0).expect(rt, "44 bits");
    let second = Ppn::new(8).expect(rt, "44 bits");
    TableWalk::begin_both(Size::Sv39, root, Size::Sv39, second, 0, AccessKind::Write)
}

/// A first stage's tables in the frames 1, 2 and 3, whose leaf is the frame 0x10.
const FIRST: [Step; 3] = [
    Step::Pointer(0x1000, 2),
    Step::Pointer(0x2000, 3),
    Step::Leaf(0x3028, 0x10),
];

#[test]
fn an_entry_is_read_at_its_load_and_not_again(rt: HostRuntime) {
    follow(
        &rt,
        rt.alloc(),
        first(&rt),
        &FIRST,
        &[
            Step::Load,
            // the root's entry goes once it is loaded
            Step::Clear(0x1000),
            Step::Load,
            // the leaf changes before it is loaded
            Step::Leaf(0x3028, 0x11),
            Step::Reaches(0x11),
        ],
    );
    follow(
        &rt,
        rt.alloc(),
        first(&rt),
        &FIRST,
        &[
            Step::Load,
            // the next table changes for another one, and the first keeps its leaf
            Step::Pointer(0x2000, 4),
            Step::Load,
            Step::Faults(Cause::ReadPageFault),
        ],
    );
    follow(
        &rt,
        rt.alloc(),
        first(&rt),
        &FIRST,
        &[
            Step::Load,
            // a pointer becomes a superpage, which is misaligned
            Step::Leaf(0x2000, 0x201),
            Step::Faults(Cause::ReadPageFault),
        ],
    );
    follow(
        &rt,
        rt.alloc(),
        first(&rt),
        &FIRST,
        &[
            Step::Load,
            // one of 2 MiB from the frame 0 on
            Step::Leaf(0x2000, 0),
            Step::ReachesByLeaf(5, 1),
        ],
    );
}

/// The second stage's leaves of the guest's three tables, in the frames 0x20 to 0x22, and of its page 3, and the guest's
/// tables.
const GUEST: [Step; 9] = [
    Step::Pointer(0x8000, 12),
    Step::Pointer(0xc000, 13),
    Step::Leaf(0xd000, 0x20),
    Step::Leaf(0xd008, 0x21),
    Step::Leaf(0xd010, 0x22),
    Step::Leaf(0xd018, 0x30),
    Step::Pointer(0x20000, 1),
    Step::Pointer(0x21000, 2),
    Step::Leaf(0x22000, 3),
];

#[test]
fn a_guest_table_is_read_where_the_second_stage_led(rt: HostRuntime) {
    follow(
        &rt,
        rt.alloc(),
        both(&rt),
        &GUEST,
        &[
            Step::Load,
            Step::Load,
            Step::Load,
            // the second stage has led to the guest's root table, which gets another frame only then
            Step::Leaf(0xd000, 0x28),
            Step::Load,
            Step::Load,
            Step::Load,
            Step::Load,
            Step::Load,
            Step::Load,
            Step::Load,
            Step::Load,
            Step::Load,
            // the guest's leaf is loaded: what it says then counts no more
            Step::Clear(0x22000),
            Step::Load,
            Step::Load,
            Step::ReachesBy(0x30, [Some(0x20), Some(0x21), Some(0x22), None]),
        ],
    );
}

#[test]
fn a_guest_entry_is_read_at_its_load(rt: HostRuntime) {
    follow(
        &rt,
        rt.alloc(),
        both(&rt),
        &GUEST,
        &[
            Step::Load,
            Step::Load,
            Step::Load,
            // the guest clears the entry that is loaded next
            Step::Clear(0x20000),
            Step::Faults(Cause::WritePageFault),
        ],
    );
    follow(
        &rt,
        rt.alloc(),
        both(&rt),
        &GUEST,
        &[
            Step::Load,
            Step::Load,
            Step::Load,
            Step::Load,
            Step::Load,
            Step::Load,
            // the second stage loses the guest's second table before its leaf is loaded
            Step::Clear(0xd008),
            Step::FaultsAt(Cause::WriteGuestPageFault, 0x1000, true),
        ],
    );
}
