use crate::expect::expect;
use crate::lines::{Comes, Does, Run, are_judged, judged, lines_of, push};
use iom_base::{Cause, GrantRights, Mode, Refusal, Size};
use iom_machine_judge::Line;
use std::alloc::Global;
use std::process::Abort;

/// Lawful runs, by name, and their lines as they are changed below, which may not come there.
static RUNS: [Run; 3] = [
    // The row `second-stage`.
    (
        "second stage",
        &[
            (Does::Plug(1), Comes::Done),
            (
                Does::AttachIn(1, Mode::Second(Size::Sv39), &[56, 57, 58, 59]),
                Comes::Done,
            ),
            (
                Does::Grant(1, 3, 5, GrantRights::ReadWrite, &[55, 54]),
                Comes::Done,
            ),
            (
                Does::Peek(0x3c028, 8),
                Comes::Bytes(&[0x38, 0, 0, 0, 0, 0x10, 0, 0x80]),
            ),
            (
                Does::Peek(0x36018, 8),
                Comes::Bytes(&[0xd7, 0x14, 0, 0, 0, 0, 0, 0]),
            ),
            (Does::Read(1, 0x3000, 1), Comes::Accepted(1, 5)),
            (
                Does::Read(1, 0x20000000000, 1),
                Comes::Fault(Cause::ReadGuestPageFault),
            ),
            (
                Does::Write(1, 0x4000, &[0]),
                Comes::Fault(Cause::WriteGuestPageFault),
            ),
            (
                Does::Faults,
                Comes::Record([0x0000010800000015, 0, 0x20000000000, 0x20000000000]),
            ),
            (
                Does::Faults,
                Comes::Record([0x0000010c00000017, 0, 0x4000, 0x4000]),
            ),
        ],
        &[
            // A line of that run, and what it is changed to, which may not come there.
            // a held page faults
            (
                5,
                Does::Read(1, 0x3000, 1),
                Comes::Fault(Cause::ReadGuestPageFault),
            ),
            // another frame than the page has
            (5, Does::Read(1, 0x3000, 1), Comes::Accepted(1, 6)),
            // the fault of the first stage
            (
                6,
                Does::Read(1, 0x20000000000, 1),
                Comes::Fault(Cause::ReadPageFault),
            ),
            // the fault of a read
            (
                7,
                Does::Write(1, 0x4000, &[0]),
                Comes::Fault(Cause::ReadGuestPageFault),
            ),
            // nothing else comes of it
            (8, Does::Faults, Comes::NoneConfirmed),
            (8, Does::Faults, Comes::Done),
            (8, Does::Poll, Comes::NoRecord),
        ],
    ),
    // The row `guest-tables`.
    (
        "guest tables",
        &[
            (Does::Plug(1), Comes::Done),
            (
                Does::AttachIn(1, Mode::Both(Size::Sv39), &[56, 57, 58, 59]),
                Comes::Done,
            ),
            (
                Does::Grant(1, 0, 5, GrantRights::ReadWrite, &[55, 54]),
                Comes::Done,
            ),
            (
                Does::Poke(0x5000, &[1, 0, 0, 0, 0, 0, 0, 0, 1, 0x1c, 0, 0, 0, 0, 0, 0]),
                Comes::Done,
            ),
            (
                Does::Poke(0x5018, &[0x53, 0x24, 0, 0, 0, 0, 0, 0]),
                Comes::Done,
            ),
            (
                Does::Read(1, 0x3010, 4),
                Comes::Fault(Cause::ReadGuestPageFault),
            ),
            (
                Does::Read(1, 0x40000000, 4),
                Comes::Fault(Cause::ReadGuestPageFault),
            ),
            (
                Does::Faults,
                Comes::Record([0x0000010800000015, 0, 0x3010, 0x9010]),
            ),
            (
                Does::Faults,
                Comes::Record([0x0000010800000015, 0, 0x40000000, 0x7001]),
            ),
        ],
        &[],
    ),
    // A device in both stages that holds frame 5, and frame 6 to read.
    (
        "both",
        &[
            (Does::Plug(1), Comes::Done),
            (
                Does::AttachIn(1, Mode::Both(Size::Sv39), &[56, 57, 58, 59]),
                Comes::Done,
            ),
            (
                Does::Grant(1, 0, 5, GrantRights::ReadWrite, &[55, 54]),
                Comes::Done,
            ),
            (
                Does::Grant(1, 9, 6, GrantRights::ReadOnly, &[]),
                Comes::Done,
            ),
            (Does::Read(1, 0x3010, 4), Comes::Accepted(1, 5)),
            (Does::Read(1, 0x3010, 4), Comes::Accepted(2, 6)),
            (Does::Write(1, 0x3010, &[7]), Comes::Accepted(3, 5)),
            (Does::Read(1, 0x3010, 4), Comes::Fault(Cause::ReadPageFault)),
            (
                Does::Read(1, 0x3010, 4),
                Comes::Fault(Cause::ReadGuestPageFault),
            ),
            (Does::Commit(1), Comes::Read(&[0, 0, 0, 0])),
            (Does::Release(1, 9), Comes::Ticket(1)),
            // what lingers may be reached
            (Does::Read(1, 0x3010, 1), Comes::Accepted(4, 6)),
            (Does::Commit(1), Comes::Read(&[0, 0, 0, 0])),
            (Does::Commit(1), Comes::Wrote(1)),
            (Does::Commit(1), Comes::Read(&[0])),
            (Does::Poll, Comes::Confirmed(1, 1)),
            (Does::Peek(0x5010, 1), Comes::Bytes(&[7])),
            (Does::Faults, Comes::NoRecord),
            (Does::Faults, Comes::Record([1, 2, 3, 4])),
        ],
        &[
            // A line of that run, and what it is changed to, which may not come there.
            // plenty of free runs
            (
                1,
                Does::AttachIn(1, Mode::Both(Size::Sv39), &[]),
                Comes::Refused(Refusal::NoFrames),
            ),
            // a root in a reserved frame
            (
                1,
                Does::AttachIn(1, Mode::Both(Size::Sv39), &[57, 58, 59, 60]),
                Comes::Done,
            ),
            // a frame that the device doesn't reach
            (4, Does::Read(1, 0x3010, 4), Comes::Accepted(1, 7)),
            // a frame that it may only read
            (6, Does::Write(1, 0x3010, &[7]), Comes::Accepted(3, 6)),
            // the fault of a write
            (
                7,
                Does::Read(1, 0x3010, 4),
                Comes::Fault(Cause::WriteGuestPageFault),
            ),
            // it has a context
            (
                7,
                Does::Read(1, 0x3010, 4),
                Comes::Fault(Cause::DirectoryEntryNotValid),
            ),
            // the write went to the other frame
            (16, Does::Peek(0x6010, 1), Comes::Bytes(&[7])),
            // an access is in flight on the frame that lingers
            (14, Does::Poll, Comes::Confirmed(1, 1)),
            // it lingers no more
            (16, Does::Read(1, 0x3010, 1), Comes::Accepted(5, 6)),
            // nothing else comes of it
            (17, Does::Faults, Comes::Nothing),
            (17, Does::Fetch, Comes::NoRecord),
        ],
    ),
];

// Each run may come, and none of its changes.
#[test]
fn runs_are_judged(rt: HostRuntime) {
    are_judged(&rt, rt.alloc(), &RUNS);
}

/// What comes before the grants of `refused_beside`.
static BESIDE: [(Does, Comes); 4] = [
    (Does::Plug(1), Comes::Done),
    (Does::Plug(2), Comes::Done),
    (Does::Attach(2, &[59]), Comes::Done),
    (
        Does::Grant(2, 100, 56, GrantRights::ReadOnly, &[58, 57]),
        Comes::Done,
    ),
];

/// Device 2 is granted the first frame of each of so many runs, at the page with the run's number.
fn push_grants(rt: &impl Abort, alloc: Global, lines: &mut Vec<Line>, runs: u64) {
    for run in 0..runs {
        let frame = run.wrapping_mul(4);
        let grant = Does::Grant(2, run, frame, GrantRights::ReadOnly, &[]);
        push(rt, alloc, lines, &grant, &Comes::Done);
    }
}

/// The first line that may not come where device 2 holds a frame of each of the lowest so many runs, its tables lie in the
/// highest of the fifteen, and then device 1 is refused an attach in the mode for want of frames.
fn refused_beside(rt: &impl Abort, alloc: Global, runs: u64, mode: Mode) -> Option<usize> {
    let mut lines = lines_of(rt, alloc, &BESIDE, None);
    push_grants(rt, alloc, &mut lines, runs);
    let attach = Does::AttachIn(1, mode, &[]);
    let refused = Comes::Refused(Refusal::NoFrames);
    push(rt, alloc, &mut lines, &attach, &refused);
    judged(rt, alloc, &lines)
}

/// After so many runs are held, an attach in a mode is refused for want of frames at this line first, or may be.
static WANTS: [(u64, Mode, Option<usize>); 5] = [
    // three runs are free, of which the directory may break two
    (11, Mode::Second(Size::Sv39), Some(15)),
    (11, Mode::Both(Size::Sv39), Some(15)),
    // two runs, and the other frames of the others
    (12, Mode::Second(Size::Sv39), None),
    (12, Mode::Both(Size::Sv39), None),
    (12, Mode::First(Size::Sv39), Some(16)),
];

#[test]
fn a_root_of_four_frames_may_be_wanting(rt: HostRuntime) {
    for (runs, mode, first) in WANTS.iter() {
        expect(&rt, refused_beside(&rt, rt.alloc(), *runs, *mode) == *first);
    }
}
