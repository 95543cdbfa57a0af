use crate::expect::expect;
use crate::lines::{Comes, Does, Run, are_judged, line_of};
use iom_base::{Cause, GrantRights, Refusal};
use iom_kept_state::KeptState;
use iom_machine::{
    CommandName, Fetched, Limits, grants_are_at_pages, limits_unchanged, reclaim_theorem,
};
use iom_machine_judge::{Line, judge, lawful_runs_have_choices};
use std::alloc::Global;
use std::process::Abort;

/// Lawful runs, by name, and their lines as they are changed below, which may not come there.
static RUNS: [Run; 9] = [
    ("nothing", &[], &[]),
    // The row `first-path`.
    (
        "first path",
        &[
            (Does::Plug(1), Comes::Done),
            (Does::Attach(1, &[59]), Comes::Done),
            (
                Does::Grant(1, 3, 5, GrantRights::ReadWrite, &[58, 57]),
                Comes::Done,
            ),
            (Does::Read(1, 0x3ffc, 4), Comes::Accepted(1, 5)),
            (Does::Read(1, 0x3ffc, 5), Comes::BadSpan),
            (Does::Commit(1), Comes::Read(&[0, 0, 0, 0])),
            (Does::Release(1, 3), Comes::Ticket(1)),
            (
                Does::Fetch,
                Comes::Fetched(Fetched::Did(CommandName::IotinvalVma)),
            ),
            (
                Does::Fetch,
                Comes::Fetched(Fetched::Did(CommandName::IofenceC)),
            ),
            (Does::Poll, Comes::Confirmed(1, 1)),
            (Does::Read(1, 0x3ffc, 4), Comes::Fault(Cause::ReadPageFault)),
        ],
        &[],
    ),
    // The row `busy`.
    (
        "busy",
        &[
            (Does::Plug(1), Comes::Done),
            (Does::Attach(1, &[59]), Comes::Done),
            (
                Does::Grant(1, 3, 5, GrantRights::ReadWrite, &[58, 57]),
                Comes::Done,
            ),
            (Does::Read(1, 0x3000, 1), Comes::Accepted(1, 5)),
            (Does::Read(1, 0x3000, 1), Comes::Accepted(2, 5)),
            (Does::Read(1, 0x3000, 1), Comes::Accepted(3, 5)),
            (Does::Read(1, 0x3000, 1), Comes::Accepted(4, 5)),
            (Does::Read(1, 0x3000, 1), Comes::Accepted(5, 5)),
            (Does::Read(1, 0x3000, 1), Comes::Accepted(6, 5)),
            (Does::Read(1, 0x3000, 1), Comes::Accepted(7, 5)),
            (Does::Read(1, 0x3000, 1), Comes::Accepted(8, 5)),
            (Does::Read(1, 0x3000, 1), Comes::Busy),
        ],
        &[],
    ),
    // The row `grant-boundaries`.
    (
        "grant boundaries",
        &[
            (Does::Plug(1), Comes::Done),
            (Does::Attach(1, &[59]), Comes::Done),
            (
                Does::Grant(1, 3, 5, GrantRights::ReadWrite, &[58, 57]),
                Comes::Done,
            ),
            (
                Does::Grant(1, 67108863, 5, GrantRights::ReadOnly, &[56, 55]),
                Comes::Done,
            ),
            (
                Does::Grant(1, 67108864, 5, GrantRights::ReadOnly, &[]),
                Comes::Refused(Refusal::IovaOutOfRange),
            ),
            (
                Does::Grant(1, 4, 60, GrantRights::ReadOnly, &[]),
                Comes::Refused(Refusal::FrameReserved),
            ),
            (
                Does::Grant(1, 4, 64, GrantRights::ReadOnly, &[]),
                Comes::Refused(Refusal::FrameOutOfRange),
            ),
            (
                Does::Grant(1, 3, 6, GrantRights::ReadOnly, &[]),
                Comes::Refused(Refusal::IovaBusy),
            ),
            (Does::Read(1, 0x3ffffff000, 1), Comes::Accepted(1, 5)),
            (
                Does::Write(1, 0x3ffffff000, &[0]),
                Comes::Fault(Cause::WritePageFault),
            ),
            (
                Does::Read(1, 0x4000000000, 1),
                Comes::Fault(Cause::ReadPageFault),
            ),
        ],
        &[],
    ),
    // The requests and commits of the row `stale-but-lawful`; and the same page once more, refused,
    // which is lawful too.
    (
        "stale but lawful",
        &[
            (Does::Plug(1), Comes::Done),
            (Does::Attach(1, &[59]), Comes::Done),
            (
                Does::Grant(1, 3, 5, GrantRights::ReadWrite, &[58, 57]),
                Comes::Done,
            ),
            (Does::Read(1, 0x3000, 1), Comes::Accepted(1, 5)),
            (Does::Commit(1), Comes::Read(&[0])),
            (Does::Release(1, 3), Comes::Ticket(1)),
            (Does::Read(1, 0x3000, 1), Comes::Accepted(2, 5)),
            (Does::Read(1, 0x3000, 1), Comes::Fault(Cause::ReadPageFault)),
            (Does::Poll, Comes::NoneConfirmed),
        ],
        &[],
    ),
    // The row `drain`, and what is told of the frame before and after.
    (
        "drain",
        &[
            (Does::Plug(1), Comes::Done),
            (Does::Attach(1, &[59]), Comes::Done),
            (
                Does::Grant(1, 3, 5, GrantRights::ReadWrite, &[58, 57]),
                Comes::Done,
            ),
            (Does::Write(1, 0x3010, &[0xaa, 0xbb]), Comes::Accepted(1, 5)),
            (Does::Release(1, 3), Comes::Ticket(1)),
            (
                Does::Fetch,
                Comes::Fetched(Fetched::Did(CommandName::IotinvalVma)),
            ),
            (Does::Fetch, Comes::Fetched(Fetched::Waiting)),
            (Does::Commit(1), Comes::Wrote(2)),
            (
                Does::Fetch,
                Comes::Fetched(Fetched::Did(CommandName::IofenceC)),
            ),
            (Does::Free(5), Comes::Free(false)),
            (Does::Poll, Comes::Confirmed(1, 1)),
            (Does::Peek(0x5010, 2), Comes::Bytes(&[0xaa, 0xbb])),
            (Does::Free(5), Comes::Free(true)),
        ],
        &[],
    ),
    // What the processor does, at the ends of a frame, of memory and of what is reserved.
    (
        "processor",
        &[
            (Does::Plug(1), Comes::Done),
            (Does::Attach(1, &[59]), Comes::Done),
            (
                Does::Grant(1, 3, 5, GrantRights::ReadWrite, &[58, 57]),
                Comes::Done,
            ),
            (Does::Poke(0x5ffe, &[1, 2]), Comes::Done),
            (Does::Peek(0x5ffd, 3), Comes::Bytes(&[0, 1, 2])),
            (Does::Poke(0x5fff, &[1, 2]), Comes::BadSpan),
            (Does::Peek(0x5fff, 2), Comes::BadSpan),
            (Does::Peek(0x5000, 0), Comes::BadSpan),
            (Does::Peek(0x5000, u64::MAX), Comes::BadSpan),
            (Does::Peek(u64::MAX, 2), Comes::BadSpan),
            (
                Does::Poke(0x40000, &[1]),
                Comes::Refused(Refusal::FrameOutOfRange),
            ),
            (
                Does::Peek(u64::MAX, 1),
                Comes::Refused(Refusal::FrameOutOfRange),
            ),
            (
                Does::Poke(0x3b000, &[1]),
                Comes::Refused(Refusal::FrameReserved),
            ),
            // what a reserved frame shows isn't known
            (Does::Peek(0x3b000, 2), Comes::Bytes(&[3, 4])),
            (Does::Free(6), Comes::Free(true)),
            (Does::Free(59), Comes::Free(false)),
            (Does::Free(60), Comes::Free(false)),
            (Does::Free(64), Comes::Refused(Refusal::FrameOutOfRange)),
            (Does::Read(1, 0x3ffe, 2), Comes::Accepted(1, 5)),
            (Does::Commit(1), Comes::Read(&[1, 2])),
        ],
        &[],
    ),
    // A lawful run, whose lines are changed below.
    (
        "base",
        &[
            (Does::Plug(1), Comes::Done),
            (Does::Attach(1, &[59]), Comes::Done),
            (
                Does::Grant(1, 3, 5, GrantRights::ReadWrite, &[58, 57]),
                Comes::Done,
            ),
            (Does::Read(1, 0x3ffc, 4), Comes::Accepted(1, 5)),
            (Does::Read(1, 0x3ffc, 5), Comes::BadSpan),
            (Does::Commit(1), Comes::Read(&[0, 0, 0, 0])),
            (Does::Write(1, 0x3000, &[7, 8]), Comes::Accepted(2, 5)),
            (Does::Commit(1), Comes::Wrote(2)),
            (Does::Release(1, 3), Comes::Ticket(1)),
            (Does::Read(1, 0x3000, 2), Comes::Accepted(3, 5)),
            (Does::Poll, Comes::NoneConfirmed),
            (Does::Commit(1), Comes::Read(&[7, 8])),
            (Does::Fetch, Comes::Fetched(Fetched::Empty)),
            (Does::Poll, Comes::Confirmed(1, 1)),
            (Does::Read(1, 0x3000, 2), Comes::Fault(Cause::ReadPageFault)),
            (Does::Commit(1), Comes::Nothing),
            (Does::Read(2, 0, 1), Comes::Refused(Refusal::NoSuchDevice)),
        ],
        &[
            // A line of that run, and what it is changed to, which may not come there.
            // calls of the driver
            // refused without a reason
            (0, Does::Plug(1), Comes::Refused(Refusal::TooManyDevices)),
            // plugged in twice
            (1, Does::Plug(1), Comes::Done),
            // another refusal than the one that applies
            (
                1,
                Does::Attach(2, &[]),
                Comes::Refused(Refusal::NotAttached),
            ),
            // a device that isn't plugged in comes before an id that is too wide
            (
                1,
                Does::Attach(200, &[]),
                Comes::Refused(Refusal::IdTooWide),
            ),
            // a device that isn't attached comes before a page that isn't held
            (1, Does::Release(1, 3), Comes::Refused(Refusal::NotGranted)),
            // a table in a reserved frame
            (1, Does::Attach(1, &[60]), Comes::Done),
            // plenty of free frames
            (1, Does::Attach(1, &[]), Comes::Refused(Refusal::NoFrames)),
            // attached twice
            (2, Does::Attach(1, &[]), Comes::Done),
            // a grant to a device that isn't attached
            (
                1,
                Does::Grant(1, 3, 5, GrantRights::ReadWrite, &[]),
                Comes::Done,
            ),
            // a reserved frame granted
            (
                2,
                Does::Grant(1, 3, 59, GrantRights::ReadWrite, &[]),
                Comes::Done,
            ),
            // a reserved frame comes before a page that is out of range
            (
                2,
                Does::Grant(1, 67108864, 60, GrantRights::ReadWrite, &[]),
                Comes::Refused(Refusal::IovaOutOfRange),
            ),
            // the granted frame becomes a table
            (
                2,
                Does::Grant(1, 3, 5, GrantRights::ReadWrite, &[5]),
                Comes::Done,
            ),
            // plenty of free frames
            (
                2,
                Does::Grant(1, 3, 5, GrantRights::ReadWrite, &[]),
                Comes::Refused(Refusal::NoFrames),
            ),
            // a granted frame becomes a table
            (
                3,
                Does::Grant(1, 4, 6, GrantRights::ReadWrite, &[5]),
                Comes::Done,
            ),
            // a held page
            (
                3,
                Does::Grant(1, 3, 6, GrantRights::ReadOnly, &[]),
                Comes::Done,
            ),
            // a lingering page
            (
                9,
                Does::Grant(1, 3, 6, GrantRights::ReadOnly, &[]),
                Comes::Done,
            ),
            // a page that isn't held
            (8, Does::Release(1, 4), Comes::Ticket(1)),
            // another ticket than the next
            (8, Does::Release(1, 3), Comes::Ticket(2)),
            // few tickets wait
            (
                8,
                Does::Release(1, 3),
                Comes::Refused(Refusal::TooManyPending),
            ),
            // a fetch that answers as a poll
            (12, Does::Fetch, Comes::NoneConfirmed),
            // requests
            // a held page faults
            (
                3,
                Does::Read(1, 0x3ffc, 4),
                Comes::Fault(Cause::ReadPageFault),
            ),
            // another frame
            (3, Does::Read(1, 0x3ffc, 4), Comes::Accepted(1, 6)),
            // another number
            (3, Does::Read(1, 0x3ffc, 4), Comes::Accepted(2, 5)),
            // a page that isn't held
            (3, Does::Read(1, 0x4ffc, 4), Comes::Accepted(1, 5)),
            // eight aren't in flight
            (3, Does::Read(1, 0x3ffc, 4), Comes::Busy),
            // a bad span comes first
            (
                4,
                Does::Read(1, 0x4ffc, 5),
                Comes::Fault(Cause::ReadPageFault),
            ),
            // the fault of a read
            (
                3,
                Does::Write(1, 0x4000, &[1]),
                Comes::Fault(Cause::ReadPageFault),
            ),
            // a page that is released and confirmed
            (14, Does::Read(1, 0x3000, 2), Comes::Accepted(4, 5)),
            // a device that isn't attached has no context
            (
                1,
                Does::Read(1, 0x3000, 2),
                Comes::Fault(Cause::TransactionTypeDisallowed),
            ),
            // a device that isn't plugged in
            (
                16,
                Does::Read(2, 0, 1),
                Comes::Fault(Cause::DirectoryEntryNotValid),
            ),
            // commits and polls
            // a byte more
            (5, Does::Commit(1), Comes::Read(&[0, 0, 0, 0, 0])),
            // another byte
            (5, Does::Commit(1), Comes::Read(&[0, 0, 0, 1])),
            // something is in flight
            (5, Does::Commit(1), Comes::Nothing),
            // a byte more
            (7, Does::Commit(1), Comes::Wrote(3)),
            // a write gives no bytes
            (7, Does::Commit(1), Comes::Read(&[7, 8])),
            // a byte less
            (11, Does::Commit(1), Comes::Read(&[7])),
            // the bytes of another frame
            (11, Does::Commit(1), Comes::Read(&[0, 0])),
            // nothing is in flight
            (15, Does::Commit(1), Comes::Read(&[7, 8])),
            // an access under the ticket is in flight
            (10, Does::Poll, Comes::Confirmed(1, 1)),
            // a ticket that wasn't given
            (13, Does::Poll, Comes::Confirmed(1, 2)),
            // not the oldest ticket
            (13, Does::Poll, Comes::Confirmed(0, 1)),
            // acts of the processor
            // a table is written
            (3, Does::Poke(0x3b000, &[1]), Comes::Done),
            // the frame isn't reserved
            (
                3,
                Does::Poke(0x5000, &[1]),
                Comes::Refused(Refusal::FrameReserved),
            ),
            // a bad span comes first
            (
                3,
                Does::Poke(0x40fff, &[1, 2]),
                Comes::Refused(Refusal::FrameOutOfRange),
            ),
            // outside memory
            (3, Does::Poke(0x40000, &[1]), Comes::Done),
            // a byte less
            (3, Does::Peek(0x5000, 2), Comes::Bytes(&[0])),
            // other bytes than were written
            (8, Does::Peek(0x5000, 2), Comes::Bytes(&[0, 0])),
            // a reserved frame is shown
            (
                3,
                Does::Peek(0x3b000, 1),
                Comes::Refused(Refusal::FrameReserved),
            ),
            // a held frame, one that lingers, a reserved one
            (3, Does::Free(5), Comes::Free(true)),
            (9, Does::Free(5), Comes::Free(true)),
            (3, Does::Free(63), Comes::Free(true)),
            // a free one
            (3, Does::Free(6), Comes::Free(false)),
            // none
            (3, Does::Free(64), Comes::Free(false)),
        ],
    ),
    // A device that is detached. Its frames are given back at the poll, all zero, though one of them
    // had a byte before; the page of the device directory stays the system's.
    (
        "detach",
        &[
            (Does::Plug(1), Comes::Done),
            (Does::Detach(1), Comes::Refused(Refusal::NotAttached)),
            (Does::Poke(0x3a000, &[9]), Comes::Done),
            (Does::AttachBelow(1, &[59], &[58]), Comes::Done),
            (
                Does::Grant(1, 3, 5, GrantRights::ReadWrite, &[57, 56]),
                Comes::Done,
            ),
            // held
            (Does::Detach(1), Comes::Refused(Refusal::StillGranted)),
            (Does::Release(1, 3), Comes::Ticket(1)),
            // lingering
            (Does::Detach(1), Comes::Refused(Refusal::StillGranted)),
            (Does::Poll, Comes::Confirmed(1, 1)),
            (Does::Detach(1), Comes::Refused(Refusal::QueueFull)),
            (Does::Detach(1), Comes::Ticket(2)),
            // leaving
            (
                Does::Attach(1, &[]),
                Comes::Refused(Refusal::AlreadyAttached),
            ),
            (
                Does::Grant(1, 3, 5, GrantRights::ReadWrite, &[]),
                Comes::Refused(Refusal::NotAttached),
            ),
            (Does::Detach(1), Comes::Refused(Refusal::NotAttached)),
            (Does::Free(58), Comes::Free(false)),
            (Does::Read(1, 0x3000, 1), Comes::Fault(Cause::ReadPageFault)),
            (
                Does::Read(1, 0x3000, 1),
                Comes::Fault(Cause::DirectoryEntryNotValid),
            ),
            (Does::Poll, Comes::Confirmed(2, 2)),
            // detached
            (Does::Free(58), Comes::Free(true)),
            (Does::Free(57), Comes::Free(true)),
            (Does::Free(59), Comes::Free(false)),
            (Does::Peek(0x3a000, 2), Comes::Bytes(&[0, 0])),
            (
                Does::Read(1, 0x3000, 1),
                Comes::Fault(Cause::DirectoryEntryNotValid),
            ),
            (Does::Attach(1, &[58]), Comes::Done),
            (Does::Detach(2), Comes::Refused(Refusal::NoSuchDevice)),
        ],
        &[
            // A line of that run, and what it is changed to, which may not come there.
            // a device that isn't attached
            (1, Does::Detach(1), Comes::Ticket(1)),
            // a page of the directory in a reserved frame
            (3, Does::AttachBelow(1, &[60], &[58]), Comes::Done),
            // something is held, and then lingers
            (5, Does::Detach(1), Comes::Ticket(1)),
            (7, Does::Detach(1), Comes::Ticket(2)),
            // another ticket than the next
            (10, Does::Detach(1), Comes::Ticket(3)),
            // nothing is held or lingers
            (10, Does::Detach(1), Comes::Refused(Refusal::StillGranted)),
            // few tickets wait
            (10, Does::Detach(1), Comes::Refused(Refusal::TooManyPending)),
            // a detach takes nothing that may be wanting
            (10, Does::Detach(1), Comes::Refused(Refusal::NoFrames)),
            // attached again, while it is leaving
            (11, Does::Attach(1, &[]), Comes::Done),
            // given back before the ticket is confirmed
            (14, Does::Free(58), Comes::Free(true)),
            // the page of the directory is given back
            (20, Does::Free(59), Comes::Free(true)),
            // the byte that stood there before
            (21, Does::Peek(0x3a000, 2), Comes::Bytes(&[9, 0])),
            // served by what it had, after the ticket is confirmed
            (
                22,
                Does::Read(1, 0x3000, 1),
                Comes::Fault(Cause::ReadPageFault),
            ),
        ],
    ),
];

// Each run may come, and none of its changes.
#[test]
fn runs_are_judged(rt: HostRuntime) {
    are_judged(&rt, rt.alloc(), &RUNS);
}

/// The line comes, and is lawful.
fn comes(rt: &impl Abort, alloc: Global, kept: &mut KeptState, line: &Line) {
    let (choice, access) = (&line.choice, &line.choice.access);
    let step = judge(alloc, kept, &line.event, &line.outcome, choice, access);
    expect(rt, step.expect(rt, "memory for the judge"));
}

/// How many devices there are once the line has come, the first after power-on.
fn devices_after(rt: &impl Abort, alloc: Global, line: &Line) -> usize {
    let power_on = KeptState::power_on(alloc, Limits::of_model(), 64, 1, &[]);
    let mut kept = power_on.expect(rt, "memory for a world");
    comes(rt, alloc, &mut kept, line);
    kept.devices.as_slice().len()
}

// The judge of one line.
#[test]
fn one_step_is_judged(rt: HostRuntime) {
    let line = line_of(&rt, rt.alloc(), &Does::Plug(1), &Comes::Done);
    expect(&rt, devices_after(&rt, rt.alloc(), &line) == 1);
}

// The laws, which do nothing when they run.
#[test]
fn the_laws_can_be_called(_rt: HostRuntime) {
    grants_are_at_pages();
    limits_unchanged();
    reclaim_theorem();
    lawful_runs_have_choices();
}
