// Devices that don't answer: they are quarantined and attached again, and the queue goes on without them.
use crate::expect::expect;
use crate::lines::{Comes, Does, Run, Way, are_judged, judged, lines_of, push};
use iom_base::{Cause, GrantRights, Mode, Refusal, Size};
use iom_machine::{CommandName, Fetched};
use iom_machine_judge::Line;
use std::alloc::Global;
use std::process::Abort;

/// Lawful runs, by name, and their lines as they are changed below, which may not come there.
static RUNS: [Run; 3] = [
    // A device that is quarantined with an access in flight, and what is left of its two pages.
    (
        "quarantine",
        &[
            (Does::Plug(1), Comes::Done),
            (Does::Quarantine(2), Comes::Refused(Refusal::NoSuchDevice)),
            (Does::Quarantine(1), Comes::Refused(Refusal::NotAttached)),
            (Does::Attach(1, &[59]), Comes::Done),
            (
                Does::Grant(1, 3, 5, GrantRights::ReadWrite, &[58, 57]),
                Comes::Done,
            ),
            (
                Does::Grant(1, 4, 6, GrantRights::ReadOnly, &[]),
                Comes::Done,
            ),
            (Does::Write(1, 0x3010, &[7]), Comes::Accepted(1, 5)),
            (Does::Quarantine(1), Comes::Refused(Refusal::QueueFull)),
            (Does::Quarantine(1), Comes::Refused(Refusal::NumbersUsedUp)),
            (Does::Quarantine(1), Comes::Ticket(1)),
            // quarantined
            (Does::Quarantine(1), Comes::Refused(Refusal::Quarantined)),
            (
                Does::Grant(1, 7, 8, GrantRights::ReadOnly, &[]),
                Comes::Refused(Refusal::Quarantined),
            ),
            (Does::Release(1, 3), Comes::Refused(Refusal::Quarantined)),
            (Does::Detach(1), Comes::Refused(Refusal::Quarantined)),
            (
                Does::Attach(1, &[]),
                Comes::Refused(Refusal::AlreadyAttached),
            ),
            // both pages linger, and may be served, and not
            (Does::Free(5), Comes::Free(false)),
            (Does::Free(6), Comes::Free(false)),
            (Does::Read(1, 0x4000, 1), Comes::Accepted(2, 6)),
            (Does::Read(1, 0x4000, 1), Comes::Fault(Cause::ReadPageFault)),
            (
                Does::Read(1, 0x4000, 1),
                Comes::Fault(Cause::DirectoryEntryNotValid),
            ),
            (Does::Poll, Comes::NoneConfirmed),
            (Does::Commit(1), Comes::Wrote(1)),
            (Does::Commit(1), Comes::Read(&[0])),
            (Does::Poll, Comes::Confirmed(1, 1)),
            // nothing lingers, and the device keeps its tables
            (Does::Free(5), Comes::Free(true)),
            (Does::Free(6), Comes::Free(true)),
            (Does::Free(59), Comes::Free(false)),
            (Does::Peek(0x5010, 1), Comes::Bytes(&[7])),
            (
                Does::Read(1, 0x4000, 1),
                Comes::Fault(Cause::DirectoryEntryNotValid),
            ),
            (Does::Quarantine(1), Comes::Refused(Refusal::Quarantined)),
            (Does::Detach(1), Comes::Refused(Refusal::Quarantined)),
        ],
        &[
            // A line of that run, and what it is changed to, which may not come there.
            // a device that isn't plugged in, and one that isn't attached
            (1, Does::Quarantine(2), Comes::Ticket(1)),
            (1, Does::Quarantine(2), Comes::Refused(Refusal::NotAttached)),
            (2, Does::Quarantine(1), Comes::Ticket(1)),
            (2, Does::Quarantine(1), Comes::Refused(Refusal::QueueFull)),
            // another ticket than the next
            (9, Does::Quarantine(1), Comes::Ticket(2)),
            // nothing else comes of it
            (9, Does::Quarantine(1), Comes::Done),
            (9, Does::Quarantine(1), Comes::TimedOut),
            (9, Does::Quarantine(1), Comes::Refused(Refusal::Memory)),
            // what is held keeps no device from being quarantined, and few tickets wait
            (
                9,
                Does::Quarantine(1),
                Comes::Refused(Refusal::StillGranted),
            ),
            (
                9,
                Does::Quarantine(1),
                Comes::Refused(Refusal::TooManyPending),
            ),
            // quarantined twice
            (10, Does::Quarantine(1), Comes::Ticket(2)),
            (10, Does::Quarantine(1), Comes::Refused(Refusal::QueueFull)),
            // free before the ticket is confirmed
            (15, Does::Free(5), Comes::Free(true)),
            (16, Does::Free(6), Comes::Free(true)),
            // what lingers is only to be read
            (17, Does::Write(1, 0x4000, &[1]), Comes::Accepted(2, 6)),
            // an access under the ticket is in flight
            (20, Does::Poll, Comes::Confirmed(1, 1)),
            // served once the ticket is confirmed
            (28, Does::Read(1, 0x4000, 1), Comes::Accepted(3, 6)),
            (
                28,
                Does::Read(1, 0x4000, 1),
                Comes::Fault(Cause::ReadPageFault),
            ),
            // still in use, and given back
            (24, Does::Free(5), Comes::Free(false)),
            (26, Does::Free(59), Comes::Free(true)),
        ],
    ),
    // Devices that are attached again: one with a cache, as it was attached before; and one that leaves.
    (
        "revive",
        &[
            (Does::PlugAts(1), Comes::Done),
            (Does::Revive(2), Comes::Refused(Refusal::NoSuchDevice)),
            (Does::Revive(1), Comes::Refused(Refusal::NotAttached)),
            (
                Does::AttachAts(1, Mode::First(Size::Sv39), &[59]),
                Comes::Done,
            ),
            (Does::Revive(1), Comes::Refused(Refusal::AlreadyAttached)),
            (
                Does::Grant(1, 3, 5, GrantRights::ReadWrite, &[58, 57]),
                Comes::Done,
            ),
            (Does::Quarantine(1), Comes::Ticket(1)),
            // what it held may still be reached
            (Does::Revive(1), Comes::Refused(Refusal::StillGranted)),
            (
                Does::ReadBy(Way::Cached, 1, 0x3000, 1),
                Comes::Accepted(1, 5),
            ),
            (Does::Commit(1), Comes::Read(&[0])),
            (Does::Poll, Comes::Confirmed(1, 1)),
            (Does::Revive(1), Comes::Done),
            // attached as before, and it holds nothing
            (Does::Revive(1), Comes::Refused(Refusal::AlreadyAttached)),
            (Does::Release(1, 3), Comes::Refused(Refusal::NotGranted)),
            (Does::Read(1, 0x3000, 1), Comes::Fault(Cause::ReadPageFault)),
            (Does::ReadBy(Way::Cached, 1, 0x3000, 1), Comes::Miss),
            (
                Does::Deliver(0),
                Comes::ToldNone(1, 3, Cause::ReadPageFault),
            ),
            (
                Does::Grant(1, 3, 6, GrantRights::ReadOnly, &[]),
                Comes::Done,
            ),
            (Does::Read(1, 0x3000, 1), Comes::Accepted(2, 6)),
            (Does::Commit(1), Comes::Read(&[0])),
            // once more
            (Does::Quarantine(1), Comes::Ticket(2)),
            (Does::Revive(1), Comes::Refused(Refusal::StillGranted)),
            (Does::Poll, Comes::Confirmed(2, 2)),
            (Does::Revive(1), Comes::Done),
            (Does::Detach(1), Comes::Ticket(3)),
            // a device that leaves, and one that has left
            (Does::Revive(1), Comes::Refused(Refusal::NotAttached)),
            (Does::Poll, Comes::Confirmed(3, 3)),
            (Does::Revive(1), Comes::Refused(Refusal::NotAttached)),
            (Does::Free(59), Comes::Free(true)),
        ],
        &[
            // A line of that run, and what it is changed to, which may not come there.
            // a device that isn't plugged in, one that isn't attached, and one that is
            (1, Does::Revive(2), Comes::Done),
            (1, Does::Revive(2), Comes::Refused(Refusal::NotAttached)),
            (2, Does::Revive(1), Comes::Done),
            (2, Does::Revive(1), Comes::Refused(Refusal::AlreadyAttached)),
            (4, Does::Revive(1), Comes::Done),
            (4, Does::Revive(1), Comes::Refused(Refusal::NotAttached)),
            // its ticket isn't confirmed
            (7, Does::Revive(1), Comes::Done),
            (7, Does::Revive(1), Comes::Refused(Refusal::Quarantined)),
            (21, Does::Revive(1), Comes::Done),
            // nothing else comes of it
            (11, Does::Revive(1), Comes::Ticket(2)),
            (11, Does::Revive(1), Comes::NoEffect),
            (11, Does::Revive(1), Comes::Refused(Refusal::StillGranted)),
            (11, Does::Revive(1), Comes::Refused(Refusal::QueueFull)),
            // what it held before
            (13, Does::Release(1, 3), Comes::Ticket(2)),
            (14, Does::Read(1, 0x3000, 1), Comes::Accepted(2, 5)),
            // quarantined no longer
            (
                14,
                Does::Read(1, 0x3000, 1),
                Comes::Fault(Cause::DirectoryEntryNotValid),
            ),
            // it was attached with ATS
            (
                16,
                Does::Deliver(0),
                Comes::ToldNone(1, 3, Cause::TransactionTypeDisallowed),
            ),
            // one that leaves
            (25, Does::Revive(1), Comes::Done),
        ],
    ),
    // A ticket that waits while the queue stands, and is emptied; and an access in flight. None of it changes what the
    // machine knows.
    (
        "standing",
        &[
            (Does::Restart, Comes::Done),
            (Does::Timeout, Comes::NoEffect),
            (Does::Plug(1), Comes::Done),
            (Does::Reset(1), Comes::Done),
            (Does::Reset(2), Comes::Refused(Refusal::NoSuchDevice)),
            (Does::PlugAts(2), Comes::Done),
            (Does::Attach(1, &[59]), Comes::Done),
            (
                Does::Grant(1, 3, 5, GrantRights::ReadWrite, &[58, 57]),
                Comes::Done,
            ),
            (Does::Read(1, 0x3000, 1), Comes::Accepted(1, 5)),
            (Does::Release(1, 3), Comes::Ticket(1)),
            (Does::Timeout, Comes::TimedOut),
            (Does::Poll, Comes::PollTimedOut(None)),
            (Does::Restart, Comes::Refused(Refusal::NumbersUsedUp)),
            (Does::Restart, Comes::Done),
            (Does::Reset(1), Comes::Done),
            (Does::Reset(2), Comes::Done),
            // the page lingers, the access is in flight, and the ticket waits
            (Does::Free(5), Comes::Free(false)),
            (
                Does::Grant(1, 3, 6, GrantRights::ReadOnly, &[]),
                Comes::Refused(Refusal::IovaBusy),
            ),
            (Does::Commit(1), Comes::Read(&[0])),
            (Does::Poll, Comes::PollTimedOut(Some((1, 1)))),
            (Does::Free(5), Comes::Free(true)),
            (Does::Commit(1), Comes::Nothing),
        ],
        &[
            // a restart that is refused for another reason
            (13, Does::Restart, Comes::Refused(Refusal::QueueFull)),
            (13, Does::Restart, Comes::Refused(Refusal::Memory)),
            (13, Does::Restart, Comes::Refused(Refusal::TooManyPending)),
            // nothing else comes of it
            (13, Does::Restart, Comes::Ticket(2)),
            (13, Does::Restart, Comes::NoEffect),
            (13, Does::Restart, Comes::PollTimedOut(None)),
            // nothing else comes of a timeout
            (10, Does::Timeout, Comes::Done),
            (10, Does::Timeout, Comes::PollTimedOut(None)),
            (10, Does::Timeout, Comes::Fetched(Fetched::Waiting)),
            (
                10,
                Does::Timeout,
                Comes::Fetched(Fetched::Did(CommandName::IofenceC)),
            ),
            (10, Does::Timeout, Comes::Refused(Refusal::NumbersUsedUp)),
            // What may not come there, as nothing but the poll confirms a ticket, and nothing but the commit ends an access.
            (11, Does::Poll, Comes::PollTimedOut(Some((1, 1)))),
            (16, Does::Free(5), Comes::Free(true)),
            (
                17,
                Does::Grant(1, 3, 6, GrantRights::ReadOnly, &[]),
                Comes::Done,
            ),
            (18, Does::Commit(1), Comes::Nothing),
            (19, Does::Poll, Comes::PollTimedOut(Some((1, 2)))),
            // a device that isn't plugged in
            (4, Does::Reset(2), Comes::Done),
            (4, Does::Reset(2), Comes::Refused(Refusal::WrongKind)),
            // a device of any kind is reset
            (14, Does::Reset(1), Comes::Refused(Refusal::WrongKind)),
            (15, Does::Reset(2), Comes::Refused(Refusal::NoSuchDevice)),
            // nothing else comes of it
            (15, Does::Reset(2), Comes::Sent),
            (15, Does::Reset(2), Comes::NoEffect),
            (15, Does::Reset(2), Comes::Ticket(2)),
        ],
    ),
];

// Each run may come, and none of its changes.
#[test]
fn runs_are_judged(rt: HostRuntime) {
    are_judged(&rt, rt.alloc(), &RUNS);
}

/// A device that holds nothing yet.
static ATTACHED: [(Does, Comes); 2] = [
    (Does::Plug(1), Comes::Done),
    (Does::Attach(1, &[59]), Comes::Done),
];

/// It is granted frame 5 at the pages with so many tickets' numbers, and each is released under its ticket.
fn push_tickets(rt: &impl Abort, alloc: Global, lines: &mut Vec<Line>, tickets: u32) {
    for before in 0..tickets {
        let ticket = before.wrapping_add(1);
        let page = u64::from(ticket);
        let grant = Does::Grant(1, page, 5, GrantRights::ReadWrite, &[]);
        push(rt, alloc, lines, &grant, &Comes::Done);
        let release = Does::Release(1, page);
        push(rt, alloc, lines, &release, &Comes::Ticket(ticket));
    }
}

/// The first line that may not come where a page is released under each of so many tickets, none is confirmed, and
/// then a quarantine is answered so.
fn first_after_tickets(
    rt: &impl Abort,
    alloc: Global,
    tickets: u32,
    comes: &Comes,
) -> Option<usize> {
    let mut lines = lines_of(rt, alloc, &ATTACHED, None);
    push_tickets(rt, alloc, &mut lines, tickets);
    push(rt, alloc, &mut lines, &Does::Quarantine(1), comes);
    judged(rt, alloc, &lines)
}

/// How many tickets wait, what a quarantine is answered then, and the first line that may not come.
static TICKETS: [(u32, Comes, Option<usize>); 5] = [
    (256, Comes::Refused(Refusal::TooManyPending), None),
    (256, Comes::Ticket(257), Some(514)),
    (256, Comes::Refused(Refusal::QueueFull), Some(514)),
    // one ticket fewer waits
    (255, Comes::Ticket(256), None),
    (255, Comes::Refused(Refusal::TooManyPending), Some(512)),
];

#[test]
fn quarantine_may_find_too_many_tickets(rt: HostRuntime) {
    for (tickets, comes, first) in TICKETS.iter() {
        let shown = first_after_tickets(&rt, rt.alloc(), *tickets, comes);
        expect(&rt, shown == *first);
    }
}
