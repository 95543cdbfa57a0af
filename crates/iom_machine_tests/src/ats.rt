// Address translation services: questions, accesses through a cache, and what a hostile device makes up.
use crate::expect::expect;
use crate::lines::{Comes, Does, Run, Way, are_judged};
use iom_base::{Cause, DeviceKind, GrantRights, Mode, Refusal, Rights, Size};

/// Lawful runs, by name, and their lines as they are changed below, which may not come there.
static RUNS: [Run; 5] = [
    // A device with a cache, in the first stage: held pages, then a page that lingers, then one of which the ticket
    // is confirmed; and at last a device that leaves.
    (
        "cached",
        &[
            (Does::PlugAts(2), Comes::Done),
            (
                Does::AttachAts(2, Mode::First(Size::Sv39), &[59]),
                Comes::Done,
            ),
            (
                Does::Grant(2, 3, 5, GrantRights::ReadWrite, &[58, 57]),
                Comes::Done,
            ),
            (
                Does::Grant(2, 4, 6, GrantRights::ReadOnly, &[]),
                Comes::Done,
            ),
            (Does::Ask(2, 3), Comes::Sent),
            (Does::Deliver(0), Comes::Told(2, 3, 5, Rights::RW)),
            (Does::Deliver(0), Comes::Kept),
            (
                Does::ReadBy(Way::Cached, 2, 0x3ffc, 4),
                Comes::Accepted(1, 5),
            ),
            (
                Does::WriteBy(Way::Cached, 2, 0x3010, &[0xaa, 0xbb]),
                Comes::Accepted(2, 5),
            ),
            (Does::Commit(2), Comes::Read(&[0, 0, 0, 0])),
            (Does::Commit(2), Comes::Wrote(2)),
            (Does::Peek(0x5010, 2), Comes::Bytes(&[0xaa, 0xbb])),
            (Does::ReadBy(Way::Cached, 2, 0x3ffc, 5), Comes::BadSpan),
            (Does::WriteBy(Way::Cached, 2, 0x4000, &[1]), Comes::Miss),
            (Does::Deliver(0), Comes::Told(2, 4, 6, Rights::R)),
            (
                Does::Deliver(0),
                Comes::ToldNone(2, 5, Cause::ReadPageFault),
            ),
            (Does::Read(2, 0x4000, 1), Comes::Accepted(3, 6)),
            (Does::Commit(2), Comes::Read(&[0])),
            (Does::Release(2, 3), Comes::Ticket(1)),
            // what lingers may be shown, and not
            (Does::Deliver(0), Comes::Told(2, 3, 5, Rights::RW)),
            (
                Does::Deliver(0),
                Comes::ToldNone(2, 3, Cause::ReadPageFault),
            ),
            // and a cache may have it, and not
            (
                Does::ReadBy(Way::Cached, 2, 0x3010, 2),
                Comes::Accepted(4, 5),
            ),
            (Does::ReadBy(Way::Cached, 2, 0x3010, 2), Comes::Miss),
            (Does::Deliver(0), Comes::Invalidated(1)),
            (Does::Deliver(0), Comes::Closed(1)),
            (Does::Commit(2), Comes::Read(&[0xaa, 0xbb])),
            (Does::Poll, Comes::Confirmed(1, 1)),
            (
                Does::Deliver(0),
                Comes::ToldNone(2, 3, Cause::ReadPageFault),
            ),
            (Does::ReadBy(Way::Cached, 2, 0x3010, 2), Comes::Miss),
            (Does::Release(2, 4), Comes::Ticket(2)),
            (Does::Poll, Comes::Confirmed(2, 2)),
            (Does::Detach(2), Comes::Ticket(3)),
            // as in the former mode, or without a context
            (
                Does::Deliver(0),
                Comes::ToldNone(2, 4, Cause::ReadPageFault),
            ),
            (
                Does::Deliver(0),
                Comes::ToldNone(2, 4, Cause::DirectoryEntryNotValid),
            ),
            (Does::ReadBy(Way::Cached, 2, 0x4000, 1), Comes::Miss),
            (
                Does::ReadBy(Way::Cached, 2, 0x4000, 1),
                Comes::Fault(Cause::DirectoryEntryNotValid),
            ),
            (Does::Poll, Comes::Confirmed(3, 3)),
            (
                Does::Deliver(0),
                Comes::ToldNone(2, 4, Cause::DirectoryEntryNotValid),
            ),
            (Does::Forge(2, 1), Comes::Refused(Refusal::WrongKind)),
            (
                Does::ReadBy(Way::Translated, 2, 0x5000, 1),
                Comes::Refused(Refusal::WrongKind),
            ),
            (Does::Ask(9, 3), Comes::Refused(Refusal::NoSuchDevice)),
        ],
        &[
            // A line of that run, and what it is changed to, which may not come there.
            // another right, another frame, another page, another device
            (5, Does::Deliver(0), Comes::Told(2, 3, 5, Rights::R)),
            (5, Does::Deliver(0), Comes::Told(2, 3, 6, Rights::RW)),
            (5, Does::Deliver(0), Comes::Told(2, 4, 5, Rights::RW)),
            (5, Does::Deliver(0), Comes::Told(9, 3, 5, Rights::RW)),
            // a held page isn't shown
            (
                5,
                Does::Deliver(0),
                Comes::ToldNone(2, 3, Cause::ReadPageFault),
            ),
            // a page at which nothing is held
            (15, Does::Deliver(0), Comes::Told(2, 5, 5, Rights::RW)),
            // the fault of a write, that of another stage, and that of a device without ATS
            (
                15,
                Does::Deliver(0),
                Comes::ToldNone(2, 5, Cause::WritePageFault),
            ),
            (
                15,
                Does::Deliver(0),
                Comes::ToldNone(2, 5, Cause::ReadGuestPageFault),
            ),
            (
                15,
                Does::Deliver(0),
                Comes::ToldNone(2, 5, Cause::TransactionTypeDisallowed),
            ),
            // no context, of an attached device
            (
                15,
                Does::Deliver(0),
                Comes::ToldNone(2, 5, Cause::DirectoryEntryNotValid),
            ),
            // another right than what lingers
            (19, Does::Deliver(0), Comes::Told(2, 3, 5, Rights::R)),
            // its ticket is confirmed
            (27, Does::Deliver(0), Comes::Told(2, 3, 5, Rights::RW)),
            // of a device that leaves: its former mode was with ATS, and nothing lingers
            (
                32,
                Does::Deliver(0),
                Comes::ToldNone(2, 4, Cause::TransactionTypeDisallowed),
            ),
            (32, Does::Deliver(0), Comes::Told(2, 4, 6, Rights::R)),
            // and once it has left
            (
                37,
                Does::Deliver(0),
                Comes::ToldNone(2, 4, Cause::ReadPageFault),
            ),
            // another number, another frame
            (
                7,
                Does::ReadBy(Way::Cached, 2, 0x3ffc, 4),
                Comes::Accepted(2, 5),
            ),
            (
                7,
                Does::ReadBy(Way::Cached, 2, 0x3ffc, 4),
                Comes::Accepted(1, 6),
            ),
            // a cache has no faults, and an attached device has a context
            (
                7,
                Does::ReadBy(Way::Cached, 2, 0x3ffc, 4),
                Comes::Fault(Cause::ReadPageFault),
            ),
            (
                7,
                Does::ReadBy(Way::Cached, 2, 0x3ffc, 4),
                Comes::Fault(Cause::DirectoryEntryNotValid),
            ),
            (7, Does::ReadBy(Way::Cached, 2, 0x3ffc, 4), Comes::Busy),
            (7, Does::ReadBy(Way::Cached, 2, 0x3ffc, 4), Comes::BadSpan),
            // the write stands in the frame
            (11, Does::Peek(0x5010, 2), Comes::Bytes(&[0, 0])),
            // the span comes first
            (12, Does::ReadBy(Way::Cached, 2, 0x3ffc, 5), Comes::Miss),
            // the right is for reads alone
            (
                13,
                Does::WriteBy(Way::Cached, 2, 0x4000, &[1]),
                Comes::Accepted(3, 6),
            ),
            // what the IOMMU translates doesn't miss
            (16, Does::Read(2, 0x4000, 1), Comes::Miss),
            // while the access is in flight, its page lingers
            (22, Does::Poll, Comes::Confirmed(1, 1)),
            // the ticket is confirmed
            (
                28,
                Does::ReadBy(Way::Cached, 2, 0x3010, 2),
                Comes::Accepted(5, 5),
            ),
            // the fault of a device that the directory can't name
            (
                35,
                Does::ReadBy(Way::Cached, 2, 0x4000, 1),
                Comes::Fault(Cause::TransactionTypeDisallowed),
            ),
            // such a device forges nothing
            (38, Does::Forge(2, 1), Comes::Sent),
            (
                39,
                Does::ReadBy(Way::Translated, 2, 0x5000, 1),
                Comes::Fault(Cause::TransactionTypeDisallowed),
            ),
            // a device that isn't there
            (40, Does::Ask(9, 3), Comes::Sent),
            (40, Does::Ask(9, 3), Comes::Refused(Refusal::WrongKind)),
        ],
    ),
    // A raw device makes up requests, and words that an invalidation is done.
    (
        "forged",
        &[
            (Does::Plug(1), Comes::Done),
            (Does::Attach(1, &[59]), Comes::Done),
            (
                Does::Grant(1, 3, 5, GrantRights::ReadWrite, &[58, 57]),
                Comes::Done,
            ),
            (
                Does::ReadBy(Way::Translated, 1, 0x5000, 4),
                Comes::Fault(Cause::TransactionTypeDisallowed),
            ),
            (
                Does::WriteBy(Way::Translated, 1, 0x5000, &[1]),
                Comes::Fault(Cause::TransactionTypeDisallowed),
            ),
            (Does::ReadBy(Way::Translated, 1, 0x5fff, 2), Comes::BadSpan),
            (Does::Forge(1, 2), Comes::Sent),
            (Does::Forge(1, 2), Comes::Lost),
            (Does::Deliver(0), Comes::NotClosed(2)),
            (Does::Ask(1, 3), Comes::Sent),
            (
                Does::Deliver(0),
                Comes::ToldNone(1, 3, Cause::TransactionTypeDisallowed),
            ),
            (Does::Deliver(0), Comes::Ignored),
            (
                Does::ReadBy(Way::Cached, 1, 0x3000, 4),
                Comes::Refused(Refusal::WrongKind),
            ),
            (Does::Release(1, 3), Comes::Ticket(1)),
            (Does::Poll, Comes::Confirmed(1, 1)),
            (Does::Detach(1), Comes::Ticket(2)),
            (
                Does::ReadBy(Way::Translated, 1, 0x5000, 4),
                Comes::Fault(Cause::DirectoryEntryNotValid),
            ),
            (
                Does::ReadBy(Way::Translated, 1, 0x5000, 4),
                Comes::Fault(Cause::TransactionTypeDisallowed),
            ),
            (
                Does::Deliver(0),
                Comes::ToldNone(1, 3, Cause::TransactionTypeDisallowed),
            ),
            (
                Does::Deliver(0),
                Comes::ToldNone(1, 3, Cause::DirectoryEntryNotValid),
            ),
            (Does::Poll, Comes::Confirmed(2, 2)),
            (
                Does::Deliver(0),
                Comes::ToldNone(1, 3, Cause::DirectoryEntryNotValid),
            ),
        ],
        &[
            // A line of that run, and what it is changed to, which may not come there.
            // never accepted, and no page fault
            (
                3,
                Does::ReadBy(Way::Translated, 1, 0x5000, 4),
                Comes::Accepted(1, 5),
            ),
            (
                3,
                Does::ReadBy(Way::Translated, 1, 0x5000, 4),
                Comes::Fault(Cause::ReadPageFault),
            ),
            // there is a context
            (
                3,
                Does::ReadBy(Way::Translated, 1, 0x5000, 4),
                Comes::Fault(Cause::DirectoryEntryNotValid),
            ),
            (3, Does::ReadBy(Way::Translated, 1, 0x5000, 4), Comes::Miss),
            // the span comes first
            (
                5,
                Does::ReadBy(Way::Translated, 1, 0x5fff, 2),
                Comes::Fault(Cause::TransactionTypeDisallowed),
            ),
            (6, Does::Forge(1, 2), Comes::Refused(Refusal::WrongKind)),
            (8, Does::Deliver(0), Comes::Sent),
            // without ATS
            (10, Does::Deliver(0), Comes::Told(1, 3, 5, Rights::RW)),
            (
                10,
                Does::Deliver(0),
                Comes::ToldNone(1, 3, Cause::ReadPageFault),
            ),
            // it has no cache
            (12, Does::ReadBy(Way::Cached, 1, 0x3000, 4), Comes::Miss),
            // its former mode was without ATS
            (
                18,
                Does::Deliver(0),
                Comes::ToldNone(1, 3, Cause::ReadPageFault),
            ),
            // it has left
            (
                21,
                Does::Deliver(0),
                Comes::ToldNone(1, 3, Cause::TransactionTypeDisallowed),
            ),
        ],
    ),
    // In both stages: each frame that the device may reach, at any page.
    (
        "both",
        &[
            (Does::PlugAts(2), Comes::Done),
            (
                Does::AttachAts(2, Mode::Both(Size::Sv39), &[56, 57, 58, 59]),
                Comes::Done,
            ),
            (
                Does::Grant(2, 0, 5, GrantRights::ReadWrite, &[55, 54]),
                Comes::Done,
            ),
            (
                Does::Grant(2, 7, 6, GrantRights::ReadOnly, &[]),
                Comes::Done,
            ),
            (Does::Deliver(0), Comes::Told(2, 9, 5, Rights::RW)),
            (Does::Deliver(0), Comes::Told(2, 9, 5, Rights::R)),
            (Does::Deliver(0), Comes::Told(2, 9, 6, Rights::R)),
            (
                Does::Deliver(0),
                Comes::ToldNone(2, 9, Cause::ReadPageFault),
            ),
            (
                Does::Deliver(0),
                Comes::ToldNone(2, 9, Cause::ReadGuestPageFault),
            ),
            (
                Does::ReadBy(Way::Cached, 2, 0x9000, 2),
                Comes::Accepted(1, 6),
            ),
            (Does::Commit(2), Comes::Read(&[0, 0])),
        ],
        &[
            // A line of that run, and what it is changed to, which may not come there.
            // the frame may be read alone
            (6, Does::Deliver(0), Comes::Told(2, 9, 6, Rights::RW)),
            (
                9,
                Does::WriteBy(Way::Cached, 2, 0x9000, &[1]),
                Comes::Accepted(1, 6),
            ),
            // a frame that the device may not reach
            (6, Does::Deliver(0), Comes::Told(2, 9, 7, Rights::R)),
            (
                9,
                Does::ReadBy(Way::Cached, 2, 0x9000, 2),
                Comes::Accepted(1, 7),
            ),
            // the fault of a write
            (
                7,
                Does::Deliver(0),
                Comes::ToldNone(2, 9, Cause::WritePageFault),
            ),
        ],
    ),
    // In the second stage; and the messages whose content the machine doesn't know.
    (
        "second",
        &[
            (Does::PlugAts(2), Comes::Done),
            (
                Does::AttachAts(2, Mode::Second(Size::Sv39), &[56, 57, 58, 59]),
                Comes::Done,
            ),
            (
                Does::Grant(2, 3, 5, GrantRights::ReadOnly, &[55, 54]),
                Comes::Done,
            ),
            (Does::Deliver(0), Comes::Told(2, 3, 5, Rights::R)),
            (
                Does::Deliver(0),
                Comes::ToldNone(2, 4, Cause::ReadGuestPageFault),
            ),
            (Does::Deliver(0), Comes::Stale),
            (Does::Deliver(0), Comes::AnswerRefused),
            (Does::Deliver(7), Comes::NoMessage),
            (Does::Drop(0), Comes::Dropped),
            (Does::Drop(0), Comes::NoMessage),
            (Does::Repeat(0), Comes::Repeated),
            (Does::Repeat(0), Comes::Lost),
            (Does::Repeat(0), Comes::NoMessage),
            (Does::Ask(2, 3), Comes::Lost),
            (
                Does::Write(2, 0x3000, &[1]),
                Comes::Fault(Cause::WriteGuestPageFault),
            ),
            (
                Does::ReadBy(Way::Cached, 2, 0x3000, 1),
                Comes::Accepted(1, 5),
            ),
        ],
        &[
            // A line of that run, and what it is changed to, which may not come there.
            // the fault of the first stage
            (
                4,
                Does::Deliver(0),
                Comes::ToldNone(2, 4, Cause::ReadPageFault),
            ),
            (3, Does::Deliver(0), Comes::Told(2, 3, 5, Rights::RW)),
            // nothing else comes of it
            (5, Does::Deliver(0), Comes::Dropped),
            (8, Does::Drop(0), Comes::Lost),
            (8, Does::Drop(0), Comes::Repeated),
            (10, Does::Repeat(0), Comes::Sent),
            (10, Does::Repeat(0), Comes::Dropped),
            (13, Does::Ask(2, 3), Comes::NoMessage),
        ],
    ),
    // Eight accesses through the cache are in flight.
    (
        "eight cached",
        &[
            (Does::PlugAts(2), Comes::Done),
            (
                Does::AttachAts(2, Mode::First(Size::Sv39), &[59]),
                Comes::Done,
            ),
            (
                Does::Grant(2, 3, 5, GrantRights::ReadOnly, &[58, 57]),
                Comes::Done,
            ),
            (
                Does::ReadBy(Way::Cached, 2, 0x3000, 1),
                Comes::Accepted(1, 5),
            ),
            (Does::Read(2, 0x3000, 1), Comes::Accepted(2, 5)),
            (
                Does::ReadBy(Way::Cached, 2, 0x3000, 1),
                Comes::Accepted(3, 5),
            ),
            (Does::Read(2, 0x3000, 1), Comes::Accepted(4, 5)),
            (
                Does::ReadBy(Way::Cached, 2, 0x3000, 1),
                Comes::Accepted(5, 5),
            ),
            (Does::Read(2, 0x3000, 1), Comes::Accepted(6, 5)),
            (
                Does::ReadBy(Way::Cached, 2, 0x3000, 1),
                Comes::Accepted(7, 5),
            ),
            (Does::Read(2, 0x3000, 1), Comes::Accepted(8, 5)),
            (Does::ReadBy(Way::Cached, 2, 0x3000, 1), Comes::Busy),
        ],
        &[
            // A line of that run, and what it is changed to, which may not come there.
            (
                11,
                Does::ReadBy(Way::Cached, 2, 0x3000, 1),
                Comes::Accepted(9, 5),
            ),
            (11, Does::ReadBy(Way::Cached, 2, 0x3000, 1), Comes::Miss),
        ],
    ),
];

// Each run may come, and none of its changes.
#[test]
fn runs_are_judged(rt: HostRuntime) {
    are_judged(&rt, rt.alloc(), &RUNS);
}

/// Of each kind: whether it is a block device, has a cache, sends requests that the IOMMU translates, forges, sends
/// requests through its cache, and asks.
static KINDS: [(DeviceKind, [bool; 6]); 4] = [
    (DeviceKind::Raw, [false, false, true, true, false, true]),
    (DeviceKind::Ats, [false, true, true, false, true, true]),
    (DeviceKind::Block, [true, false, false, false, false, false]),
    (
        DeviceKind::CachedBlock,
        [true, true, false, false, false, false],
    ),
];

fn does_of(kind: DeviceKind) -> [bool; 6] {
    [
        kind.is_block_device(),
        kind.has_cache(),
        kind.sends_untranslated(),
        kind.forges(),
        kind.sends_through_cache(),
        kind.asks_questions(),
    ]
}

#[test]
fn kinds_do_what_they_can(rt: HostRuntime) {
    for (kind, effect) in KINDS.iter() {
        expect(&rt, does_of(*kind) == *effect);
    }
}
