// Devices whose tables have four levels, and which numbers of pages and frames differ between the sizes.
use crate::expect::expect;
use crate::lines::{Comes, Does, Run, Way, are_judged, judged, lines_of, push};
use iom_base::{Cause, GrantRights, Mode, Refusal, Rights, Size};
use iom_machine_judge::Line;
use std::alloc::Global;
use std::process::Abort;

/// Lawful runs, by name, and their lines as they are changed below, which may not come there.
static RUNS: [Run; 4] = [
    (
        "first stage of four levels",
        &[
            (Does::Plug(1), Comes::Done),
            (
                Does::AttachIn(1, Mode::First(Size::Sv48), &[59]),
                Comes::Done,
            ),
            (
                Does::Grant(1, 3, 5, GrantRights::ReadWrite, &[58, 57, 56]),
                Comes::Done,
            ),
            (
                Does::Grant(1, 34359738367, 6, GrantRights::ReadOnly, &[55, 54, 53]),
                Comes::Done,
            ),
            (
                Does::Grant(1, 34359738368, 6, GrantRights::ReadOnly, &[]),
                Comes::Refused(Refusal::IovaOutOfRange),
            ),
            (Does::Read(1, 0x7ffffffff000, 1), Comes::Accepted(1, 6)),
            (
                Does::Write(1, 0x7ffffffff000, &[0]),
                Comes::Fault(Cause::WritePageFault),
            ),
            (
                Does::Read(1, 0x800000000000, 1),
                Comes::Fault(Cause::ReadPageFault),
            ),
            (Does::Release(1, 3), Comes::Ticket(1)),
            // what lingers may be reached
            (Does::Read(1, 0x3000, 1), Comes::Accepted(2, 5)),
            (Does::Commit(1), Comes::Read(&[0])),
            (Does::Commit(1), Comes::Read(&[0])),
            (Does::Poll, Comes::Confirmed(1, 1)),
            (Does::Read(1, 0x3000, 1), Comes::Fault(Cause::ReadPageFault)),
        ],
        &[
            // A line of that run, and what it is changed to, which may not come there.
            // the last page that can be granted, and the next
            (
                3,
                Does::Grant(1, 34359738367, 6, GrantRights::ReadOnly, &[]),
                Comes::Refused(Refusal::IovaOutOfRange),
            ),
            (
                4,
                Does::Grant(1, 34359738368, 6, GrantRights::ReadOnly, &[]),
                Comes::Done,
            ),
            // a reserved frame comes before a page that is out of range
            (
                4,
                Does::Grant(1, 34359738368, 59, GrantRights::ReadOnly, &[]),
                Comes::Refused(Refusal::IovaOutOfRange),
            ),
            // a held page faults
            (
                5,
                Does::Read(1, 0x7ffffffff000, 1),
                Comes::Fault(Cause::ReadPageFault),
            ),
            // another frame than the page has
            (5, Does::Read(1, 0x7ffffffff000, 1), Comes::Accepted(1, 5)),
            // the fault of the second stage
            (
                7,
                Does::Read(1, 0x800000000000, 1),
                Comes::Fault(Cause::ReadGuestPageFault),
            ),
            // it lingers no more
            (13, Does::Read(1, 0x3000, 1), Comes::Accepted(3, 5)),
        ],
    ),
    // The device is attached with tables of four levels, and then of three.
    (
        "second stage of another size",
        &[
            (Does::Plug(1), Comes::Done),
            (
                Does::AttachIn(1, Mode::Second(Size::Sv48), &[56, 57, 58, 59]),
                Comes::Done,
            ),
            (
                Does::Grant(1, 34359738367, 5, GrantRights::ReadWrite, &[55, 54, 53]),
                Comes::Done,
            ),
            (
                Does::Grant(1, 34359738368, 5, GrantRights::ReadWrite, &[]),
                Comes::Refused(Refusal::IovaOutOfRange),
            ),
            (Does::Read(1, 0x7ffffffff000, 1), Comes::Accepted(1, 5)),
            (
                Does::Read(1, 0x4000000000000, 1),
                Comes::Fault(Cause::ReadGuestPageFault),
            ),
            (
                Does::Write(1, 0x3000, &[0]),
                Comes::Fault(Cause::WriteGuestPageFault),
            ),
            (Does::Commit(1), Comes::Read(&[0])),
            (Does::Release(1, 34359738367), Comes::Ticket(1)),
            (Does::Poll, Comes::Confirmed(1, 1)),
            (Does::Detach(1), Comes::Ticket(2)),
            (Does::Poll, Comes::Confirmed(2, 2)),
            (
                Does::AttachIn(1, Mode::Second(Size::Sv39), &[56, 57, 58, 59]),
                Comes::Done,
            ),
            (
                Does::Grant(1, 67108864, 5, GrantRights::ReadWrite, &[]),
                Comes::Refused(Refusal::IovaOutOfRange),
            ),
            (
                Does::Grant(1, 67108863, 5, GrantRights::ReadWrite, &[55, 54]),
                Comes::Done,
            ),
            (
                Does::Read(1, 0x7ffffffff000, 1),
                Comes::Fault(Cause::ReadGuestPageFault),
            ),
        ],
        &[
            // A line of that run, and what it is changed to, which may not come there.
            // the first page that can't be granted
            (
                3,
                Does::Grant(1, 34359738368, 5, GrantRights::ReadWrite, &[]),
                Comes::Done,
            ),
            // the fault of the first stage
            (
                5,
                Does::Read(1, 0x4000000000000, 1),
                Comes::Fault(Cause::ReadPageFault),
            ),
            // of the other size
            (
                13,
                Does::Grant(1, 67108864, 5, GrantRights::ReadWrite, &[]),
                Comes::Done,
            ),
            (
                14,
                Does::Grant(1, 67108863, 5, GrantRights::ReadWrite, &[]),
                Comes::Refused(Refusal::IovaOutOfRange),
            ),
            // what the device had before
            (15, Does::Read(1, 0x7ffffffff000, 1), Comes::Accepted(2, 5)),
        ],
    ),
    // A device in both stages that holds frame 5, and frame 6 to read, and is quarantined.
    (
        "both of four levels",
        &[
            (Does::Plug(1), Comes::Done),
            (
                Does::AttachIn(1, Mode::Both(Size::Sv48), &[56, 57, 58, 59]),
                Comes::Done,
            ),
            (
                Does::Grant(1, 0, 5, GrantRights::ReadWrite, &[55, 54, 53]),
                Comes::Done,
            ),
            (
                Does::Grant(1, 34359738367, 6, GrantRights::ReadOnly, &[52, 51, 50]),
                Comes::Done,
            ),
            (
                Does::Grant(1, 34359738368, 6, GrantRights::ReadOnly, &[]),
                Comes::Refused(Refusal::IovaOutOfRange),
            ),
            (Does::Read(1, 0x3010, 4), Comes::Accepted(1, 5)),
            (Does::Read(1, 0x7ffffffff010, 4), Comes::Accepted(2, 6)),
            (Does::Read(1, 0x3010, 4), Comes::Fault(Cause::ReadPageFault)),
            (
                Does::Read(1, 0x800000000000, 4),
                Comes::Fault(Cause::ReadGuestPageFault),
            ),
            (Does::Quarantine(1), Comes::Ticket(1)),
            (
                Does::Grant(1, 34359738368, 5, GrantRights::ReadOnly, &[]),
                Comes::Refused(Refusal::Quarantined),
            ),
            // both pages linger, and may be served, and not
            (Does::Read(1, 0x3010, 4), Comes::Accepted(3, 6)),
            (
                Does::Read(1, 0x3010, 4),
                Comes::Fault(Cause::ReadGuestPageFault),
            ),
            (Does::Commit(1), Comes::Read(&[0, 0, 0, 0])),
            (Does::Commit(1), Comes::Read(&[0, 0, 0, 0])),
            (Does::Commit(1), Comes::Read(&[0, 0, 0, 0])),
            (Does::Poll, Comes::Confirmed(1, 1)),
            (
                Does::Read(1, 0x3010, 4),
                Comes::Fault(Cause::DirectoryEntryNotValid),
            ),
        ],
        &[
            // A line of that run, and what it is changed to, which may not come there.
            // the first page that can't be granted
            (
                4,
                Does::Grant(1, 34359738368, 6, GrantRights::ReadOnly, &[]),
                Comes::Done,
            ),
            // a frame that it may only read, and one that it doesn't reach
            (
                6,
                Does::Write(1, 0x7ffffffff010, &[7]),
                Comes::Accepted(2, 6),
            ),
            (6, Does::Read(1, 0x7ffffffff010, 4), Comes::Accepted(2, 7)),
            // the fault of a write
            (
                7,
                Does::Read(1, 0x3010, 4),
                Comes::Fault(Cause::WritePageFault),
            ),
            // quarantined comes before a page that is out of range
            (
                10,
                Does::Grant(1, 34359738368, 5, GrantRights::ReadOnly, &[]),
                Comes::Refused(Refusal::IovaOutOfRange),
            ),
            // a frame that doesn't linger
            (11, Does::Read(1, 0x3010, 4), Comes::Accepted(3, 7)),
            // served once the ticket is confirmed
            (17, Does::Read(1, 0x3010, 4), Comes::Accepted(4, 6)),
        ],
    ),
    // Three devices with a cache, one in each mode, and what they are told of the last page that can be granted.
    (
        "told in four levels",
        &[
            (Does::PlugAts(1), Comes::Done),
            (Does::PlugAts(2), Comes::Done),
            (Does::PlugAts(3), Comes::Done),
            (
                Does::AttachAts(1, Mode::First(Size::Sv48), &[59]),
                Comes::Done,
            ),
            (
                Does::AttachAts(2, Mode::Second(Size::Sv48), &[52, 53, 54, 55]),
                Comes::Done,
            ),
            (
                Does::AttachAts(3, Mode::Both(Size::Sv48), &[48, 49, 50, 51]),
                Comes::Done,
            ),
            (
                Does::Grant(1, 34359738367, 5, GrantRights::ReadOnly, &[58, 57, 56]),
                Comes::Done,
            ),
            (
                Does::Grant(2, 34359738367, 6, GrantRights::ReadOnly, &[47, 46, 45]),
                Comes::Done,
            ),
            (
                Does::Grant(3, 34359738367, 7, GrantRights::ReadOnly, &[44, 43, 42]),
                Comes::Done,
            ),
            (Does::Deliver(0), Comes::Told(1, 34359738367, 5, Rights::R)),
            (Does::Deliver(0), Comes::Told(2, 34359738367, 6, Rights::R)),
            (Does::Deliver(0), Comes::Told(3, 9, 7, Rights::R)),
            (
                Does::Deliver(0),
                Comes::ToldNone(1, 34359738368, Cause::ReadPageFault),
            ),
            (
                Does::Deliver(0),
                Comes::ToldNone(2, 34359738368, Cause::ReadGuestPageFault),
            ),
            (
                Does::Deliver(0),
                Comes::ToldNone(3, 9, Cause::ReadGuestPageFault),
            ),
            (
                Does::ReadBy(Way::Cached, 1, 0x7ffffffff000, 2),
                Comes::Accepted(1, 5),
            ),
            (
                Does::ReadBy(Way::Cached, 2, 0x7ffffffff000, 2),
                Comes::Accepted(1, 6),
            ),
            (
                Does::ReadBy(Way::Cached, 3, 0x9000, 2),
                Comes::Accepted(1, 7),
            ),
        ],
        &[
            // A line of that run, and what it is changed to, which may not come there.
            // the frame may be read alone
            (
                9,
                Does::Deliver(0),
                Comes::Told(1, 34359738367, 5, Rights::RW),
            ),
            // a held page has none
            (
                10,
                Does::Deliver(0),
                Comes::ToldNone(2, 34359738367, Cause::ReadGuestPageFault),
            ),
            // a frame that the device may not reach
            (11, Does::Deliver(0), Comes::Told(3, 9, 6, Rights::R)),
            // the faults of the other stages, and of a write
            (
                12,
                Does::Deliver(0),
                Comes::ToldNone(1, 34359738368, Cause::ReadGuestPageFault),
            ),
            (
                13,
                Does::Deliver(0),
                Comes::ToldNone(2, 34359738368, Cause::ReadPageFault),
            ),
            (
                14,
                Does::Deliver(0),
                Comes::ToldNone(3, 9, Cause::WriteGuestPageFault),
            ),
            // the frames of others
            (
                15,
                Does::ReadBy(Way::Cached, 1, 0x7ffffffff000, 2),
                Comes::Accepted(1, 6),
            ),
            (
                16,
                Does::ReadBy(Way::Cached, 2, 0x7ffffffff000, 2),
                Comes::Accepted(1, 7),
            ),
            (
                17,
                Does::ReadBy(Way::Cached, 3, 0x9000, 2),
                Comes::Accepted(1, 5),
            ),
        ],
    ),
];

// Each run may come, and none of its changes.
#[test]
fn runs_are_judged(rt: HostRuntime) {
    are_judged(&rt, rt.alloc(), &RUNS);
}

/// The first line that may not come, where device 1 is attached in the mode and then granted the page so.
fn granted_so(
    rt: &impl Abort,
    alloc: Global,
    mode: Mode,
    page: u64,
    comes: &Comes,
) -> Option<usize> {
    let begins = [
        (Does::Plug(1), Comes::Done),
        (Does::AttachIn(1, mode, &[]), Comes::Done),
    ];
    let mut lines = lines_of(rt, alloc, &begins, None);
    let grant = Does::Grant(1, page, 5, GrantRights::ReadOnly, &[]);
    push(rt, alloc, &mut lines, &grant, comes);
    judged(rt, alloc, &lines)
}

/// The pages that can be granted in each mode are below this.
static LIMITS: [(Mode, u64); 6] = [
    (Mode::First(Size::Sv39), 67108864),
    (Mode::Second(Size::Sv39), 67108864),
    (Mode::Both(Size::Sv39), 67108864),
    (Mode::First(Size::Sv48), 34359738368),
    (Mode::Second(Size::Sv48), 34359738368),
    (Mode::Both(Size::Sv48), 34359738368),
];

/// Ends the test where this page isn't granted in the mode, or may be refused as one out of range.
fn is_in_range(rt: &impl Abort, alloc: Global, mode: Mode, page: u64) {
    let refused = Comes::Refused(Refusal::IovaOutOfRange);
    expect(
        rt,
        granted_so(rt, alloc, mode, page, &Comes::Done).is_none(),
    );
    expect(rt, granted_so(rt, alloc, mode, page, &refused) == Some(2));
}

/// The other way round.
fn is_out_of_range(rt: &impl Abort, alloc: Global, mode: Mode, page: u64) {
    let refused = Comes::Refused(Refusal::IovaOutOfRange);
    expect(
        rt,
        granted_so(rt, alloc, mode, page, &Comes::Done) == Some(2),
    );
    expect(rt, granted_so(rt, alloc, mode, page, &refused).is_none());
}

#[test]
fn each_mode_has_the_limit_of_its_size(rt: HostRuntime) {
    for (mode, limit) in LIMITS.iter() {
        is_in_range(&rt, rt.alloc(), *mode, limit.wrapping_sub(1));
        is_out_of_range(&rt, rt.alloc(), *mode, *limit);
    }
}

/// Device 2 is granted so many frames, from the lowest on, at the pages with their numbers. Its tables lie in the highest
/// three of the frames that aren't the system's.
fn push_grants(rt: &impl Abort, alloc: Global, lines: &mut Vec<Line>, count: u64) {
    for number in 0..count {
        let taken: &[u64] = if number == 0 { &[58, 57] } else { &[] };
        let grant = Does::Grant(2, number, number, GrantRights::ReadOnly, taken);
        push(rt, alloc, lines, &grant, &Comes::Done);
    }
}

/// The root of device 1 in the mode, the highest frames below those of device 2.
fn root_in(mode: Mode) -> &'static [u64] {
    match mode {
        Mode::First(_) => &[56],
        Mode::Second(_) | Mode::Both(_) => &[52, 53, 54, 55],
    }
}

/// Whether device 1, attached in the mode, may be refused a grant of the frame for want of frames, where device 2 holds
/// the lowest so many. No other line may be what doesn't come.
fn may_want(rt: &impl Abort, alloc: Global, mode: Mode, held: u64, named: u64) -> bool {
    let begins = [
        (Does::Plug(1), Comes::Done),
        (Does::Plug(2), Comes::Done),
        (Does::Attach(2, &[59]), Comes::Done),
        (Does::AttachIn(1, mode, root_in(mode)), Comes::Done),
    ];
    let mut lines = lines_of(rt, alloc, &begins, None);
    push_grants(rt, alloc, &mut lines, held);
    let last = lines.len();
    let grant = Does::Grant(1, 0, named, GrantRights::ReadOnly, &[]);
    let refused = Comes::Refused(Refusal::NoFrames);
    push(rt, alloc, &mut lines, &grant, &refused);
    let first = judged(rt, alloc, &lines);
    expect(rt, first.is_none() || first == Some(last));
    first.is_none()
}

/// In a mode, with so many frames held, whether a grant of this frame may be refused for want of frames.
static WANTS: [(Mode, u64, u64, bool); 14] = [
    // frames 53 to 55 are free, then 54 and 55, then 55
    (Mode::First(Size::Sv48), 53, 0, false),
    (Mode::First(Size::Sv48), 54, 0, true),
    (Mode::First(Size::Sv39), 54, 0, false),
    (Mode::First(Size::Sv39), 55, 0, true),
    // the frame that is named is one of them
    (Mode::First(Size::Sv48), 53, 55, true),
    (Mode::First(Size::Sv39), 53, 55, false),
    // frames 50, 51 and 56 are free, then 51 and 56, then 56
    (Mode::Second(Size::Sv48), 50, 0, false),
    (Mode::Second(Size::Sv48), 51, 0, true),
    (Mode::Second(Size::Sv39), 51, 0, false),
    (Mode::Second(Size::Sv39), 52, 0, true),
    (Mode::Both(Size::Sv48), 50, 0, false),
    (Mode::Both(Size::Sv48), 51, 0, true),
    (Mode::Both(Size::Sv39), 51, 0, false),
    (Mode::Both(Size::Sv39), 52, 0, true),
];

#[test]
fn a_grant_wants_a_table_for_each_level_below_the_root(rt: HostRuntime) {
    for (mode, held, named, may) in WANTS.iter() {
        expect(&rt, may_want(&rt, rt.alloc(), *mode, *held, *named) == *may);
    }
}
