// Tables that a poll gives back while their device stays attached.
use crate::expect::expect;
use crate::lines::{Change, Comes, Does, judged, judged_under, lines_of};
use iom_base::GrantRights;
use iom_machine::Limits;
use std::alloc::Global;
use std::process::Abort;

/// The tables of a page are given back once its release is confirmed, and the root after them.
static RUN: [(Does, Comes); 11] = [
    (Does::Plug(1), Comes::Done),
    (Does::Attach(1, &[59]), Comes::Done),
    (
        Does::Grant(1, 3, 5, GrantRights::ReadWrite, &[58, 57]),
        Comes::Done,
    ),
    (Does::Release(1, 3), Comes::Ticket(1)),
    (Does::Poll, Comes::Confirmed(1, 1)),
    (Does::PollReturning(&[57, 58]), Comes::NoneConfirmed),
    (Does::Free(57), Comes::Free(true)),
    (Does::Free(59), Comes::Free(false)),
    (Does::Peek(0x39000, 1), Comes::Bytes(&[0])),
    // to give back twice is the same as once
    (Does::PollReturning(&[59, 59]), Comes::NoneConfirmed),
    (Does::Detach(1), Comes::Ticket(2)),
];

/// Lines of that run, and what they are changed to, which may not come there.
static CHANGES: [Change; 8] = [
    // the page is released, and that isn't confirmed yet
    (4, Does::PollReturning(&[57]), Comes::NoneConfirmed),
    // one that is nobody's, one of the system, and none of the memory
    (5, Does::PollReturning(&[5]), Comes::NoneConfirmed),
    (5, Does::PollReturning(&[60]), Comes::NoneConfirmed),
    (5, Does::PollReturning(&[64]), Comes::NoneConfirmed),
    // one of them is enough
    (5, Does::PollReturning(&[57, 60]), Comes::NoneConfirmed),
    // given back already
    (9, Does::PollReturning(&[57]), Comes::NoneConfirmed),
    // what was given back is free, and the rest isn't
    (6, Does::Free(57), Comes::Free(false)),
    (7, Does::Free(59), Comes::Free(true)),
];

/// A device that is leaving, and one that is quarantined, each with nothing released, give back no table.
static LEAVING: [(Does, Comes); 4] = [
    (Does::Plug(1), Comes::Done),
    (Does::Attach(1, &[59]), Comes::Done),
    (Does::Detach(1), Comes::Ticket(1)),
    (Does::PollReturning(&[59]), Comes::NoneConfirmed),
];

static QUARANTINED: [(Does, Comes); 4] = [
    (Does::Plug(1), Comes::Done),
    (Does::Attach(1, &[59]), Comes::Done),
    (Does::Quarantine(1), Comes::Ticket(1)),
    (Does::PollReturning(&[59]), Comes::NoneConfirmed),
];

/// Limits that don't ask for order.
fn without_order() -> Limits {
    Limits {
        in_order: false,
        ..Limits::of_model()
    }
}

/// The first line of the run that may not come where no order is asked for, with one line changed where this is a change.
fn first_without_order(
    rt: &impl Abort,
    alloc: Global,
    base: &[(Does, Comes)],
    change: Option<&Change>,
) -> Option<usize> {
    let lines = lines_of(rt, alloc, base, change);
    judged_under(rt, alloc, without_order(), &lines)
}

#[test]
fn tables_are_given_back_once_nothing_lingers(rt: HostRuntime) {
    let alloc = rt.alloc();
    expect(&rt, first_without_order(&rt, alloc, &RUN, None).is_none());
    for change in CHANGES.iter() {
        let first = first_without_order(&rt, alloc, &RUN, Some(change));
        expect(&rt, first == Some(change.0));
    }
}

#[test]
fn only_attached_devices_give_tables_back(rt: HostRuntime) {
    let alloc = rt.alloc();
    expect(
        &rt,
        first_without_order(&rt, alloc, &LEAVING, None) == Some(3),
    );
    expect(
        &rt,
        first_without_order(&rt, alloc, &QUARANTINED, None) == Some(3),
    );
}

#[test]
fn no_table_is_given_back_where_order_is_asked_for(rt: HostRuntime) {
    let alloc = rt.alloc();
    let lines = lines_of(&rt, alloc, &RUN, None);
    expect(&rt, judged(&rt, alloc, &lines) == Some(5));
}
