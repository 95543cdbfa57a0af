//! The judge finds each step of the drawn runs lawful too in which devices come and go, and don't always answer.

use crate::judged::{are_lawful, have_often};
use crate::notes::Note;
use crate::run::Plan;
use std::test::Fail;

#[test]
fn each_drawn_step_of_a_lifecycle_is_lawful(rt: HostRuntime) -> Result<(), Fail> {
    are_lawful(&rt, Plan::Lifecycle)
}

/// So often each of these comes at least, in the runs that are counted.
static LEAST: [(Note, usize); 16] = [
    (Note::Kept, 10),
    (Note::Stale, 10),
    (Note::Closed, 5),
    (Note::NotClosed, 10),
    (Note::Made, 5),
    (Note::TimedOut, 5),
    (Note::NoEffect, 5),
    (Note::Stopped, 5),
    (Note::Told, 3),
    (Note::Restarted, 5),
    (Note::Quarantined, 5),
    (Note::Revived, 5),
    (Note::NotYet, 5),
    (Note::Detached, 5),
    (Note::Attached, 8),
    (Note::Reset, 5),
];

/// One long run over a directory of one level, and one over three.
#[test]
fn devices_are_quarantined_and_come_back(rt: HostRuntime) -> Result<(), Fail> {
    have_often(&rt, Plan::Lifecycle, [1, 2], 6000, &LEAST)
}
