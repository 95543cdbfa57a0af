//! The judge of the ledger machine finds each step of the drawn runs lawful in which devices stay attached.

use crate::judged::{are_lawful, have_often};
use crate::notes::Note;
use crate::run::Plan;
use std::test::Fail;

#[test]
fn each_drawn_step_with_translation_services_is_lawful(rt: HostRuntime) -> Result<(), Fail> {
    are_lawful(&rt, Plan::Steady)
}

/// So often each of these comes at least, in the runs that are counted.
static LEAST: [(Note, usize); 10] = [
    (Note::Kept, 20),
    (Note::Stale, 20),
    (Note::Invalidated, 20),
    (Note::Closed, 20),
    (Note::NotClosed, 20),
    (Note::Miss, 20),
    (Note::Made, 20),
    (Note::Forged, 10),
    (Note::Dropped, 10),
    (Note::Repeated, 20),
];

/// One run with a device in both stages, with tables of four levels, and one with a device in the second, with tables of
/// three.
#[test]
fn devices_use_what_they_keep_and_drop_it(rt: HostRuntime) -> Result<(), Fail> {
    have_often(&rt, Plan::Steady, [47, 6], 2000, &LEAST)
}
