//! The judge of the ledger machine finds each step of the drawn runs lawful in which raw devices are in every mode.

use crate::expect::expect;
use crate::judged::are_lawful;
use crate::notes::{count_far, count_made};
use crate::run::{Plan, Run};
use std::test::Fail;

#[test]
fn each_drawn_step_in_every_mode_is_lawful(rt: HostRuntime) -> Result<(), Fail> {
    are_lawful(&rt, Plan::Modes)
}

/// Two long runs, since few of the drawn tables of a guest lead anywhere: all tables of the first have three levels, and
/// all of the second four.
#[test]
fn devices_in_every_mode_reach_memory(rt: HostRuntime) -> Result<(), Fail> {
    for (seed, far) in [(1, 0), (28, 5)] {
        let run = Run::drawn(rt.alloc(), Plan::Modes, seed, 10_000)?;
        for device in [run.ids.first, run.ids.other, run.ids.raw] {
            expect(&rt, count_made(&run.steps, device) > 20);
            expect(&rt, count_far(&run.steps, device) >= far);
        }
    }
    Ok(())
}
