//! A hundred drawn runs keep the rules, and meet all that there is to meet.

use crate::chooser::Chooser;
use crate::choosing::shown_of;
use crate::judge::Rule;
use crate::met::Row;
use crate::parts::Burst;
use crate::run::Run;
use crate::wanted::{first_missing, first_missing_of_loads};
use std::alloc::Global;
use std::test::Fail;

/// The last seed; the first is 1.
const LAST_SEED: u64 = 100;

/// How many events each run has, beside those by which the test looks.
const EVENTS: u64 = 2000;

/// What the run of the seed begins with, when the devices are there.
fn beginning(seed: u64) -> Burst {
    match seed % 8 {
        0 => Burst::Crowded,
        1 => Burst::Tickets,
        2 => Burst::Commands,
        _ => Burst::Nothing,
    }
}

/// The rule that the run of the seed breaks first, if it breaks one. What it meets is noted.
fn broken_by(
    alloc: Global,
    seed: u64,
    is_stepped: bool,
    met: &mut Vec<Row>,
) -> Result<Option<Rule>, Fail> {
    let (levels, wide) = match seed % 3 {
        0 => (1, 0x80),
        1 => (2, 0x1_0000),
        _ => (3, 0x100_0000),
    };
    let burst = beginning(seed);
    let mut run = Run::new(alloc, levels, wide, burst == Burst::Crowded, is_stepped)?;
    let mut chooser = Chooser::new(seed, burst, seed % 8 == 3, shown_of(&run.knows));
    for number in 0..EVENTS {
        let call = chooser.next(&run.knows);
        let reply = run.happen(call, met)?;
        chooser.hear(reply);
    }
    run.end(chooser.last())?;
    Ok(run.broken)
}

/// The first seed whose run breaks a rule, and the rule.
fn first_broken(
    alloc: Global,
    is_stepped: bool,
    met: &mut Vec<Row>,
) -> Result<Option<(u64, Rule)>, Fail> {
    for seed in 1..LAST_SEED + 1 {
        if let Some(rule) = broken_by(alloc, seed, is_stepped, met)? {
            return Ok(Some((seed, rule)));
        }
    }
    Ok(None)
}

#[test]
fn each_run_keeps_the_rules_and_all_is_met(rt: HostRuntime) -> Result<(), Fail> {
    let mut met = Vec::new(rt.alloc());
    assert_eq!(rt; first_broken(rt.alloc(), false, &mut met)?, None);
    assert_eq!(rt; first_missing(&met), None, "the row of what has to be met");
    Ok(())
}

#[test]
fn each_run_of_single_loads_keeps_the_rules(rt: HostRuntime) -> Result<(), Fail> {
    let mut met = Vec::new(rt.alloc());
    assert_eq!(rt; first_broken(rt.alloc(), true, &mut met)?, None);
    assert_eq!(rt;
        first_missing_of_loads(&met),
        None,
        "the row of what has to be met"
    );
    Ok(())
}
