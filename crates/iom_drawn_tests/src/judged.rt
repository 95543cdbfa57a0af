// The judge of the ledger machine over a run.

use crate::choices::Choices;
use crate::expect::expect;
use crate::notes::{Note, come_often};
use crate::run::{Plan, Run, Step};
use iom_kept_state::KeptState;
use iom_machine::Limits;
use iom_machine_judge::judge;
use std::alloc::{AllocError, Global};
use std::process::Abort;
use std::test::Fail;

/// Whether the judge finds the step lawful, and the list of the messages under way is so too.
fn is_step_lawful(
    alloc: Global,
    kept: &mut KeptState,
    choices: &mut Choices,
    step: &Step,
) -> Result<bool, AllocError> {
    if !step.agrees {
        return Ok(false);
    }
    let choice = choices.choice(alloc, kept, step)?;
    judge(
        alloc,
        kept,
        &step.event,
        &step.outcome,
        &choice,
        &choice.access,
    )
}

/// How many of the steps are so, up to the first that isn't.
// What is kept is lent: of what a function owns each later statement carries every part.
fn lawful_among(
    alloc: Global,
    kept: &mut KeptState,
    choices: &mut Choices,
    steps: &[Step],
) -> Result<usize, AllocError> {
    for place in 0..steps.len() {
        if !is_step_lawful(alloc, kept, choices, &steps[place])? {
            return Ok(place);
        }
    }
    Ok(steps.len())
}

/// How many of the run's are, from power-on.
fn lawful(alloc: Global, run: &Run) -> Result<usize, AllocError> {
    let mut kept = KeptState::power_on(alloc, Limits::of_model(), 64, run.levels, &[])?;
    let mut choices = Choices::new(alloc);
    lawful_among(alloc, &mut kept, &mut choices, &run.steps)
}

/// Whether the judge finds each step of a run of 2,000 events lawful, the world counts its events, and it settles at the end.
fn is_lawful(alloc: Global, plan: Plan, seed: u64) -> Result<bool, Fail> {
    let mut run = Run::drawn(alloc, plan, seed, 2000)?;
    Ok(run.has_count() && lawful(alloc, &run)? == run.steps.len() && run.settles()?)
}

/// Ends the test where that isn't so of one of a hundred runs.
pub(crate) fn are_lawful(rt: &(impl Abort + AllocGlobal), plan: Plan) -> Result<(), Fail> {
    for seed in 0..100 {
        expect(rt, is_lawful(rt.alloc(), plan, seed)?);
    }
    Ok(())
}

/// Whether in a run of so many events each of these comes so often at least.
fn has_often(
    alloc: Global,
    plan: Plan,
    seed: u64,
    count: u64,
    least: &[(Note, usize)],
) -> Result<bool, Fail> {
    let run = Run::drawn(alloc, plan, seed, count)?;
    Ok(come_often(&run.steps, least))
}

/// Ends the test where that isn't so of one of the runs of these two seeds.
pub(crate) fn have_often(
    rt: &(impl Abort + AllocGlobal),
    plan: Plan,
    seeds: [u64; 2],
    count: u64,
    least: &[(Note, usize)],
) -> Result<(), Fail> {
    for seed in seeds {
        expect(rt, has_often(rt.alloc(), plan, seed, count, least)?);
    }
    Ok(())
}
