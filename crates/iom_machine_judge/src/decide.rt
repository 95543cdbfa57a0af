// Decides the machine: which step may come.
ghost use Rattle.std.specs.Prelude.{IfOk};
ghost use Rattle.iom_machine_judge.specs.Words.{Decides, DecidesUnchanged, ChosenStep};
ghost use Rattle.iom_machine_judge.specs.Verdicts.{IsFoundOf, RunsAreChosen};
ghost use Rattle.iom_machine_judge.specs.Deciding.{CallStep, UnchangedStep};

use crate::acts::judge_act;
use crate::calls::{
    judge_attach, judge_detach, judge_grant, judge_plug, judge_quarantine, judge_release,
    judge_revive,
};
use crate::line::{Decided, Line};
use crate::polls::judge_poll;
use crate::processor::{judge_free, judge_peek, judge_poke};
use crate::questions::judge_deliver;
use iom_base::{Access, Refusal};
use iom_kept_state::KeptState;
use iom_machine::{Choice, Event, Outcome};
use std::alloc::{AllocError, Global};

/// Whether a call of the driver may come so; the next state is then kept.
fn judge_call(
    alloc: Global,
    kept: &mut KeptState,
    event: &Event,
    outcome: &Outcome,
    choice: &Choice,
) -> Decided
    ensures { IfOk result (λ may. Decides may kept.old kept.new (λ before after. CallStep choice.now before event.now outcome.now after)) }
{
    let (pages, taken) = (choice.directory.as_slice(), choice.taken.as_slice());
    match event {
        Event::Plug { device, new } => judge_plug(alloc, kept, *device, *new, outcome),
        Event::Attach { device, mode, ats } => {
            judge_attach(kept, *device, *mode, *ats, outcome, pages, taken)
        }
        Event::Detach { device } => Ok(judge_detach(kept, *device, outcome)),
        Event::Grant {
            device,
            page,
            frame,
            rights,
        } => judge_grant(kept, *device, *page, *frame, *rights, outcome, taken),
        Event::Release { device, page } => judge_release(kept, *device, *page, outcome),
        Event::Quarantine { device } => judge_quarantine(kept, *device, outcome),
        Event::Revive { device } => Ok(judge_revive(kept, *device, outcome)),
        _ => Ok(false),
    }
}

/// Whether this may come of an event of the queues or of a message, which leaves the state as it is.
fn judge_unchanged(kept: &KeptState, event: &Event, outcome: &Outcome, choice: &Choice) -> bool
    ensures { DecidesUnchanged result kept.now (λ before after. UnchangedStep choice.now before event.now outcome.now after) }
{
    match event {
        Event::Restart => {
            matches!(
                outcome,
                Outcome::Done | Outcome::Refused(Refusal::NumbersUsedUp)
            )
        }
        Event::Fetch => matches!(outcome, Outcome::Fetched(_)),
        Event::Timeout => matches!(outcome, Outcome::TimedOut | Outcome::NoEffect),
        Event::Faults => matches!(outcome, Outcome::Record(_) | Outcome::NoRecord),
        Event::Deliver { .. } => judge_deliver(kept, outcome, choice),
        Event::Drop { .. } => matches!(outcome, Outcome::Dropped | Outcome::NoMessage),
        Event::Repeat { .. } => {
            matches!(
                outcome,
                Outcome::Repeated | Outcome::Lost | Outcome::NoMessage
            )
        }
        _ => false,
    }
}

/// Whether the event may have this outcome where what the outcome doesn't show was chosen so, with this access for the choice's: then the
/// next state is kept, and else nothing changed.
pub fn judge(
    alloc: Global,
    kept: &mut KeptState,
    event: &Event,
    outcome: &Outcome,
    choice: &Choice,
    access: &Access,
) -> Result<bool, AllocError>
    ensures { IfOk result (λ may. Decides may kept.old kept.new (λ before after.
        ChosenStep (record choice.now { access = access.now }) before event.now outcome.now after)) }
{
    match event {
        Event::Plug { .. } | Event::Attach { .. } | Event::Detach { .. } | Event::Grant { .. } => {
            judge_call(alloc, kept, event, outcome, choice)
        }
        Event::Release { .. } | Event::Quarantine { .. } | Event::Revive { .. } => {
            judge_call(alloc, kept, event, outcome, choice)
        }
        Event::Restart | Event::Fetch | Event::Timeout | Event::Faults => {
            Ok(judge_unchanged(kept, event, outcome, choice))
        }
        Event::Deliver { .. } | Event::Drop { .. } | Event::Repeat { .. } => {
            Ok(judge_unchanged(kept, event, outcome, choice))
        }
        Event::Poll => judge_poll(kept, outcome, choice),
        Event::Poke { address, bytes } => judge_poke(kept, *address, bytes.as_slice(), outcome),
        Event::Peek { address, len } => Ok(judge_peek(kept, *address, *len, outcome)),
        Event::Free { frame } => Ok(judge_free(kept, *frame, outcome)),
        Event::Read { device, .. }
        | Event::Write { device, .. }
        | Event::ReadTranslated { device, .. }
        | Event::WriteTranslated { device, .. }
        | Event::ReadThroughCache { device, .. }
        | Event::WriteThroughCache { device, .. }
        | Event::Ask { device, .. }
        | Event::Forge { device, .. }
        | Event::Reset { device }
        | Event::Medium { device, .. }
        | Event::Queue { device, .. }
        | Event::Step { device }
        | Event::Status { device }
        | Event::Commit { device } => {
            judge_act(alloc, kept, *device, event, outcome, choice.frame, access)
        }
    }
}

/// The number of the first line, counted from 0, that may not come, if there is one. Those before it may come one after another, or
/// all of them, and the state that they leave is then kept.
pub fn judge_run(
    alloc: Global,
    kept: &mut KeptState,
    lines: &[Line],
) -> Result<Option<usize>, AllocError>
    ensures { IfOk result (λ found. IsFoundOf found kept.old kept.new lines.now) }
{
    for (number, line) in lines.iter().enumerate() {
        if !judge(
            alloc,
            kept,
            &line.event,
            &line.outcome,
            &line.choice,
            &line.choice.access,
        )? {
            return Ok(Some(number));
        }
    }
    Ok(None)
}

/// Every run is one of some lines, with those events and outcomes, which some choices complete: so
/// there are lines which the judge finds lawful.
pub fn lawful_runs_have_choices()
    ensures { RunsAreChosen }
{}
