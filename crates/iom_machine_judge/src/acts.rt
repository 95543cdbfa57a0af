// What may come of an act of a device, which is plugged in and of a kind that can do what is asked.
ghost use Rattle.std.specs.Prelude.{◌≡◌, ◌↔◌, ◌<◌, IfOk, IsTrue, Some, length, slice_get};
ghost use Rattle.iom_machine_judge.specs.Words.{Decides, Refused, Device, StandsAt, Acts};
ghost use Rattle.iom_machine_judge.specs.Deciding.{able_to, ActStep};

use crate::accesses::access_of;
use crate::block_devices::{insert, may_set, take_step};
use crate::commits::make;
use crate::devices::place_of;
use crate::line::Decided;
use crate::{requests, through_cache, translated};
use iom_base::{Access, DeviceId, DeviceKind, Refusal};
use iom_kept_state::KeptState;
use iom_machine::{Event, Outcome};
use std::alloc::Global;

/// Whether a device of this kind can do what the event asks.
pub fn is_able(event: &Event, kind: DeviceKind) -> bool
    ensures { result ≡ able_to event.now kind }
{
    match event {
        Event::Read { .. } | Event::Write { .. } => kind.sends_untranslated(),
        Event::ReadTranslated { .. } | Event::WriteTranslated { .. } | Event::Forge { .. } => {
            kind.forges()
        }
        Event::ReadThroughCache { .. } | Event::WriteThroughCache { .. } => {
            kind.sends_through_cache()
        }
        Event::Ask { .. } => kind.asks_questions(),
        Event::Medium { .. } | Event::Queue { .. } | Event::Step { .. } | Event::Status { .. } => {
            kind.is_block_device()
        }
        _ => true,
    }
}

/// Whether this may come where the device at the place does what the event asks; what is kept is then what it leaves.
fn act_at(
    alloc: Global,
    kept: &mut KeptState,
    place: usize,
    event: &Event,
    outcome: &Outcome,
    frame: u64,
    access: &Access,
) -> Decided
    requires { place < length kept.old.devices }
    ensures { IfOk result (λ may. (device : Device) → slice_get kept.old.devices place ≡ Some device → StandsAt kept.old.devices device.id place
        → Decides may kept.old kept.new (λ before after. ActStep frame access.now event.now device before outcome.now after)) }
{
    match event {
        Event::Read { .. } | Event::Write { .. } => {
            let access = access_of(alloc, &mut kept.spare, event)?;
            requests::answer_at(kept, place, access, frame, outcome)
        }
        Event::ReadTranslated { .. } | Event::WriteTranslated { .. } => {
            let access = access_of(alloc, &mut kept.spare, event)?;
            let device = &kept.devices.as_slice()[place];
            Ok(translated::may_answer(kept, device, &access, outcome))
        }
        Event::ReadThroughCache { .. } | Event::WriteThroughCache { .. } => {
            let access = access_of(alloc, &mut kept.spare, event)?;
            through_cache::answer_at(kept, place, access, frame, outcome)
        }
        Event::Ask { .. } | Event::Forge { .. } => {
            Ok(matches!(outcome, Outcome::Sent | Outcome::Lost))
        }
        Event::Reset { .. } => Ok(matches!(outcome, Outcome::Done)),
        Event::Medium { disk, .. } => insert(alloc, kept, place, *disk, outcome),
        Event::Queue {
            size,
            descriptors,
            available,
            used,
            ..
        } => Ok(may_set(*size, *descriptors, *available, *used, outcome)),
        Event::Step { .. } => take_step(alloc, kept, place, outcome, frame, access),
        Event::Status { .. } => Ok(matches!(outcome, Outcome::Status(_))),
        Event::Commit { .. } => make(kept, place, outcome),
        _ => Ok(false),
    }
}

/// Whether it is refused so.
fn is_refused(outcome: &Outcome, refusal: Refusal) -> bool
    ensures { IsTrue result ↔ (outcome.now ≡ Refused refusal) }
{
    match outcome {
        Outcome::Refused(why) => *why == refusal,
        _ => false,
    }
}

/// Whether the act of the device may have this outcome; what is kept is then what it leaves.
pub(crate) fn judge_act(
    alloc: Global,
    kept: &mut KeptState,
    id: DeviceId,
    event: &Event,
    outcome: &Outcome,
    frame: u64,
    access: &Access,
) -> Decided
    ensures { IfOk result (λ may. Decides may kept.old kept.new (λ before after.
        Acts (able_to event.now) (λ device. ActStep frame access.now event.now device before outcome.now after) before id outcome.now after)) }
{
    let Some(place) = place_of(kept.devices.as_slice(), id) else {
        return Ok(is_refused(outcome, Refusal::NoSuchDevice));
    };
    let device = &kept.devices.as_slice()[place];
    if !is_able(event, device.kind) {
        return Ok(is_refused(outcome, Refusal::WrongKind));
    }
    act_at(alloc, kept, place, event, outcome, frame, access)
}
