// The driver's calls.
ghost use Rattle.std.specs.Prelude.{◌≡◌, ◌↔◌, ◌+◌, ◌++◌, ◌⊎◌, false, All, IfOk, IsTrue, None};
ghost use Rattle.iom_machine_judge.specs.Words.{History, IsFree, MayRefusePlug, MayRefuseAttach, MayRefuseGrant, MayFindNoPlace, Plugs, Attaches, Detaches, Grants, Releases, Quarantines, Revives, IsLastPending, MayTakeTicket, IsPastOf, is_confirmed_in, state_of, Decides};

use crate::devices::{attach_again, place_of, set_attachment, start_leaving, under_ticket};
use crate::disks::without_disk;
use crate::line::Decided;
use crate::reasons::{
    attach_refusal, detach_refusal, grant_refusal, plug_refusal, quarantine_refusal, refuses,
    release_refusal, revive_refusal,
};
use iom_base::{DeviceId, GrantRights, Mode, NewDevice, Owner, Refusal, Sequence};
use iom_kept_state::KeptState;
use iom_machine::{Attachment, Device, Outcome};
use std::alloc::Global;

fn may_refuse_plug(why: Refusal) -> bool
    ensures { IsTrue result ↔ MayRefusePlug why }
{
    matches!(why, Refusal::Memory)
}

pub fn may_refuse_attach(kept: &KeptState, mode: Mode, why: Refusal) -> bool
    ensures { (h : History) → IsPastOf kept.now.grants h → IsTrue result ↔ MayRefuseAttach (state_of kept.now h) mode why }
{
    match why {
        Refusal::NoFrames => match mode {
            Mode::First(_) => kept.are_fewer_free(None, 3),
            Mode::Second(_) | Mode::Both(_) => kept.are_fewer_runs_free(3),
        },
        Refusal::Memory => true,
        _ => false,
    }
}

pub fn may_refuse_grant(kept: &KeptState, id: DeviceId, frame: u64, why: Refusal) -> bool
    ensures { (h : History) → IsPastOf kept.now.grants h → IsTrue result ↔ MayRefuseGrant (state_of kept.now h) id frame why }
{
    match why {
        Refusal::NoFrames => kept.are_fewer_free(
            Some(frame),
            kept.attachment(id).table_limit() as usize,
        ),
        Refusal::Memory => true,
        _ => false,
    }
}

fn may_find_no_place(why: Refusal) -> bool
    ensures { IsTrue result ↔ MayFindNoPlace why }
{
    matches!(why, Refusal::QueueFull | Refusal::NumbersUsedUp)
}

/// Whether this ticket is given next, where nothing is refused.
fn may_give(kept: &KeptState, first: Option<Refusal>, ticket: u32) -> bool
    ensures { IsTrue result ↔ ((first ≡ None) × (ticket ≡ kept.now.grants.given + 1)) }
{
    first.is_none() && u64::from(ticket) == u64::from(kept.grants.given) + 1
}

/// Whether the ticket was given last, and isn't confirmed.
fn is_last_pending(kept: &KeptState, ticket: u32) -> bool
    ensures shown { IsTrue result → (ticket ≡ kept.now.grants.given) × (is_confirmed_in kept.now.grants ticket ≡ false) }
    ensures pending { (h : History) → IsPastOf kept.now.grants h → IsTrue result ↔ IsLastPending (state_of kept.now h) ticket }
{
    ticket != 0 && ticket == kept.grants.given && !kept.grants.is_confirmed(ticket)
}

/// Whether a release may take this ticket, where nothing is refused: the next one, or the last one, where no order is asked for.
fn may_take(kept: &KeptState, first: Option<Refusal>, ticket: u32) -> bool
    ensures shown { IsTrue result → (first ≡ None)
        × ((ticket ≡ kept.now.grants.given + 1) ⊎ ((ticket ≡ kept.now.grants.given) × (is_confirmed_in kept.now.grants ticket ≡ false))) }
    ensures take { (h : History) → IsPastOf kept.now.grants h → IsTrue result ↔ ((first ≡ None) × MayTakeTicket (state_of kept.now h) ticket) }
{
    may_give(kept, first, ticket)
        || first.is_none() && !kept.limits.in_order && is_last_pending(kept, ticket)
}

/// Whether a plug may come so; the next state is then kept.
pub(crate) fn judge_plug(
    alloc: Global,
    kept: &mut KeptState,
    id: DeviceId,
    what: NewDevice,
    outcome: &Outcome,
) -> Decided
    ensures { IfOk result (λ may. Decides may kept.old kept.new (λ before after. Plugs before id what outcome.now after)) }
{
    let first = plug_refusal(kept, id, what);
    match outcome {
        Outcome::Done => {
            if first.is_some() {
                return Ok(false);
            }
            let left = without_disk(alloc, kept.disks.as_slice(), what.disk())?;
            kept.disks = left;
            kept.devices.push(Device {
                id,
                kind: what.kind(),
                has_disk: what.disk().is_some(),
                attachment: Attachment::Detached,
                accepted: 0,
                in_flight: Sequence::new(alloc),
            })?;
            Ok(true)
        }
        Outcome::Refused(why) => Ok(refuses(first, may_refuse_plug(*why), *why)),
        _ => Ok(false),
    }
}

/// Whether each of these frames and of those is free.
fn are_both_free(kept: &KeptState, pages: &[u64], taken: &[u64]) -> bool
    ensures { (h : History) → IsPastOf kept.now.grants h → IsTrue result ↔ All (IsFree (state_of kept.now h)) (pages.now ++ taken.now) }
{
    kept.are_free_besides(None, pages) && kept.are_free_besides(None, taken)
}

/// Whether an attach may come so, by which these frames become pages of the device directory and tables; the next state is then kept.
pub(crate) fn judge_attach(
    kept: &mut KeptState,
    id: DeviceId,
    mode: Mode,
    ats: bool,
    outcome: &Outcome,
    pages: &[u64],
    taken: &[u64],
) -> Decided
    ensures { IfOk result (λ may. Decides may kept.old kept.new (λ before after. Attaches pages.now taken.now before id mode ats outcome.now after)) }
{
    let first = attach_refusal(kept, id, ats);
    match outcome {
        Outcome::Done => {
            if first.is_some() || !are_both_free(kept, pages, taken) {
                return Ok(false);
            }
            let Some(place) = place_of(kept.devices.as_slice(), id) else {
                return Ok(false);
            };
            set_attachment(&mut kept.devices, place, Attachment::Attached { mode, ats });
            kept.frames.reserve(pages, Owner::System)?;
            kept.frames.reserve(taken, Owner::OneDevice(id))?;
            Ok(true)
        }
        Outcome::Refused(why) => Ok(refuses(first, may_refuse_attach(kept, mode, *why), *why)),
        _ => Ok(false),
    }
}

/// Whether a detach may come so; the next state is then kept.
pub(crate) fn judge_detach(kept: &mut KeptState, id: DeviceId, outcome: &Outcome) -> bool
    ensures { Decides result kept.old kept.new (λ before after. Detaches before id outcome.now after) }
{
    let first = detach_refusal(kept, id);
    match outcome {
        Outcome::Ticket(ticket) => {
            if !may_give(kept, first, *ticket) {
                return false;
            }
            let Some(place) = place_of(kept.devices.as_slice(), id) else {
                return false;
            };
            start_leaving(&mut kept.devices, place, *ticket);
            kept.grants.give(*ticket);
            true
        }
        Outcome::Refused(why) => refuses(first, may_find_no_place(*why), *why),
        _ => false,
    }
}

/// Whether a grant may come so, by which these frames become tables; the next state is then kept.
pub(crate) fn judge_grant(
    kept: &mut KeptState,
    id: DeviceId,
    page: u64,
    frame: u64,
    rights: GrantRights,
    outcome: &Outcome,
    taken: &[u64],
) -> Decided
    ensures { IfOk result (λ may. Decides may kept.old kept.new (λ before after. Grants taken.now before id page frame rights outcome.now after)) }
{
    let first = grant_refusal(kept, id, page, frame);
    match outcome {
        Outcome::Done => {
            if first.is_some() || !kept.are_free_besides(Some(frame), taken) {
                return Ok(false);
            }
            kept.grants.grant(id, page, frame, rights.rights())?;
            kept.frames.reserve(taken, Owner::OneDevice(id))?;
            Ok(true)
        }
        Outcome::Refused(why) => Ok(refuses(first, may_refuse_grant(kept, id, frame, *why), *why)),
        _ => Ok(false),
    }
}

/// Whether a release may come so; the next state is then kept.
pub(crate) fn judge_release(
    kept: &mut KeptState,
    id: DeviceId,
    page: u64,
    outcome: &Outcome,
) -> Decided
    ensures { IfOk result (λ may. Decides may kept.old kept.new (λ before after. Releases before id page outcome.now after)) }
{
    let first = release_refusal(kept, id, page);
    match outcome {
        Outcome::Ticket(ticket) => {
            if !may_take(kept, first, *ticket) {
                return Ok(false);
            }
            kept.grants.release(id, page, *ticket)?;
            Ok(true)
        }
        Outcome::Refused(why) => Ok(refuses(first, may_find_no_place(*why), *why)),
        _ => Ok(false),
    }
}

/// Whether a quarantine of a device that doesn't answer may come so; the next state is then kept.
pub(crate) fn judge_quarantine(kept: &mut KeptState, id: DeviceId, outcome: &Outcome) -> Decided
    ensures { IfOk result (λ may. Decides may kept.old kept.new (λ before after. Quarantines before id outcome.now after)) }
{
    let first = quarantine_refusal(kept, id);
    match outcome {
        Outcome::Ticket(ticket) => {
            if !may_give(kept, first, *ticket) {
                return Ok(false);
            }
            let Some(place) = place_of(kept.devices.as_slice(), id) else {
                return Ok(false);
            };
            kept.grants.release_all(id, *ticket)?;
            under_ticket(&mut kept.devices, place, *ticket);
            Ok(true)
        }
        Outcome::Refused(why) => Ok(refuses(first, may_find_no_place(*why), *why)),
        _ => Ok(false),
    }
}

/// Whether a revival may come so; the next state is then kept.
pub(crate) fn judge_revive(kept: &mut KeptState, id: DeviceId, outcome: &Outcome) -> bool
    ensures { Decides result kept.old kept.new (λ before after. Revives before id outcome.now after) }
{
    let first = revive_refusal(kept, id);
    match outcome {
        Outcome::Done => {
            if first.is_some() {
                return false;
            }
            let Some(place) = place_of(kept.devices.as_slice(), id) else {
                return false;
            };
            attach_again(&mut kept.devices, place);
            true
        }
        Outcome::Refused(why) => refuses(first, false, *why),
        _ => false,
    }
}
