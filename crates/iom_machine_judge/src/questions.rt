// What a device may be told that asks for the translation of a page.
ghost use Rattle.std.specs.Prelude.{◌≡◌, ◌↔◌, IsTrue, Some, true};
ghost use Rattle.iom_machine_judge.specs.Words.{IsPastOf, state_of, DecidesUnchanged, History, Lingers, May, Attached, Delivers, LingersSomewhere, MayShow, IsForEachKind, MayTellFormerly, MayTellUnderTicket, MayTell};
ghost use Rattle.iom_fabric.specs.declared.message.Translation.TheVariants.{Refused};

use crate::under_ticket::{cause_without_context, is_page_fault_of, is_page_fault_of_either};
use iom_base::{AccessKind, Cause, DeviceId, Mode, Rights};
use iom_fabric::Translation;
use iom_kept_state::{KeptGrants, KeptState};
use iom_machine::{Attachment, Choice, Outcome};

/// Whether the device is told that there is no translation, with the cause.
fn is_refused_with(reply: Translation, cause: Cause) -> bool
    ensures { IsTrue result ↔ (reply ≡ Refused cause) }
{
    match reply {
        Translation::Page { .. } => false,
        Translation::Refused(why) => why == cause,
    }
}

/// Whether the pair that was found is the one of this frame and these rights.
fn is_pair(found: Option<(u64, Rights)>, frame: u64, rights: Rights) -> bool
    ensures { IsTrue result ↔ (found ≡ Some (frame, rights)) }
{
    match found {
        None => false,
        Some(pair) => pair.0 == frame && pair.1 == rights,
    }
}

/// Whether the frame lingers at the page, with these rights.
fn pair_lingers(grants: &KeptGrants, id: DeviceId, page: u64, frame: u64, rights: Rights) -> bool
    ensures { (h : History) → IsPastOf grants.now h → IsTrue result ↔ Lingers h id page (frame, rights) }
{
    is_pair(grants.lingering(id, page), frame, rights)
}

/// Whether the frame may be shown in one stage, with these rights.
fn may_show(grants: &KeptGrants, id: DeviceId, page: u64, frame: u64, rights: Rights) -> bool
    ensures { (h : History) → IsPastOf grants.now h → IsTrue result ↔ MayShow h id page (frame, rights) }
{
    let held = grants.held(id, page);
    is_pair(held, frame, rights) || held.is_none() && pair_lingers(grants, id, page, frame, rights)
}

/// Whether the device may reach the frame by each kind of access that the rights allow.
fn may_each(grants: &KeptGrants, id: DeviceId, page: u64, frame: u64, rights: Rights) -> bool
    ensures { (h : History) → IsPastOf grants.now h → IsTrue result ↔ IsForEachKind rights (May h id frame) }
{
    rights.allows(AccessKind::Read)
        && grants.may(id, page, frame, AccessKind::Read)
        && (!rights.allows(AccessKind::Write) || grants.may(id, page, frame, AccessKind::Write))
}

/// Whether the frame lingers somewhere for each kind of access that the rights allow.
fn lingers_each(grants: &KeptGrants, id: DeviceId, frame: u64, rights: Rights) -> bool
    ensures { (h : History) → IsPastOf grants.now h → IsTrue result ↔ IsForEachKind rights (LingersSomewhere h id frame) }
{
    rights.allows(AccessKind::Read)
        && grants.lingers_somewhere(id, frame, AccessKind::Read)
        && (!rights.allows(AccessKind::Write)
            || grants.lingers_somewhere(id, frame, AccessKind::Write))
}

/// Whether a device may be told so as in its former mode, with ATS.
fn tells_formerly(
    mode: Mode,
    grants: &KeptGrants,
    id: DeviceId,
    page: u64,
    reply: Translation,
) -> bool
    ensures { (h : History) → IsPastOf grants.now h → IsTrue result ↔ MayTellFormerly mode true h id page reply }
{
    match reply {
        Translation::Refused(cause) => is_page_fault_of(mode, AccessKind::Read, cause),
        Translation::Page { frame, rights } => match mode {
            Mode::First(_) | Mode::Second(_) => {
                pair_lingers(grants, id, page, u64::from(frame), rights)
            }
            Mode::Both(_) => lingers_each(grants, id, u64::from(frame), rights),
        },
    }
}

/// Whether a device that was quarantined under the ticket may be told so.
fn tells_under_ticket(
    ticket: u32,
    mode: Mode,
    ats: bool,
    kept: &KeptState,
    id: DeviceId,
    page: u64,
    reply: Translation,
) -> bool
    ensures { (h : History) → IsPastOf kept.now.grants h → IsTrue result ↔ MayTellUnderTicket ticket mode ats (state_of kept.now h) id page reply }
{
    if is_refused_with(reply, cause_without_context(kept, id)) {
        return true;
    }
    if kept.grants.is_confirmed(ticket) {
        return false;
    }
    if !ats {
        return is_refused_with(reply, Cause::TransactionTypeDisallowed);
    }
    tells_formerly(mode, &kept.grants, id, page, reply)
}

/// Whether an attached device with ATS may be told so.
fn tells_attached(mode: Mode, kept: &KeptState, id: DeviceId, page: u64, reply: Translation) -> bool
    ensures { (h : History) → IsPastOf kept.now.grants h → IsTrue result ↔ MayTell (Attached mode true) (state_of kept.now h) id page reply }
{
    let grants = &kept.grants;
    match reply {
        Translation::Refused(cause) => match mode {
            Mode::First(_) | Mode::Second(_) => {
                grants.held(id, page).is_none() && is_page_fault_of(mode, AccessKind::Read, cause)
            }
            Mode::Both(_) => is_page_fault_of_either(AccessKind::Read, cause),
        },
        Translation::Page { frame, rights } => match mode {
            Mode::First(_) | Mode::Second(_) => {
                may_show(grants, id, page, u64::from(frame), rights)
            }
            Mode::Both(_) => may_each(grants, id, page, u64::from(frame), rights),
        },
    }
}

/// Whether a device that is attached so may be told so of the page.
pub fn may_tell(
    attachment: Attachment,
    kept: &KeptState,
    id: DeviceId,
    page: u64,
    reply: Translation,
) -> bool
    ensures { (h : History) → IsPastOf kept.now.grants h → IsTrue result ↔ MayTell attachment (state_of kept.now h) id page reply }
{
    match attachment {
        Attachment::Detached => is_refused_with(reply, cause_without_context(kept, id)),
        Attachment::Attached { mode, ats: true } => tells_attached(mode, kept, id, page, reply),
        Attachment::Attached { .. } => is_refused_with(reply, Cause::TransactionTypeDisallowed),
        Attachment::Quarantined { ticket, mode, ats } | Attachment::Leaving { ticket, mode, ats } =>
            { tells_under_ticket(ticket, mode, ats, kept, id, page, reply) }
    }
}

/// Whether this may come of a delivery, which leaves the state as it is.
pub(crate) fn judge_deliver(kept: &KeptState, outcome: &Outcome, choice: &Choice) -> bool
    ensures { DecidesUnchanged result kept.now (λ before after. Delivers choice.now.device choice.now.page before outcome.now after) }
{
    match outcome {
        Outcome::Answered(reply) => match kept.device(choice.device) {
            None => false,
            Some(device) => may_tell(device.attachment, kept, device.id, choice.page, *reply),
        },
        Outcome::Kept
        | Outcome::Stale
        | Outcome::AnswerRefused
        | Outcome::Ignored
        | Outcome::Invalidated(_)
        | Outcome::Closed(_)
        | Outcome::NotClosed(_)
        | Outcome::NoMessage => true,
        _ => false,
    }
}
