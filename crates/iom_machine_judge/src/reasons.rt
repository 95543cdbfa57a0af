// The first refusal that applies.
ghost use Rattle.std.specs.Prelude.{◌≡◌, ◌↔◌, ◌<◌, ◌^◌, ◌&&◌, ◌||◌, ◌==◌, false, find, not, nat_le, is_some, IsTrue, IsNone, IsSome, MatchOption, None};
ghost use Rattle.iom_machine_judge.specs.Words.{option_copied, option_map_or, has_cache, first_that_applies, History, plug_reasons, attach_reasons, detach_reasons, grant_reasons, release_reasons, quarantine_reasons, revive_reasons, frame_reasons};
ghost use Rattle.iom_machine_judge.specs.Words.{poke_reasons, is_detached, is_leaving, is_quarantined, may_still_reach, is_held, is_lingering, pending_tickets, IsPastOf, held_by, lingering_by, state_of};

use crate::devices::too_wide;
use crate::disks::is_missing;
use iom_base::{DeviceId, NewDevice, Refusal};
use iom_kept_state::{KeptState, is_attached};
use iom_machine::{Attachment, Device};

fn plugged(kept: &KeptState, id: DeviceId) -> bool
    ensures { result ≡ is_some (find (λ device. device.id == id) kept.now.devices) }
{
    kept.device(id).is_some()
}

fn detached(attachment: Attachment) -> bool
    ensures { result ≡ is_detached attachment }
{
    matches!(attachment, Attachment::Detached)
}

/// Whether nothing is attached any longer, or it ends soon.
fn not_attached(attachment: Attachment) -> bool
    ensures { result ≡ (is_detached attachment || is_leaving attachment) }
{
    detached(attachment) || matches!(attachment, Attachment::Leaving { .. })
}

fn quarantined(attachment: Attachment) -> bool
    ensures { result ≡ is_quarantined attachment }
{
    matches!(attachment, Attachment::Quarantined { .. })
}

/// Whether it is quarantined under a ticket that isn't confirmed.
pub(crate) fn may_still_reach(kept: &KeptState, attachment: Attachment) -> bool
    ensures { (h : History) → IsPastOf kept.now.grants h → result ≡ may_still_reach h attachment }
{
    match attachment {
        Attachment::Quarantined { ticket, .. } => !kept.grants.is_confirmed(ticket),
        _ => false,
    }
}

/// Whether no more tickets may be pending.
fn too_many_pending(kept: &KeptState) -> bool
    ensures { (h : History) → IsPastOf kept.now.grants h → result ≡ nat_le kept.now.limits.pending (pending_tickets (state_of kept.now h)) }
{
    u64::from(kept.grants.given - kept.grants.last_confirmed()) >= kept.limits.pending
}

fn held(kept: &KeptState, id: DeviceId, page: u64) -> bool
    ensures shown { result ≡ is_some (held_by kept.now.grants id page) }
    ensures held { (h : History) → IsPastOf kept.now.grants h → result ≡ is_held (state_of kept.now h) id page }
{
    kept.grants.held(id, page).is_some()
}

/// Whether the page isn't free for a grant.
fn busy(kept: &KeptState, id: DeviceId, page: u64) -> bool
    ensures shown { result ≡ (is_some (held_by kept.now.grants id page) || is_some (lingering_by kept.now.grants id page)) }
    ensures busy { (h : History) → IsPastOf kept.now.grants h → result ≡ (is_held (state_of kept.now h) id page || is_lingering (state_of kept.now h) id page) }
{
    held(kept, id, page) || kept.grants.lingering(id, page).is_some()
}

/// Whether ATS is asked for, of a device that has no cache of translations.
fn untrusted(device: Option<&Device>, ats: bool) -> bool
    ensures { result ≡ (ats && not (option_map_or (λ device. has_cache device.kind) (option_copied device.entry) false)) }
{
    match device {
        None => ats,
        Some(device) => ats && !device.kind.has_cache(),
    }
}

/// The refusal of the first reason that applies.
fn first_that_applies(reasons: &[(bool, Refusal)]) -> Option<Refusal>
    ensures { result ≡ first_that_applies reasons.now }
{
    match reasons {
        [] => None,
        [(true, why), ..] => Some(*why),
        [_, later @ ..] => first_that_applies(later),
    }
}

pub fn plug_refusal(kept: &KeptState, id: DeviceId, what: NewDevice) -> Option<Refusal>
    ensures { (h : History) → IsPastOf kept.now.grants h → result ≡ first_that_applies (plug_reasons (state_of kept.now h) id what) }
{
    let devices = kept.devices.as_slice().len() as u64;
    let bad_medium = is_missing(kept.disks.as_slice(), what.disk());
    first_that_applies(&[
        (plugged(kept, id), Refusal::AlreadyPlugged),
        (devices >= kept.limits.devices, Refusal::TooManyDevices),
        (bad_medium, Refusal::BadMedium),
    ])
}

pub fn attach_refusal(kept: &KeptState, id: DeviceId, ats: bool) -> Option<Refusal>
    ensures { (h : History) → IsPastOf kept.now.grants h → result ≡ first_that_applies (attach_reasons (state_of kept.now h) id ats) }
{
    first_that_applies(&[
        (!plugged(kept, id), Refusal::NoSuchDevice),
        (!detached(kept.attachment(id)), Refusal::AlreadyAttached),
        (too_wide(kept, id), Refusal::IdTooWide),
        (untrusted(kept.device(id), ats), Refusal::NotTrusted),
    ])
}

pub fn detach_refusal(kept: &KeptState, id: DeviceId) -> Option<Refusal>
    ensures { (h : History) → IsPastOf kept.now.grants h → result ≡ first_that_applies (detach_reasons (state_of kept.now h) id) }
{
    let attachment = kept.attachment(id);
    first_that_applies(&[
        (!plugged(kept, id), Refusal::NoSuchDevice),
        (not_attached(attachment), Refusal::NotAttached),
        (quarantined(attachment), Refusal::Quarantined),
        (kept.grants.has_any(id), Refusal::StillGranted),
        (too_many_pending(kept), Refusal::TooManyPending),
    ])
}

pub fn grant_refusal(kept: &KeptState, id: DeviceId, page: u64, frame: u64) -> Option<Refusal>
    ensures low { IsNone result → frame < 2 ^ 40 }
    ensures no_pair { IsNone result → (held_by kept.now.grants id page ≡ None) × (lingering_by kept.now.grants id page ≡ None) }
    ensures first { (h : History) → IsPastOf kept.now.grants h → result ≡ first_that_applies (grant_reasons (state_of kept.now h) id page frame) }
{
    let attachment = kept.attachment(id);
    let limit = kept.limits.page_limit(attachment);
    first_that_applies(&[
        (!plugged(kept, id), Refusal::NoSuchDevice),
        (not_attached(attachment), Refusal::NotAttached),
        (quarantined(attachment), Refusal::Quarantined),
        (frame >= kept.frames.count(), Refusal::FrameOutOfRange),
        (kept.frames.is_reserved(frame), Refusal::FrameReserved),
        (page >= limit, Refusal::IovaOutOfRange),
        (busy(kept, id, page), Refusal::IovaBusy),
    ])
}

pub fn release_refusal(kept: &KeptState, id: DeviceId, page: u64) -> Option<Refusal>
    ensures held { IsNone result → IsSome (held_by kept.now.grants id page) }
    ensures first { (h : History) → IsPastOf kept.now.grants h → result ≡ first_that_applies (release_reasons (state_of kept.now h) id page) }
{
    let attachment = kept.attachment(id);
    first_that_applies(&[
        (!plugged(kept, id), Refusal::NoSuchDevice),
        (not_attached(attachment), Refusal::NotAttached),
        (quarantined(attachment), Refusal::Quarantined),
        (!held(kept, id, page), Refusal::NotGranted),
        (too_many_pending(kept), Refusal::TooManyPending),
    ])
}

pub fn quarantine_refusal(kept: &KeptState, id: DeviceId) -> Option<Refusal>
    ensures { (h : History) → IsPastOf kept.now.grants h → result ≡ first_that_applies (quarantine_reasons (state_of kept.now h) id) }
{
    let attachment = kept.attachment(id);
    first_that_applies(&[
        (!plugged(kept, id), Refusal::NoSuchDevice),
        (not_attached(attachment), Refusal::NotAttached),
        (quarantined(attachment), Refusal::Quarantined),
        (too_many_pending(kept), Refusal::TooManyPending),
    ])
}

pub fn revive_refusal(kept: &KeptState, id: DeviceId) -> Option<Refusal>
    ensures { (h : History) → IsPastOf kept.now.grants h → result ≡ first_that_applies (revive_reasons (state_of kept.now h) id) }
{
    let attachment = kept.attachment(id);
    first_that_applies(&[
        (!plugged(kept, id), Refusal::NoSuchDevice),
        (not_attached(attachment), Refusal::NotAttached),
        (is_attached(attachment), Refusal::AlreadyAttached),
        (may_still_reach(kept, attachment), Refusal::StillGranted),
    ])
}

pub fn frame_refusal(kept: &KeptState, frame: u64) -> Option<Refusal>
    ensures { (h : History) → result ≡ first_that_applies (frame_reasons (state_of kept.now h) frame) }
{
    first_that_applies(&[(frame >= kept.frames.count(), Refusal::FrameOutOfRange)])
}

pub(crate) fn poke_refusal(kept: &KeptState, frame: u64) -> Option<Refusal>
    ensures { (h : History) → result ≡ first_that_applies (poke_reasons (state_of kept.now h) frame) }
{
    first_that_applies(&[
        (frame >= kept.frames.count(), Refusal::FrameOutOfRange),
        (kept.frames.is_reserved(frame), Refusal::FrameReserved),
    ])
}

/// Whether the refusal is the first that applied, or, where none did, one that may come all the same.
pub(crate) fn refuses(first: Option<Refusal>, may_come: bool, why: Refusal) -> bool
    ensures { IsTrue result ↔ MatchOption first (IsTrue may_come) (λ it. why ≡ it) }
{
    match first {
        None => may_come,
        Some(it) => why == it,
    }
}
