// What may come of an access through the device's own cache of translations.
ghost use Rattle.std.specs.Prelude.{◌≡◌, ◌↔◌, ◌<◌, ◌^◌, ℕ, IfOk, IsTrue, Some, slice_get, length};
ghost use Rattle.iom_machine_judge.specs.Words.{at_frame, IsPastOf, state_of, Decides, History, Accepted, Device, MayHaveCached, MayGoThrough, MayAnswerThroughCache, state_after_cached, StandsAt};

use crate::devices::accept;
use crate::line::Decided;
use crate::requests::{holds, is_busy, is_forwarded, is_next, is_within_page, lingers};
use crate::translated::may_find_no_context;
use crate::under_ticket::accepts_under_ticket;
use iom_base::{Access, DeviceId, Mode, PAGE_SIZE};
use iom_kept_state::{KeptGrants, KeptState};
use iom_machine::{Attachment, Device, Outcome};

/// The access at its physical address, in the frame. The number of a frame has 40 bits, so the address is exact.
fn at_frame(access: Access, frame: u64) -> Access
    requires { frame < 2 ^ 40 }
    ensures { result ≡ at_frame frame access }
{
    Access {
        address: frame * PAGE_SIZE + access.address % PAGE_SIZE,
        ..access
    }
}

/// Whether a cache may have the frame for the access.
fn may_have_cached(grants: &KeptGrants, id: DeviceId, access: &Access, frame: u64) -> bool
    ensures cached { (h : History) → IsPastOf grants.now h → IsTrue result ↔ MayHaveCached h id access.now frame }
    ensures low { IsTrue result → frame < 2 ^ 40 }
{
    holds(grants, id, access, frame) || lingers(grants, id, access, frame)
}

/// Whether the access may go through, on the frame.
fn may_go_through(kept: &KeptState, device: &Device, access: &Access, frame: u64) -> bool
    ensures goes { (h : History) → IsPastOf kept.now.grants h
        → IsTrue result ↔ MayGoThrough device.now.attachment (state_of kept.now h) device.now.id access.now frame }
    ensures low { IsTrue result → frame < 2 ^ 40 }
{
    let (grants, id) = (&kept.grants, device.id);
    match device.attachment {
        Attachment::Detached => false,
        Attachment::Attached { mode, .. } => match mode {
            Mode::First(_) | Mode::Second(_) => may_have_cached(grants, id, access, frame),
            Mode::Both(_) => grants.may(id, access.address / PAGE_SIZE, frame, access.kind),
        },
        Attachment::Quarantined { ticket, mode, .. } | Attachment::Leaving { ticket, mode, .. } => {
            accepts_under_ticket(ticket, mode, grants, id, access, frame)
        }
    }
}

/// Whether this may come of a plugged device's access through its cache.
pub fn may_answer(
    kept: &KeptState,
    device: &Device,
    access: &Access,
    frame: u64,
    outcome: &Outcome,
) -> bool
    ensures may { (h : History) → IsPastOf kept.now.grants h
        → IsTrue result ↔ MayAnswerThroughCache (state_of kept.now h) device.now access.now frame outcome.now }
    ensures low { IsTrue result → (number : ℕ) → outcome.now ≡ Accepted number → frame < 2 ^ 40 }
{
    match outcome {
        Outcome::BadSpan => !is_within_page(access.address, access.len),
        Outcome::Busy => is_within_page(access.address, access.len) && is_busy(kept, device),
        Outcome::Miss => is_forwarded(kept, device, access),
        Outcome::Accepted(number) => {
            is_forwarded(kept, device, access)
                && is_next(device, *number)
                && may_go_through(kept, device, access, frame)
        }
        Outcome::Fault(cause) => {
            is_forwarded(kept, device, access) && may_find_no_context(kept, device, *cause)
        }
        _ => false,
    }
}

/// Whether this may come of an access of the device at the place through its cache, on this frame; what is kept is then what it leaves.
pub(crate) fn answer_at(
    kept: &mut KeptState,
    place: usize,
    access: Access,
    frame: u64,
    outcome: &Outcome,
) -> Decided
    requires { place < length kept.old.devices }
    ensures { IfOk result (λ may. (device : Device) → slice_get kept.old.devices place ≡ Some device → StandsAt kept.old.devices device.id place
        → Decides may kept.old kept.new (λ before after.
        MayAnswerThroughCache before device access frame outcome.now × (after ≡ state_after_cached before device access frame outcome.now))) }
{
    let device = &kept.devices.as_slice()[place];
    if !may_answer(kept, device, &access, frame, outcome) {
        return Ok(false);
    }
    if let Outcome::Accepted(number) = outcome {
        let sent = at_frame(access, frame);
        accept(&mut kept.devices, place, *number, sent, frame)?;
    }
    Ok(true)
}
