// What a device's request may be answered.
ghost use Rattle.std.specs.Prelude.{◌≡◌, ◌↔◌, ◌+◌, ◌<◌, ◌^◌, IfOk, IsTrue, Some, true, slice_get, length};
ghost use Rattle.iom_machine_judge.specs.Words.{FitsInPage, allows, Rights, IsPastOf, state_of, Decides, History, Device, IsBusy, IsForwarded, HoldsFor, HoldsNoneFor, LingersFor, MayAccept, MayFault, MayAcceptInOneStage, MayAnswer, state_after, StandsAt};

use crate::devices::accept;
use crate::line::Decided;
use crate::under_ticket::{
    accepts_under_ticket, cause_without_context, faults_under_ticket, is_page_fault_of,
    is_page_fault_of_either,
};
use iom_base::{Access, AccessKind, Cause, DeviceId, Mode, PAGE_SIZE, Rights, Span};
use iom_kept_state::{KeptGrants, KeptState};
use iom_machine::{Attachment, Device, Outcome};

/// Whether these are from 1 to 4,096 bytes, all in one page.
pub(crate) fn is_within_page(address: u64, len: u64) -> bool
    ensures { IsTrue result ↔ FitsInPage address len }
{
    Span::new(address, len).is_some()
}

pub(crate) fn is_busy(kept: &KeptState, device: &Device) -> bool
    ensures { IsTrue result ↔ IsBusy kept.now.limits.in_flight device.now.in_flight }
{
    device.in_flight.as_slice().len() as u64 >= kept.limits.in_flight
}

/// Whether the request comes before the IOMMU.
pub(crate) fn is_forwarded(kept: &KeptState, device: &Device, access: &Access) -> bool
    ensures { IsTrue result ↔ IsForwarded kept.now.limits.in_flight device.now.in_flight access.now.address access.now.len }
{
    is_within_page(access.address, access.len) && !is_busy(kept, device)
}

/// Whether a pair was found that is on the frame, with a right that allows the kind.
fn serves(found: Option<(u64, Rights)>, frame: u64, kind: AccessKind) -> bool
    ensures { IsTrue result ↔ ((rights : Rights) × (found ≡ Some (frame, rights)) × (allows rights kind ≡ true)) }
{
    match found {
        None => false,
        Some((its_frame, rights)) => its_frame == frame && rights.allows(kind),
    }
}

/// Whether the device holds the frame where the access is to, with a right that allows it.
pub(crate) fn holds(grants: &KeptGrants, id: DeviceId, access: &Access, frame: u64) -> bool
    ensures holds { (h : History) → IsPastOf grants.now h → IsTrue result ↔ HoldsFor h id access.now frame }
    ensures low { IsTrue result → frame < 2 ^ 40 }
{
    let found = grants.held(id, access.address / PAGE_SIZE);
    serves(found, frame, access.kind)
}

/// Whether the frame lingers there, with such a right.
pub(crate) fn lingers(grants: &KeptGrants, id: DeviceId, access: &Access, frame: u64) -> bool
    ensures lingers { (h : History) → IsPastOf grants.now h → IsTrue result ↔ LingersFor h id access.now frame }
    ensures low { IsTrue result → frame < 2 ^ 40 }
{
    let found = grants.lingering(id, access.address / PAGE_SIZE);
    serves(found, frame, access.kind)
}

/// Whether the device holds nothing there with such a right.
fn holds_none(grants: &KeptGrants, id: DeviceId, access: &Access) -> bool
    ensures { (h : History) → IsPastOf grants.now h → IsTrue result ↔ HoldsNoneFor h id access.now }
{
    match grants.held(id, access.address / PAGE_SIZE) {
        None => true,
        Some(pair) => !pair.1.allows(access.kind),
    }
}

fn accepts_in_one_stage(grants: &KeptGrants, id: DeviceId, access: &Access, frame: u64) -> bool
    ensures { (h : History) → IsPastOf grants.now h → IsTrue result ↔ MayAcceptInOneStage h id access.now frame }
{
    holds(grants, id, access, frame)
        || holds_none(grants, id, access) && lingers(grants, id, access, frame)
}

pub(crate) fn is_same_cause(cause: Cause, fault: Cause) -> bool
    ensures { IsTrue result ↔ (cause ≡ fault) }
{
    cause == fault
}

/// Whether the IOMMU may accept the access, on the frame.
fn may_accept(kept: &KeptState, device: &Device, access: &Access, frame: u64) -> bool
    ensures { (h : History) → IsPastOf kept.now.grants h
        → IsTrue result ↔ MayAccept device.now.attachment (state_of kept.now h) device.now.id access.now frame }
{
    let (grants, id) = (&kept.grants, device.id);
    match device.attachment {
        Attachment::Detached => false,
        Attachment::Attached { mode, .. } => match mode {
            Mode::First(_) | Mode::Second(_) => accepts_in_one_stage(grants, id, access, frame),
            Mode::Both(_) => grants.may(id, access.address / PAGE_SIZE, frame, access.kind),
        },
        Attachment::Quarantined { ticket, mode, .. } | Attachment::Leaving { ticket, mode, .. } => {
            accepts_under_ticket(ticket, mode, grants, id, access, frame)
        }
    }
}

/// Whether the IOMMU may refuse the access, with the cause.
fn may_fault(kept: &KeptState, device: &Device, access: &Access, cause: Cause) -> bool
    ensures { (h : History) → IsPastOf kept.now.grants h
        → IsTrue result ↔ MayFault device.now.attachment (state_of kept.now h) device.now.id access.now cause }
{
    let (kind, id) = (access.kind, device.id);
    match device.attachment {
        Attachment::Detached => is_same_cause(cause, cause_without_context(kept, id)),
        Attachment::Attached { mode, .. } => match mode {
            Mode::First(_) | Mode::Second(_) => {
                is_page_fault_of(mode, kind, cause) && holds_none(&kept.grants, id, access)
            }
            Mode::Both(_) => is_page_fault_of_either(kind, cause),
        },
        Attachment::Quarantined { ticket, mode, .. } | Attachment::Leaving { ticket, mode, .. } => {
            faults_under_ticket(ticket, mode, kept, id, access, cause)
        }
    }
}

/// Whether the number is that of the device's next accepted access.
pub(crate) fn is_next(device: &Device, number: u64) -> bool
    ensures { IsTrue result ↔ (number ≡ device.now.accepted + 1) }
{
    u128::from(number) == u128::from(device.accepted) + 1
}

/// Whether a plugged device's request may be answered so.
pub fn may_answer(
    kept: &KeptState,
    device: &Device,
    access: &Access,
    frame: u64,
    outcome: &Outcome,
) -> bool
    ensures { (h : History) → IsPastOf kept.now.grants h → IsTrue result ↔ MayAnswer (state_of kept.now h) device.now access.now frame outcome.now }
{
    match outcome {
        Outcome::BadSpan => !is_within_page(access.address, access.len),
        Outcome::Busy => is_within_page(access.address, access.len) && is_busy(kept, device),
        Outcome::Accepted(number) => {
            is_forwarded(kept, device, access)
                && is_next(device, *number)
                && may_accept(kept, device, access, frame)
        }
        Outcome::Fault(cause) => {
            is_forwarded(kept, device, access) && may_fault(kept, device, access, *cause)
        }
        _ => false,
    }
}

/// Whether the request of the device at the place may be answered so, on this frame; what is kept is then what it leaves.
pub(crate) fn answer_at(
    kept: &mut KeptState,
    place: usize,
    access: Access,
    frame: u64,
    outcome: &Outcome,
) -> Decided
    requires { place < length kept.old.devices }
    ensures { IfOk result (λ may. (device : Device) → slice_get kept.old.devices place ≡ Some device → StandsAt kept.old.devices device.id place
        → Decides may kept.old kept.new (λ before after.
        MayAnswer before device access frame outcome.now × (after ≡ state_after before device access frame outcome.now))) }
{
    let device = &kept.devices.as_slice()[place];
    if !may_answer(kept, device, &access, frame, outcome) {
        return Ok(false);
    }
    if let Outcome::Accepted(number) = outcome {
        accept(&mut kept.devices, place, *number, access, frame)?;
    }
    Ok(true)
}
