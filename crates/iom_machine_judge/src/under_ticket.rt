// What a device is answered that has no context, or that is quarantined or leaving under a ticket.
ghost use Rattle.std.specs.Prelude.{◌≡◌, ◌↔◌, ◌<◌, ◌^◌, IsTrue};
ghost use Rattle.iom_machine_judge.specs.Words.{IsPastOf, state_of, History, MayAcceptFormerly, MayAcceptUnderTicket, MayFaultUnderTicket, IsPageFaultOf, IsPageFaultOfEither, cause_without_context};

use crate::devices::too_wide;
use crate::requests::{is_same_cause, lingers};
use iom_base::{Access, AccessKind, Cause, DeviceId, Mode};
use iom_kept_state::{KeptGrants, KeptState};

/// The cause where no context of the device is found.
pub(crate) fn cause_without_context(kept: &KeptState, id: DeviceId) -> Cause
    ensures { (h : History) → result ≡ cause_without_context (state_of kept.now h) id }
{
    if too_wide(kept, id) {
        Cause::TransactionTypeDisallowed
    } else {
        Cause::DirectoryEntryNotValid
    }
}

/// Whether the cause is a page fault of the one stage or of the other.
pub(crate) fn is_page_fault_of_either(kind: AccessKind, cause: Cause) -> bool
    ensures { IsTrue result ↔ IsPageFaultOfEither kind cause }
{
    cause == Cause::page_fault(kind) || cause == Cause::guest_page_fault(kind)
}

/// Whether the cause is a page fault of the mode.
pub(crate) fn is_page_fault_of(mode: Mode, kind: AccessKind, cause: Cause) -> bool
    ensures { IsTrue result ↔ IsPageFaultOf mode kind cause }
{
    match mode {
        Mode::First(_) => cause == Cause::page_fault(kind),
        Mode::Second(_) => cause == Cause::guest_page_fault(kind),
        Mode::Both(_) => is_page_fault_of_either(kind, cause),
    }
}

/// Whether what is left of the device's former mode may serve the access, on the frame.
fn accepts_formerly(
    mode: Mode,
    grants: &KeptGrants,
    id: DeviceId,
    access: &Access,
    frame: u64,
) -> bool
    ensures accepts { (h : History) → IsPastOf grants.now h → IsTrue result ↔ MayAcceptFormerly mode h id access.now frame }
    ensures low { IsTrue result → frame < 2 ^ 40 }
{
    match mode {
        Mode::First(_) | Mode::Second(_) => lingers(grants, id, access, frame),
        Mode::Both(_) => grants.lingers_somewhere(id, frame, access.kind),
    }
}

/// Whether a device that was quarantined under the ticket may have the access accepted, on the frame.
pub(crate) fn accepts_under_ticket(
    ticket: u32,
    mode: Mode,
    grants: &KeptGrants,
    id: DeviceId,
    access: &Access,
    frame: u64,
) -> bool
    ensures accepts { (h : History) → IsPastOf grants.now h → IsTrue result ↔ MayAcceptUnderTicket ticket mode h id access.now frame }
    ensures low { IsTrue result → frame < 2 ^ 40 }
{
    !grants.is_confirmed(ticket) && accepts_formerly(mode, grants, id, access, frame)
}

/// Whether such a device may have the access refused, with the cause.
pub(crate) fn faults_under_ticket(
    ticket: u32,
    mode: Mode,
    kept: &KeptState,
    id: DeviceId,
    access: &Access,
    cause: Cause,
) -> bool
    ensures { (h : History) → IsPastOf kept.now.grants h → IsTrue result ↔ MayFaultUnderTicket ticket mode (state_of kept.now h) id access.now cause }
{
    is_same_cause(cause, cause_without_context(kept, id))
        || !kept.grants.is_confirmed(ticket) && is_page_fault_of(mode, access.kind, cause)
}
