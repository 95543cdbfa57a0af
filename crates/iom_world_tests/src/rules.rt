// What may come of a request and of a question, by how the device is attached and by what the history gives it.

use crate::call::{Act, Call};
use crate::history::{Right, Standing, Tie, has, standing_of};
use crate::knows::Knows;
use crate::reply::{Heard, Told};
use iom_base::{AccessKind, Cause, DeviceId, Mode};

/// Whether this is a fault of the mode's stages at such an access.
fn is_stage_fault(mode: Mode, kind: AccessKind, cause: Cause) -> bool {
    match mode {
        Mode::First(_) => cause == Cause::page_fault(kind),
        Mode::Second(_) => cause == Cause::guest_page_fault(kind),
        Mode::Both(_) => cause == Cause::page_fault(kind) || cause == Cause::guest_page_fault(kind),
    }
}

/// The right that lets a device make such an access.
pub(crate) fn right_for(kind: AccessKind) -> Right {
    match kind {
        AccessKind::Read => Right::Read,
        AccessKind::Write => Right::Write,
    }
}

/// The frames on which such an access at the page, or at any page, may be accepted. In both stages the page is the guest's to
/// map.
pub(crate) fn accepting(
    knows: &Knows,
    device: DeviceId,
    page: Option<u64>,
    kind: AccessKind,
) -> u64 {
    let standing = standing_of(&knows.entries, knows.confirmed, device);
    if !standing.has_tables() {
        return 0;
    }
    let page = if standing.mode.is_both() { None } else { page };
    knows.reached(device, page, right_for(kind))
}

/// Whether a request may be answered with the fault because of what the directory has for the device.
fn is_directory_fault(knows: &Knows, device: DeviceId, standing: Standing, cause: Cause) -> bool {
    if device == knows.wide {
        cause == Cause::TransactionTypeDisallowed
    } else {
        standing.tie != Tie::Attached && cause == Cause::DirectoryEntryNotValid
    }
}

/// Whether an untranslated request, a read or a write, may be answered with the fault, if it needn't be accepted.
fn is_fault(knows: &Knows, device: DeviceId, kind: AccessKind, cause: Cause) -> bool {
    let standing = standing_of(&knows.entries, knows.confirmed, device);
    is_directory_fault(knows, device, standing, cause)
        || standing.has_tables() && is_stage_fault(standing.mode, kind, cause)
}

/// Whether an untranslated request at the page has to be accepted: the page is held in one stage, with a right that allows it.
fn is_sure(knows: &Knows, call: Call) -> bool {
    let standing = standing_of(&knows.entries, knows.confirmed, call.device);
    standing.tie == Tie::Attached
        && !standing.mode.is_both()
        && knows.held(call.device, call.page, right_for(call.kind())) != 0
}

/// Whether a request may be answered with the fault that goes through a cache, or says that it is translated.
pub(crate) fn is_fault_of_translated(knows: &Knows, call: Call, cause: Cause) -> bool {
    let standing = standing_of(&knows.entries, knows.confirmed, call.device);
    let is_cached = matches!(
        call.act,
        Act::Step | Act::ReadThroughCache | Act::WriteThroughCache
    );
    if is_cached {
        return call.device != knows.wide && is_directory_fault(knows, call.device, standing, cause);
    }
    is_directory_fault(knows, call.device, standing, cause)
        || standing.has_tables() && cause == Cause::TransactionTypeDisallowed
}

/// Whether the request may be answered with the fault.
pub(crate) fn may_fault(knows: &Knows, call: Call, cause: Cause) -> bool {
    match call.act {
        Act::Read | Act::Write => {
            is_fault(knows, call.device, call.kind(), cause) && !is_sure(knows, call)
        }
        _ => is_fault_of_translated(knows, call, cause),
    }
}

/// Whether an access of a block device without a cache may be, whichever it wants.
pub(crate) fn may_fault_somewhere(knows: &Knows, device: DeviceId, cause: Cause) -> bool {
    is_fault(knows, device, AccessKind::Read, cause)
        || is_fault(knows, device, AccessKind::Write, cause)
}

/// Whether a device with ATS in the mode may be told so of the page, or of any page, by its tables.
fn may_tell(knows: &Knows, device: DeviceId, mode: Mode, page: Option<u64>, heard: Heard) -> bool {
    let is_both = mode.is_both();
    match heard.reply {
        Told::Answered {
            can_read,
            can_write,
        } => {
            let right = if can_write {
                Right::Write
            } else if is_both {
                Right::Read
            } else {
                Right::ReadOnly
            };
            let page = if is_both { None } else { page };
            can_read && has(knows.reached(device, page, right), heard.number)
        }
        Told::AnsweredFault(cause) => {
            let is_held = match page {
                Some(page) => knows.held(device, page, Right::Read) != 0,
                None => false,
            };
            is_stage_fault(mode, AccessKind::Read, cause) && (is_both || !is_held)
        }
        _ => false,
    }
}

/// Whether the device's question may be answered so. Of a block device's the page isn't known.
pub(crate) fn may_answer(knows: &Knows, device: DeviceId, page: Option<u64>, heard: Heard) -> bool {
    let standing = standing_of(&knows.entries, knows.confirmed, device);
    let has_tables = standing.has_tables();
    if has_tables && standing.ats && may_tell(knows, device, standing.mode, page, heard) {
        return true;
    }
    match heard.reply {
        Told::AnsweredFault(cause) => {
            is_directory_fault(knows, device, standing, cause)
                || has_tables && !standing.ats && cause == Cause::TransactionTypeDisallowed
        }
        _ => false,
    }
}
