// What a request may be answered that says it is translated already, and what is found where there is no context.
ghost use Rattle.std.specs.Prelude.{◌↔◌, IsTrue};
ghost use Rattle.iom_machine_judge.specs.Words.{state_of, History, MayFindNoContext, MayFaultTranslated, MayAnswerTranslated};

use crate::requests::{is_busy, is_forwarded, is_same_cause, is_within_page};
use crate::under_ticket::cause_without_context;
use iom_base::{Access, Cause};
use iom_kept_state::{KeptState, is_attached};
use iom_machine::{Device, Outcome};

/// Whether the IOMMU may find no context of the device, and refuse what it sends with the cause.
pub(crate) fn may_find_no_context(kept: &KeptState, device: &Device, cause: Cause) -> bool
    ensures { (h : History) → IsTrue result ↔ MayFindNoContext (state_of kept.now h) device.now cause }
{
    !is_attached(device.attachment) && is_same_cause(cause, cause_without_context(kept, device.id))
}

fn may_fault(kept: &KeptState, device: &Device, cause: Cause) -> bool
    ensures { (h : History) → IsTrue result ↔ MayFaultTranslated (state_of kept.now h) device.now cause }
{
    is_same_cause(cause, Cause::TransactionTypeDisallowed)
        || may_find_no_context(kept, device, cause)
}

/// Whether a plugged device's request that says it is translated already may be answered so.
pub fn may_answer(kept: &KeptState, device: &Device, access: &Access, outcome: &Outcome) -> bool
    ensures { (h : History) → IsTrue result ↔ MayAnswerTranslated (state_of kept.now h) device.now access.now outcome.now }
{
    match outcome {
        Outcome::BadSpan => !is_within_page(access.address, access.len),
        Outcome::Busy => is_within_page(access.address, access.len) && is_busy(kept, device),
        Outcome::Fault(cause) => {
            is_forwarded(kept, device, access) && may_fault(kept, device, *cause)
        }
        _ => false,
    }
}
