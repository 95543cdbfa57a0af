// Whether a call is refused, and why.
ghost use Rattle.std.specs.Prelude.{◌≡◌, ◌^◌, ◌<◌, ◌↔◌, ℕ, Bool, IsTrue, List, IfOk, IfErr, Some, None, true, false};
ghost use Rattle.iom_base.specs.declared.refusal.Refusal.{Refusal};
ghost use Rattle.iom_base.specs.Refusals.{first_that_applies, NoneApplies};
ghost use Rattle.iom_registers.specs.Queues.{command_entries};
ghost use Rattle.iom_driver.specs.Admitted.{MayBeAttached, MayBeGranted, MayBeReleased, MayBeDetached, MayBeQuarantined, MayBeRevived};
ghost use Rattle.iom_driver.specs.Devices.{device_by_id, stages_of};
ghost use Rattle.iom_driver.specs.Layout.{queue_entries};
ghost use Rattle.iom_driver.specs.Places.{IsAttachmentPlace};
ghost use Rattle.iom_driver.specs.Reasons.{release_places, why_not_attach, why_not_attached, why_not_grant, why_not_release, why_not_detach, why_not_quarantine, why_not_revive, HasGrants};
ghost use Rattle.iom_driver.specs.StateOf.{state_of};

use crate::device::{Attachment, Stages};
use crate::driver::Driver;
use crate::layout::id_limit;
use crate::lookups::place_of;
use crate::mapping::Mapping;
use crate::room::lacks_places;
use iom_base::{DeviceId, Refusal};
use iom_ledger::MAX_PENDING;
use iom_registers::Mmio;

/// How many commands a release of a page of the device takes.
fn release_places(stage: Stages) -> u64
    ensures { result ≡ release_places (Some stage) }
{
    if stage.ats { 3 } else { 2 }
}

impl Driver {
    /// Where the device stands that may be attached, or why it may not.
    pub(crate) fn admit_attach(&self, id: DeviceId, ats: bool) -> Result<usize, Refusal>
        ensures admitted { IfOk result (λ place. NoneApplies (why_not_attach (state_of self.now) id ats)) }
        ensures may { IfOk result (λ place. MayBeAttached (state_of self.now) id) }
        ensures place { IfOk result (λ place. IsAttachmentPlace self.now.devices.items id place) }
        ensures refused { IfErr result (λ why. first_that_applies (why_not_attach (state_of self.now) id ats) ≡ Some why) }
    {
        if !self.started {
            return Err(Refusal::NotStarted);
        }
        let Some(place) = place_of(&self.devices, id) else {
            return Err(Refusal::NoSuchDevice);
        };
        let device = self.devices[place];
        if device.attachment.owned_stages().is_some() {
            return Err(Refusal::AlreadyAttached);
        }
        if id >= id_limit(self.levels) {
            return Err(Refusal::IdTooWide);
        }
        if device.lacks_trust(ats) {
            return Err(Refusal::NotTrusted);
        }
        Ok(place)
    }

    /// The stages of the attached device, or why it has none.
    fn stages_of(&self, id: DeviceId) -> Result<Stages, Refusal>
        ensures started { IfOk result (λ stage. self.now.started ≡ true) }
        ensures attached { IfOk result (λ stage. stages_of self.now.devices.items id ≡ Some stage) }
        ensures goes_on { IfOk result (λ stage. (later : List (Bool × Refusal))
            → first_that_applies (why_not_attached (state_of self.now) id later) ≡ first_that_applies later) }
        ensures refused { IfErr result (λ why. (later : List (Bool × Refusal))
            → first_that_applies (why_not_attached (state_of self.now) id later) ≡ Some why) }
    {
        if !self.started {
            return Err(Refusal::NotStarted);
        }
        let Some(device) = self.device_of(id) else {
            return Err(Refusal::NoSuchDevice);
        };
        match device.attachment {
            Attachment::Detached | Attachment::Leaving { .. } => Err(Refusal::NotAttached),
            Attachment::Quarantined { .. } => Err(Refusal::Quarantined),
            Attachment::Attached(stage) => Ok(stage),
        }
    }

    /// The stages of the device, where the frame may be granted to it at the page, or why not.
    pub(crate) fn admit_grant(&self, id: DeviceId, mapping: Mapping) -> Result<Stages, Refusal>
        ensures admitted { IfOk result (λ stage. NoneApplies (why_not_grant (state_of self.now) id mapping.page mapping.frame)) }
        ensures may { IfOk result (λ stage. MayBeGranted (state_of self.now) id mapping.page mapping.frame stage) }
        ensures refused { IfErr result (λ why.
            first_that_applies (why_not_grant (state_of self.now) id mapping.page mapping.frame) ≡ Some why) }
    {
        let stage = self.stages_of(id)?;
        if mapping.frame >= u64::from(self.frames) {
            return Err(Refusal::FrameOutOfRange);
        }
        if self.owners.is_reserved(mapping.frame as u32) {
            return Err(Refusal::FrameReserved);
        }
        if mapping.page >= stage.mode.size().page_limit() {
            return Err(Refusal::IovaOutOfRange);
        }
        if !self.ledger.is_vacant(id, mapping.page) {
            return Err(Refusal::IovaBusy);
        }
        Ok(stage)
    }

    /// The stages of the device, where it may release the page, or why it may not.
    pub(crate) fn admit_release<M: Mmio>(
        &self,
        io: &M,
        id: DeviceId,
        page: u64,
    ) -> Result<Stages, Refusal>
        requires { self.now.started ≡ true → command_entries (M.registers io.now) ≡ queue_entries }
        ensures admitted { IfOk result (λ stage.
            NoneApplies (why_not_release (state_of self.now) (M.registers io.now) id page)) }
        ensures may { IfOk result (λ stage. MayBeReleased (state_of self.now) (M.registers io.now) id page stage) }
        ensures refused { IfErr result (λ why.
            first_that_applies (why_not_release (state_of self.now) (M.registers io.now) id page) ≡ Some why) }
    {
        let stage = self.stages_of(id)?;
        if self.ledger.holds(id, page).is_none() {
            return Err(Refusal::NotGranted);
        }
        if self.given - self.confirmed >= MAX_PENDING as u32 {
            return Err(Refusal::TooManyPending);
        }
        if lacks_places(io, release_places(stage)) {
            return Err(Refusal::QueueFull);
        }
        if self.last_fence() == u32::MAX {
            return Err(Refusal::NumbersUsedUp);
        }
        Ok(stage)
    }

    /// Whether the device holds something, or lingers on it.
    fn has_grants(&self, id: DeviceId) -> bool
        ensures { IsTrue result ↔ HasGrants self.now.ledger id }
    {
        if self.ledger.holds_anything(id) {
            return true;
        }
        self.ledger.lingers_anything(id)
    }

    /// The stages of the device, where it may be detached, or why it may not.
    pub(crate) fn admit_detach<M: Mmio>(&self, io: &M, id: DeviceId) -> Result<Stages, Refusal>
        requires { self.now.started ≡ true → command_entries (M.registers io.now) ≡ queue_entries }
        ensures admitted { IfOk result (λ stage. (granted : Bool) → (IsTrue granted ↔ HasGrants self.now.ledger id)
            → NoneApplies (why_not_detach (state_of self.now) (M.registers io.now) granted id)) }
        ensures may { IfOk result (λ stage. MayBeDetached (state_of self.now) (M.registers io.now) id stage) }
        ensures refused { IfErr result (λ why. (granted : Bool) → (IsTrue granted ↔ HasGrants self.now.ledger id)
            → first_that_applies (why_not_detach (state_of self.now) (M.registers io.now) granted id) ≡ Some why) }
    {
        let stage = self.stages_of(id)?;
        if self.has_grants(id) {
            return Err(Refusal::StillGranted);
        }
        if self.given - self.confirmed >= MAX_PENDING as u32 {
            return Err(Refusal::TooManyPending);
        }
        if lacks_places(io, 3) {
            return Err(Refusal::QueueFull);
        }
        if self.last_fence() == u32::MAX {
            return Err(Refusal::NumbersUsedUp);
        }
        Ok(stage)
    }

    /// The stages of the device, where it may be quarantined, or why it may not.
    pub(crate) fn admit_quarantine<M: Mmio>(&self, io: &M, id: DeviceId) -> Result<Stages, Refusal>
        requires { self.now.started ≡ true → command_entries (M.registers io.now) ≡ queue_entries }
        ensures admitted { IfOk result (λ stage. NoneApplies (why_not_quarantine (state_of self.now) (M.registers io.now) id)) }
        ensures may { IfOk result (λ stage. MayBeQuarantined (state_of self.now) (M.registers io.now) id stage) }
        ensures refused { IfErr result (λ why.
            first_that_applies (why_not_quarantine (state_of self.now) (M.registers io.now) id) ≡ Some why) }
    {
        let stage = self.stages_of(id)?;
        if self.given - self.confirmed >= MAX_PENDING as u32 {
            return Err(Refusal::TooManyPending);
        }
        if lacks_places(io, 3) {
            return Err(Refusal::QueueFull);
        }
        if self.last_fence() == u32::MAX {
            return Err(Refusal::NumbersUsedUp);
        }
        Ok(stage)
    }

    /// The stages of the device, where it may be revived, or why it may not.
    pub(crate) fn admit_revive(&self, id: DeviceId) -> Result<Stages, Refusal>
        ensures admitted { IfOk result (λ stage. NoneApplies (why_not_revive (state_of self.now) id)) }
        ensures may { IfOk result (λ stage. MayBeRevived (state_of self.now) id stage) }
        ensures refused { IfErr result (λ why. first_that_applies (why_not_revive (state_of self.now) id) ≡ Some why) }
    {
        if !self.started {
            return Err(Refusal::NotStarted);
        }
        let Some(device) = self.device_of(id) else {
            return Err(Refusal::NoSuchDevice);
        };
        match device.attachment {
            Attachment::Detached | Attachment::Leaving { .. } => Err(Refusal::NotAttached),
            Attachment::Attached(_) => Err(Refusal::AlreadyAttached),
            Attachment::Quarantined { ticket, stage } => {
                if ticket > self.confirmed {
                    Err(Refusal::StillGranted)
                } else {
                    Ok(stage)
                }
            }
        }
    }
}
