//! Tables that are given back of devices that stay attached.
ghost use Rattle.std.specs.Prelude.{◌≡◌, ◌==◌, ◌↔◌, All, IsTrue, Some, find};
ghost use Rattle.iom_kept_state.specs.Words.{option_copied, History, OneDevice, empty_frame, attachment_of, is_attached, frames_returned, MayGiveBack, MayGiveBackOf, with_returned, frames_in, ChangesFrame, IsPastOf, state_of};

use crate::frames::KeptFrames;
use crate::leaving::{attachment_in, device_with};
use crate::state::KeptState;
use iom_base::{DeviceId, Owner};
use iom_machine::{Attachment, Device};

/// Whether the device is attached.
pub fn is_attached(attachment: Attachment) -> bool
    ensures { result ≡ is_attached attachment }
{
    matches!(attachment, Attachment::Attached { .. })
}

impl KeptFrames {
    /// Nothing is kept of the frame: it is one of zeros that belongs to nobody.
    fn forget(&mut self, number: u64)
        ensures { ChangesFrame self.old self.new number (λ frame. empty_frame) }
    {
        let _frame = self.named.swap_remove(&number);
    }

    /// The frames are given back.
    fn give_back(&mut self, returned: &[u64])
        ensures { frames_in self.new ≡ frames_returned returned.now (frames_in self.old) }
    {
        for number in returned {
            self.forget(*number);
        }
    }
}

impl KeptState {
    /// The plugged device with this id.
    pub fn device(&self, id: DeviceId) -> Option<&Device>
        ensures { option_copied result ≡ find (λ device. device.id == id) self.now.devices }
    {
        device_with(self.devices.as_slice(), id)
    }

    /// How the device is attached; detached, where there is none.
    pub fn attachment(&self, device: DeviceId) -> Attachment
        ensures { (h : History) → result ≡ attachment_of (state_of self.now h) device }
    {
        attachment_in(self.devices.as_slice(), device)
    }

    /// Whether a device may give back a table.
    pub fn device_may_give_back(&self, device: DeviceId) -> bool
        ensures { (h : History) → IsPastOf self.now.grants h → IsTrue result ↔ MayGiveBackOf (state_of self.now h) (Some (OneDevice device)) }
    {
        is_attached(self.attachment(device)) && !self.grants.ledger.lingers_anything(device)
    }

    /// Whether the frame may be given back.
    fn may_give_back(&self, number: u64) -> bool
        ensures { (h : History) → IsPastOf self.now.grants h → IsTrue result ↔ MayGiveBack (state_of self.now h) number }
    {
        if self.limits.in_order {
            return false;
        }
        match self.frames.owner(number) {
            None | Some(Owner::System) => false,
            Some(Owner::OneDevice(device)) => self.device_may_give_back(device),
        }
    }

    /// Whether each of the frames may be given back.
    pub fn may_give_back_all(&self, returned: &[u64]) -> bool
        ensures { (h : History) → IsPastOf self.now.grants h → IsTrue result ↔ All (MayGiveBack (state_of self.now h)) returned.now }
    {
        for number in returned {
            if !self.may_give_back(*number) {
                return false;
            }
        }
        true
    }

    /// The frames are given back: nothing is kept of them.
    pub fn give_back(&mut self, returned: &[u64])
        ensures grants { self.new.grants ≡ self.old.grants }
        ensures returned { (h : History) → state_of self.new h ≡ with_returned returned.now (state_of self.old h) }
    {
        self.frames.give_back(returned);
    }
}
