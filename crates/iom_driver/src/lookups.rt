// What the driver tells of itself.
ghost use Rattle.std.specs.Prelude.{◌≡◌, ◌↔◌, ◌-◌, IsTrue, MatchOption, nat_lt, nat_le};
ghost use Rattle.iom_table_frames.specs.Owners.{has_owner, AreSoMany};
ghost use Rattle.iom_driver.specs.Calls.{IsFreeFrame};
ghost use Rattle.iom_driver.specs.Devices.{device_by_id};
ghost use Rattle.iom_driver.specs.Fences.{last_fence};
ghost use Rattle.iom_driver.specs.Places.{IsAttachmentPlace};
ghost use Rattle.iom_driver.specs.StateOf.{state_of};

use crate::device::Device;
use crate::driver::Driver;
use iom_base::DeviceId;

/// Where the device with this id stands.
pub(crate) fn place_of(devices: &[Device], id: DeviceId) -> Option<usize>
    ensures { MatchOption result (device_by_id devices.now id ≡ None) (IsAttachmentPlace devices.now id) }
{
    for k in 0..devices.len() {
        if devices[k].id == id {
            return Some(k);
        }
    }
    None
}

impl Driver {
    /// The device with this id.
    pub(crate) fn device_of(&self, id: DeviceId) -> Option<Device>
        ensures { result ≡ device_by_id self.now.devices.items id }
    {
        let place = place_of(&self.devices, id)?;
        Some(self.devices[place])
    }

    /// Whether the frame is reserved, for tables or for the system; false outside memory.
    pub fn is_reserved(&self, frame: u32) -> bool
        ensures { result ≡ has_owner (state_of self.now).owners frame }
    {
        self.owners.is_reserved(frame)
    }

    /// Whether the frame is one of memory, isn't reserved, and no device holds or lingers on it: so it may
    /// be handed on.
    pub fn is_free(&self, frame: u32) -> bool
        ensures { IsTrue result ↔ IsFreeFrame (state_of self.now) frame }
    {
        if frame >= self.frames || self.owners.is_reserved(frame) {
            return false;
        }
        self.ledger.is_free(frame)
    }

    /// How many frames are free.
    pub fn count_free(&self) -> u32
        ensures { AreSoMany (IsFreeFrame (state_of self.now)) result }
    {
        self.owners.count_free(&self.ledger)
    }

    /// How many tickets aren't confirmed.
    pub fn pending(&self) -> usize
        ensures { result ≡ (state_of self.now).given - (state_of self.now).confirmed }
    {
        (self.given - self.confirmed) as usize
    }

    /// Whether a ticket isn't confirmed.
    pub fn has_pending(&self) -> bool
        ensures { result ≡ nat_lt (state_of self.now).confirmed (state_of self.now).given }
    {
        self.confirmed < self.given
    }

    /// Whether the numbers of fences are used up, so that nothing can be queued any more that ends with a fence.
    pub fn has_used_up(&self) -> bool
        ensures { result ≡ nat_le 4294967295 (last_fence (state_of self.now)) }
    {
        self.last_fence() == u32::MAX
    }
}
