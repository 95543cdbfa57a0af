// Which devices there are, and what the board tells of them.
ghost use Rattle.std.specs.Prelude.{◌≡◌, ◌==◌, ◌≤◌, length, option_map};
ghost use Rattle.iom_device.specs.Caches.{kind_in, device_with, epoch_in};
ghost use Rattle.iom_inflight.specs.Flights.{first_busy};
ghost use Rattle.iom_inflight.specs.Invariant.{AreFlights};
ghost use Rattle.iom_iommu.specs.Parts.{flights_of};

use crate::board::Board;
use iom_base::{DeviceId, DeviceKind};
use iom_device::Device;
use iom_fabric::{Fabric, OnLink};

impl Board {
    /// The device with this id, if one is plugged in.
    pub(crate) fn device_with(&self, id: DeviceId) -> Option<&Device>
        ensures { option_map (λ device. device.now) result ≡ device_with self.now.devices.items id }
    {
        self.devices.iter().find(|device| device.id == id)
    }

    /// What the device with this id is, if one is plugged in.
    pub fn kind_of(&self, id: DeviceId) -> Option<DeviceKind>
        ensures { result ≡ kind_in self.now.devices.items id }
    {
        self.devices
            .iter()
            .find(|device| device.id == id)
            .map(|device| device.kind)
    }

    /// The epoch of its cache; 0 where it has none, or isn't plugged in.
    pub fn epoch_of(&self, id: DeviceId) -> u64
        ensures { result ≡ epoch_in self.now.devices.items id }
    {
        match self.device_with(id) {
            Some(device) => device.epoch(),
            None => 0,
        }
    }

    /// The first device, in the order of plugging, that has an access in flight. None where none has.
    pub fn first_busy(&self) -> Option<DeviceId>
        ensures { result ≡ first_busy (flights_of self.now.iommu).rows }
    {
        self.iommu.first_busy()
    }

    /// The messages under way.
    pub fn messages(&self) -> &Fabric
        ensures { result.now ≡ self.now.fabric }
    {
        &self.fabric
    }

    /// What holds of accesses in flight and of messages, whatever calls there were. It does nothing.
    pub fn facts(&self)
        ensures flights { AreFlights (flights_of self.now.iommu) }
        ensures messages { length self.now.fabric ≤ 64 }
    {
        self.iommu.facts();
        self.fabric.facts();
    }
}
