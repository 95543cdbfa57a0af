// Whether two boards are equal. What differs most often is compared first.
ghost use Rattle.std.specs.Prelude.{◌≡◌, ◌↔◌, IsTrue};
ghost use Rattle.iom_board.specs.Same.{IsSameBoard};

use crate::board::Board;
use iom_device::Device;

/// Whether the devices are equal, and in the same order.
fn are_same_devices(devices: &[Device], others: &[Device]) -> bool
    ensures { IsTrue result ↔ (devices.now ≡ others.now) }
{
    if devices.len() != others.len() {
        return false;
    }
    for place in 0..devices.len() {
        if !devices[place].is_same(&others[place]) {
            return false;
        }
    }
    true
}

/// Whether the numbers of disks are.
fn are_same_disks(disks: &[u64], others: &[u64]) -> bool
    ensures { IsTrue result ↔ (disks.now ≡ others.now) }
{
    disks == others
}

impl Board {
    /// Whether the two are equal but for how many events there were: then whatever is done to both does the same to
    /// both, and is answered alike.
    pub fn is_same(&self, other: &Board) -> bool
        ensures { IsTrue result ↔ IsSameBoard self.now other.now }
    {
        if !self.fabric.is_same(&other.fabric) {
            return false;
        }
        if !are_same_devices(&self.devices, &other.devices) {
            return false;
        }
        if !are_same_disks(&self.disks, &other.disks) {
            return false;
        }
        if !self.iommu.is_same(&other.iommu) {
            return false;
        }
        self.memory.is_same(&other.memory)
    }
}
