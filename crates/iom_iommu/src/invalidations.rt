// Invalidation requests that devices have still to complete (IOMMU specification, section 3.1.4, "IOMMU
// Address-translation services (ATS) commands").
ghost use Rattle.std.specs.Prelude.{◌≡◌};
ghost use Rattle.iom_iommu.specs.Parts.{slots_of};
ghost use Rattle.iom_iommu.specs.Invalidations.{CompletesRequest};

use crate::iommu::Iommu;
use iom_base::DeviceId;
use iom_command_queue::Slots;
use iom_tlb::TransCache;

impl<C: TransCache> Iommu<C> {
    /// The requests that devices have still to complete, and the number of the last.
    pub fn slots(&self) -> &Slots
        ensures { result.now ≡ slots_of self.now }
    {
        &self.slots
    }

    /// The device says that it completed the request with this number. False exactly where none with this number to
    /// this device is open, and then nothing changes.
    pub fn done(&mut self, device: DeviceId, serial: u64) -> bool
        ensures { CompletesRequest self.old device serial result self.new }
    {
        self.slots.close(serial, device)
    }
}
