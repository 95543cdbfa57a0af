// A fence that waits too long is given up (IOMMU specification, section 3.1.4, "IOMMU Address-translation services
// (ATS) commands").
ghost use Rattle.iom_iommu.specs.Timeouts.{TimesFenceOut};

use crate::iommu::Iommu;
use iom_tlb::TransCache;

impl<C: TransCache> Iommu<C> {
    /// Gives up the fence at the head of the command queue, where a fetch told it to wait for invalidation requests
    /// and one of these is still open. Then `cmd_to` is set, so that each fetch answers `Stopped` until software clears it,
    /// by a write of 1 or by turning the queue off and on; all requests are closed, and the head stays at the fence, whose word isn't stored. False
    /// where no fence waits so, and then nothing changes.
    pub fn timeout(&mut self) -> bool
        ensures { TimesFenceOut self.old result self.new }
    {
        if !self.fence_waits || self.slots.is_empty() {
            return false;
        }
        self.registers.set_cmd_to();
        self.slots.close_all();
        self.fence_snapshot = None;
        self.fence_waits = false;
        true
    }
}
