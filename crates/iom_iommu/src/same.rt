// Whether two IOMMUs are equal.
ghost use Rattle.std.specs.Prelude.{◌≡◌, ◌↔◌, IsTrue};
ghost use Rattle.iom_iommu.specs.Parts.{translation_cache_of, flights_of, slots_of, fence_snapshot_of, waits_of};

use crate::iommu::Iommu;
use iom_tlb::TransCache;

impl<C: TransCache> Iommu<C> {
    // Whether both have the same contexts and translations cached, to go in the same order.
    fn has_same_caches(&self, other: &Iommu<C>) -> bool
        ensures { IsTrue result ↔ ((self.now.contexts ≡ other.now.contexts)
            × (translation_cache_of self.now ≡ translation_cache_of other.now)) }
    {
        self.contexts.is_same(&other.contexts) && self.translations.is_same(&other.translations)
    }

    // Whether both have the same accesses in flight, and wait for the same completions.
    fn has_same_requests(&self, other: &Iommu<C>) -> bool
        ensures { IsTrue result ↔ ((flights_of self.now ≡ flights_of other.now) × (slots_of self.now ≡ slots_of other.now)) }
    {
        self.in_flight.is_same(&other.in_flight) && self.slots.is_same(&other.slots)
    }

    // Whether the fences at the heads of both wait for the same.
    fn has_same_fence(&self, other: &Iommu<C>) -> bool
        ensures { IsTrue result ↔ ((fence_snapshot_of self.now ≡ fence_snapshot_of other.now)
            × (waits_of self.now ≡ waits_of other.now)) }
    {
        self.fence_snapshot == other.fence_snapshot && self.fence_waits == other.fence_waits
    }

    /// Whether the two are equal: in their registers, in all that is cached, with the order in which it goes, in the
    /// accesses in flight, in the requests that devices have still to complete, in what the fence at the head waits
    /// for, and in how many frames the memory has. It changes nothing.
    pub fn is_same(&self, other: &Iommu<C>) -> bool
        ensures { IsTrue result ↔ (self.now ≡ other.now) }
    {
        if !self.has_same_fence(other) {
            return false;
        }
        if !self.has_same_requests(other) {
            return false;
        }
        if !self.has_same_caches(other) {
            return false;
        }
        self.frames == other.frames && self.registers.is_same(&other.registers)
    }
}
