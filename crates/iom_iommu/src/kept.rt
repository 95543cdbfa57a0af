// A translation that is found beside the requests themselves.
ghost use Rattle.std.specs.Prelude.{◌≡◌, ◌<◌};
ghost use Rattle.iom_tlb.specs.Content.{Keeps};
ghost use Rattle.iom_iommu.specs.Parts.{frames_of, iommu_parts, translations_of};

use crate::iommu::Iommu;
use iom_tlb::{Space, TransCache, Translation};

impl<C: TransCache> Iommu<C> {
    /// Caches the translation of a page of an address space: one to which a walk led that began at a cached non-leaf entry
    /// (section 2.8, "Caching in-memory data structures"). It takes the place of the page's old one. Its frame is one of
    /// memory. Nothing else changes.
    pub fn keep_translation(&mut self, space: Space, page: u64, translation: Translation)
        requires inside { translation.frame < frames_of self.old }
        ensures kept { Keeps C.SURE (translations_of self.old) (space, page) translation (translations_of self.new) }
        ensures rest { iommu_parts self.new ≡ record (iommu_parts self.old) { translations = self.new.translations } }
    {
        self.translations.keep(space, page, translation);
    }
}
