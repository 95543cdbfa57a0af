// Since when translations are cached.
use crate::since::Since;
use iom_base::AccessKind;
use iom_tlb::{CachedPage, Ioatc, PLACES, Space};
use std::alloc::{AllocError, Global};

/// What stands at each place of the IOMMU's cache, since which line.
#[derive(Drop)]
pub(crate) struct TranslationLines {
    places: Vec<Option<Since<CachedPage>>>,
}

impl TranslationLines {
    /// Nothing is cached.
    pub(crate) fn new(alloc: Global) -> Result<TranslationLines, AllocError> {
        let mut places = Vec::with_capacity(alloc, PLACES)?;
        for made in 0..PLACES {
            places.push(None)?;
        }
        Ok(TranslationLines { places })
    }

    pub(crate) fn notice(&mut self, cache: &Ioatc, line: u64) {
        for place in 0..PLACES {
            if let Some(known) = self.places.get_mut(place) {
                *known = Since::noticed(*known, cache.page_at(place), line);
            }
        }
    }

    /// What was noticed of the page of the address space.
    pub(crate) fn of_page(&self, space: Space, page: u64) -> Option<Since<CachedPage>> {
        for place in self.places.iter() {
            if let Some(known) = place {
                if known.what.space == space && known.what.page == page {
                    return Some(*known);
                }
            }
        }
        None
    }

    /// Since when a translation of the page is known with a right to accesses of the kind.
    pub(crate) fn since_for(&self, space: Space, page: u64, kind: AccessKind) -> Option<u64> {
        let known = self.of_page(space, page)?;
        if known.what.translation.rights.allows(kind) {
            Some(known.line)
        } else {
            None
        }
    }
}
