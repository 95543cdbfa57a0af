// What is cached of a page.
ghost use Rattle.std.specs.Prelude.{◌≡◌, true, false, Some, IfSome, IfNone};
ghost use Rattle.iom_base.specs.Rights.{allows};
ghost use Rattle.iom_iommu.specs.Service.{cached_for};
ghost use Rattle.iom_tlb.specs.Ways.{content_of_sets};
ghost use Rattle.iom_tlb.specs.declared.cached_page.CachedPage.{CachedPage};

use iom_base::AccessKind;
use iom_tlb::{CachedPage, Ioatc, PLACES, Space, Translation};

/// The translation of what stands at a place of the cache, where that is of the page, and its right allows the access.
fn served_at(
    cached: Option<CachedPage>,
    space: Space,
    page: u64,
    kind: AccessKind,
) -> Option<Translation>
    ensures some { IfSome result (λ translation. (own : CachedPage) × (cached ≡ Some own) × (own.space ≡ space) × (own.page ≡ page)
        × (allows own.translation.rights kind ≡ true) × (translation ≡ own.translation)) }
    ensures none { IfNone result ((own : CachedPage) → cached ≡ Some own → own.space ≡ space → own.page ≡ page
        → allows own.translation.rights kind ≡ false) }
{
    let own = cached?;
    if own.space == space && own.page == page && own.translation.rights.allows(kind) {
        return Some(own.translation);
    }
    None
}

/// The translation that is cached for the page, with a right that allows the access. Which one goes next stays as it is.
pub fn cached_translation(
    cache: &Ioatc,
    space: Space,
    page: u64,
    kind: AccessKind,
) -> Option<Translation>
    ensures { result ≡ cached_for (content_of_sets cache.now (space, page)) kind }
{
    cache.facts();
    for place in 0..PLACES {
        if let Some(translation) = served_at(cache.page_at(place), space, page, kind) {
            return Some(translation);
        }
    }
    None
}
