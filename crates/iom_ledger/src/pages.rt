//! A page's row among those of its device. The newest row is looked at before any other, since what was granted last
//! is often what is released next: then no hash is taken, and no table is searched.
ghost use Rattle.std.specs.Prelude.{◌≡◌, Some, None, nat_eq, slice_get, IfSome, IfNone};
ghost use Rattle.indexmap.specs.IndexMap.{IsUnique, get};
ghost use Rattle.iom_ledger.specs.declared.page_row.PageRow.{PageRow};

use crate::device_list::Pages;
use crate::page_row::PageRow;

/// The row of the page.
#[inline(always)]
pub(crate) fn row_of(pages: &Pages, page: u64) -> Option<PageRow>
    ensures { result ≡ get nat_eq pages.now page }
{
    let newest = pages.len().saturating_sub(1);
    let (key, row) = pages.get_index(newest)?;
    if *key == page {
        return Some(*row);
    }
    pages.get(&page).copied()
}

/// Where the row of the page stands.
#[inline(always)]
pub(crate) fn place_of(pages: &Pages, page: u64) -> Option<usize>
    ensures there { IfSome result (λ place. (row : PageRow) × (slice_get pages.now.entries place ≡ Some (page, row)) × (get nat_eq pages.now page ≡ Some row)) }
    ensures none { IfNone result (get nat_eq pages.now page ≡ None) }
    ensures unique { IsUnique nat_eq pages.now }
{
    let newest = pages.len().saturating_sub(1);
    let (key, _row) = pages.get_index(newest)?;
    if *key == page {
        return Some(newest);
    }
    let (place, _key, _row) = pages.get_full(&page)?;
    Some(place)
}
