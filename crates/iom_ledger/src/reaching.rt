//! At which pages a device reaches a frame.
ghost use Rattle.std.specs.Prelude.{◌≡◌, ◌≤◌, Some, length, nat_eq, slice_get, IfNone, IfSome, MatchOption};
ghost use Rattle.indexmap.specs.IndexMap.{IsUnique, get};
ghost use Rattle.iom_ledger.specs.RowsReaching.{NoneNamesWithin, NoRowNames, IsNextRow};

use crate::device_list::{Devices, Pages};
use crate::page_row::PageRow;
use iom_base::{DeviceId, Rights};

/// A page at which a device holds a frame, or at which the frame lingers.
#[derive(Clone, Copy, PartialEq, Eq)]
pub struct Reach {
    /// The page's index among those of the device, as [`page_at`](crate::Ledger::page_at) counts them.
    pub index: usize,
    pub page: u64,
    pub rights: Rights,
    /// The ticket under which the page was released, and lingers. None where it is held.
    pub ticket: Option<u32>,
}

/// A row, with its page and its index.
#[derive(Clone, Copy)]
struct Found {
    index: usize,
    page: u64,
    row: PageRow,
}

/// The first row, from this index on, that names the frame.
fn first_on(pages: &Pages, frame: u32, from: usize) -> Option<Found>
    ensures found { IfSome result (λ found. (from ≤ found.index) × (slice_get pages.now.entries found.index ≡ Some (found.page, found.row)) × (found.row.frame ≡ frame)) }
    ensures skipped { IfSome result (λ found. NoneNamesWithin pages.now.entries frame from found.index) }
    ensures none { IfNone result (NoneNamesWithin pages.now.entries frame from (length pages.now.entries)) }
    ensures unique { IsUnique nat_eq pages.now }
{
    for index in from..pages.len() {
        if let Some((page, row)) = pages.get_index(index) {
            if row.frame == frame {
                return Some(Found {
                    index,
                    page: *page,
                    row: *row,
                });
            }
        }
    }
    None
}

/// The first page of the device, from this index of its pages on, whose row names the frame.
pub(crate) fn reach_in(
    devices: &Devices,
    device: DeviceId,
    frame: u32,
    from: usize,
) -> Option<Reach>
    ensures { MatchOption result (NoRowNames devices.now device frame from) (IsNextRow devices.now device frame from) }
{
    let found = first_on(devices.pages_of(device)?, frame, from)?;
    Some(Reach {
        index: found.index,
        page: found.page,
        rights: found.row.rights,
        ticket: found.row.ticket,
    })
}
