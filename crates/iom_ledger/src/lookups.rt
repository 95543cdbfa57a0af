//! Look-ups that go over the rows of one device.
ghost use Rattle.std.specs.Prelude.{◌≡◌, ◌↔◌, ℕ, true, Some, nat_eq, IsTrue, is_none, is_some};
ghost use Rattle.std.specs.List.{list_any};
ghost use Rattle.indexmap.specs.IndexMap.{IsUnique, get};
ghost use Rattle.iom_ledger.specs.declared.page_row.PageRow.{PageRow};
ghost use Rattle.iom_ledger.specs.Rows.{row_at};

use crate::device_list::{Devices, Pages};
use iom_base::DeviceId;

/// Whether a row of the device isn't released.
fn some_is_held(pages: &Pages) -> bool
    ensures any { result ≡ list_any (λ e. is_none e.1.ticket) pages.now.entries }
    ensures unique { IsUnique nat_eq pages.now }
{
    pages.iter().any(|(_page, row)| row.ticket.is_none())
}

/// Whether a row of the device is released.
fn some_lingers(pages: &Pages) -> bool
    ensures any { result ≡ list_any (λ e. is_some e.1.ticket) pages.now.entries }
    ensures unique { IsUnique nat_eq pages.now }
{
    pages.iter().any(|(_page, row)| row.ticket.is_some())
}

/// Whether a row of the device isn't released.
pub(crate) fn holds_anything_in(devices: &Devices, device: DeviceId) -> bool
    ensures { IsTrue result ↔ ((page : ℕ) × (row : PageRow) × (row_at devices.now device page ≡ Some row) × (is_none row.ticket ≡ true)) }
{
    match devices.pages_of(device) {
        None => false,
        Some(pages) => some_is_held(pages),
    }
}

/// Whether a row of the device is released.
pub(crate) fn lingers_anything_in(devices: &Devices, device: DeviceId) -> bool
    ensures { IsTrue result ↔ ((page : ℕ) × (row : PageRow) × (row_at devices.now device page ≡ Some row) × (is_some row.ticket ≡ true)) }
{
    match devices.pages_of(device) {
        None => false,
        Some(pages) => some_lingers(pages),
    }
}
