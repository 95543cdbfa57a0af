//! The rows of the pages of all devices.
ghost use Rattle.std.specs.Prelude.{◌≡◌, ◌+◌, ℕ, None, ◌==◌, ◌&&◌, nat_eq, length, max, slice_get, OnOk, OnErr, IfSome, IfNone, if◌then◌else◌};
ghost use Rattle.indexmap.specs.IndexMap.{get, keys};
ghost use Rattle.iom_ledger.specs.Counts.{AreCounted};
ghost use Rattle.iom_ledger.specs.Rows.{row_at, entries_of, pages_of, NoneWaitsFrom};
ghost use Rattle.iom_ledger.specs.RowChanges.{SetsRow, ReleasesRow, ReleasesRows, KeepsRows, TakesRow, TakesRowOf, DropsSome, DropsNamed};
ghost use Rattle.iom_ledger.specs.RowChanges.{released_row_if_any, held_frame, unless_waiting};

use crate::device_list::{DevicePages, Devices, Pages};
use crate::frame_rows::FrameRows;
use crate::page_row::PageRow;
use crate::pages::{place_of, row_of};
use crate::pending::Pending;
use indexmap::IndexMap;
use iom_base::DeviceId;
use std::alloc::AllocError;

/// The row of a page of a device.
#[inline(always)]
pub(crate) fn row_in(devices: &Devices, device: DeviceId, page: u64) -> Option<PageRow>
    ensures { result ≡ row_at devices.now device page }
{
    row_of(devices.pages_of(device)?, page)
}

/// How many pages of the device have a row.
pub(crate) fn row_count(devices: &Devices, device: DeviceId) -> usize
    ensures { result ≡ length (entries_of devices.now device) }
{
    match devices.pages_of(device) {
        None => 0,
        Some(pages) => pages.len(),
    }
}

/// The page at the index, of those of the device that have a row.
pub(crate) fn page_at(devices: &Devices, device: DeviceId, index: usize) -> Option<u64>
    ensures { result ≡ slice_get (pages_of devices.now device) index }
{
    let (page, _row) = devices.pages_of(device)?.get_index(index)?;
    Some(*page)
}

/// Releases the row of the page, unless it is released already. Its frame, where it wasn't.
#[inline(always)]
fn release_row(pages: &mut Pages, page: u64, ticket: u32) -> Option<u32>
    ensures rows { (a : ℕ) → get nat_eq pages.new a
        ≡ (if page == a then released_row_if_any (get nat_eq pages.old a) ticket else get nat_eq pages.old a) }
    ensures frame { result ≡ held_frame (get nat_eq pages.old page) }
    ensures order { keys pages.new ≡ keys pages.old }
{
    let place = place_of(pages, page)?;
    pages.get_index_mut(place)?.release(ticket)
}

/// Drops the row at the index of the pages, if it waits for the ticket. The last row takes its place.
fn take_waiting_row(pages: &mut Pages, index: usize, ticket: u32) -> Option<(u64, PageRow)>
    ensures taken { IfSome result (λ entry. TakesRow pages.old pages.new entry.0 entry.1 ticket) }
    ensures kept { IfNone result ((page : ℕ) → get nat_eq pages.new page ≡ get nat_eq pages.old page) }
    ensures looked { NoneWaitsFrom pages.old.entries (index + 1) ticket → NoneWaitsFrom pages.new.entries index ticket }
{
    let (_page, row) = pages.get_index(index)?;
    if row.waits_for(ticket) {
        pages.swap_remove_index(index)
    } else {
        None
    }
}

/// Drops the row of the page, if it waits for the ticket.
#[inline(always)]
fn take_waiting_row_at(pages: &mut Pages, page: u64, ticket: u32) -> Option<PageRow>
    ensures taken { IfSome result (λ row. TakesRow pages.old pages.new page row ticket) }
    ensures kept { IfNone result ((a : ℕ) → get nat_eq pages.new a ≡ get nat_eq pages.old a) }
    ensures unchanged { IfNone result (unless_waiting (get nat_eq pages.old page) ticket ≡ get nat_eq pages.old page) }
{
    let place = place_of(pages, page)?;
    let (_page, row) = pages.get_index(place)?;
    if row.waits_for(ticket) {
        let (_page, row) = pages.swap_remove_index(place)?;
        Some(row)
    } else {
        None
    }
}

/// Gives the page of the device a row. Only new memory can be refused.
fn set_row_in(
    devices: &mut Devices,
    device: DeviceId,
    page: u64,
    row: PageRow,
) -> Result<(), AllocError>
    ensures ok { OnOk result (SetsRow devices.old devices.new device page row) }
    ensures err { OnErr result (KeepsRows devices.old devices.new) }
{
    match devices.place_of(device) {
        Some(place) => {
            devices.list[place].pages.insert(page, row)?;
        }
        None => {
            let mut pages = IndexMap::new(*devices.list.allocator());
            pages.insert(page, row)?;
            devices.list.push(DevicePages { device, pages })?;
        }
    }
    Ok(())
}

/// Gives the page of the device its first row, which isn't released, and counts it as a grant of its frame.
/// Only new memory can be refused, and it is asked for before anything changes.
pub(crate) fn grant_in(
    devices: &mut Devices,
    frames: &mut FrameRows,
    device: DeviceId,
    page: u64,
    row: PageRow,
) -> Result<(), AllocError>
    requires absent { row_at devices.old device page ≡ None }
    requires held { row.ticket ≡ None }
    requires counted { AreCounted devices.old frames.old.rows.items }
    ensures counted { AreCounted devices.new frames.new.rows.items }
    ensures ok { OnOk result (SetsRow devices.old devices.new device page row) }
    ensures ok_frames { OnOk result
        (length frames.new.rows.items ≡ max (length frames.old.rows.items) (row.frame + 1)) }
    ensures err { OnErr result (KeepsRows devices.old devices.new) }
    ensures err_frames { OnErr result (length frames.new.rows.items ≡ length frames.old.rows.items) }
{
    frames.make_room(row.frame)?;
    set_row_in(devices, device, page, row)?;
    frames.grant(row.frame);
    Ok(())
}

/// Releases the row of the page of the device, unless it is released already. Its frame, where it wasn't.
#[inline(always)]
fn release_row_in(devices: &mut Devices, device: DeviceId, page: u64, ticket: u32) -> Option<u32>
    ensures rows { ReleasesRow devices.old devices.new device page ticket }
    ensures frame { result ≡ held_frame (row_at devices.old device page) }
    ensures order { pages_of devices.new device ≡ pages_of devices.old device }
{
    let place = devices.place_of(device)?;
    release_row(&mut devices.list[place].pages, page, ticket)
}

/// Releases the row of the page of the device, unless it is released already, and counts it as released.
// Written into its callers, with what it calls: most releases are of one page.
#[inline(always)]
pub(crate) fn release_in(
    devices: &mut Devices,
    frames: &mut FrameRows,
    device: DeviceId,
    page: u64,
    ticket: u32,
)
    requires { AreCounted devices.old frames.old.rows.items }
    ensures counted { AreCounted devices.new frames.new.rows.items }
    ensures frames { length frames.new.rows.items ≡ length frames.old.rows.items }
    ensures rows { ReleasesRow devices.old devices.new device page ticket }
    ensures order { pages_of devices.new device ≡ pages_of devices.old device }
{
    if let Some(frame) = release_row_in(devices, device, page, ticket) {
        frames.release(frame);
    }
}

/// Releases each row of the device that isn't released already, and counts it as released.
pub(crate) fn release_all_in(
    devices: &mut Devices,
    frames: &mut FrameRows,
    device: DeviceId,
    ticket: u32,
)
    requires { AreCounted devices.old frames.old.rows.items }
    ensures counted { AreCounted devices.new frames.new.rows.items }
    ensures frames { length frames.new.rows.items ≡ length frames.old.rows.items }
    ensures rows { ReleasesRows devices.old devices.new device ticket }
{
    for index in 0..row_count(devices, device) {
        if let Some(page) = page_at(devices, device, index) {
            release_in(devices, frames, device, page, ticket);
        }
    }
}

/// Drops the row at the index of the device's pages, if it waits for the ticket.
fn take_in(
    devices: &mut Devices,
    device: DeviceId,
    index: usize,
    ticket: u32,
) -> Option<(u64, PageRow)>
    ensures taken { IfSome result (λ entry. TakesRowOf devices.old devices.new device entry.0 entry.1 ticket) }
    ensures kept { IfNone result (KeepsRows devices.old devices.new) }
    ensures looked { NoneWaitsFrom (entries_of devices.old device) (index + 1) ticket → NoneWaitsFrom (entries_of devices.new device) index ticket }
{
    let place = devices.place_of(device)?;
    take_waiting_row(&mut devices.list[place].pages, index, ticket)
}

/// Drops the row of the page of the device, if it waits for the ticket.
#[inline(always)]
fn take_at_in(devices: &mut Devices, device: DeviceId, page: u64, ticket: u32) -> Option<PageRow>
    ensures taken { IfSome result (λ row. TakesRowOf devices.old devices.new device page row ticket) }
    ensures kept { IfNone result (KeepsRows devices.old devices.new) }
    ensures unchanged { IfNone result (unless_waiting (row_at devices.old device page) ticket ≡ row_at devices.old device page) }
{
    let place = devices.place_of(device)?;
    take_waiting_row_at(&mut devices.list[place].pages, page, ticket)
}

/// Drops the row at the index of the device's pages, if it waits for the ticket.
fn drop_waiting_row(
    devices: &mut Devices,
    frames: &mut FrameRows,
    device: DeviceId,
    index: usize,
    ticket: u32,
)
    requires { AreCounted devices.old frames.old.rows.items }
    ensures counted { AreCounted devices.new frames.new.rows.items }
    ensures frames { length frames.new.rows.items ≡ length frames.old.rows.items }
    ensures rows { DropsSome devices.old devices.new device ticket }
    ensures looked { NoneWaitsFrom (entries_of devices.old device) (index + 1) ticket → NoneWaitsFrom (entries_of devices.new device) index ticket }
{
    if let Some((_page, row)) = take_in(devices, device, index, ticket) {
        frames.confirm(row.frame);
    }
}

/// Drops each row of the device that waits for the ticket.
fn drop_waiting(devices: &mut Devices, frames: &mut FrameRows, device: DeviceId, ticket: u32)
    requires { AreCounted devices.old frames.old.rows.items }
    ensures counted { AreCounted devices.new frames.new.rows.items }
    ensures frames { length frames.new.rows.items ≡ length frames.old.rows.items }
    ensures rows { (d a : ℕ) → row_at devices.new d a ≡ (if device == d then unless_waiting (row_at devices.old d a) ticket else row_at devices.old d a) }
{
    for index in (0..row_count(devices, device)).rev() {
        drop_waiting_row(devices, frames, device, index, ticket);
    }
}

/// Drops the row of the page of the device, if it waits for the ticket.
// Written into its callers, with what it calls: most releases are of one page.
#[inline(always)]
fn drop_waiting_at(
    devices: &mut Devices,
    frames: &mut FrameRows,
    device: DeviceId,
    page: u64,
    ticket: u32,
)
    requires { AreCounted devices.old frames.old.rows.items }
    ensures counted { AreCounted devices.new frames.new.rows.items }
    ensures frames { length frames.new.rows.items ≡ length frames.old.rows.items }
    ensures rows { (d a : ℕ)
        → row_at devices.new d a ≡ (if (device == d) && (page == a) then unless_waiting (row_at devices.old d a) ticket else row_at devices.old d a) }
{
    if let Some(row) = take_at_in(devices, device, page, ticket) {
        frames.confirm(row.frame);
    }
}

/// Drops the rows that the release names and that wait for its ticket.
#[inline(always)]
pub(crate) fn drop_named_in(devices: &mut Devices, frames: &mut FrameRows, release: Pending)
    requires { AreCounted devices.old frames.old.rows.items }
    ensures counted { AreCounted devices.new frames.new.rows.items }
    ensures frames { length frames.new.rows.items ≡ length frames.old.rows.items }
    ensures rows { DropsNamed devices.old devices.new release release.ticket }
{
    match release.page {
        None => drop_waiting(devices, frames, release.device, release.ticket),
        Some(page) => drop_waiting_at(devices, frames, release.device, page, release.ticket),
    }
}
