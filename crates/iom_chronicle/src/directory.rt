// The pages of the directory that the walk to a device's context reads.
use crate::found::{has_directory, mode_of};
use iom_base::{DeviceId, ENTRY_SIZE, PAGE_SIZE};
use iom_board::Board;
use iom_device_dir::{CONTEXT_SIZE, NonLeafEntry, fits_directory};
use iom_phys_mem::{Bytes, Memory};
use iom_registers::DirectoryMode;

/// How many entries stand above a context.
fn entries_above(mode: DirectoryMode) -> u32 {
    match mode {
        DirectoryMode::Off | DirectoryMode::Bare | DirectoryMode::OneLevel => 0,
        DirectoryMode::TwoLevels => 1,
        DirectoryMode::ThreeLevels => 2,
    }
}

/// The index of a device in a page above so many levels: DDI[2], DDI[1] or DDI[0].
fn index_in(device: DeviceId, below: u32) -> u64 {
    let number = u64::from(device);
    match below {
        0 => number % (1 << 7),
        1 => (number >> 7) % (1 << 9),
        _ => (number >> 16) % (1 << 8),
    }
}

/// The page to which the entry of a device in a page leads.
fn page_below(memory: &Memory, page: u64, device: DeviceId, below: u32) -> Option<u64> {
    let offset = index_in(device, below).saturating_mul(ENTRY_SIZE);
    let address = page.saturating_mul(PAGE_SIZE).saturating_add(offset);
    let word = memory.load_u64(address)?;
    match NonLeafEntry::decode(word) {
        Ok(entry) => Some(entry.next.number()),
        Err(_) => None,
    }
}

/// The page on a device's path that stands above so many levels.
pub(crate) fn page_on_path(hardware: &Board, device: DeviceId, below: u32) -> Option<u64> {
    let mode = mode_of(hardware);
    let most = entries_above(mode);
    if !has_directory(mode) || !fits_directory(mode, device) || below > most {
        return None;
    }
    let mut page = hardware.iommu.registers().directory_root();
    for above in (below..most).rev() {
        page = page_below(&hardware.memory, page, device, above.saturating_add(1))?;
    }
    Some(page)
}

/// Whether the walk to the device's context reads the frame.
pub(crate) fn path_reads(hardware: &Board, device: DeviceId, frame: u32) -> bool {
    for below in 0..=2u32 {
        if page_on_path(hardware, device, below) == Some(u64::from(frame)) {
            return true;
        }
    }
    false
}

/// The address at which memory has the device's context, or would have it.
pub(crate) fn context_address(hardware: &Board, device: DeviceId) -> Option<u64> {
    let page = page_on_path(hardware, device, 0)?;
    let offset = index_in(device, 0).saturating_mul(CONTEXT_SIZE as u64);
    Some(page.saturating_mul(PAGE_SIZE).saturating_add(offset))
}
