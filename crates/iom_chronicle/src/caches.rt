// Since when devices have translations of their own.
use crate::messages::MessageLines;
use iom_ats_cache::{Entry, MAX_ENTRIES};
use iom_base::{DeviceId, MAX_DEVICES};
use iom_device::Device;
use std::alloc::{AllocError, Global};

/// What a device keeps, since which line, by an answer that was sent at the other.
#[derive(Clone, Copy)]
pub(crate) struct Kept {
    device: DeviceId,
    pub(crate) entry: Entry,
    pub(crate) since: u64,
    pub(crate) answered: u64,
}

/// What all devices keep.
#[derive(Drop)]
pub(crate) struct CacheLines {
    kept: Vec<Kept>,
}

/// What a device has in its own cache.
fn entries_of(device: &Device) -> &[Entry] {
    match &device.cache {
        Some(cache) => cache.entries(),
        None => &[],
    }
}

/// What the device with this id has in its own cache.
pub(crate) fn entries_at(devices: &[Device], id: DeviceId) -> &[Entry] {
    for device in devices.iter() {
        if device.id == id {
            return entries_of(device);
        }
    }
    &[]
}

/// Whether the device still has what was kept.
fn is_still_there(devices: &[Device], kept: &Kept) -> bool {
    entries_at(devices, kept.device).contains(&kept.entry)
}

impl CacheLines {
    /// No device has anything.
    pub(crate) fn new(alloc: Global) -> Result<CacheLines, AllocError> {
        Ok(CacheLines {
            kept: Vec::with_capacity(alloc, MAX_DEVICES * MAX_ENTRIES)?,
        })
    }

    fn has(&self, device: DeviceId, entry: &Entry) -> bool {
        for kept in self.kept.iter() {
            if kept.device == device && kept.entry == *entry {
                return true;
            }
        }
        false
    }

    /// Adds what the device has and isn't known.
    // There is room for all, so none is refused.
    fn meet(&mut self, device: &Device, messages: &MessageLines, line: u64) {
        for entry in entries_of(device).iter() {
            if !self.has(device.id, entry) {
                let answered = messages.answered(device.id, entry).unwrap_or(line);
                let _ = self.kept.push(Kept {
                    device: device.id,
                    entry: *entry,
                    since: line,
                    answered,
                });
            }
        }
    }

    /// By the messages that were under way before.
    pub(crate) fn notice(&mut self, devices: &[Device], messages: &MessageLines, line: u64) {
        self.kept.retain(|kept| is_still_there(devices, kept));
        for device in devices.iter() {
            self.meet(device, messages, line);
        }
    }

    /// What was noticed of the device's entry of the page.
    pub(crate) fn of_page(&self, device: DeviceId, page: u64) -> Option<Kept> {
        for kept in self.kept.iter() {
            if kept.device == device && kept.entry.page.number() == page {
                return Some(*kept);
            }
        }
        None
    }
}
