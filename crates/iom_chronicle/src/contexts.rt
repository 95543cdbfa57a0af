// Since when contexts are cached.
use crate::since::Since;
use iom_base::{DeviceId, MAX_DEVICES};
use iom_board::Board;
use iom_device_dir::Context;
use std::alloc::{AllocError, Global};

/// The context that is cached for each device, in the order of plugging, since which line.
#[derive(Drop)]
pub(crate) struct ContextLines {
    rows: Vec<ContextRow>,
}

#[derive(Clone, Copy)]
struct ContextRow {
    device: DeviceId,
    cached: Option<Since<Context>>,
}

impl ContextLines {
    /// No device is known.
    pub(crate) fn new(alloc: Global) -> Result<ContextLines, AllocError> {
        Ok(ContextLines {
            rows: Vec::with_capacity(alloc, MAX_DEVICES)?,
        })
    }

    /// A row for each device that has none.
    // There is room for all, so none is refused.
    fn meet(&mut self, hardware: &Board) {
        for device in hardware.devices.iter() {
            if !self.has_row(device.id) {
                let row = ContextRow {
                    device: device.id,
                    cached: None,
                };
                let _ = self.rows.push(row);
            }
        }
    }

    fn has_row(&self, device: DeviceId) -> bool {
        for row in self.rows.iter() {
            if row.device == device {
                return true;
            }
        }
        false
    }

    pub(crate) fn notice(&mut self, hardware: &Board, line: u64) {
        self.meet(hardware);
        for row in self.rows.iter_mut() {
            let now = hardware.iommu.cached_context(row.device);
            row.cached = Since::noticed(row.cached, now, line);
        }
    }

    /// Since when a context is known for the device.
    pub(crate) fn since(&self, device: DeviceId) -> Option<u64> {
        for row in self.rows.iter() {
            if row.device == device {
                return Some(row.cached?.line);
            }
        }
        None
    }
}
