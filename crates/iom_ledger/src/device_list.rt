//! The devices that were ever granted anything, each with the rows of its pages.
ghost use Rattle.std.specs.Prelude.{◌≡◌, ◌↔◌, ◌∷◌, [], ◌++◌, None, IsTrue, MatchOption, OnOk, OnErr};
ghost use Rattle.std.specs.Option.{option_copied};
ghost use Rattle.iom_ledger.specs.Places.{IsPlaceOf};
ghost use Rattle.iom_ledger.specs.Rows.{pages_in};
ghost use Rattle.iom_ledger.specs.Same.{rows_of_device, rows_of_devices};

use crate::page_row::PageRow;
use indexmap::IndexMap;
use iom_base::DeviceId;
use std::alloc::{AllocError, Global};

/// The rows of one device, by page.
pub(crate) type Pages = IndexMap<u64, PageRow>;

/// A device, with the rows of its pages.
#[derive(Drop)]
pub(crate) struct DevicePages {
    pub(crate) device: DeviceId,
    pub(crate) pages: Pages,
}

impl DevicePages {
    /// Whether both are of the same device, with the same rows in the same order.
    fn is_same(&self, other: &DevicePages) -> bool
        ensures { IsTrue result ↔ (rows_of_device self.now ≡ rows_of_device other.now) }
    {
        if self.device != other.device {
            return false;
        }
        self.pages.as_slice() == other.pages.as_slice()
    }
}

/// The devices with the rows of their pages, in the order of their first grants. There are few, so a look-up
/// goes over them from the front.
#[derive(Drop)]
pub(crate) struct Devices {
    pub(crate) list: Vec<DevicePages>,
}

impl Devices {
    /// No devices. Takes no memory.
    pub(crate) fn new(alloc: Global) -> Devices
        ensures { result.list.items ≡ [] }
    {
        Devices {
            list: Vec::new(alloc),
        }
    }

    /// Where the device stands.
    pub(crate) fn place_of(&self, device: DeviceId) -> Option<usize>
        ensures { MatchOption result (pages_in self.now.list.items device ≡ None) (IsPlaceOf self.now.list.items device) }
    {
        for k in 0..self.list.len() {
            if self.list[k].device == device {
                return Some(k);
            }
        }
        None
    }

    /// The rows of the device, if it has any.
    pub(crate) fn pages_of(&self, device: DeviceId) -> Option<&Pages>
        ensures { option_copied result ≡ pages_in self.now.list.items device }
    {
        let place = self.place_of(device)?;
        Some(&self.list[place].pages)
    }

    /// Whether both have the same devices with the same rows, all in the same order.
    pub(crate) fn is_same(&self, other: &Devices) -> bool
        ensures { IsTrue result ↔ (rows_of_devices self.now ≡ rows_of_devices other.now) }
    {
        if self.list.len() != other.list.len() {
            return false;
        }
        for k in 0..self.list.len() {
            if !self.list[k].is_same(&other.list[k]) {
                return false;
            }
        }
        true
    }
}
