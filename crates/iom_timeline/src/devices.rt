// The devices, as far as the trace shows them.
use indexmap::IndexMap;
use iom_base::{DeviceId, DeviceKind, Mode};
use iom_machine::CommandName;
use std::alloc::{AllocError, Global};

/// The most pages that a device's own cache has.
const MAX_KEPT: usize = 32;

/// How the driver stands to a device.
#[derive(Clone, Copy, PartialEq, Eq)]
pub(crate) enum Standing {
    Detached,
    Attached,
    /// It was detached, and that isn't confirmed.
    Leaving,
    Quarantined,
}

/// An access that was accepted, and isn't made.
#[derive(Clone, Copy)]
pub(crate) struct Flight {
    pub(crate) lane: Option<usize>,
    pub(crate) copy: usize,
}

/// A device that was plugged in.
#[derive(Drop)]
pub(crate) struct Device {
    pub(crate) id: DeviceId,
    pub(crate) kind: DeviceKind,
    pub(crate) mode: Option<Mode>,
    pub(crate) has_ats: bool,
    pub(crate) standing: Standing,
    /// The stays that were granted since it was quarantined last.
    pub(crate) granted: Vec<usize>,
    /// The newest stay at each page.
    pub(crate) pages: IndexMap<u64, usize>,
    /// The lane of the newest grant of each frame.
    pub(crate) frames: IndexMap<u64, usize>,
    /// The lanes of which the IOMMU was found to remember the page; some it may have forgotten since.
    pub(crate) cached: Vec<usize>,
    /// The lanes of the pages that the device's own cache has, the oldest first.
    pub(crate) kept: Vec<usize>,
    /// Whether the IOMMU accepts nothing of it, since it is quarantined and its context is forgotten.
    pub(crate) is_barred: bool,
    /// The times in which it is quarantined that haven't ended, in the timeline's list: from the first to before the last.
    pub(crate) first_quarantine: usize,
    pub(crate) quarantines_end: usize,
    /// The accesses that were accepted, in order, and how many of them are made.
    pub(crate) flights: Vec<Flight>,
    pub(crate) made: usize,
}

impl Device {
    fn new(alloc: Global, id: DeviceId, kind: DeviceKind) -> Device {
        Device {
            id,
            kind,
            mode: None,
            has_ats: false,
            standing: Standing::Detached,
            granted: Vec::new(alloc),
            pages: IndexMap::new(alloc),
            frames: IndexMap::new(alloc),
            cached: Vec::new(alloc),
            kept: Vec::new(alloc),
            is_barred: false,
            first_quarantine: 0,
            quarantines_end: 0,
            flights: Vec::new(alloc),
            made: 0,
        }
    }

    /// Whether a guest's own tables stand in front of those of the grants, so that its pages aren't those of the grants.
    pub(crate) fn is_guest(&self) -> bool {
        match self.mode {
            None => false,
            Some(mode) => mode.is_both(),
        }
    }

    /// The command by which the IOMMU forgets its pages.
    pub(crate) fn invalidation(&self) -> CommandName {
        match self.mode {
            None | Some(Mode::First(_)) => CommandName::IotinvalVma,
            Some(Mode::Second(_) | Mode::Both(_)) => CommandName::IotinvalGvma,
        }
    }

    /// Its own cache hasn't the lane's page any more.
    pub(crate) fn drop_kept(&mut self, lane: usize) {
        self.kept.retain(|other| *other != lane);
    }

    /// Its own cache keeps the lane's page, as the newest. The lane whose page goes out for that, if one does.
    pub(crate) fn keep(&mut self, lane: usize) -> Result<Option<usize>, AllocError> {
        self.drop_kept(lane);
        let gone = if self.kept.len() >= MAX_KEPT {
            Some(self.kept.remove(0))
        } else {
            None
        };
        self.kept.push(lane)?;
        Ok(gone)
    }

    /// The oldest of its accesses that isn't made, which is made now.
    pub(crate) fn make(&mut self) -> Option<Flight> {
        let flight = self.flights.get(self.made).copied()?;
        self.made = self.made.saturating_add(1);
        Some(flight)
    }
}

/// All devices, in the order of plugging.
#[derive(Drop)]
pub(crate) struct Devices {
    pub(crate) all: IndexMap<DeviceId, Device>,
}

impl Devices {
    pub(crate) fn new(alloc: Global) -> Devices {
        Devices {
            all: IndexMap::new(alloc),
        }
    }

    /// A device is plugged in. Nothing changes where it is already.
    pub(crate) fn plug(
        &mut self,
        alloc: Global,
        id: DeviceId,
        kind: DeviceKind,
    ) -> Result<(), AllocError> {
        if self.all.get(&id).is_none() {
            self.all.insert(id, Device::new(alloc, id, kind))?;
        }
        Ok(())
    }

    pub(crate) fn get(&self, id: DeviceId) -> Option<&Device> {
        self.all.get(&id)
    }

    /// The mode in which the device was attached last.
    pub(crate) fn mode_of(&self, id: DeviceId) -> Option<Mode> {
        match self.get(id) {
            None => None,
            Some(device) => device.mode,
        }
    }

    pub(crate) fn get_mut(&mut self, id: DeviceId) -> Option<&mut Device> {
        self.all.get_mut(&id)
    }
}
