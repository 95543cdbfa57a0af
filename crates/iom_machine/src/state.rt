use iom_base::{
    AcceptedAccess, DeviceId, DeviceKind, MAX_DEVICES, MAX_IN_FLIGHT, Mode, Owner, Sequence,
};
use iom_ledger::{HistoryEntry, MAX_PENDING};

/// How a device is attached.
#[derive(Clone, Copy, PartialEq, Eq)]
pub enum Attachment {
    Detached,
    /// Attached in the mode, with ATS or without.
    Attached { mode: Mode, ats: bool },
    /// Quarantined under the ticket. How it was attached before stays known.
    Quarantined { ticket: u32, mode: Mode, ats: bool },
    /// Detached once the ticket is confirmed. How it was attached before stays known.
    Leaving { ticket: u32, mode: Mode, ats: bool },
}

impl Attachment {
    ghost use Rattle.std.specs.Prelude.{◌≡◌};
    ghost use Rattle.iom_machine.specs.Refusals.{mode_at, page_limit_at, table_limit_at};

    /// The mode in which a device is attached, or was until it was quarantined or detached.
    pub fn mode(self) -> Option<Mode>
        ensures { result ≡ mode_at self }
    {
        match self {
            Attachment::Detached => None,
            Attachment::Attached { mode, .. } => Some(mode),
            Attachment::Quarantined { mode, .. } => Some(mode),
            Attachment::Leaving { mode, .. } => Some(mode),
        }
    }

    /// The pages that may be granted to a device that is attached so are below this.
    pub fn page_limit(self) -> u64
        ensures { result ≡ page_limit_at self }
    {
        match self.mode() {
            None => 0,
            Some(mode) => mode.size().page_limit(),
        }
    }

    /// The path of such a page lacks no more tables than this.
    pub fn table_limit(self) -> u32
        ensures { result ≡ table_limit_at self }
    {
        match self.mode() {
            None => 0,
            Some(mode) => mode.size().table_limit(),
        }
    }
}

/// A frame of memory. Where it has an owner it is reserved, and its bytes mean nothing.
#[derive(Drop)]
pub struct Frame {
    pub owner: Option<Owner>,
    pub bytes: Sequence<u8>,
}

/// A plugged device.
#[derive(Drop)]
pub struct Device {
    pub id: DeviceId,
    pub kind: DeviceKind,
    /// Whether it is a block device with a disk.
    pub has_disk: bool,
    pub attachment: Attachment,
    /// How many of its accesses were ever accepted.
    pub accepted: u64,
    /// Those that aren't made yet, the oldest first.
    pub in_flight: Sequence<AcceptedAccess>,
}

/// How much the machine allows at a time. `Step` never changes it.
#[derive(Clone, Copy, PartialEq, Eq)]
pub struct Limits {
    /// The most tickets that aren't confirmed at a time.
    pub pending: u64,
    /// The most accesses of a device in flight.
    pub in_flight: u64,
    /// The most devices plugged in.
    pub devices: u64,
    /// The pages that may be granted to a device are below this; `None`: as many as the mode translates in which it is attached.
    pub pages: Option<u64>,
    /// Whether each release takes a ticket of its own, and tickets are confirmed in their order.
    pub in_order: bool,
}

impl Limits {
    ghost use Rattle.std.specs.Prelude.{◌≡◌};
    ghost use Rattle.iom_machine.specs.PowerOn.{model_limits};
    ghost use Rattle.iom_machine.specs.Refusals.{page_limit_under};

    /// What the model's driver, its devices and its IOMMU have room for.
    pub fn of_model() -> Limits
        ensures { result ≡ model_limits }
    {
        Limits {
            pending: MAX_PENDING as u64,
            in_flight: MAX_IN_FLIGHT as u64,
            devices: MAX_DEVICES as u64,
            pages: None,
            in_order: true,
        }
    }

    /// The pages that may be granted to a device that is attached so are below this.
    pub fn page_limit(self, attachment: Attachment) -> u64
        ensures { result ≡ page_limit_under self attachment }
    {
        match self.pages {
            None => attachment.page_limit(),
            Some(pages) => pages,
        }
    }
}

/// All that the machine knows.
#[derive(Drop)]
pub struct State {
    pub limits: Limits,
    /// How many levels the device directory has, from 1 to 3. They bound the ids that it can name.
    pub levels: u8,
    pub frames: Sequence<Frame>,
    /// What happened to the grants, the newest entry first.
    pub history: Sequence<HistoryEntry>,
    /// The last ticket that was given; they count from 1.
    pub last_ticket: u32,
    /// In the order of plugging.
    pub devices: Sequence<Device>,
    /// The numbers of the disks that were never put into a device.
    pub disks: Sequence<u64>,
}
