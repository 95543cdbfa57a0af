use iom_base::{DeviceId, Rights};

/// One thing that happened to the grants.
#[derive(Clone, Copy, PartialEq, Eq)]
pub enum HistoryEntry {
    /// The device got the frame at the page, with the right.
    Granted {
        device: DeviceId,
        page: u64,
        frame: u32,
        rights: Rights,
    },
    /// What the device holds at the page is released, under the ticket.
    Released {
        device: DeviceId,
        page: u64,
        ticket: u32,
    },
    /// All that the device holds is released, under the ticket.
    AllReleased {
        device: DeviceId,
        ticket: u32,
    },
    /// The ticket is confirmed: what was released under it lingers no more.
    Confirmed {
        ticket: u32,
    },
}
