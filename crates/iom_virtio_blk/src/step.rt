use crate::want::WantedAccess;
use iom_virtqueue::ChainFault;

/// What a step of the device was.
#[derive(Drop)]
pub enum Step {
    /// No queue is set, or the driver has no new request.
    Idle,
    /// The access that was begun isn't made yet.
    Waiting,
    /// The device is to be reset.
    Down,
    /// This stands in the chain, and the device is down.
    Chain(ChainFault),
    /// The request at this head is finished, and so many bytes were written for it.
    Finished { head: u16, len: u32 },
    /// This access is wanted.
    Wants(WantedAccess),
}

/// What became of the access that a step wanted.
#[derive(Clone, Copy, PartialEq, Eq)]
pub enum Reply {
    /// It is the device's access of this number, and will be made.
    Accepted(u64),
    /// It is to be tried again.
    Busy,
    /// The device's cache of translations doesn't have the page: it is asked for, and the access tried again.
    Asked(u64),
    /// It was refused.
    Fault,
}

/// A call of the disk, by the number of its sector.
#[derive(Clone, Copy, PartialEq, Eq)]
pub(crate) enum Call {
    Read(u64),
    Write(u64),
    Flush,
}
