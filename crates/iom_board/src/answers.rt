//! What comes of what devices and the IOMMU do.
use iom_ats_cache::Taken;
use iom_fabric::Translation;
use iom_iommu::Reply;

/// What comes of an access through a device's own cache of translations.
#[derive(Clone, Copy, PartialEq, Eq)]
pub enum CacheReply {
    /// The cache has no frame for it.
    Miss,
    /// What the IOMMU answers to the translated request; or that the bytes aren't within a page, or that eight
    /// accesses are in flight, before the cache is asked.
    Replied(Reply),
}

/// What comes of a message that arrives.
#[derive(Clone, Copy, PartialEq, Eq)]
pub enum Delivered {
    /// There is no message at the place.
    NoMessage,
    /// The IOMMU answers a question so.
    Answered(Translation),
    /// The device's cache takes an answer so.
    Taken(Taken),
    /// The device has no cache.
    Ignored,
    /// The device obeyed the request to invalidate with this number, and says so.
    Invalidated(u64),
    /// The request with this number was open for the device, and is no more.
    Closed(u64),
    /// It wasn't.
    NotClosed(u64),
}

/// Why bytes have no place in memory.
#[derive(Clone, Copy, PartialEq, Eq, Debug)]
pub enum NoPlace {
    /// They are none or too many, or leave their frame.
    BadSpan,
    /// Memory has no such frame.
    OutsideMemory,
}
