use crate::reply::Reply;

/// What becomes of a request where the IOMMU makes one load of a walk an event.
#[derive(Clone, Copy, PartialEq, Eq)]
pub enum Begun {
    /// It is answered at once.
    Answered(Reply),
    /// It is under way: it needs loads.
    Walking,
    /// A request of its device is under way already. Of this one nothing is kept.
    Occupied,
}

/// What becomes of a device's request at its next load.
#[derive(Clone, Copy, PartialEq, Eq)]
pub enum Load {
    /// None of it is under way.
    Nothing,
    /// It needs more loads.
    Loaded,
    /// It has ended, and is answered so.
    Ended(Reply),
}
