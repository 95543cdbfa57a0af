use iom_base::GrantRights;

/// A frame that a device is to have at a page, with rights there.
#[derive(Clone, Copy, PartialEq, Eq)]
pub struct Mapping {
    /// The page in the device's address space.
    pub page: u64,
    /// The frame of memory; it may be outside memory, which a grant refuses.
    pub frame: u64,
    pub rights: GrantRights,
}
