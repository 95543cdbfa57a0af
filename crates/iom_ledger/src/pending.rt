//! What is kept beside the rows of each ticket that isn't confirmed.
use iom_base::DeviceId;

/// A release whose ticket isn't confirmed: of one page, or where no page is named of all that the
/// device held.
#[derive(Clone, Copy, PartialEq, Eq)]
pub(crate) struct Pending {
    pub(crate) ticket: u32,
    pub(crate) device: DeviceId,
    pub(crate) page: Option<u64>,
}
