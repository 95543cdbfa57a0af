//! Messages under way between the devices and the IOMMU: address translation services (ATS), as the PCI
//! Express Base Specification has them, chapter 10.
//!
//! The RISC-V IOMMU Architecture Specification uses them in sections 2.3 and 3.1.4 (`ATS.INVAL`). What is
//! here is the model's own: a link for each device, messages of one page or of everything, an epoch that
//! tells a question of before an invalidation from one after it, and no more than 64 messages under way.
//! The layers above may rely on [`Fabric`] being the list of its messages, each with the device whose link
//! it is on: a message that is taken is one that was sent, unchanged. Whatever a device says, the fabric
//! knows by the link which device said it.
#![tactic(auto)]

mod fabric;
mod message;
mod page_number;

pub use fabric::{Fabric, MAX_MESSAGES, OnLink, Repeat};
pub use message::{Message, Range, Translation};
pub use page_number::PageNumber;
