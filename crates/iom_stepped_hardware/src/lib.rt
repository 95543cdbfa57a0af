//! Hardware whose walks make one load an event: hardware (`iom_hardware`), and beside it the requests of its devices that are under
//! way (RISC-V IOMMU Architecture Specification, section 2.3, "Process to translate an IOVA"; OASIS Virtual I/O Device (VIRTIO)
//! Version 1.2, sections 2.1, 2.7 and 5.2).
//!
//! The calls here are those in which what is under way has a part; each is lent the hardware and what is under way beside it.
//! Whatever else happens between two loads is a call of the hardware alone. The layers above may rely on each call doing to board,
//! block devices and walks what its relations in `specs/` say, and on what stays true (`specs/Beside.antt`), which each call asks
//! for and gives back, and the calls of the hardware alone leave so ([`laws`]): a block device whose request is under way has no
//! cache, and asks for that access still.
#![tactic(auto)]

mod commits;
mod fetching;
pub mod laws;
mod plugging;
mod queues;
mod requests;
mod steps;

pub use commits::commit;
pub use fetching::fetch;
pub use plugging::{plug, remove_disk};
pub use queues::{queue, reset};
pub use requests::{begin, load};
pub use steps::{StepOutcome, step};
