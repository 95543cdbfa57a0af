//! Hardware as one value: memory, the IOMMU, the devices with their caches of translations, the messages between them
//! (`iom_board`), and the block devices themselves with their queues and disks (`iom_block_devices`; OASIS Virtual I/O
//! Device (VIRTIO) Version 1.2, sections 2.1, 2.7 and 5.2).
//!
//! It knows neither driver nor ledger nor ticket. What no block device has a part in is asked of its board; the calls here
//! are those in which one has: it is plugged in, a disk is put in, its queue is set, it takes a step, its access is made,
//! and it hears of an answer. The layers above may rely on each doing to the board and to the block devices what
//! `specs/` says, and on both lists of devices agreeing (`specs/Invariant.antt`), which each call asks for and gives back.
#![tactic(auto)]

mod commits;
mod deliveries;
mod hardware;
mod plugging;
mod queues;
mod start;
mod status;
mod steps;
mod wanted;

pub use hardware::Hardware;
pub use steps::Stepped;
