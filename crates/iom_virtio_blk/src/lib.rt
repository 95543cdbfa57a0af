//! A virtio block device behind a port to memory that it doesn't know.
//!
//! OASIS Virtual I/O Device (VIRTIO) Version 1.2: section 2.1 (device status), 3.1 (initialization, as far
//! as the device sees it: [`Blk::reset`], [`Blk::negotiate`], [`Blk::set_queue`]), 2.7 (its queue, which is
//! `iom_virtqueue`) and 5.2 (the requests IN, OUT and FLUSH). [`Blk::step`] goes on by one step, up to the
//! next access to memory: it answers which access it wants, and calls its disk where a sector is complete
//! or wanted. The caller makes the access, where it may be made, and says what became of it
//! ([`Blk::replied`], [`Blk::made`], [`Blk::refused`]).
//!
//! The layers above may rely on [`Blk::step`] being the relation `BlockDeviceSteps` of
//! `specs/Steps.antt`, whatever the driver writes into its queue; on the device taking no bytes but those of the access that it began
//! itself since its last reset; and on its disk holding what `specs/Histories.antt` says of the requests
//! that were served. A [`Disk`] keeps the laws of its trait.
#![tactic(auto)]

mod blk;
mod disk;
mod drive;
mod features;
mod front;
mod memory_disk;
mod order;
mod request;
mod serving;
mod stage;
mod step;
mod want;

pub use blk::Blk;
pub use disk::{Disk, DiskFault, SECTOR_SIZE};
pub use features::{
    OFFERED_FEATURES, REQUIRED_FEATURES, VIRTIO_BLK_F_FLUSH, VIRTIO_F_ACCESS_PLATFORM,
    VIRTIO_F_VERSION_1,
};
pub use memory_disk::MemoryDisk;
pub use order::{accesses_keep_their_order, steps_write_elements};
pub use request::RequestStatus;
pub use step::{Reply, Step};
pub use want::WantedAccess;
