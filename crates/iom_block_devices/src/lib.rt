//! The block devices that are plugged in, each with its queue, its requests and its disk, and the disks that were never in
//! one (OASIS Virtual I/O Device (VIRTIO) Version 1.2, sections 2.1, 2.4, 3.1 and 5.2).
//!
//! A list of them is asked by id, as a list of devices is: where none has the id, nothing happens. The layers above may
//! rely on each call doing to one block device what `specs/Changes.antt` says, and nothing to any other; and on a disk that
//! is taken being at hand no more.
#![tactic(auto)]

mod at_hand;
mod block;
mod blocks;
mod numbering;
mod wants;

pub use at_hand::{plug_in, put_in};
pub use block::{Block, DiskAtHand};
pub use blocks::{hear_made, hear_refusal, leave, place_of, reset, set_up};
pub use numbering::{number_disks, numbers_of};
pub use wants::wanted;
