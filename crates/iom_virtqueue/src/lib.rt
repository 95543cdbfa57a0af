//! The device's side of a split virtqueue, one access to memory at a time.
//!
//! OASIS Virtual I/O Device (VIRTIO) Version 1.2, section 2.7, "Split Virtqueues": the descriptor table
//! (2.7.5), the available ring (2.7.6), the used ring (2.7.8), and chains of descriptors that the driver
//! writes and may change at any time. [`Queue`] never touches memory: [`Queue::next`] says which access it
//! wants, somebody else makes it, and [`Queue::took`] takes its bytes. The layers above may rely on the
//! chain that [`Queue::chain`] lends: it is the whole of a chain as its descriptors were read, of distinct
//! descriptors, each named by the one before, or a [`ChainFault`] named the first fault that stands in
//! it. They may rely on each access lying within one page. `specs/` says it in three steps: where a queue may
//! lie (`Layouts`), what a chain is (`Chains`), and what a queue wants and becomes at each access (`Queues`).
//!
//! Descriptors in tables of their own (`VIRTQ_DESC_F_INDIRECT`), event indices and packed queues aren't
//! offered. No queue writes the flags of the used ring, and none looks at those of the available ring.
#![tactic(auto)]

mod buffers;
mod descriptor;
mod fault;
mod layout;
mod numbers;
mod phase;
mod queue;
mod spans;
mod want;

pub use buffers::Buffers;
pub use descriptor::{Descriptor, Link};
pub use fault::ChainFault;
pub use layout::{Layout, MAX_QUEUE_SIZE};
pub use numbers::{le16, le32, le64};
pub use phase::Phase;
pub use queue::Queue;
pub use spans::{Piece, piece_of};
pub use want::Want;
