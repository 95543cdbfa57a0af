//! Block devices, as the facts on ways see them.
//!
//! `iom_hardware_ways` and `iom_stepped_ways` speak of the calls of a board. A block device has lines of its own: it takes a
//! step, or its queue is set (virtio 1.2, sections 2.4, 2.7 and 3.1.1). The layer above may rely on this: each is one of these
//! calls, or leaves the board. So no step of a block device adds a way either.
//!
//! It has no code. `specs/Calls.antt` says what is a call or nothing, `specs/Laws.antt` what is proved.
#![tactic(auto)]

mod laws;

pub use laws::{block_law, stepped_block_law};
