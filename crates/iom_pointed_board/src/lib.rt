//! Requests of hardware that caches pointers to tables: where their walks begin.
//!
//! An IOMMU that caches non-leaf entries begins a walk at the deepest table that it knows for the page (RISC-V IOMMU
//! Architecture Specification 1.0, section 2.8, "Caching in-memory data structures"). A request is walked ahead here
//! ([`walk_ahead`]): what is found from a pointer is cached for its page, so that the board, which serves the request next,
//! finds it there, and the pointers by which the walk passes are kept. A pointer from which the walk ends with a fault is
//! passed over, and the walk begins at the root, as it may in hardware that forgot it. Where walks know leaves of 64 KiB
//! (Privileged Architecture, "Svnapot") what is found from the root is cached ahead too, for the board's own walk knows
//! none. Of contexts with both stages no pointer is kept or used, and no such leaf known. `specs/Starts.antt` says where a
//! walk begins; the layers above may rely on [`laws`]: what is kept ahead is kept by calls of hardware that adds no way.
#![tactic(auto)]

mod ahead;
mod cached;
pub mod laws;
mod root;
mod start;

pub use ahead::walk_ahead;
pub use cached::cached_translation;
pub use root::context_of;
pub use start::{Start, found_from_root, start_of};
