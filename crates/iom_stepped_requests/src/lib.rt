//! One request of a device, over the caches of the IOMMU, one load at a time.
//!
//! [`RequestWalk`] is where a request stands between two of its loads: on its way through the directory to the context of
//! its device, or with that context in tables. [`begin`] looks at the cached context and, once there is a context, in the
//! cache of translations; most requests need no load. [`RequestWalk::load`] makes one load more, and says what is to be
//! kept in a cache then. [`RequestWalk::begun_anew`] starts it again, in no cache. `specs/Serving.antt` says how far a
//! request has come, in the words of `iom_walk_loads`; RISC-V IOMMU Architecture Specification, section 2.3, "Process to
//! translate an IOVA", and section 2.8, "Caching in-memory data structures".
#![tactic(auto)]

mod beginning;
pub mod laws;
mod load;
mod request;
mod tables;
mod walk;

pub use beginning::begin;
pub use request::{Answer, Kept, Request};
pub use walk::{Loaded, RequestWalk, Serving};
