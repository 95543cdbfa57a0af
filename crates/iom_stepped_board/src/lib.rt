//! A board whose walks make one load an event: a board, and beside it the requests of its devices that are under way (RISC-V
//! IOMMU Architecture Specification, section 2.3, "Process to translate an IOVA", which doesn't order the loads of a walk with what
//! others do meanwhile).
//!
//! A request that needs a load is under way from then on, and each load is an event of its own. The calls here are those in which
//! what is under way has a part; each is lent the board and what is under way beside it. Whatever else happens between two loads is
//! a call of the board alone. The layers above may rely on each call doing what its relation in `specs/` says, on what stays true of
//! the board (`BoardInvariant` of `iom_board`), and on this: each device has a row for its request, and one that is under way has its
//! place among the device's eight accesses (`AreBeside`), which the calls of the board alone leave so ([`laws`]).
#![tactic(auto)]

mod cached_requests;
mod fetching;
pub mod laws;
mod permits;
mod plugging;
mod recovery;
mod requests;

pub use cached_requests::through_cache;
pub use fetching::fetch;
pub use plugging::plug;
pub use recovery::{remove_disk, reset};
pub use requests::{begin, load, translated};
