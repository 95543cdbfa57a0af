//! A request of a device by single loads, and the same request served at once.
//!
//! `iom_stepped_requests` makes one load of a request an event; `iom_iommu` serves a request in one event (`Serves`, and
//! `KeepsContext` for the cache of contexts). Where all loads of the first are made from one memory, while nothing else is
//! put into the caches, the two are one: the same answer, and the same in both caches. So an IOMMU whose walks take several
//! events is today's wherever nothing happens between their loads. RISC-V IOMMU Architecture Specification, section 2.3,
//! "Process to translate an IOVA", and section 2.8, "Caching in-memory data structures". Nothing here has code: the contract
//! of the public function is the law.
#![tactic(auto)]

mod laws;

pub use laws::{request_law, service_law};
