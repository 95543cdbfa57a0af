//! A world in which requests are under way, whose walks take several events, one load each, does what the ledger machine
//! with walks in it may do: a request that begins, a load, and a fetch are steps of it, as they are told.
//!
//! RISC-V IOMMU Architecture Specification, sections 2.3 and 2.8. Nothing here has code: each public function's contract
//! is a law. The layer above may rely on it for each of these calls, whatever else happened since the request began.
#![tactic(auto)]

mod laws;

pub use laws::{
    begins_law, busy_law, facts_law, fetches_law, idle_law, loads_law, others_law, runs_law,
    waits_law,
};
