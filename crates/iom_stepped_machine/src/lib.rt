//! The ledger machine with walks in it: what may be answered where a walk takes several events, one load each, while
//! anything else happens between.
//!
//! Steps 3 to 9 of "Process to locate the Device-context" and the "Virtual Address Translation Process" say what a walk
//! loads (RISC-V IOMMU Architecture Specification 1.0, section 2.3.1; Privileged Architecture, "Sv39"), and neither that
//! it does so at once. Here a request may be answered that its walk is under way; then each load is an event of its own,
//! and the last of them answers the request.
//!
//! The machine is the ledger machine and, of each device, the request whose walk is under way. For the ledger a request
//! is made at the load that ends its walk, and is judged by the ledger as it is then; all loads before that it doesn't
//! see. So what the layer above may rely on: each run is a run of the ledger machine, [`stepped_runs_are_runs`], and the
//! sentences of the reclaim theorem hold of it, [`stepped_reclaim_theorem`]; and each run of the ledger machine is one
//! in which no walk takes several events, [`whole_runs_are_stepped`]. Nothing stands on this crate yet.
#![tactic(auto)]

mod laws;

pub use laws::{
    stepped_reclaim_theorem, stepped_runs_are_runs, walks_have_room, walks_make_few_loads,
    whole_runs_are_stepped,
};
