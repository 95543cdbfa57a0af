//! What is true of requests that are under way in a world whose walks take several events, one load each: where each of
//! them stands, in the directory or in tables, as the driver's calls leave these.
//!
//! RISC-V IOMMU Architecture Specification, sections 2.3 and 2.3.1; RISC-V Privileged Architecture, sections 12.3.2 and
//! 15.5. Nothing here has code: each public function's contract is a law. The layer above may rely on it that a request
//! which stood so stands so after each event.
#![tactic(auto)]

mod laws;

pub use laws::{begins_law, events_law, fetches_law, loads_law, others_law, standing_law};
