//! A walk that is under way, and the tables that it stands in, which a driver changes meanwhile.
//!
//! Each load of such a walk is of memory as it is at that moment (`iom_walk_loads`). Where the table in hand is still the
//! one that its indices name, a load that ends the walk gives what a whole walk would give then; in the driver's tables
//! that is the page's leaf. The same of pages of the directory, and of both stages. RISC-V Privileged Architecture,
//! sections 12.3.2 and 15.5; RISC-V IOMMU Architecture Specification, section 2.3.1. Nothing here has code: each public
//! function's contract is a law.
#![tactic(auto)]

mod laws;

pub use laws::{
    directory_law, driven_law, fault_law, leaf_law, position_law, standing_law, walk_law,
};
