//! Where a walk of the device directory or of page tables ends, where all its loads are made from one memory: what it
//! reaches or, where it stops, at which entry of which table, and with which fault.
//!
//! [`end_of_tables`] and [`end_of_directory`] make a walk load by load, as `iom_stepped_walk` has it, and remember the last
//! load. RISC-V Privileged Architecture, sections 12.3.2 and 15.5; RISC-V IOMMU Architecture Specification, section 2.3.
#![tactic(auto)]

mod directory;
mod stages;
mod tables;

pub use directory::{DirectoryEnd, end_of_directory};
pub use stages::Stages;
pub use tables::{TablesEnd, end_of_tables};
