//! Calls of the public functions of the hardware's leaf crates, on their happy paths and at their edges: `iom_registers`,
//! `iom_command_queue`, `iom_fault_queue`, `iom_device_dir`, `iom_fabric` and `iom_ats_cache`, a module for each. The
//! expected values were worked out by hand from the figures of the RISC-V IOMMU Architecture Specification.
//!
//! The crate has tests alone, and nothing stands on it. It stands apart from the crates that it calls because a crate
//! with tests of its own is proved twice, without them and with them.
#![tactic(auto)]

#[cfg(test)]
mod ats_cache;
#[cfg(test)]
mod commands;
#[cfg(test)]
mod directory;
#[cfg(test)]
mod expect;
#[cfg(test)]
mod fabric;
#[cfg(test)]
mod records;
#[cfg(test)]
mod registers;
