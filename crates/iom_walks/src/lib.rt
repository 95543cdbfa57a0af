//! The requests of devices that are under way in an IOMMU whose requests make one load an event: of each device at most
//! one.
//!
//! [`Walks`] is what such an IOMMU keeps beside its accesses in flight (RISC-V IOMMU Architecture Specification, section
//! 2.3, "Process to translate an IOVA"). [`Walks::begin`] looks in the caches, and answers at once where no load is
//! needed; else the request is under way. [`Walks::load`] makes its next load, keeps in the caches what that finds
//! (section 2.8, "Caching in-memory data structures"), and answers at the last one, with what was asked for; the bytes
//! of a write are [`Walks::bytes`]. [`Walks::begin_anew`] is for an invalidation, [`Walks::give_up`] for a reset.
//! Contracts see the rows of `specs/Walks.antt`, and `specs/Calls.antt` has one relation for each call. All room is made
//! when it is built.
#![tactic(auto)]

mod caches;
pub mod laws;
mod outcome;
mod requests;
mod row;
mod standing;
mod steps;
mod walks;

pub use outcome::{Answered, Began, Loaded};
pub use walks::Walks;
