//! Reads the file of a litmus test.
//!
//! The layer above may rely on this: [`read`] ends, is safe on any bytes, and takes no more than memory; where it
//! refuses, it says which line and why. That it reads what the file says is for tests.
#![tactic(auto)]

mod cells;
mod comments;
mod draft;
mod fault;
mod names;
mod propositions;

pub use draft::read;
pub use fault::{ReadFault, Why};
