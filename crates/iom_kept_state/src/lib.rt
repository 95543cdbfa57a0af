//! The state of the ledger machine as a judge keeps it: each look takes a step or two, and memory is taken for what was named
//! alone.
//!
//! A [`KeptState`] has the limits, devices and disks of a state as they are, its grants as an `iom_ledger` ledger, and of its
//! frames those that have an owner or other bytes than zeros. The history is nowhere stored: whoever calls may rely on what a
//! call says of each history that is a past of what is kept (`IsPastOf`), and of the state that has it (`state_of`).
//! Frames have numbers of 40 bits, and stand in the ledger by their place among those that were ever granted, so that a high
//! one takes no more room than a low one.
#![tactic(auto)]

mod bytes;
mod frames;
mod free;
mod grants;
mod leaving;
mod looks;
mod returning;
mod state;
mod tickets;
mod wanted;

pub use frames::{KeptFrame, KeptFrames};
pub use grants::KeptGrants;
pub use returning::is_attached;
pub use state::KeptState;
pub use tickets::ConfirmedTickets;
