//! What settles a world is a run of the ledger machine.
//!
//! `World::settle` says which events happened to the world, and what is true of its parts then. Each of these
//! events is a lawful step of the ledger machine, and so all of them are a run of it. The layer above may rely on
//! [`laws::settling_is_a_run`]: from every state that the world shows, settling leads to one that it shows then,
//! as `Settles` of `iom_settling` says: within 400 events, none of them a loss, a timeout or a reset, nothing is in
//! flight, no ticket is unconfirmed, and each device holds what it did. A crate without code.
#![tactic(auto)]

pub mod laws;
