//! Calls of the public functions of `iom_world` and `iom_runner`, on their happy paths and at their edges,
//! one module for each. Worlds that are drawn are in `iom_drawn_tests`, and those of the crates below in crates of their own.
//!
//! The crate has tests alone, and nothing stands on it. It stands apart from the crates that it calls
//! because a crate with tests of its own is proved twice, without them and with them. What comes of
//! events is told by the worked scripts of `iom_worked`, which need no proof of their own.
#![tactic(auto)]

#[cfg(test)]
mod disks;
#[cfg(test)]
mod expect;
#[cfg(test)]
mod fences;
#[cfg(test)]
mod runner;
#[cfg(test)]
mod runs;
#[cfg(test)]
mod world;
