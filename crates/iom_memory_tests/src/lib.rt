//! Calls of the public functions of the crates under the world that are about memory and who holds it, on their happy
//! paths and at their edges.
//!
//! The crate has tests alone, and nothing stands on it. It stands apart from the crates that it calls
//! because a crate with tests of its own is proved twice, without them and with them; and apart from
//! `iom_tests` so that it runs while the world is proved.
#![tactic(auto)]

#[cfg(test)]
mod base;
#[cfg(test)]
mod expect;
#[cfg(test)]
mod frame_rows;
#[cfg(test)]
mod frame_set;
#[cfg(test)]
mod inflight;
#[cfg(test)]
mod ledger;
#[cfg(test)]
mod page_table;
#[cfg(test)]
mod pages;
#[cfg(test)]
mod phys_mem;
#[cfg(test)]
mod stage_walk;
#[cfg(test)]
mod table_frames;
