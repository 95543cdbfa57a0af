//! Tests of the driver: the bytes of its commands, tables and contexts in each mode, of each size, against the
//! standard's figures, with ATS and without, the order of its register writes, its refusals, for which fence a
//! ticket waits, what a poll confirms and gives back, what it tells of faults, how a device is quarantined and
//! revived, and how the queue is restarted.
//!
//! The driver stands on memory and on registers with no IOMMU around them: a test takes its place, and
//! writes what a fence would. The crate has tests alone, and nothing stands on it, since a crate with tests
//! of its own is proved twice.
#![tactic(auto)]

#[cfg(test)]
mod ats;
#[cfg(test)]
mod attaches;
#[cfg(test)]
mod bench;
#[cfg(test)]
mod comparing;
#[cfg(test)]
mod detaches;
#[cfg(test)]
mod expect;
#[cfg(test)]
mod fences;
#[cfg(test)]
mod frames;
#[cfg(test)]
mod polls;
mod recording;
#[cfg(test)]
mod recovery;
#[cfg(test)]
mod refusals;
#[cfg(test)]
mod releases;
#[cfg(test)]
mod reports;
#[cfg(test)]
mod revivals;
#[cfg(test)]
mod second_stages;
#[cfg(test)]
mod sizes;
#[cfg(test)]
mod starts;

pub use recording::Recording;
