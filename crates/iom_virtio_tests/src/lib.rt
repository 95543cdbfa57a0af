//! Runs of `iom_virtqueue` and `iom_virtio_blk` over a plain array as memory, and disks of the tests' own.
//!
//! The crate has tests alone, and nothing stands on it. It stands apart from the crates that it calls because a crate
//! with tests of its own is proved twice, without them and with them.
#![tactic(auto)]

#[cfg(test)]
mod block;
#[cfg(test)]
mod expect;
#[cfg(test)]
mod memory;
#[cfg(test)]
mod queue;
#[cfg(test)]
mod shown;
