//! Calls of the hardware with block devices in it, without a driver: a directory, page tables and a queue are stored by hand.
//! The expected values were worked out from chapters 2 and 3 of the IOMMU specification, and from sections 2.1, 2.7 and 5.2 of
//! virtio 1.2.
//!
//! The crate has tests alone, and nothing stands on it. It stands apart from `iom_hardware` because a crate with tests of
//! its own is proved twice, without them and with them.
#![tactic(auto)]

#[cfg(test)]
mod expect;
#[cfg(test)]
mod machine;
#[cfg(test)]
mod runs;
#[cfg(test)]
mod setup;
#[cfg(test)]
mod stepped;
