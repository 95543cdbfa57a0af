//! Calls of the hardware as a whole without a driver: registers are written, and the bytes of commands, a directory and
//! page tables stored, by hand. The expected values were worked out from chapters 2, 3 and 5 of the IOMMU specification.
//!
//! The crate has tests alone, and nothing stands on it. It stands apart from `iom_board` because a crate with tests of
//! its own is proved twice, without them and with them.
#![tactic(auto)]

#[cfg(test)]
mod draws;
#[cfg(test)]
mod expect;
#[cfg(test)]
mod machine;
#[cfg(test)]
mod paces;
#[cfg(test)]
mod reasons;
#[cfg(test)]
mod runs;
#[cfg(test)]
mod setup;
#[cfg(test)]
mod stepped;
