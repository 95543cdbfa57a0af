//! Calls of the IOMMU without a driver: registers are written, and the bytes of commands, directories and page
//! tables stored, by hand. The expected values were worked out from chapters 2, 3 and 5 of the IOMMU
//! specification.
//!
//! The crate has tests alone, and nothing stands on it. It stands apart from `iom_iommu` because a crate
//! with tests of its own is proved twice, without them and with them.
#![tactic(auto)]

#[cfg(test)]
mod bench;
#[cfg(test)]
mod counts;
#[cfg(test)]
mod directories;
#[cfg(test)]
mod expect;
#[cfg(test)]
mod fences;
#[cfg(test)]
mod invalidations;
#[cfg(test)]
mod loads;
#[cfg(test)]
mod questions;
#[cfg(test)]
mod records;
#[cfg(test)]
mod requests;
#[cfg(test)]
mod rings;
#[cfg(test)]
mod setup;
#[cfg(test)]
mod stages;
#[cfg(test)]
mod stops;
#[cfg(test)]
mod table;
#[cfg(test)]
mod timeouts;
#[cfg(test)]
mod translated;
#[cfg(test)]
mod translations;
#[cfg(test)]
mod widths;
