//! Runs of a world whose walks make one load an event, held against what was worked out by hand from sections 2.3 and 3.1 of
//! the IOMMU specification.
//!
//! The crate has tests alone, and nothing stands on it.
#![tactic(auto)]

#[cfg(test)]
mod acts;
#[cfg(test)]
mod runs;
