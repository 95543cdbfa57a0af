//! Tests of the translation caches: that a plain cache keeps what it is handed and lets go of the least recently
//! used, which way of a set a new page takes in a cache of sets of ways, and for both each row of the standard's
//! tables of invalidations, also of superpages' leaves.
//!
//! [`OneTranslation`] is a cache beside it that takes no memory: it shows that the contract of a cache that is
//! sure of its keeps can be met. Nothing stands on this crate. It stands apart from the crate that it calls
//! because a crate with tests of its own is proved twice, without them and with them.
#![tactic(auto)]

#[cfg(test)]
mod expect;
#[cfg(test)]
mod invalidations;
#[cfg(test)]
mod leaves;
mod one_translation;
#[cfg(test)]
mod recency;
#[cfg(test)]
mod steps;
#[cfg(test)]
mod ways;

pub use one_translation::{Kept, OneTranslation};
