//! Tests of the ledger of claims, on its happy paths and at its edges.
//!
//! The crate has tests alone, and nothing stands on it. It stands apart from the crate that it calls because a
//! crate with tests of its own is proved twice, without them and with them.
#![tactic(auto)]

#[cfg(test)]
mod claims;
#[cfg(test)]
mod expect;
