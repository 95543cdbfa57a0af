//! Tests of litmus tests and of the search through them, over a mailbox.
//!
//! The crate has the mailbox and tests alone, and nothing stands on it. It stands apart from the crates that it calls
//! because a crate with tests of its own is proved twice, without them and with them.
#![tactic(auto)]

#[cfg(test)]
mod globs;
mod mailbox;
#[cfg(test)]
mod making;
#[cfg(test)]
mod reading;
#[cfg(test)]
mod reports;
#[cfg(test)]
mod searches;

pub use mailbox::Mailbox;
