//! Tests of the chronicle: each text once, and hardware without a driver of which it is told line by line. The expected texts
//! are those of a simulator that the program's answers were worked out on.
//!
//! The crate has tests alone, and nothing stands on it. It stands apart from `iom_chronicle` because a crate with tests of its
//! own is proved twice, without them and with them.
#![tactic(auto)]

#[cfg(test)]
mod expect;
#[cfg(test)]
mod machine;
#[cfg(test)]
mod runs;
#[cfg(test)]
mod texts;
