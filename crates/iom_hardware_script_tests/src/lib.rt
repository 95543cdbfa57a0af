//! Tests of the script language of a driver under test: what each kind of line says, which lines aren't in the
//! grammar, and the text of each answer.
//!
//! The crate has tests alone, and nothing stands on it. It stands apart from the crate that it calls because a
//! crate with tests of its own is proved twice, without them and with them.
#![tactic(auto)]

#[cfg(test)]
mod answers;
#[cfg(test)]
mod bad_lines;
#[cfg(test)]
mod examples;
#[cfg(test)]
mod expect;
#[cfg(test)]
mod said;
