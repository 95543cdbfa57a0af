//! A litmus test, from the bytes of its file to the text of its answer.
//!
//! The first line of a test's opening says what is tested: `world F L` is hardware with the driver, by the lines of `iommu-run`;
//! `hardware F` is hardware under somebody's driver, by the lines of `iommu-hw`. The layer above may rely on [`answer_test`] ending, and on each histogram that is told being one of the search in
//! `iom_litmus`, whose contract says what it has.
#![tactic(auto)]

mod answering;
mod fault;
mod hardware;
mod world;

pub use answering::{Answer, Asked, Finding, Replay, answer_test};
pub use fault::{TestFault, Trouble};
