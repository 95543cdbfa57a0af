//! Whole scripts told as traces: each line with its answer and what that doesn't show, and a line `settle` as the events that it
//! stands for.
//!
//! The layer above may rely on [`tell`]: what it writes is the text of a run of the script's lines that a world goes through
//! from power-on (`TellsScript` of `specs/Scripts.antt`); where writing, memory or a name fails, a beginning of such a text.
#![tactic(auto)]

mod fault;
mod script;
mod teller;

pub use fault::TellingFault;
pub use script::tell;
