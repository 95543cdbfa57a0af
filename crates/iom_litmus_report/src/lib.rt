//! The text that a litmus test is answered with: its histogram, witnesses, whether its question is answered as the
//! test says, and a shortest schedule of what was asked, as a script.
//!
//! Form and words are those of herd7, where they fit.
#![tactic(auto)]

mod answer;
mod cells;
mod drawing;
mod page;
mod script;
mod values;

pub use answer::{Verdict, report, undecided, verdict_on};
pub use drawing::dot;
pub use script::{answers_of, script_of, telling_row};
