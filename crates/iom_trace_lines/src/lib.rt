//! The lines of a trace: how they are cut from what a reader gives, and what each of them says.
//!
//! [`Lines`] takes one line after another of a reader, with nothing left out, and [`read_line`] reads one: as the size of a
//! world, or as an event with its outcome and what is shown behind it (`docs/JUDGE.md` of the repository says how a trace
//! is written). Whoever calls them may rely on this: what is read of a line is what the line says. That a line which isn't
//! read isn't in the grammar is tested only.
#![tactic(auto)]

mod kept;
mod line;
mod others;
mod reading;
mod sizes;
mod trace;
mod words;

pub use kept::{CAUSES, KeptOutcomes};
pub use line::read_line;
pub use reading::Lines;
pub use trace::{GrantedPages, NextLine, ReleasedPages, TraceLine, WorldLimits};
