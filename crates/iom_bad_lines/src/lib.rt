//! What is wrong with a line that isn't in the grammar of scripts, of drivers under test, or of traces: where, what stands
//! there, and what was expected there.
//!
//! A line is held against the forms that lines have, as `docs/LANGUAGE.md`, `docs/DRIVER.md` and `docs/JUDGE.md` of the
//! repository name their words, and the one with which it agrees for longest is the one that was meant. Whoever calls knows already that the line
//! isn't in the grammar: that isn't decided here.
#![tactic(auto)]

mod forms;
mod hardware;
mod limits;
mod lines;
mod places;
mod scripts;
mod traces;
mod words;

pub use hardware::explain_hardware_line;
pub use lines::{is_first_spoken, is_past_limit, line_at, wrong_end};
pub use places::WrongPlace;
pub use scripts::explain_script_line;
pub use traces::explain_trace_line;
