//! Whether a trace of another implementation is one of the ledger machine's, line by line.
//!
//! A trace is a script's lines, each followed by what was answered (`docs/JUDGE.md` of the repository says how one is
//! written). [`judge_trace`] keeps one state of the machine, as `iom_kept_state` has it, and decides each line by the
//! machine's own judge. What a line doesn't show it chooses: where the grants settle it, as they say; else by guess, which it
//! notes. Whoever calls may rely on this: a trace that is found lawful is lines of a run, in which what they show is so, and the
//! lines before the one that any other verdict names are. That an unlawful line is none of a run is tested only.
#![tactic(auto)]

mod changes;
mod choosing;
mod domains;
mod findings;
mod freed;
mod guesses;
mod handed;
mod judging;
mod machine;
mod made;
mod missing;
mod settled;
mod sharing;
mod stop;
mod verdict;

pub use findings::{Findings, judge_on};
pub use judging::judge_trace;
pub use missing::{Begun, Missing};
pub use verdict::{Finding, Verdict};
