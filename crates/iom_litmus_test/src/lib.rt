//! A litmus test: what a driver does, what each device does, what hardware may do by itself, and the question
//! whether something can happen.
//!
//! The types say what a file of a test says; lines of the language under test stay text in them. The layer above may
//! rely on this: [`Glob::matches`] holds exactly of the texts that `specs/Globs.antt` says, and
//! [`Proposition::holds`] exactly where `specs/Propositions.antt` says so.
#![tactic(auto)]

mod column;
mod glob;
mod hardware;
mod observable;
mod proposition;
mod test;

pub use column::{Cell, Column, Condition};
pub use glob::{Glob, GlobPart};
pub use hardware::{Budgets, Parts};
pub use observable::{Observable, Reach, Spot, Touch, Value};
pub use proposition::{Atom, Proposition};
pub use test::{NumberedText, Question, QuestionKind, Test};
