use crate::column::Column;
use crate::hardware::{Budgets, Parts};
use crate::observable::Observable;
use crate::proposition::Proposition;
use iom_base::Sequence;

/// A line of the language under test, and which line of the file it is.
#[derive(Drop)]
pub struct NumberedText {
    /// The number of the line in the file, from 1.
    pub number: u64,
    pub text: Sequence<u8>,
}

/// How a proposition is asked.
#[derive(Clone, Copy, PartialEq, Eq)]
pub enum QuestionKind {
    /// `exists`: it holds of some outcome.
    Exists,
    /// `~exists`: it holds of none.
    NotExists,
    /// `forall`: it holds of each.
    ForAll,
}

/// What a test asks.
#[derive(Drop)]
pub struct Question {
    pub kind: QuestionKind,
    pub proposition: Proposition,
}

/// What a file of a test says.
#[derive(Drop)]
pub struct Test {
    pub name: Sequence<u8>,
    pub title: Sequence<u8>,
    /// What is done before the columns begin.
    pub opening: Sequence<NumberedText>,
    pub columns: Sequence<Column>,
    pub parts: Parts,
    pub budgets: Budgets,
    /// What an outcome tells, in this order: first what the test has among its locations, then what else its
    /// question names, each once.
    pub observables: Sequence<Observable>,
    pub question: Question,
}
