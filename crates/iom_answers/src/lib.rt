//! What comes of an event, as it goes from whoever makes it happen to whoever writes it down: an outcome
//! ([`iom_machine::Outcome`]) holds the bytes that were read, a page of them. An [`Answer`] has them lent from where
//! they stand: it is small, is handed on by value, and no byte is copied on its way.
//!
//! The layer above may rely on this: [`Answer::outcome`] is the outcome that says the same, and [`Answer::of`] lends an
//! outcome as an answer; what is lent ([`Lent`]) is a page of bytes at most; an [`AnswerSink`] takes answers as a sink
//! ([`iom_machine::Sink`]) takes outcomes.
#![tactic(auto)]

mod answer;
mod lent;
mod sink;

pub use answer::Answer;
pub use lent::Lent;
pub use sink::AnswerSink;
