//! Lines on their way out: the line of each answer, and behind it that of its counts where these are wanted, to any
//! writer, by way of a buffer.
//!
//! A [`LineWriter`] is a sink of answers ([`iom_answers::AnswerSink`]). The layer above may rely on this: what it wrote and
//! what stands in its buffer are the lines of the answers that it took, in order and complete; where the writer fails,
//! what was written is a beginning of those lines, and not all of them. What settling answers is no outcome: its line is
//! put by [`LineWriter::put_settled`], of which the same is so.
#![tactic(auto)]

mod writing;

pub use writing::{LineWriter, WriteFault};
