//! Why a line of a trace isn't lawful, in words, and what is noted of the lines for that.
//!
//! A reason says what the machine knows of what the line is about, and which answers could have come: [`Facts::reason`]
//! puts it together. What is held, what lingers and whose the frames are is looked up in the state that the judge keeps, and
//! what could have come is asked of the judge's own rules. Which messages are under way, and which lines granted, released,
//! accepted and confirmed what a reason speaks of, is noted in [`Notes`], line by line. No verdict rests on these words: the
//! judge of traces finds its verdict first, and asks for them afterwards.
#![tactic(auto)]

mod accesses;
mod devices;
mod facts;
mod notes;
mod pages;
mod past;
mod words;

pub use facts::Facts;
pub use notes::{Notes, Sent};
