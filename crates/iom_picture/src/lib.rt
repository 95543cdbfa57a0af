//! One SVG of a trace (Scalable Vector Graphics 2, a file that loads nothing and runs nothing).
//!
//! [`read_trace`] reads the lines of a trace as `docs/JUDGE.md` of the repository says how one is written, and gives what
//! `iom_timeline` finds in them; [`draw`] draws it, from left to right: solid bars for pages that are held, hatched ones for
//! pages that linger, thin ones below for what keeps the frame from being free, and symbols for what happened at single lines.
//!
//! All text of the trace that stands in the picture was appended by [`iom_svg::append_escaped`], which leaves no byte of it that
//! the picture's own markup could be taken for. Words, places and colours are tested only.
#![tactic(auto)]

mod axis;
mod bars;
mod choice;
mod folds;
mod labels;
mod layout;
mod legend;
mod marks;
mod patterns;
mod picture;
mod reading;
mod rows;
mod scale;
mod spans;
mod symbol;

pub use choice::Choice;
pub use picture::draw;
pub use reading::{Reading, read_trace};
