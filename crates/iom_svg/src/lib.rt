//! The text of an SVG (Scalable Vector Graphics 2): its elements, and text of others in it.
//!
//! The layer above may rely on this: text that [`append_escaped`] appended has no byte that markup could be made of. `Svg::text` appends
//! all text of a trace so. What else is appended are the caller's own words, and numbers.
#![tactic(auto)]

mod escapes;
mod svg;

pub use escapes::append_escaped;
pub use svg::{Part, Svg};
