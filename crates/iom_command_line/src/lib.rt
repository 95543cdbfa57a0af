//! The command line of the program `iommu-run`: from its words to what they ask for.
//!
//! `specs/CommandLine.antt` says which words are a lawful command line, whether they ask for counts, and which file
//! they name. The layer above may rely on this: [`read_words`] gives just that for a lawful one, and tells every
//! other as a bad one.
#![tactic(auto)]

mod arguments;
mod fault;
mod words;

pub use arguments::{Args, read_words};
pub use fault::ArgsFault;
pub use words::words_of;
