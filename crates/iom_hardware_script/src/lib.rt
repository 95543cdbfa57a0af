//! The script language of a driver under test: what its lines say, and the text of the answers that no script of a
//! world has.
//!
//! A script is text. Each line ends with a line feed; an empty line and one that begins with `#` say nothing; the
//! first other line says how much memory the hardware has, and whether each load of a walk is an event of its own, or
//! pointers to tables are cached too; each one after it says one thing that hardware, a device or software does, or asks
//! hardware to act by itself. What devices and hardware do is said as in a script of a world (`iom_script`), but for the
//! next load of a walk, which stands in this language alone; software reads and writes the registers of the RISC-V IOMMU
//! Architecture Specification (chapter 5, "Memory-mapped register interface") by their offsets, and claims what its
//! devices may reach.
//! `specs/Grammar.antt` is the grammar, as a relation between bytes and what they say, apart from the parser;
//! `specs/Answers.antt` is the text of the answers.
//!
//! The layer above may rely on this: [`parse`] gives what the bytes say, with the number of each line, or names the
//! first line that isn't in the grammar, and only memory keeps it from either; [`line_of`] does the same of one line;
//! [`hardware_grammar_is_exact`] says that no bytes have two meanings; [`append_answer`] appends exactly the text of
//! an answer, without its line feed, and takes no memory.
#![tactic(auto)]

mod answers;
mod claims;
mod first_line;
mod help;
mod laws;
mod lines;
mod loads;
mod parser;
mod registers;
mod script;

pub use answers::{Answer, LONGEST_ANSWER, append_answer};
pub use first_line::setup_of;
pub use laws::{hardware_grammar_is_exact, one_byte_past_a_hardware_script_is_enough};
pub use lines::{is_of_hardware, line_of};
pub use parser::parse;
pub use script::{Claim, HardwareLine, HardwareScript, Help, NumberedLine, Pace, Setup};
