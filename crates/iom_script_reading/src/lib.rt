//! The bytes of a script, read from any reader before anything is done with them: all of them, or one more than a script may
//! have.
//!
//! The layer above may rely on [`read_script`] giving what the reader had, as far as a script may go, and taking no byte
//! behind that; and on [`read_once`] trying an interrupted read again and no other.
#![tactic(auto)]

mod reading;

pub use reading::{READ_SIZE, ReadFault, read_once, read_script};
