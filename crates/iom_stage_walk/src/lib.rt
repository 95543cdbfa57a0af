//! Walks of page tables in memory: of a first stage, Sv39 or Sv48, of a second, Sv39x4 or Sv48x4, and of both (RISC-V Privileged
//! Architecture).
//!
//! An entry is [`Pte`], as the chapter "Sv39" lays it out; what it means to a walk is [`Entry`].
//! `specs/Paths.antt` says what a path of entries is, when it reaches a leaf, and with which cause it
//! stops, for any number of levels; `specs/Second.antt` says the same of guest physical addresses, and
//! `specs/Both.antt` of a first stage whose tables stand at such addresses. The layers above may rely on
//! [`walk_first`], [`walk_second`] and [`walk_both`] to answer exactly that, and on the laws of `laws` about
//! paths. Requests of devices are made as user, so a leaf needs U; bits 63:54 of an entry have to be zero;
//! memory that isn't there gives an access fault.
#![tactic(auto)]

mod both;
mod entry;
pub mod laws;
mod pte;
mod second;
mod walk;
mod walked;

pub use both::walk_both;
pub use entry::{Entry, entry_at};
pub use pte::{Pte, PteFlags};
pub use second::walk_second;
pub use walk::{MAX_LEVELS, first_indices, walk_first};
pub use walked::{WalkFault, Walked};
