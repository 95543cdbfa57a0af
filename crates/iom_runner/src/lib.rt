//! Scripts run: from the bytes of a script to the bytes of its lines, over any reader and writer; and
//! the program `iommu-run`, from its command line to its exit status.
//!
//! A script is in the language of [`iom_script`]; its events happen in a [`iom_world::World`], which is
//! a model of an IOMMU with its driver (RISC-V IOMMU Architecture Specification 1.0) and of virtio block
//! devices. `specs/Text.antt` says which text is right for a script, with the counts behind each line and
//! without, and `specs/Reclaim.antt` of [`iom_machine`] what holds of the run that it tells.
//!
//! The layer above may rely on this: [`run`] writes the right text of the script that it reads and
//! nothing else, or names the script's first bad line and writes nothing; where reading, writing or
//! memory fails, what was written is a beginning of such a text. [`ProgramFault::status`] gives each
//! fault its exit status.
#![tactic(auto)]

mod disks;
mod faults;
mod program;
mod reading;
mod runner;

pub use faults::{ProgramFault, RunFault};
pub use iom_program_disks::program_disks;
pub use program::{run_words, start};
pub use runner::run;
