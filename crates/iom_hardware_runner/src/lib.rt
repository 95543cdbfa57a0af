//! A script for a driver under test, from its bytes to the bytes of its answers, whole or line by line.
//!
//! Each line is answered by one of text. What hardware and devices answer is written as `iommu-run` writes it (`iom_script`).
//! What is found of a claim, and whether an access is a violation, is the session's to say (`iom_hardware_session`); why, and
//! since when, is told in words by `iom_chronicle`. Where a line asks hardware to act by itself, its steps are drawn here, and
//! each is a line too; so is each load of a walk, where the first line asks for hardware of that pace.
//!
//! The layer above may rely on [`run`] and [`run_live`] telling whether anything was wrong: in the session that hardware went
//! through by the lines that the reader had (`specs/Runs.antt`). And on nothing being written by [`run`] of a script that
//! isn't in the grammar. What both write to the log is a script that is answered alike; that is
//! tested alone.
#![tactic(auto)]

mod arriving;
mod conversation;
mod draws;
mod fallen;
mod faults;
mod helper;
pub mod laws;
mod machine;
mod outcomes;
mod output;
mod running;
mod settling;
mod step;
mod teller;
mod telling;
mod under_way;
mod words;

pub use faults::{RunFault, exit_status};
pub use running::{run, run_live};
pub use telling::put_answer;
