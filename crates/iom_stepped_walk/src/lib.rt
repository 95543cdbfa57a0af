//! A walk of the device directory or of page tables, one load at a time.
//!
//! [`TableWalk`] and [`DirectoryWalk`] are where a walk stands between two of its loads: plain values, so that anything
//! may happen to memory in between. Each begins where `begin_first` and the like say, `load` makes one load more, and
//! what that answers is where the walk stands then, or how it has ended: as [`iom_stage_walk::walk_first`] and
//! [`iom_device_dir::locate`] answer. `specs/Positions.antt` says what remains of a walk that stands there, in the words
//! of `iom_walk_loads`; RISC-V Privileged Architecture, sections 12.3.2 and 15.5, and RISC-V IOMMU Architecture
//! Specification, section 2.3.
#![tactic(auto)]

mod directory;
mod faults;
mod flaw;
mod frames;
mod guest;
mod hand;
pub mod laws;
mod next;
mod place;
mod roots;
mod tables;
mod whole;

pub use directory::{DirectoryWalk, Locating};
pub use flaw::Flaw;
pub use frames::GuestFrames;
pub use guest::{Both, GuestEntry, GuestPage};
pub use hand::{SecondTables, TableInHand};
pub use next::{EntryLoad, Table};
pub use place::Place;
pub use tables::{Asked, Progress, TableWalk};
pub use whole::{
    MAX_DIRECTORY_LOADS, MAX_TABLE_LOADS, finish, finish_locating, locate_by_loads,
    walk_both_by_loads, walk_first_by_loads, walk_second_by_loads,
};
