//! Which frames page tables lead to, and in which frames these tables stand: every leaf and every pointer below a root is
//! looked at, level by level (RISC-V Privileged Architecture, "Sv39", "Sv48" and "Two-Stage Address Translation").
//!
//! The caller says whether walks know leaves of 64 KiB (`napot`): entries are read by `iom_napot`.
//!
//! The tables of a level are a set of frames ([`FrameRow`]), so each is read once a level, also where tables point to one
//! another in circles. `specs/Levels.antt` says what is looked for. The layers above may rely on [`survey`] to find every
//! frame to which a walk of some page leads, and no other; frames from 4,096 on, where no memory has any, count as one.
#![tactic(auto)]

mod bits;
mod frame_row;
mod reach;
mod tables;

pub use frame_row::FrameRow;
pub use reach::Reach;
pub use tables::{span, survey};
