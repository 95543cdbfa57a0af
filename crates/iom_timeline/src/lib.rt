//! The timeline of a trace: what a picture of it shows, as values.
//!
//! Time is the number of a line. [`Follower`] is told the lines of a trace one after another, each as an event with what
//! came of it (`docs/JUDGE.md` of the repository says how a trace is written), and gives a [`Timeline`]: when a device held
//! a page and when the page lingered, what could still reach the frame by then (RISC-V IOMMU Architecture Specification 1.0,
//! chapters 2 and 3; PCI Express Base Specification, chapter 10), and what happened at single lines. The commands that the
//! driver queues and the messages under way have no lines of their own: lists of both are kept, as `docs/LANGUAGE.md` says
//! what changes them.
//!
//! The layers above may rely on this: following any lines is safe and ends, also where they are no lawful trace, and a stay
//! or a period ends no earlier than it begins. Nothing may be decided by what a timeline says.
#![tactic(auto)]

mod accesses;
mod commands;
mod copies;
mod devices;
mod follower;
mod grants;
mod messages;
mod page_copy;
mod period;
mod stay;
mod timeline;
mod traffic;
mod waits;

pub use follower::{Follower, Shown};
pub use page_copy::PageCopy;
pub use period::{NEVER, Period};
pub use stay::Stay;
pub use timeline::{
    CopyKind, Lane, LineText, Mark, MarkKind, Place, Quarantine, Timeline, Wait, WaitCause,
};
