//! What one event tells: it happens to a world, and its line is appended to a buffer, with what came of it and what that answer
//! doesn't show, as a trace has it.
//!
//! `iommu-judge` guesses what a trace doesn't show: on which frame an access was accepted, which access a block device began, which
//! frames became tables. A world knows. The layer above may rely on [`tell_event`]: the event happens as
//! [`iom_world::World::step`] says, and exactly `told_line` (`specs/Told.antt`) is appended, which is a line of the grammar of
//! traces that says this event, this outcome and what is shown; or nothing is appended, and the reason is told.
#![tactic(auto)]

mod behind;
mod reserved;
mod shown;
mod tables;
mod tell_fault;
mod telling;

pub use behind::Behind;
pub use reserved::ReservedFrames;
pub use tell_fault::TellFault;
pub use telling::{TELL_ROOM, tell_event};
