use crate::command::Command;
use crate::illegal::Illegal;

/// What stands in one entry of the command queue.
#[derive(Clone, Copy, PartialEq, Eq)]
pub enum QueueEntry {
    Command(Command),
    /// Bytes that are no command.
    Illegal(Illegal),
    /// The entry lies outside memory.
    Outside,
}
