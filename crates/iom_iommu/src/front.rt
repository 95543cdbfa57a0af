/// What stands at the front of the command queue, before any command is loaded.
#[derive(Clone, Copy, PartialEq, Eq)]
pub enum Front {
    /// Commands aren't processed: the queue is off, or one of `cqmf`, `cmd_to` and `cmd_ill` is 1.
    Stopped,
    /// Commands are processed, and none waits.
    Empty,
    /// Commands are processed, and one waits.
    Command,
}
