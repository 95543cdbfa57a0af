use iom_command_queue::Command;

/// What a fetch of the command at the head answers.
#[derive(Clone, Copy, PartialEq, Eq)]
pub enum Fetched {
    /// The command is done, and the head stands after it.
    Did(Command),
    /// The command waits and stays at the head: a fence, for invalidation requests that are open or for accesses in flight;
    /// an `ATS.INVAL`, for one of 32 open requests to be closed.
    Waiting,
    /// No command waits.
    Empty,
    /// Commands aren't processed: the queue is off, or one of `cqmf`, `cmd_to` and `cmd_ill` is 1.
    Stopped,
}
