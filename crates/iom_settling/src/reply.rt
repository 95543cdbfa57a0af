/// What settling wants to know of an outcome.
#[derive(Clone, Copy, PartialEq, Eq)]
pub enum FetchReply {
    /// A fetch found a command that waits.
    Waits,
    /// A fetch found no command.
    Empty,
    /// Anything else.
    Other,
}
