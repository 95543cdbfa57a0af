use iom_machine::{Choice, Event, Outcome};
use std::alloc::AllocError;

/// Whether what is judged may come, where memory doesn't fail.
pub(crate) type Decided = Result<bool, AllocError>;

/// An event with what came of it, and what was chosen of what that doesn't show.
#[derive(Drop)]
pub struct Line {
    pub event: Event,
    pub outcome: Outcome,
    pub choice: Choice,
}
