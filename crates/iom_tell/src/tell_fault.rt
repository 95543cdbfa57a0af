use thiserror::Error;

/// Why the line of an event isn't told.
#[derive(Clone, Copy, PartialEq, Eq, Debug, Error)]
pub enum TellFault {
    #[error("out of memory")]
    Memory,
    /// No line can say the event, or the access that it began: the device has no name of six digits, or the bytes are too many.
    #[error("an event that no line can say")]
    Unsayable,
}
