//! Who asks for an access.

/// A device asks at an event of its own, a block device at its steps.
#[derive(Clone, Copy, PartialEq, Eq)]
pub enum Sender {
    Own,
    Step,
}
