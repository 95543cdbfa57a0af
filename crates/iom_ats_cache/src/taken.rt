/// What a device does with an answer.
#[derive(Clone, Copy, PartialEq, Eq)]
pub enum Taken {
    /// It is an entry from now on.
    Kept,
    /// It is of another epoch than the device's, and is dropped.
    Stale,
    /// It says that there is no translation, and there is nothing to keep.
    Refused,
}
