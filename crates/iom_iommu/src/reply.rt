use iom_base::Cause;

/// What a device's request is answered.
#[derive(Clone, Copy, PartialEq, Eq)]
pub enum Reply {
    /// The access is in flight now, and has this number among the device's accepted accesses, from 1.
    Accepted(u64),
    /// Eight accesses of the device are in flight.
    Busy,
    /// The access isn't translated, for this cause.
    Fault(Cause),
    /// It has no bytes or too many, or leaves its page.
    BadSpan,
}
