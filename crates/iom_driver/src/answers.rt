/// The ticket of a release, a detach or a quarantine: a number from 1 on, one above the last. In a driver that
/// was started from the first number it is also the number of its fence, until the driver restarts.
#[derive(Clone, Copy, PartialEq, Eq)]
pub struct Ticket(pub u32);

/// What a poll learns.
#[derive(Clone, Copy, PartialEq, Eq)]
pub struct Polled {
    /// The first ticket that is confirmed now; 0 where none is.
    pub first: u32,
    /// How many are, one after another.
    pub count: u32,
    /// Whether the IOMMU says that a command took too long (`cmd_to` of `cqcsr`).
    pub timed_out: bool,
}
