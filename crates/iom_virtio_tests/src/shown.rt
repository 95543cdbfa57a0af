use iom_virtqueue::ChainFault;

/// What a step of a queue or of a device was, and which access was made for it.
#[derive(Clone, Copy, PartialEq)]
pub(crate) enum Seen {
    Read(u64, u16),
    Wrote(u64, u16),
    /// Nothing is wanted.
    Idle,
    Waiting,
    Down,
    Chain(ChainFault),
    Finished(u16, u32),
    /// An access outside memory was wanted, and refused.
    Outside(u64),
}

impl Seen {
    /// Whether an access was made.
    pub(crate) fn is_access(self) -> bool {
        matches!(self, Seen::Read(_, _) | Seen::Wrote(_, _))
    }
}
