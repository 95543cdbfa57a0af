/// What hardware may do by itself, any number of times.
#[derive(Clone, Copy, PartialEq, Eq)]
pub struct Parts {
    /// It fetches commands.
    pub fetch: bool,
    /// It makes accesses that are in flight.
    pub commit: bool,
    /// It goes on with walks, one load at a time.
    pub load: bool,
    /// It delivers messages.
    pub deliver: bool,
    /// Messages are delivered in their order.
    pub in_order: bool,
}

/// How many times hardware may do what it seldom does.
#[derive(Clone, Copy, PartialEq, Eq)]
pub struct Budgets {
    /// Messages that are lost.
    pub drops: u32,
    /// Messages that come once more.
    pub repeats: u32,
    /// Times that it gives up waiting for devices.
    pub timeouts: u32,
}
