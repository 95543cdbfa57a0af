/// The row of a frame: how many grants and how many unconfirmed releases name it.
///
/// Each page of a device counts for itself, and at most once: in `grants` while the device holds the frame
/// there, and in `pending` from the release on until its ticket is confirmed.
#[derive(Clone, Copy, PartialEq, Eq, Debug)]
pub struct Row {
    /// The pages at which a device holds the frame.
    pub grants: u128,
    /// The pages at which a device has released the frame, under a ticket that isn't confirmed.
    pub pending: u128,
}

impl Row {
    ghost use Rattle.std.specs.Prelude.{◌↔◌, IsTrue};
    ghost use Rattle.iom_ledger.specs.FrameRows.{IsFreeRow};

    /// Whether both counts are 0. Of a row that a ledger lends this is whether no device may reach the frame.
    pub fn is_free(&self) -> bool
        ensures { IsTrue result ↔ IsFreeRow self.now }
    {
        self.grants == 0 && self.pending == 0
    }
}
