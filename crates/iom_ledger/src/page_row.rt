//! The row of a page.
ghost use Rattle.std.specs.Prelude.{◌≡◌, ◌==◌, Some};
ghost use Rattle.iom_ledger.specs.Rows.{waits_for};
ghost use Rattle.iom_ledger.specs.RowChanges.{released_row, held_frame};

use iom_base::Rights;

/// A frame and the right to it, and the ticket under which it was released, if it was.
#[derive(Clone, Copy, PartialEq, Eq)]
pub(crate) struct PageRow {
    pub(crate) frame: u32,
    pub(crate) rights: Rights,
    pub(crate) ticket: Option<u32>,
}

impl PageRow {
    /// Releases the row under the ticket, unless it is released already. The frame, where it wasn't.
    pub(crate) fn release(&mut self, ticket: u32) -> Option<u32>
        ensures row { self.new ≡ released_row self.old ticket }
        ensures frame { result ≡ held_frame (Some self.old) }
    {
        match self.ticket {
            Some(_) => None,
            None => {
                self.ticket = Some(ticket);
                Some(self.frame)
            }
        }
    }

    /// Whether the row was released under the ticket.
    pub(crate) fn waits_for(&self, ticket: u32) -> bool
        ensures { result ≡ waits_for self.now.ticket ticket }
    {
        match self.ticket {
            None => false,
            Some(own) => ticket == own,
        }
    }
}
