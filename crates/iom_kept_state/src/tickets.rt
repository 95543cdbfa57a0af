//! Which tickets are confirmed.
use indexmap::IndexSet;
use std::alloc::{AllocError, Global};

/// The tickets that are confirmed, in whatever order they were.
#[derive(Drop)]
pub struct ConfirmedTickets {
    /// All up to this one are confirmed.
    pub(crate) settled: u32,
    /// Those beyond it that are confirmed, so that memory is taken for gaps alone.
    pub(crate) later: IndexSet<u32>,
}

impl ConfirmedTickets {
    ghost use Rattle.std.specs.Prelude.{◌≡◌, ◌<◌, ◌==◌, ◌||◌, ℕ, false, OnOk, OnErr};
    ghost use Rattle.iom_kept_state.specs.Tickets.{is_among};

    /// None are confirmed.
    pub(crate) fn new(alloc: Global) -> ConfirmedTickets
        ensures { (ticket : ℕ) → is_among result ticket ≡ false }
    {
        ConfirmedTickets {
            settled: 0,
            later: IndexSet::new(alloc),
        }
    }

    /// Whether the ticket is confirmed.
    pub(crate) fn has(&self, ticket: u32) -> bool
        ensures { result ≡ is_among self.now ticket }
    {
        0 < ticket && ticket <= self.settled || self.later.contains(&ticket)
    }

    /// The tickets that follow the settled ones are settled too, as far as they are confirmed.
    fn absorb(&mut self)
        ensures { (ticket : ℕ) → is_among self.new ticket ≡ is_among self.old ticket }
    {
        for _round in 0..self.later.len() {
            let Some(next) = self.settled.checked_add(1) else {
                return;
            };
            if !self.later.swap_remove(&next) {
                return;
            }
            self.settled = next;
        }
    }

    /// The ticket is confirmed too.
    pub(crate) fn note(&mut self, ticket: u32) -> Result<(), AllocError>
        requires { 0 < ticket }
        ensures noted { OnOk result ((other : ℕ) → is_among self.new other ≡ ((ticket == other) || is_among self.old other)) }
        ensures refused { OnErr result ((other : ℕ) → is_among self.new other ≡ is_among self.old other) }
    {
        if ticket <= self.settled {
            return Ok(());
        }
        if ticket - 1 != self.settled {
            self.later.insert(ticket)?;
            return Ok(());
        }
        self.settled = ticket;
        self.absorb();
        Ok(())
    }
}
