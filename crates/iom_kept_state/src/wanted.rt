//! Whether a frame is reached, in a ledger that names it by its place.
use iom_base::{AccessKind, DeviceId};
use iom_ledger::{Ledger, Reach};

/// What is looked for: a way by which the device reaches the frame at this place, with a right that allows the kind.
#[derive(Clone, Copy)]
pub(crate) struct Wanted {
    pub device: DeviceId,
    pub place: u32,
    pub kind: AccessKind,
    /// What was released counts, but under a ticket from this one to the last.
    pub first: u32,
    pub last: u32,
    /// Whether what is held counts.
    pub held: bool,
}

impl Wanted {
    ghost use Rattle.std.specs.Prelude.{◌≡◌, ◌↔◌, true, IsTrue};
    ghost use Rattle.iom_kept_state.specs.Wanted.{IsReach, IsReached};

    /// Whether this reach is one.
    fn is(&self, reach: &Reach) -> bool
        ensures { IsTrue result ↔ IsReach self.now reach.now }
    {
        if !reach.rights.allows(self.kind) {
            return false;
        }
        match reach.ticket {
            None => self.held,
            Some(ticket) => !(self.first <= ticket && ticket <= self.last),
        }
    }

    /// Whether there is one at this page, where it holds something.
    pub(crate) fn is_held_at(&self, ledger: &Ledger, page: u64) -> bool
        requires { self.now.held ≡ true }
        ensures { IsTrue result → IsReached self.now ledger.now }
    {
        match ledger.holds(self.device, page) {
            None => false,
            Some((place, rights)) => place == self.place && rights.allows(self.kind),
        }
    }

    /// Whether there is one.
    pub(crate) fn is_anywhere(&self, ledger: &Ledger) -> bool
        ensures { IsTrue result ↔ IsReached self.now ledger.now }
    {
        let mut from = 0;
        for _index in 0..ledger.page_count(self.device) {
            let Some(reach) = ledger.reach_from(self.device, self.place, from) else {
                return false;
            };
            if self.is(&reach) {
                return true;
            }
            from = reach.index + 1;
        }
        false
    }
}
