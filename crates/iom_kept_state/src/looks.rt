//! What is looked up of grants, and whether two devices hold the same.
use crate::grants::KeptGrants;
use crate::wanted::Wanted;
use iom_base::{AccessKind, DeviceId, Rights};

impl KeptGrants {
    ghost use Rattle.std.specs.Prelude.{◌≡◌, ◌≤◌, ◌<◌, ◌^◌, ◌-◌, ◌↔◌, ◌⊎◌, suc, [], IsTrue, IsNone, IfSome, Some, ℕ, length, slice_get};
    ghost use Rattle.iom_kept_state.specs.Words.{History, Pair, Holds, held_at, lingering_at, confirms, confirmed_from, Lingers, May, NoneMayReach, LingersSomewhere, last_confirmed, IsPastOf, frame_at_place, held_by, lingering_by, pages_by, is_confirmed_in};

    /// The frame at a place; 0 where there is no such place.
    fn frame_at(&self, place: u32) -> u64
        ensures { result ≡ frame_at_place self.now.names.keys place }
    {
        match self.names.get_index(place as usize) {
            None => 0,
            Some(frame) => *frame,
        }
    }

    /// What the device holds at the page.
    pub fn held(&self, device: DeviceId, page: u64) -> Option<(u64, Rights)>
        ensures shown { result ≡ held_by self.now device page }
        ensures held { (h : History) → IsPastOf self.now h → result ≡ held_at h device page }
        ensures low { IfSome result (λ pair. pair.0 < 2 ^ 40) }
    {
        match self.ledger.holds(device, page) {
            None => None,
            Some((place, rights)) => Some((self.frame_at(place), rights)),
        }
    }

    /// What lingers at the page: the device released it, under a ticket that isn't confirmed.
    pub fn lingering(&self, device: DeviceId, page: u64) -> Option<(u64, Rights)>
        ensures shown { result ≡ lingering_by self.now device page }
        ensures lingers { (h : History) → IsPastOf self.now h → (pair : Pair) → (result ≡ Some pair) ↔ Lingers h device page pair }
        ensures none { (h : History) → IsPastOf self.now h → IsNone result ↔ (lingering_at h device page ≡ []) }
        ensures low { IfSome result (λ pair. pair.0 < 2 ^ 40) }
    {
        match self.ledger.lingers(device, page) {
            None => None,
            Some((place, rights)) => Some((self.frame_at(place), rights)),
        }
    }

    /// How many pages there are at which the device holds something or something lingers.
    pub fn page_count(&self, device: DeviceId) -> usize
        ensures { result ≡ length (pages_by self.now device) }
    {
        self.ledger.page_count(device)
    }

    /// The page at the index of these.
    pub fn page_at(&self, device: DeviceId, index: usize) -> Option<u64>
        ensures { result ≡ slice_get (pages_by self.now device) index }
    {
        self.ledger.page_at(device, index)
    }

    /// Whether the ticket is confirmed.
    pub fn is_confirmed(&self, ticket: u32) -> bool
        ensures shown { result ≡ is_confirmed_in self.now ticket }
        ensures confirmed { (h : History) → IsPastOf self.now h → result ≡ confirms h ticket }
    {
        self.tickets.has(ticket)
    }

    /// The ticket that was confirmed last; 0 where none is.
    pub fn last_confirmed(&self) -> u32
        ensures value { result ≡ self.now.confirmed }
        ensures last { (h : History) → IsPastOf self.now h → result ≡ last_confirmed h }
    {
        self.confirmed
    }

    /// Whether the device holds something, or something lingers for it.
    pub fn has_any(&self, device: DeviceId) -> bool
        ensures { (h : History) → IsPastOf self.now h
            → IsTrue result ↔ ((page : ℕ) × ((pair : Pair) × (Holds h device page pair ⊎ Lingers h device page pair))) }
    {
        self.ledger.holds_anything(device) || self.ledger.lingers_anything(device)
    }

    /// Whether the device could reach the frame by an access of this kind, were the tickets from the first to the last confirmed:
    /// none, where the last comes right before the first. It is looked for at this page first, so that the others needn't be.
    pub fn may_once(
        &self,
        device: DeviceId,
        page: u64,
        frame: u64,
        kind: AccessKind,
        first: u32,
        last: u32,
    ) -> bool
        requires { first ≤ suc last }
        ensures may { (h : History) → IsPastOf self.now h
            → IsTrue result ↔ May (confirmed_from first (suc last - first) h) device frame kind }
        ensures low { IsTrue result → frame < 2 ^ 40 }
    {
        let Some(place) = self.names.get_index_of(&frame) else {
            return false;
        };
        let wanted = Wanted {
            device,
            place: place as u32,
            kind,
            first,
            last,
            held: true,
        };
        let noted = self.pages.get(place).copied().unwrap_or(page);
        wanted.is_held_at(&self.ledger, noted)
            || wanted.is_held_at(&self.ledger, page)
            || wanted.is_anywhere(&self.ledger)
    }

    /// Whether the device may reach the frame by an access of this kind. It is looked for at this page first, so that the others
    /// needn't be.
    pub fn may(&self, device: DeviceId, page: u64, frame: u64, kind: AccessKind) -> bool
        ensures may { (h : History) → IsPastOf self.now h → IsTrue result ↔ May h device frame kind }
        ensures low { IsTrue result → frame < 2 ^ 40 }
    {
        self.may_once(device, page, frame, kind, 1, 0)
    }

    /// Whether the frame lingers at some page of the device, with a right that allows the kind.
    pub fn lingers_somewhere(&self, device: DeviceId, frame: u64, kind: AccessKind) -> bool
        ensures lingers { (h : History) → IsPastOf self.now h → IsTrue result ↔ LingersSomewhere h device frame kind }
        ensures low { IsTrue result → frame < 2 ^ 40 }
    {
        let Some(place) = self.names.get_index_of(&frame) else {
            return false;
        };
        let wanted = Wanted {
            device,
            place: place as u32,
            kind,
            first: 1,
            last: 0,
            held: false,
        };
        wanted.is_anywhere(&self.ledger)
    }

    /// Whether no device may reach the frame.
    pub fn is_out_of_reach(&self, frame: u64) -> bool
        ensures { (h : History) → IsPastOf self.now h → IsTrue result ↔ NoneMayReach h frame }
    {
        match self.names.get_index_of(&frame) {
            None => true,
            Some(place) => self.ledger.is_free(place as u32),
        }
    }

    /// Whether the one device holds what the other holds, at each page of this one.
    fn agree_at_pages(&self, of: DeviceId, one: DeviceId, other: DeviceId) -> bool
        ensures { IsTrue result ↔ ((k page : ℕ) → slice_get (pages_by self.now of) k ≡ Some page
            → held_by self.now one page ≡ held_by self.now other page) }
    {
        for index in 0..self.page_count(of) {
            let Some(page) = self.page_at(of, index) else {
                return false;
            };
            if self.held(one, page) != self.held(other, page) {
                return false;
            }
        }
        true
    }

    /// Whether the one device holds what the other holds, at each page.
    pub fn hold_the_same(&self, one: DeviceId, other: DeviceId) -> bool
        ensures { (h : History) → IsPastOf self.now h → IsTrue result ↔ ((page : ℕ) → held_at h one page ≡ held_at h other page) }
    {
        self.agree_at_pages(one, one, other) && self.agree_at_pages(other, one, other)
    }
}
