//! Grants as they are kept, and what is done to them.
ghost use Rattle.std.specs.Prelude.{◌≡◌, ◌≤◌, ◌<◌, ◌^◌, ℕ, true, All, length};
ghost use Rattle.iom_kept_state.specs.Tickets.{is_among};

use crate::tickets::ConfirmedTickets;
use indexmap::IndexSet;
use iom_base::{DeviceId, Rights};
use iom_ledger::Ledger;
use std::alloc::{AllocError, Global};

/// Who holds which frame at which page, what lingers, and which tickets are given and confirmed.
#[derive(Drop)]
pub struct KeptGrants {
    /// The frames that were ever granted, in the order of their first grants: numbers of 40 bits. The ledger names each by its place
    /// here.
    pub(crate) names: IndexSet<u64>,
    /// At which page each of them was granted last: there it is looked for first.
    pub(crate) pages: Vec<u64>,
    pub(crate) ledger: Ledger,
    /// The last ticket that was given; they count from 1.
    pub given: u32,
    /// The ticket that was confirmed last; 0 where none is.
    pub confirmed: u32,
    /// Which of those that were given are confirmed.
    pub(crate) tickets: ConfirmedTickets,
    ghost ordered: { confirmed ≤ given },
    ghost within: { (ticket : ℕ) → is_among tickets ticket ≡ true → ticket ≤ given },
    ghost few: { length names.keys ≤ 4294967295 },
    ghost low: { All (λ frame. frame < 2 ^ 40) names.keys },
}

/// The page of the frame at this place is this from here on.
fn note_page(pages: &mut Vec<u64>, place: usize, page: u64) -> Result<(), AllocError> {
    match pages.get_mut(place) {
        Some(noted) => *noted = page,
        None => pages.push(page)?,
    }
    Ok(())
}

impl KeptGrants {
    ghost use Rattle.std.specs.Prelude.{◌≡◌, ◌<◌, ◌≤◌, ◌-◌, ◌+◌, ◌^◌, ◌⊎◌, suc, [], ◌∷◌, false, OnOk, IfOk, IsSome, None};
    ghost use Rattle.iom_kept_state.specs.Words.{IsGrantable, History, confirmed_from, Granted, Released, AllReleased, Confirmed, IsPastOf, held_by, lingering_by, is_confirmed_in};

    /// No grants: nothing happened before.
    pub fn new(alloc: Global) -> Result<KeptGrants, AllocError>
        ensures past { IfOk result (λ kept. IsPastOf kept []) }
        ensures tickets { IfOk result (λ kept. (kept.given ≡ 0) × (kept.confirmed ≡ 0)) }
    {
        Ok(KeptGrants {
            names: IndexSet::new(alloc),
            pages: Vec::new(alloc),
            ledger: Ledger::new(alloc, 0)?,
            given: 0,
            confirmed: 0,
            tickets: ConfirmedTickets::new(alloc),
        })
    }

    /// Grants the device the frame at a page where it holds nothing and nothing lingers.
    pub fn grant(
        &mut self,
        device: DeviceId,
        page: u64,
        frame: u64,
        rights: Rights,
    ) -> Result<(), AllocError>
        requires not_held { held_by self.old device page ≡ None }
        requires not_lingering { lingering_by self.old device page ≡ None }
        requires right { IsGrantable rights }
        requires low { frame < 2 ^ 40 }
        ensures past { OnOk result ((h : History) → IsPastOf self.old h → IsPastOf self.new (Granted device page frame rights ∷ h)) }
        ensures tickets { OnOk result ((self.new.given ≡ self.old.given) × (self.new.confirmed ≡ self.old.confirmed)) }
    {
        if self.names.len() >= u32::MAX as usize {
            return Err(AllocError);
        }
        let (place, _added) = self.names.insert_full(frame)?;
        note_page(&mut self.pages, place, page)?;
        self.ledger.grant(device, page, place as u32, rights)
    }

    /// Releases what the device holds at the page, under the next ticket, or under the last one where it isn't confirmed.
    pub fn release(&mut self, device: DeviceId, page: u64, ticket: u32) -> Result<(), AllocError>
        requires held { IsSome (held_by self.old device page) }
        requires pending { (ticket ≡ self.old.given + 1) ⊎ ((ticket ≡ self.old.given) × (is_confirmed_in self.old ticket ≡ false)) }
        ensures past { OnOk result ((h : History) → IsPastOf self.old h → IsPastOf self.new (Released device page ticket ∷ h)) }
        ensures tickets { OnOk result ((self.new.given ≡ ticket) × (self.new.confirmed ≡ self.old.confirmed)) }
    {
        self.ledger.make_room()?;
        self.ledger.release(device, page, ticket);
        self.given = ticket;
        Ok(())
    }

    /// Releases all that the device holds, under the next ticket.
    pub fn release_all(&mut self, device: DeviceId, ticket: u32) -> Result<(), AllocError>
        requires next { ticket ≡ self.old.given + 1 }
        ensures past { OnOk result ((h : History) → IsPastOf self.old h → IsPastOf self.new (AllReleased device ticket ∷ h)) }
        ensures tickets { OnOk result ((self.new.given ≡ ticket) × (self.new.confirmed ≡ self.old.confirmed)) }
    {
        self.ledger.make_room()?;
        self.ledger.release_all(device, ticket);
        self.given = ticket;
        Ok(())
    }

    /// Gives the next ticket to somebody who releases nothing.
    pub fn give(&mut self, ticket: u32)
        requires next { ticket ≡ self.old.given + 1 }
        ensures past { (h : History) → IsPastOf self.old h → IsPastOf self.new h }
        ensures tickets { (self.new.given ≡ ticket) × (self.new.confirmed ≡ self.old.confirmed) }
    {
        self.given = ticket;
    }

    /// Confirms a ticket.
    fn confirm_one(&mut self, ticket: u32) -> Result<(), AllocError>
        requires some { 0 < ticket }
        requires given { ticket ≤ self.old.given }
        ensures past { OnOk result ((h : History) → IsPastOf self.old h → IsPastOf self.new (Confirmed ticket ∷ h)) }
        ensures tickets { OnOk result ((self.new.given ≡ self.old.given) × (self.new.confirmed ≡ ticket)) }
    {
        self.tickets.note(ticket)?;
        self.ledger.confirm(ticket);
        self.confirmed = ticket;
        Ok(())
    }

    /// Confirms the tickets from the first to the last, one after another.
    pub fn confirm(&mut self, first: u32, last: u32) -> Result<(), AllocError>
        requires some { 0 < first }
        requires later { first ≤ last }
        requires given { last ≤ self.old.given }
        ensures past { OnOk result ((h : History) → IsPastOf self.old h → IsPastOf self.new (confirmed_from first (suc (last - first)) h)) }
        ensures tickets { OnOk result ((self.new.given ≡ self.old.given) × (self.new.confirmed ≡ last)) }
    {
        for ticket in first - 1..last {
            self.confirm_one(ticket + 1)?;
        }
        Ok(())
    }
}
