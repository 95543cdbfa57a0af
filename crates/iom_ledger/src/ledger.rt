#![tactic(auto, unfolding(crate::specs::Shown::held_in, crate::specs::Shown::released_in, crate::specs::Shown::pending_in, crate::specs::Shown::pending_room, crate::specs::Shown::pages_listed, crate::specs::Shown::frames_in))]

ghost use Rattle.std.specs.Prelude.{◌≡◌, ◌≤◌, true};
ghost use Rattle.iom_ledger.specs.Counts.{AreCounted};
ghost use Rattle.iom_ledger.specs.History.{pending_limit};
ghost use Rattle.iom_ledger.specs.Ring.{is_ascending};
ghost use Rattle.iom_ledger.specs.Rows.{AllGranted, AllNamed};

use crate::device_list::Devices;
use crate::devices::{grant_in, page_at, release_all_in, release_in, row_count, row_in};
use crate::frame_rows::FrameRows;
use crate::lookups::{holds_anything_in, lingers_anything_in};
use crate::page_row::PageRow;
use crate::pending::Pending;
use crate::reaching::{Reach, reach_in};
use crate::ring::{Ring, confirm_in, has_same_releases, note, still_ascend};
use crate::row::Row;
use circular_buffer::HeapCircularBuffer;
use iom_base::{DeviceId, Rights};
use iom_frame_set::FrameSet;
use std::alloc::{AllocError, Global};

/// So many tickets may be pending at a time without more room being made.
pub const MAX_PENDING: usize = 256;

/// The grants of all devices, and the tickets that aren't confirmed.
///
/// A released pair stays, marked with its ticket, until the ticket is confirmed.
#[derive(Drop)]
pub struct Ledger {
    devices: Devices,
    frames: FrameRows,
    pending: Ring,
    /// Whether no ticket of the ring is below an earlier one.
    ascending: bool,
    ghost granted: { AllGranted devices },
    ghost named: { AllNamed devices pending.items },
    ghost counted: { AreCounted devices frames.rows.items },
    ghost ordered: { ascending ≡ true → is_ascending pending.items ≡ true },
    ghost room: { pending_limit ≤ pending.capacity },
}

impl Ledger {
    ghost use Rattle.std.specs.Prelude.{◌↔◌, ◌+◌, ◌<◌, ◌≤◌, ℕ, List, [], ◌∷◌, Contains, length, max, slice_get, false, not};
    ghost use Rattle.std.specs.Prelude.{IsTrue, IsNone, IsSome, IfOk, IfSome, MatchOption, OnOk, OnErr, Some, None};
    ghost use Rattle.iom_ledger.specs.declared.entry.HistoryEntry.TheVariants.{Granted, Released, AllReleased, Confirmed};
    ghost use Rattle.iom_ledger.specs.History.{History, Pair, confirms, held_at, lingering_at, Holds, Lingers, NoneMayReach};
    ghost use Rattle.iom_ledger.specs.Pending.{pending_of};
    ghost use Rattle.iom_ledger.specs.Shown.{Agrees, IsFreeIn};
    ghost use Rattle.iom_ledger.specs.FrameRows.{IsRowOf, IsFreeRow};
    ghost use Rattle.iom_base.specs.Calls.{IsGrantable};
    ghost use Rattle.iom_frame_set.specs.Sets.{has};
    ghost use Rattle.iom_ledger.specs.Shown.{held_in, released_in, lingering_in, pending_in, pending_room, pages_listed, frames_in};
    ghost use Rattle.iom_ledger.specs.Same.{IsSameLedger};
    ghost use Rattle.iom_ledger.specs.Reaching.{IsNextReach, NoneReachesWithin};
    ghost use Rattle.iom_ledger.specs.Changes.{IsUnchanged, ShowsGrant, ShowsRelease, ShowsReleaseOfAll, ShowsConfirmation};

    /// A ledger of no grants. Makes the room of [`MAX_PENDING`] tickets, so that no release takes memory, and
    /// of a row for each of so many frames. A grant of a frame beyond makes more.
    pub fn new(alloc: Global, frames: u32) -> Result<Ledger, AllocError>
        ensures agrees { IfOk result (λ ledger. Agrees ledger []) }
        ensures frames { IfOk result (λ ledger. frames_in ledger ≡ frames) }
    {
        Ok(Ledger {
            devices: Devices::new(alloc),
            frames: FrameRows::new(alloc, frames)?,
            pending: HeapCircularBuffer::with_capacity(alloc, MAX_PENDING)?,
            ascending: true,
        })
    }

    /// What the device holds at the page.
    #[inline(always)]
    pub fn holds(&self, device: DeviceId, page: u64) -> Option<(u32, Rights)>
        ensures shown { result ≡ held_in self.now device page }
        ensures held { (h : History) → Agrees self.now h → result ≡ held_at h device page }
    {
        let row = row_in(&self.devices, device, page)?;
        match row.ticket {
            None => Some((row.frame, row.rights)),
            Some(_) => None,
        }
    }

    /// What the device has released at the page, under a ticket that isn't confirmed.
    pub fn lingers(&self, device: DeviceId, page: u64) -> Option<(u32, Rights)>
        ensures shown { result ≡ lingering_in self.now device page }
        ensures alone { IsSome result → held_in self.now device page ≡ None }
        ensures lingering { (h : History) → Agrees self.now h → (pair : Pair) → (result ≡ Some pair) ↔ Lingers h device page pair }
        ensures none { (h : History) → Agrees self.now h → result ≡ None → lingering_at h device page ≡ [] }
    {
        let row = row_in(&self.devices, device, page)?;
        match row.ticket {
            None => None,
            Some(_) => Some((row.frame, row.rights)),
        }
    }

    /// Whether the device neither holds anything at the page nor lingers there, so that it can be
    /// granted a frame there.
    pub fn is_vacant(&self, device: DeviceId, page: u64) -> bool
        ensures { IsTrue result ↔ ((held_in self.now device page ≡ None) × (lingering_in self.now device page ≡ None)) }
    {
        row_in(&self.devices, device, page).is_none()
    }

    /// The row of the frame: how many grants name it, and how many releases that aren't confirmed. None for
    /// a frame outside, which nothing names: it is neither below the number that the ledger was made for, nor
    /// was it or a higher one ever granted.
    pub fn row(&self, frame: u32) -> Option<&Row>
        ensures outside { IsNone result ↔ (frames_in self.now ≤ frame) }
        ensures counted { (h : History) → Agrees self.now h → IfSome result (λ row. IsRowOf h frame row.now) }
        ensures shown { IfSome result (λ row. IsFreeRow row.now ↔ IsFreeIn self.now frame) }
        ensures free { (h : History) → Agrees self.now h
            → IfSome result (λ row. IsFreeRow row.now ↔ NoneMayReach h frame) }
        ensures unnamed { IsNone result → IsFreeIn self.now frame }
    {
        self.frames.row(frame)
    }

    /// Whether no device holds or lingers on the frame, so that none may reach it. Looks at its row alone.
    pub fn is_free(&self, frame: u32) -> bool
        ensures shown { IsTrue result ↔ IsFreeIn self.now frame }
        ensures free { (h : History) → Agrees self.now h → IsTrue result ↔ NoneMayReach h frame }
    {
        match self.row(frame) {
            None => true,
            Some(row) => row.is_free(),
        }
    }

    /// The frames that no device holds or lingers on, of all there may be: the ledger knows neither how
    /// large memory is nor which of its frames are reserved. Looks at no row.
    pub fn free_frames(&self) -> &FrameSet
        ensures { (frame : ℕ) → IsTrue (has result.now frame) ↔ IsFreeIn self.now frame }
    {
        self.frames.free_frames()
    }

    /// Whether the device holds some page.
    pub fn holds_anything(&self, device: DeviceId) -> bool
        ensures shown { IsTrue result ↔ ((page : ℕ) × IsSome (held_in self.now device page)) }
        ensures held { (h : History) → Agrees self.now h → IsTrue result ↔ ((page : ℕ) × (pair : Pair) × Holds h device page pair) }
    {
        holds_anything_in(&self.devices, device)
    }

    /// Whether something that the device has released lingers.
    pub fn lingers_anything(&self, device: DeviceId) -> bool
        ensures shown { IsTrue result ↔ ((page : ℕ) × IsSome (lingering_in self.now device page)) }
        ensures lingering { (h : History) → Agrees self.now h → IsTrue result ↔ ((page : ℕ) × (pair : Pair) × Lingers h device page pair) }
    {
        lingers_anything_in(&self.devices, device)
    }

    /// How many pages there are at which the device holds something or something lingers.
    pub fn page_count(&self, device: DeviceId) -> usize
        ensures count { result ≡ length (pages_listed self.now device) }
        ensures held { (page : ℕ) → IsSome (held_in self.now device page) → Contains (pages_listed self.now device) page }
    {
        row_count(&self.devices, device)
    }

    /// The page at the index of these, in the order in which the ledger keeps them. A release leaves the order.
    pub fn page_at(&self, device: DeviceId, index: usize) -> Option<u64>
        ensures { result ≡ slice_get (pages_listed self.now device) index }
    {
        page_at(&self.devices, device, index)
    }

    /// The first page of the device, from this index of its pages on, at which it holds the frame or at which the frame lingers. None
    /// where there is none. So all of them are found by asking again from the index after the one that was found last.
    pub fn reach_from(&self, device: DeviceId, frame: u32, from: usize) -> Option<Reach>
        ensures { MatchOption result (NoneReachesWithin self.now device frame from (length (pages_listed self.now device))) (IsNextReach self.now device frame from) }
    {
        reach_in(&self.devices, device, frame, from)
    }

    /// The number of tickets under which something was released and that aren't confirmed.
    pub fn pending(&self) -> usize
        ensures shown { result ≡ length (pending_in self.now) }
        ensures pending { (h : History) → Agrees self.now h → result ≡ length (pending_of h) }
        ensures within { result ≤ pending_room self.now }
    {
        self.pending.len()
    }

    /// Makes the room of a release more, where there is none. Where that is refused nothing changes.
    pub fn make_room(&mut self) -> Result<(), AllocError>
        ensures room { OnOk result (length (pending_in self.new) < pending_room self.new) }
        ensures refused { OnErr result (pending_room self.new ≡ pending_room self.old) }
        ensures kept { pending_room self.old ≤ pending_room self.new }
        ensures same { IsSameLedger self.old self.new }
        ensures unchanged { IsUnchanged self.old self.new }
        ensures frames { frames_in self.new ≡ frames_in self.old }
        ensures agrees { (h : History) → Agrees self.old h → Agrees self.new h }
    {
        let room = self.pending.capacity();
        if self.pending.len() < room {
            return Ok(());
        }
        self.pending.resize(2 * room)
    }

    /// Grants the device the frame at a page where it holds nothing and nothing lingers, with the
    /// right R or RW. Makes the room of the grant: where that is refused nothing changes, and nothing
    /// else is refused.
    pub fn grant(
        &mut self,
        device: DeviceId,
        page: u64,
        frame: u32,
        rights: Rights,
    ) -> Result<(), AllocError>
        requires not_held { held_in self.old device page ≡ None }
        requires not_lingering { lingering_in self.old device page ≡ None }
        requires right { IsGrantable rights }
        ensures agrees { OnOk result ((h : History) → Agrees self.old h → Agrees self.new (Granted device page frame rights ∷ h)) }
        ensures granted { OnOk result (ShowsGrant self.old self.new device page (frame, rights)) }
        ensures frames { OnOk result (frames_in self.new ≡ max (frames_in self.old) (frame + 1)) }
        ensures refused { OnErr result (IsUnchanged self.old self.new) }
        ensures refused_frames { OnErr result (frames_in self.new ≡ frames_in self.old) }
        ensures refused_agrees { OnErr result ((h : History) → Agrees self.old h → Agrees self.new h) }
    {
        let row = PageRow {
            frame,
            rights,
            ticket: None,
        };
        grant_in(&mut self.devices, &mut self.frames, device, page, row)
    }

    /// Releases what the device holds at the page, under a ticket that isn't confirmed yet. Takes no
    /// memory. That the device holds there is the caller's premise: what is ensured is proved without it.
    pub fn release(&mut self, device: DeviceId, page: u64, ticket: u32)
        requires held { IsSome (held_in self.old device page) }
        requires room { length (pending_in self.old) < pending_room self.old }
        ensures agrees { (h : History) → Agrees self.old h → confirms h ticket ≡ false → Agrees self.new (Released device page ticket ∷ h) }
        ensures released { ShowsRelease self.old self.new device page ticket }
        ensures frames { frames_in self.new ≡ frames_in self.old }
    {
        release_in(&mut self.devices, &mut self.frames, device, page, ticket);
        let release = Pending {
            ticket,
            device,
            page: Some(page),
        };
        self.ascending = still_ascend(&self.pending, self.ascending, release);
        note(&mut self.pending, release);
    }

    /// Releases all that the device holds, under a ticket that isn't confirmed yet. It is pending
    /// even where the device holds nothing. Takes no memory.
    pub fn release_all(&mut self, device: DeviceId, ticket: u32)
        requires { length (pending_in self.old) < pending_room self.old }
        ensures agrees { (h : History) → Agrees self.old h → confirms h ticket ≡ false → Agrees self.new (AllReleased device ticket ∷ h) }
        ensures released { ShowsReleaseOfAll self.old self.new device ticket }
        ensures frames { frames_in self.new ≡ frames_in self.old }
    {
        release_all_in(&mut self.devices, &mut self.frames, device, ticket);
        let release = Pending {
            ticket,
            device,
            page: None,
        };
        self.ascending = still_ascend(&self.pending, self.ascending, release);
        note(&mut self.pending, release);
    }

    /// Forgets what was released under the ticket. Where it isn't pending, nothing changes. Takes
    /// no memory.
    pub fn confirm(&mut self, ticket: u32)
        ensures agrees { (h : History) → Agrees self.old h → Agrees self.new (Confirmed ticket ∷ h) }
        ensures confirmed { ShowsConfirmation self.old self.new ticket }
        ensures frames { frames_in self.new ≡ frames_in self.old }
        ensures unknown { ¬ Contains (pending_in self.old) ticket → IsUnchanged self.old self.new }
    {
        confirm_in(
            &mut self.devices,
            &mut self.frames,
            &mut self.pending,
            self.ascending,
            ticket,
        );
    }

    /// Whether the two are equal: the same rows in the same order, and the same releases that aren't confirmed. How
    /// much room their lists have is no matter.
    pub fn is_same(&self, other: &Ledger) -> bool
        ensures { IsTrue result ↔ IsSameLedger self.now other.now }
    {
        if self.ascending != other.ascending {
            return false;
        }
        if !has_same_releases(&self.pending, &other.pending) {
            return false;
        }
        if !self.frames.is_same(&other.frames) {
            return false;
        }
        self.devices.is_same(&other.devices)
    }
}
