ghost use Rattle.std.specs.Prelude.{◌≡◌, ◌↔◌, ◌+◌, ◌<◌, ◌≤◌, ◌^◌, [], length, IsTrue, IsNone, IfSome, OnSome, IfNone, Any, not, filter, slice_get};
ghost use Rattle.iom_command_queue.specs.OpenSlots.{OpenSlots, no_slots, with_next, is_request, without_request};

use crate::slot::Slot;
use arrayvec::ArrayVec;
use iom_base::DeviceId;
use std::marker::Model;

/// How many requests may be open at a time.
pub const MAX_SLOTS: usize = 32;

/// The invalidation requests that devices have still to complete, and the last number that one was given.
#[derive(Drop)]
pub struct Slots {
    open: ArrayVec<Slot, MAX_SLOTS>,
    last: u64,
}

impl Model for Slots {
    ghost use Rattle.iom_command_queue.specs.OpenSlots.{OpenSlots, RiseFrom, AreSlots};

    ghost Value = { OpenSlots };

    ghost view = { λ slots. record { open_slots = slots.open.items; last = slots.last } };

    ghost invariant = { λ slots. RiseFrom 0 slots.open.items slots.last };
}

// Drops the request with this number to this device.
fn drop_request(open: &mut ArrayVec<Slot, MAX_SLOTS>, serial: u64, sender: DeviceId)
    ensures { open.new.items ≡ filter (λ slot. not (is_request serial sender slot)) open.old.items }
{
    open.retain(|slot| !slot.is_request(serial, sender));
}

impl Slots {
    /// Nothing is open, and no number was given.
    pub fn new() -> Slots
        ensures { result ≡ no_slots }
    {
        Slots {
            open: ArrayVec::new(),
            last: 0,
        }
    }

    /// Opens a slot for a request to the device, and gives the request's number: the one after the last that
    /// was ever given. None exactly where 32 are open; then nothing changes.
    pub fn open(&mut self, device: DeviceId) -> Option<u64>
        requires { self.old.last + 1 < 2 ^ 64 }
        ensures full { IsNone result ↔ (length self.old.open_slots ≡ 32) }
        ensures serial { IfSome result (λ serial. serial ≡ self.old.last + 1) }
        ensures opened { OnSome result (self.new ≡ with_next self.old device) }
        ensures refused { IfNone result (self.new ≡ self.old) }
    {
        if self.open.is_full() {
            return None;
        }
        self.last += 1;
        self.open.push(Slot {
            serial: self.last,
            device,
        });
        Some(self.last)
    }

    /// A completion of this number came from this sender. It closes the slot of the request with this number
    /// to this device, and no other: false exactly where there is none, and then nothing changes.
    pub fn close(&mut self, serial: u64, sender: DeviceId) -> bool
        ensures closed { IsTrue result ↔ Any (λ slot. IsTrue (is_request serial sender slot)) self.old.open_slots }
        ensures left { self.new ≡ without_request self.old serial sender }
    {
        let was_open = self.open.iter().any(|slot| slot.is_request(serial, sender));
        drop_request(&mut self.open, serial, sender);
        was_open
    }

    /// Closes all slots. The numbers go on as before.
    pub fn close_all(&mut self)
        ensures { self.new ≡ record self.old { open_slots = [] } }
    {
        self.open.clear();
    }

    /// Whether in both the same are open, in the same order, and the last number that was given is the same. It
    /// changes nothing.
    pub fn is_same(&self, other: &Slots) -> bool
        ensures { IsTrue result ↔ (self.now ≡ other.now) }
    {
        self.last == other.last && self.open.as_slice() == other.open.as_slice()
    }

    /// The request that has been open longest: the one with the lowest number. None where none is open.
    pub fn oldest(&self) -> Option<Slot>
        ensures { result ≡ slice_get self.now.open_slots 0 }
    {
        self.open.first().copied()
    }

    /// The last number that was given, 0 before the first.
    pub fn last(&self) -> u64
        ensures { result ≡ self.now.last }
    {
        self.last
    }

    /// How many are open.
    pub fn len(&self) -> usize
        ensures count { result ≡ length self.now.open_slots }
        ensures few { result ≤ 32 }
    {
        self.open.len()
    }

    /// Whether none is open.
    pub fn is_empty(&self) -> bool
        ensures { IsTrue result ↔ (self.now.open_slots ≡ []) }
    {
        self.open.is_empty()
    }
}
