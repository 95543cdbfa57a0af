ghost use Rattle.std.specs.Prelude.{◌≡◌, ℕ, [], ◌∷◌, ◌++◌, length, remove, nat_lt, ◌==◌, ◌≤◌, slice_get, is_some, Some, ◌↔◌, IsTrue};
ghost use Rattle.iom_fabric.specs.declared.fabric.OnLink.{OnLink};
ghost use Rattle.std.specs.Bool.{OnTrue, OnFalse};
ghost use Rattle.iom_fabric.specs.Messages.{repeated, repeat_answer};

use crate::message::Message;
use arrayvec::ArrayVec;
use iom_base::DeviceId;
use std::marker::Model;

/// The most messages under way.
pub const MAX_MESSAGES: usize = 64;

/// A message, and whose link it is on: who sent it, if a device did, and else whom it is for.
#[derive(Clone, Copy, PartialEq, Eq)]
pub struct OnLink {
    pub device: DeviceId,
    pub message: Message,
}

/// What became of a copy.
#[derive(Clone, Copy, PartialEq, Eq)]
pub enum Repeat {
    Repeated,
    /// There was no room for it.
    Lost,
    /// There is no such message.
    Nothing,
}

impl Default for OnLink {
    fn default() -> OnLink {
        OnLink {
            device: 0,
            message: Message::InvDone { serial: 0 },
        }
    }
}

/// The messages under way, seen as their list. Nothing here takes memory.
#[derive(Drop)]
pub struct Fabric {
    messages: ArrayVec<OnLink, MAX_MESSAGES>,
}

impl Model for Fabric {
    ghost use Rattle.std.specs.Prelude.{List};
    ghost use Rattle.iom_fabric.specs.declared.fabric.OnLink.{OnLink};

    ghost Value = { List OnLink };

    ghost view = { λ fabric. fabric.messages.items };
}

impl Fabric {
    /// No message is under way.
    pub fn new() -> Fabric
        ensures { result ≡ [] }
    {
        Fabric {
            messages: ArrayVec::new(),
        }
    }

    /// What holds of them, whatever calls were made: they are 64 at most. It does nothing.
    pub fn facts(&self)
        ensures { length self.now ≤ 64 }
    {
        let _messages = self.messages.len();
    }

    /// How many messages are under way.
    pub fn len(&self) -> usize
        ensures { result ≡ length self.now }
    {
        self.messages.len()
    }

    /// Whether none is.
    pub fn is_empty(&self) -> bool
        ensures { result ≡ (length self.now == 0) }
    {
        self.messages.is_empty()
    }

    /// The message at a place, counted from 0, which stays. None exactly where there is none.
    pub fn get(&self, place: usize) -> Option<OnLink>
        ensures { result ≡ slice_get self.now place }
    {
        self.messages.get(place).copied()
    }

    /// Whether the two are equal: the same messages on the same links, in the same order.
    pub fn is_same(&self, other: &Fabric) -> bool
        ensures { IsTrue result ↔ (self.now ≡ other.now) }
    {
        self.messages.as_slice() == other.messages.as_slice()
    }

    /// Whether there is a message at each of the two places, and they are equal, links and all.
    pub fn is_same_message(&self, place: usize, other: usize) -> bool
        ensures { IsTrue result ↔ ((message : OnLink) × (slice_get self.now place ≡ Some message) × (slice_get self.now other ≡ Some message)) }
    {
        let Some(message) = self.get(place) else {
            return false;
        };
        self.get(other) == Some(message)
    }

    /// Sends a message on the device's link: it goes last. False exactly where 64 are under way; then it is
    /// lost, and nothing changes.
    pub fn send(&mut self, device: DeviceId, message: Message) -> bool
        ensures room { result ≡ nat_lt (length self.old) 64 }
        ensures sent { OnTrue result (self.new ≡ self.old ++ record { device = device; message = message } ∷ []) }
        ensures lost { OnFalse result (self.new ≡ self.old) }
    {
        self.messages.try_push(OnLink { device, message }).is_ok()
    }

    /// Takes out the message at a place, counted from 0; those behind it close up. None exactly where there
    /// is none, and then nothing changes.
    pub fn take(&mut self, place: usize) -> Option<OnLink>
        ensures taken { result ≡ slice_get self.old place }
        ensures rest { self.new ≡ remove self.old place }
    {
        self.messages.pop_at(place)
    }

    /// Loses the message at a place. False exactly where there is none, and then nothing changes.
    pub fn drop(&mut self, place: usize) -> bool
        ensures found { result ≡ is_some (slice_get self.old place) }
        ensures rest { self.new ≡ remove self.old place }
    {
        self.take(place).is_some()
    }

    /// Sends a copy of the message at a place, which stays: the copy goes last. Nothing changes where there
    /// is no such message, and where 64 are under way.
    pub fn repeat(&mut self, place: usize) -> Repeat
        ensures answer { result ≡ repeat_answer self.old (slice_get self.old place) }
        ensures list { self.new ≡ repeated self.old (slice_get self.old place) }
    {
        let Some(message) = self.messages.get(place) else {
            return Repeat::Nothing;
        };
        let copy = *message;
        match self.messages.try_push(copy) {
            Ok(()) => Repeat::Repeated,
            Err(_) => Repeat::Lost,
        }
    }
}
