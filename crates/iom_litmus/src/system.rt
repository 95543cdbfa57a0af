ghost use Rattle.std.specs.Prelude.{◌≡◌, ◌↔◌, IfOk, IsTrue};
ghost use Rattle.iom_litmus.specs.Readings.{Readings};
ghost use Rattle.iom_litmus.specs.Rules.{Rules};

use crate::reply::Reply;
use crate::step::HardwareStep;
use iom_base::{DeviceId, Sequence};
use std::alloc::{AllocError, Global};

/// A system under test. What becomes of it, and what it says, are relations: it may be one thing or another. What is
/// read off it is a function of its value.
pub trait System: Sized + Drop {
    /// What it is made from.
    type Opening;

    /// It may be made from an opening.
    ghost opens: { Self.Opening → Self → Type 0 };

    /// What may become of it, and what it may say.
    ghost rules: { Rules Self };

    /// What hardware can do next, and memory.
    ghost readings: { Readings Self };

    /// A new system.
    fn new(alloc: Global, opening: &Self::Opening) -> Result<Self, AllocError>
        ensures { IfOk result (λ system. opens opening.now system) };

    /// Runs a line of its language.
    fn run(&mut self, alloc: Global, line: &[u8]) -> Result<Reply, AllocError>
        ensures { IfOk result (λ reply. rules.runs self.old line.now reply self.new) };

    /// Lets hardware do this.
    fn act(&mut self, alloc: Global, step: HardwareStep) -> Result<Reply, AllocError>
        ensures { IfOk result (λ reply. rules.acts self.old step reply self.new) };

    /// Whether a fetch does something: it isn't stopped, there is a command, and not one that only waits again.
    fn fetches(&self) -> bool
        ensures { result ≡ readings.fetches self.now };

    /// The devices that are there.
    fn devices(&self) -> &[DeviceId]
        ensures { result.now ≡ readings.devices self.now };

    /// Whether the device has an access in flight.
    fn is_in_flight(&self, device: DeviceId) -> bool
        ensures { result ≡ readings.is_in_flight self.now device };

    /// Whether a walk for the device is under way.
    fn is_in_walk(&self, device: DeviceId) -> bool
        ensures { result ≡ readings.is_in_walk self.now device };

    /// How many messages are under way.
    fn messages(&self) -> usize
        ensures { result ≡ readings.messages self.now };

    /// Whether the messages at these places are equal.
    fn is_same_message(&self, place: usize, other: usize) -> bool
        ensures { IsTrue result ↔ readings.is_same_message self.now place other };

    /// Whether giving up has an effect.
    fn times_out(&self) -> bool
        ensures { result ≡ readings.times_out self.now };

    /// So many bytes of memory from the address on, in hexadecimal digits.
    fn memory(&self, alloc: Global, address: u64, length: usize) -> Result<Sequence<u8>, AllocError>
        ensures { IfOk result (λ text. text ≡ readings.memory self.now address length) };

    /// Whether they are equal. Where it says so they are; where it doesn't a search only takes longer.
    fn is_same(&self, other: &Self) -> bool
        ensures { IsTrue result → self.now ≡ other.now };

    /// Gives back what it doesn't need while it is only kept. It is the same afterwards.
    fn shrink(&mut self)
        ensures { self.new ≡ self.old };

    /// A number by which equal systems are looked for.
    fn fingerprint(&self) -> u64;
}
