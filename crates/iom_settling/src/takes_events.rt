ghost use Rattle.std.specs.Prelude.{◌≡◌, ◌==◌, ◌+◌, ◌<◌, ◌≤◌, ◌^◌, ℕ, List, length, nat_le, nat_lt};
ghost use Rattle.iom_driver.specs.Fences.{last_fence};
ghost use Rattle.iom_inflight.specs.Flights.{first_busy};
ghost use Rattle.iom_inflight.specs.Invariant.{AreFlights};
ghost use Rattle.iom_iommu.specs.Parts.{flights_of};
ghost use Rattle.iom_machine.specs.declared.event.Event as spec;
ghost use Rattle.iom_machine.specs.declared.outcome.Outcome.{Outcome};
ghost use Rattle.iom_world_effects.specs.Effect.{Effect};
ghost use Rattle.iom_world_effects.specs.Parts.{Parts};
ghost use Rattle.iom_world_effects.specs.Invariant.{PartsInvariant};
ghost use Rattle.iom_world_effects.specs.Unchanged.{KeepsCommands};
ghost use Rattle.iom_world_effects.proofs.DriverLemmas.{DriverInvariant};
ghost use Rattle.iom_settling.specs.Kinds.{IsSettling};
ghost use Rattle.iom_settling.specs.Stages.{brief};

use crate::reply::FetchReply;
use iom_base::DeviceId;
use iom_machine::Event;

/// What takes events as a world does: a world with its block devices.
pub trait TakesEvents {
    /// Memory, IOMMU, driver, devices and messages.
    ghost parts: { Self → Parts };

    /// How many events there were.
    ghost counted: { Self → ℕ };

    /// The event is answered so, and makes of the first the second.
    ghost happens: { Self → spec.Event → Outcome → Self → Type 0 };

    /// What holds of accesses in flight and of messages, whatever events there were. It does nothing.
    fn facts(&self)
        ensures flights { AreFlights (flights_of (parts self.now).iommu) }
        ensures messages { length (parts self.now).fabric ≤ 64 };

    /// The first device, in the order of plugging, that has an access in flight.
    fn first_busy(&self) -> Option<DeviceId>
        ensures { result ≡ first_busy (flights_of (parts self.now).iommu).rows };

    /// Whether no message is under way.
    fn is_quiet(&self) -> bool
        ensures { result ≡ (length (parts self.now).fabric == 0) };

    /// Whether a ticket isn't confirmed.
    fn has_pending(&self) -> bool
        ensures { result ≡ nat_lt (parts self.now).driver.confirmed (parts self.now).driver.given };

    /// Whether the numbers of fences are used up.
    fn has_used_up(&self) -> bool
        ensures { result ≡ nat_le 4294967295 (last_fence (parts self.now).driver) };

    /// One event, of a kind that settling has.
    fn take(&mut self, event: &Event) -> FetchReply
        requires count { counted self.old + 1 < 2 ^ 64 }
        requires settling { IsSettling event.now }
        ensures { (reply : Outcome) × happens self.old event.now reply self.new × (result ≡ brief reply) };

    /// An event does what the call behind it says.
    ghost effect: { (x y : Self) (event : spec.Event) (reply : Outcome) → happens x event reply y → (disks : List ℕ) × Effect disks (parts x) event reply (parts y) };

    /// The commands that wait change by some events alone.
    ghost commands: { (x y : Self) (event : spec.Event) (reply : Outcome) → happens x event reply y → KeepsCommands event (parts x) (parts y) };

    /// Each event is counted.
    ghost counts: { (x y : Self) (event : spec.Event) (reply : Outcome) → happens x event reply y → counted y ≡ counted x + 1 };

    /// The parts always keep their invariant.
    ghost invariants: { (x : Self) → PartsInvariant (parts x) (counted x) };

    /// And so is the driver by itself.
    ghost own: { (x : Self) → DriverInvariant (parts x).driver };
}
