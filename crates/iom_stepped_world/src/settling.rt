// Settling: events of the driver and the hardware alone, after which no ticket is unconfirmed. Requests under way stay under
// way: no fence waits for them, and an invalidation has them begin anew.
ghost use Rattle.std.specs.Prelude.{◌≡◌, ◌+◌, ◌<◌, ◌≤◌, ◌^◌};
ghost use Rattle.iom_machine.specs.declared.outcome.Outcome as outcome;
ghost use Rattle.iom_settling.specs.Kinds.{IsSettling};
ghost use Rattle.iom_settling.specs.Stages.{Settled, brief};
ghost use Rattle.iom_stepped_machine.specs.Machine as machine;
ghost use Rattle.iom_stepped_refinement.specs.Runs.{ShowsMoment};
ghost use Rattle.iom_stepped_world.specs.Happens.{Does};
ghost use Rattle.iom_stepped_world.specs.Settling.{SettlesAsRun, TakesSo};
ghost use Rattle.iom_stepped_world.specs.Shown.{moment, stepped_of};
ghost use Rattle.iom_stepped_world.specs.Sound.{AreBesideWorld};
ghost use Rattle.iom_walks.specs.Invariant.{AreWalks};
ghost use Rattle.iom_world.specs.Shown.{disks_of, parts_of};
ghost use Rattle.iom_world_effects.proofs.DriverLemmas.{driver_invariant};

use crate::fetching::fetch;
use crate::others::happen;
use crate::world::SteppedWorld;
use iom_base::{DeviceId, Refusal};
use iom_machine::{Event, Fetched, Outcome};
use iom_settling::{FetchReply, TakesEvents, settle};
use iom_stepped_refinement::{facts_law, runs_law};
use iom_virtio_blk::Disk;
use iom_walks::Walks;
use iom_world::World;
use iom_world_effects::laws_below;

/// What settling wants to know of the outcome.
fn brief(outcome: &Outcome) -> FetchReply
    ensures { result ≡ brief outcome.now }
{
    match outcome {
        Outcome::Fetched(Fetched::Waiting) => FetchReply::Waits,
        Outcome::Fetched(Fetched::Empty) => FetchReply::Empty,
        _ => FetchReply::Other,
    }
}

/// An event of settling: a fetch, or one in which what is under way has no part.
fn take_settling<D: Disk>(world: &mut World<D>, walks: &mut Walks, event: &Event) -> Outcome
    requires beside { AreBesideWorld D.shown world.old walks.old }
    requires count { world.old.hardware.board.events + 1 < 2 ^ 64 }
    requires settling { IsSettling event.now }
    ensures does { Does (stepped_of D.shown world.old walks.old) (machine.Whole event.now) (machine.Answer result) (stepped_of D.shown world.new walks.new) }
    ensures beside { AreBesideWorld D.shown world.new walks.new }
    ensures walks { AreWalks walks.new }
{
    let outcome = match event {
        Event::Fetch => fetch(world, walks),
        _ => happen(world, walks, event),
    };
    walks.facts();
    outcome
}

impl<D: Disk> TakesEvents for SteppedWorld<D> {
    ghost parts = { λ stepped. parts_of stepped.world };

    ghost counted = { λ stepped. stepped.world.hardware.board.events };

    ghost happens = { λ old event reply new. TakesSo D.shown old event reply new };

    ghost effect = { λ old new event reply takes. (disks_of old.world, takes.effect) };

    ghost commands = { λ old new event reply takes. takes.commands };

    ghost counts = { λ old new event reply takes. takes.does.leads.counted };

    ghost invariants = { λ stepped. stepped.world.invariants };

    ghost own = { λ stepped. driver_invariant stepped.world.driver };

    fn facts(&self) {
        self.world.facts();
    }

    fn first_busy(&self) -> Option<DeviceId> {
        self.world.first_busy()
    }

    fn is_quiet(&self) -> bool {
        self.world.is_quiet()
    }

    fn has_pending(&self) -> bool {
        self.world.has_pending()
    }

    fn has_used_up(&self) -> bool {
        self.world.has_used_up()
    }

    fn take(&mut self, event: &Event) -> FetchReply {
        laws_below();
        facts_law();
        runs_law();
        self.walks.facts();
        let outcome = take_settling(&mut self.world, &mut self.walks, event);
        brief(&outcome)
    }
}

impl<D: Disk> SteppedWorld<D> {
    /// Drives the world until no ticket is unconfirmed, as [`World::settle`] says: commits, deliveries, and where a ticket is
    /// unconfirmed a restart, fetches and a poll. How many events that were: at most 341. Requests that are under way stay under
    /// way, and begin anew at each IOTINVAL and IODIR.INVAL_DDT. `NumbersUsedUp` where a restart has no number left for its
    /// fence; then the commits and the first deliveries have happened, and nothing else. The events are those of a run of the
    /// ledger machine with walks (`ran`).
    pub fn settle(&mut self) -> Result<u32, Refusal>
        requires count { self.old.world.hardware.board.events + 400 < 2 ^ 64 }
        ensures settled { Settled (λ stepped. parts_of stepped.world) (λ old event reply new. TakesSo D.shown old event reply new) self.old result self.new }
        ensures ran { (state : machine.SteppedState) → ShowsMoment (moment (stepped_of D.shown self.old.world self.old.walks)) state
            → ∥ SettlesAsRun state (stepped_of D.shown self.new.world self.new.walks) ∥₁ }
        ensures counted { self.new.world.hardware.board.events ≤ self.old.world.hardware.board.events + 341 }
    {
        facts_law();
        runs_law();
        self.walks.facts();
        settle(self)
    }
}
