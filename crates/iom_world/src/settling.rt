// Settling: events of the driver and the hardware alone, after which no ticket is unconfirmed.
ghost use Rattle.std.specs.Prelude.{◌≡◌, ◌+◌, ◌<◌, ◌≤◌, ◌^◌};
ghost use Rattle.iom_world_effects.proofs.DriverLemmas.{driver_invariant};
ghost use Rattle.iom_answers.specs.Answers.{outcome_of};
ghost use Rattle.iom_world.specs.Happens.{Happens};
ghost use Rattle.iom_settling.specs.Stages.{Settled, brief};
ghost use Rattle.iom_world.specs.Shown.{disks_of, parts_of, shown_of};

use crate::world::World;
use iom_answers::Answer;
use iom_base::{DeviceId, Refusal};
use iom_machine::{Event, Fetched};
use iom_settling::{FetchReply, TakesEvents, settle};
use iom_virtio_blk::Disk;

/// What settling wants to know of the outcome.
fn brief(answer: Answer<'_>) -> FetchReply
    ensures { result ≡ brief (outcome_of answer.entry) }
{
    match answer {
        Answer::Fetched(Fetched::Waiting) => FetchReply::Waits,
        Answer::Fetched(Fetched::Empty) => FetchReply::Empty,
        _ => FetchReply::Other,
    }
}

/// A world takes events, its block devices along: what is made of their accesses they hear.
impl<D: Disk> TakesEvents for World<D> {
    ghost parts = { λ world. parts_of world };

    ghost counted = { λ world. world.hardware.board.events };

    ghost happens = { λ old event reply new. Happens (shown_of D.shown old) event reply (shown_of D.shown new) };

    ghost effect = { λ old new event reply happens. (disks_of old, happens.effect) };

    ghost commands = { λ old new event reply happens. happens.commands };

    ghost counts = { λ old new event reply happens. happens.events };

    ghost invariants = { λ world. world.invariants };

    ghost own = { λ world. driver_invariant world.driver };

    fn facts(&self) {
        self.facts();
    }

    fn first_busy(&self) -> Option<DeviceId> {
        self.first_busy()
    }

    fn is_quiet(&self) -> bool {
        self.is_quiet()
    }

    fn has_pending(&self) -> bool {
        self.has_pending()
    }

    fn has_used_up(&self) -> bool {
        self.has_used_up()
    }

    fn take(&mut self, event: &Event) -> FetchReply {
        brief(self.take(event))
    }
}

impl<D: Disk> World<D> {
    /// Drives the world until no ticket is unconfirmed: commits of each device in the order of plugging, while it has
    /// accesses in flight; deliveries of the oldest message, while there is one; and where a ticket is unconfirmed then, a
    /// restart, fetches until the queue is empty, with deliveries behind each that waits, and a poll. None of these events
    /// is a loss, a timeout or a reset, and what is held stays held. How many events that were: at most 341.
    /// `NumbersUsedUp` where a restart has no number left for its fence; then the commits and the first deliveries have
    /// happened, and nothing else.
    pub fn settle(&mut self) -> Result<u32, Refusal>
        requires count { self.old.hardware.board.events + 400 < 2 ^ 64 }
        ensures settled { Settled (λ world. parts_of world)
            (λ old event reply new. Happens (shown_of D.shown old) event reply (shown_of D.shown new)) self.old result self.new }
        ensures counted { self.new.hardware.board.events ≤ self.old.hardware.board.events + 341 }
    {
        settle(self)
    }
}
