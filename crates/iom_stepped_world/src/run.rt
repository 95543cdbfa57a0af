// A list of events and loads, one after another.
ghost use Rattle.std.specs.Prelude.{◌≡◌, ◌+◌, ◌<◌, ◌≤◌, ◌^◌, length, OnErr, OnOk};
ghost use Rattle.iom_stepped_machine.specs.Machine as machine;
ghost use Rattle.iom_stepped_refinement.specs.Runs.{ShowsMoment};
ghost use Rattle.iom_stepped_world.specs.Happens.{SteppedHappens};
ghost use Rattle.iom_stepped_world.specs.Runs.{FailsAfter, RunsTo};
ghost use Rattle.iom_stepped_world.specs.Shown.{moment, stepped_of};
ghost use Rattle.iom_stepped_world.specs.Told.{said, told};

use crate::event::SteppedEvent;
use crate::outcome::SteppedOutcome;
use crate::sink::SteppedSink;
use crate::world::SteppedWorld;
use iom_virtio_blk::Disk;

impl<D: Disk> SteppedWorld<D> {
    /// An event, as [`SteppedWorld::step`] says, or a load, as [`SteppedWorld::load`] does.
    pub fn happen(&mut self, event: &SteppedEvent) -> SteppedOutcome
        requires count { self.old.world.hardware.board.events + 1 < 2 ^ 64 }
        ensures happens { SteppedHappens (stepped_of D.shown self.old.world self.old.walks) (said event.now) (told result)
            (stepped_of D.shown self.new.world self.new.walks) }
    {
        match event {
            SteppedEvent::Event(event) => self.step(event),
            SteppedEvent::Load { device } => self.load(*device),
        }
    }

    /// The events, one after another: the sink takes the outcome of each, and the run stops at the first that it fails at. The
    /// outcomes, also those up to a failure, are those of a run of the ledger machine with walks over the events, from every
    /// state that the world shows; the world shows each state of that run in turn, and each event does to it what
    /// [`SteppedWorld::happen`] says. From power-on on what such a run comes to is reached by that machine: of it the reclaim
    /// theorem speaks (`stepped_reclaim_theorem` of `iom_stepped_machine`).
    pub fn run<S: SteppedSink>(
        &mut self,
        events: &[SteppedEvent],
        sink: &mut S,
    ) -> Result<(), S::Fault>
        requires count { self.old.world.hardware.board.events + length events.now < 2 ^ 64 }
        ensures ran { (state : machine.SteppedState) → ShowsMoment (moment (stepped_of D.shown self.old.world self.old.walks)) state
            → OnOk result (RunsTo S.takes state (stepped_of D.shown self.old.world self.old.walks) events.now sink.old sink.new
            (stepped_of D.shown self.new.world self.new.walks)) }
        ensures failed { (state : machine.SteppedState) → ShowsMoment (moment (stepped_of D.shown self.old.world self.old.walks)) state
            → OnErr result (FailsAfter S.takes S.fails state (stepped_of D.shown self.old.world self.old.walks) events.now sink.old sink.new
            (stepped_of D.shown self.new.world self.new.walks)) }
        ensures counted { OnOk result (self.new.world.hardware.board.events ≡ self.old.world.hardware.board.events + length events.now) }
        ensures counted_at_most { OnErr result (self.new.world.hardware.board.events ≤ self.old.world.hardware.board.events + length events.now) }
    {
        for event in events {
            let outcome = self.happen(event);
            sink.put(&outcome)?;
        }
        Ok(())
    }
}
