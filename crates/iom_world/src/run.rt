// A list of events, one after another.
ghost use Rattle.std.specs.Prelude.{◌≡◌, ◌+◌, ◌<◌, ◌≤◌, ◌^◌, true, length, Option, is_some, OnOk, OnErr};
ghost use Rattle.iom_machine.specs.declared.outcome.Outcome as spec;
ghost use Rattle.iom_machine.specs.declared.outcome.Trace as counts;
ghost use Rattle.iom_machine.specs.declared.state.State.{State};
ghost use Rattle.iom_world.specs.Happens.{Happens};
ghost use Rattle.iom_world.specs.Runs.{AreCounts, RunsTo, FailsAfter};
ghost use Rattle.iom_world.specs.Shown.{shown_of};
ghost use Rattle.iom_world.specs.Shows.{Shows};

use crate::world::World;
use iom_answers::{Answer, AnswerSink};
use iom_machine::{Event, Sink, Trace};
use iom_virtio_blk::Disk;

impl<D: Disk> World<D> {
    /// The counts that stand beside an outcome, where they are wanted.
    #[inline(always)]
    fn trace_if(&self, wanted: bool) -> Option<Trace>
        ensures wanted { is_some result ≡ wanted }
        ensures counts { (state : State) → Shows (shown_of D.shown self.now) state → AreCounts state (shown_of D.shown self.now) result }
    {
        if wanted { Some(self.trace()) } else { None }
    }

    /// The counts that stand beside an outcome, where the sink wants them beside the next one.
    #[inline(always)]
    pub fn trace_for<S: AnswerSink>(&self, sink: &S) -> Option<Trace>
        ensures wanted { is_some result ≡ S.wants sink.now }
        ensures counts { (state : State) → Shows (shown_of D.shown self.now) state → AreCounts state (shown_of D.shown self.now) result }
    {
        self.trace_if(sink.wants_trace())
    }

    /// What [`World::run_one`] does, where the sink wants the counts.
    // Apart from the loop of a run, so that no place for counts is kept there. They are counted while nothing is lent.
    #[inline(never)]
    fn run_one_counted<S: AnswerSink>(
        &mut self,
        event: &Event,
        sink: &mut S,
    ) -> Result<(), S::Fault>
        requires count { self.old.hardware.board.events + 1 < 2 ^ 64 }
        requires wants { S.wants sink.old ≡ true }
        ensures { (outcome : spec.Outcome) × Happens (shown_of D.shown self.old) event.now outcome (shown_of D.shown self.new)
            × (trace : Option counts.Trace) × (is_some trace ≡ S.wants sink.old)
            × ((state : State) → Shows (shown_of D.shown self.new) state → AreCounts state (shown_of D.shown self.new) trace)
            × OnOk result (S.takes sink.old outcome trace sink.new) × OnErr result (S.fails sink.old outcome trace sink.new) }
    {
        let outcome = self.step(event);
        let trace = self.trace();
        sink.put(Answer::of(&outcome), Some(trace))
    }

    /// One event happens, as [`World::step`] says, and its outcome goes to the sink, with the counts beside it where
    /// it wants them.
    // Written into the loop of a run, by whoever has one.
    #[inline(always)]
    pub fn run_one<S: AnswerSink>(&mut self, event: &Event, sink: &mut S) -> Result<(), S::Fault>
        requires count { self.old.hardware.board.events + 1 < 2 ^ 64 }
        ensures { (outcome : spec.Outcome) × Happens (shown_of D.shown self.old) event.now outcome (shown_of D.shown self.new)
            × (trace : Option counts.Trace) × (is_some trace ≡ S.wants sink.old)
            × ((state : State) → Shows (shown_of D.shown self.new) state → AreCounts state (shown_of D.shown self.new) trace)
            × OnOk result (S.takes sink.old outcome trace sink.new) × OnErr result (S.fails sink.old outcome trace sink.new) }
    {
        if sink.wants_trace() {
            self.run_one_counted(event, sink)
        } else {
            sink.put(self.take(event), None)
        }
    }

    /// The same, for a sink that takes outcomes.
    fn run_event<S: Sink>(&mut self, event: &Event, sink: &mut S) -> Result<(), S::Fault>
        requires count { self.old.hardware.board.events + 1 < 2 ^ 64 }
        ensures { (outcome : spec.Outcome) × Happens (shown_of D.shown self.old) event.now outcome (shown_of D.shown self.new)
            × (trace : Option counts.Trace) × (is_some trace ≡ S.wants sink.old)
            × ((state : State) → Shows (shown_of D.shown self.new) state → AreCounts state (shown_of D.shown self.new) trace)
            × OnOk result (S.takes sink.old outcome trace sink.new) × OnErr result (S.fails sink.old outcome trace sink.new) }
    {
        let outcome = self.step(event);
        let trace = self.trace_if(sink.wants_trace());
        sink.put(&outcome, trace)
    }

    /// The events, one after another: the sink takes the outcome of each, with the counts beside it where it
    /// wants them, and the run stops at the first that it fails at. The outcomes, also those up to a failure, are
    /// those of a run of the ledger machine over the events, from every state that the world shows; the world
    /// shows each state of that run in turn, each event does to it and to the block devices what
    /// [`World::step`] says, and the counts are those of the state that it leads to. Of that run the
    /// sentences of the headline hold, at those very states: at each, every access in flight may still reach its
    /// frame, what is made touches its own, what is held is accepted, and what is free is touched by nobody until
    /// it is granted.
    pub fn run<S: Sink>(&mut self, events: &[Event], sink: &mut S) -> Result<(), S::Fault>
        requires count { self.old.hardware.board.events + length events.now < 2 ^ 64 }
        ensures ran { (state : State) → Shows (shown_of D.shown self.old) state
            → OnOk result (RunsTo S.wants S.takes state (shown_of D.shown self.old) events.now sink.old sink.new (shown_of D.shown self.new)) }
        ensures failed { (state : State) → Shows (shown_of D.shown self.old) state
            → OnErr result (FailsAfter S.wants S.takes S.fails state (shown_of D.shown self.old) events.now sink.old sink.new
            (shown_of D.shown self.new)) }
        ensures counted { OnOk result (self.new.hardware.board.events ≡ self.old.hardware.board.events + length events.now) }
        ensures counted_at_most { OnErr result (self.new.hardware.board.events ≤ self.old.hardware.board.events + length events.now) }
    {
        for event in events {
            self.run_event(event, sink)?;
        }
        Ok(())
    }
}
