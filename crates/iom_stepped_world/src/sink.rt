ghost use Rattle.std.specs.Prelude.{OnErr, OnOk};
ghost use Rattle.iom_stepped_machine.specs.Machine as machine;
ghost use Rattle.iom_stepped_world.specs.Told.{told};

use crate::outcome::SteppedOutcome;

/// Where the outcomes of a run go, one after another.
pub trait SteppedSink {
    /// Why an outcome isn't taken.
    type Fault;

    /// Taking this outcome makes of the first sink the second.
    ghost takes: { Self → machine.SteppedOutcome → Self → Type 0 };

    /// Failing at this outcome makes of the first sink the second.
    ghost fails: { Self → machine.SteppedOutcome → Self → Type 0 };

    /// Takes the outcome, or fails at it.
    fn put(&mut self, outcome: &SteppedOutcome) -> Result<(), Self::Fault>
        ensures taken { OnOk result (takes self.old (told outcome.now) self.new) }
        ensures failed { OnErr result (fails self.old (told outcome.now) self.new) };
}
