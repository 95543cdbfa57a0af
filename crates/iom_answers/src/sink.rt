ghost use Rattle.std.specs.Prelude.{◌≡◌, Bool, Option, OnOk, OnErr};
ghost use Rattle.iom_machine.specs.declared.outcome.Outcome as spec;
ghost use Rattle.iom_machine.specs.declared.outcome.Trace as counts;
ghost use Rattle.iom_answers.specs.Answers.{outcome_of};

use crate::answer::Answer;
use iom_machine::Trace;

/// Where the answers of a run go, one after another, each with the counts that stand beside it where it
/// wants these.
pub trait AnswerSink {
    /// Why an answer isn't taken.
    type Fault;

    /// Whether it wants the counts beside the next answer.
    ghost wants: { Self → Bool };

    /// Taking this outcome with these counts makes of the first sink the second.
    ghost takes: { Self → spec.Outcome → Option counts.Trace → Self → Type 0 };

    /// Failing at this outcome with these counts makes of the first sink the second.
    ghost fails: { Self → spec.Outcome → Option counts.Trace → Self → Type 0 };

    /// Whether it wants the counts beside the next answer. Counting takes longer than most events.
    fn wants_trace(&self) -> bool
        ensures { result ≡ wants self.now };

    /// Takes the answer, or fails at it. The counts are there where it wanted them.
    fn put(&mut self, answer: Answer<'_>, trace: Option<Trace>) -> Result<(), Self::Fault>
        ensures taken { OnOk result (takes self.old (outcome_of answer.entry) trace self.new) }
        ensures failed { OnErr result (fails self.old (outcome_of answer.entry) trace self.new) };
}
