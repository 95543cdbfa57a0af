//! What a run of settling keeps.
ghost use Rattle.std.specs.Prelude.{ℕ, Bool, List};
ghost use Rattle.iom_machine.specs.declared.event.Event as spec;
ghost use Rattle.iom_machine.specs.declared.outcome.Outcome.{Outcome};
ghost use Rattle.iom_machine.specs.declared.state.State.{State};
ghost use Rattle.iom_machine.specs.Machine.{Run};
ghost use Rattle.iom_settling.specs.Kinds.{AreAll, IsSettling};
ghost use Rattle.iom_settling.specs.Settles.{AreInSettlingOrder, HoldAsBefore};

/// Events in the order of settling are all of its kinds, and what each device holds is as before a run of such events.
pub fn settling_holds()
    ensures kinds { (pending : Bool) (ids : List ℕ) (events : List spec.Event) (outcomes : List Outcome) → AreInSettlingOrder pending ids events outcomes
        → AreAll IsSettling events }
    ensures held { (old new : State) (events : List spec.Event) (outcomes : List Outcome) → Run old events outcomes new → AreAll IsSettling events
        → HoldAsBefore old.history new.history }
{}
