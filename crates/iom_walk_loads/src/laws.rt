//! Laws of walks by single loads, each the contract of a function that does nothing.
ghost use Rattle.std.specs.Prelude.{Result};
ghost use Rattle.iom_base.specs.declared.cause.Cause.{Cause};
ghost use Rattle.iom_device_dir.specs.declared.context.Context.{Context};
ghost use Rattle.iom_stage_walk.specs.declared.walked.Walked.{Walked};
ghost use Rattle.iom_stage_walk.specs.declared.walked.WalkFault.{WalkFault};
ghost use Rattle.iom_walk_loads.specs.Laws.{LoadsAreOfTheWhole, EnoughLoadsAreTheWhole, BoundedWalksEnd};
ghost use Rattle.iom_walk_loads.specs.Laws.{FirstIsWhole, SecondIsWhole, BothIsWhole, LocatingIsWhole, WalksEnd, LocatingEnds};

/// A walk all of whose loads are made from one memory ends exactly where the path of a whole one does, however many of
/// them are made already: of a first stage, of a second, of both, and through the directory.
pub fn whole_law()
    ensures loads { LoadsAreOfTheWhole (Result Walked WalkFault) }
    ensures locating_loads { LoadsAreOfTheWhole (Result Context Cause) }
    ensures first { FirstIsWhole }
    ensures second { SecondIsWhole }
    ensures both { BothIsWhole }
    ensures locating { LocatingIsWhole }
{}

/// A walk makes a bounded number of loads, whatever memory gives at each. So that many loads, all of one memory, are
/// the whole walk.
pub fn bound_law()
    ensures walks { WalksEnd }
    ensures locating { LocatingEnds }
    ensures ended { BoundedWalksEnd (Result Walked WalkFault) }
    ensures locating_ended { BoundedWalksEnd (Result Context Cause) }
    ensures whole { EnoughLoadsAreTheWhole (Result Walked WalkFault) }
    ensures locating_whole { EnoughLoadsAreTheWhole (Result Context Cause) }
{}
