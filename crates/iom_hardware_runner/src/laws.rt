//! What follows from the definitions, for the layers above.
ghost use Rattle.iom_hardware_runner.specs.Laws.{ScriptsAreRuns};

/// What a script comes to is a run of one session from power-on, of whose lines these are the answers. It does nothing.
pub fn scripts_are_runs()
    ensures { ScriptsAreRuns }
{}
