//! What settling is for the ledger machine.
ghost use Rattle.iom_settling_runs.specs.Laws.{SettlingsAreRuns};

use iom_virtio_blk::Disk;

/// What settles a world is a run of the ledger machine.
pub fn settling_is_a_run<D: Disk>()
    ensures { SettlingsAreRuns D.Disk }
{}
