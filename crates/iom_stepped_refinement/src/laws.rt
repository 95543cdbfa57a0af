//! Laws of a world in which requests are under way, each the contract of a function that takes laws of those below.
ghost use Rattle.iom_stepped_refinement.specs.Laws.{BeginsAreSteps, BusyIsAStep, FetchesAreSteps, LoadsAreSteps, OthersAreSteps, WaitsAreSteps};
ghost use Rattle.iom_stepped_refinement.specs.Runs.{EventsAreSteps, EventsKeepFacts, IdleWorldsAreShown, IdleWorldsAreSound, RunsAreReached, RunsAreRuns, WalksKeepFacts};

use iom_driver::laws::others_leave_standing;
use iom_standing_walks::{directory_law, driven_law, fault_law, leaf_law, standing_law};
use iom_stepped_requests::laws::bound_law;
use iom_world_effects::laws_below;
use iom_world_walks::{
    begins_law as begins_keep, fetches_law as fetches_keep, loads_law as loads_keep,
    others_law as others_keep,
};

/// A request that begins is a step of the ledger machine with walks, as it is told: its walk is under way, or it is
/// answered at once, or refused, or finds its device occupied.
pub fn begins_law()
    ensures { BeginsAreSteps }
{
    bound_law();
    laws_below();
    standing_law();
    leaf_law();
    fault_law();
    directory_law();
    driven_law();
    others_leave_standing();
}

/// So is a load: the walk goes on, which made at most 26 loads since it began or began anew; or the load ends it, and
/// answers its request as the ledger is then.
pub fn loads_law()
    ensures { LoadsAreSteps }
{
    bound_law();
    laws_below();
    standing_law();
    leaf_law();
    fault_law();
    directory_law();
    driven_law();
    others_leave_standing();
}

/// A step of a block device whose access is under way tells that it waits, and nothing changes.
pub fn waits_law()
    ensures { WaitsAreSteps }
{}

/// And a fetch: where it does an IOTINVAL or an IODIR each walk has begun anew then, with no load made.
pub fn fetches_law()
    ensures { FetchesAreSteps }
{
    bound_law();
    laws_below();
    others_leave_standing();
}

/// And each other event: as in a world without walks. A reset, a revival, a queue that is set and the detach of a block
/// device give a walk up. Of a device that asks for an access nothing is under way; or it is refused, as ever; or it
/// needs no walk, and what is under way leaves it a place.
pub fn others_law()
    ensures { OthersAreSteps }
{
    laws_below();
    others_leave_standing();
}

/// A request that says it is translated already, or that goes through its device's own cache, is busy where what is under
/// way takes the last place.
pub fn busy_law()
    ensures { BusyIsAStep }
{}

/// All that is true of a world in which requests are under way is true after each event, whatever that is: of the world
/// after it nothing is asked but what calls and types say of its parts.
pub fn facts_law()
    ensures { EventsKeepFacts }
{
    begins_keep();
    loads_keep();
    fetches_keep();
    others_keep();
}

/// All of these together: each event of a world in which requests are under way is a step (`step`). So a run of it is a
/// run of the ledger machine with walks, after which all is true still (`run`). From power-on on what it comes to is
/// reached by that machine (`reached`): of it the reclaim theorem of such runs speaks.
pub fn runs_law()
    ensures step { EventsAreSteps }
    ensures run { RunsAreRuns }
    ensures reached { RunsAreReached }
{
    begins_law();
    waits_law();
    loads_law();
    fetches_law();
    others_law();
    busy_law();
    facts_law();
}

/// A world in which nothing is under way has all that is true of a world without walks (`sound`), and is shown as that is,
/// at power-on too (`shown`). Whatever is under way, all is true of its parts that is true of a world without walks
/// (`facts`).
pub fn idle_law()
    ensures sound { IdleWorldsAreSound }
    ensures shown { IdleWorldsAreShown }
    ensures facts { WalksKeepFacts }
{}
