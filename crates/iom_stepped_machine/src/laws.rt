ghost use Rattle.iom_stepped_machine.specs.Laws.{SteppedRunsAreRuns, WalksHaveRoom, WalksMakeFewLoads, WholeRunsAreStepped};
ghost use Rattle.iom_stepped_machine.specs.Reclaim.{SteppedAccessesInFlightMay, SteppedFramesAreNotTouched, SteppedGranteesTouch};
ghost use Rattle.iom_stepped_machine.specs.Reclaim.{SteppedAccessesTouchTheirOwn, SteppedPagesAreAccepted};

/// What a machine with walks in it does is, for the ledger, a run of the ledger machine: what it answers to whole
/// requests, and each request in walk at the load that ends it. No event is added, and none left out but those that
/// change nothing that the ledger machine knows.
pub fn stepped_runs_are_runs()
    ensures { SteppedRunsAreRuns }
{}

/// A run of the ledger machine is one of this machine, in which no walk takes several events.
pub fn whole_runs_are_stepped()
    ensures { WholeRunsAreStepped }
{}

/// A walk makes at most 26 loads that don't end it, since it began or began anew.
pub fn walks_make_few_loads()
    ensures { WalksMakeFewLoads }
{}

/// A walk counts as one of its device's accesses in flight: whenever it ends there is room for the access.
pub fn walks_have_room()
    ensures { WalksHaveRoom }
{}

/// The reclaim theorem where walks take several events.
///
/// After any list of events from power-on, every device access made touches exactly its named bytes in a frame that the
/// history then shows held by that device with that right, or released by it so and unconfirmed. A raw, one-stage
/// device's access to a page that it so holds is accepted on that very frame, by the reply that ends its request: at
/// once, where no walk is needed, or at the load that ends its walk, where the page is held then. And a frame shown
/// free is touched by no device until granted again, and by each device only after it is granted to that very device
/// again.
pub fn stepped_reclaim_theorem()
    ensures made { SteppedAccessesTouchTheirOwn }
    ensures accepted { SteppedPagesAreAccepted }
    ensures free { SteppedFramesAreNotTouched }
    ensures grantees { SteppedGranteesTouch }
    ensures in_flight { SteppedAccessesInFlightMay }
{}
