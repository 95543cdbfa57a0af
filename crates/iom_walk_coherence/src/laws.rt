//! What the facts on walks give the layers above.
ghost use Rattle.std.specs.Prelude.{ℕ};
ghost use Rattle.iom_coherence.specs.Laws.{scene_after_fence};
ghost use Rattle.iom_walk_coherence.specs.Walks.{without_walks};
ghost use Rattle.iom_walk_coherence.specs.Laws.{IsFaithfulStepped, SteppedTransitionsKeepFacts, SteppedTurnsKeepFacts, SteppedScenesAreFaithful, WalksAreOfAllHistories};
ghost use Rattle.iom_walk_coherence.specs.Laws.{SteppedTurnsAreTurns, TurnsAreSteppedTurns};
ghost use Rattle.iom_walk_coherence.specs.Laws.{WalksAreNotOver, GuestTablesMayBeRead, WalksOfDetachedAreInDirectory, FreeFramesHaveNoWalks};
ghost use Rattle.iom_walk_coherence.specs.Worked.{StaleWalksOccur, WalksMustBeginAnew};

/// The facts hold at power-on, whatever numbers of fences are used up by then, and whatever hardware or driver
/// does keeps them, one thing or several in turn: a walk stands in the directory, or in tables that its device keeps
/// until the walk has begun anew. So they hold after anything that can occur from power-on. If those on walks hold of one
/// history with which a ledger agrees, they do of each.
pub fn walk_law()
    ensures opening { (number : ℕ) → IsFaithfulStepped (without_walks (scene_after_fence number)) }
    ensures kept { SteppedTransitionsKeepFacts }
    ensures in_turn { SteppedTurnsKeepFacts }
    ensures run { SteppedScenesAreFaithful }
    ensures history { WalksAreOfAllHistories }
{}

/// Beside walks nothing occurs to a scene that couldn't without them, so each law of `iom_coherence` holds of it; and
/// whatever may occur there may occur here, where no walk takes several events.
pub fn scene_law()
    ensures scenes { SteppedTurnsAreTurns }
    ensures whole { TurnsAreSteppedTurns }
{}

/// A walk stands in tables that are its device's still: those of a device whose detach is confirmed have none, and may be
/// given back. And where it loads next from a guest's own table, its device may then read that frame: no walk loads from
/// one that is free.
pub fn standing_law()
    ensures tables { WalksAreNotOver }
    ensures guest_tables { GuestTablesMayBeRead }
    ensures detached { WalksOfDetachedAreInDirectory }
    ensures free { FreeFramesHaveNoWalks }
{}

/// The facts aren't those of a world in which no walk is under way. From power-on one can stand in a guest's table that is
/// released, and then it begins anew and the ticket is confirmed. And were the walks left where they are when IOTINVAL and
/// IODIR are fetched, the facts would fail.
pub fn worked_law()
    ensures stale_walk { StaleWalksOccur }
    ensures anew { WalksMustBeginAnew }
{}
