//! Laws of hardware that caches pointers to tables, each the contract of a function that does nothing.
ghost use Rattle.iom_pointer_ways.specs.Laws.{FollowedArePassed, PointedCallsAddNoWay, PointedCallsAreTransitions, PointedFreeStaysFree, PointedGoodClaimsHold, PointedQuietStaysQuiet, PointersAddTheirTables, PointersAddTheirWays};

/// What pointers add to a scene: their ways and their tables, and no others.
pub fn pointer_law()
    ensures ways { PointersAddTheirWays }
    ensures tables { PointersAddTheirTables }
{}

/// What is followed from a table at which a walk may begin is passed by such a walk.
pub fn follow_law()
    ensures { FollowedArePassed }
{}

/// Each call of such hardware is a list of transitions.
pub fn pointed_call_law()
    ensures { PointedCallsAreTransitions }
{}

/// Where hardware and devices can't write what hardware reads, no list of calls adds a way; so what is found of a moment
/// holds from then on.
pub fn pointed_ways_law()
    ensures in_turn { PointedCallsAddNoWay }
    ensures quiet { PointedQuietStaysQuiet }
    ensures claims { PointedGoodClaimsHold }
    ensures free { PointedFreeStaysFree }
{}
