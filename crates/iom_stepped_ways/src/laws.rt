//! What is proved of hardware whose walks make one load an event.
ghost use Rattle.iom_stepped_ways.specs.Laws.{CoveredAreForKinds, KindsOutliveSoftware, KindsStay, ScenesCover, ScenesOutliveSoftware, SteppedAccessesHadWays, SteppedCallsAddNoWay, SteppedCallsAreTransitions, SteppedCallsKeepSize, SteppedFreeStaysFree, SteppedGoodClaimsHold, SteppedQuietStaysQuiet, WholeScenesCover};

/// The scene of hardware and of what is under way beside it has all that may come of each request, where each walk is for the
/// kind of access that its request asks for, as it stays whatever is called; where nothing is under way, that of the hardware
/// alone has. And whatever software changes, and whatever of what is under way it gives up, what was added to a scene for the
/// walks that are under way is still all that may come of those that are left, and each is still for its kind of access.
pub fn scene_law()
    ensures stepped { ScenesCover }
    ensures whole { WholeScenesCover }
    ensures software { ScenesOutliveSoftware }
    ensures covered { CoveredAreForKinds }
    ensures kinds { KindsStay }
    ensures software_kinds { KindsOutliveSoftware }
{}

/// Each call of hardware, and each load of a walk that is under way, is a list of the transitions of which the facts on
/// ways speak, and leaves memory of its size.
pub fn stepped_call_law()
    ensures each { SteppedCallsAreTransitions }
    ensures sized { SteppedCallsKeepSize }
{}

/// So no list of calls adds a way, where hardware and devices can't write what hardware reads, or what a walk under way is
/// still to read; each access that is made had its way at the beginning; what was withdrawn is out of reach, so that a claim
/// that is good stays true; and a frame that nobody has a way to is touched by nobody.
pub fn stepped_ways_law()
    ensures in_turn { SteppedCallsAddNoWay }
    ensures made { SteppedAccessesHadWays }
    ensures quiet { SteppedQuietStaysQuiet }
    ensures claims { SteppedGoodClaimsHold }
    ensures free { SteppedFreeStaysFree }
{}
