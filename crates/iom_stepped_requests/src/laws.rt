//! Laws of requests that are served load by load, each the contract of a function that does nothing.
ghost use Rattle.iom_stepped_requests.specs.Laws.{LoadsAreOfTheWalk, LoadsKeepOfTheRun, LoadsTakeAway, RequestsAreWhole, RequestsEnd, RunsKeep};

/// What remains of a request is one walk of `iom_walk_loads`, of which each load is one. Made from one memory, all of them
/// answer what a request is answered that is served at once.
pub fn whole_law()
    ensures load { LoadsAreOfTheWalk }
    ensures whole { RequestsAreWhole }
{}

/// A request makes 27 loads at most, whatever they give, and each takes one away.
pub fn bound_law()
    ensures ends { RequestsEnd }
    ensures fewer { LoadsTakeAway }
{}

/// All loads of a request, made from one memory, keep in the caches what a request keeps that is served at once.
pub fn kept_law()
    ensures load { LoadsKeepOfTheRun }
    ensures whole { RunsKeep }
{}
