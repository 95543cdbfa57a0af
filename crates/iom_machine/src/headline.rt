ghost use Rattle.iom_machine.specs.Laws.{MadeAccessesTouchTheirOwn, HeldPagesAreAccepted, FreeFramesAreNotTouched, OnlyGranteesTouch};
ghost use Rattle.iom_machine.specs.Laws.{AccessesInFlightMay, AccessesInFlightWereAccepted, CommitsAreAnswered};

/// What every run from power-on has.
///
/// After any list of events from power-on, every device access made touches exactly its named bytes
/// in a frame that the history then shows held by that device with that right, or released by it so
/// and unconfirmed; a raw, one-stage device's access to a page it so holds is accepted on that very
/// frame; and a frame shown free is touched by no device until granted again, and by each device only
/// after it is granted to that very device again. Every access in flight was asked for by its device
/// and accepted, keeps its bytes, may still reach its frame, and can be made. That of a block device
/// was asked for by a step of it, which names no access.
pub fn reclaim_theorem()
    ensures made { MadeAccessesTouchTheirOwn }
    ensures accepted { HeldPagesAreAccepted }
    ensures free { FreeFramesAreNotTouched }
    ensures grantees { OnlyGranteesTouch }
    ensures in_flight { AccessesInFlightMay }
    ensures asked { AccessesInFlightWereAccepted }
    ensures answered { CommitsAreAnswered }
{}
