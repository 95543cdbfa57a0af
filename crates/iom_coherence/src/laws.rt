//! What the facts on copies give the layers above.
ghost use Rattle.std.specs.Prelude.{ℕ};
ghost use Rattle.iom_coherence.specs.Faithful.{IsFaithful};
ghost use Rattle.iom_coherence.specs.Laws.{scene_after_fence, TransitionsKeepFacts, TurnsKeepFacts, FactsAreOfAllHistories, FaithfulAccessesMay, AccessesAlwaysMay};
ghost use Rattle.iom_coherence.specs.Laws.{OfTranslations, OfEntries, OfAnswers, NamesReachable, NamesHeld};
ghost use Rattle.iom_coherence.specs.Laws.{ContextsAreNotOver, IsOfKnown, AccessesAreKnown};
ghost use Rattle.iom_coherence.specs.Laws.{OpenSlotsHoldFences, StoppedQueuesHoldFences, DoneFencesAreGone};
ghost use Rattle.iom_coherence.specs.Worked.{StaleWritesOccur, RevivalsOccur};

/// The facts hold at power-on, whatever numbers of fences are used up by then, and whatever hardware or driver
/// does keeps them, one thing or several in turn: each copy names what is held, or what lingers under a ticket
/// that can't be confirmed before the copy is gone. So each access in flight may still reach its frame, where the
/// facts hold, and so after anything that can occur from power-on. If the facts hold of one history with which a
/// ledger agrees, they do of each that confirms no later ticket.
pub fn reclaim_law()
    ensures opening { (number : ℕ) → IsFaithful (scene_after_fence number) }
    ensures kept { TransitionsKeepFacts }
    ensures in_turn { TurnsKeepFacts }
    ensures history { FactsAreOfAllHistories }
    ensures may { FaithfulAccessesMay }
    ensures run { AccessesAlwaysMay }
{}

/// What is remembered of a page is held or lingers. In one stage it is held or lingers at that very page,
/// with that right; in both stages its frame may be reached by every kind of access that its right allows.
/// So whatever is served from a cache is served lawfully.
pub fn reachable_law()
    ensures translations { OfTranslations NamesReachable }
    ensures entries { OfEntries NamesReachable }
    ensures answers { OfAnswers NamesReachable }
{}

/// In one stage what is remembered of a page that is held is what is held there: so an access that the grant
/// allows is accepted on that very frame, from a cache as from a walk.
pub fn current_law()
    ensures translations { OfTranslations NamesHeld }
    ensures entries { OfEntries NamesHeld }
    ensures answers { OfAnswers NamesHeld }
{}

/// Nothing is left of a device once its detach is confirmed: no context, no translation, no entry of its
/// cache, no answer that it would take, and no access in flight. So its tables and its address-space number
/// may be given back. Nor is the context left of a device whose quarantine is confirmed.
pub fn forgotten_law()
    ensures contexts { ContextsAreNotOver }
    ensures translations { OfTranslations IsOfKnown }
    ensures entries { OfEntries IsOfKnown }
    ensures answers { OfAnswers IsOfKnown }
    ensures accesses { AccessesAreKnown }
{}

/// A fence is done only while no slot is open, and from a timeout to the next restart none is. No fence stands
/// in the queue whose number the completion word has reached: so a poll confirms no ticket too early.
pub fn fence_law()
    ensures slots { OpenSlotsHoldFences }
    ensures stopped { StoppedQueuesHoldFences }
    ensures gone { DoneFencesAreGone }
{}

/// The facts aren't those of a world in which nothing occurs. From power-on a device with a cache of its own
/// can write to a page that was released, and then that write is made, all caches forget the page, and the
/// ticket is confirmed. And a device can be detached and attached again, lose an invalidation, be quarantined
/// while its fence waits for that, and after a timeout and a restart be revived.
pub fn worked_law()
    ensures stale_write { StaleWritesOccur }
    ensures revival { RevivalsOccur }
{}
