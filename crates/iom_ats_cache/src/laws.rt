//! Laws of the cache, over any calls one after another, for the layers above.
ghost use Rattle.iom_ats_cache.specs.Laws.{FindsOnlyWhatWasAnswered, EpochCounts, KeepsOnlyWhatWasAskedSince, PagesStayDistinct, FindsThePagesEntry};

/// Whatever calls are made of a new cache: the frame that it has for a page and a kind of access was answered for that
/// page, with a right that allows the kind, in the epoch of then. Since then no answer for the page was kept, no
/// invalidation covered it, and there was no reset.
pub fn finds_only_what_was_answered()
    ensures { FindsOnlyWhatWasAnswered }
{}

/// The epoch of a cache is the number of its invalidations and resets.
pub fn epoch_counts()
    ensures { EpochCounts }
{}

/// An answer to a question is kept only where no invalidation and no reset came in between.
pub fn keeps_only_what_was_asked_since()
    ensures { KeepsOnlyWhatWasAskedSince }
{}

/// A cache has at most 32 entries, and no page has two.
pub fn pages_stay_distinct()
    ensures { PagesStayDistinct }
{}

/// A look finds the entry of its page, and no other: a frame exactly where the page's entry has that frame and a
/// right that allows the kind.
pub fn finds_the_pages_entry()
    ensures { FindsThePagesEntry }
{}
