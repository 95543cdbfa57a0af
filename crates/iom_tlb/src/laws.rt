//! Laws of the cache and of the commands, for the layers above.
ghost use Rattle.iom_tlb.specs.Laws.{AnswersOnlyWhatWasKept, TakeOutEverything};

/// Whatever calls are made of a cache that was empty: a translation that it has for a page is the one that was kept
/// there last, and nothing that was dropped since covers the page.
pub fn answers_only_what_was_kept()
    ensures { AnswersOnlyWhatWasKept }
{}

/// IOTINVAL.VMA and IOTINVAL.GVMA, both without any field, leave nothing in a cache.
pub fn two_commands_take_out_everything()
    ensures { TakeOutEverything }
{}
