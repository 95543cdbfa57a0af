//! Laws of reasons, each the contract of a function that does nothing.
ghost use Rattle.iom_fault_reasons.specs.Laws.{ReasonsAreOfFaults, TranslatedReasonsAreOfFaults};

/// A reason that is found now is that of each fault with which such a request is answered now, whatever is cached of
/// translations: of an untranslated request, and of one that says that it is translated.
pub fn reason_law()
    ensures untranslated { ReasonsAreOfFaults }
    ensures translated { TranslatedReasonsAreOfFaults }
{}
