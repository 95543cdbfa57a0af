//! Laws of requests that are under way, each the contract of a function that does nothing.
ghost use Rattle.iom_walks.specs.Laws.{FewGoOn, RunsAreWhole, ServedAreWhole};

/// A request all of whose loads are made from one memory, with nothing else between them, is answered as one that is
/// served at once (`whole`); so is one that is served when it begins (`served`).
pub fn run_law()
    ensures whole { RunsAreWhole }
    ensures served { ServedAreWhole }
{}

/// At most 26 loads of a request go on, until it ends or begins anew.
pub fn bound_law()
    ensures { FewGoOn }
{}
