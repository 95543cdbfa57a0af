//! What follows from the definitions, for the layers above.
ghost use Rattle.iom_board.specs.Software.{SoftwareKeepsInvariant, WritesAreSoftware};

/// A board keeps its invariant whatever software does to its memory and registers. It does nothing.
pub fn software_keeps_invariant()
    ensures keeps { SoftwareKeepsInvariant }
    ensures writes { WritesAreSoftware }
{}
