//! Laws of walks that stand between two of their loads, each the contract of a function that does nothing.
ghost use Rattle.iom_stepped_walk.specs.Laws.{TableWalksLoad, DirectoryWalksLoad};

/// A walk that stands somewhere has a load to make, and the next one makes exactly that: of 8 bytes in tables, and in
/// directory pages above level 0; of 32 in a page of contexts.
pub fn load_law()
    ensures tables { TableWalksLoad }
    ensures directory { DirectoryWalksLoad }
{}
