//! Laws of the tables of both stages, of either size, each the contract of a function that does nothing.
ghost use Rattle.iom_page_table.specs.Laws.{WalkReachesLeaf, WalkThroughTables, WalkFaultsElse, TreeStays, TreesApart, ZeroedTree, DifferentTables, PathsInShape};
ghost use Rattle.iom_page_table.specs.GuestLaws.{GuestWalkReachesLeaf, GuestLeaves, GuestWalkFaultsElse, GuestTablesFault, ZeroedGuestRoot, GuestTablesStay, GuestTablesKept, GuestPathsInShape};

/// The walk of an address reaches exactly the leaf of its page, where that allows the access.
pub fn walk_reaches_leaf()
    ensures { WalkReachesLeaf }
{}

/// The walk of an address loads its entries from the root's tables alone.
pub fn walk_through_tables()
    ensures { WalkThroughTables }
{}

/// In a tree a page without a leaf that allows the access is a page fault.
pub fn walk_faults_else()
    ensures { WalkFaultsElse }
{}

/// What changes no frame of a tree, as a store outside it, leaves the tree and all that it reaches.
pub fn tree_stays()
    ensures { TreeStays }
{}

/// Two trees of no common frame don't meet.
pub fn trees_apart()
    ensures { TreesApart }
{}

/// A zeroed frame is a tree of itself alone, which reaches nothing.
pub fn zeroed_tree()
    ensures { ZeroedTree }
{}

/// Different prefixes of a tree have tables in different frames.
pub fn different_tables()
    ensures { DifferentTables }
{}

/// The second stage leads an access exactly to the leaf of its page, where that allows the access.
pub fn guest_walk_reaches_leaf()
    ensures { GuestWalkReachesLeaf }
{}

/// Guest physical pages are mapped as the pages of a first stage at the same root.
pub fn guest_leaves()
    ensures { GuestLeaves }
{}

/// In the tables of a second stage a page without a leaf that allows the access is a guest page fault.
pub fn guest_walk_faults_else()
    ensures { GuestWalkFaultsElse }
{}

/// A guest's own tables, read through tables that lie in memory, lead to page faults alone.
pub fn guest_tables_fault()
    ensures { GuestTablesFault }
{}

/// Four zeroed frames are the root of a second stage that reaches nothing.
pub fn zeroed_guest_root()
    ensures { ZeroedGuestRoot }
{}

/// What changes no frame of the tables of a second stage leaves them.
pub fn guest_tables_stay()
    ensures { GuestTablesStay }
{}

/// Where the tables of a first stage stay where they are, those of a second stage at the same root do.
pub fn guest_tables_kept()
    ensures { GuestTablesKept }
{}

/// The first indices of a page, or of a guest physical one, are a prefix of the shape of its tables.
pub fn paths_in_shape()
    ensures first { PathsInShape }
    ensures second { GuestPathsInShape }
{}
