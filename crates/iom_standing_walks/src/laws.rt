//! Laws of walks that stand in tables and directories that stay, each the contract of a function that does nothing, or
//! takes laws of those below.
ghost use Rattle.iom_standing_walks.specs.Positions.{PositionsAreAll};
ghost use Rattle.iom_standing_walks.specs.Standing.{LoadsAreOfNow, StandingWalksAreOfNow, FirstEndsAsNow, SecondEndsAsNow, StandingStays};
ghost use Rattle.iom_standing_walks.specs.Pages.{DirectoryEndsAsNow, DirectoryGoesOn};
ghost use Rattle.iom_standing_walks.specs.Walks.{OneStageStands, TowardEntryStands, AtEntryStands, TowardPageStands, DirectoryStands};
ghost use Rattle.iom_standing_walks.specs.Judged.{FirstIsJudgedNow, SecondIsJudgedNow, EntryIsJudgedNow, PageIsJudgedNow};
ghost use Rattle.iom_standing_walks.specs.Driven.{DrivenWalksStand};
ghost use Rattle.iom_standing_walks.specs.Faults.{EntryFaultsNow, PageEndsNow, GuestEntryFaultsNow};

use iom_page_table::laws::{
    guest_walk_faults_else, guest_walk_reaches_leaf, walk_faults_else, walk_reaches_leaf,
};

/// In both stages a walk stands in one of three kinds of positions, or has ended.
pub fn position_law()
    ensures { PositionsAreAll }
{}

/// The walks of `iom_stepped_walk` stand in these positions: so the other laws are about them.
pub fn walk_law()
    ensures one_stage { OneStageStands }
    ensures toward_entry { TowardEntryStands }
    ensures at_entry { AtEntryStands }
    ensures toward_page { TowardPageStands }
    ensures directory { DirectoryStands }
{}

/// In tables that stay a walk from the table in hand is a walk from the root: so a load that ends it gives what a whole
/// walk would give now.
pub fn standing_law()
    ensures load { LoadsAreOfNow }
    ensures now { StandingWalksAreOfNow }
    ensures first { FirstEndsAsNow }
    ensures second { SecondEndsAsNow }
    ensures unchanged { StandingStays }
{}

/// In a directory whose pages stay a load that ends a walk gives what the id's path has then, a context or a cause; and
/// one that doesn't leads to a page that stays.
pub fn directory_law()
    ensures ends { DirectoryEndsAsNow }
    ensures goes_on { DirectoryGoesOn }
{}

/// Where a call of the driver leaves the tables of a root where they are, a walk that stands in one of them stands there
/// still.
pub fn driven_law()
    ensures { DrivenWalksStand }
{}

/// In the driver's tables a load that ends a walk of one stage tells the page's leaf, as it is then: the access is
/// accepted where that allows it, and else it is the stage's page fault. In both stages so are the frames in which the
/// guest's entries lie, and that of the page.
pub fn leaf_law()
    ensures first { FirstIsJudgedNow }
    ensures second { SecondIsJudgedNow }
    ensures entry { EntryIsJudgedNow }
    ensures page { PageIsJudgedNow }
{
    walk_reaches_leaf();
    walk_faults_else();
    guest_walk_reaches_leaf();
    guest_walk_faults_else();
}

/// In both stages, through the driver's tables of the second, a load that ends a walk on its way to an entry of a guest's
/// ends it with that stage's page fault, where the entry may not be read. One that ends it on its way to the page ends it
/// there, as the page's leaf is then, or with the same fault. One of the guest's entry ends it with a page fault of either
/// stage, whatever the guest wrote.
pub fn fault_law()
    ensures entry { EntryFaultsNow }
    ensures page { PageEndsNow }
    ensures guest_entry { GuestEntryFaultsNow }
{
    guest_walk_reaches_leaf();
    guest_walk_faults_else();
}
