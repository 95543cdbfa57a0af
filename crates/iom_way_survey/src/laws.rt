//! Laws of tables, each the contract of a function that does nothing.
ghost use Rattle.iom_way_survey.specs.Laws.{LevelsAreWalks, WaysAreLookedFor, LooksFindWays, TablesAreLookedFor, LooksFindTables, DirectoryIsLookedFor, FaultsAreLookedFor};

/// Tables that are looked at level by level are what walks read, and map what walks lead to.
pub fn level_law()
    ensures { LevelsAreWalks }
{}

/// What is looked for of a device that is plugged in is its ways: none is missed, and none invented.
pub fn way_law()
    ensures all { WaysAreLookedFor }
    ensures sole { LooksFindWays }
{}

/// No frame of a table or of the directory that hardware reads is missed, by all that is looked for; and no frame of a
/// table is invented.
pub fn read_law()
    ensures tables { TablesAreLookedFor }
    ensures tables_back { LooksFindTables }
    ensures directory { DirectoryIsLookedFor }
{}

/// No frame of a fault record is missed.
pub fn fault_law()
    ensures { FaultsAreLookedFor }
{}
