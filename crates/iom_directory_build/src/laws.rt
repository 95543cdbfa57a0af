//! Laws of device directories, each the contract of a function that does nothing.
ghost use Rattle.iom_directory_build.specs.Laws.{DirectoryStays, ZeroedRoot, WholePaths, LawfulEnds};

/// What changes no page of a directory leaves it, and all that its paths find.
pub fn directory_stays()
    ensures { DirectoryStays }
{}

/// A zeroed frame is a directory of itself alone, in which no id has a context.
pub fn zeroed_root()
    ensures { ZeroedRoot }
{}

/// Where the path of an id leads to a page of contexts no page is missing, so a context can be written there.
pub fn whole_paths()
    ensures { WholePaths }
{}

/// By a pointer to the directory an id is located at the end of its path, where the levels have room for it.
pub fn lawful_ends()
    ensures { LawfulEnds }
{}
