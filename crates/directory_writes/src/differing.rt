//! Directories that differ in their tables alone, as a damaged one and each from which its files
//! may come.

ghost use Rattle.directory_writes.specs.internal.Each.{AppendsEachLaw, AppendsEditEachLaw, EachFileLaw, FreeEachLaw, FreeFileLaw, OneChangeLaw, SameChangeLaw, SameFileLaw, WritesEachLaw, WritesTablesEachLaw};

/// Proves that each change can be done to each directory that differs in tables alone, and what it
/// leaves differs in tables alone again.
pub fn same_change_law()
    ensures { SameChangeLaw }
{}

/// Proves that a file that is the same in both is the same after a change that is made to both.
pub fn same_file_law()
    ensures { SameFileLaw }
{}

/// Proves that each file stayed in both, or is the new one in both.
pub fn each_file_law()
    ensures { EachFileLaw }
{}

/// Proves that a directory differs in nothing from itself, and what the same change leaves is one
/// thing.
pub fn one_change_law()
    ensures { OneChangeLaw }
{}

/// Proves that bytes appended to a file that is the same in both are appended to it in both.
pub fn appends_each_law()
    ensures { AppendsEachLaw }
{}

/// Proves that a call that writes one file writes that one in each such directory.
pub fn writes_each_law()
    ensures { WritesEachLaw }
{}

/// Proves that a call that writes tables of some numbers writes those in each such directory.
pub fn writes_tables_each_law()
    ensures { WritesTablesEachLaw }
{}

/// Proves that an edit that is appended to the MANIFEST is appended to that of each such directory.
pub fn append_edit_each_law()
    ensures { AppendsEditEachLaw }
{}

/// Proves that a file whose number is free is missing in both.
pub fn free_file_law()
    ensures { FreeFileLaw }
{}

/// Proves that the same numbers are free in both.
pub fn free_each_law()
    ensures { FreeEachLaw }
{}
