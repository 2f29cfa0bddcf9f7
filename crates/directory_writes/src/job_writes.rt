//! What the steps of a job leave of a directory (LevelDB's db/db_impl.cc, DoCompactionWork).

ghost use Rattle.directory_writes.specs.internal.JobWrites.{FreeNumberLaw, JobWritesLaw};
ghost use Rattle.directory_writes.specs.internal.JobsEach.{JobWritesEachLaw, MergingEachLaw, SameOutputsLaw};

/// Proves that tables that a directory hasn't may be written: its other parts stay.
pub fn job_writes_law()
    ensures { JobWritesLaw }
{}

/// Proves that a number that is free is that of no table.
pub fn free_number_law()
    ensures { FreeNumberLaw }
{}

/// Proves the same of each directory that differs in tables alone.
pub fn job_writes_each_law()
    ensures { JobWritesEachLaw }
{}

/// Proves that what a job has written, it has in each such directory in which its tables have the
/// same files.
pub fn merging_each_law()
    ensures { MergingEachLaw }
{}

/// Proves that they still have them after a change that is made to both.
pub fn same_outputs_law()
    ensures { SameOutputsLaw }
{}
