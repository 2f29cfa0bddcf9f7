//! What the edit of a finished compaction leaves of a directory (LevelDB's db/db_impl.cc,
//! InstallCompactionResults).

ghost use Rattle.directory_writes.specs.internal.Compactions.{OutputsLaw, ReplacesLaw, JobFoldsLaw, JobDoneLaw};
ghost use Rattle.directory_writes.specs.internal.Compactions.{UnusedLaw, JobPutLaw, JobApartLaw, DeepLaw};

/// Proves that what a job has written are tables of its level, which have what it kept.
pub fn outputs_law()
    ensures { OutputsLaw }
{}

/// Proves that the edit of a job takes its inputs out of a layout's tables, and puts its outputs
/// in.
pub fn replaces_law()
    ensures { ReplacesLaw }
{}

/// Proves that what layout the edit of a job leaves.
pub fn job_folds_law()
    ensures { JobFoldsLaw }
{}

/// Proves that the edit of a job that is done is a compaction of the directory: its outputs, with
/// what must be kept of its inputs, replace these.
pub fn job_done_law()
    ensures { JobDoneLaw }
{}

/// Proves that tables that a job wrote are new to a layout that has none of the job's numbers.
pub fn unused_law()
    ensures { UnusedLaw }
{}

/// Proves that with the edit at the end of the MANIFEST the directory is consistent, and readers
/// see what they saw.
pub fn job_put_law()
    ensures { JobPutLaw }
{}

/// Proves that what is no input of a job is newer than its inputs, or the job knows of its keys.
pub fn job_apart_law()
    ensures { JobApartLaw }
{}

/// Proves that a table below the level that a job writes covers the keys that it has.
pub fn deep_law()
    ensures { DeepLaw }
{}
