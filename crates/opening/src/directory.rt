//! What an open database knows of its directory.

use directory_writes::CurrentManifest;
use edits::FileNumbers;

/// Holds what an open database knows of its directory, beside its tables and its current log
/// (LevelDB's db/version_set.h, the numbers of VersionSet).
#[derive(Drop)]
pub struct DirectoryState {
    /// The MANIFEST that `CURRENT` names.
    pub manifest: CurrentManifest,
    /// The numbers of new files.
    pub numbers: FileNumbers,
    /// The first of the logs that the next open reads.
    pub first_log: u64,
    /// One more log that it reads, or 0, as older writers left one.
    pub previous_log: u64,
}

/// Names the log that writes go to, which is the last of the directory.
#[derive(Debug, Drop)]
pub struct CurrentLog {
    /// Its file number.
    pub number: u64,
    /// The name of its file.
    pub name: String,
    /// Its length in bytes, where the next record begins.
    pub end: u64,
    /// The names of the earlier logs in use that may not be durable whole. An open found some, and
    /// syncs them before it ends. A seal left the others, and the next write syncs them first.
    pub front: Vec<String>,
}
