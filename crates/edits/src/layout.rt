//! What the edits of a MANIFEST add up to (LevelDB's doc/impl.md, "Manifest").

use crate::field::PlacedTable;
use coding::Bytes;

/// Counts the levels, 0 to 6 (LevelDB's db/dbformat.h, `kNumLevels`).
pub const LEVELS: u32 = 7;

/// Holds the files that make up a database, and the numbers that go with them (LevelDB's
/// db/version_set.h, `VersionSet`).
#[derive(Debug, Drop)]
pub struct Layout {
    /// Logs of this number and above are in use.
    pub log_number: u64,
    /// One more log that is in use, or 0.
    pub previous_log_number: u64,
    /// No file has this number or one above it.
    pub next_file_number: u64,
    /// The last sequence number that was used when the last edit was written.
    pub last_sequence: u64,
    /// For each of the seven levels, the internal key after which its next compaction begins.
    pub compact_pointers: Vec<Option<Bytes>>,
    /// The tables, by level and then by number.
    pub tables: Vec<PlacedTable>,
}
