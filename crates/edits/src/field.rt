//! The fields of version edits (LevelDB's db/version_edit.h and db/version_edit.cc).

use coding::Bytes;

/// Describes a table file, as an edit does (LevelDB's db/version_edit.h, `FileMetaData`).
#[derive(Debug, Drop)]
pub struct TableFile {
    /// The number in its name, from 1 on.
    pub number: u64,
    /// How many bytes the file has.
    pub size: u64,
    /// Its smallest internal key.
    pub smallest: Bytes,
    /// Its largest internal key.
    pub largest: Bytes,
}

/// Holds a table file at its level.
#[derive(Debug, Drop)]
pub struct PlacedTable {
    /// From 0 to 6.
    pub level: u32,
    /// The file.
    pub table: TableFile,
}

/// Holds a field of an edit (LevelDB's db/version_edit.cc, `enum Tag`). Levels are 0 to 6.
#[derive(Debug, Drop)]
pub enum Field {
    /// Tag 1: the name of the order of keys.
    Comparator(Bytes),
    /// Tag 2: logs of this number and above are in use.
    LogNumber(u64),
    /// Tag 3: no file has this number or one above it yet.
    NextFileNumber(u64),
    /// Tag 4: the last sequence number that is used, below 2^56.
    LastSequence(u64),
    /// Tag 5: the internal key after which the next compaction of the level begins.
    CompactPointer(u32, Bytes),
    /// Tag 6: the table of this level and number is gone.
    DeletedFile(u32, u64),
    /// Tag 7: a table is at the level from now on.
    NewFile(PlacedTable),
    /// Tag 9: the number of one more log that is in use, or 0.
    PreviousLogNumber(u64),
}
