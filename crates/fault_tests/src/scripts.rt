//! The scripts, with the options that they run under.
use crate::lines::*;
use engine::{Mode, Options};

/// A script. It ends with the database closed, or still open.
#[derive(Clone, Copy)]
pub struct Script {
    pub sizes: Sizes,
    pub lines: &'static [Line],
}

/// The bytes of a memtable and of a file, the files of level 0, and the bytes of level 1.
#[derive(Clone, Copy)]
pub struct Sizes {
    pub write_buffer: u64,
    pub file_bytes: u64,
    pub level0_files: u64,
    pub base_bytes: u64,
}

/// LevelDB's own.
pub const DEFAULTS: Sizes = Sizes {
    write_buffer: 4_194_304,
    file_bytes: 2_097_152,
    level0_files: 4,
    base_bytes: 10_485_760,
};

// A memtable is sealed by its first entry, and five files of level 0 are compacted.
const FIVE_FILES: Sizes = Sizes {
    write_buffer: 1,
    file_bytes: 2_097_152,
    level0_files: 5,
    base_bytes: 10_485_760,
};

// Each table has one entry, and level 1 has room for two.
const SMALL: Sizes = Sizes {
    write_buffer: 1,
    file_bytes: 1,
    level0_files: 1,
    base_bytes: 400,
};

/// Returns the options of these sizes.
pub fn options_of(sizes: Sizes) -> Option<Options> {
    Options::new(
        sizes.write_buffer,
        4_096,
        sizes.file_bytes,
        sizes.level0_files,
        sizes.base_bytes,
        1_024,
    )
}

/// A batch that writes a key three times.
pub const BATCH: Script = Script {
    sizes: DEFAULTS,
    lines: &[
        Line::Open(Mode::Any),
        Line::Write(&[(A, Some(b'1')), (A, None), (A, Some(b'2'))]),
        Line::Get(A),
    ],
};

/// An iterator over a memtable that grows and is compacted beneath it.
pub const ITERATOR: Script = Script {
    sizes: DEFAULTS,
    lines: &[
        Line::Open(Mode::Any),
        Line::Write(&[(A, Some(b'1'))]),
        Line::Write(&[(B, Some(b'2'))]),
        Line::Write(&[(C, Some(b'3'))]),
        Line::Iterate,
        Line::Seek(1, B),
        Line::Write(&[(BB, Some(b'4'))]),
        Line::Write(&[(C, None)]),
        Line::CompactAll,
        Line::Next(1),
        Line::Next(1),
        Line::Next(1),
    ],
};

/// Five tables, and a compaction of them in steps, with a write between two of these.
pub const STEPS: Script = Script {
    sizes: FIVE_FILES,
    lines: &[
        Line::Open(Mode::Any),
        Line::Write(&[(A, Some(b'1'))]),
        Line::Work(9),
        Line::Work(9),
        Line::Write(&[(B, Some(b'2'))]),
        Line::Work(9),
        Line::Work(9),
        Line::Write(&[(C, Some(b'3'))]),
        Line::Work(9),
        Line::Work(9),
        Line::Write(&[(D, Some(b'4'))]),
        Line::Work(9),
        Line::Work(9),
        Line::Write(&[(E, Some(b'5'))]),
        Line::Work(9),
        Line::Work(9),
        Line::Work(1),
        Line::Snapshot,
        Line::Write(&[(A, Some(b'9'))]),
        Line::Work(1),
        Line::Work(1),
        Line::Work(1),
        Line::Work(1),
        Line::GetAt(A, 1),
        Line::Get(A),
        Line::Work(1),
        Line::Work(1),
        Line::Work(1),
    ],
};

/// Two tables, which go down two levels, one in each call.
pub const BY_LEVEL: Script = Script {
    sizes: FIVE_FILES,
    lines: &[
        Line::Open(Mode::Any),
        Line::Write(&[(A, Some(b'1'))]),
        Line::Work(9),
        Line::Work(9),
        Line::Write(&[(A, None), (B, Some(b'2'))]),
        Line::Work(9),
        Line::Work(9),
        Line::CompactLevel(0),
        Line::Get(A),
        Line::CompactLevel(1),
        Line::Get(A),
        Line::Get(B),
    ],
};

/// A compaction of what two snapshots see.
pub const SNAPSHOTS: Script = Script {
    sizes: DEFAULTS,
    lines: &[
        Line::Open(Mode::Any),
        Line::Write(&[(A, Some(b'1'))]),
        Line::Snapshot,
        Line::Write(&[(A, Some(b'2'))]),
        Line::Write(&[(A, Some(b'3'))]),
        Line::Snapshot,
        Line::Write(&[(A, None)]),
        Line::CompactAll,
        Line::GetAt(A, 1),
        Line::GetAt(A, 2),
        Line::Get(A),
        Line::Close,
    ],
};

/// An iterator over a table and a memtable, which turns.
pub const TURNS: Script = Script {
    sizes: DEFAULTS,
    lines: &[
        Line::Open(Mode::Any),
        Line::Write(&[(A, Some(b'1'))]),
        Line::Write(&[(C, Some(b'3'))]),
        Line::CompactAll,
        Line::Write(&[(B, Some(b'2'))]),
        Line::Iterate,
        Line::Seek(1, B),
        Line::Next(1),
        Line::Prev(1),
        Line::Prev(1),
        Line::Prev(1),
        Line::Prev(1),
    ],
};

/// Tables of one entry each, which go down two levels.
pub const LEVELS: Script = Script {
    sizes: SMALL,
    lines: &[
        Line::Open(Mode::Any),
        Line::Write(&[(A, Some(b'1')), (B, Some(b'2')), (C, Some(b'3'))]),
        Line::Work(9),
        Line::Work(9),
        Line::Work(9),
        Line::Work(9),
        Line::Work(9),
        Line::Write(&[(D, Some(b'4'))]),
        Line::Work(9),
        Line::Work(9),
        Line::Work(9),
        Line::Work(9),
        Line::Work(9),
        Line::Close,
    ],
};

/// Puts, of which the second is the one that fails or is stopped at.
pub const PUTS: Script = Script {
    sizes: DEFAULTS,
    lines: &[
        Line::Open(Mode::New),
        Line::Write(&[(A, Some(b'1'))]),
        Line::Write(&[(B, Some(b'2'))]),
        Line::Write(&[(C, Some(b'3'))]),
        Line::Close,
    ],
};

/// What follows where the second put failed: some opens, and a put between them.
pub const OPENS: Script = Script {
    sizes: DEFAULTS,
    lines: &[
        Line::Open(Mode::Existing),
        Line::Get(A),
        Line::Get(B),
        Line::Write(&[(D, Some(b'4'))]),
        Line::Close,
        Line::Open(Mode::Existing),
        Line::Close,
        Line::Open(Mode::Existing),
        Line::Get(A),
        Line::Get(B),
        Line::Get(D),
    ],
};
