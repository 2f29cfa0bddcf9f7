//! Exit statuses, and how many blocks are kept.

use std::num::NonZeroUsize;

/// All that was asked for was told.
pub const FOUND: u8 = 0;

/// The directory was refused.
pub const REFUSED: u8 = 1;

/// The key has no value.
pub const NONE: u8 = 4;

// How many blocks of tables are kept in memory, as they are read: as many as of a database that is
// opened.
const BLOCKS: usize = 1024;

/// Returns how many blocks a reader keeps.
pub fn cache_blocks() -> NonZeroUsize {
    NonZeroUsize::new(BLOCKS).unwrap_or(NonZeroUsize::MIN)
}
