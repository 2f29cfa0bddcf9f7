//! Sequence numbers.

/// Limits sequence numbers: they are below this, since an internal key has seven bytes for one
/// (LevelDB's db/dbformat.h, `kMaxSequenceNumber`).
pub const SEQUENCE_END: u64 = 1 << 56;
