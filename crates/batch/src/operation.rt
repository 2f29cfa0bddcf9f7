//! One operation of a batch.

use coding::Bytes;

/// Tells what a batch does to one key. LevelDB calls the two `kTypeValue` and `kTypeDeletion` (its
/// db/dbformat.h).
#[derive(Debug, Drop, PartialEq, Eq)]
pub enum Operation {
    /// A key, and the value that it has from then on.
    Put(Bytes, Bytes),
    /// A key that is removed.
    Delete(Bytes),
}
