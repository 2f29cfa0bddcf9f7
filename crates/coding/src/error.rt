//! Why bytes weren't read, and why calls were refused. All of it is small enums that take no
//! memory.

ghost use Rattle.std.specs.Prelude.{◌≡◌};
ghost use Rattle.coding.specs.declared.error.ReadError.TheVariants.{Memory};
ghost use Rattle.coding.specs.declared.error.DbError.TheVariants.{OutOfMemory};

use std::alloc::{AllocError, AllocFailed};
use thiserror::Error;

/// Tells which kind of file was found damaged (the names of LevelDB's `doc/impl.md`).
#[derive(Clone, Copy, Debug, PartialEq, Eq)]
pub enum FileKind {
    /// `CURRENT`, which names the current manifest.
    Current,
    /// A manifest: the log of version edits.
    Manifest,
    /// A log of write batches.
    Log,
    /// A table of sorted entries.
    Table,
    /// The directory as a whole: files that are missing, or that don't fit together.
    Directory,
}

/// Tells what in the bytes or files contradicts the format.
#[derive(Clone, Copy, Debug, PartialEq, Eq)]
pub enum Damage {
    /// The bytes end too soon, or a length runs past its end.
    Length,
    /// A checksum isn't that of its bytes.
    Checksum,
    /// A tag, a kind or a type that the format doesn't know.
    Kind,
    /// A number that isn't in its shortest encoding, or out of its range.
    Number,
    /// Parts in an order that the format rules out.
    Order,
    /// Bytes other than zero where zeros belong.
    Padding,
    /// A file or a field that must be there is missing.
    Missing,
}

/// Tells what LevelDB's format allows and this database leaves out, or what is past one of its
/// limits.
#[derive(Clone, Copy, Debug, PartialEq, Eq)]
pub enum Feature {
    /// A block whose type byte isn't 0: it is compressed.
    BlockType,
    /// A key order other than the one that the database was opened with.
    Comparator,
    /// A block of more than 2^30 bytes.
    BlockSize,
    /// A table whose number is 2^62 or more.
    TableNumber,
    /// A table at all. Nothing answers it any more: it is from before the database read tables.
    Tables,
}

/// Tells why bytes weren't read. It doesn't name the file: the layer that knows it makes a
/// `DbError` of this.
#[derive(Clone, Copy, Debug, PartialEq, Eq)]
pub enum ReadError {
    /// There was no memory for what was to be read. It says nothing of the bytes.
    Memory,
    /// The bytes contradict the format.
    Corrupt(Damage),
    /// The bytes ask for what is left out, or pass a limit.
    Unsupported(Feature),
}

/// Tells why a call failed. Each error has a number and a name, by which scripts and reports know
/// it; LevelDB's `include/leveldb/status.h` has five codes for the same.
#[derive(Clone, Copy, Debug, PartialEq, Eq, Error)]
pub enum DbError {
    /// Something had to grow, and there was no memory for it.
    #[error("out of memory")]
    OutOfMemory,
    /// A call of the store failed: its count of failures rose during this call.
    #[error("the store failed")]
    Io,
    /// A database was to be opened that must exist, and doesn't.
    #[error("there is no database")]
    NoDatabase,
    /// A new database was to be made, and there is a `CURRENT` already.
    #[error("there is a database already")]
    Exists,
    /// Bytes or files contradict the format: which kind of file, and in what way.
    #[error("a file is damaged: {0:?}, {1:?}")]
    Corrupt(FileKind, Damage),
    /// A file asks for what is left out, or passes a limit.
    #[error("not supported: {0:?}")]
    Unsupported(Feature),
    /// The store failed to write in an earlier call on this open database, so what its files hold
    /// isn't known. Only closing it helps, and opening it again.
    #[error("an earlier failure broke the open database")]
    Broken,
    /// No snapshot with this id is held.
    #[error("no such snapshot")]
    NoSnapshot,
    /// No iterator with this id is held.
    #[error("no such iterator")]
    NoIterator,
    /// A step forth or back of an iterator that stands at no entry.
    #[error("the iterator stands nowhere")]
    NoPlace,
    /// A key to be written has more than 65,535 bytes.
    #[error("the key is too long")]
    KeyTooLong,
    /// A value to be written has more than 268,435,456 bytes.
    #[error("the value is too long")]
    ValueTooLong,
    /// A write batch would have more than 536,870,912 encoded bytes or 1,048,576 operations.
    #[error("the batch is too large")]
    BatchTooLarge,
    /// The operations of a batch would need a sequence number past 2^56 - 1, the largest that an
    /// internal key holds.
    #[error("the sequence numbers are used up")]
    SequenceFull,
    /// A file number of 2^62 or more would be needed, or an id of 2^64.
    #[error("the file numbers or ids are used up")]
    NumbersSpent,
    /// A call that needs an open database, while none is open.
    #[error("no database is open")]
    NotOpen,
    /// An `open` while a database is open.
    #[error("a database is open already")]
    AlreadyOpen,
    /// Another process holds the lock: the store's count of denied locks rose during this call.
    #[error("another holds the lock")]
    Locked,
    /// A compaction of a level outside 0 to 5: the last level, 6, has none below it.
    #[error("there is no such level to compact")]
    BadLevel,
    /// A line of a script that spells no command.
    #[error("the line is no command")]
    BadLine,
}

impl DbError {
    ghost use Rattle.coding.specs.Errors.{number_of, name_of};
    ghost use Rattle.std.specs.Prelude.{◌≡◌};

    /// Returns the number of the error, from 1 to 20, whatever the file and the damage. Numbers are
    /// never reused.
    pub fn number(&self) -> u8
        ensures { result ≡ number_of self.now }
    {
        match self {
            DbError::OutOfMemory => 1,
            DbError::Io => 2,
            DbError::NoDatabase => 3,
            DbError::Exists => 4,
            DbError::Corrupt(_, _) => 5,
            DbError::Unsupported(_) => 6,
            DbError::Broken => 7,
            DbError::NoSnapshot => 8,
            DbError::NoIterator => 9,
            DbError::NoPlace => 10,
            DbError::KeyTooLong => 11,
            DbError::ValueTooLong => 12,
            DbError::BatchTooLarge => 13,
            DbError::SequenceFull => 14,
            DbError::NumbersSpent => 15,
            DbError::NotOpen => 16,
            DbError::AlreadyOpen => 17,
            DbError::Locked => 18,
            DbError::BadLevel => 19,
            DbError::BadLine => 20,
        }
    }

    /// Returns the name of the error, as the variant is written, without the file and the damage.
    pub fn name(&self) -> &'static str
        ensures { result.now ≡ name_of self.now }
    {
        match self {
            DbError::OutOfMemory => "OutOfMemory",
            DbError::Io => "Io",
            DbError::NoDatabase => "NoDatabase",
            DbError::Exists => "Exists",
            DbError::Corrupt(_, _) => "Corrupt",
            DbError::Unsupported(_) => "Unsupported",
            DbError::Broken => "Broken",
            DbError::NoSnapshot => "NoSnapshot",
            DbError::NoIterator => "NoIterator",
            DbError::NoPlace => "NoPlace",
            DbError::KeyTooLong => "KeyTooLong",
            DbError::ValueTooLong => "ValueTooLong",
            DbError::BatchTooLarge => "BatchTooLarge",
            DbError::SequenceFull => "SequenceFull",
            DbError::NumbersSpent => "NumbersSpent",
            DbError::NotOpen => "NotOpen",
            DbError::AlreadyOpen => "AlreadyOpen",
            DbError::Locked => "Locked",
            DbError::BadLevel => "BadLevel",
            DbError::BadLine => "BadLine",
        }
    }
}

impl From<AllocError> for DbError {
    ghost from_gives = { λ _ e. e ≡ OutOfMemory };

    fn from(_e: AllocError) -> DbError {
        DbError::OutOfMemory
    }
}

impl<T: Drop> From<AllocFailed<T>> for DbError {
    ghost from_gives = { λ _ e. e ≡ OutOfMemory };

    fn from(_e: AllocFailed<T>) -> DbError {
        DbError::OutOfMemory
    }
}

impl From<AllocError> for ReadError {
    ghost from_gives = { λ _ e. e ≡ Memory };

    fn from(_e: AllocError) -> ReadError {
        ReadError::Memory
    }
}

impl<T: Drop> From<AllocFailed<T>> for ReadError {
    ghost from_gives = { λ _ e. e ≡ Memory };

    fn from(_e: AllocFailed<T>) -> ReadError {
        ReadError::Memory
    }
}
