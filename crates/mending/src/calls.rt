//! Calls of the store that only read, with the database's refusals.

ghost use Rattle.std.specs.Prelude.{◌≡◌, List, ℕ, IfOk, IfErr, IsTrue, map, option_map, string_bytes};
ghost use Rattle.std.specs.FinMap.{get};
ghost use Rattle.store.specs.Files.{Lists};
ghost use Rattle.mending.specs.Calls.{Reads, RefusesMend, in_file};

use coding::{DbError, FileKind, ReadError};
use std::alloc::Global;
use store::{Store, StoreError};

/// Returns the names of all files.
pub fn list_names<S: Store>(alloc: Global, store: &mut S) -> Result<Vec<String>, DbError>
    ensures reads { Reads (S.facts store.old) (S.facts store.new) }
    ensures names { IfOk result (λ names. IsTrue (S.facts store.new).faithful
        → Lists (S.facts store.old).files (map string_bytes names.items)) }
    ensures refused { IfErr result (λ error. RefusesMend error (S.facts store.old) (S.facts store.new) ⊥ ⊥) }
{
    match store.list(alloc) {
        Ok(names) => Ok(names),
        Err(StoreError::Memory) => Err(DbError::OutOfMemory),
        Err(StoreError::Device) => Err(DbError::Io),
        Err(StoreError::Missing) => unreachable!(),
    }
}

/// Returns all bytes of a file, or None if it isn't there.
pub fn read_file<S: Store>(
    alloc: Global,
    store: &mut S,
    name: &str,
) -> Result<Option<Vec<u8>>, DbError>
    ensures reads { Reads (S.facts store.old) (S.facts store.new) }
    ensures found { IfOk result (λ read. IsTrue (S.facts store.new).faithful
        → option_map (λ bytes. bytes.items) read ≡ get (S.facts store.old).files name.now) }
    ensures refused { IfErr result (λ error. RefusesMend error (S.facts store.old) (S.facts store.new) ⊥ ⊥) }
{
    let size = match store.len(name) {
        Ok(size) => size,
        Err(StoreError::Memory) => return Err(DbError::OutOfMemory),
        Err(StoreError::Missing) => return Ok(None),
        Err(StoreError::Device) => return Err(DbError::Io),
    };
    match store.read_at(alloc, name, 0, size as usize) {
        Ok(bytes) => Ok(Some(bytes)),
        Err(StoreError::Memory) => Err(DbError::OutOfMemory),
        Err(StoreError::Missing) => Ok(None),
        Err(StoreError::Device) => Err(DbError::Io),
    }
}

/// Returns the refusal of a reader whose bytes are those of a file of this kind.
pub fn refusal_in(kind: FileKind, error: ReadError) -> DbError
    ensures { result ≡ in_file kind error }
{
    match error {
        ReadError::Memory => DbError::OutOfMemory,
        ReadError::Corrupt(what) => DbError::Corrupt(kind, what),
        ReadError::Unsupported(what) => DbError::Unsupported(what),
    }
}
