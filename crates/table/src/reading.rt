//! Reading parts of a table file from a store.

ghost use Rattle.std.specs.Prelude.{◌≡◌, ◌<◌, ◌≤◌, ◌+◌, ◌^◌, ℕ, List, length, take, drop, IfOk, IfErr, OnOk, MatchBool, IsTrue};
ghost use Rattle.block.specs.Block.{Refuses as RefusesBlock};
ghost use Rattle.table.specs.Refusals.{IsUnsupported};
ghost use Rattle.table.specs.Reading.{Reads, Finds, Refuses, refusal_of, table_refusal, IsNoted};
ghost use Rattle.table.specs.Stored.{IsStored, end_of};

use crate::handle::Handle;
use crate::noting::{refuse_call, refuse_cut, refuse_length, refuse_stored};
use crate::stored::{TRAILER_LENGTH, stored_block};
use block::MAX_BLOCK_LENGTH;
use coding::{Damage, DbError, Feature, FileKind, ReadError};
use std::alloc::Global;
use store::{Store, StoreError};

/// Returns the error that a call that reads a table gives for one of the store.
pub fn refusal(e: StoreError) -> DbError
    ensures { result ≡ refusal_of e }
{
    match e {
        StoreError::Memory => DbError::OutOfMemory,
        StoreError::Missing => DbError::Corrupt(FileKind::Table, Damage::Missing),
        StoreError::Device => DbError::Io,
    }
}

/// Returns the error for bytes of a table.
pub fn table_refusal(e: ReadError) -> DbError
    ensures { result ≡ table_refusal e }
{
    match e {
        ReadError::Memory => DbError::OutOfMemory,
        ReadError::Corrupt(what) => DbError::Corrupt(FileKind::Table, what),
        ReadError::Unsupported(what) => DbError::Unsupported(what),
    }
}

/// Returns how many bytes the file has. Corrupt: it isn't there.
pub fn file_length<S: Store>(store: &mut S, name: &str) -> Result<u64, DbError>
    ensures reads { Reads (S.facts store.old) (S.facts store.new) }
    ensures found { IfOk result (λ len. Finds (S.facts store.old) (S.facts store.new) name.now (λ file. len ≡ length file)) }
    ensures stood { OnOk result ((S.facts store.new).failures ≡ (S.facts store.old).failures) }
    ensures noted { IfErr result (λ e. IsNoted name.now e (S.told store.new)) }
    ensures refused { IfErr result (λ e. Refuses e (S.facts store.old) (S.facts store.new) name.now (λ file. ⊥) (λ file. ⊥)) }
{
    match store.len(name) {
        Ok(len) => Ok(len),
        Err(e) => Err(refuse_call(store, name, e)),
    }
}

/// Reads so many bytes of the file from an offset on, by `Store::read_into`. Corrupt: there are
/// fewer.
pub fn read_part<S: Store>(
    alloc: Global,
    store: &mut S,
    name: &str,
    offset: u64,
    count: usize,
    room: Vec<u8>,
) -> Result<Vec<u8>, DbError>
    ensures reads { Reads (S.facts store.old) (S.facts store.new) }
    ensures length { IfOk result (λ bytes. length bytes.items ≡ count) }
    ensures found { IfOk result (λ bytes. Finds (S.facts store.old) (S.facts store.new) name.now (λ file. bytes.items ≡ take count (drop offset file))) }
    ensures stood { OnOk result ((S.facts store.new).failures ≡ (S.facts store.old).failures) }
    ensures noted { IfErr result (λ e. IsNoted name.now e (S.told store.new)) }
    ensures refused { IfErr result (λ e. Refuses e (S.facts store.old) (S.facts store.new) name.now (λ file. length file < offset + count) (λ file. ⊥)) }
{
    match store.read_into(alloc, name, offset, count, room) {
        Ok(bytes) => {
            if bytes.len() != count {
                return Err(refuse_cut(store, name, offset, bytes.len(), count));
            }
            Ok(bytes)
        }
        Err(e) => Err(refuse_call(store, name, e)),
    }
}

/// Reads the block that the file has at a handle, into `room` if it fits, and compares its checksum
/// and then its type. No memory is taken before the file is known to have that many bytes. The
/// caller knows of `known` bytes; if the block doesn't end within these, the store is asked.
/// Unsupported: it has more than 2^30 bytes.
pub fn read_stored<S: Store>(
    alloc: Global,
    store: &mut S,
    name: &str,
    known: u64,
    handle: Handle,
    room: Vec<u8>,
) -> Result<Vec<u8>, DbError>
    ensures reads { Reads (S.facts store.old) (S.facts store.new) }
    ensures found { IfOk result (λ block. Finds (S.facts store.old) (S.facts store.new) name.now (λ file. IsStored file handle block.items)) }
    ensures short { IfOk result (λ block. length block.items ≤ 2 ^ 30) }
    ensures size { OnOk result (handle.size ≤ 2 ^ 30) }
    ensures stood { OnOk result ((S.facts store.new).failures ≡ (S.facts store.old).failures) }
    ensures noted { IfErr result (λ e. IsNoted name.now e (S.told store.new)) }
    ensures refused { IfErr result (λ e. Refuses e (S.facts store.old) (S.facts store.new) name.now
        (λ file. ((block : List ℕ) → IsStored file handle block → ⊥) × (IsUnsupported file handle → ⊥)) (λ file. IsUnsupported file handle)) }
{
    let count = known_length(store, name, known, handle)?;
    let mut bytes = read_part(alloc, store, name, handle.offset, count, room)?;
    let size = match stored_block(&bytes) {
        Ok(block) => block.len(),
        Err(e) => return Err(refuse_stored(store, name, handle.offset, &bytes, e)),
    };
    bytes.truncate(size);
    Ok(bytes)
}

// How many bytes the block at a handle takes in the file, with its trailer.
fn known_length<S: Store>(
    store: &mut S,
    name: &str,
    known: u64,
    handle: Handle,
) -> Result<usize, DbError>
    ensures reads { Reads (S.facts store.old) (S.facts store.new) }
    ensures count { IfOk result (λ count. count ≡ handle.size + 5) }
    ensures short { OnOk result (handle.size ≤ 2 ^ 30) }
    ensures stood { OnOk result ((S.facts store.new).failures ≡ (S.facts store.old).failures) }
    ensures noted { IfErr result (λ e. IsNoted name.now e (S.told store.new)) }
    ensures refused { IfErr result (λ e. Refuses e (S.facts store.old) (S.facts store.new) name.now
        (λ file. length file < end_of handle) (λ file. (end_of handle ≤ length file) × (2 ^ 30 < handle.size))) }
{
    if let Ok(count) = stored_length(handle, known) {
        return Ok(count);
    }
    let len = file_length(store, name)?;
    match stored_length(handle, len) {
        Ok(count) => Ok(count),
        Err(e) => Err(refuse_length(store, name, handle, len, e)),
    }
}

// How many bytes the block at a handle takes in a file of this length, with its trailer.
fn stored_length(handle: Handle, len: u64) -> Result<usize, ReadError>
    ensures count { IfOk result (λ count. count ≡ handle.size + 5) }
    ensures inside { OnOk result (end_of handle ≤ len) }
    ensures short { OnOk result (handle.size ≤ 2 ^ 30) }
    ensures refused { IfErr result (λ e. RefusesBlock e (len < end_of handle) ((end_of handle ≤ len) × (2 ^ 30 < handle.size))) }
{
    let room = len.saturating_sub(handle.offset);
    let trailer = TRAILER_LENGTH as u64;
    if room < trailer || handle.size > room - trailer {
        return Err(ReadError::Corrupt(Damage::Length));
    }
    if handle.size > MAX_BLOCK_LENGTH as u64 {
        return Err(ReadError::Unsupported(Feature::BlockSize));
    }
    Ok(handle.size as usize + TRAILER_LENGTH)
}
