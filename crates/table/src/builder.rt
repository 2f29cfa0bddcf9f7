//! A table that is being written.

ghost use Rattle.std.specs.Prelude.{◌≡◌, ◌<◌, ◌≤◌, ◌^◌, ℕ, List, length, OnOk, IfErr};
ghost use Rattle.std.specs.Option.{ForSome};
ghost use Rattle.block.specs.Built.{written_length};
ghost use Rattle.block.specs.Written.{last_key};
ghost use Rattle.filter.specs.Builder.{GivesUpOnly};
ghost use Rattle.ikey.specs.Below.{IsBelowInternal};
ghost use Rattle.table.specs.Steps.{MayAdd, with_pair};
ghost use Rattle.table.specs.Stored.{IsHandle};

use crate::ends::put_ends;
use crate::handle::{Handle, put_handle};
use crate::stored::{TRAILER_LENGTH, put_trailer};
use crate::writing::{append, create};
use block::{BlockBuilder, MAX_BLOCK_LENGTH};
use coding::{DbError, Feature};
use filter::{FilterBuilder, added_is_admitted, written_is_read};
use ikey::{Internal, KeyOrder, unpack};
use std::alloc::{AllocError, Global};
use std::marker::Model;
use std::mem;
use store::Store;

// A restart stands at every so many entries of a data block (LevelDB's include/leveldb/options.h,
// block_restart_interval), and at each of an index.
const DATA_INTERVAL: usize = 16;

const INDEX_INTERVAL: usize = 1;

// A block's builder takes no more bytes than this.
const MAX_BUILT: usize = 1 << 31;

/// Writes a table (LevelDB's `table/table_builder.cc`), whose user keys are in the order K. Each
/// data block goes to the store when it is ended. What is kept of it is its place in the index and
/// four bytes of each of its user keys. Contracts see what is kept; `Builds` says which pairs were
/// added, over a store.
#[derive(Drop)]
pub struct TableBuilder<K: KeyOrder> {
    name: String,
    block_bytes: usize,
    created: bool,
    offset: u64,
    index: BlockBuilder<Internal<K>>,
    block: BlockBuilder<Internal<K>>,
    filter: FilterBuilder,
    // the memory of the block before, for the next one
    spare: Vec<u8>,
    alloc: Global,
}

impl<K: KeyOrder> Model for TableBuilder<K> {
    ghost use Rattle.std.specs.Prelude.{string_bytes};
    ghost use Rattle.table.specs.Building.{Building};
    ghost use Rattle.table.specs.Steps.{IsKept};

    ghost Value = { Building };

    ghost view = { λ b. record {
      name = string_bytes b.name;
      block_bytes = b.block_bytes;
      created = b.created;
      offset = b.offset;
      index = b.index.pairs;
      block = b.block.pairs;
      hashes = b.filter;
    } };

    ghost invariant = { λ b. IsKept K.cmp b.offset b.index b.block };
}

impl<K: KeyOrder> TableBuilder<K> {
    ghost use Rattle.std.specs.Prelude.{◌≡◌, ◌<◌, ◌≤◌, ◌^◌, ◌++◌, ◌∷◌, [], ℕ, List, Some, None, IsSome, IsTrue, IfOk, IfErr, OnOk, MatchBool, true, length};
    ghost use Rattle.filter.specs.Builder.{GivesUpOnly};
    ghost use Rattle.ikey.specs.Entries.{Pair};
    ghost use Rattle.block.specs.Written.{last_key};
    ghost use Rattle.store.specs.Files.{Facts};
    ghost use Rattle.table.specs.Building.{Building, Builds, IsPart, HasPart, MayFollow, last_added, data_size, data_length, EndsBlock};
    ghost use Rattle.table.specs.Reading.{HasFile};
    ghost use Rattle.table.specs.Steps.{IsPushed, IsEnded};
    ghost use Rattle.table.specs.Writing.{Writes, WriteRefuses, NeedsLongBlock, NeedsLongIndex, NeedsLongEnds, IsTableOf};

    /// Begins a table without entries, for a file of this name. A data block ends with the entry
    /// that brings it to `block_bytes` bytes (LevelDB's include/leveldb/options.h, block_size).
    pub fn new(alloc: Global, name: &str, block_bytes: usize) -> Result<Self, AllocError>
        ensures name { IfOk result (λ b. b.name ≡ name.now) }
        ensures block_bytes { IfOk result (λ b. b.block_bytes ≡ block_bytes) }
        ensures last { IfOk result (λ b. last_added b ≡ None) }
        ensures none { IfOk result (λ b. (facts : Facts) → Builds K.cmp b facts []) }
    {
        Ok(TableBuilder {
            name: String::from_str(alloc, name)?,
            block_bytes,
            created: false,
            offset: 0,
            index: BlockBuilder::new(alloc, INDEX_INTERVAL),
            block: BlockBuilder::new(alloc, DATA_INTERVAL),
            filter: FilterBuilder::new(alloc),
            spare: Vec::new(alloc),
            alloc,
        })
    }

    /// Returns whether no entry was added.
    pub fn is_empty(&self) -> bool
        ensures { MatchBool result (last_added self.now ≡ None) (IsSome (last_added self.now)) }
    {
        if !self.block.is_empty() {
            return false;
        }
        self.index.is_empty()
    }

    /// Returns whether the key is an internal key above the last one that was added, so that `add`
    /// may be called with it.
    pub fn accepts(&self, key: &[u8]) -> bool
        ensures { MatchBool result (MayFollow K.cmp self.now key.now) (MayFollow K.cmp self.now key.now → ⊥) }
    {
        if unpack(key).is_none() {
            return false;
        }
        if self.block.is_empty() {
            return self.index.is_above_last(key);
        }
        self.block.is_above_last(key)
    }

    /// Adds an entry, an internal key above the last one and its value, at the end. Callers that
    /// haven't compared the keys ask `accepts` first. The first entry creates or empties the file,
    /// and one that ends a data block appends it. Unsupported: a block would have more than 2^30
    /// bytes. After an `Err` the builder can't be used, and its file is part of a table.
    pub fn add<S: Store>(&mut self, store: &mut S, key: &[u8], value: &[u8]) -> Result<(), DbError>
        requires { MayFollow K.cmp self.old key.now }
        ensures name { self.new.name ≡ self.old.name }
        ensures last { OnOk result (last_added self.new ≡ Some key.now) }
        ensures block_bytes { OnOk result (self.new.block_bytes ≡ self.old.block_bytes) }
        ensures ended { OnOk result (EndsBlock self.old self.new (record { key = key.now; value = value.now })) }
        ensures writes { Writes (S.facts store.old) (S.facts store.new) self.old.name }
        ensures added { OnOk result ((pairs : List Pair) → IsTrue (S.facts store.new).faithful → Builds K.cmp self.old (S.facts store.old) pairs
            → Builds K.cmp self.new (S.facts store.new) (pairs ++ record { key = key.now; value = value.now } ∷ [])) }
        ensures stood { OnOk result ((S.facts store.new).failures ≡ (S.facts store.old).failures) }
        ensures refused { IfErr result (λ e. WriteRefuses e (S.facts store.old) (S.facts store.new)
            (NeedsLongBlock self.old (record { key = key.now; value = value.now }))) }
    {
        self.create_file(store)?;
        self.push(key, value)?;
        if self.is_full() {
            self.end_block(store)?;
        }
        Ok(())
    }

    /// Returns how many bytes the data blocks have, with type and checksum of each that was ended.
    /// The one at hand counts as it would be ended now, if it has an entry.
    pub fn size(&self) -> u64
        ensures { result ≡ data_size self.now }
    {
        if self.block.is_empty() {
            return self.offset;
        }
        self.offset + self.block.size() as u64
    }

    /// Ends the table, which has an entry, and returns how many bytes the file has. What wasn't
    /// appended yet is, so that the file is the table of the entries that were added. It isn't
    /// synced. Unsupported: a block would have more than 2^30 bytes.
    pub fn finish<S: Store>(self, alloc: Global, store: &mut S) -> Result<u64, DbError>
        requires some { IsSome (last_added self) }
        ensures writes { Writes (S.facts store.old) (S.facts store.new) self.name }
        ensures written { IfOk result (λ len. (pairs : List Pair) → IsTrue (S.facts store.new).faithful → Builds K.cmp self (S.facts store.old) pairs
            → (file : List ℕ) × HasFile (S.facts store.new) self.name file × (len ≡ length file) × IsTableOf K.cmp file pairs) }
        ensures stood { OnOk result ((S.facts store.new).failures ≡ (S.facts store.old).failures) }
        ensures refused { IfErr result (λ e. WriteRefuses e (S.facts store.old) (S.facts store.new) (NeedsLongEnds self)) }
    {
        let mut builder = self;
        builder.end_last_block(store)?;
        // Laws, for the proof alone.
        written_is_read();
        added_is_admitted();
        let filter = builder.filter.finish(alloc)?;
        let index = builder.index.finish()?;
        let mut ends = Vec::new(alloc);
        put_ends(alloc, &mut ends, builder.offset, &filter, &index)?;
        append(store, &builder.name, &ends)?;
        Ok(builder.offset + ends.len() as u64)
    }

    // Whether the block at hand is to be ended, which has an entry.
    fn is_full(&self) -> bool
        ensures { MatchBool result (self.now.block_bytes ≤ data_length self.now.block) (data_length self.now.block < self.now.block_bytes) }
    {
        self.block.size() >= self.block_bytes
    }

    // Creates the file, if that wasn't done.
    fn create_file<S: Store>(&mut self, store: &mut S) -> Result<(), DbError>
        ensures kept { self.new ≡ record self.old { created = self.new.created } }
        ensures writes { Writes (S.facts store.old) (S.facts store.new) self.old.name }
        ensures created { OnOk result (IsTrue (S.facts store.new).faithful → (file : List ℕ) → HasPart self.old (S.facts store.old) file
            → (self.new.created ≡ true) × HasFile (S.facts store.new) self.old.name file) }
        ensures stood { OnOk result ((S.facts store.new).failures ≡ (S.facts store.old).failures) }
        ensures refused { IfErr result (λ e. WriteRefuses e (S.facts store.old) (S.facts store.new) ⊥) }
    {
        if !self.created {
            create(store, &self.name)?;
            self.created = true;
        }
        Ok(())
    }

    // Adds an entry to the block at hand, and its user key to the filter.
    fn push(&mut self, key: &[u8], value: &[u8]) -> Result<(), DbError>
        requires { MayFollow K.cmp self.old key.now }
        ensures name { self.new.name ≡ self.old.name }
        ensures pushed { OnOk result (IsPushed self.old self.new (record { key = key.now; value = value.now })) }
        ensures refused { IfErr result (λ e. GivesUpOnly e (2 ^ 30 < data_length (self.old.block ++ record { key = key.now; value = value.now } ∷ []))) }
    {
        let Some(parts) = unpack(key) else {
            unreachable!()
        };
        add_entry(&mut self.block, key, value)?;
        self.filter.add(self.offset, parts.user)?;
        Ok(())
    }

    // Ends the block at hand if it has an entry.
    fn end_last_block<S: Store>(&mut self, store: &mut S) -> Result<(), DbError>
        ensures name { self.new.name ≡ self.old.name }
        ensures hashes { OnOk result (self.new.hashes ≡ self.old.hashes) }
        ensures none { OnOk result (self.new.block ≡ []) }
        ensures writes { Writes (S.facts store.old) (S.facts store.new) self.old.name }
        ensures whole { OnOk result ((pairs : List Pair) → IsTrue (S.facts store.new).faithful → IsSome (last_added self.old) → Builds K.cmp self.old (S.facts store.old) pairs
            → (file : List ℕ) × HasFile (S.facts store.new) self.old.name file × IsPart K.cmp self.new file pairs) }
        ensures stood { OnOk result ((S.facts store.new).failures ≡ (S.facts store.old).failures) }
        ensures refused { IfErr result (λ e. WriteRefuses e (S.facts store.old) (S.facts store.new) (NeedsLongIndex self.old self.old.block)) }
    {
        if self.block.is_empty() {
            return Ok(());
        }
        self.end_block(store)?;
        Ok(())
    }

    // Ends the block at hand, which has an entry: it is appended to the file, and its place is
    // kept.
    fn end_block<S: Store>(&mut self, store: &mut S) -> Result<(), DbError>
        requires some { IsSome (last_key self.old.block) }
        ensures name { self.new.name ≡ self.old.name }
        ensures writes { Writes (S.facts store.old) (S.facts store.new) self.old.name }
        ensures ended { OnOk result (IsEnded K.cmp self.old self.new (S.facts store.old) (S.facts store.new)) }
        ensures stood { OnOk result ((S.facts store.new).failures ≡ (S.facts store.old).failures) }
        ensures refused { IfErr result (λ e. WriteRefuses e (S.facts store.old) (S.facts store.new) (NeedsLongIndex self.old self.old.block)) }
    {
        let room = mem::replace(&mut self.spare, Vec::new(self.alloc));
        let next = BlockBuilder::reusing(self.alloc, DATA_INTERVAL, room);
        let block = mem::replace(&mut self.block, next);
        let handle = Handle {
            offset: self.offset,
            size: block.size() as u64,
        };
        push_place(self.alloc, &mut self.index, block.last_key(), handle)?;
        let mut bytes = block.finish()?;
        put_trailer(&mut bytes)?;
        append(store, &self.name, &bytes)?;
        self.offset = handle.offset + (handle.size + TRAILER_LENGTH as u64);
        self.spare = bytes;
        Ok(())
    }
}

// Adds the place of a data block to the index. One that isn't supported may have been added.
fn push_place<K: KeyOrder>(
    alloc: Global,
    index: &mut BlockBuilder<Internal<K>>,
    key: &[u8],
    handle: Handle,
) -> Result<(), DbError>
    requires rises { ForSome (last_key index.old.pairs) (λ last. IsBelowInternal K.cmp last key.now) }
    ensures added { OnOk result ((value : List ℕ) × IsHandle value handle × (index.new ≡ with_pair index.old (record { key = key.now; value = value }))
        × (written_length index.new ≤ 2 ^ 30)) }
    ensures kept { (value : List ℕ) × MayAdd index.old index.new (record { key = key.now; value = value }) }
    ensures few { length index.old.pairs ≤ 2 ^ 31 → length index.new.pairs ≤ 2 ^ 31 }
    ensures refused { IfErr result (λ e. GivesUpOnly e ((value : List ℕ) × IsHandle value handle
        × (2 ^ 30 < written_length (with_pair index.old (record { key = key.now; value = value }))))) }
{
    let mut value = Vec::new(alloc);
    put_handle(&mut value, handle)?;
    add_entry(index, key, &value)
}

// Adds an entry to a block. One that isn't supported may have been added.
fn add_entry<K: KeyOrder>(
    block: &mut BlockBuilder<Internal<K>>,
    key: &[u8],
    value: &[u8],
) -> Result<(), DbError>
    requires rises { ForSome (last_key block.old.pairs) (λ last. IsBelowInternal K.cmp last key.now) }
    ensures added { OnOk result (block.new ≡ with_pair block.old (record { key = key.now; value = value.now })) }
    ensures short { OnOk result (written_length block.new ≤ 2 ^ 30) }
    ensures kept { MayAdd block.old block.new (record { key = key.now; value = value.now }) }
    ensures few { length block.old.pairs ≤ 2 ^ 31 → length block.new.pairs ≤ 2 ^ 31 }
    ensures refused { IfErr result (λ e. GivesUpOnly e (2 ^ 30 < written_length (with_pair block.old (record { key = key.now; value = value.now })))) }
{
    let room = block
        .size()
        .saturating_add(key.len())
        .saturating_add(value.len());
    if room > MAX_BUILT {
        return Err(DbError::Unsupported(Feature::BlockSize));
    }
    block.add(key, value)?;
    if block.size() > MAX_BLOCK_LENGTH {
        return Err(DbError::Unsupported(Feature::BlockSize));
    }
    Ok(())
}
