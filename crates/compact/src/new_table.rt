//! A table that a compaction writes.

ghost use Rattle.std.specs.Prelude.{◌≡◌, ◌<◌, ◌^◌, [], ℕ, List, length, IsTrue, IfOk, IfErr, OnOk};
ghost use Rattle.store.specs.Files.{Facts};
ghost use Rattle.store.specs.Losses.{behind_sync};
ghost use Rattle.std.specs.Option.{IsSome};
ghost use Rattle.ikey.specs.Entries.{Pair};
ghost use Rattle.table.specs.Building.{Builds, last_added};
ghost use Rattle.table.specs.Reading.{HasFile};
ghost use Rattle.table.specs.Writing.{Writes, IsTableOf, NeedsLongEnds};
ghost use Rattle.compact.specs.Outputs.{table_name, IsSynced, RefusesEntry};

use coding::{Bytes, Damage, DbError, FileKind};
use cursor::copy_to;
use edits::{FileName, TableFile, print_name};
use ikey::{KeyOrder, unpack};
use std::alloc::{AllocError, Global};
use std::marker::Model;
use store::Store;
use table::{TableBuilder, sync};

/// Holds a table that is being written, and what an edit will say of it.
#[derive(Drop)]
pub struct NewTable<K: KeyOrder> {
    number: u64,
    smallest: Bytes,
    largest: Vec<u8>,
    builder: TableBuilder<K>,
}

impl<K: KeyOrder> Model for NewTable<K> {
    ghost use Rattle.std.specs.Prelude.{◌≡◌, ◌<◌};
    ghost use Rattle.compact.specs.Outputs.{Filling, table_name};

    ghost Value = { Filling };

    ghost view = { λ t. record {
      number = t.number;
      smallest = t.smallest;
      largest = t.largest.items;
      building = t.builder;
    } };

    ghost invariant = { λ t. (0 < t.number) × (t.builder.name ≡ table_name t.number) };
}

impl<K: KeyOrder> NewTable<K> {
    ghost use Rattle.std.specs.Prelude.{◌≡◌, ◌≢◌, ◌<◌, ◌≤◌, ◌∷◌, ◌++◌, [], ℕ, List, IsTrue, IfSome, IfOk, IfErr, OnOk, MatchBool, MatchOption};
    ghost use Rattle.edits.specs.Edit.{IsInternal};
    ghost use Rattle.ikey.specs.Keys.{Key, IsKey};
    ghost use Rattle.ikey.specs.Entries.{Pair};
    ghost use Rattle.store.specs.Calls.{Idles};
    ghost use Rattle.store.specs.Files.{Facts};
    ghost use Rattle.store.specs.Losses.{behind_sync};
    ghost use Rattle.table.specs.Building.{MayFollow, Builds, data_size};
    ghost use Rattle.table.specs.Writing.{Writes, NeedsLongBlock, NeedsLongEnds};
    ghost use Rattle.compact.specs.Outputs.{table_name, IsFilling, IsSaidOf, IsSynced, ClosesTable, RefusesEntry};

    /// Begins a table of this number without entries, of which nothing is written yet. The first
    /// entry must have the smallest key.
    pub fn new(
        alloc: Global,
        number: u64,
        block_bytes: usize,
        smallest: &[u8],
    ) -> Result<Self, AllocError>
        requires { 0 < number }
        ensures number { IfOk result (λ table. table.number ≡ number) }
        ensures smallest { IfOk result (λ table. table.smallest ≡ smallest.now) }
        ensures none { IfOk result (λ table. (facts : Facts) → IsFilling K.cmp table facts []) }
    {
        let name = print_name(alloc, FileName::Table(number))?;
        Ok(NewTable {
            number,
            smallest: Bytes::copied_from(alloc, smallest)?,
            largest: Vec::from_slice(alloc, smallest)?,
            builder: TableBuilder::new(alloc, &name, block_bytes)?,
        })
    }

    /// Returns its number.
    pub fn number(&self) -> u64
        ensures { result ≡ self.now.number }
    {
        self.number
    }

    /// Adds an entry. Corrupt: its key isn't an internal key above the last one's. After an `Err`
    /// the table can't be used.
    pub fn add<S: Store>(&mut self, store: &mut S, key: &[u8], value: &[u8]) -> Result<(), DbError>
        ensures number { self.new.number ≡ self.old.number }
        ensures named { self.new.building.name ≡ table_name self.new.number }
        ensures smallest { self.new.smallest ≡ self.old.smallest }
        ensures largest { OnOk result (self.new.largest ≡ key.now) }
        ensures internal { OnOk result (IsInternal key.now) }
        ensures writes { Writes (S.facts store.old) (S.facts store.new) (table_name self.old.number) }
        ensures added { OnOk result ((pairs : List Pair) → IsTrue (S.facts store.new).faithful → (pairs ≡ [] → key.now ≡ self.old.smallest)
            → IsFilling K.cmp self.old (S.facts store.old) pairs
            → IsFilling K.cmp self.new (S.facts store.new) (pairs ++ record { key = key.now; value = value.now } ∷ [])) }
        ensures stood { OnOk result ((S.facts store.new).failures ≡ (S.facts store.old).failures) }
        ensures refused { IfErr result (λ e. RefusesEntry e (S.facts store.old) (S.facts store.new)
            (MayFollow K.cmp self.old.building key.now → ⊥)
            (NeedsLongBlock self.old.building (record { key = key.now; value = value.now })) ⊥) }
    {
        if !self.builder.accepts(key) {
            return Err(DbError::Corrupt(FileKind::Table, Damage::Order));
        }
        copy_to(&mut self.largest, key)?;
        self.builder.add(store, key, value)?;
        Ok(())
    }

    /// Returns whether the table ends before an entry of this user key: its data blocks have so
    /// many bytes, and its last entry is of another user key.
    pub fn ends_before(&self, user: &[u8], file_bytes: u64) -> bool
        ensures { MatchBool result ((file_bytes ≤ data_size self.now.building)
            × ((key : Key) → IsKey self.now.largest key → key.user ≢ user.now))
            (file_bytes ≤ data_size self.now.building → (key : Key) → IsKey self.now.largest key → key.user ≡ user.now) }
    {
        if self.builder.size() < file_bytes {
            return false;
        }
        let Some(last) = unpack(self.largest.as_slice()) else {
            return false;
        };
        if last.user == user {
            return false;
        }
        true
    }

    /// Ends the table, and syncs it. `None`: it has no entry.
    pub fn close<S: Store>(self, alloc: Global, store: &mut S) -> Result<Option<TableFile>, DbError>
        ensures writes { Writes (S.facts store.old) (S.facts store.new) (table_name self.number) }
        ensures closed { IfOk result (λ closed. (pairs : List Pair) → IsTrue (S.facts store.new).faithful
            → IsFilling K.cmp self (S.facts store.old) pairs
            → ClosesTable K.cmp (S.facts store.new) self.number pairs closed) }
        ensures said { IfOk result (λ closed. IfSome closed (IsSaidOf self)) }
        ensures synced { IfOk result (λ closed. IfSome closed (λ table. IsSynced (S.facts store.new) table.number)) }
        ensures ends { IfOk result (λ closed. IsTrue (S.facts store.new).faithful
            → MatchOption closed (Idles (S.facts store.old) (S.facts store.new)) (λ table. behind_sync [] (S.facts store.new).calls ≡ [])) }
        ensures stood { OnOk result ((S.facts store.new).failures ≡ (S.facts store.old).failures) }
        ensures refused { IfErr result (λ e. RefusesEntry e (S.facts store.old) (S.facts store.new)
            ⊥ (NeedsLongEnds self.building) ⊥) }
    {
        let NewTable {
            number,
            smallest,
            largest,
            builder,
        } = self;
        if builder.is_empty() {
            return Ok(None);
        }
        let size = finish_file(alloc, store, builder, number)?;
        Ok(Some(TableFile {
            number,
            size,
            smallest,
            largest: Bytes::from_vec(largest),
        }))
    }
}

// Ends the table of this number, syncs it, and says how many bytes its file has.
fn finish_file<K: KeyOrder, S: Store>(
    alloc: Global,
    store: &mut S,
    builder: TableBuilder<K>,
    number: u64,
) -> Result<u64, DbError>
    requires number { 0 < number }
    requires name { builder.name ≡ table_name number }
    requires some { IsSome (last_added builder) }
    ensures writes { Writes (S.facts store.old) (S.facts store.new) (table_name number) }
    ensures written { IfOk result (λ size. (pairs : List Pair) → IsTrue (S.facts store.new).faithful
        → Builds K.cmp builder (S.facts store.old) pairs
        → (file : List ℕ) × HasFile (S.facts store.new) (table_name number) file × (size ≡ length file) × IsTableOf K.cmp file pairs) }
    ensures synced { OnOk result (IsSynced (S.facts store.new) number) }
    ensures ends { IsTrue (S.facts store.new).faithful → OnOk result (behind_sync [] (S.facts store.new).calls ≡ []) }
    ensures stood { OnOk result ((S.facts store.new).failures ≡ (S.facts store.old).failures) }
    ensures refused { IfErr result (λ e. RefusesEntry e (S.facts store.old) (S.facts store.new)
        ⊥ (NeedsLongEnds builder) ⊥) }
{
    let name = print_name(alloc, FileName::Table(number))?;
    let size = builder.finish(alloc, store)?;
    sync(store, &name)?;
    Ok(size)
}
