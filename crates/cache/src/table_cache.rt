//! Tables that stay open, up to a number of them.

ghost use Rattle.std.specs.Prelude.{◌≡◌, ◌⊎◌, None, Contains, IfOk, IfErr, IsSome};
ghost use Rattle.cache.specs.Holding.{TablesLast};
ghost use Rattle.cache.specs.Tables.{IsKeptOf, IsTablePut, KeptTable, kept_table_at, table_if, tables_in, tables_when_used};

use crate::opening::open_table;
use coding::DbError;
use ikey::KeyOrder;
use lru::LruCache;
use std::alloc::{AllocError, Global};
use std::marker::Model;
use std::num::NonZeroUsize;
use std::rc::Rc;
use store::Store;
use table::Table;

/// Holds tables that stay open, up to a number of them, by their number (LevelDB's
/// db/table_cache.cc). If there are too many, the least recently used goes. Contracts see the
/// tables that are kept, the most recently used first, and how many there may be.
#[derive(Drop)]
pub struct TableCache<K: KeyOrder> {
    // None where nothing is ever kept.
    tables: Option<LruCache<u64, Rc<Table<K>>>>,
}

impl<K: KeyOrder> Model for TableCache<K> {
    ghost use Rattle.cache.specs.Tables.{TableCache as Kept, tables_of};

    ghost Value = { Kept };

    ghost view = { λ c. tables_of c.tables };
}

impl<K: KeyOrder> TableCache<K> {
    ghost use Rattle.std.specs.Prelude.{◌≡◌, ◌==◌, ◌<◌, ◌≤◌, ◌⊎◌, ℕ, List, Option, None, [], IsTrue, length, Contains, IfOk, IfErr, OnOk, IsSome, MatchOption};
    ghost use Rattle.std.specs.NonZero.{non_zero_usize_get};
    ghost use Rattle.cache.specs.Tables.{KeptTable, OpensTable, table_answer_of, table_if, kept_table_at, HitsTable, IsKeptOf, IsAnsweredTable, IsTableAnswerPut, IsTablePut, RefusesTable, tables_when_used};
    ghost use Rattle.cache.specs.Holding.{HoldsTables, HasTableInUse, IsOpenOf};
    ghost use Rattle.table.specs.Frame.{Frame, IsFrame, IsOversized};
    ghost use Rattle.table.specs.Reading.{Reads};
    ghost use Rattle.table.specs.Refusals.{IsFrameDamaged, IsFrameUnsupported};

    /// Makes a cache that keeps nothing, and takes no memory: what a database that isn't open has.
    pub fn none() -> Self
        ensures empty { result.tables ≡ [] }
        ensures capacity { result.capacity ≡ 0 }
    {
        TableCache { tables: None }
    }

    /// Makes a cache that keeps at most so many tables, and none yet.
    pub fn new(alloc: Global, capacity: NonZeroUsize) -> Result<Self, AllocError>
        ensures empty { IfOk result (λ cache. cache.tables ≡ []) }
        ensures capacity { IfOk result (λ cache. cache.capacity ≡ non_zero_usize_get capacity) }
    {
        let tables = LruCache::sparse(alloc, capacity)?;
        Ok(TableCache {
            tables: Some(tables),
        })
    }

    /// Returns how many tables are kept.
    pub fn len(&self) -> usize
        ensures length { result ≡ length self.now.tables }
        ensures fits { result ≤ self.now.capacity }
    {
        match &self.tables {
            None => 0,
            Some(tables) => tables.len(),
        }
    }

    /// Returns whether no table is kept.
    pub fn is_empty(&self) -> bool
        ensures { result ≡ (length self.now.tables == 0) }
    {
        self.len() == 0
    }

    /// Returns the open table of this number: the one that is kept, or else one that is opened now,
    /// and kept if there is memory to keep it. Its file ends in `.ldb` or, if there is no such
    /// file, in `.sst`. Corrupt: it has neither file. Corrupt and Unsupported also as
    /// `Table::open`.
    pub fn get_table<S: Store>(
        &mut self,
        alloc: Global,
        store: &mut S,
        number: u64,
    ) -> Result<Rc<Table<K>>, DbError>
        requires { 0 < number }
        // A kept table is answered, and the store isn't asked. Else the answer is that of opening
        // the table's file.
        ensures answer { MatchOption (kept_table_at self.old.tables number)
            (OpensTable K.cmp (S.facts store.old) (S.facts store.new) number (table_answer_of result))
            (λ table. HitsTable table (table_answer_of result) × (store.new ≡ store.old)) }
        // What is kept was kept before, or is what was answered. So an error isn't kept.
        ensures kept { (kept : KeptTable) → Contains self.new.tables kept → Contains self.old.tables kept ⊎ IsAnsweredTable kept number (table_answer_of result) }
        // The table goes first, so that the last one is dropped if there are too many.
        ensures order { MatchOption (kept_table_at self.old.tables number)
            (IsTableAnswerPut number (table_answer_of result) self.old.capacity (tables_when_used number self.old.tables) self.new.tables)
            (λ _. self.new.tables ≡ tables_when_used number self.old.tables) }
        ensures reads { Reads (S.facts store.old) (S.facts store.new) }
        // If each kept table is that of its number, the one that is answered is too, and so is each
        // that is kept afterwards.
        ensures found { (content : ℕ → Option (List ℕ)) → HoldsTables K.cmp content (S.facts store.old) self.old.tables → HasTableInUse content number (S.facts store.old)
            → IsTrue (S.facts store.new).faithful → IfOk (table_answer_of result) (λ table. IsOpenOf K.cmp content (S.facts store.new) number table) }
        ensures holds { (content : ℕ → Option (List ℕ)) → HoldsTables K.cmp content (S.facts store.old) self.old.tables → HasTableInUse content number (S.facts store.old)
            → IsTrue (S.facts store.new).faithful → HoldsTables K.cmp content (S.facts store.new) self.new.tables }
        ensures stood { OnOk result ((S.facts store.new).failures ≡ (S.facts store.old).failures) }
        ensures told { IfErr (table_answer_of result) (λ e. RefusesTable e (S.facts store.old) (S.facts store.new) number (IsFrameDamaged K.cmp) IsFrameUnsupported) }
        // A frame is refused only if one of its blocks is too long.
        ensures refused { IfErr (table_answer_of result) (λ e. RefusesTable e (S.facts store.old) (S.facts store.new) number
            (λ file. (frame : Frame) → IsFrame K.cmp file frame → ⊥) (λ file. (frame : Frame) (is : IsFrame K.cmp file frame) → IsOversized K.cmp file frame is)) }
        ensures capacity { self.new.capacity ≡ self.old.capacity }
    {
        self.fetch(alloc, store, number)
    }

    /// Closes the table of this number, if it is kept: its file must be removed (LevelDB's
    /// `TableCache::Evict`).
    pub fn evict(&mut self, number: u64)
        ensures gone { kept_table_at self.new.tables number ≡ None }
        ensures kept { (kept : KeptTable) → Contains self.new.tables kept → Contains self.old.tables kept }
        ensures capacity { self.new.capacity ≡ self.old.capacity }
    {
        let Some(tables) = &mut self.tables else {
            return;
        };
        evict_from(tables, number);
    }

    // The table that is kept or, if none is, one that is opened, and kept if there is memory to
    // keep it.
    fn fetch<S: Store>(
        &mut self,
        alloc: Global,
        store: &mut S,
        number: u64,
    ) -> Result<Rc<Table<K>>, DbError>
        requires { 0 < number }
        ensures answer { MatchOption (kept_table_at self.old.tables number)
            (OpensTable K.cmp (S.facts store.old) (S.facts store.new) number (table_answer_of result))
            (λ table. HitsTable table (table_answer_of result) × (store.new ≡ store.old)) }
        ensures kept { (kept : KeptTable) → Contains self.new.tables kept → Contains self.old.tables kept ⊎ IsAnsweredTable kept number (table_answer_of result) }
        ensures order { MatchOption (kept_table_at self.old.tables number)
            (IsTableAnswerPut number (table_answer_of result) self.old.capacity (tables_when_used number self.old.tables) self.new.tables)
            (λ _. self.new.tables ≡ tables_when_used number self.old.tables) }
        ensures capacity { self.new.capacity ≡ self.old.capacity }
    {
        if let Some(table) = self.find(number)? {
            return Ok(table);
        }
        let table = open_table::<K, S>(alloc, store, number)?;
        self.keep(number, &table);
        Ok(table)
    }

    // The table that is kept.
    fn find(&mut self, number: u64) -> Result<Option<Rc<Table<K>>>, AllocError>
        ensures found { IfOk result (λ found. kept_table_at self.old.tables number ≡ table_if found) }
        ensures refused { IfErr result (λ _. IsSome (kept_table_at self.old.tables number)) }
        ensures kept { (kept : KeptTable) → Contains self.new.tables kept → Contains self.old.tables kept }
        ensures order { self.new.tables ≡ tables_when_used number self.old.tables }
        ensures capacity { self.new.capacity ≡ self.old.capacity }
    {
        let Some(tables) = &mut self.tables else {
            return Ok(None);
        };
        find_in(tables, number)
    }

    // Keeps the table, if there is memory for it.
    fn keep(&mut self, number: u64, table: &Rc<Table<K>>)
        ensures kept { (kept : KeptTable) → Contains self.new.tables kept → Contains self.old.tables kept ⊎ IsKeptOf kept number table.now.value }
        ensures order { IsTablePut number table.now.value self.old.capacity self.old.tables self.new.tables }
        ensures capacity { self.new.capacity ≡ self.old.capacity }
    {
        let Some(tables) = &mut self.tables else {
            return;
        };
        keep_in(tables, number, table);
    }
}

// The table that is kept.
fn find_in<K: KeyOrder>(
    tables: &mut LruCache<u64, Rc<Table<K>>>,
    number: u64,
) -> Result<Option<Rc<Table<K>>>, AllocError>
    ensures found { IfOk result (λ found. kept_table_at (tables_in tables.old.entries) number ≡ table_if found) }
    ensures refused { IfErr result (λ _. IsSome (kept_table_at (tables_in tables.old.entries) number)) }
    ensures kept { (kept : KeptTable) → Contains (tables_in tables.new.entries) kept → Contains (tables_in tables.old.entries) kept }
    ensures order { tables_in tables.new.entries ≡ tables_when_used number (tables_in tables.old.entries) }
    ensures capacity { tables.new.cap ≡ tables.old.cap }
{
    let Some(kept) = tables.get(&number) else {
        return Ok(None);
    };
    let table = kept.clone()?;
    Ok(Some(table))
}

// Keeps the table, if there is memory for it.
fn keep_in<K: KeyOrder>(tables: &mut LruCache<u64, Rc<Table<K>>>, number: u64, table: &Rc<Table<K>>)
    ensures kept { (kept : KeptTable) → Contains (tables_in tables.new.entries) kept → Contains (tables_in tables.old.entries) kept ⊎ IsKeptOf kept number table.now.value }
    ensures order { IsTablePut number table.now.value tables.old.cap (tables_in tables.old.entries) (tables_in tables.new.entries) }
    ensures capacity { tables.new.cap ≡ tables.old.cap }
{
    let Ok(table) = table.clone() else {
        return;
    };
    let _ = tables.put(number, table);
}

// Closes the table of this number.
fn evict_from<K: KeyOrder>(tables: &mut LruCache<u64, Rc<Table<K>>>, number: u64)
    ensures gone { kept_table_at (tables_in tables.new.entries) number ≡ None }
    ensures kept { (kept : KeptTable) → Contains (tables_in tables.new.entries) kept → Contains (tables_in tables.old.entries) kept }
    ensures capacity { tables.new.cap ≡ tables.old.cap }
{
    // No number is kept twice: that is what the contract of `len` says.
    let _count = tables.len();
    let _table = tables.pop(&number);
}

/// Proves that what is kept stays right while tables come into use under new numbers and go out of
/// use, and the files of those in use stay.
pub fn tables_last()
    ensures { TablesLast }
{}
