//! A table that is read once, from its front.

ghost use Rattle.std.specs.Prelude.{◌≡◌, ◌<◌, ◌≤◌, ◌+◌, ◌++◌, ◌∷◌, ℕ, List, [], Some, length, slice_get, IfOk, IfErr, OnOk, IsTrue, MatchBool, MatchOption};
ghost use Rattle.std.specs.FinMap.{get};
ghost use Rattle.std.specs.Option.{ForSome};
ghost use Rattle.ikey.specs.Entries.{InternalEntry, Pair};
ghost use Rattle.ikey.specs.Keys.{Key};
ghost use Rattle.ikey.specs.KeyViews.{key_of};
ghost use Rattle.ikey.specs.Orders.{order_of};
ghost use Rattle.ikey.specs.Sources.{ComesBefore};
ghost use Rattle.table.specs.Blocks.{IsBegun};
ghost use Rattle.table.specs.Frame.{IsFrame};
ghost use Rattle.table.specs.Reading.{Reads, Answers, Refuses};
ghost use Rattle.table.specs.Refusals.{IsUnsupported, IsOfOne};
ghost use Rattle.table.specs.Table.{IsTable};
ghost use Rattle.recover.specs.internal.Parts.{IsUnchanged, RefusesBytes};
ghost use Rattle.recover.specs.internal.Walking.{stamp, IsKeyAt, IsHere, IsPairAt, HasMore, HasNoMore, AddsPairs};
ghost use Rattle.recover.specs.Limits.{IsUnsupportedTable, TellsUnsupported};
ghost use Rattle.recover.specs.Reading.{IsStill, RefusesDirectory};
ghost use Rattle.recover.specs.Report.{IsLongTable};

use crate::comparing::is_in_front;
use crate::noting::note_file;
use crate::table_entries::is_same;
use crate::tables::table_name;
use block::BlockCursor;
use coding::{Damage, DbError, FileKind};
use edits::PlacedTable;
use ikey::{EntryOrder, Internal, KeyOrder, unpack};
use std::alloc::{AllocError, Global};
use store::{Store, Why};
use table::Table;

/// Holds a user key, and the sequence number of one write to it.
#[derive(Drop)]
pub struct Head {
    pub user: Vec<u8>,
    pub sequence: u64,
}

impl Head {
    ghost use Rattle.std.specs.Prelude.{◌≡◌, OnOk};

    /// Makes one that takes no memory yet.
    pub fn new(alloc: Global) -> Self {
        Head {
            user: Vec::new(alloc),
            sequence: 0,
        }
    }

    /// Puts this key and this sequence number in its place.
    pub fn set(&mut self, user: &[u8], sequence: u64) -> Result<(), AllocError>
        ensures user { OnOk result (self.new.user.items ≡ user.now) }
        ensures sequence { OnOk result (self.new.sequence ≡ sequence) }
    {
        self.user.clear();
        self.user.extend_from_slice(user)?;
        self.sequence = sequence;
        Ok(())
    }
}

/// Holds a table that is read from its front. Each of its blocks is checked as it comes, with the
/// index and the filter. One block is in memory at a time, and keys are read where they lie in it.
#[derive(Drop)]
pub struct TableWalk<K: KeyOrder> {
    /// The name of its file.
    pub name: String,
    table: Table<K>,
    // how many of its blocks were read
    next: usize,
    // the last of them, at the pair at hand
    block: BlockCursor<Internal<K>>,
    /// How many pairs were passed.
    pub passed: u64,
    /// The key at hand.
    pub head: Head,
}

impl<K: KeyOrder> TableWalk<K> {
    ghost use Rattle.std.specs.Prelude.{◌≡◌, ◌<◌, ◌≤◌, ◌+◌, [], true, length, IfOk, IfErr, IsTrue};
    ghost use Rattle.store.specs.Files.{Files};
    ghost use Rattle.ikey.specs.Orders.{order_of};
    ghost use Rattle.ikey.specs.declared.entry.Entry.{Entry as EntryValue};
    ghost use Rattle.recover.specs.internal.Checks.{Never, IsOnly};
    ghost use Rattle.recover.specs.internal.Parts.{IsUnchanged, RefusesBytes};
    ghost use Rattle.edits.specs.declared.field.PlacedTable.{PlacedTable};
    ghost use Rattle.recover.specs.internal.Walking.{HasMore, HasNoMore, Passes, IsSmallest, IsPassed, IsToldOf, IsOnlyOf};
    ghost use Rattle.recover.specs.Limits.{IsUnsupportedFile, TellsUnsupported};
    ghost use Rattle.recover.specs.Reading.{IsStill, RefusesDirectory};
    ghost use Rattle.recover.specs.Report.{IsLongTable};

    /// Opens the table of an edit, and stands on its first pair, whose key is that of the edit.
    pub fn begin<S: Store>(
        alloc: Global,
        store: &mut S,
        placed: &PlacedTable,
    ) -> Result<Self, DbError>
        ensures store { IsUnchanged (S.facts store.old) (S.facts store.new) }
        ensures still { IsStill (S.facts store.old) (S.facts store.new) result }
        ensures told { IfErr result (λ error. TellsUnsupported error (S.facts store.new) (IsUnsupportedFile (order_of K.name K.cmp) (S.facts store.old).files placed.now)) }
        ensures found { IfOk result (λ walk. IsTrue (S.facts store.new).faithful → (here : EntryValue)
            × Passes (order_of K.name K.cmp) (S.facts store.old).files placed.now walk [] here × IsSmallest placed.now here) }
        ensures refused { IfErr result (λ error. RefusesDirectory error (S.facts store.old) (S.facts store.new)
            (IsOnly Never (order_of K.name K.cmp) (S.facts store.old).files placed.now)
            (IsOnly (IsLongTable (order_of K.name K.cmp)) (order_of K.name K.cmp) (S.facts store.old).files placed.now)) }
    {
        let name = table_name(alloc, store, placed)?;
        let mut walk = open_first::<K, S>(alloc, store, name.as_str())?;
        if !is_at(placed.table.smallest.as_slice(), &walk.block) {
            note_file(store, name.as_str(), Why::Span);
            return Err(DbError::Corrupt(FileKind::Table, Damage::Order));
        }
        let head = first_head(alloc, &walk.block)?;
        walk.head = head;
        Ok(walk)
    }

    /// Passes the pair at hand, and returns whether it stands on another one. After the last one,
    /// whose key is that of the edit, it stands on none.
    pub fn go_on<S: Store>(
        &mut self,
        alloc: Global,
        store: &mut S,
        placed: &PlacedTable,
    ) -> Result<bool, DbError>
        ensures store { IsUnchanged (S.facts store.old) (S.facts store.new) }
        ensures still { IsStill (S.facts store.old) (S.facts store.new) result }
        ensures told { IfErr result (λ error. TellsUnsupported error (S.facts store.new) (IsToldOf (order_of K.name K.cmp) (S.facts store.old).files placed.now self.old)) }
        ensures found { IfOk result (λ more. IsTrue (S.facts store.new).faithful → IsPassed (order_of K.name K.cmp) (S.facts store.old).files placed.now more self.old self.new) }
        ensures refused { IfErr result (λ error. RefusesDirectory error (S.facts store.old) (S.facts store.new)
            (IsOnlyOf Never (order_of K.name K.cmp) (S.facts store.old).files placed.now self.old)
            (IsOnlyOf (IsLongTable (order_of K.name K.cmp)) (order_of K.name K.cmp) (S.facts store.old).files placed.now self.old)) }
    {
        if has_more(&self.block) {
            self.step(store)?;
            return Ok(true);
        }
        let more = self.enter(alloc, store, placed)?;
        Ok(more)
    }

    // Passes a pair that isn't the last one in its block.
    fn step<S: Store>(&mut self, store: &mut S) -> Result<(), DbError>
        requires { HasMore self.old.block }
        ensures same { S.facts store.new ≡ S.facts store.old }
        ensures found { IfOk result (λ _. (files : Files) (placed : PlacedTable) → IsPassed (order_of K.name K.cmp) files placed true self.old self.new) }
        ensures refused { IfErr result (λ error. RefusesBytes error ((files : Files) (placed : PlacedTable) → IsOnlyOf Never (order_of K.name K.cmp) files placed self.old) ⊥) }
    {
        let Some(passed) = self.passed.checked_add(1) else {
            return Err(DbError::OutOfMemory);
        };
        self.block.next()?;
        if !rise::<K>(&mut self.head, &self.block)? {
            note_file(store, self.name.as_str(), Why::KeyBound);
            return Err(DbError::Corrupt(FileKind::Table, Damage::Order));
        }
        self.passed = passed;
        Ok(())
    }

    // Passes the last pair of a block: whether another block has one.
    fn enter<S: Store>(
        &mut self,
        alloc: Global,
        store: &mut S,
        placed: &PlacedTable,
    ) -> Result<bool, DbError>
        requires { HasNoMore self.old.block }
        ensures store { IsUnchanged (S.facts store.old) (S.facts store.new) }
        ensures still { IsStill (S.facts store.old) (S.facts store.new) result }
        ensures told { IfErr result (λ error. TellsUnsupported error (S.facts store.new) (IsToldOf (order_of K.name K.cmp) (S.facts store.old).files placed.now self.old)) }
        ensures found { IfOk result (λ more. IsTrue (S.facts store.new).faithful → IsPassed (order_of K.name K.cmp) (S.facts store.old).files placed.now more self.old self.new) }
        ensures refused { IfErr result (λ error. RefusesDirectory error (S.facts store.old) (S.facts store.new)
            (IsOnlyOf Never (order_of K.name K.cmp) (S.facts store.old).files placed.now self.old)
            (IsOnlyOf (IsLongTable (order_of K.name K.cmp)) (order_of K.name K.cmp) (S.facts store.old).files placed.now self.old)) }
    {
        let Some(passed) = self.passed.checked_add(1) else {
            return Err(DbError::OutOfMemory);
        };
        let is_largest = is_at(placed.table.largest.as_slice(), &self.block);
        let Some(read) = next_block::<K, S>(alloc, store, &self.table, self.next)? else {
            if !is_largest {
                note_file(store, self.name.as_str(), Why::Span);
                return Err(DbError::Corrupt(FileKind::Table, Damage::Order));
            }
            self.passed = passed;
            return Ok(false);
        };
        if !rise::<K>(&mut self.head, &read.block)? {
            note_file(store, self.name.as_str(), Why::KeyBound);
            return Err(DbError::Corrupt(FileKind::Table, Damage::Order));
        }
        self.next = read.next;
        self.block = read.block;
        self.passed = passed;
        Ok(true)
    }
}

// How many blocks of a table were read, and the last of them, at its first pair.
#[derive(Drop)]
struct BlockRead<K: KeyOrder> {
    next: usize,
    block: BlockCursor<Internal<K>>,
}

// An iteration over the table of this file, which has read the first block that has pairs, and has
// no key at hand yet.
fn open_first<K: KeyOrder, S: Store>(
    alloc: Global,
    store: &mut S,
    name: &str,
) -> Result<TableWalk<K>, DbError>
    ensures store { IsUnchanged (S.facts store.old) (S.facts store.new) }
    ensures still { IsStill (S.facts store.old) (S.facts store.new) result }
    ensures told { IfErr result (λ error. TellsUnsupported error (S.facts store.new) ((bytes : List ℕ) → get (S.facts store.old).files name.now ≡ Some bytes → IsUnsupportedTable (order_of K.name K.cmp) bytes)) }
    ensures found { IfOk result (λ walk. IsTrue (S.facts store.new).faithful → (bytes : List ℕ) → get (S.facts store.old).files name.now ≡ Some bytes
        → IsFrame K.cmp bytes walk.table.frame × IsBegun K.cmp bytes walk.table.frame walk.next walk.block.pairs) }
    ensures name { IfOk result (λ walk. walk.table.name ≡ name.now) }
    ensures first { IfOk result (λ walk. IsHere walk.block 0) }
    ensures passed { IfOk result (λ walk. walk.passed ≡ 0) }
    ensures refused { IfErr result (λ error. RefusesDirectory error (S.facts store.old) (S.facts store.new)
        ((bytes : List ℕ) (kept : List InternalEntry) → get (S.facts store.old).files name.now ≡ Some bytes → IsTable K.cmp bytes kept → ⊥)
        ((bytes : List ℕ) (kept : List InternalEntry) → get (S.facts store.old).files name.now ≡ Some bytes → IsTable K.cmp bytes kept → IsLongTable (order_of K.name K.cmp) bytes)) }
{
    let own = String::from_str(alloc, name)?;
    let table = Table::<K>::open(alloc, store, name)?;
    let Some(read) = next_block::<K, S>(alloc, store, &table, 0)? else {
        note_file(store, name, Why::NoEntries);
        return Err(DbError::Corrupt(FileKind::Table, Damage::Missing));
    };
    Ok(TableWalk {
        name: own,
        table,
        next: read.next,
        block: read.block,
        passed: 0,
        head: Head::new(alloc),
    })
}

// Reads blocks from this one on, up to one that has pairs, if there is one.
fn next_block<K: KeyOrder, S: Store>(
    alloc: Global,
    store: &mut S,
    table: &Table<K>,
    next: usize,
) -> Result<Option<BlockRead<K>>, DbError>
    ensures reads { Reads (S.facts store.old) (S.facts store.new) }
    ensures stood { OnOk result ((S.facts store.new).failures ≡ (S.facts store.old).failures) }
    ensures found { IfOk result (λ read. MatchOption read
        (Answers (S.facts store.old) (S.facts store.new) table.now.name (λ file. AddsPairs K.cmp file table.now.frame next (length table.now.frame.places) []))
        (λ read. Answers (S.facts store.old) (S.facts store.new) table.now.name (λ file. AddsPairs K.cmp file table.now.frame next read.next read.block.pairs))) }
    ensures first { IfOk result (λ read. ForSome read (λ read. IsHere read.block 0)) }
    ensures told { IfErr result (λ e. Refuses e (S.facts store.old) (S.facts store.new) table.now.name
        (λ file. (entries : List InternalEntry) → IsFrame K.cmp file table.now.frame → IsTable K.cmp file entries → ⊥) (λ file. IsOfOne (IsUnsupported file) table.now.frame.places)) }
{
    let count = table.places().len();
    for index in next..count {
        let block = table.check_block(alloc, store, index)?;
        let mut block = BlockCursor::new(alloc, block);
        block.first()?;
        if block.stands() {
            return Ok(Some(BlockRead {
                next: index + 1,
                block,
            }));
        }
    }
    Ok(None)
}

// Whether a pair stands after the one at hand.
fn has_more<O: EntryOrder>(block: &BlockCursor<O>) -> bool
    ensures { MatchBool result (HasMore block.now) (HasNoMore block.now) }
{
    if !block.stands() {
        return false;
    }
    block.has_next()
}

// Whether the pair at hand has this key, if there is one.
fn is_at<O: EntryOrder>(key: &[u8], block: &BlockCursor<O>) -> bool
    ensures { MatchBool result ((at : ℕ) (pair : Pair) → IsPairAt block.now at pair → pair.key ≡ key.now)
        ((at : ℕ) (pair : Pair) → IsPairAt block.now at pair → pair.key ≡ key.now → ⊥) }
{
    if !block.stands() {
        return true;
    }
    is_same(block.key(), key)
}

// The key of the pair at hand, the first one.
fn first_head<O: EntryOrder>(alloc: Global, block: &BlockCursor<O>) -> Result<Head, DbError>
    requires { IsHere block.now 0 }
    ensures found { IfOk result (λ head. (key : Key) × IsKeyAt block.now.pairs 0 key × (key.user ≡ head.user.items) × (key.sequence ≡ head.sequence)) }
    ensures refused { IfErr result (λ error. RefusesBytes error ((key : Key) → IsKeyAt block.now.pairs 0 key → ⊥) ⊥) }
{
    let Some(key) = unpack(block.key()) else {
        return Err(DbError::Corrupt(FileKind::Table, Damage::Kind));
    };
    let mut head = Head::new(alloc);
    head.set(key.user, key.sequence)?;
    Ok(head)
}

// Takes the key of the pair at hand, if it comes after the one that was taken before.
fn rise<K: KeyOrder>(head: &mut Head, block: &BlockCursor<Internal<K>>) -> Result<bool, AllocError>
    requires { (at : ℕ) × IsHere block.now at }
    ensures { IfOk result (λ rises. (at : ℕ) → IsHere block.now at → MatchBool rises
        ((key : Key) × IsKeyAt block.now.pairs at key × (key.user ≡ head.new.user.items) × (key.sequence ≡ head.new.sequence)
        × ComesBefore (order_of K.name K.cmp) (stamp head.old.user.items head.old.sequence) (stamp key.user key.sequence))
        ((key : Key) → IsKeyAt block.now.pairs at key → ComesBefore (order_of K.name K.cmp) (stamp head.old.user.items head.old.sequence) (stamp key.user key.sequence) → ⊥)) }
{
    let Some(key) = unpack(block.key()) else {
        return Ok(false);
    };
    if !is_in_front::<K>(head.user.as_slice(), head.sequence, key.user, key.sequence) {
        return Ok(false);
    }
    head.set(key.user, key.sequence)?;
    Ok(true)
}
