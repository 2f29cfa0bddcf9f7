//! A memtable as a table file of level 0 (LevelDB's db/builder.cc, BuildTable).

ghost use Rattle.std.specs.Prelude.{◌≡◌, ◌<◌, ◌^◌, ◌++◌, ◌∷◌, [], ℕ, List, Some, None, IsTrue, IsSome, IfOk, IfErr, OnOk, length};
ghost use Rattle.std.specs.FinMap.{get};
ghost use Rattle.compact.specs.Rooms.{AreLarge};
ghost use Rattle.edits.specs.Edit.{IsInternal, IsTableProper};
ghost use Rattle.filter.specs.Builder.{GivesUpOnly};
ghost use Rattle.ikey.specs.declared.entry.Entry.{Entry};
ghost use Rattle.ikey.specs.Entries.{Pair, internal_key_of, value_kept};
ghost use Rattle.ikey.specs.Keys.{IsKey};
ghost use Rattle.ikey.specs.Orders.{order_of};
ghost use Rattle.memtable.specs.Contents.{entry_at};
ghost use Rattle.memtable.specs.Order.{ordered};
ghost use Rattle.memtable.specs.Places.{IsPlace};
ghost use Rattle.memtable.specs.Slots.{entry_seen, value_seen};
ghost use Rattle.edits.specs.declared.names.FileName.TheVariants.{Table};
ghost use Rattle.edits.specs.Names.{name_of};
ghost use Rattle.recover.specs.Tables.{internal_key};
ghost use Rattle.versions.specs.Levels.{IsRange};
ghost use Rattle.store.specs.Losses.{behind_sync};
ghost use Rattle.table.specs.Building.{Builds, MayFollow, last_added};
ghost use Rattle.table.specs.Reading.{HasFile};
ghost use Rattle.table.specs.Writing.{Writes, WriteRefuses, IsTableOf, NeedsLongBlock};
ghost use Rattle.directory_writes.specs.internal.Level0.{HaveSequences, IsLevel0, IsTooLarge, pair_of, pairs_of};

use block::MAX_BLOCK_LENGTH;
use coding::{Bytes, DbError, Feature, put_fixed64};
use edits::{FileName, TableFile, print_name};
use ikey::KeyOrder;
use memtable::{EntryRef, MemTable, Node, each_insert_stands};
use std::alloc::{AllocError, Global};
use store::Store;
use table::{TableBuilder, sync};

/// Writes all entries of a memtable, which has some, in internal order into the table file of this
/// number, and syncs it. Returns what an edit says of the table. A data block ends with the entry
/// that brings it to `block_bytes` bytes. It fails out of memory, with Io if the store fails, and
/// as Unsupported if a block would have more than 2^30 bytes; then the file may be there in part.
pub fn write_level0<K: KeyOrder, S: Store>(
    alloc: Global,
    store: &mut S,
    memory: &MemTable<K>,
    number: u64,
    block_bytes: usize,
) -> Result<TableFile, DbError>
    requires number { 0 < number }
    requires some { 0 < length memory.now.inserts }
    requires sequences { HaveSequences memory.now.inserts }
    ensures writes { Writes (S.facts store.old) (S.facts store.new) (name_of (Table number)) }
    ensures written { IfOk result (λ table. IsTrue (S.facts store.new).faithful
        → IsLevel0 (order_of K.name K.cmp) (S.facts store.new).files number memory.now.inserts table) }
    ensures proper { IfOk result IsTableProper }
    ensures number { IfOk result (λ table. table.number ≡ number) }
    ensures range { IfOk result (λ table. IsRange K.cmp (record { level = 0; table = table })) }
    ensures synced { OnOk result (IsTrue (S.facts store.new).faithful
        → (S.facts store.new).synced (name_of (Table number)) ≡ get (S.facts store.new).files (name_of (Table number))) }
    ensures ends { IsTrue (S.facts store.new).faithful → OnOk result (behind_sync [] (S.facts store.new).calls ≡ []) }
    ensures stood { OnOk result ((S.facts store.new).failures ≡ (S.facts store.old).failures) }
    ensures refused { IfErr result (λ e. WriteRefuses e (S.facts store.old) (S.facts store.new)
        (IsTooLarge (S.facts store.new) memory.now.inserts)) }
{
    // Laws, for the proof alone.
    each_insert_stands();
    memory.rises();
    memory.rises_by_sequence();
    let Some(first) = memory.first() else {
        unreachable!()
    };
    let Some(last) = memory.last() else {
        unreachable!()
    };
    let smallest = key_at(alloc, memory, first)?;
    let largest = key_at(alloc, memory, last)?;
    let name = print_name(alloc, FileName::Table(number))?;
    let size = write_entries(alloc, store, memory, &name, block_bytes)?;
    Ok(TableFile {
        number,
        size,
        smallest,
        largest,
    })
}

// The internal key of the entry at a place. Unsupported: it is longer than a block may be.
fn key_at<K: KeyOrder>(alloc: Global, memory: &MemTable<K>, node: Node) -> Result<Bytes, DbError>
    requires place { IsPlace memory.now.inserts node }
    requires sequences { HaveSequences memory.now.inserts }
    ensures key { IfOk result (λ key. (entry : Entry) → entry_at memory.now.inserts node ≡ Some entry → key ≡ internal_key entry) }
    ensures short { IfOk result (λ key. length key < 2 ^ 32) }
    ensures internal { IfOk result IsInternal }
    ensures refused { IfErr result (λ e. GivesUpOnly e (AreLarge memory.now.inserts)) }
{
    let mut key = Vec::new(alloc);
    pack_into(&mut key, memory.entry(node))?;
    if key.len() > MAX_BLOCK_LENGTH {
        return Err(DbError::Unsupported(Feature::BlockSize));
    }
    Ok(Bytes::from_vec(key))
}

// Writes the entries into the table file of this name, ends it, and syncs it. Answers its length.
fn write_entries<K: KeyOrder, S: Store>(
    alloc: Global,
    store: &mut S,
    memory: &MemTable<K>,
    name: &str,
    block_bytes: usize,
) -> Result<u64, DbError>
    requires some { 0 < length memory.now.inserts }
    requires sequences { HaveSequences memory.now.inserts }
    ensures writes { Writes (S.facts store.old) (S.facts store.new) name.now }
    ensures written { IfOk result (λ size. IsTrue (S.facts store.new).faithful → (file : List ℕ) × HasFile (S.facts store.new) name.now file
        × (size ≡ length file) × IsTableOf K.cmp file (pairs_of (ordered K.cmp memory.now.inserts))) }
    ensures synced { OnOk result (IsTrue (S.facts store.new).faithful
        → (S.facts store.new).synced name.now ≡ get (S.facts store.new).files name.now) }
    ensures ends { IsTrue (S.facts store.new).faithful → OnOk result (behind_sync [] (S.facts store.new).calls ≡ []) }
    ensures stood { OnOk result ((S.facts store.new).failures ≡ (S.facts store.old).failures) }
    ensures refused { IfErr result (λ e. WriteRefuses e (S.facts store.old) (S.facts store.new)
        (IsTooLarge (S.facts store.new) memory.now.inserts)) }
{
    let mut builder = TableBuilder::new(alloc, name, block_bytes)?;
    add_entries(alloc, store, memory, &mut builder)?;
    let size = builder.finish(alloc, store)?;
    sync(store, name)?;
    Ok(size)
}

// Adds the entries in internal order to a table that has none.
fn add_entries<K: KeyOrder, S: Store>(
    alloc: Global,
    store: &mut S,
    memory: &MemTable<K>,
    builder: &mut TableBuilder<K>,
) -> Result<(), DbError>
    requires some { 0 < length memory.now.inserts }
    requires none { last_added builder.old ≡ None }
    requires sequences { HaveSequences memory.now.inserts }
    ensures name { builder.new.name ≡ builder.old.name }
    ensures last { OnOk result (IsSome (last_added builder.new)) }
    ensures writes { Writes (S.facts store.old) (S.facts store.new) builder.old.name }
    ensures added { OnOk result (IsTrue (S.facts store.new).faithful → Builds K.cmp builder.old (S.facts store.old) []
        → Builds K.cmp builder.new (S.facts store.new) (pairs_of (ordered K.cmp memory.now.inserts))) }
    ensures stood { OnOk result ((S.facts store.new).failures ≡ (S.facts store.old).failures) }
    ensures refused { IfErr result (λ e. WriteRefuses e (S.facts store.old) (S.facts store.new)
        (Builds K.cmp builder.old (S.facts store.old) [] → IsTooLarge (S.facts store.new) memory.now.inserts)) }
{
    // A law, for the proof alone.
    memory.rises();
    let mut key = Vec::new(alloc);
    let mut at = memory.first();
    for _ in 0..memory.len() {
        let Some(place) = at else {
            return Ok(());
        };
        add_entry(store, builder, &mut key, memory.entry(place))?;
        at = memory.next(place);
    }
    Ok(())
}

// Adds an entry. The vector is room for its internal key.
fn add_entry<K: KeyOrder, S: Store>(
    store: &mut S,
    builder: &mut TableBuilder<K>,
    key: &mut Vec<u8>,
    entry: EntryRef<'_>,
) -> Result<(), DbError>
    requires sequence { entry.sequence < 2 ^ 56 }
    requires follows { MayFollow K.cmp builder.old (internal_key (entry_seen entry)) }
    ensures name { builder.new.name ≡ builder.old.name }
    ensures last { OnOk result (last_added builder.new ≡ Some (internal_key (entry_seen entry.entry))) }
    ensures writes { Writes (S.facts store.old) (S.facts store.new) builder.old.name }
    ensures added { OnOk result ((pairs : List Pair) → IsTrue (S.facts store.new).faithful
        → Builds K.cmp builder.old (S.facts store.old) pairs
        → Builds K.cmp builder.new (S.facts store.new) (pairs ++ pair_of (entry_seen entry.entry) ∷ [])) }
    ensures stood { OnOk result ((S.facts store.new).failures ≡ (S.facts store.old).failures) }
    ensures refused { IfErr result (λ e. WriteRefuses e (S.facts store.old) (S.facts store.new)
        (NeedsLongBlock builder.old (pair_of (entry_seen entry.entry)))) }
{
    pack_into(key, entry)?;
    builder.add(store, key, value_of(entry.value))?;
    Ok(())
}

// Makes a vector the internal key of an entry.
fn pack_into(buffer: &mut Vec<u8>, entry: EntryRef<'_>) -> Result<(), AllocError>
    requires { entry.sequence < 2 ^ 56 }
    ensures { OnOk result (IsKey buffer.new.items (internal_key_of (entry_seen entry.entry))) }
{
    let kind = match entry.value {
        Some(_) => 1,
        None => 0,
    };
    buffer.clear();
    buffer.extend_from_slice(entry.key)?;
    put_fixed64(buffer, entry.sequence * 256 + kind)
}

// The value of an entry as a file has it: none for a delete.
fn value_of(value: Option<&[u8]>) -> &[u8]
    ensures { result.now ≡ value_kept (value_seen value.entry) }
{
    match value {
        None => b"",
        Some(bytes) => bytes,
    }
}
