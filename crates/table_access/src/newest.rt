//! The newest entry of a user key in a table (LevelDB's table/table.cc, Table::InternalGet).

ghost use Rattle.std.specs.Prelude.{◌≡◌, ◌⊎◌, ◌<◌, ◌^◌, ℕ, List, Some, IsSome, IfOk, IfErr, OnOk, MatchBool, slice_get};
ghost use Rattle.coding.specs.declared.error.Damage.TheVariants.{Kind as KindDamage};
ghost use Rattle.coding.specs.declared.error.DbError.TheVariants.{Corrupt, OutOfMemory};
ghost use Rattle.coding.specs.declared.error.FileKind.TheVariants.{Table as TableFile};
ghost use Rattle.cache.specs.Tables.{kept_table_at};
ghost use Rattle.cursor.specs.Moves.{Refuses};
ghost use Rattle.ikey.specs.Entries.{InternalEntry, Pair, IsPair};
ghost use Rattle.table_access.specs.Tables.{Carries, HasSoundTable, Only, SaysOf, seen_through};
ghost use Rattle.table_access.specs.Telling.{IfCorrupt, TellsOfKey, TornOfKey};
ghost use Rattle.table_access.specs.Values.{DeniesKey, HasValue, IsDenied, IsNoTable, IsTablePastLimit, SaysOfEntry, StandsOnKey, StandsOnNone};
ghost use Rattle.table.specs.Frame.{IsFrame, Opened};
ghost use Rattle.table.specs.Reading.{IsStill};
ghost use Rattle.table.specs.Refusals.{IsFrameDamaged};

use crate::table_search::{Aim, search_on};
use crate::tables::Tables;
use block::BlockCursor;
use coding::{Bytes, Damage, DbError, FileKind};
use edits::PlacedTable;
use ikey::{Internal, KeyOrder, Kind, same_bytes, seek_key, unpack};
use std::alloc::Global;
use store::Store;
use table::Table;

/// Returns what the newest entry of a user key up to a sequence number, below `SEQUENCE_END`, put
/// in this table of an edit. None: the table has no such entry. `Some(None)`: it is a delete. The
/// table's filter is asked before a data block is read. Corrupt: the source hasn't this table.
/// Unsupported: as `Table::open`, and if a block has more than 2^30 bytes.
pub fn table_value<K: KeyOrder, S: Store>(
    alloc: Global,
    source: &mut Tables<K, S>,
    placed: &PlacedTable,
    key: &[u8],
    sequence: u64,
) -> Result<Option<Option<Bytes>>, DbError>
    requires positive { 0 < placed.now.table.number }
    requires fits { sequence < 2 ^ 56 }
    ensures carries { Carries K.cmp (Only placed.now.table.number) (seen_through S.facts source.old) (seen_through S.facts source.new) }
    ensures found { IfOk result (λ value. SaysOf K.cmp (seen_through S.facts source.old) (seen_through S.facts source.new)
        placed.now.table.number (λ file. HasValue K.cmp file key.now sequence value)) }
    // Whatever the file holds beside: its filter denies the key, or this tell the blocks that a
    // search comes to.
    ensures told { IfOk result (λ value. SaysOf K.cmp (seen_through S.facts source.old) (seen_through S.facts source.new)
        placed.now.table.number (TellsOfKey K.cmp placed.now key.now sequence value)) }
    ensures still { IsStill (S.facts source.old.store) (S.facts source.new.store) result }
    // If the table is open and its filter denies the key, no block is asked for.
    ensures denied { (table : Opened) (file : List ℕ) → kept_table_at source.old.tables.tables placed.now.table.number ≡ Some table
        → IsFrame K.cmp file table.frame → IsDenied K.cmp table.frame key.now sequence
        → (source.new.store ≡ source.old.store) × (source.new.blocks ≡ source.old.blocks) }
    // Corrupt only if the frame is damaged, or the search comes to a block that is none.
    ensures torn { IfErr result (λ e. IfCorrupt e (SaysOf K.cmp (seen_through S.facts source.old) (seen_through S.facts source.new)
        placed.now.table.number (λ file. IsFrameDamaged K.cmp file ⊎ TornOfKey K.cmp placed.now key.now sequence file))) }
    ensures refused { IfErr result (λ e. Refuses e (S.facts source.old.store) (S.facts source.new.store)
        ((file : List ℕ) → HasSoundTable K.cmp (seen_through S.facts source.old) placed.now.table.number file → IsNoTable K.cmp placed.now file)
        ((file : List ℕ) → HasSoundTable K.cmp (seen_through S.facts source.old) placed.now.table.number file → IsTablePastLimit K.cmp file)) }
{
    let table = source.get_table(alloc, placed.table.number)?;
    let target = seek_key(alloc, key, sequence)?;
    let start = table.first_place(&target);
    if is_denied::<K>(&table, start, key) {
        return Ok(None);
    }
    let found = search_on(alloc, source, placed, &table, start, Aim::From(&target))?;
    match found {
        Some(here) => {
            let value = value_at::<K>(alloc, &here.cursor, key)?;
            Ok(value)
        }
        None => Ok(None),
    }
}

// Whether no block from this one on has an entry of the user key. The filter denies the key for
// this block. Its bound has another user key, a greater one, so the later blocks can't have the key
// either.
fn is_denied<K: KeyOrder>(table: &Table<K>, start: usize, key: &[u8]) -> bool
    ensures { MatchBool result (DeniesKey table.now.frame start key.now) (DeniesKey table.now.frame start key.now → ⊥) }
{
    let Some(place) = table.places().get(start) else {
        return false;
    };
    let Some(bound) = unpack(place.key.as_slice()) else {
        return false;
    };
    if same_bytes(bound.user, key) {
        return false;
    }
    if table.admits(place.handle, key) {
        return false;
    }
    true
}

// What the entry at a cursor's place put, if it is one of the user key. Corrupt: its key is no
// internal key.
fn value_at<K: KeyOrder>(
    alloc: Global,
    cursor: &BlockCursor<Internal<K>>,
    key: &[u8],
) -> Result<Option<Option<Bytes>>, DbError>
    requires { IsSome cursor.now.place }
    ensures found { IfOk result (λ value. (index : ℕ) (pair : Pair) (entry : InternalEntry) → cursor.now.place ≡ Some index
        → slice_get cursor.now.pairs index ≡ Some pair → IsPair pair entry
        → SaysOfEntry entry key.now value) }
    // What is answered is so of an entry.
    ensures keyed { OnOk result (StandsOnKey cursor.now) }
    ensures refused { IfErr result (λ e. (e ≡ OutOfMemory) ⊎ ((e ≡ Corrupt TableFile KindDamage) × StandsOnNone cursor.now)) }
{
    let Some(found) = unpack(cursor.key()) else {
        return Err(DbError::Corrupt(FileKind::Table, Damage::Kind));
    };
    if !same_bytes(found.user, key) {
        return Ok(None);
    }
    match found.kind {
        Kind::Delete => Ok(Some(None)),
        Kind::Put => {
            let value = Bytes::copied_from(alloc, cursor.value())?;
            Ok(Some(Some(value)))
        }
    }
}
