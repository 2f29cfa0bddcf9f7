//! Searches over the tables of a row (LevelDB's table/two_level_iterator.cc,
//! SkipEmptyDataBlocksForward and its counterpart).

ghost use Rattle.std.specs.Prelude.{◌≡◌, ◌<◌, ◌≤◌, ◌^◌, ◌+◌, ℕ, suc, List, Option, None};
ghost use Rattle.std.specs.Prelude.{Some, drop, length, slice_get, IsTrue, IfSome, IfOk, IfErr};
ghost use Rattle.cursor.specs.Cuts.{Cut, End, SameCut};
ghost use Rattle.cursor.specs.Merging.{ahead, listed};
ghost use Rattle.cursor.specs.Moves.{Refuses};
ghost use Rattle.cursor.specs.Places.{index_before, leading, within};
ghost use Rattle.ikey.specs.Entries.{InternalEntry};
ghost use Rattle.ikey.specs.Keys.{Key};
ghost use Rattle.level_cursor.specs.InRows.{HasList, ListsNumber, HaveLists, IsOneLimited, IsOneTorn, IsPlacedRow, IsTornOne, entries_before, joined};
ghost use Rattle.level_cursor.specs.Searches.{EndsBackIn, EndsIn, IsAimed, IsFirstTable, IsOneOf, aimed_cut, passes};
ghost use Rattle.table_access.specs.TablePlaces.{ListsTable};
ghost use Rattle.table_access.specs.Tables.{Carries, HasSoundTable, IsOpenFrame, Only, SaysOf, seen_through};
ghost use Rattle.table_access.specs.Values.{IsTablePastLimit};
ghost use Rattle.table.specs.Reading.{IsStill};

use crate::in_table::InTable;
use coding::{Damage, DbError, FileKind};
use cursor::Cursor;
use edits::PlacedTable;
use ikey::{EntryOrder, Internal, KeyOrder};
use std::alloc::Global;
use store::Store;
use table_access::{TableCursor, Tables};

/// Tells what a search on looks for.
#[derive(Clone, Copy)]
pub enum Aim<'a> {
    /// The first entry.
    First,
    /// The first entry whose internal key isn't below this one.
    From(&'a [u8]),
}

/// Looks on from a table for an entry: the table that has it, and a cursor there. Corrupt: one to
/// which it comes is torn there. Unsupported: one passes a limit of reading.
pub fn search_on<K: KeyOrder, S: Store>(
    alloc: Global,
    source: &mut Tables<K, S>,
    row: &[PlacedTable],
    start: usize,
    aim: Aim<'_>,
) -> Result<Option<InTable<K>>, DbError>
    ensures carries { Carries K.cmp (ListsNumber row.now) (seen_through S.facts source.old) (seen_through S.facts source.new) }
    ensures found { IfOk result (λ here. IsTrue (S.facts source.new.store).faithful → (lists : List (List InternalEntry))
        → HaveLists K.cmp (seen_through S.facts source.old) row.now lists
        → (goal : Option Key) → IsAimed aim.entry goal
        → IsPlacedRow K.cmp (seen_through S.facts source.new) lists here
        (within (joined lists) (entries_before lists start + leading (passes K.cmp goal) (joined (drop start lists))))) }
    ensures opened { IfOk result (λ here. IfSome here (λ found. IsOneOf K.cmp (seen_through S.facts source.old)
        (seen_through S.facts source.new) row.now found.index found.cursor.placed found.cursor.table.value.frame)) }
    ensures still { IsStill (S.facts source.old.store) (S.facts source.new.store) result }
    ensures refused { IfErr result (λ e. Refuses e (S.facts source.old.store) (S.facts source.new.store)
        ((lists : List (List InternalEntry)) (goal : Option Key) (cut : Cut) → HaveLists K.cmp (seen_through S.facts source.old) row.now lists
        → IsAimed aim.entry goal → ((list : List InternalEntry) → slice_get lists start ≡ Some list → EndsIn K.cmp row.now start list goal cut)
        → IsOneTorn K.cmp (seen_through S.facts source.old) row.now cut)
        (IsOneLimited K.cmp (seen_through S.facts source.old) row.now)) }
{
    for index in start..row.len() {
        let cursor = enter(alloc, source, &row[index], aim)?;
        if Cursor::<K, Tables<K, S>>::stands(&cursor) {
            return Ok(Some(InTable { index, cursor }));
        }
    }
    Ok(None)
}

/// Looks for the last entry of the tables before one. Corrupt and Unsupported as `search_on`.
pub fn search_back<K: KeyOrder, S: Store>(
    alloc: Global,
    source: &mut Tables<K, S>,
    row: &[PlacedTable],
    end: usize,
) -> Result<Option<InTable<K>>, DbError>
    ensures carries { Carries K.cmp (ListsNumber row.now) (seen_through S.facts source.old) (seen_through S.facts source.new) }
    ensures found { IfOk result (λ here. IsTrue (S.facts source.new.store).faithful → (lists : List (List InternalEntry))
        → HaveLists K.cmp (seen_through S.facts source.old) row.now lists
        → end ≤ length lists → IsPlacedRow K.cmp (seen_through S.facts source.new) lists here (index_before (entries_before lists end))) }
    ensures opened { IfOk result (λ here. IfSome here (λ found. IsOneOf K.cmp (seen_through S.facts source.old)
        (seen_through S.facts source.new) row.now found.index found.cursor.placed found.cursor.table.value.frame)) }
    ensures still { IsStill (S.facts source.old.store) (S.facts source.new.store) result }
    ensures refused { IfErr result (λ e. Refuses e (S.facts source.old.store) (S.facts source.new.store)
        ((lists : List (List InternalEntry)) (cut : Cut) → HaveLists K.cmp (seen_through S.facts source.old) row.now lists → end ≤ length lists
        → ((index : ℕ) (list : List InternalEntry) → suc index ≡ end → slice_get lists index ≡ Some list → EndsBackIn K.cmp row.now index list cut)
        → IsOneTorn K.cmp (seen_through S.facts source.old) row.now cut)
        (IsOneLimited K.cmp (seen_through S.facts source.old) row.now)) }
{
    for step in 0..end {
        let index = end - step - 1;
        let Some(placed) = row.get(index) else {
            return Err(DbError::Corrupt(FileKind::Table, Damage::Missing));
        };
        let cursor = leave(alloc, source, placed)?;
        if Cursor::<K, Tables<K, S>>::stands(&cursor) {
            return Ok(Some(InTable { index, cursor }));
        }
    }
    Ok(None)
}

/// Returns the index of the first table that doesn't end below the key, an internal one (LevelDB's
/// db/version_set.cc, FindFile). If the tables aren't in the order of their keys it is some index.
pub fn first_table<K: KeyOrder>(row: &[PlacedTable], target: &[u8]) -> usize
    ensures { IsFirstTable K.cmp target.now row.now result }
{
    let mut low = 0;
    let mut high = row.len();
    while low < high {
        let middle = low + (high - low) / 2;
        if Internal::<K>::is_below(row[middle].table.largest.as_slice(), target) {
            low = middle + 1;
        } else {
            high = middle;
        }
    }
    low
}

// A cursor on the first entry of a table that isn't passed, or nowhere.
fn enter<K: KeyOrder, S: Store>(
    alloc: Global,
    source: &mut Tables<K, S>,
    placed: &PlacedTable,
    aim: Aim<'_>,
) -> Result<TableCursor<K>, DbError>
    ensures carries { Carries K.cmp (Only placed.now.table.number) (seen_through S.facts source.old) (seen_through S.facts source.new) }
    ensures placed { IfOk result (λ cursor. cursor.placed ≡ placed.now) }
    ensures opened { IfOk result (λ cursor. SaysOf K.cmp (seen_through S.facts source.old)
        (seen_through S.facts source.new) placed.now.table.number (λ file. IsOpenFrame K.cmp file cursor.table.value.frame)) }
    ensures found { IfOk result (λ cursor. IsTrue (S.facts source.new.store).faithful → (list : List InternalEntry)
        → HasList K.cmp (seen_through S.facts source.old) placed.now list → (goal : Option Key) → IsAimed aim.entry goal
        → ListsTable K.cmp (seen_through S.facts source.new) cursor.placed cursor.table.value.frame cursor.here
        (listed list (ahead (passes K.cmp goal) list))) }
    ensures still { IsStill (S.facts source.old.store) (S.facts source.new.store) result }
    ensures refused { IfErr result (λ e. Refuses e (S.facts source.old.store) (S.facts source.new.store)
        ((list : List InternalEntry) (goal : Option Key) (cut : Cut) → HasList K.cmp (seen_through S.facts source.old) placed.now list
        → IsAimed aim.entry goal → SameCut K.cmp list (aimed_cut goal) cut → IsTornOne K.cmp (seen_through S.facts source.old) placed.now cut)
        ((file : List ℕ) → HasSoundTable K.cmp (seen_through S.facts source.old) placed.now.table.number file → IsTablePastLimit K.cmp file)) }
{
    let mut cursor = open(alloc, source, placed)?;
    match aim {
        Aim::First => {
            cursor.to_first(alloc, source)?;
            Ok(cursor)
        }
        Aim::From(target) => {
            cursor.to_key(alloc, source, target)?;
            Ok(cursor)
        }
    }
}

// A cursor on the last entry of a table.
fn leave<K: KeyOrder, S: Store>(
    alloc: Global,
    source: &mut Tables<K, S>,
    placed: &PlacedTable,
) -> Result<TableCursor<K>, DbError>
    ensures carries { Carries K.cmp (Only placed.now.table.number) (seen_through S.facts source.old) (seen_through S.facts source.new) }
    ensures placed { IfOk result (λ cursor. cursor.placed ≡ placed.now) }
    ensures opened { IfOk result (λ cursor. SaysOf K.cmp (seen_through S.facts source.old)
        (seen_through S.facts source.new) placed.now.table.number (λ file. IsOpenFrame K.cmp file cursor.table.value.frame)) }
    ensures found { IfOk result (λ cursor. IsTrue (S.facts source.new.store).faithful → (list : List InternalEntry)
        → HasList K.cmp (seen_through S.facts source.old) placed.now list
        → ListsTable K.cmp (seen_through S.facts source.new) cursor.placed cursor.table.value.frame cursor.here
        (listed list (index_before (length list)))) }
    ensures still { IsStill (S.facts source.old.store) (S.facts source.new.store) result }
    ensures refused { IfErr result (λ e. Refuses e (S.facts source.old.store) (S.facts source.new.store)
        ((list : List InternalEntry) (cut : Cut) → HasList K.cmp (seen_through S.facts source.old) placed.now list
        → SameCut K.cmp list End cut → IsTornOne K.cmp (seen_through S.facts source.old) placed.now cut)
        ((file : List ℕ) → HasSoundTable K.cmp (seen_through S.facts source.old) placed.now.table.number file → IsTablePastLimit K.cmp file)) }
{
    let mut cursor = open(alloc, source, placed)?;
    cursor.to_last(alloc, source)?;
    Ok(cursor)
}

// A cursor over a table of the row, which stands nowhere.
fn open<K: KeyOrder, S: Store>(
    alloc: Global,
    source: &mut Tables<K, S>,
    placed: &PlacedTable,
) -> Result<TableCursor<K>, DbError>
    ensures carries { Carries K.cmp (Only placed.now.table.number) (seen_through S.facts source.old) (seen_through S.facts source.new) }
    ensures placed { IfOk result (λ cursor. cursor.placed ≡ placed.now) }
    ensures opened { IfOk result (λ cursor. SaysOf K.cmp (seen_through S.facts source.old)
        (seen_through S.facts source.new) placed.now.table.number (λ file. IsOpenFrame K.cmp file cursor.table.value.frame)) }
    ensures found { IfOk result (λ cursor. IsTrue (S.facts source.new.store).faithful → (list : List InternalEntry)
        → HasList K.cmp (seen_through S.facts source.old) placed.now list
        → ListsTable K.cmp (seen_through S.facts source.new) cursor.placed cursor.table.value.frame cursor.here (listed list None)) }
    ensures still { IsStill (S.facts source.old.store) (S.facts source.new.store) result }
    ensures refused { IfErr result (λ e. Refuses e (S.facts source.old.store) (S.facts source.new.store)
        ((list : List InternalEntry) (cut : Cut) → HasList K.cmp (seen_through S.facts source.old) placed.now list
        → IsTornOne K.cmp (seen_through S.facts source.old) placed.now cut)
        ((file : List ℕ) → HasSoundTable K.cmp (seen_through S.facts source.old) placed.now.table.number file → IsTablePastLimit K.cmp file)) }
{
    // No file has the number 0, and the caches aren't asked for it.
    if placed.table.number == 0 {
        return Err(DbError::Corrupt(FileKind::Table, Damage::Missing));
    }
    let cursor = TableCursor::open(alloc, source, placed)?;
    Ok(cursor)
}
