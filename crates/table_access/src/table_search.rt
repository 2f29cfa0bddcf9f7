//! Searches over the data blocks of a table (LevelDB's table/two_level_iterator.cc).

ghost use Rattle.std.specs.Prelude.{◌≡◌, ◌<◌, ◌≤◌, ◌^◌, ◌+◌, ℕ, List, length, slice_get, IsTrue, IsSome, IfSome, IfOk, IfErr};
ghost use Rattle.block.specs.Places.{within};
ghost use Rattle.cursor.specs.Moves.{Refuses};
ghost use Rattle.cursor.specs.Places.{index_before};
ghost use Rattle.cursor.specs.Places.{within as within_list};
ghost use Rattle.ikey.specs.Entries.{Pair};
ghost use Rattle.table_access.specs.Ends.{HasIntactIn};
ghost use Rattle.table_access.specs.TablePlaces.{IsPlacedIn, Passed, StopsAt, joined, pairs_before};
ghost use Rattle.table_access.specs.Tables.{Carries, HasData, Only, SaysOf, seen_through};
ghost use Rattle.table_access.specs.Telling.{CameHere, IfCorrupt, IsTornIn, StopsTorn};
ghost use Rattle.table_access.specs.Torn.{LacksBack, LacksBlock, LacksOn};
ghost use Rattle.table.specs.Frame.{AnyLong, IsFrame, handles};
ghost use Rattle.table.specs.Reading.{IsStill};

use crate::ends::has_ends;
use crate::in_block::InBlock;
use crate::tables::Tables;
use block::{Block, BlockCursor};
use coding::{Damage, DbError, FileKind};
use edits::PlacedTable;
use ikey::{Internal, KeyOrder};
use std::alloc::{AllocError, Global};
use std::rc::Rc;
use store::Store;
use table::Table;

/// Tells what a search on looks for.
#[derive(Clone, Copy)]
pub enum Aim<'a> {
    /// The first pair.
    First,
    /// The first pair whose key isn't below this one.
    From(&'a [u8]),
}

/// Looks on from a block for a pair: the block that has it, and a cursor there. Corrupt: it comes
/// to a block that is none. Unsupported: it comes to such a block, or to one of more than 2^30
/// bytes.
pub fn search_on<K: KeyOrder, S: Store>(
    alloc: Global,
    source: &mut Tables<K, S>,
    placed: &PlacedTable,
    table: &Table<K>,
    start: usize,
    aim: Aim<'_>,
) -> Result<Option<InBlock<BlockCursor<Internal<K>>>>, DbError>
    requires { 0 < placed.now.table.number }
    ensures carries { Carries K.cmp (Only placed.now.table.number) (seen_through S.facts source.old) (seen_through S.facts source.new) }
    ensures found { IfOk result (λ here. IsTrue (S.facts source.new.store).faithful → (groups : List (List Pair))
        → HasData K.cmp (seen_through S.facts source.old) placed.now table.now.frame groups → start ≤ length groups
        → (place : ℕ) × StopsAt (Passed K.cmp aim.entry) (joined groups) (pairs_before groups start) place
        × IsPlacedIn groups here (within_list (joined groups) place)) }
    // Whatever the table holds beside: the blocks before the one that is found are passed, and it
    // stands on its first pair that isn't.
    ensures came { IfOk result (λ here. SaysOf K.cmp (seen_through S.facts source.old) (seen_through S.facts source.new) placed.now.table.number
        (λ file. IsFrame K.cmp file table.now.frame → CameHere K.cmp (Passed K.cmp aim.entry) placed.now file table.now.frame start here)) }
    ensures stands { IfOk result (λ here. IfSome here (λ found. IsSome found.cursor.place)) }
    // Corrupt only if the search comes to a block that is none.
    ensures torn { IfErr result (λ e. IfCorrupt e (SaysOf K.cmp (seen_through S.facts source.old) (seen_through S.facts source.new)
        placed.now.table.number (λ file. IsFrame K.cmp file table.now.frame
        → StopsTorn K.cmp (Passed K.cmp aim.entry) placed.now file table.now.frame start))) }
    ensures still { IsStill (S.facts source.old.store) (S.facts source.new.store) result }
    ensures refused { IfErr result (λ e. Refuses e (S.facts source.old.store) (S.facts source.new.store)
        (LacksOn K.cmp (Passed K.cmp aim.entry) (seen_through S.facts source.old) placed.now table.now.frame start)
        (AnyLong (handles table.now.frame))) }
{
    for index in start..table.places().len() {
        let block = read_index(alloc, source, placed, table, index)?;
        let cursor = enter(alloc, block, aim)?;
        if cursor.stands() {
            return Ok(Some(InBlock { index, cursor }));
        }
    }
    Ok(None)
}

/// Looks for the last pair of the blocks before one. Corrupt and Unsupported as `search_on`.
pub fn search_back<K: KeyOrder, S: Store>(
    alloc: Global,
    source: &mut Tables<K, S>,
    placed: &PlacedTable,
    table: &Table<K>,
    end: usize,
) -> Result<Option<InBlock<BlockCursor<Internal<K>>>>, DbError>
    requires { 0 < placed.now.table.number }
    ensures carries { Carries K.cmp (Only placed.now.table.number) (seen_through S.facts source.old) (seen_through S.facts source.new) }
    ensures found { IfOk result (λ here. IsTrue (S.facts source.new.store).faithful → (groups : List (List Pair))
        → HasData K.cmp (seen_through S.facts source.old) placed.now table.now.frame groups → end ≤ length groups
        → IsPlacedIn groups here (index_before (pairs_before groups end))) }
    ensures still { IsStill (S.facts source.old.store) (S.facts source.new.store) result }
    ensures refused { IfErr result (λ e. Refuses e (S.facts source.old.store) (S.facts source.new.store)
        (LacksBack K.cmp (seen_through S.facts source.old) placed.now table.now.frame end)
        (AnyLong (handles table.now.frame))) }
{
    for step in 0..end {
        let index = end - step - 1;
        let block = read_index(alloc, source, placed, table, index)?;
        let mut cursor = BlockCursor::new(alloc, block);
        cursor.last()?;
        if cursor.stands() {
            return Ok(Some(InBlock { index, cursor }));
        }
    }
    Ok(None)
}

// A cursor on the first pair of a block that isn't passed, or nowhere.
fn enter<K: KeyOrder>(
    alloc: Global,
    block: Rc<Block<Internal<K>>>,
    aim: Aim<'_>,
) -> Result<BlockCursor<Internal<K>>, AllocError>
    ensures pairs { IfOk result (λ cursor. cursor.pairs ≡ block.value.pairs) }
    ensures place { IfOk result (λ cursor. (index : ℕ) × StopsAt (Passed K.cmp aim.entry) block.value.pairs 0 index
        × (cursor.place ≡ within block.value.pairs index)) }
{
    let mut cursor = BlockCursor::new(alloc, block);
    match aim {
        Aim::First => {
            cursor.first()?;
            Ok(cursor)
        }
        Aim::From(target) => {
            cursor.seek(target)?;
            Ok(cursor)
        }
    }
}

// The data block of this index. It is checked against its place when it comes from the store. The
// first and the last one are checked against the edit each time: what is kept of a table doesn't
// know its edit.
fn read_index<K: KeyOrder, S: Store>(
    alloc: Global,
    source: &mut Tables<K, S>,
    placed: &PlacedTable,
    table: &Table<K>,
    index: usize,
) -> Result<Rc<Block<Internal<K>>>, DbError>
    requires { 0 < placed.now.table.number }
    ensures carries { Carries K.cmp (Only placed.now.table.number) (seen_through S.facts source.old) (seen_through S.facts source.new) }
    ensures found { IfOk result (λ block. IsTrue (S.facts source.new.store).faithful → (groups : List (List Pair))
        → HasData K.cmp (seen_through S.facts source.old) placed.now table.now.frame groups → slice_get groups index ≡ Some block.value.pairs) }
    // Whatever the table holds beside, the block is whole and in its place, and if it is an end, it
    // has the edit's key there.
    ensures intact { IfOk result (λ block. SaysOf K.cmp (seen_through S.facts source.old) (seen_through S.facts source.new)
        placed.now.table.number (HasIntactIn K.cmp placed.now table.now.frame index block.value.pairs)) }
    ensures torn { IfErr result (λ e. IfCorrupt e (SaysOf K.cmp (seen_through S.facts source.old) (seen_through S.facts source.new)
        placed.now.table.number (λ file. IsFrame K.cmp file table.now.frame → IsTornIn K.cmp placed.now file table.now.frame index))) }
    ensures still { IsStill (S.facts source.old.store) (S.facts source.new.store) result }
    ensures refused { IfErr result (λ e. Refuses e (S.facts source.old.store) (S.facts source.new.store)
        (LacksBlock K.cmp (seen_through S.facts source.old) placed.now table.now.frame index)
        (AnyLong (handles table.now.frame))) }
{
    let block = source.read_block(alloc, placed.table.number, index)?;
    if !has_ends(alloc, placed, table.places().len(), index, &block)? {
        return Err(DbError::Corrupt(FileKind::Table, Damage::Order));
    }
    Ok(block)
}
