//! A cursor over tables in a row.

ghost use Rattle.std.specs.Prelude.{◌≤◌, ℕ, List, Option, length, IsTrue, IfErr};
ghost use Rattle.cursor.specs.Cuts.{next_cut, prev_cut};
ghost use Rattle.cursor.specs.Merging.{listed};
ghost use Rattle.cursor.specs.Moves.{Refuses};
ghost use Rattle.ikey.specs.Entries.{InternalEntry};
ghost use Rattle.level_cursor.specs.InRows.{IsOpenLimited, IsOpenNumber, IsPlacedRow, IsTornHere, joined, table_stands};
ghost use Rattle.level_cursor.specs.Searches.{IsSameTable, RowStepsBack, RowStepsOn};
ghost use Rattle.table_access.specs.Tables.{Carries, seen_through};
ghost use Rattle.table.specs.Reading.{IsStill};

use crate::in_table::InTable;
use crate::row_search::{Aim, first_table, search_back, search_on};
use coding::DbError;
use cursor::Cursor;
use edits::PlacedTable;
use ikey::KeyOrder;
use std::alloc::Global;
use std::rc::Rc;
use store::Store;
use table_access::Tables;
use versions::Version;

/// Holds a cursor over the entries of consecutive tables of a version, as those of a level below 0.
/// A table is opened when it is reached, and released when the cursor leaves it.
#[derive(Drop)]
pub struct RowCursor<K: KeyOrder> {
    version: Rc<Version<K>>,
    from: usize,
    end: usize,
    ghost inside: { (from ≤ end) × (end ≤ length version.value.tables) },
    here: Option<InTable<K>>,
}

impl<K: KeyOrder> RowCursor<K> {
    ghost use Rattle.std.specs.Prelude.{◌≡◌, ◌≤◌, None, length};
    ghost use Rattle.level_cursor.specs.Rows.{row_of};

    /// Makes a cursor over the tables of the version from the first index on, up to the second. It
    /// stands nowhere. It takes no memory, and opens nothing.
    pub fn over(version: Rc<Version<K>>, from: usize, end: usize) -> Self
        requires order { from ≤ end }
        requires within { end ≤ length version.value.tables }
        ensures version { result.version ≡ version }
        ensures from { result.from ≡ from }
        ensures end { result.end ≡ end }
        ensures nowhere { result.here ≡ None }
    {
        RowCursor {
            version,
            from,
            end,
            here: None,
        }
    }

    // The tables of the row.
    fn row(&self) -> &[PlacedTable]
        ensures { result.now ≡ row_of self.now.from self.now.end self.now.version.value.tables }
    {
        &self.version.tables()[self.from..self.end]
    }
}

impl<K: KeyOrder, S: Store> Cursor<K, Tables<K, S>> for RowCursor<K> {
    ghost use Rattle.level_cursor.specs.RowLaws.{limits_kept, lists_kept, placed_in, row_onward, row_still};
    ghost use Rattle.level_cursor.specs.Rows.{GoesOverRow, IsRowLimited, IsRowTorn, KeepsRow, ListsRow, row_stands};
    ghost use Rattle.level_cursor.specs.TornRows.{torn_kept, torn_same};
    ghost use Rattle.table_access.specs.TableLaws.{carries_both, carries_itself, carries_more};
    ghost use Rattle.table_access.specs.Tables.{Carries, seen_through};

    ghost facts = { λ source. S.facts source.store };

    ghost lists = { λ cursor source at. ListsRow K.cmp (seen_through S.facts source) cursor at };

    ghost keeps = { λ cursor old new. KeepsRow K.cmp cursor (seen_through S.facts old) (seen_through S.facts new) };

    ghost stands = { λ cursor. row_stands cursor };

    ghost limited = { λ cursor source. IsRowLimited K.cmp (seen_through S.facts source) cursor };

    ghost torn = { λ cursor source cut. IsRowTorn K.cmp (seen_through S.facts source) cursor cut };

    ghost leaves = { λ numbers old new. Carries K.cmp numbers (seen_through S.facts old) (seen_through S.facts new) };

    ghost over = { λ cursor number. GoesOverRow cursor number };

    fn first(&mut self, alloc: Global, source: &mut Tables<K, S>) -> Result<(), DbError> {
        self.here = search_on(alloc, source, self.row(), 0, Aim::First)?;
        Ok(())
    }

    fn last(&mut self, alloc: Global, source: &mut Tables<K, S>) -> Result<(), DbError> {
        let end = self.row().len();
        self.here = search_back(alloc, source, self.row(), end)?;
        Ok(())
    }

    fn seek(
        &mut self,
        alloc: Global,
        source: &mut Tables<K, S>,
        target: &[u8],
    ) -> Result<(), DbError> {
        let start = first_table::<K>(self.row(), target);
        self.here = search_on(alloc, source, self.row(), start, Aim::From(target))?;
        Ok(())
    }

    fn next(&mut self, alloc: Global, source: &mut Tables<K, S>) -> Result<(), DbError> {
        let start = match step_on(&mut self.here, alloc, source)? {
            Some(start) => start,
            None => return Ok(()),
        };
        self.here = search_on(alloc, source, self.row(), start, Aim::First)?;
        Ok(())
    }

    fn prev(&mut self, alloc: Global, source: &mut Tables<K, S>) -> Result<(), DbError> {
        let end = match step_back(&mut self.here, alloc, source)? {
            Some(end) => end,
            None => return Ok(()),
        };
        self.here = search_back(alloc, source, self.row(), end)?;
        Ok(())
    }

    fn stands(&self) -> bool {
        match &self.here {
            Some(here) => Cursor::<K, Tables<K, S>>::stands(&here.cursor),
            None => false,
        }
    }

    fn key<'a>(&'a self, source: &'a Tables<K, S>) -> &'a [u8] {
        match &self.here {
            Some(here) => here.cursor.key(source),
            None => unreachable!(),
        }
    }

    fn value<'a>(&'a self, source: &'a Tables<K, S>) -> &'a [u8] {
        match &self.here {
            Some(here) => here.cursor.value(source),
            None => unreachable!(),
        }
    }

    ghost rises = { λ cursor source at h. h.rises };

    ghost placed = { λ cursor source at h. placed_in K.cmp _ h.lists cursor.here at.place h.place };

    ghost inside = { λ cursor source at index h e. h.inside index e };

    ghost kept = { λ cursor old new at k h. lists_kept K.cmp _ cursor.here _ _ at k h };

    ghost still = { λ cursor source. row_still K.cmp _ cursor.here _ };

    ghost onward = { λ cursor first second third k l. row_onward K.cmp _ cursor.here _ _ _ k l };

    ghost limits_kept = { λ cursor old new k l. limits_kept K.cmp _ cursor.here _ _ k l };

    ghost torn_kept = { λ cursor old new cut k t. torn_kept K.cmp _ cursor.here _ _ cut k t };

    ghost torn_same = { λ cursor source at a b h same t. torn_same K.cmp _ _ cursor.here at a b h same t };

    ghost leaves_still = { λ numbers source. carries_itself K.cmp _ };

    ghost leaves_onward = { λ numbers first second third k l. carries_both K.cmp _ _ _ k l };

    ghost leaves_more = { λ fewer more old new less k. carries_more K.cmp _ _ less k };
}

// One step on within the table. On its last entry nothing moves, and the answer is the index of the
// next table.
fn step_on<K: KeyOrder, S: Store>(
    here: &mut Option<InTable<K>>,
    alloc: Global,
    source: &mut Tables<K, S>,
) -> Result<Option<usize>, DbError>
    requires { IsTrue (table_stands here.old) }
    ensures carries { Carries K.cmp (λ number. IsOpenNumber here.old number) (seen_through S.facts source.old) (seen_through S.facts source.new) }
    ensures same { IsSameTable here.old here.new }
    ensures steps { IsTrue (S.facts source.new.store).faithful → (lists : List (List InternalEntry)) (place : Option ℕ)
        → IsPlacedRow K.cmp (seen_through S.facts source.old) lists here.old place
        → RowStepsOn K.cmp (seen_through S.facts source.new) lists here.new place result }
    ensures still { IsStill (S.facts source.old.store) (S.facts source.new.store) result }
    ensures refused { IfErr result (λ e. Refuses e (S.facts source.old.store) (S.facts source.new.store)
        ((lists : List (List InternalEntry)) (place : Option ℕ) → IsPlacedRow K.cmp (seen_through S.facts source.old) lists here.old place
        → IsTornHere K.cmp (seen_through S.facts source.old) here.old (next_cut (listed (joined lists) place))) (IsOpenLimited here.old)) }
{
    let Some(here) = here else {
        unreachable!();
    };
    if here.cursor.step(alloc, source)? {
        return Ok(None);
    }
    Ok(Some(here.index + 1))
}

// One step back within the table. On its first entry nothing moves, and the answer is the index of
// the table.
fn step_back<K: KeyOrder, S: Store>(
    here: &mut Option<InTable<K>>,
    alloc: Global,
    source: &mut Tables<K, S>,
) -> Result<Option<usize>, DbError>
    requires { IsTrue (table_stands here.old) }
    ensures carries { Carries K.cmp (λ number. IsOpenNumber here.old number) (seen_through S.facts source.old) (seen_through S.facts source.new) }
    ensures same { IsSameTable here.old here.new }
    ensures steps { IsTrue (S.facts source.new.store).faithful → (lists : List (List InternalEntry)) (place : Option ℕ)
        → IsPlacedRow K.cmp (seen_through S.facts source.old) lists here.old place
        → RowStepsBack K.cmp (seen_through S.facts source.new) lists here.new place result }
    ensures still { IsStill (S.facts source.old.store) (S.facts source.new.store) result }
    ensures refused { IfErr result (λ e. Refuses e (S.facts source.old.store) (S.facts source.new.store)
        ((lists : List (List InternalEntry)) (place : Option ℕ) → IsPlacedRow K.cmp (seen_through S.facts source.old) lists here.old place
        → IsTornHere K.cmp (seen_through S.facts source.old) here.old (prev_cut (listed (joined lists) place))) (IsOpenLimited here.old)) }
{
    let Some(here) = here else {
        unreachable!();
    };
    if here.cursor.step_back(alloc, source)? {
        return Ok(None);
    }
    Ok(Some(here.index))
}
