//! A cursor over a table file (LevelDB's table/two_level_iterator.cc).

ghost use Rattle.std.specs.Prelude.{◌<◌, ℕ, List, Option, IsTrue, IfOk, OnErr};
ghost use Rattle.ikey.specs.Entries.{Pair};
ghost use Rattle.table_access.specs.TablePlaces.{IsPlacedIn, StepsBack, StepsOn, block_stands};

use crate::in_block::InBlock;
use crate::table_search::{Aim, search_back, search_on};
use crate::tables::Tables;
use block::BlockCursor;
use coding::DbError;
use cursor::Cursor;
use edits::{PlacedTable, copy_of};
use ikey::{Internal, KeyOrder};
use std::alloc::{AllocError, Global};
use std::rc::Rc;
use store::Store;
use table::Table;

/// Holds a cursor over the table of a version edit, which it keeps for the keys at its ends. It
/// holds the table open for its index, and has one data block at a time, which it shares with the
/// cache. A move beyond the block reads the next one beside it, and changes nothing if that fails.
#[derive(Drop)]
pub struct TableCursor<K: KeyOrder> {
    placed: PlacedTable,
    ghost positive: { 0 < placed.table.number },
    table: Rc<Table<K>>,
    here: Option<InBlock<BlockCursor<Internal<K>>>>,
}

impl<K: KeyOrder> TableCursor<K> {
    ghost use Rattle.std.specs.Prelude.{◌≡◌, ◌<◌, List, ℕ, None, Some, IsTrue, IfOk, IfErr, OnOk};
    ghost use Rattle.cache.specs.Tables.{RefusesTable, table_at};
    ghost use Rattle.cursor.specs.Cuts.{first_cut, key_cut, last_cut, next_cut, prev_cut};
    ghost use Rattle.cursor.specs.Merging.{listed};
    ghost use Rattle.cursor.specs.Moves.{Refuses, after_move};
    ghost use Rattle.cursor.specs.Places.{Listed, to_first, to_key, to_last, to_next, to_prev};
    ghost use Rattle.ikey.specs.Entries.{InternalEntry};
    ghost use Rattle.ikey.specs.Keys.{Key, IsKey};
    ghost use Rattle.table_access.specs.Ends.{HasKeysOf};
    ghost use Rattle.table_access.specs.Possible.{MayBeTable};
    ghost use Rattle.table_access.specs.TablePlaces.{ListsTable, StepsTo, block_stands};
    ghost use Rattle.table_access.specs.Tables.{Carries, HasSoundTable, IsOpenFrame, Only, SaysOf, seen_through};
    ghost use Rattle.table_access.specs.Torn.{TornTable};
    ghost use Rattle.table_access.specs.TornLaws.{torn_same};
    ghost use Rattle.table.specs.Frame.{AnyLong, handles};
    ghost use Rattle.table.specs.Reading.{IsStill};
    ghost use Rattle.table.specs.Refusals.{IsFrameDamaged, IsFrameUnsupported};

    /// Opens this table of an edit, and makes a cursor over it. It stands nowhere. Corrupt and
    /// Unsupported as `Table::open`.
    pub fn open<S: Store>(
        alloc: Global,
        source: &mut Tables<K, S>,
        placed: &PlacedTable,
    ) -> Result<Self, DbError>
        requires { 0 < placed.now.table.number }
        ensures placed { IfOk result (λ cursor. cursor.placed ≡ placed.now) }
        ensures nowhere { IfOk result (λ cursor. cursor.here ≡ None) }
        ensures carries { Carries K.cmp (Only placed.now.table.number) (seen_through S.facts source.old) (seen_through S.facts source.new) }
        ensures lists { IfOk result (λ cursor. SaysOf K.cmp (seen_through S.facts source.old) (seen_through S.facts source.new)
            placed.now.table.number (λ file. (entries : List InternalEntry) → MayBeTable K.cmp placed.now file entries → HasKeysOf placed.now entries
            → ListsTable K.cmp (seen_through S.facts source.new) placed.now cursor.table.value.frame None (listed entries None))) }
        ensures open { IfOk result (λ cursor. SaysOf K.cmp (seen_through S.facts source.old) (seen_through S.facts source.new)
            placed.now.table.number (λ file. IsOpenFrame K.cmp file cursor.table.value.frame)) }
        ensures stood { OnOk result ((S.facts source.new.store).failures ≡ (S.facts source.old.store).failures) }
        ensures still { IsStill (S.facts source.old.store) (S.facts source.new.store) result }
        ensures refused { IfErr result (λ e. RefusesTable e (S.facts source.old.store) (S.facts source.new.store) placed.now.table.number
            (IsFrameDamaged K.cmp) IsFrameUnsupported) }
    {
        let kept = copy_of(alloc, placed)?;
        let table = source.get_table(alloc, placed.table.number)?;
        Ok(TableCursor {
            placed: kept,
            table,
            here: None,
        })
    }

    /// Moves to the first entry, or nowhere if there is none.
    pub fn to_first<S: Store>(
        &mut self,
        alloc: Global,
        source: &mut Tables<K, S>,
    ) -> Result<(), DbError>
        ensures carries { Carries K.cmp (Only self.old.placed.table.number) (seen_through S.facts source.old) (seen_through S.facts source.new) }
        ensures placed { self.new.placed ≡ self.old.placed }
        ensures table { self.new.table ≡ self.old.table }
        ensures moves { IsTrue (S.facts source.new.store).faithful → (at : Listed)
            → ListsTable K.cmp (seen_through S.facts source.old) self.old.placed self.old.table.value.frame self.old.here at
            → ListsTable K.cmp (seen_through S.facts source.new) self.old.placed self.old.table.value.frame self.new.here
            (after_move result to_first at) }
        ensures still { IsStill (S.facts source.old.store) (S.facts source.new.store) result }
        ensures refused { IfErr result (λ e. Refuses e (S.facts source.old.store) (S.facts source.new.store)
            ((at : Listed) → ListsTable K.cmp (seen_through S.facts source.old) self.old.placed self.old.table.value.frame self.old.here at
            → TornTable K.cmp (seen_through S.facts source.old) self.old.placed self.old.table.value.frame (first_cut at))
            (AnyLong (handles self.old.table.value.frame))) }
    {
        self.here = search_on(alloc, source, &self.placed, &self.table, 0, Aim::First)?;
        Ok(())
    }

    /// Moves to the last entry, or nowhere if there is none.
    pub fn to_last<S: Store>(
        &mut self,
        alloc: Global,
        source: &mut Tables<K, S>,
    ) -> Result<(), DbError>
        ensures carries { Carries K.cmp (Only self.old.placed.table.number) (seen_through S.facts source.old) (seen_through S.facts source.new) }
        ensures placed { self.new.placed ≡ self.old.placed }
        ensures table { self.new.table ≡ self.old.table }
        ensures moves { IsTrue (S.facts source.new.store).faithful → (at : Listed)
            → ListsTable K.cmp (seen_through S.facts source.old) self.old.placed self.old.table.value.frame self.old.here at
            → ListsTable K.cmp (seen_through S.facts source.new) self.old.placed self.old.table.value.frame self.new.here
            (after_move result to_last at) }
        ensures still { IsStill (S.facts source.old.store) (S.facts source.new.store) result }
        ensures refused { IfErr result (λ e. Refuses e (S.facts source.old.store) (S.facts source.new.store)
            ((at : Listed) → ListsTable K.cmp (seen_through S.facts source.old) self.old.placed self.old.table.value.frame self.old.here at
            → TornTable K.cmp (seen_through S.facts source.old) self.old.placed self.old.table.value.frame (last_cut at))
            (AnyLong (handles self.old.table.value.frame))) }
    {
        let end = self.table.places().len();
        self.here = search_back(alloc, source, &self.placed, &self.table, end)?;
        Ok(())
    }

    /// Moves to the first entry whose internal key isn't below the target, an internal key, or
    /// nowhere if there is none.
    pub fn to_key<S: Store>(
        &mut self,
        alloc: Global,
        source: &mut Tables<K, S>,
        target: &[u8],
    ) -> Result<(), DbError>
        ensures carries { Carries K.cmp (Only self.old.placed.table.number) (seen_through S.facts source.old) (seen_through S.facts source.new) }
        ensures placed { self.new.placed ≡ self.old.placed }
        ensures table { self.new.table ≡ self.old.table }
        ensures moves { (key : Key) → IsKey target.now key → IsTrue (S.facts source.new.store).faithful → (at : Listed)
            → ListsTable K.cmp (seen_through S.facts source.old) self.old.placed self.old.table.value.frame self.old.here at
            → ListsTable K.cmp (seen_through S.facts source.new) self.old.placed self.old.table.value.frame self.new.here
            (after_move result (to_key K.cmp key) at) }
        ensures still { IsStill (S.facts source.old.store) (S.facts source.new.store) result }
        ensures refused { IfErr result (λ e. Refuses e (S.facts source.old.store) (S.facts source.new.store)
            ((key : Key) → IsKey target.now key → (at : Listed)
            → ListsTable K.cmp (seen_through S.facts source.old) self.old.placed self.old.table.value.frame self.old.here at
            → TornTable K.cmp (seen_through S.facts source.old) self.old.placed self.old.table.value.frame (key_cut key at))
            (AnyLong (handles self.old.table.value.frame))) }
    {
        let start = self.table.first_place(target);
        let aim = Aim::From(target);
        self.here = search_on(alloc, source, &self.placed, &self.table, start, aim)?;
        Ok(())
    }

    /// Steps to the next pair, if there is one; else it stays where it stands, and the answer is
    /// false.
    pub fn step<S: Store>(
        &mut self,
        alloc: Global,
        source: &mut Tables<K, S>,
    ) -> Result<bool, DbError>
        requires { IsTrue (block_stands self.old.here) }
        ensures carries { Carries K.cmp (Only self.old.placed.table.number) (seen_through S.facts source.old) (seen_through S.facts source.new) }
        ensures placed { self.new.placed ≡ self.old.placed }
        ensures table { self.new.table ≡ self.old.table }
        ensures steps { IsTrue (S.facts source.new.store).faithful → (at : Listed)
            → ListsTable K.cmp (seen_through S.facts source.old) self.old.placed self.old.table.value.frame self.old.here at
            → StepsTo (ListsTable K.cmp
            (seen_through S.facts source.new) self.old.placed self.old.table.value.frame self.new.here) to_next result at }
        ensures still { IsStill (S.facts source.old.store) (S.facts source.new.store) result }
        ensures refused { IfErr result (λ e. Refuses e (S.facts source.old.store) (S.facts source.new.store)
            ((at : Listed) → ListsTable K.cmp (seen_through S.facts source.old) self.old.placed self.old.table.value.frame self.old.here at
            → TornTable K.cmp (seen_through S.facts source.old) self.old.placed self.old.table.value.frame (next_cut at))
            (AnyLong (handles self.old.table.value.frame))) }
    {
        let start = match step_on(&mut self.here)? {
            Some(start) => start,
            None => return Ok(true),
        };
        match search_on(alloc, source, &self.placed, &self.table, start, Aim::First)? {
            Some(found) => {
                self.here = Some(found);
                Ok(true)
            }
            None => Ok(false),
        }
    }

    /// Steps to the pair before, if there is one; else it stays where it stands, and the answer is
    /// false.
    pub fn step_back<S: Store>(
        &mut self,
        alloc: Global,
        source: &mut Tables<K, S>,
    ) -> Result<bool, DbError>
        requires { IsTrue (block_stands self.old.here) }
        ensures carries { Carries K.cmp (Only self.old.placed.table.number) (seen_through S.facts source.old) (seen_through S.facts source.new) }
        ensures placed { self.new.placed ≡ self.old.placed }
        ensures table { self.new.table ≡ self.old.table }
        ensures steps { IsTrue (S.facts source.new.store).faithful → (at : Listed)
            → ListsTable K.cmp (seen_through S.facts source.old) self.old.placed self.old.table.value.frame self.old.here at
            → StepsTo (ListsTable K.cmp
            (seen_through S.facts source.new) self.old.placed self.old.table.value.frame self.new.here) to_prev result at }
        ensures still { IsStill (S.facts source.old.store) (S.facts source.new.store) result }
        ensures refused { IfErr result (λ e. Refuses e (S.facts source.old.store) (S.facts source.new.store)
            ((at : Listed) → ListsTable K.cmp (seen_through S.facts source.old) self.old.placed self.old.table.value.frame self.old.here at
            → TornTable K.cmp (seen_through S.facts source.old) self.old.placed self.old.table.value.frame (prev_cut at))
            (AnyLong (handles self.old.table.value.frame))) }
    {
        let end = match step_back(&mut self.here)? {
            Some(end) => end,
            None => return Ok(true),
        };
        match search_back(alloc, source, &self.placed, &self.table, end)? {
            Some(found) => {
                self.here = Some(found);
                Ok(true)
            }
            None => Ok(false),
        }
    }
}

impl<K: KeyOrder, S: Store> Cursor<K, Tables<K, S>> for TableCursor<K> {
    ghost use Rattle.std.specs.Prelude.{◌≡◌};
    ghost use Rattle.table_access.specs.TableLaws.{carries_both, carries_itself, carries_more, lists_kept};
    ghost use Rattle.table_access.specs.TableLaws.{placed_in, table_onward, table_still, torn_kept};
    ghost use Rattle.table_access.specs.TablePlaces.{KeepsSeenTable, ListsTable};
    ghost use Rattle.table_access.specs.Tables.{Carries, seen_through};
    ghost use Rattle.table_access.specs.Torn.{TornTable};
    ghost use Rattle.table_access.specs.TornLaws.{torn_same};
    ghost use Rattle.table.specs.Frame.{AnyLong, handles};

    ghost facts = { λ source. S.facts source.store };

    ghost lists = { λ cursor source at. ListsTable K.cmp (seen_through S.facts source) cursor.placed cursor.table.value.frame cursor.here at };

    ghost keeps = { λ cursor old new. KeepsSeenTable K.cmp cursor.placed.table.number (seen_through S.facts old) (seen_through S.facts new) };

    ghost stands = { λ cursor. block_stands cursor.here };

    ghost limited = { λ cursor source. AnyLong (handles cursor.table.value.frame) };

    ghost torn = { λ cursor source cut. TornTable K.cmp (seen_through S.facts source) cursor.placed cursor.table.value.frame cut };

    ghost leaves = { λ numbers old new. Carries K.cmp numbers (seen_through S.facts old) (seen_through S.facts new) };

    ghost over = { λ cursor number. number ≡ cursor.placed.table.number };

    fn first(&mut self, alloc: Global, source: &mut Tables<K, S>) -> Result<(), DbError> {
        self.to_first(alloc, source)?;
        Ok(())
    }

    fn last(&mut self, alloc: Global, source: &mut Tables<K, S>) -> Result<(), DbError> {
        self.to_last(alloc, source)?;
        Ok(())
    }

    fn seek(
        &mut self,
        alloc: Global,
        source: &mut Tables<K, S>,
        target: &[u8],
    ) -> Result<(), DbError> {
        self.to_key(alloc, source, target)?;
        Ok(())
    }

    fn next(&mut self, alloc: Global, source: &mut Tables<K, S>) -> Result<(), DbError> {
        if self.step(alloc, source)? {
            return Ok(());
        }
        self.here = None;
        Ok(())
    }

    fn prev(&mut self, alloc: Global, source: &mut Tables<K, S>) -> Result<(), DbError> {
        if self.step_back(alloc, source)? {
            return Ok(());
        }
        self.here = None;
        Ok(())
    }

    fn stands(&self) -> bool {
        match &self.here {
            Some(here) => here.cursor.stands(),
            None => false,
        }
    }

    fn key<'a>(&'a self, source: &'a Tables<K, S>) -> &'a [u8] {
        match &self.here {
            Some(here) => here.cursor.key(),
            None => unreachable!(),
        }
    }

    fn value<'a>(&'a self, source: &'a Tables<K, S>) -> &'a [u8] {
        match &self.here {
            Some(here) => here.cursor.value(),
            None => unreachable!(),
        }
    }

    ghost rises = { λ cursor source at h. h.rises };

    ghost placed = { λ cursor source at h. placed_in h.groups cursor.here at.place h.place };

    ghost inside = { λ cursor source at index h e. h.inside index e };

    ghost kept = { λ cursor old new at k h. lists_kept K.cmp cursor.placed cursor.table.value.frame cursor.here _ _ at k h };

    ghost still = { λ cursor source. table_still K.cmp cursor.placed.table.number _ };

    ghost onward = { λ cursor first second third k l. table_onward K.cmp cursor.placed.table.number _ _ _ k l };

    ghost limits_kept = { λ cursor old new k l. l };

    ghost torn_kept = { λ cursor old new cut k t. torn_kept K.cmp cursor.placed cursor.table.value.frame _ _ cut k t };

    ghost torn_same = { λ cursor source at a b h same t. torn_same K.cmp _ cursor.placed cursor.table.value.frame cursor.here at h a b same t };

    ghost leaves_still = { λ numbers source. carries_itself K.cmp _ };

    ghost leaves_onward = { λ numbers first second third k l. carries_both K.cmp _ _ _ k l };

    ghost leaves_more = { λ fewer more old new less k. carries_more K.cmp _ _ less k };
}

// One step on within the block. On its last pair nothing moves, and the answer is the index of the
// next block.
fn step_on<K: KeyOrder>(
    here: &mut Option<InBlock<BlockCursor<Internal<K>>>>,
) -> Result<Option<usize>, AllocError>
    requires { IsTrue (block_stands here.old) }
    ensures ok { IfOk result (λ next. (groups : List (List Pair)) (place : Option ℕ) → IsPlacedIn groups here.old place
        → StepsOn groups here.new place next) }
    ensures err { OnErr result ((groups : List (List Pair)) (place : Option ℕ) → IsPlacedIn groups here.old place
        → IsPlacedIn groups here.new place) }
{
    let Some(here) = here else {
        unreachable!();
    };
    if here.cursor.has_next() {
        here.cursor.next()?;
        return Ok(None);
    }
    Ok(Some(here.index + 1))
}

// One step back within the block. On its first pair nothing moves, and the answer is the index of
// the block.
fn step_back<K: KeyOrder>(
    here: &mut Option<InBlock<BlockCursor<Internal<K>>>>,
) -> Result<Option<usize>, AllocError>
    requires { IsTrue (block_stands here.old) }
    ensures ok { IfOk result (λ end. (groups : List (List Pair)) (place : Option ℕ) → IsPlacedIn groups here.old place
        → StepsBack groups here.new place end) }
    ensures err { OnErr result ((groups : List (List Pair)) (place : Option ℕ) → IsPlacedIn groups here.old place
        → IsPlacedIn groups here.new place) }
{
    let Some(here) = here else {
        unreachable!();
    };
    if here.cursor.has_prev() {
        here.cursor.prev()?;
        return Ok(None);
    }
    Ok(Some(here.index))
}
