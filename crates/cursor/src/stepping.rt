//! Steps over a place in a list: the entries before it pass a test, and those after it don't.

ghost use Rattle.std.specs.Prelude.{List, Bool, ℕ, suc, Some, OnOk, IsTrue};
ghost use Rattle.cursor.specs.Places.{within};
ghost use Rattle.ikey.specs.Entries.{InternalEntry};
ghost use Rattle.table.specs.Reading.{IsStill};
ghost use Rattle.cursor.specs.Cuts.{next_cut, prev_cut};
ghost use Rattle.cursor.specs.Moves.{Stays, place_after, RefusesMove};
ghost use Rattle.cursor.specs.Merging.{listed, ahead, behind};
ghost use Rattle.cursor.specs.Searches.{Wanders};

use crate::cursor::Cursor;
use coding::DbError;
use ikey::KeyOrder;
use std::alloc::Global;

/// Steps from the last entry before a place to the first that isn't before it.
pub fn step_ahead<K: KeyOrder, S, C: Cursor<K, S>>(
    cursor: &mut C,
    alloc: Global,
    source: &mut S,
) -> Result<(), DbError>
    ensures moves { IsTrue (C.facts source.new).faithful → (test : InternalEntry → Bool) (list : List InternalEntry)
        → C.lists cursor.old source.old (listed list (behind test list))
        → C.lists cursor.new source.new (listed list (place_after result (ahead test list) (behind test list))) }
    ensures wanders { Wanders C.facts C.lists C.keeps C.limited C.torn C.leaves C.over cursor.old cursor.new source.old source.new }
    ensures still { IsStill (C.facts source.old) (C.facts source.new) result }
    ensures refused { RefusesMove C.facts C.lists C.limited C.torn next_cut cursor.old source.old source.new result }
{
    if cursor.stands() {
        return cursor.next(alloc, source);
    }
    cursor.first(alloc, source)
}

/// Steps from an entry to the next one.
pub fn step_off<K: KeyOrder, S, C: Cursor<K, S>>(
    cursor: &mut C,
    alloc: Global,
    source: &mut S,
) -> Result<(), DbError>
    ensures moves { IsTrue (C.facts source.new).faithful → (list : List InternalEntry) (index : ℕ)
        → C.lists cursor.old source.old (listed list (Some index))
        → OnOk result (C.lists cursor.new source.new (listed list (within list (suc index)))) }
    ensures wanders { Wanders C.facts C.lists C.keeps C.limited C.torn C.leaves C.over cursor.old cursor.new source.old source.new }
    ensures still { IsStill (C.facts source.old) (C.facts source.new) result }
    ensures refused { RefusesMove C.facts C.lists C.limited C.torn next_cut cursor.old source.old source.new result }
{
    if !cursor.stands() {
        // (only over a store that isn't faithful)
        return Ok(());
    }
    cursor.next(alloc, source)
}

/// Steps from the first entry that isn't before a place to the last that is.
pub fn step_behind<K: KeyOrder, S, C: Cursor<K, S>>(
    cursor: &mut C,
    alloc: Global,
    source: &mut S,
) -> Result<(), DbError>
    ensures moves { IsTrue (C.facts source.new).faithful → (test : InternalEntry → Bool) (list : List InternalEntry)
        → C.lists cursor.old source.old (listed list (ahead test list))
        → C.lists cursor.new source.new (listed list (place_after result (behind test list) (ahead test list))) }
    ensures stays { Stays C.facts C.keeps C.limited C.torn C.leaves C.over cursor.old cursor.new source.old source.new }
    ensures still { IsStill (C.facts source.old) (C.facts source.new) result }
    ensures refused { RefusesMove C.facts C.lists C.limited C.torn prev_cut cursor.old source.old source.new result }
{
    if cursor.stands() {
        return cursor.prev(alloc, source);
    }
    cursor.last(alloc, source)
}
