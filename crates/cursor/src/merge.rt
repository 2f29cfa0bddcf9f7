//! Several cursors as one (LevelDB's table/merger.cc).

ghost use Rattle.std.specs.Prelude.{◌≡◌, ◌<◌, ℕ, List, Option, Some, None, true};
ghost use Rattle.std.specs.Prelude.{false, length, slice_get, IsTrue, IfErr, OnOk, OnErr, MatchOption};
ghost use Rattle.std.specs.List.{AllByRecursion};
ghost use Rattle.ikey.specs.Entries.{InternalEntry};
ghost use Rattle.ikey.specs.Keys.{Key, IsKey};
ghost use Rattle.table.specs.Reading.{IsStill};
ghost use Rattle.cursor.specs.Places.{Listed};
ghost use Rattle.cursor.specs.Moves.{Stays, Refuses, after_move};
ghost use Rattle.cursor.specs.Merging.{IsMerge, IsUnion, Each, KeepsAll, AnyLimited, AnyTorn, GoesOverAny, child_stands, listed};
ghost use Rattle.cursor.specs.Motions.{AimsJump, IsJump, end_of, motion_cut, place_of};

use crate::child::{Child, Motion, Side};
use crate::children::End;
use crate::copying::copy_to;
use crate::cursor::Cursor;
use crate::walking::{go_back, go_on, go_to};
use coding::DbError;
use ikey::KeyOrder;
use std::alloc::{AllocError, Global};
use std::marker::PhantomData;

/// Merges cursors into one: their lists' union, in order, if no two share an internal key. For the
/// next entry it compares all children, which serves the few that a database has. Each child knows
/// on which side of the merge's entry it stands, so that a turn moves it by one step, and looks for
/// no key.
#[derive(Drop)]
pub struct Merge<K: KeyOrder, C> {
    children: Vec<Child<C>>,
    // the index of the child that stands on the merge's entry, if the merge stands on one
    current: Option<usize>,
    // the key of that entry, if a child is astray
    target: Vec<u8>,
    order: PhantomData<K>,
}

impl<K: KeyOrder, C: Drop> Merge<K, C> {
    ghost use Rattle.std.specs.Prelude.{◌≡◌, None, map, IfOk};
    ghost use Rattle.std.specs.List.{AllByRecursion};

    /// Makes the union of these cursors. It stands nowhere.
    pub fn new(alloc: Global, cursors: Vec<C>) -> Result<Self, AllocError>
        ensures children { IfOk result (λ merge. map (λ child. child.cursor) merge.children.items ≡ cursors.items) }
        ensures nowhere { IfOk result (λ merge. merge.current ≡ None) }
        ensures astray { IfOk result (λ merge. AllByRecursion (λ child. child.side ≡ Side.Astray) merge.children.items) }
    {
        let mut children = Vec::new(alloc);
        for cursor in cursors {
            children.push(Child {
                cursor,
                side: Side::Astray,
            })?;
        }
        Ok(Merge {
            children,
            current: None,
            target: Vec::new(alloc),
            order: PhantomData,
        })
    }
}

/// Proves that if each cursor of a new merge stands nowhere in a list, the merge stands nowhere in
/// the lists' union.
pub fn merge_begins<K: KeyOrder, S, C: Cursor<K, S>>(merge: &Merge<K, C>, source: &S)
    requires nowhere { merge.now.current ≡ None }
    requires astray { AllByRecursion (λ child. child.side ≡ Side.Astray) merge.now.children.items }
    ensures { (all : List (List InternalEntry)) (union : List InternalEntry) → IsUnion K.cmp all union
        → Each merge.now.children.items all (λ i child list. C.lists child.cursor source.now (listed list None))
        → IsMerge K.cmp C.lists merge.now.children.items merge.now.current merge.now.target.items source.now (listed union None) }
{
    let _ = merge;
    let _ = source;
}

impl<K: KeyOrder, S, C: Cursor<K, S>> Cursor<K, S> for Merge<K, C> {
    ghost use Rattle.cursor.specs.Merging.{IsMerge, KeepsAll, child_stands, AnyLimited, AnyTorn, GoesOverAny};
    ghost use Rattle.cursor.specs.MergeLaws.{merge_rises, merge_placed, merge_inside, merge_kept, all_still, all_onward, any_limited_kept};
    ghost use Rattle.cursor.specs.MergeLaws.{any_torn_kept, any_torn_same};

    ghost facts = { C.facts };

    ghost lists = { λ merge source at. IsMerge K.cmp C.lists merge.children.items merge.current merge.target.items source at };

    ghost keeps = { λ merge old new. KeepsAll C.keeps merge.children.items old new };

    ghost stands = { λ merge. child_stands C.stands merge.children.items merge.current };

    ghost limited = { λ merge source. AnyLimited C.limited merge.children.items source };

    ghost torn = { λ merge source cut. AnyTorn C.torn merge.children.items source cut };

    ghost leaves = { C.leaves };

    ghost over = { λ merge number. GoesOverAny C.over merge.children.items number };

    fn first(&mut self, alloc: Global, source: &mut S) -> Result<(), DbError> {
        jump(self, alloc, source, Motion::First, End::Least)?;
        Ok(())
    }

    fn last(&mut self, alloc: Global, source: &mut S) -> Result<(), DbError> {
        jump(self, alloc, source, Motion::Last, End::Greatest)?;
        Ok(())
    }

    fn seek(&mut self, alloc: Global, source: &mut S, target: &[u8]) -> Result<(), DbError> {
        jump(self, alloc, source, Motion::Seek(target), End::Least)?;
        Ok(())
    }

    fn next(&mut self, alloc: Global, source: &mut S) -> Result<(), DbError> {
        match self.current {
            None => unreachable!(),
            Some(index) => {
                self.current = go_on(&mut self.children, index, alloc, source, &self.target)?;
                Ok(())
            }
        }
    }

    fn prev(&mut self, alloc: Global, source: &mut S) -> Result<(), DbError> {
        match self.current {
            None => unreachable!(),
            Some(index) => {
                self.current = go_back(&mut self.children, index, alloc, source, &self.target)?;
                Ok(())
            }
        }
    }

    fn stands(&self) -> bool {
        match self.current {
            None => false,
            Some(index) => match self.children.get(index) {
                None => false,
                Some(child) => child.cursor.stands(),
            },
        }
    }

    fn key<'a>(&'a self, source: &'a S) -> &'a [u8] {
        match self.current {
            None => unreachable!(),
            Some(index) => self.children[index].cursor.key(source),
        }
    }

    fn value<'a>(&'a self, source: &'a S) -> &'a [u8] {
        match self.current {
            None => unreachable!(),
            Some(index) => self.children[index].cursor.value(source),
        }
    }

    ghost rises = { λ merge source at h. merge_rises K.cmp C.lists merge.children.items merge.current merge.target.items source at h };

    ghost placed = { λ merge source at h. merge_placed K.cmp C.lists C.stands C.placed merge.children.items merge.current
        merge.target.items source at h };

    ghost inside = { λ merge source at index h e. merge_inside K.cmp C.lists merge.children.items merge.current merge.target.items
        source at index h e };

    ghost kept = { λ merge old new at k h. merge_kept K.cmp C.lists C.keeps C.kept merge.children.items merge.current
        merge.target.items old new at k h };

    ghost still = { λ merge source. all_still C.keeps C.still merge.children.items source };

    ghost onward = { λ merge first second third k l. all_onward C.keeps C.onward merge.children.items first second third k l };

    ghost limits_kept = { λ merge old new k l. any_limited_kept C.keeps C.limited C.limits_kept merge.children.items old new k l };

    ghost torn_kept = { λ merge old new cut k t. any_torn_kept C.keeps C.torn C.torn_kept merge.children.items old new cut k t };

    ghost torn_same = { λ merge source at a b h same t. any_torn_same K.cmp C.lists C.torn C.torn_same merge.children.items
        merge.current merge.target.items source at a b h same t };

    ghost leaves_still = { C.leaves_still };

    ghost leaves_onward = { C.leaves_onward };

    ghost leaves_more = { C.leaves_more };
}

// Has the merge jump. The key of its entry is kept, for children that are led astray.
fn jump<K: KeyOrder, S, C: Cursor<K, S>>(
    merge: &mut Merge<K, C>,
    alloc: Global,
    source: &mut S,
    motion: Motion<'_>,
    end: End,
) -> Result<(), DbError>
    requires end { end ≡ end_of motion }
    requires jump { IsJump motion }
    ensures moves { IsTrue (C.facts source.new).faithful → (at : Listed) (goal : Key) → AimsJump motion.entry goal
        → IsMerge K.cmp C.lists merge.old.children.items merge.old.current merge.old.target.items source.old at
        → IsMerge K.cmp C.lists merge.new.children.items merge.new.current merge.new.target.items source.new
        (after_move result (λ from. place_of K.cmp motion.entry goal from.entries) at) }
    ensures stays { Stays C.facts (KeepsAll C.keeps) (AnyLimited C.limited) (AnyTorn C.torn) C.leaves
        (GoesOverAny C.over) merge.old.children.items merge.new.children.items source.old source.new }
    ensures still { IsStill (C.facts source.old) (C.facts source.new) result }
    ensures refused { IfErr result (λ e. Refuses e (C.facts source.old) (C.facts source.new)
        ((at : Listed) (goal : Key) → AimsJump motion.entry goal
        → IsMerge K.cmp C.lists merge.old.children.items merge.old.current merge.old.target.items source.old at
        → AnyTorn C.torn merge.old.children.items source.old (motion_cut motion.entry goal))
        (AnyLimited C.limited merge.old.children.items source.old)) }
{
    match standing::<K, S, C>(merge) {
        None => {
            merge.current = go_to(&mut merge.children, None, alloc, source, motion, end)?;
            Ok(())
        }
        Some(index) => {
            keep_key::<K, S, C>(&mut merge.target, &merge.children[index].cursor, source)?;
            merge.current = go_to(&mut merge.children, Some(index), alloc, source, motion, end)?;
            Ok(())
        }
    }
}

// The index of the child that stands on the merge's entry, if it does.
fn standing<K: KeyOrder, S, C: Cursor<K, S>>(merge: &Merge<K, C>) -> Option<usize>
    ensures { MatchOption result (child_stands C.stands merge.now.children.items merge.now.current ≡ false)
        (λ index. (merge.now.current ≡ Some index) × (child_stands C.stands merge.now.children.items (Some index) ≡ true)) }
{
    let index = merge.current?;
    let child = merge.children.get(index)?;
    if !child.cursor.stands() {
        return None;
    }
    Some(index)
}

// Keeps the key of a cursor's entry. An `Err` changes nothing.
fn keep_key<K: KeyOrder, S, C: Cursor<K, S>>(
    target: &mut Vec<u8>,
    cursor: &C,
    source: &S,
) -> Result<(), AllocError>
    requires { IsTrue (C.stands cursor.now) }
    ensures key { OnOk result ((at : Listed) (index : ℕ) (entry : InternalEntry) → C.lists cursor.now source.now at
        → at.place ≡ Some index → slice_get at.entries index ≡ Some entry → IsKey target.new.items entry.key) }
    ensures err { OnErr result (target.new.items ≡ target.old.items) }
{
    copy_to(target, cursor.key(source))?;
    Ok(())
}
