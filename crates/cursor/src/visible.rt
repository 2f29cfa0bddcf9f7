//! The pairs that are visible at a sequence number (LevelDB's db/db_iter.cc).

ghost use Rattle.std.specs.Prelude.{◌<◌, ◌^◌};

use crate::cursor::Cursor;
use crate::scanning::{Found, find_back, find_on};
use crate::standing::{Position, bound_of, stand_ahead, stand_behind};
use coding::DbError;
use ikey::{KeyOrder, seek_key};
use std::alloc::{AllocError, Global};
use std::marker::PhantomData;
use std::mem;

/// Holds an iteration over the pairs that are visible at a sequence number: of each user key the
/// newest entry up to it, if that is a put. The cursor beneath lists all entries. An `Err` leaves
/// the place and the key: the next move seeks that key again. The value can be asked for again once
/// a move has succeeded.
#[derive(Drop)]
pub struct Visible<K: KeyOrder, C> {
    cursor: C,
    sequence: u64,
    ghost fits: { sequence < 2 ^ 56 },
    stands: bool,
    position: Position,
    // the pair that the iteration stands on; its value only at `Position::Behind`
    here: Found,
    // what a move looks for, until it has succeeded
    spare: Found,
    order: PhantomData<K>,
}

impl<K: KeyOrder, C> Visible<K, C> {
    ghost use Rattle.std.specs.Prelude.{◌≡◌, ◌<◌, ◌^◌, ℕ, Bool, true, false, List};
    ghost use Rattle.std.specs.Prelude.{Option, None, Some, slice_get, IsTrue, IfErr, OnOk, OnErr};
    ghost use Rattle.ikey.specs.Entries.{InternalEntry, Pair};
    ghost use Rattle.table.specs.Reading.{IsStill};
    ghost use Rattle.cursor.specs.Places.{within, index_before};
    ghost use Rattle.cursor.specs.Cuts.{Cut};
    ghost use Rattle.cursor.specs.Moves.{Stays, Refuses, RefusesMoves};
    ghost use Rattle.cursor.specs.Merging.{listed};
    ghost use Rattle.cursor.specs.Views.{Walked, IsViewList, passed, walk_first, walk_last, walk_to, walk_next, walk_prev};
    ghost use Rattle.cursor.specs.Searches.{Wanders, SearchesOn, HasPassedNone, PassesLower, below_bound};
    ghost use Rattle.cursor.specs.Standing.{bound_if};
    ghost use Rattle.cursor.specs.Walks.{IsWalk, IsPlacedWalk, HasStayed, key_before, value_at_hand, walk_after, walked};

    /// Makes an iteration over what is visible at the sequence number, below `SEQUENCE_END`. It
    /// stands nowhere, and takes no memory.
    pub fn new(alloc: Global, cursor: C, sequence: u64) -> Self
        requires { sequence < 2 ^ 56 }
        ensures cursor { result.cursor ≡ cursor }
        ensures sequence { result.sequence ≡ sequence }
        ensures nowhere { result.stands ≡ false }
    {
        Visible {
            cursor,
            sequence,
            stands: false,
            position: Position::Astray,
            here: Found::new(alloc),
            spare: Found::new(alloc),
            order: PhantomData,
        }
    }

    /// Proves that if the cursor beneath stands anywhere in a list, a new iteration stands nowhere
    /// in the list of what is visible there.
    pub fn begins<S>(&self, source: &S)
    where
        C: Cursor<K, S>,
        requires { self.now.stands ≡ false }
        ensures { (entries : List InternalEntry) (place : Option ℕ) (pairs : List Pair)
            → C.lists self.now.cursor source.now (listed entries place) → IsViewList K.cmp entries self.now.sequence pairs
            → IsWalk K.cmp C.lists self.now source.now (walked pairs None) }
    {
        let _ = self;
        let _ = source;
    }

    /// Moves to the pair of the least user key, or nowhere if there is none.
    pub fn first<S>(&mut self, alloc: Global, source: &mut S) -> Result<(), DbError>
    where
        C: Cursor<K, S>,
        ensures moves { IsTrue (C.facts source.new).faithful → (at : Walked) → IsWalk K.cmp C.lists self.old source.old at
            → IsWalk K.cmp C.lists self.new source.new (walk_after result (walk_first at) at) }
        ensures at_hand { OnOk result (self.new.stands ≡ true → value_at_hand C.stands self.new ≡ true) }
        ensures stays { Stays C.facts C.keeps C.limited C.torn C.leaves C.over self.old.cursor self.new.cursor source.old source.new }
        ensures still { IsStill (C.facts source.old) (C.facts source.new) result }
        ensures refused { IfErr result (λ e. Refuses e (C.facts source.old) (C.facts source.new)
            ((at : Walked) → IsWalk K.cmp C.lists self.old source.old at → (cut : Cut) × C.torn self.old.cursor source.old cut)
            (C.limited self.old.cursor source.old)) }
        ensures sequence { self.new.sequence ≡ self.old.sequence }
        ensures stayed { OnErr result ((self.new.stands ≡ self.old.stands) × (self.new.here.key.items ≡ self.old.here.key.items)) }
        ensures left { OnOk result (key_before self.new ≡ self.old.here.key.items) }
    {
        self.position = Position::Astray;
        self.cursor.first(alloc, source)?;
        self.go_on(alloc, source, false)?;
        Ok(())
    }

    /// Moves to the pair of the greatest user key, or nowhere if there is none.
    pub fn last<S>(&mut self, alloc: Global, source: &mut S) -> Result<(), DbError>
    where
        C: Cursor<K, S>,
        ensures moves { IsTrue (C.facts source.new).faithful → (at : Walked) → IsWalk K.cmp C.lists self.old source.old at
            → IsWalk K.cmp C.lists self.new source.new (walk_after result (walk_last at) at) }
        ensures at_hand { OnOk result (self.new.stands ≡ true → value_at_hand C.stands self.new ≡ true) }
        ensures stays { Stays C.facts C.keeps C.limited C.torn C.leaves C.over self.old.cursor self.new.cursor source.old source.new }
        ensures still { IsStill (C.facts source.old) (C.facts source.new) result }
        ensures refused { IfErr result (λ e. Refuses e (C.facts source.old) (C.facts source.new)
            ((at : Walked) → IsWalk K.cmp C.lists self.old source.old at → (cut : Cut) × C.torn self.old.cursor source.old cut)
            (C.limited self.old.cursor source.old)) }
        ensures sequence { self.new.sequence ≡ self.old.sequence }
        ensures stayed { OnErr result ((self.new.stands ≡ self.old.stands) × (self.new.here.key.items ≡ self.old.here.key.items)) }
        ensures left { OnOk result (key_before self.new ≡ self.old.here.key.items) }
    {
        self.position = Position::Astray;
        self.cursor.last(alloc, source)?;
        self.go_back(alloc, source, false)?;
        Ok(())
    }

    /// Moves to the pair of the first user key that isn't below the target, or nowhere if there is
    /// none.
    pub fn seek<S>(&mut self, alloc: Global, source: &mut S, target: &[u8]) -> Result<(), DbError>
    where
        C: Cursor<K, S>,
        ensures moves { IsTrue (C.facts source.new).faithful → (at : Walked) → IsWalk K.cmp C.lists self.old source.old at
            → IsWalk K.cmp C.lists self.new source.new (walk_after result (walk_to K.cmp target.now at) at) }
        ensures at_hand { OnOk result (self.new.stands ≡ true → value_at_hand C.stands self.new ≡ true) }
        ensures stays { Stays C.facts C.keeps C.limited C.torn C.leaves C.over self.old.cursor self.new.cursor source.old source.new }
        ensures still { IsStill (C.facts source.old) (C.facts source.new) result }
        ensures refused { IfErr result (λ e. Refuses e (C.facts source.old) (C.facts source.new)
            ((at : Walked) → IsWalk K.cmp C.lists self.old source.old at → (cut : Cut) × C.torn self.old.cursor source.old cut)
            (C.limited self.old.cursor source.old)) }
        ensures sequence { self.new.sequence ≡ self.old.sequence }
        ensures stayed { OnErr result ((self.new.stands ≡ self.old.stands) × (self.new.here.key.items ≡ self.old.here.key.items)) }
        ensures left { OnOk result (key_before self.new ≡ self.old.here.key.items) }
    {
        let key = seek_key(alloc, target, self.sequence)?;
        self.position = Position::Astray;
        self.cursor.seek(alloc, source, &key)?;
        self.go_on(alloc, source, false)?;
        Ok(())
    }

    /// Moves to the next pair, or nowhere if there is none.
    pub fn next<S>(&mut self, alloc: Global, source: &mut S) -> Result<(), DbError>
    where
        C: Cursor<K, S>,
        requires { self.old.stands ≡ true }
        ensures moves { IsTrue (C.facts source.new).faithful → (at : Walked) → IsWalk K.cmp C.lists self.old source.old at
            → IsWalk K.cmp C.lists self.new source.new (walk_after result (walk_next at) at) }
        ensures at_hand { OnOk result (self.new.stands ≡ true → value_at_hand C.stands self.new ≡ true) }
        ensures stays { Stays C.facts C.keeps C.limited C.torn C.leaves C.over self.old.cursor self.new.cursor source.old source.new }
        ensures still { IsStill (C.facts source.old) (C.facts source.new) result }
        ensures refused { IfErr result (λ e. Refuses e (C.facts source.old) (C.facts source.new)
            ((at : Walked) → IsWalk K.cmp C.lists self.old source.old at → (cut : Cut) × C.torn self.old.cursor source.old cut)
            (C.limited self.old.cursor source.old)) }
        ensures sequence { self.new.sequence ≡ self.old.sequence }
        ensures stayed { OnErr result ((self.new.stands ≡ self.old.stands) × (self.new.here.key.items ≡ self.old.here.key.items)) }
        ensures left { OnOk result (key_before self.new ≡ self.old.here.key.items) }
    {
        let position = self.position;
        self.position = Position::Astray;
        stand_ahead::<K, S, C>(
            &mut self.cursor,
            alloc,
            source,
            position,
            self.here.key.as_slice(),
            self.sequence,
        )?;
        self.go_on(alloc, source, true)?;
        Ok(())
    }

    /// Moves to the previous pair, or nowhere if there is none.
    pub fn prev<S>(&mut self, alloc: Global, source: &mut S) -> Result<(), DbError>
    where
        C: Cursor<K, S>,
        requires { self.old.stands ≡ true }
        ensures moves { IsTrue (C.facts source.new).faithful → (at : Walked) → IsWalk K.cmp C.lists self.old source.old at
            → IsWalk K.cmp C.lists self.new source.new (walk_after result (walk_prev at) at) }
        ensures at_hand { OnOk result (self.new.stands ≡ true → value_at_hand C.stands self.new ≡ true) }
        ensures stays { Stays C.facts C.keeps C.limited C.torn C.leaves C.over self.old.cursor self.new.cursor source.old source.new }
        ensures still { IsStill (C.facts source.old) (C.facts source.new) result }
        ensures refused { IfErr result (λ e. Refuses e (C.facts source.old) (C.facts source.new)
            ((at : Walked) → IsWalk K.cmp C.lists self.old source.old at → (cut : Cut) × C.torn self.old.cursor source.old cut)
            (C.limited self.old.cursor source.old)) }
        ensures sequence { self.new.sequence ≡ self.old.sequence }
        ensures stayed { OnErr result ((self.new.stands ≡ self.old.stands) × (self.new.here.key.items ≡ self.old.here.key.items)) }
        ensures left { OnOk result (key_before self.new ≡ self.old.here.key.items) }
    {
        let position = self.position;
        self.position = Position::Astray;
        stand_behind::<K, S, C>(
            &mut self.cursor,
            alloc,
            source,
            position,
            self.here.key.as_slice(),
            self.sequence,
        )?;
        self.go_back(alloc, source, true)?;
        Ok(())
    }

    /// Takes back the last move, if it succeeded: the iteration stands again where it stood before,
    /// on a pair or nowhere. It takes no memory. The value can be asked for again after the next
    /// move.
    pub fn take_back(&mut self, stood: bool)
        ensures cursor { self.new.cursor ≡ self.old.cursor }
        ensures sequence { self.new.sequence ≡ self.old.sequence }
        ensures stands { self.new.stands ≡ stood }
        ensures position { self.new.position ≡ Position.Astray }
        ensures key { self.new.here.key.items ≡ key_before self.old }
    {
        if self.stands {
            mem::swap(&mut self.here.key, &mut self.spare.key);
        }
        self.stands = stood;
        self.position = Position::Astray;
    }

    /// Returns whether the iteration stands on a pair.
    pub fn stands(&self) -> bool
        ensures { result ≡ self.now.stands }
    {
        self.stands
    }

    /// Returns the user key of that pair.
    pub fn key(&self) -> &[u8]
        ensures { result.now ≡ self.now.here.key.items }
    {
        self.here.key.as_slice()
    }

    /// Returns the value of that pair, after a move that succeeded.
    pub fn value<'a, S>(&'a self, source: &'a S) -> &'a [u8]
    where
        C: Cursor<K, S>,
        requires { value_at_hand C.stands self.now ≡ true }
        ensures { (at : Walked) (index : ℕ) (pair : Pair) → IsWalk K.cmp C.lists self.now source.now at → at.place ≡ Some index
            → slice_get at.pairs index ≡ Some pair
            → (self.now.here.key.items ≡ pair.key) × (result.now ≡ pair.value) }
    {
        match self.position {
            Position::Here => self.cursor.value(source),
            Position::Behind => self.here.value.as_slice(),
            Position::Astray => unreachable!(),
        }
    }

    // Finds the first pair from the cursor's entry on, past the user key at hand if the iteration
    // stands on one.
    fn go_on<S>(&mut self, alloc: Global, source: &mut S, past: bool) -> Result<(), DbError>
    where
        C: Cursor<K, S>,
        requires { self.old.position ≡ Position.Astray }
        ensures arrives { IsTrue (C.facts source.new).faithful
            → OnOk result ((entries : List InternalEntry) (pairs : List Pair) (test : List ℕ → Bool) (index : ℕ)
            → IsViewList K.cmp entries self.old.sequence pairs
            → C.lists self.old.cursor source.old (listed entries (within entries index))
            → SearchesOn K.cmp entries self.old.sequence test index past self.old.here.key.items
            → IsPlacedWalk K.cmp C.lists self.new.cursor self.new.sequence self.new.stands self.new.position self.new.here.key.items
            self.new.here.value.items source.new entries (walked pairs (within pairs (passed test pairs)))) }
        ensures at_hand { OnOk result (self.new.stands ≡ true → value_at_hand C.stands self.new ≡ true) }
        ensures sequence { self.new.sequence ≡ self.old.sequence }
        ensures stayed { OnErr result (HasStayed self.old self.new) }
        ensures left { OnOk result (key_before self.new ≡ self.old.here.key.items) }
        ensures wanders { Wanders C.facts C.lists C.keeps C.limited C.torn C.leaves C.over self.old.cursor self.new.cursor source.old source.new }
        ensures still { IsStill (C.facts source.old) (C.facts source.new) result }
        ensures refused { RefusesMoves C.facts C.lists C.limited C.torn self.old.cursor source.old source.new result }
    {
        if !find_on::<K, S, C>(
            &mut self.cursor,
            alloc,
            source,
            self.sequence,
            past,
            self.here.key.as_slice(),
            &mut self.spare.key,
        )? {
            self.stands = false;
            return Ok(());
        }
        mem::swap(&mut self.here.key, &mut self.spare.key);
        self.position = Position::Here;
        self.stands = true;
        Ok(())
    }

    // Finds the last pair up to the cursor's entry, before the user key at hand if the iteration
    // stands on one.
    fn go_back<S>(&mut self, alloc: Global, source: &mut S, past: bool) -> Result<(), DbError>
    where
        C: Cursor<K, S>,
        requires { self.old.position ≡ Position.Astray }
        ensures arrives { IsTrue (C.facts source.new).faithful
            → OnOk result ((entries : List InternalEntry) (pairs : List Pair) (index : ℕ) → IsViewList K.cmp entries self.old.sequence pairs
            → C.lists self.old.cursor source.old (listed entries (index_before index))
            → HasPassedNone entries self.old.sequence (below_bound K.cmp (bound_if past self.old.here.key.items)) index
            → IsPlacedWalk K.cmp C.lists self.new.cursor self.new.sequence self.new.stands self.new.position self.new.here.key.items
            self.new.here.value.items source.new entries
            (walked pairs (index_before (passed (below_bound K.cmp (bound_if past self.old.here.key.items)) pairs)))) }
        ensures at_hand { OnOk result (self.new.stands ≡ true → value_at_hand C.stands self.new ≡ true) }
        ensures sequence { self.new.sequence ≡ self.old.sequence }
        ensures stayed { OnErr result (HasStayed self.old self.new) }
        ensures left { OnOk result (key_before self.new ≡ self.old.here.key.items) }
        ensures wanders { Wanders C.facts C.lists C.keeps C.limited C.torn C.leaves C.over self.old.cursor self.new.cursor source.old source.new }
        ensures still { IsStill (C.facts source.old) (C.facts source.new) result }
        ensures refused { RefusesMoves C.facts C.lists C.limited C.torn self.old.cursor source.old source.new result }
    {
        let bound = bound_of(past, self.here.key.as_slice());
        if !find_back::<K, S, C>(
            &mut self.cursor,
            alloc,
            source,
            self.sequence,
            bound,
            &mut self.spare,
        )? {
            self.stands = false;
            return Ok(());
        }
        mem::swap(&mut self.here, &mut self.spare);
        self.position = Position::Behind;
        self.stands = true;
        Ok(())
    }
}
