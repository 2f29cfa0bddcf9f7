//! A place in a block (LevelDB's table/block.cc, Block::Iter).

ghost use Rattle.std.specs.Prelude.{◌≡◌, ◌<◌, ◌≤◌, ◌*◌, ◌+◌, ◌++◌, ◌∷◌, List, ℕ, [], suc, true, Some, None, length, take, drop, MatchBool, IfOk, OnOk, OnErr};
ghost use Rattle.block.specs.Reading.{pairs_of};
ghost use Rattle.block.specs.Kept.{AreKept, last_end};
ghost use Rattle.block.specs.Spots.{IsReadable, IsRead, IsBefore, IsFront, IsSpot, AreBelow, IsFound, HasRestarts, IsLastInFront, StartsBelow, StartsNotBelow, IsLastBelow};
ghost use Rattle.block.specs.Block.{AreAbove};

use crate::entry::entry_at;
use crate::sorted_block::Block;
use crate::trailer::restart_at;
use ikey::EntryOrder;
use std::alloc::{AllocError, Global};
use std::marker::Model;
use std::mem;
use std::rc::Rc;

/// Tells where in the block an entry lies: where it and its value begin, and the next entry.
#[derive(Clone, Copy)]
struct Extent {
    start: usize,
    value: usize,
    next: usize,
}

/// Holds an entry that was read on the way to a later one. Its key lies in a buffer of keys.
#[derive(Clone, Copy)]
struct Passed {
    key: usize,
    key_end: usize,
    at: Extent,
}

/// Iterates over a block's entries. Going up, it keeps the key in one buffer, and reads each value
/// in place; the other moves use a second buffer, until they have succeeded. Going down, it keeps
/// the entries from a restart point on, so that a step back reads nothing while one is left.
/// Contracts see the block's list of pairs, and the index of the pair that the cursor stands on.
#[derive(Drop)]
pub struct BlockCursor<O: EntryOrder> {
    block: Rc<Block<O>>,
    key: Vec<u8>,
    at: Extent,
    // the key of what is being read, or the keys of the entries that are kept
    spare: Vec<u8>,
    passed: Vec<Passed>,
    stands: bool,
}

impl<O: EntryOrder> Model for BlockCursor<O> {
    ghost use Rattle.block.specs.Places.{Placed};

    ghost Value = { Placed };

    ghost use Rattle.std.specs.Prelude.{List, ℕ, Some, None, length, take, if◌then◌else◌};
    ghost use Rattle.block.specs.Reading.{pairs_of};
    ghost use Rattle.block.specs.Spots.{IsCursor};
    ghost use Rattle.block.specs.Kept.{AreKept};

    ghost view = { λ c. record { pairs = c.block.value.pairs; place = if c.stands then Some (length (pairs_of (take c.at.start c.block.value.body))) else None } };

    ghost invariant = { λ c. IsCursor c.block.value c.stands c.key.items c.at.start c.at.value c.at.next
        × AreKept c.block.value.body c.spare.items c.passed.items };
}

impl<O: EntryOrder> BlockCursor<O> {
    ghost use Rattle.std.specs.Prelude.{◌≡◌, ◌<◌, List, ℕ, Some, None, length, slice_get, is_some, IsSome, IfOk, OnOk, OnErr, option_and_then};
    ghost use Rattle.ikey.specs.Entries.{Pair};
    ghost use Rattle.block.specs.Places.{Placed, within, last_of, index_before, index_behind, IsFirstNotBelow};

    /// Makes a cursor that stands nowhere. It takes no memory.
    pub fn new(alloc: Global, block: Rc<Block<O>>) -> Self
        ensures { result ≡ record { pairs = block.value.pairs; place = None } }
    {
        let _ = &block.bytes;
        BlockCursor {
            block,
            key: Vec::new(alloc),
            at: begin_at(0),
            spare: Vec::new(alloc),
            passed: Vec::new(alloc),
            stands: false,
        }
    }

    /// Moves to the first entry, or nowhere if there is none. An `Err` leaves the place.
    pub fn first(&mut self) -> Result<(), AllocError>
        ensures ok { OnOk result (self.new ≡ record self.old { place = within self.old.pairs 0 }) }
        ensures err { OnErr result (self.new ≡ self.old) }
    {
        let block: &Block<O> = &self.block;
        let (body, _) = block.parts();
        if body.is_empty() {
            self.stands = false;
            return Ok(());
        }
        self.passed.clear();
        self.spare.clear();
        let mut at = begin_at(0);
        step(body, &mut self.spare, &mut at)?;
        mem::swap(&mut self.key, &mut self.spare);
        self.at = at;
        self.stands = true;
        Ok(())
    }

    /// Moves to the last entry, or nowhere if there is none. An `Err` leaves the place.
    pub fn last(&mut self) -> Result<(), AllocError>
        ensures ok { OnOk result (self.new ≡ record self.old { place = last_of self.old.pairs }) }
        ensures err { OnErr result (self.new ≡ self.old) }
    {
        let block: &Block<O> = &self.block;
        let (body, restarts) = block.parts();
        if body.is_empty() {
            self.stands = false;
            return Ok(());
        }
        walk_back(
            body,
            restarts,
            &mut self.spare,
            &mut self.passed,
            body.len(),
        )?;
        self.at = take_back(&mut self.passed, self.spare.as_slice(), &mut self.key)?;
        self.stands = true;
        Ok(())
    }

    /// Moves to the first entry whose key isn't below the target, or nowhere if there is none. It
    /// finds a restart point by halving, and reads on from there. An `Err` leaves the place.
    pub fn seek(&mut self, target: &[u8]) -> Result<(), AllocError>
        ensures pairs { self.new.pairs ≡ self.old.pairs }
        ensures ok { IfOk result (λ _. (index : ℕ) × IsFirstNotBelow O.below target.now self.old.pairs index × (self.new.place ≡ within self.old.pairs index)) }
        ensures err { OnErr result (self.new ≡ self.old) }
    {
        let block: &Block<O> = &self.block;
        let (body, restarts) = block.parts();
        self.passed.clear();
        self.spare.clear();
        let mut at = begin_at(restart_below::<O>(body, restarts, target));
        if !walk_to_not_below::<O>(body, &mut self.spare, &mut at, target)? {
            self.stands = false;
            return Ok(());
        }
        mem::swap(&mut self.key, &mut self.spare);
        self.at = at;
        self.stands = true;
        Ok(())
    }

    /// Moves to the next entry, or nowhere if there is none. An `Err` leaves the place. (Without a
    /// place to move from, the engine answers NoPlace.)
    pub fn next(&mut self) -> Result<(), AllocError>
        requires { IsSome self.old.place }
        ensures ok { OnOk result (self.new ≡ record self.old { place = option_and_then (index_behind self.old.pairs) self.old.place }) }
        ensures err { OnErr result (self.new ≡ self.old) }
    {
        let block: &Block<O> = &self.block;
        let (body, _) = block.parts();
        if self.at.next == body.len() {
            self.stands = false;
            return Ok(());
        }
        step(body, &mut self.key, &mut self.at)?;
        Ok(())
    }

    /// Moves to the previous entry, or nowhere if there is none. An `Err` leaves the place.
    /// (Without a place to move from, the engine answers NoPlace.)
    pub fn prev(&mut self) -> Result<(), AllocError>
        requires { IsSome self.old.place }
        ensures ok { OnOk result (self.new ≡ record self.old { place = option_and_then index_before self.old.place }) }
        ensures err { OnErr result (self.new ≡ self.old) }
    {
        if self.at.start == 0 {
            self.stands = false;
            return Ok(());
        }
        let block: &Block<O> = &self.block;
        let (body, restarts) = block.parts();
        let end = self.at.start;
        reach_back(body, restarts, &mut self.spare, &mut self.passed, end)?;
        self.at = take_back(&mut self.passed, self.spare.as_slice(), &mut self.key)?;
        Ok(())
    }

    /// Returns whether an entry follows the one that the cursor stands on.
    pub fn has_next(&self) -> bool
        requires { IsSome self.now.place }
        ensures { result ≡ is_some (option_and_then (index_behind self.now.pairs) self.now.place) }
    {
        let block: &Block<O> = &self.block;
        let (body, _) = block.parts();
        let next = self.at.next;
        if next == body.len() {
            return false;
        }
        true
    }

    /// Returns whether an entry comes before it.
    pub fn has_prev(&self) -> bool
        requires { IsSome self.now.place }
        ensures { result ≡ is_some (option_and_then index_before self.now.place) }
    {
        let start = self.at.start;
        if start == 0 {
            return false;
        }
        true
    }

    /// Returns whether the cursor stands on an entry.
    pub fn stands(&self) -> bool
        ensures { result ≡ is_some self.now.place }
    {
        self.stands
    }

    /// Returns the key of the entry that the cursor stands on.
    pub fn key(&self) -> &[u8]
        requires { IsSome self.now.place }
        ensures { (index : ℕ) (pair : Pair) → self.now.place ≡ Some index → slice_get self.now.pairs index ≡ Some pair → result.now ≡ pair.key }
    {
        self.key.as_slice()
    }

    /// Returns the value of that entry, a part of the block.
    pub fn value(&self) -> &[u8]
        requires { IsSome self.now.place }
        ensures { (index : ℕ) (pair : Pair) → self.now.place ≡ Some index → slice_get self.now.pairs index ≡ Some pair → result.now ≡ pair.value }
    {
        let block: &Block<O> = &self.block;
        let (body, _) = block.parts();
        &body[self.at.value..self.at.next]
    }
}

// Before the entry at this offset.
fn begin_at(offset: usize) -> Extent
    ensures { result.next ≡ offset }
{
    Extent {
        start: offset,
        value: offset,
        next: offset,
    }
}

// Reads the next entry: its key takes the place of the one before. An `Err` changes nothing.
fn step(body: &[u8], key: &mut Vec<u8>, at: &mut Extent) -> Result<(), AllocError>
    requires { IsReadable body.now key.old.items at.old.next }
    ensures read { OnOk result (IsRead body.now key.old.items at.old.next key.new.items at.new.start at.new.value at.new.next) }
    ensures key_stays { OnErr result (key.new.items ≡ key.old.items) }
    ensures at_stays { OnErr result (at.new ≡ at.old) }
{
    match entry_at(&body[at.next..]) {
        Some((entry, behind)) => {
            put_behind(key, entry.shared, entry.rest)?;
            at.start = at.next;
            at.next = body.len() - behind.len();
            at.value = at.next - entry.value.len();
            Ok(())
        }
        None => unreachable!(),
    }
}

// Keeps the front of a key, and appends the rest of another. An `Err` changes nothing.
fn put_behind(key: &mut Vec<u8>, shared: usize, rest: &[u8]) -> Result<(), AllocError>
    requires { shared ≤ length key.old.items }
    ensures ok { OnOk result (key.new.items ≡ take shared key.old.items ++ rest.now) }
    ensures err { OnErr result (key.new.items ≡ key.old.items) }
{
    // What comes after it can't fail.
    let missing = (shared + rest.len()).saturating_sub(key.len());
    key.reserve(missing)?;
    key.truncate(shared);
    key.extend_from_slice(rest)
}

// Keeps entries of which the last ends at this offset: those that are kept, or those from the last
// restart point before it on.
fn reach_back(
    body: &[u8],
    restarts: &[u8],
    keys: &mut Vec<u8>,
    passed: &mut Vec<Passed>,
    end: usize,
) -> Result<(), AllocError>
    requires restarts { HasRestarts body.now restarts.now }
    requires place { (last : ℕ) × IsFront body.now (pairs_of body.now) (suc last) end }
    requires kept { AreKept body.now keys.old.items passed.old.items }
    ensures kept { AreKept body.now keys.new.items passed.new.items }
    ensures ends { OnOk result (last_end passed.new.items ≡ Some end) }
{
    if ends_at(passed.as_slice(), end) {
        return Ok(());
    }
    walk_back(body, restarts, keys, passed, end)
}

// Whether the last of these entries ends at this offset.
fn ends_at(passed: &[Passed], end: usize) -> bool
    ensures { result ≡ true → last_end passed.now ≡ Some end }
{
    match passed.last() {
        None => false,
        Some(last) => last.at.next == end,
    }
}

// Reads the entries from the last restart point before this offset up to it, and keeps them all.
fn walk_back(
    body: &[u8],
    restarts: &[u8],
    keys: &mut Vec<u8>,
    passed: &mut Vec<Passed>,
    end: usize,
) -> Result<(), AllocError>
    requires restarts { HasRestarts body.now restarts.now }
    requires place { (last : ℕ) × IsFront body.now (pairs_of body.now) (suc last) end }
    ensures kept { AreKept body.now keys.new.items passed.new.items }
    ensures ends { OnOk result (last_end passed.new.items ≡ Some end) }
{
    passed.clear();
    keys.clear();
    let mut at = begin_at(restart_before(restarts, end));
    let mut key = 0;
    while at.next < end {
        let key_end = keys.len();
        step_beside(body, keys, key, &mut at)?;
        key = key_end;
        keep(passed, key, keys.len(), at)?;
    }
    Ok(())
}

// Keeps one more entry. An `Err` changes nothing.
fn keep(passed: &mut Vec<Passed>, key: usize, key_end: usize, at: Extent) -> Result<(), AllocError>
    ensures ok { OnOk result (passed.new.items ≡ passed.old.items ++ record { key = key; key_end = key_end; at = at } ∷ []) }
    ensures err { OnErr result (passed.new.items ≡ passed.old.items) }
{
    passed.push(Passed { key, key_end, at })?;
    Ok(())
}

// Reads the next entry, and appends its key to those before it, the last of which begins here. An
// `Err` changes nothing.
fn step_beside(
    body: &[u8],
    keys: &mut Vec<u8>,
    last: usize,
    at: &mut Extent,
) -> Result<(), AllocError>
    requires inside { last ≤ length keys.old.items }
    requires readable { IsReadable body.now (drop last keys.old.items) at.old.next }
    ensures read { OnOk result ((key : List ℕ) × (keys.new.items ≡ keys.old.items ++ key)
        × IsRead body.now (drop last keys.old.items) at.old.next key at.new.start at.new.value at.new.next) }
    ensures err { OnErr result (keys.new.items ≡ keys.old.items) }
{
    match entry_at(&body[at.next..]) {
        Some((entry, behind)) => {
            put_beside(keys, last, entry.shared, entry.rest)?;
            at.start = at.next;
            at.next = body.len() - behind.len();
            at.value = at.next - entry.value.len();
            Ok(())
        }
        None => unreachable!(),
    }
}

// Appends the front of the key that begins here, and the rest of another. An `Err` changes nothing.
fn put_beside(keys: &mut Vec<u8>, last: usize, shared: usize, rest: &[u8]) -> Result<(), AllocError>
    requires { last + shared ≤ length keys.old.items }
    ensures ok { OnOk result (keys.new.items ≡ keys.old.items ++ (take shared (drop last keys.old.items) ++ rest.now)) }
    ensures err { OnErr result (keys.new.items ≡ keys.old.items) }
{
    // What comes after it can't fail.
    keys.reserve(shared + rest.len())?;
    keys.extend_from_within(last..last + shared)?;
    keys.extend_from_slice(rest)
}

// Takes the last entry that is kept, and its key out of these. An `Err` leaves the key.
fn take_back(passed: &mut Vec<Passed>, keys: &[u8], key: &mut Vec<u8>) -> Result<Extent, AllocError>
    requires { (body : List ℕ) × (end : ℕ) × AreKept body keys.now passed.old.items × (last_end passed.old.items ≡ Some end) }
    ensures taken { IfOk result (λ at. (body : List ℕ) (end : ℕ) → AreKept body keys.now passed.old.items → last_end passed.old.items ≡ Some end
        → (index : ℕ) × IsSpot body (pairs_of body) index key.new.items at.start at.value at.next × (at.next ≡ end)) }
    ensures others { (body : List ℕ) → AreKept body keys.now passed.old.items → AreKept body keys.now passed.new.items }
    ensures err { OnErr result (key.new.items ≡ key.old.items) }
{
    let Some(last) = passed.pop() else {
        unreachable!();
    };
    copy_key(key, &keys[last.key..last.key_end])?;
    Ok(last.at)
}

// Makes a buffer the copy of a key. An `Err` leaves it.
#[inline(always)]
fn copy_key(buffer: &mut Vec<u8>, key: &[u8]) -> Result<(), AllocError>
    ensures ok { OnOk result (buffer.new.items ≡ key.now) }
    ensures err { OnErr result (buffer.new.items ≡ buffer.old.items) }
{
    buffer.reserve(key.len().saturating_sub(buffer.len()))?;
    buffer.clear();
    buffer.extend_from_slice(key)
}

// Reads entries up to the first whose key isn't below the target, and answers whether there is one.
fn walk_to_not_below<O: EntryOrder>(
    body: &[u8],
    key: &mut Vec<u8>,
    at: &mut Extent,
    target: &[u8],
) -> Result<bool, AllocError>
    requires { (index : ℕ) × IsBefore body.now (pairs_of body.now) index key.old.items at.old.next × AreBelow O.below target.now (take index (pairs_of body.now)) }
    ensures { IfOk result (λ found. MatchBool found
        (IsFound O.below target.now body.now (pairs_of body.now) key.new.items at.new.start at.new.value at.new.next)
        (AreBelow O.below target.now (pairs_of body.now))) }
{
    while at.next < body.len() {
        step(body, key, at)?;
        if !O::is_below(key.as_slice(), target) {
            return Ok(true);
        }
    }
    Ok(false)
}

// A restart point before which all keys are below the target: the last one whose key is, or the
// first one.
fn restart_below<O: EntryOrder>(body: &[u8], restarts: &[u8], target: &[u8]) -> usize
    requires restarts { HasRestarts body.now restarts.now }
    requires rises { AreAbove O.below None (pairs_of body.now) }
    ensures { IsLastBelow O.below target.now body.now restarts.now result }
{
    let mut low = 0;
    let mut high = restarts.len() / 4;
    while low + 1 < high {
        let middle = low + (high - low) / 2;
        if is_restart_below::<O>(body, restart_at(restarts, middle), target) {
            low = middle;
        } else {
            high = middle;
        }
    }
    restart_at(restarts, low)
}

// Whether the key of the entry at this restart is below the target.
fn is_restart_below<O: EntryOrder>(body: &[u8], restart: usize, target: &[u8]) -> bool
    requires rises { AreAbove O.below None (pairs_of body.now) }
    requires starts { (index : ℕ) × IsBefore body.now (pairs_of body.now) index [] restart × (restart < length body.now) }
    ensures { MatchBool result (StartsBelow O.below target.now body.now restart) (StartsNotBelow O.below target.now body.now restart) }
{
    match entry_at(&body[restart..]) {
        Some((entry, _)) => O::is_below(entry.rest, target),
        None => unreachable!(),
    }
}

// The last restart point before the offset.
fn restart_before(restarts: &[u8], offset: usize) -> usize
    requires some { 4 ≤ length restarts.now }
    requires offset { 0 < offset }
    ensures { (body : List ℕ) (has : HasRestarts body restarts.now) → IsLastInFront body has.list offset result }
{
    let mut low = 0;
    let mut high = restarts.len() / 4;
    while low + 1 < high {
        let middle = low + (high - low) / 2;
        if restart_at(restarts, middle) < offset {
            low = middle;
        } else {
            high = middle;
        }
    }
    restart_at(restarts, low)
}
