// Many pairs at once.

ghost use Rattle.std.specs.Prelude.{◌≡◌, ◌≤◌, ◌+◌, ◌++◌, MatchBool, Some, drop, length};
ghost use Rattle.c_calls.specs.Filling.{AddsNone, AddsPair, CopiesPair, FillServed, FillsOne, MovesOn, PutsPair, laid};
ghost use Rattle.c_calls.specs.Calls.{MoveDone, bytewise};
ghost use Rattle.c_calls.specs.Motions.{way_of};
ghost use Rattle.c_calls.specs.Standings.{pair_of};

use crate::codes::{NOT_FOUND, number_of};
use crate::handle::Handle;
use crate::moves::Motion;
use crate::room::{Pair, copy_pair};
use crate::standings::find;
use byteorder::{ByteOrder, LittleEndian};
use coding::{Bytes, DbError};
use std::alloc::Global;
use store::Store;

// How many bytes the lengths of a pair take.
const LENGTHS: usize = 8;

/// How many bytes of the room were filled, and with how many pairs.
#[repr(C)]
#[derive(Drop)]
pub struct Filled {
    pub used: usize,
    pub pairs: usize,
}

impl Filled {
    /// That of no pair.
    pub fn none() -> Self
        ensures { (result.used ≡ 0) × (result.pairs ≡ 0) }
    {
        Filled { used: 0, pairs: 0 }
    }
}

// Writes a pair to the front of the room, and returns how many bytes it takes, if it fits.
fn put_pair(key: &Bytes, value: &Bytes, room: &mut [u8]) -> Option<usize>
    ensures { PutsPair key.now value.now room.old room.new result }
{
    let Ok(key_length) = u32::try_from(key.len()) else {
        return None;
    };
    let Ok(value_length) = u32::try_from(value.len()) else {
        return None;
    };
    let need = LENGTHS + key.len() + value.len();
    if need > room.len() {
        return None;
    }
    lay(key, value, key_length, value_length, room);
    Some(need)
}

// Writes the lengths of a pair, and then the pair.
fn lay(key: &Bytes, value: &Bytes, key_length: u32, value_length: u32, room: &mut [u8])
    requires key { key_length ≡ length key.now }
    requires value { value_length ≡ length value.now }
    requires fits { 8 + (length key.now + length value.now) ≤ length room.old }
    ensures { room.new ≡ laid key.now value.now ++ drop (8 + (length key.now + length value.now)) room.old }
{
    let mut lengths = Pair::none();
    LittleEndian::write_u32(room, key_length);
    LittleEndian::write_u32(&mut room[4..], value_length);
    copy_pair(key, value, &mut room[LENGTHS..], &mut lengths);
}

// Adds a pair behind those that are there; false if it has no room.
fn add_pair(key: &Bytes, value: &Bytes, room: &mut [u8], filled: &mut Filled) -> bool
    requires used { filled.old.used ≤ length room.old }
    requires pairs { filled.old.pairs ≤ filled.old.used }
    ensures { MatchBool result (AddsPair key.now value.now room.old room.new filled.old filled.new)
        (AddsNone key.now value.now room.old room.new filled.old filled.new) }
{
    let used = filled.used;
    match put_pair(key, value, &mut room[used..]) {
        None => false,
        Some(taken) => {
            filled.used = used + taken;
            filled.pairs += 1;
            true
        }
    }
}

// What came of the pair on which an iterator stands.
enum Copied {
    Added,
    // It has no room.
    Full,
    // There is none.
    Nowhere(i32),
}

// What came of one pair.
enum Step {
    // It was copied, and the iterator moved on.
    Copied,
    // It has no room.
    Full,
    // There is none.
    Ended(i32),
    // It was copied, and the move was refused.
    Refused(i32),
}

impl<S: Store> Handle<S> {
    /// Copies the pair on which an iterator stands and those after it, or before it, as many as
    /// fit whole. Each is the length of its key and of its value (four bytes, lowest first), its
    /// key and its value. The iterator then stands on the first pair that had no room.
    pub fn fill(
        &mut self,
        alloc: Global,
        id: u64,
        backwards: bool,
        room: &mut [u8],
        filled: &mut Filled,
    ) -> i32
        ensures { FillServed bytewise S.facts id (way_of backwards) room.old room.new filled.new
            self.old self.new result }
    {
        *filled = Filled::none();
        let most = room.len() / LENGTHS + 1;
        for _ in 0..most {
            match self.fill_one(alloc, id, backwards, room, filled) {
                Step::Copied => continue,
                Step::Full => return 0,
                Step::Ended(code) => return code,
                Step::Refused(code) => return code,
            }
        }
        0
    }

    fn fill_one(
        &mut self,
        alloc: Global,
        id: u64,
        backwards: bool,
        room: &mut [u8],
        filled: &mut Filled,
    ) -> Step
        requires used { filled.old.used ≤ length room.old }
        requires pairs { filled.old.pairs ≤ filled.old.used }
        ensures { FillsOne bytewise S.facts id (way_of backwards) room.old room.new filled.old filled.new
            self.old self.new result }
    {
        match self.copy_next(id, room, filled) {
            Copied::Added => match self.step(alloc, id, backwards) {
                None => Step::Copied,
                Some(code) => Step::Refused(code),
            },
            Copied::Full => Step::Full,
            Copied::Nowhere(code) => Step::Ended(code),
        }
    }

    // Copies the pair on which an iterator stands behind those that are there.
    fn copy_next(&self, id: u64, room: &mut [u8], filled: &mut Filled) -> Copied
        requires used { filled.old.used ≤ length room.old }
        requires pairs { filled.old.pairs ≤ filled.old.used }
        ensures { CopiesPair (pair_of id self.now.iterators.items) room.old room.new filled.old filled.new result }
    {
        match find(self.iterators.as_slice(), id) {
            None => Copied::Nowhere(number_of(DbError::NoIterator)),
            Some(standing) => copy_standing(&standing.pair, room, filled),
        }
    }

    // Moves an iterator on by one pair.
    fn moved_by(
        &mut self,
        alloc: Global,
        id: u64,
        backwards: bool,
    ) -> Result<Option<(Bytes, Bytes)>, DbError>
        ensures done { MoveDone bytewise S.facts id (way_of backwards) self.old.db self.new.db result }
        ensures still { self.new.iterators ≡ self.old.iterators }
    {
        if backwards {
            return self.moved(alloc, id, Motion::Prev);
        }
        self.moved(alloc, id, Motion::Next)
    }

    // Goes on by one pair; the number of the refusal, if it was refused.
    fn step(&mut self, alloc: Global, id: u64, backwards: bool) -> Option<i32>
        ensures { MovesOn bytewise S.facts id (way_of backwards) self.old self.new result }
    {
        match self.moved_by(alloc, id, backwards) {
            Err(error) => Some(number_of(error)),
            Ok(found) => {
                self.keep(id, found);
                None
            }
        }
    }
}

// Copies the pair on which an iterator stands.
fn copy_standing(found: &Option<(Bytes, Bytes)>, room: &mut [u8], filled: &mut Filled) -> Copied
    requires used { filled.old.used ≤ length room.old }
    requires pairs { filled.old.pairs ≤ filled.old.used }
    ensures { CopiesPair (Some found.now) room.old room.new filled.old filled.new result }
{
    match found {
        None => Copied::Nowhere(NOT_FOUND),
        Some((key, value)) => {
            if add_pair(key, value, room, filled) {
                Copied::Added
            } else {
                Copied::Full
            }
        }
    }
}
