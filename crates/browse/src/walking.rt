//! Iteration over a range, in the order of the keys or backwards.

ghost use Rattle.std.specs.Prelude.{◌≡◌, true, false, Some};
ghost use Rattle.engine.specs.Ranges.{is_before_end, is_from};
ghost use Rattle.browse.specs.internal.Lists.{all_of, in_reach, reach, settled};
ghost use Rattle.browse.specs.internal.Walking.{Ahead, Moves, StandsBefore, StartsBackwards, StartsForwards};

use crate::choice::Choice;
use coding::{Bytes, DbError};
use ikey::KeyOrder;
use reader::{Movement, Reader, ReaderWalk};
use std::alloc::Global;
use std::cmp::Ordering;
use store::Store;

/// Returns the next pair of an iteration, which has begun or not, or `None` if all came. After a
/// refusal the iteration may stand anywhere.
pub fn next_pair<K: KeyOrder, S: Store>(
    alloc: Global,
    reader: &mut Reader<S, K>,
    walk: &mut ReaderWalk<K>,
    choice: &Choice,
    begun: bool,
) -> Result<Option<(Bytes, Bytes)>, DbError>
    ensures { Moves K.cmp S.facts choice.now.backwards (Ahead K.cmp choice.now begun) (reach K.cmp choice.now) reader.old reader.new walk.old walk.new result }
{
    match move_on(alloc, reader, walk, choice, begun) {
        Ok(found) => Ok(settle::<K>(choice, found)),
        Err(error) => Err(error),
    }
}

// The pair to which a walk came, if that isn't past the range.
fn settle<K: KeyOrder>(choice: &Choice, found: Option<(Bytes, Bytes)>) -> Option<(Bytes, Bytes)>
    ensures { result ≡ settled K.cmp choice.now found }
{
    let (key, value) = found?;
    if !is_in_reach::<K>(choice, key.as_slice()) {
        return None;
    }
    Some((key, value))
}

// Whether a walk that comes to this key isn't past the range.
fn is_in_reach<K: KeyOrder>(choice: &Choice, key: &[u8]) -> bool
    ensures { result ≡ in_reach K.cmp choice.now key.now }
{
    if choice.backwards {
        return is_from_start::<K>(&choice.keys.from, key);
    }
    is_in_front::<K>(&choice.keys.to, key)
}

fn is_from_start<K: KeyOrder>(from: &Option<Bytes>, key: &[u8]) -> bool
    ensures { result ≡ is_from K.cmp from.now key.now }
{
    match from {
        None => true,
        Some(from) => K::compare(key, from.as_slice()) != Ordering::Less,
    }
}

fn is_in_front<K: KeyOrder>(to: &Option<Bytes>, key: &[u8]) -> bool
    ensures { result ≡ is_before_end K.cmp to.now key.now }
{
    match to {
        None => true,
        Some(to) => K::compare(key, to.as_slice()) == Ordering::Less,
    }
}

// Moves a walk to its start, or by a step.
fn move_on<K: KeyOrder, S: Store>(
    alloc: Global,
    reader: &mut Reader<S, K>,
    walk: &mut ReaderWalk<K>,
    choice: &Choice,
    begun: bool,
) -> Result<Option<(Bytes, Bytes)>, DbError>
    ensures { Moves K.cmp S.facts choice.now.backwards (Ahead K.cmp choice.now begun) all_of reader.old reader.new walk.old walk.new result }
{
    if begun {
        return step(alloc, reader, walk, choice.backwards);
    }
    if choice.backwards {
        return start_backwards(alloc, reader, walk, &choice.keys.to);
    }
    start_forwards(alloc, reader, walk, &choice.keys.from)
}

// To the first pair that doesn't come before the range.
fn start_forwards<K: KeyOrder, S: Store>(
    alloc: Global,
    reader: &mut Reader<S, K>,
    walk: &mut ReaderWalk<K>,
    from: &Option<Bytes>,
) -> Result<Option<(Bytes, Bytes)>, DbError>
    ensures { Moves K.cmp S.facts false (StartsForwards K.cmp from.now) all_of reader.old reader.new walk.old walk.new result }
{
    match from {
        None => reader.go(alloc, walk, Movement::First),
        Some(from) => reader.go(alloc, walk, Movement::Seek(from.as_slice())),
    }
}

// To the last pair before the range's end.
fn start_backwards<K: KeyOrder, S: Store>(
    alloc: Global,
    reader: &mut Reader<S, K>,
    walk: &mut ReaderWalk<K>,
    to: &Option<Bytes>,
) -> Result<Option<(Bytes, Bytes)>, DbError>
    ensures { Moves K.cmp S.facts true (StartsBackwards K.cmp to.now) all_of reader.old reader.new walk.old walk.new result }
{
    match to {
        None => reader.go(alloc, walk, Movement::Last),
        Some(to) => start_in_front(alloc, reader, walk, to.as_slice()),
    }
}

// To the one before the first pair that doesn't come before this key, or to the last of all.
fn start_in_front<K: KeyOrder, S: Store>(
    alloc: Global,
    reader: &mut Reader<S, K>,
    walk: &mut ReaderWalk<K>,
    to: &[u8],
) -> Result<Option<(Bytes, Bytes)>, DbError>
    ensures { Moves K.cmp S.facts true (StartsBackwards K.cmp (Some to.now)) all_of reader.old reader.new walk.old walk.new result }
{
    match reader.go(alloc, walk, Movement::Seek(to)) {
        Ok(Some(_)) => reader.go(alloc, walk, Movement::Prev),
        Ok(None) => reader.go(alloc, walk, Movement::Last),
        Err(error) => Err(error),
    }
}

// To the next pair, or to the one before.
fn step<K: KeyOrder, S: Store>(
    alloc: Global,
    reader: &mut Reader<S, K>,
    walk: &mut ReaderWalk<K>,
    backwards: bool,
) -> Result<Option<(Bytes, Bytes)>, DbError>
    ensures { Moves K.cmp S.facts backwards (StandsBefore backwards) all_of reader.old reader.new walk.old walk.new result }
{
    if backwards {
        return reader.go(alloc, walk, Movement::Prev);
    }
    reader.go(alloc, walk, Movement::Next)
}
