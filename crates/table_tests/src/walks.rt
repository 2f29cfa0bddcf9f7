//! Turns of cursors, and what is at hand after them.

use coding::DbError;
use cursor::{Cursor, ListCursor};
use ikey::{Bytewise, Kind, pack};
use std::alloc::Global;
use store::MemStore;
use table::KeyValue;

/// Names a move of a cursor. One on from a place, or back, is none if there is no place.
#[derive(Clone, Copy)]
pub enum Turn {
    First,
    Last,
    Seek(&'static [u8], u32, Kind),
    Next,
    Prev,
}

/// An internal key and a value.
pub type Pair = (&'static [u8], &'static [u8]);

pub fn step<S, C: Cursor<Bytewise, S>>(
    cursor: &mut C,
    alloc: Global,
    source: &mut S,
    turn: Turn,
) -> Result<(), DbError> {
    match turn {
        Turn::First => cursor.first(alloc, source),
        Turn::Last => cursor.last(alloc, source),
        Turn::Seek(user, sequence, kind) => {
            let target = pack(alloc, user, u64::from(sequence), kind)?;
            cursor.seek(alloc, source, &target)
        }
        Turn::Next => {
            if !cursor.stands() {
                return Ok(());
            }
            cursor.next(alloc, source)
        }
        Turn::Prev => {
            if !cursor.stands() {
                return Ok(());
            }
            cursor.prev(alloc, source)
        }
    }
}

/// Returns the key and the value at a cursor's place.
pub fn at_hand<'a, S, C: Cursor<Bytewise, S>>(
    cursor: &'a C,
    source: &'a S,
) -> Option<(&'a [u8], &'a [u8])> {
    if !cursor.stands() {
        return None;
    }
    Some((cursor.key(source), cursor.value(source)))
}

/// Returns whether a turn leads to this key and this value, or to no place.
pub fn leads_to<S, C: Cursor<Bytewise, S>>(
    cursor: &mut C,
    alloc: Global,
    source: &mut S,
    turn: Turn,
    wanted: Option<Pair>,
) -> Result<bool, DbError> {
    step(cursor, alloc, source, turn)?;
    Ok(at_hand(cursor, source) == wanted)
}

/// Returns the first turn that leads elsewhere, by its place.
pub fn first_elsewhere<S, C: Cursor<Bytewise, S>>(
    cursor: &mut C,
    alloc: Global,
    source: &mut S,
    turns: &[(Turn, Option<Pair>)],
) -> Result<Option<usize>, DbError> {
    for (place, (turn, wanted)) in turns.iter().enumerate() {
        if !leads_to(cursor, alloc, source, *turn, *wanted)? {
            return Ok(Some(place));
        }
    }
    Ok(None)
}

/// Returns whether a turn leads a cursor to where it leads one over a list.
pub fn agrees<S, C: Cursor<Bytewise, S>>(
    cursor: &mut C,
    alloc: Global,
    source: &mut S,
    list: &mut ListCursor<Bytewise>,
    turn: Turn,
) -> Result<bool, DbError> {
    let mut none = MemStore::new(alloc);
    step(list, alloc, &mut none, turn)?;
    step(cursor, alloc, source, turn)?;
    Ok(at_hand(cursor, source) == at_hand(list, &none))
}

/// Returns the first turn that leads a cursor elsewhere than one over the list of these pairs, by
/// its place.
pub fn first_apart<S, C: Cursor<Bytewise, S>>(
    cursor: &mut C,
    alloc: Global,
    source: &mut S,
    pairs: Vec<KeyValue>,
    turns: &[Turn],
) -> Result<Option<usize>, DbError> {
    let mut list = ListCursor::new(pairs);
    for (place, turn) in turns.iter().enumerate() {
        if !agrees(cursor, alloc, source, &mut list, *turn)? {
            return Ok(Some(place));
        }
    }
    Ok(None)
}
