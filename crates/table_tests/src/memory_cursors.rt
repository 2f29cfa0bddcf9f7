//! Cursors over memtables.

use crate::entries::{Row, entry};
use crate::memory_tables::add;
use crate::walks::{Pair, Turn, agrees, first_elsewhere};
use coding::DbError;
use cursor::{Cursor, ListCursor, Visible};
use ikey::{Bytewise, Kind};
use memtable::MemTable;
use std::alloc::{AllocError, Global};
use std::test::*;
use table::KeyValue;
use table_access::{
    MemoryCursor, kept_for_all_is_same, later_inserts_are_kept, seen_entries_have_the_view,
};

const PUT: Kind = Kind::Put;

const DELETE: Kind = Kind::Delete;

// In the order of internal keys.
const ENTRIES: [Row; 10] = [
    (b"", 6, PUT, b"empty"),
    (b"a", 9, PUT, b"new"),
    (b"a", 4, DELETE, b""),
    (b"b", 8, PUT, b""),
    (b"b", 7, DELETE, b""),
    (b"b", 5, PUT, b"five"),
    (b"bb", 3, PUT, b"three"),
    (b"c", 10, DELETE, b""),
    (b"c", 2, PUT, b"two"),
    (b"d", 11, PUT, b"late"),
];

// The same as they came: a user key, a sequence number, and what was put, or nothing for a delete.
const WRITES: [(&[u8], u64, Option<&[u8]>); 10] = [
    (b"c", 2, Some(b"two")),
    (b"bb", 3, Some(b"three")),
    (b"a", 4, None),
    (b"b", 5, Some(b"five")),
    (b"", 6, Some(b"empty")),
    (b"b", 7, None),
    (b"b", 8, Some(b"")),
    (b"a", 9, Some(b"new")),
    (b"c", 10, None),
    (b"d", 11, Some(b"late")),
];

#[rattlefmt::skip]
const TURNS: [Turn; 31] = [
    Turn::First, Turn::Next, Turn::Next, Turn::Prev, Turn::Next, Turn::Next, Turn::Next, Turn::Next, Turn::Next, Turn::Next, Turn::Next,
    Turn::Last, Turn::Next, Turn::Last, Turn::Prev, Turn::Prev, Turn::Next, Turn::Prev, Turn::Prev,
    Turn::Seek(b"b", 8, PUT), Turn::Seek(b"b", 8, DELETE), Turn::Prev, Turn::Seek(b"b", 7, DELETE),
    Turn::Seek(b"a", 20, PUT), Turn::Next, Turn::Seek(b"ba", 1, DELETE), Turn::Prev,
    Turn::Seek(b"c", 9, PUT), Turn::Seek(b"c", 1, PUT), Turn::Seek(b"", 0, DELETE), Turn::Seek(b"e", 0, PUT),
];

// What a cursor up to sequence number 8 has at hand after each turn.
#[rattlefmt::skip]
const AT_HAND: [(Turn, Option<Pair>); 10] = [
    (Turn::First, Some((b"\x01\x06\0\0\0\0\0\0", b"empty"))),
    (Turn::Next, Some((b"a\x00\x04\0\0\0\0\0\0", b""))),
    (Turn::Next, Some((b"b\x01\x08\0\0\0\0\0\0", b""))),
    (Turn::Last, Some((b"c\x01\x02\0\0\0\0\0\0", b"two"))),
    (Turn::Next, None),
    (Turn::Seek(b"b", 7, PUT), Some((b"b\x00\x07\0\0\0\0\0\0", b""))),
    (Turn::Seek(b"b", 5, DELETE), Some((b"bb\x01\x03\0\0\0\0\0\0", b"three"))),
    (Turn::Prev, Some((b"b\x01\x05\0\0\0\0\0\0", b"five"))),
    (Turn::Seek(b"a", 9, PUT), Some((b"a\x00\x04\0\0\0\0\0\0", b""))),
    (Turn::Seek(b"d", 20, PUT), None),
];

// The pairs that are visible at sequence number 8.
const SHOWN: [Pair; 4] = [
    (b"", b"empty"),
    (b"b", b""),
    (b"bb", b"three"),
    (b"c", b"two"),
];

fn table_of(alloc: Global) -> Result<MemTable<Bytewise>, AllocError> {
    let mut table = MemTable::new(alloc);
    for (key, sequence, value) in WRITES {
        add(&mut table, key, sequence, value)?;
    }
    Ok(table)
}

// The entries up to a sequence number.
fn pairs_up_to(alloc: Global, limit: u32) -> Result<Vec<KeyValue>, DbError> {
    let mut pairs = Vec::new(alloc);
    for (user, sequence, kind, value) in ENTRIES {
        if sequence <= u64::from(limit) {
            pairs.push(entry(alloc, user, sequence, kind, value)?)?;
        }
    }
    Ok(pairs)
}

// Whether a turn leads a cursor to where it leads one over the list, and a newer entry is added
// then.
fn agrees_beside(
    cursor: &mut MemoryCursor<Bytewise>,
    alloc: Global,
    table: &mut MemTable<Bytewise>,
    list: &mut ListCursor<Bytewise>,
    turn: (Turn, u64),
) -> Result<bool, DbError> {
    let is_so = agrees(cursor, alloc, table, list, turn.0)?;
    add(table, b"b", turn.1, Some(b"newer"))?;
    Ok(is_so)
}

// Whether a cursor up to this sequence number walks as one over the list does, while newer entries
// are added.
fn walks_as_list(alloc: Global, limit: u32) -> Result<bool, DbError> {
    let mut table = table_of(alloc)?;
    let mut list = ListCursor::new(pairs_up_to(alloc, limit)?);
    let mut cursor = MemoryCursor::new(alloc, u64::from(limit));
    cursor.begins(&table);
    for (turn, newer) in TURNS.iter().zip(20u64..) {
        if !agrees_beside(&mut cursor, alloc, &mut table, &mut list, (*turn, newer))? {
            return Ok(false);
        }
    }
    Ok(true)
}

#[test]
fn a_cursor_walks_as_the_list_of_what_is_seen(rt: HostRuntime) {
    for limit in [1, 2, 4, 7, 8, 11] {
        assert_eq!(rt; walks_as_list(rt.alloc(), limit), Ok(true), "up to {limit}");
    }
    // Laws, for the proof alone.
    seen_entries_have_the_view();
    later_inserts_are_kept::<Bytewise>();
    kept_for_all_is_same::<Bytewise>();
}

// The first turn after which a cursor up to sequence number 8 has something else at hand than what
// is listed above.
fn elsewhere(alloc: Global) -> Result<Option<usize>, DbError> {
    let mut table = table_of(alloc)?;
    let mut cursor = MemoryCursor::new(alloc, 8);
    first_elsewhere(&mut cursor, alloc, &mut table, &AT_HAND)
}

#[test]
fn keys_and_values_are_at_hand(rt: HostRuntime) {
    assert_eq!(rt; elsewhere(rt.alloc()), Ok(None));
}

// Whether the next pair of an iteration, or the first one, is this.
fn shows<C: Cursor<Bytewise, MemTable<Bytewise>>>(
    walk: &mut Visible<Bytewise, C>,
    alloc: Global,
    table: &mut MemTable<Bytewise>,
    key: &[u8],
    value: &[u8],
) -> Result<bool, DbError> {
    if walk.stands() {
        walk.next(alloc, table)?;
    } else {
        walk.first(alloc, table)?;
    }
    Ok(walk.stands() && walk.key() == key && walk.value(table) == value)
}

// Whether a walk at sequence number 8 shows the pairs listed above.
fn shows_all(alloc: Global) -> Result<bool, DbError> {
    let mut table = table_of(alloc)?;
    let mut walk = Visible::new(alloc, MemoryCursor::new(alloc, 8), 8);
    for (key, value) in SHOWN {
        if !shows(&mut walk, alloc, &mut table, key, value)? {
            return Ok(false);
        }
    }
    Ok(true)
}

#[test]
fn a_walk_over_a_cursor_shows_what_is_visible(rt: HostRuntime) {
    assert_eq!(rt; shows_all(rt.alloc()), Ok(true));
}
