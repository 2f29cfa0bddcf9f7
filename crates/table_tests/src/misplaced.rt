//! Data blocks that aren't what their place in the index or their table's edit says, with checksums
//! that fit.

use crate::files::NAME;
use crate::layouts::TableRow;
use crate::walks::{Pair, Turn, at_hand, step};
use crate::written::{cached, is_value, opened, value_in};
use coding::DbError;
use ikey::{Bytewise, Kind};
use std::alloc::Global;
use std::test::*;
use store::{FaultStore, MemStore, Store, StoreError};
use table_access::{TableCursor, Tables};

// Tables without a filter, whose entries are puts at sequence number 2. One has `b` and `d` in one
// block, bounded by its last key. The other has also `f` and `h` in a second block, which begins at
// 43. The first key of a block stands at its byte 3, the second at 16, the checksum at 39.
const ONE_BLOCK: [u8; 131] = [
    0x00, 0x09, 0x01, 0x62, 0x01, 0x02, 0x00, 0x00, 0x00, 0x00, 0x00, 0x00, 0x01, 0x00, 0x09, 0x01,
    0x64, 0x01, 0x02, 0x00, 0x00, 0x00, 0x00, 0x00, 0x00, 0x02, 0x00, 0x00, 0x00, 0x00, 0x0D, 0x00,
    0x00, 0x00, 0x02, 0x00, 0x00, 0x00, 0x00, 0x4D, 0x71, 0x8F, 0x4C, 0x00, 0x00, 0x00, 0x00, 0x01,
    0x00, 0x00, 0x00, 0x00, 0xC0, 0xF2, 0xA1, 0xB0, 0x00, 0x09, 0x02, 0x64, 0x01, 0x02, 0x00, 0x00,
    0x00, 0x00, 0x00, 0x00, 0x00, 0x26, 0x00, 0x00, 0x00, 0x00, 0x01, 0x00, 0x00, 0x00, 0x00, 0xD1,
    0x2A, 0xDF, 0x51, 0x2B, 0x08, 0x38, 0x16, 0x00, 0x00, 0x00, 0x00, 0x00, 0x00, 0x00, 0x00, 0x00,
    0x00, 0x00, 0x00, 0x00, 0x00, 0x00, 0x00, 0x00, 0x00, 0x00, 0x00, 0x00, 0x00, 0x00, 0x00, 0x00,
    0x00, 0x00, 0x00, 0x00, 0x00, 0x00, 0x00, 0x00, 0x00, 0x00, 0x00, 0x57, 0xFB, 0x80, 0x8B, 0x24,
    0x75, 0x47, 0xDB,
];

const TWO_BLOCKS: [u8; 192] = [
    0x00, 0x09, 0x01, 0x62, 0x01, 0x02, 0x00, 0x00, 0x00, 0x00, 0x00, 0x00, 0x01, 0x00, 0x09, 0x01,
    0x64, 0x01, 0x02, 0x00, 0x00, 0x00, 0x00, 0x00, 0x00, 0x02, 0x00, 0x00, 0x00, 0x00, 0x0D, 0x00,
    0x00, 0x00, 0x02, 0x00, 0x00, 0x00, 0x00, 0x4D, 0x71, 0x8F, 0x4C, 0x00, 0x09, 0x01, 0x66, 0x01,
    0x02, 0x00, 0x00, 0x00, 0x00, 0x00, 0x00, 0x03, 0x00, 0x09, 0x01, 0x68, 0x01, 0x02, 0x00, 0x00,
    0x00, 0x00, 0x00, 0x00, 0x04, 0x00, 0x00, 0x00, 0x00, 0x0D, 0x00, 0x00, 0x00, 0x02, 0x00, 0x00,
    0x00, 0x00, 0xDC, 0x69, 0xA6, 0x18, 0x00, 0x00, 0x00, 0x00, 0x01, 0x00, 0x00, 0x00, 0x00, 0xC0,
    0xF2, 0xA1, 0xB0, 0x00, 0x09, 0x02, 0x64, 0x01, 0x02, 0x00, 0x00, 0x00, 0x00, 0x00, 0x00, 0x00,
    0x26, 0x00, 0x09, 0x02, 0x68, 0x01, 0x02, 0x00, 0x00, 0x00, 0x00, 0x00, 0x00, 0x2B, 0x26, 0x00,
    0x00, 0x00, 0x00, 0x0E, 0x00, 0x00, 0x00, 0x02, 0x00, 0x00, 0x00, 0x00, 0x21, 0x2A, 0x7D, 0x59,
    0x56, 0x08, 0x63, 0x28, 0x00, 0x00, 0x00, 0x00, 0x00, 0x00, 0x00, 0x00, 0x00, 0x00, 0x00, 0x00,
    0x00, 0x00, 0x00, 0x00, 0x00, 0x00, 0x00, 0x00, 0x00, 0x00, 0x00, 0x00, 0x00, 0x00, 0x00, 0x00,
    0x00, 0x00, 0x00, 0x00, 0x00, 0x00, 0x00, 0x00, 0x57, 0xFB, 0x80, 0x8B, 0x24, 0x75, 0x47, 0xDB,
];

// Tables of one entry, whose key and bound are no internal key: one of kind 2, and one of seven
// bytes.
const OF_KIND_TWO: [u8; 114] = [
    0x00, 0x09, 0x01, 0x62, 0x02, 0x02, 0x00, 0x00, 0x00, 0x00, 0x00, 0x00, 0x01, 0x00, 0x00, 0x00,
    0x00, 0x01, 0x00, 0x00, 0x00, 0x00, 0x79, 0xB6, 0xD8, 0xA5, 0x00, 0x00, 0x00, 0x00, 0x01, 0x00,
    0x00, 0x00, 0x00, 0xC0, 0xF2, 0xA1, 0xB0, 0x00, 0x09, 0x02, 0x62, 0x02, 0x02, 0x00, 0x00, 0x00,
    0x00, 0x00, 0x00, 0x00, 0x15, 0x00, 0x00, 0x00, 0x00, 0x01, 0x00, 0x00, 0x00, 0x00, 0xBB, 0x3E,
    0xEA, 0x08, 0x1A, 0x08, 0x27, 0x16, 0x00, 0x00, 0x00, 0x00, 0x00, 0x00, 0x00, 0x00, 0x00, 0x00,
    0x00, 0x00, 0x00, 0x00, 0x00, 0x00, 0x00, 0x00, 0x00, 0x00, 0x00, 0x00, 0x00, 0x00, 0x00, 0x00,
    0x00, 0x00, 0x00, 0x00, 0x00, 0x00, 0x00, 0x00, 0x00, 0x00, 0x57, 0xFB, 0x80, 0x8B, 0x24, 0x75,
    0x47, 0xDB,
];

const OF_SEVEN_BYTES: [u8; 110] = [
    0x00, 0x07, 0x01, 0x62, 0x63, 0x64, 0x65, 0x66, 0x67, 0x68, 0x01, 0x00, 0x00, 0x00, 0x00, 0x01,
    0x00, 0x00, 0x00, 0x00, 0xA9, 0xE1, 0x7C, 0xA3, 0x00, 0x00, 0x00, 0x00, 0x01, 0x00, 0x00, 0x00,
    0x00, 0xC0, 0xF2, 0xA1, 0xB0, 0x00, 0x07, 0x02, 0x62, 0x63, 0x64, 0x65, 0x66, 0x67, 0x68, 0x00,
    0x13, 0x00, 0x00, 0x00, 0x00, 0x01, 0x00, 0x00, 0x00, 0x00, 0xF7, 0x54, 0xC7, 0x5B, 0x18, 0x08,
    0x25, 0x14, 0x00, 0x00, 0x00, 0x00, 0x00, 0x00, 0x00, 0x00, 0x00, 0x00, 0x00, 0x00, 0x00, 0x00,
    0x00, 0x00, 0x00, 0x00, 0x00, 0x00, 0x00, 0x00, 0x00, 0x00, 0x00, 0x00, 0x00, 0x00, 0x00, 0x00,
    0x00, 0x00, 0x00, 0x00, 0x00, 0x00, 0x57, 0xFB, 0x80, 0x8B, 0x24, 0x75, 0x47, 0xDB,
];

// A turn of a cursor, and where it leads: to a pair or nowhere, or None where it is refused and the
// place stays.
type Led = (Turn, Option<Option<Pair>>);

// A user key, sought up to sequence number 9, and its value or that it has none, or None where the
// get is refused.
type Got = (&'static [u8], Option<Option<Option<&'static [u8]>>>);

// What a table answers.
type Told = (&'static [Led], &'static [Got]);

const PUT: Kind = Kind::Put;

const B: Pair = (b"b\x01\x02\0\0\0\0\0\0", b"\x01");

const D: Pair = (b"d\x01\x02\0\0\0\0\0\0", b"\x02");

const F: Pair = (b"f\x01\x02\0\0\0\0\0\0", b"\x03");

const H: Pair = (b"h\x01\x02\0\0\0\0\0\0", b"\x04");

// Where the only block is refused.
#[rattlefmt::skip]
const NONE: Told = (
    &[(Turn::First, None), (Turn::Last, None), (Turn::Seek(b"b", 2, PUT), None), (Turn::Seek(b"d", 2, PUT), None)],
    &[(b"b", None), (b"d", None)],
);

// Where the first of two blocks is refused.
#[rattlefmt::skip]
const SECOND: Told = (
    &[
        (Turn::First, None), (Turn::Last, Some(Some(H))), (Turn::Prev, Some(Some(F))), (Turn::Prev, None), (Turn::First, None),
        (Turn::Seek(b"b", 2, PUT), None), (Turn::Seek(b"d", 2, PUT), None), (Turn::Next, Some(Some(H))), (Turn::Seek(b"e", 2, PUT), Some(Some(F))),
    ],
    &[(b"b", None), (b"d", None), (b"a", None), (b"f", Some(Some(Some(b"\x03")))), (b"h", Some(Some(Some(b"\x04")))), (b"e", Some(None))],
);

// Where the second of them is.
#[rattlefmt::skip]
const FIRST: Told = (
    &[
        (Turn::Last, None), (Turn::First, Some(Some(B))), (Turn::Next, Some(Some(D))), (Turn::Next, None), (Turn::Last, None),
        (Turn::Seek(b"f", 2, PUT), None), (Turn::Seek(b"e", 2, PUT), None), (Turn::Prev, Some(Some(B))), (Turn::Seek(b"d", 2, PUT), Some(Some(D))),
    ],
    &[(b"f", None), (b"h", None), (b"e", None), (b"b", Some(Some(Some(b"\x01")))), (b"d", Some(Some(Some(b"\x02")))), (b"c", Some(None))],
);

// A table, bytes that are put over others of it, each with its place, what its edit says, and what
// it answers then.
type Case = (
    &'static [u8],
    &'static [(usize, &'static [u8])],
    TableRow,
    Told,
);

// What the edits of the tables say.
const OF_ONE: TableRow = TableRow(1, 5, 131, b"b", 2, b"d", 2);

const OF_TWO: TableRow = TableRow(1, 5, 192, b"b", 2, b"h", 2);

// Keys above the bound of their block, and keys that don't lie above the bound before. What is no
// internal key: first, last, and alone. At the end the tables as they were, and keys that lie just
// inside: above no bound, and the next one above the bound before.
#[rattlefmt::skip]
const CASES: [Case; 18] = [
    (&ONE_BLOCK, &[(16, b"d\x01\x01"), (39, b"\x20\x93\xe5H")], OF_ONE, NONE),
    (&ONE_BLOCK, &[(16, b"e"), (39, b"\xaaX\xff\xec")], OF_ONE, NONE),
    (&ONE_BLOCK, &[(4, b"\x02"), (39, b"\xba-I\x81")], OF_ONE, NONE),
    (&ONE_BLOCK, &[(17, b"\x02"), (39, b"\xe188p")], OF_ONE, NONE),
    (&OF_KIND_TWO, &[], OF_ONE, NONE),
    (&OF_SEVEN_BYTES, &[], OF_ONE, NONE),
    (&TWO_BLOCKS, &[(16, b"d\x01\x01"), (39, b"\x20\x93\xe5H")], OF_TWO, SECOND),
    (&TWO_BLOCKS, &[(16, b"e"), (39, b"\xaaX\xff\xec")], OF_TWO, SECOND),
    (&TWO_BLOCKS, &[(4, b"\x02"), (39, b"\xba-I\x81")], OF_TWO, SECOND),
    (&TWO_BLOCKS, &[(46, b"c"), (82, b"\xd0q=\x7f")], OF_TWO, FIRST),
    (&TWO_BLOCKS, &[(46, b"d"), (82, b"\x0e\x9bV;")], OF_TWO, FIRST),
    (&TWO_BLOCKS, &[(46, b"d\x01\x03"), (82, b"\xb78\xf41")], OF_TWO, FIRST),
    (&TWO_BLOCKS, &[(59, b"h\x01\x01"), (82, b"\x11<\xd0\x1c")], OF_TWO, FIRST),
    (&TWO_BLOCKS, &[(59, b"i"), (82, b"{\x7f\xd68")], OF_TWO, FIRST),
    (&TWO_BLOCKS, &[(60, b"\x02"), (82, b"P\xa2\x1d\xb4")], OF_TWO, FIRST),
    (&ONE_BLOCK, &[], OF_ONE, (&[(Turn::First, Some(Some(B))), (Turn::Last, Some(Some(D)))], &[(b"b", Some(Some(Some(b"\x01"))))])),
    (&ONE_BLOCK, &[(3, b"a"), (39, b"\xb6\x19\x07\xd6")], TableRow(1, 5, 131, b"a", 2, b"d", 2), (&[(Turn::Last, Some(Some(D)))], &[(b"a", Some(Some(Some(b"\x01"))))])),
    (&TWO_BLOCKS, &[(46, b"d\x01\x01"), (82, b"\xe5\xa0\xb7B")], OF_TWO, (
        &[(Turn::Last, Some(Some(H))), (Turn::Prev, Some(Some((b"d\x01\x01\0\0\0\0\0\0", b"\x03")))), (Turn::Prev, Some(Some(D)))],
        &[(b"d", Some(Some(Some(b"\x02")))), (b"h", Some(Some(Some(b"\x04"))))],
    )),
];

// End keys that their place in the index allows and the edit doesn't. The first key is lower or
// higher, as bytes and by its sequence number; then the last one is. Then the same tables, over
// edits that say these keys, if they differ from what the others say.
#[rattlefmt::skip]
const ENDS: [Case; 14] = [
    (&ONE_BLOCK, &[(3, b"a"), (39, b"\xb6\x19\x07\xd6")], OF_ONE, NONE),
    (&ONE_BLOCK, &[(3, b"b\x01\x03"), (39, b"tf1`")], OF_ONE, NONE),
    (&ONE_BLOCK, &[(16, b"c"), (39, b"\xb2\nA\x89")], OF_ONE, NONE),
    (&ONE_BLOCK, &[(16, b"d\x01\x03"), (39, b"9\x87Y\xf4")], OF_ONE, NONE),
    (&ONE_BLOCK, &[], TableRow(1, 5, 131, b"c", 2, b"d", 2), NONE),
    (&ONE_BLOCK, &[], TableRow(1, 5, 131, b"b", 2, b"d", 1), NONE),
    (&TWO_BLOCKS, &[(3, b"a"), (39, b"\xb6\x19\x07\xd6")], OF_TWO, SECOND),
    (&TWO_BLOCKS, &[(3, b"b\x01\x03"), (39, b"tf1`")], OF_TWO, SECOND),
    (&TWO_BLOCKS, &[(59, b"g"), (82, b"\xd5\x92\xb9\xb1")], OF_TWO, FIRST),
    (&TWO_BLOCKS, &[(59, b"h\x01\x03"), (82, b"\xe8O|0")], OF_TWO, FIRST),
    (&TWO_BLOCKS, &[], TableRow(1, 5, 192, b"c", 2, b"h", 2), SECOND),
    (&TWO_BLOCKS, &[], TableRow(1, 5, 192, b"b", 2, b"i", 2), FIRST),
    (&ONE_BLOCK, &[(16, b"c"), (39, b"\xb2\nA\x89")], TableRow(1, 5, 131, b"b", 2, b"c", 2), (&[(Turn::First, Some(Some(B)))], &[(b"c", Some(Some(Some(b"\x02"))))])),
    (&TWO_BLOCKS, &[(59, b"g"), (82, b"\xd5\x92\xb9\xb1")], TableRow(1, 5, 192, b"b", 2, b"g", 2), (
        &[(Turn::First, Some(Some(B))), (Turn::Last, Some(Some((b"g\x01\x02\0\0\0\0\0\0", b"\x04")))), (Turn::Prev, Some(Some(F)))],
        &[(b"g", Some(Some(Some(b"\x04")))), (b"h", Some(None))],
    )),
];

// A store with the file of the table.
fn put_over(
    alloc: Global,
    table: &[u8],
    changes: &[(usize, &'static [u8])],
) -> Result<MemStore, StoreError> {
    let mut store = MemStore::new(alloc);
    let mut end = 0;
    store.create(NAME)?;
    for (from, bytes) in changes {
        store.append(NAME, table.get(end..*from).unwrap_or(&[]))?;
        store.append(NAME, bytes)?;
        end = from.saturating_add(bytes.len());
    }
    store.append(NAME, table.get(end..).unwrap_or(&[]))?;
    Ok(store)
}

// There is memory.
fn crafted(
    alloc: Global,
    table: &[u8],
    changes: &[(usize, &'static [u8])],
) -> Result<MemStore, DbError> {
    match put_over(alloc, table, changes) {
        Ok(store) => Ok(store),
        Err(_) => Err(DbError::OutOfMemory),
    }
}

type Source = Tables<Bytewise, MemStore>;

// Whether a turn leads there from this place.
fn goes_so(
    cursor: &mut TableCursor<Bytewise>,
    alloc: Global,
    source: &mut Source,
    there: Option<Pair>,
    led: &Led,
) -> bool {
    let (turn, wanted) = *led;
    match step(cursor, alloc, source, turn) {
        Ok(()) => wanted == Some(at_hand(cursor, source)),
        Err(DbError::Corrupt(_, _)) => wanted.is_none() && at_hand(cursor, source) == there,
        Err(_) => false,
    }
}

// The first turn of a new cursor that leads elsewhere, by its place.
fn first_astray(
    alloc: Global,
    source: &mut Source,
    row: &TableRow,
    turns: &[Led],
) -> Result<Option<usize>, DbError> {
    let mut cursor = opened(alloc, source, row)?;
    let mut there = None;
    for (place, led) in turns.iter().enumerate() {
        if !goes_so(&mut cursor, alloc, source, there, led) {
            return Ok(Some(place));
        }
        there = led.1.unwrap_or(there);
    }
    Ok(None)
}

// Whether a get answers that.
fn is_got<S: Store>(
    alloc: Global,
    source: &mut Tables<Bytewise, S>,
    row: &TableRow,
    got: &Got,
) -> bool {
    let (key, wanted) = *got;
    match value_in(alloc, source, row, key, 9) {
        Ok(found) => match wanted {
            Some(value) => is_value(&found, value),
            None => false,
        },
        Err(DbError::Corrupt(_, _)) => wanted.is_none(),
        Err(_) => false,
    }
}

fn gets_all(alloc: Global, source: &mut Source, row: &TableRow, gets: &[Got]) -> bool {
    for got in gets {
        if !is_got(alloc, source, row, got) {
            return false;
        }
    }
    true
}

// Whether the table of a case answers as it should, read through a cache of one block, and through
// one of several.
fn is_told(alloc: Global, case: &Case, blocks: usize) -> Result<bool, DbError> {
    let (table, changes, row, (turns, gets)) = *case;
    let mut source = cached(alloc, crafted(alloc, table, changes)?, 1, blocks)?;
    let astray = first_astray(alloc, &mut source, &row, turns)?;
    Ok(astray.is_none() && gets_all(alloc, &mut source, &row, gets))
}

#[test]
fn blocks_are_held_against_their_places(rt: HostRuntime) {
    for case in &CASES {
        for blocks in [1, 4] {
            assert_eq!(rt; is_told(rt.alloc(), case, blocks), Ok(true), "{:?}", case.1);
        }
    }
}

#[test]
fn the_ends_of_a_table_are_held_against_its_edit(rt: HostRuntime) {
    for case in &ENDS {
        for blocks in [1, 4] {
            assert_eq!(rt; is_told(rt.alloc(), case, blocks), Ok(true), "{:?}", case.1);
        }
    }
}

// ---- what is kept

// A get, and whether the store is asked for it.
#[rattlefmt::skip]
const KEPT: [(Got, bool); 6] = [
    ((b"b", Some(Some(Some(b"\x01")))), true), ((b"d", Some(Some(Some(b"\x02")))), false),
    ((b"f", Some(Some(Some(b"\x03")))), true), ((b"h", Some(Some(Some(b"\x04")))), false),
    ((b"b", Some(Some(Some(b"\x01")))), false), ((b"e", Some(None)), false),
];

fn is_kept(alloc: Global, source: &mut Tables<Bytewise, FaultStore>, got: &Got) -> (bool, bool) {
    let calls = source.store.calls();
    let is = is_got(alloc, source, &OF_TWO, got);
    (is, calls < source.store.calls())
}

// Whether each get is answered so, by a cache of two blocks.
fn are_kept(alloc: Global) -> Result<bool, DbError> {
    let store = FaultStore::new(crafted(alloc, &TWO_BLOCKS, &[])?, None);
    let mut source = cached(alloc, store, 1, 2)?;
    for (got, is_read) in &KEPT {
        if is_kept(alloc, &mut source, got) != (true, *is_read) {
            return Ok(false);
        }
    }
    Ok(true)
}

#[test]
fn a_block_that_is_kept_is_answered_without_the_store(rt: HostRuntime) {
    assert_eq!(rt; are_kept(rt.alloc()), Ok(true));
}
