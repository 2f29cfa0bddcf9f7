//! Cursors over table files, and look-ups in them.

use crate::entries::{Row, entries_of};
use crate::files::{NAME, OF_TYPE_ONE, changed};
use crate::layouts::TableRow;
use crate::walks::{Pair, Turn, at_hand, first_apart, leads_to, step};
use crate::written::{cached, is_value, opened, stored, value_in};
use coding::DbError;
use ikey::{Bytewise, Kind};
use std::alloc::Global;
use std::test::*;
use store::{MemStore, Store, StoreError};
use table_access::{TableCursor, Tables};

const PUT: Kind = Kind::Put;

// Entries in the order of internal keys.
const ENTRIES: [Row; 8] = [
    (b"a", 9, PUT, b"\x01"),
    (b"a", 4, Kind::Delete, b"\0"),
    (b"c", 3, PUT, b"\x02"),
    (b"c", 2, PUT, b"\x03"),
    (b"ca", 8, PUT, b"\x04"),
    (b"e", 7, PUT, b"\x05"),
    (b"e", 6, Kind::Delete, b"\0"),
    (b"g", 5, PUT, b"\x06"),
];

// The table 5 of these.
const FIVE: TableRow = TableRow(1, 5, 1, b"a", 9, b"g", 5);

// Both ways from end to end, and seeks on, between and after the keys.
#[rattlefmt::skip]
const TURNS: [Turn; 42] = [
    Turn::First, Turn::Next, Turn::Next, Turn::Next, Turn::Next, Turn::Next, Turn::Next, Turn::Next, Turn::Next,
    Turn::Last, Turn::Prev, Turn::Prev, Turn::Prev, Turn::Prev, Turn::Prev, Turn::Prev, Turn::Prev, Turn::Prev,
    Turn::Seek(b"a", 9, PUT), Turn::Seek(b"a", 5, PUT), Turn::Prev, Turn::Next, Turn::Seek(b"b", 1, PUT), Turn::Prev, Turn::Next,
    Turn::Seek(b"c", 1, PUT), Turn::Seek(b"d", 1, PUT), Turn::Prev, Turn::Seek(b"e", 7, PUT), Turn::Next, Turn::Prev, Turn::Prev,
    Turn::Seek(b"", 1, PUT), Turn::Prev, Turn::Seek(b"f", 1, PUT), Turn::Next, Turn::Seek(b"g", 4, PUT), Turn::Last, Turn::Next,
    Turn::First, Turn::Prev, Turn::First,
];

type Source = Tables<Bytewise, MemStore>;

// A store with the table 5, whose blocks are ended by so many bytes, read through a cache of so
// many.
fn table_of(alloc: Global, block_bytes: usize, blocks: usize) -> Result<Source, DbError> {
    cached(
        alloc,
        stored(alloc, &[(NAME, &ENTRIES)], block_bytes)?,
        1,
        blocks,
    )
}

// The first turn that leads a cursor over the table elsewhere than one over its list.
fn apart_from_the_list(
    alloc: Global,
    block_bytes: usize,
    blocks: usize,
) -> Result<Option<usize>, DbError> {
    let mut source = table_of(alloc, block_bytes, blocks)?;
    let mut cursor = opened(alloc, &mut source, &FIVE)?;
    first_apart(
        &mut cursor,
        alloc,
        &mut source,
        entries_of(alloc, &ENTRIES)?,
        &TURNS,
    )
}

#[test]
fn a_table_is_walked_as_its_list(rt: HostRuntime) {
    for (block_bytes, blocks) in [(1, 1), (1, 8), (40, 2), (4096, 1)] {
        assert_eq!(rt;
            apart_from_the_list(rt.alloc(), block_bytes, blocks),
            Ok(None)
        );
    }
}

// ---- damage

// Writes the table's file again with all bits of one byte turned over.
fn change(alloc: Global, store: &mut MemStore, at: usize) -> Result<(), StoreError> {
    let mut bytes = store.read_at(alloc, NAME, 0, 4096)?;
    if let Some(byte) = bytes.get_mut(at) {
        *byte = !*byte;
    }
    store.create(NAME)?;
    store.append(NAME, &bytes)
}

const A9: Option<Pair> = Some((b"a\x01\x09\0\0\0\0\0\0", b"\x01"));

const A4: Option<Pair> = Some((b"a\x00\x04\0\0\0\0\0\0", b"\0"));

// Whether a turn is refused over the damage, by which the place stays, and leads on once that is
// mended. The first block has 21 bytes and its trailer 5, so that the damage is in the second.
fn stays_at_damage(
    cursor: &mut TableCursor<Bytewise>,
    alloc: Global,
    source: &mut Source,
) -> Result<bool, DbError> {
    let was_there = leads_to(cursor, alloc, source, Turn::First, A9)?;
    let is_changed = change(alloc, &mut source.store, 30).is_ok();
    let is_refused = is_refusal(&step(cursor, alloc, source, Turn::Next), false);
    let stays = at_hand(cursor, source) == A9;
    let is_mended = change(alloc, &mut source.store, 30).is_ok();
    let goes_on = leads_to(cursor, alloc, source, Turn::Next, A4)?;
    Ok(was_there && is_changed && is_refused && stays && is_mended && goes_on)
}

fn keeps_its_place(alloc: Global) -> Result<bool, DbError> {
    let mut source = table_of(alloc, 1, 1)?;
    let mut cursor = opened(alloc, &mut source, &FIVE)?;
    stays_at_damage(&mut cursor, alloc, &mut source)
}

#[test]
fn a_damaged_block_is_refused_and_the_place_stays(rt: HostRuntime) {
    assert_eq!(rt; keeps_its_place(rt.alloc()), Ok(true));
}

// Whether a call was refused: as not supported, or as damaged.
fn is_refusal<T>(answer: &Result<T, DbError>, is_unsupported: bool) -> bool {
    match answer {
        Ok(_) => false,
        Err(DbError::Unsupported(_)) => is_unsupported,
        Err(DbError::Corrupt(_, _)) => !is_unsupported,
        Err(_) => false,
    }
}

// The table of one entry.
const ONE: TableRow = TableRow(1, 5, 1, b"a", 1, b"a", 1);

// Whether both a cursor and a look-up are refused so over that table in this store.
fn are_refused(alloc: Global, store: MemStore, is_unsupported: bool) -> Result<bool, DbError> {
    let mut source = cached(alloc, store, 1, 1)?;
    let mut cursor = opened(alloc, &mut source, &ONE)?;
    let walked = step(&mut cursor, alloc, &mut source, Turn::First);
    let found = value_in(alloc, &mut source, &ONE, b"a", 9);
    Ok(is_refusal(&walked, is_unsupported) && is_refusal(&found, is_unsupported))
}

// The same of the table of one entry with these bytes after its data block.
fn is_refused(alloc: Global, behind: &[u8; 5], is_unsupported: bool) -> bool {
    match changed(alloc, 21, 26, behind) {
        Ok(store) => are_refused(alloc, store, is_unsupported) == Ok(true),
        Err(_) => false,
    }
}

#[test]
fn a_block_of_another_type_is_not_supported(rt: HostRuntime) {
    for (behind, is_unsupported) in OF_TYPE_ONE {
        assert!(rt;
            is_refused(rt.alloc(), &behind, is_unsupported),
            "{behind:?}"
        );
    }
}

// The table 6, which there isn't.
const SIX: TableRow = TableRow(1, 6, 1, b"a", 9, b"g", 5);

fn is_missing(alloc: Global) -> Result<bool, DbError> {
    let mut source = table_of(alloc, 1, 1)?;
    Ok(is_refusal(&opened(alloc, &mut source, &SIX), false))
}

#[test]
fn a_missing_table_is_corrupt(rt: HostRuntime) {
    assert_eq!(rt; is_missing(rt.alloc()), Ok(true));
}

// ---- look-ups

// A user key and a sequence number, and what the newest entry put, or that it is a delete.
#[rattlefmt::skip]
const VALUES: [(&[u8], u32, Option<Option<&[u8]>>); 14] = [
    (b"a", 9, Some(Some(b"\x01"))), (b"a", 8, Some(None)), (b"a", 4, Some(None)), (b"a", 3, None),
    (b"c", 9, Some(Some(b"\x02"))), (b"c", 2, Some(Some(b"\x03"))), (b"c", 1, None),
    (b"ca", 8, Some(Some(b"\x04"))), (b"ca", 7, None),
    (b"e", 6, Some(None)), (b"g", 5, Some(Some(b"\x06"))), (b"b", 9, None), (b"h", 9, None), (b"", 9, None),
];

// Whether each look-up over a table of such blocks finds what is wanted.
fn finds_values(alloc: Global, block_bytes: usize) -> Result<bool, DbError> {
    let mut source = table_of(alloc, block_bytes, 2)?;
    for (key, sequence, wanted) in VALUES {
        let found = value_in(alloc, &mut source, &FIVE, key, sequence)?;
        if !is_value(&found, wanted) {
            return Ok(false);
        }
    }
    Ok(true)
}

#[test]
fn values_are_those_of_the_newest_entries(rt: HostRuntime) {
    for block_bytes in [1, 40, 4096] {
        assert_eq!(rt;
            finds_values(rt.alloc(), block_bytes),
            Ok(true),
            "{block_bytes}"
        );
    }
}
