//! Cursors over tables in a row.

use crate::entries::{Row, entries_of, write};
use crate::layouts::{TableRow, version_of};
use crate::walks::{Pair, Turn, at_hand, first_apart, first_elsewhere, leads_to, step};
use crate::written::{File, cached, counted};
use coding::DbError;
use ikey::{Bytewise, Kind};
use level_cursor::RowCursor;
use std::alloc::Global;
use std::rc::Rc;
use std::test::*;
use store::{FaultStore, Store};
use table_access::Tables;

const PUT: Kind = Kind::Put;

// The tables of the row, each entry with its user key as its value.
const FILES: [File; 3] = [
    ("000004.ldb", &[(b"b", 5, PUT, b"b"), (b"d", 5, PUT, b"d")]),
    ("000005.ldb", &OF_FIVE),
    ("000006.ldb", &[(b"j", 5, PUT, b"j"), (b"l", 5, PUT, b"l")]),
];

const OF_FIVE: [Row; 2] = [(b"f", 5, PUT, b"f"), (b"h", 5, PUT, b"h")];

const ENTRIES: [Row; 6] = [
    (b"b", 5, PUT, b"b"),
    (b"d", 5, PUT, b"d"),
    (b"f", 5, PUT, b"f"),
    (b"h", 5, PUT, b"h"),
    (b"j", 5, PUT, b"j"),
    (b"l", 5, PUT, b"l"),
];

const LEVEL_1: [TableRow; 3] = [
    TableRow(1, 4, 1, b"b", 5, b"d", 5),
    TableRow(1, 5, 1, b"f", 5, b"h", 5),
    TableRow(1, 6, 1, b"j", 5, b"l", 5),
];

// Both ways from end to end, and seeks before, on, between and after the keys, and between the
// tables.
#[rattlefmt::skip]
const TURNS: [Turn; 39] = [
    Turn::First, Turn::Next, Turn::Next, Turn::Next, Turn::Next, Turn::Next, Turn::Next,
    Turn::Last, Turn::Prev, Turn::Prev, Turn::Prev, Turn::Prev, Turn::Prev, Turn::Prev,
    Turn::Seek(b"a", 5, PUT), Turn::Prev, Turn::Seek(b"b", 5, PUT), Turn::Next, Turn::Seek(b"c", 5, PUT), Turn::Prev,
    Turn::Seek(b"e", 5, PUT), Turn::Prev, Turn::Next, Turn::Seek(b"h", 5, PUT), Turn::Next, Turn::Prev, Turn::Seek(b"i", 5, PUT),
    Turn::Prev, Turn::Prev, Turn::Prev, Turn::Seek(b"l", 5, PUT), Turn::Next, Turn::Seek(b"m", 5, PUT), Turn::Last, Turn::Next,
    Turn::First, Turn::Prev, Turn::Seek(b"k", 5, PUT), Turn::First,
];

const B: Option<Pair> = Some((b"b\x01\x05\0\0\0\0\0\0", b"b"));

const D: Option<Pair> = Some((b"d\x01\x05\0\0\0\0\0\0", b"d"));

const F: Option<Pair> = Some((b"f\x01\x05\0\0\0\0\0\0", b"f"));

const H: Option<Pair> = Some((b"h\x01\x05\0\0\0\0\0\0", b"h"));

const J: Option<Pair> = Some((b"j\x01\x05\0\0\0\0\0\0", b"j"));

const L: Option<Pair> = Some((b"l\x01\x05\0\0\0\0\0\0", b"l"));

type Source = Tables<Bytewise, FaultStore>;

// A store with the three tables. It keeps one block in memory.
fn tables_of(alloc: Global) -> Result<Source, DbError> {
    cached(alloc, counted(alloc, &FILES, 1)?, 3, 1)
}

// A cursor over the tables of the level from the first index on, up to the second.
fn row_of(alloc: Global, from: usize, end: usize) -> Result<RowCursor<Bytewise>, DbError> {
    let version = Rc::new(alloc, version_of(alloc, &LEVEL_1, None)?)?;
    if from > end || end > version.tables().len() {
        return Err(DbError::BadLine);
    }
    Ok(RowCursor::over(version, from, end))
}

// The first turn that leads the row elsewhere than the list of its entries.
fn apart_from_the_list(alloc: Global) -> Result<Option<usize>, DbError> {
    let mut source = tables_of(alloc)?;
    let mut cursor = row_of(alloc, 0, 3)?;
    first_apart(
        &mut cursor,
        alloc,
        &mut source,
        entries_of(alloc, &ENTRIES)?,
        &TURNS,
    )
}

#[test]
fn a_row_is_walked_as_its_list(rt: HostRuntime) {
    assert_eq!(rt; apart_from_the_list(rt.alloc()), Ok(None));
}

// The indexes of some tables, and where turns lead over them.
#[rattlefmt::skip]
const PARTS: [(usize, usize, &[(Turn, Option<Pair>)]); 2] = [
    (1, 2, &[(Turn::First, F), (Turn::Last, H), (Turn::Next, None)]),
    (2, 2, &[(Turn::Last, None)]),
];

fn elsewhere(
    alloc: Global,
    from: usize,
    end: usize,
    turns: &[(Turn, Option<Pair>)],
) -> Result<Option<usize>, DbError> {
    let mut source = tables_of(alloc)?;
    let mut cursor = row_of(alloc, from, end)?;
    first_elsewhere(&mut cursor, alloc, &mut source, turns)
}

#[test]
fn the_tables_beside_the_row_are_not_of_it(rt: HostRuntime) {
    for (from, end, turns) in PARTS {
        assert_eq!(rt; elsewhere(rt.alloc(), from, end, turns), Ok(None));
    }
}

// Turns from nowhere, where each leads, and how many tables it opens. After the last key there is
// none.
const OPENED: [(Turn, Option<Pair>, usize); 6] = [
    (Turn::First, B, 1),
    (Turn::Last, L, 1),
    (Turn::Seek(b"e", 5, PUT), F, 1),
    (Turn::Seek(b"i", 5, PUT), J, 1),
    (Turn::Seek(b"h", 5, PUT), H, 1),
    (Turn::Seek(b"m", 5, PUT), None, 0),
];

// Whether so many tables are open, and the store was asked for them alone.
fn has_opened(source: &Source, tables: usize) -> bool {
    source.tables.len() == tables && (source.store.calls() == 0) == (tables == 0)
}

fn opens(alloc: Global, turn: Turn, wanted: Option<Pair>, tables: usize) -> Result<bool, DbError> {
    let mut source = tables_of(alloc)?;
    let mut cursor = row_of(alloc, 0, 3)?;
    let is_unread = source.store.calls() == 0;
    Ok(
        leads_to(&mut cursor, alloc, &mut source, turn, wanted)?
            && is_unread
            && has_opened(&source, tables),
    )
}

#[test]
fn a_move_opens_one_table_or_none(rt: HostRuntime) {
    for (turn, wanted, tables) in OPENED {
        assert_eq!(rt; opens(rt.alloc(), turn, wanted, tables), Ok(true));
    }
}

// Writes the table 5 again.
fn mend(alloc: Global, store: &mut FaultStore) -> Result<u64, DbError> {
    let entries = entries_of(alloc, &OF_FIVE)?;
    write::<Bytewise, FaultStore>(alloc, store, "000005.ldb", 1, &entries)
}

// The next table is gone, by which the place stays; when it is back, it is opened.
fn stays_at_a_gap(
    cursor: &mut RowCursor<Bytewise>,
    alloc: Global,
    source: &mut Source,
) -> Result<bool, DbError> {
    let was_there = leads_to(cursor, alloc, source, Turn::Seek(b"d", 5, PUT), D)?;
    let is_gone = source.store.remove("000005.ldb").is_ok();
    let refused = step(cursor, alloc, source, Turn::Next);
    let stays = matches!(refused, Err(DbError::Corrupt(_, _))) && at_hand(cursor, source) == D;
    mend(alloc, &mut source.store)?;
    let goes_on = leads_to(cursor, alloc, source, Turn::Next, F)?;
    Ok(was_there && is_gone && stays && goes_on)
}

fn keeps_its_place(alloc: Global) -> Result<bool, DbError> {
    let mut source = tables_of(alloc)?;
    let mut cursor = row_of(alloc, 0, 3)?;
    stays_at_a_gap(&mut cursor, alloc, &mut source)
}

#[test]
fn a_missing_table_leaves_the_place(rt: HostRuntime) {
    assert_eq!(rt; keeps_its_place(rt.alloc()), Ok(true));
}
