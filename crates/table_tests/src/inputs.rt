//! What a compaction reads.

use crate::layouts::{TableRow, version_of};
use crate::walks::{Pair, Turn, first_elsewhere};
use crate::written::{File, cached, counted};
use coding::DbError;
use cursor::Merge;
use db_cursor::{
    SourceCursor, Sources, inputs_read_apart, merge_stays, merge_tables, moves_read_no_memory,
};
use ikey::{Bytewise, Kind};
use memtables::MemoryTables;
use std::alloc::Global;
use std::rc::Rc;
use std::test::*;
use store::FaultStore;
use versions::Version;

const PUT: Kind = Kind::Put;

// The tables of a directory.
const FILES: [File; 4] = [
    ("000004.ldb", &[(b"a", 5, PUT, b"a"), (b"e", 5, PUT, b"e")]),
    ("000005.ldb", &[(b"b", 5, PUT, b"b"), (b"f", 5, PUT, b"f")]),
    ("000006.ldb", &[(b"c", 5, PUT, b"c"), (b"d", 5, PUT, b"d")]),
    ("000007.ldb", &[(b"g", 5, PUT, b"g"), (b"h", 5, PUT, b"h")]),
];

// Where they stand.
const PLACES: [TableRow; 4] = [
    TableRow(0, 4, 1, b"a", 5, b"e", 5),
    TableRow(0, 5, 1, b"b", 5, b"f", 5),
    TableRow(1, 6, 1, b"c", 5, b"d", 5),
    TableRow(1, 7, 1, b"g", 5, b"h", 5),
];

/// Makes a source that reads them, and has no memory.
pub fn source_of(alloc: Global) -> Result<Sources<Bytewise, FaultStore>, DbError> {
    Ok(Sources {
        tables: cached(alloc, counted(alloc, &FILES, 1)?, 4, 1)?,
        memory: MemoryTables::empty(alloc),
    })
}

/// Returns the version that has them.
pub fn version_over(alloc: Global) -> Result<Rc<Version<Bytewise>>, DbError> {
    Ok(Rc::new(alloc, version_of(alloc, &PLACES, None)?)?)
}

// A cursor over all of them.
fn merge_of(alloc: Global) -> Result<Merge<Bytewise, SourceCursor<Bytewise>>, DbError> {
    let version = version_over(alloc)?;
    Ok(merge_tables(alloc, &version)?)
}

// The keys and values of all, one after the other.
const MERGED: [(Turn, Option<Pair>); 9] = [
    (Turn::First, Some((b"a\x01\x05\0\0\0\0\0\0", b"a"))),
    (Turn::Next, Some((b"b\x01\x05\0\0\0\0\0\0", b"b"))),
    (Turn::Next, Some((b"c\x01\x05\0\0\0\0\0\0", b"c"))),
    (Turn::Next, Some((b"d\x01\x05\0\0\0\0\0\0", b"d"))),
    (Turn::Next, Some((b"e\x01\x05\0\0\0\0\0\0", b"e"))),
    (Turn::Next, Some((b"f\x01\x05\0\0\0\0\0\0", b"f"))),
    (Turn::Next, Some((b"g\x01\x05\0\0\0\0\0\0", b"g"))),
    (Turn::Next, Some((b"h\x01\x05\0\0\0\0\0\0", b"h"))),
    (Turn::Next, None),
];

// From nowhere there is no move on.
const NOWHERE: [(Turn, Option<Pair>); 1] = [(Turn::Next, None)];

// Whether the tables are merged, and none was opened before the first move.
fn are_merged(
    merge: &mut Merge<Bytewise, SourceCursor<Bytewise>>,
    alloc: Global,
    source: &mut Sources<Bytewise, FaultStore>,
) -> Result<bool, DbError> {
    let is_nowhere = first_elsewhere(merge, alloc, source, &NOWHERE)?.is_none();
    let is_unread = source.tables.store.calls() == 0;
    let is_merged = first_elsewhere(merge, alloc, source, &MERGED)?.is_none();
    Ok(is_nowhere && is_unread && is_merged)
}

fn merges_all(alloc: Global) -> Result<bool, DbError> {
    let mut source = source_of(alloc)?;
    let mut merge = merge_of(alloc)?;
    are_merged(&mut merge, alloc, &mut source)
}

#[test]
fn tables_of_all_levels_are_merged(rt: HostRuntime) {
    // Laws, for the proof alone.
    merge_stays::<Bytewise>();
    moves_read_no_memory::<Bytewise, FaultStore>();
    inputs_read_apart::<Bytewise, FaultStore>();
    assert_eq!(rt; merges_all(rt.alloc()), Ok(true));
}
