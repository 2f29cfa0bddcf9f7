//! Gets through the tables of a version.

use crate::layouts::{TableRow, version_of};
use crate::written::{File, cached, is_value, stored};
use coding::DbError;
use ikey::{Bytewise, Kind};
use std::alloc::Global;
use std::test::*;
use store::MemStore;
use version_get::value_in_tables;
use versions::Version;

const PUT: Kind = Kind::Put;

// Two tables of level 0, of which the newer one comes after the older, and one of each of two
// deeper levels.
#[rattlefmt::skip]
const FILES: [File; 4] = [
    ("000005.ldb", &[(b"a", 20, PUT, b"\x01"), (b"c", 21, Kind::Delete, b"\0"), (b"cc", 22, PUT, b"\x09")]),
    ("000007.ldb", &[(b"a", 30, PUT, b"\x02"), (b"d", 31, PUT, b"\x03")]),
    ("000004.ldb", &[(b"a", 2, PUT, b"\x04"), (b"c", 3, PUT, b"\x05"), (b"e", 4, PUT, b"\x06")]),
    ("000003.ldb", &[(b"e", 1, PUT, b"\x07"), (b"f", 2, PUT, b"\x08")]),
];

const PLACES: [TableRow; 4] = [
    TableRow(0, 5, 1, b"a", 20, b"cc", 22),
    TableRow(0, 7, 1, b"a", 30, b"d", 31),
    TableRow(1, 4, 1, b"a", 2, b"e", 4),
    TableRow(2, 3, 1, b"e", 1, b"f", 2),
];

// A user key and a sequence number, and what the newest entry put, or that it is a delete.
#[rattlefmt::skip]
const GETS: [(&[u8], u32, Option<Option<&[u8]>>); 13] = [
    (b"a", 40, Some(Some(b"\x02"))), (b"a", 29, Some(Some(b"\x01"))), (b"a", 19, Some(Some(b"\x04"))), (b"a", 1, None),
    (b"c", 40, Some(None)), (b"c", 20, Some(Some(b"\x05"))), (b"d", 40, Some(Some(b"\x03"))), (b"d", 30, None),
    (b"e", 40, Some(Some(b"\x06"))), (b"e", 3, Some(Some(b"\x07"))), (b"f", 40, Some(Some(b"\x08"))), (b"b", 40, None), (b"g", 40, None),
];

// Whether each get over the store finds what is wanted.
fn finds_each(
    alloc: Global,
    store: MemStore,
    version: &Version<Bytewise>,
) -> Result<bool, DbError> {
    let mut source = cached(alloc, store, 2, 2)?;
    for (key, sequence, wanted) in GETS {
        let found = value_in_tables(alloc, &mut source, version, key, u64::from(sequence))?;
        if !is_value(&found, wanted) {
            return Ok(false);
        }
    }
    Ok(true)
}

fn finds_all(alloc: Global) -> Result<bool, DbError> {
    let version = version_of(alloc, &PLACES, None)?;
    finds_each(alloc, stored(alloc, &FILES, 4096)?, &version)
}

#[test]
fn the_newest_entry_is_found(rt: HostRuntime) {
    assert_eq!(rt; finds_all(rt.alloc()), Ok(true));
}

// Whether a get is refused where the files are missing.
fn misses_files(alloc: Global) -> Result<bool, DbError> {
    let version = version_of(alloc, &PLACES, None)?;
    let mut source = cached(alloc, MemStore::new(alloc), 2, 2)?;
    let refused = value_in_tables(alloc, &mut source, &version, b"a", 40);
    Ok(matches!(refused, Err(DbError::Corrupt(_, _))))
}

#[test]
fn a_missing_file_is_corrupt(rt: HostRuntime) {
    assert_eq!(rt; misses_files(rt.alloc()), Ok(true));
}
