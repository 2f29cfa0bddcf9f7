//! How often a check reads a table, and by which name it tells of one.

use crate::checks::{ONE_ENTRY, directory};
use crate::readings::put;
use crate::watching::WatchedStore;
use coding::DbError;
use ikey::Bytewise;
use recover::{Report, check};
use std::alloc::Global;
use std::test::*;
use store::{MemStore, ShortName, Store, Trouble, Why};

// The table of one entry, with sequence number 2.
#[rattlefmt::skip]
const NEWER: [u8; 176] = [
    0x00, 0x09, 0x01, 0x61, 0x01, 0x02, 0x00, 0x00, 0x00, 0x00, 0x00, 0x00, 0x31, 0x00, 0x00, 0x00,
    0x00, 0x01, 0x00, 0x00, 0x00, 0x00, 0xC8, 0x3E, 0x38, 0xF4, 0x08, 0x10, 0x20, 0x40, 0x80, 0x00,
    0x01, 0x00, 0x06, 0x00, 0x00, 0x00, 0x00, 0x09, 0x00, 0x00, 0x00, 0x0B, 0x00, 0x81, 0xA4, 0xA9,
    0xE8, 0x00, 0x22, 0x02, 0x66, 0x69, 0x6C, 0x74, 0x65, 0x72, 0x2E, 0x6C, 0x65, 0x76, 0x65, 0x6C,
    0x64, 0x62, 0x2E, 0x42, 0x75, 0x69, 0x6C, 0x74, 0x69, 0x6E, 0x42, 0x6C, 0x6F, 0x6F, 0x6D, 0x46,
    0x69, 0x6C, 0x74, 0x65, 0x72, 0x32, 0x1A, 0x12, 0x00, 0x00, 0x00, 0x00, 0x01, 0x00, 0x00, 0x00,
    0x00, 0x2B, 0x90, 0xFF, 0xD7, 0x00, 0x09, 0x02, 0x61, 0x01, 0x02, 0x00, 0x00, 0x00, 0x00, 0x00,
    0x00, 0x00, 0x15, 0x00, 0x00, 0x00, 0x00, 0x01, 0x00, 0x00, 0x00, 0x00, 0x00, 0x68, 0xDB, 0xB2,
    0x31, 0x2F, 0x65, 0x16, 0x00, 0x00, 0x00, 0x00, 0x00, 0x00, 0x00, 0x00, 0x00, 0x00, 0x00, 0x00,
    0x00, 0x00, 0x00, 0x00, 0x00, 0x00, 0x00, 0x00, 0x00, 0x00, 0x00, 0x00, 0x00, 0x00, 0x00, 0x00,
    0x00, 0x00, 0x00, 0x00, 0x00, 0x00, 0x00, 0x00, 0x57, 0xFB, 0x80, 0x8B, 0x24, 0x75, 0x47, 0xDB,
];

// Log number 3, next file number 8, last sequence number 2; in level 0 the tables 5 and 7, both of
// the key 61.
#[rattlefmt::skip]
const EDIT: &[u8] = b"\x02\x03\x03\x08\x04\x02\x07\x00\x05\xb0\x01\x09a\x01\x01\0\0\0\0\0\0\x09a\x01\x01\0\0\0\0\0\0\x07\x00\x07\xb0\x01\x09a\x01\x02\0\0\0\0\0\0\x09a\x01\x02\0\0\0\0\0\0";

// The same, but that the newer entry is in the table 5, which has to be the older one.
#[rattlefmt::skip]
const TURNED: &[u8] = b"\x02\x03\x03\x08\x04\x02\x07\x00\x05\xb0\x01\x09a\x01\x02\0\0\0\0\0\0\x09a\x01\x02\0\0\0\0\0\0\x07\x00\x07\xb0\x01\x09a\x01\x01\0\0\0\0\0\0\x09a\x01\x01\0\0\0\0\0\0";

// Of each the footer, the metaindex, the filter, the index and the one block.
const PARTS: u64 = 5;

// Whether the directory is good, and how many reads of tables a check takes to say so.
fn checked(alloc: Global) -> Result<(bool, u64), DbError> {
    let mut inner = directory(alloc, EDIT, &[])?;
    put(&mut inner, "000005.ldb", &ONE_ENTRY)?;
    put(&mut inner, "000007.ldb", &NEWER)?;
    let mut store = WatchedStore::new(inner);
    let report = check::<Bytewise, WatchedStore>(alloc, &mut store)?;
    Ok((matches!(report, Report::Good(_)), store.table_reads()))
}

#[test]
fn each_table_is_read_once(rt: HostRuntime) {
    assert_eq!(rt; checked(rt.alloc()), Ok((true, 2 * PARTS)));
}

// What is noted where the table of the first name has to be older than that of the second, and
// isn't.
fn noted(alloc: Global, older: &str, newer: &str) -> Result<Trouble, DbError> {
    let mut store = directory(alloc, TURNED, &[])?;
    put(&mut store, older, &NEWER)?;
    put(&mut store, newer, &ONE_ENTRY)?;
    match check::<Bytewise, MemStore>(alloc, &mut store) {
        Ok(_) => Ok(Trouble::none()),
        Err(_) => Ok(store.noted()),
    }
}

fn is_named(alloc: Global, older: &str, newer: &str) -> bool {
    match noted(alloc, older, newer) {
        Ok(noted) => noted.why == Why::Age && noted.name == ShortName::of(older),
        Err(_) => false,
    }
}

#[test]
fn a_table_is_named_as_its_file_is(rt: HostRuntime) {
    assert!(rt; is_named(rt.alloc(), "000005.sst", "000007.ldb"));
    assert!(rt; is_named(rt.alloc(), "000005.ldb", "000007.sst"));
}
