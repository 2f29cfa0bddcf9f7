//! What is read of one file of a directory: of the table of one entry, and of a log of deletes.

use crate::checks::{ONE_ENTRY, directory};
use crate::readings::{log_of, put};
use coding::{Damage, DbError, FileKind};
use ikey::{Bytewise, Entry};
use recover::{Origin, file_entries};
use std::alloc::Global;
use std::test::*;
use store::MemStore;

// Log number 3, next file number 6, last sequence number 1; the table 5 of level 6.
const EDIT: &[u8] =
    b"\x02\x03\x03\x06\x04\x01\x07\x06\x05\xb0\x01\x09a\x01\x01\0\0\0\0\0\0\x09a\x01\x01\0\0\0\0\0\0";

// Deletes of the key 61, at the sequence numbers 2 and 3.
const D2: &[u8] = b"\x02\0\0\0\0\0\0\0\x01\0\0\0\0\x01a";

const D3: &[u8] = b"\x03\0\0\0\0\0\0\0\x01\0\0\0\0\x01a";

// A file, how many bytes of the table are there under which name, the records of the log 3, and the
// sequence numbers and values that are read.
struct Case {
    origin: Origin,
    table: (&'static str, usize),
    log: &'static [&'static [u8]],
    wanted: Result<&'static [(u64, Option<&'static [u8]>)], DbError>,
}

const WHOLE: (&str, usize) = ("000005.ldb", 176);

#[rattlefmt::skip]
const CASES: &[Case] = &[
    Case { origin: Origin::Table(6, 5), table: WHOLE, log: &[D2, D3], wanted: Ok(&[(1, Some(b"1"))]) },
    Case { origin: Origin::Table(6, 5), table: ("000005.sst", 176), log: &[], wanted: Ok(&[(1, Some(b"1"))]) },
    Case { origin: Origin::Log(3), table: WHOLE, log: &[D2, D3], wanted: Ok(&[(2, None), (3, None)]) },
    Case { origin: Origin::Log(3), table: WHOLE, log: &[], wanted: Ok(&[]) },
    Case { origin: Origin::Log(3), table: ("000005.ldb", 0), log: &[D3], wanted: Ok(&[(3, None)]) },
    Case { origin: Origin::Table(6, 5), table: ("000004.ldb", 176), log: &[], wanted: Err(DbError::Corrupt(FileKind::Table, Damage::Missing)) },
    Case { origin: Origin::Table(6, 5), table: ("000005.ldb", 175), log: &[], wanted: Err(DbError::Corrupt(FileKind::Table, Damage::Length)) },
    Case { origin: Origin::Table(5, 5), table: WHOLE, log: &[], wanted: Err(DbError::Corrupt(FileKind::Table, Damage::Missing)) },
    Case { origin: Origin::Table(6, 4), table: ("000004.ldb", 176), log: &[], wanted: Err(DbError::Corrupt(FileKind::Table, Damage::Missing)) },
    Case { origin: Origin::Log(2), table: WHOLE, log: &[D2], wanted: Err(DbError::Corrupt(FileKind::Log, Damage::Missing)) },
    Case { origin: Origin::Log(4), table: WHOLE, log: &[D2], wanted: Err(DbError::Corrupt(FileKind::Log, Damage::Missing)) },
    Case { origin: Origin::Log(3), table: WHOLE, log: &[D3, D2], wanted: Err(DbError::Corrupt(FileKind::Log, Damage::Order)) },
    Case { origin: Origin::Log(3), table: WHOLE, log: &[b"no batch"], wanted: Err(DbError::Corrupt(FileKind::Log, Damage::Length)) },
];

// The log 2 isn't in use.
fn read(alloc: Global, case: &Case) -> Result<Vec<Entry>, DbError> {
    let mut store = directory(alloc, EDIT, case.log)?;
    put(&mut store, "000002.log", &log_of(alloc, &[D2])?)?;
    let mut bytes = ONE_ENTRY.to_vec(alloc)?;
    bytes.truncate(case.table.1);
    put(&mut store, case.table.0, &bytes)?;
    file_entries::<Bytewise, MemStore>(alloc, &mut store, case.origin)
}

fn is(entry: &Entry, wanted: &(u64, Option<&[u8]>)) -> bool {
    if entry.key.as_slice() != b"a".as_slice() {
        return false;
    }
    if entry.sequence != wanted.0 {
        return false;
    }
    match (&entry.value, wanted.1) {
        (Some(value), Some(other)) => value.as_slice() == other,
        (None, None) => true,
        _ => false,
    }
}

/// Returns whether these are entries of the key `a` with these sequence numbers, and these values
/// or none.
pub fn are(entries: &[Entry], wanted: &[(u64, Option<&[u8]>)]) -> bool {
    if entries.len() != wanted.len() {
        return false;
    }
    entries
        .iter()
        .zip(wanted)
        .all(|(entry, one)| is(entry, one))
}

fn holds(alloc: Global, case: &Case) -> bool {
    match (read(alloc, case), &case.wanted) {
        (Ok(entries), Ok(wanted)) => are(&entries, wanted),
        (Err(error), Err(wanted)) => error == *wanted,
        _ => false,
    }
}

#[test]
fn the_entries_of_one_file_are_read_or_refused(rt: HostRuntime) {
    for case in CASES {
        assert!(rt; holds(rt.alloc(), case), "{:?}", case.origin);
    }
}
