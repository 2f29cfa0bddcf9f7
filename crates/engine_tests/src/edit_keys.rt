//! A MANIFEST with a key that is no internal key is refused, and its directory stays as it is.

use crate::checks::{ONE_ENTRY, directory};
use crate::readings::put;
use crate::sessions::{DEFAULTS, Line, after_script, checked, names_of};
use coding::{Damage, DbError, FileKind};
use std::alloc::{AllocGlobal, Global};
use std::process::Abort;
use std::test::*;
use store::{MemStore, Store};

// Log 3, next file 6, last sequence number 1; then a compact pointer, or the table 5 of level 6.
// Its key, the smallest or the largest has no byte, seven, or eight with an unknown kind.
#[rattlefmt::skip]
const EDITS: &[&[u8]] = &[
    b"\x02\x03\x03\x06\x04\x01\x05\x06\x00",
    b"\x02\x03\x03\x06\x04\x01\x05\x06\x07\x01\x01\0\0\0\0\0",
    b"\x02\x03\x03\x06\x04\x01\x05\x06\x08\x02\x01\0\0\0\0\0\0",
    b"\x02\x03\x03\x06\x04\x01\x07\x06\x05\xb0\x01\x00\x09a\x01\x01\0\0\0\0\0\0",
    b"\x02\x03\x03\x06\x04\x01\x07\x06\x05\xb0\x01\x07\x01\x01\0\0\0\0\0\x09a\x01\x01\0\0\0\0\0\0",
    b"\x02\x03\x03\x06\x04\x01\x07\x06\x05\xb0\x01\x08\x02\x01\0\0\0\0\0\0\x09a\x01\x01\0\0\0\0\0\0",
    b"\x02\x03\x03\x06\x04\x01\x07\x06\x05\xb0\x01\x09a\x01\x01\0\0\0\0\0\0\x00",
    b"\x02\x03\x03\x06\x04\x01\x07\x06\x05\xb0\x01\x09a\x01\x01\0\0\0\0\0\0\x07\x01\x01\0\0\0\0\0",
    b"\x02\x03\x03\x06\x04\x01\x07\x06\x05\xb0\x01\x09a\x01\x01\0\0\0\0\0\0\x08\x02\x01\0\0\0\0\0\0",
];

// A pointer of eight bytes that is an internal key, of no byte of a user's.
const TAKEN: &[u8] = b"\x02\x03\x03\x06\x04\x01\x05\x06\x08\x01\x01\0\0\0\0\0\0";

const REFUSAL: DbError = DbError::Corrupt(FileKind::Manifest, Damage::Kind);

const REFUSED: &[Line<'static>] = &[
    ("open", "refused Corrupt(Manifest, Kind)"),
    ("open any", "refused Corrupt(Manifest, Kind)"),
];

const NAMES: [&str; 4] = ["CURRENT", "MANIFEST-000002", "000003.log", "000005.ldb"];

// The directory of this edit, with a table of one entry, the number 5.
fn of_edit(alloc: Global, edit: &[u8]) -> Result<MemStore, DbError> {
    let mut store = directory(alloc, edit, &[])?;
    put(&mut store, "000005.ldb", &ONE_ENTRY)?;
    Ok(store)
}

fn has_same(alloc: Global, left: &mut MemStore, made: &mut MemStore, name: &str) -> bool {
    match (
        left.read_at(alloc, name, 0, 1_000),
        made.read_at(alloc, name, 0, 1_000),
    ) {
        (Ok(bytes), Ok(others)) => bytes.as_slice() == others.as_slice(),
        (Ok(_), Err(_)) => false,
        (Err(_), Ok(_)) => false,
        (Err(_), Err(_)) => false,
    }
}

// Whether a check refuses what is left, and its files are those that were made, and the lock's.
fn is_as_made(alloc: Global, left: &mut MemStore, edit: &[u8]) -> bool {
    let Ok(mut made) = of_edit(alloc, edit) else {
        return false;
    };
    for name in NAMES {
        if !has_same(alloc, left, &mut made, name) {
            return false;
        }
    }
    matches!(names_of(alloc, left), Ok(names) if names.as_str() == "000003.log;000005.ldb;CURRENT;LOCK;MANIFEST-000002;")
        && matches!(checked(alloc, left), Err(error) if error == REFUSAL)
}

fn assert_refused(rt: &(impl Abort + AllocGlobal), edit: &[u8]) -> Result<(), Fail> {
    let store = of_edit(rt.alloc(), edit)?;
    let mut left = after_script(rt, store, DEFAULTS, REFUSED)?;
    assert!(rt; is_as_made(rt.alloc(), &mut left, edit), "{edit:?}");
    Ok(())
}

#[test]
fn keys_that_are_no_internal_keys_are_refused(rt: HostRuntime) -> Result<(), Fail> {
    for edit in EDITS {
        assert_refused(&rt, edit)?;
    }
    Ok(())
}

#[test]
fn a_key_of_eight_bytes_is_taken(rt: HostRuntime) -> Result<(), Fail> {
    let store = directory(rt.alloc(), TAKEN, &[])?;
    let _left = after_script(&rt, store, DEFAULTS, &[("open", "ok"), ("get 61", "none")])?;
    Ok(())
}
