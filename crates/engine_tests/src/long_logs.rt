//! Logs of more than the 1,048,576 bytes that are read of one at once. Files that are zeros from
//! some place on, of which no more is read than shows it.

use crate::readings::{log_of, put};
use crate::watching::WatchedStore;
use coding::{Damage, DbError, FileKind, put_varint64};
use ikey::Bytewise;
use logfile::LogWriter;
use recover::{list_directory, read_directory};
use std::alloc::{AllocError, Global};
use std::test::*;
use store::MemStore;

// A put of so many bytes at sequence number 1, in a log. Zeros after `CURRENT`, the MANIFEST and
// that log. Whether the put is what is read of the directory, or the error, and how many bytes are
// read at most.
struct Case {
    value: usize,
    zeros: (usize, usize, usize),
    wanted: Result<bool, DbError>,
    most: u64,
}

const LOG: DbError = DbError::Corrupt(FileKind::Log, Damage::Checksum);

const MANIFEST: DbError = DbError::Corrupt(FileKind::Manifest, Damage::Checksum);

const CURRENT: DbError = DbError::Corrupt(FileKind::Current, Damage::Length);

// A log of exactly one piece, one of a byte more in its data, one of two pieces and a longer one.
// Zeros after a log that ends in its second piece, and after one of a single block, and after the
// other files.
#[rattlefmt::skip]
const CASES: &[Case] = &[
    Case { value: 1_048_334, zeros: (0, 0, 0), wanted: Ok(true), most: 1_048_700 },
    Case { value: 1_048_335, zeros: (0, 0, 0), wanted: Ok(true), most: 1_048_700 },
    Case { value: 2_096_686, zeros: (0, 0, 0), wanted: Ok(true), most: 2_097_300 },
    Case { value: 2_500_000, zeros: (0, 0, 0), wanted: Ok(true), most: 2_500_700 },
    Case { value: 1_100_000, zeros: (0, 0, 4_000_000), wanted: Err(LOG), most: 3_145_900 },
    Case { value: 1_000, zeros: (0, 0, 4_000_000), wanted: Err(LOG), most: 1_048_700 },
    Case { value: 1_000, zeros: (0, 4_000_000, 0), wanted: Err(MANIFEST), most: 1_048_700 },
    Case { value: 1_000, zeros: (4_000_000, 0, 0), wanted: Err(CURRENT), most: 0 },
];

// Bytes by which each place tells its thousand.
fn value_of(alloc: Global, length: usize) -> Result<Vec<u8>, AllocError> {
    let mut value = Vec::new(alloc);
    for place in 0..length {
        value.push((place / 1000 % 256) as u8)?;
    }
    Ok(value)
}

// The log of the put of that value at the key 61.
fn log_of_put(alloc: Global, value: &[u8]) -> Result<Vec<u8>, DbError> {
    let mut batch = Vec::from_slice(alloc, b"\x01\0\0\0\0\0\0\0\x01\0\0\0\x01\x01a")?;
    put_varint64(&mut batch, value.len() as u64)?;
    batch.extend_from_slice(value)?;
    LogWriter::encode(alloc, 0, &batch)
}

// A file of these bytes, and so many zeros.
fn put_zeros(
    store: &mut MemStore,
    name: &str,
    bytes: Vec<u8>,
    zeros: usize,
) -> Result<(), DbError> {
    let mut bytes = bytes;
    bytes.resize(bytes.len().saturating_add(zeros), 0)?;
    put(store, name, &bytes)
}

// Bytewise, log number 2, next file number 3, last sequence number 0.
const EDIT: &[u8] = b"\x01\x1aleveldb.BytewiseComparator\x02\x02\x03\x03\x04\x00";

fn directory(alloc: Global, value: &[u8], case: &Case) -> Result<MemStore, DbError> {
    let (current, manifest, log) = case.zeros;
    let mut store = MemStore::new(alloc);
    let named = Vec::from_slice(alloc, b"MANIFEST-000001\n")?;
    put_zeros(&mut store, "CURRENT", named, current)?;
    let edits = log_of(alloc, &[EDIT])?;
    put_zeros(&mut store, "MANIFEST-000001", edits, manifest)?;
    put_zeros(&mut store, "000002.log", log_of_put(alloc, value)?, log)?;
    Ok(store)
}

// Whether the put of this value is all that is read.
fn is_read(alloc: Global, store: &mut WatchedStore, value: &[u8]) -> Result<bool, DbError> {
    let listing = list_directory(alloc, store)?;
    let found = read_directory::<Bytewise, WatchedStore>(alloc, store, &listing)?;
    let [entry] = found.entries.as_slice() else {
        return Ok(false);
    };
    Ok(matches!(&entry.value, Some(it) if it.as_slice() == value))
}

fn is_so(alloc: Global, case: &Case) -> Result<bool, DbError> {
    let value = value_of(alloc, case.value)?;
    let mut store = WatchedStore::new(directory(alloc, &value, case)?);
    let found = is_read(alloc, &mut store, &value);
    Ok(found == case.wanted && store.bytes_read() <= case.most)
}

// The first case of which something else is read.
fn first_wrong(alloc: Global) -> Result<Option<usize>, DbError> {
    for (index, case) in CASES.iter().enumerate() {
        if !is_so(alloc, case)? {
            return Ok(Some(index));
        }
    }
    Ok(None)
}

#[test]
fn logs_are_read_by_pieces(rt: HostRuntime) {
    assert_eq!(rt; first_wrong(rt.alloc()), Ok(None));
}
