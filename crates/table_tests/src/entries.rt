// Entries as the tests write and seek them, and whether a table has them.
use crate::files::NAME;
use coding::{Bytes, DbError, SEQUENCE_END};
use ikey::{KeyOrder, Kind, pack};
use std::alloc::Global;
use store::Store;
use table::{KeyValue, Table, TableBuilder};

/// An entry: a user key, a sequence number, a kind and a value.
pub type Row = (&'static [u8], u64, Kind, &'static [u8]);

/// Holds a user key and a sequence number, and how many entries come before the newest of the key
/// up to the sequence number.
pub type Seek = (&'static [u8], u64, usize);

/// Makes an internal key. A sequence number past the largest is the test's fault, and no line.
pub fn key(alloc: Global, user: &[u8], sequence: u64, kind: Kind) -> Result<Bytes, DbError> {
    if sequence >= SEQUENCE_END {
        return Err(DbError::BadLine);
    }
    Ok(Bytes::from_vec(pack(alloc, user, sequence, kind)?))
}

/// Makes an entry with its internal key.
pub fn entry(
    alloc: Global,
    user: &[u8],
    sequence: u64,
    kind: Kind,
    value: &[u8],
) -> Result<KeyValue, DbError> {
    Ok(KeyValue {
        key: key(alloc, user, sequence, kind)?,
        value: Bytes::copied_from(alloc, value)?,
    })
}

pub fn entries_of(alloc: Global, rows: &[Row]) -> Result<Vec<KeyValue>, DbError> {
    let mut entries = Vec::new(alloc);
    for (user, sequence, kind, value) in rows {
        entries.push(entry(alloc, user, *sequence, *kind, value)?)?;
    }
    Ok(entries)
}

/// Adds an entry whose key is above the last one.
pub fn add<K: KeyOrder, S: Store>(
    builder: &mut TableBuilder<K>,
    store: &mut S,
    entry: &KeyValue,
) -> Result<(), DbError> {
    if !builder.accepts(entry.key.as_slice()) {
        return Err(DbError::BadLine);
    }
    builder.add(store, entry.key.as_slice(), entry.value.as_slice())
}

/// Writes the table of entries into the file of this name, and answers its length. There is at
/// least one entry.
pub fn write<K: KeyOrder, S: Store>(
    alloc: Global,
    store: &mut S,
    name: &str,
    block_bytes: usize,
    entries: &[KeyValue],
) -> Result<u64, DbError> {
    let mut builder = TableBuilder::<K>::new(alloc, name, block_bytes)?;
    for entry in entries {
        add::<K, S>(&mut builder, store, entry)?;
    }
    if builder.is_empty() {
        return Err(DbError::BadLine);
    }
    builder.finish(alloc, store)
}

fn is_same(a: &KeyValue, b: &KeyValue) -> bool {
    a.key.as_slice() == b.key.as_slice() && a.value.as_slice() == b.value.as_slice()
}

fn are_same(a: &[KeyValue], b: &[KeyValue]) -> bool {
    for (a, b) in a.iter().zip(b) {
        if !is_same(a, b) {
            return false;
        }
    }
    a.len() == b.len()
}

/// Returns whether these are the entries.
pub fn is_listed(alloc: Global, found: &[KeyValue], rows: &[Row]) -> Result<bool, DbError> {
    let wanted = entries_of(alloc, rows)?;
    Ok(are_same(found, &wanted))
}

fn is_found(found: &Option<KeyValue>, wanted: Option<&KeyValue>) -> bool {
    match (found, wanted) {
        (None, None) => true,
        (Some(found), Some(wanted)) => is_same(found, wanted),
        _ => false,
    }
}

/// Returns whether a seek of the newest version of a key up to a sequence number finds the entry of
/// this place.
pub fn finds<K: KeyOrder, S: Store>(
    alloc: Global,
    table: &Table<K>,
    store: &mut S,
    entries: &[KeyValue],
    seek: (&[u8], u64, usize),
) -> Result<bool, DbError> {
    let (user, sequence, place) = seek;
    let target = key(alloc, user, sequence, Kind::Put)?;
    let found = table.seek(alloc, store, target.as_slice())?;
    Ok(is_found(&found, entries.get(place)))
}

fn finds_all<K: KeyOrder, S: Store>(
    alloc: Global,
    table: &Table<K>,
    store: &mut S,
    entries: &[KeyValue],
    seeks: &[Seek],
) -> Result<bool, DbError> {
    for seek in seeks {
        if !finds::<K, S>(alloc, table, store, entries, *seek)? {
            return Ok(false);
        }
    }
    Ok(true)
}

/// Returns whether the table has these entries, as they are listed and as they are checked.
pub fn lists<K: KeyOrder, S: Store>(
    alloc: Global,
    table: &Table<K>,
    store: &mut S,
    entries: &[KeyValue],
) -> Result<bool, DbError> {
    Ok(
        are_same(&table.check_entries(alloc, store)?, entries)
            && are_same(&table.entries(alloc, store)?, entries),
    )
}

/// Returns whether the table in the store has these entries, and each seek finds its own.
pub fn reads_as<K: KeyOrder, S: Store>(
    alloc: Global,
    store: &mut S,
    entries: &[KeyValue],
    seeks: &[Seek],
) -> Result<bool, DbError> {
    let table = Table::<K>::open(alloc, store, NAME)?;
    Ok(
        lists::<K, S>(alloc, &table, store, entries)?
            && finds_all::<K, S>(alloc, &table, store, entries, seeks)?,
    )
}
