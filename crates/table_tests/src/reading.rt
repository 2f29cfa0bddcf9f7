// Tables that others have written.
use crate::entries::{Row, Seek, entries_of, reads_as, write};
use crate::files::{NAME, NO_FILTER, OF_TYPE_ONE, ONE_ENTRY, SEPARATED, changed, store_with};
use coding::DbError;
use ikey::{Bytewise, Kind};
use std::alloc::Global;
use std::test::*;
use store::{MemStore, Store, StoreError};
use table::{Handle, Table};

const HIGHEST: u64 = (1 << 56) - 1;

// A table's file, its entries, and seeks.
type Case = (&'static [u8], &'static [Row], &'static [Seek]);

const TABLES: [Case; 3] = [
    (
        &ONE_ENTRY,
        &[(b"a", 1, Kind::Put, b"1")],
        &[(b"a", 9, 0), (b"a", 0, 1)],
    ),
    (
        &SEPARATED,
        &[(b"a", 1, Kind::Put, b"1"), (b"c", 2, Kind::Put, b"3")],
        &[(b"b", HIGHEST, 1), (b"", 0, 0), (b"d", 0, 2)],
    ),
    (
        &NO_FILTER,
        &[(b"a", 1, Kind::Put, b"1"), (b"b", 2, Kind::Put, b"2")],
        &[(b"b", HIGHEST, 1), (b"", 0, 0), (b"d", 0, 2)],
    ),
];

// A store with a file of these bytes. There is memory.
fn stored(answer: Result<MemStore, StoreError>) -> Result<MemStore, DbError> {
    match answer {
        Ok(store) => Ok(store),
        Err(_) => Err(DbError::OutOfMemory),
    }
}

// Whether the file is the table of the entries.
fn is_read(alloc: Global, case: &Case) -> Result<bool, DbError> {
    let entries = entries_of(alloc, case.1)?;
    let mut store = stored(store_with(alloc, case.0))?;
    reads_as::<Bytewise, MemStore>(alloc, &mut store, &entries, case.2)
}

#[test]
fn tables_are_read(rt: HostRuntime) {
    for case in &TABLES {
        assert_eq!(rt; is_read(rt.alloc(), case), Ok(true));
    }
}

// ---- blocks and filters

// The first data block, which has 21 bytes in each of these tables, and one that isn't there.
const FIRST: Handle = Handle {
    offset: 0,
    size: 21,
};

fn opened(alloc: Global, store: &mut MemStore) -> Result<Table<Bytewise>, DbError> {
    Table::open(alloc, store, NAME)
}

// Whether the index has the one data block, which is read by its index, and none by another.
fn has_the_block(alloc: Global) -> Result<bool, DbError> {
    let mut store = stored(store_with(alloc, &ONE_ENTRY))?;
    let table = opened(alloc, &mut store)?;
    let is_indexed = table.index(alloc)?.as_slice() == [FIRST].as_slice();
    let first = table
        .block_at(alloc, &mut store, 0, Vec::new(alloc))
        .is_ok();
    let other = table.block_at(alloc, &mut store, 1, Vec::new(alloc));
    Ok(is_indexed && first && matches!(other, Err(DbError::Corrupt(_, _))))
}

#[test]
fn blocks_are_read_where_the_index_says(rt: HostRuntime) {
    assert_eq!(rt; has_the_block(rt.alloc()), Ok(true));
}

// A table's file, a key, and whether its filter says that the key may be in the first block.
const FILTERS: [(&[u8], &[u8], bool); 3] = [
    (&ONE_ENTRY, b"a", true),
    (&ONE_ENTRY, b"b", false),
    (&NO_FILTER, b"z", true),
];

fn admits(alloc: Global, bytes: &[u8], key: &[u8]) -> Result<bool, DbError> {
    let mut store = stored(store_with(alloc, bytes))?;
    Ok(opened(alloc, &mut store)?.admits(FIRST, key))
}

#[test]
fn filters_deny_keys_that_are_not_there(rt: HostRuntime) {
    for (bytes, key, is_admitted) in FILTERS {
        assert_eq!(rt; admits(rt.alloc(), bytes, key), Ok(is_admitted), "{key:?}");
    }
}

// ---- damage

// Whether the table of one entry, with these bytes in the place of those between two offsets, isn't
// opened, as damaged.
fn is_corrupt(alloc: Global, from: usize, to: usize, bytes: &[u8]) -> bool {
    match changed(alloc, from, to, bytes) {
        Ok(mut store) => matches!(opened(alloc, &mut store), Err(DbError::Corrupt(_, _))),
        Err(_) => false,
    }
}

#[test]
fn cut_tables_are_corrupt(rt: HostRuntime) {
    for end in 0..176 {
        assert!(rt; is_corrupt(rt.alloc(), end, 176, b""), "{end}");
    }
}

fn is_missing(alloc: Global) -> bool {
    let mut store = MemStore::new(alloc);
    matches!(opened(alloc, &mut store), Err(DbError::Corrupt(_, _)))
}

#[test]
fn missing_tables_are_corrupt(rt: HostRuntime) {
    assert!(rt; is_missing(rt.alloc()));
}

// What stands from one offset to another, and whether it damages the table. First the handle of the
// metaindex replaces that of the index, so that blocks overlap. Then there is a byte among the
// zeros after both. Then the index, with its place and its length, has a handle that is that of the
// block, is cut, or has a byte after it.
#[rattlefmt::skip]
const FRAMES: [(usize, usize, &[u8], bool); 6] = [
    (130, 132, b"\x65\x16", false),
    (130, 132, b"\x31\x2f", true),
    (140, 141, b"\x01", true),
    (101, 132, b"\0\x09\x02a\x01\x01\0\0\0\0\0\0\0\x15\0\0\0\0\x01\0\0\0\0\x36\x49\x25\xbf\x31\x2f\x65\x16", false),
    (101, 132, b"\0\x09\x02a\x01\x01\0\0\0\0\0\0\xac\x02\0\0\0\0\x01\0\0\0\0\x50\xea\x8f\x9b\x31\x2f\x65\x16", true),
    (101, 132, b"\0\x09\x03a\x01\x01\0\0\0\0\0\0\0\x15\x03\0\0\0\0\x01\0\0\0\0\x54\x2f\xa3\x0d\x31\x2f\x65\x17", true),
];

#[test]
fn damaged_frames_are_corrupt(rt: HostRuntime) {
    for (from, to, bytes, is_damaged) in FRAMES {
        assert!(rt;
            is_corrupt(rt.alloc(), from, to, bytes) == is_damaged,
            "{bytes:?}"
        );
    }
}

// Whether the table answers the one entry that was written, or is refused.
fn is_right_or_refused(alloc: Global, store: &mut MemStore) -> bool {
    let Ok(table) = opened(alloc, store) else {
        return true;
    };
    match table.entries(alloc, store) {
        Ok(entries) => matches!(
            entries.as_slice(),
            [entry] if entry.key.as_slice() == &ONE_ENTRY[3..12] && entry.value.as_slice() == b"1".as_slice()
        ),
        Err(_) => true,
    }
}

// The same of the table of one entry with one bit changed.
fn gives_no_wrong_entry(alloc: Global, place: usize, byte: u8) -> bool {
    match changed(alloc, place, place.saturating_add(1), &[byte ^ 1]) {
        Ok(mut store) => is_right_or_refused(alloc, &mut store),
        Err(_) => false,
    }
}

#[test]
fn changed_bytes_give_no_wrong_entry(rt: HostRuntime) {
    for (place, byte) in ONE_ENTRY.iter().enumerate() {
        assert!(rt; gives_no_wrong_entry(rt.alloc(), place, *byte), "{place}");
    }
}

// Whether the data block of the table with these bytes after it is refused: as not supported, or as
// damaged.
fn is_refused(alloc: Global, behind: &[u8; 5], is_unsupported: bool) -> Result<bool, DbError> {
    let mut store = stored(changed(alloc, 21, 26, behind))?;
    let table = opened(alloc, &mut store)?;
    Ok(
        match table.block_at(alloc, &mut store, 0, Vec::new(alloc)) {
            Ok(_) => false,
            Err(DbError::Unsupported(_)) => is_unsupported,
            Err(DbError::Corrupt(_, _)) => !is_unsupported,
            Err(_) => false,
        },
    )
}

#[test]
fn checksums_are_compared_before_types(rt: HostRuntime) {
    for (behind, is_unsupported) in OF_TYPE_ONE {
        let is = is_refused(rt.alloc(), &behind, is_unsupported);
        assert_eq!(rt; is, Ok(true), "{behind:?}");
    }
}

// ---- handles

// Two blocks of one entry each, the first of which has 295 bytes.
const TWO: [Row; 2] = [(b"a", 1, Kind::Put, &[7; 274]), (b"b", 2, Kind::Put, b"2")];

const BLOCKS: [Handle; 2] = [
    Handle {
        offset: 0,
        size: 295,
    },
    Handle {
        offset: 300,
        size: 21,
    },
];

// Whether the index of a table of those blocks says of the second one that it is 21 bytes at 300.
fn has_the_second_handle(alloc: Global) -> Result<bool, DbError> {
    let entries = entries_of(alloc, &TWO)?;
    let mut store = MemStore::new(alloc);
    write::<Bytewise, MemStore>(alloc, &mut store, NAME, 1, &entries)?;
    let table = opened(alloc, &mut store)?;
    let is_read = table.index(alloc)?.as_slice() == BLOCKS.as_slice();
    let written = store.read_at(alloc, NAME, 429, 3);
    Ok(is_read && matches!(written, Ok(bytes) if bytes.as_slice() == b"\xac\x02\x15".as_slice()))
}

#[test]
fn handles_are_two_numbers(rt: HostRuntime) {
    assert_eq!(rt; has_the_second_handle(rt.alloc()), Ok(true));
}
