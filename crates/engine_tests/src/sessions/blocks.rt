// What is read of tables block by block, and when.
use super::tables::FILTERED;
use super::*;
use crate::checks::{ONE_ENTRY, directory as with_log};
use crate::readings::log_of;
use crate::watching::WatchedStore;
use coding::put_varint64;
use ikey::{Kind, pack};
use std::test::Fail;
use table::TableBuilder;

const ITERATED: &[Line<'static>] = &[("open", "ok"), ("iter", "iter 1"), ("first 1", "at 61 31")];

const GONE_ON: &[Line<'static>] = &[
    ("next 1", "refused Corrupt(Table, Checksum)"),
    ("next 1", "refused Corrupt(Table, Checksum)"),
    ("prev 1", "end"),
];

// The value in the second block changes once the iterator stands in the first one.
fn assert_reads_late(
    rt: &(impl Abort + AllocGlobal),
    session: &mut Session<WatchedStore, Bytewise>,
) -> Result<(), Fail> {
    assert_script(rt, session, ITERATED)?;
    session.store().change(38, 0x33);
    assert_script(rt, session, GONE_ON)
}

#[test]
fn an_iterator_reads_a_block_once_it_comes_to_it(rt: HostRuntime) -> Result<(), Fail> {
    let store = WatchedStore::new(directory(rt.alloc(), FILTERED)?);
    let mut session = session(rt.alloc(), store, DEFAULTS)?;
    assert_reads_late(&rt, &mut session)
}

// ---- what is kept

// The table of one entry that has the value 32 put at the key 62 with sequence number 2.
#[rattlefmt::skip]
const SECOND_ENTRY: [u8; 176] = [
    0x00, 0x09, 0x01, 0x62, 0x01, 0x02, 0x00, 0x00, 0x00, 0x00, 0x00, 0x00, 0x32, 0x00, 0x00, 0x00,
    0x00, 0x01, 0x00, 0x00, 0x00, 0x00, 0x76, 0x69, 0xBB, 0x84, 0x10, 0x20, 0x40, 0x80, 0x00, 0x01,
    0x02, 0x00, 0x06, 0x00, 0x00, 0x00, 0x00, 0x09, 0x00, 0x00, 0x00, 0x0B, 0x00, 0xF4, 0x07, 0x50,
    0x4E, 0x00, 0x22, 0x02, 0x66, 0x69, 0x6C, 0x74, 0x65, 0x72, 0x2E, 0x6C, 0x65, 0x76, 0x65, 0x6C,
    0x64, 0x62, 0x2E, 0x42, 0x75, 0x69, 0x6C, 0x74, 0x69, 0x6E, 0x42, 0x6C, 0x6F, 0x6F, 0x6D, 0x46,
    0x69, 0x6C, 0x74, 0x65, 0x72, 0x32, 0x1A, 0x12, 0x00, 0x00, 0x00, 0x00, 0x01, 0x00, 0x00, 0x00,
    0x00, 0x2B, 0x90, 0xFF, 0xD7, 0x00, 0x09, 0x02, 0x62, 0x01, 0x02, 0x00, 0x00, 0x00, 0x00, 0x00,
    0x00, 0x00, 0x15, 0x00, 0x00, 0x00, 0x00, 0x01, 0x00, 0x00, 0x00, 0x00, 0x78, 0xB9, 0x59, 0xC4,
    0x31, 0x2F, 0x65, 0x16, 0x00, 0x00, 0x00, 0x00, 0x00, 0x00, 0x00, 0x00, 0x00, 0x00, 0x00, 0x00,
    0x00, 0x00, 0x00, 0x00, 0x00, 0x00, 0x00, 0x00, 0x00, 0x00, 0x00, 0x00, 0x00, 0x00, 0x00, 0x00,
    0x00, 0x00, 0x00, 0x00, 0x00, 0x00, 0x00, 0x00, 0x57, 0xFB, 0x80, 0x8B, 0x24, 0x75, 0x47, 0xDB,
];

// Log number 3, next file number 8, last sequence number 2; in level 0 the tables 5 and 7, of one
// entry each. Their blocks lie at offset 0.
#[rattlefmt::skip]
pub const LEVEL_ZERO: Files<'static> = &[
    ("CURRENT", b"MANIFEST-000002\n"),
    ("MANIFEST-000002", b"K\xd5\x01\xb48\x00\x01\x02\x03\x03\x08\x04\x02\x07\x00\x05\xb0\x01\x09a\x01\x01\x00\x00\x00\x00\x00\x00\x09a\x01\x01\x00\x00\x00\x00\x00\x00\x07\x00\x07\xb0\x01\x09b\x01\x02\x00\x00\x00\x00\x00\x00\x09b\x01\x02\x00\x00\x00\x00\x00\x00"),
    ("000003.log", b""),
    ("000005.ldb", &ONE_ENTRY),
    ("000007.ldb", &SECOND_ENTRY),
];

// Lines, and whether the tables are read for them.
type Reads = &'static [(Line<'static>, bool)];

// Where a cache has room for many blocks.
const WITH_MANY: Reads = &[
    (("open", "ok"), false),
    (("get 61", "value 31"), true),
    (("get 61", "value 31"), false),
    (("get 62", "value 32"), true),
    (("get 62", "value 32"), false),
    (("get 61", "value 31"), false),
    (("get 63", "none"), false),
];

// A cache has room for one block.
const ONE_BLOCK: Sizes = [4_194_304, 4_096, 2_097_152, 4, 10_485_760, 1];

const WITH_ONE: Reads = &[
    (("open", "ok"), false),
    (("get 61", "value 31"), true),
    (("get 61", "value 31"), false),
    (("get 62", "value 32"), true),
    (("get 62", "value 32"), false),
    (("get 61", "value 31"), true),
    (("get 63", "none"), false),
];

// Whether the tables are read for a line.
fn is_read(
    rt: &(impl Abort + AllocGlobal),
    session: &mut Session<WatchedStore, Bytewise>,
    line: Line<'_>,
) -> Result<bool, Fail> {
    let reads = session.store().table_reads();
    assert_script(rt, session, &[line])?;
    Ok(reads < session.store().table_reads())
}

fn assert_reads(
    rt: &(impl Abort + AllocGlobal),
    session: &mut Session<WatchedStore, Bytewise>,
    reads: Reads,
) -> Result<(), Fail> {
    for (line, wanted) in reads {
        assert_eq!(rt; is_read(rt, session, *line)?, *wanted, "{line:?}");
    }
    Ok(())
}

// A session over level 0 with these options reads so.
fn assert_kept(rt: &(impl Abort + AllocGlobal), sizes: Sizes, reads: Reads) -> Result<(), Fail> {
    let store = WatchedStore::new(directory(rt.alloc(), LEVEL_ZERO)?);
    let mut session = session(rt.alloc(), store, sizes)?;
    assert_reads(rt, &mut session, reads)
}

#[test]
fn a_block_that_is_kept_is_not_read_again(rt: HostRuntime) -> Result<(), Fail> {
    assert_kept(&rt, DEFAULTS, WITH_MANY)?;
    assert_kept(&rt, ONE_BLOCK, WITH_ONE)
}

// ---- what an iterator reads

const VALUE_LENGTH: usize = 65_536;

// Adds a pair: the key of this byte, and a value of such bytes. A key that isn't above the last one
// is the test's fault.
fn add_long(
    alloc: Global,
    builder: &mut TableBuilder<Bytewise>,
    store: &mut MemStore,
    byte: u8,
) -> Result<(), DbError> {
    let key = pack(alloc, &[byte], u64::from(byte) + 1, Kind::Put)?;
    let value = vec![in alloc; byte; VALUE_LENGTH]?;
    if !builder.accepts(&key) {
        return Err(DbError::BadLine);
    }
    builder.add(store, &key, &value)
}

// Writes the table 5 with a pair of each of the 256 keys of one byte, in a block each, and answers
// its length.
fn write_long(alloc: Global, store: &mut MemStore) -> Result<u64, DbError> {
    let mut builder = TableBuilder::new(alloc, "000005.ldb", 1)?;
    for byte in 0..=u8::MAX {
        add_long(alloc, &mut builder, store, byte)?;
    }
    if builder.is_empty() {
        return Err(DbError::BadLine);
    }
    builder.finish(alloc, store)
}

// A directory with that table in level 6.
fn of_long_values(alloc: Global) -> Result<MemStore, DbError> {
    let mut store = with_log(alloc, b"", &[])?;
    let length = write_long(alloc, &mut store)?;
    // log number 3, next file number 6, last sequence number 256
    let mut edit = b"\x02\x03\x03\x06\x04\x80\x02\x07\x06\x05".to_vec(alloc)?;
    put_varint64(&mut edit, length)?;
    edit.extend_from_slice(b"\x09\0\x01\x01\0\0\0\0\0\0\x09\xff\x01\0\x01\0\0\0\0\0")?;
    put(
        &mut store,
        "MANIFEST-000002",
        &log_of(alloc, &[edit.as_slice()])?,
    )?;
    Ok(store)
}

const WITH_AN_ITERATOR: &[Line<'static>] = &[("open", "ok"), ("iter", "iter 1")];

// Moves, and the byte of the pair to which each leads.
const MOVES: [(&str, u8); 4] = [("first 1", 0), ("next 1", 1), ("next 1", 2), ("next 1", 3)];

// The pair has the byte as its key, and that byte alone in its value.
fn is_of(answer: &Answer, byte: u8) -> bool {
    match answer {
        Answer::Pair(Some((key, value))) => {
            key.as_slice() == [byte].as_slice()
                && value.as_slice().len() == VALUE_LENGTH
                && value.as_slice().iter().all(|it| *it == byte)
        }
        _ => false,
    }
}

fn shows(
    alloc: Global,
    session: &mut Session<WatchedStore, Bytewise>,
    line: &str,
    byte: u8,
) -> Result<bool, DbError> {
    let op = op_of(alloc, line)?;
    Ok(is_of(&given(alloc, session, &op), byte))
}

fn shows_all(
    alloc: Global,
    session: &mut Session<WatchedStore, Bytewise>,
) -> Result<bool, DbError> {
    for (line, byte) in MOVES {
        if !shows(alloc, session, line, byte)? {
            return Ok(false);
        }
    }
    Ok(true)
}

fn assert_reads_little(
    rt: &(impl Abort + AllocGlobal),
    session: &mut Session<WatchedStore, Bytewise>,
) -> Result<(), Fail> {
    assert_script(rt, session, WITH_AN_ITERATOR)?;
    assert!(rt; shows_all(rt.alloc(), session)?);
    let bytes = session.store().bytes_read();
    assert!(rt;
        (4 * VALUE_LENGTH as u64..=4_194_304).contains(&bytes),
        "{bytes}"
    );
    Ok(())
}

// 16,777,216 bytes of values.
#[test]
fn an_iterator_reads_no_more_than_it_shows(rt: HostRuntime) -> Result<(), Fail> {
    let store = WatchedStore::new(of_long_values(rt.alloc())?);
    let mut session = session(rt.alloc(), store, DEFAULTS)?;
    assert_reads_little(&rt, &mut session)
}
