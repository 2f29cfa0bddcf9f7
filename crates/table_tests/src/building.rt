// What a builder writes, and what `Table` reads of it.
use crate::entries::{Row, Seek, add, entries_of, entry, finds, lists, reads_as, write};
use crate::files::{NAME, ONE_ENTRY, SEPARATED, store_with};
use coding::DbError;
use ikey::{Bytewise, KeyOrder, Kind};
use std::alloc::Global;
use std::cmp::Ordering;
use std::test::*;
use store::{Extent, Fault, FaultStore, FileStore, MemStore, Plan, Store, StoreError};
use table::{Handle, KeyValue, Table, TableBuilder};

const OTHER: &str = "000004.log";

// ---- one entry

const ONE: [Row; 1] = [(b"a", 1, Kind::Put, b"1")];

// Whether the file of this name has these bytes.
fn has_file(alloc: Global, store: &mut MemStore, name: &str, bytes: &[u8]) -> bool {
    match store.read_at(alloc, name, 0, 1000) {
        Ok(found) => found.as_slice() == bytes,
        Err(_) => false,
    }
}

fn has_length(store: &mut MemStore, length: u64) -> bool {
    matches!(store.len(NAME), Ok(found) if found == length)
}

// Whether a builder makes no file before its first entry.
fn is_not_created(alloc: Global, store: &mut MemStore) -> bool {
    let is_empty = match TableBuilder::<Bytewise>::new(alloc, NAME, 4096) {
        Ok(builder) => builder.size() == 0,
        Err(_) => false,
    };
    is_empty && store.len(NAME).is_err()
}

// The size of a builder of that name with one entry in it.
fn size_of_one<S: Store>(
    alloc: Global,
    store: &mut S,
    name: &str,
    block_bytes: usize,
) -> Result<u64, DbError> {
    let entry = entry(alloc, b"a", 1, Kind::Put, b"1")?;
    let mut builder = TableBuilder::<Bytewise>::new(alloc, name, block_bytes)?;
    add::<Bytewise, S>(&mut builder, store, &entry)?;
    Ok(builder.size())
}

// Whether the file is created by the first entry, and has no bytes before a block is ended.
fn is_created(alloc: Global, store: &mut MemStore) -> bool {
    size_of_one(alloc, store, NAME, 4096) == Ok(21) && has_length(store, 0)
}

// Whether one entry is written over what was there, and nothing else.
fn is_written(alloc: Global, store: &mut MemStore) -> Result<bool, DbError> {
    let entries = entries_of(alloc, &ONE)?;
    let length = write::<Bytewise, MemStore>(alloc, store, NAME, 4096, &entries)?;
    Ok(length == 176 && has_file(alloc, store, NAME, &ONE_ENTRY))
}

#[test]
fn one_entry_is_written(rt: HostRuntime) {
    let mut store = MemStore::new(rt.alloc());
    assert!(rt; is_not_created(rt.alloc(), &mut store));
    assert!(rt; is_created(rt.alloc(), &mut store));
    assert_eq!(rt; is_written(rt.alloc(), &mut store), Ok(true));
}

fn put_other(store: &mut MemStore) -> Result<(), StoreError> {
    store.create(OTHER)?;
    store.append(OTHER, b"log")
}

// Whether there are two files, one of which is the other one, and as it was.
fn keeps_other(alloc: Global, store: &mut MemStore) -> bool {
    matches!(store.list(alloc), Ok(names) if names.len() == 2)
        && has_file(alloc, store, OTHER, b"log")
}

fn empties_the_old_file(alloc: Global) -> Result<bool, Fail> {
    let mut store = store_with(alloc, &SEPARATED)?;
    put_other(&mut store)?;
    Ok(is_written(alloc, &mut store)? && keeps_other(alloc, &mut store))
}

#[test]
fn the_old_file_is_emptied_and_others_stay(rt: HostRuntime) -> Result<(), Fail> {
    assert!(rt; empties_the_old_file(rt.alloc())?);
    Ok(())
}

// ---- sizes

// The first entry of a block has 13 bytes here, and so has each other one; 8 follow them. An ended
// block has five more. So large are three entries, one after another, if blocks are ended by so
// many bytes.
const SIZES: [(usize, [u64; 3]); 6] = [
    (1, [26, 52, 78]),
    (21, [26, 52, 78]),
    (22, [21, 39, 60]),
    (34, [21, 39, 60]),
    (35, [21, 34, 52]),
    (4096, [21, 34, 47]),
];

const THREE: [Row; 3] = [
    (b"a", 1, Kind::Put, b"1"),
    (b"b", 2, Kind::Put, b"2"),
    (b"c", 3, Kind::Put, b"3"),
];

fn grows(
    alloc: Global,
    block_bytes: usize,
    entries: &[KeyValue],
    sizes: &[u64],
) -> Result<bool, DbError> {
    let mut store = MemStore::new(alloc);
    let mut builder = TableBuilder::<Bytewise>::new(alloc, NAME, block_bytes)?;
    for (entry, size) in entries.iter().zip(sizes) {
        add::<Bytewise, MemStore>(&mut builder, &mut store, entry)?;
        if builder.size() != *size {
            return Ok(false);
        }
    }
    Ok(true)
}

#[test]
fn the_size_is_that_of_the_blocks(rt: HostRuntime) -> Result<(), Fail> {
    let entries = entries_of(rt.alloc(), &THREE)?;
    for (block_bytes, sizes) in SIZES {
        let is = grows(rt.alloc(), block_bytes, &entries, &sizes);
        assert_eq!(rt; is, Ok(true), "{block_bytes}");
    }
    Ok(())
}

// ---- many entries

// The user key of a number.
fn user_key(number: u32) -> [u8; 4] {
    let [a, b, c, d] = number.to_be_bytes();
    [a, b, c, d]
}

fn value_of(number: u32) -> [u8; 3] {
    let [_, a, b, c] = number.to_be_bytes();
    [a, b, c]
}

// The odd number of an index, of which there are a thousand at most.
fn odd(index: u32) -> u32 {
    index.saturating_mul(2).saturating_add(1)
}

// The put of an odd number, with a value of three bytes.
fn odd_entry(alloc: Global, index: u32) -> Result<KeyValue, DbError> {
    let user = user_key(odd(index));
    let value = value_of(index);
    entry(alloc, &user, u64::from(index), Kind::Put, &value)
}

fn odd_entries(alloc: Global, count: u32) -> Result<Vec<KeyValue>, DbError> {
    let mut entries = Vec::new(alloc);
    for index in 0..count {
        entries.push(odd_entry(alloc, index)?)?;
    }
    Ok(entries)
}

// Whether seeks below, at and above the odd number of an index find what they should.
fn finds_beside(
    alloc: Global,
    table: &Table<Bytewise>,
    store: &mut MemStore,
    entries: &[KeyValue],
    index: u32,
) -> Result<bool, DbError> {
    let number = odd(index);
    let place = index as usize;
    let below = user_key(number.saturating_sub(1));
    let at = user_key(number);
    let above = user_key(number.saturating_add(1));
    Ok(
        finds(alloc, table, store, entries, (&below, 0, place))?
            && finds(alloc, table, store, entries, (&at, u64::from(index), place))?
            && finds(
                alloc,
                table,
                store,
                entries,
                (&above, 0, place.saturating_add(1)),
            )?,
    )
}

fn finds_each(
    alloc: Global,
    table: &Table<Bytewise>,
    store: &mut MemStore,
    entries: &[KeyValue],
    count: u32,
) -> Result<bool, DbError> {
    for index in 0..count {
        if !finds_beside(alloc, table, store, entries, index)? {
            return Ok(false);
        }
    }
    Ok(true)
}

// None of the keys is this number or above. The keys that are asked for differ from them in more
// than the last byte. In a filter of 64 bits two keys of four bytes that differ in that one alone
// have the same bits.
const ELSEWHERE: u32 = 1 << 24;

// Whether the filter admits the key of a number in the block of the entry with this index.
fn admits(
    table: &Table<Bytewise>,
    handles: &[Handle],
    in_block: u32,
    index: u32,
    number: u32,
) -> bool {
    if in_block == 0 {
        return false;
    }
    match handles.get((index / in_block) as usize) {
        Some(handle) => table.admits(*handle, &user_key(number)),
        None => false,
    }
}

// Of how many entries the filter admits a key in their block: the first number, and so many more
// for each entry.
fn admitted(
    table: &Table<Bytewise>,
    handles: &[Handle],
    in_block: u32,
    count: u32,
    numbers: (u32, u32),
) -> u32 {
    let (mut number, step) = numbers;
    let mut admitted = 0u32;
    for index in 0..count {
        let is_admitted = admits(table, handles, in_block, index, number);
        admitted = admitted.saturating_add(u32::from(is_admitted));
        number = number.saturating_add(step);
    }
    admitted
}

// Whether the index has so many blocks, and the filter admits each key in its block and denies nine
// of ten others.
fn is_filtered(
    alloc: Global,
    table: &Table<Bytewise>,
    in_block: u32,
    count: u32,
    blocks: usize,
) -> Result<bool, DbError> {
    let handles = table.index(alloc)?;
    let own = admitted(table, &handles, in_block, count, (1, 2));
    let others = admitted(table, &handles, in_block, count, (ELSEWHERE, 1));
    Ok(handles.len() == blocks && own == count && others.saturating_mul(10) <= count)
}

// Bytes that end a block, how many entries that makes a block, entries, and blocks.
type Case = (usize, u32, u32, usize);

// Whether the table of the odd numbers is read.
fn is_read(
    alloc: Global,
    store: &mut MemStore,
    entries: &[KeyValue],
    case: &Case,
) -> Result<bool, DbError> {
    let (_, in_block, count, blocks) = *case;
    let table = Table::<Bytewise>::open(alloc, store, NAME)?;
    Ok(
        lists::<Bytewise, MemStore>(alloc, &table, store, entries)?
            && finds_each(alloc, &table, store, entries, count)?
            && is_filtered(alloc, &table, in_block, count, blocks)?,
    )
}

// Whether a table of the odd numbers is written and read.
fn is_table(alloc: Global, case: &Case) -> Result<bool, DbError> {
    let entries = odd_entries(alloc, case.2)?;
    let mut store = MemStore::new(alloc);
    write::<Bytewise, MemStore>(alloc, &mut store, NAME, case.0, &entries)?;
    is_read(alloc, &mut store, &entries, case)
}

// The first of 16 entries has 18 bytes, each other one 15 or 16, a restart point 4, and their count
// 4. So 6 entries are the first with 100 bytes, and 265 with 4096.
const TABLES: [Case; 12] = [
    (1, 1, 1, 1),
    (1, 1, 2, 2),
    (1, 1, 17, 17),
    (1, 1, 1000, 1000),
    (100, 6, 1, 1),
    (100, 6, 2, 1),
    (100, 6, 17, 3),
    (100, 6, 1000, 167),
    (4096, 265, 1, 1),
    (4096, 265, 2, 1),
    (4096, 265, 17, 1),
    (4096, 265, 1000, 4),
];

#[test]
fn what_was_written_is_read(rt: HostRuntime) {
    for case in &TABLES {
        assert_eq!(rt; is_table(rt.alloc(), case), Ok(true), "{case:?}");
    }
}

// ---- versions of one key

// Entries of few user keys, in order, the last number being how long the value is.
const VERSIONS: [(&[u8], u64, Kind, usize); 8] = [
    (b"", 9, Kind::Put, 5),
    (b"", 8, Kind::Delete, 0),
    (b"a", 300, Kind::Delete, 0),
    (b"a", 7, Kind::Put, 5000),
    (b"a", 7, Kind::Delete, 0),
    (b"a", 0, Kind::Put, 0),
    (b"a\0", (1 << 56) - 1, Kind::Put, 1),
    (b"\xff", 2, Kind::Put, 2),
];

// The newest version up to a sequence number, by its place in the list.
const SEEKS: [Seek; 11] = [
    (b"", 10, 0),
    (b"", 8, 1),
    (b"", 7, 2),
    (b"a", 300, 2),
    (b"a", 299, 3),
    (b"a", 7, 3),
    (b"a", 6, 5),
    (b"a", 0, 5),
    (b"a\0", 5, 7),
    (b"b", 1, 7),
    (b"\xff", 1, 8),
];

fn version(
    alloc: Global,
    user: &[u8],
    sequence: u64,
    kind: Kind,
    length: usize,
) -> Result<KeyValue, DbError> {
    let value = vec![in alloc; b'v'; length]?;
    entry(alloc, user, sequence, kind, &value)
}

fn versions(alloc: Global) -> Result<Vec<KeyValue>, DbError> {
    let mut entries = Vec::new(alloc);
    for (user, sequence, kind, length) in VERSIONS {
        entries.push(version(alloc, user, sequence, kind, length)?)?;
    }
    Ok(entries)
}

// Whether entries are read again, with blocks ended by so many bytes.
fn comes_back<K: KeyOrder>(
    alloc: Global,
    block_bytes: usize,
    entries: &[KeyValue],
    seeks: &[Seek],
) -> Result<bool, DbError> {
    let mut store = MemStore::new(alloc);
    write::<K, MemStore>(alloc, &mut store, NAME, block_bytes, entries)?;
    reads_as::<K, MemStore>(alloc, &mut store, entries, seeks)
}

#[test]
fn the_newest_version_is_found_first(rt: HostRuntime) -> Result<(), Fail> {
    let entries = versions(rt.alloc())?;
    for block_bytes in [1, 30, 4096] {
        let is = comes_back::<Bytewise>(rt.alloc(), block_bytes, &entries, &SEEKS);
        assert_eq!(rt; is, Ok(true), "{block_bytes}");
    }
    Ok(())
}

// ---- another order

// The last byte strings first.
struct Falling;

impl KeyOrder for Falling {
    ghost use Rattle.std.specs.Prelude.{codes};
    ghost use Rattle.std.proofs.Common.{lit<, sym};
    ghost use Rattle.std.specs.Ordering.{nat_cmp};
    ghost use Rattle.std.specs.Cmp.{back_total};
    ghost use Rattle.std.specs.Cmp.Lexicographic.{slice_cmp, nat_list_cmp_total};
    ghost use Rattle.std.specs.FinMap.{slice_cmp-IsAntisymmetric, nat_cmp-IsAntisymmetric};

    ghost name = { codes "falling" };

    ghost cmp = { λ a b. slice_cmp nat_cmp b a };

    fn name() -> &'static str {
        "falling"
    }

    fn compare(a: &[u8], b: &[u8]) -> Ordering {
        b.cmp(a)
    }

    fn is_plainly_below(_a: &[u8], _shared: usize, _rest: &[u8]) -> bool {
        false
    }

    ghost total = { back_total nat_list_cmp_total };

    ghost exact = { λ a b e. sym (slice_cmp-IsAntisymmetric nat_cmp-IsAntisymmetric b a e) };

    ghost name_fits = { lit< tt };
}

const FALLING: [Row; 4] = [
    (b"c", 1, Kind::Put, b"1"),
    (b"b", 3, Kind::Put, b"2"),
    (b"b", 2, Kind::Delete, b""),
    (b"", 4, Kind::Put, b"3"),
];

// Whether a table of that order is read in it, and is no table in that of bytes.
fn is_falling(alloc: Global) -> Result<bool, DbError> {
    let entries = entries_of(alloc, &FALLING)?;
    let mut store = MemStore::new(alloc);
    write::<Falling, MemStore>(alloc, &mut store, NAME, 1, &entries)?;
    let is_read = reads_as::<Falling, MemStore>(alloc, &mut store, &entries, &[(b"bb", 9, 1)])?;
    Ok(is_read && is_no_table(alloc, &mut store))
}

#[test]
fn a_table_is_in_the_order_of_its_keys(rt: HostRuntime) {
    assert_eq!(rt; is_falling(rt.alloc()), Ok(true));
}

// ---- failures

// Writes the table of three odd numbers, a block each: 31 bytes a block, and the rest after them.
fn write_three<S: Store>(alloc: Global, store: &mut S) -> Result<u64, DbError> {
    let entries = odd_entries(alloc, 3)?;
    write::<Bytewise, S>(alloc, store, NAME, 1, &entries)
}

fn has_three(alloc: Global, store: &mut MemStore) -> Result<bool, DbError> {
    let entries = odd_entries(alloc, 3)?;
    reads_as::<Bytewise, MemStore>(alloc, store, &entries, &[])
}

// A store with another file, whose call of this number writes so many bytes and fails.
fn failing(alloc: Global, call: u64, count: usize) -> Result<FaultStore, StoreError> {
    let mut inner = MemStore::new(alloc);
    put_other(&mut inner)?;
    let fault = Fault::Fail(Extent::Part(count));
    Ok(FaultStore::new(inner, Some(Plan { call, fault })))
}

// What is left of a table of three odd numbers, a block each, where the call of this number writes
// so many bytes and fails. The first call creates the file, the next three append a block each, and
// the fifth appends the rest.
fn after_failure(alloc: Global, call: u64, count: usize) -> Option<MemStore> {
    let mut store = failing(alloc, call, count).ok()?;
    match write_three(alloc, &mut store) {
        Err(DbError::Io) => Some(store.into_inner()),
        _ => None,
    }
}

fn is_no_table(alloc: Global, store: &mut MemStore) -> bool {
    matches!(
        Table::<Bytewise>::open(alloc, store, NAME),
        Err(DbError::Corrupt(_, _))
    )
}

// Whether the file then has so many bytes and is no table, and the other file is as before.
fn leaves_no_table(alloc: Global, call: u64, count: usize, length: u64) -> bool {
    match after_failure(alloc, call, count) {
        Some(mut store) => has_length(&mut store, length)
            && keeps_other(alloc, &mut store)
            && is_no_table(alloc, &mut store),
        None => false,
    }
}

// The call that appends a block, how much of it is written, and how long the file is then.
#[rattlefmt::skip]
const PARTS: [(u64, usize, u64); 15] = [
    (2, 0, 0), (2, 1, 1), (2, 26, 26), (2, 30, 30), (2, 31, 31),
    (3, 0, 31), (3, 1, 32), (3, 26, 57), (3, 30, 61), (3, 31, 62),
    (4, 0, 62), (4, 1, 63), (4, 26, 88), (4, 30, 92), (4, 31, 93),
];

#[test]
fn a_failed_block_leaves_no_table(rt: HostRuntime) {
    for (call, count, length) in PARTS {
        assert!(rt;
            leaves_no_table(rt.alloc(), call, count, length),
            "{call}, {count}"
        );
    }
}

// The length of the table, where nothing fails.
fn length_of_three(alloc: Global) -> Result<u64, DbError> {
    write_three(alloc, &mut MemStore::new(alloc))
}

#[test]
fn failed_ends_leave_no_table(rt: HostRuntime) -> Result<(), Fail> {
    let length = length_of_three(rt.alloc())?;
    for count in 0..length.saturating_sub(93) {
        let length = count.saturating_add(93);
        assert!(rt;
            leaves_no_table(rt.alloc(), 5, count as usize, length),
            "{count}"
        );
    }
    Ok(())
}

fn is_whole_once_all_was_written(alloc: Global) -> bool {
    match after_failure(alloc, 5, usize::MAX) {
        Some(mut store) => has_three(alloc, &mut store) == Ok(true),
        None => false,
    }
}

fn is_whole_once_written_again(alloc: Global) -> bool {
    match after_failure(alloc, 3, 7) {
        Some(mut store) => write_three(alloc, &mut store).is_ok()
            && has_three(alloc, &mut store) == Ok(true),
        None => false,
    }
}

// The store did all of it and failed then, or the table is written once more: it is there.
#[test]
fn a_table_is_whole_where_all_of_it_was_written(rt: HostRuntime) {
    assert!(rt; is_whole_once_all_was_written(rt.alloc()));
    assert!(rt; is_whole_once_written_again(rt.alloc()));
}

// A store over a folder makes no file within another folder.
#[test]
fn a_file_that_is_not_created_is_a_failure(rt: HostRuntime) -> Result<(), Fail> {
    let mut store = FileStore::open(&rt, ".")?;
    let size = size_of_one(rt.alloc(), &mut store, "none/000005.ldb", 1);
    assert_eq!(rt; size, Err(DbError::Io));
    Ok(())
}
