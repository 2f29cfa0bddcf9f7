use crate::files::{ONE_ENTRY, SEPARATED, store_with};
use block::{Block, BlockCursor};
use cache::{BlockCache, ReadBlock, TableCache};
use coding::DbError;
use ikey::{Bytewise, Internal};
use std::alloc::Global;
use std::num::NonZeroUsize;
use std::rc::Rc;
use std::test::*;
use store::{FaultStore, MemStore, Store, StoreError};
use table::Table;
use table_access::Tables;

// A store that counts its calls: table 5 has one entry, and table 7, under its old name, two
// blocks.
fn two_tables(alloc: Global) -> Result<FaultStore, DbError> {
    match both(alloc) {
        Ok(store) => Ok(FaultStore::new(store, None)),
        Err(_) => Err(DbError::OutOfMemory),
    }
}

fn both(alloc: Global) -> Result<MemStore, StoreError> {
    let mut store = store_with(alloc, &ONE_ENTRY)?;
    store.create("000007.sst")?;
    store.append("000007.sst", &SEPARATED)?;
    Ok(store)
}

fn capacity_of(count: usize) -> Result<NonZeroUsize, DbError> {
    match NonZeroUsize::new(count) {
        Some(capacity) => Ok(capacity),
        None => Err(DbError::BadLine),
    }
}

// Of capacity 0, the cache that keeps nothing.
fn blocks_for(alloc: Global, capacity: usize) -> Result<BlockCache<Bytewise>, DbError> {
    match NonZeroUsize::new(capacity) {
        Some(capacity) => Ok(BlockCache::new(alloc, capacity)?),
        None => Ok(BlockCache::none()),
    }
}

// The value of a block's first entry.
fn first_value(alloc: Global, block: Rc<Block<Internal<Bytewise>>>) -> Option<u8> {
    let mut cursor = BlockCursor::new(alloc, block);
    cursor.first().ok()?;
    if !cursor.stands() {
        return None;
    }
    cursor.value().first().copied()
}

// A block that is asked for: its table's number, its place, the value of its first entry, or none
// if it fails. Then whether the store is asked for it, and how many blocks are kept after that.
struct Fetch {
    number: u64,
    index: usize,
    value: Option<u8>,
    is_read: bool,
    kept: usize,
}

#[rattlefmt::skip]
const TWO_TABLES: [Fetch; 3] = [
    Fetch { number: 5, index: 0, value: Some(0x31), is_read: true, kept: 1 },
    Fetch { number: 7, index: 0, value: Some(0x31), is_read: true, kept: 2 },
    Fetch { number: 7, index: 1, value: Some(0x33), is_read: true, kept: 3 },
];

#[rattlefmt::skip]
const ROOM_FOR_ONE: [Fetch; 4] = [
    Fetch { number: 7, index: 0, value: Some(0x31), is_read: true, kept: 1 },
    Fetch { number: 7, index: 1, value: Some(0x33), is_read: true, kept: 1 },
    Fetch { number: 7, index: 1, value: Some(0x33), is_read: false, kept: 1 },
    Fetch { number: 7, index: 0, value: Some(0x31), is_read: true, kept: 1 },
];

#[rattlefmt::skip]
const NOTHING_KEPT: [Fetch; 2] = [
    Fetch { number: 5, index: 0, value: Some(0x31), is_read: true, kept: 0 },
    Fetch { number: 5, index: 0, value: Some(0x31), is_read: true, kept: 0 },
];

#[rattlefmt::skip]
const REFUSED: [Fetch; 2] = [
    Fetch { number: 5, index: 2, value: None, is_read: false, kept: 0 },
    Fetch { number: 5, index: 2, value: None, is_read: false, kept: 0 },
];

// Whether a block with this first value was answered, or refused where there is none.
fn has_value(
    alloc: Global,
    found: Result<Rc<Block<Internal<Bytewise>>>, DbError>,
    value: Option<u8>,
) -> bool {
    match found {
        Ok(block) => value.is_some() && first_value(alloc, block) == value,
        Err(DbError::Corrupt(_, _)) => value.is_none(),
        Err(_) => false,
    }
}

fn is_so(
    alloc: Global,
    store: &mut FaultStore,
    blocks: &mut BlockCache<Bytewise>,
    table: &Table<Bytewise>,
    wanted: &Fetch,
) -> bool {
    let calls = store.calls();
    let found = blocks.fetch(alloc, store, table, wanted.number, wanted.index);
    let is_read = calls < store.calls();
    let kept = blocks.len();
    has_value(alloc, found, wanted.value) && is_read == wanted.is_read && kept == wanted.kept
}

// Whether each is so, one after another.
fn all_are_so(
    alloc: Global,
    store: &mut FaultStore,
    blocks: &mut BlockCache<Bytewise>,
    tables: (&Table<Bytewise>, &Table<Bytewise>),
    fetches: &[Fetch],
) -> bool {
    for fetch in fetches {
        let table = if fetch.number == 5 {
            tables.0
        } else {
            tables.1
        };
        if !is_so(alloc, store, blocks, table, fetch) {
            return false;
        }
    }
    true
}

// The same in a cache of that capacity.
fn are_so(alloc: Global, capacity: usize, fetches: &[Fetch]) -> Result<bool, DbError> {
    let mut store = two_tables(alloc)?;
    let five = Table::<Bytewise>::open(alloc, &mut store, "000005.ldb")?;
    let seven = Table::<Bytewise>::open(alloc, &mut store, "000007.sst")?;
    let mut blocks = blocks_for(alloc, capacity)?;
    Ok(all_are_so(alloc, &mut store, &mut blocks, (&five, &seven), fetches))
}

// How many blocks a cache keeps, and what is asked of it.
const FETCHES: [(usize, &[Fetch]); 4] = [
    (4, &TWO_TABLES),
    (1, &ROOM_FOR_ONE),
    (0, &NOTHING_KEPT),
    (2, &REFUSED),
];

#[test]
fn blocks_are_kept_by_table_and_index(rt: HostRuntime) {
    for (capacity, fetches) in FETCHES {
        assert_eq!(rt;
            are_so(rt.alloc(), capacity, fetches),
            Ok(true),
            "{capacity}"
        );
    }
}

// Whether a block that was fetched is read without the store.
fn is_kept(
    alloc: Global,
    store: &mut FaultStore,
    blocks: &mut BlockCache<Bytewise>,
    table: &Table<Bytewise>,
) -> bool {
    let is_empty = blocks.is_empty();
    let first = blocks.fetch(alloc, store, table, 5, 0);
    let calls = store.calls();
    let again = blocks.read_block(alloc, store, table, 5, 0);
    let are_read = has_value(alloc, first, Some(0x31)) && has_value(alloc, again, Some(0x31));
    is_empty && are_read && blocks.len() == 1 && store.calls() == calls
}

fn keeps_a_block(alloc: Global) -> Result<bool, DbError> {
    let mut store = two_tables(alloc)?;
    let mut blocks = blocks_for(alloc, 2)?;
    let table = Table::<Bytewise>::open(alloc, &mut store, "000005.ldb")?;
    Ok(is_kept(alloc, &mut store, &mut blocks, &table))
}

#[test]
fn a_kept_block_is_not_read_again(rt: HostRuntime) {
    assert_eq!(rt; keeps_a_block(rt.alloc()), Ok(true));
}

// ---- tables

// A table that is asked for, by its number; how many blocks it has, or none if it is missing;
// whether the store is asked for it; whether it is evicted then.
type Opening = (u64, Option<usize>, bool, bool);

// In a cache of one table.
const OPENINGS: [Opening; 4] = [
    (7, Some(2), true, false),
    (7, Some(2), false, false),
    (5, Some(1), true, true),
    (6, None, true, false),
];

// Whether a table with so many blocks was answered, or none as damaged.
fn has_blocks(
    alloc: Global,
    found: Result<Rc<Table<Bytewise>>, DbError>,
    blocks: Option<usize>,
) -> bool {
    match found {
        Ok(table) => matches!(table.index(alloc), Ok(index) if Some(index.len()) == blocks),
        Err(DbError::Corrupt(_, _)) => blocks.is_none(),
        Err(_) => false,
    }
}

// Whether an opening is so, and the table is kept unless it is missing or evicted.
fn opens(
    alloc: Global,
    store: &mut FaultStore,
    tables: &mut TableCache<Bytewise>,
    opening: &Opening,
) -> bool {
    let (number, blocks, is_read, is_evicted) = *opening;
    if number == 0 {
        return false;
    }
    let calls = store.calls();
    let found = tables.get_table(alloc, store, number);
    let is_asked = calls < store.calls();
    let is_one = (tables.len() == 1) == blocks.is_some();
    if is_evicted {
        tables.evict(number);
    }
    let is_left = (tables.len() == 1) == (blocks.is_some() && !is_evicted);
    has_blocks(alloc, found, blocks) && is_asked == is_read && is_one && is_left
}

fn opens_each(alloc: Global, store: &mut FaultStore, tables: &mut TableCache<Bytewise>) -> bool {
    for opening in &OPENINGS {
        if !opens(alloc, store, tables, opening) {
            return false;
        }
    }
    true
}

fn keeps_tables(alloc: Global) -> Result<bool, DbError> {
    let mut store = two_tables(alloc)?;
    let mut tables = TableCache::new(alloc, capacity_of(1)?)?;
    Ok(tables.is_empty() && opens_each(alloc, &mut store, &mut tables))
}

#[test]
fn a_kept_table_is_not_opened_again(rt: HostRuntime) {
    assert_eq!(rt; keeps_tables(rt.alloc()), Ok(true));
}

// What is done to the tables of a store: to begin to keep what is read, to end that, or to read the
// first block of table 5.
#[derive(Clone, Copy)]
enum Turn {
    Begin,
    End,
    Read,
}

// Each turn; whether the store is asked, and how many tables and how many blocks are kept after it.
#[rattlefmt::skip]
const TURNS: [(Turn, bool, usize); 10] = [
    (Turn::Read, true, 0), (Turn::Read, true, 0),
    (Turn::Begin, false, 0), (Turn::Read, true, 1), (Turn::Read, false, 1),
    (Turn::Begin, false, 0), (Turn::Read, true, 1),
    (Turn::End, false, 0), (Turn::Read, true, 0), (Turn::Read, true, 0),
];

// Whether the turn did what it should.
fn take(alloc: Global, source: &mut Tables<Bytewise, FaultStore>, turn: Turn) -> bool {
    match turn {
        Turn::Begin => match NonZeroUsize::new(2) {
            Some(blocks) => source.begin(alloc, blocks).is_ok(),
            None => false,
        },
        Turn::End => {
            source.end();
            true
        }
        Turn::Read => has_value(alloc, source.read_block(alloc, 5, 0), Some(0x31)),
    }
}

fn goes_so(
    alloc: Global,
    source: &mut Tables<Bytewise, FaultStore>,
    wanted: (Turn, bool, usize),
) -> bool {
    let calls = source.store.calls();
    let is_done = take(alloc, source, wanted.0);
    let is_read = calls < source.store.calls();
    let are_kept = source.tables.len() == wanted.2 && source.blocks.len() == wanted.2;
    is_done && is_read == wanted.1 && are_kept
}

fn keeps_while_asked(alloc: Global) -> Result<bool, DbError> {
    let mut source = Tables::<Bytewise, FaultStore>::over(two_tables(alloc)?);
    for turn in TURNS {
        if !goes_so(alloc, &mut source, turn) {
            return Ok(false);
        }
    }
    Ok(true)
}

#[test]
fn tables_are_kept_from_begin_to_end(rt: HostRuntime) {
    assert_eq!(rt; keeps_while_asked(rt.alloc()), Ok(true));
}
