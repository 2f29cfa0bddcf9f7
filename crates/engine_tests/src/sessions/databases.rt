// A database without a session.
use super::cases::has_tables;
use super::*;
use batch::Batch;
use coding::Bytes;
use engine::Mode::New;
use engine::{Db, Ids, OpenError, Progress};
use std::test::Fail;

// Each is the least of its range, so that a memtable is sealed with its first entry.
const LEAST: Sizes = [1, 1, 1, 1, 1, 1];

#[test]
fn options_are_taken_within_their_ranges(rt: HostRuntime) {
    for (sizes, are_taken) in OPTIONS {
        assert_eq!(rt; options_of(sizes).is_some(), are_taken, "{sizes:?}");
    }
}

const MIB: u64 = 1 << 20;

const GIB: u64 = 1 << 30;

const TIB: u64 = 1 << 40;

#[rattlefmt::skip]
const OPTIONS: [(Sizes, bool); 14] = [
    (LEAST, true),
    ([0, 1, 1, 1, 1, 1], false),
    ([1, 0, 1, 1, 1, 1], false),
    ([1, 1, 0, 1, 1, 1], false),
    ([1, 1, 1, 0, 1, 1], false),
    ([1, 1, 1, 1, 0, 1], false),
    ([1, 1, 1, 1, 1, 0], false),
    ([GIB, MIB, GIB, 1_024, TIB, 65_536], true),
    ([GIB + 1, MIB, GIB, 1_024, TIB, 65_536], false),
    ([GIB, MIB + 1, GIB, 1_024, TIB, 65_536], false),
    ([GIB, MIB, GIB + 1, 1_024, TIB, 65_536], false),
    ([GIB, MIB, GIB, 1_025, TIB, 65_536], false),
    ([GIB, MIB, GIB, 1_024, TIB + 1, 65_536], false),
    ([GIB, MIB, GIB, 1_024, TIB, 65_537], false),
];

// A new database in memory, whose last ids given are these.
fn database(alloc: Global, sizes: Sizes, ids: Ids) -> Result<Db<MemStore, Bytewise>, Fail> {
    let options = options_of(sizes).ok_or("an option is outside its range")?;
    match Db::open(alloc, MemStore::new(alloc), options, New, ids) {
        Ok(database) => Ok(database),
        Err(refused) => Err(DbError::from(refused))?,
    }
}

fn batch_of(alloc: Global, pairs: &[(&[u8], &[u8])]) -> Result<Batch, DbError> {
    let mut batch = Batch::new(alloc);
    for (key, value) in pairs {
        batch.put(key, value)?;
    }
    Ok(batch)
}

// The same, in which two pairs were written.
fn written(alloc: Global, ids: Ids) -> Result<Db<MemStore, Bytewise>, Fail> {
    let batch = batch_of(alloc, &[(b"a", b"1"), (b"b", b"2")])?;
    let mut database = database(alloc, LEAST, ids)?;
    database.write(alloc, &batch, true)?;
    Ok(database)
}

fn has(alloc: Global, database: &mut Db<MemStore, Bytewise>, key: &[u8], value: &[u8]) -> bool {
    matches!(database.get(alloc, key, None), Ok(Some(found)) if found.as_slice() == value)
}

fn answers(alloc: Global, database: &mut Db<MemStore, Bytewise>) -> bool {
    has(alloc, database, b"a", b"1")
        && has(alloc, database, b"b", b"2")
        && matches!(database.get(alloc, b"c", None), Ok(None))
        && matches!(database.get(alloc, b"a", Some(1)), Err(DbError::NoSnapshot))
}

const FIRST_IDS: Ids = Ids {
    snapshot: 3,
    iterator: 5,
};

// Whether it answers, and the store and the ids that it returns.
fn served(alloc: Global) -> Result<(bool, MemStore, Ids), Fail> {
    let mut database = written(alloc, FIRST_IDS)?;
    let answers = answers(alloc, &mut database);
    let (store, ids) = database.close();
    Ok((answers, store, ids))
}

// The store of a database, where another one can't be made in it.
fn refused(alloc: Global, store: MemStore) -> Result<MemStore, Fail> {
    let options = options_of(LEAST).ok_or("each is the least of its range")?;
    let again: Result<Db<MemStore, Bytewise>, _> = Db::open(alloc, store, options, New, FIRST_IDS);
    match again {
        Err(
            OpenError {
                error: DbError::Exists,
                store,
            },
        ) => Ok(store),
        _ => Err(Fail::from("there is a database already")),
    }
}

const FOUND: &[Line<'static>] = &[("open", "ok"), ("get 62", "value 32")];

#[test]
fn a_database_serves_until_it_is_closed(rt: HostRuntime) -> Result<(), Fail> {
    let (answers, store, ids) = served(rt.alloc())?;
    assert!(rt; answers);
    assert_eq!(rt; ids, FIRST_IDS);
    after_script(&rt, refused(rt.alloc(), store)?, DEFAULTS, FOUND)?;
    Ok(())
}

const LAST_IDS: Ids = Ids {
    snapshot: u64::MAX,
    iterator: u64::MAX,
};

fn gives_no_id(alloc: Global, database: &mut Db<MemStore, Bytewise>) -> bool {
    matches!(database.snapshot(), Err(DbError::NumbersSpent))
        && matches!(database.iter(alloc, None), Err(DbError::NumbersSpent))
        && matches!(database.iter(alloc, Some(1)), Err(DbError::NoSnapshot))
}

// Whether a database of these ids does so, and the ids that it returns.
fn given_none(alloc: Global) -> Result<(bool, Ids), Fail> {
    let mut database = database(alloc, DEFAULTS, LAST_IDS)?;
    let gives_no_id = gives_no_id(alloc, &mut database);
    let (_, ids) = database.close();
    Ok((gives_no_id, ids))
}

#[test]
fn no_id_is_2_to_the_64(rt: HostRuntime) -> Result<(), Fail> {
    assert_eq!(rt; given_none(rt.alloc())?, (true, LAST_IDS));
    Ok(())
}

// Whether a move of an iterator led to this pair.
fn is_at(moved: Result<Option<(Bytes, Bytes)>, DbError>, key: &[u8], value: &[u8]) -> bool {
    match moved {
        Ok(Some((found, kept))) => found.as_slice() == key && kept.as_slice() == value,
        _ => false,
    }
}

fn moves_both_ways(alloc: Global, database: &mut Db<MemStore, Bytewise>) -> bool {
    matches!(database.iter(alloc, None), Ok(8))
        && matches!(database.iter_next(alloc, 8), Err(DbError::NoPlace))
        && is_at(database.iter_first(alloc, 8), b"a", b"1")
        && is_at(database.iter_next(alloc, 8), b"b", b"2")
        && is_at(database.iter_prev(alloc, 8), b"a", b"1")
        && is_at(database.iter_last(alloc, 8), b"b", b"2")
        && is_at(database.iter_seek(alloc, 8, b"aa"), b"b", b"2")
}

fn gives_the_next_ids(alloc: Global, database: &mut Db<MemStore, Bytewise>) -> bool {
    matches!(database.snapshot(), Ok(5))
        && matches!(database.iter(alloc, Some(5)), Ok(9))
        && matches!(database.release(5), Ok(()))
        && matches!(database.iter_release(9), Ok(()))
        && matches!(database.iter_release(9), Err(DbError::NoIterator))
}

// Whether a database whose last ids given were 4 and 7 moves an iterator, whether it gave the ids
// that are next, and the last ones that it gave.
fn viewed(alloc: Global) -> Result<(bool, bool, Ids), Fail> {
    let ids = Ids {
        snapshot: 4,
        iterator: 7,
    };
    let mut database = written(alloc, ids)?;
    let moves = moves_both_ways(alloc, &mut database);
    let gives = gives_the_next_ids(alloc, &mut database);
    let (_, ids) = database.close();
    Ok((moves, gives, ids))
}

#[test]
fn a_database_goes_on_from_its_ids_and_gives_them_back(rt: HostRuntime) -> Result<(), Fail> {
    let (moves, gives, ids) = viewed(rt.alloc())?;
    assert!(rt; moves && gives);
    assert_eq!(rt; (ids.snapshot, ids.iterator), (5, 9));
    Ok(())
}

fn writes(alloc: Global, database: &mut Db<MemStore, Bytewise>, batch: &Batch) -> bool {
    matches!(database.write(alloc, batch, false), Ok(()))
}

fn works(alloc: Global, database: &mut Db<MemStore, Bytewise>) -> bool {
    matches!(database.work(alloc, 1), Ok(Progress::Worked))
}

fn compacts(alloc: Global, database: &mut Db<MemStore, Bytewise>) -> bool {
    matches!(database.compact_level(alloc, 0), Ok(()))
        && matches!(database.compact_level(alloc, 6), Err(DbError::BadLevel))
        && answers(alloc, database)
        && matches!(database.compact_all(alloc), Ok(()))
        && answers(alloc, database)
}

// The first batch goes into level 0, and the second one stays in memory.
fn fills_and_compacts(
    alloc: Global,
    database: &mut Db<MemStore, Bytewise>,
    batches: &[Batch; 2],
) -> bool {
    writes(alloc, database, &batches[0])
        && works(alloc, database)
        && works(alloc, database)
        && writes(alloc, database, &batches[1])
        && compacts(alloc, database)
}

// Whether a database does so, and what it leaves.
fn compacted(alloc: Global, batches: &[Batch; 2]) -> Result<(bool, MemStore), Fail> {
    let ids = Ids {
        snapshot: 0,
        iterator: 0,
    };
    let mut database = database(alloc, EAGER, ids)?;
    let compacts = fills_and_compacts(alloc, &mut database, batches);
    let (store, _) = database.close();
    Ok((compacts, store))
}

#[test]
fn a_database_compacts_a_level_and_all(rt: HostRuntime) -> Result<(), Fail> {
    let alloc = rt.alloc();
    let batches = [
        batch_of(alloc, &[(b"a", b"1")])?,
        batch_of(alloc, &[(b"b", b"2")])?,
    ];
    let (compacts, mut store) = compacted(alloc, &batches)?;
    assert!(rt; compacts);
    assert!(rt; has_tables(alloc, &mut store, &[(6, 8, 2)]));
    Ok(())
}
