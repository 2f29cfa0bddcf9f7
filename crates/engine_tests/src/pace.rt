// Writes that bring their share of the work along.
use batch::Batch;
use coding::DbError;
use engine::{Db, Ids, Mode, Options, Pace};
use ikey::Bytewise;
use std::alloc::{AllocGlobal, Global};
use std::test::Fail;
use store::{Extent, Fault, FaultStore, MemStore, Plan, Store};

// By how many of level 0 a compaction is brought about, and the bytes of a memtable and of a
// table file.
const LEVEL0_FILES: u64 = 2;

const BYTES: u64 = 40;

fn options() -> Option<Options> {
    Options::default()
        .with_write_buffer(BYTES)?
        .with_file_bytes(BYTES)?
        .with_level0_files(LEVEL0_FILES)?
        .with_base_bytes(8 * BYTES)
}

fn begun<S: Store + Drop>(alloc: Global, store: S) -> Result<Db<S, Bytewise>, DbError> {
    let options = options().unwrap_or(Options::default());
    Ok(Db::open(alloc, store, options, Mode::Any, Ids::first())?)
}

// A key for each number, and the digit that it is written with.
fn key_of(number: u8) -> [u8; 2] {
    [number % 7, number]
}

fn put<S: Store>(alloc: Global, db: &mut Db<S, Bytewise>, number: u8) -> Result<Pace, DbError> {
    let mut batch = Batch::new(alloc);
    batch.put(&key_of(number), &[number; 9])?;
    db.write_and_work(alloc, &batch, false)
}

// Whether level 0 has no more tables than it may.
fn is_low<S: Store>(db: &Db<S, Bytewise>) -> bool {
    db.tables_in(0)
        .is_some_and(|count| count as u64 <= 3 * LEVEL0_FILES)
}

// The first of so many writes after which work hasn't kept up.
fn first_late<S: Store>(
    alloc: Global,
    db: &mut Db<S, Bytewise>,
    count: u8,
) -> Result<Option<u8>, DbError> {
    for number in 0..count {
        if put(alloc, db, number)? != Pace::KeepsUp || !is_low(db) {
            return Ok(Some(number));
        }
    }
    Ok(None)
}

// The first of these keys that has another value.
fn first_lost<S: Store>(
    alloc: Global,
    db: &mut Db<S, Bytewise>,
    count: u8,
) -> Result<Option<u8>, DbError> {
    for number in 0..count {
        match db.get(alloc, &key_of(number), None)? {
            Some(value) if value.as_slice() == [number; 9].as_slice() => {}
            _ => return Ok(Some(number)),
        }
    }
    Ok(None)
}

fn kept_up(alloc: Global, db: &mut Db<MemStore, Bytewise>) -> Result<bool, DbError> {
    let late = first_late(alloc, db, 200)?;
    let lost = first_lost(alloc, db, 200)?;
    let is_deep = db.tables_in(2).is_some_and(|count| count > 0);
    Ok(late.is_none() && lost.is_none() && is_deep && db.tables_in(7).is_none())
}

fn keeps_up(alloc: Global) -> Result<bool, DbError> {
    let mut db = begun(alloc, MemStore::new(alloc))?;
    let kept = kept_up(alloc, &mut db);
    let (_, _) = db.close();
    kept
}

#[test]
fn work_keeps_up_with_writes(rt: HostRuntime) -> Result<(), Fail> {
    assert!(rt; keeps_up(rt.alloc())?);
    Ok(())
}

// Writes until work is refused, and answers how many were written by then, or none if nothing is
// refused.
fn first_refused(alloc: Global, db: &mut Db<FaultStore, Bytewise>) -> Result<Option<u8>, DbError> {
    for number in 0..200 {
        match put(alloc, db, number) {
            Ok(Pace::KeepsUp) => {}
            Ok(Pace::Refused(DbError::Io)) => return Ok(Some(number + 1)),
            Ok(Pace::Refused(error)) => return Err(error),
            Err(error) => return Err(error),
        }
    }
    Ok(None)
}

// The call of this number fails, in a piece of work: what was written before it is there once the
// database is opened anew.
fn refused(alloc: Global, call: u64) -> Result<bool, DbError> {
    let fault = Fault::Fail(Extent::Part(0));
    let plan = Some(Plan { call, fault });
    let mut db = begun(alloc, FaultStore::new(MemStore::new(alloc), plan))?;
    let written = first_refused(alloc, &mut db);
    let (store, _) = db.close();
    let mut again = begun(alloc, store)?;
    let lost = written.map(|count| first_lost(alloc, &mut again, count.unwrap_or(0)));
    let (_, _) = again.close();
    Ok(written?.is_some() && lost??.is_none())
}

#[test]
fn a_refusal_of_work_is_told_behind_what_was_written(rt: HostRuntime) -> Result<(), Fail> {
    for call in [40, 60, 100] {
        assert!(rt; refused(rt.alloc(), call)?);
    }
    Ok(())
}
