// The workloads that walk over entries.

use crate::entries::Keys;
use crate::tally::Tally;
use coding::{Bytes, DbError};
use engine::Db;
use ikey::Bytewise;
use std::alloc::Global;
use store::Store;

const STEPS_A_SEEK: u64 = 10;

/// Walks over all entries forwards.
pub fn walk_forwards<S: Store>(alloc: Global, db: &mut Db<S, Bytewise>) -> Result<Tally, DbError> {
    let mut tally = Tally::new();
    let id = db.iter(alloc, None)?;
    let mut there = counted(db.iter_first(alloc, id)?, &mut tally);
    for _ in 0..u64::MAX {
        if !there {
            break;
        }
        there = counted(db.iter_next(alloc, id)?, &mut tally);
    }
    db.iter_release(id)?;
    Ok(tally)
}

/// Walks over all entries backwards.
pub fn walk_backwards<S: Store>(alloc: Global, db: &mut Db<S, Bytewise>) -> Result<Tally, DbError> {
    let mut tally = Tally::new();
    let id = db.iter(alloc, None)?;
    let mut there = counted(db.iter_last(alloc, id)?, &mut tally);
    for _ in 0..u64::MAX {
        if !there {
            break;
        }
        there = counted(db.iter_prev(alloc, id)?, &mut tally);
    }
    db.iter_release(id)?;
    Ok(tally)
}

/// Seeks keys, each by an iterator of its own, and goes some steps on.
pub fn seek_each<S: Store>(
    alloc: Global,
    db: &mut Db<S, Bytewise>,
    mut keys: Keys,
    count: u64,
) -> Result<Tally, DbError> {
    let mut tally = Tally::new();
    for _ in 0..count {
        seek(alloc, db, keys.next_key(), &mut tally)?;
    }
    Ok(tally)
}

fn seek<S: Store>(
    alloc: Global,
    db: &mut Db<S, Bytewise>,
    key: &[u8],
    tally: &mut Tally,
) -> Result<(), DbError> {
    let id = db.iter(alloc, None)?;
    if counted(db.iter_seek(alloc, id, key)?, tally) {
        step_on(alloc, db, id, tally)?;
    }
    db.iter_release(id)
}

fn step_on<S: Store>(
    alloc: Global,
    db: &mut Db<S, Bytewise>,
    id: u64,
    tally: &mut Tally,
) -> Result<(), DbError> {
    for _ in 0..STEPS_A_SEEK {
        if !counted(db.iter_next(alloc, id)?, tally) {
            break;
        }
    }
    Ok(())
}

// Counts a pair, if there is one, and answers whether there is.
fn counted(pair: Option<(Bytes, Bytes)>, tally: &mut Tally) -> bool {
    match pair {
        None => false,
        Some((key, value)) => {
            tally.count(key.as_slice(), value.as_slice());
            true
        }
    }
}
