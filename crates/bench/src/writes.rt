// The workloads that write.

use crate::entries::{Keys, Values};
use crate::tally::Tally;
use batch::Batch;
use coding::DbError;
use engine::{Db, Pace, Progress};
use ikey::Bytewise;
use std::alloc::Global;
use store::Store;

// After how many writes a piece of work is done. LevelDB compacts on a thread of its own; here the
// writer does it. Seldom and much is cheaper than often and little: a tenth less than with half as
// much each 1,000 writes. For work lists the folder, and writes and merges evict each other's data
// from the processor's caches. Six entries for each one written keep level 0 at its limit, since an
// entry is merged a few times on its way down. With much less, a compaction takes long, and the
// memtable, which is only sealed between two, grows to several times its size.
const WRITES_A_PIECE: u64 = 2000;

const PIECE: u32 = 12_000;

// Of how many entries a piece is where nobody waits for it.
const LONG_PIECE: u32 = 1_000_000;

/// Counts the puts of a batch of `fillbatch`.
pub const BATCHED: u64 = 1000;

/// Writes entries, each for itself.
pub fn put_each<S: Store>(
    alloc: Global,
    db: &mut Db<S, Bytewise>,
    mut keys: Keys,
    count: u64,
    sync: bool,
) -> Result<Tally, DbError> {
    let mut values = Values::new(alloc)?;
    let mut tally = Tally::new();
    for i in 0..count {
        put(
            alloc,
            db,
            keys.next_key(),
            values.next_value(),
            sync,
            &mut tally,
        )?;
        work_after(alloc, db, i)?;
    }
    Ok(tally)
}

fn put<S: Store>(
    alloc: Global,
    db: &mut Db<S, Bytewise>,
    key: &[u8],
    value: &[u8],
    sync: bool,
    tally: &mut Tally,
) -> Result<(), DbError> {
    let mut batch = Batch::new(alloc);
    batch.put(key, value)?;
    tally.count(key, value);
    db.write(alloc, &batch, sync)
}

/// Writes entries, `BATCHED` in a batch; what is left of the count is none.
pub fn put_batches<S: Store>(
    alloc: Global,
    db: &mut Db<S, Bytewise>,
    mut keys: Keys,
    count: u64,
) -> Result<Tally, DbError> {
    let mut values = Values::new(alloc)?;
    let mut tally = Tally::new();
    for i in 0..count / BATCHED {
        let batch = filled_batch(alloc, &mut keys, &mut values, &mut tally)?;
        db.write(alloc, &batch, false)?;
        let last = i.saturating_mul(BATCHED).saturating_add(BATCHED - 1);
        work_after(alloc, db, last)?;
    }
    Ok(tally)
}

fn filled_batch(
    alloc: Global,
    keys: &mut Keys,
    values: &mut Values,
    tally: &mut Tally,
) -> Result<Batch, DbError> {
    let mut batch = Batch::new(alloc);
    for _ in 0..BATCHED {
        let key = keys.next_key();
        let value = values.next_value();
        batch.put(key, value)?;
        tally.count(key, value);
    }
    Ok(batch)
}

/// Deletes keys, each for itself.
pub fn delete_each<S: Store>(
    alloc: Global,
    db: &mut Db<S, Bytewise>,
    mut keys: Keys,
    count: u64,
) -> Result<Tally, DbError> {
    let mut tally = Tally::new();
    for i in 0..count {
        delete(alloc, db, keys.next_key(), &mut tally)?;
        work_after(alloc, db, i)?;
    }
    Ok(tally)
}

fn delete<S: Store>(
    alloc: Global,
    db: &mut Db<S, Bytewise>,
    key: &[u8],
    tally: &mut Tally,
) -> Result<(), DbError> {
    let mut batch = Batch::new(alloc);
    batch.delete(key)?;
    tally.count(key, &[]);
    db.write(alloc, &batch, false)
}

/// Writes entries, and reads each key at a snapshot from before its write.
pub fn put_and_look_back<S: Store>(
    alloc: Global,
    db: &mut Db<S, Bytewise>,
    mut keys: Keys,
    count: u64,
) -> Result<Tally, DbError> {
    let mut values = Values::new(alloc)?;
    let mut written = Tally::new();
    let mut found = Tally::new();
    for i in 0..count {
        let key = keys.next_key();
        let id = db.snapshot()?;
        put(alloc, db, key, values.next_value(), false, &mut written)?;
        if let Some(value) = db.get(alloc, key, Some(id))? {
            found.count(key, value.as_slice());
        }
        db.release(id)?;
        work_after(alloc, db, i)?;
    }
    Ok(found)
}

// Does a piece of work if one is due after the write of this index, and writes a memtable that it
// has sealed.
fn work_after<S: Store>(alloc: Global, db: &mut Db<S, Bytewise>, i: u64) -> Result<(), DbError> {
    if i % WRITES_A_PIECE == WRITES_A_PIECE - 1 {
        if let Pace::Refused(error) = db.keep_up(alloc, PIECE) {
            return Err(error);
        }
    }
    Ok(())
}

/// Compacts everything into the last level, and works until there is no more to do.
pub fn settle<S: Store>(alloc: Global, db: &mut Db<S, Bytewise>) -> Result<Tally, DbError> {
    db.compact_all(alloc)?;
    for _ in 0..u64::MAX {
        if db.work(alloc, LONG_PIECE)? == Progress::Idle {
            break;
        }
    }
    Ok(Tally::new())
}
