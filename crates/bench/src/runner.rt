// One workload over the database of a store.

use crate::entries::Keys;
use crate::gets::{get_each, get_missing, get_near};
use crate::tally::Tally;
use crate::walks::{seek_each, walk_backwards, walk_forwards};
use crate::workload::Workload;
use crate::writes::{delete_each, put_and_look_back, put_batches, put_each, settle};
use coding::DbError;
use engine::{Db, Ids, Mode, OpenError, Options};
use ikey::Bytewise;
use std::alloc::Global;
use store::Store;

// The seeds of keys that are drawn to be written, to be written again and to be read.
const WRITTEN: u64 = 1;

const REWRITTEN: u64 = 2;

const READ: u64 = 3;

const SYNCED_WRITES: u64 = 1000;

/// Opens the database of a store, or makes one, and runs a workload of `number` operations over it.
/// Returns the store with the database closed, also if the workload failed.
pub fn run_over<S: Store>(
    alloc: Global,
    store: S,
    options: Options,
    workload: Workload,
    number: u64,
) -> (Result<Tally, DbError>, S) {
    match Db::open(alloc, store, options, Mode::Any, Ids::first()) {
        Err(OpenError { error, store }) => (Err(error), store),
        Ok(mut db) => {
            let tally = run_in(alloc, &mut db, workload, number);
            let (store, _) = db.close();
            (tally, store)
        }
    }
}

fn run_in<S: Store>(
    alloc: Global,
    db: &mut Db<S, Bytewise>,
    workload: Workload,
    number: u64,
) -> Result<Tally, DbError> {
    match workload {
        Workload::FillSeq => put_each(alloc, db, Keys::rising(), number, false),
        Workload::FillRandom => put_each(alloc, db, Keys::drawn(WRITTEN, number), number, false),
        Workload::Overwrite => put_each(alloc, db, Keys::drawn(REWRITTEN, number), number, false),
        Workload::FillSync => {
            put_each(alloc, db, Keys::drawn(WRITTEN, number), SYNCED_WRITES, true)
        }
        Workload::FillBatch => put_batches(alloc, db, Keys::rising(), number),
        Workload::ReadRandom => get_each(alloc, db, Keys::drawn(READ, number), number),
        Workload::ReadMissing => get_missing(alloc, db, Keys::drawn(READ, number), number),
        Workload::ReadNear => get_near(alloc, db, Keys::drawn(READ, number), number),
        Workload::ReadHot => get_each(alloc, db, Keys::drawn(READ, number / 100), number),
        Workload::ReadSeq => walk_forwards(alloc, db),
        Workload::ReadReverse => walk_backwards(alloc, db),
        Workload::SeekRandom => seek_each(alloc, db, Keys::drawn(READ, number), number / 10),
        Workload::SnapshotReads => {
            put_and_look_back(alloc, db, Keys::drawn(REWRITTEN, number), number)
        }
        Workload::DeleteRandom => delete_each(alloc, db, Keys::drawn(REWRITTEN, number), number),
        Workload::Settle => settle(alloc, db),
        Workload::Open => Ok(Tally::new()),
    }
}
