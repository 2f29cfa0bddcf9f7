// How long each single write takes, with its share of the work after it: not in the mean, but the
// slowest of them.

use crate::entries::{Keys, Values};
use crate::folder::{counted, folder_fault, misuse, options};
use crate::{DONE, FAILED};
use batch::Batch;
use coding::DbError;
use engine::{Db, Ids, Mode, Progress};
use ikey::Bytewise;
use std::alloc::{AllocError, Global};
use std::io;
use std::time::{Clock, Instant};
use store::{FileStore, Store};

const WRITTEN: u64 = 1;

/// Tells the work that follows each write.
#[derive(Clone, Copy)]
enum Share {
    /// None, until all is written.
    Nothing,
    /// A piece of so many entries.
    Entries(u32),
    /// All that there is to do, whole compactions as well.
    All,
}

fn share_of(word: &str) -> Option<Share> {
    if word == "all" {
        return Some(Share::All);
    }
    match word.parse::<u32>() {
        Ok(0) => Some(Share::Nothing),
        Ok(entries) => Some(Share::Entries(entries)),
        Err(_) => None,
    }
}

// Why nothing was measured.
#[derive(Clone, Copy, Debug)]
enum Fault {
    Refused(DbError),
    Clock,
    Memory,
}

impl From<DbError> for Fault {
    fn from(error: DbError) -> Fault {
        Fault::Refused(error)
    }
}

impl From<io::Error> for Fault {
    fn from(_: io::Error) -> Fault {
        Fault::Clock
    }
}

impl From<AllocError> for Fault {
    fn from(_: AllocError) -> Fault {
        Fault::Memory
    }
}

/// Writes drawn keys into the database of a folder, each with its share of work, prints how long
/// the slowest took, and returns the exit status.
pub fn run(rt: &HostRuntime, share: &str, number: &str, path: &str) -> u8 {
    let Some(share) = share_of(share) else {
        return misuse(rt);
    };
    let Some(number) = counted(number) else {
        return misuse(rt);
    };
    let store = match FileStore::open(rt, path) {
        Ok(store) => store,
        Err(error) => return folder_fault(rt, path, error),
    };
    match measured(rt, rt.alloc(), store, share, number) {
        Ok(times) => report(rt, times.as_slice()),
        Err(fault) => {
            let _ = eprintln!(rt; "bench: latency: {fault:?}");
            FAILED
        }
    }
}

// The nanoseconds of each write, the shortest first.
fn measured<S: Store + Drop>(
    clock: &impl Clock,
    alloc: Global,
    store: S,
    share: Share,
    number: u64,
) -> Result<Vec<u64>, Fault> {
    let Some(options) = options() else {
        return Err(Fault::Refused(DbError::Io));
    };
    let mut db = match Db::open(alloc, store, options, Mode::Any, Ids::first()) {
        Ok(db) => db,
        Err(refused) => return Err(Fault::Refused(refused.error)),
    };
    let times = each_write(clock, alloc, &mut db, share, number);
    let (_, _) = db.close();
    let mut times = times?;
    times.sort_unstable();
    Ok(times)
}

fn each_write<S: Store>(
    clock: &impl Clock,
    alloc: Global,
    db: &mut Db<S, Bytewise>,
    share: Share,
    number: u64,
) -> Result<Vec<u64>, Fault> {
    let mut keys = Keys::drawn(WRITTEN, number);
    let mut values = Values::new(alloc)?;
    let mut times = Vec::new(alloc);
    for _ in 0..number {
        let mut batch = Batch::new(alloc);
        batch.put(keys.next_key(), values.next_value())?;
        let begun = Instant::now(clock)?;
        write(alloc, db, &batch, share)?;
        let taken = begun.elapsed(clock)?;
        if times
            .push(u64::try_from(taken.as_nanos()).unwrap_or(u64::MAX))
            .is_err()
        {
            return Err(Fault::Memory);
        }
    }
    Ok(times)
}

fn write<S: Store>(
    alloc: Global,
    db: &mut Db<S, Bytewise>,
    batch: &Batch,
    share: Share,
) -> Result<(), DbError> {
    db.write(alloc, batch, false)?;
    match share {
        Share::Nothing => Ok(()),
        Share::Entries(entries) => {
            db.work(alloc, entries)?;
            Ok(())
        }
        Share::All => {
            for _ in 0..u64::MAX {
                if db.work(alloc, u32::MAX)? == Progress::Idle {
                    break;
                }
            }
            Ok(())
        }
    }
}

// So many of a thousand are as fast as this, or faster; the last one is the slowest.
fn at(times: &[u64], thousandths: usize) -> u64 {
    let index = (times.len() / 1000).saturating_mul(thousandths);
    times.get(index).or(times.last()).copied().unwrap_or(0)
}

fn report<R: Print>(rt: &R, times: &[u64]) -> u8 {
    let (half, most, nearly, slowest) = (
        at(times, 500),
        at(times, 990),
        at(times, 999),
        at(times, 1000),
    );
    match println!(rt; "latency p50={half} p99={most} p99.9={nearly} slowest={slowest}") {
        Ok(()) => DONE,
        Err(_) => FAILED,
    }
}
