// One workload over a folder, as the command line names it.

use crate::runner::run_over;
use crate::tally::Tally;
use crate::workload::{Workload, named};
use crate::{DONE, FAILED, MISUSED};
use coding::DbError;
use engine::Options;
use store::{FileStore, StoreError};

/// Runs the workload of a name over the folder at a path, prints its line, and answers the exit
/// status.
pub fn run(rt: &HostRuntime, name: &str, number: &str, path: &str) -> u8 {
    let Some(workload) = named(name) else {
        return misuse(rt);
    };
    let Some(number) = counted(number) else {
        return misuse(rt);
    };
    let Some(options) = options() else {
        return FAILED;
    };
    let store = match FileStore::open(rt, path) {
        Ok(store) => store,
        Err(error) => return folder_fault(rt, path, error),
    };
    let (outcome, _) = run_over(rt.alloc(), store, options, workload, number);
    report(rt, name, number, outcome)
}

/// Reads a number of operations, which is at least 1.
pub fn counted(text: &str) -> Option<u64> {
    match text.parse::<u64>() {
        Ok(0) => None,
        Ok(number) => Some(number),
        Err(_) => None,
    }
}

// From how many tables of level 0 on they are merged. LevelDB begins to with 4, and comes to it
// when it has 8 in most cases, since its thread is busy: `bench/run` prints how many it merged.
// Here nothing waits, so that 8 is what makes both merge as many at once.
const LEVEL0_FILES: u64 = 8;

/// Returns the sizes of LevelDB's db_bench, with a cache of 8 MB.
pub fn options() -> Option<Options> {
    Options::new(4_194_304, 4096, 2_097_152, LEVEL0_FILES, 10_485_760, 2048)
}

/// Prints the line of a workload, or says why it failed, and answers the exit status.
pub fn report<R: Print + Eprint>(
    rt: &R,
    name: &str,
    number: u64,
    outcome: Result<Tally, DbError>,
) -> u8 {
    match outcome {
        Ok(tally) => {
            let entries = tally.entries;
            let sum = tally.sum;
            match println!(rt; "{name} {number} entries={entries} sum={sum}") {
                Ok(()) => DONE,
                Err(_) => FAILED,
            }
        }
        Err(error) => {
            let _ = eprintln!(rt; "bench: {name}: {error}");
            FAILED
        }
    }
}

/// Says what the words of the command line may be, and answers the exit status.
pub fn misuse<R: Eprint>(rt: &R) -> u8 {
    let _ = eprintln!(rt;
        "usage: bench WORKLOAD N DIR or bench latency SHARE N DIR, N from 1 on; with no argument each workload runs in memory"
    );
    MISUSED
}

/// Says why a folder wasn't opened, and answers the exit status.
pub fn folder_fault<R: Eprint>(rt: &R, path: &str, error: StoreError) -> u8 {
    let why = match error {
        StoreError::Missing => "there is no such folder",
        StoreError::Device => "it isn't a folder, or this user may not open it",
        StoreError::Memory => "out of memory",
    };
    let _ = eprintln!(rt; "bench: {path}: {why}");
    FAILED
}
