//! The benchmark beside LevelDB: one workload over the database of a folder, which must exist.
//! `bench/leveldb_twin.cc` does the same over LevelDB, and `bench/run` compares both. At its end it
//! prints one line: the workload, N, how many entries were written or found, and a sum over their
//! bytes.
//!
//! `bench latency SHARE N DIR` writes N drawn keys and prints how long the slowest writes took, in
//! nanoseconds. Each has its share of work: none for 0, so many entries, or all that there is
//! (`all`). With no argument it runs each workload over files in memory, a few entries each.
#![tactic(auto)]

mod entries;
mod folder;
mod gets;
mod latency;
mod runner;
mod sample;
mod tally;
mod walks;
mod workload;
mod writes;

use std::alloc::AllocGlobal;
use std::process::ExitCode;
use std::rt::Env;
use std::{env, io};

const DONE: u8 = 0;

const FAILED: u8 = 1;

const MISUSED: u8 = 2;

fn main(rt: HostRuntime) -> ExitCode {
    let Ok(words) = arguments(&rt) else {
        return ExitCode::from(FAILED);
    };
    ExitCode::from(match words.as_slice() {
        [] => sample::run(&rt),
        [name, number, path] => folder::run(&rt, name.as_str(), number.as_str(), path.as_str()),
        [name, share, number, path] if name.as_str() == "latency" => {
            latency::run(&rt, share.as_str(), number.as_str(), path.as_str())
        }
        _ => folder::misuse(&rt),
    })
}

// The words after the program's own name.
fn arguments(rt: &(impl Env + AllocGlobal)) -> io::Result<Vec<String>> {
    let mut words = env::args(rt)?;
    words.next();
    Ok(words.collect(rt.alloc())?)
}
