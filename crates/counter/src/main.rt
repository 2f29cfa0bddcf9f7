//! An application over a database, and its own promise, proved. It counts the words that it is
//! given, and prints how often each was counted so far. The database has the counts of the words
//! that were counted without an error, and of no others: from the files that it finds to those that
//! it leaves (`running::count_over`).
#![tactic(auto)]

mod counts;
mod running;

use anyhow::{Result, anyhow};
use coding::{Bytes, DbError};
use counts::count_in;
use ikey::Bytewise;
use running::{Counted, count_over};
use std::alloc::{AllocGlobal, Global};
use std::{env, str};
use store::FileStore;

const MOST_SHOWN: usize = 1000;

fn main(rt: HostRuntime) -> Result<()> {
    let names = words(&rt)?;
    let store = FileStore::open(&rt, ".").map_err(|error| anyhow!("{error}"))?;
    let Counted {
        store: _,
        count: _,
        ended,
        pairs,
    } = count_over::<FileStore, Bytewise>(rt.alloc(), store, &names, MOST_SHOWN);
    let shown = show(&rt, pairs);
    ended?;
    shown
}

// The words that the program was given.
fn words(rt: &HostRuntime) -> Result<Vec<Bytes>> {
    let mut names = Vec::new(rt.alloc());
    for word in env::args(rt)?.skip(1) {
        names.push(Bytes::copied_from(rt.alloc(), word.as_bytes())?)?;
    }
    Ok(names)
}

fn show(rt: &HostRuntime, pairs: Result<Vec<(Bytes, Bytes)>, DbError>) -> Result<()> {
    for (name, value) in pairs? {
        let count = count_in(&Some(value)).unwrap_or(0);
        println!(rt; "{} {count}", str::from_utf8(name.as_slice())?)?;
    }
    Ok(())
}
