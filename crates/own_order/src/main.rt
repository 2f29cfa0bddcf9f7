//! A database in a custom order: numbers as keys, which a range has by their value.
#![tactic(auto)]

mod shorter_first;

use anyhow::{Result, anyhow};
use batch::Batch;
use engine::{Db, Ids, KeyRange, Mode, Options};
use ikey::Bytewise;
use shorter_first::ShorterFirst;
use std::alloc::{AllocGlobal, Global};
use std::str;
use store::MemStore;

type Database = Db<MemStore, ShorterFirst>;

const SQUARES: [(&[u8], &[u8]); 5] = [
    (b"10", b"100"),
    (b"9", b"81"),
    (b"100", b"10000"),
    (b"2", b"4"),
    (b"11", b"121"),
];

fn main(rt: HostRuntime) -> Result<()> {
    let alloc = rt.alloc();
    let options = Options::default();
    let mut db: Database = Db::open(
        alloc,
        MemStore::new(alloc),
        options,
        Mode::New,
        Ids::first(),
    )?;
    let shown = fill(alloc, &mut db).and_then(|()| show(&rt, &mut db));
    let (store, ids) = db.close();
    shown?;
    // under any other order the directory is refused, and the store comes back
    let other: Result<Db<MemStore, Bytewise>, _> = Db::open(
        alloc,
        store,
        options,
        Mode::Existing,
        ids,
    );
    match other {
        Ok(_) => Err(anyhow!("another order was taken")),
        Err(refused) => Ok(println!(rt; "{refused}")?),
    }
}

fn fill(alloc: Global, db: &mut Database) -> Result<()> {
    let mut batch = Batch::new(alloc);
    for (number, square) in &SQUARES {
        batch.put(number, square)?;
    }
    db.write(alloc, &batch, true)?;
    Ok(db.compact_all(alloc)?)
}

// Prints the squares of the numbers from 9 on, below 100.
fn show(rt: &HostRuntime, db: &mut Database) -> Result<()> {
    let keys = KeyRange::between(rt.alloc(), b"9", b"100")?;
    for (number, square) in &db.scan(rt.alloc(), keys, None, 100)? {
        let number = str::from_utf8(number.as_slice())?;
        println!(rt; "{number} {}", str::from_utf8(square.as_slice())?)?;
    }
    Ok(())
}
