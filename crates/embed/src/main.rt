//! A program with its own database, in the folder that it is given or in the one that it runs in.
//! It opens the database, writes, reads a range now and at a snapshot, lets it work until nothing
//! is left to do, and closes it. Each error ends the program with its text.
#![tactic(auto)]

use anyhow::{Result, anyhow};
use batch::Batch;
use coding::Bytes;
use engine::{Db, Ids, KeyRange, Mode, Options};
use ikey::Bytewise;
use std::alloc::{AllocGlobal, Global};
use std::{env, str};
use store::FileStore;

type Database = Db<FileStore, Bytewise>;

// Of how many entries a piece of work is where nobody waits for it.
const PIECE: u32 = 100_000;

fn main(rt: HostRuntime) -> Result<()> {
    let folder = env::args(&rt)?.nth(1);
    let mut db = open(&rt, folder.as_ref().map_or(".", |path| path.as_str()))?;
    let served = serve(&rt, &mut db);
    db.close();
    served
}

fn open(rt: &HostRuntime, folder: &str) -> Result<Database> {
    let store = FileStore::open(rt, folder).map_err(|error| anyhow!("{folder}: {error}"))?;
    Ok(Db::open(
        rt.alloc(),
        store,
        Options::default(),
        Mode::Any,
        Ids::first(),
    )?)
}

fn serve(rt: &HostRuntime, db: &mut Database) -> Result<()> {
    let alloc = rt.alloc();
    let mut harvest = Batch::new(alloc);
    harvest.put(b"apple", b"red")?;
    harvest.put(b"lemon", b"yellow")?;
    harvest.put(b"plum", b"blue")?;
    db.write(alloc, &harvest, true)?; // on the disk before it returns
    let before = db.snapshot()?;
    let changed = change(alloc, db).and_then(|()| print(rt, db, Some(before)));
    let released = db.release(before); // also where the change was refused
    changed?; // what went wrong first is what is told
    released?;
    print(rt, db, None)?;
    Ok(db.settle(alloc, PIECE)?) // until there is no work left
}

fn change(alloc: Global, db: &mut Database) -> Result<()> {
    let mut batch = Batch::new(alloc);
    batch.put(b"apple", b"green")?;
    batch.delete(b"lemon")?;
    Ok(db.write(alloc, &batch, false)?)
}

// Prints what lies from `a` up to `m`, a pair a line.
fn print(rt: &HostRuntime, db: &mut Database, snapshot: Option<u64>) -> Result<()> {
    let keys = KeyRange::between(rt.alloc(), b"a", b"m")?;
    for (key, value) in &db.scan(rt.alloc(), keys, snapshot, 100)? {
        println!(rt; "{} {}", text(key)?, text(value)?)?;
    }
    Ok(())
}

fn text(bytes: &Bytes) -> Result<&str> {
    Ok(str::from_utf8(bytes.as_slice())?)
}
