// Where a refusal comes from, as sessions, databases and readers hand it on.
use super::blocks::LEVEL_ZERO;
use super::*;
use crate::watching::WatchedStore;
use coding::Bytes;
use engine::{Db, Ids, Mode};
use reader::{ReadOnly, Reader};
use std::num::NonZeroUsize;
use store::{ShortName, Trouble, Why};

// Level 0, of whose tables a byte of the data block is another one than was written.
fn damaged(alloc: Global) -> Option<WatchedStore> {
    let store = WatchedStore::new(directory(alloc, LEVEL_ZERO).ok()?);
    store.change(5, 0x33);
    Some(store)
}

fn by_session(alloc: Global) -> Option<Trouble> {
    let key = Bytes::copied_from(alloc, b"a").ok()?;
    let mut session: Session<WatchedStore, Bytewise> = Session::new(
        alloc,
        damaged(alloc)?,
        Options::default(),
    );
    let _ = session.apply(alloc, &Op::Open(Mode::Existing));
    let _ = session.apply(alloc, &Op::Get(key, None));
    Some(session.trouble())
}

fn by_database(alloc: Global) -> Option<Trouble> {
    let opened: Result<Db<WatchedStore, Bytewise>, _> = Db::open(
        alloc,
        damaged(alloc)?,
        Options::default(),
        Mode::Existing,
        Ids::first(),
    );
    let mut database = opened.ok()?;
    let _ = database.get(alloc, b"a", None);
    Some(database.trouble())
}

fn by_reader(alloc: Global) -> Option<Trouble> {
    let blocks = NonZeroUsize::new(4)?;
    let store = ReadOnly::over(damaged(alloc)?);
    let opened: Result<Reader<WatchedStore, Bytewise>, _> = Reader::open(alloc, store, blocks);
    let mut reader = opened.ok()?;
    let _ = reader.get(alloc, b"a");
    Some(reader.trouble())
}

// Whether it is the checksum of the data block of the table 5.
fn is_of_the_block(noted: Option<Trouble>) -> bool {
    match noted {
        Some(noted) => {
            noted.why == Why::BlockChecksum
                && noted.name == ShortName::of("000005.ldb")
                && noted.at == Some(0)
        }
        None => false,
    }
}

#[test]
fn the_block_that_is_damaged_is_named(rt: HostRuntime) {
    assert!(rt; is_of_the_block(by_session(rt.alloc())));
    assert!(rt; is_of_the_block(by_database(rt.alloc())));
    assert!(rt; is_of_the_block(by_reader(rt.alloc())));
}
