//! Whether a database tells that its store failed, whichever call of it did.
use crate::watching::WatchedStore;
use batch::Batch;
use coding::DbError;
use engine::{Db, Ids, Mode, Options, Progress};
use ikey::Bytewise;
use std::alloc::{AllocGlobal, Global};
use std::test::Fail;
use store::{MemStore, Store};

const FIRST: Ids = Ids {
    snapshot: 0,
    iterator: 0,
};

// A memtable is sealed by its first entry.
fn options() -> Option<Options> {
    Options::new(1, 4_096, 2_097_152, 4, 10_485_760, 1_024)
}

// Writes a pair and works until there is nothing left to do.
fn serve<S: Store>(alloc: Global, database: &mut Db<S, Bytewise>) -> Result<(), DbError> {
    let mut batch = Batch::new(alloc);
    batch.put(b"a", b"1")?;
    database.write(alloc, &batch, false)?;
    for _ in 0..9 {
        if database.work(alloc, 9)? == Progress::Idle {
            break;
        }
    }
    Ok(())
}

// A database over a store whose call of this number is refused.
fn opened(alloc: Global, refused: u64) -> Option<Db<WatchedStore, Bytewise>> {
    let store = WatchedStore::refusing(MemStore::new(alloc), refused);
    Db::open(alloc, store, options()?, Mode::New, FIRST).ok()
}

// What such a database comes to: whether the store failed, whether the database tells so, and
// whether all was answered as if it hadn't. None where it couldn't be opened.
fn told(alloc: Global, refused: u64) -> Option<(bool, bool, bool)> {
    let mut database = opened(alloc, refused)?;
    let served = serve(alloc, &mut database).is_ok();
    let had_fault = database.had_fault();
    let (store, _) = database.close();
    Some((store.failures() > 0, had_fault, served))
}

// Some failures are answered by nothing else: those of a removal.
#[test]
fn each_failure_of_the_store_is_told(rt: HostRuntime) {
    let mut is_unseen = false;
    for refused in 0..60 {
        if let Some((failed, had_fault, served)) = told(rt.alloc(), refused) {
            assert_eq!(rt; had_fault, failed, "call {refused}");
            is_unseen |= failed && served;
        }
    }
    assert!(rt; is_unseen);
}
