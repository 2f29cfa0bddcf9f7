// Counting over a store, from its files to its files.

ghost use Rattle.std.specs.Prelude.{◌≡◌, OnOk, length};
ghost use Rattle.ikey.specs.Orders.{order_of};
ghost use Rattle.engine.specs.Follows.{Leads};
ghost use Rattle.engine.specs.StandsDb.{StandsDb, db_store_of};
ghost use Rattle.counter.specs.Counts.{CountsAndCloses, CountsOver, StandsShut};

use crate::counts::{CountError, count_each};
use coding::{Bytes, DbError};
use engine::{Db, Ids, KeyRange, Mode, OpenError, Options, from_files, there_is_a_first, to_files};
use ikey::KeyOrder;
use std::alloc::Global;
use store::Store;

/// Holds what came of it: the store, how many names were counted and why it ended, and pairs of the
/// database after that.
#[derive(Drop)]
pub struct Counted<S> {
    pub store: S,
    pub count: usize,
    pub ended: Result<(), CountError>,
    pub pairs: Result<Vec<(Bytes, Bytes)>, DbError>,
}

/// Opens the database of a store, counts each of these names in their order until one fails, reads
/// its first pairs, at most so many, and closes it. From files that hold the counts of some names
/// it leads to files that hold these, too, as far as they were counted.
pub fn count_over<S: Store, K: KeyOrder>(
    alloc: Global,
    store: S,
    names: &[Bytes],
    most: usize,
) -> Counted<S>
    ensures counted { CountsOver (order_of K.name K.cmp) (S.facts store) (S.facts result.store) names.now result.count }
    ensures all { OnOk result.ended (result.count ≡ length names.now) }
{
    // Laws, for the proof alone.
    there_is_a_first();
    from_files();
    to_files();
    match Db::<S, K>::open(alloc, store, Options::default(), Mode::Any, Ids::first()) {
        Ok(db) => count_and_close(alloc, db, names, most),
        Err(refused) => {
            let OpenError { error, store } = refused;
            Counted {
                store,
                count: 0,
                ended: Err(CountError::Refused(error)),
                pairs: Ok(Vec::new(alloc)),
            }
        }
    }
}

fn count_and_close<S: Store, K: KeyOrder>(
    alloc: Global,
    db: Db<S, K>,
    names: &[Bytes],
    most: usize,
) -> Counted<S>
    ensures step { Leads (S.facts (db_store_of db)) (S.facts result.store) (StandsDb (order_of K.name K.cmp) S.facts db)
        (StandsShut (order_of K.name K.cmp) (S.facts result.store)) (CountsAndCloses names.now result.count) }
    ensures all { OnOk result.ended (result.count ≡ length names.now) }
{
    let mut open = db;
    let (count, ended) = count_each(alloc, &mut open, names);
    let pairs = open.scan(alloc, KeyRange::all(), None, most);
    let (store, _) = open.close();
    Counted {
        store,
        count,
        ended,
        pairs,
    }
}
