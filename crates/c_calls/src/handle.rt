// What C holds of a database: the database, and where its iterators stand.

ghost use Rattle.std.specs.Prelude.{◌≡◌, []};
ghost use Rattle.c_calls.specs.Calls.{GetServed, ReleaseServed, SnapshotServed, bytewise};
ghost use Rattle.engine.specs.StandsDb.{db_store_of};

use crate::codes::{snapshot_of, status};
use crate::room::{tell_id, tell_value};
use crate::standings::Standing;
use engine::Db;
use ikey::Bytewise;
use std::alloc::Global;
use store::{Store, Trouble};

/// An open database, and where its iterators stand.
#[derive(Drop)]
pub struct Handle<S> {
    pub db: Db<S, Bytewise>,
    pub iterators: Vec<Standing>,
}

impl<S: Store> Handle<S> {
    /// A handle without iterators.
    pub fn of(alloc: Global, db: Db<S, Bytewise>) -> Self
        ensures db { result.db ≡ db }
        ensures nowhere { result.iterators.items ≡ [] }
    {
        Handle {
            db,
            iterators: Vec::new(alloc),
        }
    }

    /// Copies the value of a key, as many bytes as have room, and tells its length.
    pub fn get(
        &mut self,
        alloc: Global,
        key: &[u8],
        snapshot: u64,
        room: &mut [u8],
        length: &mut usize,
    ) -> i32
        ensures { GetServed bytewise S.facts key.now snapshot room.old room.new length.new
            self.old.db self.new.db result }
    {
        let answer = self.db.get(alloc, key, snapshot_of(snapshot));
        tell_value(&answer, room, length)
    }

    /// Makes a snapshot and tells its id.
    pub fn snapshot(&mut self, id: &mut u64) -> i32
        ensures { SnapshotServed bytewise S.facts id.old id.new self.old.db self.new.db result }
    {
        let answer = self.db.snapshot();
        tell_id(&answer, id)
    }

    /// Releases a snapshot.
    pub fn release(&mut self, id: u64) -> i32
        ensures { ReleaseServed bytewise S.facts id self.old.db self.new.db result }
    {
        let answer = self.db.release(id);
        status(answer)
    }

    /// The note that the store took last.
    pub fn trouble(&self) -> Trouble
        ensures { result ≡ S.told (db_store_of self.now.db) }
    {
        self.db.trouble()
    }

    /// Closes the database, and hands its store back.
    pub fn close(self) -> S {
        let Handle { db, iterators: _ } = self;
        let (store, _ids) = db.close();
        store
    }
}
