// Iterators.

ghost use Rattle.std.specs.Prelude.{◌≡◌, Some};
ghost use Rattle.c_calls.specs.Calls.{DropServed, IterServed, KeepsPair, MoveDone, MoveServed, bytewise};
ghost use Rattle.c_calls.specs.Motions.{going};
ghost use Rattle.c_calls.specs.Standings.{moved_to, pair_of, without};
ghost use Rattle.c_calls.specs.Told.{StandingTold};

use crate::codes::{NOT_FOUND, number_of, snapshot_of, status};
use crate::handle::Handle;
use crate::room::{Pair, copy_pair, tell_id, tell_pair};
use crate::standings::{Standing, find, forget, keep};
use coding::{Bytes, DbError};
use std::alloc::Global;
use store::Store;

/// Where an iterator is to go.
#[derive(Clone, Copy)]
pub enum Motion<'a> {
    First,
    Last,
    Seek(&'a [u8]),
    Next,
    Prev,
}

impl<S: Store> Handle<S> {
    /// Makes an iterator over now (0) or a snapshot, and tells its id.
    pub fn iter_new(&mut self, alloc: Global, snapshot: u64, id: &mut u64) -> i32
        ensures { IterServed bytewise S.facts snapshot id.old id.new self.old.db self.new.db result }
    {
        if self.iterators.reserve(1).is_err() {
            return number_of(DbError::OutOfMemory);
        }
        let answer = self.db.iter(alloc, snapshot_of(snapshot));
        let code = tell_id(&answer, id);
        let Ok(made) = answer else {
            return code;
        };
        let standing = Standing {
            id: made,
            pair: None,
        };
        self.iterators.push(standing).unwrap();
        code
    }

    /// Releases an iterator.
    pub fn iter_free(&mut self, id: u64) -> i32
        ensures { DropServed bytewise S.facts id self.old.db self.new.db result }
    {
        self.forget(id);
        let answer = self.db.iter_release(id);
        status(answer)
    }

    // Forgets where an iterator stands.
    fn forget(&mut self, id: u64)
        ensures db { self.new.db ≡ self.old.db }
        ensures gone { self.new.iterators.items ≡ without id self.old.iterators.items }
    {
        forget(&mut self.iterators, id);
    }

    /// Moves an iterator, and copies the pair to which it came.
    pub fn go(
        &mut self,
        alloc: Global,
        id: u64,
        motion: Motion,
        room: &mut [u8],
        pair: &mut Pair,
    ) -> i32
        ensures { MoveServed bytewise S.facts id (going motion.entry) room.old room.new pair.new
            self.old self.new result }
    {
        let answer = self.moved(alloc, id, motion);
        let code = tell_pair(&answer, room, pair);
        self.keep_found(id, answer);
        code
    }

    pub(crate) fn moved(
        &mut self,
        alloc: Global,
        id: u64,
        motion: Motion,
    ) -> Result<Option<(Bytes, Bytes)>, DbError>
        ensures done { MoveDone bytewise S.facts id (going motion.entry) self.old.db self.new.db result }
        ensures still { self.new.iterators ≡ self.old.iterators }
    {
        match motion {
            Motion::First => self.db.iter_first(alloc, id),
            Motion::Last => self.db.iter_last(alloc, id),
            Motion::Seek(key) => self.db.iter_seek(alloc, id, key),
            Motion::Next => self.db.iter_next(alloc, id),
            Motion::Prev => self.db.iter_prev(alloc, id),
        }
    }

    // Keeps the pair to which an iterator came, if its move succeeded.
    fn keep_found(&mut self, id: u64, answer: Result<Option<(Bytes, Bytes)>, DbError>)
        ensures db { self.new.db ≡ self.old.db }
        ensures kept { KeepsPair id answer self.old.iterators.items self.new.iterators.items }
    {
        if let Ok(found) = answer {
            self.keep(id, found);
        }
    }

    // Keeps the pair to which an iterator came.
    pub(crate) fn keep(&mut self, id: u64, found: Option<(Bytes, Bytes)>)
        ensures db { self.new.db ≡ self.old.db }
        ensures kept { self.new.iterators.items ≡ moved_to id found self.old.iterators.items }
    {
        keep(&mut self.iterators, id, found);
    }

    /// Copies the pair on which an iterator stands.
    pub fn iter_pair(&self, id: u64, room: &mut [u8], pair: &mut Pair) -> i32
        ensures { StandingTold (pair_of id self.now.iterators.items) room.old room.new pair.new result }
    {
        *pair = Pair::none();
        match find(self.iterators.as_slice(), id) {
            None => number_of(DbError::NoIterator),
            Some(standing) => tell_standing(&standing.pair, room, pair),
        }
    }
}

// Tells where an iterator stands.
fn tell_standing(found: &Option<(Bytes, Bytes)>, room: &mut [u8], pair: &mut Pair) -> i32
    requires { (pair.old.key_length ≡ 0) × (pair.old.value_length ≡ 0) }
    ensures { StandingTold (Some found.now) room.old room.new pair.new result }
{
    match found {
        None => NOT_FOUND,
        Some((key, value)) => {
            copy_pair(key, value, room, pair);
            0
        }
    }
}
