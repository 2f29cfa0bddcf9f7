// Writes.

ghost use Rattle.std.specs.Prelude.{◌≡◌};
ghost use Rattle.c_calls.specs.Calls.{OneServed, PacedServed, PlainServed, WriteServed, bytewise, has_flag};
ghost use Rattle.batch.specs.declared.operation.Operation.TheVariants.{Put, Delete};
ghost use Rattle.c_calls.specs.Codes.{AddsTold};

use crate::codes::{SYNC, WORK, has, number_of, pace_status, status};
use crate::handle::Handle;
use batch::Batch;
use std::alloc::Global;
use store::Store;

/// Adds a put to a batch.
pub fn put_into(batch: &mut Batch, key: &[u8], value: &[u8]) -> i32
    ensures { AddsTold (Put key.now value.now) batch.old batch.new result }
{
    status(batch.put(key, value))
}

/// Adds a delete to a batch.
pub fn delete_into(batch: &mut Batch, key: &[u8]) -> i32
    ensures { AddsTold (Delete key.now) batch.old batch.new result }
{
    status(batch.delete(key))
}

impl<S: Store> Handle<S> {
    /// Writes a batch.
    pub fn write(&mut self, alloc: Global, batch: &Batch, flags: u32) -> i32
        ensures { WriteServed bytewise S.facts batch.now flags self.old.db self.new.db result }
    {
        let sync = has(flags, SYNC);
        if has(flags, WORK) {
            return self.write_and_work(alloc, batch, sync);
        }
        self.write_alone(alloc, batch, sync)
    }

    fn write_alone(&mut self, alloc: Global, batch: &Batch, sync: bool) -> i32
        ensures { PlainServed bytewise S.facts batch.now sync self.old.db self.new.db result }
    {
        let answer = self.db.write(alloc, batch, sync);
        status(answer)
    }

    fn write_and_work(&mut self, alloc: Global, batch: &Batch, sync: bool) -> i32
        ensures { PacedServed bytewise S.facts batch.now sync self.old.db self.new.db result }
    {
        let answer = self.db.write_and_work(alloc, batch, sync);
        pace_status(answer)
    }

    /// Writes one put.
    pub fn put(&mut self, alloc: Global, key: &[u8], value: &[u8], flags: u32) -> i32
        ensures { OneServed bytewise S.facts (Put key.now value.now) flags self.old.db self.new.db result }
    {
        let mut batch = Batch::new(alloc);
        match batch.put(key, value) {
            Ok(()) => self.write(alloc, &batch, flags),
            Err(error) => number_of(error),
        }
    }

    /// Writes one delete.
    pub fn delete(&mut self, alloc: Global, key: &[u8], flags: u32) -> i32
        ensures { OneServed bytewise S.facts (Delete key.now) flags self.old.db self.new.db result }
    {
        let mut batch = Batch::new(alloc);
        match batch.delete(key) {
            Ok(()) => self.write(alloc, &batch, flags),
            Err(error) => number_of(error),
        }
    }
}
