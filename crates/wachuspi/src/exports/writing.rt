// Writing.

ghost use Rattle.std.specs.Prelude.{◌≡◌, None, []};
ghost use Rattle.batch.specs.declared.operation.Operation.TheVariants.{Put, Delete};
ghost use Rattle.c_calls.specs.Codes.{AddsTold};
ghost use Rattle.c_calls.specs.Calls.{OneServed, WriteServed, bytewise};
ghost use Rattle.wachuspi.specs.Handles.{Served, folder_facts, operations_in};

use crate::batches::CBatch;
use crate::databases::Database;
use batch::Batch;
use c_calls::{CLOSED, delete_into, number_of, put_into, status};
use std::alloc::Global;

/// Writes one put.
#[unsafe(no_mangle)]
pub extern "C" fn wch_put(
    alloc: Global,
    db: &mut Database,
    key: &[u8],
    value: &[u8],
    flags: u32,
) -> i32
    ensures served { Served (λ old new code.
        OneServed bytewise folder_facts (Put key.now value.now) flags old.handle.db new.handle.db code)
        db.old.slot.held db.new.slot.held result }
{
    let Some(mut held) = db.take(alloc) else {
        return CLOSED;
    };
    let code = held.handle.put(alloc, key, value, flags);
    db.put(held);
    code
}

/// Writes one delete.
#[unsafe(no_mangle)]
pub extern "C" fn wch_delete(alloc: Global, db: &mut Database, key: &[u8], flags: u32) -> i32
    ensures served { Served (λ old new code.
        OneServed bytewise folder_facts (Delete key.now) flags old.handle.db new.handle.db code)
        db.old.slot.held db.new.slot.held result }
{
    let Some(mut held) = db.take(alloc) else {
        return CLOSED;
    };
    let code = held.handle.delete(alloc, key, flags);
    db.put(held);
    code
}

/// Adds a put to a batch.
#[unsafe(no_mangle)]
pub extern "C" fn wch_batch_put(alloc: Global, batch: &mut CBatch, key: &[u8], value: &[u8]) -> i32
    ensures { AddsTold (Put key.now value.now) (operations_in batch.old.slot.held)
        (operations_in batch.new.slot.held) result }
{
    let Some(mut held) = batch.take(alloc) else {
        return begin_put(alloc, batch, key, value);
    };
    let code = put_into(&mut held, key, value);
    batch.put(held);
    code
}

// Begins a batch with a put.
fn begin_put(alloc: Global, batch: &mut CBatch, key: &[u8], value: &[u8]) -> i32
    requires { batch.old.slot.held ≡ None }
    ensures { AddsTold (Put key.now value.now) [] (operations_in batch.new.slot.held) result }
{
    let mut made = Batch::new(alloc);
    match made.put(key, value) {
        Ok(()) => status(batch.fill(alloc, made)),
        Err(error) => number_of(error),
    }
}

/// Adds a delete to a batch.
#[unsafe(no_mangle)]
pub extern "C" fn wch_batch_delete(alloc: Global, batch: &mut CBatch, key: &[u8]) -> i32
    ensures { AddsTold (Delete key.now) (operations_in batch.old.slot.held) (operations_in batch.new.slot.held) result }
{
    let Some(mut held) = batch.take(alloc) else {
        return begin_delete(alloc, batch, key);
    };
    let code = delete_into(&mut held, key);
    batch.put(held);
    code
}

// Begins a batch with a delete.
fn begin_delete(alloc: Global, batch: &mut CBatch, key: &[u8]) -> i32
    requires { batch.old.slot.held ≡ None }
    ensures { AddsTold (Delete key.now) [] (operations_in batch.new.slot.held) result }
{
    let mut made = Batch::new(alloc);
    match made.delete(key) {
        Ok(()) => status(batch.fill(alloc, made)),
        Err(error) => number_of(error),
    }
}

/// Empties a batch and frees its memory.
#[unsafe(no_mangle)]
pub extern "C" fn wch_batch_free(alloc: Global, batch: &mut CBatch)
    ensures { operations_in batch.new.slot.held ≡ [] }
{
    let _freed = batch.take(alloc);
}

/// Writes a batch, which stays as it is.
#[unsafe(no_mangle)]
pub extern "C" fn wch_write(alloc: Global, db: &mut Database, batch: &mut CBatch, flags: u32) -> i32
    ensures served { Served (λ old new code.
        WriteServed bytewise folder_facts (operations_in batch.old.slot.held) flags old.handle.db new.handle.db code)
        db.old.slot.held db.new.slot.held result }
    ensures batch { operations_in batch.new.slot.held ≡ operations_in batch.old.slot.held }
{
    let Some(mut held) = db.take(alloc) else {
        return CLOSED;
    };
    let code = match batch.take(alloc) {
        Some(operations) => {
            let code = held.handle.write(alloc, &operations, flags);
            batch.put(operations);
            code
        }
        None => held.handle.write(alloc, &Batch::new(alloc), flags),
    };
    db.put(held);
    code
}
