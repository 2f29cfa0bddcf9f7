//! Operations to their bytes.

ghost use Rattle.std.specs.Prelude.{◌≡◌, ◌<◌, ◌≤◌, ◌+◌, ◌^◌, ◌++◌, [], List, ℕ, None, All, IfOk, OnOk, IsOkUnless, length};
ghost use Rattle.batch.specs.Batch.{IsOperation, AreOperations, IsBatch, CanBeEncoded, encoded_length, first_refusal};
ghost use Rattle.batch.specs.declared.operation.Operation.{Operation as OperationValue};

use crate::limits::length_of;
use crate::operation::Operation;
use coding::{DbError, put_fixed32, put_fixed64, put_string};
use std::alloc::{AllocError, Global};

/// Encodes the batch of these operations, the first of which has this sequence number (LevelDB's
/// `WriteBatch::rep_`, its db/write_batch.cc). The room is taken once, before a byte is written. It
/// fails only out of memory.
pub fn encode_operations(
    alloc: Global,
    sequence: u64,
    operations: &[Operation],
) -> Result<Vec<u8>, DbError>
    requires first { sequence < 2 ^ 56 }
    requires last { sequence + length operations.now ≤ 2 ^ 56 }
    // The operations are within the limits, as `refusal` tells.
    requires fits { first_refusal [] operations.now ≡ None }
    ensures written { IfOk result (λ bytes. IsBatch bytes.items sequence operations.now) }
    ensures memory { IsOkUnless result DbError.OutOfMemory }
{
    let mut out = Vec::new(alloc);
    encode_operations_into(&mut out, sequence, operations)?;
    Ok(out)
}

/// Encodes the same into `out`, whose bytes are dropped and whose room is used again. Out of
/// memory: some other bytes are left.
pub fn encode_operations_into(
    out: &mut Vec<u8>,
    sequence: u64,
    operations: &[Operation],
) -> Result<(), DbError>
    requires first { sequence < 2 ^ 56 }
    requires last { sequence + length operations.now ≤ 2 ^ 56 }
    requires fits { first_refusal [] operations.now ≡ None }
    ensures written { OnOk result (IsBatch out.new.items sequence operations.now) }
    ensures memory { IsOkUnless result DbError.OutOfMemory }
{
    let size = length_of(operations)?;
    out.clear();
    out.reserve(size)?;
    put_batch(out, sequence, operations)?;
    Ok(())
}

/// Encodes a batch in a vector with room for `capacity` bytes from the start.
pub fn encoded(
    alloc: Global,
    capacity: usize,
    sequence: u64,
    operations: &[Operation],
) -> Result<Vec<u8>, AllocError>
    requires first { sequence < 2 ^ 56 }
    requires last { sequence + length operations.now ≤ 2 ^ 56 }
    requires count { length operations.now < 2 ^ 32 }
    requires strings { All CanBeEncoded operations.now }
    ensures { IfOk result (λ bytes. IsBatch bytes.items sequence operations.now) }
{
    let mut out = Vec::with_capacity(alloc, capacity)?;
    put_batch(&mut out, sequence, operations)?;
    Ok(out)
}

// Writes a batch into an empty vector, or a beginning of it if memory runs out.
fn put_batch(out: &mut Vec<u8>, sequence: u64, operations: &[Operation]) -> Result<(), AllocError>
    requires empty { out.old.items ≡ [] }
    requires first { sequence < 2 ^ 56 }
    requires last { sequence + length operations.now ≤ 2 ^ 56 }
    requires count { length operations.now < 2 ^ 32 }
    requires strings { All CanBeEncoded operations.now }
    ensures { OnOk result (IsBatch out.new.items sequence operations.now) }
{
    put_fixed64(out, sequence)?;
    put_fixed32(out, operations.len() as u32)?;
    put_operations(out, operations)
}

// Writes the operations at the end, or a beginning of them if memory runs out.
fn put_operations(out: &mut Vec<u8>, operations: &[Operation]) -> Result<(), AllocError>
    requires { All CanBeEncoded operations.now }
    ensures { OnOk result ((bytes : List ℕ) × AreOperations bytes operations.now × (out.new.items ≡ out.old.items ++ bytes)) }
{
    for operation in operations {
        put_operation(out, operation)?;
    }
    Ok(())
}

// A put is the byte 1, the key and the value; a delete is the byte 0 and the key.
fn put_operation(out: &mut Vec<u8>, operation: &Operation) -> Result<(), AllocError>
    requires { CanBeEncoded operation.now }
    ensures { OnOk result ((bytes : List ℕ) × IsOperation bytes operation.now × (out.new.items ≡ out.old.items ++ bytes)) }
{
    match operation {
        Operation::Put(key, value) => {
            out.push(1)?;
            put_string(out, key.as_slice())?;
            put_string(out, value.as_slice())
        }
        Operation::Delete(key) => {
            out.push(0)?;
            put_string(out, key.as_slice())
        }
    }
}

/// Proves that an encoding is as long as its operations make it; one of operations that aren't
/// refused is within the limits of a batch.
pub fn encoding_length()
    ensures length { (bytes : List ℕ) (sequence : ℕ) (operations : List OperationValue)
        → IsBatch bytes sequence operations → length bytes ≡ encoded_length operations }
    ensures limits { (operations : List OperationValue) → first_refusal [] operations ≡ None
        → (encoded_length operations ≤ 536870912) × (length operations ≤ 1048576) }
{}
