//! A batch of operations.

ghost use Rattle.std.specs.Prelude.{◌≡◌, List, ℕ};
ghost use Rattle.batch.specs.Batch.{IsBatch};
ghost use Rattle.batch.specs.declared.operation.Operation.{Operation as OperationValue};

use crate::limits::{HEADER_LENGTH, length_with_delete, length_with_put};
use crate::operation::Operation;
use crate::reading::{header_of, operations_of};
use crate::writing::encoded;
use coding::{Bytes, Damage, DbError, ReadError, SEQUENCE_END};
use std::alloc::Global;
use std::marker::Model;

/// Holds operations that are applied together, in order; contracts see the list of them. A batch
/// that `new`, `put` and `delete` made is within the limits of `refusal`; one that was decoded may
/// pass them.
#[derive(Debug, Drop)]
pub struct Batch {
    operations: Vec<Operation>,
    // how many bytes the batch takes
    length: usize,
    alloc: Global,
}

impl Model for Batch {
    ghost use Rattle.std.specs.Prelude.{List};
    ghost use Rattle.batch.specs.declared.operation.Operation.{Operation};

    ghost Value = { List Operation };

    ghost use Rattle.batch.specs.Batch.{IsMade};

    ghost view = { λ b. b.operations.items };

    ghost invariant = { λ b. IsMade b.operations.items b.length };
}

impl Batch {
    ghost use Rattle.std.specs.Prelude.{◌≡◌, ◌<◌, ◌≤◌, ◌+◌, ◌^◌, List, [], ◌∷◌, ◌++◌, ℕ, length, IfOk, IfErr, OnOk, OnErr, IsOkUnless, MatchOption};
    ghost use Rattle.coding.specs.Errors.{RefusesOnly};
    ghost use Rattle.batch.specs.Batch.{IsBatch, CanBeEncoded, operation_length, encoded_length, refusal_of};
    ghost use Rattle.batch.specs.declared.operation.Operation.{Operation as OperationValue};

    /// Makes a batch of no operations. The batch keeps `alloc` for what is added later.
    pub fn new(alloc: Global) -> Self
        ensures { result ≡ [] }
    {
        Batch {
            operations: Vec::new(alloc),
            length: HEADER_LENGTH,
            alloc,
        }
    }

    /// Adds a put, with copies of key and value. An `Err` changes nothing: `KeyTooLong`,
    /// `ValueTooLong` and `BatchTooLarge` in this order, all found before anything is copied, then
    /// `OutOfMemory`.
    pub fn put(&mut self, key: &[u8], value: &[u8]) -> Result<(), DbError>
        ensures ok { OnOk result (self.new ≡ self.old ++ Operation.Put key.now value.now ∷ []) }
        ensures err { OnErr result (self.new ≡ self.old) }
        ensures refused { MatchOption (refusal_of self.old (Operation.Put key.now value.now)) (IsOkUnless result DbError.OutOfMemory) (λ e. result ≡ Err e) }
    {
        let length = length_with_put(self.length, self.operations.len(), key, value)?;
        let key = Bytes::copied_from(self.alloc, key)?;
        let value = Bytes::copied_from(self.alloc, value)?;
        self.push(Operation::Put(key, value), length)
    }

    /// Adds a delete, with a copy of the key. An `Err` changes nothing: `KeyTooLong` and
    /// `BatchTooLarge` in this order, both found before anything is copied, then `OutOfMemory`.
    pub fn delete(&mut self, key: &[u8]) -> Result<(), DbError>
        ensures ok { OnOk result (self.new ≡ self.old ++ Operation.Delete key.now ∷ []) }
        ensures err { OnErr result (self.new ≡ self.old) }
        ensures refused { MatchOption (refusal_of self.old (Operation.Delete key.now)) (IsOkUnless result DbError.OutOfMemory) (λ e. result ≡ Err e) }
    {
        let length = length_with_delete(self.length, self.operations.len(), key)?;
        let key = Bytes::copied_from(self.alloc, key)?;
        self.push(Operation::Delete(key), length)
    }

    // Adds an operation, with which the batch takes `taken` bytes.
    fn push(&mut self, operation: Operation, taken: usize) -> Result<(), DbError>
        requires few { length self.old < 2 ^ 20 }
        requires fits { CanBeEncoded operation }
        requires taken { taken ≡ encoded_length self.old + operation_length operation }
        ensures ok { OnOk result (self.new ≡ self.old ++ operation ∷ []) }
        ensures err { OnErr result (self.new ≡ self.old) }
        ensures memory { IsOkUnless result DbError.OutOfMemory }
    {
        self.operations.push(operation)?;
        self.length = taken;
        Ok(())
    }

    /// Returns the operations, in order.
    pub fn ops(&self) -> &[Operation]
        ensures { result.now ≡ self.now }
    {
        self.operations.as_slice()
    }

    /// Returns the operations, in order, without a copy.
    pub fn into_operations(self) -> Vec<Operation>
        ensures { result.items ≡ self }
    {
        let Batch { operations, .. } = self;
        operations
    }

    /// Encodes the batch, whose first operation has this sequence number. The room is taken once,
    /// before a byte is written. Lengths always fit, since a batch keeps its own below 2^32.
    pub fn encode(&self, alloc: Global, sequence: u64) -> Result<Vec<u8>, DbError>
        requires first { sequence < 2 ^ 56 }
        requires last { sequence + length self.now ≤ 2 ^ 56 }
        ensures written { IfOk result (λ bytes. IsBatch bytes.items sequence self.now) }
        ensures memory { IsOkUnless result DbError.OutOfMemory }
    {
        Ok(encoded(alloc, self.length, sequence, &self.operations)?)
    }

    /// Decodes the batch that all of the bytes are, and returns it with the sequence number of its
    /// first operation. Corrupt: fewer or more operations than the count, another kind byte, or
    /// bytes left over. Corrupt too: a sequence number of 2^56 or more, the batch's own or an
    /// operation's. A count of 0 is read. No length in the bytes is used to take memory before as
    /// many bytes are known to be there.
    pub fn decode(alloc: Global, bytes: &[u8]) -> Result<(u64, Batch), ReadError>
        // The bytes are the batch that is answered.
        ensures found { IfOk result (λ found. IsBatch bytes.now found.0 found.1) }
        // Bytes that are refused are no batch.
        ensures refused { IfErr result (λ e. RefusesOnly e ((sequence : ℕ) (operations : List OperationValue) → IsBatch bytes.now sequence operations → ⊥)) }
    {
        let Some((sequence, count, body)) = header_of(bytes) else {
            return Err(ReadError::Corrupt(Damage::Length));
        };
        if sequence >= SEQUENCE_END || u64::from(count) > SEQUENCE_END - sequence {
            return Err(ReadError::Corrupt(Damage::Number));
        }
        let (operations, rest) = operations_of(alloc, count, body)?;
        if !rest.is_empty() {
            return Err(ReadError::Corrupt(Damage::Length));
        }
        Ok((
            sequence,
            Batch {
                operations,
                length: bytes.len(),
                alloc,
            },
        ))
    }
}

/// Proves that no bytes are two batches.
pub fn one_batch()
    ensures { (bytes : List ℕ) (sequence other : ℕ) (operations others : List OperationValue)
        → IsBatch bytes sequence operations → IsBatch bytes other others → (sequence ≡ other) × (operations ≡ others) }
{}
