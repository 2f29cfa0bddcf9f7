//! Operations from their bytes (LevelDB's `WriteBatch::Iterate`, its db/write_batch.cc).

ghost use Rattle.std.specs.Prelude.{◌≡◌, ◌<◌, ◌^◌, ◌++◌, List, ℕ, length, IfOk, IfErr, IfSome, IfNone};
ghost use Rattle.coding.specs.Errors.{RefusesOnly};
ghost use Rattle.coding.specs.Varint.{IsString};
ghost use Rattle.coding.specs.Fixed.{fixed32, fixed64};
ghost use Rattle.batch.specs.Batch.{IsOperation, AreOperations};
ghost use Rattle.batch.specs.declared.operation.Operation.{Operation as OperationValue};

use crate::operation::Operation;
use coding::{Bytes, Damage, ReadError, get_fixed32, get_fixed64, get_string};
use std::alloc::Global;

/// Reads the sequence number and the count at the front, and returns them with the bytes after
/// them.
pub fn header_of(bytes: &[u8]) -> Option<(u64, u32, &[u8])>
    ensures range { IfSome result (λ found. (found.0 < 2 ^ 64) × (found.1 < 2 ^ 32)) }
    ensures found { IfSome result (λ found. bytes.now ≡ fixed64 found.0 ++ (fixed32 found.1 ++ found.2.now)) }
    ensures none { IfNone result (length bytes.now < 12) }
{
    let sequence = get_fixed64(bytes)?;
    let (_, behind) = bytes.split_at(8);
    let count = get_fixed32(behind)?;
    let (_, behind) = behind.split_at(4);
    Some((sequence, count, behind))
}

/// Reads as many operations at the front, and returns them with the bytes after them. The room for
/// them grows with those that were read, whatever the count says.
pub fn operations_of(
    alloc: Global,
    count: u32,
    bytes: &[u8],
) -> Result<(Vec<Operation>, &[u8]), ReadError>
    ensures found { IfOk result (λ found. (front : List ℕ) × AreOperations front found.0.items
        × (length found.0.items ≡ count) × (bytes.now ≡ front ++ found.1.now)) }
    ensures refused { IfErr result (λ e. RefusesOnly e ((front rest : List ℕ) (operations : List OperationValue)
        → AreOperations front operations → length operations ≡ count → bytes.now ≡ front ++ rest → ⊥)) }
{
    let mut operations = Vec::new(alloc);
    let mut rest = bytes;
    for _ in 0..count {
        let (operation, behind) = operation_of(alloc, rest)?;
        operations.push(operation)?;
        rest = behind;
    }
    Ok((operations, rest))
}

// The operation at the front, and the bytes after it.
fn operation_of(alloc: Global, bytes: &[u8]) -> Result<(Operation, &[u8]), ReadError>
    ensures found { IfOk result (λ found. (front : List ℕ) × IsOperation front found.0 × (bytes.now ≡ front ++ found.1.now)) }
    ensures refused { IfErr result (λ e. RefusesOnly e ((front rest : List ℕ) (operation : OperationValue)
        → IsOperation front operation → bytes.now ≡ front ++ rest → ⊥)) }
{
    match bytes {
        [1, rest @ ..] => {
            let (key, rest) = string_of(alloc, rest)?;
            let (value, rest) = string_of(alloc, rest)?;
            Ok((Operation::Put(key, value), rest))
        }
        [0, rest @ ..] => {
            let (key, rest) = string_of(alloc, rest)?;
            Ok((Operation::Delete(key), rest))
        }
        [_, ..] => Err(ReadError::Corrupt(Damage::Kind)),
        [] => Err(ReadError::Corrupt(Damage::Length)),
    }
}

// A copy of the string at the front, and the bytes after it.
fn string_of(alloc: Global, bytes: &[u8]) -> Result<(Bytes, &[u8]), ReadError>
    ensures found { IfOk result (λ found. (front : List ℕ) × IsString front found.0 × (bytes.now ≡ front ++ found.1.now)) }
    ensures refused { IfErr result (λ e. RefusesOnly e ((front text rest : List ℕ)
        → IsString front text → bytes.now ≡ front ++ rest → ⊥)) }
{
    let Some((text, rest)) = get_string(bytes) else {
        return Err(ReadError::Corrupt(Damage::Length));
    };
    Ok((Bytes::copied_from(alloc, text)?, rest))
}
