//! How many bytes operations take, and which of them may not be written. LevelDB has no such
//! limits: they are this project's own, so that every length fits its field and every sum its type.

ghost use Rattle.std.specs.Prelude.{◌≡◌, ◌<◌, ◌≤◌, ◌+◌, ◌^◌, ◌||◌, if◌then◌else◌, nat_lt, nat_le, List, [], ◌∷◌, ◌++◌, length, MatchOption};
ghost use Rattle.std.specs.Option.{option_or};
ghost use Rattle.coding.specs.Varint as encoded;
ghost use Rattle.batch.specs.Batch.{operation_length, encoded_length, refusal_at, refusal_of, first_refusal};
ghost use Rattle.batch.specs.declared.operation.Operation.{Operation as OperationValue};

use crate::operation::Operation;
use coding::DbError;

/// Counts the bytes that the sequence number and the count take.
pub const HEADER_LENGTH: usize = 12;

// The longest key, in bytes. With these limits every length fits its field and every sum its type,
// and a block with one entry stays below the limit on blocks. (LevelDB has only its 32-bit
// lengths.)
const MAX_KEY_LENGTH: usize = 65_535;

// The longest value, in bytes.
const MAX_VALUE_LENGTH: usize = 268_435_456;

// The most bytes of an encoded batch.
const MAX_BATCH_LENGTH: usize = 536_870_912;

// The most operations of a batch.
const MAX_OPERATIONS: usize = 1_048_576;

/// Returns why these operations can't be put into one batch in order, or None if they can. The
/// first operation that fails counts, and of its causes the key (`KeyTooLong`), then the value
/// (`ValueTooLong`), then the batch (`BatchTooLarge`). It takes no memory, and reads lengths alone.
pub fn refusal(operations: &[Operation]) -> Option<DbError>
    ensures { result ≡ first_refusal [] operations.now }
{
    length_of(operations).err()
}

/// Proves that a batch with one operation more is refused where it was before, or else where that
/// operation is. So what `put` and `delete` make of an empty batch is never refused.
pub fn refusal_with_one_more()
    ensures { (operations : List OperationValue) (next : OperationValue)
        → first_refusal [] (operations ++ next ∷ []) ≡ option_or (first_refusal [] operations) (refusal_of operations next) }
{}

/// Returns how many bytes a batch of these operations takes, or why it isn't one.
pub fn length_of(operations: &[Operation]) -> Result<usize, DbError>
    ensures { MatchOption (first_refusal [] operations.now) (result ≡ Ok (encoded_length operations.now)) (λ e. result ≡ Err e) }
{
    let mut size = HEADER_LENGTH;
    let mut count = 0;
    for operation in operations {
        size = match operation {
            Operation::Put(key, value) => {
                length_with_put(size, count, key.as_slice(), value.as_slice())?
            }
            Operation::Delete(key) => length_with_delete(size, count, key.as_slice())?,
        };
        count += 1;
    }
    Ok(size)
}

/// Returns how many bytes a batch of `size` bytes and `count` operations takes with one more put,
/// or why the put can't be added.
pub fn length_with_put(
    size: usize,
    count: usize,
    key: &[u8],
    value: &[u8],
) -> Result<usize, DbError>
    ensures { MatchOption (refusal_at size count (Operation.Put key.now value.now)) (result ≡ Ok (size + operation_length (Operation.Put key.now value.now))) (λ e. result ≡ Err e) }
{
    if key.len() > MAX_KEY_LENGTH {
        return Err(DbError::KeyTooLong);
    }
    if value.len() > MAX_VALUE_LENGTH {
        return Err(DbError::ValueTooLong);
    }
    length_with(size, count, 1 + string_length(key) + string_length(value))
}

/// Returns how many bytes a batch of `size` bytes and `count` operations takes with one more
/// delete, or why the delete can't be added.
pub fn length_with_delete(size: usize, count: usize, key: &[u8]) -> Result<usize, DbError>
    ensures { MatchOption (refusal_at size count (Operation.Delete key.now)) (result ≡ Ok (size + operation_length (Operation.Delete key.now))) (λ e. result ≡ Err e) }
{
    if key.len() > MAX_KEY_LENGTH {
        return Err(DbError::KeyTooLong);
    }
    length_with(size, count, 1 + string_length(key))
}

// How many bytes a batch of `size` bytes takes with an operation of `more` bytes, if it may have
// both.
fn length_with(size: usize, count: usize, more: usize) -> Result<usize, DbError>
    requires { more ≤ 536870912 }
    ensures { result ≡ (if nat_lt 536870912 (size + more) || nat_le 1048576 count then Err DbError.BatchTooLarge else Ok (size + more)) }
{
    if size > MAX_BATCH_LENGTH - more || count >= MAX_OPERATIONS {
        return Err(DbError::BatchTooLarge);
    }
    Ok(size + more)
}

// How many bytes a string takes, with its length in front.
fn string_length(text: &[u8]) -> usize
    requires { length text.now < 2 ^ 32 }
    ensures { result ≡ encoded.string_length text.now }
{
    varint_length(text.len()) + text.len()
}

// How many bytes a number below 2^32 takes.
fn varint_length(n: usize) -> usize
    ensures { result ≡ encoded.varint_length n }
{
    if n < 1 << 7 {
        1
    } else if n < 1 << 14 {
        2
    } else if n < 1 << 21 {
        3
    } else if n < 1 << 28 {
        4
    } else {
        5
    }
}
