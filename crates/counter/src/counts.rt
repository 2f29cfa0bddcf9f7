// Counts of names, which a database keeps: under each name how often it was counted.

ghost use Rattle.std.specs.Prelude.{◌≡◌, ◌<◌, ◌^◌, [], ◌∷◌, ℕ, Some, IfOk, IfSome, OnOk, length};
ghost use Rattle.batch.specs.declared.operation.Operation.TheVariants.{Put};
ghost use Rattle.coding.specs.Fixed.{fixed64};
ghost use Rattle.ikey.specs.Orders.{order_of};
ghost use Rattle.engine.specs.StandsDb.{FollowsDb};
ghost use Rattle.counter.specs.Counts.{CountsEach, CountsOne, NextOf, shown};

use batch::Batch;
use coding::{Bytes, DbError, get_fixed64, put_fixed64};
use engine::Db;
use ikey::KeyOrder;
use std::alloc::Global;
use store::Store;
use thiserror::Error;

/// Tells why a name wasn't counted.
#[derive(Debug, Drop, Error)]
pub enum CountError {
    #[error("the database refused: {0}")]
    Refused(DbError),
    #[error("it was counted 2^64 - 1 times")]
    Full,
    #[error("what stands under the name is no count")]
    Foreign,
}

/// Returns how often a name was counted that has this value.
pub fn count_in(value: &Option<Bytes>) -> Option<u64>
    ensures range { IfSome result (λ count. count < 2 ^ 64) }
    ensures is { (count : ℕ) → count < 2 ^ 64 → value.now ≡ shown count → result ≡ Some count }
{
    match value {
        None => Some(0),
        Some(bytes) => get_fixed64(bytes.as_slice()),
    }
}

fn next_count(value: &Option<Bytes>) -> Result<u64, CountError>
    ensures range { IfOk result (λ count. count < 2 ^ 64) }
    ensures is { (count : ℕ) → count < 2 ^ 64 → value.now ≡ shown count → NextOf count result }
{
    let Some(count) = count_in(value) else {
        return Err(CountError::Foreign);
    };
    match count.checked_add(1) {
        Some(next) => Ok(next),
        None => Err(CountError::Full),
    }
}

// A batch that puts a count under a name.
fn batch_of(alloc: Global, name: &[u8], count: u64) -> Result<Batch, DbError>
    ensures { IfOk result (λ batch. batch ≡ Put name.now (fixed64 count) ∷ []) }
{
    let mut value = Vec::new(alloc);
    put_fixed64(&mut value, count)?;
    let mut batch = Batch::new(alloc);
    batch.put(name, value.as_slice())?;
    Ok(batch)
}

/// Counts a name once more, and returns how often it was counted now. The count is durable then.
pub fn increment<S: Store, K: KeyOrder>(
    alloc: Global,
    db: &mut Db<S, K>,
    name: &[u8],
) -> Result<u64, CountError>
    ensures { FollowsDb (order_of K.name K.cmp) S.facts db.old db.new (λ m n. CountsOne name.now m result n) }
{
    let value = match db.get(alloc, name, None) {
        Ok(value) => value,
        Err(error) => return Err(CountError::Refused(error)),
    };
    let count = match next_count(&value) {
        Ok(count) => count,
        Err(error) => return Err(error),
    };
    let batch = match batch_of(alloc, name, count) {
        Ok(batch) => batch,
        Err(error) => return Err(CountError::Refused(error)),
    };
    match db.write(alloc, &batch, true) {
        Ok(()) => Ok(count),
        Err(error) => Err(CountError::Refused(error)),
    }
}

/// Counts each of these names, in their order, until one fails. Returns how many were counted, and
/// why it ended. Exactly these are counted, and no other.
pub fn count_each<S: Store, K: KeyOrder>(
    alloc: Global,
    db: &mut Db<S, K>,
    names: &[Bytes],
) -> (usize, Result<(), CountError>)
    ensures counted { FollowsDb (order_of K.name K.cmp) S.facts db.old db.new (λ m n. CountsEach names.now result.0 m n) }
    ensures all { OnOk result.1 (result.0 ≡ length names.now) }
{
    for (index, name) in names.iter().enumerate() {
        match increment(alloc, db, name.as_slice()) {
            Ok(_) => continue,
            Err(error) => return (index, Err(error)),
        }
    }
    (names.len(), Ok(()))
}
