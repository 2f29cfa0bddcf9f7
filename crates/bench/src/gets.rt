// The workloads that get values.

use crate::entries::Keys;
use crate::tally::Tally;
use coding::DbError;
use engine::Db;
use ikey::Bytewise;
use std::alloc::Global;
use store::Store;

/// Gets the values of keys.
pub fn get_each<S: Store>(
    alloc: Global,
    db: &mut Db<S, Bytewise>,
    mut keys: Keys,
    count: u64,
) -> Result<Tally, DbError> {
    let mut tally = Tally::new();
    for _ in 0..count {
        get(alloc, db, keys.next_key(), &mut tally)?;
    }
    Ok(tally)
}

/// Gets the values of keys without their last digit, which aren't there.
pub fn get_missing<S: Store>(
    alloc: Global,
    db: &mut Db<S, Bytewise>,
    mut keys: Keys,
    count: u64,
) -> Result<Tally, DbError> {
    let mut tally = Tally::new();
    for _ in 0..count {
        get(alloc, db, keys.next_missing(), &mut tally)?;
    }
    Ok(tally)
}

/// Gets the values of keys with another last byte, which aren't there.
pub fn get_near<S: Store>(
    alloc: Global,
    db: &mut Db<S, Bytewise>,
    mut keys: Keys,
    count: u64,
) -> Result<Tally, DbError> {
    let mut tally = Tally::new();
    for _ in 0..count {
        get(alloc, db, keys.next_near(), &mut tally)?;
    }
    Ok(tally)
}

fn get<S: Store>(
    alloc: Global,
    db: &mut Db<S, Bytewise>,
    key: &[u8],
    tally: &mut Tally,
) -> Result<(), DbError> {
    if let Some(value) = db.get(alloc, key, None)? {
        tally.count(key, value.as_slice());
    }
    Ok(())
}
