// Copies into the caller's bytes.

ghost use Rattle.std.specs.Prelude.{◌≡◌, ◌++◌, length};
ghost use Rattle.c_calls.specs.Codes.{written};
ghost use Rattle.c_calls.specs.Told.{IdTold, PairTold, ValueTold};

use crate::codes::{NOT_FOUND, number_of};
use coding::{Bytes, DbError};

/// The lengths of a pair.
#[repr(C)]
#[derive(Drop)]
pub struct Pair {
    pub key_length: usize,
    pub value_length: usize,
}

impl Pair {
    /// That of no pair.
    pub fn none() -> Self
        ensures { (result.key_length ≡ 0) × (result.value_length ≡ 0) }
    {
        Pair {
            key_length: 0,
            value_length: 0,
        }
    }
}

/// Copies as many bytes as have room.
pub fn copy_into(bytes: &[u8], room: &mut [u8])
    ensures { room.new ≡ written bytes.now room.old }
{
    let most = bytes.len().min(room.len());
    room[..most].copy_from_slice(&bytes[..most]);
}

/// Copies a key and then its value, as many bytes as have room, and tells their lengths.
pub fn copy_pair(key: &Bytes, value: &Bytes, room: &mut [u8], pair: &mut Pair)
    ensures lengths { (pair.new.key_length ≡ length key.now) × (pair.new.value_length ≡ length value.now) }
    ensures bytes { room.new ≡ written (key.now ++ value.now) room.old }
{
    pair.key_length = key.len();
    pair.value_length = value.len();
    copy_into(key.as_slice(), room);
    if key.len() <= room.len() {
        copy_into(value.as_slice(), &mut room[key.len()..]);
    }
}

/// Tells what a get answered.
pub fn tell_value(
    answer: &Result<Option<Bytes>, DbError>,
    room: &mut [u8],
    length: &mut usize,
) -> i32
    ensures { ValueTold answer.now room.old room.new length.new result }
{
    *length = 0;
    match answer {
        Err(error) => number_of(*error),
        Ok(None) => NOT_FOUND,
        Ok(Some(value)) => {
            *length = value.len();
            copy_into(value.as_slice(), room);
            0
        }
    }
}

/// Tells what a move of an iterator answered.
pub fn tell_pair(
    answer: &Result<Option<(Bytes, Bytes)>, DbError>,
    room: &mut [u8],
    pair: &mut Pair,
) -> i32
    ensures { PairTold answer.now room.old room.new pair.new result }
{
    *pair = Pair::none();
    match answer {
        Err(error) => number_of(*error),
        Ok(None) => NOT_FOUND,
        Ok(Some((key, value))) => {
            copy_pair(key, value, room, pair);
            0
        }
    }
}

/// Tells an id.
pub fn tell_id(answer: &Result<u64, DbError>, id: &mut u64) -> i32
    ensures { IdTold answer.now id.old id.new result }
{
    match answer {
        Err(error) => number_of(*error),
        Ok(made) => {
            *id = *made;
            0
        }
    }
}
