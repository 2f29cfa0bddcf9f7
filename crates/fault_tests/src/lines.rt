//! The commands of scripts, over a few keys with values of a byte, and their answers in the same
//! terms.
use batch::Operation;
use coding::{Bytes, DbError};
use engine::{Answer, Mode, Op};
use std::alloc::Global;

/// How many keys there are.
pub const KEYS: usize = 7;

// In their order.
const KEY_BYTES: [&[u8]; KEYS] = [b"a", b"b", b"bb", b"c", b"d", b"e", b"o"];

// The places of the keys.
pub const A: usize = 0;

pub const B: usize = 1;

pub const BB: usize = 2;

pub const C: usize = 3;

pub const D: usize = 4;

pub const E: usize = 5;

pub const O: usize = 6;

/// A value, of a byte, by the place of its key.
pub type Map = [Option<u8>; KEYS];

/// A key, and the value that it is given, or none if it is deleted.
pub type Change = (usize, Option<u8>);

/// Names a command.
#[derive(Clone, Copy)]
pub enum Line {
    Open(Mode),
    Write(&'static [Change]),
    Get(usize),
    GetAt(usize, u64),
    Snapshot,
    Iterate,
    First(u64),
    Seek(u64, usize),
    Next(u64),
    Prev(u64),
    DropIterator(u64),
    Work(u32),
    CompactLevel(u32),
    CompactAll,
    Close,
}

/// Tells what a command was answered.
#[derive(Clone, Copy, PartialEq)]
pub enum Seen {
    Done,
    Value(Option<u8>),
    Snapshot(u64),
    Iterator(u64),
    Pair(Option<Change>),
    Worked,
    Idle,
    Refused(DbError),
    // a key or a value that no script has
    Foreign,
}

fn key_of(alloc: Global, key: usize) -> Result<Bytes, DbError> {
    match KEY_BYTES.get(key) {
        Some(bytes) => Ok(Bytes::copied_from(alloc, *bytes)?),
        None => Err(DbError::BadLine),
    }
}

fn operation_of(alloc: Global, change: Change) -> Result<Operation, DbError> {
    let key = key_of(alloc, change.0)?;
    match change.1 {
        Some(byte) => Ok(Operation::Put(key, Bytes::copied_from(alloc, &[byte])?)),
        None => Ok(Operation::Delete(key)),
    }
}

fn write_of(alloc: Global, changes: &[Change]) -> Result<Op, DbError> {
    let mut operations = Vec::new(alloc);
    for change in changes {
        operations.push(operation_of(alloc, *change)?)?;
    }
    Ok(Op::Write(operations, false))
}

/// Returns the command, as a session takes it.
pub fn op_of(alloc: Global, line: Line) -> Result<Op, DbError> {
    Ok(match line {
        Line::Open(mode) => Op::Open(mode),
        Line::Write(changes) => write_of(alloc, changes)?,
        Line::Get(key) => Op::Get(key_of(alloc, key)?, None),
        Line::GetAt(key, id) => Op::Get(key_of(alloc, key)?, Some(id)),
        Line::Snapshot => Op::Snapshot,
        Line::Iterate => Op::Iterate(None),
        Line::First(id) => Op::First(id),
        Line::Seek(id, key) => Op::Seek(id, key_of(alloc, key)?),
        Line::Next(id) => Op::Next(id),
        Line::Prev(id) => Op::Prev(id),
        Line::DropIterator(id) => Op::DropIterator(id),
        Line::Work(budget) => Op::Work(budget),
        Line::CompactLevel(level) => Op::CompactLevel(level),
        Line::CompactAll => Op::CompactAll,
        Line::Close => Op::Close,
    })
}

// The byte, if there is one and no more.
fn only_byte(bytes: &Bytes) -> Option<u8> {
    match bytes.as_slice() {
        [byte] => Some(*byte),
        _ => None,
    }
}

fn place_of(key: &Bytes) -> Option<usize> {
    for (place, bytes) in KEY_BYTES.iter().enumerate() {
        if key.as_slice() == *bytes {
            return Some(place);
        }
    }
    None
}

fn seen_pair(key: &Bytes, value: &Bytes) -> Seen {
    match place_of(key) {
        Some(place) => Seen::Pair(Some((place, only_byte(value)))),
        None => Seen::Foreign,
    }
}

fn seen_value(value: &Bytes) -> Seen {
    match only_byte(value) {
        Some(byte) => Seen::Value(Some(byte)),
        None => Seen::Foreign,
    }
}

/// Returns the answer.
pub fn told_by(answer: &Answer) -> Seen {
    match answer {
        Answer::Done => Seen::Done,
        Answer::Value(None) => Seen::Value(None),
        Answer::Value(Some(value)) => seen_value(value),
        Answer::Snapshot(id) => Seen::Snapshot(*id),
        Answer::Iterator(id) => Seen::Iterator(*id),
        Answer::Pair(None) => Seen::Pair(None),
        Answer::Pair(Some((key, value))) => seen_pair(key, value),
        Answer::Worked => Seen::Worked,
        Answer::Idle => Seen::Idle,
        Answer::Refused(error) => Seen::Refused(*error),
    }
}
