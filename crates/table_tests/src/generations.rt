//! The memtables of an open database: the current one, the sealed one and those that are kept
//! for readers.

ghost use Rattle.std.specs.Prelude.{◌≡◌, IfOk};

use crate::written::is_value;
use batch::Operation;
use coding::{Bytes, Damage, DbError, FileKind};
use cursor::Cursor;
use ikey::{Bytewise, Entry, Kind, pack};
use memtables::{MemoriesCursor, MemoryTables, Users, changes_are_kept};
use std::alloc::{AllocError, Global};
use std::test::*;

// A user key, and what is put, or nothing for a delete.
type Write = (&'static [u8], Option<&'static [u8]>);

// A user key, a sequence number, and what is found of the key there.
type Found = (&'static [u8], u32, Option<Option<&'static [u8]>>);

// An internal key and a value.
type Pair = (&'static [u8], &'static [u8]);

// Sequence numbers 1 to 3.
const FIRST: [Write; 3] = [(b"b", Some(b"two")), (b"a", Some(b"one")), (b"c", None)];

// Sequence numbers 4 and 5.
const SECOND: [Write; 2] = [(b"b", None), (b"d", Some(b"four"))];

const WHILE_SEALED: [Found; 8] = [
    (b"a", 5, Some(Some(b"one"))),
    (b"a", 1, None),
    (b"b", 5, Some(None)),
    (b"b", 3, Some(Some(b"two"))),
    (b"c", 3, Some(None)),
    (b"d", 4, None),
    (b"d", 5, Some(Some(b"four"))),
    (b"e", 5, None),
];

const ONCE_FLUSHED: [Found; 5] = [
    (b"a", 5, None),
    (b"b", 5, Some(None)),
    (b"b", 3, None),
    (b"c", 3, None),
    (b"d", 5, Some(Some(b"four"))),
];

const FIRST_PAIRS: [Pair; 2] = [
    (b"a\x01\x02\0\0\0\0\0\0", b"one"),
    (b"b\x01\x01\0\0\0\0\0\0", b"two"),
];

const SECOND_PAIRS: [Pair; 2] = [
    (b"b\x00\x04\0\0\0\0\0\0", b""),
    (b"d\x01\x05\0\0\0\0\0\0", b"four"),
];

// It reads the table of one generation.
#[derive(Drop)]
struct Reader {
    generation: u64,
}

impl Users for Reader {
    ghost names = { λ reader generation. reader.generation ≡ generation };

    fn names(&self, generation: u64) -> bool {
        self.generation == generation
    }
}

fn operation_of(alloc: Global, write: Write) -> Result<Operation, AllocError> {
    let key = Bytes::copied_from(alloc, write.0)?;
    match write.1 {
        None => Ok(Operation::Delete(key)),
        Some(value) => Ok(Operation::Put(key, Bytes::copied_from(alloc, value)?)),
    }
}

fn write(
    memories: &mut MemoryTables<Bytewise>,
    alloc: Global,
    writes: &[Write],
) -> Result<(), AllocError> {
    let mut operations = Vec::new(alloc);
    for one in writes {
        let operation = operation_of(alloc, *one)?;
        operations.push(operation).map_err(|_| AllocError)?;
    }
    memories.reserve(&operations)?;
    if memories.last() < 1000 && operations.len() < 1000 {
        memories.add_batch(&operations);
    }
    Ok(())
}

fn seal(memories: &mut MemoryTables<Bytewise>, alloc: Global) -> Result<(), AllocError> {
    if memories.sealed_generation().is_none() {
        memories.seal(alloc)?;
    }
    Ok(())
}

fn finds(
    memories: &MemoryTables<Bytewise>,
    alloc: Global,
    wanted: &[Found],
) -> Result<bool, AllocError> {
    for (key, sequence, value) in wanted {
        if !is_value(&memories.value(alloc, key, u64::from(*sequence))?, *value) {
            return Ok(false);
        }
    }
    Ok(true)
}

// Whether the pairs from the place on are these.
fn shows(
    cursor: &mut MemoriesCursor<Bytewise>,
    alloc: Global,
    memories: &mut MemoryTables<Bytewise>,
    pairs: &[Pair],
) -> Result<bool, DbError> {
    for (key, value) in pairs {
        if !cursor.stands() || cursor.key(memories) != *key || cursor.value(memories) != *value {
            return Ok(false);
        }
        cursor.next(alloc, memories)?;
    }
    Ok(!cursor.stands())
}

// The same from the first place, and from the one before the last.
fn shows_from_its_ends(
    cursor: &mut MemoriesCursor<Bytewise>,
    alloc: Global,
    memories: &mut MemoryTables<Bytewise>,
    pairs: &[Pair; 2],
) -> Result<bool, DbError> {
    cursor.first(alloc, memories)?;
    let is_shown = shows(cursor, alloc, memories, pairs)?;
    cursor.last(alloc, memories)?;
    if !cursor.stands() {
        return Ok(false);
    }
    cursor.prev(alloc, memories)?;
    Ok(is_shown && shows(cursor, alloc, memories, pairs)?)
}

// The same from the first entry of `a` on.
fn shows_what_is_sought(
    cursor: &mut MemoriesCursor<Bytewise>,
    alloc: Global,
    memories: &mut MemoryTables<Bytewise>,
    pairs: &[Pair; 2],
) -> Result<bool, DbError> {
    let target = pack(alloc, b"a", 9, Kind::Put)?;
    cursor.seek(alloc, memories, &target)?;
    shows(cursor, alloc, memories, pairs)
}

// Whether a cursor over the table of a generation up to a sequence number walks over these pairs,
// of which the second is of `b`.
fn walks(
    memories: &mut MemoryTables<Bytewise>,
    alloc: Global,
    generation: u64,
    sequence: u32,
    pairs: &[Pair; 2],
) -> Result<bool, DbError> {
    let mut cursor = MemoriesCursor::new(alloc, generation, u64::from(sequence));
    cursor.begins(memories);
    Ok(
        shows_from_its_ends(&mut cursor, alloc, memories, pairs)?
            && shows_what_is_sought(&mut cursor, alloc, memories, pairs)?,
    )
}

fn is_missing(memories: &mut MemoryTables<Bytewise>, alloc: Global, generation: u64) -> bool {
    let mut cursor = MemoriesCursor::new(alloc, generation, 9);
    matches!(
        cursor.first(alloc, memories),
        Err(DbError::Corrupt(FileKind::Log, Damage::Missing))
    )
}

// Whether a cursor over the first pairs reads on through a seal that is taken back.
fn reads_on(memories: &mut MemoryTables<Bytewise>, alloc: Global) -> Result<bool, DbError> {
    let mut cursor = MemoriesCursor::new(alloc, 0, 2);
    cursor.begins(memories);
    cursor.first(alloc, memories)?;
    seal(memories, alloc)?;
    memories.unseal();
    Ok(shows(&mut cursor, alloc, memories, &FIRST_PAIRS)? && memories.generation() == 0)
}

// The size of the current table, the last sequence number, the generation of the current table, and
// that of the sealed one with how many entries it has.
type Counts = (usize, u64, u64, Option<(u64, usize)>);

fn sealed_is(memories: &MemoryTables<Bytewise>, wanted: Option<(u64, usize)>) -> bool {
    match (memories.sealed(), wanted) {
        (None, None) => memories.sealed_generation().is_none(),
        (Some(table), Some((generation, entries))) => table.len() == entries
            && memories.sealed_generation() == Some(generation),
        (Some(_), None) => false,
        (None, Some(_)) => false,
    }
}

fn counts(memories: &MemoryTables<Bytewise>, wanted: &Counts) -> bool {
    let (size, last, generation, sealed) = *wanted;
    memories.are_bounded();
    memories.size() == size
        && memories.is_empty() == (size == 0)
        && memories.last() == last
        && memories.generation() == generation
        && sealed_is(memories, sealed)
}

// What is done to memtables, or asked of them.
#[derive(Clone, Copy)]
enum Turn {
    Write(&'static [Write]),
    Seal,
    Unseal,
    Flushed,
    // only the table of this generation is read from then on, of those that are kept for readers
    Use(u64),
    Forget(u64),
    Finds(&'static [Found]),
    // a cursor over the table of a generation up to a sequence number walks over these pairs
    Walks(u64, u32, &'static [Pair; 2]),
    Misses(u64),
    // not so
    Has(u64),
    Counts(Counts),
    ReadsOn,
}

// What changes them.
fn change(
    memories: &mut MemoryTables<Bytewise>,
    alloc: Global,
    turn: Turn,
) -> Result<(), AllocError> {
    match turn {
        Turn::Write(writes) => write(memories, alloc, writes)?,
        Turn::Seal => seal(memories, alloc)?,
        Turn::Unseal => memories.unseal(),
        Turn::Flushed => memories.flushed(),
        Turn::Use(generation) => memories.drop_unused(&Reader { generation }),
        Turn::Forget(generation) => memories.forget(generation),
        _ => {}
    }
    Ok(())
}

// Whether what is asked is so.
fn is_so(
    memories: &mut MemoryTables<Bytewise>,
    alloc: Global,
    turn: Turn,
) -> Result<bool, DbError> {
    match turn {
        Turn::Finds(found) => Ok(finds(memories, alloc, found)?),
        Turn::Walks(generation, sequence, pairs) => {
            walks(memories, alloc, generation, sequence, pairs)
        }
        Turn::Misses(generation) => Ok(is_missing(memories, alloc, generation)),
        Turn::Has(generation) => Ok(!is_missing(memories, alloc, generation)),
        Turn::Counts(wanted) => Ok(counts(memories, &wanted)),
        Turn::ReadsOn => reads_on(memories, alloc),
        _ => Ok(true),
    }
}

// The first turn of a script at which something isn't so, by its place.
fn first_wrong(
    memories: &mut MemoryTables<Bytewise>,
    alloc: Global,
    script: &[Turn],
) -> Result<Option<usize>, DbError> {
    for (place, turn) in script.iter().enumerate() {
        change(memories, alloc, *turn)?;
        if !is_so(memories, alloc, *turn)? {
            return Ok(Some(place));
        }
    }
    Ok(None)
}

fn wrong_from_empty(alloc: Global, script: &[Turn]) -> Result<Option<usize>, DbError> {
    let mut memories = MemoryTables::empty(alloc);
    first_wrong(&mut memories, alloc, script)
}

#[rattlefmt::skip]
const SCRIPTS: [&[Turn]; 4] = [
    // A value is sought in the current table and then in the sealed one.
    &[
        Turn::Write(&FIRST), Turn::Seal, Turn::Write(&SECOND), Turn::Finds(&WHILE_SEALED), Turn::Flushed, Turn::Finds(&ONCE_FLUSHED),
    ],
    // A cursor reads the table of its generation.
    &[
        Turn::Write(&FIRST), Turn::Seal, Turn::Write(&SECOND), Turn::Walks(0, 2, &FIRST_PAIRS), Turn::Walks(1, 5, &SECOND_PAIRS),
    ],
    // The sealed table stays although nobody reads it, a flushed one stays for its reader, and then
    // goes.
    &[
        Turn::Write(&FIRST), Turn::Seal, Turn::Write(&SECOND), Turn::Use(7), Turn::Forget(0), Turn::Walks(0, 2, &FIRST_PAIRS),
        Turn::Flushed, Turn::Seal, Turn::Flushed, Turn::Use(0), Turn::Walks(0, 2, &FIRST_PAIRS), Turn::Misses(1),
        Turn::Forget(0), Turn::Misses(0), Turn::Has(2),
    ],
    // A seal is taken back, but not one after which something is written.
    &[
        Turn::Write(&FIRST), Turn::ReadsOn, Turn::Seal, Turn::Write(&SECOND), Turn::Unseal, Turn::Finds(&WHILE_SEALED),
    ],
];

#[test]
fn tables_stay_while_they_are_sealed_or_read(rt: HostRuntime) {
    // Laws, for the proof alone.
    changes_are_kept::<Bytewise>();
    for (number, script) in SCRIPTS.iter().enumerate() {
        assert_eq!(rt;
            wrong_from_empty(rt.alloc(), script),
            Ok(None),
            "script {number}"
        );
    }
}

fn entry(alloc: Global) -> Result<Entry, AllocError>
    ensures { IfOk result (λ entry. entry.sequence ≡ 3) }
{
    Ok(Entry {
        key: Bytes::copied_from(alloc, b"key")?,
        sequence: 3,
        value: Some(Bytes::copied_from(alloc, b"value")?),
    })
}

// A table of one entry, which is sealed then and leaves an empty one.
#[rattlefmt::skip]
const OF_ONE: [Turn; 3] = [
    Turn::Counts((16, 4, 0, None)), Turn::Seal, Turn::Counts((0, 4, 1, Some((0, 1)))),
];

fn wrong_from_one(alloc: Global) -> Result<Option<usize>, DbError> {
    let mut memories = MemoryTables::<Bytewise>::of(alloc, &[entry(alloc)?], 4)?;
    first_wrong(&mut memories, alloc, &OF_ONE)
}

#[test]
fn a_sealed_table_leaves_an_empty_one(rt: HostRuntime) {
    assert_eq!(rt; wrong_from_one(rt.alloc()), Ok(None));
}
