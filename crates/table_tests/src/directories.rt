// What an open database does to its directory. The bytes of records are made outside.
ghost use Rattle.std.specs.Prelude.{◌<◌, ℕ, All, Contains, IfOk, length};
ghost use Rattle.edits.specs.Edit.{IsProper, IsInOrder};
ghost use Rattle.directory_writes.specs.internal.Level0.{HaveSequences};

use crate::files::ONE_ENTRY;
use crate::layouts::version_of;
use crate::stores::{Step, does};
use coding::DbError;
use directory_writes::{
    CurrentManifest, FlushError, FlushPlan, LiveTables, Removal, append_edit, begin_log,
    flush_edit, flush_memory, remove_files, write_level0,
};
use edits::{Edit, Field, FileNumbers, encode_edit};
use ikey::Bytewise;
use memtable::MemTable;
use std::alloc::{AllocError, Global};
use std::test::*;
use store::{Extent, Fault, FaultStore, MemStore, Plan, Store, StoreError};
use versions::LiveNumbers;

// ---- the MANIFEST

const NAME: &str = "MANIFEST-000004";

// Two edits of one MANIFEST: the log number is 5, and then 7 and no other log.
const FIRST: &[u8] = b"\xfa\x99\x70\xce\x02\x00\x01\x02\x05";

const BOTH: &[u8] =
    b"\xfa\x99\x70\xce\x02\x00\x01\x02\x05\x5c\x5b\xff\xad\x04\x00\x01\x02\x07\x09\x00";

fn manifest_at(alloc: Global, end: u64) -> Result<CurrentManifest, DbError> {
    Ok(CurrentManifest {
        number: 4,
        name: String::from_str(alloc, NAME)?,
        end,
    })
}

fn first_edit(alloc: Global) -> Result<Edit, DbError>
    ensures proper { IfOk result (λ edit. All IsProper edit) }
    ensures order { IfOk result (λ edit. IsInOrder edit) }
{
    let mut edit = Edit::new(alloc);
    edit.push(Field::LogNumber(5))?;
    Ok(edit)
}

fn second_edit(alloc: Global) -> Result<Edit, DbError>
    ensures proper { IfOk result (λ edit. All IsProper edit) }
    ensures order { IfOk result (λ edit. IsInOrder edit) }
{
    let mut edit = Edit::new(alloc);
    edit.push(Field::LogNumber(7))?;
    edit.push(Field::PreviousLogNumber(0))?;
    Ok(edit)
}

// Both edits, one after the other, and where the last one ends.
fn put_both<S: Store>(alloc: Global, store: &mut S) -> Result<u64, DbError> {
    let manifest = manifest_at(alloc, 0)?;
    let end = append_edit(alloc, store, &manifest, &first_edit(alloc)?)?;
    let manifest = manifest_at(alloc, end)?;
    append_edit(alloc, store, &manifest, &second_edit(alloc)?)
}

fn are_behind(alloc: Global, store: &mut MemStore) -> bool {
    store.create(NAME).is_ok()
        && put_both(alloc, store) == Ok(20)
        && does(alloc, store, Step::Holds(NAME, BOTH))
}

#[test]
fn edits_stand_behind_the_manifest(rt: HostRuntime) {
    assert!(rt; are_behind(rt.alloc(), &mut MemStore::new(rt.alloc())));
}

// The number of the append that fails, how many bytes it writes, and what of the MANIFEST is there
// then.
const FAILURES: &[(u64, usize, &[u8])] = &[
    (2, 0, b""),
    (2, 3, b"\xfa\x99\x70"),
    (2, 9, FIRST),
    (4, 0, FIRST),
    (4, 11, BOTH),
];

// A store with an empty file of this name, whose call of this number fails after so many bytes.
fn failing(alloc: Global, name: &str, call: u64, count: usize) -> Result<FaultStore, StoreError> {
    let fault = Fault::Fail(Extent::Part(count));
    let mut store = FaultStore::new(MemStore::new(alloc), Some(Plan { call, fault }));
    store.create(name)?;
    Ok(store)
}

// Whether the append with this fault answers Io and leaves these bytes.
fn fails(alloc: Global, call: u64, count: usize, bytes: &[u8]) -> Result<bool, StoreError> {
    let mut store = failing(alloc, NAME, call, count)?;
    let refused = put_both(alloc, &mut store) == Err(DbError::Io);
    Ok(refused && does(alloc, &mut store.into_inner(), Step::Holds(NAME, bytes)))
}

#[test]
fn failed_edits_leave_a_beginning(rt: HostRuntime) {
    for (call, count, bytes) in FAILURES {
        assert_eq!(rt; fails(rt.alloc(), *call, *count, bytes), Ok(true));
    }
}

// ---- logs

// Whether the next log has this number and this name, and is there and empty.
fn begins(
    alloc: Global,
    store: &mut MemStore,
    numbers: &mut FileNumbers,
    number: u64,
    name: &str,
) -> bool {
    match begin_log(alloc, store, numbers) {
        Ok((begun, begun_name)) => begun == number
            && begun_name.as_str() == name
            && does(alloc, store, Step::Holds(name, b"")),
        Err(_) => false,
    }
}

fn begins_two(alloc: Global, store: &mut MemStore) -> bool {
    let mut numbers = FileNumbers { next: 999_999 };
    begins(alloc, store, &mut numbers, 999_999, "999999.log")
        && begins(alloc, store, &mut numbers, 1_000_000, "1000000.log")
        && does(alloc, store, Step::Names("1000000.log;999999.log;"))
}

#[test]
fn logs_have_the_next_numbers(rt: HostRuntime) {
    assert!(rt; begins_two(rt.alloc(), &mut MemStore::new(rt.alloc())));
}

// Whether no log has a number beyond the last, and none is drawn.
fn begins_none(alloc: Global, store: &mut MemStore) -> bool {
    let mut numbers = FileNumbers { next: 1 << 62 };
    matches!(
        begin_log(alloc, store, &mut numbers),
        Err(DbError::NumbersSpent)
    ) && numbers.next == 1 << 62
        && does(alloc, store, Step::Names(""))
}

#[test]
fn no_log_has_a_number_beyond_the_last(rt: HostRuntime) {
    assert!(rt; begins_none(rt.alloc(), &mut MemStore::new(rt.alloc())));
}

// ---- flushes

const FLUSH_MANIFEST: &str = "MANIFEST-000002";

// The log number is 3, the next file number 5 and the last sequence number 1. The table 4 of 176
// bytes at level 0 has the key `61` at sequence number 1. Then the same after a previous log.
const FLUSH_EDITS: &[(u64, &[u8])] = &[
    (
        0,
        b"\x02\x03\x03\x05\x04\x01\x07\x00\x04\xb0\x01\x09a\x01\x01\x00\x00\x00\x00\x00\x00\x09a\x01\x01\x00\x00\x00\x00\x00\x00",
    ),
    (
        2,
        b"\x02\x03\x03\x05\x04\x01\x07\x00\x04\xb0\x01\x09a\x01\x01\x00\x00\x00\x00\x00\x00\x09a\x01\x01\x00\x00\x00\x00\x00\x00\x09\x00",
    ),
];

// A MANIFEST of the first of them.
const FLUSHED: &[u8] =
    b"\xe8\x99\xd3\x40\x1f\x00\x01\x02\x03\x03\x05\x04\x01\x07\x00\x04\xb0\x01\x09a\x01\x01\x00\x00\x00\x00\x00\x00\x09a\x01\x01\x00\x00\x00\x00\x00\x00";

// A memtable in which `61` is put as `31`.
fn sealed(alloc: Global) -> Result<MemTable<Bytewise>, AllocError>
    ensures some { IfOk result (λ memory. 0 < length memory.inserts) }
    ensures sequences { IfOk result (λ memory. HaveSequences memory.inserts) }
{
    let mut memory = MemTable::new(alloc);
    memory.reserve(1, 2)?;
    memory.insert(b"a", 1, Some(b"1"));
    Ok(memory)
}

// Whether the edit of its table is this one.
fn puts_table(alloc: Global, previous: u64, bytes: &[u8]) -> Result<bool, DbError> {
    let mut store = MemStore::new(alloc);
    let table = write_level0(alloc, &mut store, &sealed(alloc)?, 4, 4096)?;
    let edit = flush_edit(alloc, 3, previous, 5, 1, table)?;
    Ok(encode_edit(alloc, &edit)?.as_slice() == bytes)
}

#[test]
fn edits_of_flushes_have_their_tables(rt: HostRuntime) {
    for (previous, bytes) in FLUSH_EDITS {
        assert_eq!(rt; puts_table(rt.alloc(), *previous, bytes), Ok(true));
    }
}

fn flush_manifest(alloc: Global) -> Result<CurrentManifest, DbError> {
    Ok(CurrentManifest {
        number: 2,
        name: String::from_str(alloc, FLUSH_MANIFEST)?,
        end: 0,
    })
}

const PLAN: FlushPlan = FlushPlan {
    log_number: 3,
    previous_log_number: 0,
    last_sequence: 1,
    block_bytes: 4096,
};

// Flushes it after an empty MANIFEST into a version without tables, with the next number of these.
// The answer is where the MANIFEST ends, and whether the new version has the table 4.
fn flushes<S: Store>(
    alloc: Global,
    store: &mut S,
    numbers: &mut FileNumbers,
) -> Result<(u64, bool), FlushError> {
    let Ok(memory) = sealed(alloc) else {
        return Err(FlushError::Before(DbError::OutOfMemory));
    };
    let Ok(version) = version_of(alloc, &[], None) else {
        return Err(FlushError::Before(DbError::OutOfMemory));
    };
    let Ok(manifest) = flush_manifest(alloc) else {
        return Err(FlushError::Before(DbError::OutOfMemory));
    };
    let flushed = flush_memory(alloc, store, &memory, &version, &manifest, numbers, PLAN)?;
    Ok((flushed.manifest_end, flushed.version.has_number(4)))
}

// Whether a flush makes a table and its edit.
fn is_flushed(alloc: Global, store: &mut MemStore) -> bool {
    let mut numbers = FileNumbers { next: 4 };
    store.create(FLUSH_MANIFEST).is_ok()
        && matches!(flushes(alloc, store, &mut numbers), Ok((38, true)))
        && numbers.next == 5
        && does(alloc, store, Step::Holds("000004.ldb", &ONE_ENTRY))
        && does(alloc, store, Step::Holds(FLUSH_MANIFEST, FLUSHED))
}

#[test]
fn a_flush_makes_a_table_and_its_edit(rt: HostRuntime) {
    assert!(rt; is_flushed(rt.alloc(), &mut MemStore::new(rt.alloc())));
}

// The number of the append that fails, of a block, of what follows the blocks or of the edit, and
// how the flush fails.
const REFUSALS: &[(u64, FlushError)] = &[
    (3, FlushError::Before(DbError::Io)),
    (4, FlushError::Before(DbError::Io)),
    (6, FlushError::Edit),
];

// Whether the flush is refused so where this append fails.
fn refuses(alloc: Global, call: u64, refusal: FlushError) -> Result<bool, StoreError> {
    let mut store = failing(alloc, FLUSH_MANIFEST, call, 0)?;
    let mut numbers = FileNumbers { next: 4 };
    Ok(matches!(flushes(alloc, &mut store, &mut numbers), Err(error) if error == refusal))
}

#[test]
fn flushes_are_refused_before_their_edit_or_at_it(rt: HostRuntime) {
    for (call, refusal) in REFUSALS {
        assert_eq!(rt; refuses(rt.alloc(), *call, *refusal), Ok(true), "{call}");
    }
}

// Whether no flush draws a number beyond the last.
fn flushes_none(alloc: Global, store: &mut MemStore) -> bool {
    let mut numbers = FileNumbers { next: 1 << 62 };
    let flushed = flushes(alloc, store, &mut numbers);
    matches!(flushed, Err(FlushError::Before(DbError::NumbersSpent)))
        && does(alloc, store, Step::Names(""))
}

#[test]
fn no_flush_draws_a_number_beyond_the_last(rt: HostRuntime) {
    assert!(rt; flushes_none(rt.alloc(), &mut MemStore::new(rt.alloc())));
}

// ---- removal

// The tables of these numbers are in use.
#[derive(Drop)]
struct Tables(&'static [u64]);

impl LiveTables for Tables {
    ghost has = { λ tables n. Contains tables.0.now n };

    fn has_table(&self, number: u64) -> bool {
        self.0.contains(&number)
    }
}

// The names of all files; the numbers of the MANIFEST, the first log and one more log; the tables
// in use. Then those that aren't or have both names, once for each of their files, and the names
// that stay, in order and each ended by a semicolon.
struct Case {
    names: &'static [&'static str],
    numbers: (u64, u64, u64),
    tables: &'static [u64],
    unused: &'static [u64],
    left: &'static str,
}

#[rattlefmt::skip]
const CASES: &[Case] = &[
    Case { names: &[], numbers: (1, 2, 0), tables: &[], unused: &[], left: "" },
    Case { names: &["CURRENT", "LOCK", "MANIFEST-000004", "000005.log"], numbers: (4, 5, 0), tables: &[], unused: &[], left: "000005.log;CURRENT;LOCK;MANIFEST-000004;" },
    Case { names: &["MANIFEST-000003", "MANIFEST-000004", "MANIFEST-000005"], numbers: (4, 5, 0), tables: &[], unused: &[], left: "MANIFEST-000004;" },
    Case { names: &["000002.log", "000003.log", "000004.log", "000005.log", "000006.log"], numbers: (1, 5, 3), tables: &[], unused: &[], left: "000003.log;000005.log;000006.log;" },
    Case { names: &["000007.ldb", "000008.ldb", "000007.sst", "000008.sst", "000009.sst", "000010.sst"], numbers: (1, 2, 0), tables: &[8, 9], unused: &[7, 7, 8, 8, 10], left: "000008.ldb;000009.sst;" },
    Case { names: &["000004.dbtmp", "000005.dbtmp", "000012.log", "000012.ldb"], numbers: (4, 5, 0), tables: &[5], unused: &[12], left: "000012.log;" },
    Case { names: &["LOG", "LOG.old", "12.log", "000000.log", "lost", "000003.LDB", "MANIFEST-3"], numbers: (4, 5, 0), tables: &[], unused: &[], left: "000000.log;000003.LDB;12.log;LOG;LOG.old;MANIFEST-3;lost;" },
];

fn make_all(alloc: Global, names: &[&str]) -> Result<MemStore, StoreError> {
    let mut store = MemStore::new(alloc);
    for name in names {
        store.create(name)?;
    }
    Ok(store)
}

// Whether all that is obsolete is gone, and these tables must be closed.
fn is_whole(removal: &Removal, unused: &[u64]) -> bool {
    removal.complete && removal.tables.as_slice() == unused
}

// Whether these are left.
fn leaves(alloc: Global, case: &Case) -> Result<bool, StoreError> {
    let mut store = make_all(alloc, case.names)?;
    let (manifest_number, log_number, previous_log_number) = case.numbers;
    let numbers = LiveNumbers {
        manifest_number,
        log_number,
        previous_log_number,
    };
    let removed = matches!(
        remove_files(alloc, &mut store, &numbers, &Tables(case.tables)),
        Ok(removal) if is_whole(&removal, case.unused)
    );
    Ok(removed && does(alloc, &mut store, Step::Names(case.left)))
}

#[test]
fn live_files_are_left(rt: HostRuntime) {
    for case in CASES {
        assert_eq!(rt; leaves(rt.alloc(), case), Ok(true));
    }
}
