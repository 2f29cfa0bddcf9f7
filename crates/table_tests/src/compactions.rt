//! Jobs that compact tables.
ghost use Rattle.std.specs.Prelude.{◌≡◌, ◌<◌, ◌^◌, true};
ghost use Rattle.std.specs.List.Sorted.{IsNonDecreasing};

use crate::entries::{Row, entries_of, is_listed};
use crate::layouts::{TableRow, placed, version_of};
use coding::{Bytes, Damage, DbError, FileKind};
use compact::{DeeperFiles, FilesBelow, Job};
use cursor::{Cursor, ListCursor, Merge};
use edits::{Edit, Field, FileNumbers, PlacedTable};
use ikey::{Bytewise, KeyOrder, Kind};
use std::alloc::{AllocError, Global};
use std::test::*;
use store::{Extent, Fault, FaultStore, HasStore, MemStore, Plan, Store, StoreError};
use table::{KeyValue, Table};
use versions::JobPlan;

// ---- a source without caches, and inputs in memory

#[derive(Drop)]
struct Alone<S> {
    store: S,
}

impl<S: Store> HasStore<S> for Alone<S> {
    ghost use Rattle.std.proofs.Common.{refl};

    ghost store_of = { λ source. source.store };

    ghost with_store = { λ source store. record { store = store } };

    ghost gathers = { λ source number. ⊥ };

    fn store_mut(&mut self) -> &mut S {
        &mut self.store
    }

    ghost replaced = { λ source store. refl };

    ghost apart = { λ source store number kept. kept };
}

#[derive(Drop)]
struct InMemory<K: KeyOrder> {
    list: ListCursor<K>,
}

impl<K: KeyOrder, S: Store> Cursor<K, Alone<S>> for InMemory<K> {
    ghost use Rattle.std.specs.Prelude.{is_some};
    ghost use Rattle.cursor.specs.Single.{ListsPairs};
    ghost use Rattle.std.proofs.Common.{◌∙◌, ap, refl};

    ghost facts = { λ source. S.facts source.store };

    ghost lists = { λ cursor source at. ListsPairs K.cmp cursor.list at };

    ghost keeps = { λ cursor old new. Unit {0} };

    ghost stands = { λ cursor. is_some cursor.list.place };

    ghost limited = { λ cursor source. ⊥ };

    ghost torn = { λ cursor source cut. ⊥ };

    ghost leaves = { λ numbers old new. old ≡ new };

    ghost over = { λ cursor number. ⊥ };

    fn first(&mut self, alloc: Global, source: &mut Alone<S>) -> Result<(), DbError> {
        self.list.first(alloc, &mut source.store)
    }

    fn last(&mut self, alloc: Global, source: &mut Alone<S>) -> Result<(), DbError> {
        self.list.last(alloc, &mut source.store)
    }

    fn seek(&mut self, alloc: Global, source: &mut Alone<S>, target: &[u8]) -> Result<(), DbError> {
        self.list.seek(alloc, &mut source.store, target)
    }

    fn next(&mut self, alloc: Global, source: &mut Alone<S>) -> Result<(), DbError> {
        self.list.next(alloc, &mut source.store)
    }

    fn prev(&mut self, alloc: Global, source: &mut Alone<S>) -> Result<(), DbError> {
        self.list.prev(alloc, &mut source.store)
    }

    fn stands(&self) -> bool {
        <ListCursor<K> as Cursor<K, S>>::stands(&self.list)
    }

    fn key<'a>(&'a self, source: &'a Alone<S>) -> &'a [u8] {
        self.list.key(&source.store)
    }

    fn value<'a>(&'a self, source: &'a Alone<S>) -> &'a [u8] {
        self.list.value(&source.store)
    }

    ghost rises = { λ cursor source at h. h.rises };

    ghost placed = { λ cursor source at h. ap is_some h.place };

    ghost inside = { λ cursor source at index h e. h.inside index e };

    ghost kept = { λ cursor old new at k h. h };

    ghost still = { λ cursor source. tt };

    ghost onward = { λ cursor first second third k l. tt };

    ghost limits_kept = { λ cursor old new k l. l };

    ghost torn_kept = { λ cursor old new cut k t. t };

    ghost torn_same = { λ cursor source at a b h same t. t };

    ghost leaves_still = { λ numbers source. refl };

    ghost leaves_onward = { λ numbers first second third k l. k ∙ l };

    ghost leaves_more = { λ fewer more old new less k. k };
}

type Inputs = Merge<Bytewise, InMemory<Bytewise>>;

fn input_of(alloc: Global, entries: &[Row]) -> Result<InMemory<Bytewise>, DbError> {
    Ok(InMemory {
        list: ListCursor::new(entries_of(alloc, entries)?),
    })
}

fn inputs_of(alloc: Global, inputs: &[&[Row]]) -> Result<Inputs, DbError> {
    let mut cursors = Vec::new(alloc);
    for entries in inputs {
        cursors.push(input_of(alloc, entries)?)?;
    }
    Ok(Merge::new(alloc, cursors)?)
}

// ---- what the choices of entries use too

// Whether deeper files cover the keys `a` and `b`.
#[derive(Clone, Copy)]
pub struct Deeper {
    pub a: bool,
    pub b: bool,
}

impl Deeper {
    pub fn has(self, key: u8) -> bool {
        if key == b'a' { self.a } else { self.b }
    }
}

impl DeeperFiles for Deeper {
    ghost use Rattle.std.specs.Prelude.{if◌then◌else◌, ◌∷◌, []};
    ghost use Rattle.std.specs.Str.{bytes_eq};

    ghost covers = { λ deeper key. (if bytes_eq key (97 ∷ []) then deeper.a else deeper.b) };

    fn covers(&self, user: &[u8]) -> bool {
        if user == b"a".as_slice() {
            self.a
        } else {
            self.b
        }
    }
}

pub fn is_rising(numbers: &[u64]) -> bool
    ensures { result ≡ true → IsNonDecreasing numbers.now }
{
    numbers.is_sorted()
}

// ---- jobs

struct Case {
    inputs: &'static [&'static [Row]],
    // of all inputs
    count: u32,
    snapshots: &'static [u64],
    deeper: Deeper,
    file_bytes: u64,
    // the entries of each table that is written
    tables: &'static [&'static [Row]],
}

const A4: Row = (b"a", 4, Kind::Delete, b"");

const VALUED_A4: Row = (b"a", 4, Kind::Delete, b"value");

const A3: Row = (b"a", 3, Kind::Put, b"33");

const A2: Row = (b"a", 2, Kind::Put, b"32");

const A1: Row = (b"a", 1, Kind::Put, b"31");

const NEW_A: Row = (b"a", 5, Kind::Put, b"5");

const OLD_A: Row = (b"a", 1, Kind::Put, b"1");

const NEW_B: Row = (b"b", 4, Kind::Delete, b"");

const OLD_B: Row = (b"b", 2, Kind::Put, b"2");

const C: Row = (b"c", 3, Kind::Put, b"3");

const GONE_A: Row = (b"a", 5, Kind::Delete, b"");

const NO_DEEPER: Deeper = Deeper { a: false, b: false };

#[rattlefmt::skip]
const CASES: [Case; 7] = [
    // What the snapshots see is kept.
    Case { inputs: &[&[A4, A3, A2, A1]], count: 4, snapshots: &[1, 3, 4], deeper: NO_DEEPER, file_bytes: 1 << 20, tables: &[&[A4, A3, A1]] },
    // Where nothing is kept, nothing is written.
    Case { inputs: &[&[A4, A3, A2, A1]], count: 4, snapshots: &[4], deeper: NO_DEEPER, file_bytes: 1 << 20, tables: &[] },
    // A delete is kept over deeper files that cover its key.
    Case { inputs: &[&[A4, A3, A2, A1]], count: 4, snapshots: &[4], deeper: Deeper { a: true, b: false }, file_bytes: 1 << 20, tables: &[&[A4]] },
    Case { inputs: &[&[A4, A3, A2, A1]], count: 4, snapshots: &[4], deeper: Deeper { a: false, b: true }, file_bytes: 1 << 20, tables: &[] },
    // A delete is kept without the value that stands beside it.
    Case { inputs: &[&[VALUED_A4, A3]], count: 2, snapshots: &[4], deeper: Deeper { a: true, b: false }, file_bytes: 1 << 20, tables: &[&[A4]] },
    // Tables end where the user key changes, and the inputs are merged.
    Case { inputs: &[&[NEW_A, OLD_B], &[OLD_A, C], &[NEW_B]], count: 5, snapshots: &[1, 2, 5], deeper: NO_DEEPER, file_bytes: 1,
        tables: &[&[NEW_A, OLD_A], &[NEW_B, OLD_B], &[C]] },
    Case { inputs: &[&[NEW_A, OLD_B], &[OLD_A, C], &[NEW_B]], count: 5, snapshots: &[1, 2, 5], deeper: NO_DEEPER, file_bytes: 1 << 20, tables: &[&[NEW_A, OLD_A, NEW_B, OLD_B, C]] },
];

// The tables that a job takes, as it names them. They need not be there.
const INPUTS: [TableRow; 3] = [
    TableRow(2, 4, 176, b"b", 1, b"d", 1),
    TableRow(1, 7, 176, b"b", 1, b"d", 1),
    TableRow(1, 5, 176, b"b", 1, b"d", 1),
];

// The internal key of put(d) at sequence number 1.
const POINTER: &[u8] = b"d\x01\x01\0\0\0\0\0\0";

// From levels 1 and 2 to level 2.
fn plan(alloc: Global) -> Result<JobPlan, AllocError> {
    let mut inputs = Vec::new(alloc);
    for row in &INPUTS {
        inputs.push(placed(alloc, row)?)?;
    }
    Ok(JobPlan {
        inputs,
        output_level: 2,
        compact_pointer: Some(Bytes::copied_from(alloc, POINTER)?),
    })
}

type TestJob = Job<Bytewise, Inputs>;

// How many entries are left after a step, if it says how much it merged, and whether that was the
// end.
fn left_behind<S: Store + Drop>(
    alloc: Global,
    job: &mut TestJob,
    source: &mut Alone<S>,
    numbers: &mut FileNumbers,
    deeper: &Deeper,
    step: (u32, u32),
) -> Result<Option<u32>, DbError> {
    let (left, budget) = step;
    let progress = job.step(alloc, source, numbers, deeper, budget)?;
    let rest = left.saturating_sub(progress.merged);
    let is_so = progress.merged == budget.max(1).min(left) && progress.ended == (rest == 0);
    Ok(is_so.then_some(rest))
}

// Whether each step says how much it merged, up to the end.
fn merges_all<S: Store + Drop>(
    alloc: Global,
    job: &mut TestJob,
    source: &mut Alone<S>,
    numbers: &mut FileNumbers,
    case: &Case,
    budget: u32,
) -> Result<bool, DbError> {
    let mut left = case.count;
    for _ in 0..case.count.saturating_add(1) {
        match left_behind(alloc, job, source, numbers, &case.deeper, (left, budget))? {
            Some(0) => return Ok(true),
            Some(rest) => left = rest,
            None => return Ok(false),
        }
    }
    Ok(false)
}

// The edit of the case's job, in steps of this budget, where they do what they say.
fn edit_of<S: Store + Drop>(
    alloc: Global,
    source: &mut Alone<S>,
    case: &Case,
    budget: u32,
    next: u64,
) -> Result<Option<Edit>, DbError> {
    if next == 0 || !is_rising(case.snapshots) {
        return Ok(None);
    }
    let mut numbers = FileNumbers { next };
    let inputs = inputs_of(alloc, case.inputs)?;
    let mut job = TestJob::start(
        alloc,
        source,
        plan(alloc)?,
        case.snapshots,
        inputs,
        64,
        case.file_bytes,
    )?;
    if !merges_all(alloc, &mut job, source, &mut numbers, case, budget)? {
        return Ok(None);
    }
    let edit = job.finish(alloc, &mut source.store, &numbers, 90)?;
    Ok(Some(edit))
}

// Whether the table's file has the size that the edit says, and the table these entries.
fn has_table(
    alloc: Global,
    store: &mut MemStore,
    placed: &PlacedTable,
    entries: &[Row],
) -> Result<bool, DbError> {
    let name = match placed.table.number {
        9 => "000009.ldb",
        10 => "000010.ldb",
        _ => "000011.ldb",
    };
    let is_long = matches!(store.len(name), Ok(size) if size == placed.table.size);
    let table = Table::<Bytewise>::open(alloc, store, name)?;
    let pairs = table.entries(alloc, store)?;
    Ok(
        is_long
            && placed.level == 2
            && is_listed(alloc, &pairs, entries)?
            && spans(placed, pairs.first(), pairs.last()),
    )
}

// Whether the first and the last entry have the table's smallest and largest key.
fn spans(placed: &PlacedTable, first: Option<&KeyValue>, last: Option<&KeyValue>) -> bool {
    matches!(first, Some(pair) if pair.key == placed.table.smallest)
        && matches!(last, Some(pair) if pair.key == placed.table.largest)
}

// Whether these are the new tables.
fn are_made(
    alloc: Global,
    store: &mut MemStore,
    made: &[Field],
    tables: &[&[Row]],
) -> Result<bool, DbError> {
    for (field, entries) in made.iter().zip(tables) {
        let Field::NewFile(placed) = field else {
            return Ok(false);
        };
        if !has_table(alloc, store, placed, entries)? {
            return Ok(false);
        }
    }
    Ok(made.len() == tables.len())
}

// Whether the edit has the inputs' tables as gone, and these as new, and no other file is there.
fn has_tables(
    alloc: Global,
    store: &mut MemStore,
    edit: &Edit,
    tables: &[&[Row]],
) -> Result<bool, DbError> {
    let [
        Field::NextFileNumber(next),
        Field::LastSequence(90),
        Field::CompactPointer(1, key),
        Field::DeletedFile(1, 5),
        Field::DeletedFile(1, 7),
        Field::DeletedFile(2, 4),
        made @ ..,
    ] = edit.fields()
    else {
        return Ok(false);
    };
    let is_numbered = *next == (tables.len() as u64).saturating_add(9);
    let is_moved = key.as_slice() == POINTER;
    let are_alone = matches!(store.list(alloc), Ok(names) if names.len() == tables.len());
    Ok(is_numbered && is_moved && are_alone && are_made(alloc, store, made, tables)?)
}

// Whether the case's job, in steps of this budget, writes its tables and no others.
fn holds(alloc: Global, case: &Case, budget: u32) -> Result<bool, DbError> {
    let mut source = Alone {
        store: MemStore::new(alloc),
    };
    match edit_of(alloc, &mut source, case, budget, 9)? {
        Some(edit) => has_tables(alloc, &mut source.store, &edit, case.tables),
        None => Ok(false),
    }
}

fn holds_at_each_budget(alloc: Global, case: &Case) -> Result<bool, DbError> {
    for budget in [0, 1, 2, 3, 100] {
        if !holds(alloc, case, budget)? {
            return Ok(false);
        }
    }
    Ok(true)
}

#[test]
fn jobs_write_what_must_be_kept(rt: HostRuntime) {
    for (place, case) in CASES.iter().enumerate() {
        assert_eq!(rt;
            holds_at_each_budget(rt.alloc(), case),
            Ok(true),
            "case {place}"
        );
    }
}

#[rattlefmt::skip]
const REFUSED: [(Case, u64, DbError); 5] = [
    // Entries that don't rise, and two of one sequence number.
    (Case { inputs: &[&[OLD_A, NEW_A]], count: 2, snapshots: &[9], deeper: NO_DEEPER, file_bytes: 1, tables: &[] }, 9, DbError::Corrupt(FileKind::Table, Damage::Order)),
    (Case { inputs: &[&[NEW_A], &[NEW_A]], count: 2, snapshots: &[9], deeper: NO_DEEPER, file_bytes: 1, tables: &[] }, 9, DbError::Corrupt(FileKind::Table, Damage::Order)),
    (Case { inputs: &[&[NEW_B, NEW_A]], count: 2, snapshots: &[9], deeper: NO_DEEPER, file_bytes: 1, tables: &[] }, 9, DbError::Corrupt(FileKind::Table, Damage::Order)),
    (Case { inputs: &[&[NEW_A], &[GONE_A]], count: 2, snapshots: &[9], deeper: NO_DEEPER, file_bytes: 1, tables: &[] }, 9, DbError::Corrupt(FileKind::Table, Damage::Order)),
    // No number is left.
    (Case { inputs: &[&[NEW_A, OLD_A, NEW_B, OLD_B, C]], count: 5, snapshots: &[9], deeper: NO_DEEPER, file_bytes: 1, tables: &[] }, 1 << 62, DbError::NumbersSpent),
];

fn is_refused(alloc: Global, case: &Case, next: u64, error: DbError) -> bool {
    let mut source = Alone {
        store: MemStore::new(alloc),
    };
    matches!(edit_of(alloc, &mut source, case, 9, next), Err(e) if e == error)
}

#[test]
fn refusals_say_why(rt: HostRuntime) {
    for (case, next, error) in &REFUSED {
        assert!(rt; is_refused(rt.alloc(), case, *next, *error), "{error}");
    }
}

// A store with an input's file, whose call of this number fails, an append after three bytes.
fn failing(alloc: Global, call: u64) -> Result<FaultStore, StoreError> {
    let mut files = MemStore::new(alloc);
    files.create("000004.ldb")?;
    files.append("000004.ldb", b"in")?;
    let fault = Fault::Fail(Extent::Part(3));
    Ok(FaultStore::new(files, Some(Plan { call, fault })))
}

fn keeps_input(alloc: Global, store: &mut MemStore) -> bool {
    matches!(store.read_at(alloc, "000004.ldb", 0, 9), Ok(bytes) if bytes.as_slice() == b"in".as_slice())
}

// Whether a job is refused whose store fails at the call of this number, and leaves its inputs;
// None where it does anything else.
fn fails_at(alloc: Global, case: &Case, call: u64) -> Option<bool> {
    let store = failing(alloc, call).ok()?;
    let mut source = Alone { store };
    let is_failed = match edit_of(alloc, &mut source, case, 100, 9) {
        Ok(Some(_)) => false,
        Err(DbError::Io) => true,
        _ => return None,
    };
    keeps_input(alloc, &mut source.store.into_inner()).then_some(is_failed)
}

// At how many of the calls a job is refused.
fn failures_of(alloc: Global, case: &Case) -> Option<u64> {
    let mut failed = 0u64;
    for call in 1..40 {
        if fails_at(alloc, case, call)? {
            failed = failed.saturating_add(1);
        }
    }
    Some(failed)
}

// Each of the three tables is made, appended to twice and synced.
#[test]
fn a_failing_store_is_answered(rt: HostRuntime) {
    assert_eq!(rt; failures_of(rt.alloc(), &CASES[5]), Some(12));
}

// ---- deeper tables

// Whether the version of these tables covers the key below level 1.
fn covers_below(alloc: Global, rows: &[TableRow], user: &[u8]) -> Result<bool, DbError> {
    let version = version_of(alloc, rows, None)?;
    let files = FilesBelow {
        version: &version,
        level: 1,
    };
    Ok(files.covers(user))
}

#[rattlefmt::skip]
const COVERED: [(&[TableRow], &[u8], bool); 5] = [
    (&[TableRow(2, 4, 176, b"b", 1, b"d", 1)], b"b", true),
    (&[TableRow(1, 4, 176, b"b", 1, b"d", 1), TableRow(3, 5, 176, b"b", 1, b"d", 1)], b"d", true),
    (&[TableRow(0, 4, 176, b"b", 1, b"d", 1), TableRow(1, 5, 176, b"b", 1, b"d", 1)], b"c", false),
    (&[TableRow(2, 4, 176, b"b", 1, b"d", 1)], b"a", false),
    (&[TableRow(6, 4, 176, b"b", 1, b"d", 1)], b"e", false),
];

#[test]
fn deeper_tables_cover_keys(rt: HostRuntime) {
    for (rows, user, is_covered) in COVERED {
        assert_eq!(rt; covers_below(rt.alloc(), rows, user), Ok(is_covered));
    }
}
