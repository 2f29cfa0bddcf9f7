// What stores in memory do, by the calls of a database.
use std::alloc::Global;
use std::test::*;
use store::{Extent, Fault, FaultStore, MemStore, Plan, Store, StoreError};

// A call of a store, or a look at its files that answers whether they are so.
#[derive(Clone, Copy)]
pub enum Step<'a> {
    Create(&'a str),
    Append(&'a str, &'a [u8]),
    Sync(&'a str),
    Rename(&'a str, &'a str),
    Remove(&'a str),
    Lock,
    Unlock,
    // a file has these bytes and no more
    Holds(&'a str, &'a [u8]),
    // a read of a file, from the offset and of so many bytes, gives these
    Reads(&'a str, u64, usize, &'a [u8]),
    // no file has this name, as each call says
    Misses(&'a str),
    // these are the names of all files, in order and each ended by a semicolon
    Names(&'a str),
}

/// Holds a step, and what it answers.
pub type Row = (Step<'static>, Result<bool, StoreError>);

pub fn perform<S: Store>(alloc: Global, store: &mut S, step: Step<'_>) -> Result<bool, StoreError> {
    match step {
        Step::Create(name) => done(store.create(name)),
        Step::Append(name, bytes) => done(store.append(name, bytes)),
        Step::Sync(name) => done(store.sync(name)),
        Step::Rename(from, to) => done(store.rename(from, to)),
        Step::Remove(name) => done(store.remove(name)),
        Step::Lock => store.lock(),
        Step::Unlock => done(store.unlock()),
        Step::Holds(name, bytes) => holds(alloc, store, name, bytes),
        Step::Reads(name, offset, count, bytes) => {
            let is_read = reads(alloc, store, name, offset, count, bytes)?;
            Ok(is_read && reads_over(alloc, store, name, (offset, count), bytes)?)
        }
        Step::Misses(name) => Ok(misses(store, name) && has_no_bytes(alloc, store, name)),
        Step::Names(joined) => Ok(names(alloc, store)?.as_str() == joined),
    }
}

/// Returns whether the step is done, and is so.
pub fn does<S: Store>(alloc: Global, store: &mut S, step: Step<'_>) -> bool {
    matches!(perform(alloc, store, step), Ok(true))
}

fn done(answer: Result<(), StoreError>) -> Result<bool, StoreError> {
    match answer {
        Ok(()) => Ok(true),
        Err(error) => Err(error),
    }
}

fn reads<S: Store>(
    alloc: Global,
    store: &mut S,
    name: &str,
    offset: u64,
    count: usize,
    bytes: &[u8],
) -> Result<bool, StoreError> {
    Ok(store.read_at(alloc, name, offset, count)?.as_slice() == bytes)
}

// The same, in memory that has other bytes: too little of it, just enough, and far too much.
fn reads_over<S: Store>(
    alloc: Global,
    store: &mut S,
    name: &str,
    range: (u64, usize),
    bytes: &[u8],
) -> Result<bool, StoreError> {
    let (offset, count) = range;
    for length in [0, 2, 6, 4096] {
        let room = vec![in alloc; b'-'; length]?;
        let read = store.read_into(alloc, name, offset, count, room)?;
        if read.as_slice() != bytes {
            return Ok(false);
        }
    }
    Ok(true)
}

fn holds<S: Store>(
    alloc: Global,
    store: &mut S,
    name: &str,
    bytes: &[u8],
) -> Result<bool, StoreError> {
    let len = store.len(name)?;
    let is_read = reads(alloc, store, name, 0, bytes.len().saturating_add(1), bytes)?;
    Ok(is_read && len == bytes.len() as u64)
}

// The calls that change a file of this name. There is one that is named `there`.
fn misses<S: Store>(store: &mut S, name: &str) -> bool {
    is_failure(store.append(name, b"x"))
        && is_failure(store.sync(name))
        && is_failure(store.remove(name))
        && is_failure(store.rename(name, "there"))
}

fn is_failure(answer: Result<(), StoreError>) -> bool {
    matches!(answer, Err(StoreError::Device))
}

fn has_no_bytes<S: Store>(alloc: Global, store: &mut S, name: &str) -> bool {
    matches!(store.len(name), Err(StoreError::Missing))
        && matches!(store.read_at(alloc, name, 0, 1), Err(StoreError::Missing))
        && matches!(
            store.read_into(alloc, name, 0, 1, Vec::new(alloc)),
            Err(StoreError::Missing)
        )
}

fn names<S: Store>(alloc: Global, store: &mut S) -> Result<String, StoreError> {
    let mut names = store.list(alloc)?;
    names.sort()?;
    let mut joined = String::new(alloc);
    for name in names.iter() {
        joined.push_str(name.as_str())?;
        joined.push(';')?;
    }
    Ok(joined)
}

/// Returns the first step that answers otherwise, by its place.
pub fn first_wrong<S: Store>(alloc: Global, store: &mut S, rows: &[Row]) -> Option<usize> {
    for (place, (step, wanted)) in rows.iter().enumerate() {
        if perform(alloc, store, *step) != *wanted {
            return Some(place);
        }
    }
    None
}

/// Lists each call as it is done, a lock that is denied, reads from an offset to the smaller of
/// their end and the file's, and each call at a name that no file has.
pub const CALLS: &[Row] = &[
    (Step::Names(""), Ok(true)),
    (Step::Create("000001.dbtmp"), Ok(true)),
    (Step::Holds("000001.dbtmp", b""), Ok(true)),
    (Step::Append("000001.dbtmp", b"MANIFEST"), Ok(true)),
    (Step::Append("000001.dbtmp", b"-000002\n"), Ok(true)),
    (Step::Append("000001.dbtmp", b""), Ok(true)),
    (Step::Holds("000001.dbtmp", b"MANIFEST-000002\n"), Ok(true)),
    (Step::Sync("000001.dbtmp"), Ok(true)),
    (Step::Rename("000001.dbtmp", "CURRENT"), Ok(true)),
    (Step::Names("CURRENT;"), Ok(true)),
    (Step::Holds("CURRENT", b"MANIFEST-000002\n"), Ok(true)),
    (Step::Append("CURRENT", b"+"), Ok(true)),
    (Step::Holds("CURRENT", b"MANIFEST-000002\n+"), Ok(true)),
    (Step::Create("000003.log"), Ok(true)),
    (Step::Append("000003.log", b"first"), Ok(true)),
    (Step::Create("000003.log"), Ok(true)),
    (Step::Holds("000003.log", b""), Ok(true)),
    (Step::Append("000003.log", b"second"), Ok(true)),
    (Step::Sync("000003.log"), Ok(true)),
    (Step::Holds("000003.log", b"second"), Ok(true)),
    (Step::Names("000003.log;CURRENT;"), Ok(true)),
    (Step::Rename("000003.log", "CURRENT"), Ok(true)),
    (Step::Holds("CURRENT", b"second"), Ok(true)),
    (Step::Rename("CURRENT", "CURRENT"), Ok(true)),
    (Step::Holds("CURRENT", b"second"), Ok(true)),
    (Step::Names("CURRENT;"), Ok(true)),
    (Step::Lock, Ok(true)),
    (Step::Holds("LOCK", b""), Ok(true)),
    (Step::Lock, Ok(false)),
    (Step::Unlock, Ok(true)),
    (Step::Lock, Ok(true)),
    (Step::Unlock, Ok(true)),
    (Step::Unlock, Ok(true)),
    (Step::Names("CURRENT;LOCK;"), Ok(true)),
    (Step::Remove("CURRENT"), Ok(true)),
    (Step::Remove("LOCK"), Ok(true)),
    (Step::Names(""), Ok(true)),
    (Step::Create("000007.ldb"), Ok(true)),
    (Step::Append("000007.ldb", b"abcdef"), Ok(true)),
    (Step::Reads("000007.ldb", 0, 6, b"abcdef"), Ok(true)),
    (Step::Reads("000007.ldb", 2, 3, b"cde"), Ok(true)),
    (Step::Reads("000007.ldb", 4, 100, b"ef"), Ok(true)),
    (Step::Reads("000007.ldb", 4, 1 << 40, b"ef"), Ok(true)),
    (Step::Reads("000007.ldb", 3, 0, b""), Ok(true)),
    (Step::Reads("000007.ldb", 6, 1, b""), Ok(true)),
    (Step::Reads("000007.ldb", 7, 1, b""), Ok(true)),
    (Step::Reads("000007.ldb", 1 << 40, 1 << 40, b""), Ok(true)),
    (Step::Reads("000007.ldb", u64::MAX, 5, b""), Ok(true)),
    (Step::Remove("000007.ldb"), Ok(true)),
    (Step::Create("there"), Ok(true)),
    (Step::Append("there", b"kept"), Ok(true)),
    (Step::Misses("missing"), Ok(true)),
    (Step::Holds("missing", b""), Err(StoreError::Missing)),
    (Step::Holds("there", b"kept"), Ok(true)),
    (Step::Names("there;"), Ok(true)),
    (Step::Remove("there"), Ok(true)),
    (Step::Names(""), Ok(true)),
];

/// Lists files that are replaced, removed and made again: nothing that they held comes back.
pub const REPLACED: &[Row] = &[
    (Step::Create("a"), Ok(true)),
    (Step::Append("a", b"first"), Ok(true)),
    (Step::Sync("a"), Ok(true)),
    (Step::Append("a", b", more"), Ok(true)),
    (Step::Create("a"), Ok(true)),
    (Step::Holds("a", b""), Ok(true)),
    (Step::Append("a", b"second"), Ok(true)),
    (Step::Create("b"), Ok(true)),
    (Step::Append("b", b"third"), Ok(true)),
    (Step::Sync("b"), Ok(true)),
    (Step::Append("b", b"!"), Ok(true)),
    (Step::Rename("b", "a"), Ok(true)),
    (Step::Names("a;"), Ok(true)),
    (Step::Append("a", b"?"), Ok(true)),
    (Step::Holds("a", b"third!?"), Ok(true)),
    (Step::Rename("a", "b"), Ok(true)),
    (Step::Holds("a", b""), Err(StoreError::Missing)),
    (Step::Create("a"), Ok(true)),
    (Step::Sync("a"), Ok(true)),
    (Step::Append("a", b"fourth"), Ok(true)),
    (Step::Holds("a", b"fourth"), Ok(true)),
    (Step::Holds("b", b"third!?"), Ok(true)),
    (Step::Remove("b"), Ok(true)),
    (Step::Holds("b", b""), Err(StoreError::Missing)),
    (Step::Create("b"), Ok(true)),
    (Step::Holds("b", b""), Ok(true)),
    (Step::Remove("a"), Ok(true)),
    (Step::Names("b;"), Ok(true)),
    (Step::Remove("b"), Ok(true)),
    (Step::Names(""), Ok(true)),
];

#[test]
fn memory_keeps_what_was_written(rt: HostRuntime) {
    let mut store = MemStore::new(rt.alloc());
    for rows in [CALLS, REPLACED, CALLS, REPLACED] {
        assert_eq!(rt; first_wrong(rt.alloc(), &mut store, rows), None);
    }
}

#[test]
fn no_fault_changes_no_call(rt: HostRuntime) {
    let mut store = FaultStore::new(MemStore::new(rt.alloc()), None);
    assert_eq!(rt; first_wrong(rt.alloc(), &mut store, CALLS), None);
}

const BEFORE_A_COPY: &[Row] = &[
    (Step::Create("a"), Ok(true)),
    (Step::Append("a", b"first"), Ok(true)),
    (Step::Lock, Ok(true)),
];

const OF_THE_COPY: &[Row] = &[
    (Step::Names("LOCK;a;"), Ok(true)),
    (Step::Lock, Ok(true)),
    (Step::Append("a", b"+"), Ok(true)),
    (Step::Holds("a", b"first+"), Ok(true)),
];

// Whether a copy is made of the store, and does as it should.
fn is_copied(alloc: Global, store: &MemStore) -> bool {
    match store.copy() {
        Ok(mut copy) => first_wrong(alloc, &mut copy, OF_THE_COPY).is_none(),
        Err(_) => false,
    }
}

#[test]
fn a_copy_has_the_files_alone(rt: HostRuntime) {
    let mut store = MemStore::new(rt.alloc());
    assert_eq!(rt; first_wrong(rt.alloc(), &mut store, BEFORE_A_COPY), None);
    assert!(rt; is_copied(rt.alloc(), &store));
    assert!(rt; does(rt.alloc(), &mut store, Step::Holds("a", b"first")));
}

// ---- faults

// How many bytes of `abc` are appended to a log that has one, as a fault lets them, and what it has
// then.
const PARTS: [(usize, &[u8]); 4] = [(2, b"-abf"), (3, b"-abcf"), (9, b"-abcf"), (0, b"-f")];

const PARTLY: &[Row] = &[
    (Step::Create("log"), Ok(true)),
    (Step::Append("log", b"-"), Ok(true)),
    (Step::Append("log", b"abc"), Err(StoreError::Device)),
    (Step::Append("log", b"f"), Ok(true)),
    (Step::Sync("log"), Ok(true)),
];

// Whether a store counts these calls, whose third is an append of so many bytes, and the log is
// this then.
fn writes_part(alloc: Global, count: usize, log: &[u8]) -> bool {
    let fault = Fault::Fail(Extent::Part(count));
    let mut store = FaultStore::new(MemStore::new(alloc), Some(Plan { call: 3, fault }));
    let is_so = first_wrong(alloc, &mut store, PARTLY).is_none() && store.calls() == 5;
    is_so && does(alloc, &mut store.into_inner(), Step::Holds("log", log))
}

#[test]
fn a_fault_writes_a_part_of_its_append(rt: HostRuntime) {
    for (count, log) in PARTS {
        assert!(rt; writes_part(rt.alloc(), count, log), "{count}");
    }
}

// A call that a fault hits, over the one file `a` that holds `first+`. Then what it leaves of the
// files: if it isn't done, if it is, if two bytes of an append are, and if locks are denied.
struct Hit {
    step: Step<'static>,
    undone: &'static str,
    done: &'static str,
    part: &'static str,
    denied: &'static str,
}

#[rattlefmt::skip]
const HITS: [Hit; 13] = [
    Hit { step: Step::Names("a;"), undone: "a=first+;", done: "a=first+;", part: "a=first+;", denied: "a=first+;" },
    Hit { step: Step::Holds("a", b"first+"), undone: "a=first+;", done: "a=first+;", part: "a=first+;", denied: "a=first+;" },
    Hit { step: Step::Reads("a", 1, 2, b"ir"), undone: "a=first+;", done: "a=first+;", part: "a=first+;", denied: "a=first+;" },
    Hit { step: Step::Create("a"), undone: "a=first+;", done: "a=;", part: "a=first+;", denied: "a=;" },
    Hit { step: Step::Create("b"), undone: "a=first+;", done: "a=first+;b=;", part: "a=first+;", denied: "a=first+;b=;" },
    Hit { step: Step::Append("a", b"xyz"), undone: "a=first+;", done: "a=first+xyz;", part: "a=first+xy;", denied: "a=first+xyz;" },
    Hit { step: Step::Append("a", b"x"), undone: "a=first+;", done: "a=first+x;", part: "a=first+x;", denied: "a=first+x;" },
    Hit { step: Step::Append("a", b""), undone: "a=first+;", done: "a=first+;", part: "a=first+;", denied: "a=first+;" },
    Hit { step: Step::Sync("a"), undone: "a=first+;", done: "a=first+;", part: "a=first+;", denied: "a=first+;" },
    Hit { step: Step::Rename("a", "b"), undone: "a=first+;", done: "b=first+;", part: "a=first+;", denied: "b=first+;" },
    Hit { step: Step::Remove("a"), undone: "a=first+;", done: "", part: "a=first+;", denied: "" },
    Hit { step: Step::Lock, undone: "a=first+;", done: "LOCK=;a=first+;", part: "a=first+;", denied: "a=first+;" },
    Hit { step: Step::Unlock, undone: "a=first+;", done: "a=first+;", part: "a=first+;", denied: "a=first+;" },
];

const FAULTS: [Fault; 7] = [
    Fault::Fail(Extent::Before),
    Fault::Fail(Extent::After),
    Fault::Fail(Extent::Part(2)),
    Fault::Deny,
    Fault::Stop(Extent::Before),
    Fault::Stop(Extent::After),
    Fault::Stop(Extent::Part(2)),
];

fn is_stop(fault: Fault) -> bool {
    matches!(fault, Fault::Stop(_))
}

// What the call answers.
fn answer_of(hit: &Hit, fault: Fault) -> Result<bool, StoreError> {
    match fault {
        Fault::Deny => Ok(!matches!(hit.step, Step::Lock)),
        _ => Err(StoreError::Device),
    }
}

// What it leaves.
fn left_by(hit: &Hit, fault: Fault) -> &'static str {
    match fault {
        Fault::Deny => hit.denied,
        Fault::Fail(Extent::Before) | Fault::Stop(Extent::Before) => hit.undone,
        Fault::Fail(Extent::After) | Fault::Stop(Extent::After) => hit.done,
        Fault::Fail(Extent::Part(_)) | Fault::Stop(Extent::Part(_)) => hit.part,
    }
}

// Whether it is done, wholly or in part, and fails.
fn acts(hit: &Hit, fault: Fault) -> bool {
    match fault {
        Fault::Fail(Extent::After) | Fault::Stop(Extent::After) => matches!(
            hit.step,
            Step::Create(_) | Step::Append(_, _) | Step::Rename(_, _) | Step::Remove(_) | Step::Lock
        ),
        Fault::Fail(Extent::Part(_)) | Fault::Stop(Extent::Part(_)) => {
            matches!(hit.step, Step::Append(_, _))
        }
        _ => false,
    }
}

// Whether these are the files: each name with its bytes after a sign, in order and each ended by a
// semicolon.
fn has_left(alloc: Global, store: &mut MemStore, wanted: &str) -> Result<bool, StoreError> {
    let mut names = store.list(alloc)?;
    names.sort()?;
    let mut left = Vec::new(alloc);
    for name in names.iter() {
        left.extend_from_slice(name.as_str().as_bytes())?;
        left.push(b'=')?;
        let bytes = store.read_at(alloc, name.as_str(), 0, 100)?;
        left.extend_from_slice(bytes.as_slice())?;
        left.push(b';')?;
    }
    Ok(left.as_slice() == wanted.as_bytes())
}

// A store whose second call from here on has the fault.
fn faulty(alloc: Global, fault: Fault) -> Result<FaultStore, StoreError> {
    let mut inner = MemStore::new(alloc);
    inner.create("a")?;
    inner.append("a", b"first")?;
    Ok(FaultStore::new(inner, Some(Plan { call: 2, fault })))
}

// Whether the call before the fault is done, and the one that it hits answers as it should.
fn is_hit(alloc: Global, store: &mut FaultStore, hit: &Hit, fault: Fault) -> bool {
    does(alloc, store, Step::Append("a", b"+"))
        && perform(alloc, store, hit.step) == answer_of(hit, fault)
        && store.acted() == acts(hit, fault)
}

// Whether what is left is what it should be, and another process takes the lock.
fn remains(alloc: Global, store: &FaultStore, wanted: &str) -> Result<bool, StoreError> {
    let mut copy = store.remains()?;
    Ok(has_left(alloc, &mut copy, wanted)? && copy.lock()?)
}

// The calls after the one that was hit: all are done, or none if it was a process crash.
const BEHIND: [Step<'static>; 4] = [
    Step::Lock,
    Step::Unlock,
    Step::Create("z"),
    Step::Append("z", b"z"),
];

fn goes_on(alloc: Global, store: &mut FaultStore, fault: Fault) -> bool {
    let wanted = if is_stop(fault) {
        Err(StoreError::Device)
    } else {
        Ok(true)
    };
    for step in BEHIND {
        if perform(alloc, store, step) != wanted {
            return false;
        }
    }
    true
}

// Whether a fault at a call does as it should, then and later.
fn strikes(alloc: Global, hit: &Hit, fault: Fault) -> Result<bool, StoreError> {
    let mut store = faulty(alloc, fault)?;
    let wanted = left_by(hit, fault);
    if !is_hit(alloc, &mut store, hit, fault) || !remains(alloc, &store, wanted)? {
        return Ok(false);
    }
    let goes_on = goes_on(alloc, &mut store, fault);
    Ok(goes_on && (!is_stop(fault) || remains(alloc, &store, wanted)?))
}

// The first call at which a fault does otherwise, by its place.
fn first_astray(alloc: Global, fault: Fault) -> Result<Option<usize>, StoreError> {
    for (place, hit) in HITS.iter().enumerate() {
        if !strikes(alloc, hit, fault)? {
            return Ok(Some(place));
        }
    }
    Ok(None)
}

#[test]
fn faults_strike_one_call_or_stop_all_behind_it(rt: HostRuntime) {
    for fault in FAULTS {
        assert_eq!(rt; first_astray(rt.alloc(), fault), Ok(None), "{fault:?}");
    }
}

// The writing calls of a small life of a directory.
const LIFE: [Step<'static>; 13] = [
    Step::Create("000001.dbtmp"),
    Step::Append("000001.dbtmp", b"MANIFEST-000002\n"),
    Step::Rename("000001.dbtmp", "CURRENT"),
    Step::Create("000003.log"),
    Step::Append("000003.log", b"a batch"),
    Step::Append(
        "000003.log",
        b"another batch, so that the file's room has to grow",
    ),
    Step::Create("000003.log"),
    Step::Sync("000003.log"),
    Step::Create("000004.log"),
    Step::Rename("000003.log", "000004.log"),
    Step::Lock,
    Step::Remove("CURRENT"),
    Step::Unlock,
];

// Whether a directory has had it. This takes no memory.
fn has_lived(store: &mut MemStore) -> bool {
    matches!(store.len("000004.log"), Ok(0))
        && matches!(store.len("LOCK"), Ok(0))
        && matches!(store.len("CURRENT"), Err(StoreError::Missing))
}

// Whether two stores have the same files.
fn are_same(alloc: Global, a: &mut MemStore, b: &mut MemStore) -> Result<bool, StoreError> {
    if names(alloc, a)?.as_str() != names(alloc, b)?.as_str() {
        return Ok(false);
    }
    for name in a.list(alloc)?.iter() {
        let bytes = a.read_at(alloc, name.as_str(), 0, 1000)?;
        if !holds(alloc, b, name.as_str(), bytes.as_slice())? {
            return Ok(false);
        }
    }
    Ok(true)
}

// A copy, made once more where there was no memory.
fn copied(store: &MemStore) -> Result<MemStore, StoreError> {
    match store.copy() {
        Ok(copy) => Ok(copy),
        Err(_) => store.copy(),
    }
}

// How a step fails out of memory. A sync and a removal don't say so: they have failed.
fn refusal(step: Step<'_>) -> StoreError {
    match step {
        Step::Sync(_) | Step::Remove(_) => StoreError::Device,
        _ => StoreError::Memory,
    }
}

// Whether a step that failed out of memory changed nothing, and is done once more.
fn is_done_again(
    alloc: Global,
    before: &mut MemStore,
    store: &mut MemStore,
    step: Step<'_>,
    error: StoreError,
) -> bool {
    error == refusal(step) && are_same(alloc, before, store) == Ok(true) && does(alloc, store, step)
}

// Whether a step is done, or changed nothing and is done once more.
fn persists(alloc: Global, store: &mut MemStore, step: Step<'_>) -> bool {
    match copied(store) {
        Ok(mut before) => match perform(alloc, store, step) {
            Ok(_) => true,
            Err(error) => is_done_again(alloc, &mut before, store, step, error),
        },
        Err(_) => false,
    }
}

// To be run with each allocation failing in turn.
#[test]
fn out_of_memory_changes_nothing(rt: HostRuntime) {
    let mut store = MemStore::new(rt.alloc());
    for step in LIFE {
        assert!(rt; persists(rt.alloc(), &mut store, step));
    }
    assert!(rt; has_lived(&mut store));
}
