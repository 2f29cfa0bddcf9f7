// Walks over ranges of keys, and scans.
use batch::Batch;
use coding::{Bytes, DbError};
use engine::{Db, Ids, KeyRange, Mode, Options, Progress};
use ikey::{Bytewise, KeyOrder, ReverseBytes};
use std::alloc::{AllocGlobal, Global};
use std::test::Fail;
use store::MemStore;

// What is written, a digit each, one batch after the other: some keys are written twice, and d is
// deleted again.
const PUTS: &[(&[u8], &[u8])] = &[
    (b"a", b"1"),
    (b"c", b"2"),
    (b"b", b"3"),
    (b"ab", b"4"),
    (b"e", b"5"),
    (b"c", b"6"),
    (b"d", b"7"),
    (b"\xff\xff", b"8"),
];

// Opens a database in memory whose memtable is sealed by each write, and writes all of it
// there; some of it comes into tables.
fn written<K: KeyOrder>(alloc: Global) -> Result<Db<MemStore, K>, DbError> {
    let options = Options::default()
        .with_write_buffer(1)
        .unwrap_or(Options::default());
    let mut db = Db::open(
        alloc,
        MemStore::new(alloc),
        options,
        Mode::New,
        Ids::first(),
    )?;
    for (key, value) in PUTS {
        let mut batch = Batch::new(alloc);
        batch.put(key, value)?;
        db.write(alloc, &batch, false)?;
        db.work(alloc, 1)?;
    }
    let mut batch = Batch::new(alloc);
    batch.delete(b"d")?;
    db.write(alloc, &batch, false)?;
    Ok(db)
}

// Bounds, a limit, and the values that come, in their order.
type Case<'a> = (Option<&'a [u8]>, Option<&'a [u8]>, usize, &'a [u8]);

#[rattlefmt::skip]
const CASES: [Case<'static>; 12] = [
    (None, None, 99, b"143658"),
    (None, None, 5, b"14365"),
    (None, None, 2, b"14"),
    (None, None, 0, b""),
    (Some(b"ab"), None, 99, b"43658"),
    (Some(b"aa"), Some(b"c"), 99, b"43"),
    (Some(b"a"), Some(b"a"), 99, b""),
    (Some(b"c"), Some(b"b"), 99, b""),
    (Some(b"d"), Some(b"e"), 99, b""),
    (Some(b"f"), None, 99, b"8"),
    (None, Some(b""), 99, b""),
    (None, Some(b"ab"), 99, b"1"),
];

const TURNED: [Case<'static>; 3] = [
    (None, None, 99, b"856341"),
    (Some(b"c"), Some(b"a"), 99, b"634"),
    (Some(b"d"), None, 2, b"63"),
];

fn range_of(alloc: Global, from: Option<&[u8]>, to: Option<&[u8]>) -> Result<KeyRange, DbError> {
    Ok(match (from, to) {
        (None, None) => KeyRange::all(),
        (Some(from), None) => KeyRange::starting_at(alloc, from)?,
        (None, Some(to)) => KeyRange::ending_before(alloc, to)?,
        (Some(from), Some(to)) => KeyRange::between(alloc, from, to)?,
    })
}

// Whether these pairs have these values, of a byte each.
fn has_values(pairs: &[(Bytes, Bytes)], wanted: &[u8]) -> bool {
    let mut at = 0_usize;
    for (_, value) in pairs {
        if wanted.get(at..).and_then(|rest| rest.first()) != value.as_slice().first() {
            return false;
        }
        at = at.saturating_add(1);
    }
    at == wanted.len()
}

fn scans<K: KeyOrder>(alloc: Global, db: &mut Db<MemStore, K>, case: &Case<'_>) -> bool {
    let (from, to, limit, wanted) = *case;
    let Ok(keys) = range_of(alloc, from, to) else {
        return false;
    };
    matches!(db.scan(alloc, keys, None, limit), Ok(pairs) if has_values(&pairs, wanted))
}

// The number of the first case that is answered otherwise, and how often a scan took an iterator.
fn first_wrong<K: KeyOrder>(
    alloc: Global,
    cases: &[Case<'_>],
) -> Result<(Option<usize>, u64), DbError> {
    let mut db = written::<K>(alloc)?;
    let mut wrong = None;
    for (index, case) in cases.iter().enumerate() {
        if !scans(alloc, &mut db, case) {
            wrong = wrong.or(Some(index));
        }
    }
    let (_, ids) = db.close();
    Ok((wrong, ids.iterator))
}

#[test]
fn a_scan_has_the_pairs_of_its_range(rt: HostRuntime) -> Result<(), Fail> {
    assert_eq!(rt; first_wrong::<Bytewise>(rt.alloc(), &CASES)?, (None, 12));
    assert_eq!(rt;
        first_wrong::<ReverseBytes>(rt.alloc(), &TURNED)?,
        (None, 3)
    );
    Ok(())
}

// Prefixes, and the values of the keys that begin so.
const PREFIXES: [(&[u8], &[u8]); 7] = [
    (b"", b"143658"),
    (b"a", b"14"),
    (b"ab", b"4"),
    (b"b", b"3"),
    (b"\xff", b"8"),
    (b"\xff\xff", b"8"),
    (b"\xff\xff\xff", b""),
];

fn has_prefix(
    alloc: Global,
    db: &mut Db<MemStore, Bytewise>,
    prefix: &[u8],
    wanted: &[u8],
) -> Result<bool, DbError> {
    let keys = KeyRange::with_prefix(alloc, prefix)?;
    let pairs = db.scan(alloc, keys, None, 99)?;
    Ok(has_values(&pairs, wanted))
}

fn first_wrong_prefix(alloc: Global) -> Result<Option<usize>, DbError> {
    let mut db = written::<Bytewise>(alloc)?;
    let mut wrong = None;
    for (index, (prefix, wanted)) in PREFIXES.iter().enumerate() {
        if !matches!(has_prefix(alloc, &mut db, prefix, wanted), Ok(true)) {
            wrong = wrong.or(Some(index));
        }
    }
    let (_, _) = db.close();
    Ok(wrong)
}

#[test]
fn a_range_of_a_prefix_has_the_keys_that_begin_so(rt: HostRuntime) -> Result<(), Fail> {
    assert_eq!(rt; first_wrong_prefix(rt.alloc())?, None);
    Ok(())
}

fn is_one(found: &Result<Option<(Bytes, Bytes)>, DbError>, wanted: &[u8]) -> bool {
    match found {
        Ok(Some((_, value))) => value.as_slice() == wanted,
        _ => false,
    }
}

// A walk from ab up to e: it sees what was there when it began, and gives up its iterator.
fn walks(alloc: Global, db: &mut Db<MemStore, Bytewise>) -> Result<bool, DbError> {
    let keys = KeyRange::between(alloc, b"ab", b"e")?;
    let mut walk = db.range(alloc, keys, None)?;
    let mut rest = Vec::new(alloc);
    let first = is_one(&db.range_next(alloc, &mut walk), b"4");
    let wrote = db.work(alloc, 9).is_ok();
    let filled = db.range_fill(alloc, &mut walk, 1, &mut rest);
    let filled_again = db.range_fill(alloc, &mut walk, 9, &mut rest);
    let over = matches!(db.range_next(alloc, &mut walk), Ok(None));
    let still_over = matches!(db.range_next(alloc, &mut walk), Ok(None));
    db.range_end(walk);
    filled?;
    filled_again?;
    let is_free = matches!(db.iter_release(1), Err(DbError::NoIterator));
    Ok(first && wrote && over && still_over && is_free && has_values(&rest, b"36"))
}

fn walked(alloc: Global) -> Result<bool, DbError> {
    let mut db = written::<Bytewise>(alloc)?;
    let walks = walks(alloc, &mut db);
    let (_, _) = db.close();
    walks
}

#[test]
fn a_walk_goes_through_its_range_and_ends(rt: HostRuntime) -> Result<(), Fail> {
    assert!(rt; walked(rt.alloc())?);
    Ok(())
}

// Whether a database works until there is nothing left, keeps its pairs, and has no work then.
fn settles(alloc: Global, db: &mut Db<MemStore, Bytewise>) -> bool {
    db.settle(alloc, 3).is_ok()
        && matches!(db.work(alloc, 3), Ok(Progress::Idle))
        && scans(alloc, db, &CASES[0])
}

fn settled(alloc: Global) -> Result<bool, DbError> {
    let mut db = written::<Bytewise>(alloc)?;
    let settles = settles(alloc, &mut db);
    let (_, _) = db.close();
    Ok(settles)
}

#[test]
fn a_database_settles(rt: HostRuntime) -> Result<(), Fail> {
    assert!(rt; settled(rt.alloc())?);
    Ok(())
}
