// What `get` and `scan` print of a directory in memory.
use batch::Batch;
use browse::{Choice, Form, Showing, Style, get, get_each, puts_are_read, range_of, scan};
use coding::{Bytes, DbError};
use engine::{Db, Ids, KeyRange, Mode, Options};
use ikey::{Bytewise, KeyOrder, ReverseBytes};
use reader::ReadOnly;
use script::Nobody;
use std::alloc::{AllocError, AllocGlobal, Global};
use std::test::Fail;
use store::{MemStore, Store, StoreError};

type Looked = ReadOnly<MemStore>;

// What is written, one batch after the other, so that some of it comes into tables: b is written
// twice, and d is deleted again.
const PUTS: &[(&[u8], &[u8])] = &[
    (b"b", b"no"),
    (b"", b"0"),
    (b"ba", b""),
    (b"a", b"1"),
    (b"d", b"2"),
    (b"b", b"\\ ~\x7f\n"),
    (b"\xff", b"\x00"),
];

fn opened<K: KeyOrder>(alloc: Global) -> Result<Db<MemStore, K>, DbError> {
    let options = Options::default()
        .with_write_buffer(1)
        .unwrap_or(Options::default());
    let db = Db::open(
        alloc,
        MemStore::new(alloc),
        options,
        Mode::New,
        Ids::first(),
    )?;
    Ok(db)
}

fn put_all<K: KeyOrder>(alloc: Global, db: &mut Db<MemStore, K>) -> Result<(), DbError> {
    for (key, value) in PUTS {
        let mut batch = Batch::new(alloc);
        batch.put(key, value)?;
        db.write(alloc, &batch, false)?;
        db.work(alloc, 1)?;
    }
    let mut batch = Batch::new(alloc);
    batch.delete(b"d")?;
    db.write(alloc, &batch, false)
}

// (one way out while the database is owned: more are dear to prove)
pub fn written<K: KeyOrder>(alloc: Global) -> Result<MemStore, DbError> {
    let mut db = opened::<K>(alloc)?;
    let done = put_all(alloc, &mut db);
    let (store, _) = db.close();
    match done {
        Ok(()) => Ok(store),
        Err(error) => Err(error),
    }
}

// The first key of a range and the first key after it, what its keys begin with, how many may come,
// whether they come backwards, and the text.
struct Case<'a> {
    from: Option<&'a [u8]>,
    to: Option<&'a [u8]>,
    prefix: Option<&'a [u8]>,
    most: Option<u64>,
    backwards: bool,
    style: Style,
    text: &'a str,
}

const KEYS: Style = Style::Keys(Form::Hex);

#[rattlefmt::skip]
const CASES: [Case<'static>; 21] = [
    Case { from: None, to: None, prefix: None, most: None, backwards: false, style: Style::Puts, text: "put - 30\nput 61 31\nput 62 5c207e7f0a\nput 6261 -\nput ff 00\n" },
    Case { from: None, to: None, prefix: None, most: None, backwards: true, style: KEYS, text: "ff\n6261\n62\n61\n-\n" },
    Case { from: None, to: None, prefix: None, most: Some(2), backwards: false, style: KEYS, text: "-\n61\n" },
    Case { from: None, to: None, prefix: None, most: Some(2), backwards: true, style: KEYS, text: "ff\n6261\n" },
    Case { from: None, to: None, prefix: None, most: Some(0), backwards: false, style: KEYS, text: "" },
    Case { from: None, to: None, prefix: None, most: Some(9), backwards: false, style: Style::JsonKeys, text: "{\"key\":\"\"}\n{\"key\":\"61\"}\n{\"key\":\"62\"}\n{\"key\":\"6261\"}\n{\"key\":\"ff\"}\n" },
    Case { from: Some(b"b"), to: Some(b"c"), prefix: None, most: None, backwards: false, style: Style::JsonPairs, text: "{\"key\":\"62\",\"value\":\"5c207e7f0a\"}\n{\"key\":\"6261\",\"value\":\"\"}\n" },
    Case { from: Some(b"b"), to: Some(b"c"), prefix: None, most: None, backwards: true, style: Style::Pairs(Form::Text), text: "ba \nb \\\\ ~\\x7f\\x0a\n" },
    Case { from: Some(b"b"), to: Some(b"ba"), prefix: None, most: None, backwards: true, style: KEYS, text: "62\n" },
    Case { from: Some(b"aa"), to: None, prefix: None, most: Some(1), backwards: false, style: KEYS, text: "62\n" },
    Case { from: None, to: Some(b"aa"), prefix: None, most: Some(1), backwards: true, style: KEYS, text: "61\n" },
    Case { from: None, to: Some(b""), prefix: None, most: None, backwards: true, style: KEYS, text: "" },
    Case { from: Some(b"c"), to: Some(b"b"), prefix: None, most: None, backwards: false, style: KEYS, text: "" },
    Case { from: Some(b"c"), to: Some(b"b"), prefix: None, most: None, backwards: true, style: KEYS, text: "" },
    Case { from: None, to: Some(b"\xff\xff"), prefix: None, most: Some(1), backwards: true, style: Style::Keys(Form::Text), text: "\\xff\n" },
    Case { from: None, to: None, prefix: Some(b"b"), most: None, backwards: false, style: KEYS, text: "62\n6261\n" },
    Case { from: Some(b"ba"), to: None, prefix: Some(b"b"), most: None, backwards: false, style: KEYS, text: "6261\n" },
    Case { from: Some(b"a"), to: Some(b"ba"), prefix: Some(b"b"), most: None, backwards: true, style: KEYS, text: "62\n" },
    Case { from: None, to: None, prefix: Some(b"\xff"), most: None, backwards: false, style: KEYS, text: "ff\n" },
    Case { from: None, to: None, prefix: Some(b""), most: Some(1), backwards: false, style: Style::Keys(Form::Text), text: "\n" },
    Case { from: None, to: None, prefix: Some(b"d"), most: None, backwards: false, style: KEYS, text: "" },
];

// Whether a scan prints this; the store comes back.
fn scans<K: KeyOrder>(alloc: Global, store: Looked, choice: &Choice, text: &str) -> (bool, Looked) {
    let mut printed = Vec::new(alloc);
    let (status, store) = scan::<K, MemStore, Vec<u8>, Nobody>(
        alloc,
        store,
        choice,
        &mut printed,
        &mut Nobody,
    );
    let same = matches!(status, Ok(0)) && printed.as_slice() == text.as_bytes();
    (same, store)
}

fn choice_of(alloc: Global, case: &Case<'_>) -> Option<Choice> {
    let keys = range_of(alloc, case.from, case.to, case.prefix).ok()?;
    Some(Choice {
        keys,
        most: case.most,
        backwards: case.backwards,
        style: case.style,
    })
}

fn prints(alloc: Global, store: Looked, case: &Case<'_>) -> (bool, Looked) {
    match choice_of(alloc, case) {
        Some(choice) => scans::<Bytewise>(alloc, store, &choice, case.text),
        None => (false, store),
    }
}

// The number of the first case that is printed otherwise.
fn first_wrong(alloc: Global) -> Result<Option<usize>, DbError> {
    puts_are_read();
    let mut store = ReadOnly::over(written::<Bytewise>(alloc)?);
    let mut wrong = None;
    for (index, case) in CASES.iter().enumerate() {
        let (same, back) = prints(alloc, store, case);
        store = back;
        if !same {
            wrong = wrong.or(Some(index));
        }
    }
    Ok(wrong)
}

#[test]
fn a_scan_prints_what_is_chosen(rt: HostRuntime) -> Result<(), Fail> {
    assert_eq!(rt; first_wrong(rt.alloc())?, None);
    Ok(())
}

// In another order, both ways.
fn turned_keys(alloc: Global) -> Result<bool, DbError> {
    let store = ReadOnly::over(written::<ReverseBytes>(alloc)?);
    let choice = Choice {
        keys: KeyRange::between(alloc, b"b", b"")?,
        most: None,
        backwards: true,
        style: KEYS,
    };
    let (same, store) = scans::<ReverseBytes>(alloc, store, &choice, "61\n62\n");
    let all = "put ff 00\nput 6261 -\nput 62 5c207e7f0a\nput 61 31\nput - 30\n";
    let (all_same, _) = scans::<ReverseBytes>(alloc, store, &Choice::of_all_puts(), all);
    Ok(same && all_same)
}

#[test]
fn a_scan_goes_by_the_order_of_the_database(rt: HostRuntime) -> Result<(), Fail> {
    assert!(rt; turned_keys(rt.alloc())?);
    Ok(())
}

// A key, how its value is printed, the text and the status.
const VALUES: [(&[u8], Showing, &str, u8); 12] = [
    (b"a", Showing::Line(Form::Hex), "31\n", 0),
    (b"a", Showing::Line(Form::Text), "1\n", 0),
    (b"", Showing::Line(Form::Hex), "30\n", 0),
    (b"b", Showing::Line(Form::Text), "\\\\ ~\\x7f\\x0a\n", 0),
    (b"ba", Showing::Line(Form::Hex), "-\n", 0),
    (b"ba", Showing::Line(Form::Text), "\n", 0),
    (b"d", Showing::Line(Form::Hex), "", 4),
    (b"c", Showing::Line(Form::Text), "", 4),
    (b"b", Showing::Bytes, "\\ ~\x7f\n", 0),
    (b"c", Showing::Bytes, "", 4),
    (b"a", Showing::EachLine(Form::Text), "1\n", 0),
    (b"c", Showing::EachLine(Form::Text), "\\N\n", 4),
];

fn gets(
    alloc: Global,
    store: Looked,
    key: &[u8],
    showing: Showing,
    wanted: (&str, u8),
) -> (bool, Looked) {
    let mut printed = Vec::new(alloc);
    let (status, store) = get::<Bytewise, MemStore, Vec<u8>, Nobody>(
        alloc,
        store,
        key,
        showing,
        &mut printed,
        &mut Nobody,
    );
    let same = matches!(status, Ok(code) if code == wanted.1)
        && printed.as_slice() == wanted.0.as_bytes();
    (same, store)
}

fn first_wrong_value(alloc: Global) -> Result<Option<usize>, DbError> {
    let mut store = ReadOnly::over(written::<Bytewise>(alloc)?);
    let mut wrong = None;
    for (index, (key, showing, text, status)) in VALUES.iter().enumerate() {
        let (same, back) = gets(alloc, store, key, *showing, (*text, *status));
        store = back;
        if !same {
            wrong = wrong.or(Some(index));
        }
    }
    Ok(wrong)
}

#[test]
fn a_value_is_printed_in_its_form(rt: HostRuntime) -> Result<(), Fail> {
    assert_eq!(rt; first_wrong_value(rt.alloc())?, None);
    Ok(())
}

// Some keys, the lines of their values, and the status.
const LISTED: [(&[&[u8]], &str, u8); 4] = [
    (&[], "", 0),
    (&[b"a", b"", b"b"], "1\n0\n\\\\ ~\\x7f\\x0a\n", 0),
    (&[b"c", b"ba", b"a"], "\\N\n\n1\n", 4),
    (&[b"a", b"a"], "1\n1\n", 0),
];

fn keys_of(alloc: Global, keys: &[&[u8]]) -> Result<Vec<Bytes>, AllocError> {
    let mut owned = Vec::new(alloc);
    for key in keys {
        owned.push(Bytes::copied_from(alloc, key)?)?;
    }
    Ok(owned)
}

// Whether the keys have these lines, or of a directory that is refused none.
fn are_listed(
    alloc: Global,
    store: MemStore,
    keys: &[&[u8]],
    text: &str,
    status: u8,
) -> Result<bool, DbError> {
    let keys = keys_of(alloc, keys)?;
    let mut printed = Vec::new(alloc);
    let (found, _store) = get_each::<Bytewise, MemStore, Vec<u8>, Nobody>(
        alloc,
        ReadOnly::over(store),
        &keys,
        Form::Text,
        &mut printed,
        &mut Nobody,
    );
    Ok(matches!(found, Ok(code) if code == status) && printed.as_slice() == text.as_bytes())
}

fn first_wrong_list(alloc: Global) -> Result<Option<usize>, DbError> {
    for (index, (keys, text, status)) in LISTED.iter().enumerate() {
        let store = written::<Bytewise>(alloc)?;
        if !are_listed(alloc, store, keys, text, *status)? {
            return Ok(Some(index));
        }
    }
    let refused = are_listed(alloc, damaged(alloc)?, &[b"c", b"a", b"a"], "\\N\n", 1)?;
    Ok(if refused { None } else { Some(9) })
}

#[test]
fn keys_have_a_line_each(rt: HostRuntime) -> Result<(), Fail> {
    assert_eq!(rt; first_wrong_list(rt.alloc())?, None);
    Ok(())
}

// Changes the first byte of each table: its length stays, so that it is found when the table is
// read.
fn damage(alloc: Global, store: &mut MemStore) -> Result<(), StoreError> {
    for name in store.list(alloc)? {
        if !name.ends_with(".ldb") {
            continue;
        }
        let mut bytes = store.read_at(alloc, &name, 0, 1 << 20)?;
        if let Some(byte) = bytes.get_mut(0) {
            *byte ^= 255;
        }
        store.create(&name)?;
        store.append(&name, &bytes)?;
    }
    Ok(())
}

fn damaged(alloc: Global) -> Result<MemStore, DbError> {
    let mut store = written::<Bytewise>(alloc)?;
    match damage(alloc, &mut store) {
        Ok(()) => Ok(store),
        Err(_) => Err(DbError::Io),
    }
}

// Whether nothing is printed of a directory that is refused, and the status says so.
fn refusals(alloc: Global, store: MemStore) -> (bool, bool) {
    let store = ReadOnly::over(store);
    let (first, store) = gets(alloc, store, b"a", Showing::Line(Form::Hex), ("", 1));
    let mut printed = Vec::new(alloc);
    let all = Choice::of_all_puts();
    let (status, _) = scan::<Bytewise, MemStore, Vec<u8>, Nobody>(
        alloc,
        store,
        &all,
        &mut printed,
        &mut Nobody,
    );
    let second = matches!(status, Ok(1)) && printed.is_empty();
    (first, second)
}

fn refused(alloc: Global) -> Result<(bool, bool), DbError> {
    let empty = refusals(alloc, MemStore::new(alloc));
    let torn = refusals(alloc, damaged(alloc)?);
    Ok((empty.0 && empty.1, torn.0 && torn.1))
}

#[test]
fn a_refusal_has_its_status_and_no_line(rt: HostRuntime) -> Result<(), Fail> {
    assert_eq!(rt; refused(rt.alloc())?, (true, true));
    Ok(())
}
