// What a store over a folder of the system does.
use crate::stores::{CALLS, REPLACED, Row, Step, first_wrong, perform};
use std::alloc::{AllocError, Global};
use std::os::unix::fs::{MetadataExt, PermissionsExt, symlink};
use std::test::*;
use std::{env, fs, process};
use store::{FileStore, Store, StoreError};

// An empty folder, of a name that no other run of the tests uses.
fn fresh_folder(rt: &HostRuntime, test: &str) -> Result<String, Fail> {
    let id = process::id(rt.process());
    let name = format!(in rt.alloc(); "wachuspi-{test}-{id}")?;
    let path = env::temp_dir(rt)?.join(rt.alloc(), name.as_str())?;
    if fs::exists(rt, path.as_path())? {
        fs::remove_dir_all(rt, path.as_path())?;
    }
    fs::create_dir(rt, path.as_path())?;
    Ok(String::from_str(rt.alloc(), path.as_str())?)
}

// The path of a name in a folder.
fn within(rt: &HostRuntime, folder: &str, name: &str) -> Result<String, AllocError> {
    format!(in rt.alloc(); "{folder}/{name}")
}

// The first step of a store over the folder that answers otherwise, by its place.
fn first_wrong_in(
    rt: &HostRuntime,
    folder: &str,
    rows: &[Row],
) -> Result<Option<usize>, StoreError> {
    let mut store = FileStore::open(rt, folder)?;
    Ok(first_wrong(rt.alloc(), &mut store, rows))
}

// Names that no file has, or can have.
const NOT_THERE: &[Row] = &[
    (Step::Create("there"), Ok(true)),
    (Step::Append("there", b"kept"), Ok(true)),
    (Step::Misses(""), Ok(true)),
    (Step::Holds("there", b"kept"), Ok(true)),
    (Step::Names("there;"), Ok(true)),
    (Step::Misses("."), Ok(true)),
    (Step::Holds("there", b"kept"), Ok(true)),
    (Step::Names("there;"), Ok(true)),
    (Step::Misses(".."), Ok(true)),
    (Step::Holds("there", b"kept"), Ok(true)),
    (Step::Names("there;"), Ok(true)),
    (Step::Misses("a/b"), Ok(true)),
    (Step::Holds("there", b"kept"), Ok(true)),
    (Step::Names("there;"), Ok(true)),
    (Step::Misses("../there"), Ok(true)),
    (Step::Holds("there", b"kept"), Ok(true)),
    (Step::Names("there;"), Ok(true)),
    (Step::Misses("nul\0nul"), Ok(true)),
    (Step::Holds("there", b"kept"), Ok(true)),
    (Step::Names("there;"), Ok(true)),
    (Step::Remove("there"), Ok(true)),
];

#[test]
fn a_folder_keeps_what_was_written(rt: HostRuntime) -> Result<(), Fail> {
    let folder = fresh_folder(&rt, "keeps")?;
    for rows in [CALLS, REPLACED, NOT_THERE, NAMED] {
        assert_eq!(rt; first_wrong_in(&rt, folder.as_str(), rows), Ok(None));
    }
    fs::remove_dir_all(&rt, folder.as_str())?;
    Ok(())
}

// A name of 256 bytes.
const LONG: &str =
    "xxxxxxxxxxxxxxxxxxxxxxxxxxxxxxxxxxxxxxxxxxxxxxxxxxxxxxxxxxxxxxxxxxxxxxxxxxxxxxxxxxxxxxxxxxxxxxxxxxxxxxxxxxxxxxxxxxxxxxxxxxxxxxxxxxxxxxxxxxxxxxxxxxxxxxxxxxxxxxxxxxxxxxxxxxxxxxxxxxxxxxxxxxxxxxxxxxxxxxxxxxxxxxxxxxxxxxxxxxxxxxxxxxxxxxxxxxxxxxxxxxxxxxxxxxxxxxxx";

// Names are any text that a file can have.
const NAMED: &[Row] = &[
    (Step::Create(" "), Ok(true)),
    (Step::Append(" ", b" "), Ok(true)),
    (Step::Holds(" ", b" "), Ok(true)),
    (Step::Names(" ;"), Ok(true)),
    (Step::Remove(" "), Ok(true)),
    (Step::Create("a b"), Ok(true)),
    (Step::Append("a b", b"a b"), Ok(true)),
    (Step::Holds("a b", b"a b"), Ok(true)),
    (Step::Names("a b;"), Ok(true)),
    (Step::Remove("a b"), Ok(true)),
    (Step::Create("-rf"), Ok(true)),
    (Step::Append("-rf", b"-rf"), Ok(true)),
    (Step::Holds("-rf", b"-rf"), Ok(true)),
    (Step::Names("-rf;"), Ok(true)),
    (Step::Remove("-rf"), Ok(true)),
    (Step::Create(".hidden"), Ok(true)),
    (Step::Append(".hidden", b".hidden"), Ok(true)),
    (Step::Holds(".hidden", b".hidden"), Ok(true)),
    (Step::Names(".hidden;"), Ok(true)),
    (Step::Remove(".hidden"), Ok(true)),
    (Step::Create("*?["), Ok(true)),
    (Step::Append("*?[", b"*?["), Ok(true)),
    (Step::Holds("*?[", b"*?["), Ok(true)),
    (Step::Names("*?[;"), Ok(true)),
    (Step::Remove("*?["), Ok(true)),
    (Step::Create("'\"\\"), Ok(true)),
    (Step::Append("'\"\\", b"'\"\\"), Ok(true)),
    (Step::Holds("'\"\\", b"'\"\\"), Ok(true)),
    (Step::Names("'\"\\;"), Ok(true)),
    (Step::Remove("'\"\\"), Ok(true)),
    (Step::Create("line\nend"), Ok(true)),
    (Step::Append("line\nend", b"line\nend"), Ok(true)),
    (Step::Holds("line\nend", b"line\nend"), Ok(true)),
    (Step::Names("line\nend;"), Ok(true)),
    (Step::Remove("line\nend"), Ok(true)),
    (Step::Create("größe"), Ok(true)),
    (Step::Append("größe", b"gr\xc3\xb6\xc3\x9fe"), Ok(true)),
    (Step::Holds("größe", b"gr\xc3\xb6\xc3\x9fe"), Ok(true)),
    (Step::Names("größe;"), Ok(true)),
    (Step::Remove("größe"), Ok(true)),
    (Step::Create("日本"), Ok(true)),
    (Step::Append("日本", b"\xe6\x97\xa5\xe6\x9c\xac"), Ok(true)),
    (Step::Holds("日本", b"\xe6\x97\xa5\xe6\x9c\xac"), Ok(true)),
    (Step::Names("日本;"), Ok(true)),
    (Step::Remove("日本"), Ok(true)),
    (Step::Create(LONG), Err(StoreError::Device)),
    (Step::Names(""), Ok(true)),
];

// ---- two stores over one folder

// Whether it is a step of the second one, the step, and what it answers.
type Turn = (bool, Step<'static>, Result<bool, StoreError>);

const GONE_ON: &[Turn] = &[
    (false, Step::Create("000003.log"), Ok(true)),
    (false, Step::Append("000003.log", b"first"), Ok(true)),
    (true, Step::Holds("000003.log", b"first"), Ok(true)),
    (true, Step::Append("000003.log", b", second"), Ok(true)),
    (true, Step::Rename("000003.log", "000004.log"), Ok(true)),
    (true, Step::Append("000004.log", b", third"), Ok(true)),
    (false, Step::Lock, Ok(true)),
    (true, Step::Lock, Ok(false)),
    // a read of LOCK doesn't free it
    (true, Step::Holds("LOCK", b""), Ok(true)),
    (true, Step::Lock, Ok(false)),
    (false, Step::Unlock, Ok(true)),
    (true, Step::Lock, Ok(true)),
    (false, Step::Lock, Ok(false)),
];

// What one store does while the other doesn't hold the lock.
const BETWEEN: &[Turn] = &[
    (false, Step::Lock, Ok(true)),
    (false, Step::Create("CURRENT"), Ok(true)),
    (false, Step::Append("CURRENT", b"first"), Ok(true)),
    (false, Step::Create("000005.ldb"), Ok(true)),
    (false, Step::Unlock, Ok(true)),
    (true, Step::Lock, Ok(true)),
    (true, Step::Create("000006.dbtmp"), Ok(true)),
    (true, Step::Append("000006.dbtmp", b"second"), Ok(true)),
    (true, Step::Rename("000006.dbtmp", "CURRENT"), Ok(true)),
    (true, Step::Unlock, Ok(true)),
    // the lock begins anew
    (false, Step::Lock, Ok(true)),
    (false, Step::Holds("CURRENT", b"second"), Ok(true)),
    (false, Step::Unlock, Ok(true)),
    // and so does a list without it
    (false, Step::Names("000005.ldb;CURRENT;LOCK;"), Ok(true)),
    (false, Step::Holds("CURRENT", b"second"), Ok(true)),
    (true, Step::Lock, Ok(true)),
    (true, Step::Create("000007.dbtmp"), Ok(true)),
    (true, Step::Append("000007.dbtmp", b"third"), Ok(true)),
    (true, Step::Rename("000007.dbtmp", "CURRENT"), Ok(true)),
    (false, Step::Names("000005.ldb;CURRENT;LOCK;"), Ok(true)),
    (false, Step::Holds("CURRENT", b"third"), Ok(true)),
    // what was listed and is gone isn't missing
    (true, Step::Remove("000005.ldb"), Ok(true)),
    (
        false,
        Step::Holds("000005.ldb", b""),
        Err(StoreError::Device),
    ),
    (true, Step::Unlock, Ok(true)),
];

// A store that is gone holds no lock.
const ALONE: &[Row] = &[
    (Step::Lock, Ok(true)),
    (Step::Unlock, Ok(true)),
    (Step::Remove("LOCK"), Ok(true)),
];

// The first turn that answers otherwise, by its place.
fn first_wrong_turn(
    alloc: Global,
    turns: &[Turn],
    store: &mut FileStore,
    other: &mut FileStore,
) -> Option<usize> {
    for (place, (is_other, step, wanted)) in turns.iter().enumerate() {
        let turn = if *is_other { &mut *other } else { &mut *store };
        if perform(alloc, turn, *step) != *wanted {
            return Some(place);
        }
    }
    None
}

// The same of another store over the folder of this one.
fn first_wrong_beside(
    rt: &HostRuntime,
    folder: &str,
    turns: &[Turn],
    store: &mut FileStore,
) -> Result<Option<usize>, StoreError> {
    let mut other = FileStore::open(rt, folder)?;
    Ok(first_wrong_turn(rt.alloc(), turns, store, &mut other))
}

// Whether two stores take their turns, and the first one goes on after them.
fn take_turns(rt: &HostRuntime, folder: &str, turns: &[Turn]) -> Result<bool, StoreError> {
    let mut store = FileStore::open(rt, folder)?;
    let beside = first_wrong_beside(rt, folder, turns, &mut store)?;
    Ok(beside.is_none() && first_wrong(rt.alloc(), &mut store, ALONE).is_none())
}

fn has_text(rt: &HostRuntime, folder: &str, name: &str, text: &str) -> Result<bool, Fail> {
    let path = within(rt, folder, name)?;
    Ok(fs::read_to_string(rt, path.as_str())?.as_str() == text)
}

#[test]
fn another_store_reads_the_files_and_goes_on(rt: HostRuntime) -> Result<(), Fail> {
    let folder = fresh_folder(&rt, "another")?;
    assert_eq!(rt; take_turns(&rt, folder.as_str(), GONE_ON), Ok(true));
    assert!(rt; has_text(&rt, folder.as_str(), "000004.log", "first, second, third")?);
    fs::remove_dir_all(&rt, folder.as_str())?;
    Ok(())
}

#[test]
fn what_another_store_did_meanwhile_is_seen(rt: HostRuntime) -> Result<(), Fail> {
    let folder = fresh_folder(&rt, "meanwhile")?;
    assert_eq!(rt; take_turns(&rt, folder.as_str(), BETWEEN), Ok(true));
    fs::remove_dir_all(&rt, folder.as_str())?;
    Ok(())
}

// ---- links

// Names that lead to a file outside of the folder, or to none.
const LINKS: [(&str, &str); 5] = [
    ("000004.log", "missing"),
    ("000005.log", "theirs"),
    ("000006.ldb", "theirs"),
    ("LOCK", "theirs"),
    ("other", "theirs"),
];

// A link is read, and nothing is written through one. It is listed only under a database's name.
const LINKED: &[Row] = &[
    (Step::Create("000004.log"), Err(StoreError::Device)),
    (Step::Append("000004.log", b"x"), Err(StoreError::Device)),
    (Step::Create("000005.log"), Err(StoreError::Device)),
    (Step::Append("000005.log", b"x"), Err(StoreError::Device)),
    (Step::Holds("000006.ldb", b"theirs"), Ok(true)),
    (Step::Append("000006.ldb", b"x"), Err(StoreError::Device)),
    (Step::Lock, Err(StoreError::Device)),
    (
        Step::Names("000004.dbtmp;000005.log;000006.ldb;LOCK;"),
        Ok(true),
    ),
    (Step::Remove("000004.dbtmp"), Ok(true)),
];

#[test]
fn nothing_is_written_through_a_link(rt: HostRuntime) -> Result<(), Fail> {
    let folder = fresh_folder(&rt, "linked")?;
    let outside = fresh_folder(&rt, "outside")?;
    let theirs = within(&rt, outside.as_str(), "theirs")?;
    fs::write(&rt, theirs.as_str(), "theirs")?;
    for (name, target) in LINKS {
        let target = within(&rt, outside.as_str(), target)?;
        let link = within(&rt, folder.as_str(), name)?;
        symlink(&rt, target.as_str(), link.as_str())?;
    }
    assert_eq!(rt; first_wrong_in(&rt, folder.as_str(), LINKED), Ok(None));
    assert!(rt; has_text(&rt, outside.as_str(), "theirs", "theirs")?);
    let missing = within(&rt, outside.as_str(), "missing")?;
    assert!(rt; !fs::exists(&rt, missing.as_str())?);
    fs::remove_dir_all(&rt, folder.as_str())?;
    fs::remove_dir_all(&rt, outside.as_str())?;
    Ok(())
}

// ---- files in doubt

// What is longer than what is copied at once.
const LONG_LOG: usize = 600_000;

// A temporary file marks the others of its number. A sync of one that isn't there marks nothing.
const MARKED: &[Row] = &[
    (Step::Names("000003.dbtmp;000003.log;000004.log;"), Ok(true)),
    (Step::Sync("000003.log"), Ok(true)),
    (Step::Sync("000004.log"), Ok(true)),
    (Step::Sync("000005.log"), Err(StoreError::Device)),
    (Step::Names("000003.log;000004.log;"), Ok(true)),
    (Step::Sync("000003.log"), Ok(true)),
    (Step::Append("000004.log", b"+"), Ok(true)),
    (Step::Holds("000004.log", b"there+"), Ok(true)),
];

// Some bytes, none of them as those beside it.
fn long_log(alloc: Global) -> Result<Vec<u8>, AllocError> {
    let mut bytes = Vec::new(alloc);
    for place in 0..LONG_LOG {
        bytes.push((place % 251) as u8)?;
    }
    Ok(bytes)
}

// The number of a file, and its permissions.
fn node_of(rt: &HostRuntime, folder: &str, name: &str) -> Result<(u64, u32), Fail> {
    let path = within(rt, folder, name)?;
    let found = fs::metadata(rt, path.as_str())?;
    Ok((found.ino(), found.permissions().mode()))
}

fn has_bytes(rt: &HostRuntime, folder: &str, name: &str, bytes: &[u8]) -> Result<bool, Fail> {
    let path = within(rt, folder, name)?;
    Ok(fs::read(rt, path.as_str())?.as_slice() == bytes)
}

fn write_files(rt: &HostRuntime, folder: &str, long: &[u8]) -> Result<(), Fail> {
    let marked = within(rt, folder, "000003.log")?;
    fs::write(rt, marked.as_str(), long)?;
    permit(rt, marked.as_str(), 0o640)?;
    let mark = within(rt, folder, "000003.dbtmp")?;
    fs::write(rt, mark.as_str(), "")?;
    let other = within(rt, folder, "000004.log")?;
    fs::write(rt, other.as_str(), "there")?;
    Ok(())
}

#[test]
fn a_file_in_doubt_is_written_anew_and_no_other_is(rt: HostRuntime) -> Result<(), Fail> {
    let folder = fresh_folder(&rt, "doubted")?;
    let long = long_log(rt.alloc())?;
    write_files(&rt, folder.as_str(), long.as_slice())?;
    let marked = node_of(&rt, folder.as_str(), "000003.log")?;
    let other = node_of(&rt, folder.as_str(), "000004.log")?;
    assert_eq!(rt; first_wrong_in(&rt, folder.as_str(), MARKED), Ok(None));
    let found = node_of(&rt, folder.as_str(), "000003.log")?;
    assert!(rt; found.0 != marked.0 && found.1 == marked.1);
    assert!(rt; node_of(&rt, folder.as_str(), "000004.log")? == other);
    assert!(rt; has_bytes(&rt, folder.as_str(), "000003.log", long.as_slice())?);
    fs::remove_dir_all(&rt, folder.as_str())?;
    Ok(())
}

// ---- folders within a folder

// Only plain files are listed, and a folder that has the lock's name is in its way.
const PLAIN: &[Row] = &[
    (Step::Create("there"), Ok(true)),
    (Step::Append("there", b"kept"), Ok(true)),
    (Step::Misses("inner"), Ok(true)),
    (Step::Holds("there", b"kept"), Ok(true)),
    (Step::Names("there;"), Ok(true)),
    (Step::Remove("there"), Ok(true)),
    (Step::Create("inner"), Err(StoreError::Device)),
    (Step::Create("000005.ldb"), Ok(true)),
    (Step::Rename("000005.ldb", "inner"), Err(StoreError::Device)),
    (Step::Lock, Err(StoreError::Device)),
    (Step::Names("000005.ldb;"), Ok(true)),
];

fn make_folder(rt: &HostRuntime, folder: &str, name: &str) -> Result<(), Fail> {
    let path = within(rt, folder, name)?;
    fs::create_dir(rt, path.as_str())?;
    Ok(())
}

fn is_folder(rt: &HostRuntime, folder: &str, name: &str) -> Result<bool, Fail> {
    let path = within(rt, folder, name)?;
    Ok(fs::metadata(rt, path.as_str())?.is_dir())
}

#[test]
fn only_plain_files_are_listed(rt: HostRuntime) -> Result<(), Fail> {
    let folder = fresh_folder(&rt, "plain")?;
    make_folder(&rt, folder.as_str(), "inner")?;
    make_folder(&rt, folder.as_str(), "LOCK")?;
    assert_eq!(rt; first_wrong_in(&rt, folder.as_str(), PLAIN), Ok(None));
    assert!(rt; is_folder(&rt, folder.as_str(), "inner")?);
    fs::remove_dir_all(&rt, folder.as_str())?;
    Ok(())
}

// ---- what isn't a folder

// How the opening of a path within the folder is refused.
fn refusal(rt: &HostRuntime, folder: &str, name: &str) -> Result<Option<StoreError>, AllocError> {
    let path = within(rt, folder, name)?;
    Ok(FileStore::open(rt, path.as_str()).err())
}

const NO_FOLDERS: [(&str, StoreError); 3] = [
    ("missing", StoreError::Missing),
    ("file", StoreError::Device),
    ("file/below", StoreError::Device),
];

fn make_file(rt: &HostRuntime, folder: &str) -> Result<(), Fail> {
    let path = within(rt, folder, "file")?;
    fs::write(rt, path.as_str(), "a file in its place")?;
    Ok(())
}

fn permit(rt: &HostRuntime, path: &str, mode: u32) -> Result<(), Fail> {
    fs::set_permissions(rt, path, fs::Permissions::from_mode(mode))?;
    Ok(())
}

// Whether a folder without permissions is refused. The superuser opens it all the same.
fn is_closed(rt: &HostRuntime, folder: &str) -> Result<bool, Fail> {
    let path = within(rt, folder, "closed")?;
    permit(rt, path.as_str(), 0)?;
    let wanted = fs::open(rt, path.as_str())
        .is_err()
        .then_some(StoreError::Device);
    let is_so = refusal(rt, folder, "closed")? == wanted;
    permit(rt, path.as_str(), 0o700)?;
    Ok(is_so)
}

#[test]
fn only_a_folder_is_opened(rt: HostRuntime) -> Result<(), Fail> {
    let folder = fresh_folder(&rt, "opened")?;
    make_file(&rt, folder.as_str())?;
    make_folder(&rt, folder.as_str(), "closed")?;
    for (name, wanted) in NO_FOLDERS {
        assert_eq!(rt; refusal(&rt, folder.as_str(), name), Ok(Some(wanted)));
    }
    assert!(rt; is_closed(&rt, folder.as_str())?);
    fs::remove_dir_all(&rt, folder.as_str())?;
    Ok(())
}

// ---- many files

// More files than are kept open at once.
const MANY: u32 = 1_100;

// How many files a store keeps open at most.
const KEPT_OPEN: usize = 800;

fn name_of(alloc: Global, number: u32) -> Result<String, AllocError> {
    format!(in alloc; "{number:06}.ldb")
}

// How many descriptors this process has open, as Linux lists them.
fn open_descriptors(rt: &HostRuntime) -> Result<usize, Fail> {
    let mut count = 0usize;
    for entry in fs::read_dir(rt, "/proc/self/fd")? {
        let _ = entry?;
        count = count.saturating_add(1);
    }
    Ok(count)
}

// Makes the file of a number, with its name as its text.
fn make(alloc: Global, store: &mut FileStore, number: u32) -> Result<(), StoreError> {
    let name = name_of(alloc, number)?;
    store.create(name.as_str())?;
    store.append(name.as_str(), name.as_str().as_bytes())
}

fn make_many(alloc: Global, store: &mut FileStore) -> Result<(), StoreError> {
    for number in 0..MANY {
        make(alloc, store, number)?;
    }
    Ok(())
}

// Whether a file is read as it was made.
fn is_made(alloc: Global, store: &mut FileStore, number: u32) -> Result<bool, StoreError> {
    let name = name_of(alloc, number)?;
    perform(
        alloc,
        store,
        Step::Reads(name.as_str(), 0, 100, name.as_str().as_bytes()),
    )
}

fn are_made(alloc: Global, store: &mut FileStore) -> bool {
    for number in 0..MANY {
        if is_made(alloc, store, number) != Ok(true) {
            return false;
        }
    }
    true
}

// After the name of each of some files.
const APPENDED: &[Row] = &[
    (Step::Append("000000.ldb", b"+"), Ok(true)),
    (Step::Reads("000000.ldb", 10, 100, b"+"), Ok(true)),
    (Step::Append("000299.ldb", b"+"), Ok(true)),
    (Step::Reads("000299.ldb", 10, 100, b"+"), Ok(true)),
    (Step::Append("001099.ldb", b"+"), Ok(true)),
    (Step::Reads("001099.ldb", 10, 100, b"+"), Ok(true)),
];

// How many more descriptors are open, once many files were made and each was read twice, rising: so
// each is opened again, however many of the others stay open. None where one isn't read as it was
// written.
fn kept_open(rt: &HostRuntime, folder: &str) -> Result<Option<usize>, Fail> {
    let before = open_descriptors(rt)?;
    let mut store = FileStore::open(rt, folder)?;
    make_many(rt.alloc(), &mut store)?;
    let are_read = are_made(rt.alloc(), &mut store) && are_made(rt.alloc(), &mut store);
    let kept = open_descriptors(rt)?.saturating_sub(before);
    let is_so = are_read && first_wrong(rt.alloc(), &mut store, APPENDED).is_none();
    Ok(is_so.then_some(kept))
}

#[test]
fn many_files_stay_readable_and_few_stay_open(rt: HostRuntime) -> Result<(), Fail> {
    let folder = fresh_folder(&rt, "many")?;
    let kept = kept_open(&rt, folder.as_str())?;
    // with the folder's own; an eighth is closed at a time
    let kept = kept.unwrap_or(0);
    assert!(rt; kept <= KEPT_OPEN + 1 && kept > KEPT_OPEN - KEPT_OPEN / 8 - 1);
    fs::remove_dir_all(&rt, folder.as_str())?;
    Ok(())
}
