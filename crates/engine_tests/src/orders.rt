// Sessions in two orders of keys, and what a directory of one says under the other.
use crate::checks::directory;
use crate::sessions::{DEFAULTS, options_of};
use coding::{DbError, Feature};
use engine::Session;
use ikey::{Bytewise, KeyOrder, ReverseBytes};
use recover::{Origin, check, file_entries};
use script::drive;
use std::alloc::{AllocGlobal, Global};
use std::process::Abort;
use std::test::Fail;
use store::{MemStore, Store};

// What a script is answered in a session of the order `K`. Nothing is claimed of it, so that a
// caller's proof needn't read what is claimed of `drive`.
fn answers<K: KeyOrder>(
    alloc: Global,
    store: MemStore,
    script: &str,
) -> Result<(Vec<u8>, MemStore), Fail> {
    let options = options_of(DEFAULTS).ok_or("an option is outside its range")?;
    let mut session: Session<MemStore, K> = Session::new(alloc, store, options);
    let mut out = Vec::new(alloc);
    if drive(alloc, &mut session, script.as_bytes(), &mut out).is_err() {
        return Err(Fail::from("a script wasn't run"));
    }
    Ok((out, session.into_store()))
}

// Runs a script in the order `K` over a store, compares its answers, and gives the store back.
fn after<K: KeyOrder>(
    rt: &(impl Abort + AllocGlobal),
    store: MemStore,
    script: &str,
    wanted: &str,
) -> Result<MemStore, Fail> {
    let (out, left) = answers::<K>(rt.alloc(), store, script)?;
    assert!(rt; out.as_slice() == wanted.as_bytes(), "{script}");
    Ok(left)
}

// Two keys, one of them a front of the other, and one after both in the order of bytes.
const SCRIPT: &str =
    "open new\nput 61 31\nput 6161 32\nput 62 33\ncompact all\niter\nfirst 1\nnext 1\nnext 1\nnext 1\nseek 1 6162\nseek 1 60\n";

const TURNED: &str =
    "ok\nok\nok\nok\nok\niter 1\nat 62 33\nat 6161 32\nat 61 31\nend\nat 6161 32\nend\n";

const BY_BYTES: &str =
    "ok\nok\nok\nok\nok\niter 1\nat 61 31\nat 6161 32\nat 62 33\nend\nat 62 33\nat 61 31\n";

#[test]
fn a_proper_prefix_comes_last_where_bytes_are_turned_round(rt: HostRuntime) -> Result<(), Fail> {
    after::<ReverseBytes>(&rt, MemStore::new(rt.alloc()), SCRIPT, TURNED)?;
    after::<Bytewise>(&rt, MemStore::new(rt.alloc()), SCRIPT, BY_BYTES)?;
    Ok(())
}

const OPENED: (&str, &str) = (
    "open\nopen any\n",
    "refused 6 Unsupported\nrefused 6 Unsupported\n",
);

const WALKED: (&str, &str) = (
    "open\niter\nlast 1\nget 6161\n",
    "ok\niter 1\nat 61 31\nvalue 32\n",
);

#[test]
fn a_directory_of_one_order_is_refused_under_the_other(rt: HostRuntime) -> Result<(), Fail> {
    let store = after::<ReverseBytes>(&rt, MemStore::new(rt.alloc()), SCRIPT, TURNED)?;
    let store = after::<Bytewise>(&rt, store, OPENED.0, OPENED.1)?;
    // what was refused is as it was
    after::<ReverseBytes>(&rt, store, WALKED.0, WALKED.1)?;
    let store = after::<Bytewise>(&rt, MemStore::new(rt.alloc()), SCRIPT, BY_BYTES)?;
    after::<ReverseBytes>(&rt, store, OPENED.0, OPENED.1)?;
    Ok(())
}

// The name of 33 bytes in an edit of 41, in a record of 48.
const MANIFEST: &[u8] =
    b"\x29\x00\x01\x01\x21ldbtool.ReverseBytewiseComparator\x02\x02\x03\x03\x04\x00";

fn is_named(alloc: Global, store: &mut MemStore) -> bool {
    match store.read_at(alloc, "MANIFEST-000001", 0, 1_000) {
        Ok(bytes) => bytes.len() == 48 && bytes.ends_with(MANIFEST),
        Err(_) => false,
    }
}

#[test]
fn a_new_database_records_its_order(rt: HostRuntime) -> Result<(), Fail> {
    let empty = MemStore::new(rt.alloc());
    let mut store = after::<ReverseBytes>(&rt, empty, "open new\nclose\n", "ok\nok\n")?;
    assert!(rt; is_named(rt.alloc(), &mut store));
    Ok(())
}

// The edit of a MANIFEST that names no order: log 3, next file 6, last sequence number 1.
const UNNAMED: &[u8] = b"\x02\x03\x03\x06\x04\x01";

const OTHER: DbError = DbError::Unsupported(Feature::Comparator);

fn is_of_bytes_alone(alloc: Global) -> Result<bool, DbError> {
    let mut store = directory(alloc, UNNAMED, &[])?;
    let is_good = check::<Bytewise, MemStore>(alloc, &mut store).is_ok();
    let refused = check::<ReverseBytes, MemStore>(alloc, &mut store).err();
    let unread = file_entries::<ReverseBytes, MemStore>(alloc, &mut store, Origin::Log(3)).err();
    Ok(is_good && refused == Some(OTHER) && unread == Some(OTHER))
}

#[test]
fn a_manifest_that_names_no_order_is_of_bytes(rt: HostRuntime) -> Result<(), Fail> {
    assert!(rt; matches!(is_of_bytes_alone(rt.alloc()), Ok(true)));
    let store = directory(rt.alloc(), UNNAMED, &[])?;
    let store = after::<ReverseBytes>(&rt, store, OPENED.0, OPENED.1)?;
    after::<Bytewise>(&rt, store, "open\nget 61\n", "ok\nnone\n")?;
    Ok(())
}
