// Directories, byte by byte: what is left in them, and what is read from them.
use super::cases::{Case, Left, Part, assert_cases};
use super::*;
use std::test::Fail;

// The MANIFEST of a database of no entries: its order is Bytewise, its log 2, its next file 3 and
// its last sequence number 0.
const FIRST_MANIFEST: &[u8] =
    b"\x53\x26\xfe\x5b\x22\x00\x01\x01\x1aleveldb.BytewiseComparator\x02\x02\x03\x03\x04\x00";

// Put `a` = `1` at sequence number 1.
const ONE_PUT: &[u8] =
    b"\xe9\x9f\x78\x19\x11\x00\x01\x01\x00\x00\x00\x00\x00\x00\x00\x01\x00\x00\x00\x01\x01a\x011";

const EMPTY: &[Line<'static>] = &[("open new", "ok"), ("close", "ok")];

const FIRST_PUT: &[Line<'static>] = &[("open new", "ok"), ("put 61 31", "ok")];

const LITTER: Files<'static> = &[("000009.dbtmp", b"left"), ("MANIFEST-000007", b"left")];

const MADE: &[Line<'static>] = &[("open new", "ok")];

#[rattlefmt::skip]
const CASES: &[Case] = &[
    Case { name: "the first directory has four files", sizes: DEFAULTS, files: &[], parts: &[
        Part { script: EMPTY, left: &[Left::Names("000002.log;CURRENT;LOCK;MANIFEST-000001;"), Left::Bytes("CURRENT", b"MANIFEST-000001\n"), Left::Bytes("LOCK", b""), Left::Bytes("000002.log", b""), Left::Bytes("MANIFEST-000001", FIRST_MANIFEST)] },
    ] },
    Case { name: "one put leaves 24 bytes in the log", sizes: DEFAULTS, files: &[], parts: &[
        Part { script: FIRST_PUT, left: &[Left::Bytes("000002.log", ONE_PUT)] },
    ] },
    // new numbers are above all that names of the directory have, also of files that the open
    // removes then
    Case { name: "names that are there are not taken", sizes: DEFAULTS, files: LITTER, parts: &[
        Part { script: MADE, left: &[Left::Names("000011.log;CURRENT;LOCK;MANIFEST-000010;"), Left::Bytes("CURRENT", b"MANIFEST-000010\n"), Left::Bytes("000011.log", b"")] },
    ] },
];

#[test]
fn directories_are_left_byte_by_byte(rt: HostRuntime) -> Result<(), Fail> {
    assert_cases(&rt, CASES)
}

const FIRST: Files<'static> = &[
    ("CURRENT", b"MANIFEST-000001\n"),
    ("MANIFEST-000001", FIRST_MANIFEST),
];

// A MANIFEST of one edit lies beside a file that has the name of a table.
const BESIDE_AN_EDIT: Files<'static> = &[
    ("CURRENT", b"MANIFEST-000001\n"),
    ("000004.ldb", &[0; 176]),
];

// Files; one more, or one that replaces one of these; and what is answered over them.
pub type Opening = (Files<'static>, (&'static str, &'static [u8]), Line<'static>);

// Each MANIFEST that isn't the first one is one edit: Bytewise, and what is said of it.
#[rattlefmt::skip]
pub const OPENINGS: &[Opening] = &[
    (BESIDE_AN_EDIT, ("MANIFEST-000001", b"S&\xfe[\x22\x00\x01\x01\x1aleveldb.BytewiseComparator\x02\x02\x03\x03\x04\x00"), ("open", "ok")),
    // no log number
    (BESIDE_AN_EDIT, ("MANIFEST-000001", b"\x22Q\x8c% \x00\x01\x01\x1aleveldb.BytewiseComparator\x03\x03\x04\x00"), ("open", "refused Corrupt(Manifest, Missing)")),
    // no next file number
    (BESIDE_AN_EDIT, ("MANIFEST-000001", b"\x1a\x81\x08\x95 \x00\x01\x01\x1aleveldb.BytewiseComparator\x02\x02\x04\x00"), ("open", "refused Corrupt(Manifest, Missing)")),
    // no last sequence number
    (BESIDE_AN_EDIT, ("MANIFEST-000001", b"\x10/j* \x00\x01\x01\x1aleveldb.BytewiseComparator\x02\x02\x03\x03"), ("open", "refused Corrupt(Manifest, Missing)")),
    // a tag that there is not
    (BESIDE_AN_EDIT, ("MANIFEST-000001", b"\xe1\x944\xb3#\x00\x01\x01\x1aleveldb.BytewiseComparator\x02\x02\x03\x03\x04\x00\x08"), ("open", "refused Corrupt(Manifest, Kind)")),
    // another order
    (BESIDE_AN_EDIT, ("MANIFEST-000001", b"0\x9c\x8fd%\x00\x01\x01\x1aleveldb.BytewiseComparator\x02\x02\x03\x03\x04\x00\x01\x01c"), ("open", "refused Unsupported(Comparator)")),
    // a table, which no open reads
    (BESIDE_AN_EDIT, ("MANIFEST-000001", b"\xb1\x98\xa4*;\x00\x01\x01\x1aleveldb.BytewiseComparator\x02\x03\x03\x05\x04\x01\x07\x00\x04\xb0\x01\x09a\x01\x01\x00\x00\x00\x00\x00\x00\x09a\x01\x01\x00\x00\x00\x00\x00\x00"), ("open", "ok")),
    // a table that is not there
    (BESIDE_AN_EDIT, ("MANIFEST-000001", b"\xb3l\x8da;\x00\x01\x01\x1aleveldb.BytewiseComparator\x02\x03\x03\x06\x04\x01\x07\x00\x05\xb0\x01\x09a\x01\x01\x00\x00\x00\x00\x00\x00\x09a\x01\x01\x00\x00\x00\x00\x00\x00"), ("open", "refused Corrupt(Table, Missing)")),
    // a file that replaces the first directory's own, or beside
    (FIRST, ("000002.log", b""), ("open", "ok")),
    (FIRST, ("CURRENT", b""), ("open", "refused Corrupt(Current, Length)")),
    (FIRST, ("CURRENT", b"MANIFEST-000001"), ("open", "refused Corrupt(Current, Length)")),
    (FIRST, ("CURRENT", b"000002.log\n"), ("open", "refused Corrupt(Current, Kind)")),
    (FIRST, ("CURRENT", b"MANIFEST-000003\n"), ("open", "refused Corrupt(Manifest, Missing)")),
    (FIRST, ("MANIFEST-000001", b""), ("open", "refused Corrupt(Manifest, Missing)")),
    (FIRST, ("MANIFEST-000001", b"\x54\x26\xfe\x5b\x01\x00\x01\x01"), ("open", "refused Corrupt(Manifest, Checksum)")),
    (FIRST, ("000002.log", b"\xe8\x9f\x78\x19\x11\x00\x01\x01\x00\x00\x00\x00\x00\x00\x00\x01\x00\x00\x00\x01\x01a\x011"), ("open", "refused Corrupt(Log, Checksum)")),
    // the put at sequence number 1 twice
    (FIRST, ("000002.log", b"\xe9\x9f\x78\x19\x11\x00\x01\x01\x00\x00\x00\x00\x00\x00\x00\x01\x00\x00\x00\x01\x01a\x011\xe9\x9f\x78\x19\x11\x00\x01\x01\x00\x00\x00\x00\x00\x00\x00\x01\x00\x00\x00\x01\x01a\x011"), ("open", "refused Corrupt(Log, Order)")),
    // a record that is no batch
    (FIRST, ("000002.log", b"\xbb\x8f\xe9\x0e\x08\x00\x01no batch"), ("open", "refused Corrupt(Log, Length)")),
    // of a number below the log number: it isn't read any more
    (FIRST, ("000001.log", b"\x01"), ("open", "ok")),
    // the one file that there is
    (&[], ("000002.log", b""), ("open new", "refused Corrupt(Directory, Missing)")),
    (&[], ("000004.ldb", b""), ("open new", "refused Corrupt(Directory, Missing)")),
    (&[], ("000004.sst", b""), ("open new", "refused Corrupt(Directory, Missing)")),
    (&[], ("MANIFEST-000007", b""), ("open new", "ok")),
    (&[], ("000003.dbtmp", b""), ("open new", "ok")),
    (&[], ("LOG", b""), ("open new", "ok")),
];

pub fn before(alloc: Global, opening: &Opening) -> Result<MemStore, DbError> {
    let (files, (name, bytes), _) = *opening;
    let mut store = directory(alloc, files)?;
    put(&mut store, name, bytes)?;
    Ok(store)
}

// Refused or not, the lock is free again.
fn assert_opening(rt: &(impl Abort + AllocGlobal), opening: &Opening) -> Result<(), Fail> {
    let store = before(rt.alloc(), opening)?;
    let mut store = after_script(rt, store, DEFAULTS, &[opening.2])?;
    assert!(rt; is_free(&mut store), "{}", opening.1.0);
    Ok(())
}

#[test]
fn damaged_directories_are_refused(rt: HostRuntime) -> Result<(), Fail> {
    for opening in OPENINGS {
        assert_opening(&rt, opening)?;
    }
    Ok(())
}
