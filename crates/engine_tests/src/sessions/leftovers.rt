// Which files an open leaves, and which it removes.
use super::cases::{Case, Left, Part, assert_cases};
use super::*;
use crate::watching::WatchedStore;
use std::test::Fail;

const THREE_TIMES: &[Line<'static>] = &[
    ("open new", "ok"),
    ("close", "ok"),
    ("open", "ok"),
    ("close", "ok"),
    ("open", "ok"),
    ("close", "ok"),
];

// The log of the first has an entry, so that it is read again.
const THREE_TIMES_WITH_AN_ENTRY: &[Line<'static>] = &[
    ("open new", "ok"),
    ("put 61 31", "ok"),
    ("close", "ok"),
    ("open", "ok"),
    ("close", "ok"),
    ("open", "ok"),
    ("get 61", "value 31"),
    ("close", "ok"),
];

// A database of no entries, whose log number is 2, beside obsolete files of all known shapes, and
// files of other programs.
const LITTERED: Files<'static> = &[
    ("CURRENT", b"MANIFEST-000005\n"),
    (
        "MANIFEST-000005",
        b"\x53\x26\xfe\x5b\x22\x00\x01\x01\x1aleveldb.BytewiseComparator\x02\x02\x03\x03\x04\x00",
    ),
    ("000002.log", b""),
    ("000001.log", b"\x01"),
    ("000003.ldb", b"\x01"),
    ("000003.sst", b"\x01"),
    ("000004.sst", b"\x01"),
    ("000007.dbtmp", b"MANIFEST-000007\n"),
    ("MANIFEST-000001", b"\x01"),
    ("LOG", b"2026/11/23"),
    ("notes.txt", b"mine"),
];

const OPENED: &[Line<'static>] = &[("open", "ok"), ("close", "ok")];

// The same beside a log whose one record is damaged.
const LITTERED_AND_DAMAGED: Files<'static> = &[
    ("CURRENT", b"MANIFEST-000005\n"),
    (
        "MANIFEST-000005",
        b"\x53\x26\xfe\x5b\x22\x00\x01\x01\x1aleveldb.BytewiseComparator\x02\x02\x03\x03\x04\x00",
    ),
    ("000002.log", b""),
    ("000001.log", b"\x01"),
    ("000003.ldb", b"\x01"),
    ("000003.sst", b"\x01"),
    ("000004.sst", b"\x01"),
    ("000007.dbtmp", b"MANIFEST-000007\n"),
    ("MANIFEST-000001", b"\x01"),
    ("LOG", b"2026/11/23"),
    ("notes.txt", b"mine"),
    ("000006.log", b"\x54\x26\xfe\x5b\x01\x00\x01\x01"),
];

const TORN: &[Line<'static>] = &[
    ("open new", "refused Exists"),
    ("open", "refused Corrupt(Log, Checksum)"),
];

#[rattlefmt::skip]
const CASES: &[Case] = &[
    Case { name: "three opens", sizes: DEFAULTS, files: &[], parts: &[
        Part { script: THREE_TIMES, left: &[Left::Names("000006.log;CURRENT;LOCK;MANIFEST-000005;")] },
    ] },
    Case { name: "three opens of an entry", sizes: DEFAULTS, files: &[], parts: &[
        Part { script: THREE_TIMES_WITH_AN_ENTRY, left: &[Left::Names("000002.log;000004.log;000006.log;CURRENT;LOCK;MANIFEST-000005;")] },
    ] },
    Case { name: "what is not live is removed", sizes: DEFAULTS, files: LITTERED, parts: &[
        Part { script: OPENED, left: &[Left::Names("000009.log;CURRENT;LOCK;LOG;MANIFEST-000008;notes.txt;"), Left::Bytes("CURRENT", b"MANIFEST-000008\n"), Left::Bytes("LOG", b"2026/11/23"), Left::Bytes("notes.txt", b"mine")] },
    ] },
    Case { name: "a refused open removes nothing", sizes: DEFAULTS, files: LITTERED_AND_DAMAGED, parts: &[
        Part { script: TORN, left: &[Left::Names("000001.log;000002.log;000003.ldb;000003.sst;000004.sst;000006.log;000007.dbtmp;CURRENT;LOCK;LOG;MANIFEST-000001;MANIFEST-000005;notes.txt;")] },
    ] },
];

#[test]
fn an_accepted_open_removes_what_is_not_live(rt: HostRuntime) -> Result<(), Fail> {
    assert_cases(&rt, CASES)
}

// Opens over files that can't be removed, or can be now.
fn opened(
    rt: &(impl Abort + AllocGlobal),
    store: WatchedStore,
    keeps: bool,
) -> Result<WatchedStore, Fail> {
    store.keep_files(keeps);
    after_script(rt, store, DEFAULTS, OPENED)
}

#[rattlefmt::skip]
const ALL: &str = "000001.log;000002.log;000003.ldb;000003.sst;000004.sst;000007.dbtmp;000009.log;CURRENT;LOCK;LOG;MANIFEST-000001;MANIFEST-000005;MANIFEST-000008;notes.txt;";

const LIVE_AGAIN: &str = "000011.log;CURRENT;LOCK;LOG;MANIFEST-000010;notes.txt;";

#[test]
fn files_that_cannot_be_removed_are_left_for_the_next_open(rt: HostRuntime) -> Result<(), Fail> {
    let store = WatchedStore::new(directory(rt.alloc(), LITTERED)?);
    let mut store = opened(&rt, store, true)?;
    assert_eq!(rt; names_of(rt.alloc(), &mut store)?.as_str(), ALL);
    let mut store = opened(&rt, store, false)?;
    assert_eq!(rt; names_of(rt.alloc(), &mut store)?.as_str(), LIVE_AGAIN);
    Ok(())
}
