// Flushes, new logs and the removal of files, as `work` does them.
use super::cases::{Case, Left, Part, assert_cases};
use super::*;
use crate::checks::ONE_ENTRY;
use std::test::Fail;

const FLUSHED: &[Line<'static>] = &[
    ("open new", "ok"),
    ("put 61 31", "ok"),
    ("work 1", "worked"),
    ("work 1", "worked"),
    ("work 1", "idle"),
    ("work 1", "idle"),
    ("get 61", "value 31"),
    ("close", "ok"),
];

// The edit of its flush follows that of the new database: log 3, next file 5, last sequence number
// 1, and the table 4 of level 0 with 176 bytes, from `a` at 1 to `a` at 1.
#[rattlefmt::skip]
const MANIFEST: &[u8] = b"S&\xfe[\x22\x00\x01\x01\x1aleveldb.BytewiseComparator\x02\x02\x03\x03\x04\x00\xe8\x99\xd3@\x1f\x00\x01\x02\x03\x03\x05\x04\x01\x07\x00\x04\xb0\x01\x09a\x01\x01\x00\x00\x00\x00\x00\x00\x09a\x01\x01\x00\x00\x00\x00\x00\x00";

const OPENED_AGAIN: &[Line<'static>] = &[
    ("open new", "ok"),
    ("put 61 31", "ok"),
    ("work 1", "worked"),
    ("work 1", "worked"),
    ("work 1", "idle"),
    ("work 1", "idle"),
    ("get 61", "value 31"),
    ("close", "ok"),
    ("open", "ok"),
    ("get 61", "value 31"),
    ("work 1", "idle"),
];

// What was taken before a seal, between it and its flush, and after both, sees what it saw.
const VIEWS: &[Line<'static>] = &[
    ("open new", "ok"),
    ("put 61 31", "ok"),
    ("snapshot", "snapshot 1"),
    ("iter", "iter 1"),
    ("first 1", "at 61 31"),
    ("put 61 32", "ok"),
    ("work 1", "worked"),
    ("iter", "iter 2"),
    ("put 62 33", "ok"),
    ("snapshot", "snapshot 2"),
    ("get 61", "value 32"),
    ("work 1", "worked"),
    ("next 1", "end"),
    ("first 1", "at 61 31"),
    ("first 2", "at 61 32"),
    ("next 2", "end"),
    ("get 61", "value 32"),
    ("get 61 1", "value 31"),
    ("get 62 1", "none"),
    ("del 61", "ok"),
    ("work 1", "worked"),
    ("iter", "iter 3"),
    ("work 1", "worked"),
    ("work 1", "idle"),
    ("get 61", "none"),
    ("get 61 2", "value 32"),
    ("get 62 2", "value 33"),
    ("first 3", "at 62 33"),
    ("next 3", "end"),
    ("first 2", "at 61 32"),
    ("next 2", "end"),
    ("first 1", "at 61 31"),
    ("next 1", "end"),
    ("close", "ok"),
    ("open", "ok"),
    ("get 61", "none"),
    ("get 62", "value 33"),
    ("close", "ok"),
];

// The entries that an open finds in the logs are sealed, and the first piece of work writes them
// into a table.
const FOUND: &[Line<'static>] = &[
    ("open new", "ok"),
    ("put 61 31", "ok"),
    ("close", "ok"),
    ("open", "ok"),
    ("put 62 32", "ok"),
    ("work 1", "worked"),
    ("work 1", "idle"),
    ("get 61", "value 31"),
    ("get 62", "value 32"),
    ("close", "ok"),
    ("open", "ok"),
    ("get 61", "value 31"),
    ("get 62", "value 32"),
    ("close", "ok"),
];

const UNOPENED: &[Line<'static>] = &[
    ("work 1", "refused NotOpen"),
    ("open new", "ok"),
    ("work 1", "idle"),
];

#[rattlefmt::skip]
const CASES: &[Case] = &[
    Case { name: "a full memory table becomes a table file", sizes: EAGER, files: &[], parts: &[
        Part { script: FLUSHED, left: &[Left::Names("000003.log;000004.ldb;CURRENT;LOCK;MANIFEST-000001;"), Left::Bytes("000003.log", b""), Left::Bytes("000004.ldb", &ONE_ENTRY), Left::Bytes("MANIFEST-000001", MANIFEST), Left::Tables(&[(0, 4, 1)])] },
    ] },
    Case { name: "a flushed directory is opened again", sizes: EAGER, files: &[], parts: &[
        Part { script: OPENED_AGAIN, left: &[Left::Names("000004.ldb;000006.log;CURRENT;LOCK;MANIFEST-000005;")] },
    ] },
    Case { name: "work keeps what is seen", sizes: EAGER, files: &[], parts: &[
        Part { script: VIEWS, left: &[Left::Tables(&[(0, 4, 2), (0, 6, 2)])] },
    ] },
    Case { name: "what an open finds in logs is flushed", sizes: DEFAULTS, files: &[], parts: &[Part { script: FOUND, left: &[] }] },
    Case { name: "work needs an open database", sizes: DEFAULTS, files: &[], parts: &[Part { script: UNOPENED, left: &[] }] },
];

#[test]
fn work_is_done(rt: HostRuntime) -> Result<(), Fail> {
    assert_cases(&rt, CASES)
}
