//! What single failures of the store are answered, and what they leave.
use crate::runs::{Faulty, calls_of, session};
use crate::scripts::{DEFAULTS, Sizes};
use crate::watched::WatchedStore;
use coding::DbError;
use engine::Answer;
use script::{answer_line, read_line};
use std::alloc::{AllocGlobal, Global};
use std::test::Fail;
use store::{Extent, Fault, MemStore, Plan, Store};

// What is looked for in the files after some lines.
enum Found {
    // A file of this name has these bytes and no more.
    Bytes(&'static str, &'static [u8]),
    There(&'static str),
    Gone(&'static str),
}

// A line of a script, its answer, and what the files have after it.
type Line = (&'static str, &'static str, &'static [Found]);

struct Row {
    sizes: Sizes,
    // a script that is gone through before, without a fault
    made: &'static [Line],
    lines: &'static [Line],
    fault: Fault,
    // the line in which it comes, and how manieth call that is of the line
    place: usize,
    call: u64,
}

// A memtable is sealed by its first entry.
const EAGER: Sizes = Sizes {
    write_buffer: 1,
    file_bytes: 2_097_152,
    level0_files: 4,
    base_bytes: 10_485_760,
};

// The twelve calls of an open of nothing: lock, list, the new MANIFEST (create, append, sync), the
// temporary file (the same), rename, the sync after it, the new log, list. Those of a flush: list,
// the table (create, append twice, sync), the edit (append, sync).
const ROWS: &[Row] = &[
    Row {
        sizes: DEFAULTS,
        made: &[],
        lines: &[
            ("open new", "refused 18 Locked", &[]),
            ("open new", "ok", &[]),
        ],
        fault: Fault::Deny,
        place: 0,
        call: 1,
    },
    Row {
        sizes: DEFAULTS,
        made: &[],
        lines: &[
            ("open new", "refused 2 Io", &[Found::Gone("CURRENT")]),
            ("open new", "ok", &[]),
            (
                "put 61 31",
                "ok",
                &[
                    Found::Bytes("CURRENT", b"MANIFEST-000002\n"),
                    Found::Gone("MANIFEST-000001"),
                    Found::Gone("000001.dbtmp"),
                ],
            ),
        ],
        fault: Fault::Fail(Extent::Before),
        place: 0,
        call: 9,
    },
    Row {
        sizes: DEFAULTS,
        made: &[],
        lines: &[
            (
                "open new",
                "refused 2 Io",
                &[Found::Bytes("CURRENT", b"MANIFEST-000001\n")],
            ),
            ("open new", "refused 4 Exists", &[]),
            (
                "open",
                "ok",
                &[Found::Bytes("CURRENT", b"MANIFEST-000003\n")],
            ),
        ],
        fault: Fault::Fail(Extent::After),
        place: 0,
        call: 9,
    },
    Row {
        sizes: EAGER,
        made: &[],
        lines: &[
            ("open new", "ok", &[]),
            ("put 61 31", "ok", &[]),
            ("work 1", "worked", &[]),
            ("work 1", "refused 2 Io", &[Found::Bytes("000004.ldb", b"")]),
            ("get 61", "refused 7 Broken", &[]),
            ("close", "ok", &[]),
            ("open", "ok", &[Found::Gone("000004.ldb")]),
            ("get 61", "value 31", &[]),
        ],
        fault: Fault::Fail(Extent::Before),
        place: 3,
        call: 3,
    },
    Row {
        sizes: EAGER,
        made: &[],
        lines: &[
            ("open new", "ok", &[]),
            ("put 61 31", "ok", &[]),
            ("work 1", "worked", &[]),
            (
                "work 1",
                "worked",
                &[Found::There("000002.log"), Found::There("000004.ldb")],
            ),
            ("work 1", "idle", &[Found::There("000002.log")]),
            ("close", "ok", &[]),
            ("open", "ok", &[Found::Gone("000002.log")]),
            ("get 61", "value 31", &[]),
        ],
        fault: Fault::Fail(Extent::Before),
        place: 4,
        call: 2,
    },
    Row {
        sizes: DEFAULTS,
        made: &[
            ("open new", "ok", &[]),
            ("put 61 31", "ok", &[]),
            ("compact all", "ok", &[]),
            ("close", "ok", &[]),
        ],
        lines: &[
            ("open", "ok", &[]),
            ("get 61", "refused 2 Io", &[]),
            ("get 61", "value 31", &[]),
        ],
        fault: Fault::Fail(Extent::Before),
        place: 1,
        call: 0,
    },
];

fn given(alloc: Global, session: &mut Faulty, line: &str) -> Answer {
    match read_line(alloc, line.as_bytes()) {
        Ok(Some(op)) => session.apply(alloc, &op),
        _ => Answer::Refused(DbError::BadLine),
    }
}

fn is_told(alloc: Global, answer: &Answer, wanted: &str) -> bool {
    matches!(answer_line(alloc, answer), Ok(text) if text.as_str() == wanted)
}

fn has_bytes(alloc: Global, files: &mut MemStore, name: &str, bytes: &[u8]) -> bool {
    matches!(files.read_at(alloc, name, 0, 1 << 20), Ok(read) if read.as_slice() == bytes)
}

fn is_found(alloc: Global, files: &mut MemStore, one: &Found) -> bool {
    match one {
        Found::Bytes(name, bytes) => has_bytes(alloc, files, *name, *bytes),
        Found::There(name) => files.len(*name).is_ok(),
        Found::Gone(name) => files.len(*name).is_err(),
    }
}

fn are_found(alloc: Global, session: &Faulty, found: &[Found]) -> bool {
    let Ok(mut files) = session.store().remains() else {
        return false;
    };
    for one in found {
        if !is_found(alloc, &mut files, one) {
            return false;
        }
    }
    true
}

// Goes through a script, and answers how many lines were answered and left what they should.
fn run(alloc: Global, session: &mut Faulty, lines: &[Line]) -> usize {
    for (number, (line, wanted, found)) in lines.iter().enumerate() {
        let answer = given(alloc, session, *line);
        if !is_told(alloc, &answer, *wanted) || !are_found(alloc, session, *found) {
            return number;
        }
    }
    lines.len()
}

// The files that a row begins with.
fn made(alloc: Global, row: &Row) -> Result<MemStore, DbError> {
    let mut before = session(
        alloc,
        WatchedStore::new(MemStore::new(alloc), None),
        row.sizes,
    )?;
    let lines = run(alloc, &mut before, row.made);
    if lines < row.made.len() {
        return Err(DbError::Broken);
    }
    Ok(before.into_store().into_inner())
}

// How many calls the store has had after so many lines of a case, without its fault.
fn calls_behind(alloc: Global, row: &Row, lines: usize) -> Result<u64, DbError> {
    let mut counted = session(alloc, WatchedStore::new(made(alloc, row)?, None), row.sizes)?;
    for (line, _, _) in row.lines.iter().take(lines) {
        given(alloc, &mut counted, *line);
    }
    Ok(calls_of(&counted))
}

// The call of the fault. The last one of a line is said by 0.
fn call_of(alloc: Global, row: &Row) -> Result<u64, DbError> {
    if row.call == 0 {
        return calls_behind(alloc, row, row.place.saturating_add(1));
    }
    Ok(calls_behind(alloc, row, row.place)?.saturating_add(row.call))
}

fn gone_through(alloc: Global, row: &Row) -> Result<usize, DbError> {
    let call = call_of(alloc, row)?;
    let plan = Plan {
        call,
        fault: row.fault,
    };
    let mut session = session(
        alloc,
        WatchedStore::new(made(alloc, row)?, Some(plan)),
        row.sizes,
    )?;
    Ok(run(alloc, &mut session, row.lines))
}

// The first line of the first row that is wrong, by their numbers.
fn first_wrong(alloc: Global) -> Result<Option<(usize, usize)>, DbError> {
    for (number, row) in ROWS.iter().enumerate() {
        let lines = gone_through(alloc, row)?;
        if lines < row.lines.len() {
            return Ok(Some((number, lines)));
        }
    }
    Ok(None)
}

#[test]
fn single_failures_are_answered_so_and_leave_this(rt: HostRuntime) -> Result<(), Fail> {
    assert_eq!(rt; first_wrong(rt.alloc()), Ok(None));
    Ok(())
}
