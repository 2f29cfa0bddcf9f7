// Imports of lines, and compactions, over stores in memory: what is written, and the exit status.
use engine::{Options, Session};
use ikey::Bytewise;
use script::{Importing, Nobody, compact, drive, import};
use std::alloc::{AllocGlobal, Global};
use std::process::Abort;
use store::{Extent, Fault, FaultStore, MemStore, Plan, Store};

// Lines that are imported by batches of two operations, what is written, the exit status, and what
// a script says of the database then.
const IMPORTS: [(&str, &str, u8, &str); 9] = [
    ("", "taken 0\n", 0, "ok\nnone\nnone\n"),
    ("put 61 31\n", "taken 1\n", 0, "ok\nvalue 31\nnone\n"),
    (
        "put 61 31\nput 62 32",
        "taken 2\n",
        0,
        "ok\nvalue 31\nvalue 32\n",
    ),
    (
        "put 61 31\ndel 61\nput 62 -\n",
        "taken 3\n",
        0,
        "ok\nnone\nvalue -\n",
    ),
    // (the fifth line isn't reached, and the third one waited)
    (
        "put 63 33\nput 61 31\nput 62 32\nput 6\nput 61 34\n",
        "refused 20 BadLine\ntaken 2\n",
        1,
        "ok\nvalue 31\nnone\n",
    ),
    ("\n", "refused 20 BadLine\ntaken 0\n", 1, "ok\nnone\nnone\n"),
    (
        "put 61 31 del 61\n",
        "refused 20 BadLine\ntaken 0\n",
        1,
        "ok\nnone\nnone\n",
    ),
    (
        "del 61\nwrite put 61 31\n",
        "refused 20 BadLine\ntaken 0\n",
        1,
        "ok\nnone\nnone\n",
    ),
    (
        "PUT 61 31\n",
        "refused 20 BadLine\ntaken 0\n",
        1,
        "ok\nnone\nnone\n",
    ),
];

const LOOK: &str = "open\nget 61\nget 62\n";

// What an import by batches of so many operations writes, and its status. Nothing is claimed of it,
// so that a caller's proof needn't read what is claimed of `import`.
fn imported<S: Store>(
    alloc: Global,
    session: &mut Session<S, Bytewise>,
    batch: u64,
    lines: &str,
) -> Option<(u8, Vec<u8>)> {
    let how = Importing::new(batch, false)?;
    let mut out = Vec::new(alloc);
    match import(
        alloc,
        session,
        &how,
        lines.as_bytes(),
        &mut out,
        &mut Nobody,
    ) {
        Ok(status) => Some((status, out)),
        Err(_) => None,
    }
}

// The same of a compaction.
fn compacted<S: Store>(
    alloc: Global,
    session: &mut Session<S, Bytewise>,
    level: Option<u32>,
) -> Option<(u8, Vec<u8>)> {
    let mut out = Vec::new(alloc);
    match compact(alloc, session, level, &mut out, &mut Nobody) {
        Ok(status) => Some((status, out)),
        Err(_) => None,
    }
}

fn is_told(told: Option<(u8, Vec<u8>)>, status: u8, wanted: &str) -> bool {
    matches!(told, Some((code, out)) if code == status && out.as_slice() == wanted.as_bytes())
}

// Whether a script is answered so.
fn is_answered<S: Store>(
    alloc: Global,
    session: &mut Session<S, Bytewise>,
    script: &str,
    wanted: &str,
) -> bool {
    let mut out = Vec::new(alloc);
    let is_run = drive(alloc, session, script.as_bytes(), &mut out).is_ok();
    is_run && out.as_slice() == wanted.as_bytes()
}

fn assert_imported(
    rt: &(impl Abort + AllocGlobal),
    lines: &str,
    wanted: &str,
    status: u8,
    there: &str,
) {
    let alloc = rt.alloc();
    let mut session = Session::new(alloc, MemStore::new(alloc), Options::default());
    assert!(rt;
        is_told(imported(alloc, &mut session, 2, lines), status, wanted),
        "{lines}"
    );
    assert!(rt; is_answered(alloc, &mut session, LOOK, there), "{lines}");
}

#[test]
fn imports_take_the_lines_in_front_of_a_bad_one(rt: HostRuntime) {
    for (lines, wanted, status, there) in IMPORTS {
        assert_imported(&rt, lines, wanted, status, there);
    }
}

#[test]
fn a_batch_has_1_to_65536_operations(rt: HostRuntime) {
    assert!(rt; Importing::new(0, true).is_none());
    assert!(rt; Importing::new(1, true).is_some());
    assert!(rt; Importing::new(65_536, true).is_some());
    assert!(rt; Importing::new(65_537, true).is_none());
}

// Compactions of an empty folder, of one with an import in it, of a level of that, and of a level
// that can't be.
#[test]
fn compactions_are_done_or_refused(rt: HostRuntime) {
    let alloc = rt.alloc();
    let mut session = Session::new(alloc, MemStore::new(alloc), Options::default());
    assert!(rt;
        is_told(
            compacted(alloc, &mut session, None),
            1,
            "refused 3 NoDatabase\n"
        )
    );
    assert!(rt;
        is_told(
            imported(alloc, &mut session, 1, "put 61 31\nput 62 32\ndel 62\n"),
            0,
            "taken 3\n"
        )
    );
    assert!(rt; is_told(compacted(alloc, &mut session, Some(0)), 0, "ok\n"));
    assert!(rt; is_told(compacted(alloc, &mut session, None), 0, "ok\n"));
    assert!(rt;
        is_told(
            compacted(alloc, &mut session, Some(6)),
            1,
            "refused 19 BadLevel\n"
        )
    );
    assert!(rt; is_answered(alloc, &mut session, LOOK, "ok\nvalue 31\nnone\n"));
}

const FOUR: &str = "put 61 31\nput 62 32\nput 63 33\nput 64 34\n";

// Whether an import over a store of which this call fails is refused as `Io`, and tells of no more
// than what it took.
fn is_refused_at(alloc: Global, session: &mut Session<FaultStore, Bytewise>) -> bool {
    match imported(alloc, session, 1, FOUR) {
        Some((1, out)) => out.as_slice().starts_with(b"refused 2 Io\ntaken "),
        Some((0, out)) => out.as_slice() == b"taken 4\n".as_slice(),
        Some((_, _)) => false,
        None => false,
    }
}

fn assert_refused_at(rt: &(impl Abort + AllocGlobal), call: u64) {
    let alloc = rt.alloc();
    let plan = Plan {
        call,
        fault: Fault::Fail(Extent::Before),
    };
    let store = FaultStore::new(MemStore::new(alloc), Some(plan));
    let mut session = Session::new(alloc, store, Options::default());
    assert!(rt; is_refused_at(alloc, &mut session), "{call}");
}

#[test]
fn a_store_that_fails_ends_an_import(rt: HostRuntime) {
    for call in 1..24 {
        assert_refused_at(&rt, call);
    }
}
