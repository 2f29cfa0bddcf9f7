// What a listener is told of refusals.
use browse::{Form, Showing, get};
use coding::DbError;
use engine::{Options, Session};
use ikey::Bytewise;
use reader::ReadOnly;
use script::{Importing, Listener, Misread, Refusal, Wanted, Way, compact, drive_in, import};
use std::alloc::Global;
use store::{MemStore, Trouble};

// How many refusals were told, and the last one.
#[derive(Drop)]
struct Heard {
    count: u64,
    last: Option<Refusal>,
}

impl Listener for Heard {
    fn refused(&mut self, refusal: &Refusal, _noted: Trouble) {
        self.count = self.count.saturating_add(1);
        self.last = Some(*refusal);
    }
}

#[derive(Clone, Copy)]
enum Call {
    Drive(&'static str),
    Import(&'static str),
    Compact,
    Get,
}

#[rattlefmt::skip]
const CASES: &[(Call, u64, Option<Refusal>)] = &[
    (Call::Drive("open new\nput 61 31\nget 61\n"), 0, None),
    (Call::Drive("open\nopen new\nget 61 9\nget 61\n"), 2, Some(Refusal { line: Some(3), error: DbError::NoSnapshot, misread: None })),
    (Call::Drive("open new\nput 61 31\nput 6g 31\n"), 1, Some(Refusal { line: Some(3), error: DbError::BadLine, misread: Some(Misread { word: 2, wanted: Wanted::Bytes }) })),
    (Call::Import("put 61 31\ndel 61"), 0, None),
    (Call::Import("put 61 31\nget 61\nput 62 32\n"), 1, Some(Refusal { line: Some(2), error: DbError::BadLine, misread: Some(Misread { word: 1, wanted: Wanted::Operation }) })),
    (Call::Compact, 1, Some(Refusal { line: None, error: DbError::NoDatabase, misread: None })),
    (Call::Get, 1, Some(Refusal { line: None, error: DbError::NoDatabase, misread: None })),
];

fn drives(alloc: Global, lines: &str, heard: &mut Heard) {
    let way = Way {
        strict: false,
        works: false,
    };
    let mut session = Session::<MemStore, Bytewise>::new(
        alloc,
        MemStore::new(alloc),
        Options::default(),
    );
    let mut out = Vec::new(alloc);
    let _ = drive_in(alloc, &mut session, way, lines.as_bytes(), &mut out, heard);
}

fn imports(alloc: Global, lines: &str, heard: &mut Heard) {
    let Some(how) = Importing::new(10, false) else {
        return;
    };
    let mut session = Session::<MemStore, Bytewise>::new(
        alloc,
        MemStore::new(alloc),
        Options::default(),
    );
    let mut out = Vec::new(alloc);
    let _ = import(alloc, &mut session, &how, lines.as_bytes(), &mut out, heard);
}

fn compacts(alloc: Global, heard: &mut Heard) {
    let mut session = Session::<MemStore, Bytewise>::new(
        alloc,
        MemStore::new(alloc),
        Options::default(),
    );
    let mut out = Vec::new(alloc);
    let _ = compact(alloc, &mut session, None, &mut out, heard);
}

fn gets(alloc: Global, heard: &mut Heard) {
    let store = ReadOnly::over(MemStore::new(alloc));
    let mut out = Vec::new(alloc);
    let _ = get::<Bytewise, MemStore, Vec<u8>, Heard>(
        alloc,
        store,
        b"a",
        Showing::Line(Form::Hex),
        &mut out,
        heard,
    );
}

fn is_heard(alloc: Global, call: Call, count: u64, last: Option<Refusal>) -> bool {
    let mut heard = Heard {
        count: 0,
        last: None,
    };
    match call {
        Call::Drive(lines) => drives(alloc, lines, &mut heard),
        Call::Import(lines) => imports(alloc, lines, &mut heard),
        Call::Compact => compacts(alloc, &mut heard),
        Call::Get => gets(alloc, &mut heard),
    }
    heard.count == count && heard.last == last
}

#[test]
fn a_listener_is_told_of_each_refusal(rt: HostRuntime) {
    for (index, (call, count, last)) in CASES.iter().enumerate() {
        assert!(rt; is_heard(rt.alloc(), *call, *count, *last), "{index}");
    }
}
