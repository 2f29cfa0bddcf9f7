use engine::{Options, Session};
use ikey::Bytewise;
use script::{Fault, drive};
use std::alloc::{AllocError, AllocGlobal, Global};
use std::io::{self, ErrorKind, Read, Write};
use std::process::Abort;
use std::test::Fail;
use store::MemStore;

// Scripts over an empty store, and what is written.
const SCRIPTS: [(&str, &str); 9] = [
    ("", ""),
    ("\n", "refused 20 BadLine\n"),
    ("\n\n", "refused 20 BadLine\nrefused 20 BadLine\n"),
    (
        "get 61\nopen\nopen new\nopen new\nclose\nopen new\nclose\n",
        "refused 16 NotOpen\nrefused 3 NoDatabase\nok\nrefused 17 AlreadyOpen\nok\nrefused 4 Exists\nrefused 16 NotOpen\n",
    ),
    (
        "open new\nwrite put 61 31 del 61 put 61 32\nget 61\n",
        "ok\nok\nvalue 32\n",
    ),
    (
        "open new\nput - -\nget -\nwrite\nget -\n",
        "ok\nok\nvalue -\nok\nvalue -\n",
    ),
    (
        "open new\nput 6 31\nPUT 61 31\n\nwork 07\nget 61 9",
        "ok\nrefused 20 BadLine\nrefused 20 BadLine\nrefused 20 BadLine\nrefused 20 BadLine\nrefused 8 NoSnapshot\n",
    ),
    ("open new\nput 6A -\nget 6a", "ok\nok\nvalue -\n"),
    (
        "open new\nput 61 31\nsnapshot\nput 62 32\niter 1\niter\nfirst 1\nnext 1\nnext 1\nlast 2\nprev 2\nseek 2 6100\ndrop 2\nrelease 1\n",
        "ok\nok\nsnapshot 1\nok\niter 1\niter 2\nat 61 31\nend\nrefused 10 NoPlace\nat 62 32\nat 61 31\nat 62 32\nok\nok\n",
    ),
];

type InMemory = Session<MemStore, Bytewise>;

fn in_memory(alloc: Global) -> InMemory {
    Session::new(alloc, MemStore::new(alloc), Options::default())
}

// Runs a script. Nothing is claimed of it, so that a caller's proof needn't read what is claimed of
// `drive`.
fn run<R: Read + Drop, W: Write>(
    alloc: Global,
    session: &mut InMemory,
    reader: R,
    writer: &mut W,
) -> Result<(), Fault> {
    drive(alloc, session, reader, writer)
}

// What is written for a script, or nothing on a fault.
fn written(alloc: Global, session: &mut InMemory, script: &str) -> Option<Vec<u8>> {
    let mut out = Vec::new(alloc);
    match run(alloc, session, script.as_bytes(), &mut out) {
        Ok(()) => Some(out),
        Err(_) => None,
    }
}

fn is_answered(alloc: Global, session: &mut InMemory, script: &str, wanted: &str) -> bool {
    matches!(written(alloc, session, script), Some(out) if out.as_slice() == wanted.as_bytes())
}

fn assert_answered(rt: &(impl Abort + AllocGlobal), script: &str, wanted: &str) {
    let mut session = in_memory(rt.alloc());
    assert!(rt;
        is_answered(rt.alloc(), &mut session, script, wanted),
        "{script}"
    );
}

#[test]
fn scripts_are_answered(rt: HostRuntime) {
    for (script, wanted) in SCRIPTS {
        assert_answered(&rt, script, wanted);
    }
}

// A line of so many letters says no command, and decides where in the buffer of 65,536 bytes the
// three lines after it lie.
fn is_answered_behind_letters(
    alloc: Global,
    session: &mut InMemory,
    length: usize,
) -> Result<bool, AllocError> {
    let mut script = vec![in alloc; b'x'; length]?;
    script.extend_from_slice(b"\nopen new\nput 61 31\nget 61\n")?;
    let mut out = Vec::new(alloc);
    let is_run = run(alloc, session, script.as_slice(), &mut out).is_ok();
    Ok(is_run && out.as_slice() == b"refused 20 BadLine\nok\nok\nvalue 31\n".as_slice())
}

fn assert_answered_behind_letters(
    rt: &(impl Abort + AllocGlobal),
    length: usize,
) -> Result<(), Fail> {
    let mut session = in_memory(rt.alloc());
    assert!(rt;
        is_answered_behind_letters(rt.alloc(), &mut session, length)?,
        "{length}"
    );
    Ok(())
}

#[test]
fn lines_across_the_edge_of_the_buffer_are_answered(rt: HostRuntime) -> Result<(), Fail> {
    for length in 65_500..65_540 {
        assert_answered_behind_letters(&rt, length)?;
    }
    Ok(())
}

// The first script leaves its database open.
fn is_answered_behind(alloc: Global, session: &mut InMemory) -> bool {
    is_answered(alloc, session, "open new\nput 61 31\n", "ok\nok\n")
        && is_answered(
            alloc,
            session,
            "get 61\nopen\nget 61\n",
            "refused 16 NotOpen\nok\nvalue 31\n",
        )
}

#[test]
fn an_open_database_is_closed_at_the_end(rt: HostRuntime) {
    let mut session = in_memory(rt.alloc());
    assert!(rt; is_answered_behind(rt.alloc(), &mut session));
}

// A writer that takes so many bytes, and then fails.
#[derive(Drop)]
struct Short {
    taken: Vec<u8>,
    room: usize,
}

impl Write for Short {
    fn write(&mut self, buf: &[u8]) -> io::Result<usize> {
        let count = buf.len().min(self.room);
        if count == 0 {
            return Err(io::Error::from(ErrorKind::BrokenPipe));
        }
        self.taken.extend_from_slice(&buf[..count])?;
        self.room -= count;
        Ok(count)
    }

    fn flush(&mut self) -> io::Result<()> {
        Ok(())
    }
}

const SCRIPT: &str = "open new\nput 61 31\nget 61\nfrob\nget 62\n";

const TEXT: &str = "ok\nok\nvalue 31\nrefused 20 BadLine\nnone\n";

// Whether it has a beginning of the text, as long as its room.
fn has_beginning(writer: &Short, room: usize) -> bool {
    writer.taken.len() == room && TEXT.as_bytes().starts_with(writer.taken.as_slice())
}

// Whether a writer with room for so many bytes has them, and the fault is that of writing.
fn is_cut(alloc: Global, session: &mut InMemory, room: usize) -> bool {
    let mut writer = Short {
        taken: Vec::new(alloc),
        room,
    };
    let is_write = matches!(
        run(alloc, session, SCRIPT.as_bytes(), &mut writer),
        Err(Fault::Write(_))
    );
    is_write && has_beginning(&writer, room)
}

fn assert_cut(rt: &(impl Abort + AllocGlobal), room: usize) {
    let mut session = in_memory(rt.alloc());
    assert!(rt; is_cut(rt.alloc(), &mut session, room), "{room}");
}

#[test]
fn a_writer_that_fails_has_a_beginning_of_the_text(rt: HostRuntime) {
    for room in 0..TEXT.len() {
        assert_cut(&rt, room);
    }
}

// A writer that is interrupted at every second call, takes a byte at each other, and passes on what
// it has when it is told to.
#[derive(Drop)]
struct Hesitant {
    taken: Vec<u8>,
    passed_on: usize,
    is_interrupted: bool,
}

impl Write for Hesitant {
    fn write(&mut self, buf: &[u8]) -> io::Result<usize> {
        self.is_interrupted = !self.is_interrupted;
        if self.is_interrupted {
            return Err(io::Error::from(ErrorKind::Interrupted));
        }
        let Some(first) = buf.first() else {
            return Ok(0);
        };
        self.taken.push(*first)?;
        Ok(1)
    }

    fn flush(&mut self) -> io::Result<()> {
        self.passed_on = self.taken.len();
        Ok(())
    }
}

// Whether a writer that hesitates has the whole text, and has passed it on.
fn is_passed_on(alloc: Global, session: &mut InMemory) -> bool {
    let mut writer = Hesitant {
        taken: Vec::new(alloc),
        passed_on: 0,
        is_interrupted: false,
    };
    let is_run = matches!(run(alloc, session, SCRIPT.as_bytes(), &mut writer), Ok(()));
    is_run && writer.taken.as_slice() == TEXT.as_bytes() && writer.passed_on == TEXT.len()
}

#[test]
fn a_writer_that_is_interrupted_passes_on_the_whole_text(rt: HostRuntime) {
    let mut session = in_memory(rt.alloc());
    assert!(rt; is_passed_on(rt.alloc(), &mut session));
}

// A reader that gives so many bytes one by one, and then fails.
#[derive(Drop)]
struct Broken<'a> {
    bytes: &'a [u8],
}

impl Read for Broken<'_> {
    fn read(&mut self, buf: &mut [u8]) -> io::Result<usize> {
        let Some((first, rest)) = self.bytes.split_first() else {
            return Err(io::Error::from(ErrorKind::ConnectionReset));
        };
        if let Some(place) = buf.first_mut() {
            *place = *first;
            self.bytes = rest;
            return Ok(1);
        }
        Ok(0)
    }
}

// Whether the whole lines of a script that breaks off are answered.
fn is_broken_off(alloc: Global, session: &mut InMemory, script: &[u8], wanted: &str) -> bool {
    let mut out = Vec::new(alloc);
    let is_read = matches!(
        run(alloc, session, Broken { bytes: script }, &mut out),
        Err(Fault::Read(_))
    );
    is_read && out.as_slice() == wanted.as_bytes()
}

// The session stays open.
#[test]
fn a_reader_that_fails_has_its_whole_lines_answered(rt: HostRuntime) {
    let alloc = rt.alloc();
    let mut session = in_memory(alloc);
    assert!(rt;
        is_broken_off(
            alloc,
            &mut session,
            b"open new\nput 61 31\nget 6",
            "ok\nok\n"
        )
    );
    assert!(rt; is_answered(alloc, &mut session, "get 61", "value 31\n"));
}
