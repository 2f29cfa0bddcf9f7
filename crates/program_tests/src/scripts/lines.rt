use batch::Operation;
use coding::{Bytes, Damage, DbError, FileKind};
use engine::{Answer, Mode, Op};
use script::{
    Misread, Wanted as Word, answer_line, misread_line, misread_operation_line, read_line,
};
use std::alloc::{AllocError, AllocGlobal, Global};

// What a batch does to one key.
enum Change {
    To(&'static [u8], &'static [u8]),
    Gone(&'static [u8]),
}

// A command, as `Op` has it.
enum Command {
    Open(Mode),
    Write(&'static [Change], bool),
    Get(&'static [u8], Option<u64>),
    Snapshot,
    Release(u64),
    Iterate(Option<u64>),
    First(u64),
    Last(u64),
    Seek(u64, &'static [u8]),
    Next(u64),
    Prev(u64),
    DropIterator(u64),
    Work(u32),
    CompactLevel(u32),
    CompactAll,
    Close,
}

#[rattlefmt::skip]
const SAID: &[(&str, Command)] = &[
    ("open", Command::Open(Mode::Existing)),
    ("open new", Command::Open(Mode::New)),
    ("open any", Command::Open(Mode::Any)),
    ("put 61 31", Command::Write(&[Change::To(b"a", b"1")], false)),
    ("put - -", Command::Write(&[Change::To(b"", b"")], false)),
    ("put 6Aff 0aBC", Command::Write(&[Change::To(b"\x6a\xff", b"\x0a\xbc")], false)),
    ("del 61", Command::Write(&[Change::Gone(b"a")], false)),
    ("write", Command::Write(&[], false)),
    ("write sync", Command::Write(&[], true)),
    ("write put 61 31 del 61", Command::Write(&[Change::To(b"a", b"1"), Change::Gone(b"a")], false)),
    ("write sync del - put 62 -", Command::Write(&[Change::Gone(b""), Change::To(b"b", b"")], true)),
    ("get 61", Command::Get(b"a", None)),
    ("get - 3", Command::Get(b"", Some(3))),
    ("snapshot", Command::Snapshot),
    ("release 0", Command::Release(0)),
    ("iter", Command::Iterate(None)),
    ("iter 18446744073709551615", Command::Iterate(Some(18_446_744_073_709_551_615))),
    ("first 1", Command::First(1)),
    ("last 2", Command::Last(2)),
    ("seek 4 00", Command::Seek(4, b"\x00")),
    ("seek 4 -", Command::Seek(4, b"")),
    ("next 10", Command::Next(10)),
    ("prev 100", Command::Prev(100)),
    ("drop 7", Command::DropIterator(7)),
    ("work 0", Command::Work(0)),
    ("work 4294967295", Command::Work(4_294_967_295)),
    ("compact 0", Command::CompactLevel(0)),
    ("compact 4294967295", Command::CompactLevel(4_294_967_295)),
    ("compact all", Command::CompactAll),
    ("close", Command::Close),
];

fn is_change(operation: &Operation, change: &Change) -> bool {
    match (operation, change) {
        (Operation::Put(key, value), Change::To(other, to)) => {
            key.as_slice() == *other && value.as_slice() == *to
        }
        (Operation::Delete(key), Change::Gone(other)) => key.as_slice() == *other,
        _ => false,
    }
}

fn are_changes(operations: &[Operation], changes: &[Change]) -> bool {
    operations.len() == changes.len()
        && operations
            .iter()
            .zip(changes)
            .all(|(operation, change)| is_change(operation, change))
}

// Whether the command is of a database's entries, and the same.
fn is_of_entries(op: &Op, wanted: &Command) -> bool {
    match (op, wanted) {
        (Op::Write(operations, sync), Command::Write(changes, other)) => {
            sync == other && are_changes(operations, *changes)
        }
        (Op::Get(key, id), Command::Get(other, at)) => key.as_slice() == *other && id == at,
        (Op::Seek(id, key), Command::Seek(other, to)) => id == other && key.as_slice() == *to,
        _ => false,
    }
}

// The same of a command of an iterator or a snapshot.
fn is_of_views(op: &Op, wanted: &Command) -> bool {
    match (op, wanted) {
        (Op::Snapshot, Command::Snapshot) => true,
        (Op::Release(id), Command::Release(other)) => id == other,
        (Op::Iterate(id), Command::Iterate(other)) => id == other,
        (Op::First(id), Command::First(other)) => id == other,
        (Op::Last(id), Command::Last(other)) => id == other,
        (Op::Next(id), Command::Next(other)) => id == other,
        (Op::Prev(id), Command::Prev(other)) => id == other,
        (Op::DropIterator(id), Command::DropIterator(other)) => id == other,
        _ => false,
    }
}

// The same of a command of files.
fn is_of_files(op: &Op, wanted: &Command) -> bool {
    match (op, wanted) {
        (Op::Open(mode), Command::Open(other)) => mode == other,
        (Op::Work(budget), Command::Work(other)) => budget == other,
        (Op::CompactLevel(level), Command::CompactLevel(other)) => level == other,
        (Op::CompactAll, Command::CompactAll) => true,
        (Op::Close, Command::Close) => true,
        _ => false,
    }
}

fn is(op: &Op, wanted: &Command) -> bool {
    is_of_entries(op, wanted) || is_of_views(op, wanted) || is_of_files(op, wanted)
}

fn says(alloc: Global, line: &str, wanted: &Command) -> bool {
    misread_line(line.as_bytes()).is_none()
        && matches!(read_line(alloc, line.as_bytes()), Ok(Some(op)) if is(&op, wanted))
}

#[test]
fn lines_say_commands(rt: HostRuntime) {
    for (line, command) in SAID {
        assert!(rt; says(rt.alloc(), line, command), "{line}");
    }
}

// Each says no command.
const BAD_LINES: [&[u8]; 72] = [
    b"",
    b" ",
    b"  ",
    b"open ",
    b" open",
    b"open  new",
    b"open New",
    b"OPEN",
    b"open new any",
    b"open old",
    b"put",
    b"put 61",
    b"put 61 31 32",
    b"put 6 31",
    b"put 61 3",
    b"put 6g 31",
    b"put 61 ",
    b"put  61 31",
    b"put 61  31",
    b"put -- 31",
    b"put 0x61 31",
    b"PUT 61 31",
    b"del",
    b"del 61 62",
    b"del 6",
    b"write put",
    b"write put 61",
    b"write put 61 31 del",
    b"write sync sync",
    b"write put 61 31 sync",
    b"write  put 61 31",
    b"write del 61 ",
    b"write get 61",
    b"get",
    b"get 61 62 63",
    b"get 61 1 2 3",
    b"next 1 2 3 4 5",
    b"get 61 x",
    b"get 61 00",
    b"get 61 +1",
    b"get 61 -1",
    b"get 61 18446744073709551616",
    b"get 61 99999999999999999999999",
    b"snapshot 1",
    b"release",
    b"release -",
    b"release 01",
    b"release 1 2",
    b"iter 1 2",
    b"first",
    b"last x",
    b"seek 1",
    b"seek 61 x",
    b"next",
    b"prev  1",
    b"drop",
    b"work",
    b"work 07",
    b"work 1 2",
    b"work 4294967296",
    b"work -1",
    b"compact",
    b"compact 00",
    b"compact -1",
    b"compact all 1",
    b"compact 4294967296",
    b"compact ALL",
    b"\xff",
    b"get \xc3\x28",
    b"close\r",
    b"close\0",
    b"get 61\t",
];

fn says_nothing(alloc: Global, line: &[u8]) -> bool {
    misread_line(line).is_some() && matches!(read_line(alloc, line), Ok(None))
}

#[test]
fn other_lines_say_nothing(rt: HostRuntime) {
    for line in BAD_LINES {
        assert!(rt; says_nothing(rt.alloc(), line), "{line:?}");
    }
}

// The first word that is wrong, and what belongs there.
#[rattlefmt::skip]
const MISREAD: &[(&[u8], usize, Word)] = &[
    (b"", 1, Word::Command),
    (b"PUT 61 31", 1, Word::Command),
    (b"open old", 2, Word::Mode),
    (b"open new any", 3, Word::End),
    (b"put 61", 3, Word::Bytes),
    (b"put 6 31", 2, Word::Bytes),
    (b"put 61 31 32", 4, Word::End),
    (b"write get 61", 2, Word::Operation),
    (b"write put 61 31 sync", 5, Word::Operation),
    (b"write sync del", 4, Word::Bytes),
    (b"get 61 x", 3, Word::Number),
    (b"seek x 61", 2, Word::Number),
    (b"work 4294967296", 2, Word::SmallNumber),
    (b"compact ALL", 2, Word::Level),
    (b"close ", 2, Word::End),
];

#[rattlefmt::skip]
const MISREAD_OPERATIONS: &[(&[u8], usize, Word)] = &[
    (b"get 61", 1, Word::Operation),
    (b"put 61", 3, Word::Bytes),
    (b"del 61 62", 3, Word::End),
];

fn is_misread(misread: Option<Misread>, word: usize, wanted: Word) -> bool {
    misread == Some(Misread { word, wanted })
}

#[test]
fn the_first_wrong_word_is_told(rt: HostRuntime) {
    for (line, word, wanted) in MISREAD {
        assert!(rt; is_misread(misread_line(line), *word, *wanted), "{line:?}");
    }
    for (line, word, wanted) in MISREAD_OPERATIONS {
        assert!(rt;
            is_misread(misread_operation_line(line), *word, *wanted),
            "{line:?}"
        );
    }
}

// An answer, as `Answer` has it.
enum Wanted {
    Done,
    Value(Option<&'static [u8]>),
    Snapshot(u64),
    Iterator(u64),
    Pair(Option<(&'static [u8], &'static [u8])>),
    Worked,
    Idle,
    Refused(DbError),
}

#[rattlefmt::skip]
const ANSWERS: &[(Wanted, &str)] = &[
    (Wanted::Done, "ok"),
    (Wanted::Value(None), "none"),
    (Wanted::Value(Some(b"\x0a\xbc")), "value 0abc"),
    (Wanted::Value(Some(b"")), "value -"),
    (Wanted::Value(Some(b"\xf1\xf2\xf3\xf4\xf5\xf6\xf7\xf8\xf9\xfa\xfb\xfc\xfd\xfe\xff")), "value f1f2f3f4f5f6f7f8f9fafbfcfdfeff"),
    (Wanted::Value(Some(b"\x00\x01\x02\x03\x04\x05\x06\x07\x08\x09\x0a\x0b\x0c\x0d\x0e\x0f")), "value 000102030405060708090a0b0c0d0e0f"),
    (Wanted::Value(Some(b"\x05\x2a\x4f\x74\x99\xbe\xe3\x08\x2d\x52\x77\x9c\xc1\xe6\x0b\x30\x55\x7a\x9f\xc4\xe9\x0e\x33\x58\x7d\xa2\xc7\xec\x11\x36\x5b\x80\xa5\xca\xef")), "value 052a4f7499bee3082d52779cc1e60b30557a9fc4e90e33587da2c7ec11365b80a5caef"),
    (Wanted::Snapshot(1), "snapshot 1"),
    (Wanted::Iterator(18_446_744_073_709_551_615), "iter 18446744073709551615"),
    (Wanted::Pair(Some((b"a", b""))), "at 61 -"),
    (Wanted::Pair(Some((b"", b"\x00"))), "at - 00"),
    (Wanted::Pair(None), "end"),
    (Wanted::Worked, "worked"),
    (Wanted::Idle, "idle"),
    (Wanted::Refused(DbError::BadLine), "refused 20 BadLine"),
    (Wanted::Refused(DbError::Corrupt(FileKind::Table, Damage::Order)), "refused 5 Corrupt"),
];

fn value_of(alloc: Global, value: Option<&[u8]>) -> Result<Answer, AllocError> {
    match value {
        Some(value) => Ok(Answer::Value(Some(Bytes::copied_from(alloc, value)?))),
        None => Ok(Answer::Value(None)),
    }
}

fn pair_of(alloc: Global, pair: Option<(&[u8], &[u8])>) -> Result<Answer, AllocError> {
    let Some((key, value)) = pair else {
        return Ok(Answer::Pair(None));
    };
    let key = Bytes::copied_from(alloc, key)?;
    Ok(Answer::Pair(Some((key, Bytes::copied_from(alloc, value)?))))
}

fn answer_of(alloc: Global, wanted: &Wanted) -> Result<Answer, AllocError> {
    match wanted {
        Wanted::Done => Ok(Answer::Done),
        Wanted::Value(value) => value_of(alloc, *value),
        Wanted::Snapshot(id) => Ok(Answer::Snapshot(*id)),
        Wanted::Iterator(id) => Ok(Answer::Iterator(*id)),
        Wanted::Pair(pair) => pair_of(alloc, *pair),
        Wanted::Worked => Ok(Answer::Worked),
        Wanted::Idle => Ok(Answer::Idle),
        Wanted::Refused(error) => Ok(Answer::Refused(*error)),
    }
}

fn has_line(alloc: Global, answer: &Answer, line: &str) -> bool {
    matches!(answer_line(alloc, answer), Ok(text) if text.as_str() == line)
}

fn is_written(alloc: Global, wanted: &Wanted, line: &str) -> bool {
    matches!(answer_of(alloc, wanted), Ok(answer) if has_line(alloc, &answer, line))
}

#[test]
fn answers_are_lines(rt: HostRuntime) {
    for (wanted, line) in ANSWERS {
        assert!(rt; is_written(rt.alloc(), wanted, line), "{line}");
    }
}
