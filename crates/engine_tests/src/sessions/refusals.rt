// What is answered, and what is left, if any one call of the store fails, while compactions are
// under way and in those that are one command.
use super::*;
use crate::watching::WatchedStore;
use batch::Operation;
use recover::{Report, TableSummary};
use std::test::Fail;

// A memtable is sealed with its first entry. Level 0 is compacted from two files on, level 1 above
// 100 bytes, and each key has a file of its own.
const SIZES: Sizes = [1, 64, 1, 2, 100, 16];

const OPEN: &[&str] = &["open any"];

const READ: &[&str] = &["get 61", "get 62", "get 63", "get 64"];

const WORK: &[&str] = &["work 1", "work 1", "work 1"];

// All commands but those after a close, in pieces.
const PIECES: &[&[&str]] = &[
    OPEN,
    &["put 61 31"],
    WORK,
    READ,
    &["put 62 32"],
    WORK,
    READ,
    &["put 61 33"],
    WORK,
    READ,
    &["put 63 34"],
    WORK,
    READ,
    &["put 62 35"],
    WORK,
    READ,
    &["put 64 36"],
    WORK,
    READ,
    WORK,
    WORK,
    WORK,
    WORK,
    READ,
    &["compact 1"],
    READ,
    &["put 61 37"],
    &["compact all"],
    READ,
];

// What became of a command.
#[derive(Clone, Copy, PartialEq, Eq)]
enum Outcome {
    AsWanted,
    Refused,
    Wrong,
}

// What became of a session of which one call of the store was refused.
#[derive(Clone, Copy, PartialEq, Eq)]
enum End {
    // all went on
    Whole,
    // a piece of work was refused, and all went on
    GivenUp,
    // the database was broken, until it was closed
    Broken,
    Wrong,
}

// The number of the call that fails; the first bytes of key and value of each put that was done;
// whether the call came. Then whether the database has answered since that it is broken, and
// whether a piece of work failed before it did.
#[derive(Drop)]
struct Record {
    refused: u64,
    pairs: Vec<(u8, u8)>,
    has_come: bool,
    is_broken: bool,
    has_refused_work: bool,
}

fn first_of(bytes: &[u8]) -> u8 {
    bytes.first().copied().unwrap_or(0)
}

// Whether it is a piece of work, or a compaction.
fn is_work(op: &Op) -> bool {
    matches!(op, Op::Work(_)) || matches!(op, Op::CompactLevel(_)) || matches!(op, Op::CompactAll)
}

impl Record {
    fn new(alloc: Global, refused: u64) -> Self {
        Record {
            refused,
            pairs: Vec::new(alloc),
            has_come: false,
            is_broken: false,
            has_refused_work: false,
        }
    }

    // Whether this is the value that was put last at a key.
    fn is_last(&self, key: u8, value: Option<u8>) -> bool {
        for (own, last) in self.pairs.iter().rev() {
            if *own == key {
                return value == Some(*last);
            }
        }
        value.is_none()
    }

    // Whether a command is answered as if no call was refused.
    fn is_as_wanted(&self, op: &Op, answer: &Answer) -> bool {
        match (op, answer) {
            (Op::Get(key, _), Answer::Value(Some(value))) => {
                self.is_last(first_of(key.as_slice()), Some(first_of(value.as_slice())))
            }
            (Op::Get(key, _), Answer::Value(None)) => self.is_last(first_of(key.as_slice()), None),
            (Op::Get(_, _), _) => false,
            (Op::Work(_), Answer::Worked) => true,
            (Op::Work(_), Answer::Idle) => true,
            (_, answer) => *answer == Answer::Done,
        }
    }

    // What becomes of a command that was answered after so many calls: it is answered as if no call
    // failed; by Io, if the call comes in it; or by Broken, from some command on.
    fn outcome(&mut self, calls: u64, op: &Op, answer: &Answer) -> Outcome {
        let had_come = self.has_come;
        match answer {
            Answer::Refused(DbError::Io) => {
                self.has_come = true;
                if had_come || self.refused > calls {
                    Outcome::Wrong
                } else {
                    Outcome::Refused
                }
            }
            Answer::Refused(DbError::Broken) => {
                self.is_broken = true;
                if had_come {
                    Outcome::Refused
                } else {
                    Outcome::Wrong
                }
            }
            _ => {
                if self.is_as_wanted(op, answer) && !self.is_broken {
                    Outcome::AsWanted
                } else {
                    Outcome::Wrong
                }
            }
        }
    }

    fn note_pair(&mut self, operation: &Operation) -> Result<(), DbError> {
        match operation {
            Operation::Put(key, value) => {
                self.pairs
                    .push((first_of(key.as_slice()), first_of(value.as_slice())))?;
                Ok(())
            }
            Operation::Delete(_) => Ok(()),
        }
    }

    // Notes the puts that were done.
    fn note(&mut self, op: &Op) -> Result<(), DbError> {
        if let Op::Write(operations, _) = op {
            for operation in operations.iter() {
                self.note_pair(operation)?;
            }
        }
        Ok(())
    }

    // Says what became of a command, and notes it.
    fn judge(&mut self, calls: u64, op: &Op, answer: &Answer) -> Result<Outcome, DbError> {
        let had_come = self.has_come;
        if matches!(op, Op::Open(_)) {
            self.is_broken = false;
        }
        let outcome = self.outcome(calls, op, answer);
        if outcome == Outcome::AsWanted {
            self.note(op)?;
        }
        self.has_refused_work |= outcome == Outcome::Refused && !had_come && is_work(op);
        Ok(outcome)
    }

    fn end(&self) -> End {
        if self.is_broken {
            End::Broken
        } else if self.has_refused_work {
            End::GivenUp
        } else {
            End::Whole
        }
    }
}

type Refusing = Session<WatchedStore, Bytewise>;

fn give(
    alloc: Global,
    session: &mut Refusing,
    record: &mut Record,
    line: &str,
) -> Result<Outcome, DbError> {
    let op = op_of(alloc, line)?;
    let answer = given(alloc, session, &op);
    record.judge(session.store().calls(), &op, &answer)
}

// Gives a command, an open once more where it is refused, and says whether nothing was wrong.
fn is_right(
    alloc: Global,
    session: &mut Refusing,
    record: &mut Record,
    line: &str,
) -> Result<bool, DbError> {
    let outcome = give(alloc, session, record, line)?;
    if outcome == Outcome::Refused && line.starts_with("open") {
        return Ok(give(alloc, session, record, line)? == Outcome::AsWanted);
    }
    Ok(outcome != Outcome::Wrong)
}

fn are_right(
    alloc: Global,
    session: &mut Refusing,
    record: &mut Record,
    lines: &[&str],
) -> Result<bool, DbError> {
    for line in lines {
        if !is_right(alloc, session, record, *line)? {
            return Ok(false);
        }
    }
    Ok(true)
}

fn are_all_right(
    alloc: Global,
    session: &mut Refusing,
    record: &mut Record,
) -> Result<bool, DbError> {
    for lines in PIECES {
        if !are_right(alloc, session, record, lines)? {
            return Ok(false);
        }
    }
    Ok(true)
}

// Closes, opens, and works until there is no more to do. By now the call has come.
fn opens_again(
    alloc: Global,
    session: &mut Refusing,
    record: &mut Record,
) -> Result<bool, DbError> {
    let closing = give(alloc, session, record, "close")?;
    if closing != Outcome::AsWanted && !record.is_broken {
        return Ok(false);
    }
    Ok(
        are_right(alloc, session, record, OPEN)?
            && are_right(alloc, session, record, READ)?
            && rests(alloc, session, 2)
            && are_right(alloc, session, record, READ)?
            && !record.is_broken,
    )
}

// Gives all, opens once more, and says how it ended and how many calls came before it was closed.
fn whole(
    alloc: Global,
    session: &mut Refusing,
    record: &mut Record,
) -> Result<(End, u64), DbError> {
    let is_right = are_all_right(alloc, session, record)?;
    let calls = session.store().calls();
    let end = record.end();
    if is_right && opens_again(alloc, session, record)? {
        Ok((end, calls))
    } else {
        Ok((End::Wrong, calls))
    }
}

// How a session of which the call of this number is refused ends, how many calls came before it was
// closed, and what it leaves.
fn after_run(alloc: Global, refused: u64) -> Result<(End, u64, MemStore), Fail> {
    let mut record = Record::new(alloc, refused);
    let store = WatchedStore::refusing(MemStore::new(alloc), refused);
    let mut session = session(alloc, store, SIZES)?;
    let (end, calls) = whole(alloc, &mut session, &mut record).unwrap_or((End::Wrong, 0));
    Ok((end, calls, session.into_store().into_inner()))
}

// Level 0 is below its limit, and no file is left beside those of the tables, `CURRENT`, `LOCK`,
// the MANIFEST and a log.
fn are_tidy(files: usize, tables: &[TableSummary]) -> bool {
    files.checked_sub(4) == Some(tables.len()) && count_of(tables, 0) < 2
}

fn tells_tidy(report: &Report, files: usize) -> bool {
    matches!(report, Report::Good(summary) if are_tidy(files, &summary.tables))
}

// A check accepts the directory, and it is tidy.
fn is_tidy(alloc: Global, store: &mut MemStore) -> bool {
    let files = files_in(alloc, store);
    matches!(checked(alloc, store), Ok(report) if tells_tidy(&report, files))
}

// The same, where what is left has to be tidy.
fn end_of(alloc: Global, refused: u64) -> Result<(End, u64), Fail> {
    let (end, calls, mut files) = after_run(alloc, refused)?;
    if is_tidy(alloc, &mut files) {
        Ok((end, calls))
    } else {
        Ok((End::Wrong, calls))
    }
}

// Which ends there were.
#[derive(Clone, Copy, Debug)]
struct Ends {
    whole: bool,
    given_up: bool,
    broken: bool,
}

impl Ends {
    // Adds an end, and says whether it isn't wrong.
    fn add(&mut self, end: End) -> bool {
        match end {
            End::Whole => self.whole = true,
            End::GivenUp => self.given_up = true,
            End::Broken => self.broken = true,
            End::Wrong => return false,
        }
        true
    }

    fn are_all(&self) -> bool {
        self.whole && self.given_up && self.broken
    }
}

#[test]
fn any_refused_call_leaves_what_was_accepted(rt: HostRuntime) -> Result<(), Fail> {
    let (_, calls) = end_of(rt.alloc(), 0)?;
    let mut ends = Ends {
        whole: false,
        given_up: false,
        broken: false,
    };
    for refused in 0..=calls {
        let (end, _) = end_of(rt.alloc(), refused)?;
        assert!(rt; ends.add(end), "call {refused} of {calls}");
    }
    assert!(rt; ends.are_all(), "{ends:?}");
    Ok(())
}
