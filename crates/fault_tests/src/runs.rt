//! A session that goes through a script beside the plain model.
use crate::lines::{KEYS, Line, Map, Seen, op_of, told_by};
use crate::model::{Failed, Model};
use crate::scripts::{Sizes, options_of};
use crate::watched::WatchedStore;
use coding::DbError;
use engine::{Answer, Op, Session};
use ikey::Bytewise;
use std::alloc::Global;
use store::Store;

/// A session over a store that may fail.
pub type Faulty = Session<WatchedStore, Bytewise>;

/// Makes a session with options of these sizes.
pub fn session(alloc: Global, store: WatchedStore, sizes: Sizes) -> Result<Faulty, DbError> {
    match options_of(sizes) {
        Some(options) => Ok(Session::new(alloc, store, options)),
        None => Err(DbError::BadLine),
    }
}

// Gives a command. Nothing is claimed of it, so that a caller's proof needn't read what is claimed
// of `apply`.
fn given(alloc: Global, session: &mut Faulty, op: &Op) -> Answer {
    session.apply(alloc, op)
}

fn answered(alloc: Global, session: &mut Faulty, line: Line) -> Seen {
    match op_of(alloc, line) {
        Ok(op) => told_by(&given(alloc, session, &op)),
        Err(_) => Seen::Refused(DbError::OutOfMemory),
    }
}

/// Gives a command, and once more where it finds no memory.
pub fn asked(alloc: Global, session: &mut Faulty, line: Line) -> Seen {
    match answered(alloc, session, line) {
        Seen::Refused(DbError::OutOfMemory) => answered(alloc, session, line),
        other => other,
    }
}

// How often the store has failed, and how often in a call that writes.
fn failures_of(session: &Faulty) -> (u64, u64) {
    (session.store().failures(), session.store().failed_writes())
}

/// Returns whether everything was synced before what names it, and the store counted each failed
/// write.
pub fn is_ordered(session: &Faulty) -> bool {
    !session.store().is_early()
        && session.store().write_failures() == session.store().failed_writes()
}

fn failed_since(session: &Faulty, before: (u64, u64)) -> Failed {
    let (all, writes) = failures_of(session);
    if writes > before.1 {
        Failed::Write
    } else if all > before.0 {
        Failed::Other
    } else {
        Failed::Nothing
    }
}

/// Returns how many calls the store has had.
pub fn calls_of(session: &Faulty) -> u64 {
    session.store().calls()
}

// Reads each key.
fn read_all(alloc: Global, session: &mut Faulty) -> Option<Map> {
    let mut map: Map = [None; KEYS];
    for (place, value) in map.iter_mut().enumerate() {
        match asked(alloc, session, Line::Get(place)) {
            Seen::Value(found) => *value = found,
            _ => return None,
        }
    }
    Some(map)
}

// Where a batch was in doubt and the database is open again, says whether it is there wholly or not
// at all.
fn settles(alloc: Global, session: &mut Faulty, model: &mut Model) -> bool {
    if !model.is_unsettled() {
        return true;
    }
    match read_all(alloc, session) {
        Some(found) if model.holds(&found) => {
            model.settle(found);
            true
        }
        _ => false,
    }
}

/// Gives a command, and answers what it was answered where the model allows that.
pub fn step(alloc: Global, session: &mut Faulty, model: &mut Model, line: Line) -> Option<Seen> {
    let failures = failures_of(session);
    let answer = asked(alloc, session, line);
    let new = model.after(line, answer, failed_since(session, failures))?;
    *model = new;
    if settles(alloc, session, model) {
        Some(answer)
    } else {
        None
    }
}

// The same, and once more where an open was refused.
fn serves(alloc: Global, session: &mut Faulty, model: &mut Model, line: Line) -> bool {
    if step(alloc, session, model, line).is_none() {
        return false;
    }
    if model.is_closed() && matches!(line, Line::Open(_)) {
        return step(alloc, session, model, line).is_some();
    }
    true
}

/// Goes through a script, and answers how many lines were answered as the model allows before one
/// that wasn't.
pub fn run(alloc: Global, session: &mut Faulty, model: &mut Model, lines: &[Line]) -> usize {
    for (number, line) in lines.iter().enumerate() {
        if !serves(alloc, session, model, *line) {
            return number;
        }
    }
    lines.len()
}

/// Works until there is nothing left to do, or until the database is broken or closed, a hundred
/// times at most. Says whether it came to that, with answers that the model allows.
pub fn rests(alloc: Global, session: &mut Faulty, model: &mut Model) -> bool {
    for _ in 0..100 {
        match step(alloc, session, model, Line::Work(9)) {
            Some(Seen::Worked) => (),
            Some(Seen::Refused(DbError::Io)) => (),
            Some(_) => return true,
            None => return false,
        }
    }
    false
}
