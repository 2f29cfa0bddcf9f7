//! What is found in the files that a session leaves, by another one.
use crate::lines::{KEYS, Line, Map, O, Seen};
use crate::model::{Model, written};
use crate::runs::{Faulty, asked, rests, session};
use crate::scripts::Sizes;
use crate::watched::WatchedStore;
use coding::DbError;
use engine::Mode;
use ikey::Bytewise;
use recover::{Report, check};
use std::alloc::Global;
use store::{MemStore, Store, StoreError};

fn checked(alloc: Global, store: &mut MemStore) -> Result<Report, DbError> {
    check::<Bytewise, MemStore>(alloc, store)
}

/// Returns whether a check finds the files consistent.
pub fn is_consistent(alloc: Global, store: &mut MemStore) -> bool {
    match checked(alloc, store) {
        Ok(_) => true,
        Err(DbError::OutOfMemory) => checked(alloc, store).is_ok(),
        Err(_) => false,
    }
}

/// Returns the files as they are now, in a copy with its lock free.
pub fn remains_of(session: &Faulty) -> Result<MemStore, StoreError> {
    match session.store().remains() {
        Ok(files) => Ok(files),
        Err(_) => session.store().remains(),
    }
}

// The pairs that an iterator goes over, if it has no more than one for each key.
fn walked_by(alloc: Global, session: &mut Faulty, id: u64) -> Option<Map> {
    let mut map: Map = [None; KEYS];
    let mut line = Line::First(id);
    for _ in 0..=KEYS {
        match asked(alloc, session, line) {
            Seen::Pair(Some((place, value))) => *map.get_mut(place)? = value,
            Seen::Pair(None) => return Some(map),
            _ => return None,
        }
        line = Line::Next(id);
    }
    None
}

// The same by an iterator of its own, which is dropped, so that its tables needn't stay.
fn walked(alloc: Global, session: &mut Faulty) -> Option<Map> {
    let Seen::Iterator(id) = asked(alloc, session, Line::Iterate) else {
        return None;
    };
    let found = walked_by(alloc, session, id);
    if asked(alloc, session, Line::DropIterator(id)) == Seen::Done {
        found
    } else {
        None
    }
}

fn is_walked(alloc: Global, session: &mut Faulty, wanted: &Map) -> bool {
    walked(alloc, session) == Some(*wanted)
}

const LAST: Line = Line::Write(&[(O, Some(b'9'))]);

// Whether an open database goes on from this map: a put, all work, a compaction of all, and all
// work again.
fn goes_on(alloc: Global, session: &mut Faulty, map: Map) -> bool {
    let map = written(map, &[(O, Some(b'9'))]);
    asked(alloc, session, LAST) == Seen::Done
        && rests(alloc, session, &mut Model::serving(map))
        && is_walked(alloc, session, &map)
        && asked(alloc, session, Line::CompactAll) == Seen::Done
        && rests(alloc, session, &mut Model::serving(map))
        && is_walked(alloc, session, &map)
        && asked(alloc, session, Line::Close) == Seen::Done
}

// Whether a session opens the files, finds what the model allows after a process that ended in this
// command, and goes on.
fn is_found(alloc: Global, session: &mut Faulty, model: &Model, line: Line) -> bool {
    if asked(alloc, session, Line::Open(Mode::Any)) != Seen::Done {
        return false;
    }
    match walked(alloc, session) {
        Some(found) => model.may_hold(line, &found) && goes_on(alloc, session, found),
        None => false,
    }
}

fn serves_on(
    alloc: Global,
    files: MemStore,
    sizes: Sizes,
    model: &Model,
    line: Line,
) -> Result<Option<MemStore>, DbError> {
    let mut next = session(alloc, WatchedStore::new(files, None), sizes)?;
    let found = is_found(alloc, &mut next, model, line);
    let files = next.into_store().into_inner();
    Ok(if found { Some(files) } else { None })
}

// How many files there are.
fn files_in(alloc: Global, store: &mut MemStore) -> Result<usize, StoreError> {
    Ok(store.list(alloc)?.len())
}

// Whether a check tells as many tables and logs as there are files beside CURRENT, the lock and the
// MANIFEST.
fn tells_all(report: &Report, files: usize) -> bool {
    match report {
        Report::Empty => false,
        Report::Good(summary) => {
            let live = summary.tables.len().saturating_add(summary.logs.len());
            files == live.saturating_add(3)
        }
    }
}

// Whether a check accepts the files, and no other is there.
fn is_tidy(alloc: Global, store: &mut MemStore) -> bool {
    let Ok(files) = files_in(alloc, store) else {
        return false;
    };
    matches!(checked(alloc, store), Ok(report) if tells_all(&report, files))
}

fn are_well(alloc: Global, files: MemStore, sizes: Sizes, model: &Model, line: Line) -> bool {
    let mut files = files;
    if !is_consistent(alloc, &mut files) {
        return false;
    }
    match serves_on(alloc, files, sizes, model, line) {
        Ok(Some(left)) => {
            let mut left = left;
            is_tidy(alloc, &mut left)
        }
        _ => false,
    }
}

/// Returns whether a process may have left these files that ended in this command, in the state of
/// the model. A check must find them consistent, and a session over them what was written, and
/// serve. After that a check must find what is left consistent, with nothing left beside. If that
/// isn't so, it is tried once more, since memory may have run out in it.
pub fn are_left(alloc: Global, files: &MemStore, sizes: Sizes, model: &Model, line: Line) -> bool {
    for _ in 0..2 {
        if let Ok(copy) = files.copy() {
            if are_well(alloc, copy, sizes, model, line) {
                return true;
            }
        }
    }
    false
}
