//! The process crashes at each call of the store: not at all done, wholly, and of an append with a
//! beginning of its bytes.
use crate::endings::{are_left, remains_of};
use crate::lines::Line;
use crate::model::Model;
use crate::runs::{Faulty, calls_of, run, session, step};
use crate::scripts::*;
use crate::watched::WatchedStore;
use coding::DbError;
use std::alloc::{AllocGlobal, Global};
use std::test::Fail;
use store::{Extent, Fault, MemStore, Plan, Store};

const SCRIPTS: [Script; 5] = [PUTS, ITERATOR, STEPS, SNAPSHOTS, LEVELS];

// Goes through a script up to the line in which a call comes. Answers that line, or none if an
// answer before it isn't one that the model allows. After the last line it is a close.
fn stopped_in(
    alloc: Global,
    session: &mut Faulty,
    model: &mut Model,
    lines: &[Line],
    call: u64,
) -> Option<Line> {
    for line in lines {
        let before = *model;
        let answer = step(alloc, session, model, *line);
        if calls_of(session) >= call {
            *model = before;
            return Some(*line);
        }
        answer?;
    }
    Some(Line::Close)
}

// The bytes of all files.
fn bytes_in(alloc: Global, store: &mut MemStore) -> u64 {
    let mut bytes: u64 = 0;
    let Ok(names) = store.list(alloc) else {
        return 0;
    };
    for name in names.iter() {
        bytes = bytes.saturating_add(store.len(name.as_str()).unwrap_or(0));
    }
    bytes
}

// Files that a process left, and the state in which it did.
#[derive(Drop)]
struct Start {
    files: MemStore,
    model: Model,
}

// What comes of a process crash: the bytes that are left, how many calls there were, and whether
// the files are those that it may leave.
#[derive(Clone, Copy)]
struct Outcome {
    bytes: u64,
    calls: u64,
    well: bool,
}

fn outcome_of(
    alloc: Global,
    start: &Start,
    script: Script,
    plan: Option<Plan>,
) -> Result<Outcome, DbError> {
    let Ok(copy) = start.files.copy() else {
        return Err(DbError::OutOfMemory);
    };
    let mut model = start.model;
    let call = plan.map_or(u64::MAX, |it| it.call);
    let mut session = session(alloc, WatchedStore::new(copy, plan), script.sizes)?;
    let line = stopped_in(alloc, &mut session, &mut model, script.lines, call);
    let calls = calls_of(&session);
    let Ok(mut left) = remains_of(&session) else {
        return Err(DbError::OutOfMemory);
    };
    let bytes = bytes_in(alloc, &mut left);
    let well = line.is_some_and(|it| are_left(alloc, &left, script.sizes, &model, it));
    Ok(Outcome { bytes, calls, well })
}

// The bytes that a process crash at this call leaves, if they are those that it may leave.
fn left_by(alloc: Global, start: &Start, script: Script, call: u64, extent: Extent) -> Option<u64> {
    let fault = Fault::Stop(extent);
    match outcome_of(alloc, start, script, Some(Plan { call, fault })) {
        Ok(found) if found.well => Some(found.bytes),
        _ => None,
    }
}

// Crashes at a call in each way. Answers in how many ways, if all is well.
fn stops_at(alloc: Global, start: &Start, script: Script, call: u64) -> Option<u64> {
    let before = left_by(alloc, start, script, call, Extent::Before)?;
    let behind = left_by(alloc, start, script, call, Extent::After)?;
    if behind <= before {
        return Some(2);
    }
    let count = behind.saturating_sub(before) as usize;
    for part in [1, count / 2, count.saturating_sub(1)] {
        left_by(alloc, start, script, call, Extent::Part(part))?;
    }
    Some(5)
}

// How many crashes of a script there were, all well, or the first call at which one isn't.
fn first_wrong(alloc: Global, start: &Start, script: Script) -> Result<u64, u64> {
    let Ok(
        Outcome {
            calls,
            well: true,
            ..
        },
    ) = outcome_of(alloc, start, script, None)
    else {
        return Err(0);
    };
    let mut stops: u64 = 0;
    for call in 1..=calls {
        match stops_at(alloc, start, script, call) {
            Some(ways) => stops = stops.saturating_add(ways),
            None => return Err(call),
        }
    }
    Ok(stops)
}

fn nothing(alloc: Global) -> Start {
    Start {
        files: MemStore::new(alloc),
        model: Model::new(),
    }
}

// The same of all scripts, each over no files, by the number of the script and of the call.
fn first_wrong_of_all(alloc: Global) -> Result<u64, (usize, u64)> {
    let start = nothing(alloc);
    let mut stops: u64 = 0;
    for (number, script) in SCRIPTS.iter().enumerate() {
        match first_wrong(alloc, &start, *script) {
            Ok(count) => stops = stops.saturating_add(count),
            Err(call) => return Err((number, call)),
        }
    }
    Ok(stops)
}

#[test]
fn the_process_may_stop_at_each_call(rt: HostRuntime) -> Result<(), Fail> {
    let stops = first_wrong_of_all(rt.alloc());
    assert!(rt; matches!(stops, Ok(count) if count > 500), "{stops:?}");
    Ok(())
}

// How many calls the store has had after the first put.
fn calls_behind_a_put(alloc: Global) -> Result<u64, DbError> {
    let mut model = Model::new();
    let mut session = session(
        alloc,
        WatchedStore::new(MemStore::new(alloc), None),
        PUTS.sizes,
    )?;
    for line in PUTS.lines.iter().take(2) {
        let _ = step(alloc, &mut session, &mut model, *line);
    }
    Ok(calls_of(&session))
}

// What a session leaves whose second put fails after so many bytes.
fn behind_a_failed_put(alloc: Global, count: usize) -> Result<Start, DbError> {
    let call = calls_behind_a_put(alloc)?.saturating_add(1);
    let fault = Fault::Fail(Extent::Part(count));
    let mut model = Model::new();
    let store = WatchedStore::new(MemStore::new(alloc), Some(Plan { call, fault }));
    let mut session = session(alloc, store, PUTS.sizes)?;
    let lines = run(alloc, &mut session, &mut model, PUTS.lines);
    match remains_of(&session) {
        Ok(files) if lines == PUTS.lines.len() => Ok(Start { files, model }),
        _ => Err(DbError::Broken),
    }
}

fn first_wrong_behind(alloc: Global, count: usize) -> Result<u64, u64> {
    match behind_a_failed_put(alloc, count) {
        Ok(start) => first_wrong(alloc, &start, OPENS),
        Err(_) => Err(0),
    }
}

// How many bytes of the record of the put were written, of 24.
const PARTS: [usize; 4] = [0, 5, 23, 24];

#[test]
fn the_process_may_stop_behind_a_put_that_failed(rt: HostRuntime) -> Result<(), Fail> {
    for count in PARTS {
        let stops = first_wrong_behind(rt.alloc(), count);
        assert!(rt;
            matches!(stops, Ok(stops) if stops > 100),
            "{count} bytes: {stops:?}"
        );
    }
    Ok(())
}
