//! Each call of the store fails in turn, once without being done and once after it was done.
use crate::endings::{are_left, remains_of};
use crate::lines::Line;
use crate::model::Model;
use crate::runs::{calls_of, is_ordered, rests, run, session};
use crate::scripts::*;
use crate::watched::WatchedStore;
use coding::DbError;
use std::alloc::{AllocGlobal, Global};
use std::test::Fail;
use store::{Extent, Fault, MemStore, Plan};

const SCRIPTS: [Script; 6] = [BATCH, ITERATOR, STEPS, BY_LEVEL, SNAPSHOTS, TURNS];

const EXTENTS: [Extent; 2] = [Extent::Before, Extent::After];

// How many calls a session made, and whether each answer was one that the model allows, and its
// files those that it may leave.
fn tried(alloc: Global, script: Script, plan: Option<Plan>) -> Result<(u64, bool), DbError> {
    let mut model = Model::new();
    let mut session = session(
        alloc,
        WatchedStore::new(MemStore::new(alloc), plan),
        script.sizes,
    )?;
    let lines = run(alloc, &mut session, &mut model, script.lines);
    let calls = calls_of(&session);
    let done = is_ordered(&session)
        && lines == script.lines.len()
        && rests(alloc, &mut session, &mut model);
    let Ok(files) = remains_of(&session) else {
        return Err(DbError::OutOfMemory);
    };
    Ok((
        calls,
        done && are_left(alloc, &files, script.sizes, &model, Line::Close),
    ))
}

fn is_borne(alloc: Global, script: Script, call: u64, extent: Extent) -> bool {
    let fault = Fault::Fail(extent);
    matches!(
        tried(alloc, script, Some(Plan { call, fault })),
        Ok((_, true))
    )
}

// The first call of a script that isn't borne, or how many calls there are.
fn first_wrong(alloc: Global, script: Script, extent: Extent) -> Result<u64, u64> {
    let Ok((calls, true)) = tried(alloc, script, None) else {
        return Err(0);
    };
    for call in 1..=calls {
        if !is_borne(alloc, script, call, extent) {
            return Err(call);
        }
    }
    Ok(calls)
}

// The same of all scripts, by the number of the script and of the call.
fn first_wrong_of_all(alloc: Global, extent: Extent) -> Result<u64, (usize, u64)> {
    let mut calls: u64 = 0;
    for (number, script) in SCRIPTS.iter().enumerate() {
        match first_wrong(alloc, *script, extent) {
            Ok(count) => calls = calls.saturating_add(count),
            Err(call) => return Err((number, call)),
        }
    }
    Ok(calls)
}

#[test]
fn each_call_may_fail(rt: HostRuntime) -> Result<(), Fail> {
    for extent in EXTENTS {
        let calls = first_wrong_of_all(rt.alloc(), extent);
        assert!(rt;
            matches!(calls, Ok(count) if count > 200),
            "{extent:?}: {calls:?}"
        );
    }
    Ok(())
}
