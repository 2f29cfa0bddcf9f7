//! Sessions to be run with each of their allocations failing in turn (`tools/allocations`). The
//! call that failed is made once more, and all else is answered as the plain model says.
use crate::endings::{are_left, remains_of};
use crate::lines::Line;
use crate::model::Model;
use crate::runs::{Faulty, is_ordered, rests, run, session};
use crate::scripts::*;
use crate::watched::WatchedStore;
use coding::DbError;
use std::alloc::{AllocGlobal, Global};
use std::test::Fail;
use store::MemStore;

// How far a session comes: the lines that were answered well, one more if all work comes to its
// end, and one more if the files are those that it should leave.
fn gone_through(alloc: Global, session: &mut Faulty, script: Script) -> Result<usize, DbError> {
    let mut model = Model::new();
    let lines = run(alloc, session, &mut model, script.lines);
    if lines < script.lines.len() || !rests(alloc, session, &mut model) {
        return Ok(lines);
    }
    let Ok(files) = remains_of(session) else {
        return Err(DbError::OutOfMemory);
    };
    let left = is_ordered(session) && are_left(alloc, &files, script.sizes, &model, Line::Close);
    Ok(lines.saturating_add(if left { 2 } else { 1 }))
}

fn reached(alloc: Global, script: Script) -> Result<usize, DbError> {
    let mut session = session(
        alloc,
        WatchedStore::new(MemStore::new(alloc), None),
        script.sizes,
    )?;
    gone_through(alloc, &mut session, script)
}

fn whole(script: Script) -> Result<usize, DbError> {
    Ok(script.lines.len().saturating_add(2))
}

#[test]
fn no_memory_in_a_batch(rt: HostRuntime) -> Result<(), Fail> {
    assert_eq!(rt; reached(rt.alloc(), BATCH), whole(BATCH));
    Ok(())
}

#[test]
fn no_memory_beneath_an_iterator(rt: HostRuntime) -> Result<(), Fail> {
    assert_eq!(rt; reached(rt.alloc(), ITERATOR), whole(ITERATOR));
    Ok(())
}

#[test]
fn no_memory_between_the_steps_of_a_compaction(rt: HostRuntime) -> Result<(), Fail> {
    assert_eq!(rt; reached(rt.alloc(), STEPS), whole(STEPS));
    Ok(())
}

#[test]
fn no_memory_beside_snapshots(rt: HostRuntime) -> Result<(), Fail> {
    assert_eq!(rt; reached(rt.alloc(), SNAPSHOTS), whole(SNAPSHOTS));
    Ok(())
}

#[test]
fn no_memory_where_an_iterator_turns(rt: HostRuntime) -> Result<(), Fail> {
    assert_eq!(rt; reached(rt.alloc(), TURNS), whole(TURNS));
    Ok(())
}
