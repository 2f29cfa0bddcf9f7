//! A compaction that is under way.

use crate::inputs::{source_of, version_over};
use coding::DbError;
use db_cursor::Sources;
use directory_writes::CurrentManifest;
use edits::FileNumbers;
use ikey::Bytewise;
use running_job::{OpenJob, running_stays, running_stays_beside};
use std::alloc::Global;
use std::rc::Rc;
use std::test::*;
use store::{FaultStore, Store};
use versions::{JobPlan, Version, plans_of_tables};

// The sequence numbers whose views must be kept.
const SNAPSHOTS: [u64; 1] = [5];

// The file of the edits.
const MANIFEST: &str = "MANIFEST-000003";

// A job over the tables of level 0, with those of level 1 that meet them.
fn job_over(
    alloc: Global,
    source: &mut Sources<Bytewise, FaultStore>,
    version: &Rc<Version<Bytewise>>,
) -> Result<OpenJob<Bytewise>, DbError> {
    // Laws, for the proof alone.
    plans_of_tables();
    match version.plan_level(alloc, 0)? {
        Some(plan) => OpenJob::begin(alloc, source, version, plan, &SNAPSHOTS, 4096, 1 << 20),
        None => Err(DbError::BadLine),
    }
}

// How many tables its plan takes, and which of the numbers 4 and 8 it reads and writes.
fn takes(job: &OpenJob<Bytewise>, inputs: usize, uses: [bool; 4]) -> bool {
    let plan: &JobPlan = job.plan();
    plan.inputs.len() == inputs
        && [job.reads(4), job.reads(8), job.writes(4), job.writes(8)] == uses
}

// Whether a step of two entries merges both, and whether they are the last ones is as said.
fn steps(
    job: &mut OpenJob<Bytewise>,
    alloc: Global,
    source: &mut Sources<Bytewise, FaultStore>,
    numbers: &mut FileNumbers,
    ended: bool,
) -> bool {
    match job.step(alloc, source, numbers, 2) {
        Ok(progress) => progress.merged == 2 && progress.ended == ended,
        Err(_) => false,
    }
}

// Whether the six entries come in three steps, and go into one table.
fn goes_on(
    job: &mut OpenJob<Bytewise>,
    alloc: Global,
    source: &mut Sources<Bytewise, FaultStore>,
    numbers: &mut FileNumbers,
) -> bool {
    takes(job, 3, [true, false, false, false])
        && steps(job, alloc, source, numbers, false)
        && steps(job, alloc, source, numbers, false)
        && steps(job, alloc, source, numbers, true)
        && takes(job, 3, [true, false, false, true])
        && numbers.next == 9
}

// Whether it is installed: three of four tables go, and one comes.
fn is_installed(
    alloc: Global,
    job: OpenJob<Bytewise>,
    store: &mut FaultStore,
    version: &Version<Bytewise>,
    numbers: &FileNumbers,
) -> Result<bool, DbError> {
    let manifest = CurrentManifest {
        number: 3,
        name: String::from_str(alloc, MANIFEST)?,
        end: 0,
    };
    let installed = job.install(alloc, store, version, &manifest, numbers, 5);
    Ok(matches!(installed, Ok(new) if new.version.tables().len() == 2))
}

fn runs(alloc: Global) -> Result<bool, DbError> {
    let mut source = source_of(alloc)?;
    let version = version_over(alloc)?;
    let mut numbers = FileNumbers { next: 8 };
    let mut job = job_over(alloc, &mut source, &version)?;
    let is_so = goes_on(&mut job, alloc, &mut source, &mut numbers)
        && source.tables.store.create(MANIFEST).is_ok();
    Ok(is_so && is_installed(alloc, job, &mut source.tables.store, &version, &numbers)?)
}

#[test]
fn a_job_goes_on_by_steps(rt: HostRuntime) {
    // Laws, for the proof alone.
    running_stays::<Bytewise>();
    running_stays_beside::<Bytewise>();
    assert_eq!(rt; runs(rt.alloc()), Ok(true));
}
