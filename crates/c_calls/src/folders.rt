// A folder that isn't open: whether it is consistent, and mending it.

ghost use Rattle.std.specs.Prelude.{◌≡◌, length};
ghost use Rattle.c_calls.specs.Calls.{bytewise};
ghost use Rattle.c_calls.specs.Folders.{CheckServed, CheckTold, CutServed, MendServed, PlanServed, PlanTold};
ghost use Rattle.c_calls.specs.Folders.{CutsTold, bytewise_name, ends_in, told_cut};

use crate::codes::{NOT_FOUND, has, number_of};
use coding::DbError;
use edits::FileName;
use ikey::Bytewise;
use mending::{Cut, Ends, Plan, mend, plan_cuts};
use recover::{Report, check};
use std::alloc::Global;
use store::Store;

/// Only says what would be cut.
pub const DRY_RUN: u32 = 1;

/// Cuts broken fragments with a hole, too (`Ends::Holes`).
pub const HOLES: u32 = 2;

// Kinds of a file that is cut.
const LOG: u32 = 1;

const MANIFEST: u32 = 2;

/// A file that is cut (`mending::Cut`): which one, where, how long it is, and how many zeros stand
/// at its end.
#[repr(C)]
#[derive(Clone, Copy)]
pub struct CutFile {
    pub kind: u32,
    pub number: u64,
    pub at: u64,
    pub length: u64,
    pub zeros: u64,
}

impl CutFile {
    /// That of no file.
    pub fn none() -> Self {
        CutFile {
            kind: 0,
            number: 0,
            at: 0,
            length: 0,
            zeros: 0,
        }
    }
}

fn told_as(kind: u32, number: u64, cut: &Cut) -> CutFile
    ensures { result ≡ record {
      kind = kind;
      number = number;
      at = length cut.now.front.items;
      length = cut.now.length;
      zeros = cut.now.zeros;
    } }
{
    CutFile {
        kind,
        number,
        at: cut.front.len() as u64,
        length: cut.length,
        zeros: cut.zeros,
    }
}

// What C is told of a cut. (No plan has other files than the MANIFEST and logs.)
fn told_of(cut: &Cut) -> CutFile
    ensures { result ≡ told_cut cut.now }
{
    match cut.file {
        FileName::Log(n) => told_as(LOG, n, cut),
        FileName::Manifest(n) => told_as(MANIFEST, n, cut),
        FileName::Current => told_as(0, 0, cut),
        FileName::Lock => told_as(0, 0, cut),
        FileName::Table(n) => told_as(0, n, cut),
        FileName::OldTable(n) => told_as(0, n, cut),
        FileName::Temporary(n) => told_as(0, n, cut),
    }
}

// Tells as many of the cuts as have room.
fn tell_cuts(found: &[Cut], cuts: &mut [CutFile])
    ensures { CutsTold found.now cuts.old cuts.new }
{
    let most = found.len().min(cuts.len());
    for place in 0..most {
        cuts[place] = told_of(&found[place]);
    }
}

// Tells a plan.
fn tell_plan(answer: &Result<Plan, DbError>, cuts: &mut [CutFile], count: &mut usize) -> i32
    ensures { PlanTold answer.now cuts.old cuts.new count.new result }
{
    *count = 0;
    match answer {
        Err(error) => number_of(*error),
        Ok(plan) => {
            *count = plan.cuts.len();
            tell_cuts(&plan.cuts, cuts);
            match plan.manifest {
                Some(_) => 0,
                None => NOT_FOUND,
            }
        }
    }
}

// Which ends are cut.
fn ends_of(flags: u32) -> Ends
    ensures { result ≡ ends_in flags }
{
    if has(flags, HOLES) {
        Ends::Holes
    } else {
        Ends::Zeros
    }
}

/// Mends the MANIFEST and the logs of a store, or says what that would cut.
pub fn mend_store<S: Store>(
    alloc: Global,
    store: &mut S,
    flags: u32,
    cuts: &mut [CutFile],
    count: &mut usize,
) -> i32
    ensures { MendServed bytewise_name flags cuts.old cuts.new count.new
        (S.facts store.old) (S.facts store.new) result }
{
    let ends = ends_of(flags);
    if has(flags, DRY_RUN) {
        return plan_only(alloc, store, ends, cuts, count);
    }
    mend_now(alloc, store, ends, cuts, count)
}

fn plan_only<S: Store>(
    alloc: Global,
    store: &mut S,
    ends: Ends,
    cuts: &mut [CutFile],
    count: &mut usize,
) -> i32
    ensures { PlanServed bytewise_name ends cuts.old cuts.new count.new
        (S.facts store.old) (S.facts store.new) result }
{
    let answer = plan_cuts::<Bytewise, S>(alloc, store, ends);
    tell_plan(&answer, cuts, count)
}

fn mend_now<S: Store>(
    alloc: Global,
    store: &mut S,
    ends: Ends,
    cuts: &mut [CutFile],
    count: &mut usize,
) -> i32
    ensures { CutServed bytewise_name ends cuts.old cuts.new count.new
        (S.facts store.old) (S.facts store.new) result }
{
    let answer = mend::<Bytewise, S>(alloc, store, ends);
    tell_plan(&answer, cuts, count)
}

/// Tells whether a store has a consistent database.
pub fn check_store<S: Store>(alloc: Global, store: &mut S) -> i32
    ensures { CheckServed bytewise
        (S.facts store.old) (S.facts store.new) result }
{
    let answer = check::<Bytewise, S>(alloc, store);
    tell_report(&answer)
}

fn tell_report(answer: &Result<Report, DbError>) -> i32
    ensures { CheckTold answer.now result }
{
    match answer {
        Ok(Report::Good(_)) => 0,
        Ok(Report::Empty) => NOT_FOUND,
        Err(error) => number_of(*error),
    }
}
