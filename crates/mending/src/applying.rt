//! Mends a directory.

ghost use Rattle.std.specs.Prelude.{◌≡◌, ◌≤◌, ◌<◌, ◌⊎◌, true, false, Ok, Err, IfOk, IfErr, IsTrue, OnOk};
ghost use Rattle.store.specs.Files.{Files, MayLock};
ghost use Rattle.store.specs.Stops.{LeavesOnly};
ghost use Rattle.mending.specs.Calls.{RefusesMend};
ghost use Rattle.mending.specs.Losing.{HaveNamesStayed, IsDurable, LosesBy, MayReplaceWhole};
ghost use Rattle.mending.specs.Mending.{AreBetween, AreBetweenLost, AreDone, AreLogged, AreMended, IsLogged};
ghost use Rattle.mending.specs.Mending.{KeepsAll, MayMend, MayMendLost, number_of as number_in, temporary_of};
ghost use Rattle.mending.specs.Plans.{IsBeyond, IsPlan, IsUnmendable};
ghost use Rattle.mending.specs.Replacing.{MayReplace, Replaces, Writes};
ghost use Rattle.edits.specs.Names.{name_of};

use crate::ends::Ends;
use crate::finding::Cut;
use crate::planning::{Plan, plan_cuts};
use crate::replacing::replace_file;
use coding::DbError;
use edits::{FileName, print_name};
use ikey::KeyOrder;
use std::alloc::Global;
use store::{Store, StoreError};

/// Cuts the MANIFEST and the logs in use where a power loss left zeros, and returns what was cut.
///
/// It takes the lock first, reads and judges each of these files before it writes one, and gives
/// the lock back. A file is replaced by way of a temporary one, so that a crash leaves it as it
/// was or mended; mending again then goes on. Over a directory that needs nothing it changes no
/// file, and makes at most `LOCK`. Refused as `plan_cuts`, and with Locked if another holds the
/// lock.
pub fn mend<K: KeyOrder, S: Store>(
    alloc: Global,
    store: &mut S,
    ends: Ends,
) -> Result<Plan, DbError>
    // Each file that is mended is a log now; of the others none has changed.
    ensures mended { IfOk result (λ plan. IsTrue (S.facts store.new).faithful
        → AreMended K.name ends (S.facts store.old).files (S.facts store.new).files plan.manifest) }
    // A crash at any moment leaves each file as it was or mended.
    ensures stops { IsTrue (S.facts store.new).faithful → LeavesOnly (S.facts store.old) (S.facts store.new)
        (MayMend K.name ends (S.facts store.old).files) }
    // A power loss leaves each as one left it before, or mended.
    ensures loses { IsTrue (S.facts store.new).faithful → HaveNamesStayed (S.facts store.old)
        → LosesBy (S.facts store.old) (S.facts store.new) (MayMendLost K.name ends (S.facts store.old).files) }
    ensures refused { IfErr result (λ error. RefusesMend error (S.facts store.old) (S.facts store.new)
        ((files : Files) × MayLock (S.facts store.old).files files × IsUnmendable K.name ends files)
        ((files : Files) × MayLock (S.facts store.old).files files × IsBeyond K.name ends files)) }
    // The plan is the one for the files that it found.
    ensures logged { IfOk result (λ plan. AreLogged plan.cuts.items) }
    ensures planned { IfOk result (λ plan. IsTrue (S.facts store.new).faithful → (files : Files)
        × MayLock (S.facts store.old).files files × IsPlan K.name ends files plan.manifest plan.cuts.items) }
    ensures faithful { IsTrue (S.facts store.new).faithful → IsTrue (S.facts store.old).faithful }
    ensures free { OnOk result ((S.facts store.new).locked ≡ false) }
{
    take_lock(store)?;
    match mend_locked::<K, S>(alloc, store, ends) {
        Ok(plan) => {
            give_back(store)?;
            Ok(plan)
        }
        Err(error) => {
            let _ = give_back(store);
            Err(error)
        }
    }
}

// Gives the lock back.
fn give_back<S: Store>(store: &mut S) -> Result<(), DbError>
    ensures writes { IsTrue (S.facts store.new).faithful → IsTrue (S.facts store.old).faithful }
    ensures failures { (S.facts store.old).failures ≤ (S.facts store.new).failures }
    ensures denials { (S.facts store.new).denials ≡ (S.facts store.old).denials }
    ensures free { OnOk result ((S.facts store.new).locked ≡ false) }
    ensures same { IsTrue (S.facts store.new).faithful → ((S.facts store.new).files ≡ (S.facts store.old).files)
        × ((S.facts store.new).calls ≡ (S.facts store.old).calls)
        × ((S.facts store.new).synced ≡ (S.facts store.old).synced) }
    ensures refused { IfErr result (λ error. RefusesMend error (S.facts store.old) (S.facts store.new) ⊥ ⊥) }
{
    match store.unlock() {
        Ok(()) => Ok(()),
        Err(StoreError::Memory) => unreachable!(),
        Err(StoreError::Missing) => unreachable!(),
        Err(StoreError::Device) => Err(DbError::Io),
    }
}

fn take_lock<S: Store>(store: &mut S) -> Result<(), DbError>
    ensures faithful { IsTrue (S.facts store.new).faithful → IsTrue (S.facts store.old).faithful }
    ensures failures { (S.facts store.old).failures ≤ (S.facts store.new).failures }
    ensures denials { (S.facts store.old).denials ≤ (S.facts store.new).denials }
    ensures files { IsTrue (S.facts store.new).faithful → MayLock (S.facts store.old).files (S.facts store.new).files }
    ensures stops { IsTrue (S.facts store.new).faithful
        → LeavesOnly (S.facts store.old) (S.facts store.new) (MayLock (S.facts store.old).files) }
    ensures loses { IsTrue (S.facts store.new).faithful → HaveNamesStayed (S.facts store.old)
        → LosesBy (S.facts store.old) (S.facts store.new) KeepsAll × HaveNamesStayed (S.facts store.new) }
    ensures refused { IfErr result (λ error. RefusesMend error (S.facts store.old) (S.facts store.new) ⊥ ⊥) }
{
    // A law, for the proof alone.
    store.synced_law();
    match store.lock() {
        Ok(true) => Ok(()),
        Ok(false) => Err(DbError::Locked),
        Err(StoreError::Memory) => Err(DbError::OutOfMemory),
        Err(StoreError::Missing) => Err(DbError::Io),
        Err(StoreError::Device) => Err(DbError::Io),
    }
}

// Plans, and then replaces each file that is cut.
fn mend_locked<K: KeyOrder, S: Store>(
    alloc: Global,
    store: &mut S,
    ends: Ends,
) -> Result<Plan, DbError>
    ensures writes { Writes (S.facts store.old) (S.facts store.new) }
    ensures mended { IfOk result (λ plan. IsTrue (S.facts store.new).faithful
        → AreMended K.name ends (S.facts store.old).files (S.facts store.new).files plan.manifest) }
    ensures stops { IsTrue (S.facts store.new).faithful → LeavesOnly (S.facts store.old) (S.facts store.new)
        (MayMend K.name ends (S.facts store.old).files) }
    ensures loses { IsTrue (S.facts store.new).faithful → HaveNamesStayed (S.facts store.old)
        → LosesBy (S.facts store.old) (S.facts store.new) (MayMendLost K.name ends (S.facts store.old).files) }
    ensures refused { IfErr result (λ error. RefusesMend error (S.facts store.old) (S.facts store.new)
        (IsUnmendable K.name ends (S.facts store.old).files) (IsBeyond K.name ends (S.facts store.old).files)) }
    ensures logged { IfOk result (λ plan. AreLogged plan.cuts.items) }
    ensures planned { IfOk result (λ plan. IsTrue (S.facts store.new).faithful
        → IsPlan K.name ends (S.facts store.old).files plan.manifest plan.cuts.items) }
{
    let plan = plan_cuts::<K, S>(alloc, store, ends)?;
    apply(alloc, store, &plan.cuts)?;
    Ok(plan)
}

// Replaces these files by their fronts.
fn apply<S: Store>(alloc: Global, store: &mut S, cuts: &[Cut]) -> Result<(), DbError>
    requires { AreLogged cuts.now }
    ensures writes { Writes (S.facts store.old) (S.facts store.new) }
    ensures done { IsTrue (S.facts store.new).faithful
        → OnOk result (AreDone cuts.now cuts.now (S.facts store.new).files) }
    ensures stops { IsTrue (S.facts store.new).faithful → LeavesOnly (S.facts store.old) (S.facts store.new)
        (AreBetween cuts.now (S.facts store.old).files) }
    ensures loses { IsTrue (S.facts store.new).faithful → HaveNamesStayed (S.facts store.old)
        → LosesBy (S.facts store.old) (S.facts store.new) (AreBetweenLost cuts.now) }
    ensures refused { IfErr result (λ error. RefusesMend error (S.facts store.old) (S.facts store.new) ⊥ ⊥) }
{
    for cut in cuts {
        apply_one(alloc, store, cut)?;
    }
    Ok(())
}

fn apply_one<S: Store>(alloc: Global, store: &mut S, cut: &Cut) -> Result<(), DbError>
    requires { IsLogged cut.now.file }
    ensures writes { Writes (S.facts store.old) (S.facts store.new) }
    ensures replaced { IsTrue (S.facts store.new).faithful
        → OnOk result (Replaces (S.facts store.old).files (S.facts store.new).files
        (temporary_of cut.now.file) (name_of cut.now.file) cut.now.front.items) }
    ensures stops { IsTrue (S.facts store.new).faithful → LeavesOnly (S.facts store.old) (S.facts store.new)
        (λ files. MayReplace (S.facts store.old).files files (temporary_of cut.now.file)
        (name_of cut.now.file) cut.now.front.items) }
    ensures loses { IsTrue (S.facts store.new).faithful → HaveNamesStayed (S.facts store.old)
        → LosesBy (S.facts store.old) (S.facts store.new) (λ before lost. MayReplaceWhole before lost
        (temporary_of cut.now.file) (name_of cut.now.file) cut.now.front.items) }
    ensures durable { IsTrue (S.facts store.new).faithful
        → OnOk result (IsDurable (S.facts store.new) (name_of cut.now.file) cut.now.front.items) }
    ensures refused { IfErr result (λ error. RefusesMend error (S.facts store.old) (S.facts store.new) ⊥ ⊥) }
{
    let name = print_name(alloc, cut.file)?;
    let temporary = print_name(alloc, FileName::Temporary(number_of(cut.file)))?;
    replace_file(store, temporary.as_str(), name.as_str(), &cut.front)
}

// Returns the number in the name, or 0.
fn number_of(file: FileName) -> u64
    ensures { result ≡ number_in file }
{
    match file {
        FileName::Current | FileName::Lock => 0,
        FileName::Log(n)
        | FileName::Table(n)
        | FileName::OldTable(n)
        | FileName::Manifest(n)
        | FileName::Temporary(n) => n,
    }
}
