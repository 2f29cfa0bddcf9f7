//! Plans what to mend, before anything is written.

ghost use Rattle.std.specs.Prelude.{◌≡◌, ◌<◌, ◌∷◌, ◌++◌, [], ℕ, List, IfOk, IfErr, OnOk, IsTrue, Contains};
ghost use Rattle.std.specs.Prelude.{MatchBool, map, string_bytes};
ghost use Rattle.std.specs.List.{AllByRecursion};
ghost use Rattle.edits.specs.Names.{IsNumbered};
ghost use Rattle.edits.specs.declared.layout.Layout.{Layout as LayoutValue};
ghost use Rattle.edits.specs.declared.names.FileName.TheVariants as files;
ghost use Rattle.mending.specs.Calls.{Reads, RefusesBytes, RefusesMend};
ghost use Rattle.mending.specs.Mending.{AreLogged};
ghost use Rattle.mending.specs.Plans.{SaysFound, SaysFoundBeyond, SaysFoundNone, cuts_of};
ghost use Rattle.mending.specs.Plans.{ArePlanned, AreLogsOf, HasBeyond, HasLayout, HasNoFront};
ghost use Rattle.mending.specs.Plans.{HasNoLayout, HasNoPlan, IsBeyond, IsLive, IsPlan, IsUnmendable};
ghost use Rattle.mending.specs.Plans.{PlansFile, PlansLogs};

use crate::calls::{list_names, read_file};
use crate::ends::Ends;
use crate::finding::{Cut, Found, find_file};
use crate::layout::{layout_of, manifest_number};
use coding::{Damage, DbError, FileKind};
use edits::{FileName, Layout, parse_name};
use ikey::KeyOrder;
use std::alloc::{AllocError, Global};
use store::Store;

/// What mending does to a directory.
#[derive(Drop)]
pub struct Plan {
    /// The number of the MANIFEST that `CURRENT` names, or None if there is no `CURRENT`.
    pub manifest: Option<u64>,
    /// The files to cut: the MANIFEST first, then the logs by rising number.
    pub cuts: Vec<Cut>,
}

/// Reads the MANIFEST and the logs in use, and says which of them are to be cut. Writes nothing,
/// and takes no lock.
///
/// Corrupt: one of them is damaged in another way, or `CURRENT` is. Unsupported: the MANIFEST is of
/// another order of keys, or names a table of 2^62 or more.
pub fn plan_cuts<K: KeyOrder, S: Store>(
    alloc: Global,
    store: &mut S,
    ends: Ends,
) -> Result<Plan, DbError>
    ensures reads { Reads (S.facts store.old) (S.facts store.new) }
    ensures logged { IfOk result (λ plan. AreLogged plan.cuts.items) }
    ensures found { IfOk result (λ plan. IsTrue (S.facts store.new).faithful
        → IsPlan K.name ends (S.facts store.old).files plan.manifest plan.cuts.items) }
    ensures refused { IfErr result (λ error. RefusesMend error (S.facts store.old) (S.facts store.new)
        (IsUnmendable K.name ends (S.facts store.old).files) (IsBeyond K.name ends (S.facts store.old).files)) }
{
    let Some(current) = read_file(alloc, store, "CURRENT")? else {
        return Ok(Plan {
            manifest: None,
            cuts: Vec::new(alloc),
        });
    };
    let number = manifest_number(&current)?;
    let cuts = plan_files::<K, S>(alloc, store, ends, number)?;
    Ok(Plan {
        manifest: Some(number),
        cuts,
    })
}

// Plans what to cut if `CURRENT` names the MANIFEST of this number.
fn plan_files<K: KeyOrder, S: Store>(
    alloc: Global,
    store: &mut S,
    ends: Ends,
    number: u64,
) -> Result<Vec<Cut>, DbError>
    requires { IsNumbered number }
    ensures reads { Reads (S.facts store.old) (S.facts store.new) }
    ensures logged { IfOk result (λ cuts. AreLogged cuts.items) }
    ensures found { IfOk result (λ cuts. IsTrue (S.facts store.new).faithful → (layout : LayoutValue)
        × HasLayout K.name ends (S.facts store.old).files number layout
        × ArePlanned ends (S.facts store.old).files number layout cuts.items) }
    ensures refused { IfErr result (λ error. RefusesMend error (S.facts store.old) (S.facts store.new)
        (HasNoPlan K.name ends (S.facts store.old).files number)
        (HasBeyond K.name ends (S.facts store.old).files number)) }
{
    let mut cuts = Vec::new(alloc);
    let layout = plan_manifest::<K, S>(alloc, store, ends, number, &mut cuts)?;
    let names = list_names(alloc, store)?;
    let logs = live_logs(alloc, &layout, &names)?;
    plan_logs(alloc, store, ends, &logs, &mut cuts)?;
    Ok(cuts)
}

// Plans what to cut of the MANIFEST, and returns the layout that it says once that is done.
fn plan_manifest<K: KeyOrder, S: Store>(
    alloc: Global,
    store: &mut S,
    ends: Ends,
    number: u64,
    cuts: &mut Vec<Cut>,
) -> Result<Layout, DbError>
    requires { IsNumbered number }
    ensures reads { Reads (S.facts store.old) (S.facts store.new) }
    ensures logged { IfOk result (λ _. AreLogged cuts.old.items → AreLogged cuts.new.items) }
    ensures found { IfOk result (λ layout. IsTrue (S.facts store.new).faithful
        → HasLayout K.name ends (S.facts store.old).files number layout
        × PlansFile ends (S.facts store.old).files (files.Manifest number) cuts.old.items cuts.new.items) }
    ensures refused { IfErr result (λ error. RefusesMend error (S.facts store.old) (S.facts store.new)
        (HasNoLayout K.name ends (S.facts store.old).files number)
        (HasBeyond K.name ends (S.facts store.old).files number)) }
{
    let file = FileName::Manifest(number);
    let found = find_file(alloc, store, ends, file, FileKind::Manifest)?;
    let layout = layout_in(alloc, K::name().as_bytes(), &found)?;
    push_cut(cuts, found)?;
    Ok(layout)
}

// Returns the layout that a MANIFEST says, as it is or once it is cut.
fn layout_in(alloc: Global, order: &[u8], found: &Found) -> Result<Layout, DbError>
    ensures found { IfOk result (SaysFound order.now found.now) }
    ensures refused { IfErr result (λ error. RefusesBytes error (SaysFoundNone order.now found.now)
        (SaysFoundBeyond order.now found.now)) }
{
    match found {
        Found::Missing => Err(DbError::Corrupt(FileKind::Manifest, Damage::Missing)),
        Found::Whole(bytes) => layout_of(alloc, order, bytes),
        Found::Broken(cut) => layout_of(alloc, order, &cut.front),
    }
}

// Takes in what is to be cut.
fn push_cut(cuts: &mut Vec<Cut>, found: Found) -> Result<(), AllocError>
    ensures { OnOk result (cuts.new.items ≡ cuts.old.items ++ cuts_of found) }
{
    match found {
        Found::Missing => Ok(()),
        Found::Whole(_) => Ok(()),
        Found::Broken(cut) => {
            cuts.push(cut)?;
            Ok(())
        }
    }
}

// Plans what to cut of these logs.
fn plan_logs<S: Store>(
    alloc: Global,
    store: &mut S,
    ends: Ends,
    logs: &[u64],
    cuts: &mut Vec<Cut>,
) -> Result<(), DbError>
    requires { (n : ℕ) → Contains logs.now n → IsNumbered n }
    ensures reads { Reads (S.facts store.old) (S.facts store.new) }
    ensures logged { IfOk result (λ _. AreLogged cuts.old.items → AreLogged cuts.new.items) }
    ensures found { IfOk result (λ _. IsTrue (S.facts store.new).faithful
        → PlansLogs ends (S.facts store.old).files logs.now cuts.old.items cuts.new.items) }
    ensures refused { IfErr result (λ error. RefusesMend error (S.facts store.old) (S.facts store.new)
        ((n : ℕ) × Contains logs.now n × HasNoFront ends (S.facts store.old).files (files.Log n)) ⊥) }
{
    for n in logs {
        plan_log(alloc, store, ends, *n, cuts)?;
    }
    Ok(())
}

// Plans what to cut of a log.
fn plan_log<S: Store>(
    alloc: Global,
    store: &mut S,
    ends: Ends,
    n: u64,
    cuts: &mut Vec<Cut>,
) -> Result<(), DbError>
    requires { IsNumbered n }
    ensures reads { Reads (S.facts store.old) (S.facts store.new) }
    ensures logged { IfOk result (λ _. AreLogged cuts.old.items → AreLogged cuts.new.items) }
    ensures found { IfOk result (λ _. IsTrue (S.facts store.new).faithful
        → PlansFile ends (S.facts store.old).files (files.Log n) cuts.old.items cuts.new.items) }
    ensures refused { IfErr result (λ error. RefusesMend error (S.facts store.old) (S.facts store.new)
        (HasNoFront ends (S.facts store.old).files (files.Log n)) ⊥) }
{
    let found = find_file(alloc, store, ends, FileName::Log(n), FileKind::Log)?;
    push_cut(cuts, found)?;
    Ok(())
}

// Returns the numbers of the logs in use, rising.
fn live_logs(alloc: Global, layout: &Layout, names: &[String]) -> Result<Vec<u64>, AllocError>
    ensures { IfOk result (λ logs. AreLogsOf layout.now (map string_bytes names.now) logs.items) }
{
    let mut logs = Vec::new(alloc);
    for name in names {
        push_log(&mut logs, layout, name.as_bytes())?;
    }
    logs.sort_unstable();
    Ok(logs)
}

// Takes one more name in.
fn push_log(logs: &mut Vec<u64>, layout: &Layout, name: &[u8]) -> Result<(), AllocError>
    ensures { IfOk result (λ _. (names : List (List ℕ)) → AreLogsOf layout.now names logs.old.items
        → AreLogsOf layout.now (names ++ name.now ∷ []) logs.new.items) }
{
    let Some(file) = parse_name(name) else {
        return Ok(());
    };
    let FileName::Log(number) = file else {
        return Ok(());
    };
    if !is_live(layout, number) {
        return Ok(());
    }
    logs.push(number)?;
    Ok(())
}

fn is_live(layout: &Layout, number: u64) -> bool
    requires { 0 < number }
    ensures { MatchBool result (IsLive layout.now number) (IsLive layout.now number → ⊥) }
{
    number >= layout.log_number || number == layout.previous_log_number
}
