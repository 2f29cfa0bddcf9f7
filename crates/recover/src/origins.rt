//! The entries of one file of a directory.

ghost use Rattle.std.specs.Prelude.{◌≡◌, List, Contains, IfOk, IfErr, IsTrue, MatchOption};
ghost use Rattle.ikey.specs.Orders.{order_of};
ghost use Rattle.edits.specs.declared.field.PlacedTable.{PlacedTable as PlacedTableValue};
ghost use Rattle.recover.specs.internal.Checks.{Never};
ghost use Rattle.recover.specs.Directory.{Directory, IsConsistent};
ghost use Rattle.recover.specs.Limits.{TellsUnsupported};
ghost use Rattle.recover.specs.Entries.{RiseAbove};
ghost use Rattle.recover.specs.Logs.{IsLive, LogContent, HasLog, batch_entries};
ghost use Rattle.recover.specs.Origins.{HasEntries, HasNoEntries, PassesLimitAt, IsPlacedAt, IsOriginRead, IsUnreadable, IsUnsupportedAt, IsBeyondOrigin};
ghost use Rattle.recover.specs.internal.Parts.{IsUnchanged};
ghost use Rattle.recover.specs.Reading.{ReadsDirectory, IsStill, IsCounted, RefusesDirectory};
ghost use Rattle.recover.specs.Report.{IsLongTable};
ghost use Rattle.recover.specs.declared.origins.Origin.TheVariants as origin;

use crate::manifest::{Manifest, read_manifest};
use crate::replay::{Replay, is_live};
use crate::table_entries::read_table;
use coding::{Damage, DbError, FileKind};
use edits::{Layout, PlacedTable};
use ikey::{Entry, KeyOrder};
use std::alloc::Global;
use store::Store;

/// Tells where entries of a directory are.
#[derive(Clone, Copy, Debug, PartialEq, Eq)]
pub enum Origin {
    /// The table of this level and number.
    Table(u32, u64),
    /// The log of this number.
    Log(u64),
}

/// Reads the entries of one table or log in use of a consistent directory. Those of a table come by
/// key, the newer ones of a key first; those of a log as they were written. It reads `CURRENT`, the
/// MANIFEST and that file, and doesn't take the lock. Corrupt and Unsupported: as from
/// `read_directory` for the MANIFEST, and as from `check` for the file. Corrupt with `Missing`: the
/// MANIFEST leaves no such table, or such a log isn't in use.
pub fn file_entries<K: KeyOrder, S: Store>(
    alloc: Global,
    store: &mut S,
    origin: Origin,
) -> Result<Vec<Entry>, DbError>
    ensures store { ReadsDirectory (S.facts store.old) (S.facts store.new) result }
    ensures still { IsStill (S.facts store.old) (S.facts store.new) result }
    ensures told { IfErr result (λ error. TellsUnsupported error (S.facts store.new) (IsBeyondOrigin (order_of K.name K.cmp) (S.facts store.old).files origin)) }
    ensures found { IfOk result (λ entries. IsTrue (S.facts store.new).faithful → (d : Directory)
        → IsConsistent (order_of K.name K.cmp) (S.facts store.old).files d → HasEntries d origin entries.items) }
    ensures refused { IfErr result (λ error. RefusesDirectory error (S.facts store.old) (S.facts store.new)
        (HasNoEntries (order_of K.name K.cmp) (S.facts store.old).files origin)
        (PassesLimitAt (order_of K.name K.cmp) (S.facts store.old).files origin)) }
{
    let Manifest { layout, .. } = read_manifest::<K, S>(alloc, store)?;
    let entries = read_origin::<K, S>(alloc, store, &layout, origin)?;
    Ok(entries)
}

// The entries of the layout's file of this origin.
fn read_origin<K: KeyOrder, S: Store>(
    alloc: Global,
    store: &mut S,
    layout: &Layout,
    origin: Origin,
) -> Result<Vec<Entry>, DbError>
    ensures store { IsUnchanged (S.facts store.old) (S.facts store.new) }
    ensures still { IsStill (S.facts store.old) (S.facts store.new) result }
    ensures told { IfErr result (λ error. TellsUnsupported error (S.facts store.new) (IsUnsupportedAt (order_of K.name K.cmp) (S.facts store.old).files layout.now origin)) }
    ensures found { IfOk result (λ entries. IsTrue (S.facts store.new).faithful → IsOriginRead (order_of K.name K.cmp) (S.facts store.old).files layout.now origin entries.items) }
    ensures refused { IfErr result (λ error. RefusesDirectory error (S.facts store.old) (S.facts store.new)
        (IsUnreadable Never (order_of K.name K.cmp) (S.facts store.old).files layout.now origin)
        (IsUnreadable (IsLongTable (order_of K.name K.cmp)) (order_of K.name K.cmp) (S.facts store.old).files layout.now origin)) }
{
    match origin {
        Origin::Table(level, number) => {
            let entries = table_entries::<K, S>(alloc, store, layout, level, number)?;
            Ok(entries)
        }
        Origin::Log(number) => {
            let entries = log_entries(alloc, store, layout, number)?;
            Ok(entries)
        }
    }
}

// The entries of the layout's table of this level and number.
fn table_entries<K: KeyOrder, S: Store>(
    alloc: Global,
    store: &mut S,
    layout: &Layout,
    level: u32,
    number: u64,
) -> Result<Vec<Entry>, DbError>
    ensures store { IsUnchanged (S.facts store.old) (S.facts store.new) }
    ensures still { IsStill (S.facts store.old) (S.facts store.new) result }
    ensures told { IfErr result (λ error. TellsUnsupported error (S.facts store.new) (IsUnsupportedAt (order_of K.name K.cmp) (S.facts store.old).files layout.now (origin.Table level number))) }
    ensures found { IfOk result (λ entries. IsTrue (S.facts store.new).faithful → IsOriginRead (order_of K.name K.cmp) (S.facts store.old).files layout.now (origin.Table level number) entries.items) }
    ensures refused { IfErr result (λ error. RefusesDirectory error (S.facts store.old) (S.facts store.new)
        (IsUnreadable Never (order_of K.name K.cmp) (S.facts store.old).files layout.now (origin.Table level number))
        (IsUnreadable (IsLongTable (order_of K.name K.cmp)) (order_of K.name K.cmp) (S.facts store.old).files layout.now (origin.Table level number))) }
{
    let Some(placed) = placed_at(layout, level, number) else {
        return Err(DbError::Corrupt(FileKind::Table, Damage::Missing));
    };
    let entries = read_table::<K, S>(alloc, store, placed)?;
    Ok(entries)
}

// The layout's table of this level and number.
fn placed_at(layout: &Layout, level: u32, number: u64) -> Option<&PlacedTable>
    ensures { MatchOption result ((placed : PlacedTableValue) → IsPlacedAt layout.now level number placed → ⊥) (λ placed. IsPlacedAt layout.now level number placed.now) }
{
    for placed in &layout.tables {
        if placed.level != level {
            continue;
        }
        if placed.table.number == number {
            return Some(placed);
        }
    }
    None
}

// The entries of the log of this number, which is in use in the layout.
fn log_entries<S: Store>(
    alloc: Global,
    store: &mut S,
    layout: &Layout,
    number: u64,
) -> Result<Vec<Entry>, DbError>
    ensures store { IsUnchanged (S.facts store.old) (S.facts store.new) }
    ensures counted { IsCounted (S.facts store.old) (S.facts store.new) result }
    ensures found { IfOk result (λ entries. IsTrue (S.facts store.new).faithful → IsLive layout.now number × (log : LogContent) × (log.number ≡ number)
        × HasLog (S.facts store.old).files log × (entries.items ≡ batch_entries log.batches)) }
    ensures refused { IfErr result (λ error. RefusesDirectory error (S.facts store.old) (S.facts store.new)
        ((log : LogContent) → IsLive layout.now number → log.number ≡ number → HasLog (S.facts store.old).files log
        → RiseAbove 0 (batch_entries log.batches) → ⊥) ⊥) }
{
    if !is_live(layout, number) {
        return Err(DbError::Corrupt(FileKind::Log, Damage::Missing));
    }
    let mut replay = Replay {
        entries: Vec::new(alloc),
        last: 0,
        logs: Vec::new(alloc),
    };
    replay.add_file(alloc, store, number)?;
    Ok(replay.entries)
}
