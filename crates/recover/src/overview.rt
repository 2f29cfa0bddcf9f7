//! What a directory has, by its MANIFEST and its listing (LevelDB's db/db_impl.cc,
//! DBImpl::GetProperty, without an open).

ghost use Rattle.std.specs.Prelude.{◌≡◌, ◌<◌, None, IfOk, IfErr, IfSome, IsTrue};
ghost use Rattle.std.specs.List.{filter};
ghost use Rattle.std.specs.FinMap.{get};
ghost use Rattle.edits.specs.Names.{name_of};
ghost use Rattle.edits.specs.Snapshot.{IsKept};
ghost use Rattle.ikey.specs.Orders.{order_of};
ghost use Rattle.recover.specs.Directory.{IsEmpty};
ghost use Rattle.recover.specs.Overviews.{HasLength, IsOverview};
ghost use Rattle.recover.specs.Reading.{HasNoManifest, IsBeyondReading, IsCounted, ReadsDirectory, RefusesDirectory};
ghost use Rattle.recover.specs.internal.Parts.{HaveLengths, IsUnchanged, LacksLog, is_live};

use crate::files::file_length;
use crate::listing::{list_directory, see_empty};
use crate::manifest::{Manifest, read_manifest};
use crate::noting::note_file;
use crate::replay::is_live;
use coding::{Damage, DbError, FileKind};
use edits::{FileName, Layout, print_name};
use ikey::KeyOrder;
use std::alloc::Global;
use store::{Store, Why};

/// Holds what is known of a directory without reading a table or a log.
#[derive(Debug, Drop)]
pub struct Overview {
    /// What the edits of its MANIFEST leave.
    pub layout: Layout,
    /// The logs in use, by number.
    pub logs: Vec<LogLength>,
}

/// Names a log in use, and says how many bytes its file has.
#[derive(Clone, Copy, Debug, PartialEq, Eq)]
pub struct LogLength {
    /// The number in its name.
    pub number: u64,
    /// How many bytes it has.
    pub length: u64,
}

/// Reads `CURRENT` and the MANIFEST that it names, and asks how long the logs in use are. `None`:
/// there is no database. It reads no table and no log, and asks for none that isn't listed, so that
/// damage in these isn't found. Corrupt: the MANIFEST can't be read, as from `read_directory`, or
/// there is a table or a log but no `CURRENT`. Unsupported: the MANIFEST names another order of
/// keys (`Comparator`) or a table number of 2^62 or more (`TableNumber`).
pub fn overview_of<K: KeyOrder, S: Store>(
    alloc: Global,
    store: &mut S,
) -> Result<Option<Overview>, DbError>
    ensures store { ReadsDirectory (S.facts store.old) (S.facts store.new) result }
    ensures counted { IsCounted (S.facts store.old) (S.facts store.new) result }
    ensures found { IfOk result (λ found. IsTrue (S.facts store.new).faithful → IsOverview (order_of K.name K.cmp) (S.facts store.old).files found) }
    ensures refused { IfErr result (λ error. RefusesDirectory error (S.facts store.old) (S.facts store.new)
        ((IsEmpty (S.facts store.old).files → ⊥) × HasNoManifest (order_of K.name K.cmp) (S.facts store.old).files)
        (IsBeyondReading (order_of K.name K.cmp) (S.facts store.old).files)) }
    // Over any store: its tables have distinct numbers, by level and number.
    ensures kept { IfOk result (λ found. IfSome found (λ overview. IsKept overview.layout)) }
{
    let listing = list_directory(alloc, store)?;
    if !listing.has_current {
        see_empty(&listing)?;
        return Ok(None);
    }
    let Manifest { layout, .. } = read_manifest::<K, S>(alloc, store)?;
    let logs = live_lengths(alloc, store, &layout, &listing.logs)?;
    Ok(Some(Overview { layout, logs }))
}

// Those of these logs that are in use in the layout, with their lengths.
fn live_lengths<S: Store>(
    alloc: Global,
    store: &mut S,
    layout: &Layout,
    logs: &[u64],
) -> Result<Vec<LogLength>, DbError>
    ensures store { IsUnchanged (S.facts store.old) (S.facts store.new) }
    ensures counted { IsCounted (S.facts store.old) (S.facts store.new) result }
    ensures found { IfOk result (λ found. IsTrue (S.facts store.new).faithful
        → HaveLengths (S.facts store.old).files (filter (is_live layout.now) logs.now) found.items) }
    ensures refused { IfErr result (λ error. RefusesDirectory error (S.facts store.old) (S.facts store.new)
        (LacksLog (S.facts store.old).files (filter (is_live layout.now) logs.now)) ⊥) }
{
    let mut found = Vec::new(alloc);
    for number in logs {
        if !is_live(layout, *number) {
            continue;
        }
        found.push(log_length(alloc, store, *number)?)?;
    }
    Ok(found)
}

// The log of this number, with its length.
fn log_length<S: Store>(alloc: Global, store: &mut S, number: u64) -> Result<LogLength, DbError>
    requires { 0 < number }
    ensures store { IsUnchanged (S.facts store.old) (S.facts store.new) }
    ensures counted { IsCounted (S.facts store.old) (S.facts store.new) result }
    ensures found { IfOk result (λ log. (log.number ≡ number) × (IsTrue (S.facts store.new).faithful → HasLength (S.facts store.old).files log)) }
    ensures refused { IfErr result (λ error. RefusesDirectory error (S.facts store.old) (S.facts store.new)
        (get (S.facts store.old).files (name_of (FileName.Log number)) ≡ None) ⊥) }
{
    let name = print_name(alloc, FileName::Log(number))?;
    match file_length(store, name.as_str())? {
        Some(length) => Ok(LogLength { number, length }),
        None => {
            note_file(store, name.as_str(), Why::Missing);
            Err(DbError::Corrupt(FileKind::Log, Damage::Missing))
        }
    }
}
