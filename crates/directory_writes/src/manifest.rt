//! The MANIFEST, to which each change of the layout adds an edit.

ghost use Rattle.std.specs.Prelude.{◌≡◌, ◌⊎◌, ℕ, List, [], All, Err, IfErr, IsTrue, OnOk, string_bytes};
ghost use Rattle.coding.specs.declared.error.DbError.TheVariants.{OutOfMemory, Io};
ghost use Rattle.ikey.specs.Orders.{Order};
ghost use Rattle.edits.specs.Edit.{IsProper, IsInOrder};
ghost use Rattle.recover.specs.Reading.{IsCounted};
ghost use Rattle.store.specs.Calls.{FailsAsWrite};
ghost use Rattle.store.specs.Losses.{CarriesBut, PutsSynced, behind_sync};
ghost use Rattle.store.specs.Stops.{LeavesOnly, stopped_at};
ghost use Rattle.directory_writes.specs.internal.Calls.{Touches};
ghost use Rattle.directory_writes.specs.internal.Manifest.{AppendsEdit, SyncsEdit};

use crate::calls::append_synced;
use coding::DbError;
use edits::{Edit, encode_edit};
use logfile::{LogWriter, failed_append};
use recover::{edit_law, failed_edit_law, one_manifest};
use std::alloc::Global;
use store::Store;

/// Names the MANIFEST that `CURRENT` names.
#[derive(Debug, Drop)]
pub struct CurrentManifest {
    /// Its file number.
    pub number: u64,
    /// The name of its file.
    pub name: String,
    /// Its length in bytes, where the next edit begins.
    pub end: u64,
}

/// Appends an edit to the MANIFEST, syncs it, and returns where the MANIFEST ends then (LevelDB's
/// db/version_set.cc, VersionSet::LogAndApply). All memory is taken before the store is touched. It
/// fails only out of memory, or with Io if the store fails: then the edit is there or not.
pub fn append_edit<S: Store>(
    alloc: Global,
    store: &mut S,
    manifest: &CurrentManifest,
    edit: &Edit,
) -> Result<u64, DbError>
    requires proper { All IsProper edit.now }
    requires order { IsInOrder edit.now }
    ensures call { Touches (S.facts store.old) (S.facts store.new) }
    ensures fails { FailsAsWrite (S.facts store.old) (S.facts store.new) }
    ensures counted { IsCounted (S.facts store.old) (S.facts store.new) result }
    ensures refused { IfErr result (λ error. (error ≡ OutOfMemory) ⊎ (error ≡ Io)) }
    ensures appends { (order : Order) → AppendsEdit order (S.facts store.old) (S.facts store.new) manifest.now.number
        (string_bytes manifest.now.name) manifest.now.end edit.now result }
    ensures syncs { SyncsEdit (S.facts store.old) (S.facts store.new) (string_bytes manifest.now.name) result }
    // A process crash in its middle leaves what a failed call of the store leaves.
    ensures stops { IsTrue (S.facts store.new).faithful → (order : Order) → LeavesOnly (S.facts store.old) (S.facts store.new)
        (λ files. AppendsEdit order (S.facts store.old) (stopped_at (S.facts store.old) files) manifest.now.number
        (string_bytes manifest.now.name) manifest.now.end edit.now (Err Io)) }
    ensures carries { IsTrue (S.facts store.new).faithful → CarriesBut (S.facts store.old) (S.facts store.new) (λ (q : List ℕ). ⊥) }
    ensures puts { IsTrue (S.facts store.new).faithful → (bytes : List ℕ) × PutsSynced (S.facts store.old) (S.facts store.new)
        (string_bytes manifest.now.name) bytes }
    ensures ends { IsTrue (S.facts store.new).faithful → OnOk result (behind_sync [] (S.facts store.new).calls ≡ []) }
{
    // Laws, for the proof alone.
    edit_law();
    failed_edit_law();
    one_manifest();
    failed_append();
    let payload = encode_edit(alloc, edit)?;
    let record = LogWriter::encode(alloc, manifest.end, &payload)?;
    let Some(end) = manifest.end.checked_add(record.len() as u64) else {
        return Err(DbError::OutOfMemory);
    };
    append_synced(store, manifest.name.as_str(), &record)?;
    Ok(end)
}
