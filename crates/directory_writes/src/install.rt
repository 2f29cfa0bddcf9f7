//! The end of a job: its outputs come in the place of its inputs (LevelDB's db/db_impl.cc,
//! InstallCompactionResults).

ghost use Rattle.std.specs.Prelude.{◌≡◌, ◌⊎◌, ◌<◌, ◌^◌, [], IfOk, IfErr, IsTrue, OnOk, string_bytes};
ghost use Rattle.std.specs.FinMap.{get};
ghost use Rattle.ikey.specs.Orders.{order_of};
ghost use Rattle.compact.specs.JobEdits.{IsPlanProper};
ghost use Rattle.compact.specs.Outputs.{AreNumbered, IsNumberAtHand, IsTableName, WritesTables};
ghost use Rattle.store.specs.Calls.{FailsAsWrite, Idles};
ghost use Rattle.store.specs.Losses.{CarriesBut, behind_sync};
ghost use Rattle.store.specs.Stops.{LeavesOnly};
ghost use Rattle.directory_writes.specs.Differing.{OfEach, with_files};
ghost use Rattle.directory_writes.specs.internal.Each.{HasSameOutputs, HaveStayed};
ghost use Rattle.directory_writes.specs.internal.Flush.{SparesManifest};
ghost use Rattle.directory_writes.specs.internal.Install.{AreOutputsKept, HasJobVersion, HasPreparedJob, InstallLeaves, InstallMayLeave, InstallMayPutOwn, InstallPutsOwn, InstallSyncs, InstallTouches, RefusesEdit, RefusesInstall};
ghost use Rattle.directory_writes.specs.internal.Putting.{WritesThenPuts};

use crate::flush::{FlushError, edit_refusal, version_after};
use crate::manifest::{CurrentManifest, append_edit};
use coding::DbError;
use compact::Job;
use edits::{Edit, FileNumbers};
use ikey::KeyOrder;
use recover::same_manifest_law;
use std::alloc::Global;
use std::rc::Rc;
use store::Store;
use versions::Version;

/// Holds what is new once a job is installed.
#[derive(Drop)]
pub struct Installed<K: KeyOrder> {
    /// The version with the outputs in the place of the inputs.
    pub version: Rc<Version<K>>,
    /// Where the MANIFEST ends.
    pub manifest_end: u64,
}

/// Holds the edit of a job, and the version after it.
#[derive(Drop)]
pub struct PreparedJob<K: KeyOrder> {
    /// The edit.
    pub edit: Edit,
    /// The version with the outputs.
    pub version: Rc<Version<K>>,
}

/// Ends a job whose inputs have ended, and appends its edit to the MANIFEST, so that its outputs
/// replace its inputs. All growth comes before the edit. It fails before the edit out of memory,
/// with Io if the store fails, or as below. Unsupported: a block of the last table would be too
/// long. Corrupt: the version isn't that of the inputs. After an error the job is given up: the
/// files that it wrote are no part of the database.
pub fn install_job<K: KeyOrder, C: Drop, S: Store>(
    alloc: Global,
    store: &mut S,
    job: Job<K, C>,
    version: &Version<K>,
    manifest: &CurrentManifest,
    numbers: &FileNumbers,
    last_sequence: u64,
) -> Result<Installed<K>, FlushError>
    requires sequence { last_sequence < 2 ^ 56 }
    requires plan { IsPlanProper job.plan }
    requires numbered { AreNumbered job.outputs numbers.now.next }
    ensures call { InstallTouches (S.facts store.old) (S.facts store.new) job.outputs (string_bytes manifest.now.name) }
    ensures fails { FailsAsWrite (S.facts store.old) (S.facts store.new) }
    ensures stood { OnOk result ((S.facts store.new).failures ≡ (S.facts store.old).failures) }
    ensures refused { IfErr result (λ error. RefusesInstall error K.cmp job (S.facts store.old)
        (S.facts store.new) numbers.now.next last_sequence version.now.tables) }
    ensures version { IfOk result (λ installed. HasJobVersion K.cmp job.plan job.outputs version.now installed.version.value) }
    ensures synced { OnOk result (IsTrue (S.facts store.new).faithful
        → (S.facts store.new).synced (string_bytes manifest.now.name) ≡ get (S.facts store.new).files (string_bytes manifest.now.name)) }
    ensures keeps { InstallSyncs K.cmp job (S.facts store.old) (S.facts store.new) numbers.now.next (string_bytes manifest.now.name)
        version.now.tables result }
    ensures spares { SparesManifest (S.facts store.old) (S.facts store.new) (string_bytes manifest.now.name)
        (IsTableName (IsNumberAtHand job.outputs)) result }
    ensures leaves { InstallLeaves (order_of K.name K.cmp) job (S.facts store.old)
        (S.facts store.new) numbers.now.next last_sequence manifest.now version.now.tables result }
    ensures leaves_each { OfEach (λ whole after. HasSameOutputs job.outputs (S.facts store.old).files whole → HaveStayed job.outputs (S.facts store.old)
        → InstallLeaves (order_of K.name K.cmp) job (with_files (S.facts store.old) whole) (with_files (S.facts store.new) after) numbers.now.next last_sequence manifest.now version.now.tables result)
        (S.facts store.old).files (S.facts store.new).files }
    ensures owns_each { OfEach (λ whole after. HasSameOutputs job.outputs (S.facts store.old).files whole → HaveStayed job.outputs (S.facts store.old)
        → InstallPutsOwn (order_of K.name K.cmp) job (with_files (S.facts store.old) whole) (with_files (S.facts store.new) after)
        numbers.now.next last_sequence manifest.now version.now.tables result) (S.facts store.old).files (S.facts store.new).files }
    ensures stops { IsTrue (S.facts store.new).faithful → LeavesOnly (S.facts store.old) (S.facts store.new)
        (InstallMayLeave (order_of K.name K.cmp) job (S.facts store.old) numbers.now.next last_sequence manifest.now version.now.tables) }
    ensures stops_own { IsTrue (S.facts store.new).faithful → LeavesOnly (S.facts store.old) (S.facts store.new)
        (InstallMayPutOwn (order_of K.name K.cmp) job (S.facts store.old) numbers.now.next last_sequence manifest.now version.now.tables) }
    ensures stops_each { IsTrue (S.facts store.new).faithful → LeavesOnly (S.facts store.old) (S.facts store.new)
        (λ files. OfEach (λ whole after. HasSameOutputs job.outputs (S.facts store.old).files whole → HaveStayed job.outputs (S.facts store.old)
        → InstallMayLeave (order_of K.name K.cmp) job (with_files (S.facts store.old) whole) numbers.now.next last_sequence
        manifest.now version.now.tables after) (S.facts store.old).files files) }
    ensures carries { IsTrue (S.facts store.new).faithful → CarriesBut (S.facts store.old) (S.facts store.new)
        (IsTableName (IsNumberAtHand job.outputs)) }
    ensures puts { IsTrue (S.facts store.new).faithful → WritesThenPuts (S.facts store.old) (S.facts store.new)
        (IsTableName (IsNumberAtHand job.outputs)) (string_bytes manifest.now.name)
        (AreOutputsKept K.cmp job (S.facts store.old) numbers.now.next) }
    ensures ends { IsTrue (S.facts store.new).faithful → OnOk result (behind_sync [] (S.facts store.new).calls ≡ []) }
{
    // Laws, for the proof alone.
    same_manifest_law();
    let prepared = match prepare_job(alloc, store, job, version, numbers, last_sequence) {
        Ok(prepared) => prepared,
        Err(error) => return Err(FlushError::Before(error)),
    };
    match append_edit(alloc, store, manifest, &prepared.edit) {
        Ok(manifest_end) => Ok(Installed {
            version: prepared.version,
            manifest_end,
        }),
        Err(error) => Err(edit_refusal(error)),
    }
}

// Ends the last table, and makes the edit and the version after it.
fn prepare_job<K: KeyOrder, C: Drop, S: Store>(
    alloc: Global,
    store: &mut S,
    job: Job<K, C>,
    version: &Version<K>,
    numbers: &FileNumbers,
    last_sequence: u64,
) -> Result<PreparedJob<K>, DbError>
    requires sequence { last_sequence < 2 ^ 56 }
    requires plan { IsPlanProper job.plan }
    requires numbered { AreNumbered job.outputs numbers.now.next }
    ensures writes { WritesTables (S.facts store.old) (S.facts store.new) (IsNumberAtHand job.outputs) }
    ensures fails { FailsAsWrite (S.facts store.old) (S.facts store.new) }
    ensures stood { OnOk result ((S.facts store.new).failures ≡ (S.facts store.old).failures) }
    ensures refused { IfErr result (λ error. RefusesEdit error K.cmp job (S.facts store.old)
        (S.facts store.new) numbers.now.next last_sequence version.now.tables) }
    ensures prepared { IfOk result (λ prepared. HasPreparedJob K.cmp job (S.facts store.old)
        (S.facts store.new) numbers.now.next last_sequence version.now prepared) }
    ensures kept { IsTrue (S.facts store.new).faithful → OnOk result (AreOutputsKept K.cmp job (S.facts store.old) numbers.now.next
        (S.facts store.new)) }
    ensures ends { IsTrue (S.facts store.new).faithful → OnOk result ((behind_sync [] (S.facts store.new).calls ≡ [])
        ⊎ Idles (S.facts store.old) (S.facts store.new)) }
{
    let edit = job.finish(alloc, store, numbers, last_sequence)?;
    let version = version_after(alloc, version, &edit)?;
    Ok(PreparedJob { edit, version })
}
