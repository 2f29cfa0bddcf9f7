//! A flush: a sealed memtable becomes a table file, which replaces the logs before the current one
//! (LevelDB's db/db_impl.cc, DBImpl::CompactMemTable).

ghost use Rattle.std.specs.Prelude.{◌≡◌, ◌<◌, ◌^◌, ℕ, List, [], IfOk, IfErr, IsTrue, OnOk, length, string_bytes};
ghost use Rattle.edits.specs.Layout.{after_edit};
ghost use Rattle.edits.specs.Names.{name_of};
ghost use Rattle.edits.specs.declared.names.FileName.TheVariants.{Table};
ghost use Rattle.ikey.specs.Orders.{order_of};
ghost use Rattle.table.specs.Writing.{Writes};
ghost use Rattle.versions.specs.Applying.{LeadsLayout, LeadsAstray};
ghost use Rattle.versions.specs.Levels.{AreInOrder, pointers_after};
ghost use Rattle.store.specs.Calls.{FailsAsWrite};
ghost use Rattle.store.specs.Losses.{CarriesBut, behind_sync};
ghost use Rattle.store.specs.Stops.{LeavesOnly};
ghost use Rattle.directory_writes.specs.Differing.{OfEach, with_files};
ghost use Rattle.directory_writes.specs.internal.Flush.{DrawsTable, Prepares, RefusesNewTable, RefusesVersion, edit_refusal};
ghost use Rattle.directory_writes.specs.internal.Flush.{FlushTouches, RefusesFlush, SparesManifest, SyncsFlush, AnswersVersion, FlushLeaves, FlushMayLeave, IsTableKeptNow};
ghost use Rattle.directory_writes.specs.internal.Level0.{HaveSequences};
ghost use Rattle.directory_writes.specs.internal.Putting.{WritesThenPuts};

use crate::flush_edits::flush_edit;
use crate::level0::write_level0;
use crate::manifest::{CurrentManifest, append_edit};
use coding::{DbError, FileKind, ReadError};
use edits::{Edit, FileNumbers};
use ikey::KeyOrder;
use memtable::MemTable;
use recover::{flush_law, same_manifest_law, unread_law};
use std::alloc::Global;
use std::rc::Rc;
use store::Store;
use versions::Version;

/// Holds what the edit of a flush says beside its table, and where a data block of the table ends.
#[derive(Clone, Copy, Debug)]
pub struct FlushPlan {
    /// The number of the current log, the first that is read after the flush.
    pub log_number: u64,
    /// The previous log of the layout, or 0.
    pub previous_log_number: u64,
    /// The last sequence number that is used.
    pub last_sequence: u64,
    /// With how many bytes a data block is ended.
    pub block_bytes: usize,
}

/// Holds what is new after a flush.
#[derive(Drop)]
pub struct Flushed<K: KeyOrder> {
    /// The version with the table.
    pub version: Rc<Version<K>>,
    /// Where the MANIFEST ends.
    pub manifest_end: u64,
    /// The number of the table.
    pub number: u64,
}

/// Tells why a memtable wasn't flushed.
#[derive(Clone, Copy, Debug, PartialEq, Eq)]
pub enum FlushError {
    /// The directory means what it did. A part of a table that it doesn't read may be there.
    Before(DbError),
    /// The store failed while the edit was appended to the MANIFEST, so that it is there or not.
    Edit,
}

/// Holds a table that is written, the edit that puts it into the layout, and the version after
/// that.
#[derive(Drop)]
pub struct Prepared<K: KeyOrder> {
    /// The number of the table.
    pub number: u64,
    /// The edit.
    pub edit: Edit,
    /// The version with the table.
    pub version: Rc<Version<K>>,
}

/// Draws a number, writes the entries of a memtable, which has some, into the table of that number,
/// and appends an edit to the MANIFEST. The edit puts this table into level 0 and replaces all logs
/// before the current one. All growth comes before the edit. It fails before the edit out of
/// memory, with Io if the store fails, or with NumbersSpent. Unsupported: a block would have more
/// than 2^30 bytes. Corrupt: the version has a table of the number that is next.
pub fn flush_memory<K: KeyOrder, S: Store>(
    alloc: Global,
    store: &mut S,
    memory: &MemTable<K>,
    version: &Version<K>,
    manifest: &CurrentManifest,
    numbers: &mut FileNumbers,
    plan: FlushPlan,
) -> Result<Flushed<K>, FlushError>
    requires some { 0 < length memory.now.inserts }
    requires sequences { HaveSequences memory.now.inserts }
    requires sequence { plan.last_sequence < 2 ^ 56 }
    ensures call { FlushTouches (S.facts store.old) (S.facts store.new) (name_of (Table numbers.old.next))
        (string_bytes manifest.now.name) }
    ensures fails { FailsAsWrite (S.facts store.old) (S.facts store.new) }
    ensures stood { OnOk result ((S.facts store.new).failures ≡ (S.facts store.old).failures) }
    ensures refused { IfErr result (λ error. RefusesFlush error (S.facts store.old)
        (S.facts store.new) memory.now.inserts version.now.tables numbers.old.next numbers.new.next) }
    ensures drawn { DrawsTable (S.facts store.old) (S.facts store.new) numbers.old.next numbers.new.next }
    ensures version { AnswersVersion K.cmp version.now numbers.old.next numbers.new.next result }
    ensures syncs { SyncsFlush (S.facts store.new) (name_of (Table numbers.old.next)) (string_bytes manifest.now.name) result }
    ensures spares { SparesManifest (S.facts store.old) (S.facts store.new) (string_bytes manifest.now.name)
        (λ name. name ≡ name_of (Table numbers.old.next)) result }
    ensures leaves { FlushLeaves (order_of K.name K.cmp) (S.facts store.old)
        (S.facts store.new) numbers.old.next numbers.new.next plan manifest.now memory.now.inserts version.now.tables result }
    ensures leaves_each { OfEach (λ whole after. FlushLeaves (order_of K.name K.cmp) (with_files (S.facts store.old) whole)
        (with_files (S.facts store.new) after) numbers.old.next numbers.new.next plan manifest.now memory.now.inserts version.now.tables result)
        (S.facts store.old).files (S.facts store.new).files }
    ensures stops { IsTrue (S.facts store.new).faithful → LeavesOnly (S.facts store.old) (S.facts store.new)
        (FlushMayLeave (order_of K.name K.cmp) (S.facts store.old).files numbers.old.next numbers.new.next plan manifest.now
        memory.now.inserts version.now.tables) }
    ensures stops_each { IsTrue (S.facts store.new).faithful → LeavesOnly (S.facts store.old) (S.facts store.new)
        (λ files. OfEach (λ whole after. FlushMayLeave (order_of K.name K.cmp) whole numbers.old.next numbers.new.next plan manifest.now
        memory.now.inserts version.now.tables after) (S.facts store.old).files files) }
    ensures carries { IsTrue (S.facts store.new).faithful → CarriesBut (S.facts store.old) (S.facts store.new)
        (λ (q : List ℕ). q ≡ name_of (Table numbers.old.next)) }
    ensures puts { IsTrue (S.facts store.new).faithful → WritesThenPuts (S.facts store.old) (S.facts store.new)
        (λ (q : List ℕ). q ≡ name_of (Table numbers.old.next)) (string_bytes manifest.now.name) (IsTableKeptNow numbers.old.next) }
    ensures ends { IsTrue (S.facts store.new).faithful → OnOk result (behind_sync [] (S.facts store.new).calls ≡ []) }
{
    // Laws, for the proof alone.
    flush_law();
    unread_law();
    same_manifest_law();
    let prepared = match prepare(alloc, store, memory, version, numbers, plan) {
        Ok(prepared) => prepared,
        Err(error) => return Err(FlushError::Before(error)),
    };
    match append_edit(alloc, store, manifest, &prepared.edit) {
        Ok(manifest_end) => Ok(Flushed {
            version: prepared.version,
            manifest_end,
            number: prepared.number,
        }),
        Err(error) => Err(edit_refusal(error)),
    }
}

// Writes the table, and makes its edit and the version after that.
fn prepare<K: KeyOrder, S: Store>(
    alloc: Global,
    store: &mut S,
    memory: &MemTable<K>,
    version: &Version<K>,
    numbers: &mut FileNumbers,
    plan: FlushPlan,
) -> Result<Prepared<K>, DbError>
    requires some { 0 < length memory.now.inserts }
    requires sequences { HaveSequences memory.now.inserts }
    requires sequence { plan.last_sequence < 2 ^ 56 }
    ensures writes { Writes (S.facts store.old) (S.facts store.new) (name_of (Table numbers.old.next)) }
    ensures ends { IsTrue (S.facts store.new).faithful → OnOk result (behind_sync [] (S.facts store.new).calls ≡ []) }
    ensures stood { OnOk result ((S.facts store.new).failures ≡ (S.facts store.old).failures) }
    ensures refused { IfErr result (λ error. RefusesNewTable error (S.facts store.old)
        (S.facts store.new) memory.now.inserts version.now.tables numbers.old.next numbers.new.next) }
    ensures drawn { DrawsTable (S.facts store.old) (S.facts store.new) numbers.old.next numbers.new.next }
    ensures prepares { Prepares (order_of K.name K.cmp)
        (S.facts store.new) numbers.old.next numbers.new.next plan memory.now.inserts version.now result }
{
    let number = numbers.draw()?;
    let table = write_level0(alloc, store, memory, number, plan.block_bytes)?;
    let edit = flush_edit(
        alloc,
        plan.log_number,
        plan.previous_log_number,
        numbers.next,
        plan.last_sequence,
        table,
    )?;
    let version = version_after(alloc, version, &edit)?;
    Ok(Prepared {
        number,
        edit,
        version,
    })
}

// The version after an edit. Corrupt: it has no room for the edit's tables.
pub(crate) fn version_after<K: KeyOrder>(
    alloc: Global,
    version: &Version<K>,
    edit: &Edit,
) -> Result<Rc<Version<K>>, DbError>
    ensures tables { IfOk result (λ new. LeadsLayout (after_edit edit.now) version.now.tables new.value.tables) }
    ensures pointers { IfOk result (λ new. new.value.compact_pointers ≡ pointers_after edit.now 0 version.now.compact_pointers) }
    ensures order { IfOk result (λ new. AreInOrder K.cmp new.value.tables) }
    ensures old { AreInOrder K.cmp version.now.tables }
    ensures refused { IfErr result (λ error. RefusesVersion error (LeadsAstray K.cmp (after_edit edit.now) version.now.tables)) }
{
    // For the proof alone, here and after the edit: the tables are in order.
    let _tables = version.tables();
    let after = match version.after(alloc, edit.fields()) {
        Ok(after) => after,
        Err(ReadError::Memory) => return Err(DbError::OutOfMemory),
        Err(ReadError::Corrupt(what)) => return Err(DbError::Corrupt(FileKind::Manifest, what)),
        Err(ReadError::Unsupported(_)) => unreachable!(),
    };
    let _new_tables = after.tables();
    let shared = Rc::new(alloc, after)?;
    Ok(shared)
}

// If the store fails, the edit is in doubt. Out of memory nothing of it is there.
pub(crate) fn edit_refusal(error: DbError) -> FlushError
    ensures { result ≡ edit_refusal error }
{
    match error {
        DbError::Io => FlushError::Edit,
        other => FlushError::Before(other),
    }
}
