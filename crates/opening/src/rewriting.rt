//! What an open writes: a new MANIFEST, `CURRENT`, and a new log (LevelDB's db/db_impl.cc,
//! DBImpl::NewDB, and db/version_set.cc, VersionSet::LogAndApply).

ghost use Rattle.std.specs.Prelude.{◌≡◌, ◌<◌, ◌+◌, ◌^◌, ◌++◌, ◌∷◌, [], IfOk, IfErr, IsTrue, OnOk, length, map, string_bytes};
ghost use Rattle.coding.specs.declared.error.DbError.TheVariants.{OutOfMemory};
ghost use Rattle.ikey.specs.Orders.{order_of};
ghost use Rattle.opening.specs.internal.Durable.{HasDurable, SparesBeside};
ghost use Rattle.opening.specs.Durable.{LeavesDurable};
ghost use Rattle.opening.specs.Losses.{BeginsSpared, HaveNamesStayed, IsButLock, LeavesUncut};
ghost use Rattle.store.specs.Losses.{LosesOnly};
ghost use Rattle.store.specs.Stops.{LeavesOnly};
ghost use Rattle.directory_writes.specs.Differing.{OfEach, with_files};
ghost use Rattle.opening.specs.internal.Begun.{IsFront, names_of_log};
ghost use Rattle.opening.specs.internal.Opening.{Finds, IsContinued, IsUsable, KeepsLogs, IsKnownAfter, IsNewManifest, IsRewrite, Rewrites};
ghost use Rattle.opening.specs.internal.Renewing.{Renews, RenewsAll};

use crate::directory::DirectoryState;
use crate::files::{make_current, write_file};
use crate::finding::Found;
use coding::DbError;
use directory_writes::{CurrentManifest, create_file};
use edits::{FileName, FileNumbers, encode_edit, print_name, snapshot_edit};
use ikey::KeyOrder;
use logfile::LogWriter;
use recover::{
    LogSummary, begin_log_law, free_change_law, one_directory, one_manifest, recovered_law,
    reopen_law,
};
use std::alloc::{AllocError, Global};
use store::Store;

/// Holds the names and the bytes that an open writes.
#[derive(Debug, Drop)]
pub struct Rewrite {
    /// The name of the new MANIFEST.
    pub manifest_name: String,
    /// Its content, which is one record.
    pub manifest: Vec<u8>,
    /// The name of the file that takes the name `CURRENT`.
    pub temporary_name: String,
    /// Its content.
    pub current: Vec<u8>,
    /// The name of the new log.
    pub log_name: String,
    /// The names of the logs before it that have entries.
    pub front: Vec<String>,
}

/// Plans all that an open writes, before it writes any of it.
pub fn plan_rewrite<K: KeyOrder>(alloc: Global, found: &Found) -> Result<Rewrite, DbError>
    requires { IsUsable (order_of K.name K.cmp) found.now }
    ensures planned { IfOk result (IsRewrite (order_of K.name K.cmp) found.now) }
    ensures front { IfOk result (λ rewrite. IsFront found.now (map string_bytes rewrite.front.items)) }
    ensures memory { IfErr result (λ error. error ≡ OutOfMemory) }
{
    let manifest_name = print_name(alloc, FileName::Manifest(found.number))?;
    let manifest = new_manifest::<K>(alloc, found)?;
    let temporary_name = print_name(alloc, FileName::Temporary(found.number))?;
    let current = current_content(alloc, manifest_name.as_str())?;
    let log_name = print_name(alloc, FileName::Log(found.number + 1))?;
    let front = logs_in_front(alloc, found)?;
    Ok(Rewrite {
        manifest_name,
        manifest,
        temporary_name,
        current,
        log_name,
        front,
    })
}

// The names of the logs that were found and have entries: their writer may not have synced them.
fn logs_in_front(alloc: Global, found: &Found) -> Result<Vec<String>, AllocError>
    ensures { IfOk result (λ names. IsFront found.now (map string_bytes names.items)) }
{
    let mut names = Vec::new(alloc);
    if found.entries.is_empty() {
        return Ok(names);
    }
    for log in &found.logs {
        push_name(alloc, &mut names, log)?;
    }
    Ok(names)
}

// Adds the name of a log to the others. (None has the number 0.)
fn push_name(alloc: Global, names: &mut Vec<String>, log: &LogSummary) -> Result<(), AllocError>
    ensures { OnOk result (map string_bytes names.new.items ≡ map string_bytes names.old.items ++ names_of_log log.now.number) }
{
    if log.number == 0 {
        return Ok(());
    }
    let name = print_name(alloc, FileName::Log(log.number))?;
    names.push(name)?;
    Ok(())
}

// The content of `CURRENT`: a name and a newline.
fn current_content(alloc: Global, name: &str) -> Result<Vec<u8>, AllocError>
    ensures { IfOk result (λ content. content.items ≡ name.now ++ 10 ∷ []) }
{
    let mut content = Vec::with_capacity(alloc, name.len() + 1)?;
    content.extend_from_slice(name.as_bytes())?;
    content.push(b'\n')?;
    Ok(content)
}

// The numbers by which a layout says which logs are in use.
#[derive(Clone, Copy, Debug)]
struct LiveLogs {
    // this number and those above it
    from: u64,
    // and this one, if it isn't 0
    previous: u64,
}

// If the logs have entries they stay in use; else the new log is the first.
fn live_logs(found: &Found) -> LiveLogs
    requires { found.now.number + 1 < 2 ^ 62 }
    ensures { KeepsLogs found.now result.from result.previous }
{
    if found.entries.is_empty() {
        return LiveLogs {
            from: found.number + 1,
            previous: 0,
        };
    }
    LiveLogs {
        from: found.layout.log_number,
        previous: found.layout.previous_log_number,
    }
}

// The new MANIFEST, of one edit.
fn new_manifest<K: KeyOrder>(alloc: Global, found: &Found) -> Result<Vec<u8>, DbError>
    requires { IsUsable (order_of K.name K.cmp) found.now }
    ensures written { IfOk result (λ bytes. IsNewManifest (order_of K.name K.cmp) found.now bytes.items) }
    ensures memory { IfErr result (λ error. error ≡ OutOfMemory) }
{
    let logs = live_logs(found);
    let edit = snapshot_edit(
        alloc,
        K::name().as_bytes(),
        logs.from,
        logs.previous,
        found.number + 2,
        found.used,
        &found.layout,
    )?;
    let payload = encode_edit(alloc, &edit)?;
    LogWriter::encode(alloc, 0, &payload)
}

/// Returns what is known of the directory once that is written, with a MANIFEST of this name and
/// length.
pub fn known_after(found: &Found, name: String, end: u64) -> DirectoryState
    requires { found.now.number + 1 < 2 ^ 62 }
    ensures { IsKnownAfter found.now (string_bytes name) end result }
{
    let logs = live_logs(found);
    DirectoryState {
        manifest: CurrentManifest {
            number: found.number,
            name,
            end,
        },
        numbers: FileNumbers {
            next: found.number + 2,
        },
        first_log: logs.from,
        previous_log: logs.previous,
    }
}

/// Writes a new MANIFEST, makes it current, and makes an empty log. What a consistent directory
/// says stays, wherever it ends.
pub fn rewrite_directory<K: KeyOrder, S: Store>(
    store: &mut S,
    found: &Found,
    rewrite: &Rewrite,
) -> Result<(), DbError>
    requires usable { IsUsable (order_of K.name K.cmp) found.now }
    requires planned { IsRewrite (order_of K.name K.cmp) found.now rewrite.now }
    ensures files { Rewrites (order_of K.name K.cmp) (S.facts store.old) (S.facts store.new) found.now
        (length rewrite.now.manifest.items) result }
    ensures files_each { OfEach (λ whole after. Rewrites (order_of K.name K.cmp) (with_files (S.facts store.old) whole)
        (with_files (S.facts store.new) after) found.now (length rewrite.now.manifest.items) result)
        (S.facts store.old).files (S.facts store.new).files }
    ensures durable { LeavesDurable (S.facts store.old) (S.facts store.new) result }
    ensures current { IsTrue (S.facts store.new).faithful → OnOk result (HasDurable found.now.number (S.facts store.new)) }
    ensures spared { IsTrue (S.facts store.new).faithful → SparesBeside found.now.number (S.facts store.old) (S.facts store.new) }
    ensures stops { IsTrue (S.facts store.new).faithful → Finds (order_of K.name K.cmp) (S.facts store.old).files found.now
        → LeavesOnly (S.facts store.old) (S.facts store.new) (IsContinued (order_of K.name K.cmp) (S.facts store.old).files) }
    ensures stops_each { IsTrue (S.facts store.new).faithful → LeavesOnly (S.facts store.old) (S.facts store.new)
        (λ files. OfEach (λ whole after. Finds (order_of K.name K.cmp) whole found.now → IsContinued (order_of K.name K.cmp) whole after)
        (S.facts store.old).files files) }
    ensures since { IsTrue (S.facts store.new).faithful → Finds (order_of K.name K.cmp) (S.facts store.old).files found.now
        → OnOk result (BeginsSpared (S.facts store.new) (string_bytes rewrite.now.log_name)) }
    // So is what a power loss in its middle leaves, if it truncates no file that was there.
    ensures loses { IsTrue (S.facts store.new).faithful → Finds (order_of K.name K.cmp) (S.facts store.old).files found.now
        → HaveNamesStayed (S.facts store.old) → LosesOnly (S.facts store.old) (S.facts store.new)
        (λ lost. LeavesUncut (S.facts store.old) lost → IsButLock (IsContinued (order_of K.name K.cmp) (S.facts store.old).files) lost) }
    // Call by call.
    ensures renews { IsTrue (S.facts store.new).faithful → Renews (S.facts store.old) (S.facts store.new) (string_bytes rewrite.now.manifest_name)
        rewrite.now.manifest.items (string_bytes rewrite.now.temporary_name) rewrite.now.current.items (string_bytes rewrite.now.log_name) }
    ensures renewed { IsTrue (S.facts store.new).faithful → Finds (order_of K.name K.cmp) (S.facts store.old).files found.now
        → OnOk result (RenewsAll (S.facts store.old) (S.facts store.new) (string_bytes rewrite.now.manifest_name) rewrite.now.manifest.items
        (string_bytes rewrite.now.temporary_name) rewrite.now.current.items (string_bytes rewrite.now.log_name)) }
{
    // Laws, for the proof alone.
    free_change_law();
    reopen_law();
    one_manifest();
    one_directory();
    recovered_law();
    begin_log_law();
    write_file(store, rewrite.manifest_name.as_str(), &rewrite.manifest)?;
    make_current(store, rewrite.temporary_name.as_str(), &rewrite.current)?;
    create_file(store, rewrite.log_name.as_str())
}
