//! What an open has in memory before its database is made (LevelDB's db/db_impl.cc, DB::Open).

ghost use Rattle.std.specs.Prelude.{◌≡◌, IsTrue, Err, IfOk, IfErr, OnOk, string_bytes};
ghost use Rattle.coding.specs.declared.error.DbError.TheVariants.{OutOfMemory};
ghost use Rattle.ikey.specs.Orders.{order_of};
ghost use Rattle.store.specs.Losses.{LosesOnly};
ghost use Rattle.store.specs.Stops.{LeavesOnly};
ghost use Rattle.directory_writes.specs.Differing.{OfEach};
ghost use Rattle.opening.specs.internal.Opening.{IsContinued, RefusesOpen};
ghost use Rattle.opening.specs.internal.Durable.{HasDurable, Spares};
ghost use Rattle.opening.specs.Durable.{LeavesDurable};
ghost use Rattle.opening.specs.Losses.{BeginsSpared, HaveNamesStayed, IsButLock, LeavesUncut};
ghost use Rattle.opening.specs.Refusals.{IsMet};
ghost use Rattle.opening.specs.Telling.{Tells};
ghost use Rattle.opening.specs.internal.Outcome.{OpenOutcome};
ghost use Rattle.opening.specs.internal.Begun.{IsBegun, Begins, BeginsSynced, IsUnwritten};
ghost use Rattle.opening.specs.internal.Renewing.{RenewsBy, RenewsWhole};

use crate::directory::{CurrentLog, DirectoryState};
use crate::finding::find;
use crate::looking::{sealed_memory, version_of};
use crate::rewriting::{known_after, plan_rewrite, rewrite_directory};
use coding::DbError;
use ikey::KeyOrder;
use machine::Mode;
use memtables::MemoryTables;
use recover::recovered_law;
use std::alloc::Global;
use std::rc::Rc;
use store::Store;
use versions::Version;

/// Holds what an open has before its database is made.
#[derive(Drop)]
pub struct Begun<K: KeyOrder> {
    /// The entries of the logs, sealed if there are some, and the last sequence number used.
    pub memory: MemoryTables<K>,
    /// The tables, by level.
    pub version: Rc<Version<K>>,
    /// The log that writes go to, which is empty.
    pub log: CurrentLog,
    /// What is known of the directory beside.
    pub directory: DirectoryState,
}

/// Reads what is there, and writes MANIFEST, `CURRENT` and the log anew. The lock has to be held,
/// so that nobody else writes. A refusal leaves what the directory says as it was: those of `find`,
/// OutOfMemory, and Io where the store fails.
pub fn begin<K: KeyOrder, S: Store>(
    alloc: Global,
    store: &mut S,
    mode: Mode,
) -> Result<Begun<K>, DbError>
    ensures faithful { IsTrue (S.facts store.new).faithful → IsTrue (S.facts store.old).faithful }
    ensures outcome { OpenOutcome (S.facts store.old) (S.facts store.new) result }
    ensures denials { (S.facts store.new).denials ≡ (S.facts store.old).denials }
    ensures met { IfErr result IsMet }
    ensures lock { (S.facts store.new).locked ≡ (S.facts store.old).locked }
    ensures stood { result ≡ Err OutOfMemory → (S.facts store.new).failures ≡ (S.facts store.old).failures }
    ensures unfailed { OnOk result ((S.facts store.new).failures ≡ (S.facts store.old).failures) }
    ensures durable { LeavesDurable (S.facts store.old) (S.facts store.new) result }
    ensures current { IfOk result (λ begun. IsTrue (S.facts store.new).faithful
        → HasDurable begun.directory.manifest.number (S.facts store.new)) }
    ensures spared { IsTrue (S.facts store.new).faithful → Spares (S.facts store.old) (S.facts store.new) }
    ensures synced { IfOk result (λ begun. IsTrue (S.facts store.new).faithful
        → BeginsSynced (S.facts store.old) (S.facts store.new) begun.log begun.directory) }
    ensures since { IfOk result (λ begun. IsTrue (S.facts store.new).faithful
        → BeginsSpared (S.facts store.new) (string_bytes begun.log.name)) }
    ensures whole { IfOk result (IsBegun (order_of K.name K.cmp)) }
    ensures begun { IfOk result (λ begun. IsTrue (S.facts store.new).faithful
        → Begins (order_of K.name K.cmp) mode (S.facts store.old).files (S.facts store.new).files begun) }
    ensures begun_each { IfOk result (λ begun. IsTrue (S.facts store.new).faithful
        → OfEach (λ whole after. Begins (order_of K.name K.cmp) mode whole after begun) (S.facts store.old).files (S.facts store.new).files) }
    ensures continued { IsTrue (S.facts store.new).faithful
        → IsContinued (order_of K.name K.cmp) (S.facts store.old).files (S.facts store.new).files }
    ensures continued_each { IsTrue (S.facts store.new).faithful
        → OfEach (λ whole after. IsContinued (order_of K.name K.cmp) whole after) (S.facts store.old).files (S.facts store.new).files }
    // A process crash in its middle leaves that too.
    ensures stops { IsTrue (S.facts store.new).faithful → LeavesOnly (S.facts store.old) (S.facts store.new)
        (IsContinued (order_of K.name K.cmp) (S.facts store.old).files) }
    ensures stops_each { IsTrue (S.facts store.new).faithful → LeavesOnly (S.facts store.old) (S.facts store.new)
        (λ files. OfEach (λ whole after. IsContinued (order_of K.name K.cmp) whole after) (S.facts store.old).files files) }
    // So does a power loss, if the names that were there are durable and it truncates none of those
    // files.
    ensures loses { IsTrue (S.facts store.new).faithful → HaveNamesStayed (S.facts store.old)
        → LosesOnly (S.facts store.old) (S.facts store.new)
        (λ lost. LeavesUncut (S.facts store.old) lost → IsButLock (IsContinued (order_of K.name K.cmp) (S.facts store.old).files) lost) }
    // Call by call.
    ensures renews { IsTrue (S.facts store.new).faithful → RenewsBy (order_of K.name K.cmp) (S.facts store.old) (S.facts store.new) }
    ensures renewed { IfOk result (λ begun. IsTrue (S.facts store.new).faithful
        → RenewsWhole (order_of K.name K.cmp) (S.facts store.old) (S.facts store.new) begun.log begun.directory) }
    ensures refused { IfErr result (λ error. RefusesOpen (order_of K.name K.cmp) mode error (S.facts store.old) (S.facts store.new)) }
    ensures unwritten { IfErr result (λ error. IsUnwritten error (S.facts store.old) (S.facts store.new)) }
    ensures tells { IsTrue (S.facts store.new).faithful → Tells (order_of K.name K.cmp) (S.facts store.old).files result }
{
    // Laws, for the proof alone.
    recovered_law();
    let found = find::<K, S>(alloc, store, mode)?;
    let version = version_of::<K>(alloc, &found.layout)?;
    let rewrite = plan_rewrite::<K>(alloc, &found)?;
    let memory = sealed_memory::<K>(alloc, &found.entries, found.used)?;
    rewrite_directory::<K, S>(store, &found, &rewrite)?;
    let end = rewrite.manifest.len() as u64;
    Ok(Begun {
        memory,
        version,
        log: CurrentLog {
            number: found.number + 1,
            name: rewrite.log_name,
            end: 0,
            front: rewrite.front,
        },
        directory: known_after(&found, rewrite.manifest_name, end),
    })
}
