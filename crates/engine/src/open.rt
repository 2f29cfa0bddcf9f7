//! Opening a database (LevelDB's db/db_impl.cc, DB::Open).

ghost use Rattle.std.specs.Prelude.{◌≡◌, ◌⊎◌, ℕ, List, true, false, string_bytes, IsTrue, Err, IfOk, IfErr, OnOk};
ghost use Rattle.coding.specs.declared.error.DbError.TheVariants.{OutOfMemory};
ghost use Rattle.ikey.specs.Orders.{order_of};
ghost use Rattle.store.specs.Calls.{Adds, Idles};
ghost use Rattle.store.specs.Files.{LockFile, MayLock};
ghost use Rattle.store.specs.Losses.{StaysNamed};
ghost use Rattle.store.specs.Stops.{LeavesOnly};
ghost use Rattle.machine.specs.Machine.{Machine};
ghost use Rattle.engine.specs.internal.Directory.{MeansAccepted};
ghost use Rattle.directory_writes.specs.Differing.{OfEach};
ghost use Rattle.edits.specs.Names.{name_of};
ghost use Rattle.edits.specs.declared.names.FileName.TheVariants.{Log};
ghost use Rattle.opening.specs.internal.Calls.{TakesLock};
ghost use Rattle.machine.specs.Lifetime.{Opens};
ghost use Rattle.engine.specs.internal.Standing.{StandsClosed};
ghost use Rattle.engine.specs.Follows.{Leads, unit_answer};
ghost use Rattle.engine.specs.declared.ids.Ids.{Ids};
ghost use Rattle.engine.specs.OpenDb.{open_db};
ghost use Rattle.engine.specs.Opened.{IsTidy};
ghost use Rattle.engine.specs.Reopening.{HasKeptLogs, IsFresh, LosesOn, OpenLosesOn};
ghost use Rattle.engine.specs.internal.Resting.{LosesMeaning, Rests, StandsResult, is_of_memory};
ghost use Rattle.opening.specs.internal.Opening.{IsContinued};
ghost use Rattle.opening.specs.internal.Durable.{HasDurable, Spares};
ghost use Rattle.opening.specs.Durable.{LeavesDurable};
ghost use Rattle.opening.specs.Losses.{BeginsSpared, HaveNamesStayed};
ghost use Rattle.opening.specs.internal.Begun.{BeginsSynced, IsUnwritten};
ghost use Rattle.opening.specs.internal.Renewing.{RenewsWhole};
ghost use Rattle.engine.specs.Touching.{OpensStore};
ghost use Rattle.opening.specs.Refusals.{IsMet};
ghost use Rattle.opening.specs.Telling.{Tells};
ghost use Rattle.opening.specs.internal.Outcome.{OpenOutcome};
ghost use Rattle.db_cursor.specs.Whole.{seen_of};

use crate::log::{LogBuffers, keep_front};
use crate::options::Options;
use crate::state::DbState;
use coding::DbError;
use db_cursor::Sources;
use ikey::KeyOrder;
use machine::Mode;
use opening::begin;
use recover::free_change_law;
use std::alloc::Global;
use std::collections::BTreeMap;
use store::{Store, StoreError};
use table_access::{empty_is_sound, sound_stays};

/// Opens the database of a store: takes the lock, reads what is there, writes a new MANIFEST,
/// `CURRENT` and a new log, syncs the logs that it found, and removes the obsolete files. If one
/// can't be removed, or the store can't list them, they are left for the next time, and the open
/// succeeds. An error releases the lock. Nothing that was kept of tables before stays.
pub fn open_store<K: KeyOrder, S: Store>(
    alloc: Global,
    source: &mut Sources<K, S>,
    options: &Options,
    mode: Mode,
) -> Result<DbState<K>, DbError>
    ensures step { (ids : Ids) → Leads (S.facts source.old.tables.store) (S.facts source.new.tables.store)
        (StandsClosed (order_of K.name K.cmp) (S.facts source.old.tables.store) ids)
        (StandsResult (order_of K.name K.cmp) (seen_of S.facts source.new) source.new.memory ids result)
        (λ m n. Opens m mode (unit_answer result) n) }
    ensures outcome { OpenOutcome (S.facts source.old.tables.store) (S.facts source.new.tables.store) result }
    ensures met { IfErr result IsMet }
    ensures touches { OpensStore (S.facts source.old.tables.store) (S.facts source.new.tables.store) result }
    ensures tells { IsTrue (S.facts source.new.tables.store).faithful
        → Tells (order_of K.name K.cmp) (S.facts source.old.tables.store).files result }
    // All files are in use then, unless one couldn't be removed.
    ensures tidy { IfOk result (IsTidy (S.facts source.old.tables.store) (S.facts source.new.tables.store) source.new.memory) }
    // So many blocks are kept as the options say.
    ensures cached { OnOk result (source.new.tables.blocks.capacity ≡ options.now.cache_blocks) }
    // A process crash in its middle leaves files that stand for what they did.
    ensures stops { IsTrue (S.facts source.new.tables.store).faithful → (ids : Ids) (m : Machine)
        → m.damaged ≡ false → StandsClosed (order_of K.name K.cmp) (S.facts source.old.tables.store) ids m
        → LeavesOnly (S.facts source.old.tables.store) (S.facts source.new.tables.store) (λ files. MeansAccepted (order_of K.name K.cmp) files m) }
    // So does a power loss, if the names that were there are durable and it truncates none of those
    // files.
    ensures loses { IsTrue (S.facts source.new.tables.store).faithful → (ids : Ids) (m : Machine)
        → m.damaged ≡ false → StandsClosed (order_of K.name K.cmp) (S.facts source.old.tables.store) ids m
        → ((name : List ℕ) → StaysNamed (S.facts source.old.tables.store) name)
        → LosesMeaning (order_of K.name K.cmp) (S.facts source.old.tables.store) (S.facts source.new.tables.store) m }
    // Suppose each power loss before it leaves a prefix of the batches. Then so does each in its
    // middle.
    ensures loses_on { (ids : Ids) → OpenLosesOn (order_of K.name K.cmp) (S.facts source.old.tables.store) (S.facts source.new.tables.store) ids }
    // The logs that it found are durable.
    ensures kept { IfOk result (λ state. IsTrue (S.facts source.new.tables.store).faithful
        → HasKeptLogs (S.facts source.new.tables.store) state.directory) }
    ensures fresh { IfOk result (λ state. IsFresh (open_db source.new.memory state)) }
{
    // Laws, for the proof alone.
    free_change_law();
    take_lock(&mut source.tables.store)?;
    match open_and_clean::<K, S>(alloc, source, options, mode) {
        Ok(state) => Ok(state),
        Err(error) => {
            let _ = source.tables.store.unlock();
            Err(error)
        }
    }
}

fn take_lock<S: Store>(store: &mut S) -> Result<(), DbError>
    ensures lock { TakesLock (S.facts store.old) (S.facts store.new) result }
    ensures stops { IsTrue (S.facts store.new).faithful → LeavesOnly (S.facts store.old) (S.facts store.new) (MayLock (S.facts store.old).files) }
    ensures noted { IsTrue (S.facts store.new).faithful → Idles (S.facts store.old) (S.facts store.new) ⊎ Adds (S.facts store.old) (S.facts store.new) LockFile }
{
    match store.lock() {
        Ok(true) => Ok(()),
        Ok(false) => Err(DbError::Locked),
        Err(StoreError::Memory) => Err(DbError::OutOfMemory),
        Err(StoreError::Missing) => Err(DbError::Io),
        Err(StoreError::Device) => Err(DbError::Io),
    }
}

// Opens it, while the lock is held. Syncs the logs that it found, since their writer may not have,
// and removes the obsolete files.
fn open_and_clean<K: KeyOrder, S: Store>(
    alloc: Global,
    source: &mut Sources<K, S>,
    options: &Options,
    mode: Mode,
) -> Result<DbState<K>, DbError>
    ensures step { (ids : Ids) → Leads (S.facts source.old.tables.store) (S.facts source.new.tables.store)
        (Rests (order_of K.name K.cmp) (S.facts source.old.tables.store) ids)
        (StandsResult (order_of K.name K.cmp) (seen_of S.facts source.new) source.new.memory ids result)
        (λ m n. Opens m mode (unit_answer result) n) }
    ensures outcome { OpenOutcome (S.facts source.old.tables.store) (S.facts source.new.tables.store) result }
    ensures met { IfErr result IsMet }
    ensures lock { (S.facts source.new.tables.store).locked ≡ (S.facts source.old.tables.store).locked }
    ensures stood { result ≡ Err OutOfMemory → (S.facts source.new.tables.store).failures ≡ (S.facts source.old.tables.store).failures }
    ensures durable { LeavesDurable (S.facts source.old.tables.store) (S.facts source.new.tables.store) result }
    ensures spared { IsTrue (S.facts source.new.tables.store).faithful
        → Spares (S.facts source.old.tables.store) (S.facts source.new.tables.store) }
    ensures unwritten { IfErr result
        (λ e. IsUnwritten e (S.facts source.old.tables.store) (S.facts source.new.tables.store)) }
    ensures tells { IsTrue (S.facts source.new.tables.store).faithful
        → Tells (order_of K.name K.cmp) (S.facts source.old.tables.store).files result }
    ensures tidy { IfOk result (IsTidy (S.facts source.old.tables.store) (S.facts source.new.tables.store) source.new.memory) }
    ensures cached { OnOk result (source.new.tables.blocks.capacity ≡ options.now.cache_blocks) }
    ensures stops { IsTrue (S.facts source.new.tables.store).faithful → (ids : Ids) (m : Machine)
        → m.damaged ≡ false → Rests (order_of K.name K.cmp) (S.facts source.old.tables.store) ids m
        → LeavesOnly (S.facts source.old.tables.store) (S.facts source.new.tables.store) (λ files. MeansAccepted (order_of K.name K.cmp) files m) }
    ensures loses { IsTrue (S.facts source.new.tables.store).faithful → (ids : Ids) (m : Machine)
        → m.damaged ≡ false → Rests (order_of K.name K.cmp) (S.facts source.old.tables.store) ids m
        → HaveNamesStayed (S.facts source.old.tables.store)
        → LosesMeaning (order_of K.name K.cmp) (S.facts source.old.tables.store) (S.facts source.new.tables.store) m }
    ensures loses_on { IsTrue (S.facts source.new.tables.store).faithful → (ids : Ids) (m : Machine)
        → m.damaged ≡ false → Rests (order_of K.name K.cmp) (S.facts source.old.tables.store) ids m
        → LosesOn (order_of K.name K.cmp) (S.facts source.old.tables.store) (S.facts source.new.tables.store) }
    ensures kept { IfOk result (λ state. IsTrue (S.facts source.new.tables.store).faithful
        → HasKeptLogs (S.facts source.new.tables.store) state.directory) }
    ensures fresh { IfOk result (λ state. IsFresh (open_db source.new.memory state)) }
{
    // A law, for the proof alone.
    sound_stays();
    let mut state = open_locked::<K, S>(alloc, source, options, mode)?;
    // A law, for the proof alone.
    source.tables.store.synced_law();
    if keep_front(&mut source.tables.store, &mut state.log).is_err() {
        return Err(DbError::Io);
    }
    match state.clean(alloc, source) {
        Ok(_) => Ok(state),
        Err(error) => {
            if lacks_memory(error) {
                return Err(DbError::OutOfMemory);
            }
            Ok(state)
        }
    }
}

// Whether memory was missing. (A listing that the store fails is no reason to refuse an open.)
fn lacks_memory(error: DbError) -> bool
    ensures { result ≡ is_of_memory error }
{
    match error {
        DbError::OutOfMemory => true,
        _ => false,
    }
}

// Opens it, while the lock is held.
fn open_locked<K: KeyOrder, S: Store>(
    alloc: Global,
    source: &mut Sources<K, S>,
    options: &Options,
    mode: Mode,
) -> Result<DbState<K>, DbError>
    ensures step { (ids : Ids) → Leads (S.facts source.old.tables.store) (S.facts source.new.tables.store)
        (Rests (order_of K.name K.cmp) (S.facts source.old.tables.store) ids)
        (StandsResult (order_of K.name K.cmp) (seen_of S.facts source.new) source.new.memory ids result)
        (λ m n. Opens m mode (unit_answer result) n) }
    ensures outcome { OpenOutcome (S.facts source.old.tables.store) (S.facts source.new.tables.store) result }
    ensures met { IfErr result IsMet }
    ensures lock { (S.facts source.new.tables.store).locked ≡ (S.facts source.old.tables.store).locked }
    ensures stood { result ≡ Err OutOfMemory → (S.facts source.new.tables.store).failures ≡ (S.facts source.old.tables.store).failures }
    ensures unfailed { OnOk result ((S.facts source.new.tables.store).failures ≡ (S.facts source.old.tables.store).failures) }
    ensures continued { IsTrue (S.facts source.new.tables.store).faithful
        → IsContinued (order_of K.name K.cmp) (S.facts source.old.tables.store).files (S.facts source.new.tables.store).files }
    ensures continued_each { IsTrue (S.facts source.new.tables.store).faithful
        → OfEach (λ whole after. IsContinued (order_of K.name K.cmp) whole after)
        (S.facts source.old.tables.store).files (S.facts source.new.tables.store).files }
    ensures durable { LeavesDurable (S.facts source.old.tables.store) (S.facts source.new.tables.store) result }
    ensures current { IfOk result (λ state. IsTrue (S.facts source.new.tables.store).faithful
        → HasDurable state.directory.manifest.number (S.facts source.new.tables.store)) }
    ensures spared { IsTrue (S.facts source.new.tables.store).faithful
        → Spares (S.facts source.old.tables.store) (S.facts source.new.tables.store) }
    ensures unwritten { IfErr result
        (λ e. IsUnwritten e (S.facts source.old.tables.store) (S.facts source.new.tables.store)) }
    ensures whole { IfOk result (λ state. state.broken ≡ false) }
    ensures cached { OnOk result (source.new.tables.blocks.capacity ≡ options.now.cache_blocks) }
    ensures tells { IsTrue (S.facts source.new.tables.store).faithful
        → Tells (order_of K.name K.cmp) (S.facts source.old.tables.store).files result }
    ensures stops { IsTrue (S.facts source.new.tables.store).faithful → (m : Machine)
        → MeansAccepted (order_of K.name K.cmp) (S.facts source.old.tables.store).files m
        → LeavesOnly (S.facts source.old.tables.store) (S.facts source.new.tables.store) (λ files. MeansAccepted (order_of K.name K.cmp) files m) }
    ensures loses { IsTrue (S.facts source.new.tables.store).faithful → (m : Machine)
        → MeansAccepted (order_of K.name K.cmp) (S.facts source.old.tables.store).files m
        → HaveNamesStayed (S.facts source.old.tables.store)
        → LosesMeaning (order_of K.name K.cmp) (S.facts source.old.tables.store) (S.facts source.new.tables.store) m }
    ensures begins { IfOk result (λ state. IsTrue (S.facts source.new.tables.store).faithful
        → BeginsSynced (S.facts source.old.tables.store) (S.facts source.new.tables.store) state.log state.directory) }
    ensures since { IfOk result (λ state. IsTrue (S.facts source.new.tables.store).faithful
        → BeginsSpared (S.facts source.new.tables.store) (string_bytes state.log.name)) }
    ensures fresh { IfOk result (λ state. IsFresh (open_db source.new.memory state)) }
    ensures named { IfOk result (λ state. string_bytes state.log.name ≡ name_of (Log state.log.number)) }
    ensures empty { IfOk result (λ state. state.log.end ≡ 0) }
    ensures loses_on { IsTrue (S.facts source.new.tables.store).faithful
        → LosesOn (order_of K.name K.cmp) (S.facts source.old.tables.store) (S.facts source.new.tables.store) }
    ensures renewed { IfOk result (λ state. IsTrue (S.facts source.new.tables.store).faithful
        → RenewsWhole (order_of K.name K.cmp) (S.facts source.old.tables.store) (S.facts source.new.tables.store) state.log state.directory) }
{
    // Laws, for the proof alone.
    empty_is_sound();
    source.tables.store.synced_law();
    source.tables.begin(alloc, options.cache_blocks())?;
    let begun = begin::<K, S>(alloc, &mut source.tables.store, mode)?;
    source.memory = begun.memory;
    Ok(DbState {
        version: begun.version,
        log: begun.log,
        directory: begun.directory,
        job: None,
        snapshots: BTreeMap::new(alloc),
        iterators: BTreeMap::new(alloc),
        broken: false,
        buffers: LogBuffers::new(alloc),
    })
}
