//! What an open database does beside its commands: the removal of files, flushes, and new logs
//! (LevelDB's db/db_impl.cc, DBImpl::RemoveObsoleteFiles, CompactMemTable and MakeRoomForWrite).

ghost use Rattle.std.specs.Prelude.{◌≡◌, ◌<◌, [], length, max, nat_eq, None, IsSome, false, if◌then◌else◌, IsTrue, IfErr, IfOk, Ok, OnErr, OnOk};
ghost use Rattle.engine.specs.internal.Pieces.{ClosesTables, refused_as};
ghost use Rattle.ikey.specs.Orders.{order_of};

use crate::log::names_behind;
use crate::options::Options;
use crate::state::DbState;
use cache::TableCache;
use coding::DbError;
use db_cursor::Sources;
use directory_writes::{FlushError, FlushPlan, Flushed, begin_log, flush_memory, remove_files};
use ikey::{KeyOrder, same_view};
use memtables::changes_are_kept;
use opening::CurrentLog;
use recover::one_directory;
use std::alloc::Global;
use store::Store;
use table_access::sound_lasts;
use versions::LiveNumbers;

/// Tells whether there was work to do.
#[derive(Clone, Copy, Debug, PartialEq, Eq)]
pub enum Progress {
    /// A piece of work was done.
    Worked,
    /// There was none.
    Idle,
}

impl<K: KeyOrder> DbState<K> {
    ghost use Rattle.engine.specs.declared.work.Progress.TheVariants.{Idle};
    ghost use Rattle.engine.specs.Causes.{IsCausedIn, open_status};
    ghost use Rattle.engine.specs.Stands.{no_ids};
    ghost use Rattle.machine.specs.Causes.{not_serving};
    ghost use Rattle.directory_writes.specs.internal.Removal.{RefusesList};
    ghost use Rattle.engine.specs.ExactFiles.{LeavesExactlyLive};
    ghost use Rattle.engine.specs.InUse.{HasUsedMemory};
    ghost use Rattle.engine.specs.Breaking.{BreaksLent};
    ghost use Rattle.engine.specs.internal.Stopping.{KeepsLent};
    ghost use Rattle.engine.specs.internal.Lent.{LeadsLent, ServesLent, OutcomeLent};
    ghost use Rattle.store.specs.Calls.{FailsNoWrite};
    ghost use Rattle.engine.specs.OpenDb.{open_db};
    ghost use Rattle.db_cursor.specs.Whole.{seen_of};
    ghost use Rattle.engine.specs.Outcomes.{IsSame, MayRefuseWork};
    ghost use Rattle.machine.specs.Upkeep.{Works};
    ghost use Rattle.engine.specs.WithinBudget.{EndsWithin};
    ghost use Rattle.engine.specs.WrittenTables.{FlushesSealed, PutsSealed};
    ghost use Rattle.directory_writes.specs.Removal.{IsDead};
    ghost use Rattle.store.specs.Stops.{WritesOnly};
    ghost use Rattle.engine.specs.Working.{DoesWork, HasLiveOnly, IsLiveIn, LosesDead};
    ghost use Rattle.engine.specs.internal.Pieces.{IsPiece, IsSameMemory, MayRefusePiece};
    ghost use Rattle.engine.specs.Working.{SealsMemory, WritesTable, work_answer};
    ghost use Rattle.engine.specs.internal.Pieces.{broken_by, flush_answer, settled_as, settled_by};

    /// Removes the obsolete files, and then does the first of these that there is to do. It merges
    /// up to `budget` entries of the compaction under way, one for 0. It writes the sealed memtable
    /// into a table file. It seals the memtable, if it has `write_buffer` bytes, and begins a log.
    /// It begins the compaction that is most wanted, and merges.
    pub fn work<S: Store>(
        &mut self,
        alloc: Global,
        source: &mut Sources<K, S>,
        options: &Options,
        budget: u32,
    ) -> Result<Progress, DbError>
        ensures step { LeadsLent (order_of K.name K.cmp) S.facts source.old self.old source.new self.new
            (λ m n. Works m budget (work_answer result) n) }
        ensures outcome { OutcomeLent MayRefuseWork S.facts source.old self.old source.new self.new result }
        ensures breaks { self.old.broken ≡ false → BreaksLent S.facts source.old source.new self.new result }
        ensures caused { IsCausedIn (not_serving (open_status no_ids (open_db source.old.memory self.old))) source.old.tables.store source.new.tables.store result }
        ensures does { DoesWork K.cmp options.now budget (open_db source.old.memory self.old) (open_db source.new.memory self.new) result }
        // While the store is faithful, a compaction is at its end exactly if no more entries were
        // left than the budget has.
        ensures within { EndsWithin (order_of K.name K.cmp) options.now budget (seen_of S.facts source.old)
            (seen_of S.facts source.new) (open_db source.old.memory self.old) (open_db source.new.memory self.new) result }
        // The table that it wrote of a sealed memtable has exactly that one's entries then.
        ensures flushes { FlushesSealed (order_of K.name K.cmp) (seen_of S.facts source.old)
            (seen_of S.facts source.new) (open_db source.old.memory self.old) (open_db source.new.memory self.new) result }
        // If there is none, all files are in use, unless one couldn't be removed.
        ensures tidy { result ≡ Ok Idle → IsTrue (S.facts source.new.tables.store).faithful
            → (S.facts source.new.tables.store).failures ≡ (S.facts source.old.tables.store).failures
            → HasLiveOnly (S.facts source.new.tables.store).files (open_db source.new.memory self.new) }
        // They are exactly those that a database without work needs then: of the logs the one that
        // writes go to.
        ensures exact { LeavesExactlyLive (order_of K.name K.cmp) (seen_of S.facts source.old) (seen_of S.facts source.new)
            (open_db source.old.memory self.old) (open_db source.new.memory self.new) result }
        // Nor is an obsolete memtable kept then.
        ensures dropped { result ≡ Ok Idle → HasUsedMemory source.new.memory self.new.iterators }
        // All files in use stay then, and those of other programs.
        ensures removes { result ≡ Ok Idle → IsTrue (S.facts source.new.tables.store).faithful
            → LosesDead (S.facts source.old.tables.store) (S.facts source.new.tables.store) (open_db source.new.memory self.new) }
        ensures lock { (S.facts source.new.tables.store).locked ≡ (S.facts source.old.tables.store).locked }
        ensures stops { KeepsLent (order_of K.name K.cmp) S.facts source.old self.old source.new }
    {
        if self.broken {
            return Err(DbError::Broken);
        }
        let complete = self.clean(alloc, source)?;
        match self.do_piece(alloc, source, options, budget) {
            Ok(progress) => Ok(progress),
            Err(error) => Err(refusal(complete, error)),
        }
    }

    /// Removes the obsolete files, and forgets what is kept of them. A file that can't be removed
    /// is left for the next time. Returns whether all were removed.
    pub fn clean<S: Store>(
        &self,
        alloc: Global,
        source: &mut Sources<K, S>,
    ) -> Result<bool, DbError>
        requires whole { self.now.broken ≡ false }
        ensures step { LeadsLent (order_of K.name K.cmp) S.facts source.old self.now source.new self.now (λ m n. IsPiece m 0 result n) }
        ensures outcome { OutcomeLent MayRefusePiece S.facts source.old self.now source.new self.now result }
        ensures fails { FailsNoWrite (S.facts source.old.tables.store) (S.facts source.new.tables.store) }
        ensures same { IsSame (open_db source.old.memory self.now) (open_db source.new.memory self.now) }
        ensures memory { IsSameMemory source.old.memory source.new.memory }
        ensures refused { IfErr result (λ e. RefusesList e (S.facts source.old.tables.store) (S.facts source.new.tables.store)) }
        ensures unlisted { IsTrue (S.facts source.new.tables.store).faithful
            → OnErr result ((S.facts source.new.tables.store).files ≡ (S.facts source.old.tables.store).files) }
        ensures dropped { OnOk result (HasUsedMemory source.new.memory self.now.iterators) }
        ensures blocks { source.new.tables.blocks ≡ source.old.tables.blocks }
        ensures complete { IfOk result (λ complete. IsTrue complete
            → (S.facts source.new.tables.store).failures ≡ (S.facts source.old.tables.store).failures) }
        ensures unfailed { IfOk result (λ complete. (S.facts source.new.tables.store).failures ≡
            (S.facts source.old.tables.store).failures → IsTrue complete) }
        ensures tidy { IsTrue (S.facts source.new.tables.store).faithful
            → IfOk result (λ complete. IsTrue complete
            → HasLiveOnly (S.facts source.new.tables.store).files (open_db source.new.memory self.now)) }
        ensures removes { IsTrue (S.facts source.new.tables.store).faithful
            → LosesDead (S.facts source.old.tables.store) (S.facts source.new.tables.store) (open_db source.new.memory self.now) }
        ensures only { IsTrue (S.facts source.new.tables.store).faithful
            → WritesOnly (S.facts source.old.tables.store) (S.facts source.new.tables.store)
            (IsDead (IsLiveIn (S.facts source.old.tables.store).files (open_db source.old.memory self.now))) }
        ensures lock { (S.facts source.new.tables.store).locked ≡ (S.facts source.old.tables.store).locked }
        ensures stops { KeepsLent (order_of K.name K.cmp) S.facts source.old self.now source.new }
    {
        // Laws, for the proof alone.
        sound_lasts();
        changes_are_kept::<K>();
        one_directory();
        let numbers = LiveNumbers {
            manifest_number: self.directory.manifest.number,
            log_number: self.directory.first_log,
            previous_log_number: self.directory.previous_log,
        };
        let removal = remove_files(alloc, &mut source.tables.store, &numbers, self)?;
        close_tables(&mut source.tables.tables, &removal.tables);
        source.memory.drop_unused(self);
        Ok(removal.complete)
    }

    // Does the first piece of work that there is to do.
    fn do_piece<S: Store>(
        &mut self,
        alloc: Global,
        source: &mut Sources<K, S>,
        options: &Options,
        budget: u32,
    ) -> Result<Progress, DbError>
        requires whole { self.old.broken ≡ false }
        ensures step { LeadsLent (order_of K.name K.cmp) S.facts source.old self.old source.new self.new
            (λ m n. IsPiece m (max budget 1) result n) }
        ensures outcome { OutcomeLent MayRefusePiece S.facts source.old self.old source.new self.new result }
        ensures breaks { BreaksLent S.facts source.old source.new self.new result }
        ensures does { DoesWork K.cmp options.now budget (open_db source.old.memory self.old) (open_db source.new.memory self.new) result }
        ensures within { EndsWithin (order_of K.name K.cmp) options.now budget (seen_of S.facts source.old)
            (seen_of S.facts source.new) (open_db source.old.memory self.old) (open_db source.new.memory self.new) result }
        ensures flushes { FlushesSealed (order_of K.name K.cmp) (seen_of S.facts source.old)
            (seen_of S.facts source.new) (open_db source.old.memory self.old) (open_db source.new.memory self.new) result }
        ensures idle { result ≡ Ok Idle → (source.new ≡ source.old) × (self.new ≡ self.old) }
        ensures lock { (S.facts source.new.tables.store).locked ≡ (S.facts source.old.tables.store).locked }
        ensures stops { KeepsLent (order_of K.name K.cmp) S.facts source.old self.old source.new }
    {
        if self.job.is_some() {
            self.step_job(alloc, source, budget)?;
            return Ok(Progress::Worked);
        }
        self.do_unless_compacting(alloc, source, options, budget)
    }

    // Does the first piece of work that there is to do if no compaction is under way.
    fn do_unless_compacting<S: Store>(
        &mut self,
        alloc: Global,
        source: &mut Sources<K, S>,
        options: &Options,
        budget: u32,
    ) -> Result<Progress, DbError>
        requires whole { self.old.broken ≡ false }
        requires idle { self.old.job ≡ None }
        ensures step { LeadsLent (order_of K.name K.cmp) S.facts source.old self.old source.new self.new
            (λ m n. IsPiece m (max budget 1) result n) }
        ensures outcome { OutcomeLent MayRefusePiece S.facts source.old self.old source.new self.new result }
        ensures breaks { BreaksLent S.facts source.old source.new self.new result }
        ensures does { DoesWork K.cmp options.now budget (open_db source.old.memory self.old) (open_db source.new.memory self.new) result }
        ensures within { EndsWithin (order_of K.name K.cmp) options.now budget (seen_of S.facts source.old)
            (seen_of S.facts source.new) (open_db source.old.memory self.old) (open_db source.new.memory self.new) result }
        ensures flushes { FlushesSealed (order_of K.name K.cmp) (seen_of S.facts source.old)
            (seen_of S.facts source.new) (open_db source.old.memory self.old) (open_db source.new.memory self.new) result }
        ensures idle { result ≡ Ok Idle → (source.new ≡ source.old) × (self.new ≡ self.old) }
        ensures lock { (S.facts source.new.tables.store).locked ≡ (S.facts source.old.tables.store).locked }
        ensures stops { KeepsLent (order_of K.name K.cmp) S.facts source.old self.old source.new }
    {
        if source.memory.sealed_generation().is_some() {
            self.flush(alloc, source, options)?;
            return Ok(Progress::Worked);
        }
        if (source.memory.size() as u64) < options.write_buffer() {
            return self.compact(alloc, source, options, budget);
        }
        self.seal(alloc, source)?;
        Ok(Progress::Worked)
    }

    /// Writes the sealed memtable into a table file. An empty one needs none. If a write of the
    /// store fails, the database breaks.
    pub fn flush<S: Store>(
        &mut self,
        alloc: Global,
        source: &mut Sources<K, S>,
        options: &Options,
    ) -> Result<(), DbError>
        requires whole { self.old.broken ≡ false }
        requires idle { self.old.job ≡ None }
        requires sealed { IsSome source.old.memory.sealed }
        ensures step { LeadsLent (order_of K.name K.cmp) S.facts source.old self.old source.new self.new (λ m n. IsPiece m 1 result n) }
        ensures outcome { OutcomeLent MayRefusePiece S.facts source.old self.old source.new self.new result }
        ensures breaks { BreaksLent S.facts source.old source.new self.new result }
        ensures does { OnOk result (WritesTable (open_db source.old.memory self.old) (open_db source.new.memory self.new)) }
        ensures puts { OnOk result (PutsSealed (order_of K.name K.cmp) (seen_of S.facts source.old) (seen_of S.facts source.new)
            (open_db source.old.memory self.old) (open_db source.new.memory self.new)) }
        ensures serves { OnOk result (ServesLent S.facts source.old self.old source.new self.new) }
        ensures lock { (S.facts source.new.tables.store).locked ≡ (S.facts source.old.tables.store).locked }
        ensures stops { KeepsLent (order_of K.name K.cmp) S.facts source.old self.old source.new }
    {
        // Laws, for the proof alone.
        sound_lasts();
        changes_are_kept::<K>();
        one_directory();
        same_view();
        source.memory.are_bounded();
        let last_sequence = source.memory.last();
        let Some(table) = source.memory.sealed() else {
            unreachable!()
        };
        if table.is_empty() {
            source.memory.flushed();
            return Ok(());
        }
        let failed = source.tables.store.write_failures();
        let plan = FlushPlan {
            log_number: self.log.number,
            previous_log_number: self.directory.previous_log,
            last_sequence,
            block_bytes: options.block_bytes(),
        };
        match flush_memory(
            alloc,
            &mut source.tables.store,
            table,
            &self.version,
            &self.directory.manifest,
            &mut self.directory.numbers,
            plan,
        ) {
            Ok(flushed) => {
                self.take_flushed(flushed);
                source.memory.flushed();
                Ok(())
            }
            Err(error) => Err(self.flush_refusal(&source.tables.store, failed, error)),
        }
    }

    /// Seals the memtable, and begins a log for what is written from now on. If a write of the
    /// store fails, the database breaks.
    pub fn seal<S: Store>(
        &mut self,
        alloc: Global,
        source: &mut Sources<K, S>,
    ) -> Result<(), DbError>
        requires whole { self.old.broken ≡ false }
        requires idle { self.old.job ≡ None }
        requires unsealed { source.old.memory.sealed ≡ None }
        requires filled { 0 < length source.old.memory.current.inserts }
        ensures step { LeadsLent (order_of K.name K.cmp) S.facts source.old self.old source.new self.new (λ m n. IsPiece m 1 result n) }
        ensures outcome { OutcomeLent MayRefusePiece S.facts source.old self.old source.new self.new result }
        ensures breaks { BreaksLent S.facts source.old source.new self.new result }
        ensures does { OnOk result (SealsMemory (open_db source.old.memory self.old) (open_db source.new.memory self.new)) }
        ensures serves { OnOk result (ServesLent S.facts source.old self.old source.new self.new) }
        ensures lock { (S.facts source.new.tables.store).locked ≡ (S.facts source.old.tables.store).locked }
        ensures stops { KeepsLent (order_of K.name K.cmp) S.facts source.old self.old source.new }
    {
        // Laws, for the proof alone.
        sound_lasts();
        changes_are_kept::<K>();
        one_directory();
        same_view();
        let front = names_behind(alloc, &self.log)?;
        source.memory.seal(alloc)?;
        match begin_log(alloc, &mut source.tables.store, &mut self.directory.numbers) {
            Ok((number, name)) => {
                self.log = CurrentLog {
                    number,
                    name,
                    end: 0,
                    front,
                };
                Ok(())
            }
            Err(error) => {
                source.memory.unseal();
                Err(self.refuse(error))
            }
        }
    }

    // What is new after a flush. The logs before the current one aren't read any more, so none of
    // them has to be synced.
    fn take_flushed(&mut self, flushed: Flushed<K>)
        ensures state { self.new ≡ record
            self.old {
              version = flushed.version;
              log = record self.old.log { front = self.new.log.front };
              directory = record
                  self.old.directory {
                    manifest = record self.old.directory.manifest { end = flushed.manifest_end };
                    first_log =
                        self.old.log.number;
                    previous_log = 0;
                  };
            } }
        ensures front { self.new.log.front.items ≡ [] }
    {
        self.version = flushed.version;
        self.directory.manifest.end = flushed.manifest_end;
        self.directory.first_log = self.log.number;
        self.directory.previous_log = 0;
        let log = &mut self.log;
        log.front.clear();
    }

    // How a flush that didn't come about is answered, as below.
    pub(crate) fn flush_refusal<S: Store>(
        &mut self,
        store: &S,
        failed: u64,
        error: FlushError,
    ) -> DbError
        ensures answer { result ≡ settled_as (nat_eq (S.facts store.now).write_failures failed) (flush_answer error) }
        ensures state { self.new ≡ settled_by (nat_eq (S.facts store.now).write_failures failed) self.old }
    {
        match error {
            FlushError::Before(error) => self.refuse_since(store, failed, error),
            FlushError::Edit => self.refuse_since(store, failed, DbError::Io),
        }
    }

    // How an error is answered; before the call so many writes of the store had failed. If one has
    // failed since, the answer is Io, and the database is broken.
    pub(crate) fn refuse_since<S: Store>(
        &mut self,
        store: &S,
        failed: u64,
        error: DbError,
    ) -> DbError
        ensures answer { result ≡ settled_as (nat_eq (S.facts store.now).write_failures failed) error }
        ensures state { self.new ≡ settled_by (nat_eq (S.facts store.now).write_failures failed) self.old }
    {
        if store.write_failures() == failed {
            return error;
        }
        self.broken = true;
        DbError::Io
    }

    // If the store failed in a call that only writes, the database is broken.
    fn refuse(&mut self, error: DbError) -> DbError
        ensures answer { result ≡ error }
        ensures broken { self.new ≡ broken_by self.old error }
    {
        match error {
            DbError::Io => {
                self.broken = true;
                DbError::Io
            }
            other => other,
        }
    }
}

// How the error of a piece is answered. Out of memory becomes a failure of the store if a file
// couldn't be removed either.
fn refusal(complete: bool, error: DbError) -> DbError
    ensures { result ≡ refused_as complete error }
{
    match error {
        DbError::OutOfMemory if !complete => DbError::Io,
        other => other,
    }
}

// Closes the tables of these numbers.
fn close_tables<K: KeyOrder>(tables: &mut TableCache<K>, numbers: &[u64])
    ensures { ClosesTables tables.old.tables tables.new.tables numbers.now }
{
    for number in numbers {
        tables.evict(*number);
    }
}
