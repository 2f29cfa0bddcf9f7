//! Compactions of a whole level, or of all tables, in one call (LevelDB's db/db_impl.cc,
//! DBImpl::CompactRange and DBImpl::TEST_CompactRange).

ghost use Rattle.std.specs.Prelude.{◌≡◌, ◌<◌, None, Some, IsSome, false, MatchOption, OnOk};
ghost use Rattle.ikey.specs.Orders.{order_of};

use crate::options::Options;
use crate::state::DbState;
use coding::DbError;
use db_cursor::Sources;
use edits::LEVELS;
use ikey::KeyOrder;
use std::alloc::Global;
use store::Store;
use versions::{JobPlan, plans_of_tables};

impl<K: KeyOrder> DbState<K> {
    ghost use Rattle.engine.specs.Causes.{IsCausedIn, open_status};
    ghost use Rattle.engine.specs.Stands.{no_ids};
    ghost use Rattle.machine.specs.Causes.{level_cause, not_serving};
    ghost use Rattle.engine.specs.internal.JobsToEnd.{EndsJob};
    ghost use Rattle.engine.specs.Finishing.{HasNoMemory, IsAllCompacted, IsLevelEmpty, MovesLevel};
    ghost use Rattle.engine.specs.internal.TakingAll.{EndsNeeded, IsTakingAll};
    ghost use Rattle.engine.specs.Needed.{LeavesNeeded};
    ghost use Rattle.engine.specs.Outcomes.{MayRefuseLevel, MayRefuseWork};
    ghost use Rattle.engine.specs.Follows.{unit_answer};
    ghost use Rattle.engine.specs.Breaking.{BreaksLent};
    ghost use Rattle.engine.specs.internal.Stopping.{KeepsLent};
    ghost use Rattle.engine.specs.internal.Lent.{LeadsLent, ServesLent, CompactLent};
    ghost use Rattle.engine.specs.OpenDb.{open_db};
    ghost use Rattle.db_cursor.specs.Whole.{seen_of};
    ghost use Rattle.machine.specs.Upkeep.{CompactsAll, CompactsLevel, most_drawn};
    ghost use Rattle.engine.specs.internal.Pieces.{IsPiece, MayRefusePiece};
    ghost use Rattle.engine.specs.WrittenTables.{MergesLevel, MergesPlan, PutsMerged};
    ghost use Rattle.memtables.specs.Places.{LeavesMemories};
    ghost use Rattle.directory_writes.specs.Replacing.{ReplacesInputs};
    ghost use Rattle.versions.specs.Plans.{IsPlanOf, IsWholePlan};

    /// Ends the compaction under way, and then compacts all tables of a level into the next one,
    /// with the tables there whose keys overlap theirs. It moves no compact pointer, and removes no
    /// file, so that it needs no memory to list them. BadLevel: the level isn't one of 0 to 5.
    pub fn compact_level<S: Store>(
        &mut self,
        alloc: Global,
        source: &mut Sources<K, S>,
        options: &Options,
        level: u32,
    ) -> Result<(), DbError>
        ensures step { LeadsLent (order_of K.name K.cmp) S.facts source.old self.old source.new self.new
            (λ m n. CompactsLevel m level (unit_answer result) n) }
        ensures outcome { CompactLent MayRefuseLevel S.facts source.old self.old source.new self.new result }
        ensures breaks { self.old.broken ≡ false → BreaksLent S.facts source.old source.new self.new result }
        ensures caused { IsCausedIn (level_cause
            (open_status no_ids (open_db source.old.memory self.old)) level) source.old.tables.store source.new.tables.store result }
        // Whether it succeeds or fails, over any store: no entry of a memtable is touched.
        ensures memory { LeavesMemories source.old.memory source.new.memory }
        ensures emptied { OnOk result (IsLevelEmpty level (open_db source.new.memory self.new)) }
        ensures moves { OnOk result (MovesLevel K.cmp level (open_db source.old.memory self.old) (open_db source.new.memory self.new)) }
        // While the store is faithful, each entry that must be kept is in what its tables have
        // become, and no other.
        ensures merges { OnOk result (MergesLevel (order_of K.name K.cmp) level (seen_of S.facts source.old) (seen_of S.facts source.new)
            (open_db source.old.memory self.old) (open_db source.new.memory self.new)) }
        ensures stops { KeepsLent (order_of K.name K.cmp) S.facts source.old self.old source.new }
    {
        if self.broken {
            return Err(DbError::Broken);
        }
        if level >= LEVELS - 1 {
            return Err(DbError::BadLevel);
        }
        self.compact_tables_of(alloc, source, options, level)
    }

    /// Ends the compaction under way, writes what is in memory into tables, and then compacts all
    /// tables into the last level. It moves no compact pointer, and removes no file.
    pub fn compact_all<S: Store>(
        &mut self,
        alloc: Global,
        source: &mut Sources<K, S>,
        options: &Options,
    ) -> Result<(), DbError>
        ensures step { LeadsLent (order_of K.name K.cmp) S.facts source.old self.old source.new self.new
            (λ m n. CompactsAll m (unit_answer result) n) }
        ensures outcome { CompactLent MayRefuseWork S.facts source.old self.old source.new self.new result }
        ensures breaks { self.old.broken ≡ false → BreaksLent S.facts source.old source.new self.new result }
        ensures caused { IsCausedIn (not_serving (open_status no_ids (open_db source.old.memory self.old))) source.old.tables.store source.new.tables.store result }
        ensures compacted { OnOk result (IsAllCompacted (open_db source.new.memory self.new)) }
        // While the store is faithful, each entry of the tables is one that must be kept.
        ensures needed { OnOk result (LeavesNeeded (order_of K.name K.cmp) (seen_of S.facts source.old) (seen_of S.facts source.new)
            (open_db source.old.memory self.old) (open_db source.new.memory self.new)) }
        ensures stops { KeepsLent (order_of K.name K.cmp) S.facts source.old self.old source.new }
    {
        if self.broken {
            return Err(DbError::Broken);
        }
        self.compact_everything(alloc, source, options)
    }

    // Compacts all tables of a level once the compaction under way is at its end.
    fn compact_tables_of<S: Store>(
        &mut self,
        alloc: Global,
        source: &mut Sources<K, S>,
        options: &Options,
        level: u32,
    ) -> Result<(), DbError>
        requires whole { self.old.broken ≡ false }
        requires level { level < 6 }
        ensures step { LeadsLent (order_of K.name K.cmp) S.facts source.old self.old source.new self.new
            (λ m n. IsPiece m (most_drawn m) result n) }
        ensures outcome { CompactLent MayRefusePiece S.facts source.old self.old source.new self.new result }
        ensures breaks { BreaksLent S.facts source.old source.new self.new result }
        ensures memory { LeavesMemories source.old.memory source.new.memory }
        ensures emptied { OnOk result (IsLevelEmpty level (open_db source.new.memory self.new)) }
        ensures moves { OnOk result (MovesLevel K.cmp level (open_db source.old.memory self.old) (open_db source.new.memory self.new)) }
        ensures merges { OnOk result (MergesLevel (order_of K.name K.cmp) level (seen_of S.facts source.old) (seen_of S.facts source.new)
            (open_db source.old.memory self.old) (open_db source.new.memory self.new)) }
        ensures stops { KeepsLent (order_of K.name K.cmp) S.facts source.old self.old source.new }
    {
        // Laws, for the proof alone.
        plans_of_tables();
        self.run_job_to_end(alloc, source)?;
        let Some(plan) = self.version.plan_level(alloc, level)? else {
            return Ok(());
        };
        self.run_job(alloc, source, options, plan)
    }

    // Compacts all that the database has into the last level.
    fn compact_everything<S: Store>(
        &mut self,
        alloc: Global,
        source: &mut Sources<K, S>,
        options: &Options,
    ) -> Result<(), DbError>
        requires whole { self.old.broken ≡ false }
        ensures step { LeadsLent (order_of K.name K.cmp) S.facts source.old self.old source.new self.new
            (λ m n. IsPiece m (most_drawn m) result n) }
        ensures outcome { CompactLent MayRefusePiece S.facts source.old self.old source.new self.new result }
        ensures breaks { BreaksLent S.facts source.old source.new self.new result }
        ensures compacted { OnOk result (IsAllCompacted (open_db source.new.memory self.new)) }
        ensures needed { OnOk result (EndsNeeded (order_of K.name K.cmp) (seen_of S.facts source.old) (seen_of S.facts source.new)
            (open_db source.old.memory self.old) (open_db source.new.memory self.new)) }
        ensures stops { KeepsLent (order_of K.name K.cmp) S.facts source.old self.old source.new }
    {
        // Laws, for the proof alone.
        plans_of_tables();
        self.run_job_to_end(alloc, source)?;
        self.write_memory(alloc, source, options)?;
        let Some(plan) = self.version.plan_all(alloc)? else {
            return Ok(());
        };
        self.run_job(alloc, source, options, plan)
    }

    // Writes what is in memory into tables: what is sealed, and what isn't.
    fn write_memory<S: Store>(
        &mut self,
        alloc: Global,
        source: &mut Sources<K, S>,
        options: &Options,
    ) -> Result<(), DbError>
        requires whole { self.old.broken ≡ false }
        requires none { self.old.job ≡ None }
        ensures step { LeadsLent (order_of K.name K.cmp) S.facts source.old self.old source.new self.new (λ m n. IsPiece m 3 result n) }
        ensures outcome { CompactLent MayRefusePiece S.facts source.old self.old source.new self.new result }
        ensures breaks { BreaksLent S.facts source.old source.new self.new result }
        ensures serves { OnOk result (ServesLent S.facts source.old self.old source.new self.new) }
        ensures none { OnOk result (self.new.job ≡ None) }
        ensures written { OnOk result (HasNoMemory (open_db source.new.memory self.new)) }
        ensures stops { KeepsLent (order_of K.name K.cmp) S.facts source.old self.old source.new }
    {
        self.write_sealed(alloc, source, options)?;
        if source.memory.is_empty() {
            return Ok(());
        }
        self.seal(alloc, source)?;
        self.flush(alloc, source, options)
    }

    // Writes the sealed memtable, if there is one, into a table.
    fn write_sealed<S: Store>(
        &mut self,
        alloc: Global,
        source: &mut Sources<K, S>,
        options: &Options,
    ) -> Result<(), DbError>
        requires whole { self.old.broken ≡ false }
        requires none { self.old.job ≡ None }
        ensures step { LeadsLent (order_of K.name K.cmp) S.facts source.old self.old source.new self.new (λ m n. IsPiece m 1 result n) }
        ensures outcome { CompactLent MayRefusePiece S.facts source.old self.old source.new self.new result }
        ensures breaks { BreaksLent S.facts source.old source.new self.new result }
        ensures serves { OnOk result (ServesLent S.facts source.old self.old source.new self.new) }
        ensures none { OnOk result (self.new.job ≡ None) }
        ensures written { OnOk result (source.new.memory.sealed ≡ None) }
        ensures stops { KeepsLent (order_of K.name K.cmp) S.facts source.old self.old source.new }
    {
        if source.memory.sealed_generation().is_none() {
            return Ok(());
        }
        self.flush(alloc, source, options)
    }

    // Runs the job of a plan from its beginning to its end.
    fn run_job<S: Store>(
        &mut self,
        alloc: Global,
        source: &mut Sources<K, S>,
        options: &Options,
        plan: JobPlan,
    ) -> Result<(), DbError>
        requires whole { self.old.broken ≡ false }
        requires none { self.old.job ≡ None }
        requires plan { IsPlanOf K.cmp self.old.version.value.tables plan }
        ensures step { LeadsLent (order_of K.name K.cmp) S.facts source.old self.old source.new self.new (λ m n. EndsJob m result n) }
        ensures outcome { CompactLent MayRefusePiece S.facts source.old self.old source.new self.new result }
        ensures breaks { BreaksLent S.facts source.old source.new self.new result }
        ensures memory { LeavesMemories source.old.memory source.new.memory }
        ensures none { OnOk result (self.new.job ≡ None) }
        ensures done { OnOk result (ReplacesInputs plan self.old.version.value.tables self.new.version.value.tables) }
        ensures needed { OnOk result (IsWholePlan self.old.version.value.tables plan
            → EndsNeeded (order_of K.name K.cmp) (seen_of S.facts source.old) (seen_of S.facts source.new)
            (open_db source.old.memory self.old) (open_db source.new.memory self.new)) }
        ensures merges { OnOk result (MergesPlan (order_of K.name K.cmp) plan (seen_of S.facts source.old) (seen_of S.facts source.new)
            (open_db source.old.memory self.old) (open_db source.new.memory self.new)) }
        ensures stops { KeepsLent (order_of K.name K.cmp) S.facts source.old self.old source.new }
    {
        self.begin_job(alloc, source, options, plan)?;
        self.run_job_to_end(alloc, source)
    }

    // Brings the compaction under way to its end, if there is one.
    fn run_job_to_end<S: Store>(
        &mut self,
        alloc: Global,
        source: &mut Sources<K, S>,
    ) -> Result<(), DbError>
        requires whole { self.old.broken ≡ false }
        ensures step { LeadsLent (order_of K.name K.cmp) S.facts source.old self.old source.new self.new (λ m n. EndsJob m result n) }
        ensures outcome { CompactLent MayRefusePiece S.facts source.old self.old source.new self.new result }
        ensures breaks { BreaksLent S.facts source.old source.new self.new result }
        ensures serves { OnOk result (ServesLent S.facts source.old self.old source.new self.new) }
        ensures memory { LeavesMemories source.old.memory source.new.memory }
        ensures none { OnOk result (self.new.job ≡ None) }
        ensures done { OnOk result (MatchOption self.old.job (Unit {0})
            (λ work. ReplacesInputs work.job.plan self.old.version.value.tables self.new.version.value.tables)) }
        ensures stays { OnOk result (self.old.job ≡ None → self.new.version.value.tables ≡ self.old.version.value.tables) }
        ensures needed { OnOk result (IsTakingAll (open_db source.old.memory self.old)
            → EndsNeeded (order_of K.name K.cmp) (seen_of S.facts source.old) (seen_of S.facts source.new)
            (open_db source.old.memory self.old) (open_db source.new.memory self.new)) }
        ensures merges { OnOk result (IsSome self.old.job → PutsMerged (order_of K.name K.cmp) (seen_of S.facts source.old)
            (seen_of S.facts source.new) (open_db source.old.memory self.old) (open_db source.new.memory self.new)) }
        ensures stops { KeepsLent (order_of K.name K.cmp) S.facts source.old self.old source.new }
    {
        if self.job.is_none() {
            return Ok(());
        }
        self.take_steps(alloc, source)
    }

    // Goes on with the compaction under way until it is at its end.
    fn take_steps<S: Store>(
        &mut self,
        alloc: Global,
        source: &mut Sources<K, S>,
    ) -> Result<(), DbError>
        requires whole { self.old.broken ≡ false }
        requires job { IsSome self.old.job }
        ensures step { LeadsLent (order_of K.name K.cmp) S.facts source.old self.old source.new self.new (λ m n. EndsJob m result n) }
        ensures outcome { CompactLent MayRefusePiece S.facts source.old self.old source.new self.new result }
        ensures breaks { BreaksLent S.facts source.old source.new self.new result }
        ensures serves { OnOk result (ServesLent S.facts source.old self.old source.new self.new) }
        ensures memory { LeavesMemories source.old.memory source.new.memory }
        ensures none { OnOk result (self.new.job ≡ None) }
        ensures done { OnOk result (MatchOption self.old.job (Unit {0})
            (λ work. ReplacesInputs work.job.plan self.old.version.value.tables self.new.version.value.tables)) }
        ensures needed { OnOk result (IsTakingAll (open_db source.old.memory self.old)
            → EndsNeeded (order_of K.name K.cmp) (seen_of S.facts source.old) (seen_of S.facts source.new)
            (open_db source.old.memory self.old) (open_db source.new.memory self.new)) }
        ensures merges { OnOk result (PutsMerged (order_of K.name K.cmp) (seen_of S.facts source.old)
            (seen_of S.facts source.new) (open_db source.old.memory self.old) (open_db source.new.memory self.new)) }
        ensures stops { KeepsLent (order_of K.name K.cmp) S.facts source.old self.old source.new }
    {
        // A loop without a measure: at most as many turns as 64 bits count, and then out of memory.
        // No run reaches that.
        for _ in 0..u64::MAX {
            if self.step_job(alloc, source, 1)? {
                return Ok(());
            }
        }
        Err(DbError::OutOfMemory)
    }
}
