//! Compactions in steps: the one that is most wanted is begun, and goes on by so many entries a
//! call (LevelDB's db/db_impl.cc, DBImpl::BackgroundCompaction).

ghost use Rattle.std.specs.Prelude.{◌≡◌, ◌∷◌, ℕ, max, None, Some, IsSome, IsTrue};
ghost use Rattle.std.specs.Prelude.{false, true, Contains, MatchBool, MatchOption, IfOk, Ok, OnOk};
ghost use Rattle.std.specs.List.Sorted.{IsNonDecreasing};
ghost use Rattle.std.specs.Map.{values_of};
ghost use Rattle.ikey.specs.Orders.{order_of};
ghost use Rattle.engine.specs.Reads.{kept_at};

use crate::options::Options;
use crate::state::DbState;
use crate::work::Progress;
use coding::DbError;
use db_cursor::Sources;
use directory_writes::Installed;
use ikey::KeyOrder;
use recover::one_directory;
use running_job::OpenJob;
use std::alloc::{AllocError, Global};
use store::Store;
use table_access::sound_lasts;
use versions::{JobPlan, plans_of_tables};

impl<K: KeyOrder> DbState<K> {
    ghost use Rattle.engine.specs.Breaking.{BreaksLent};
    ghost use Rattle.engine.specs.internal.Stopping.{KeepsLent};
    ghost use Rattle.engine.specs.internal.Lent.{LeadsLent, ServesLent, OutcomeLent};
    ghost use Rattle.store.specs.Calls.{FailsNoWrite, KeepsCalls, KeepsSynced};
    ghost use Rattle.engine.specs.OpenDb.{open_db};
    ghost use Rattle.db_cursor.specs.Whole.{seen_of};
    ghost use Rattle.engine.specs.Outcomes.{IsSame};
    ghost use Rattle.engine.specs.declared.work.Progress.TheVariants.{Worked, Idle};
    ghost use Rattle.engine.specs.internal.JobsToEnd.{HasCome};
    ghost use Rattle.engine.specs.internal.TakingAll.{EndsNeeded, IsTakingAll};
    ghost use Rattle.engine.specs.Needed.{IsForLive};
    ghost use Rattle.engine.specs.WithinBudget.{HasLeftBy, StepsBy};
    ghost use Rattle.engine.specs.WrittenTables.{KeepsTableFiles, PutsMerged};
    ghost use Rattle.engine.specs.Working.{BeginsJob, GoesOn, WantsCompaction};
    ghost use Rattle.engine.specs.internal.Pieces.{IsPiece, MayRefusePiece};
    ghost use Rattle.memtables.specs.Places.{LeavesMemories};
    ghost use Rattle.versions.specs.Plans.{IsPlanOf, IsWholePlan};

    /// Begins the compaction that is most wanted, and merges up to `budget` entries of it. Idle if
    /// none is wanted.
    pub fn compact<S: Store>(
        &mut self,
        alloc: Global,
        source: &mut Sources<K, S>,
        options: &Options,
        budget: u32,
    ) -> Result<Progress, DbError>
        requires whole { self.old.broken ≡ false }
        requires none { self.old.job ≡ None }
        ensures step { LeadsLent (order_of K.name K.cmp) S.facts source.old self.old source.new self.new
            (λ m n. IsPiece m (max budget 1) result n) }
        ensures outcome { OutcomeLent MayRefusePiece S.facts source.old self.old source.new self.new result }
        ensures breaks { BreaksLent S.facts source.old source.new self.new result }
        ensures begins { result ≡ Ok Worked → BeginsJob K.cmp options.now budget (open_db source.old.memory self.old)
            (open_db source.new.memory self.new) }
        ensures unwanted { result ≡ Ok Idle → (level : ℕ) → WantsCompaction options.now (open_db source.old.memory self.old) level → ⊥ }
        ensures few { result ≡ Ok Worked → IsTrue (S.facts source.new.tables.store).faithful
            → StepsBy (order_of K.name K.cmp) options.now (seen_of S.facts source.old) (seen_of S.facts source.new)
            (open_db source.old.memory self.old) (open_db source.new.memory self.new) (max budget 1) }
        ensures idle { result ≡ Ok Idle → (source.new ≡ source.old) × (self.new ≡ self.old) }
        ensures lock { (S.facts source.new.tables.store).locked ≡ (S.facts source.old.tables.store).locked }
        ensures stops { KeepsLent (order_of K.name K.cmp) S.facts source.old self.old source.new }
    {
        // Laws, for the proof alone.
        sound_lasts();
        plans_of_tables();
        let Some(plan) = self
            .version
            .pick(alloc, options.level0_files(), options.base_bytes())?
        else {
            return Ok(Progress::Idle);
        };
        self.begin_job(alloc, source, options, plan)?;
        self.step_job(alloc, source, budget)?;
        Ok(Progress::Worked)
    }

    /// Begins the job of a plan for the tables of the version.
    pub fn begin_job<S: Store>(
        &mut self,
        alloc: Global,
        source: &mut Sources<K, S>,
        options: &Options,
        plan: JobPlan,
    ) -> Result<(), DbError>
        requires whole { self.old.broken ≡ false }
        requires none { self.old.job ≡ None }
        requires plan { IsPlanOf K.cmp self.old.version.value.tables plan }
        ensures step { LeadsLent (order_of K.name K.cmp) S.facts source.old self.old source.new self.new (λ m n. IsPiece m 0 result n) }
        ensures outcome { OutcomeLent MayRefusePiece S.facts source.old self.old source.new self.new result }
        ensures fails { FailsNoWrite (S.facts source.old.tables.store) (S.facts source.new.tables.store) }
        ensures begun { OnOk result (IsSome self.new.job) }
        ensures none { OnOk result (MatchOption self.new.job ⊥ (λ work. (work.merged ≡ 0) × (work.job.plan ≡ plan))) }
        ensures live { OnOk result (MatchOption self.new.job ⊥ (λ work. IsForLive work (open_db source.old.memory self.old))) }
        ensures all { OnOk result (IsWholePlan self.old.version.value.tables plan → IsTakingAll (open_db source.new.memory self.new)) }
        ensures files { IsTrue (S.facts source.new.tables.store).faithful
            → (S.facts source.new.tables.store).files ≡ (S.facts source.old.tables.store).files }
        ensures stood { OnOk result ((S.facts source.new.tables.store).failures ≡ (S.facts source.old.tables.store).failures) }
        ensures memory { LeavesMemories source.old.memory source.new.memory }
        ensures same { IsSame (open_db source.old.memory self.old) (open_db source.new.memory self.new) }
        ensures whole { self.new.broken ≡ false }
        ensures lock { (S.facts source.new.tables.store).locked ≡ (S.facts source.old.tables.store).locked }
        ensures calls { KeepsCalls (S.facts source.old.tables.store) (S.facts source.new.tables.store) }
        ensures synced { KeepsSynced (S.facts source.old.tables.store) (S.facts source.new.tables.store) }
    {
        // Laws, for the proof alone.
        sound_lasts();
        let snapshots = self.sequences(alloc, source.memory.last())?;
        let job = OpenJob::begin(
            alloc,
            source,
            &self.version,
            plan,
            &snapshots,
            options.block_bytes(),
            options.file_bytes(),
        )?;
        self.job = Some(job);
        Ok(())
    }

    /// Merges up to `budget` entries of the compaction under way (one for 0), and ends it with the
    /// last one. Returns whether it ended. If it fails it is given up, and its inputs stay. The
    /// database breaks if a write of the store failed, but not if only a read did.
    pub fn step_job<S: Store>(
        &mut self,
        alloc: Global,
        source: &mut Sources<K, S>,
        budget: u32,
    ) -> Result<bool, DbError>
        requires whole { self.old.broken ≡ false }
        requires job { IsSome self.old.job }
        ensures step { LeadsLent (order_of K.name K.cmp) S.facts source.old self.old source.new self.new
            (λ m n. IsPiece m (max budget 1) result n) }
        ensures outcome { OutcomeLent MayRefusePiece S.facts source.old self.old source.new self.new result }
        ensures breaks { BreaksLent S.facts source.old source.new self.new result }
        ensures on { OnOk result (GoesOn budget (open_db source.old.memory self.old) (open_db source.new.memory self.new)) }
        ensures ended { IfOk result (λ ended. MatchBool ended (self.new.job ≡ None) (IsSome self.new.job)) }
        ensures serves { OnOk result (ServesLent S.facts source.old self.old source.new self.new) }
        ensures memory { LeavesMemories source.old.memory source.new.memory }
        ensures all { result ≡ Ok false → IsTakingAll (open_db source.old.memory self.old) → IsTakingAll (open_db source.new.memory self.new) }
        ensures needed { result ≡ Ok true → IsTakingAll (open_db source.old.memory self.old)
            → EndsNeeded (order_of K.name K.cmp) (seen_of S.facts source.old) (seen_of S.facts source.new)
            (open_db source.old.memory self.old) (open_db source.new.memory self.new) }
        ensures few { OnOk result (IsTrue (S.facts source.new.tables.store).faithful
            → HasLeftBy (order_of K.name K.cmp) (seen_of S.facts source.old) (open_db source.old.memory self.old)
            (max budget 1) self.new.job) }
        ensures beside { result ≡ Ok false → IsTrue (S.facts source.new.tables.store).faithful
            → KeepsTableFiles (order_of K.name K.cmp) (seen_of S.facts source.old) (seen_of S.facts source.new)
            (open_db source.old.memory self.old) }
        ensures merges { OnOk result (self.new.job ≡ None → PutsMerged (order_of K.name K.cmp) (seen_of S.facts source.old)
            (seen_of S.facts source.new) (open_db source.old.memory self.old) (open_db source.new.memory self.new)) }
        ensures come { result ≡ Ok true → LeadsLent (order_of K.name K.cmp) S.facts source.old self.old source.new self.new
            (λ m n. HasCome budget (open_db source.old.memory self.old) m result n) }
        ensures lock { (S.facts source.new.tables.store).locked ≡ (S.facts source.old.tables.store).locked }
        ensures stops { KeepsLent (order_of K.name K.cmp) S.facts source.old self.old source.new }
    {
        // Laws, for the proof alone.
        sound_lasts();
        one_directory();
        let Some(running) = &mut self.job else {
            unreachable!()
        };
        let failed = source.tables.store.write_failures();
        let stepped = running.step(alloc, source, &mut self.directory.numbers, budget);
        let progress = match stepped {
            Ok(progress) => progress,
            Err(error) => {
                self.job = None;
                return Err(self.refuse_since(&source.tables.store, failed, error));
            }
        };
        if !progress.ended {
            return Ok(false);
        }
        let Some(job) = self.job.take() else {
            unreachable!()
        };
        source.memory.are_bounded();
        let last_sequence = source.memory.last();
        match job.install(
            alloc,
            &mut source.tables.store,
            &self.version,
            &self.directory.manifest,
            &self.directory.numbers,
            last_sequence,
        ) {
            Ok(installed) => {
                self.take_installed(installed);
                Ok(true)
            }
            Err(error) => Err(self.flush_refusal(&source.tables.store, failed, error)),
        }
    }

    // What is new after the end of a compaction.
    fn take_installed(&mut self, installed: Installed<K>)
        ensures { self.new ≡ record
            self.old {
              version = installed.version;
              directory = record
                  self.old.directory { manifest = record self.old.directory.manifest { end = installed.manifest_end } };
            } }
    {
        self.version = installed.version;
        self.directory.manifest.end = installed.manifest_end;
    }

    // The sequence numbers whose views a compaction keeps, rising: those of the live snapshots, and
    // the last one used.
    fn sequences(&self, alloc: Global, last: u64) -> Result<Vec<u64>, AllocError>
        ensures rising { IfOk result (λ sequences. IsNonDecreasing sequences.items) }
        ensures last { IfOk result (λ sequences. Contains sequences.items last) }
        ensures live { IfOk result (λ sequences. (id sequence : ℕ) → kept_at self.now.snapshots id ≡ Some sequence
            → Contains sequences.items sequence) }
        ensures only { IfOk result (λ sequences. (sequence : ℕ) → Contains sequences.items sequence
            → Contains (last ∷ values_of self.now.snapshots.entries) sequence) }
        ensures each { IfOk result (λ sequences. (sequence : ℕ)
            → Contains (last ∷ values_of self.now.snapshots.entries) sequence → Contains sequences.items sequence) }
    {
        let mut sequences = Vec::with_capacity(alloc, self.snapshots.len() + 1)?;
        for sequence in self.snapshots.values() {
            sequences.push(*sequence)?;
        }
        sequences.push(last)?;
        sequences.sort_unstable();
        Ok(sequences)
    }
}
