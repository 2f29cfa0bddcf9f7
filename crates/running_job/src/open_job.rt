//! A compaction as one value that lives across calls (LevelDB's db/db_impl.cc,
//! DBImpl::DoCompactionWork).

ghost use Rattle.std.specs.Prelude.{◌<◌, ◌≤◌, ◌^◌, ℕ, IfOk, MatchBool};
ghost use Rattle.compact.specs.JobEdits.{IsPlanProper};
ghost use Rattle.compact.specs.Outputs.{AreNumbered};
ghost use Rattle.ikey.specs.Orders.{order_of};
ghost use Rattle.running_job.specs.internal.Unique.{IsPlanProper-prop, numbered-prop};
ghost use Rattle.level_cursor.specs.InRows.{ListsNumber};
ghost use Rattle.db_cursor.specs.internal.Inputs.{BeginsMerge, MayBeginMerge};
ghost use Rattle.db_cursor.specs.Inputs.{ReadsNoMemory};
ghost use Rattle.db_cursor.specs.Places.{OneGoesOver};
ghost use Rattle.versions.specs.Levels.{AreInOrder, HasNumber as HasTable};

use crate::naming::can_be_named;
use coding::{Damage, DbError, FileKind};
use compact::{FilesBelow, Job, Progress};
use cursor::Merge;
use db_cursor::{SourceCursor, Sources, merge_tables};
use directory_writes::{
    CurrentManifest, FlushError, Installed, free_number_law, install_job, job_writes_law,
    planned_law,
};
use edits::{FileNumbers, NUMBER_END, PlacedTable};
use ikey::KeyOrder;
use std::alloc::{AllocError, Global};
use std::rc::Rc;
use store::Store;
use table_access::sound_lasts;
use version_laws::version_of_part;
use versions::{JobPlan, Version, inputs_in_order};

/// Holds a job over the tables of a plan's inputs, with the version for which the plan was made. A
/// delete is kept for the keys of that version's tables below the output level.
#[derive(Drop)]
pub struct OpenJob<K: KeyOrder> {
    job: Job<K, Merge<K, SourceCursor<K>>>,
    version: Rc<Version<K>>,
    /// The number that was next when the job last drew one: those of its tables are below it. After
    /// an error it is above all numbers, so that the job can't go on.
    next: u64,
    /// How many entries of its inputs came.
    merged: u64,
    /// Outputs have a level.
    ghost in_range: { (0 < job.plan.output_level) × (job.plan.output_level < 7) },
    /// An edit can name the tables of the job.
    ghost numbered: { next ≤ 2 ^ 62 → AreNumbered job.outputs next } by { numbered-prop job.outputs next },
    /// It can name the plan's tables too.
    ghost proper: { IsPlanProper job.plan } by { IsPlanProper-prop job.plan },
}

impl<K: KeyOrder> OpenJob<K> {
    ghost use Rattle.std.specs.Prelude.{◌≡◌, ◌⊎◌, ◌<◌, ◌≤◌, ◌+◌, ◌^◌, ℕ, [], None};
    ghost use Rattle.std.specs.Prelude.{false, IsTrue, max, string_bytes, IfOk, IfErr, OnOk, MatchBool};
    ghost use Rattle.std.specs.FinMap.{get};
    ghost use Rattle.std.specs.List.Sorted.{IsNonDecreasing};
    ghost use Rattle.ikey.specs.Orders.{order_of};
    ghost use Rattle.running_job.specs.internal.Beginning.{BeginTears, BeginsJob, MayBeginJob, RefusesBegin};
    ghost use Rattle.running_job.specs.internal.Ending.{EndLeaves, EndLeavesOver, EndMayLeave, EndMayLeaveOver, EndMayPutOwn, EndPutsOwn, RefusesEnd};
    ghost use Rattle.directory_writes.specs.Differing.{OfEach};
    ghost use Rattle.running_job.specs.Running.{HasMerged, goes_over, is_input, shown};
    ghost use Rattle.running_job.specs.internal.Stepping.{GoesOn, KeepsDirectory, KeepsSound, MayGoOn, RefusesStep, StepStops, StepTears, StepTouches};
    ghost use Rattle.level_cursor.specs.InRows.{ListsNumber};
    ghost use Rattle.db_cursor.specs.Places.{LeavesSource};
    ghost use Rattle.db_cursor.specs.Whole.{whole_in};
    ghost use Rattle.store.specs.Calls.{FailsAsWrite};
    ghost use Rattle.store.specs.Losses.{CarriesBut, behind_sync};
    ghost use Rattle.store.specs.Stops.{LeavesOnly};
    ghost use Rattle.compact.specs.Outputs.{IsNumberAtHand, IsOwn, IsTableName};
    ghost use Rattle.directory_writes.specs.internal.Flush.{SparesManifest};
    ghost use Rattle.directory_writes.specs.internal.Install.{AreOutputsKept, HasJobVersion, InstallSyncs, InstallTouches};
    ghost use Rattle.directory_writes.specs.internal.Putting.{WritesThenPuts};
    ghost use Rattle.versions.specs.Levels.{HasNumber as HasTable};
    ghost use Rattle.versions.specs.Plans.{IsPlanOf};

    /// Begins the job of a plan for a version's tables: its cursor stands on the first entry of the
    /// inputs, and no table is begun. `snapshots` are the sequence numbers whose views must be
    /// kept, rising: those of the live snapshots and the last one used. Corrupt: no edit could name
    /// the plan's tables or hold its pointer.
    pub fn begin<S: Store>(
        alloc: Global,
        source: &mut Sources<K, S>,
        version: &Rc<Version<K>>,
        plan: JobPlan,
        snapshots: &[u64],
        block_bytes: usize,
        file_bytes: u64,
    ) -> Result<Self, DbError>
        requires rising { IsNonDecreasing snapshots.now }
        requires plan { IsPlanOf K.cmp version.now.value.tables plan }
        ensures plan { IfOk result (λ work. work.job.plan ≡ plan) }
        ensures snapshots { IfOk result (λ work. work.job.selection.snapshots ≡ snapshots.now) }
        ensures version { IfOk result (λ work. work.version.value ≡ version.now.value) }
        ensures none { IfOk result (λ work. work.merged ≡ 0) }
        ensures written { IfOk result (λ work. work.job.outputs ≡ record { closed = []; at_hand = None }) }
        ensures over { IfOk result (λ work. (number : ℕ) → goes_over work number → is_input work number) }
        ensures leaves { LeavesSource K.cmp (ListsNumber plan.inputs.items)
            (whole_in S.facts source.old)
            (whole_in S.facts source.new) }
        ensures stood { OnOk result ((S.facts source.new.tables.store).failures ≡ (S.facts source.old.tables.store).failures) }
        ensures refused { IfErr result (λ e. RefusesBegin (order_of K.name K.cmp) version.now.value.tables plan
            (whole_in S.facts source.old)
            (whole_in S.facts source.new) e) }
        ensures torn { IfErr result (BeginTears (order_of K.name K.cmp) plan
            (whole_in S.facts source.old)
            (whole_in S.facts source.new)) }
        ensures may { IfOk result (λ work. MayBeginJob (order_of K.name K.cmp) plan
            (whole_in S.facts source.old)
            (whole_in S.facts source.new) work) }
        ensures begins { IfOk result (λ work. BeginsJob (order_of K.name K.cmp) version.now.value.tables
            (whole_in S.facts source.old)
            (whole_in S.facts source.new) work) }
    {
        // Laws, for the proof alone.
        inputs_in_order();
        planned_law();
        version_of_part();
        sound_lasts();
        // For the proof alone: they are in order.
        let _tables = version.tables();
        if !can_be_named::<K>(&plan) {
            return Err(DbError::Corrupt(FileKind::Manifest, Damage::Length));
        }
        let cursor = cursor_over(alloc, &plan)?;
        let version = version.clone()?;
        let job = Job::start(
            alloc,
            source,
            plan,
            snapshots,
            cursor,
            block_bytes,
            file_bytes,
        )?;
        Ok(OpenJob {
            job,
            version,
            next: 0,
            merged: 0,
        })
    }

    /// Merges so many entries, or one for 0, or all that are left if those are fewer. Corrupt: the
    /// numbers are older than those of the job. After an `Err` the job must be given up: the files
    /// that it wrote are no part of the directory, and its inputs are as they were.
    pub fn step<S: Store>(
        &mut self,
        alloc: Global,
        source: &mut Sources<K, S>,
        numbers: &mut FileNumbers,
        budget: u32,
    ) -> Result<Progress, DbError>
        ensures numbers { numbers.old.next ≤ numbers.new.next }
        ensures drawn { numbers.new.next ≤ numbers.old.next + max budget 1 }
        ensures drawn_merged { IfOk result (λ progress. numbers.new.next ≤ numbers.old.next + progress.merged) }
        ensures going_on { IfOk result (λ progress. progress.ended ≡ false → progress.merged ≡ max budget 1) }
        ensures merged { IfOk result (λ progress. self.new.merged ≡ shown (self.old.merged + progress.merged)) }
        ensures plan { self.new.job.plan ≡ self.old.job.plan }
        ensures snapshots { self.new.job.selection.snapshots ≡ self.old.job.selection.snapshots }
        ensures version { self.new.version ≡ self.old.version }
        ensures touches { StepTouches
            (whole_in S.facts source.old)
            (whole_in S.facts source.new)
            numbers.old.next numbers.new.next self.old self.new }
        ensures owns { OnOk result ((number : ℕ) → IsOwn self.new.job.outputs number → IsOwn self.old.job.outputs number
            ⊎ (numbers.old.next ≤ number)) }
        ensures stood { OnOk result ((S.facts source.new.tables.store).failures ≡ (S.facts source.old.tables.store).failures) }
        ensures refused { IfErr result (λ e. RefusesStep (order_of K.name K.cmp)
            (whole_in S.facts source.old)
            (whole_in S.facts source.new)
            numbers.old.next numbers.new.next self.old e) }
        ensures torn { IfErr result (StepTears (order_of K.name K.cmp)
            (whole_in S.facts source.old)
            (whole_in S.facts source.new)
            numbers.old.next self.old) }
        ensures sound { KeepsSound (order_of K.name K.cmp)
            (whole_in S.facts source.old)
            (whole_in S.facts source.new)
            numbers.old.next self.old }
        ensures keeps { KeepsDirectory (order_of K.name K.cmp)
            (whole_in S.facts source.old)
            (whole_in S.facts source.new)
            numbers.old.next numbers.new.next self.old }
        ensures stops { StepStops (order_of K.name K.cmp)
            (whole_in S.facts source.old)
            (whole_in S.facts source.new)
            numbers.old.next self.old }
        ensures may { IfOk result (λ progress. MayGoOn (order_of K.name K.cmp)
            (whole_in S.facts source.old)
            (whole_in S.facts source.new)
            numbers.old.next numbers.new.next budget self.old self.new progress) }
        ensures goes_on { IfOk result (λ progress. GoesOn (order_of K.name K.cmp)
            (whole_in S.facts source.old)
            (whole_in S.facts source.new)
            numbers.old.next numbers.new.next budget self.old self.new progress) }
    {
        // Laws, for the proof alone.
        sound_lasts();
        job_writes_law();
        free_number_law();
        if numbers.next < self.next {
            return Err(DbError::Corrupt(FileKind::Table, Damage::Number));
        }
        let deeper = FilesBelow {
            version: &*self.version,
            level: self.job.plan().output_level,
        };
        self.next = u64::MAX;
        let progress = self.job.step(alloc, source, numbers, &deeper, budget)?;
        self.next = numbers.next;
        self.merged = self.merged.saturating_add(u64::from(progress.merged));
        Ok(progress)
    }

    /// Ends the job once all entries of its inputs came, and appends its edit to the MANIFEST, so
    /// that its outputs replace its inputs (see `directory_writes::install_job`). Corrupt: the
    /// numbers are older than those of the job, or the version isn't that of its inputs.
    /// NumbersSpent: they are above 2^62. After an error the files that it wrote are no part of the
    /// directory.
    pub fn install<S: Store>(
        self,
        alloc: Global,
        store: &mut S,
        version: &Version<K>,
        manifest: &CurrentManifest,
        numbers: &FileNumbers,
        last_sequence: u64,
    ) -> Result<Installed<K>, FlushError>
        requires sequence { last_sequence < 2 ^ 56 }
        ensures call { InstallTouches (S.facts store.old) (S.facts store.new) self.job.outputs (string_bytes manifest.now.name) }
        ensures fails { FailsAsWrite (S.facts store.old) (S.facts store.new) }
        ensures stood { OnOk result ((S.facts store.new).failures ≡ (S.facts store.old).failures) }
        // In each directory that the files may come from it has merged exactly the entries of its
        // inputs.
        ensures merged { OnOk result (HasMerged (order_of K.name K.cmp) (S.facts store.old) numbers.now.next self) }
        ensures version { IfOk result
            (λ installed. HasJobVersion K.cmp self.job.plan self.job.outputs version.now installed.version.value) }
        ensures synced { OnOk result (IsTrue (S.facts store.new).faithful
            → (S.facts store.new).synced (string_bytes manifest.now.name) ≡ get (S.facts store.new).files
            (string_bytes manifest.now.name)) }
        ensures keeps { InstallSyncs K.cmp self.job (S.facts store.old) (S.facts store.new) numbers.now.next (string_bytes manifest.now.name)
            version.now.tables result }
        ensures spares { SparesManifest (S.facts store.old) (S.facts store.new) (string_bytes manifest.now.name)
            (IsTableName (IsNumberAtHand self.job.outputs)) result }
        ensures refused { IfErr result (λ error. RefusesEnd (order_of K.name K.cmp) (S.facts store.old)
            (S.facts store.new) numbers.now.next last_sequence manifest.now version.now.tables self error) }
        ensures leaves { EndLeaves (order_of K.name K.cmp) (S.facts store.old)
            (S.facts store.new) numbers.now.next last_sequence manifest.now version.now.tables self result }
        ensures leaves_each { OfEach (λ ideal after. EndLeavesOver (order_of K.name K.cmp) (S.facts store.old) (S.facts store.new) ideal after
            numbers.now.next last_sequence manifest.now version.now.tables self result) (S.facts store.old).files (S.facts store.new).files }
        ensures owns_each { OfEach (λ ideal after. EndPutsOwn (order_of K.name K.cmp) (S.facts store.old) (S.facts store.new) ideal after
            numbers.now.next last_sequence manifest.now version.now.tables self result) (S.facts store.old).files (S.facts store.new).files }
        ensures stops { IsTrue (S.facts store.new).faithful → LeavesOnly (S.facts store.old) (S.facts store.new)
            (EndMayLeave (order_of K.name K.cmp) (S.facts store.old) numbers.now.next last_sequence manifest.now
            version.now.tables self) }
        ensures stops_each { IsTrue (S.facts store.new).faithful → LeavesOnly (S.facts store.old) (S.facts store.new)
            (λ files. OfEach (λ ideal after. EndMayLeaveOver (order_of K.name K.cmp) (S.facts store.old) ideal after numbers.now.next
            last_sequence manifest.now version.now.tables self) (S.facts store.old).files files) }
        ensures stops_own { IsTrue (S.facts store.new).faithful → LeavesOnly (S.facts store.old) (S.facts store.new)
            (EndMayPutOwn (order_of K.name K.cmp) (S.facts store.old) numbers.now.next last_sequence manifest.now
            version.now.tables self) }
        ensures carries { IsTrue (S.facts store.new).faithful → CarriesBut (S.facts store.old) (S.facts store.new)
            (IsTableName (IsNumberAtHand self.job.outputs)) }
        ensures puts { IsTrue (S.facts store.new).faithful → WritesThenPuts (S.facts store.old) (S.facts store.new)
            (IsTableName (IsNumberAtHand self.job.outputs)) (string_bytes manifest.now.name)
            (AreOutputsKept K.cmp self.job (S.facts store.old) numbers.now.next) }
        ensures ends { IsTrue (S.facts store.new).faithful → OnOk result (behind_sync [] (S.facts store.new).calls ≡ []) }
    {
        if numbers.next < self.next {
            return Err(FlushError::Before(DbError::Corrupt(FileKind::Table, Damage::Number)));
        }
        if numbers.next > NUMBER_END {
            return Err(FlushError::Before(DbError::NumbersSpent));
        }
        let OpenJob { job, .. } = self;
        install_job(alloc, store, job, version, manifest, numbers, last_sequence)
    }

    /// Returns what it compacts.
    pub fn plan(&self) -> &JobPlan
        ensures { result.now ≡ self.now.job.plan }
    {
        self.job.plan()
    }

    /// Returns whether the table of this number is one of the inputs.
    pub fn reads(&self, number: u64) -> bool
        ensures { MatchBool result (HasTable number self.now.job.plan.inputs.items) (HasTable number self.now.job.plan.inputs.items → ⊥) }
    {
        has_number(&self.job.plan().inputs, number)
    }

    /// Returns whether the table of this number is one that the job writes.
    pub fn writes(&self, number: u64) -> bool
        ensures { MatchBool result (IsOwn self.now.job.outputs number) (IsOwn self.now.job.outputs number → ⊥) }
    {
        self.job.writes(number)
    }
}

// A cursor over the entries of a plan's inputs.
fn cursor_over<K: KeyOrder>(
    alloc: Global,
    plan: &JobPlan,
) -> Result<Merge<K, SourceCursor<K>>, AllocError>
    requires { AreInOrder K.cmp plan.now.inputs.items }
    ensures over { IfOk result (λ merge. (number : ℕ) → OneGoesOver merge.children.items number → ListsNumber plan.now.inputs.items number) }
    ensures no_memory { IfOk result (λ merge. ReadsNoMemory K.cmp merge) }
    ensures may { IfOk result (λ merge. MayBeginMerge (order_of K.name K.cmp) plan.now.inputs.items merge) }
    ensures begins { IfOk result (λ merge. BeginsMerge (order_of K.name K.cmp) plan.now.inputs.items merge) }
{
    let part = Version::over_inputs(alloc, plan)?;
    let inputs = Rc::new(alloc, part)?;
    let merge = merge_tables(alloc, &inputs)?;
    Ok(merge)
}

// Whether one of these tables has the number.
fn has_number(tables: &[PlacedTable], number: u64) -> bool
    ensures { MatchBool result (HasTable number tables.now) (HasTable number tables.now → ⊥) }
{
    for placed in tables {
        if placed.table.number == number {
            return true;
        }
    }
    false
}
