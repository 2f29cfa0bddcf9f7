//! Compactions in steps (LevelDB's db/db_impl.cc, DoCompactionWork).

ghost use Rattle.std.specs.Prelude.{◌≡◌, ◌<◌, ◌⊎◌, true, false};
ghost use Rattle.std.specs.declared.cmp.Ordering.TheVariants.{Less};
ghost use Rattle.std.specs.List.Sorted.{IsNonDecreasing};
ghost use Rattle.ikey.specs.Entries.{value_kept, value_of};
ghost use Rattle.ikey.specs.Keys.{Key, IsKey};
ghost use Rattle.ikey.specs.declared.entry.Entry.{Entry};
ghost use Rattle.compact.specs.Choosing.{Precedes};
ghost use Rattle.compact.specs.Merging.{IsUpTo};

use crate::chosen::write_chosen;
use crate::deeper::DeeperFiles;
use crate::job_edit::edit_of;
use crate::outputs::Outputs;
use crate::selection::Selection;
use coding::{Damage, DbError, FileKind};
use cursor::{Cursor, copy_to};
use edits::{Edit, FileNumbers};
use ikey::{KeyOrder, Kind, unpack};
use std::alloc::Global;
use std::cmp::Ordering;
use store::{HasStore, Store};
use versions::JobPlan;

/// Tells what a step of a job has done.
#[derive(Clone, Copy, Debug, PartialEq, Eq)]
pub struct Progress {
    /// How many entries of the inputs it has merged.
    pub merged: u32,
    /// Whether these were the last ones, so that the job can be finished.
    pub ended: bool,
}

/// Holds a compaction: it merges its inputs, and writes what must be kept of them into new tables.
/// Its cursor is one over all of its inputs, as `Merge`; with the order K, it reads from the source
/// that each call is lent.
#[derive(Drop)]
pub struct Job<K: KeyOrder, C> {
    plan: JobPlan,
    cursor: C,
    // the internal key that was merged last, or nothing before the first one
    last: Vec<u8>,
    // its value
    value: Vec<u8>,
    selection: Selection,
    outputs: Outputs<K>,
}

impl<K: KeyOrder, C: Drop> Job<K, C> {
    ghost use Rattle.std.specs.Prelude.{◌≡◌, ◌<◌, ◌≤◌, ◌⊎◌, ◌+◌, ◌^◌, All, map, max, ◌∷◌, ◌++◌};
    ghost use Rattle.std.specs.Prelude.{[], ℕ, Bool, List, None, IsTrue, IfOk, IfErr, OnOk, MatchBool};
    ghost use Rattle.std.specs.List.{AllByRecursion};
    ghost use Rattle.cursor.specs.Cuts.{Cut, TornAt, first_cut};
    ghost use Rattle.edits.specs.Edit.{IsProper, IsInOrder};
    ghost use Rattle.cursor.specs.Places.{Listed};
    ghost use Rattle.ikey.specs.Entries.{InternalEntry, entry_of};
    ghost use Rattle.compact.specs.Merging.{IsBetween, IsLimited, IsMerging, IsStepOf, IsFinished, ReadsIntact};
    ghost use Rattle.compact.specs.Merging.{KeepsMine, ReadsApart, AreDisjoint, HaveOwnSequences};
    ghost use Rattle.compact.specs.JobEdits.{IsEditOfPlan, IsPlanProper, IsOwnIn};
    ghost use Rattle.compact.specs.Outputs.{AreNumbered, IsMineUpTo, IsNumberAtHand, IsOutputKept, IsOwn};
    ghost use Rattle.store.specs.Calls.{FailsAsWrite, Idles};
    ghost use Rattle.store.specs.Losses.{behind_sync};
    ghost use Rattle.compact.specs.Outputs.{IsToCome, NumbersOn, WritesTables, RefusesEntry};
    ghost use Rattle.compact.specs.Leaving.{LeavesOthers};
    ghost use Rattle.compact.specs.Rooms.{AreLarge};
    ghost use Rattle.table.specs.Reading.{Reads};

    /// Starts a job that has merged nothing. Its cursor lists the entries of the plan's inputs.
    /// `snapshots` are the sequence numbers whose views must be kept, rising: those of the live
    /// snapshots and the last one used.
    pub fn start<S: Store, H: HasStore<S>>(
        alloc: Global,
        source: &mut H,
        plan: JobPlan,
        snapshots: &[u64],
        cursor: C,
        block_bytes: usize,
        file_bytes: u64,
    ) -> Result<Self, DbError>
    where
        C: Cursor<K, H>,
        requires rising { IsNonDecreasing snapshots.now }
        requires facts { (held : H) → C.facts held ≡ S.facts (H.store_of held) }
        requires gathers { (reader : C) (before after : H) → C.leaves (C.over reader) before after → (number : ℕ)
            → H.gathers after number → H.gathers before number ⊎ C.over reader number }
        ensures plan { IfOk result (λ job. job.plan ≡ plan) }
        ensures snapshots { IfOk result (λ job. job.selection.snapshots ≡ snapshots.now) }
        ensures written { IfOk result (λ job. job.outputs ≡ record { closed = []; at_hand = None }) }
        ensures reads { Reads (S.facts (H.store_of source.old)) (S.facts (H.store_of source.new)) }
        ensures left { C.leaves (C.over cursor) source.old source.new }
        ensures within { IfOk result (λ job. (number : ℕ) → C.over job.cursor number → C.over cursor number) }
        ensures same { IfOk result (λ job. (s t : H) → C.keeps cursor s t → C.keeps job.cursor s t) }
        ensures stood { OnOk result ((S.facts (H.store_of source.new)).failures ≡ (S.facts (H.store_of source.old)).failures) }
        ensures limits { IfOk result (λ job. IsTrue (S.facts (H.store_of source.new)).faithful → IsLimited C.limited job source.new
            → C.limited cursor source.old) }
        ensures torn { IfOk result (λ job. IsTrue (S.facts (H.store_of source.new)).faithful → (cut : Cut)
            → C.torn job.cursor source.new cut → C.torn cursor source.old cut) }
        ensures refused { IfErr result (λ e. RefusesEntry e (S.facts (H.store_of source.old)) (S.facts (H.store_of source.new))
            (IsTrue (S.facts (H.store_of source.new)).faithful → TornAt C.lists C.torn first_cut cursor source.old)
            (IsTrue (S.facts (H.store_of source.new)).faithful → TornAt C.lists C.torn first_cut cursor source.old ⊎ C.limited cursor source.old) ⊥) }
        ensures started { IfOk result (λ job. (deep : List ℕ → Bool) (next : ℕ) (at : Listed)
            → IsTrue (S.facts (H.store_of source.new)).faithful
            → C.lists cursor source.old at → ReadsApart S.facts H.store_of H.with_store H.gathers C.keeps cursor (IsToCome next)
            → AreDisjoint (H.gathers source.old) (IsToCome next) → AreDisjoint (C.over cursor) (IsToCome next)
            → IsBetween K.cmp deep S.Store H.HasStore C.Cursor job source.new next [] at.entries) }
    {
        let mut cursor = cursor;
        let selection = Selection::new(alloc, snapshots)?;
        cursor.first(alloc, source)?;
        Ok(Job {
            plan,
            cursor,
            last: Vec::new(alloc),
            value: Vec::new(alloc),
            selection,
            outputs: Outputs::new(alloc, block_bytes, file_bytes),
        })
    }

    /// Merges so many entries, or one for 0, or all that are left if those are fewer. `deeper` must
    /// be the same in each step. Corrupt: two entries of a user key have one sequence number, or a
    /// block of the inputs is torn. After an `Err` the job must be given up: the files that it
    /// wrote are no part of the database, and its inputs are as they were.
    pub fn step<S: Store, H: HasStore<S>, D: DeeperFiles>(
        &mut self,
        alloc: Global,
        source: &mut H,
        numbers: &mut FileNumbers,
        deeper: &D,
        budget: u32,
    ) -> Result<Progress, DbError>
    where
        C: Cursor<K, H>,
        requires facts { (held : H) → C.facts held ≡ S.facts (H.store_of held) }
        requires gathers { (reader : C) (before after : H) → C.leaves (C.over reader) before after → (number : ℕ)
            → H.gathers after number → H.gathers before number ⊎ C.over reader number }
        ensures numbers { numbers.old.next ≤ numbers.new.next }
        ensures drawn { numbers.new.next ≤ numbers.old.next + max budget 1 }
        ensures drawn_merged { IfOk result (λ progress. numbers.new.next ≤ numbers.old.next + progress.merged) }
        ensures going_on { IfOk result (λ progress. progress.ended ≡ false → progress.merged ≡ max budget 1) }
        ensures plan { self.new.plan ≡ self.old.plan }
        ensures snapshots { self.new.selection.snapshots ≡ self.old.selection.snapshots }
        ensures mine { OnOk result (KeepsMine self.old.outputs numbers.old.next self.new.outputs numbers.new.next) }
        ensures numbered { OnOk result (NumbersOn self.old.outputs numbers.old.next self.new.outputs numbers.new.next) }
        ensures writes { WritesTables (S.facts (H.store_of source.old)) (S.facts (H.store_of source.new))
            (IsMineUpTo self.old.outputs numbers.old.next numbers.new.next) }
        ensures leaves { LeavesOthers S.facts H.store_of H.with_store C.keeps C.leaves C.over
            (IsMineUpTo self.old.outputs numbers.old.next numbers.new.next) self.old.cursor self.new.cursor source.old source.new }
        ensures stood { OnOk result ((S.facts (H.store_of source.new)).failures ≡ (S.facts (H.store_of source.old)).failures) }
        ensures refused { IfErr result (λ e. RefusesEntry e (S.facts (H.store_of source.old)) (S.facts (H.store_of source.new))
            (IsTrue (S.facts (H.store_of source.new)).faithful → (came : List InternalEntry) (rest : List InternalEntry)
            → IsBetween K.cmp (D.covers deeper.now) S.Store H.HasStore C.Cursor self.old source.old numbers.old.next came rest
            → HaveOwnSequences (came ++ rest) → ReadsIntact C.torn self.old source.old → ⊥)
            (IsTrue (S.facts (H.store_of source.new)).faithful → (came : List InternalEntry) (rest : List InternalEntry)
            → IsBetween K.cmp (D.covers deeper.now) S.Store H.HasStore C.Cursor self.old source.old numbers.old.next came rest
            → ReadsIntact C.torn self.old source.old → IsLimited C.limited self.old source.old ⊎ AreLarge (map entry_of (came ++ rest)))
            (2 ^ 62 ≤ numbers.new.next)) }
        ensures limits { OnOk result ((came : List InternalEntry) (rest : List InternalEntry)
            → IsTrue (S.facts (H.store_of source.new)).faithful
            → IsBetween K.cmp (D.covers deeper.now) S.Store H.HasStore C.Cursor self.old source.old numbers.old.next came rest
            → IsLimited C.limited self.new source.new → IsLimited C.limited self.old source.old) }
        ensures torn { OnOk result ((came : List InternalEntry) (rest : List InternalEntry)
            → IsTrue (S.facts (H.store_of source.new)).faithful
            → IsBetween K.cmp (D.covers deeper.now) S.Store H.HasStore C.Cursor self.old source.old numbers.old.next came rest
            → (cut : Cut) → C.torn self.new.cursor source.new cut → C.torn self.old.cursor source.old cut) }
        ensures sliced { IfOk result (λ progress. (came : List InternalEntry) (rest : List InternalEntry)
            → IsTrue (S.facts (H.store_of source.new)).faithful
            → IsBetween K.cmp (D.covers deeper.now) S.Store H.HasStore C.Cursor self.old source.old numbers.old.next came rest
            → (front : List InternalEntry) × (back : List InternalEntry) × (rest ≡ front ++ back) × IsStepOf budget progress front back
            × IsBetween K.cmp (D.covers deeper.now) S.Store H.HasStore C.Cursor self.new source.new numbers.new.next (came ++ front) back) }
    {
        for merged in 0..budget.max(1) {
            if !self.cursor.stands() {
                return Ok(Progress {
                    merged,
                    ended: true,
                });
            }
            self.merge_one(alloc, source, numbers, deeper)?;
        }
        Ok(Progress {
            merged: budget.max(1),
            ended: !self.cursor.stands(),
        })
    }

    /// Ends a job whose inputs have ended, with the edit that puts its outputs in the place of its
    /// inputs.
    pub fn finish<S: Store>(
        self,
        alloc: Global,
        store: &mut S,
        numbers: &FileNumbers,
        last_sequence: u64,
    ) -> Result<Edit, DbError>
        ensures writes { WritesTables (S.facts store.old) (S.facts store.new) (IsNumberAtHand self.outputs) }
        ensures fails { FailsAsWrite (S.facts store.old) (S.facts store.new) }
        ensures finished { IfOk result (λ edit. (deep : List ℕ → Bool) (came : List InternalEntry) → IsTrue (S.facts store.new).faithful
            → IsMerging K.cmp deep self.last.items self.selection self.outputs (S.facts store.old) numbers.now.next came
            → IsFinished K.cmp deep self.plan self.last.items self.selection (S.facts store.new) numbers.now.next last_sequence came edit) }
        // All tables of the job are kept then.
        ensures kept { IfOk result (λ edit. (deep : List ℕ → Bool) (came : List InternalEntry) → IsTrue (S.facts store.new).faithful
            → IsMerging K.cmp deep self.last.items self.selection self.outputs (S.facts store.old) numbers.now.next came
            → (number : ℕ) → IsOwn self.outputs number → IsOutputKept (S.facts store.new) number) }
        ensures ends { IsTrue (S.facts store.new).faithful → OnOk result ((behind_sync [] (S.facts store.new).calls ≡ [])
            ⊎ Idles (S.facts store.old) (S.facts store.new)) }
        ensures proper { IfOk result (λ edit. last_sequence < 2 ^ 56 → IsPlanProper self.plan
            → AreNumbered self.outputs numbers.now.next → All IsProper edit) }
        ensures order { IfOk result (λ edit. IsPlanProper self.plan → AreNumbered self.outputs numbers.now.next → IsInOrder edit) }
        ensures of_plan { IfOk result (λ edit. IsEditOfPlan self.plan edit) }
        // What it puts in are tables that the job wrote.
        ensures own { IfOk result (λ edit. AllByRecursion (IsOwnIn self.outputs) edit) }
        ensures stood { OnOk result ((S.facts store.new).failures ≡ (S.facts store.old).failures) }
        ensures refused { IfErr result (λ e. RefusesEntry e (S.facts store.old) (S.facts store.new) ⊥
            ((deep : List ℕ → Bool) (came : List InternalEntry)
            → IsMerging K.cmp deep self.last.items self.selection self.outputs (S.facts store.old) numbers.now.next came
            → AreLarge (map entry_of came)) ⊥) }
    {
        let Job { plan, outputs, .. } = self;
        let mut outputs = outputs;
        outputs.close(alloc, store)?;
        let edit = edit_of(
            alloc,
            plan,
            outputs.into_closed(),
            numbers.next,
            last_sequence,
        )?;
        Ok(edit)
    }

    /// Returns what it compacts.
    pub fn plan(&self) -> &JobPlan
        ensures { result.now ≡ self.now.plan }
    {
        &self.plan
    }

    /// Returns whether the table of this number is one that the job writes.
    pub fn writes(&self, number: u64) -> bool
        ensures { MatchBool result (IsOwn self.now.outputs number) (IsOwn self.now.outputs number → ⊥) }
    {
        self.outputs.has(number)
    }

    // Merges the entry on which the cursor stands.
    fn merge_one<S: Store, H: HasStore<S>, D: DeeperFiles>(
        &mut self,
        alloc: Global,
        source: &mut H,
        numbers: &mut FileNumbers,
        deeper: &D,
    ) -> Result<(), DbError>
    where
        C: Cursor<K, H>,
        requires facts { (held : H) → C.facts held ≡ S.facts (H.store_of held) }
        requires gathers { (reader : C) (before after : H) → C.leaves (C.over reader) before after → (number : ℕ)
            → H.gathers after number → H.gathers before number ⊎ C.over reader number }
        requires stands { IsTrue (C.stands self.old.cursor) }
        ensures numbers { numbers.old.next ≤ numbers.new.next }
        ensures drawn { numbers.new.next ≤ numbers.old.next + 1 }
        ensures plan { self.new.plan ≡ self.old.plan }
        ensures snapshots { self.new.selection.snapshots ≡ self.old.selection.snapshots }
        ensures mine { OnOk result (KeepsMine self.old.outputs numbers.old.next self.new.outputs numbers.new.next) }
        ensures numbered { OnOk result (NumbersOn self.old.outputs numbers.old.next self.new.outputs numbers.new.next) }
        ensures writes { WritesTables (S.facts (H.store_of source.old)) (S.facts (H.store_of source.new))
            (IsMineUpTo self.old.outputs numbers.old.next numbers.new.next) }
        ensures leaves { LeavesOthers S.facts H.store_of H.with_store C.keeps C.leaves C.over
            (IsMineUpTo self.old.outputs numbers.old.next numbers.new.next) self.old.cursor self.new.cursor source.old source.new }
        ensures stood { OnOk result ((S.facts (H.store_of source.new)).failures ≡ (S.facts (H.store_of source.old)).failures) }
        ensures refused { IfErr result (λ e. RefusesEntry e (S.facts (H.store_of source.old)) (S.facts (H.store_of source.new))
            (IsTrue (S.facts (H.store_of source.new)).faithful
            → (came : List InternalEntry) (entry : InternalEntry) (rest : List InternalEntry)
            → IsBetween K.cmp (D.covers deeper.now) S.Store H.HasStore C.Cursor self.old source.old numbers.old.next came (entry ∷ rest)
            → HaveOwnSequences (came ++ entry ∷ rest) → ReadsIntact C.torn self.old source.old → ⊥)
            (IsTrue (S.facts (H.store_of source.new)).faithful
            → (came : List InternalEntry) (entry : InternalEntry) (rest : List InternalEntry)
            → IsBetween K.cmp (D.covers deeper.now) S.Store H.HasStore C.Cursor self.old source.old numbers.old.next came (entry ∷ rest)
            → ReadsIntact C.torn self.old source.old → IsLimited C.limited self.old source.old ⊎ AreLarge (map entry_of (came ++ entry ∷ rest)))
            (2 ^ 62 ≤ numbers.new.next)) }
        ensures limits { OnOk result ((came : List InternalEntry) (entry : InternalEntry) (rest : List InternalEntry)
            → IsTrue (S.facts (H.store_of source.new)).faithful
            → IsBetween K.cmp (D.covers deeper.now) S.Store H.HasStore C.Cursor self.old source.old numbers.old.next came (entry ∷ rest)
            → IsLimited C.limited self.new source.new → IsLimited C.limited self.old source.old) }
        ensures torn { OnOk result ((came : List InternalEntry) (entry : InternalEntry) (rest : List InternalEntry)
            → IsTrue (S.facts (H.store_of source.new)).faithful
            → IsBetween K.cmp (D.covers deeper.now) S.Store H.HasStore C.Cursor self.old source.old numbers.old.next came (entry ∷ rest)
            → (cut : Cut) → C.torn self.new.cursor source.new cut → C.torn self.old.cursor source.old cut) }
        ensures merged { OnOk result ((came : List InternalEntry) (entry : InternalEntry) (rest : List InternalEntry)
            → IsTrue (S.facts (H.store_of source.new)).faithful
            → IsBetween K.cmp (D.covers deeper.now) S.Store H.HasStore C.Cursor self.old source.old numbers.old.next came (entry ∷ rest)
            → IsBetween K.cmp (D.covers deeper.now) S.Store H.HasStore C.Cursor self.new source.new numbers.new.next
            (came ++ entry ∷ []) rest) }
    {
        let bytes = self.cursor.key(source);
        if !comes_behind::<K>(self.last.as_slice(), bytes) {
            return Err(DbError::Corrupt(FileKind::Table, Damage::Order));
        }
        copy_to(&mut self.last, bytes)?;
        copy_to(&mut self.value, self.cursor.value(source))?;
        let Some(key) = unpack(self.last.as_slice()) else {
            return Err(DbError::Corrupt(FileKind::Table, Damage::Kind));
        };
        let choice = self
            .selection
            .take::<K, D>(key.user, key.sequence, key.kind, deeper)?;
        write_chosen(
            alloc,
            source.store_mut(),
            numbers,
            &mut self.outputs,
            choice,
            self.selection.released(),
            key.user,
            self.last.as_slice(),
            kept_value(key.kind, self.value.as_slice()),
        )?;
        self.cursor.next(alloc, source)?;
        Ok(())
    }
}

// The value of an entry as a table has it: none for a delete.
fn kept_value(kind: Kind, value: &[u8]) -> &[u8]
    ensures { result.now ≡ value_kept (value_of kind value.now) }
{
    match kind {
        Kind::Delete => b"",
        Kind::Put => value,
    }
}

// Whether the key comes after the last one: its user key is above, or the same and its sequence
// number below. No two entries of a directory share both.
fn comes_behind<K: KeyOrder>(last: &[u8], next: &[u8]) -> bool
    ensures behind { result ≡ true → (last_key next_key : Key) (entry behind : Entry) → IsKey last.now last_key → IsKey next.now next_key
        → IsUpTo K.cmp entry last_key → behind.key ≡ next_key.user → behind.sequence ≡ next_key.sequence → Precedes K.cmp entry behind }
    ensures refused { result ≡ false → (next_key : Key) → IsKey next.now next_key → (last_key : Key) × IsKey last.now last_key
        × ((K.cmp last_key.user next_key.user ≡ Less) ⊎ ((last_key.user ≡ next_key.user) × (next_key.sequence < last_key.sequence)) → ⊥) }
{
    let Some(last) = unpack(last) else {
        return true;
    };
    let Some(next) = unpack(next) else {
        return false;
    };
    match K::compare(last.user, next.user) {
        Ordering::Less => true,
        Ordering::Equal => next.sequence < last.sequence,
        Ordering::Greater => false,
    }
}
