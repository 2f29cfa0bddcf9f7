//! A version: the tables of a database by level, as they stand between two edits.

ghost use Rattle.std.specs.Prelude.{◌≡◌};
ghost use Rattle.coding.specs.declared.error.DbError.TheVariants.{OutOfMemory};

use crate::applying::apply_edit;
use crate::choosing::level_in_need;
use crate::copying::copies_of;
use crate::numbers::{is_among, numbers_of};
use crate::ordering::put_tables;
use crate::plan::JobPlan;
use crate::planning::{plan_behind, plan_of_level};
use crate::pointers::{no_pointers, pointers_after, pointers_like};
use crate::search::next_searched;
use crate::searching::{find_at, is_free_below, level_of};
use coding::{Bytes, DbError, ReadError};
use edits::{Field, LEVELS, Layout, PlacedTable};
use ikey::KeyOrder;
use std::alloc::{AllocError, Global};
use std::marker::{Model, PhantomData};

/// Holds the tables of a database by level, with the compact pointer of each level (LevelDB's
/// db/version_set.h, `Version`). They are in order: by level, in level 0 by number, and in a deeper
/// level each below the next, where user keys are in the order K. Contracts see the list of the
/// tables and that of the pointers.
#[derive(Drop)]
pub struct Version<K: KeyOrder> {
    tables: Vec<PlacedTable>,
    compact_pointers: Vec<Option<Bytes>>,
    // those of the tables, rising: a removal asks for each file of a directory
    numbers: Vec<u64>,
    order: PhantomData<K>,
}

impl<K: KeyOrder> Model for Version<K> {
    ghost use Rattle.std.specs.Prelude.{◌≡◌, length};
    ghost use Rattle.versions.specs.Levels.{HasNumber, Placement, AreInOrder, IsVersion};

    ghost Value = { Placement };

    ghost view = { λ v. record { tables = v.tables.items; compact_pointers = v.compact_pointers.items } };

    ghost invariant = { λ v. IsVersion K.cmp v.tables.items v.compact_pointers.items v.numbers.items };
}

impl<K: KeyOrder> Version<K> {
    ghost use Rattle.std.specs.Prelude.{◌≡◌, ◌<◌, ◌≤◌, ◌^◌, ℕ, [], All, Any, IsTrue, length, IfOk, IfErr, IsOkUnless, MatchOption, MatchBool, false, None, replicate};
    ghost use Rattle.std.specs.Option.{option_copied};
    ghost use Rattle.coding.specs.Errors.{RefusesOnly};
    ghost use Rattle.edits.specs.Layout.{after_edit};
    ghost use Rattle.versions.specs.Applying.{LeadsLayout, LeadsAstray};
    ghost use Rattle.versions.specs.Levels.{Placement, AreInOrder, AreTablesApart, HasLayout, HasNumber, IsVersion, tables_at, pointer_at, pointers_after};
    ghost use Rattle.versions.specs.Plans.{Needs, IsPicked, IsLevelPlan, IsWholePlan};
    ghost use Rattle.versions.specs.Ranges.{covers};
    ghost use Rattle.edits.specs.declared.field.PlacedTable.{PlacedTable as Placed};
    ghost use Rattle.versions.specs.Searches.{EndsBelow, IsTableFor, IsSearchedAt, IsSearchedNext};

    /// Makes the version that has the tables and compact pointers of a layout. Corrupt: tables of a
    /// level below 0 overlap, or a table's smallest key is above its largest, or two tables have
    /// one number.
    pub fn new(alloc: Global, layout: &Layout) -> Result<Self, ReadError>
        requires { length layout.now.compact_pointers.items ≡ 7 }
        ensures found { IfOk result (λ version. HasLayout layout.now.tables.items layout.now.compact_pointers.items version) }
        ensures apart { IfOk result (λ version. AreTablesApart K.cmp layout.now.tables.items) }
        ensures refused { IfErr result (λ e. RefusesOnly e (AreTablesApart K.cmp layout.now.tables.items → ⊥)) }
    {
        let mut tables = Vec::with_capacity(alloc, layout.tables.len())?;
        put_tables::<K>(alloc, &mut tables, &layout.tables)?;
        let numbers = numbers_of(alloc, &tables)?;
        Ok(Version {
            tables,
            compact_pointers: pointers_like(alloc, &layout.compact_pointers)?,
            numbers,
            order: PhantomData,
        })
    }

    /// Makes the version after one more edit, which leaves this one as it is: deleted files go
    /// before new ones. Corrupt: a deleted file isn't at that level, or a new one's number is
    /// there, or it doesn't fit in as in `new`.
    pub fn after(&self, alloc: Global, edit: &[Field]) -> Result<Self, ReadError>
        ensures tables { IfOk result (λ new. LeadsLayout (after_edit edit.now) self.now.tables new.tables) }
        ensures pointers { IfOk result (λ new. new.compact_pointers ≡ pointers_after edit.now 0 self.now.compact_pointers) }
        ensures refused { IfErr result (λ e. RefusesOnly e (LeadsAstray K.cmp (after_edit edit.now) self.now.tables)) }
    {
        let mut tables = copies_of(alloc, &self.tables)?;
        apply_edit::<K>(alloc, &mut tables, edit)?;
        let numbers = numbers_of(alloc, &tables)?;
        Ok(Version {
            tables,
            compact_pointers: pointers_after(alloc, edit, &self.compact_pointers)?,
            numbers,
            order: PhantomData,
        })
    }

    /// Makes the version that has the inputs of a plan as its tables, and no compact pointers. A
    /// cursor over all of its tables is one over what the plan merges. That the inputs are in order
    /// is known of each plan for a version's tables (`inputs_in_order`).
    pub fn over_inputs(alloc: Global, plan: &JobPlan) -> Result<Self, AllocError>
        requires { AreInOrder K.cmp plan.now.inputs.items }
        ensures tables { IfOk result (λ version. version.tables ≡ plan.now.inputs.items) }
        ensures pointers { IfOk result (λ version. version.compact_pointers ≡ replicate 7 None) }
    {
        Ok(Version {
            tables: copies_of(alloc, &plan.inputs)?,
            compact_pointers: no_pointers(alloc)?,
            numbers: numbers_of(alloc, &plan.inputs)?,
            order: PhantomData,
        })
    }

    /// Returns all tables, in order.
    pub fn tables(&self) -> &[PlacedTable]
        ensures is { result.now ≡ self.now.tables }
        ensures order { AreInOrder K.cmp self.now.tables }
    {
        &self.tables
    }

    /// Returns the tables of a level, in order: those of level 0 by number, those of a deeper level
    /// by key.
    pub fn level(&self, level: u32) -> &[PlacedTable]
        requires { level < 7 }
        ensures { result.now ≡ tables_at level self.now.tables }
    {
        level_of(&self.tables, level)
    }

    /// Returns the internal key after which the next compaction of the level begins, if there is
    /// one.
    pub fn compact_pointer(&self, level: u32) -> Option<&[u8]>
        ensures { option_copied result ≡ pointer_at level self.now.compact_pointers }
    {
        match self.compact_pointers.get(level as usize) {
            Some(Some(key)) => Some(key.as_slice()),
            Some(None) => None,
            None => None,
        }
    }

    /// Finds the one table of a level below 0 that may hold the first key of the level from this
    /// internal key on (LevelDB's db/version_set.cc, `FindFile`). In level 0 each table is asked,
    /// from the last one down.
    pub fn find(&self, level: u32, key: &[u8]) -> Option<&PlacedTable>
        requires low { 0 < level }
        requires level { level < 7 }
        ensures { MatchOption result (All (EndsBelow K.cmp key.now) (tables_at level self.now.tables))
            (λ placed. IsTableFor K.cmp key.now (tables_at level self.now.tables) placed.now) }
    {
        find_at::<K>(&self.tables, level, key)
    }

    /// Returns the next table to search for an internal key, from this place on, and its place
    /// (LevelDB's db/version_set.cc, `Version::ForEachOverlapping`). Those are first the tables of
    /// level 0 that cover the user key, from the highest number down. Then comes of each deeper
    /// level the table that `find` returns, if it covers the key. A search begins at place 0, and
    /// goes on at the place after that of the table. It takes no memory.
    pub fn next_searched(&self, key: &[u8], from: usize) -> Option<(usize, &PlacedTable)>
        ensures { MatchOption result
            ((place : ℕ) (placed : Placed) → from ≤ place → IsSearchedAt K.cmp key.now self.now.tables place placed → ⊥)
            (λ found. IsSearchedNext K.cmp key.now self.now.tables from found.0 found.1.now) }
    {
        next_searched::<K>(&self.tables, key, from)
    }

    /// Returns whether no table of a level below this one covers the user key (LevelDB's
    /// db/version_set.cc, `Compaction::IsBaseLevelForKey`). The level is that to which a compaction
    /// writes.
    pub fn is_free_below(&self, level: u32, user: &[u8]) -> bool
        requires low { 0 < level }
        requires level { level < 7 }
        ensures { MatchBool result
            (All (λ placed. level < placed.level → covers K.cmp placed user.now ≡ false) self.now.tables)
            (Any (λ placed. (level < placed.level) × IsTrue (covers K.cmp placed user.now)) self.now.tables) }
    {
        is_free_below::<K>(&self.tables, level, user)
    }

    /// Picks the compaction that is most wanted (LevelDB's db/version_set.cc,
    /// `VersionSet::PickCompaction`), or None if no level from 0 to 5 needs one. OutOfMemory: there
    /// is none for the plan.
    pub fn pick(
        &self,
        alloc: Global,
        level0_files: u64,
        base_bytes: u64,
    ) -> Result<Option<JobPlan>, DbError>
        requires files { 0 < level0_files }
        requires base { base_bytes ≤ 2 ^ 40 }
        ensures picked { IfOk result (λ found. MatchOption found
            ((level : ℕ) → level < 6 → Needs level0_files base_bytes self.now.tables level → ⊥)
            (λ plan. IsPicked K.cmp level0_files base_bytes self.now plan)) }
        ensures refused { IsOkUnless result OutOfMemory }
    {
        let Some(level) = level_in_need(&self.tables, level0_files, base_bytes) else {
            return Ok(None);
        };
        if level == 0 {
            return Ok(plan_of_level::<K>(alloc, &self.tables, 0)?);
        }
        let pointer = self.compact_pointer(level);
        Ok(Some(plan_behind::<K>(alloc, &self.tables, level, pointer)?))
    }

    /// Plans the compaction of all tables of a level, which moves no compact pointer. None: the
    /// level has no table.
    pub fn plan_level(&self, alloc: Global, level: u32) -> Result<Option<JobPlan>, AllocError>
        requires { level < 6 }
        ensures { IfOk result (λ found. MatchOption found (tables_at level self.now.tables ≡ []) (λ plan. IsLevelPlan K.cmp self.now.tables level plan)) }
    {
        plan_of_level::<K>(alloc, &self.tables, level)
    }

    /// Plans the compaction of all tables into level 6, which moves no compact pointer. None: there
    /// is no table.
    pub fn plan_all(&self, alloc: Global) -> Result<Option<JobPlan>, AllocError>
        ensures { IfOk result (λ found. MatchOption found (self.now.tables ≡ []) (λ plan. IsWholePlan self.now.tables plan)) }
    {
        if self.tables.is_empty() {
            return Ok(None);
        }
        Ok(Some(JobPlan {
            inputs: copies_of(alloc, &self.tables)?,
            output_level: LEVELS - 1,
            compact_pointer: None,
        }))
    }

    /// Returns whether there is a table of this number.
    pub fn has_number(&self, number: u64) -> bool
        ensures { MatchBool result (HasNumber number self.now.tables) (HasNumber number self.now.tables → ⊥) }
    {
        is_among(&self.numbers, number)
    }
}
