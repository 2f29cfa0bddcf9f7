//! What a level has (LevelDB's `leveldb.stats`, in db/db_impl.cc, DBImpl::GetProperty).

ghost use Rattle.std.specs.Prelude.{◌≡◌, ◌<◌, ◌≤◌, ◌-◌, ◌^◌, min, AllPairs, IfOk, MatchBool, sum_by};
ghost use Rattle.edits.specs.Snapshot.{AreInPlace};
ghost use Rattle.versions.specs.Uses.{AreUses, IsDue, IsUse};

use crate::choosing::{LAST_LEVEL, needs_compaction};
use crate::searching::level_of;
use edits::{LEVELS, PlacedTable};
use std::alloc::{AllocError, Global};

/// Counts a level's tables.
#[derive(Clone, Copy, Debug, PartialEq, Eq)]
pub struct LevelUse {
    /// From 0 to 6.
    pub level: u32,
    /// How many there are.
    pub files: u64,
    /// How many bytes they have, by their edits, or 2^64 - 1 if these are more.
    pub bytes: u64,
    /// Whether a compaction of the level is due.
    pub is_due: bool,
}

/// Counts what each level, from 0 to 6, has of the tables of a layout, and tells whether a
/// compaction of it is due. One is due if level 0 has so many files, or level 1 more than so many
/// bytes, and so on by tens.
pub fn uses_of_levels(
    alloc: Global,
    tables: &[PlacedTable],
    level0_files: u64,
    base_bytes: u64,
) -> Result<Vec<LevelUse>, AllocError>
    requires base { base_bytes ≤ 2 ^ 40 }
    requires order { AreInPlace tables.now }
    ensures { IfOk result (λ uses. AreUses level0_files base_bytes tables.now 0 7 uses.items) }
{
    let mut uses = Vec::new(alloc);
    for level in 0..LEVELS {
        uses.push(use_of_level(tables, level, level0_files, base_bytes))?;
    }
    Ok(uses)
}

fn use_of_level(tables: &[PlacedTable], level: u32, level0_files: u64, base_bytes: u64) -> LevelUse
    requires level { level < 7 }
    requires base { base_bytes ≤ 2 ^ 40 }
    requires order { AreInPlace tables.now }
    ensures { IsUse level0_files base_bytes tables.now level result }
{
    // A law, for the proof alone.
    levels_rise(tables);
    let own = level_of(tables, level);
    LevelUse {
        level,
        files: own.len() as u64,
        bytes: bytes_of(own),
        is_due: is_due(tables, level, level0_files, base_bytes),
    }
}

fn is_due(tables: &[PlacedTable], level: u32, level0_files: u64, base_bytes: u64) -> bool
    requires base { base_bytes ≤ 2 ^ 40 }
    requires order { AllPairs (λ a b. a.level ≤ b.level) tables.now }
    ensures { MatchBool result (IsDue level0_files base_bytes tables.now level) (IsDue level0_files base_bytes tables.now level → ⊥) }
{
    if level >= LAST_LEVEL {
        return false;
    }
    needs_compaction(tables, level, level0_files, base_bytes)
}

// How many bytes the tables have, as far as 64 bits tell them.
fn bytes_of(tables: &[PlacedTable]) -> u64
    ensures { result ≡ min (sum_by (λ placed. placed.table.size) tables.now) (2 ^ 64 - 1) }
{
    let mut bytes: u64 = 0;
    for placed in tables {
        bytes = bytes.saturating_add(placed.table.size);
    }
    bytes
}

// Proves that tables by level and number are by level.
fn levels_rise(tables: &[PlacedTable])
    requires { AreInPlace tables.now }
    ensures { AllPairs (λ a b. a.level ≤ b.level) tables.now }
{}
