//! What an edit can name of a plan.

ghost use Rattle.std.specs.Prelude.{◌<◌, ◌^◌, All, MatchBool, length};
ghost use Rattle.compact.specs.JobEdits.{IsPlanProper};
ghost use Rattle.edits.specs.Edit.{IsInternal};
ghost use Rattle.versions.specs.Levels.{AreInOrder};

use edits::{LEVELS, PlacedTable};
use ikey::{KeyOrder, unpack};
use versions::JobPlan;

/// Returns whether an edit can name the tables of a plan and its pointer.
pub(crate) fn can_be_named<K: KeyOrder>(plan: &JobPlan) -> bool
    requires order { AreInOrder K.cmp plan.now.inputs.items }
    requires output { plan.now.output_level < 7 }
    ensures { MatchBool result (IsPlanProper plan.now) (IsPlanProper plan.now → ⊥) }
{
    if !are_named(&plan.inputs) {
        return false;
    }
    match &plan.compact_pointer {
        Some(key) => is_key(key.as_slice()),
        None => true,
    }
}

// Whether it can hold this key: an internal key, and not too long.
fn is_key(bytes: &[u8]) -> bool
    ensures { MatchBool result ((length bytes.now < 2 ^ 32) × IsInternal bytes.now) ((length bytes.now < 2 ^ 32) × IsInternal bytes.now → ⊥) }
{
    if bytes.len() >= 1 << 32 {
        return false;
    }
    let Some(_) = unpack(bytes) else {
        return false;
    };
    true
}

// Whether it can name each of the tables.
fn are_named(tables: &[PlacedTable]) -> bool
    ensures { MatchBool result (All (λ placed. (placed.level < 7) × (placed.table.number < 2 ^ 64)) tables.now)
        (All (λ placed. (placed.level < 7) × (placed.table.number < 2 ^ 64)) tables.now → ⊥) }
{
    for placed in tables {
        if !is_named(placed.level, placed.table.number) {
            return false;
        }
    }
    true
}

// Whether it can name a table of this level and number, which has 64 bits.
fn is_named(level: u32, number: u64) -> bool
    ensures { MatchBool result ((level < 7) × (number < 2 ^ 64)) (level < 7 → ⊥) }
{
    let _number = number;
    level < LEVELS
}
