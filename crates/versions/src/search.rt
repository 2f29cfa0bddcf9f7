//! Which tables are searched for a key, and in which order (LevelDB's db/version_set.cc,
//! `Version::ForEachOverlapping`).

ghost use Rattle.std.specs.Prelude.{◌≡◌, ◌<◌, ◌≤◌, ◌-◌, ℕ, length, IsTrue, MatchOption, AllPairs, HoldsAt};
ghost use Rattle.ikey.specs.Below.{IsBelowInternal};
ghost use Rattle.edits.specs.declared.field.PlacedTable.{PlacedTable as Placed};
ghost use Rattle.versions.specs.Levels.{AreInOrder};
ghost use Rattle.versions.specs.Ranges.{covers, user_of};
ghost use Rattle.versions.specs.Searches.{IsTableFor, IsSearchedAt, IsSearchedFirst, IsSearchedIn, IsSearchedNext};

use crate::searching::{covers, find_in, split_levels};
use crate::user_key::user_of;
use edits::{LEVELS, PlacedTable};
use ikey::KeyOrder;

// The table of level 0, of these, that is searched at this place.
fn in_level_0<'a, K: KeyOrder>(
    newest: &'a [PlacedTable],
    key: &[u8],
    place: usize,
) -> Option<&'a PlacedTable>
    requires { place < length newest.now }
    ensures { MatchOption result
        ((placed : Placed) → HoldsAt (λ other. other ≡ placed) newest.now (length newest.now - 1 - place) → IsTrue (covers K.cmp placed (user_of key.now)) → ⊥)
        (λ placed. HoldsAt (λ other. other ≡ placed.now) newest.now (length newest.now - 1 - place) × IsTrue (covers K.cmp placed.now (user_of key.now))) }
{
    let placed = &newest[newest.len() - 1 - place];
    if !covers::<K>(placed, user_of(key)) {
        return None;
    }
    Some(placed)
}

// The table that is searched, of those of a deeper level.
fn in_level<'a, K: KeyOrder>(own: &'a [PlacedTable], key: &[u8]) -> Option<&'a PlacedTable>
    requires { AllPairs (λ a b. IsBelowInternal K.cmp a.table.largest b.table.largest) own.now }
    ensures { MatchOption result
        ((placed : Placed) → IsTableFor K.cmp key.now own.now placed → IsTrue (covers K.cmp placed (user_of key.now)) → ⊥)
        (λ placed. IsTableFor K.cmp key.now own.now placed.now × IsTrue (covers K.cmp placed.now (user_of key.now))) }
{
    let Some(found) = find_in::<K>(own, key) else {
        return None;
    };
    if !covers::<K>(found, user_of(key)) {
        return None;
    }
    Some(found)
}

// The first table that is searched from this level on, a deeper one, and its level. Each turn takes
// the tables of one level off the front, so that levels without tables take no turn.
fn next_deeper<'a, K: KeyOrder>(
    tables: &'a [PlacedTable],
    key: &[u8],
    from: u32,
) -> Option<(u32, &'a PlacedTable)>
    requires low { 0 < from }
    requires order { AreInOrder K.cmp tables.now }
    ensures { MatchOption result
        ((level : ℕ) (placed : Placed) → from ≤ level → IsSearchedIn K.cmp key.now tables.now level placed → ⊥)
        (λ found. IsSearchedFirst K.cmp key.now tables.now from found.0 found.1.now) }
{
    let (_, mut rest) = split_levels(tables, from);
    while let Some(first) = rest.first() {
        let (own, deeper) = split_levels(rest, first.level + 1);
        if let Some(placed) = in_level::<K>(own, key) {
            return Some((first.level, placed));
        }
        rest = deeper;
    }
    None
}

/// Returns the first table, of those of a version, that is searched for this internal key at this
/// place or a later one, and its place.
pub fn next_searched<'a, K: KeyOrder>(
    tables: &'a [PlacedTable],
    key: &[u8],
    from: usize,
) -> Option<(usize, &'a PlacedTable)>
    requires { AreInOrder K.cmp tables.now }
    ensures { MatchOption result
        ((place : ℕ) (placed : Placed) → from ≤ place → IsSearchedAt K.cmp key.now tables.now place placed → ⊥)
        (λ found. IsSearchedNext K.cmp key.now tables.now from found.0 found.1.now) }
{
    let (newest, deeper) = split_levels(tables, 1);
    for place in from..newest.len() {
        if let Some(placed) = in_level_0::<K>(newest, key, place) {
            return Some((place, placed));
        }
    }
    // After the places of level 0 there is one for each deeper level. This many of those lie before
    // `from`.
    let above = from.saturating_sub(newest.len());
    if above >= LEVELS as usize - 1 {
        return None;
    }
    let Some((level, placed)) = next_deeper::<K>(deeper, key, above as u32 + 1) else {
        return None;
    };
    Some((newest.len() + level as usize - 1, placed))
}
