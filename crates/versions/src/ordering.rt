//! The order of a version's tables.

ghost use Rattle.std.specs.Prelude.{◌≡◌, ◌≢◌, ◌<◌, ◌≤◌, false, length, AllPairs, IfOk, IfErr, OnOk, MatchBool, HoldsAt, [], ◌++◌};
ghost use Rattle.std.specs.List.{AllWithin};
ghost use Rattle.coding.specs.Errors.{RefusesOnly};
ghost use Rattle.edits.specs.Layout.{is_used};
ghost use Rattle.versions.specs.Levels.{IsRange, StandsBefore, AreInOrder, AreTablesApart, ListsSameTables};
ghost use Rattle.versions.specs.Steps.{Fits, IsPut};

use crate::numbers::{are_distinct, numbers_of};
use coding::{Damage, ReadError};
use edits::{LEVELS, PlacedTable, copy_of};
use ikey::{EntryOrder, Internal, KeyOrder};
use std::alloc::{AllocError, Global};

// Whether the table comes before the other.
fn comes_before<K: KeyOrder>(a: &PlacedTable, b: &PlacedTable) -> bool
    ensures { MatchBool result (StandsBefore K.cmp a.now b.now) (StandsBefore K.cmp a.now b.now → ⊥) }
{
    if a.level != b.level {
        return a.level < b.level;
    }
    if a.level == 0 {
        return a.table.number < b.table.number;
    }
    Internal::<K>::is_below(a.table.largest.as_slice(), b.table.smallest.as_slice())
}

// Whether the table's smallest key isn't above its largest.
fn has_range<K: KeyOrder>(placed: &PlacedTable) -> bool
    ensures { MatchBool result (IsRange K.cmp placed.now) (IsRange K.cmp placed.now → ⊥) }
{
    let smallest = placed.table.smallest.as_slice();
    let largest = placed.table.largest.as_slice();
    if smallest == largest {
        return true;
    }
    Internal::<K>::is_below(smallest, largest)
}

// Whether a table has this number.
fn is_number_used(tables: &[PlacedTable], number: u64) -> bool
    ensures { result ≡ is_used number tables.now }
{
    for placed in tables {
        if placed.table.number == number {
            return true;
        }
    }
    false
}

// The index of the first table that doesn't come before the new one.
fn place_for<K: KeyOrder>(tables: &[PlacedTable], new: &PlacedTable) -> usize
    requires { AreInOrder K.cmp tables.now }
    ensures within { result ≤ length tables.now }
    ensures front { AllWithin (λ placed. StandsBefore K.cmp placed new.now) tables.now 0 result }
    ensures back { result < length tables.now → HoldsAt (λ placed. StandsBefore K.cmp placed new.now → ⊥) tables.now result }
{
    let mut low = 0;
    let mut high = tables.len();
    while low < high {
        let middle = low + (high - low) / 2;
        if comes_before::<K>(&tables[middle], new) {
            low = middle + 1;
        } else {
            high = middle;
        }
    }
    low
}

// Whether the new table comes before that at the place, if there is one.
fn ends_before<K: KeyOrder>(tables: &[PlacedTable], place: usize, new: &PlacedTable) -> bool
    ensures { MatchBool result (place < length tables.now → HoldsAt (λ placed. StandsBefore K.cmp new.now placed) tables.now place)
        ((place < length tables.now) × HoldsAt (λ placed. StandsBefore K.cmp new.now placed → ⊥) tables.now place) }
{
    match tables.get(place) {
        Some(placed) => comes_before::<K>(new, placed),
        None => true,
    }
}

/// Puts a table in its place. Corrupt: its number is that of another one, there is no such level,
/// its keys are no range, or it overlaps one in a level below 0.
pub fn put_table<K: KeyOrder>(
    tables: &mut Vec<PlacedTable>,
    new: PlacedTable,
) -> Result<(), ReadError>
    requires { AreInOrder K.cmp tables.old.items }
    ensures done { OnOk result (IsPut K.cmp tables.old.items new tables.new.items) }
    ensures refused { IfErr result (λ e. RefusesOnly e (Fits K.cmp tables.old.items new → ⊥)) }
{
    if is_number_used(tables, new.table.number) {
        return Err(ReadError::Corrupt(Damage::Order));
    }
    put_fresh::<K>(tables, new)
}

// The same of a table whose number none of the others has.
fn put_fresh<K: KeyOrder>(tables: &mut Vec<PlacedTable>, new: PlacedTable) -> Result<(), ReadError>
    requires order { AreInOrder K.cmp tables.old.items }
    requires fresh { is_used new.table.number tables.old.items ≡ false }
    ensures done { OnOk result (IsPut K.cmp tables.old.items new tables.new.items) }
    ensures refused { IfErr result (λ e. RefusesOnly e (Fits K.cmp tables.old.items new → ⊥)) }
{
    if new.level >= LEVELS || !has_range::<K>(&new) {
        return Err(ReadError::Corrupt(Damage::Number));
    }
    let place = place_for::<K>(tables, &new);
    if !ends_before::<K>(tables, place, &new) {
        return Err(ReadError::Corrupt(Damage::Order));
    }
    tables.insert(place, new)?;
    Ok(())
}

// Whether no two of these tables have one number. All numbers are looked at together: to look for
// each among those in front takes the square of their number.
fn have_own_numbers(alloc: Global, tables: &[PlacedTable]) -> Result<bool, AllocError>
    ensures { IfOk result (λ own. MatchBool own (AllPairs (λ a b. a.table.number ≢ b.table.number) tables.now)
        (AllPairs (λ a b. a.table.number ≢ b.table.number) tables.now → ⊥)) }
{
    let numbers = numbers_of(alloc, tables)?;
    Ok(are_distinct(&numbers))
}

/// Puts copies of these tables into a vector without any. Corrupt, as in `put_table`.
pub fn put_tables<K: KeyOrder>(
    alloc: Global,
    tables: &mut Vec<PlacedTable>,
    listed: &[PlacedTable],
) -> Result<(), ReadError>
    requires { tables.old.items ≡ [] }
    ensures order { OnOk result (AreInOrder K.cmp tables.new.items) }
    ensures all { OnOk result (ListsSameTables listed.now tables.new.items) }
    ensures apart { OnOk result (AreTablesApart K.cmp listed.now) }
    ensures refused { IfErr result (λ e. RefusesOnly e (AreTablesApart K.cmp listed.now → ⊥)) }
{
    if !have_own_numbers(alloc, listed)? {
        return Err(ReadError::Corrupt(Damage::Order));
    }
    for placed in listed {
        put_fresh::<K>(tables, copy_of(alloc, placed)?)?;
    }
    Ok(())
}
