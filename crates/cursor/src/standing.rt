//! Where the cursor beneath an iteration stands, and how it comes beside the iteration's pair.

ghost use Rattle.std.specs.Prelude.{◌≡◌, ◌<◌, ◌^◌, ℕ, List, Option, Some, false, IsTrue, OnOk, slice_get};
ghost use Rattle.std.specs.Option.{option_copied};
ghost use Rattle.ikey.specs.Entries.{InternalEntry};
ghost use Rattle.table.specs.Reading.{IsStill};
ghost use Rattle.cursor.specs.Places.{within, index_before, is_less};
ghost use Rattle.cursor.specs.Moves.{RefusesMoves};
ghost use Rattle.cursor.specs.Merging.{listed};
ghost use Rattle.cursor.specs.Views.{IsVisible};
ghost use Rattle.cursor.specs.Searches.{Wanders, StandsBetween, FromOn};
ghost use Rattle.cursor.specs.Standing.{StandsAt, bound_if};

use crate::cursor::Cursor;
use crate::stepping::{step_ahead, step_off};
use coding::DbError;
use ikey::{KeyOrder, seek_key};
use std::alloc::Global;

/// Tells where the cursor beneath stands, as seen from the pair that the iteration stands on.
#[derive(Clone, Copy, Debug, PartialEq, Eq)]
pub enum Position {
    /// On the pair's entry.
    Here,
    /// On the last entry of a lower user key, or nowhere if there is none. The value is kept.
    Behind,
    /// Anywhere: a move failed.
    Astray,
}

/// Moves the cursor after all entries of lower user keys, and before those that are older than the
/// pair's or of higher user keys. It isn't on the pair's own entry, which needn't be read again.
pub fn stand_ahead<K: KeyOrder, S, C: Cursor<K, S>>(
    cursor: &mut C,
    alloc: Global,
    source: &mut S,
    position: Position,
    user: &[u8],
    sequence: u64,
) -> Result<(), DbError>
    requires { sequence < 2 ^ 56 }
    ensures stands { IsTrue (C.facts source.new).faithful → OnOk result
        ((entries : List InternalEntry) (entry : InternalEntry) (value : List ℕ) → IsVisible entries sequence entry
        → user.now ≡ entry.key.user
        → StandsAt K.cmp C.lists position cursor.old source.old entries entry value
        → (index : ℕ) × C.lists cursor.new source.new (listed entries (within entries index))
        × StandsBetween K.cmp entries index user.now) }
    ensures wanders { Wanders C.facts C.lists C.keeps C.limited C.torn C.leaves C.over cursor.old cursor.new source.old source.new }
    ensures still { IsStill (C.facts source.old) (C.facts source.new) result }
    ensures refused { RefusesMoves C.facts C.lists C.limited C.torn cursor.old source.old source.new result }
{
    match position {
        Position::Here => {
            step_off(cursor, alloc, source)?;
            Ok(())
        }
        Position::Behind => {
            step_ahead(cursor, alloc, source)?;
            Ok(())
        }
        Position::Astray => {
            find_again(cursor, alloc, source, user, sequence)?;
            Ok(())
        }
    }
}

/// Has the cursor stand on the pair's entry, or on the last one of a lower user key.
pub fn stand_behind<K: KeyOrder, S, C: Cursor<K, S>>(
    cursor: &mut C,
    alloc: Global,
    source: &mut S,
    position: Position,
    user: &[u8],
    sequence: u64,
) -> Result<(), DbError>
    requires { sequence < 2 ^ 56 }
    ensures stands { IsTrue (C.facts source.new).faithful → OnOk result
        ((entries : List InternalEntry) (entry : InternalEntry) (value : List ℕ) → IsVisible entries sequence entry
        → user.now ≡ entry.key.user
        → StandsAt K.cmp C.lists position cursor.old source.old entries entry value
        → (index : ℕ) × C.lists cursor.new source.new (listed entries (index_before index))
        × FromOn entries index (λ other. is_less (K.cmp other.key.user user.now) ≡ false)) }
    ensures wanders { Wanders C.facts C.lists C.keeps C.limited C.torn C.leaves C.over cursor.old cursor.new source.old source.new }
    ensures still { IsStill (C.facts source.old) (C.facts source.new) result }
    ensures refused { RefusesMoves C.facts C.lists C.limited C.torn cursor.old source.old source.new result }
{
    match position {
        Position::Here => Ok(()),
        Position::Behind => Ok(()),
        Position::Astray => {
            find_again(cursor, alloc, source, user, sequence)?;
            Ok(())
        }
    }
}

// Has the cursor stand on the visible entry of the user key.
fn find_again<K: KeyOrder, S, C: Cursor<K, S>>(
    cursor: &mut C,
    alloc: Global,
    source: &mut S,
    user: &[u8],
    sequence: u64,
) -> Result<(), DbError>
    requires { sequence < 2 ^ 56 }
    ensures finds { IsTrue (C.facts source.new).faithful → OnOk result
        ((entries : List InternalEntry) (entry : InternalEntry) (index : ℕ) (place : Option ℕ) → IsVisible entries sequence entry
        → user.now ≡ entry.key.user
        → slice_get entries index ≡ Some entry → C.lists cursor.old source.old (listed entries place)
        → C.lists cursor.new source.new (listed entries (Some index))) }
    ensures wanders { Wanders C.facts C.lists C.keeps C.limited C.torn C.leaves C.over cursor.old cursor.new source.old source.new }
    ensures still { IsStill (C.facts source.old) (C.facts source.new) result }
    ensures refused { RefusesMoves C.facts C.lists C.limited C.torn cursor.old source.old source.new result }
{
    let key = seek_key(alloc, user, sequence)?;
    cursor.seek(alloc, source, &key)?;
    Ok(())
}

/// Returns what a search back is bound by.
pub fn bound_of(past: bool, key: &[u8]) -> Option<&[u8]>
    ensures { option_copied result ≡ bound_if past key.now }
{
    if past { Some(key) } else { None }
}
