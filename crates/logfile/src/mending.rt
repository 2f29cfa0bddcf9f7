//! Finds where to cut a log of which a power loss left zeros.

ghost use Rattle.std.specs.Prelude.{◌≡◌, ◌<◌, ◌≤◌, ◌+◌, ◌++◌, ◌⊎◌, ℕ, List, false, length, take};
ghost use Rattle.std.specs.Prelude.{MatchBool, MatchOption};
ghost use Rattle.logfile.specs.Log.{Fragment as FragmentValue, length_said, AreBlocks, IsLog};
ghost use Rattle.logfile.specs.declared.record.Tail.{Tail as TailValue};
ghost use Rattle.logfile.specs.Mending.{AreAllBytes, AreWritten, IsHoled, IsZeroed, ReadsAsCut};
ghost use Rattle.logfile.specs.Mending.{EndsInZeros, HasNoPiece, IsBroken, IsLongestFront, IsPiece};
ghost use Rattle.logfile.specs.Mending.{IsCutAt, IsCutTo, IsMended, IsMendedTo};

use crate::blocks::are_zeros;
use crate::fragment::{BLOCK_LENGTH, HEADER_LENGTH, fragment_at};
use coding::Damage;

/// Returns the length of the longest prefix that is whole fragments.
/// After it the log ends, is cut off or is damaged.
pub fn whole_front(bytes: &[u8]) -> usize
    ensures { IsLongestFront bytes.now result }
{
    let mut at = 0;
    while at < bytes.len() {
        let (_, rest) = bytes.split_at(at);
        match step_over(rest, BLOCK_LENGTH - at % BLOCK_LENGTH) {
            Some(n) => at += n,
            None => return at,
        }
    }
    at
}

/// Returns where the first broken fragment begins: its checksum doesn't fit, or its type is
/// unknown. None: after the whole fragments stands nothing, a fragment that the file's end cuts
/// off, a length past its block, or a block's end that isn't zeros.
pub fn broken_at(bytes: &[u8]) -> Option<usize>
    ensures { MatchOption result ((front : List ℕ) → IsCutAt bytes.now front → ⊥)
        (λ n. (n ≤ length bytes.now) × IsCutAt bytes.now (take n bytes.now)) }
{
    let at = whole_front(bytes);
    let (_, rest) = bytes.split_at(at);
    if is_broken(rest, BLOCK_LENGTH - at % BLOCK_LENGTH) {
        Some(at)
    } else {
        None
    }
}

/// Returns where to cut a log that a power loss left with zeros at its end.
/// That is where the first broken fragment begins, if its last byte and all after it are zeros.
/// None: the log has no such end.
pub fn front_of(bytes: &[u8]) -> Option<usize>
    ensures { MatchOption result ((front : List ℕ) → IsMended bytes.now front → ⊥)
        (λ n. (n ≤ length bytes.now) × IsMended bytes.now (take n bytes.now)) }
{
    match broken_at(bytes) {
        Some(at) => {
            let (_, rest) = bytes.split_at(at);
            if ends_in_zeros(rest) { Some(at) } else { None }
        }
        None => None,
    }
}

// Returns how many bytes the whole fragment at the front takes, or the zeros at the block's end.
fn step_over(rest: &[u8], room: usize) -> Option<usize>
    requires room { 0 < room }
    requires block { room ≤ 32768 }
    requires some { 0 < length rest.now }
    ensures { MatchOption result (HasNoPiece room rest.now)
        (λ n. (0 < n) × (n ≤ length rest.now) × IsPiece room (take n rest.now)) }
{
    if room < HEADER_LENGTH {
        return zeros_over(rest, room);
    }
    let here = &rest[..rest.len().min(room)];
    match fragment_at(here, room) {
        Ok(Some((fragment, _))) => Some(HEADER_LENGTH + fragment.data.len()),
        Ok(None) => None,
        Err(_) => None,
    }
}

// The same where no header fits, so that just the zeros may stand there.
fn zeros_over(rest: &[u8], room: usize) -> Option<usize>
    requires room { 0 < room }
    requires small { room < 7 }
    ensures { MatchOption result (HasNoPiece room rest.now)
        (λ n. (0 < n) × (n ≤ length rest.now) × IsPiece room (take n rest.now)) }
{
    if rest.len() < room {
        return None;
    }
    let (zeros, _) = rest.split_at(room);
    if !are_zeros(zeros) {
        return None;
    }
    Some(room)
}

// Returns whether a broken fragment stands at the front.
fn is_broken(rest: &[u8], room: usize) -> bool
    requires block { room ≤ 32768 }
    ensures { MatchBool result (IsBroken room rest.now) (IsBroken room rest.now → ⊥) }
{
    if room < HEADER_LENGTH || rest.len() < HEADER_LENGTH {
        return false;
    }
    let here = &rest[..rest.len().min(room)];
    match fragment_at(here, room) {
        Ok(Some(_)) => false,
        Ok(None) => false,
        Err(Damage::Checksum) => true,
        Err(Damage::Kind) => true,
        Err(Damage::Length) => false,
        Err(Damage::Padding) => false,
        Err(Damage::Number) => false,
        Err(Damage::Order) => false,
        Err(Damage::Missing) => false,
    }
}

// Returns whether all are zeros from the last byte on that the header says.
fn ends_in_zeros(rest: &[u8]) -> bool
    requires there { 7 + length_said rest.now ≤ length rest.now }
    ensures { MatchBool result (EndsInZeros rest.now) (EndsInZeros rest.now → ⊥) }
{
    let [_, _, _, _, low, high, ..] = rest else {
        return false;
    };
    let (_, end) = rest.split_at(6 + usize::from(u16::from_le_bytes([*low, *high])));
    are_zeros(end)
}

/// Proves that no prefix of whole fragments is longer than the one that is cut after.
pub fn longest_front()
    ensures { (bytes front sure more : List ℕ) (fragments : List FragmentValue)
        → IsMended bytes front ⊎ IsCutAt bytes front → bytes ≡ sure ++ more → AreBlocks sure fragments false
        → (rest : List ℕ) × (front ≡ sure ++ rest) }
{}

/// Proves that no prefix that is a log has a record more than the one that is cut after.
pub fn most_records()
    ensures { (bytes front sure more : List ℕ) (records kept : List (List ℕ)) (tail end : TailValue)
        → IsCutAt bytes front → IsLog front kept end → bytes ≡ sure ++ more → IsLog sure records tail
        → (others : List (List ℕ)) × (kept ≡ records ++ others) }
{}

/// Proves that what has a place to cut is no log.
pub fn cut_is_no_log()
    ensures { (bytes front : List ℕ) (records : List (List ℕ)) (tail : TailValue)
        → IsCutAt bytes front → IsLog bytes records tail → ⊥ }
{}

/// Proves that a log with zeros at its end reads as the log cut off at the same place, or is mended
/// to a prefix of it.
pub fn zeroed()
    ensures { (held bytes : List ℕ) (records : List (List ℕ)) (tail : TailValue)
        → IsLog held records tail → IsZeroed held bytes → AreWritten held bytes → AreAllBytes bytes
        → ReadsAsCut held bytes ⊎ IsMendedTo held bytes }
{}

/// Proves that so does a log with zeros anywhere, or its first broken fragment follows a prefix of
/// what was held.
pub fn holed()
    ensures { (held bytes : List ℕ) (records : List (List ℕ)) (tail : TailValue)
        → IsLog held records tail → IsHoled held bytes → AreWritten held bytes → AreAllBytes bytes
        → ReadsAsCut held bytes ⊎ IsCutTo held bytes }
{}
