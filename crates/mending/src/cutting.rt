//! Finds where the bytes of a log are cut.

ghost use Rattle.std.specs.Prelude.{◌≡◌, ◌<◌, ◌≤◌, ◌+◌, ◌^◌, ◌++◌, ℕ, List, length, take, drop, IfOk};
ghost use Rattle.std.specs.Prelude.{IfErr, IfSome, MatchBool, MatchOption};
ghost use Rattle.coding.specs.Errors.{RefusesOnly};
ghost use Rattle.logfile.specs.Log.{length_said, IsLog};
ghost use Rattle.logfile.specs.declared.record.Tail.{Tail as TailValue};
ghost use Rattle.mending.specs.Cutting.{Becomes, HasHole, IsCut, IsMark, front_by};
ghost use Rattle.mending.specs.declared.ends.Ends.{Ends as EndsValue};
ghost use Rattle.mending.specs.declared.ends.Ends.TheVariants as ends;

use crate::ends::Ends;
use coding::ReadError;
use logfile::{broken_at, front_of, read_log};
use std::alloc::Global;

/// The size of a sector: a device writes one whole or not at all.
const SECTOR: usize = 512;

/// Returns where to cut the bytes of a log, or None if they stay. Fails as `read_log`, if neither
/// they nor what would be left of them is a log.
pub fn judge(alloc: Global, ends: Ends, bytes: &[u8]) -> Result<Option<usize>, ReadError>
    ensures found { IfOk result (λ cut. Becomes ends bytes.now (front_by cut bytes.now)) }
    ensures cut { IfOk result (λ cut. IfSome cut (λ n. (n ≤ length bytes.now)
        × IsCut ends bytes.now (take n bytes.now))) }
    ensures refused { IfErr result (λ e. RefusesOnly e ((front : List ℕ) → Becomes ends bytes.now front → ⊥)) }
{
    match cut_at(ends, bytes) {
        Some(n) => {
            let (front, _) = bytes.split_at(n);
            let _ = read_log(alloc, front)?;
            Ok(Some(n))
        }
        None => {
            let _ = read_log(alloc, bytes)?;
            Ok(None)
        }
    }
}

// Returns where to cut the bytes, whether or not what is left is a log.
fn cut_at(ends: Ends, bytes: &[u8]) -> Option<usize>
    ensures { MatchOption result ((front : List ℕ) → IsCut ends bytes.now front → ⊥)
        (λ n. (n ≤ length bytes.now) × IsCut ends bytes.now (take n bytes.now)) }
{
    match ends {
        Ends::Zeros => front_of(bytes),
        Ends::Holes => cut_at_hole(bytes),
    }
}

fn cut_at_hole(bytes: &[u8]) -> Option<usize>
    ensures { MatchOption result ((front : List ℕ) → IsCut ends.Holes bytes.now front → ⊥)
        (λ n. (n ≤ length bytes.now) × IsCut ends.Holes bytes.now (take n bytes.now)) }
{
    match front_of(bytes) {
        Some(n) => Some(n),
        None => match broken_at(bytes) {
            Some(n) => { if has_hole(bytes, n) { Some(n) } else { None } }
            None => None,
        },
    }
}

// Returns whether a zero ends a sector or the file, from the broken fragment on that begins at
// `at` and up to a sector after it.
fn has_hole(bytes: &[u8], at: usize) -> bool
    requires there { 7 + length_said (drop at bytes.now) ≤ length (drop at bytes.now) }
    ensures { MatchBool result (HasHole bytes.now at) (HasHole bytes.now at → ⊥) }
{
    let (_, rest) = bytes.split_at(at);
    let said = length_in(rest);
    for n in 1..said + SECTOR + 7 {
        if is_mark(rest, n, at) {
            return true;
        }
    }
    false
}

// Returns how many bytes of data the header at the front says.
fn length_in(rest: &[u8]) -> usize
    requires { 7 ≤ length rest.now }
    ensures said { result ≡ length_said rest.now }
    ensures small { result < 65536 }
{
    let [_, _, _, _, low, high, ..] = rest else {
        return 0;
    };
    usize::from(u16::from_le_bytes([*low, *high]))
}

// Returns whether the byte before this place is a zero that ends a sector or the file. `at` bytes
// stand in front of `rest`.
fn is_mark(rest: &[u8], n: usize, at: usize) -> bool
    requires place { 0 < n }
    requires front { n < 2 ^ 17 }
    requires fits { at + length rest.now < 2 ^ 63 }
    ensures { MatchBool result (IsMark rest.now n at) (IsMark rest.now n at → ⊥) }
{
    if n > rest.len() {
        return false;
    }
    if (at + n) % SECTOR != 0 {
        if n != rest.len() {
            return false;
        }
    }
    rest[n - 1] == 0
}

/// Law: no bytes have two fronts to be cut behind.
pub fn one_front()
    ensures { (ends : EndsValue) (bytes front other : List ℕ) → Becomes ends bytes front
        → Becomes ends bytes other → front ≡ other }
{}

/// Law: what is left stays as it is.
pub fn again()
    ensures { (ends : EndsValue) (bytes front other : List ℕ) → Becomes ends bytes front
        → Becomes ends front other → other ≡ front }
{}

/// Law: what is left has the records of each prefix that is a log.
pub fn keeps_records()
    ensures { (ends : EndsValue) (bytes front sure more : List ℕ) (records : List (List ℕ)) (tail : TailValue)
        → Becomes ends bytes front → bytes ≡ sure ++ more → IsLog sure records tail
        → (others : List (List ℕ)) × (end : TailValue) × IsLog front (records ++ others) end }
{}
