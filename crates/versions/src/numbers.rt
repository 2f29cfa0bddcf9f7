//! The numbers of tables, by which one is found among many without a look at each.

ghost use Rattle.std.specs.Prelude.{◌≢◌, AllPairs, Contains, IfOk, MatchBool};
ghost use Rattle.std.specs.List.Sorted.{IsNonDecreasing};
ghost use Rattle.versions.specs.Levels.{AreNumbers};

use edits::PlacedTable;
use std::alloc::{AllocError, Global};

/// Lists the numbers of these tables, rising.
pub fn numbers_of(alloc: Global, tables: &[PlacedTable]) -> Result<Vec<u64>, AllocError>
    ensures { IfOk result (λ numbers. AreNumbers tables.now numbers.items) }
{
    let mut numbers = Vec::with_capacity(alloc, tables.len())?;
    for placed in tables {
        numbers.push(placed.table.number)?;
    }
    numbers.sort_unstable();
    Ok(numbers)
}

/// Returns whether the number is one of these, which rise.
pub fn is_among(numbers: &[u64], number: u64) -> bool
    requires { IsNonDecreasing numbers.now }
    ensures { MatchBool result (Contains numbers.now number) (Contains numbers.now number → ⊥) }
{
    numbers.binary_search(&number).is_ok()
}

/// Returns whether none of these, which rise, stands there twice.
pub fn are_distinct(numbers: &[u64]) -> bool
    requires { IsNonDecreasing numbers.now }
    ensures { MatchBool result (AllPairs (λ a b. a ≢ b) numbers.now) (AllPairs (λ a b. a ≢ b) numbers.now → ⊥) }
{
    for index in 1..numbers.len() {
        if numbers[index - 1] == numbers[index] {
            return false;
        }
    }
    true
}
