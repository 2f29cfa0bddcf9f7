//! Equality of bytes a word at a time.

ghost use Rattle.std.specs.Prelude.{◌≡◌, MatchBool};

use crate::byte_order::compare_bytes;
use std::cmp::Ordering;

/// Returns whether two byte strings are the same. The standard `==` takes several times as long if
/// the first bytes agree, as those of neighbouring keys mostly do.
#[inline]
pub fn same_bytes(a: &[u8], b: &[u8]) -> bool
    ensures { MatchBool result (a.now ≡ b.now) (a.now ≡ b.now → ⊥) }
{
    if a.len() != b.len() {
        return false;
    }
    match compare_bytes(a, b) {
        Ordering::Equal => true,
        Ordering::Less => false,
        Ordering::Greater => false,
    }
}
