//! The first bytes of a key as one number, which is kept where keys are searched for.

ghost use Rattle.std.specs.Prelude.{◌≡◌, get_or};
ghost use Rattle.std.specs.Ordering.{nat_cmp};
ghost use Rattle.std.specs.Cmp.Lexicographic.{slice_cmp};
ghost use Rattle.ikey.specs.Fronts.{IsFront, Decides};

use std::cmp::Ordering;

/// Holds the number that the first sixteen bytes of a key spell, the first of which weighs most. A
/// shorter key goes on with zeroes.
#[derive(Clone, Copy)]
pub struct Front {
    number: u128,
}

impl Front {
    /// Returns the front of a key.
    #[inline(always)]
    pub fn of(key: &[u8]) -> Self
        ensures { IsFront result key.now }
    {
        match key.split_first_chunk::<16>() {
            Some((bytes, _)) => Front {
                number: u128::from_be_bytes(*bytes),
            },
            None => Front::of_short(key),
        }
    }

    // The front of a key that may have fewer bytes.
    fn of_short(key: &[u8]) -> Self
        ensures { IsFront result key.now }
    {
        let mut number: u128 = 0;
        for index in 0..16 {
            number = number * 256 + u128::from(byte_at(key, index));
        }
        Front { number }
    }

    /// Compares two fronts. If they differ, the keys compare in the same way in the order of bytes,
    /// and also after a common prefix. Equal ones say nothing.
    #[inline(always)]
    pub fn compare_bytes(self, other: Self) -> Ordering
        ensures { Decides (slice_cmp nat_cmp) self other result }
    {
        if self.number < other.number {
            return Ordering::Less;
        }
        if other.number < self.number {
            return Ordering::Greater;
        }
        Ordering::Equal
    }
}

// The byte at an index, or zero after the end.
#[inline(always)]
fn byte_at(bytes: &[u8], index: usize) -> u8
    ensures { result ≡ get_or bytes.now index 0 }
{
    match bytes.get(index) {
        Some(byte) => *byte,
        None => 0,
    }
}
