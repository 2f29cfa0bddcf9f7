//! Byte strings: the keys and values of the database (LevelDB's `doc/index.md`: "arbitrary byte
//! arrays").

ghost use Rattle.std.specs.Cmp.{partial_equiv_from_equiv};
ghost use Rattle.std.specs.Cmp.Lexicographic.{pointwise, nat_list_eq_equiv};
ghost use Rattle.std.specs.Prelude.{nat_eq};

use std::alloc::{AllocError, Global};
use std::marker::Model;

/// Holds an owned byte string, of any length and any bytes. Contracts see it as the list of its
/// bytes, so that definitions compare contents. It is made from a `Vec` and returned as one without
/// taking memory.
#[derive(Debug, Drop)]
pub struct Bytes {
    bytes: Vec<u8>,
}

impl Model for Bytes {
    ghost use Rattle.std.specs.Prelude.{List, ℕ};

    ghost Value = { List ℕ };

    ghost view = { λ b. b.bytes.items };
}

impl Bytes {
    ghost use Rattle.std.specs.Prelude.{◌≡◌, ◌==◌, length, IfOk};

    /// Copies bytes that are kept elsewhere. It fails only out of memory.
    pub fn copied_from(alloc: Global, bytes: &[u8]) -> Result<Self, AllocError>
        ensures { IfOk result (λ copy. copy ≡ bytes.now) }
    {
        Ok(Bytes::from_vec(Vec::from_slice(alloc, bytes)?))
    }

    /// Makes a byte string of the vector's bytes: the vector is taken over as it is, with its room.
    pub fn from_vec(bytes: Vec<u8>) -> Self
        ensures { result ≡ bytes.items }
    {
        Bytes { bytes }
    }

    /// Returns the vector that holds the bytes.
    pub fn into_vec(self) -> Vec<u8>
        ensures { result.items ≡ self }
    {
        let Bytes { bytes } = self;
        bytes
    }

    /// Returns the bytes, borrowed.
    pub fn as_slice(&self) -> &[u8]
        ensures { result.now ≡ self.now }
    {
        self.bytes.as_slice()
    }

    /// Returns how many bytes there are.
    pub fn len(&self) -> usize
        ensures { result ≡ length self.now }
    {
        self.bytes.len()
    }

    /// Returns whether there are no bytes.
    pub fn is_empty(&self) -> bool
        ensures { result ≡ (length self.now == 0) }
    {
        self.bytes.is_empty()
    }
}

/// Byte strings are equal if they have the same bytes in the same order.
impl PartialEq for Bytes {
    ghost eq = { pointwise nat_eq };

    ghost laws = { partial_equiv_from_equiv nat_list_eq_equiv };

    fn eq(&self, other: &Self) -> bool {
        self.as_slice() == other.as_slice()
    }
}

impl Eq for Bytes {
    ghost laws = { nat_list_eq_equiv };
}
