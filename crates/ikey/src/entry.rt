//! Entries: what a database keeps of its writes.

ghost use Rattle.std.specs.Prelude.{◌≡◌, ◌<◌, ◌^◌, IfOk};
ghost use Rattle.ikey.specs.Keys.{IsKey};
ghost use Rattle.ikey.specs.Entries.{kind_of, internal_key_of};

use crate::internal_key::{Kind, pack};
use coding::Bytes;
use std::alloc::{AllocError, Global};

/// Holds what was put at a key, or that it was deleted, and when.
#[derive(Debug, PartialEq, Drop)]
pub struct Entry {
    /// The user key.
    pub key: Bytes,
    /// The sequence number of the write, below `SEQUENCE_END`.
    pub sequence: u64,
    /// The value, or nothing for a delete.
    pub value: Option<Bytes>,
}

impl Entry {
    /// Returns what the entry does to its key.
    pub fn kind(&self) -> Kind
        ensures { result ≡ kind_of self.now.value }
    {
        match &self.value {
            Some(_) => Kind::Put,
            None => Kind::Delete,
        }
    }

    /// Returns the bytes of the entry's internal key, under which memory and tables keep it.
    pub fn internal_key(&self, alloc: Global) -> Result<Vec<u8>, AllocError>
        requires { self.now.sequence < 2 ^ 56 }
        ensures { IfOk result (λ bytes. IsKey bytes.items (internal_key_of self.now)) }
    {
        pack(alloc, self.key.as_slice(), self.sequence, self.kind())
    }
}
