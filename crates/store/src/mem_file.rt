// A file in memory.
ghost use Rattle.std.specs.Prelude.{◌≡◌, ◌++◌, Some, None, [], length, OnOk, OnErr, IfOk};
ghost use Rattle.store.specs.MemFile.{Content, HasFront, synced_bytes};

use std::alloc::{AllocError, Global};
use std::marker::Model;

/// Holds the bytes of a file, and how many of them were there when it was synced. Bytes are only
/// added, so its first bytes are still what was synced.
#[derive(Drop)]
pub struct MemFile {
    bytes: Vec<u8>,
    synced: Option<usize>,
}

impl Model for MemFile {
    ghost Value = { Content };

    ghost view = { λ file. record { bytes = file.bytes.items; synced = file.synced } };

    ghost invariant = { λ file. HasFront file.bytes.items file.synced };
}

impl MemFile {
    /// Returns an empty file, never synced.
    pub fn new(alloc: Global) -> Self
        ensures { result ≡ record { bytes = []; synced = None } }
    {
        MemFile {
            bytes: Vec::new(alloc),
            synced: None,
        }
    }

    /// Returns its bytes.
    pub fn bytes(&self) -> &[u8]
        ensures { result.now ≡ self.now.bytes }
    {
        self.bytes.as_slice()
    }

    /// Returns how many of its bytes are synced, if it ever was.
    pub fn synced_length(&self) -> Option<usize>
        ensures { self.now.synced ≡ result }
    {
        self.synced
    }

    /// Adds bytes at its end.
    pub fn append(&mut self, bytes: &[u8]) -> Result<(), AllocError>
        ensures ok { OnOk result (self.new ≡ record self.old { bytes = self.old.bytes ++ bytes.now }) }
        ensures err { OnErr result (self.new ≡ self.old) }
        ensures synced { synced_bytes self.new ≡ synced_bytes self.old }
    {
        self.bytes.extend_from_slice(bytes)?;
        Ok(())
    }

    /// Marks all of its bytes as synced.
    pub fn sync(&mut self)
        ensures { self.new ≡ record self.old { synced = Some (length self.old.bytes) } }
    {
        self.synced = Some(self.bytes.len());
    }
}

impl Clone for MemFile {
    ghost is_clone = { λ file copy. copy ≡ file };

    fn clone(&self) -> Result<MemFile, AllocError> {
        Ok(MemFile {
            bytes: self.bytes.clone()?,
            synced: self.synced,
        })
    }
}
