// What is asked of a folder beside the calls of a store.

use super::Folder;
use crate::failure::Failure;
use std::alloc::Global;
use std::fs::{File, Metadata};
use std::os::unix::fs::{MetadataExt, fchown};

impl Folder {
    /// Returns what the folder takes its memory from.
    pub fn alloc(&self) -> Global {
        self.rt.alloc()
    }

    /// Says whether the last list had this name for something else than a file.
    pub fn is_taken(&self, name: &str) -> bool {
        self.taken.contains(name)
    }

    /// Gives a file the permissions of another one, and its owner and group where the system allows
    /// that.
    pub fn keep_owner(&mut self, from: &str, to: &str) -> Result<(), Failure> {
        let wanted = self.kept_file(from, false)?.metadata()?;
        let file = self.kept_file(to, false)?;
        let found = file.metadata()?;
        if found.uid() != wanted.uid() || found.gid() != wanted.gid() {
            give_owner(file, &wanted);
        }
        if found.permissions() != wanted.permissions() {
            file.set_permissions(wanted.permissions())?;
        }
        Ok(())
    }
}

// Gives a file this owner and group, or this group, as far as the system allows it.
fn give_owner(file: &File, wanted: &Metadata) {
    if fchown(file, Some(wanted.uid()), Some(wanted.gid())).is_err() {
        let _ = fchown(file, None, Some(wanted.gid()));
    }
}
