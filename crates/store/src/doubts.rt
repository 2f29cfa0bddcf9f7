//! Which files are in doubt: a sync of them failed, so what is read of them may not be on the
//! device.
//!
//! A system may drop what it couldn't write, go on reading it from its own memory, and answer Ok to
//! the next sync (Linux does). So the next sync of such a file writes its bytes into a new file,
//! which takes the name once it is synced. Nobody else may know of the failure: so the file is
//! marked by an empty temporary file of its number, which is also the one that it is written anew
//! by way of. The mark needn't be on the device, since what is read is the device's own once the
//! system has forgotten the mark.

use crate::StoreError;
use crate::failure::Failure;
use crate::folder::Folder;
use crate::names::{is_temporary, number_in, number_of, temporary};
use std::alloc::{AllocError, Global};
use std::collections::BTreeSet;

// How many bytes of a file are copied at once.
const PIECE: usize = 1 << 18;

/// Holds the numbers of the files that are in doubt. A file without a number is none of them, and
/// no temporary file is: nobody relies on what it holds.
#[derive(Drop)]
pub struct Doubts {
    numbers: BTreeSet<u64>,
}

impl Doubts {
    /// Returns no doubts.
    pub fn none(alloc: Global) -> Self {
        Doubts {
            numbers: BTreeSet::new(alloc),
        }
    }

    /// Notes the files that are marked, by the names that the folder's list had.
    pub fn see(&mut self, folder: &Folder, names: &[String]) -> Result<(), AllocError> {
        for name in names {
            if is_temporary(name.as_str()) && !folder.is_taken(name.as_str()) {
                self.note(name.as_str())?;
            }
        }
        Ok(())
    }

    // Notes the number in a name.
    fn note(&mut self, name: &str) -> Result<(), AllocError> {
        if let Some(number) = number_of(name) {
            let _ = self.numbers.insert(number)?;
        }
        Ok(())
    }

    // Whether a file is in doubt.
    fn has(&self, name: &str) -> bool {
        if self.numbers.is_empty() || is_temporary(name) {
            return false;
        }
        match number_of(name) {
            Some(number) => self.numbers.contains(&number),
            None => false,
        }
    }

    // Ends the doubt about a file.
    fn settle(&mut self, name: &str) {
        if self.has(name) {
            if let Some(number) = number_of(name) {
                self.numbers.remove(&number);
            }
        }
    }
}

/// Syncs a file, or writes it anew if it is in doubt. If that fails, it is in doubt from then on,
/// and is marked as far as memory and the device allow it.
pub fn sync_file(folder: &mut Folder, doubts: &mut Doubts, name: &str) -> Result<(), Failure> {
    let synced = if doubts.has(name) {
        write_anew(folder, name)
    } else {
        folder.sync(name)
    };
    match synced {
        Ok(()) => {
            doubts.settle(name);
            Ok(())
        }
        Err(failure) => {
            doubt(folder, doubts, name, failure);
            Err(failure)
        }
    }
}

// Puts a file in doubt and marks it, unless it isn't there.
fn doubt(folder: &mut Folder, doubts: &mut Doubts, name: &str, failure: Failure) {
    if failure.error == StoreError::Missing || is_temporary(name) {
        return;
    }
    let _ = doubts.note(name);
    if let Ok(Some(mark)) = mark_of(folder.alloc(), name) {
        let _ = folder.create(mark.as_str());
    }
}

// The name of the temporary file of a file's number.
fn mark_of(alloc: Global, name: &str) -> Result<Option<String>, AllocError> {
    match number_in(name) {
        Some(digits) => Ok(Some(temporary(alloc, digits)?)),
        None => Ok(None),
    }
}

// Writes the bytes of a file into a new file, syncs that, and gives it the name. What a process
// crash or a power loss leaves has the name for the old file or for the new one. A failure leaves
// the old one, and the mark.
fn write_anew(folder: &mut Folder, name: &str) -> Result<(), Failure> {
    let Some(copy) = mark_of(folder.alloc(), name)? else {
        return folder.sync(name);
    };
    begin_copy(folder, copy.as_str())?;
    if let Err(failure) = fill_copy(folder, name, copy.as_str()) {
        // the device may be full: an empty file is a mark, too
        let _ = folder.create(copy.as_str());
        return Err(failure);
    }
    folder.rename(copy.as_str(), name)?;
    folder.sync(name)
}

// Makes an empty file. What is in its way is removed, as a link, or another user's file.
fn begin_copy(folder: &mut Folder, copy: &str) -> Result<(), Failure> {
    match folder.create(copy) {
        Ok(()) => Ok(()),
        Err(_) => {
            folder.remove(copy)?;
            folder.create(copy)
        }
    }
}

// Makes a synced copy of a file in an empty one.
fn fill_copy(folder: &mut Folder, name: &str, copy: &str) -> Result<(), Failure> {
    folder.keep_owner(name, copy)?;
    copy_bytes(folder, name, copy)?;
    folder.sync(copy)
}

// Adds the bytes of a file to another, piece by piece.
fn copy_bytes(folder: &mut Folder, name: &str, copy: &str) -> Result<(), Failure> {
    let alloc = folder.alloc();
    let mut offset = 0u64;
    let mut room = Vec::new(alloc);
    for _ in 0..u64::MAX {
        room = folder.read_into(alloc, name, offset, PIECE, room)?;
        if room.is_empty() {
            return Ok(());
        }
        folder.append(copy, room.as_slice())?;
        offset = offset.saturating_add(room.len() as u64);
    }
    Err(Failure::untold(StoreError::Device))
}
