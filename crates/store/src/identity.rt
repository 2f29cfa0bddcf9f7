//! Which file a name had.

use std::fs::Metadata;
use std::os::unix::fs::MetadataExt;
use std::time::SystemTime;

/// Tells a file from another one that has its name later: by its number on its device, and by when
/// it was made. A system that keeps no such time may give a new file the number of an old one, and
/// then the two are taken for one.
#[derive(Clone, Copy, PartialEq, Eq)]
pub struct Identity {
    device: u64,
    number: u64,
    made: Option<SystemTime>,
}

impl Identity {
    /// Returns that of the file of which this was found.
    pub fn of(found: &Metadata) -> Self {
        Identity {
            device: found.dev(),
            number: found.ino(),
            made: found.created().ok(),
        }
    }
}
