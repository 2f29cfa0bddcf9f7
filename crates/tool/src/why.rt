// Where a refusal comes from, on standard error: the file, the place in it, what was found and what
// was wanted, by the note that the store took beside it.

use crate::saying::Escaped;
use coding::{Damage, DbError, Feature, FileKind};
use std::io::Write;
use store::{Trouble, Why};

/// Says where a refusal comes from, if the last note is of its kind; an older one says nothing of
/// it.
pub fn say_why<F: Write>(faults: &mut F, folder: &str, error: DbError, noted: Trouble) {
    if error == DbError::Corrupt(FileKind::Directory, Damage::Missing) {
        let folder = Escaped(before_slash(folder));
        let _ = writeln!(
            faults,
            "ldbtool: {folder}/CURRENT: isn't there, and a table or a log is"
        );
        return;
    }
    if suits(noted, error) {
        say_noted(faults, folder, noted);
    }
}

/// Says what was noted, if anything was.
pub fn say_noted<F: Write>(faults: &mut F, folder: &str, noted: Trouble) {
    if noted.why == Why::Nothing {
        return;
    }
    if noted.name.as_bytes().is_empty() {
        let _ = writeln!(faults, "ldbtool: {}: {noted}", Escaped(folder));
        return;
    }
    let folder = Escaped(before_slash(folder));
    let _ = writeln!(faults, "ldbtool: {folder}/{}: {noted}", noted.name);
    if noted.why == Why::Lock {
        let _ = writeln!(
            faults,
            "ldbtool: {folder}/LOCK: must be a plain file, no link and with no second name, \
             and no folder or link may be named LOCK-wal"
        );
    }
}

/// Returns a folder without the slash at its end.
pub fn before_slash(folder: &str) -> &str {
    match folder.strip_suffix('/') {
        Some(before) => before,
        None => folder,
    }
}

// Whether such a refusal may come of what was noted.
fn suits(noted: Trouble, error: DbError) -> bool {
    match error {
        DbError::Io => is_of_a_call(noted.why),
        DbError::Corrupt(kind, _) => is_damage(noted.why) && is_of_kind(noted, kind),
        DbError::Unsupported(feature) => feature_of(noted.why) == Some(feature),
        _ => false,
    }
}

fn is_of_a_call(why: Why) -> bool {
    match why {
        Why::List
        | Why::NotUtf8
        | Why::Length
        | Why::Read
        | Why::Create
        | Why::Append
        | Why::Sync
        | Why::Rename
        | Why::Remove
        | Why::Lock
        | Why::Link
        | Why::Replaced
        | Why::Gone => true,
        _ => false,
    }
}

fn is_damage(why: Why) -> bool {
    why != Why::Nothing && !is_of_a_call(why) && feature_of(why).is_none()
}

fn feature_of(why: Why) -> Option<Feature> {
    match why {
        Why::BlockType => Some(Feature::BlockType),
        Why::BlockSize => Some(Feature::BlockSize),
        Why::Comparator => Some(Feature::Comparator),
        Why::TableNumber => Some(Feature::TableNumber),
        _ => None,
    }
}

// Whether the file is of this kind. (What is said of a table may be found by the MANIFEST, or by a
// log.)
fn is_of_kind(noted: Trouble, kind: FileKind) -> bool {
    let name = noted.name.as_bytes();
    match kind {
        FileKind::Current => name == b"CURRENT".as_slice(),
        FileKind::Manifest => name.starts_with(b"MANIFEST-") || noted.why == Why::TableOverlap,
        FileKind::Log => name.ends_with(b".log") || noted.why == Why::Age,
        FileKind::Table => name.ends_with(b".ldb") || name.ends_with(b".sst"),
        FileKind::Directory => false,
    }
}
