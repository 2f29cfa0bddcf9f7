// What a power loss left of a directory, said in words, and the command that mends it.

use crate::behind::{Whole, whole_records};
use crate::cuts::{broken_of, name_of_cut};
use crate::saying::Escaped;
use coding::{DbError, FileKind};
use edits::{FileName, parse_name};
use ikey::{KeyOrder, ReverseBytes};
use mending::{Cut, Ends, Plan, plan_cuts};
use reader::ReadOnly;
use std::alloc::Global;
use std::io::Write;
use store::{FileStore, Store, Trouble};

// A folder that is only read.
type Folder = ReadOnly<FileStore>;

// How many bytes logs and MANIFESTs have at most that are read for a hint.
const READ: u64 = 16_777_216;

/// Says how a directory looks that was refused for this, and which command mends it; returns
/// whether that was said. Nothing is said if the file that was noted isn't one that is cut, or if
/// mending would be refused. If the files are long, that isn't tried.
pub fn say_if_mendable<K: KeyOrder, F: Write>(
    rt: &HostRuntime,
    folder: &str,
    error: DbError,
    noted: Trouble,
    faults: &mut F,
) -> bool {
    if !is_of_a_log(error) {
        return false;
    }
    if is_long(rt, folder) {
        return say_if_zero_ends::<K, F>(rt, folder, noted, faults);
    }
    if let Some(plan) = plan_for::<K>(rt, folder, Ends::Zeros, noted) {
        say_ends(rt.alloc(), folder, &plan.cuts, faults);
        say_command::<K, F>(
            folder,
            "",
            "cuts them off, and nothing that was synced",
            faults,
        );
        return true;
    }
    if let Some(plan) = plan_for::<K>(rt, folder, Ends::Holes, noted) {
        say_holes(rt, folder, &plan.cuts, faults);
        say_command::<K, F>(
            folder,
            "--holes ",
            "cuts them off, and all that stands after them",
            faults,
        );
        return true;
    }
    false
}

// Whether a file in the form of a log was damaged: a log or a MANIFEST.
fn is_of_a_log(error: DbError) -> bool {
    match error {
        DbError::Corrupt(FileKind::Log | FileKind::Manifest, _) => true,
        _ => false,
    }
}

// Whether the logs and MANIFESTs of a folder are too long to be read for a hint.
fn is_long(rt: &HostRuntime, folder: &str) -> bool {
    let Ok(mut store) = FileStore::open(rt, folder) else {
        return false;
    };
    let Ok(names) = store.list(rt.alloc()) else {
        return false;
    };
    let mut bytes: u64 = 0;
    for name in &names {
        if is_read(name.as_bytes()) {
            bytes = bytes.saturating_add(store.len(name.as_str()).unwrap_or(0));
        }
    }
    bytes > READ
}

fn is_read(name: &[u8]) -> bool {
    match parse_name(name) {
        Some(FileName::Log(_) | FileName::Manifest(_)) => true,
        _ => false,
    }
}

// Says which command tells more, if the file that was noted ends in a zero.
fn say_if_zero_ends<K: KeyOrder, F: Write>(
    rt: &HostRuntime,
    folder: &str,
    noted: Trouble,
    faults: &mut F,
) -> bool {
    if !ends_in_zero(rt, folder, noted) {
        return false;
    }
    say_command::<K, F>(
        folder,
        "--dry-run ",
        "tells whether its zeros are what a power loss left",
        faults,
    );
    true
}

fn ends_in_zero(rt: &HostRuntime, folder: &str, noted: Trouble) -> bool {
    let Ok(name) = str::from_utf8(noted.name.as_bytes()) else {
        return false;
    };
    let Ok(mut store) = FileStore::open(rt, folder) else {
        return false;
    };
    let length = store.len(name).unwrap_or(0);
    match store.read_at(rt.alloc(), name, length.saturating_sub(1), 1) {
        Ok(bytes) => bytes.as_slice() == b"\0".as_slice(),
        Err(_) => false,
    }
}

// What mending would do, if it cuts the file that was noted.
fn plan_for<K: KeyOrder>(
    rt: &HostRuntime,
    folder: &str,
    ends: Ends,
    noted: Trouble,
) -> Option<Plan> {
    let plan = plan_of::<K>(rt, folder, ends)?;
    if has_file(rt.alloc(), &plan.cuts, noted) {
        Some(plan)
    } else {
        None
    }
}

fn plan_of<K: KeyOrder>(rt: &HostRuntime, folder: &str, ends: Ends) -> Option<Plan> {
    let Ok(store) = FileStore::open(rt, folder) else {
        return None;
    };
    let mut store = ReadOnly::over(store);
    match plan_cuts::<K, Folder>(rt.alloc(), &mut store, ends) {
        Ok(plan) => Some(plan),
        Err(_) => None,
    }
}

fn has_file(alloc: Global, cuts: &[Cut], noted: Trouble) -> bool {
    for cut in cuts {
        if let Ok(name) = name_of_cut(alloc, cut.file) {
            if name.as_bytes() == noted.name.as_bytes() {
                return true;
            }
        }
    }
    false
}

fn say_ends<F: Write>(alloc: Global, folder: &str, cuts: &[Cut], faults: &mut F) {
    let folder = Escaped(folder);
    for cut in cuts {
        if let Ok(name) = name_of_cut(alloc, cut.file) {
            let zeros = cut.zeros;
            let _ = writeln!(
                faults,
                "ldbtool: {folder}: {name} ends in {zeros} zeros, as a power loss leaves them on ext4"
            );
        }
    }
}

fn say_holes<F: Write>(rt: &HostRuntime, folder: &str, cuts: &[Cut], faults: &mut F) {
    let shown = Escaped(folder);
    for cut in cuts {
        if let Ok(name) = name_of_cut(rt.alloc(), cut.file) {
            let at = cut.front.len();
            let _ = writeln!(
                faults,
                "ldbtool: {shown}: {name} has zeros from byte {at} on, as a power loss leaves them on some devices"
            );
        }
    }
    say_records_of(rt, folder, cuts, faults);
}

fn say_command<K: KeyOrder, F: Write>(folder: &str, option: &str, what: &str, faults: &mut F) {
    let order = if K::name() == ReverseBytes::name() {
        "--order reverse "
    } else {
        ""
    };
    let folder = Escaped(folder);
    let _ = writeln!(
        faults,
        "ldbtool: {folder}: `ldbtool mend {option}{order}{folder}` {what}"
    );
}

/// Says what was cut of each file.
pub fn say_cuts<F: Write>(alloc: Global, folder: &str, cuts: &[Cut], faults: &mut F) {
    let folder = Escaped(folder);
    for cut in cuts {
        if let Ok(name) = name_of_cut(alloc, cut.file) {
            let at = cut.front.len();
            let zeros = cut.zeros;
            let broken = broken_of(cut);
            let _ = writeln!(
                faults,
                "ldbtool: {folder}: {name} was cut at byte {at}: {zeros} bytes of zeros, {broken} of a record cut short"
            );
        }
    }
}

/// Says how many whole records stand after the places where files would be cut with their holes.
pub fn say_records<K: KeyOrder, F: Write>(rt: &HostRuntime, folder: &str, faults: &mut F) {
    if let Some(plan) = plan_of::<K>(rt, folder, Ends::Holes) {
        say_records_of(rt, folder, &plan.cuts, faults);
    }
}

fn say_records_of<F: Write>(rt: &HostRuntime, folder: &str, cuts: &[Cut], faults: &mut F) {
    let Ok(store) = FileStore::open(rt, folder) else {
        return;
    };
    let mut store = ReadOnly::over(store);
    for cut in cuts {
        say_records_of_file(rt.alloc(), &mut store, folder, cut, faults);
    }
}

fn say_records_of_file<F: Write>(
    alloc: Global,
    store: &mut Folder,
    folder: &str,
    cut: &Cut,
    faults: &mut F,
) {
    let Ok(name) = name_of_cut(alloc, cut.file) else {
        return;
    };
    let Ok(count) = usize::try_from(cut.length) else {
        return;
    };
    let Ok(bytes) = store.read_at(alloc, name.as_str(), 0, count) else {
        return;
    };
    let at = cut.front.len();
    let Whole { records, is_all } = whole_records(&bytes, at);
    let least = if is_all { "" } else { "at least " };
    let folder = Escaped(folder);
    let _ = writeln!(
        faults,
        "ldbtool: {folder}: whole records of {name} after byte {at}, which go too: {least}{records}"
    );
}
