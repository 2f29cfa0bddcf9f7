// Why a directory can't be mended: the file, and the place in it.

use crate::hints::say_what_helps;
use crate::saying::Escaped;
use crate::why::{before_slash, say_noted, say_why};
use crate::zeros::say_if_mendable;
use coding::{DbError, FileKind};
use edits::{FileName, parse_name};
use ikey::KeyOrder;
use logfile::{front_of, read_log, whole_front};
use reader::ReadOnly;
use recover::{LogLength, Origin, file_entries, overview_of};
use std::alloc::Global;
use std::io::Write;
use store::{FileStore, Store};

// A folder that is only read.
type Folder = ReadOnly<FileStore>;

/// Says of a directory that mending refused which file it was, where that is damaged, and what
/// helps. It reads the folder once more.
pub fn say_why_not<K: KeyOrder, F: Write>(
    rt: &HostRuntime,
    folder: &str,
    error: DbError,
    faults: &mut F,
) {
    let Ok(store) = FileStore::open(rt, folder) else {
        return;
    };
    let mut store = ReadOnly::over(store);
    match overview_of::<K, Folder>(rt.alloc(), &mut store) {
        Ok(Some(overview)) => {
            say_of_logs::<K, F>(rt, &mut store, folder, &overview.logs, faults);
        }
        Ok(None) => {}
        Err(other) => {
            let noted = store.noted();
            let is_log = is_of_a_log(error);
            if is_log {
                say_of_all_logs(rt.alloc(), &mut store, folder, faults);
            } else {
                say_why(faults, folder, other, noted);
            }
            if !say_if_mendable::<K, F>(rt, folder, other, noted, faults) && !is_log {
                say_what_helps::<K, F>(rt, folder, other, noted, faults);
            }
        }
    }
}

fn is_of_a_log(error: DbError) -> bool {
    match error {
        DbError::Corrupt(kind, _) => kind == FileKind::Log,
        _ => false,
    }
}

// Says of the first log in use that isn't mended where it is damaged.
fn say_of_logs<K: KeyOrder, F: Write>(
    rt: &HostRuntime,
    store: &mut Folder,
    folder: &str,
    logs: &[LogLength],
    faults: &mut F,
) {
    for log in logs {
        let origin = Origin::Log(log.number);
        if let Err(error) = file_entries::<K, Folder>(rt.alloc(), store, origin) {
            let noted = store.noted();
            let name = noted.name;
            let Ok(text) = str::from_utf8(name.as_bytes()) else {
                return;
            };
            if damaged_at(rt.alloc(), store, text).is_some() {
                say_noted(faults, folder, noted);
                let _ = say_if_mendable::<K, F>(rt, folder, error, noted, faults);
                return;
            }
        }
    }
}

// Says of each log that isn't mended where it is damaged. Which of them are in use isn't known: the
// MANIFEST is to be mended, too.
fn say_of_all_logs<F: Write>(alloc: Global, store: &mut Folder, folder: &str, faults: &mut F) {
    let Ok(names) = store.list(alloc) else {
        return;
    };
    let folder = Escaped(before_slash(folder));
    for name in &names {
        if is_log(name.as_bytes()) {
            if let Some(at) = damaged_at(alloc, store, name.as_str()) {
                let _ = writeln!(faults, "ldbtool: {folder}/{name}: damaged at byte {at}");
            }
        }
    }
}

fn is_log(name: &[u8]) -> bool {
    match parse_name(name) {
        Some(FileName::Log(_)) => true,
        _ => false,
    }
}

// Where the whole fragments of a log end, if it is damaged there and isn't mended.
fn damaged_at(alloc: Global, store: &mut Folder, name: &str) -> Option<usize> {
    let bytes = bytes_of(alloc, store, name)?;
    if read_log(alloc, &bytes).is_ok() {
        return None;
    }
    match front_of(&bytes) {
        Some(_) => None,
        None => Some(whole_front(&bytes)),
    }
}

/// Returns the bytes of a file, if they can be read.
pub fn bytes_of(alloc: Global, store: &mut Folder, name: &str) -> Option<Vec<u8>> {
    let Ok(length) = store.len(name) else {
        return None;
    };
    let Ok(count) = usize::try_from(length) else {
        return None;
    };
    match store.read_at(alloc, name, 0, count) {
        Ok(bytes) => Some(bytes),
        Err(_) => None,
    }
}
