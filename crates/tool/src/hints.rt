// What helps after a refusal, said beside it.

use crate::saying::{Escaped, EscapedBytes};
use coding::{Bytes, Damage, DbError, Feature, FileKind};
use edits::{Field, FileName, decode_edit, parse_name};
use ikey::{Bytewise, KeyOrder, ReverseBytes};
use logfile::read_log;
use reader::ReadOnly;
use recover::{Origin, file_entries, overview_of};
use std::alloc::Global;
use std::io::Write;
use store::{FileStore, Store, Trouble, Why};

/// Says what helps after this refusal of a directory, if anything does: which MANIFEST is there, if
/// CURRENT names none; in which order the keys are; or how many tables have compressed blocks. It
/// reads the folder once more, and of compressed tables one block each.
pub fn say_what_helps<K: KeyOrder, F: Write>(
    rt: &HostRuntime,
    folder: &str,
    error: DbError,
    noted: Trouble,
    faults: &mut F,
) {
    let Ok(store) = FileStore::open(rt, folder) else {
        return;
    };
    let mut store = ReadOnly::over(store);
    match error {
        DbError::Corrupt(FileKind::Log | FileKind::Table, _) => {}
        DbError::Corrupt(FileKind::Manifest, damage) if damage != Damage::Missing => {
            let folder = Escaped(folder);
            let _ = writeln!(
                faults,
                "ldbtool: {folder}: the MANIFEST is damaged: {BACKUP}"
            );
        }
        DbError::Corrupt(_, _) => say_manifests(rt.alloc(), &mut store, folder, faults),
        DbError::Unsupported(Feature::Comparator) => {
            say_order(rt.alloc(), &mut store, folder, noted, faults);
        }
        DbError::Unsupported(Feature::BlockType) => {
            say_compressed::<K, ReadOnly<FileStore>, F>(
                rt.alloc(),
                &mut store,
                folder,
                noted,
                faults,
            );
        }
        _ => {}
    }
}

/// Returns whether `check --keep-going` shows more after such a refusal: of tables and logs alone.
pub fn is_of_one_file(kind: FileKind) -> bool {
    match kind {
        FileKind::Log | FileKind::Table => true,
        FileKind::Current | FileKind::Manifest | FileKind::Directory => false,
    }
}

// ---- which MANIFEST is there, if CURRENT names none

// What helps if there is none, or a damaged one.
const BACKUP: &str = "take a backup, or let LevelDB's RepairDB work on a copy";

fn say_manifests<S: Store, F: Write>(alloc: Global, store: &mut S, folder: &str, faults: &mut F) {
    let folder = Escaped(folder);
    let Some(newest) = newest_manifest(alloc, store) else {
        let _ = writeln!(faults, "ldbtool: {folder}: no MANIFEST is here: {BACKUP}");
        return;
    };
    let _ = writeln!(
        faults,
        "ldbtool: {folder}: the newest MANIFEST here is MANIFEST-{newest:06}"
    );
    let _ = writeln!(
        faults,
        "ldbtool: {folder}: in a copy of the folder, `echo MANIFEST-{newest:06} > CURRENT` \
         names it; then check that"
    );
}

// The greatest number of a MANIFEST in the folder.
fn newest_manifest<S: Store>(alloc: Global, store: &mut S) -> Option<u64> {
    let Ok(names) = store.list(alloc) else {
        return None;
    };
    let mut newest = None;
    for name in &names {
        newest = newer(newest, parse_name(name.as_bytes()));
    }
    newest
}

fn newer(newest: Option<u64>, file: Option<FileName>) -> Option<u64> {
    let Some(FileName::Manifest(number)) = file else {
        return newest;
    };
    match newest {
        Some(other) => Some(number.max(other)),
        None => Some(number),
    }
}

// ---- in which order the keys are

fn say_order<S: Store, F: Write>(
    alloc: Global,
    store: &mut S,
    folder: &str,
    noted: Trouble,
    faults: &mut F,
) {
    let Some(name) = comparator_of(alloc, store, noted) else {
        return;
    };
    let folder = Escaped(folder);
    let found = EscapedBytes(name.as_slice());
    let what = help_of_order(name.as_slice());
    let _ = writeln!(
        faults,
        "ldbtool: {folder}: the MANIFEST says `{found}`: {what}"
    );
}

fn help_of_order(name: &[u8]) -> &'static str {
    if name == ReverseBytes::name().as_bytes() {
        return "add `--order reverse`";
    }
    if name == Bytewise::name().as_bytes() {
        return "leave `--order` out";
    }
    "an order of another program's own, by which that program alone can read it"
}

// The comparator that the noted MANIFEST names.
fn comparator_of<S: Store>(alloc: Global, store: &mut S, noted: Trouble) -> Option<Bytes> {
    if noted.why != Why::Comparator {
        return None;
    }
    let bytes = bytes_of_noted(alloc, store, noted)?;
    let Ok((records, _)) = read_log(alloc, &bytes) else {
        return None;
    };
    for record in &records {
        if let Some(name) = comparator_in(alloc, record.as_slice()) {
            return Some(name);
        }
    }
    None
}

// The bytes of the noted file.
fn bytes_of_noted<S: Store>(alloc: Global, store: &mut S, noted: Trouble) -> Option<Vec<u8>> {
    let Ok(name) = str::from_utf8(noted.name.as_bytes()) else {
        return None;
    };
    let Ok(length) = store.len(name) else {
        return None;
    };
    let Ok(count) = usize::try_from(length) else {
        return None;
    };
    match store.read_at(alloc, name, 0, count) {
        Ok(bytes) => Some(bytes),
        Err(_) => None,
    }
}

// The comparator that an edit names, if it names one.
fn comparator_in(alloc: Global, record: &[u8]) -> Option<Bytes> {
    let Ok(edit) = decode_edit(alloc, record) else {
        return None;
    };
    for field in edit.fields() {
        if let Field::Comparator(name) = field {
            return match Bytes::copied_from(alloc, name.as_slice()) {
                Ok(name) => Some(name),
                Err(_) => None,
            };
        }
    }
    None
}

// ---- compressed tables

fn say_compressed<K: KeyOrder, S: Store, F: Write>(
    alloc: Global,
    store: &mut S,
    folder: &str,
    noted: Trouble,
    faults: &mut F,
) {
    let folder = Escaped(folder);
    if let Some((compressed, all)) = count_compressed::<K, S>(alloc, store) {
        let method = method_of(noted.found);
        let _ = writeln!(
            faults,
            "ldbtool: {folder}: {compressed} of {all} tables have compressed blocks, {method}"
        );
    }
    let _ = writeln!(
        faults,
        "ldbtool: {folder}: have the program that wrote it copy all pairs into a new database without compression"
    );
}

// How many tables are refused for a compressed block, and how many there are.
fn count_compressed<K: KeyOrder, S: Store>(alloc: Global, store: &mut S) -> Option<(u64, u64)> {
    let Ok(Some(overview)) = overview_of::<K, S>(alloc, store) else {
        return None;
    };
    let mut compressed = 0_u64;
    let mut all = 0_u64;
    for placed in &overview.layout.tables {
        all = all.saturating_add(1);
        let origin = Origin::Table(placed.level, placed.table.number);
        if is_compressed::<K, S>(alloc, store, origin) {
            compressed = compressed.saturating_add(1);
        }
    }
    Some((compressed, all))
}

fn is_compressed<K: KeyOrder, S: Store>(alloc: Global, store: &mut S, origin: Origin) -> bool {
    match file_entries::<K, S>(alloc, store, origin) {
        Ok(_) => false,
        Err(error) => error == DbError::Unsupported(Feature::BlockType),
    }
}

// By the type of a block (LevelDB's include/leveldb/options.h, CompressionType).
fn method_of(kind: Option<u64>) -> &'static str {
    match kind {
        Some(1) => "by Snappy",
        Some(2) => "by Zstd",
        _ => "by a method of another program's own",
    }
}
