// The tasks that change nothing in a folder: none takes the lock.

use crate::counts::stats;
use crate::each_file::{dump_sound, say_refused};
use crate::hints::say_what_helps;
use crate::inspect::{check, dump};
use crate::progress::{Meter, Target, Watched, bytes_of};
use crate::saying::{folder_fault, say_no_current, say_sums, status_of};
use crate::status::{DONE, FAILED};
use crate::sums::Sums;
use crate::task::Notation;
use crate::telling::Telling;
use crate::zeros::say_if_mendable;
use coding::DbError;
use ikey::KeyOrder;
use reader::ReadOnly;
use recover::overview_of;
use script::Fault;
use std::io::Write;
use store::{FileStore, Store, StoreError, Trouble};

// A folder that is only read, and perhaps watched.
type Folder = Watched<ReadOnly<FileStore>>;

/// Prints the report of a directory, and returns the exit status. If there is none, and no
/// `CURRENT` either, it says so, since a wrong folder gives the same. After a refusal it says what
/// is wrong with the first file that is refused by itself, or with each, and what helps. A person
/// who watches is told the sums.
pub fn check_folder<K: KeyOrder, W: Write, F: Write>(
    rt: &HostRuntime,
    target: Target<'_>,
    keep_going: bool,
    writer: &mut W,
    faults: &mut F,
) -> u8 {
    let folder = target.folder;
    let mut store = match open(rt, folder, faults) {
        Ok(store) => watched_store(rt, store, target.watched, 1),
        Err(status) => return status,
    };
    let mut sums = Sums::none();
    let done = check::<K, Folder, W>(rt.alloc(), &mut store, writer, &mut sums);
    if is_refused(&done) {
        let first = say_refused::<K, Folder, F>(rt.alloc(), &mut store, folder, keep_going, faults);
        say_help::<K, F>(rt, folder, first, faults);
    }
    let status = status_of(done, faults);
    say_if_none(status, &mut store, folder, faults);
    if target.watched && sums.is_good {
        say_sums(faults, folder, sums);
    }
    status
}

// Says what helps after the first refusal that was said, if there was one.
fn say_help<K: KeyOrder, F: Write>(
    rt: &HostRuntime,
    folder: &str,
    first: Option<(DbError, Trouble)>,
    faults: &mut F,
) {
    match first {
        Some((error, noted)) => {
            if !say_if_mendable::<K, F>(rt, folder, error, noted, faults) {
                say_what_helps::<K, F>(rt, folder, error, noted, faults);
            }
        }
        None => {}
    }
}

/// Returns whether a refusal was printed.
pub fn is_refused(done: &Result<u8, Fault>) -> bool {
    match done {
        Ok(status) => *status == FAILED,
        Err(_) => false,
    }
}

/// Says that there is no database, if what was done found none. (A good directory has a `CURRENT`.)
pub fn say_if_none<S: Store, F: Write>(status: u8, store: &mut S, folder: &str, faults: &mut F) {
    if status == DONE && has_no_current(store) {
        say_no_current(faults, folder);
    }
}

fn has_no_current<S: Store>(store: &mut S) -> bool {
    match store.len("CURRENT") {
        Ok(_) => false,
        Err(error) => error == StoreError::Missing,
    }
}

/// Prints what the MANIFEST says of a directory, and returns the exit status. A refusal, and that
/// there is no database, is said on standard error alone.
pub fn stats_folder<K: KeyOrder, W: Write, F: Write>(
    rt: &HostRuntime,
    folder: &str,
    json: bool,
    writer: &mut W,
    faults: &mut F,
) -> u8 {
    let mut store = match open(rt, folder, faults) {
        Ok(store) => ReadOnly::over(store),
        Err(status) => return status,
    };
    let mut telling = Telling::of(folder, faults);
    let done = stats::<K, ReadOnly<FileStore>, W, Telling<'_, F>>(
        rt.alloc(),
        &mut store,
        writer,
        json,
        &mut telling,
    );
    telling.end::<K>(rt);
    status_of(done, faults)
}

/// Prints the entries of a directory, and returns the exit status. If there is none it says so, as
/// a check does.
pub fn dump_folder<K: KeyOrder, W: Write, F: Write>(
    rt: &HostRuntime,
    target: Target<'_>,
    notation: Notation,
    writer: &mut W,
    faults: &mut F,
) -> u8 {
    let folder = target.folder;
    let mut store = match open(rt, folder, faults) {
        Ok(store) => watched_store(rt, store, target.watched, 2),
        Err(status) => return status,
    };
    let done = dump::<K, Folder, W>(rt.alloc(), &mut store, writer, notation);
    if is_refused(&done) {
        let first = say_refused::<K, Folder, F>(rt.alloc(), &mut store, folder, false, faults);
        say_help::<K, F>(rt, folder, first, faults);
    }
    let status = status_of(done, faults);
    say_if_none(status, &mut store, folder, faults);
    status
}

/// Prints the entries of the files of a directory that are sound, says of each other one what is
/// wrong with it, and returns the exit status.
pub fn dump_sound_files<K: KeyOrder, W: Write, F: Write>(
    rt: &HostRuntime,
    target: Target<'_>,
    notation: Notation,
    writer: &mut W,
    faults: &mut F,
) -> u8 {
    let folder = target.folder;
    let mut store = match open(rt, folder, faults) {
        Ok(store) => watched_store(rt, store, target.watched, 1),
        Err(status) => return status,
    };
    let done = dump_sound::<K, Folder, W, F>(
        rt.alloc(),
        &mut store,
        writer,
        notation,
        folder,
        faults,
    );
    if is_refused(&done) {
        say_help_of_directory::<K, F>(rt, &mut store, folder, faults);
    }
    let status = status_of(done, faults);
    say_if_none(status, &mut store, folder, faults);
    status
}

// Says what helps if the directory as a whole is refused.
fn say_help_of_directory<K: KeyOrder, F: Write>(
    rt: &HostRuntime,
    store: &mut Folder,
    folder: &str,
    faults: &mut F,
) {
    if let Err(error) = overview_of::<K, Folder>(rt.alloc(), store) {
        say_help::<K, F>(rt, folder, Some((error, store.noted())), faults);
    }
}

// The files, read from end to end so many times, with a meter if somebody watches.
fn watched_store(rt: &HostRuntime, store: FileStore, watched: bool, times: u64) -> Folder {
    let mut store = ReadOnly::over(store);
    if !watched {
        return Watched::over(store, None);
    }
    let total = bytes_of(rt.alloc(), &mut store).saturating_mul(times);
    // (what couldn't be counted is no refusal)
    store.note(Trouble::none());
    Watched::over(store, Meter::new(rt, Some(total)))
}

/// Opens the folder. `Err` is the status if it can't be opened, which is said.
pub fn open<F: Write>(rt: &HostRuntime, folder: &str, faults: &mut F) -> Result<FileStore, u8> {
    match FileStore::open(rt, folder) {
        Ok(store) => Ok(store),
        Err(error) => Err(folder_fault(rt, faults, folder, error)),
    }
}
