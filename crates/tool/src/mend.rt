// `mend`, and `--mend` of the tasks that write.

use crate::cuts::{make_cuts, show_cuts};
use crate::looking::{is_refused, open, say_if_none};
use crate::saying::{say_of_directory, status_of, stop};
use crate::status::FAILED;
use crate::task::Mending;
use crate::unmendable::say_why_not;
use crate::why::say_why;
use crate::zeros::{say_cuts, say_records};
use coding::DbError;
use ikey::KeyOrder;
use mending::{Ends, mend};
use reader::ReadOnly;
use script::Fault;
use std::io::Write;
use store::{FileStore, Store};

// A folder that is only read.
type Read = ReadOnly<FileStore>;

/// Mends a directory, or prints what that would do, and returns the exit status. After a refusal it
/// says which file can't be mended, and where it is damaged.
pub fn mend_folder<K: KeyOrder, W: Write, F: Write>(
    rt: &HostRuntime,
    folder: &str,
    mending: Mending,
    writer: &mut W,
    faults: &mut F,
) -> u8 {
    let mut store = match open(rt, folder, faults) {
        Ok(store) => store,
        Err(status) => return status,
    };
    let ends = ends_of(mending.holes);
    if mending.holes {
        say_records::<K, F>(rt, folder, faults);
    }
    let mut refusal = None;
    if mending.dry_run {
        let mut read = ReadOnly::over(store);
        let done = show_cuts::<K, Read, W>(rt.alloc(), &mut read, ends, writer, &mut refusal);
        return end::<K, Read, F>(rt, folder, &mut read, done, refusal, faults);
    }
    let done = make_cuts::<K, FileStore, W>(rt.alloc(), &mut store, ends, writer, &mut refusal);
    end::<K, FileStore, F>(rt, folder, &mut store, done, refusal, faults)
}

fn ends_of(holes: bool) -> Ends {
    if holes { Ends::Holes } else { Ends::Zeros }
}

// Says what is to be said after it, and returns the exit status.
fn end<K: KeyOrder, S: Store, F: Write>(
    rt: &HostRuntime,
    folder: &str,
    store: &mut S,
    done: Result<u8, Fault>,
    refusal: Option<DbError>,
    faults: &mut F,
) -> u8 {
    if is_refused(&done) {
        say_refusal::<K, S, F>(rt, folder, store, refusal, faults);
    }
    let status = status_of(done, faults);
    say_if_none(status, store, folder, faults);
    status
}

// Says why it was refused, by what the store noted or what the files have.
fn say_refusal<K: KeyOrder, S: Store, F: Write>(
    rt: &HostRuntime,
    folder: &str,
    store: &mut S,
    refusal: Option<DbError>,
    faults: &mut F,
) {
    let Some(error) = refusal else {
        return;
    };
    say_of_directory(faults, folder, error);
    say_why(faults, folder, error, store.noted());
    match error {
        DbError::Corrupt(_, _) | DbError::Unsupported(_) => {
            say_why_not::<K, F>(rt, folder, error, faults);
        }
        _ => {}
    }
}

/// Mends the files of a folder before they are opened, and says what was cut. It takes the lock,
/// and gives it back. `Err` is the status if that is refused, which is said.
pub fn mend_first<K: KeyOrder, F: Write>(
    rt: &HostRuntime,
    folder: &str,
    store: &mut FileStore,
    faults: &mut F,
) -> Result<(), u8> {
    match mend::<K, FileStore>(rt.alloc(), store, Ends::Zeros) {
        Ok(plan) => {
            say_cuts(rt.alloc(), folder, &plan.cuts, faults);
            Ok(())
        }
        Err(DbError::OutOfMemory) => Err(stop(faults, &Fault::Memory)),
        Err(error) => {
            say_refusal::<K, FileStore, F>(rt, folder, store, Some(error), faults);
            Err(FAILED)
        }
    }
}
