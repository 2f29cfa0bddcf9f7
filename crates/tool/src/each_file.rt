// The files of a directory, each by itself: what is sound though something else is damaged.

ghost use Rattle.std.specs.Prelude.{◌≡◌, ◌++◌, IfOk, map};
ghost use Rattle.ikey.specs.Orders.{order_of};
ghost use Rattle.tool.specs.EachFile.{DumpsSound, PrintsIfSound, PrintsSound, origins_of_overview};

use crate::inspect::{print_entries, print_refusal};
use crate::saying::{say_all_sound, say_of_directory, say_of_file};
use crate::status::{DONE, FAILED};
use crate::task::Notation;
use crate::why::{say_noted, say_why};
use coding::DbError;
use ikey::KeyOrder;
use recover::{Origin, Overview, file_entries, overview_of};
use script::Fault;
use std::alloc::{AllocError, Global};
use std::io::Write;
use store::{Store, Trouble};

/// Prints the entries of each file that can be read whole, in this notation, tables by level and
/// number and then live logs by number, and returns the exit status. Of each other file it says on
/// `faults` what is wrong with it. If the MANIFEST is refused, the refusal is printed alone. It
/// doesn't look for two files that contradict one another. `Fault` if a line couldn't be written.
pub fn dump_sound<K: KeyOrder, S: Store, W: Write, F: Write>(
    alloc: Global,
    store: &mut S,
    writer: &mut W,
    notation: Notation,
    folder: &str,
    faults: &mut F,
) -> Result<u8, Fault>
    ensures { IfOk result (DumpsSound (order_of K.name K.cmp) notation (S.facts store.old) (S.facts store.new) (W.contents writer.old) (W.contents writer.new)) }
{
    match overview_of::<K, S>(alloc, store) {
        Ok(Some(overview)) => {
            let origins = origins_of(alloc, &overview)?;
            print_sound::<K, S, W, F>(alloc, store, writer, notation, &origins, folder, faults)
        }
        Ok(None) => Ok(DONE),
        Err(error) => {
            say_of_directory(faults, folder, error);
            say_why(faults, folder, error, store.noted());
            print_refusal(alloc, writer, error)
        }
    }
}

// The files that the MANIFEST leaves, and the live logs.
fn origins_of(alloc: Global, overview: &Overview) -> Result<Vec<Origin>, AllocError>
    ensures { IfOk result (λ origins. origins.items ≡ origins_of_overview overview.now) }
{
    let mut origins = Vec::new(alloc);
    for placed in &overview.layout.tables {
        origins.push(Origin::Table(placed.level, placed.table.number))?;
    }
    for log in &overview.logs {
        origins.push(Origin::Log(log.number))?;
    }
    Ok(origins)
}

fn print_sound<K: KeyOrder, S: Store, W: Write, F: Write>(
    alloc: Global,
    store: &mut S,
    writer: &mut W,
    notation: Notation,
    origins: &[Origin],
    folder: &str,
    faults: &mut F,
) -> Result<u8, Fault>
    ensures { IfOk result (PrintsSound (order_of K.name K.cmp) notation origins.now 0 (S.facts store.old) (S.facts store.new) (W.contents writer.old) (W.contents writer.new)) }
{
    let mut status = DONE;
    for origin in origins {
        let one = print_if_sound::<K, S, W, F>(
            alloc, store, writer, notation, *origin, folder, faults,
        )?;
        status = status.max(one);
    }
    Ok(status)
}

// Prints the entries of a file, or says why it isn't sound, for which the status is 1.
fn print_if_sound<K: KeyOrder, S: Store, W: Write, F: Write>(
    alloc: Global,
    store: &mut S,
    writer: &mut W,
    notation: Notation,
    origin: Origin,
    folder: &str,
    faults: &mut F,
) -> Result<u8, Fault>
    ensures { IfOk result (PrintsIfSound (order_of K.name K.cmp) notation origin (S.facts store.old) (S.facts store.new) (W.contents writer.old) (W.contents writer.new)) }
{
    match file_entries::<K, S>(alloc, store, origin) {
        Ok(entries) => {
            print_entries(alloc, writer, notation, origin, &entries)?;
            Ok(DONE)
        }
        Err(error) => {
            say_of_file(faults, folder, origin, error);
            say_why(faults, folder, error, store.noted());
            Ok(FAILED)
        }
    }
}

/// Says of the first file of a directory that is refused by itself what is wrong with it, and with
/// `all` of each; or that each is sound. After it stands where the refusal of the directory came
/// from, by what the store had noted then. Returns the first refusal that was said, and what was
/// noted of it.
pub fn say_refused<K: KeyOrder, S: Store, F: Write>(
    alloc: Global,
    store: &mut S,
    folder: &str,
    all: bool,
    faults: &mut F,
) -> Option<(DbError, Trouble)> {
    let noted = store.noted();
    match read_origins::<K, S>(alloc, store) {
        Ok(Some(origins)) => {
            let first = say_refused_files::<K, S, F>(alloc, store, &origins, folder, all, faults);
            if first.is_none() {
                say_all_sound(faults, folder);
            }
            if first.is_none() || !all {
                say_noted(faults, folder, noted);
            }
            first
        }
        Ok(None) => None,
        Err(error) => {
            let noted = store.noted();
            say_of_directory(faults, folder, error);
            say_why(faults, folder, error, noted);
            Some((error, noted))
        }
    }
}

// The files of a directory, without what else its MANIFEST says of them: each is read with another
// reading of that.
fn read_origins<K: KeyOrder, S: Store>(
    alloc: Global,
    store: &mut S,
) -> Result<Option<Vec<Origin>>, DbError> {
    match overview_of::<K, S>(alloc, store)? {
        Some(overview) => Ok(Some(origins_of(alloc, &overview)?)),
        None => Ok(None),
    }
}

// Says what is wrong with the first file that is refused, or with each, with where that comes from.
fn say_refused_files<K: KeyOrder, S: Store, F: Write>(
    alloc: Global,
    store: &mut S,
    origins: &[Origin],
    folder: &str,
    all: bool,
    faults: &mut F,
) -> Option<(DbError, Trouble)> {
    let mut first = None;
    for origin in origins {
        if let Err(error) = file_entries::<K, S>(alloc, store, *origin) {
            let noted = store.noted();
            say_of_file(faults, folder, *origin, error);
            first = first.or(Some((error, noted)));
            if !all {
                return first;
            }
            say_why(faults, folder, error, noted);
        }
    }
    first
}
