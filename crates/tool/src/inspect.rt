// `check` and `dump`. Neither takes the lock.

ghost use Rattle.std.specs.Prelude.{◌≡◌, ◌++◌, Err, IfOk, OnOk, map};
ghost use Rattle.std.specs.Io.KnownBytes.{Appends};
ghost use Rattle.ikey.specs.Orders.{order_of};
ghost use Rattle.script.specs.Drive.{Shows};
ghost use Rattle.tool.specs.Reports.{check_text_of, texts, origins_of_summary, status_of_answer};
ghost use Rattle.tool.specs.EntryLines.{entry_line_of};
ghost use Rattle.tool.specs.Inspecting.{Checks, Dumps, PrintsFile, PrintsFiles};

use crate::entry_line::push_entry;
use crate::report::{check_text, refusal_text};
use crate::status::{DONE, FAILED};
use crate::sums::Sums;
use crate::task::Notation;
use coding::DbError;
use ikey::{Entry, KeyOrder};
use recover::{Origin, Report, Summary, file_entries};
use script::{Fault, show, write_all};
use std::alloc::{AllocError, Global};
use std::io::Write;
use store::Store;

// How many bytes of lines wait at most, so that they are written together.
const OUTPUT_BYTES: usize = 65_536;

/// Prints the report of a directory, or the refusal, and returns the exit status; `sums` has then
/// what a good directory has in all. `Fault` if the report couldn't be written.
pub fn check<K: KeyOrder, S: Store, W: Write>(
    alloc: Global,
    store: &mut S,
    writer: &mut W,
    sums: &mut Sums,
) -> Result<u8, Fault>
    ensures { IfOk result (Checks (order_of K.name K.cmp) (S.facts store.old) (S.facts store.new) (W.contents writer.old) (W.contents writer.new)) }
{
    let answer = recover::check::<K, S>(alloc, store);
    *sums = sums_of(&answer);
    let text = check_text(alloc, &answer)?;
    write_all(writer, text.as_bytes())?;
    Ok(status_of(&answer))
}

fn sums_of(answer: &Result<Report, DbError>) -> Sums {
    match answer {
        Ok(report) => Sums::of(report),
        Err(_) => Sums::none(),
    }
}

fn status_of(answer: &Result<Report, DbError>) -> u8
    ensures { result ≡ status_of_answer answer.now }
{
    match answer {
        Ok(_) => DONE,
        Err(_) => FAILED,
    }
}

/// Prints the entries of a directory in this notation, tables by level and number and then live
/// logs by number, and returns the exit status. A directory that is refused has its refusal printed
/// alone; a refusal that is met later is printed after the lines. The entries of one file are in
/// memory at a time. `Fault` if a line couldn't be written.
pub fn dump<K: KeyOrder, S: Store, W: Write>(
    alloc: Global,
    store: &mut S,
    writer: &mut W,
    notation: Notation,
) -> Result<u8, Fault>
    ensures { IfOk result (Dumps (order_of K.name K.cmp) notation (S.facts store.old) (S.facts store.new) (W.contents writer.old) (W.contents writer.new)) }
{
    match recover::check::<K, S>(alloc, store) {
        Ok(Report::Empty) => Ok(DONE),
        Ok(Report::Good(summary)) => {
            let origins = origins_of(alloc, &summary)?;
            print_files::<K, S, W>(alloc, store, writer, notation, &origins)
        }
        Err(error) => print_refusal(alloc, writer, error),
    }
}

// The files of a directory, in the order in which they are printed.
fn origins_of(alloc: Global, summary: &Summary) -> Result<Vec<Origin>, AllocError>
    ensures { IfOk result (λ origins. origins.items ≡ origins_of_summary summary.now) }
{
    let mut origins = Vec::new(alloc);
    for table in &summary.tables {
        origins.push(Origin::Table(table.level, table.number))?;
    }
    for log in &summary.logs {
        origins.push(Origin::Log(log.number))?;
    }
    Ok(origins)
}

// Prints the entries of these files, up to a refusal.
fn print_files<K: KeyOrder, S: Store, W: Write>(
    alloc: Global,
    store: &mut S,
    writer: &mut W,
    notation: Notation,
    origins: &[Origin],
) -> Result<u8, Fault>
    ensures { IfOk result (PrintsFiles (order_of K.name K.cmp) notation origins.now (S.facts store.old) (S.facts store.new) (W.contents writer.old) (W.contents writer.new)) }
{
    for origin in origins {
        if let Some(status) = print_file::<K, S, W>(alloc, store, writer, notation, origin)? {
            return Ok(status);
        }
    }
    Ok(DONE)
}

// Prints the entries of a file, or its refusal, with which the dump ends: the status is returned
// then.
fn print_file<K: KeyOrder, S: Store, W: Write>(
    alloc: Global,
    store: &mut S,
    writer: &mut W,
    notation: Notation,
    origin: &Origin,
) -> Result<Option<u8>, Fault>
    ensures { IfOk result (PrintsFile (order_of K.name K.cmp) notation origin.now (S.facts store.old) (S.facts store.new) (W.contents writer.old) (W.contents writer.new)) }
{
    let entries = match file_entries::<K, S>(alloc, store, *origin) {
        Ok(entries) => entries,
        Err(error) => return Ok(Some(print_refusal(alloc, writer, error)?)),
    };
    print_entries(alloc, writer, notation, *origin, &entries)?;
    Ok(None)
}

/// Prints the entries of one file. `Fault` if a line couldn't be written.
pub fn print_entries<W: Write>(
    alloc: Global,
    writer: &mut W,
    notation: Notation,
    origin: Origin,
    entries: &[Entry],
) -> Result<(), Fault>
    ensures { OnOk result (Appends (W.contents writer.old) (W.contents writer.new) (texts (entry_line_of notation origin) entries.now)) }
{
    let mut text = Vec::new(alloc);
    for entry in entries {
        print_entry(alloc, writer, &mut text, notation, origin, entry)?;
    }
    write_all(writer, text.as_slice())?;
    Ok(())
}

// Appends the line of an entry to the text that waits, and writes that if it is long.
fn print_entry<W: Write>(
    alloc: Global,
    writer: &mut W,
    text: &mut Vec<u8>,
    notation: Notation,
    origin: Origin,
    entry: &Entry,
) -> Result<(), Fault>
    ensures { OnOk result (Shows (W.contents writer.old) (W.contents writer.new) (text.old.items ++ entry_line_of notation origin entry.now) text.new.items) }
{
    push_entry(alloc, text, notation, origin, entry)?;
    let due = text.len() >= OUTPUT_BYTES;
    show(writer, text, due)?;
    Ok(())
}

/// Prints the line of a refusal, and returns the exit status. `Fault` if it couldn't be written.
pub fn print_refusal<W: Write>(alloc: Global, writer: &mut W, error: DbError) -> Result<u8, Fault>
    ensures written { OnOk result (Appends (W.contents writer.old) (W.contents writer.new) (check_text_of (Err error))) }
    ensures status { IfOk result (λ status. status ≡ 1) }
{
    let line = refusal_text(alloc, error)?;
    write_all(writer, line.as_bytes())?;
    Ok(FAILED)
}
