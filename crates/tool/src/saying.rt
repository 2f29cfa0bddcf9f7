// What is said on standard error, and the statuses that go with it.

ghost use Rattle.std.specs.Prelude.{◌≡◌, ◌⊎◌};

use crate::reasons::{Reason, wanted_words};
use crate::status::{DONE, FAILED, MISUSED};
use crate::sums::Sums;
use crate::words::Misuse;
use browse::Form;
use clap::error::ErrorKind;
use coding::DbError;
use recover::Origin;
use script::{Fault, Misread};
use std::alloc::Global;
use std::io::{self, Write};
use std::{fmt, fs};
use store::StoreError;

/// Shows a text that comes from outside on one line: bytes outside ' ' to '~' are `\xNN`, so that
/// no name can steer a terminal.
#[derive(Clone, Copy)]
pub struct Escaped<'a>(pub &'a str);

impl fmt::Display for Escaped<'_> {
    fn fmt<W: fmt::Write>(&self, f: &mut fmt::Formatter<W>) -> fmt::Result {
        write_all_escaped(f, self.0.as_bytes())
    }
}

/// Shows bytes that come from outside in the same way.
#[derive(Clone, Copy)]
pub struct EscapedBytes<'a>(pub &'a [u8]);

impl fmt::Display for EscapedBytes<'_> {
    fn fmt<W: fmt::Write>(&self, f: &mut fmt::Formatter<W>) -> fmt::Result {
        write_all_escaped(f, self.0)
    }
}

fn write_all_escaped<W: fmt::Write>(f: &mut fmt::Formatter<W>, bytes: &[u8]) -> fmt::Result {
    for byte in bytes {
        write_escaped(f, *byte)?;
    }
    Ok(())
}

fn write_escaped<W: fmt::Write>(f: &mut fmt::Formatter<W>, byte: u8) -> fmt::Result {
    if byte < b' ' || byte > b'~' {
        return write!(f, "\\x{byte:02x}");
    }
    f.write_char(char::from(byte))
}

/// Says why the command line was refused, or the help that was asked for, and returns the status.
pub fn refuse<W: Write, F: Write>(
    alloc: Global,
    misuse: &Misuse,
    writer: &mut W,
    faults: &mut F,
) -> u8 {
    match misuse {
        Misuse::Words(error) => refuse_by_clap(alloc, error, writer, faults),
        Misuse::Wanted(wanted) => want(faults, wanted),
        Misuse::Memory => stop(faults, &Fault::Memory),
    }
}

fn refuse_by_clap<W: Write, F: Write>(
    alloc: Global,
    error: &clap::Error,
    writer: &mut W,
    faults: &mut F,
) -> u8 {
    if !error.use_stderr() {
        return match write!(writer, "{error}") {
            Ok(()) => DONE,
            Err(fault) => stop(faults, &Fault::Write(fault)),
        };
    }
    if error.kind() == ErrorKind::OutOfMemory {
        return stop(faults, &Fault::Memory);
    }
    match format!(in alloc; "{error}") {
        Ok(text) => say_lines(faults, text.as_str()),
        Err(_) => {}
    }
    MISUSED
}

// Says the lines of a text, in which words of the command line stand.
fn say_lines<F: Write>(faults: &mut F, text: &str) {
    for line in text.lines() {
        let _ = writeln!(faults, "{}", Escaped(line));
    }
}

/// Says what is wanted instead of a word of the command line, and returns the status for it.
pub fn want<F: Write>(faults: &mut F, wanted: &str) -> u8
    ensures { result ≡ 2 }
{
    let _ = writeln!(faults, "ldbtool: {wanted}");
    MISUSED
}

/// Says that this option or place has no byte string of this form, and returns the status for it.
pub fn want_key<F: Write>(faults: &mut F, name: &str, form: Form) -> u8
    ensures { result ≡ 2 }
{
    let wanted = match form {
        Form::Hex => {
            "bytes in hexadecimal are wanted, two digits each, or - for none (with --text: text)"
        }
        Form::Text =>
            "text is wanted, in which \\\\ is a backslash and \\xNN the byte of two digits",
    };
    let _ = writeln!(faults, "ldbtool: {name}: {wanted}");
    MISUSED
}

/// Says that a line of standard input is no key of this form, and returns the status for it.
pub fn want_key_line<F: Write>(faults: &mut F, line: u64, form: Form) -> u8
    ensures { result ≡ 1 }
{
    let wanted = match form {
        Form::Hex => "a key in hexadecimal is wanted, two digits a byte, or - for the empty one",
        Form::Text => {
            "a key as text is wanted, in which \\\\ is a backslash and \\xNN the byte of two digits"
        }
    };
    let _ = writeln!(faults, "ldbtool: line {line}: {wanted}");
    FAILED
}

/// Says why a folder can't be opened, and returns the status for it.
pub fn folder_fault<F: Write>(
    rt: &HostRuntime,
    faults: &mut F,
    folder: &str,
    error: StoreError,
) -> u8
    ensures { result ≡ 1 }
{
    let why = match error {
        StoreError::Missing => "there is no such folder",
        StoreError::Device => why_not_open(rt, folder),
        StoreError::Memory => "out of memory",
    };
    let _ = writeln!(faults, "ldbtool: {}: {why}", Escaped(folder));
    FAILED
}

/// Says why a folder can't be made, and returns the status for it.
pub fn no_folder_made<F: Write>(faults: &mut F, folder: &str, error: &io::Error) -> u8
    ensures { result ≡ 1 }
{
    let folder = Escaped(folder);
    let _ = writeln!(
        faults,
        "ldbtool: {folder}: the folder can't be made: {error}"
    );
    FAILED
}

fn why_not_open(rt: &HostRuntime, folder: &str) -> &'static str {
    match fs::metadata(rt, folder) {
        Ok(found) => {
            if found.is_dir() {
                "this user may not open the folder"
            } else {
                "it isn't a folder"
            }
        }
        Err(error) => {
            if error.kind() == io::ErrorKind::PermissionDenied {
                "this user may not look into the folder above it"
            } else {
                "it isn't a folder"
            }
        }
    }
}

/// Says that a folder without a database may not be the one that was meant.
pub fn say_no_current<F: Write>(faults: &mut F, folder: &str) {
    let _ = writeln!(
        faults,
        "ldbtool: {}: no CURRENT here: no database, or an empty one",
        Escaped(folder)
    );
}

/// Says what a good directory has in all.
pub fn say_sums<F: Write>(faults: &mut F, folder: &str, sums: Sums) {
    let folder = Escaped(folder);
    let Sums {
        tables,
        entries,
        logs,
        batches,
        ..
    } = sums;
    let _ = writeln!(
        faults,
        "ldbtool: {folder}: {tables} tables with {entries} entries, {logs} logs with {batches} batches"
    );
}

/// Says what is wrong with a file of a folder.
pub fn say_of_file<F: Write>(faults: &mut F, folder: &str, origin: Origin, error: DbError) {
    let folder = Escaped(folder);
    let why = Reason(error);
    let _ = match origin {
        Origin::Table(level, number) => {
            writeln!(faults, "ldbtool: {folder}: table {level} {number}: {why}")
        }
        Origin::Log(number) => writeln!(faults, "ldbtool: {folder}: log {number}: {why}"),
    };
}

/// Says what is wrong with a directory as a whole.
pub fn say_of_directory<F: Write>(faults: &mut F, folder: &str, error: DbError) {
    let _ = writeln!(faults, "ldbtool: {}: {}", Escaped(folder), Reason(error));
}

/// Says why a line of a script was refused.
pub fn say_of_line<F: Write>(faults: &mut F, line: u64, error: DbError) {
    let _ = writeln!(faults, "ldbtool: line {line}: {}", Reason(error));
}

/// Says what is wrong with a line that says no command.
pub fn say_of_misread<F: Write>(faults: &mut F, line: u64, misread: Misread) {
    let word = misread.word;
    let _ = writeln!(
        faults,
        "ldbtool: line {line}: word {word}: {}",
        wanted_words(misread.wanted)
    );
}

/// Says how to see which file it is that was refused.
pub fn say_how_to_see<F: Write>(faults: &mut F, folder: &str) {
    let folder = Escaped(folder);
    let _ = writeln!(
        faults,
        "ldbtool: {folder}: `ldbtool check --keep-going {folder}` says of each file what is wrong with it"
    );
}

/// Says that a directory was refused though no file is damaged.
pub fn say_all_sound<F: Write>(faults: &mut F, folder: &str) {
    let _ = writeln!(
        faults,
        "ldbtool: {}: each file is sound by itself: they contradict one another, or the cause has passed",
        Escaped(folder)
    );
}

/// Says to a person who is about to type a script what its lines are.
pub fn greet<F: Write>(faults: &mut F) {
    let _ = writeln!(
        faults,
        "ldbtool: begin with `open` or `open new`; keys and values are hexadecimal; Ctrl-D ends; \
         `ldbtool help run` lists the commands"
    );
}

/// Says to a person who is about to type an import what its lines are.
pub fn greet_import<F: Write>(faults: &mut F) {
    let _ = writeln!(
        faults,
        "ldbtool: lines are `put K V` and `del K`; keys and values are hexadecimal; Ctrl-D ends"
    );
}

/// Says why the words of the command line can't be read, and returns the status for it. The kit
/// reads them as UTF-8.
pub fn refuse_words<F: Write>(faults: &mut F, error: &io::Error) -> u8
    ensures { (result ≡ 1) ⊎ (result ≡ 2) }
{
    if error.kind() != io::ErrorKind::InvalidData {
        return report_fault(faults, error);
    }
    want(faults, "a word of the command line isn't UTF-8")
}

/// Returns the status of a task that was done, or stopped by a fault, which is said.
pub fn status_of<F: Write>(done: Result<u8, Fault>, faults: &mut F) -> u8 {
    match done {
        Ok(status) => status,
        Err(fault) => stop(faults, &fault),
    }
}

/// Says what stopped a task, and returns the status for it.
pub fn stop<F: Write>(faults: &mut F, fault: &Fault) -> u8
    ensures { result ≡ 1 }
{
    if is_closed_pipe(fault) {
        return FAILED;
    }
    report_fault(faults, fault)
}

// Whether the reader of the output has gone, as `head` does once it has enough: the user knows.
fn is_closed_pipe(fault: &Fault) -> bool {
    match fault {
        Fault::Write(error) => error.kind() == io::ErrorKind::BrokenPipe,
        Fault::Read(_) => false,
        Fault::Memory => false,
    }
}

// Says a fault that has no answer line, and returns the status for it.
fn report_fault<F: Write, D: fmt::Display>(faults: &mut F, fault: &D) -> u8
    ensures { result ≡ 1 }
{
    let _ = writeln!(faults, "ldbtool: {fault}");
    FAILED
}
