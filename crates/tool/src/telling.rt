// What is said on standard error of refusals, as they are answered.

use crate::hints::{is_of_one_file, say_what_helps};
use crate::saying::{say_how_to_see, say_of_directory, say_of_line, say_of_misread};
use crate::why::say_why;
use crate::zeros::say_if_mendable;
use coding::DbError;
use ikey::KeyOrder;
use script::{Listener, Refusal};
use std::io::Write;
use store::Trouble;

/// Says why something was refused: a line of a script, if a file, the disk or the line itself is
/// the cause, and whatever no line asked for. The name of any other refusal of a line says all.
#[derive(Drop)]
pub struct Telling<'a, F> {
    folder: &'a str,
    faults: &'a mut F,
    // whether a refusal is said with the number of its line
    numbers_lines: bool,
    // the first refusal that a file is the cause of, and what was noted of it
    first: Option<(DbError, Trouble)>,
    // the number of the last note that was said, or wasn't of a refusal's kind
    count: u64,
}

impl<'a, F: Write> Telling<'a, F> {
    /// Returns one that says it of a database in this folder.
    pub fn of(folder: &'a str, faults: &'a mut F) -> Self {
        Telling {
            folder,
            faults,
            numbers_lines: true,
            first: None,
            count: 0,
        }
    }

    /// Returns one for a command whose script the user never saw: it says each refusal, without a
    /// line.
    pub fn of_one(folder: &'a str, faults: &'a mut F) -> Self {
        Telling {
            folder,
            faults,
            numbers_lines: false,
            first: None,
            count: 0,
        }
    }

    /// Says at the end what helps after the first refusal that a file is the cause of.
    pub fn end<K: KeyOrder>(&mut self, rt: &HostRuntime) {
        let folder = self.folder;
        match self.first {
            None => {}
            Some((error, noted)) => {
                if say_if_mendable::<K, F>(rt, folder, error, noted, self.faults) {
                    return;
                }
                if shows_more(error) {
                    say_how_to_see(self.faults, folder);
                } else {
                    say_what_helps::<K, F>(rt, folder, error, noted, self.faults);
                }
            }
        }
    }
}

// Whether a check of each file shows more of it.
fn shows_more(error: DbError) -> bool {
    match error {
        DbError::Corrupt(kind, _) => is_of_one_file(kind),
        _ => false,
    }
}

impl<F: Write> Listener for Telling<'_, F> {
    fn refused(&mut self, refusal: &Refusal, noted: Trouble) {
        if self.first.is_none() && is_of_a_file(refusal.error) {
            self.first = Some((refusal.error, noted));
        }
        let folder = self.folder;
        let line = if self.numbers_lines {
            refusal.line
        } else {
            None
        };
        match line {
            None => say_of_directory(self.faults, folder, refusal.error),
            Some(line) => tell_line(self.faults, line, refusal),
        }
        // a note that was there before is of an earlier refusal
        let is_new = noted.count != self.count;
        self.count = noted.count;
        let latest = if is_new { noted } else { Trouble::none() };
        say_why(self.faults, folder, refusal.error, latest);
    }
}

fn tell_line<F: Write>(faults: &mut F, line: u64, refusal: &Refusal) {
    if let Some(misread) = refusal.misread {
        say_of_misread(faults, line, misread);
        return;
    }
    if is_of_a_file(refusal.error) || refusal.error == DbError::Io {
        say_of_line(faults, line, refusal.error);
    }
}

fn is_of_a_file(error: DbError) -> bool {
    match error {
        DbError::Corrupt(_, _) => true,
        DbError::Unsupported(_) => true,
        _ => false,
    }
}
