//! Reads a file in the form of a log, and judges it.

ghost use Rattle.std.specs.Prelude.{◌≡◌, ◌≤◌, List, length, take, drop, IfOk, IfErr, IsTrue};
ghost use Rattle.edits.specs.Names.{IsFileName};
ghost use Rattle.mending.specs.Calls.{Reads, RefusesMend};
ghost use Rattle.mending.specs.Cutting.{EndsIn};
ghost use Rattle.mending.specs.Plans.{HasNoFront, IsFound, IsNamed};

use crate::calls::{read_file, refusal_in};
use crate::cutting::judge;
use crate::ends::Ends;
use coding::{DbError, FileKind};
use edits::{FileName, print_name};
use std::alloc::Global;
use store::Store;

/// A file that is cut.
#[derive(Drop)]
pub struct Cut {
    /// Which file it is: the MANIFEST that `CURRENT` names, or a log in use.
    pub file: FileName,
    /// What is left of it. Its length is where the file is cut.
    pub front: Vec<u8>,
    /// How many bytes the file has.
    pub length: u64,
    /// How many zeros stand at the end of what is cut off.
    pub zeros: u64,
}

/// What was found of a file.
#[derive(Drop)]
pub enum Found {
    /// It isn't there.
    Missing,
    /// It is a log of these bytes.
    Whole(Vec<u8>),
    /// It has to be cut.
    Broken(Cut),
}

/// Reads a file and judges it. Corrupt: neither it nor what would be left of it is a log.
pub fn find_file<S: Store>(
    alloc: Global,
    store: &mut S,
    ends: Ends,
    file: FileName,
    kind: FileKind,
) -> Result<Found, DbError>
    requires { IsFileName file }
    ensures reads { Reads (S.facts store.old) (S.facts store.new) }
    ensures named { IfOk result (IsNamed file) }
    ensures found { IfOk result (λ found. IsTrue (S.facts store.new).faithful
        → IsFound ends (S.facts store.old).files file found) }
    ensures refused { IfErr result (λ error. RefusesMend error (S.facts store.old) (S.facts store.new)
        (HasNoFront ends (S.facts store.old).files file) ⊥) }
{
    let name = print_name(alloc, file)?;
    let Some(bytes) = read_file(alloc, store, name.as_str())? else {
        return Ok(Found::Missing);
    };
    match judge(alloc, ends, &bytes) {
        Ok(None) => Ok(Found::Whole(bytes)),
        Ok(Some(n)) => Ok(Found::Broken(cut_file(file, bytes, n))),
        Err(error) => Err(refusal_in(kind, error)),
    }
}

// Cuts the bytes of a file.
fn cut_file(file: FileName, mut bytes: Vec<u8>, n: usize) -> Cut
    requires { n ≤ length bytes.items }
    ensures file { result.file ≡ file }
    ensures front { result.front.items ≡ take n bytes.items }
    ensures length { result.length ≡ length bytes.items }
    ensures zeros { EndsIn result.zeros (drop (length result.front.items) bytes.items) }
{
    let length = bytes.len() as u64;
    let (_, rest) = bytes.split_at(n);
    let zeros = zeros_at_end(rest);
    bytes.truncate(n);
    Cut {
        file,
        front: bytes,
        length,
        zeros,
    }
}

// Counts the zeros that the bytes end with.
fn zeros_at_end(bytes: &[u8]) -> u64
    ensures { EndsIn result bytes.now }
{
    let mut left = bytes.len();
    while left > 0 {
        if bytes[left - 1] != 0 {
            return (bytes.len() - left) as u64;
        }
        left -= 1;
    }
    bytes.len() as u64
}
