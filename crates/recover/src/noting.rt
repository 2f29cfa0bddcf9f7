//! Why files are refused, noted beside the refusal, with which nothing of the store changes.

ghost use Rattle.std.specs.Prelude.{◌≡◌};
ghost use Rattle.store.specs.Troubles.{NamesFile};

use crate::located::{batch_trouble, fault_in, manifest_trouble};
use coding::{DbError, Feature};
use edits::{FileName, print_name};
use std::alloc::Global;
use store::{Store, Trouble, Why};

/// Notes what is wrong with a file as a whole.
pub fn note_file<S: Store>(store: &mut S, name: &str, why: Why)
    ensures same { S.facts store.new ≡ S.facts store.old }
    ensures names { NamesFile name.now (S.told store.new) }
{
    store.note(Trouble::of(why, name));
}

/// Notes that a file has another length than the MANIFEST says.
pub fn note_length<S: Store>(store: &mut S, name: &str, found: u64, wanted: u64)
    ensures same { S.facts store.new ≡ S.facts store.old }
    ensures names { NamesFile name.now (S.told store.new) }
{
    store.note(Trouble::of(Why::FileLength, name).found(found, wanted));
}

/// Notes what is wrong with the table of this number, by the name that we give it or the one that
/// older writers gave.
pub fn note_table<S: Store>(alloc: Global, store: &mut S, number: u64, is_older: bool, why: Why)
    ensures { S.facts store.new ≡ S.facts store.old }
{
    store.note(table_trouble(alloc, number, is_older, why));
}

fn table_trouble(alloc: Global, number: u64, is_older: bool, why: Why) -> Trouble {
    if number == 0 {
        return Trouble::none();
    }
    let name = if is_older {
        print_name(alloc, FileName::OldTable(number))
    } else {
        print_name(alloc, FileName::Table(number))
    };
    match name {
        Ok(name) => Trouble::of(why, name.as_str()),
        Err(_) => Trouble::none(),
    }
}

/// Notes that a table has a sequence number above the recorded one.
pub fn note_sequence<S: Store>(store: &mut S, name: &str, found: u64, most: u64)
    ensures same { S.facts store.new ≡ S.facts store.old }
    ensures names { NamesFile name.now (S.told store.new) }
{
    store.note(Trouble::of(Why::Recorded, name).found(found, most));
}

/// Notes what is wrong with a piece of a log, which begins with a block, from an offset on.
pub fn note_piece<S: Store>(store: &mut S, name: &str, offset: u64, piece: &[u8], error: DbError)
    ensures { S.facts store.new ≡ S.facts store.old }
{
    let trouble = match error {
        DbError::Corrupt(_, what) => fault_in(name, piece, what),
        _ => Trouble::none(),
    };
    store.note(trouble.moved(offset));
}

/// Notes what is wrong with a log of batches, whose sequence numbers must be above this one.
pub fn note_log<S: Store>(
    alloc: Global,
    store: &mut S,
    name: &str,
    bytes: &[u8],
    last: u64,
    error: DbError,
)
    ensures { S.facts store.new ≡ S.facts store.old }
{
    let trouble = match error {
        DbError::Corrupt(_, what) => batch_trouble(alloc, name, bytes, last, what),
        _ => Trouble::none(),
    };
    store.note(trouble);
}

/// Notes what is wrong with a MANIFEST.
pub fn note_manifest<S: Store>(
    alloc: Global,
    store: &mut S,
    name: &str,
    bytes: &[u8],
    error: DbError,
)
    ensures { S.facts store.new ≡ S.facts store.old }
{
    let trouble = match error {
        DbError::Corrupt(_, what) => manifest_trouble(alloc, name, bytes, what),
        DbError::Unsupported(Feature::Comparator) => Trouble::of(Why::Comparator, name),
        DbError::Unsupported(_) => Trouble::of(Why::TableNumber, name),
        _ => Trouble::none(),
    };
    store.note(trouble);
}
