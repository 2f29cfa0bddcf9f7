//! Why a table is refused, noted beside the refusal, with which nothing of its files changes. What
//! is found is looked for once more where it is refused, and nowhere else.

ghost use Rattle.std.specs.Prelude.{◌≡◌, Some, None};
ghost use Rattle.coding.specs.declared.error.DbError.TheVariants.{Corrupt};
ghost use Rattle.coding.specs.declared.error.FileKind.TheVariants as file_kind;
ghost use Rattle.store.specs.Troubles.{NamesFile};
ghost use Rattle.store.specs.declared.error.StoreError.TheVariants.{Missing};
ghost use Rattle.table.specs.Reading.{refusal_of, table_refusal};

use crate::footer::{FOOTER_LENGTH, magic_in, magic_number};
use crate::handle::Handle;
use crate::reading::{refusal, table_refusal};
use crate::stored::{TRAILER_LENGTH, sums_of};
use block::MAX_BLOCK_LENGTH;
use coding::{Damage, DbError, FileKind, ReadError};
use store::{Store, StoreError, Trouble, Why};

/// Returns the error that stands for one of the store, and notes a missing file. (What else the
/// store refuses it notes itself.)
pub fn refuse_call<S: Store>(store: &mut S, name: &str, e: StoreError) -> DbError
    ensures same { S.facts store.new ≡ S.facts store.old }
    ensures value { result ≡ refusal_of e }
    ensures told { e ≡ Missing → NamesFile name.now (S.told store.new) }
{
    if e == StoreError::Missing {
        store.note(Trouble::of(Why::Missing, name));
        return refusal(e);
    }
    refusal(e)
}

/// Notes that a file ends before all of these bytes were read, and returns the error.
pub fn refuse_cut<S: Store>(
    store: &mut S,
    name: &str,
    at: u64,
    found: usize,
    wanted: usize,
) -> DbError
    ensures same { S.facts store.new ≡ S.facts store.old }
    ensures value { result ≡ Corrupt file_kind.Table Damage.Length }
    ensures names { NamesFile name.now (S.told store.new) }
    ensures at { (S.told store.new).at ≡ Some at }
{
    let trouble = Trouble::of(Why::Cut, name).at(at);
    store.note(trouble.found(found as u64, wanted as u64));
    DbError::Corrupt(FileKind::Table, Damage::Length)
}

/// Notes a block that isn't stored in a file of this length, or is too long, and returns the error.
pub fn refuse_length<S: Store>(
    store: &mut S,
    name: &str,
    handle: Handle,
    len: u64,
    e: ReadError,
) -> DbError
    ensures same { S.facts store.new ≡ S.facts store.old }
    ensures value { result ≡ table_refusal e }
    ensures names { NamesFile name.now (S.told store.new) }
    ensures at { (S.told store.new).at ≡ Some handle.offset }
{
    store.note(length_trouble(handle, len, e, name));
    table_refusal(e)
}

fn length_trouble(handle: Handle, len: u64, e: ReadError, name: &str) -> Trouble
    ensures names { NamesFile name.now result }
    ensures at { result.at ≡ Some handle.offset }
{
    match e {
        ReadError::Unsupported(_) => Trouble::of(Why::BlockSize, name)
            .at(handle.offset)
            .found(handle.size, MAX_BLOCK_LENGTH as u64),
        _ => {
            let end = handle.offset.saturating_add(handle.size);
            Trouble::of(Why::BlockEnd, name)
                .at(handle.offset)
                .found(end.saturating_add(TRAILER_LENGTH as u64), len)
        }
    }
}

/// Notes what is wrong with the bytes that are stored at a place, a block, its type and a checksum,
/// and returns the error.
pub fn refuse_stored<S: Store>(
    store: &mut S,
    name: &str,
    at: u64,
    bytes: &[u8],
    e: ReadError,
) -> DbError
    ensures same { S.facts store.new ≡ S.facts store.old }
    ensures value { result ≡ table_refusal e }
    ensures names { NamesFile name.now (S.told store.new) }
    ensures at { (S.told store.new).at ≡ Some at }
{
    store.note(stored_trouble(bytes, e, name).at(at));
    table_refusal(e)
}

fn stored_trouble(bytes: &[u8], e: ReadError, name: &str) -> Trouble
    ensures names { NamesFile name.now result }
{
    let Some(sums) = sums_of(bytes) else {
        return Trouble::of(Why::BlockParts, name);
    };
    match e {
        ReadError::Unsupported(_) => {
            Trouble::of(Why::BlockType, name).found(u64::from(sums.kind), 0)
        }
        _ => Trouble::of(Why::BlockChecksum, name).found(
            u64::from(sums.found),
            u64::from(sums.stored),
        ),
    }
}

/// Notes what is wrong with the block at a place, whose checksum is right, and returns the error.
pub fn refuse_block<S: Store>(store: &mut S, name: &str, at: u64, e: ReadError) -> DbError
    ensures same { S.facts store.new ≡ S.facts store.old }
    ensures value { result ≡ table_refusal e }
    ensures names { NamesFile name.now (S.told store.new) }
    ensures at { (S.told store.new).at ≡ Some at }
{
    store.note(Trouble::of(why_of(e), name).at(at));
    table_refusal(e)
}

// What is wrong with a block that is read, by its damage.
fn why_of(e: ReadError) -> Why {
    match e {
        ReadError::Memory => Why::Nothing,
        ReadError::Unsupported(_) => Why::BlockSize,
        ReadError::Corrupt(Damage::Order) => Why::BlockOrder,
        ReadError::Corrupt(Damage::Number) => Why::Handle,
        ReadError::Corrupt(_) => Why::BlockParts,
    }
}

/// Notes what is wrong with the filter block at a place, whose checksum is right, and returns the
/// error.
pub fn refuse_filter<S: Store>(store: &mut S, name: &str, at: u64, e: ReadError) -> DbError
    ensures same { S.facts store.new ≡ S.facts store.old }
    ensures value { result ≡ table_refusal e }
    ensures names { NamesFile name.now (S.told store.new) }
    ensures at { (S.told store.new).at ≡ Some at }
{
    store.note(Trouble::of(Why::Filter, name).at(at));
    table_refusal(e)
}

/// Notes that a file is shorter than a footer, and returns the error.
pub fn refuse_short<S: Store>(store: &mut S, name: &str, len: u64) -> DbError
    ensures same { S.facts store.new ≡ S.facts store.old }
    ensures value { result ≡ Corrupt file_kind.Table Damage.Length }
    ensures names { NamesFile name.now (S.told store.new) }
{
    store.note(Trouble::of(Why::FooterLength, name).found(len, FOOTER_LENGTH as u64));
    DbError::Corrupt(FileKind::Table, Damage::Length)
}

/// Notes why bytes at a place are no footer, and returns the error.
pub fn refuse_footer<S: Store>(
    store: &mut S,
    name: &str,
    at: u64,
    bytes: &[u8],
    what: Damage,
) -> DbError
    ensures same { S.facts store.new ≡ S.facts store.old }
    ensures value { result ≡ Corrupt file_kind.Table what }
    ensures names { NamesFile name.now (S.told store.new) }
    ensures at { (S.told store.new).at ≡ Some at }
{
    store.note(footer_trouble(bytes, what, name).at(at));
    DbError::Corrupt(FileKind::Table, what)
}

fn footer_trouble(bytes: &[u8], what: Damage, name: &str) -> Trouble
    ensures names { NamesFile name.now result }
{
    match what {
        Damage::Kind => Trouble::of(Why::Magic, name).found(magic_in(bytes), magic_number()),
        Damage::Padding => Trouble::of(Why::FooterPadding, name),
        _ => Trouble::of(Why::FooterHandle, name),
    }
}

/// Notes what is wrong with the parts of a table: with its blocks together, or with the keys of the
/// block at a place.
pub fn note_parts<S: Store>(store: &mut S, name: &str, at: Option<u64>, why: Why)
    ensures same { S.facts store.new ≡ S.facts store.old }
    ensures names { NamesFile name.now (S.told store.new) }
    ensures at { (S.told store.new).at ≡ at }
{
    store.note(Trouble {
        at,
        ..Trouble::of(why, name)
    });
}
