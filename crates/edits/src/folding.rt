//! The layout that edits leave (LevelDB's db/version_set.cc, `VersionSet::Recover`).

ghost use Rattle.std.specs.Prelude.{◌≡◌, List, [], ℕ, IfOk, IfErr, MatchBool, map};
ghost use Rattle.std.specs.List.{AllByRecursion};
ghost use Rattle.std.specs.Option.{option_or, option_copied};
ghost use Rattle.edits.specs.Edit.{RefusesFor};
ghost use Rattle.edits.specs.Layout.{IsLayout, AreOfOrder, AreOfOther, IsComparator, IsOther, NamesOther, names_none, fields_of, last_said, log_number_in, next_file_number_in, last_sequence_in, previous_log_number_in, compact_pointer_in, levels};
ghost use Rattle.edits.specs.declared.field.Field.{Field as FieldValue};
ghost use Rattle.edits.specs.declared.layout.Layout.{Layout as LayoutValue};

use crate::field::Field;
use crate::layout::{LEVELS, Layout};
use crate::tables::tables_after;
use crate::version_edit::Edit;
use coding::{Bytes, Damage, Feature, ReadError};
use std::alloc::{AllocError, Global};

// The order of a database that names none.
const BYTEWISE: &str = "leveldb.BytewiseComparator";

// The numbers that the fields so far say last.
#[derive(Clone, Copy)]
struct Numbers {
    log: Option<u64>,
    next_file: Option<u64>,
    last_sequence: Option<u64>,
    previous_log: Option<u64>,
}

/// Returns the layout that the edits of a MANIFEST leave, if keys are in the order of this name
/// (LevelDB's db/version_set.cc, `VersionSet::Recover` and `VersionSet::Builder`). Of each number
/// and compact pointer the last one counts. Within an edit deleted files go before new ones.
/// Unsupported: an edit names another order, or none does and this isn't
/// `leveldb.BytewiseComparator`. Corrupt: no edit has the log number, the next file number or the
/// last sequence number; a deleted file isn't at that level, or a new one's number is there.
pub fn fold_edits(alloc: Global, comparator: &[u8], edits: &[Edit]) -> Result<Layout, ReadError>
    ensures found { IfOk result (λ layout. IsLayout comparator.now edits.now layout) }
    // Edits that are refused leave no layout, or are of another order.
    ensures refused { IfErr result (λ e. RefusesFor e ((layout : LayoutValue) → IsLayout comparator.now edits.now layout → ⊥)
        (AreOfOther comparator.now (fields_of edits.now))) }
    // If they are of another order, it is for that.
    ensures other { IfErr result (λ e. RefusesFor e (AreOfOrder comparator.now (fields_of edits.now)) (AreOfOther comparator.now (fields_of edits.now))) }
{
    if are_of_other(comparator, edits) {
        return Err(ReadError::Unsupported(Feature::Comparator));
    }
    let numbers = numbers_of(edits);
    let (Some(log_number), Some(next_file_number), Some(last_sequence)) = (
        numbers.log,
        numbers.next_file,
        numbers.last_sequence,
    ) else {
        return Err(ReadError::Corrupt(Damage::Missing));
    };
    let compact_pointers = compact_pointers_of(alloc, edits)?;
    let tables = tables_after(alloc, edits)?;
    Ok(Layout {
        log_number,
        previous_log_number: numbers.previous_log.unwrap_or(0),
        next_file_number,
        last_sequence,
        compact_pointers,
        tables,
    })
}

// Whether the edits are of another order.
fn are_of_other(comparator: &[u8], edits: &[Edit]) -> bool
    ensures { MatchBool result (AreOfOther comparator.now (fields_of edits.now)) (AreOfOrder comparator.now (fields_of edits.now)) }
{
    if edits_name_other(comparator, edits) {
        return true;
    }
    if comparator == BYTEWISE.as_bytes() {
        return false;
    }
    edits_name_none(edits)
}

// Whether no field of these edits names an order.
fn edits_name_none(edits: &[Edit]) -> bool
    ensures { result ≡ names_none (fields_of edits.now) }
{
    for edit in edits {
        if !name_none(edit.fields()) {
            return false;
        }
    }
    true
}

fn name_none(fields: &[Field]) -> bool
    ensures { result ≡ names_none fields.now }
{
    for field in fields {
        if let Field::Comparator(_) = field {
            return false;
        }
    }
    true
}

// Whether a field of these edits names another order.
fn edits_name_other(comparator: &[u8], edits: &[Edit]) -> bool
    ensures { MatchBool result (NamesOther comparator.now (fields_of edits.now)) (AllByRecursion (IsComparator comparator.now) (fields_of edits.now)) }
{
    for edit in edits {
        if names_other(comparator, edit.fields()) {
            return true;
        }
    }
    false
}

// Whether a field names another order.
fn names_other(comparator: &[u8], fields: &[Field]) -> bool
    ensures { MatchBool result (NamesOther comparator.now fields.now) (AllByRecursion (IsComparator comparator.now) fields.now) }
{
    for field in fields {
        if is_other(comparator, field) {
            return true;
        }
    }
    false
}

// Whether the field names another order.
fn is_other(comparator: &[u8], field: &Field) -> bool
    ensures { MatchBool result (IsOther comparator.now field.now) (IsComparator comparator.now field.now) }
{
    match field {
        Field::Comparator(name) => name.as_slice() != comparator,
        Field::LogNumber(_)
        | Field::NextFileNumber(_)
        | Field::LastSequence(_)
        | Field::CompactPointer(_, _)
        | Field::DeletedFile(_, _)
        | Field::NewFile(_)
        | Field::PreviousLogNumber(_) => false,
    }
}

fn numbers_of(edits: &[Edit]) -> Numbers
    ensures log { result.log ≡ last_said log_number_in (fields_of edits.now) }
    ensures next_file { result.next_file ≡ last_said next_file_number_in (fields_of edits.now) }
    ensures last_sequence { result.last_sequence ≡ last_said last_sequence_in (fields_of edits.now) }
    ensures previous_log { result.previous_log ≡ last_said previous_log_number_in (fields_of edits.now) }
{
    let mut numbers = Numbers {
        log: None,
        next_file: None,
        last_sequence: None,
        previous_log: None,
    };
    for edit in edits {
        numbers = after_fields(numbers, edit.fields());
    }
    numbers
}

// The numbers after the fields of one more edit.
fn after_fields(numbers: Numbers, fields: &[Field]) -> Numbers
    ensures log { result.log ≡ option_or (last_said log_number_in fields.now) numbers.log }
    ensures next_file { result.next_file ≡ option_or (last_said next_file_number_in fields.now) numbers.next_file }
    ensures last_sequence { result.last_sequence ≡ option_or (last_said last_sequence_in fields.now) numbers.last_sequence }
    ensures previous_log { result.previous_log ≡ option_or (last_said previous_log_number_in fields.now) numbers.previous_log }
{
    let mut said = numbers;
    for field in fields {
        said = after_field(said, field);
    }
    said
}

// The numbers after one more field.
fn after_field(numbers: Numbers, field: &Field) -> Numbers
    ensures log { result.log ≡ option_or (log_number_in field.now) numbers.log }
    ensures next_file { result.next_file ≡ option_or (next_file_number_in field.now) numbers.next_file }
    ensures last_sequence { result.last_sequence ≡ option_or (last_sequence_in field.now) numbers.last_sequence }
    ensures previous_log { result.previous_log ≡ option_or (previous_log_number_in field.now) numbers.previous_log }
{
    match field {
        Field::LogNumber(number) => Numbers {
            log: Some(*number),
            ..numbers
        },
        Field::NextFileNumber(number) => Numbers {
            next_file: Some(*number),
            ..numbers
        },
        Field::LastSequence(sequence) => Numbers {
            last_sequence: Some(*sequence),
            ..numbers
        },
        Field::PreviousLogNumber(number) => Numbers {
            previous_log: Some(*number),
            ..numbers
        },
        Field::Comparator(_)
        | Field::CompactPointer(_, _)
        | Field::DeletedFile(_, _)
        | Field::NewFile(_) => numbers,
    }
}

fn compact_pointers_of(alloc: Global, edits: &[Edit]) -> Result<Vec<Option<Bytes>>, AllocError>
    ensures { IfOk result (λ pointers. pointers.items ≡ map (λ level. last_said (compact_pointer_in level) (fields_of edits.now)) levels) }
{
    let mut pointers = Vec::new(alloc);
    for level in 0..LEVELS {
        pointers.push(key_copy(alloc, pointer_in_edits(edits, level))?)?;
    }
    Ok(pointers)
}

fn key_copy(alloc: Global, key: Option<&[u8]>) -> Result<Option<Bytes>, AllocError>
    ensures { IfOk result (λ copy. copy ≡ option_copied key.entry) }
{
    match key {
        Some(key) => Ok(Some(Bytes::copied_from(alloc, key)?)),
        None => Ok(None),
    }
}

// The key that these edits say last for the level.
fn pointer_in_edits(edits: &[Edit], level: u32) -> Option<&[u8]>
    ensures { last_said (compact_pointer_in level) (fields_of edits.now) ≡ option_copied result }
{
    let mut pointer = None;
    for edit in edits {
        pointer = pointer_in_fields(edit.fields(), level).or(pointer);
    }
    pointer
}

fn pointer_in_fields(fields: &[Field], level: u32) -> Option<&[u8]>
    ensures { last_said (compact_pointer_in level) fields.now ≡ option_copied result }
{
    let mut pointer = None;
    for field in fields {
        pointer = pointer_in_field(field, level).or(pointer);
    }
    pointer
}

fn pointer_in_field(field: &Field, level: u32) -> Option<&[u8]>
    ensures { compact_pointer_in level field.now ≡ option_copied result }
{
    match field {
        Field::CompactPointer(other, key) if *other == level => Some(key.as_slice()),
        Field::Comparator(_)
        | Field::LogNumber(_)
        | Field::NextFileNumber(_)
        | Field::LastSequence(_)
        | Field::CompactPointer(_, _)
        | Field::DeletedFile(_, _)
        | Field::NewFile(_)
        | Field::PreviousLogNumber(_) => None,
    }
}

/// Proves that no edits leave two layouts.
pub fn one_layout()
    ensures { (name : List ℕ) (edits : List (List FieldValue)) (layout other : LayoutValue)
        → IsLayout name edits layout → IsLayout name edits other
        → (layout.log_number ≡ other.log_number) × (layout.previous_log_number ≡ other.previous_log_number) × (layout.next_file_number ≡ other.next_file_number)
        × (layout.last_sequence ≡ other.last_sequence) × (layout.compact_pointers.items ≡ other.compact_pointers.items) × (layout.tables.items ≡ other.tables.items) }
{}
