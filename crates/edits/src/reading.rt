//! Edits from their bytes.

ghost use Rattle.std.specs.Prelude.{◌≡◌, ◌++◌, ◌∷◌, List, ℕ, length, IfOk, IfErr, MatchBool};
ghost use Rattle.std.specs.List.{AllByRecursion};
ghost use Rattle.coding.specs.Errors.{RefusesOnly};
ghost use Rattle.coding.specs.Spelling.{Begins, BeginsNone};
ghost use Rattle.edits.specs.Edit.{IsField, IsEdit, IsPastLimit, IsWithinLimit, HasPastLimit, RefusesFor};
ghost use Rattle.edits.specs.declared.field.Field.{Field as FieldValue};

use crate::field::Field;
use crate::numbers::NUMBER_END;
use crate::spelling::{key_at, level_at, long_at, placed_at, sequence_at, string_at};
use crate::version_edit::Edit;
use coding::{Damage, Feature, ReadError};
use std::alloc::Global;

/// Reads the edit that a record of a MANIFEST is (LevelDB's doc/impl.md, "Manifest", and its
/// db/version_edit.cc, `VersionEdit::DecodeFrom`): all of the bytes, with fields in any order and
/// tags repeated. No bytes are an edit without fields. Corrupt: a field is cut or has an unknown
/// tag, a number isn't in its shortest form or in its range, a new file is numbered 0, or a key is
/// no internal key. Unsupported: a file is numbered 2^62 or above in what otherwise is an edit.
pub fn decode_edit(alloc: Global, bytes: &[u8]) -> Result<Edit, ReadError>
    // The bytes are the encoding of what is read, and its tables have numbers below 2 ^ 62.
    ensures found { IfOk result (λ edit. IsEdit bytes.now edit × AllByRecursion IsWithinLimit edit) }
    // Bytes that are refused are no edit, or one with a table past the limit.
    ensures refused { IfErr result (λ e. RefusesFor e ((edit : List FieldValue) → IsEdit bytes.now edit → ⊥)
        ((edit : List FieldValue) × IsEdit bytes.now edit × HasPastLimit edit)) }
{
    let edit = edit_of(alloc, bytes)?;
    if has_past_limit(edit.fields()) {
        return Err(ReadError::Unsupported(Feature::TableNumber));
    }
    Ok(edit)
}

fn edit_of(alloc: Global, bytes: &[u8]) -> Result<Edit, ReadError>
    ensures found { IfOk result (λ edit. IsEdit bytes.now edit) }
    ensures refused { IfErr result (λ e. RefusesOnly e ((edit : List FieldValue) → IsEdit bytes.now edit → ⊥)) }
{
    let mut edit = Edit::new(alloc);
    let mut rest = bytes;
    while !rest.is_empty() {
        let (field, behind) = field_at(alloc, rest)?;
        edit.push(field)?;
        rest = behind;
    }
    edit.shrink();
    Ok(edit)
}

fn field_at(alloc: Global, bytes: &[u8]) -> Result<(Field, &[u8]), ReadError>
    ensures found { IfOk result (λ found. Begins IsField bytes.now found.0 found.1.now) }
    ensures refused { IfErr result (λ e. RefusesOnly e (BeginsNone IsField bytes.now)) }
{
    match bytes {
        [tag, rest @ ..] => content_at(alloc, *tag, rest),
        [] => Err(ReadError::Corrupt(Damage::Length)),
    }
}

// The field of this tag whose content is at the front, and the bytes after it.
fn content_at(alloc: Global, tag: u8, bytes: &[u8]) -> Result<(Field, &[u8]), ReadError>
    ensures found { IfOk result (λ found. Begins IsField (tag ∷ bytes.now) found.0 found.1.now) }
    ensures refused { IfErr result (λ e. RefusesOnly e (BeginsNone IsField (tag ∷ bytes.now))) }
{
    match tag {
        1 => {
            let (name, rest) = string_at(alloc, bytes)?;
            Ok((Field::Comparator(name), rest))
        }
        2 => {
            let (number, rest) = long_at(bytes)?;
            Ok((Field::LogNumber(number), rest))
        }
        3 => {
            let (number, rest) = long_at(bytes)?;
            Ok((Field::NextFileNumber(number), rest))
        }
        4 => {
            let (sequence, rest) = sequence_at(bytes)?;
            Ok((Field::LastSequence(sequence), rest))
        }
        5 => {
            let (level, rest) = level_at(bytes)?;
            let (key, rest) = key_at(alloc, rest)?;
            Ok((Field::CompactPointer(level, key), rest))
        }
        6 => {
            let (level, rest) = level_at(bytes)?;
            let (number, rest) = long_at(rest)?;
            Ok((Field::DeletedFile(level, number), rest))
        }
        7 => {
            let (placed, rest) = placed_at(alloc, bytes)?;
            Ok((Field::NewFile(placed), rest))
        }
        9 => {
            let (number, rest) = long_at(bytes)?;
            Ok((Field::PreviousLogNumber(number), rest))
        }
        _ => Err(ReadError::Corrupt(Damage::Kind)),
    }
}

fn has_past_limit(fields: &[Field]) -> bool
    ensures { MatchBool result (HasPastLimit fields.now) (AllByRecursion IsWithinLimit fields.now) }
{
    for field in fields {
        if is_past_limit(field) {
            return true;
        }
    }
    false
}

fn is_past_limit(field: &Field) -> bool
    ensures { MatchBool result (IsPastLimit field.now) (IsWithinLimit field.now) }
{
    match field {
        Field::NewFile(placed) => placed.table.number >= NUMBER_END,
        Field::DeletedFile(_, number) => *number >= NUMBER_END,
        Field::Comparator(_)
        | Field::LogNumber(_)
        | Field::NextFileNumber(_)
        | Field::LastSequence(_)
        | Field::CompactPointer(_, _)
        | Field::PreviousLogNumber(_) => false,
    }
}
