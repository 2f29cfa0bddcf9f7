//! The tables after an edit (LevelDB's db/version_set.cc, `VersionSet::Builder`).

ghost use Rattle.std.specs.Prelude.{◌≡◌, ◌<◌, ◌∷◌, List, length, IfErr, IfSome, IfNone, OnOk, Some, None};
ghost use Rattle.std.specs.List.{remove};
ghost use Rattle.coding.specs.Errors.{RefusesOnly};
ghost use Rattle.edits.specs.Layout.{without, is_at, after_deleted, after_new, after_edit};
ghost use Rattle.edits.specs.declared.field.Field.{Field as FieldValue};
ghost use Rattle.versions.specs.Levels.{AreInOrder, pointers_after};
ghost use Rattle.versions.specs.Applying.{LeadsLayout, LeadsNowhere, LeadsAstray, LeadsOn};

use crate::ordering::put_table;
use coding::{Damage, ReadError};
use edits::{Field, PlacedTable, copy_of};
use ikey::KeyOrder;
use std::alloc::Global;

/// Makes the tables those after one more edit: deleted files go before new ones. Corrupt: a deleted
/// file isn't there, or a new one doesn't fit in.
pub fn apply_edit<K: KeyOrder>(
    alloc: Global,
    tables: &mut Vec<PlacedTable>,
    edit: &[Field],
) -> Result<(), ReadError>
    requires { AreInOrder K.cmp tables.old.items }
    ensures order { OnOk result (AreInOrder K.cmp tables.new.items) }
    ensures done { OnOk result (LeadsLayout (after_edit edit.now) tables.old.items tables.new.items) }
    ensures refused { IfErr result (λ e. RefusesOnly e (LeadsAstray K.cmp (after_edit edit.now) tables.old.items)) }
{
    take_away::<K>(tables, edit)?;
    put_in::<K>(alloc, tables, edit)?;
    Ok(())
}

// Takes the deleted files of an edit out of the tables.
fn take_away<K: KeyOrder>(tables: &mut Vec<PlacedTable>, edit: &[Field]) -> Result<(), ReadError>
    requires { AreInOrder K.cmp tables.old.items }
    ensures order { OnOk result (AreInOrder K.cmp tables.new.items) }
    ensures done { OnOk result (LeadsLayout (after_deleted edit.now) tables.old.items tables.new.items) }
    ensures refused { IfErr result (λ e. RefusesOnly e (LeadsNowhere (after_deleted edit.now) tables.old.items)) }
{
    for field in edit {
        take_deleted::<K>(tables, field)?;
    }
    Ok(())
}

// Takes a deleted file out; another field changes nothing.
fn take_deleted<K: KeyOrder>(tables: &mut Vec<PlacedTable>, field: &Field) -> Result<(), ReadError>
    requires { AreInOrder K.cmp tables.old.items }
    ensures order { OnOk result (AreInOrder K.cmp tables.new.items) }
    ensures done { OnOk result ((more : List FieldValue) → LeadsOn (after_deleted (field.now ∷ more)) tables.old.items (after_deleted more) tables.new.items) }
    ensures refused { IfErr result (λ e. RefusesOnly e ((more : List FieldValue) → LeadsNowhere (after_deleted (field.now ∷ more)) tables.old.items)) }
{
    match field {
        Field::DeletedFile(level, number) => {
            take_one::<K>(tables, *level, *number)?;
            Ok(())
        }
        Field::Comparator(_)
        | Field::LogNumber(_)
        | Field::NextFileNumber(_)
        | Field::LastSequence(_)
        | Field::CompactPointer(_, _)
        | Field::NewFile(_)
        | Field::PreviousLogNumber(_) => Ok(()),
    }
}

fn take_one<K: KeyOrder>(
    tables: &mut Vec<PlacedTable>,
    level: u32,
    number: u64,
) -> Result<(), ReadError>
    requires { AreInOrder K.cmp tables.old.items }
    ensures order { OnOk result (AreInOrder K.cmp tables.new.items) }
    ensures done { OnOk result (LeadsLayout (without level number) tables.old.items tables.new.items) }
    ensures refused { IfErr result (λ e. RefusesOnly e (LeadsNowhere (without level number) tables.old.items)) }
{
    let Some(place) = place_of(tables, level, number) else {
        return Err(ReadError::Corrupt(Damage::Missing));
    };
    let _table = tables.remove(place);
    Ok(())
}

// The index of the table at this level of this number.
fn place_of(tables: &[PlacedTable], level: u32, number: u64) -> Option<usize>
    ensures within { IfSome result (λ place. place < length tables.now) }
    ensures found { IfSome result (λ place. without level number tables.now ≡ Some (remove tables.now place)) }
    ensures none { IfNone result (without level number tables.now ≡ None) }
{
    for (place, placed) in tables.iter().enumerate() {
        if is_at(placed, level, number) {
            return Some(place);
        }
    }
    None
}

fn is_at(placed: &PlacedTable, level: u32, number: u64) -> bool
    ensures { result ≡ is_at level number placed.now }
{
    placed.level == level && placed.table.number == number
}

// Puts the new files of an edit among the tables.
fn put_in<K: KeyOrder>(
    alloc: Global,
    tables: &mut Vec<PlacedTable>,
    edit: &[Field],
) -> Result<(), ReadError>
    requires { AreInOrder K.cmp tables.old.items }
    ensures order { OnOk result (AreInOrder K.cmp tables.new.items) }
    ensures done { OnOk result (LeadsLayout (after_new edit.now) tables.old.items tables.new.items) }
    ensures refused { IfErr result (λ e. RefusesOnly e (LeadsAstray K.cmp (after_new edit.now) tables.old.items)) }
{
    for field in edit {
        put_new::<K>(alloc, tables, field)?;
    }
    Ok(())
}

// Puts a new file in; another field changes nothing.
fn put_new<K: KeyOrder>(
    alloc: Global,
    tables: &mut Vec<PlacedTable>,
    field: &Field,
) -> Result<(), ReadError>
    requires { AreInOrder K.cmp tables.old.items }
    ensures order { OnOk result (AreInOrder K.cmp tables.new.items) }
    ensures done { OnOk result ((more : List FieldValue) → LeadsOn (after_new (field.now ∷ more)) tables.old.items (after_new more) tables.new.items) }
    ensures refused { IfErr result (λ e. RefusesOnly e ((more : List FieldValue) → LeadsAstray K.cmp (after_new (field.now ∷ more)) tables.old.items)) }
{
    match field {
        Field::NewFile(placed) => {
            put_table::<K>(tables, copy_of(alloc, placed)?)?;
            Ok(())
        }
        Field::Comparator(_)
        | Field::LogNumber(_)
        | Field::NextFileNumber(_)
        | Field::LastSequence(_)
        | Field::CompactPointer(_, _)
        | Field::DeletedFile(_, _)
        | Field::PreviousLogNumber(_) => Ok(()),
    }
}
