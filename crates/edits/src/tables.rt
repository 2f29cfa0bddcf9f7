//! The tables that edits leave.

ghost use Rattle.std.specs.Prelude.{◌≡◌, ◌∷◌, List, [], IfOk, IfErr, OnOk, Some, None};
ghost use Rattle.coding.specs.Errors.{RefusesOnly};
ghost use Rattle.edits.specs.Layout.{after_edits, after_edit, after_deleted, after_new, with_table};
ghost use Rattle.edits.specs.declared.field.Field.{Field as FieldValue};

use crate::field::{Field, PlacedTable, TableFile};
use crate::table_set::TableSet;
use crate::version_edit::Edit;
use coding::{Bytes, Damage, ReadError};
use std::alloc::{AllocError, Global};

/// Returns the tables after these edits.
pub fn tables_after(alloc: Global, edits: &[Edit]) -> Result<Vec<PlacedTable>, ReadError>
    ensures found { IfOk result (λ tables. after_edits edits.now [] ≡ Some tables.items) }
    ensures refused { IfErr result (λ e. RefusesOnly e (after_edits edits.now [] ≡ None)) }
{
    let mut tables = TableSet::new(alloc);
    for edit in edits {
        apply_edit(alloc, &mut tables, edit.fields())?;
    }
    Ok(tables.into_tables(alloc)?)
}

// Makes the tables those after one more edit: deleted files go before new ones.
fn apply_edit(alloc: Global, tables: &mut TableSet, fields: &[Field]) -> Result<(), ReadError>
    ensures done { OnOk result (after_edit fields.now tables.old ≡ Some tables.new) }
    ensures refused { IfErr result (λ e. RefusesOnly e (after_edit fields.now tables.old ≡ None)) }
{
    take_away(tables, fields)?;
    put_in(alloc, tables, fields)
}

// Takes the deleted files of an edit out of the tables.
fn take_away(tables: &mut TableSet, fields: &[Field]) -> Result<(), ReadError>
    ensures done { OnOk result (after_deleted fields.now tables.old ≡ Some tables.new) }
    ensures refused { IfErr result (λ e. RefusesOnly e (after_deleted fields.now tables.old ≡ None)) }
{
    for field in fields {
        take_deleted(tables, field)?;
    }
    Ok(())
}

// Takes a deleted file out; another field changes nothing.
fn take_deleted(tables: &mut TableSet, field: &Field) -> Result<(), ReadError>
    ensures done { OnOk result ((more : List FieldValue) → after_deleted (field.now ∷ more) tables.old ≡ after_deleted more tables.new) }
    ensures refused { IfErr result (λ e. RefusesOnly e ((more : List FieldValue) → after_deleted (field.now ∷ more) tables.old ≡ None)) }
{
    match field {
        Field::DeletedFile(level, number) => tables.remove(*level, *number),
        Field::Comparator(_)
        | Field::LogNumber(_)
        | Field::NextFileNumber(_)
        | Field::LastSequence(_)
        | Field::CompactPointer(_, _)
        | Field::NewFile(_)
        | Field::PreviousLogNumber(_) => Ok(()),
    }
}

// Puts the new files of an edit among the tables.
fn put_in(alloc: Global, tables: &mut TableSet, fields: &[Field]) -> Result<(), ReadError>
    ensures done { OnOk result (after_new fields.now tables.old ≡ Some tables.new) }
    ensures refused { IfErr result (λ e. RefusesOnly e (after_new fields.now tables.old ≡ None)) }
{
    for field in fields {
        put_new(alloc, tables, field)?;
    }
    Ok(())
}

// Puts a new file in; another field changes nothing.
fn put_new(alloc: Global, tables: &mut TableSet, field: &Field) -> Result<(), ReadError>
    ensures done { OnOk result ((more : List FieldValue) → after_new (field.now ∷ more) tables.old ≡ after_new more tables.new) }
    ensures refused { IfErr result (λ e. RefusesOnly e ((more : List FieldValue) → after_new (field.now ∷ more) tables.old ≡ None)) }
{
    match field {
        Field::NewFile(placed) => put_one(alloc, tables, placed),
        Field::Comparator(_)
        | Field::LogNumber(_)
        | Field::NextFileNumber(_)
        | Field::LastSequence(_)
        | Field::CompactPointer(_, _)
        | Field::DeletedFile(_, _)
        | Field::PreviousLogNumber(_) => Ok(()),
    }
}

fn put_one(alloc: Global, tables: &mut TableSet, new: &PlacedTable) -> Result<(), ReadError>
    ensures done { OnOk result (with_table new.now tables.old ≡ Some tables.new) }
    ensures refused { IfErr result (λ e. RefusesOnly e (with_table new.now tables.old ≡ None)) }
{
    tables.add(copy_of(alloc, new)?)
}

/// Copies a table's description into memory of its own.
pub fn copy_of(alloc: Global, placed: &PlacedTable) -> Result<PlacedTable, AllocError>
    ensures { IfOk result (λ copy. copy ≡ placed.now) }
{
    let smallest = Bytes::copied_from(alloc, placed.table.smallest.as_slice())?;
    let largest = Bytes::copied_from(alloc, placed.table.largest.as_slice())?;
    Ok(PlacedTable {
        level: placed.level,
        table: TableFile {
            number: placed.table.number,
            size: placed.table.size,
            smallest,
            largest,
        },
    })
}
