//! The edit with which a new MANIFEST begins (LevelDB's db/version_set.cc,
//! `VersionSet::WriteSnapshot`).

ghost use Rattle.std.specs.Prelude.{◌≡◌, ◌<◌, ◌^◌, ◌++◌, ◌∷◌, List, [], ℕ, suc, length, map, All, Option, IfOk, OnOk};
ghost use Rattle.std.specs.List.{AllByRecursion};
ghost use Rattle.edits.specs.Edit.{IsProper, IsInOrder, HasPastLimit};
ghost use Rattle.edits.specs.Layout.{IsLayout};
ghost use Rattle.edits.specs.Snapshot.{IsKept, IsRenumbered, IsBelowLimit, WasRead, snapshot_fields, pointer_fields, previous_fields};
ghost use Rattle.edits.specs.declared.field.Field.{Field as FieldValue};
ghost use Rattle.edits.specs.declared.field.Field.TheVariants.{NewFile};
ghost use Rattle.edits.specs.declared.layout.Layout.{Layout as LayoutValue};

use crate::field::{Field, PlacedTable};
use crate::layout::Layout;
use crate::tables::copy_of;
use crate::version_edit::Edit;
use coding::Bytes;
use std::alloc::{AllocError, Global};

/// Builds the edit that alone leaves the tables and compact pointers of a layout, under these
/// numbers (LevelDB's db/version_set.cc, `VersionSet::WriteSnapshot`). Its fields are in our
/// writer's order, and the previous log number is among them only if it isn't 0. It fails only out
/// of memory.
pub fn snapshot_edit(
    alloc: Global,
    comparator: &[u8],
    log_number: u64,
    previous_log_number: u64,
    next_file_number: u64,
    last_sequence: u64,
    layout: &Layout,
) -> Result<Edit, AllocError>
    requires comparator { length comparator.now < 2 ^ 32 }
    requires sequence { last_sequence < 2 ^ 56 }
    requires kept { IsKept layout.now }
    ensures proper { IfOk result (λ edit. All IsProper edit) }
    ensures order { IfOk result (λ edit. IsInOrder edit) }
    ensures fields { IfOk result (λ edit. (new : LayoutValue) → IsRenumbered log_number previous_log_number next_file_number last_sequence layout.now new
        → edit ≡ snapshot_fields comparator.now new) }
    ensures folds { IfOk result (λ edit. (new : LayoutValue) → IsRenumbered log_number previous_log_number next_file_number last_sequence layout.now new
        → IsLayout comparator.now (edit ∷ []) new) }
    // What is read again has no table past the reading limit if the layout has none.
    ensures limit { IfOk result (λ edit. AllByRecursion IsBelowLimit layout.now.tables.items → HasPastLimit edit → ⊥) }
{
    let mut edit = Edit::new(alloc);
    edit.push(Field::Comparator(Bytes::copied_from(alloc, comparator)?))?;
    edit.push(Field::LogNumber(log_number))?;
    edit.push(Field::NextFileNumber(next_file_number))?;
    edit.push(Field::LastSequence(last_sequence))?;
    push_pointers(alloc, &mut edit, &layout.compact_pointers)?;
    push_tables(alloc, &mut edit, &layout.tables)?;
    push_previous(&mut edit, previous_log_number)?;
    Ok(edit)
}

// Adds the compact pointers of the levels that have one.
fn push_pointers(
    alloc: Global,
    edit: &mut Edit,
    pointers: &[Option<Bytes>],
) -> Result<(), AllocError>
    requires { length pointers.now ≡ 7 }
    ensures { OnOk result (edit.new ≡ edit.old ++ pointer_fields 0 pointers.now) }
{
    for (level, pointer) in pointers.iter().enumerate() {
        push_pointer(alloc, edit, level as u32, pointer)?;
    }
    Ok(())
}

fn push_pointer(
    alloc: Global,
    edit: &mut Edit,
    level: u32,
    pointer: &Option<Bytes>,
) -> Result<(), AllocError>
    ensures { OnOk result ((more : List (Option (List ℕ))) → edit.old ++ pointer_fields level (pointer.now ∷ more) ≡ edit.new ++ pointer_fields (suc level) more) }
{
    match pointer {
        Some(key) => edit.push(Field::CompactPointer(
            level,
            Bytes::copied_from(alloc, key.as_slice())?,
        )),
        None => Ok(()),
    }
}

// Adds the tables.
fn push_tables(alloc: Global, edit: &mut Edit, tables: &[PlacedTable]) -> Result<(), AllocError>
    ensures { OnOk result (edit.new ≡ edit.old ++ map NewFile tables.now) }
{
    for placed in tables {
        edit.push(Field::NewFile(copy_of(alloc, placed)?))?;
    }
    Ok(())
}

// Adds the previous log's number, if there is such a log.
fn push_previous(edit: &mut Edit, number: u64) -> Result<(), AllocError>
    ensures { OnOk result (edit.new ≡ edit.old ++ previous_fields number) }
{
    if number == 0 {
        return Ok(());
    }
    edit.push(Field::PreviousLogNumber(number))
}

/// Proves that what edits leave that were read is a layout that `snapshot_edit` takes.
pub fn layouts_are_kept()
    ensures { (name : List ℕ) (edits : List (List FieldValue)) (layout : LayoutValue)
        → AllByRecursion WasRead edits → IsLayout name edits layout → IsKept layout }
{}
