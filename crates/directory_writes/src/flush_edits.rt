//! The edit of a flush (LevelDB's db/db_impl.cc, DBImpl::CompactMemTable).

ghost use Rattle.std.specs.Prelude.{◌≡◌, ◌<◌, ◌^◌, ◌++◌, ◌∷◌, [], List, ℕ, All, IfOk, OnOk, false};
ghost use Rattle.edits.specs.Edit.{IsProper, IsInOrder, IsTableProper, HasPastLimit};
ghost use Rattle.edits.specs.Layout.{IsLayout, is_used};
ghost use Rattle.edits.specs.declared.field.Field.{Field as FieldValue};
ghost use Rattle.edits.specs.declared.layout.Layout.{Layout as LayoutValue};
ghost use Rattle.directory_writes.specs.internal.FlushEdits.{IsAfterFlush, flush_fields, previous_gone};

use edits::{Edit, Field, PlacedTable, TableFile};
use std::alloc::{AllocError, Global};

/// Builds the edit that puts a table into level 0 and replaces all logs before this one, with its
/// fields in our writer's order. The previous log is that of the layout, or 0. It fails only out of
/// memory.
pub fn flush_edit(
    alloc: Global,
    log_number: u64,
    previous_log_number: u64,
    next_file_number: u64,
    last_sequence: u64,
    table: TableFile,
) -> Result<Edit, AllocError>
    requires sequence { last_sequence < 2 ^ 56 }
    requires table { IsTableProper table }
    ensures proper { IfOk result (λ edit. All IsProper edit) }
    ensures order { IfOk result (λ edit. IsInOrder edit) }
    ensures fields { IfOk result (λ edit. edit ≡ flush_fields log_number previous_log_number next_file_number last_sequence table) }
    // After the edits of a layout without a table of this number it leaves the layout after the
    // flush.
    ensures folds { IfOk result (λ edit. (name : List ℕ) (edits : List (List FieldValue)) (old new : LayoutValue) → IsLayout name edits old
        → old.previous_log_number ≡ previous_log_number → is_used table.number old.tables.items ≡ false
        → IsAfterFlush log_number next_file_number last_sequence table old new → IsLayout name (edits ++ edit ∷ []) new) }
    // What is read again has no table past the reading limit.
    ensures limit { IfOk result (λ edit. table.number < 2 ^ 62 → HasPastLimit edit → ⊥) }
{
    let mut edit = Edit::new(alloc);
    edit.push(Field::LogNumber(log_number))?;
    edit.push(Field::NextFileNumber(next_file_number))?;
    edit.push(Field::LastSequence(last_sequence))?;
    edit.push(Field::NewFile(PlacedTable { level: 0, table }))?;
    push_previous(&mut edit, previous_log_number)?;
    Ok(edit)
}

// Drops the previous log, if there is one.
fn push_previous(edit: &mut Edit, number: u64) -> Result<(), AllocError>
    ensures { OnOk result (edit.new ≡ edit.old ++ previous_gone number) }
{
    if number == 0 {
        return Ok(());
    }
    edit.push(Field::PreviousLogNumber(0))
}
