//! The edit of a compaction.

ghost use Rattle.std.specs.Prelude.{◌≡◌, ◌+◌, ◌*◌, ◌^◌, ◌++◌, List, map, IfOk, OnOk};
ghost use Rattle.std.specs.List.Sorted.{IsPermutation, IsNonDecreasingBy};
ghost use Rattle.edits.specs.declared.field.PlacedTable.{PlacedTable as PlacedTableValue};
ghost use Rattle.compact.specs.JobEdits.{IsEditOf, gone, placed_at, pointer_fields, rank_of};

use coding::Bytes;
use edits::{Edit, Field, PlacedTable, TableFile};
use std::alloc::{AllocError, Global};
use versions::JobPlan;

/// Builds the edit by which these tables replace the plan's inputs, with its fields in our writer's
/// order.
pub fn edit_of(
    alloc: Global,
    plan: JobPlan,
    tables: Vec<TableFile>,
    next_file_number: u64,
    last_sequence: u64,
) -> Result<Edit, AllocError>
    ensures { IfOk result (λ edit. IsEditOf plan.output_level plan.inputs.items plan.compact_pointer tables.items next_file_number
        last_sequence edit) }
{
    let JobPlan {
        inputs,
        output_level,
        compact_pointer,
    } = plan;
    let mut edit = Edit::new(alloc);
    edit.push(Field::NextFileNumber(next_file_number))?;
    edit.push(Field::LastSequence(last_sequence))?;
    push_pointer(&mut edit, output_level, compact_pointer)?;
    push_inputs(&mut edit, inputs)?;
    push_outputs(&mut edit, output_level, tables)?;
    Ok(edit)
}

// The pointer is one of the level above.
fn push_pointer(
    edit: &mut Edit,
    output_level: u32,
    pointer: Option<Bytes>,
) -> Result<(), AllocError>
    ensures { OnOk result (edit.new ≡ edit.old ++ pointer_fields output_level pointer) }
{
    match pointer {
        Some(key) => {
            edit.push(Field::CompactPointer(output_level.saturating_sub(1), key))?;
            Ok(())
        }
        None => Ok(()),
    }
}

// Takes the inputs away, by level, then by number.
fn push_inputs(edit: &mut Edit, inputs: Vec<PlacedTable>) -> Result<(), AllocError>
    ensures { OnOk result ((sorted : List PlacedTableValue) × IsPermutation inputs.items sorted × IsNonDecreasingBy rank_of sorted
        × (edit.new ≡ edit.old ++ map gone sorted)) }
{
    let mut inputs = inputs;
    inputs.sort_by_key(|placed| rank(placed.level, placed.table.number))?;
    push_gone(edit, &inputs)?;
    Ok(())
}

// The level and the number in one.
fn rank(level: u32, number: u64) -> u128
    ensures { result ≡ level * 2 ^ 64 + number }
{
    u128::from(level) * (1 << 64) + u128::from(number)
}

fn push_gone(edit: &mut Edit, inputs: &[PlacedTable]) -> Result<(), AllocError>
    ensures { OnOk result (edit.new ≡ edit.old ++ map gone inputs.now) }
{
    for placed in inputs {
        edit.push(Field::DeletedFile(placed.level, placed.table.number))?;
    }
    Ok(())
}

// Puts the tables into the level, by number, as they are.
fn push_outputs(edit: &mut Edit, level: u32, tables: Vec<TableFile>) -> Result<(), AllocError>
    ensures { OnOk result (edit.new ≡ edit.old ++ map (placed_at level) tables.items) }
{
    for table in tables {
        edit.push(Field::NewFile(PlacedTable { level, table }))?;
    }
    Ok(())
}
