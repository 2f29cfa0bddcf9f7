//! The bytes of edits.

ghost use Rattle.std.specs.Prelude.{◌≡◌, ◌++◌, List, ℕ, All, IfOk, OnOk};
ghost use Rattle.coding.specs.Spelling.{Appends};
ghost use Rattle.edits.specs.Edit.{IsField, IsEdit, IsProper, IsInOrder};

use crate::field::Field;
use crate::spelling::{put_level, put_long, put_table};
use crate::version_edit::Edit;
use coding::put_string;
use std::alloc::{AllocError, Global};

/// Encodes an edit whose fields are in our writer's order, by tag, then by level, then by number
/// (LevelDB's db/version_edit.cc, `VersionEdit::EncodeTo`). It fails only out of memory.
pub fn encode_edit(alloc: Global, edit: &Edit) -> Result<Vec<u8>, AllocError>
    requires proper { All IsProper edit.now }
    requires order { IsInOrder edit.now }
    ensures { IfOk result (λ bytes. IsEdit bytes.items edit.now) }
{
    let mut out = Vec::new(alloc);
    for field in edit.fields() {
        put_field(&mut out, field)?;
    }
    Ok(out)
}

// Writes a field at the end, or a beginning of it if memory runs out.
fn put_field(out: &mut Vec<u8>, field: &Field) -> Result<(), AllocError>
    requires { IsProper field.now }
    ensures { OnOk result (Appends IsField out.old.items out.new.items field.now) }
{
    match field {
        Field::Comparator(name) => {
            out.push(1)?;
            put_string(out, name.as_slice())?;
        }
        Field::LogNumber(number) => {
            out.push(2)?;
            put_long(out, *number)?;
        }
        Field::NextFileNumber(number) => {
            out.push(3)?;
            put_long(out, *number)?;
        }
        Field::LastSequence(sequence) => {
            out.push(4)?;
            put_long(out, *sequence)?;
        }
        Field::CompactPointer(level, key) => {
            out.push(5)?;
            put_level(out, *level)?;
            put_string(out, key.as_slice())?;
        }
        Field::DeletedFile(level, number) => {
            out.push(6)?;
            put_level(out, *level)?;
            put_long(out, *number)?;
        }
        Field::NewFile(placed) => {
            out.push(7)?;
            put_level(out, placed.level)?;
            put_table(out, &placed.table)?;
        }
        Field::PreviousLogNumber(number) => {
            out.push(9)?;
            put_long(out, *number)?;
        }
    }
    Ok(())
}
