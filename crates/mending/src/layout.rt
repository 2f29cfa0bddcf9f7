//! What `CURRENT` and the MANIFEST say.

ghost use Rattle.std.specs.Prelude.{◌≡◌, ◌++◌, ◌∷◌, [], ℕ, List, map, IfOk, IfErr};
ghost use Rattle.edits.specs.Names.{name_of, IsNumbered};
ghost use Rattle.edits.specs.declared.field.Field.{Field as FieldValue};
ghost use Rattle.edits.specs.declared.layout.Layout.{Layout as LayoutValue};
ghost use Rattle.mending.specs.Calls.{RefusesBytes};
ghost use Rattle.mending.specs.Plans.{AreEdits, ArePastLimit, NamesManifest, SaysBeyond, SaysLayout};

use crate::calls::refusal_in;
use coding::{Damage, DbError, FileKind};
use edits::{Edit, FileName, Layout, decode_edit, fold_edits, parse_name};
use logfile::read_log;
use std::alloc::Global;

/// Returns the number of the MANIFEST that the bytes of `CURRENT` name.
pub fn manifest_number(bytes: &[u8]) -> Result<u64, DbError>
    ensures found { IfOk result (λ number. NamesManifest bytes.now number) }
    ensures refused { IfErr result (λ error. RefusesBytes error ((number : ℕ) → NamesManifest bytes.now number → ⊥) ⊥) }
{
    let [name @ .., b'\n'] = bytes else {
        return Err(DbError::Corrupt(FileKind::Current, Damage::Length));
    };
    let Some(file) = parse_name(name) else {
        return Err(DbError::Corrupt(FileKind::Current, Damage::Kind));
    };
    let FileName::Manifest(number) = file else {
        return Err(DbError::Corrupt(FileKind::Current, Damage::Kind));
    };
    Ok(number)
}

/// Returns the layout that the edits of a MANIFEST leave, where keys are in the order of this name.
pub fn layout_of(alloc: Global, order: &[u8], bytes: &[u8]) -> Result<Layout, DbError>
    ensures found { IfOk result (λ layout. SaysLayout order.now bytes.now layout) }
    ensures refused { IfErr result (λ error. RefusesBytes error
        ((layout : LayoutValue) → SaysLayout order.now bytes.now layout → ⊥) (SaysBeyond order.now bytes.now)) }
{
    let records = match read_log(alloc, bytes) {
        Ok((records, _)) => records,
        Err(error) => return Err(refusal_in(FileKind::Manifest, error)),
    };
    let edits = edits_in(alloc, &records)?;
    match fold_edits(alloc, order, &edits) {
        Ok(layout) => Ok(layout),
        Err(error) => Err(refusal_in(FileKind::Manifest, error)),
    }
}

// Returns the edits that the records are.
fn edits_in(alloc: Global, records: &[Vec<u8>]) -> Result<Vec<Edit>, DbError>
    ensures found { IfOk result (λ edits. AreEdits (map (λ r. r.items) records.now) edits.items) }
    ensures refused { IfErr result (λ error. RefusesBytes error
        ((edits : List (List FieldValue)) → AreEdits (map (λ r. r.items) records.now) edits → ⊥)
        (ArePastLimit (map (λ r. r.items) records.now))) }
{
    let mut edits = Vec::new(alloc);
    for record in records {
        match decode_edit(alloc, record) {
            Ok(edit) => edits.push(edit)?,
            Err(error) => return Err(refusal_in(FileKind::Manifest, error)),
        }
    }
    Ok(edits)
}
