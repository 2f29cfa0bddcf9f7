//! `CURRENT` and the MANIFEST that it names (LevelDB's db/version_set.cc, VersionSet::Recover).

ghost use Rattle.std.specs.Prelude.{◌≡◌, ◌<◌, ◌^◌, ◌++◌, ◌∷◌, [], ℕ, List, map, IfOk, IfErr, IsTrue};
ghost use Rattle.ikey.specs.Orders.{order_of};
ghost use Rattle.logfile.specs.Log.{IsLog};
ghost use Rattle.logfile.specs.declared.record.Tail.{Tail as TailValue};
ghost use Rattle.edits.specs.Layout.{fields_of};
ghost use Rattle.edits.specs.Names.{name_of, IsNumbered};
ghost use Rattle.edits.specs.Snapshot.{IsKept};
ghost use Rattle.edits.specs.declared.field.Field.{Field as FieldValue};
ghost use Rattle.recover.specs.Directory.{AreEdits};
ghost use Rattle.recover.specs.Reading.{HasNoManifest, IsCounted, RefusesDirectory, SpellsBeyond, IsBeyondReading};
ghost use Rattle.recover.specs.internal.Parts.{IsUnchanged, RefusesBytes, number_in, highest_in, SpellsManifest, SpellsNone, ArePastLimit, SaysManifest};

use crate::files::{read_short_file, refusal_in};
use crate::log_files::read_log_file;
use crate::noting::{note_file, note_manifest};
use coding::{Damage, DbError, FileKind};
use edits::{
    Edit, Field, FileName, Layout, decode_edit, fold_edits, layouts_are_kept, parse_name,
    print_name,
};
use ikey::KeyOrder;
use logfile::{Tail, read_log};
use std::alloc::Global;
use store::{Store, Why};

/// Caps the bytes of `CURRENT`: the name of a MANIFEST has 29 at most. A longer file names no
/// MANIFEST, and its length is the error.
const MOST_IN_CURRENT: u64 = 64;

/// Holds what a MANIFEST says.
#[derive(Drop)]
pub struct Manifest {
    /// What its edits leave.
    pub layout: Layout,
    /// The greatest file number that a field of its edits names, or 0.
    pub highest: u64,
}

/// Reads `CURRENT` and the MANIFEST that it names. Corrupt with `Missing`: one of the two isn't
/// there.
pub fn read_manifest<K: KeyOrder, S: Store>(
    alloc: Global,
    store: &mut S,
) -> Result<Manifest, DbError>
    ensures store { IsUnchanged (S.facts store.old) (S.facts store.new) }
    ensures counted { IsCounted (S.facts store.old) (S.facts store.new) result }
    ensures found { IfOk result (λ manifest. IsTrue (S.facts store.new).faithful
        → SaysManifest (order_of K.name K.cmp) (S.facts store.old).files manifest) }
    ensures refused { IfErr result (λ error. RefusesDirectory error (S.facts store.old) (S.facts store.new)
        (HasNoManifest (order_of K.name K.cmp) (S.facts store.old).files)
        (IsBeyondReading (order_of K.name K.cmp) (S.facts store.old).files)) }
    // Over any store: the layout can be written again.
    ensures kept { IfOk result (λ manifest. IsKept manifest.layout × (manifest.layout.last_sequence < 2 ^ 56)) }
{
    let Some(current) = read_short_file(
        alloc,
        store,
        "CURRENT",
        FileKind::Current,
        MOST_IN_CURRENT,
    )?
    else {
        note_file(store, "CURRENT", Why::Missing);
        return Err(DbError::Corrupt(FileKind::Current, Damage::Missing));
    };
    let number = match manifest_number(&current) {
        Ok(number) => number,
        Err(error) => {
            note_file(store, "CURRENT", Why::Current);
            return Err(error);
        }
    };
    let name = print_name(alloc, FileName::Manifest(number))?;
    let Some(bytes) = read_log_file(alloc, store, name.as_str(), FileKind::Manifest)? else {
        note_file(store, name.as_str(), Why::Missing);
        return Err(DbError::Corrupt(FileKind::Manifest, Damage::Missing));
    };
    match decode_manifest::<K>(alloc, &bytes) {
        Ok(manifest) => Ok(manifest),
        Err(error) => {
            note_manifest(alloc, store, name.as_str(), &bytes, error);
            Err(error)
        }
    }
}

// The number of the MANIFEST that the bytes of `CURRENT` name, with a newline after its name.
// `Length`: there is no newline. `Kind`: it isn't a MANIFEST's name.
fn manifest_number(bytes: &[u8]) -> Result<u64, DbError>
    ensures found { IfOk result (λ number. IsNumbered number × (bytes.now ≡ name_of (FileName.Manifest number) ++ 10 ∷ [])) }
    ensures refused { IfErr result (λ error. RefusesBytes error
        ((number : ℕ) → IsNumbered number → bytes.now ≡ name_of (FileName.Manifest number) ++ 10 ∷ [] → ⊥) ⊥) }
{
    let [name @ .., b'\n'] = bytes else {
        return Err(DbError::Corrupt(FileKind::Current, Damage::Length));
    };
    let Some(file) = parse_name(name) else {
        return Err(DbError::Corrupt(FileKind::Current, Damage::Kind));
    };
    let FileName::Manifest(number) = file else {
        return Err(DbError::Corrupt(FileKind::Current, Damage::Kind));
    };
    Ok(number)
}

// What the MANIFEST of these bytes says.
fn decode_manifest<K: KeyOrder>(alloc: Global, bytes: &[u8]) -> Result<Manifest, DbError>
    ensures found { IfOk result (λ manifest. SpellsManifest (order_of K.name K.cmp) bytes.now manifest) }
    ensures refused { IfErr result (λ error. RefusesBytes error
        (SpellsNone (order_of K.name K.cmp) bytes.now) (SpellsBeyond (order_of K.name K.cmp) bytes.now)) }
    ensures kept { IfOk result (λ manifest. IsKept manifest.layout × (manifest.layout.last_sequence < 2 ^ 56)) }
{
    // Laws, for the proof alone.
    layouts_are_kept();
    let records = records_in(alloc, FileKind::Manifest, bytes)?;
    let edits = edits_in(alloc, &records)?;
    // (a hundred thousand edits of one table take 55 MB, and 64 beside their records)
    drop(records);
    let highest = highest_in_edits(&edits);
    match fold_edits(alloc, K::name().as_bytes(), &edits) {
        Ok(layout) => Ok(Manifest { layout, highest }),
        Err(error) => Err(refusal_in(FileKind::Manifest, error)),
    }
}

/// Returns the records of a log or a MANIFEST, which has the form of a log. What is torn at its end
/// isn't in it.
pub fn records_in(alloc: Global, file: FileKind, bytes: &[u8]) -> Result<Vec<Vec<u8>>, DbError>
    ensures found { IfOk result (λ records. (tail : TailValue) × IsLog bytes.now (map (λ r. r.items) records.items) tail) }
    ensures refused { IfErr result (λ error. RefusesBytes error
        ((records : List (List ℕ)) (tail : TailValue) → IsLog bytes.now records tail → ⊥) ⊥) }
{
    let (records, _) = log_in(alloc, file, bytes)?;
    Ok(records)
}

/// Returns the same, and how the log ends.
pub fn log_in(alloc: Global, file: FileKind, bytes: &[u8]) -> Result<(Vec<Vec<u8>>, Tail), DbError>
    ensures found { IfOk result (λ found. IsLog bytes.now (map (λ r. r.items) found.0.items) found.1) }
    ensures refused { IfErr result (λ error. RefusesBytes error
        ((records : List (List ℕ)) (tail : TailValue) → IsLog bytes.now records tail → ⊥) ⊥) }
{
    match read_log(alloc, bytes) {
        Ok(found) => Ok(found),
        Err(error) => Err(refusal_in(file, error)),
    }
}

// The edits that the records are.
fn edits_in(alloc: Global, records: &[Vec<u8>]) -> Result<Vec<Edit>, DbError>
    ensures found { IfOk result (λ edits. AreEdits (map (λ r. r.items) records.now) edits.items) }
    ensures refused { IfErr result (λ error. RefusesBytes error
        ((edits : List (List FieldValue)) → AreEdits (map (λ r. r.items) records.now) edits → ⊥)
        (ArePastLimit (map (λ r. r.items) records.now))) }
{
    let mut edits = Vec::new(alloc);
    for record in records {
        match decode_edit(alloc, record) {
            Ok(edit) => edits.push(edit)?,
            Err(error) => return Err(refusal_in(FileKind::Manifest, error)),
        }
    }
    Ok(edits)
}

fn highest_in_edits(edits: &[Edit]) -> u64
    ensures { result ≡ highest_in (fields_of edits.now) }
{
    let mut highest = 0;
    for edit in edits {
        highest = highest_in_fields(edit.fields()).max(highest);
    }
    highest
}

fn highest_in_fields(fields: &[Field]) -> u64
    ensures { result ≡ highest_in fields.now }
{
    let mut highest = 0;
    for field in fields {
        highest = file_number(field).max(highest);
    }
    highest
}

// The number of the file that the field names, or 0.
fn file_number(field: &Field) -> u64
    ensures { result ≡ number_in field.now }
{
    match field {
        Field::LogNumber(number)
        | Field::PreviousLogNumber(number)
        | Field::DeletedFile(_, number) => *number,
        Field::NewFile(placed) => placed.table.number,
        Field::Comparator(_)
        | Field::NextFileNumber(_)
        | Field::LastSequence(_)
        | Field::CompactPointer(_, _) => 0,
    }
}
