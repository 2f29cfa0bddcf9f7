//! Joining fragments to records (LevelDB's `log::Reader::ReadRecord`, its db/log_reader.cc).

ghost use Rattle.std.specs.Prelude.{◌≡◌, ◌++◌, ℕ, List, Bool, false, map, IfErr, IfOk};
ghost use Rattle.coding.specs.Errors.{NamesFault, RefusesOnly};
ghost use Rattle.coding.specs.declared.error.Damage.TheVariants.{Order};
ghost use Rattle.logfile.specs.Faults.{IsOutOfOrder};
ghost use Rattle.logfile.specs.Log.{Join};
ghost use Rattle.logfile.specs.Joining.{Takes, IsMisplaced};
ghost use Rattle.logfile.specs.Views.{view, views};

use crate::fragment::Fragment;
use crate::kind::Kind;
use coding::{Damage, ReadError};
use std::alloc::Global;
use std::mem;

/// Returns the records, and whether the last one lacks its last fragment. Each record is a copy.
/// A record of one fragment is copied at once, a longer one fragment by fragment.
pub fn records_of(
    alloc: Global,
    fragments: &[Fragment<'_>],
) -> Result<(Vec<Vec<u8>>, bool), ReadError>
    ensures found { IfOk result (λ found. Join false (views fragments.now) (map (λ r. r.items) found.0.items) found.1) }
    ensures cause { IfErr result (λ e. NamesFault e (λ what. (what ≡ Order) × IsOutOfOrder false (views fragments.now))) }
    ensures refused { IfErr result (λ e. RefusesOnly e ((records : List (List ℕ)) (begun : Bool) → Join false (views fragments.now) records begun → ⊥)) }
{
    let mut records = Vec::new(alloc);
    let mut unfinished = Vec::new(alloc);
    let mut inside = false;
    for fragment in fragments {
        inside = take_in(alloc, &mut records, &mut unfinished, inside, fragment)?;
    }
    Ok((records, inside))
}

// Adds a fragment to the record that is begun, if one is, and returns whether one is begun
// afterwards. Out of order are a record's first fragment within another, and a middle or last one
// outside of any.
fn take_in(
    alloc: Global,
    records: &mut Vec<Vec<u8>>,
    unfinished: &mut Vec<u8>,
    inside: bool,
    fragment: &Fragment<'_>,
) -> Result<bool, ReadError>
    ensures found { IfOk result (λ after. (added : List (List ℕ)) × Takes inside unfinished.old.items (view fragment.now) after unfinished.new.items added
        × (map (λ r. r.items) records.new.items ≡ map (λ r. r.items) records.old.items ++ added)) }
    ensures cause { IfErr result (λ e. NamesFault e (λ what. (what ≡ Order) × IsMisplaced inside (view fragment.now))) }
    ensures refused { IfErr result (λ e. RefusesOnly e (IsMisplaced inside (view fragment.now))) }
{
    match fragment.kind {
        Kind::Full if !inside => {
            records.push(Vec::from_slice(alloc, fragment.data)?)?;
            Ok(false)
        }
        Kind::First if !inside => {
            *unfinished = Vec::from_slice(alloc, fragment.data)?;
            Ok(true)
        }
        Kind::Middle if inside => {
            unfinished.extend_from_slice(fragment.data)?;
            Ok(true)
        }
        Kind::Last if inside => {
            unfinished.extend_from_slice(fragment.data)?;
            records.push(mem::replace(unfinished, Vec::new(alloc)))?;
            Ok(false)
        }
        _ => Err(ReadError::Corrupt(Damage::Order)),
    }
}
