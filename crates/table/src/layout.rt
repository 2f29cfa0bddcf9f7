//! Whether the blocks of a file lie apart.

ghost use Rattle.std.specs.Prelude.{◌≡◌, ◌≤◌, ◌++◌, ◌∷◌, List, length, map, IfOk, IfErr, OnOk, MatchBool};
ghost use Rattle.std.specs.List.Sorted.{IsPermutation, IsNonDecreasingBy};
ghost use Rattle.coding.specs.Errors.{RefusesOnly};
ghost use Rattle.table.specs.Frame.{handles_of};
ghost use Rattle.table.specs.Stored.{AreSeparate};
ghost use Rattle.table.specs.declared.handle.Handle.{Handle as HandleValue};
ghost use Rattle.table.specs.declared.handle.Place.{Place as PlaceValue};

use crate::footer::Footer;
use crate::handle::{Handle, Place};
use crate::stored::TRAILER_LENGTH;
use coding::{Damage, ReadError};
use std::alloc::{AllocError, Global};

/// Lists the handles of a table's blocks.
pub fn all_handles(
    alloc: Global,
    footer: Footer,
    filter: Option<Handle>,
    places: &[Place],
) -> Result<Vec<Handle>, AllocError>
    ensures { IfOk result (λ handles. handles.items ≡ footer.metaindex ∷ footer.index ∷ (handles_of filter ++ map (λ (place : PlaceValue). place.handle) places.now)) }
{
    let mut handles = Vec::new(alloc);
    handles.push(footer.metaindex)?;
    handles.push(footer.index)?;
    push_filter(&mut handles, filter)?;
    push_places(&mut handles, places)?;
    Ok(handles)
}

fn push_filter(handles: &mut Vec<Handle>, filter: Option<Handle>) -> Result<(), AllocError>
    ensures { OnOk result (handles.new.items ≡ handles.old.items ++ handles_of filter) }
{
    if let Some(handle) = filter {
        handles.push(handle)?;
    }
    Ok(())
}

/// Adds the handles of the data blocks at the end, in order.
pub fn push_places(handles: &mut Vec<Handle>, places: &[Place]) -> Result<(), AllocError>
    ensures { OnOk result (handles.new.items ≡ handles.old.items ++ map (λ (place : PlaceValue). place.handle) places.now) }
{
    for place in places {
        handles.push(place.handle)?;
    }
    Ok(())
}

/// Returns whether the blocks at these handles, with the trailer of each, end before a place in the
/// file, and none of them lies in another. The handles are put in the order of their offsets.
pub fn are_separate(end: u64, handles: &mut [Handle]) -> bool
    ensures { MatchBool result (AreSeparate end handles.old) (AreSeparate end handles.old → ⊥) }
{
    sort_by_offset(handles);
    sorted_are_separate(end, handles)
}

fn sort_by_offset(handles: &mut [Handle])
    ensures moved { IsPermutation handles.old handles.new }
    ensures sorted { IsNonDecreasingBy (λ (handle : HandleValue). handle.offset) handles.new }
{
    handles.sort_unstable_by_key(|handle| handle.offset);
}

// The same of handles in the order of their offsets: each begins where the one before has ended, or
// after that.
fn sorted_are_separate(end: u64, handles: &[Handle]) -> bool
    requires { IsNonDecreasingBy (λ (handle : HandleValue). handle.offset) handles.now }
    ensures { MatchBool result (AreSeparate end handles.now) (AreSeparate end handles.now → ⊥) }
{
    let mut reached = 0;
    for handle in handles {
        let trailer = TRAILER_LENGTH as u64;
        if handle.offset < reached || handle.offset > end {
            return false;
        }
        let room = end - handle.offset;
        if room < trailer || handle.size > room - trailer {
            return false;
        }
        reached = handle.offset + (handle.size + trailer);
    }
    true
}
