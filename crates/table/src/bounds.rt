//! The fronts of the user keys that bound data blocks, by which most steps of a search decide.

ghost use Rattle.std.specs.Prelude.{◌≡◌, ◌<◌, ◌≤◌, ◌+◌, ℕ, length, slice_index_or, IfOk, MatchBool};
ghost use Rattle.ikey.specs.Below.{IsBelowInternal};
ghost use Rattle.table.specs.KeyFronts.{AreFronts, IsSoughtBy};
ghost use Rattle.table.specs.declared.handle.Place.{Place as PlaceValue};

use crate::handle::Place;
use ikey::{EntryOrder, Front, Internal, KeyOrder, unpack};
use std::alloc::{AllocError, Global};
use std::cmp::Ordering;

/// Returns the fronts of the places' user keys, up to the first place whose key is no internal key.
pub fn fronts_of(alloc: Global, places: &[Place]) -> Result<Vec<Front>, AllocError>
    ensures { IfOk result (λ fronts. AreFronts places.now fronts.items) }
{
    let mut fronts = Vec::with_capacity(alloc, places.len())?;
    for place in places {
        let Some(key) = unpack(place.key.as_slice()) else {
            return Ok(fronts);
        };
        fronts.push(Front::of(key.user))?;
    }
    Ok(fronts)
}

/// Returns the first place whose key isn't below the target, or the number of places: no entry of
/// an earlier block can be the one that is sought. The places' user keys have these fronts.
pub fn first_place<K: KeyOrder>(places: &[Place], fronts: &[Front], target: &[u8]) -> usize
    requires { AreFronts places.now fronts.now }
    ensures inside { result ≤ length places.now }
    ensures front { (i : ℕ) (d : PlaceValue) → result ≡ i + 1 → IsBelowInternal K.cmp (slice_index_or places.now i d).key target.now }
    ensures found { (d : PlaceValue) → result < length places.now → IsBelowInternal K.cmp (slice_index_or places.now result d).key target.now → ⊥ }
{
    let Some(key) = unpack(target) else {
        return 0;
    };
    let sought = Front::of(key.user);
    let mut low = 0;
    let mut high = places.len();
    while low < high {
        let middle = low + (high - low) / 2;
        if is_below::<K>(places, fronts, middle, target, sought) {
            low = middle + 1;
        } else {
            high = middle;
        }
    }
    low
}

// Whether the key of the place of this index is below the target, whose user key has the front
// `sought`.
fn is_below<K: KeyOrder>(
    places: &[Place],
    fronts: &[Front],
    index: usize,
    target: &[u8],
    sought: Front,
) -> bool
    requires inside { index < length places.now }
    requires fronts { AreFronts places.now fronts.now }
    requires sought { IsSoughtBy sought target.now }
    ensures { MatchBool result ((d : PlaceValue) → IsBelowInternal K.cmp (slice_index_or places.now index d).key target.now)
        ((d : PlaceValue) → IsBelowInternal K.cmp (slice_index_or places.now index d).key target.now → ⊥) }
{
    let Some(own) = fronts.get(index) else {
        return Internal::<K>::is_below(places[index].key.as_slice(), target);
    };
    match K::compare_fronts(*own, sought) {
        Ordering::Less => true,
        Ordering::Equal => Internal::<K>::is_below(places[index].key.as_slice(), target),
        Ordering::Greater => false,
    }
}
