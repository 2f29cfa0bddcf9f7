//! The restart points of a block, which follow its entries, and then their number (LevelDB's
//! table/block_builder.cc).

ghost use Rattle.std.specs.Prelude.{◌≡◌, ◌<◌, ◌≤◌, ◌*◌, ◌^◌, ◌++◌, List, ℕ, length, OnOk, IfNone, IfSome, slice_get, Some, ◌+◌, ◌∷◌};
ghost use Rattle.std.specs.List.{flat_map};
ghost use Rattle.coding.specs.Fixed.{fixed32};
ghost use Rattle.block.specs.Block.{trailer as trailer_of, AllSmall};

use coding::{get_fixed32, put_fixed32};
use std::alloc::AllocError;

/// Splits a block into the entries, and the restart points in the four bytes each that they take.
/// None: the bytes end too soon for that number of restart points.
pub fn parts_of(bytes: &[u8]) -> Option<(&[u8], &[u8])>
    ensures found { IfSome result (λ found. (count : ℕ) × (length found.1.now ≡ 4 * count) × (bytes.now ≡ found.0.now ++ (found.1.now ++ fixed32 count))) }
    ensures none { IfNone result ((body restarts : List ℕ) → length restarts < 2 ^ 32 → bytes.now ≡ body ++ trailer_of restarts → ⊥) }
{
    if bytes.len() < 4 {
        return None;
    }
    let (front, last) = bytes.split_at(bytes.len() - 4);
    let count = get_fixed32(last)? as usize;
    if front.len() / 4 < count {
        return None;
    }
    Some(front.split_at(front.len() - 4 * count))
}

/// Returns the restart point of this index.
pub fn restart_at(restarts: &[u8], index: usize) -> usize
    requires { 4 * index + 4 ≤ length restarts.now }
    ensures { (list : List ℕ) → AllSmall list → restarts.now ≡ flat_map fixed32 list → slice_get list index ≡ Some result }
{
    match get_fixed32(&restarts[4 * index..]) {
        Some(restart) => restart as usize,
        None => unreachable!(),
    }
}

/// Writes the restart 0, these and their number at the end.
pub fn put_trailer(out: &mut Vec<u8>, restarts: &[u32]) -> Result<(), AllocError>
    requires { length restarts.now + 1 < 2 ^ 32 }
    ensures { OnOk result (out.new.items ≡ out.old.items ++ trailer_of (0 ∷ restarts.now)) }
{
    out.reserve(4 * restarts.len() + 8)?;
    put_fixed32(out, 0)?;
    for restart in restarts {
        put_fixed32(out, *restart)?;
    }
    put_fixed32(out, restarts.len() as u32 + 1)
}
