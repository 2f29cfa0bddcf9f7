//! Checking the entries of a block against its restarts and its order.

ghost use Rattle.std.specs.Prelude.{◌≡◌, ◌<◌, ◌≤◌, ◌^◌, ◌++◌, List, ℕ, [], None, length, take, IfErr, IfOk, IfNone, IfSome, MatchBool, OnOk};
ghost use Rattle.std.specs.List.{flat_map};
ghost use Rattle.coding.specs.Errors.{RefusesOnly};
ghost use Rattle.coding.specs.Fixed.{fixed32};
ghost use Rattle.ikey.specs.Entries.{Pair};
ghost use Rattle.block.specs.Block.{IsBody, AreAbove, last_key_from};

use crate::entry::entry_at;
use coding::{Damage, ReadError, get_fixed32};
use ikey::EntryOrder;
use std::alloc::{AllocError, Global};
use std::mem;

/// Checks that the bytes are entries whose keys rise in the order O. The restart points must be
/// offsets of entries that share nothing, the first of them 0. Returns the last key, which has no
/// bytes if there is no entry. At most two keys are kept at a time.
pub fn check_entries<O: EntryOrder>(
    alloc: Global,
    body: &[u8],
    restarts: &[u8],
) -> Result<Vec<u8>, ReadError>
    requires { length body.now < 2 ^ 32 }
    ensures found { IfOk result (λ last. (pairs : List Pair) × (list : List ℕ) × (restarts.now ≡ flat_map fixed32 list) × IsBody pairs list body.now × AreAbove O.below None pairs
        × (last_key_from [] pairs ≡ last.items)) }
    ensures refused { IfErr result (λ e. RefusesOnly e ((pairs : List Pair) (list : List ℕ) → restarts.now ≡ flat_map fixed32 list → IsBody pairs list body.now → AreAbove O.below None pairs → ⊥)) }
{
    // If there is no entry, the restart point 0 stands all the same.
    if body.is_empty() {
        return match restarts {
            [0, 0, 0, 0] => Ok(Vec::new(alloc)),
            _ => Err(ReadError::Corrupt(Damage::Order)),
        };
    }
    let mut key = Vec::new(alloc);
    let mut spare = Vec::new(alloc);
    let mut rest = body;
    let mut waiting = restarts;
    while !rest.is_empty() {
        let offset = body.len() - rest.len();
        let Some((entry, behind)) = entry_at(rest) else {
            return Err(ReadError::Corrupt(Damage::Length));
        };
        if entry.shared > key.len() {
            return Err(ReadError::Corrupt(Damage::Length));
        }
        let rises = next_key::<O>(&mut key, &mut spare, entry.shared, entry.rest)?;
        if offset > 0 && !rises {
            return Err(ReadError::Corrupt(Damage::Order));
        }
        if let Some(later) = behind_restart(waiting, offset) {
            if entry.shared > 0 {
                return Err(ReadError::Corrupt(Damage::Order));
            }
            waiting = later;
        }
        rest = behind;
    }
    if !waiting.is_empty() {
        return Err(ReadError::Corrupt(Damage::Order));
    }
    match behind_restart(restarts, 0) {
        Some(_) => Ok(key),
        None => Err(ReadError::Corrupt(Damage::Order)),
    }
}

// Makes the next key of the one before it, and says whether it is above that one. Mostly one byte
// tells, and the front that both share then stays where it is.
fn next_key<O: EntryOrder>(
    key: &mut Vec<u8>,
    spare: &mut Vec<u8>,
    shared: usize,
    rest: &[u8],
) -> Result<bool, AllocError>
    requires { shared ≤ length key.old.items }
    ensures key { OnOk result (key.new.items ≡ take shared key.old.items ++ rest.now) }
    ensures rises { IfOk result (λ rises. MatchBool rises (O.below key.old.items key.new.items) (O.below key.old.items key.new.items → ⊥)) }
{
    if O::is_plainly_below(key, shared, rest) {
        key.truncate(shared);
        key.extend_from_slice(rest)?;
        return Ok(true);
    }
    spare.clear();
    spare.extend_from_slice(&key[..shared])?;
    spare.extend_from_slice(rest)?;
    let rises = O::is_below(key, spare);
    mem::swap(key, spare);
    Ok(rises)
}

// The restart points after the first one, if that is this offset.
fn behind_restart(restarts: &[u8], offset: usize) -> Option<&[u8]>
    requires { offset < 2 ^ 32 }
    ensures found { IfSome result (λ later. restarts.now ≡ fixed32 offset ++ later.now) }
    ensures none { IfNone result ((later : List ℕ) → restarts.now ≡ fixed32 offset ++ later → ⊥) }
{
    let first = get_fixed32(restarts)?;
    if first as usize != offset {
        return None;
    }
    let (_, later) = restarts.split_at(4);
    Some(later)
}
