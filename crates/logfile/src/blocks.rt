//! Cutting a log into its blocks and fragments (LevelDB's `log::Reader::ReadPhysicalRecord`, its
//! db/log_reader.cc).

ghost use Rattle.std.specs.Prelude.{◌≡◌, ◌≤◌, ◌++◌, ℕ, List, Bool, length, slice_index, EachIndex, MatchBool, IfErr, IfOk};
ghost use Rattle.coding.specs.Errors.{NamesFault, RefusesOnly};
ghost use Rattle.logfile.specs.Faults.{AreFaulty, HasFaultIn};
ghost use Rattle.logfile.specs.Log.{Fragment as FragmentValue, IsLogBlock, AreBlocks};
ghost use Rattle.logfile.specs.Views.{views};

use crate::fragment::{BLOCK_LENGTH, Fragment, HEADER_LENGTH, fragment_at};
use coding::{Damage, ReadError};
use std::alloc::Global;

/// Returns the fragments of a log, and whether something at its end is cut off.
/// Their data are slices of the log: no byte is copied. Only the vector is allocated; it grows by
/// doubling.
pub fn fragments_of(alloc: Global, bytes: &[u8]) -> Result<(Vec<Fragment<'_>>, bool), ReadError>
    ensures found { IfOk result (λ found. AreBlocks bytes.now (views found.0.items) found.1) }
    ensures cause { IfErr result (λ e. NamesFault e (λ what. AreFaulty what bytes.now)) }
    ensures refused { IfErr result (λ e. RefusesOnly e ((fragments : List FragmentValue) (cut : Bool) → AreBlocks bytes.now fragments cut → ⊥)) }
{
    let mut fragments = Vec::new(alloc);
    let mut rest = bytes;
    while rest.len() >= BLOCK_LENGTH {
        let (block, behind) = rest.split_at(BLOCK_LENGTH);
        let _ = push_fragments(&mut fragments, block)?;
        rest = behind;
    }
    let cut = push_fragments(&mut fragments, rest)?;
    Ok((fragments, cut))
}

/// Checks that a block is one of a log, whole or cut off by the file's end. A reader judges a
/// long file by some of its blocks before it reads more: a block with a fault is in no log
/// (`each_block`).
pub fn judge_block(alloc: Global, block: &[u8]) -> Result<(), ReadError>
    ensures found { IfOk result (λ _. (fragments : List FragmentValue) × (cut : Bool) × AreBlocks block.now fragments cut) }
    ensures fault { IfErr result (λ e. NamesFault e (λ what. AreFaulty what block.now)) }
    ensures refused { IfErr result (λ e. RefusesOnly e ((fragments : List FragmentValue) (cut : Bool) → AreBlocks block.now fragments cut → ⊥)) }
{
    let _ = fragments_of(alloc, block)?;
    Ok(())
}

// Adds the fragments of a block, and returns whether something at its end is cut off.
fn push_fragments<'a>(fragments: &mut Vec<Fragment<'a>>, block: &'a [u8]) -> Result<bool, ReadError>
    requires { length block.now ≤ 32768 }
    ensures found { IfOk result (λ cut. (here : List FragmentValue) × (views fragments.new.items ≡ views fragments.old.items ++ here) × IsLogBlock 32768 here cut block.now) }
    ensures cause { IfErr result (λ e. NamesFault e (λ what. (here : List FragmentValue) × HasFaultIn what 32768 here block.now)) }
    ensures refused { IfErr result (λ e. RefusesOnly e ((here : List FragmentValue) (cut : Bool) → IsLogBlock 32768 here cut block.now → ⊥)) }
{
    let mut rest = block;
    let mut room = BLOCK_LENGTH;
    while room >= HEADER_LENGTH && !rest.is_empty() {
        match fragment_at(rest, room) {
            Ok(Some((fragment, behind))) => {
                fragments.push(fragment)?;
                room -= HEADER_LENGTH + fragment.data.len();
                rest = behind;
            }
            Ok(None) => return Ok(true),
            Err(damage) => return Err(ReadError::Corrupt(damage)),
        }
    }
    if rest.is_empty() {
        return Ok(false);
    }
    if !are_zeros(rest) {
        return Err(ReadError::Corrupt(Damage::Padding));
    }
    Ok(rest.len() < room)
}

/// Returns whether each byte is zero.
pub fn are_zeros(bytes: &[u8]) -> bool
    ensures { MatchBool result (EachIndex bytes.now (λ k. slice_index bytes.now k ≡ 0)) (EachIndex bytes.now (λ k. slice_index bytes.now k ≡ 0) → ⊥) }
{
    bytes.iter().all(|byte| *byte == 0)
}
