//! Files in the form of a log: logs and MANIFESTs.

ghost use Rattle.std.specs.Prelude.{◌≡◌, ◌<◌, ◌≤◌, ◌*◌, ◌-◌, ◌++◌, ℕ, List, Bool, take, drop, min, IfOk, IfErr, OnOk, IsTrue, option_map};
ghost use Rattle.std.specs.FinMap.{get};
ghost use Rattle.logfile.specs.Log.{Fragment, AreBlocks};
ghost use Rattle.recover.specs.Reading.{IsCounted, RefusesDirectory};
ghost use Rattle.recover.specs.internal.Parts.{IsUnchanged, RefusesBytes, HoldsNoLog};

use crate::files::{file_length, read_part, refusal_in};
use crate::noting::note_piece;
use coding::{DbError, FileKind};
use logfile::{each_block, judge_block};
use std::alloc::{AllocError, Global};
use store::Store;

/// Counts the bytes of a block of a log.
const BLOCK: usize = 32_768;

/// Counts the bytes that are read at once: those of 32 blocks.
const PIECE: u64 = 1_048_576;

/// Reads all bytes of a file that should be a log, or `None` if it isn't there. It reads by pieces,
/// and judges the first block of each before it reads more. So a long file of rubbish costs its
/// sound part and two pieces. The room grows by doubling, and to no more than the store says are
/// there; a file of one piece isn't copied. Corrupt, as of this kind: a block that was judged is
/// none of a log. It may be a later block than the first damaged one; `log_in` judges all.
pub fn read_log_file<S: Store>(
    alloc: Global,
    store: &mut S,
    name: &str,
    kind: FileKind,
) -> Result<Option<Vec<u8>>, DbError>
    ensures store { IsUnchanged (S.facts store.old) (S.facts store.new) }
    ensures counted { IsCounted (S.facts store.old) (S.facts store.new) result }
    ensures found { IfOk result (λ read. IsTrue (S.facts store.new).faithful
        → option_map (λ bytes. bytes.items) read ≡ get (S.facts store.old).files name.now) }
    ensures refused { IfErr result (λ error. RefusesDirectory error (S.facts store.old) (S.facts store.new)
        (HoldsNoLog (S.facts store.old).files name.now) ⊥) }
{
    let Some(size) = file_length(store, name)? else {
        return Ok(None);
    };
    let mut bytes = Vec::new(alloc);
    for index in 0..piece_count(size) {
        let Some(piece) = read_piece(alloc, store, name, kind, size, index)? else {
            return Ok(None);
        };
        let is_last = (piece.len() as u64) < PIECE;
        add_piece(&mut bytes, piece, size)?;
        // Also if the file has become shorter since.
        if is_last {
            return Ok(Some(bytes));
        }
    }
    Ok(Some(bytes))
}

// In how many pieces a file of so many bytes is read: in one at least.
fn piece_count(size: u64) -> u64
    ensures covers { size ≤ 1048576 * result }
    ensures begins { (index : ℕ) → index < result → 1048576 * index ≤ size }
{
    size.div_ceil(PIECE).max(1)
}

// The piece of this number of a file of so many bytes; its first block must be one of a log.
// `None`: the file isn't there.
fn read_piece<S: Store>(
    alloc: Global,
    store: &mut S,
    name: &str,
    kind: FileKind,
    size: u64,
    index: u64,
) -> Result<Option<Vec<u8>>, DbError>
    requires { 1048576 * index ≤ size }
    ensures store { IsUnchanged (S.facts store.old) (S.facts store.new) }
    ensures counted { IsCounted (S.facts store.old) (S.facts store.new) result }
    ensures found { IfOk result (λ piece. IsTrue (S.facts store.new).faithful → option_map (λ bytes. bytes.items) piece
        ≡ option_map (λ (bytes : List ℕ). take (min (size - 1048576 * index) 1048576) (drop (1048576 * index) bytes)) (get (S.facts store.old).files name.now)) }
    ensures refused { IfErr result (λ error. RefusesDirectory error (S.facts store.old) (S.facts store.new)
        (HoldsNoLog (S.facts store.old).files name.now) ⊥) }
{
    // Laws, for the proof alone.
    each_block();
    let offset = PIECE * index;
    let count = (size - offset).min(PIECE);
    let Some(piece) = read_part(alloc, store, name, offset, count as usize)? else {
        return Ok(None);
    };
    match judge_piece(alloc, kind, &piece) {
        Ok(()) => Ok(Some(piece)),
        Err(error) => {
            note_piece(store, name, offset, &piece, error);
            Err(error)
        }
    }
}

// Judges the first block of a piece.
fn judge_piece(alloc: Global, kind: FileKind, piece: &[u8]) -> Result<(), DbError>
    ensures refused { IfErr result (λ error. RefusesBytes error
        ((fragments : List Fragment) (cut : Bool) → AreBlocks (take 32768 piece.now) fragments cut → ⊥) ⊥) }
{
    let block = &piece[..piece.len().min(BLOCK)];
    match judge_block(alloc, block) {
        Ok(()) => Ok(()),
        Err(error) => Err(refusal_in(kind, error)),
    }
}

// Adds a piece. The first one is taken as it is; then the room grows to twice as much, and to no
// more than the file has.
fn add_piece(bytes: &mut Vec<u8>, piece: Vec<u8>, size: u64) -> Result<(), AllocError>
    ensures { OnOk result (bytes.new.items ≡ bytes.old.items ++ piece.items) }
{
    if bytes.is_empty() {
        *bytes = piece;
        return Ok(());
    }
    if bytes.capacity() - bytes.len() < piece.len() {
        let left = (size as usize).saturating_sub(bytes.len());
        bytes.reserve_exact(bytes.len().min(left))?;
    }
    bytes.extend_from_slice(&piece)
}
