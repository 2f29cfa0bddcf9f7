//! Writing a log (LevelDB's doc/log_format.md and db/log_writer.cc).

ghost use Rattle.std.specs.Prelude.{◌≡◌, ◌<◌, ◌≤◌, ◌^◌, ◌∷◌, ◌++◌, ◌-◌, ◌%◌, [], List, ℕ, false, length, replicate, IfOk, IsOkUnless, OnOk};
ghost use Rattle.std.specs.List.{flat_map};
ghost use Rattle.logfile.specs.Log.{Fragment as FragmentValue, IsLog, IsWritten, AreLongest, Join, fragment_bytes};
ghost use Rattle.logfile.specs.Appends as appends;
ghost use Rattle.logfile.specs.declared.record.Tail.TheVariants.{Clean};

use crate::fragment::{BLOCK_LENGTH, HEADER_LENGTH, put_fragment};
use crate::kind::Kind;
use coding::DbError;
use std::alloc::{AllocError, Global};

/// Encodes the records of a log, as LevelDB's `log::Writer` writes them.
pub struct LogWriter;

impl LogWriter {
    /// Returns the bytes that add a record to a log of `position` bytes: zeros if the block has
    /// no room for a header, then the record's fragments, each as long as possible. A record of
    /// no bytes is one empty fragment. All memory is allocated before a byte is written. The only
    /// error is `OutOfMemory`.
    pub fn encode(alloc: Global, position: u64, payload: &[u8]) -> Result<Vec<u8>, DbError>
        // A clean log of that length with these bytes appended is the log with the record added.
        ensures appends { IfOk result (λ added. (bytes : List ℕ) (records : List (List ℕ))
            → length bytes ≡ position → IsLog bytes records Clean
            → IsLog (bytes ++ added.items) (records ++ payload.now ∷ []) Clean) }
        // Each fragment is as long as its block allows.
        ensures longest { IfOk result (λ added. IsWritten (32768 - position % 32768) payload.now added.items) }
        ensures length { IfOk result (λ added. length added.items ≡ appends.added_length (32768 - position % 32768) (length payload.now)) }
        ensures memory { IsOkUnless result DbError.OutOfMemory }
    {
        let room = BLOCK_LENGTH - (position % BLOCK_LENGTH as u64) as usize;
        let mut out = Vec::with_capacity(alloc, added_length(room, payload.len()))?;
        Self::encode_into(&mut out, position, payload)?;
        Ok(out)
    }

    /// Does the same in `out`: replaces what it holds, and reuses its memory. After an error
    /// `out` holds other bytes.
    pub fn encode_into(out: &mut Vec<u8>, position: u64, payload: &[u8]) -> Result<(), DbError>
        ensures appends { OnOk result ((bytes : List ℕ) (records : List (List ℕ))
            → length bytes ≡ position → IsLog bytes records Clean
            → IsLog (bytes ++ out.new.items) (records ++ payload.now ∷ []) Clean) }
        ensures longest { OnOk result (IsWritten (32768 - position % 32768) payload.now out.new.items) }
        ensures length { OnOk result (length out.new.items ≡ appends.added_length (32768 - position % 32768) (length payload.now)) }
        ensures memory { IsOkUnless result DbError.OutOfMemory }
    {
        let room = BLOCK_LENGTH - (position % BLOCK_LENGTH as u64) as usize;
        out.clear();
        out.reserve(added_length(room, payload.len()))?;
        if room < HEADER_LENGTH {
            put_zeros(out, room)?;
            put_fragments(out, BLOCK_LENGTH, payload)?;
        } else {
            put_fragments(out, room, payload)?;
        }
        Ok(())
    }
}

// Returns how many bytes a payload of `size` bytes adds if `room` bytes are left in the block.
fn added_length(room: usize, size: usize) -> usize
    requires room { room ≤ 32768 }
    requires size { size < 2 ^ 63 }
    ensures { result ≡ appends.added_length room size }
{
    let (skipped, first) = if room < HEADER_LENGTH {
        (room, BLOCK_LENGTH)
    } else {
        (0, room)
    };
    let behind_first = size.saturating_sub(first - HEADER_LENGTH);
    let fragments = 1 + behind_first.div_ceil(BLOCK_LENGTH - HEADER_LENGTH);
    skipped + size + HEADER_LENGTH * fragments
}

// Writes the trailer of a block: zeros, as no header fits.
fn put_zeros(out: &mut Vec<u8>, count: usize) -> Result<(), AllocError>
    requires { count < 7 }
    ensures { OnOk result (out.new.items ≡ out.old.items ++ replicate count 0) }
{
    let zeros = [0; 6];
    out.extend_from_slice(&zeros[..count])
}

// Appends a record's fragments, or a part of them if memory runs out.
// `room` bytes are left in the block.
fn put_fragments(out: &mut Vec<u8>, room: usize, payload: &[u8]) -> Result<(), AllocError>
    requires some { 7 ≤ room }
    requires block { room ≤ 32768 }
    ensures { OnOk result ((fragments : List FragmentValue) × (out.new.items ≡ out.old.items ++ flat_map fragment_bytes fragments)
        × AreLongest room fragments × Join false fragments (payload.now ∷ []) false) }
{
    let mut left = room;
    let mut rest = payload;
    let mut begun = false;
    while rest.len() > left - HEADER_LENGTH {
        let (data, behind) = rest.split_at(left - HEADER_LENGTH);
        put_fragment(out, if begun { Kind::Middle } else { Kind::First }, data)?;
        left = BLOCK_LENGTH;
        rest = behind;
        begun = true;
    }
    put_fragment(out, if begun { Kind::Last } else { Kind::Full }, rest)?;
    Ok(())
}
