//! Fragments: a header of seven bytes and data (LevelDB's doc/log_format.md, "record").

ghost use Rattle.std.specs.Prelude.{◌≡◌, ◌<◌, ◌≤◌, ◌+◌, ◌++◌, ℕ, List, Bool, true, length, IfErr, IfOk, MatchOption, OnOk};
ghost use Rattle.logfile.specs.Log.{Fragment as FragmentValue, fragment_bytes, IsEnding, IsLogBlock};
ghost use Rattle.logfile.specs.Faults.{HasFaultAt};
ghost use Rattle.logfile.specs.Kinds.{made};
ghost use Rattle.logfile.specs.Views.{view};

use crate::kind::{Kind, kind_of, number_of};
use byteorder::{ByteOrder, LittleEndian};
use coding::{Damage, crc32c, mask, put_fixed32};
use std::alloc::AllocError;

/// The size of a header: the checksum, the length of the data, and the type.
pub const HEADER_LENGTH: usize = 7;

/// The size of a block. The last one of a log may be shorter.
pub const BLOCK_LENGTH: usize = 32_768;

/// A fragment that was read. Its data are a slice of the log.
#[derive(Clone, Copy, Debug)]
pub struct Fragment<'a> {
    pub kind: Kind,
    pub data: &'a [u8],
}

/// Returns the fragment at the front and the bytes after it, or None if the file's end cuts it
/// off. `room` bytes are left in the block. Fails, in this order, on a length past the block, a
/// checksum that doesn't fit type and data, and an unknown type. If the data are cut off, only
/// the length is judged.
pub fn fragment_at(bytes: &[u8], room: usize) -> Result<Option<(Fragment<'_>, &[u8])>, Damage>
    requires room { 7 ≤ room }
    requires block { room ≤ 32768 }
    requires some { 0 < length bytes.now }
    requires fits { length bytes.now ≤ room }
    ensures found { IfOk result (λ found. MatchOption found (IsEnding true room bytes.now) (λ x.
        (bytes.now ≡ fragment_bytes (view x.0) ++ x.1.now) × (7 + length x.0.data.now ≤ room))) }
    ensures cause { IfErr result (λ damage. HasFaultAt damage room bytes.now) }
    ensures refused { IfErr result (λ e. (fragments : List FragmentValue) (cut : Bool) → IsLogBlock room fragments cut bytes.now → ⊥) }
{
    let [a, b, c, d, low, high, number, behind @ ..] = bytes else {
        return Ok(None);
    };
    let stored = u32::from_le_bytes([*a, *b, *c, *d]);
    let len = usize::from(u16::from_le_bytes([*low, *high]));
    if HEADER_LENGTH + len > room {
        return Err(Damage::Length);
    }
    if behind.len() < len {
        return Ok(None);
    }
    let (data, rest) = behind.split_at(len);
    if stored != mask(crc32c(&[*number], data)) {
        return Err(Damage::Checksum);
    }
    match kind_of(*number) {
        Some(kind) => Ok(Some((Fragment { kind, data }, rest))),
        None => Err(Damage::Kind),
    }
}

/// Appends a fragment, or a part of it if memory runs out (LevelDB's
/// `log::Writer::EmitPhysicalRecord`, its db/log_writer.cc).
pub fn put_fragment(out: &mut Vec<u8>, kind: Kind, part: &[u8]) -> Result<(), AllocError>
    requires { length part.now < 65536 }
    ensures { OnOk result (out.new.items ≡ out.old.items ++ fragment_bytes (made kind part.now)) }
{
    let number = number_of(kind);
    put_fixed32(out, mask(crc32c(&[number], part)))?;
    let mut len = [0; 2];
    LittleEndian::write_u16(&mut len, part.len() as u16);
    out.extend_from_slice(&len)?;
    out.push(number)?;
    out.extend_from_slice(part)?;
    Ok(())
}
