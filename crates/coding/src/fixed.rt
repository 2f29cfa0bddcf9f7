//! Numbers of a fixed width, the lowest byte first (LevelDB's `util/coding.h`, `EncodeFixed32` and
//! `EncodeFixed64`).

ghost use Rattle.std.specs.Prelude.{◌≡◌, ◌<◌, ◌≤◌, ◌^◌, ◌++◌, length, take, IfNone, IfSome, OnOk, OnErr};
ghost use Rattle.coding.specs.Fixed.{fixed32, fixed64};

use byteorder::{ByteOrder, LittleEndian};
use std::alloc::AllocError;

/// Appends a number of four bytes. It fails only out of memory.
pub fn put_fixed32(out: &mut Vec<u8>, value: u32) -> Result<(), AllocError>
    ensures ok { OnOk result (out.new.items ≡ out.old.items ++ fixed32 value) }
    ensures err { OnErr result (out.new.items ≡ out.old.items) }
{
    let mut bytes = [0; 4];
    LittleEndian::write_u32(&mut bytes, value);
    out.extend_from_slice(&bytes)
}

/// Appends a number of eight bytes. It fails only out of memory.
pub fn put_fixed64(out: &mut Vec<u8>, value: u64) -> Result<(), AllocError>
    ensures ok { OnOk result (out.new.items ≡ out.old.items ++ fixed64 value) }
    ensures err { OnErr result (out.new.items ≡ out.old.items) }
{
    let mut bytes = [0; 8];
    LittleEndian::write_u64(&mut bytes, value);
    out.extend_from_slice(&bytes)
}

/// Reads the number of four bytes at the front: its value alone, since what it takes is known.
/// Bytes may follow it; `None` if there are fewer than four.
pub fn get_fixed32(bytes: &[u8]) -> Option<u32>
    ensures range { IfSome result (λ value. value < 2 ^ 32) }
    ensures found { IfSome result (λ value. take 4 bytes.now ≡ fixed32 value) }
    ensures none { IfNone result (length bytes.now < 4) }
{
    if bytes.len() < 4 {
        return None;
    }
    Some(LittleEndian::read_u32(bytes))
}

/// Reads the number of eight bytes at the front: its value alone, since what it takes is known.
/// Bytes may follow it; `None` if there are fewer than eight.
pub fn get_fixed64(bytes: &[u8]) -> Option<u64>
    ensures range { IfSome result (λ value. value < 2 ^ 64) }
    ensures found { IfSome result (λ value. take 8 bytes.now ≡ fixed64 value) }
    ensures none { IfNone result (length bytes.now < 8) }
{
    if bytes.len() < 8 {
        return None;
    }
    Some(LittleEndian::read_u64(bytes))
}
