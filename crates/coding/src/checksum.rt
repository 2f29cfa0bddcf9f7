//! CRC-32C, and the form in which it is stored (LevelDB's `util/crc32c.h`).

mod streams;
mod tables;

ghost use Rattle.std.specs.Prelude.{◌≡◌, ◌++◌, bit_xor};
ghost use Rattle.coding.specs.Checksum.{shifted_by, register_after, checksum, masked};

use streams::register_over_blocks;
use tables::SHIFTED_BY_8;

// What the stored form adds to the rotated checksum (`kMaskDelta`).
const MASK_DELTA: u32 = 0xA282_EAD8;

/// Returns the checksum of the bytes of `front` followed by those of `back`. A log record's type
/// and data, and a block and its type byte, lie in two places: they are joined here without a copy.
pub fn crc32c(front: &[u8], back: &[u8]) -> u32
    ensures { result ≡ checksum (front.now ++ back.now) }
{
    let register = register_over(0xFFFF_FFFF, front);
    register_over(register, back) ^ 0xFFFF_FFFF
}

/// Returns the form in which logs and tables store a checksum, since the checksum of bytes that
/// hold checksums of themselves would tell little (LevelDB's `crc32c::Mask`).
pub fn mask(crc: u32) -> u32
    ensures { result ≡ masked crc }
{
    crc.rotate_right(15).wrapping_add(MASK_DELTA)
}

/// Returns the checksum whose stored form this is: every number is the stored form of one
/// (LevelDB's `crc32c::Unmask`).
pub fn unmask(stored: u32) -> u32
    ensures { masked result ≡ stored }
{
    stored.wrapping_sub(MASK_DELTA).rotate_left(15)
}

// The register after the bytes: by blocks of sixteen as far as they go, then byte by byte.
pub(crate) fn register_over(start: u32, bytes: &[u8]) -> u32
    ensures { result ≡ register_after start bytes.now }
{
    let (blocks, rest) = bytes.as_chunks::<16>();
    register_over_bytes(register_over_blocks(start, blocks), rest)
}

// The same, byte by byte from the first on.
pub(crate) fn register_over_bytes(start: u32, bytes: &[u8]) -> u32
    ensures { result ≡ register_after start bytes.now }
{
    let mut register = start;
    for byte in bytes {
        register = register_over_byte(register, *byte);
    }
    register
}

// Adds a byte to the low end, and shifts its eight bits out at once: the table has what the low
// byte leaves, and the other bytes move down.
fn register_over_byte(register: u32, byte: u8) -> u32
    ensures { result ≡ shifted_by 8 (bit_xor register byte) }
{
    let low = (register ^ u32::from(byte)) & 0xFF;
    SHIFTED_BY_8[low as usize] ^ (register >> 8)
}
