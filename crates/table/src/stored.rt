//! Blocks as a file has them, with a type and a checksum after each (LevelDB's
//! `doc/table_format.md`).

ghost use Rattle.std.specs.Prelude.{◌≡◌, ◌≢◌, ◌++◌, ℕ, List, length, IfOk, IfErr, OnOk};
ghost use Rattle.block.specs.Block.{Refuses};
ghost use Rattle.table.specs.Stored.{trailer_of, trailer_of_type, stored};

use coding::{Damage, Feature, ReadError, crc32c, get_fixed32, mask, put_fixed32};
use std::alloc::AllocError;

/// Counts the bytes of a block's trailer: its type, and the checksum of block and type.
pub const TRAILER_LENGTH: usize = 5;

// The type of a block that isn't compressed.
const UNCOMPRESSED: u8 = 0;

/// Returns the block that the bytes are together with its trailer. The checksum is compared first,
/// and then the type, so that a type is believed only if the bytes are undamaged.
pub fn stored_block(bytes: &[u8]) -> Result<&[u8], ReadError>
    ensures found { IfOk result (λ block. bytes.now ≡ block.now ++ trailer_of block.now) }
    ensures refused { IfErr result (λ e. Refuses e ((kind : ℕ) (block : List ℕ) → bytes.now ≡ block ++ trailer_of_type kind block → ⊥)
        ((kind : ℕ) × (block : List ℕ) × (kind ≢ 0) × (bytes.now ≡ block ++ trailer_of_type kind block))) }
{
    if bytes.len() < TRAILER_LENGTH {
        return Err(ReadError::Corrupt(Damage::Length));
    }
    let (block, behind) = bytes.split_at(bytes.len() - TRAILER_LENGTH);
    let [kind, stored @ ..] = behind else {
        return Err(ReadError::Corrupt(Damage::Length));
    };
    let Some(stored) = get_fixed32(stored) else {
        return Err(ReadError::Corrupt(Damage::Length));
    };
    if stored != mask(crc32c(block, &[*kind])) {
        return Err(ReadError::Corrupt(Damage::Checksum));
    }
    if *kind != UNCOMPRESSED {
        return Err(ReadError::Unsupported(Feature::BlockType));
    }
    Ok(block)
}

/// Holds the trailer that a block has, and the one that belongs there.
#[derive(Clone, Copy, Debug)]
pub struct Sums {
    /// Its type.
    pub kind: u8,
    /// The checksum that stands there.
    pub stored: u32,
    /// That of its bytes and its type.
    pub found: u32,
}

/// Returns the type and the checksums of the block that the bytes are together with its trailer, or
/// `None` if they are too few.
pub fn sums_of(bytes: &[u8]) -> Option<Sums> {
    let length = bytes.len().checked_sub(TRAILER_LENGTH)?;
    let (block, behind) = bytes.split_at(length);
    let [kind, stored @ ..] = behind else {
        return None;
    };
    let stored = get_fixed32(stored)?;
    Some(Sums {
        kind: *kind,
        stored,
        found: mask(crc32c(block, &[*kind])),
    })
}

/// Appends a block, and its type and checksum after it, or a beginning of that if memory runs out.
pub fn put_stored(out: &mut Vec<u8>, block: &[u8]) -> Result<(), AllocError>
    ensures { OnOk result (out.new.items ≡ out.old.items ++ stored block.now) }
{
    out.extend_from_slice(block)?;
    out.push(UNCOMPRESSED)?;
    put_fixed32(out, mask(crc32c(block, &[UNCOMPRESSED])))
}

/// Appends its type and checksum to a block, or a beginning of that if memory runs out.
pub fn put_trailer(block: &mut Vec<u8>) -> Result<(), AllocError>
    ensures { OnOk result (block.new.items ≡ stored block.old.items) }
{
    let sum = mask(crc32c(block, &[UNCOMPRESSED]));
    block.push(UNCOMPRESSED)?;
    put_fixed32(block, sum)
}
