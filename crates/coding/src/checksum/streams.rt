//! The register of CRC-32C over blocks of sixteen bytes, in four streams of words that don't wait
//! for one another. This is the portable form of LevelDB's `util/crc32c.cc`.

ghost use Rattle.std.specs.Prelude.{◌≡◌, flat_map};
ghost use Rattle.coding.specs.Checksum.{shifted_by, register_after};

use super::tables::{
    SHIFTED_BY_8, SHIFTED_BY_16, SHIFTED_BY_24, SHIFTED_BY_32, SHIFTED_BY_104, SHIFTED_BY_112,
    SHIFTED_BY_120, SHIFTED_BY_128,
};

/// Returns the register after the bytes of all the blocks.
pub fn register_over_blocks(start: u32, blocks: &[[u8; 16]]) -> u32
    ensures { result ≡ register_after start (flat_map (λ block. block) blocks.now) }
{
    let Some((first, more)) = blocks.split_first() else {
        return start;
    };
    let mut streams = Streams::begun_with(start, first);
    for block in more {
        streams = streams.advanced_by(block);
    }
    streams.register()
}

// Four words, one after the other, that the register still has to take up. Each moves ahead by a
// whole block in one step, and the word of the next block that stands there is added to it.
#[derive(Clone, Copy)]
struct Streams {
    first: u32,
    second: u32,
    third: u32,
    fourth: u32,
}

impl Streams {
    ghost use Rattle.std.specs.Prelude.{◌≡◌, ℕ};
    ghost use Rattle.coding.specs.Streams.{register_of, register_from};

    // The four words of a block, which the register has yet to take up.
    fn words_of(block: &[u8; 16]) -> Self
        ensures { (start : ℕ) → register_after start block.now ≡ register_from start result }
    {
        Streams {
            first: u32::from_le_bytes([block[0], block[1], block[2], block[3]]),
            second: u32::from_le_bytes([block[4], block[5], block[6], block[7]]),
            third: u32::from_le_bytes([block[8], block[9], block[10], block[11]]),
            fourth: u32::from_le_bytes([block[12], block[13], block[14], block[15]]),
        }
    }

    // The streams before their first step: the register is added to the first word.
    fn begun_with(start: u32, block: &[u8; 16]) -> Self
        ensures { register_of result ≡ register_after start block.now }
    {
        let words = Streams::words_of(block);
        Streams {
            first: start ^ words.first,
            ..words
        }
    }

    // The streams a block further.
    fn advanced_by(self, block: &[u8; 16]) -> Self
        ensures { register_of result ≡ register_after (register_of self) block.now }
    {
        let words = Streams::words_of(block);
        Streams {
            first: shifted_by_128(self.first) ^ words.first,
            second: shifted_by_128(self.second) ^ words.second,
            third: shifted_by_128(self.third) ^ words.third,
            fourth: shifted_by_128(self.fourth) ^ words.fourth,
        }
    }

    // The register once it has taken up the four words.
    fn register(self) -> u32
        ensures { result ≡ register_of self }
    {
        let second = shifted_by_32(self.first) ^ self.second;
        let third = shifted_by_32(second) ^ self.third;
        let fourth = shifted_by_32(third) ^ self.fourth;
        shifted_by_32(fourth)
    }
}

// The register four bytes of zeros later.
fn shifted_by_32(register: u32) -> u32
    ensures { result ≡ shifted_by 32 register }
{
    let [first, second, third, fourth] = register.to_le_bytes();
    SHIFTED_BY_32[usize::from(first)]
        ^ SHIFTED_BY_24[usize::from(second)]
        ^ SHIFTED_BY_16[usize::from(third)]
        ^ SHIFTED_BY_8[usize::from(fourth)]
}

// The register a block of zeros later.
fn shifted_by_128(register: u32) -> u32
    ensures { result ≡ shifted_by 128 register }
{
    let [first, second, third, fourth] = register.to_le_bytes();
    SHIFTED_BY_128[usize::from(first)]
        ^ SHIFTED_BY_120[usize::from(second)]
        ^ SHIFTED_BY_112[usize::from(third)]
        ^ SHIFTED_BY_104[usize::from(fourth)]
}
