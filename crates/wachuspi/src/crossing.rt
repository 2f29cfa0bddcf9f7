// What crosses: structs that C has too.

ghost use Rattle.std.specs.Prelude.{◌≡◌, IfSome};
ghost use Rattle.wachuspi.specs.Opening.{options_in};

use c_calls::copy_into;
use engine::Options;
use std::alloc::Global;
use std::fmt::Write;
use store::{Trouble, Why};

/// The sizes that a database keeps to (`engine::Options`).
#[repr(C)]
#[derive(Drop)]
pub struct COptions {
    pub write_buffer: u64,
    pub block_bytes: u64,
    pub file_bytes: u64,
    pub level0_files: u64,
    pub base_bytes: u64,
    pub cache_blocks: u64,
}

impl COptions {
    /// LevelDB's defaults, and a cache of 1,024 blocks.
    pub fn usual() -> Self {
        let made = Options::default();
        COptions {
            write_buffer: made.write_buffer(),
            block_bytes: made.block_bytes() as u64,
            file_bytes: made.file_bytes(),
            level0_files: made.level0_files(),
            base_bytes: made.base_bytes(),
            cache_blocks: made.cache_blocks().get() as u64,
        }
    }

    /// The same as options of a database; None where one is outside its range.
    pub fn checked(&self) -> Option<Options>
        ensures { IfSome result (λ options. options ≡ options_in self.now) }
    {
        Options::new(
            self.write_buffer,
            self.block_bytes,
            self.file_bytes,
            self.level0_files,
            self.base_bytes,
            self.cache_blocks,
        )
    }
}

const NAME: usize = 48;

const WORDS: usize = 160;

/// Where a refusal comes from (`store::Trouble`).
#[repr(C)]
#[derive(Drop)]
pub struct CTrouble {
    pub has: u32,
    pub code: i32,
    pub at: u64,
    pub found: u64,
    pub wanted: u64,
    pub count: u64,
    pub name_length: u64,
    pub words_length: u64,
    pub name: [u8; 48],
    pub words: [u8; 160],
}

// Bits of `has`.
const HAS_AT: u32 = 1;

const HAS_FOUND: u32 = 2;

const HAS_WANTED: u32 = 4;

const HAS_CODE: u32 = 8;

fn bit(is: bool, bit: u32) -> u32 {
    if is { bit } else { 0 }
}

impl CTrouble {
    /// That of no refusal.
    pub fn none() -> Self {
        CTrouble {
            has: 0,
            code: 0,
            at: 0,
            found: 0,
            wanted: 0,
            count: 0,
            name_length: 0,
            words_length: 0,
            name: [0; 48],
            words: [0; 160],
        }
    }

    /// Says why a call was refused of which the store knows nothing.
    pub fn say(&mut self, words: &str) {
        *self = CTrouble::none();
        self.put_words(words.as_bytes());
    }

    fn put_words(&mut self, words: &[u8]) {
        self.words_length = words.len().min(WORDS) as u64;
        copy_into(words, &mut self.words);
    }

    /// Tells a note of the store, with its words as far as there is memory for them.
    pub fn tell(&mut self, alloc: Global, trouble: Trouble) {
        *self = CTrouble::none();
        self.has = bit(trouble.at.is_some(), HAS_AT)
            | bit(trouble.found.is_some(), HAS_FOUND)
            | bit(trouble.wanted.is_some(), HAS_WANTED)
            | bit(trouble.code.is_some(), HAS_CODE);
        self.at = trouble.at.unwrap_or(0);
        self.found = trouble.found.unwrap_or(0);
        self.wanted = trouble.wanted.unwrap_or(0);
        self.code = trouble.code.unwrap_or(0);
        self.count = trouble.count;
        let name = trouble.name.as_bytes();
        self.name_length = name.len().min(NAME) as u64;
        copy_into(name, &mut self.name);
        self.tell_words(alloc, trouble);
    }

    fn tell_words(&mut self, alloc: Global, trouble: Trouble) {
        if trouble.why == Why::Nothing {
            return;
        }
        let mut words = String::new(alloc);
        if write!(words, "{trouble}").is_err() {
            return;
        }
        self.put_words(words.as_str().as_bytes());
    }
}
