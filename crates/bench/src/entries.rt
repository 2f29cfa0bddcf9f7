// The keys and values of the workloads. `bench/leveldb_twin.cc` makes the same ones.

use std::alloc::{AllocError, Global};

const KEY_BYTES: usize = 16;

const VALUE_BYTES: usize = 100;

// From how many bytes values are taken: more than a processor keeps nearby, so that copying a value
// costs what it does elsewhere.
const NOISE_BYTES: usize = 1 << 20;

const NOISE_SEED: u64 = 301;

// The constants of Knuth's linear congruential generator MMIX.
const FACTOR: u64 = 6_364_136_223_846_793_005;

const SUMMAND: u64 = 1_442_695_040_888_963_407;

fn stepped(state: u64) -> u64 {
    state.wrapping_mul(FACTOR).wrapping_add(SUMMAND)
}

/// Makes numbers as keys: sixteen decimal digits with zeros in front.
#[derive(Drop)]
pub struct Keys {
    drawn: bool,
    // the next number where they rise, and the generator's state where they are drawn
    state: u64,
    below: u64,
    text: [u8; KEY_BYTES],
}

impl Keys {
    /// Makes the numbers from 0 on.
    pub fn rising() -> Self {
        Keys {
            drawn: false,
            state: 0,
            below: 0,
            text: [b'0'; KEY_BYTES],
        }
    }

    /// Draws numbers below a bound, 0 alone if that is 0, in the order that the seed says.
    pub fn drawn(seed: u64, below: u64) -> Self {
        Keys {
            drawn: true,
            state: seed,
            below,
            text: [b'0'; KEY_BYTES],
        }
    }

    fn next_number(&mut self) -> u64 {
        if self.drawn {
            self.state = stepped(self.state);
            // the low bits of such a generator repeat soon
            return (self.state >> 33).checked_rem(self.below).unwrap_or(0);
        }
        let number = self.state;
        self.state = number.wrapping_add(1);
        number
    }

    /// Returns the next key.
    pub fn next_key(&mut self) -> &[u8] {
        let mut rest = self.next_number();
        for digit in self.text.iter_mut().rev() {
            *digit = b'0' + (rest % 10) as u8;
            rest /= 10;
        }
        self.text.as_slice()
    }

    /// Returns the next key without its last digit, so that it lies among the keys and is none of
    /// them (LevelDB's benchmarks/db_bench.cc, `ReadMissing`).
    pub fn next_missing(&mut self) -> &[u8] {
        let _ = self.next_key();
        self.text.get(..KEY_BYTES - 1).unwrap_or(&[])
    }

    /// Returns the next key with its last digit replaced, so that it lies among the keys and is
    /// none of them: the filter's hash tells such keys badly apart.
    pub fn next_near(&mut self) -> &[u8] {
        let _ = self.next_key();
        self.text[KEY_BYTES - 1] = b'.';
        self.text.as_slice()
    }
}

/// Makes values of a hundred bytes, cut one after the other from bytes that were drawn.
#[derive(Drop)]
pub struct Values {
    noise: Vec<u8>,
    place: usize,
}

impl Values {
    /// Makes values that are cut from a megabyte of noise, which is drawn here.
    pub fn new(alloc: Global) -> Result<Self, AllocError> {
        let mut noise = Vec::with_capacity(alloc, NOISE_BYTES)?;
        let mut state = NOISE_SEED;
        for _ in 0..NOISE_BYTES {
            state = stepped(state);
            noise.push((state >> 56) as u8)?;
        }
        Ok(Values { noise, place: 0 })
    }

    /// Returns the next value.
    pub fn next_value(&mut self) -> &[u8] {
        if self.noise.len().saturating_sub(self.place) < VALUE_BYTES {
            self.place = 0;
        }
        let begin = self.place;
        self.place = begin.saturating_add(VALUE_BYTES);
        self.noise.get(begin..self.place).unwrap_or(&[])
    }
}
