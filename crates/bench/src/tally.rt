// What a workload wrote or found, so that both sides can be compared.

/// Counts entries, and sums their bytes by words of eight.
#[derive(Clone, Copy)]
pub struct Tally {
    pub entries: u64,
    pub sum: u64,
}

impl Tally {
    /// Makes a tally of nothing.
    pub fn new() -> Self {
        Tally { entries: 0, sum: 0 }
    }

    /// Counts an entry of these bytes.
    pub fn count(&mut self, key: &[u8], value: &[u8]) {
        self.entries = self.entries.wrapping_add(1);
        self.sum = self
            .sum
            .wrapping_add(sum_of(key))
            .wrapping_add(sum_of(value));
    }
}

fn sum_of(bytes: &[u8]) -> u64 {
    let (words, rest) = bytes.as_chunks::<8>();
    let mut sum: u64 = 0;
    for word in words {
        sum = sum.wrapping_add(u64::from_le_bytes(*word));
    }
    for byte in rest {
        sum = sum.wrapping_add(u64::from(*byte));
    }
    sum
}
