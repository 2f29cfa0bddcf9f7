// A writer that counts lines.

use std::io::{self, Write};

/// Counts the lines that are written to it, and keeps nothing of them.
#[derive(Debug, Drop)]
pub struct LineCounter {
    lines: u64,
}

impl LineCounter {
    /// Returns one that has counted none.
    pub fn new() -> Self {
        LineCounter { lines: 0 }
    }

    /// Returns how many newlines were written.
    pub fn lines(&self) -> u64 {
        self.lines
    }
}

impl Write for LineCounter {
    fn write(&mut self, buf: &[u8]) -> io::Result<usize> {
        for byte in buf {
            if *byte == b'\n' {
                self.lines = self.lines.saturating_add(1);
            }
        }
        Ok(buf.len())
    }

    fn flush(&mut self) -> io::Result<()> {
        Ok(())
    }
}
