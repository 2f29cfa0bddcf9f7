//! Which ends of a log are cut.

/// Says which ends of a log are cut.
#[derive(Clone, Copy, Debug, PartialEq, Eq)]
pub enum Ends {
    /// A broken fragment whose last byte is zero, if all after it are zeros, too.
    Zeros,
    /// Also a broken fragment with other bytes after it, if a zero stands where a sector ends or
    /// the file. Some devices leave such holes. Whole records after the hole are cut off, too.
    Holes,
}
