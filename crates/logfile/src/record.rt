//! How a log ends.

/// Says whether a log ends with a whole record.
#[derive(Clone, Copy, Debug, PartialEq, Eq)]
pub enum Tail {
    /// The last record is whole.
    Clean,
    /// The log ends within a record, a header or the zeros at a block's end, as after a write
    /// that was cut short. That part isn't in the log, and is no error.
    Torn,
}
