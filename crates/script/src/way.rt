//! How a script is run, and how it ends.

/// How a script is run.
#[derive(Clone, Copy, Debug, PartialEq, Eq)]
pub struct Way {
    /// Whether the first line that is refused, or that says no command, is the last that is
    /// answered.
    pub strict: bool,
    /// Whether work is done after each write that was answered `ok`, without a line of answer: six
    /// entries for each of its operations, of which 1,048,576 count at most.
    pub works: bool,
}

/// How a script ended.
#[derive(Clone, Copy, Debug, PartialEq, Eq)]
pub enum Ended {
    /// Each line was answered.
    Whole,
    /// A line was refused, and those after it weren't read as commands.
    Refused,
}
