//! Moves of an iterator, as its calls name them.

/// Tells how an iterator is moved.
#[derive(Clone, Copy, Debug)]
pub enum Movement<'a> {
    First,
    Last,
    /// To the first pair whose key doesn't come before this one.
    Seek(&'a [u8]),
    Next,
    Prev,
}
