//! What a line has of a pair.

use crate::form::Form;

/// What a line has of a pair.
#[derive(Clone, Copy, Debug, PartialEq, Eq)]
pub enum Style {
    /// The key.
    Keys(Form),
    /// The key, a space and the value.
    Pairs(Form),
    /// `{"key":"6b"}`: the digits of the key, as JSON.
    JsonKeys,
    /// `{"key":"6b","value":"76"}`.
    JsonPairs,
    /// `put 6b 76`: the line of a script that puts the pair.
    Puts,
}
