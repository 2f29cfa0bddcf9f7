//! How byte strings are printed.

ghost use Rattle.std.specs.Prelude.{◌≡◌, ◌++◌, OnOk};
ghost use Rattle.browse.specs.Forms.{digits_of, text_in};

use script::push_bytes;
use std::alloc::AllocError;
use texts::push_text;

/// How a byte string is printed.
#[derive(Clone, Copy, Debug, PartialEq, Eq)]
pub enum Form {
    /// In lower-case hexadecimal; `-` if there are no bytes.
    Hex,
    /// As text, which `texts::read_text` reads back.
    Text,
}

/// Appends bytes to a text in this form. `Err` if memory ran out; a beginning may be left then.
pub fn push_in_form(text: &mut Vec<u8>, bytes: &[u8], form: Form) -> Result<(), AllocError>
    ensures { OnOk result (text.new.items ≡ text.old.items ++ text_in form bytes.now) }
{
    match form {
        Form::Hex => push_bytes(text, bytes),
        Form::Text => push_text(text, bytes),
    }
}

/// Appends the hexadecimal digits of bytes to a text: nothing if there are no bytes.
/// `Err` if memory ran out; a beginning may be left then.
pub fn push_digits(text: &mut Vec<u8>, bytes: &[u8]) -> Result<(), AllocError>
    ensures { OnOk result (text.new.items ≡ text.old.items ++ digits_of bytes.now) }
{
    if bytes.is_empty() {
        return Ok(());
    }
    push_bytes(text, bytes)
}
