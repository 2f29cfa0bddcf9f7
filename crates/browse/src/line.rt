//! The lines of pairs.

ghost use Rattle.std.specs.Prelude.{◌≡◌, ◌++◌, ◌∷◌, OnOk};
ghost use Rattle.browse.specs.Forms.{line_in};
ghost use Rattle.browse.specs.declared.style.Style.TheVariants.{JsonKeys, JsonPairs, Pairs, Puts};
ghost use Rattle.browse.specs.Lines.{PutLaw};

use crate::form::{Form, push_digits, push_in_form};
use crate::style::Style;
use script::push_bytes;
use std::alloc::AllocError;

/// Law: the line that puts a pair is read so by a script.
pub fn puts_are_read()
    ensures { PutLaw }
{}

/// Appends the line of a pair to a text, without a newline. `Err` if memory ran out; a beginning of
/// the line may be left then.
pub fn push_line(
    text: &mut Vec<u8>,
    style: Style,
    key: &[u8],
    value: &[u8],
) -> Result<(), AllocError>
    ensures { OnOk result (text.new.items ≡ text.old.items ++ line_in style (key.now, value.now)) }
{
    match style {
        Style::Keys(form) => push_in_form(text, key, form),
        Style::Pairs(form) => push_pair(text, form, key, value),
        Style::JsonKeys => push_json_key(text, key),
        Style::JsonPairs => push_json_pair(text, key, value),
        Style::Puts => push_put(text, key, value),
    }
}

fn push_pair(text: &mut Vec<u8>, form: Form, key: &[u8], value: &[u8]) -> Result<(), AllocError>
    ensures { OnOk result (text.new.items ≡ text.old.items ++ line_in (Pairs form) (key.now, value.now)) }
{
    push_in_form(text, key, form)?;
    text.push(b' ')?;
    push_in_form(text, value, form)
}

fn push_json_key(text: &mut Vec<u8>, key: &[u8]) -> Result<(), AllocError>
    ensures { OnOk result (text.new.items ≡ text.old.items ++ line_in JsonKeys (key.now, key.now)) }
{
    text.extend_from_slice(b"{\"key\":\"")?;
    push_digits(text, key)?;
    text.extend_from_slice(b"\"}")
}

fn push_json_pair(text: &mut Vec<u8>, key: &[u8], value: &[u8]) -> Result<(), AllocError>
    ensures { OnOk result (text.new.items ≡ text.old.items ++ line_in JsonPairs (key.now, value.now)) }
{
    text.extend_from_slice(b"{\"key\":\"")?;
    push_digits(text, key)?;
    text.extend_from_slice(b"\",\"value\":\"")?;
    push_digits(text, value)?;
    text.extend_from_slice(b"\"}")
}

fn push_put(text: &mut Vec<u8>, key: &[u8], value: &[u8]) -> Result<(), AllocError>
    ensures { OnOk result (text.new.items ≡ text.old.items ++ line_in Puts (key.now, value.now)) }
{
    text.extend_from_slice(b"put ")?;
    push_bytes(text, key)?;
    text.push(b' ')?;
    push_bytes(text, value)
}
