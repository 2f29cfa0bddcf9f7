//! How the value of a key is written.

ghost use Rattle.std.specs.Prelude.{◌≡◌, ◌++◌, ◌∷◌, [], OnOk};
ghost use Rattle.browse.specs.Forms.{text_in};
ghost use Rattle.browse.specs.Browsing.{none_text, some_text};

use crate::form::{Form, push_in_form};
use std::alloc::AllocError;

/// How the value of a key is written.
#[derive(Clone, Copy, Debug, PartialEq, Eq)]
pub enum Showing {
    /// As a line in this form; a key without a value has none.
    Line(Form),
    /// As a line in this form; a key without a value has the line `\N`, which is no value's.
    EachLine(Form),
    /// As its bytes alone; a key without a value has none.
    Bytes,
}

/// Appends a value to a text. `Err` if memory ran out; a beginning may be left then.
pub fn push_some(text: &mut Vec<u8>, value: &[u8], showing: Showing) -> Result<(), AllocError>
    ensures { OnOk result (text.new.items ≡ text.old.items ++ some_text showing value.now) }
{
    match showing {
        Showing::Line(form) => push_line_in(text, value, form),
        Showing::EachLine(form) => push_line_in(text, value, form),
        Showing::Bytes => text.extend_from_slice(value),
    }
}

/// Appends what is written of a key without a value. `Err` if memory ran out.
pub fn push_none(text: &mut Vec<u8>, showing: Showing) -> Result<(), AllocError>
    ensures { OnOk result (text.new.items ≡ text.old.items ++ none_text showing) }
{
    match showing {
        Showing::Line(_) => Ok(()),
        Showing::EachLine(_) => text.extend_from_slice(b"\\N\n"),
        Showing::Bytes => Ok(()),
    }
}

fn push_line_in(text: &mut Vec<u8>, value: &[u8], form: Form) -> Result<(), AllocError>
    ensures { OnOk result (text.new.items ≡ text.old.items ++ (text_in form value.now ++ 10 ∷ [])) }
{
    push_in_form(text, value, form)?;
    text.push(b'\n')?;
    Ok(())
}
