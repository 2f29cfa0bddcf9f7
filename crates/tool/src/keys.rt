// Byte strings that stand on the command line, or on lines of keys.

ghost use Rattle.std.specs.Prelude.{◌≡◌, IfOk};
ghost use Rattle.script.specs.Words.{Reads};
ghost use Rattle.texts.specs.Texts.{IsText};
ghost use Rattle.tool.specs.Tasks.{IsKey};

use browse::{Form, Style};
use coding::Bytes;
use script::read_bytes;
use std::alloc::{AllocError, Global};
use texts::read_text;

/// Returns the bytes that a word spells in this form, or `None` if it spells none. `Err` if memory
/// ran out.
pub fn read_key(alloc: Global, form: Form, word: &[u8]) -> Result<Option<Bytes>, AllocError>
    ensures { IfOk result (Reads (IsKey form word.now)) }
{
    match form {
        Form::Hex => read_bytes(alloc, word),
        Form::Text => read_text_word(alloc, word),
    }
}

fn read_text_word(alloc: Global, word: &[u8]) -> Result<Option<Bytes>, AllocError>
    ensures { IfOk result (Reads (IsText word.now)) }
{
    match read_text(alloc, word)? {
        Some(bytes) => Ok(Some(Bytes::from_vec(bytes))),
        None => Ok(None),
    }
}

/// Returns how the keys of a command line are spelled if pairs are printed so.
pub fn form_for(style: Style) -> Form {
    match style {
        Style::Keys(form) => form,
        Style::Pairs(form) => form,
        Style::JsonKeys => Form::Hex,
        Style::JsonPairs => Form::Hex,
        Style::Puts => Form::Hex,
    }
}
