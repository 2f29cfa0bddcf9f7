//! Texts as they are written.

ghost use Rattle.std.specs.Prelude.{◌≡◌, ◌++◌, ◌∷◌, [], OnOk};
ghost use Rattle.hex.specs.Hex.{encode_lower};
ghost use Rattle.texts.specs.Texts.{escaped, escaped_byte, escaped_word, word_byte};

use std::alloc::AllocError;

/// Appends bytes to a text: a backslash as `\\`, any other byte outside ' ' to '~' as `\x` with its
/// two digits, and the rest as they are. `Err` if memory ran out; a beginning may be left then.
/// (LevelDB's `EscapeString` in util/logging.cc leaves a backslash as it is.)
pub fn push_text(text: &mut Vec<u8>, bytes: &[u8]) -> Result<(), AllocError>
    ensures { OnOk result (text.new.items ≡ text.old.items ++ escaped bytes.now) }
{
    for byte in bytes {
        push_escaped(text, *byte)?;
    }
    Ok(())
}

/// Appends bytes to a text as one word of a line: the same, and a space is `\x20`. `Err` if memory
/// ran out; a beginning may be left then.
pub fn push_word(text: &mut Vec<u8>, bytes: &[u8]) -> Result<(), AllocError>
    ensures { OnOk result (text.new.items ≡ text.old.items ++ escaped_word bytes.now) }
{
    for byte in bytes {
        push_word_byte(text, *byte)?;
    }
    Ok(())
}

fn push_word_byte(text: &mut Vec<u8>, byte: u8) -> Result<(), AllocError>
    ensures { OnOk result (text.new.items ≡ text.old.items ++ word_byte byte) }
{
    if byte == b' ' {
        return text.extend_from_slice(b"\\x20");
    }
    push_escaped(text, byte)
}

fn push_escaped(text: &mut Vec<u8>, byte: u8) -> Result<(), AllocError>
    ensures { OnOk result (text.new.items ≡ text.old.items ++ escaped_byte byte) }
{
    if byte == b'\\' {
        return text.extend_from_slice(b"\\\\");
    }
    if 32 <= byte && byte <= 126 {
        text.push(byte)?;
        return Ok(());
    }
    text.extend_from_slice(b"\\x")?;
    push_digits(text, byte)
}

// The two digits of a byte.
fn push_digits(text: &mut Vec<u8>, byte: u8) -> Result<(), AllocError>
    ensures { OnOk result (text.new.items ≡ text.old.items ++ encode_lower (byte ∷ [])) }
{
    let mut digits = [0u8; 2];
    hex::encode_to_slice(&[byte], &mut digits).unwrap();
    text.extend_from_slice(&digits)
}
