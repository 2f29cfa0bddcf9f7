//! Pairs of byte strings as JSON objects.

ghost use Rattle.std.specs.Prelude.{◌≡◌, ◌++◌, ◌∷◌, [], OnOk};
ghost use Rattle.hex.specs.Hex.{encode_lower};
ghost use Rattle.json.specs.Print.{print};
ghost use Rattle.json.specs.Token.{key, string};
ghost use Rattle.texts.specs.Json.{Extends, key_tokens, member_of, pair_tokens};

use json::Writer;
use std::alloc::{AllocError, Global};
use std::mem;

/// Appends an object with a key to a text: `{"key":"k"}` if it is UTF-8, and else
/// `{"key_hex":"ff"}`. `Err` if memory ran out; the text is empty then.
pub fn push_key_object(alloc: Global, text: &mut Vec<u8>, bytes: &[u8]) -> Result<(), AllocError>
    ensures { OnOk result (text.new.items ≡ text.old.items ++ print (key_tokens bytes.now)) }
{
    let mut writer = Writer::new(mem::replace(text, Vec::new(alloc)));
    writer.begin_object()?;
    write_member(alloc, &mut writer, "key", "key_hex", bytes)?;
    writer.end_object()?;
    *text = writer.into_inner();
    Ok(())
}

/// Appends an object with a key and a value to a text: `{"key":"k","value":"v"}`, or `key_hex` and
/// `value_hex` where they aren't UTF-8. `Err` if memory ran out; the text is empty then.
pub fn push_pair_object(
    alloc: Global,
    text: &mut Vec<u8>,
    bytes: &[u8],
    value: &[u8],
) -> Result<(), AllocError>
    ensures { OnOk result (text.new.items ≡ text.old.items ++ print (pair_tokens bytes.now value.now)) }
{
    let mut writer = Writer::new(mem::replace(text, Vec::new(alloc)));
    writer.begin_object()?;
    write_member(alloc, &mut writer, "key", "key_hex", bytes)?;
    write_member(alloc, &mut writer, "value", "value_hex", value)?;
    writer.end_object()?;
    *text = writer.into_inner();
    Ok(())
}

// A member with bytes: their text if they are UTF-8, and else their digits under the other name.
fn write_member(
    alloc: Global,
    writer: &mut Writer,
    name: &str,
    digits_name: &str,
    bytes: &[u8],
) -> Result<(), AllocError>
    ensures { OnOk result (Extends writer.old writer.new (member_of name.now digits_name.now bytes.now)) }
{
    match str::from_utf8(bytes) {
        Ok(text) => write_text(writer, name, text),
        Err(_) => write_digits(alloc, writer, digits_name, bytes),
    }
}

fn write_text(writer: &mut Writer, name: &str, text: &str) -> Result<(), AllocError>
    ensures { OnOk result (Extends writer.old writer.new (key name.now ∷ string text.now ∷ [])) }
{
    writer.key(name)?;
    writer.string(text)?;
    Ok(())
}

fn write_digits(
    alloc: Global,
    writer: &mut Writer,
    name: &str,
    bytes: &[u8],
) -> Result<(), AllocError>
    ensures { OnOk result (Extends writer.old writer.new (key name.now ∷ string (encode_lower bytes.now) ∷ [])) }
{
    let digits = hex::encode(alloc, bytes)?;
    writer.key(name)?;
    writer.string(digits.as_str())?;
    Ok(())
}
