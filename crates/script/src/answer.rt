//! Answers as lines.

ghost use Rattle.std.specs.Prelude.{◌≡◌, ◌++◌, ◌∷◌, IfOk, OnOk, OnErr, IsAscii, Some, string_bytes};
ghost use Rattle.std.specs.Fmt.{decimal};
ghost use Rattle.std.specs.Io.{StartsWith};
ghost use Rattle.machine.specs.declared.command.Answer.TheVariants as answer;
ghost use Rattle.hex.specs.Hex.{encode_lower};
ghost use Rattle.script.specs.Words.{text_of_bytes};
ghost use Rattle.script.specs.Script.{line_of, refusal_of};

use coding::{Bytes, DbError};
use engine::Answer;
use std::alloc::{AllocError, Global};

/// Returns the line of an answer, without a newline. Byte strings are in lower-case hexadecimal,
/// `-` if there are no bytes. `Err` if memory ran out.
pub fn answer_line(alloc: Global, answer: &Answer) -> Result<String, AllocError>
    ensures { IfOk result (λ line. string_bytes line ≡ line_of answer.now) }
{
    let mut line = Vec::new(alloc);
    push_line(alloc, &mut line, answer)?;
    match String::from_utf8(line) {
        Ok(line) => Ok(line),
        // (a line is ASCII)
        Err(_) => unreachable!(),
    }
}

/// Appends the line of an answer to a text, without a newline. `Err` if memory ran out; a beginning
/// of the line may be left then. Digits are written where they stay, since a long script has many.
pub fn push_line(alloc: Global, text: &mut Vec<u8>, answer: &Answer) -> Result<(), AllocError>
    ensures ok { OnOk result (text.new.items ≡ text.old.items ++ line_of answer.now) }
    ensures ascii { IsAscii (line_of answer.now) }
    ensures err { OnErr result (StartsWith text.new.items text.old.items) }
{
    match answer {
        Answer::Done => text.extend_from_slice(b"ok"),
        Answer::Value(None) => text.extend_from_slice(b"none"),
        Answer::Value(Some(value)) => push_with_bytes(text, b"value ", value),
        Answer::Snapshot(id) => push_with_number(alloc, text, "snapshot", *id),
        Answer::Iterator(id) => push_with_number(alloc, text, "iter", *id),
        Answer::Pair(None) => text.extend_from_slice(b"end"),
        Answer::Pair(Some((key, value))) => push_pair(text, key, value),
        Answer::Worked => text.extend_from_slice(b"worked"),
        Answer::Idle => text.extend_from_slice(b"idle"),
        Answer::Refused(error) => push_refusal(alloc, text, error),
    }
}

fn push_refusal(alloc: Global, text: &mut Vec<u8>, error: &DbError) -> Result<(), AllocError>
    ensures ok { OnOk result (text.new.items ≡ text.old.items ++ refusal_of error.now) }
    ensures err { OnErr result (text.new.items ≡ text.old.items) }
{
    let number = error.number();
    let name = error.name();
    let line = format!(in alloc; "refused {number} {name}")?;
    text.extend_from_slice(line.as_bytes())
}

/// Appends a word, a space and a number to a text. `Err` if memory ran out; the text stays then.
pub fn push_with_number(
    alloc: Global,
    text: &mut Vec<u8>,
    word: &str,
    number: u64,
) -> Result<(), AllocError>
    ensures ok { OnOk result (text.new.items ≡ text.old.items ++ (word.now ++ 32 ∷ decimal number)) }
    ensures err { OnErr result (text.new.items ≡ text.old.items) }
{
    let line = format!(in alloc; "{word} {number}")?;
    text.extend_from_slice(line.as_bytes())
}

fn push_pair(text: &mut Vec<u8>, key: &Bytes, value: &Bytes) -> Result<(), AllocError>
    ensures ok { OnOk result (text.new.items ≡ text.old.items ++ line_of (answer.Pair (Some (key.now, value.now)))) }
    ensures err { OnErr result (StartsWith text.new.items text.old.items) }
{
    push_with_bytes(text, b"at ", key)?;
    push_with_bytes(text, b" ", value)
}

// Appends a word, and bytes.
fn push_with_bytes(text: &mut Vec<u8>, word: &[u8], bytes: &Bytes) -> Result<(), AllocError>
    ensures ok { OnOk result (text.new.items ≡ text.old.items ++ (word.now ++ text_of_bytes bytes.now)) }
    ensures err { OnErr result (StartsWith text.new.items text.old.items) }
{
    text.extend_from_slice(word)?;
    push_bytes(text, bytes.as_slice())
}

/// Appends bytes to a text as answers write them: in lower-case hexadecimal, `-` if there are none.
/// `Err` if memory ran out; a beginning may be left then.
pub fn push_bytes(text: &mut Vec<u8>, bytes: &[u8]) -> Result<(), AllocError>
    ensures ok { OnOk result (text.new.items ≡ text.old.items ++ text_of_bytes bytes.now) }
    ensures err { OnErr result (StartsWith text.new.items text.old.items) }
{
    if bytes.is_empty() {
        return text.extend_from_slice(b"-");
    }
    push_digits(text, bytes)
}

// Appends two digits for each byte.
fn push_digits(text: &mut Vec<u8>, bytes: &[u8]) -> Result<(), AllocError>
    ensures ok { OnOk result (text.new.items ≡ text.old.items ++ encode_lower bytes.now) }
    ensures err { OnErr result (text.new.items ≡ text.old.items) }
{
    let start = text.len();
    let Some(end) = start.checked_add(bytes.len() * 2) else {
        return Err(AllocError);
    };
    text.resize(end, 0)?;
    hex::encode_to_slice(bytes, &mut text[start..]).unwrap();
    Ok(())
}

/// Returns bytes as answers write them: in lower-case hexadecimal, `-` if there are none. `Err` if
/// memory ran out.
pub fn bytes_text(alloc: Global, bytes: &Bytes) -> Result<String, AllocError>
    ensures { IfOk result (λ text. string_bytes text ≡ text_of_bytes bytes.now) }
{
    if bytes.is_empty() {
        return String::from_str(alloc, "-");
    }
    hex::encode(alloc, bytes.as_slice())
}
