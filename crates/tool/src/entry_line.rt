// The lines of entries, as `dump` prints them.

ghost use Rattle.std.specs.Prelude.{◌≡◌, ◌++◌, OnOk, Some};
ghost use Rattle.std.specs.Fmt.{decimal};
ghost use Rattle.tool.specs.EntryLines.{change_object_of, change_words_of, entry_line_of, entry_object_of, entry_text_of, entry_words_of, origin_object_of, origin_words_of};

use crate::task::Notation;
use browse::{Form, push_digits, push_in_form};
use coding::Bytes;
use ikey::Entry;
use recover::Origin;
use std::alloc::{AllocError, Global};

/// Appends the line of an entry to a text, with a newline. `Err` if memory ran out; a beginning of
/// the line may be left then.
pub fn push_entry(
    alloc: Global,
    text: &mut Vec<u8>,
    notation: Notation,
    origin: Origin,
    entry: &Entry,
) -> Result<(), AllocError>
    ensures { OnOk result (text.new.items ≡ text.old.items ++ entry_line_of notation origin entry.now) }
{
    push_text(alloc, text, notation, origin, entry)?;
    text.push(b'\n')?;
    Ok(())
}

fn push_text(
    alloc: Global,
    text: &mut Vec<u8>,
    notation: Notation,
    origin: Origin,
    entry: &Entry,
) -> Result<(), AllocError>
    ensures { OnOk result (text.new.items ≡ text.old.items ++ entry_text_of notation origin entry.now) }
{
    match notation {
        Notation::Words(form) => push_words(alloc, text, form, origin, entry),
        Notation::Json => push_object(alloc, text, origin, entry),
    }
}

// ---- words

fn push_words(
    alloc: Global,
    text: &mut Vec<u8>,
    form: Form,
    origin: Origin,
    entry: &Entry,
) -> Result<(), AllocError>
    ensures { OnOk result (text.new.items ≡ text.old.items ++ entry_words_of form origin entry.now) }
{
    push_origin_words(alloc, text, origin)?;
    text.push(b' ')?;
    push_in_form(text, entry.key.as_slice(), form)?;
    push_number(alloc, text, " ", entry.sequence)?;
    text.push(b' ')?;
    push_change_words(text, form, &entry.value)
}

fn push_origin_words(alloc: Global, text: &mut Vec<u8>, origin: Origin) -> Result<(), AllocError>
    ensures { OnOk result (text.new.items ≡ text.old.items ++ origin_words_of origin) }
{
    match origin {
        Origin::Table(level, number) => {
            push_numbers(alloc, text, "table ", u64::from(level), " ", number)
        }
        Origin::Log(number) => push_number(alloc, text, "log ", number),
    }
}

fn push_change_words(
    text: &mut Vec<u8>,
    form: Form,
    value: &Option<Bytes>,
) -> Result<(), AllocError>
    ensures { OnOk result (text.new.items ≡ text.old.items ++ change_words_of form value.now) }
{
    match value {
        None => text.extend_from_slice(b"delete"),
        Some(value) => {
            text.extend_from_slice(b"put ")?;
            push_in_form(text, value.as_slice(), form)
        }
    }
}

// ---- JSON

fn push_object(
    alloc: Global,
    text: &mut Vec<u8>,
    origin: Origin,
    entry: &Entry,
) -> Result<(), AllocError>
    ensures { OnOk result (text.new.items ≡ text.old.items ++ entry_object_of origin entry.now) }
{
    push_origin_object(alloc, text, origin)?;
    text.extend_from_slice(b",\"key\":\"")?;
    push_digits(text, entry.key.as_slice())?;
    push_number(alloc, text, "\",\"sequence\":", entry.sequence)?;
    push_change_object(text, &entry.value)
}

// The beginning of the object.
fn push_origin_object(alloc: Global, text: &mut Vec<u8>, origin: Origin) -> Result<(), AllocError>
    ensures { OnOk result (text.new.items ≡ text.old.items ++ origin_object_of origin) }
{
    match origin {
        Origin::Table(level, number) => push_numbers(
            alloc,
            text,
            "{\"file\":\"table\",\"level\":",
            u64::from(level),
            ",\"number\":",
            number,
        ),
        Origin::Log(number) => push_number(alloc, text, "{\"file\":\"log\",\"number\":", number),
    }
}

// Its end.
fn push_change_object(text: &mut Vec<u8>, value: &Option<Bytes>) -> Result<(), AllocError>
    ensures { OnOk result (text.new.items ≡ text.old.items ++ change_object_of value.now) }
{
    match value {
        None => text.extend_from_slice(b",\"kind\":\"delete\"}"),
        Some(value) => push_put_object(text, value.as_slice()),
    }
}

fn push_put_object(text: &mut Vec<u8>, value: &[u8]) -> Result<(), AllocError>
    ensures { OnOk result (text.new.items ≡ text.old.items ++ change_object_of (Some value.now)) }
{
    text.extend_from_slice(b",\"kind\":\"put\",\"value\":\"")?;
    push_digits(text, value)?;
    text.extend_from_slice(b"\"}")?;
    Ok(())
}

// Two numbers, each right after a word.
fn push_numbers(
    alloc: Global,
    text: &mut Vec<u8>,
    word: &str,
    number: u64,
    next_word: &str,
    next: u64,
) -> Result<(), AllocError>
    ensures { OnOk result (text.new.items ≡ text.old.items ++ (word.now ++ decimal number ++ next_word.now ++ decimal next)) }
{
    push_number(alloc, text, word, number)?;
    push_number(alloc, text, next_word, next)
}

// A word, and a number right after it.
fn push_number(alloc: Global, text: &mut Vec<u8>, word: &str, number: u64) -> Result<(), AllocError>
    ensures { OnOk result (text.new.items ≡ text.old.items ++ (word.now ++ decimal number)) }
{
    let both = format!(in alloc; "{word}{number}")?;
    text.extend_from_slice(both.as_bytes())
}
