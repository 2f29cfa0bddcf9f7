//! What stands after the first word of most lines: ids, numbers, keys.

ghost use Rattle.std.specs.Prelude.{◌≡◌, [], ◌∷◌, IfOk};
ghost use Rattle.machine.specs.declared.command.Mode.{Mode as ModeValue};
ghost use Rattle.machine.specs.declared.command.Op.{Op as OpValue};
ghost use Rattle.script.specs.declared.verb.Verb.TheVariants as verb;
ghost use Rattle.script.specs.Words.{texts_of, Reads};
ghost use Rattle.script.specs.Script.{Spells, IsCompaction, IsNumberAlone, AreSnapshot, mode_words};

use crate::word::{read_bytes, read_number, read_small_number};
use engine::{Mode, Op};
use std::alloc::{AllocError, Global};

/// Returns the mode of an open, or `None` if the words are none.
pub fn read_mode(words: &[&[u8]]) -> Option<Mode>
    ensures { Reads (λ (mode : ModeValue). texts_of words.now ≡ mode_words mode) result }
{
    match words {
        [] => Some(Mode::Existing),
        [word] => read_mode_word(word),
        _ => None,
    }
}

fn read_mode_word(word: &[u8]) -> Option<Mode>
    ensures { Reads (λ (mode : ModeValue). word.now ∷ [] ≡ mode_words mode) result }
{
    match word {
        b"new" => Some(Mode::New),
        b"any" => Some(Mode::Any),
        _ => None,
    }
}

/// Returns the number that is the only word, or `None` if the words aren't one.
pub fn read_number_alone(words: &[&[u8]]) -> Option<u64>
    ensures { Reads (IsNumberAlone 64 (texts_of words.now)) result }
{
    match words {
        [word] => read_number(word),
        _ => None,
    }
}

/// Returns the number below 2^32 that is the only word, or `None` if the words aren't one.
pub fn read_small_number_alone(words: &[&[u8]]) -> Option<u32>
    ensures { Reads (IsNumberAlone 32 (texts_of words.now)) result }
{
    match words {
        [word] => read_small_number(word),
        _ => None,
    }
}

/// Returns the id of a snapshot, `Some(None)` if there is no word, or `None` if the words are none.
pub fn read_snapshot(words: &[&[u8]]) -> Option<Option<u64>>
    ensures { Reads (AreSnapshot (texts_of words.now)) result }
{
    match words {
        [] => Some(None),
        [word] => Some(Some(read_number(word)?)),
        _ => None,
    }
}

/// Returns the read of a key, perhaps at a snapshot, or `None` if the words are none. `Err` if
/// memory ran out.
pub fn read_get(alloc: Global, words: &[&[u8]]) -> Result<Option<Op>, AllocError>
    ensures { IfOk result (Reads (Spells verb.Get (texts_of words.now))) }
{
    let [word, rest @ ..] = words else {
        return Ok(None);
    };
    let Some(snapshot) = read_snapshot(rest) else {
        return Ok(None);
    };
    let Some(key) = read_bytes(alloc, word)? else {
        return Ok(None);
    };
    Ok(Some(Op::Get(key, snapshot)))
}

/// Returns the move of an iterator to a key, or `None` if the words are none. `Err` if memory ran
/// out.
pub fn read_seek(alloc: Global, words: &[&[u8]]) -> Result<Option<Op>, AllocError>
    ensures { IfOk result (Reads (Spells verb.Seek (texts_of words.now))) }
{
    let [first, second] = words else {
        return Ok(None);
    };
    let Some(id) = read_number(first) else {
        return Ok(None);
    };
    let Some(key) = read_bytes(alloc, second)? else {
        return Ok(None);
    };
    Ok(Some(Op::Seek(id, key)))
}

/// Returns the compaction of `all` or of a level, or `None` if the words are none.
pub fn read_compaction(words: &[&[u8]]) -> Option<Op>
    ensures { Reads (IsCompaction (texts_of words.now)) result }
{
    match words {
        [word] => read_compaction_word(word),
        _ => None,
    }
}

fn read_compaction_word(word: &[u8]) -> Option<Op>
    ensures { Reads (IsCompaction (word.now ∷ [])) result }
{
    if word == b"all".as_slice() {
        return Some(Op::CompactAll);
    }
    let level = read_small_number(word)?;
    Some(Op::CompactLevel(level))
}

/// Returns this command if there is no word, or `None`.
pub fn read_alone(words: &[&[u8]], command: Op) -> Option<Op>
    ensures { Reads (λ (found : OpValue). (texts_of words.now ≡ []) × (found ≡ command)) result }
{
    if words.is_empty() {
        Some(command)
    } else {
        None
    }
}
