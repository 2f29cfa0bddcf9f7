//! Lines and the commands that they say.

ghost use Rattle.std.specs.Prelude.{IfOk, ℕ, List};
ghost use Rattle.machine.specs.declared.command.Op.{Op as OpValue};
ghost use Rattle.script.specs.Words.{texts_of, Reads};
ghost use Rattle.script.specs.Script.{AreCommand, Spells, Says, IsSame};
ghost use Rattle.script.specs.Importing.{SaysOperation};

use crate::arguments::{
    read_alone, read_compaction, read_get, read_mode, read_number_alone, read_seek,
    read_small_number_alone, read_snapshot,
};
use crate::batch_words::{read_batch, read_delete_alone, read_one_operation, read_put_alone};
use crate::verb::{Verb, read_verb};
use crate::word::{few_words, split_words};
use batch::Operation;
use engine::Op;
use std::alloc::{AllocError, Global};

// How many words a line may have for which no memory is taken: all but those of `write`.
const FEW: usize = 4;

/// Returns the command that a line says, without its newline, or `None` if it says none. `Err` if
/// memory ran out.
pub fn read_line(alloc: Global, line: &[u8]) -> Result<Option<Op>, AllocError>
    ensures { IfOk result (Reads (Says line.now)) }
{
    let mut room: [&[u8]; FEW] = [b""; FEW];
    if let Some(count) = few_words(line, &mut room) {
        return read_words(alloc, &room[..count]);
    }
    let words = split_words(alloc, line)?;
    read_words(alloc, words.as_slice())
}

/// Returns the operation that a line says, without its newline, or `None` if it says none. `Err` if
/// memory ran out.
pub fn read_operation_line(alloc: Global, line: &[u8]) -> Result<Option<Operation>, AllocError>
    ensures { IfOk result (Reads (SaysOperation line.now)) }
{
    let mut room: [&[u8]; FEW] = [b""; FEW];
    if let Some(count) = few_words(line, &mut room) {
        return read_one_operation(alloc, &room[..count]);
    }
    let words = split_words(alloc, line)?;
    read_one_operation(alloc, words.as_slice())
}

// The command that these words say.
fn read_words(alloc: Global, words: &[&[u8]]) -> Result<Option<Op>, AllocError>
    ensures { IfOk result (Reads (AreCommand (texts_of words.now))) }
{
    let [first, rest @ ..] = words else {
        return Ok(None);
    };
    let Some(verb) = read_verb(first) else {
        return Ok(None);
    };
    read_rest(alloc, verb, rest)
}

// The command that a verb makes of the words after it.
fn read_rest(alloc: Global, verb: Verb, words: &[&[u8]]) -> Result<Option<Op>, AllocError>
    ensures { IfOk result (Reads (Spells verb (texts_of words.now))) }
{
    match verb {
        Verb::Open => Ok(read_mode(words).map(Op::Open)),
        Verb::Put => read_put_alone(alloc, words),
        Verb::Del => read_delete_alone(alloc, words),
        Verb::Write => read_batch(alloc, words),
        Verb::Get => read_get(alloc, words),
        Verb::Snapshot => Ok(read_alone(words, Op::Snapshot)),
        Verb::Release => Ok(read_number_alone(words).map(Op::Release)),
        Verb::Iter => Ok(read_snapshot(words).map(Op::Iterate)),
        Verb::First => Ok(read_number_alone(words).map(Op::First)),
        Verb::Last => Ok(read_number_alone(words).map(Op::Last)),
        Verb::Seek => read_seek(alloc, words),
        Verb::Next => Ok(read_number_alone(words).map(Op::Next)),
        Verb::Prev => Ok(read_number_alone(words).map(Op::Prev)),
        Verb::Drop => Ok(read_number_alone(words).map(Op::DropIterator)),
        Verb::Work => Ok(read_small_number_alone(words).map(Op::Work)),
        Verb::Compact => Ok(read_compaction(words)),
        Verb::Close => Ok(read_alone(words, Op::Close)),
    }
}

/// Law: no line says two commands.
pub fn one_command()
    ensures { (line : List ℕ) (command other : OpValue) → Says line command → Says line other → IsSame command other }
{}
