//! The pairs of a walk, as lines.

ghost use Rattle.std.specs.Prelude.{◌≡◌, ◌++◌, ◌∷◌, [], IfOk, IfSome, IsSome, Ok, OnOk};
ghost use Rattle.ikey.specs.Orders.{order_of};
ghost use Rattle.script.specs.Drive.{Shows};
ghost use Rattle.table.specs.Reading.{Reads};
ghost use Rattle.reader.specs.Readers.{facts_of};
ghost use Rattle.browse.specs.Forms.{line_in};
ghost use Rattle.browse.specs.internal.Printing.{GoesOver, Prints, PrintsMap};

use crate::choice::Choice;
use crate::line::push_line;
use crate::style::Style;
use crate::walking::next_pair;
use coding::{Bytes, DbError};
use ikey::KeyOrder;
use reader::{Reader, ReaderWalk};
use script::{Fault, show};
use std::alloc::{AllocError, Global};
use std::io::Write;
use store::Store;

// How many bytes of lines wait at most, so that they are written together.
const OUTPUT_BYTES: usize = 65_536;

/// Prints the pairs that are asked for of a reader's map, and returns why there are no more, if
/// that was refused. What isn't written yet is left in `text`. `Fault` if a line couldn't be
/// written.
pub fn print_map<K: KeyOrder, S: Store, W: Write>(
    alloc: Global,
    reader: &mut Reader<S, K>,
    choice: &Choice,
    writer: &mut W,
    text: &mut Vec<u8>,
) -> Result<Result<(), DbError>, Fault>
    ensures prints { IfOk result (PrintsMap (order_of K.name K.cmp) choice.now S.facts reader.old reader.new (W.contents writer.old) (W.contents writer.new) text.old.items text.new.items) }
    ensures reads { Reads (facts_of S.facts reader.old) (facts_of S.facts reader.new) }
{
    let Ok(mut walk) = reader.walk(alloc) else {
        return Ok(Err(DbError::OutOfMemory));
    };
    print_pairs(alloc, reader, &mut walk, choice, writer, text)
}

// The same of a walk, which hasn't begun.
fn print_pairs<K: KeyOrder, S: Store, W: Write>(
    alloc: Global,
    reader: &mut Reader<S, K>,
    walk: &mut ReaderWalk<K>,
    choice: &Choice,
    writer: &mut W,
    text: &mut Vec<u8>,
) -> Result<Result<(), DbError>, Fault>
    ensures prints { IfOk result (Prints K.cmp choice.now (GoesOver K.cmp S.facts reader.old walk.old) (facts_of S.facts reader.old) (facts_of S.facts reader.new) (W.contents writer.old) (W.contents writer.new) text.old.items text.new.items) }
    ensures reads { Reads (facts_of S.facts reader.old) (facts_of S.facts reader.new) }
{
    let limit = limit_of(choice.most);
    let mut begun = false;
    for _ in 0..limit {
        let pair = match next_pair(alloc, reader, walk, choice, begun) {
            Ok(Some(pair)) => pair,
            Ok(None) => return Ok(Ok(())),
            Err(error) => return Ok(Err(error)),
        };
        print_pair(writer, text, choice.style, &pair)?;
        begun = true;
    }
    end_at_limit(choice.most)
}

// How many pairs may come.
fn limit_of(most: Option<u64>) -> u64
    ensures { IfSome most (λ n. result ≡ n) }
{
    most.unwrap_or(u64::MAX)
}

// What ends a walk of which as many pairs came as may: without a limit a fault, since no directory
// has so many.
fn end_at_limit(most: Option<u64>) -> Result<Result<(), DbError>, Fault>
    ensures { IfOk result (λ answer. IsSome most × (answer ≡ Ok tt)) }
{
    match most {
        Some(_) => Ok(Ok(())),
        None => Err(Fault::Memory),
    }
}

// Appends the line of a pair to the text that waits, and writes that if it is long.
fn print_pair<W: Write>(
    writer: &mut W,
    text: &mut Vec<u8>,
    style: Style,
    pair: &(Bytes, Bytes),
) -> Result<(), Fault>
    ensures { OnOk result (Shows (W.contents writer.old) (W.contents writer.new) (text.old.items ++ (line_in style pair.now ++ 10 ∷ [])) text.new.items) }
{
    push_whole_line(text, style, pair.0.as_slice(), pair.1.as_slice())?;
    let due = text.len() >= OUTPUT_BYTES;
    show(writer, text, due)?;
    Ok(())
}

fn push_whole_line(
    text: &mut Vec<u8>,
    style: Style,
    key: &[u8],
    value: &[u8],
) -> Result<(), AllocError>
    ensures { OnOk result (text.new.items ≡ text.old.items ++ (line_in style (key.now, value.now) ++ 10 ∷ [])) }
{
    push_line(text, style, key, value)?;
    text.push(b'\n')?;
    Ok(())
}
