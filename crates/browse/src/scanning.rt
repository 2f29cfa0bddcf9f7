//! The pairs of a directory, as text.

ghost use Rattle.std.specs.Prelude.{◌≡◌, IfOk, OnOk};
ghost use Rattle.std.specs.Io.KnownBytes.{Appends};
ghost use Rattle.ikey.specs.Orders.{order_of};
ghost use Rattle.table.specs.Reading.{Reads};
ghost use Rattle.reader.specs.ReadOnly.{looked_at};
ghost use Rattle.reader.specs.Readers.{facts_of};
ghost use Rattle.browse.specs.Browsing.{Scans, end_status};
ghost use Rattle.browse.specs.internal.Printing.{TellsMap};

use crate::choice::Choice;
use crate::ending::{FOUND, REFUSED, cache_blocks};
use crate::printing::print_map;
use crate::refusal::{tell, tell_error};
use coding::DbError;
use ikey::KeyOrder;
use reader::{ReadOnly, Reader};
use script::{Fault, Listener, write_all};
use std::alloc::Global;
use std::io::Write;
use store::Store;

/// Prints the pairs that are asked for, a line each, and returns the exit status: 0, or 1 if the
/// directory was refused, before or after some of the pairs, of which the listener is told. The
/// store comes back; only its reading calls were used. Lines are written 64 KiB at a time. `Fault`
/// if a line couldn't be written.
pub fn scan<K: KeyOrder, S: Store, W: Write, L: Listener>(
    alloc: Global,
    store: ReadOnly<S>,
    choice: &Choice,
    writer: &mut W,
    listener: &mut L,
) -> (Result<u8, Fault>, ReadOnly<S>)
    ensures told { IfOk result.0 (Scans (order_of K.name K.cmp) (looked_at S.facts store) (looked_at S.facts result.1) choice.now (W.contents writer.old) (W.contents writer.new)) }
    // Over any store, and if a line couldn't be written:
    ensures reads { Reads (looked_at S.facts store) (looked_at S.facts result.1) }
{
    match Reader::<S, K>::open(alloc, store, cache_blocks()) {
        Ok(mut reader) => {
            let status = tell_map(alloc, &mut reader, choice, writer, listener);
            (status, reader.into_store())
        }
        Err((error, store)) => {
            tell_error(listener, error, &store);
            (Ok(REFUSED), store)
        }
    }
}

// Prints the pairs of a reader's map.
fn tell_map<K: KeyOrder, S: Store, W: Write, L: Listener>(
    alloc: Global,
    reader: &mut Reader<S, K>,
    choice: &Choice,
    writer: &mut W,
    listener: &mut L,
) -> Result<u8, Fault>
    ensures told { IfOk result (TellsMap (order_of K.name K.cmp) choice.now S.facts reader.old reader.new (W.contents writer.old) (W.contents writer.new)) }
    ensures reads { Reads (facts_of S.facts reader.old) (facts_of S.facts reader.new) }
{
    let mut text = Vec::new(alloc);
    let answer = print_map(alloc, reader, choice, writer, &mut text)?;
    tell(listener, &answer, reader.store());
    print_end(answer, writer, &text)
}

// Writes the text that waits.
fn print_end<W: Write>(
    answer: Result<(), DbError>,
    writer: &mut W,
    text: &Vec<u8>,
) -> Result<u8, Fault>
    ensures written { OnOk result (Appends (W.contents writer.old) (W.contents writer.new) text.now.items) }
    ensures ended { IfOk result (λ status. status ≡ end_status answer) }
{
    write_all(writer, text.as_slice())?;
    Ok(status_of(answer))
}

fn status_of(answer: Result<(), DbError>) -> u8
    ensures { result ≡ end_status answer }
{
    match answer {
        Ok(()) => FOUND,
        Err(_) => REFUSED,
    }
}
