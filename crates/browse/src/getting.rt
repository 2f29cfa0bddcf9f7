//! The values of keys, as text.

ghost use Rattle.std.specs.Prelude.{◌≡◌, ◌++◌, IfOk, MatchBool, OnOk};
ghost use Rattle.std.specs.Io.KnownBytes.{Appends};
ghost use Rattle.ikey.specs.Orders.{order_of};
ghost use Rattle.table.specs.Reading.{Reads};
ghost use Rattle.reader.specs.ReadOnly.{looked_at};
ghost use Rattle.reader.specs.Readers.{facts_of};
ghost use Rattle.browse.specs.Browsing.{Gets, GetsAll, GetsEach, IsRead, value_status, value_text};
ghost use Rattle.browse.specs.declared.showing.Showing.TheVariants.{EachLine};
ghost use Rattle.browse.specs.internal.Opened.{IsOpen};

use crate::ending::{FOUND, NONE, REFUSED, cache_blocks};
use crate::form::Form;
use crate::refusal::{tell, tell_error};
use crate::showing::{Showing, push_none, push_some};
use coding::{Bytes, DbError};
use ikey::KeyOrder;
use reader::{ReadOnly, Reader};
use script::{Fault, Listener, write_all};
use std::alloc::{AllocError, Global};
use std::io::Write;
use store::Store;

/// Prints the value of a key, and returns the exit status: 0 if it has one, 4 if it has none, 1 if
/// the directory was refused, of which the listener is told and nothing is printed. The store comes
/// back; only its reading calls were used. `Fault` if the value couldn't be written.
pub fn get<K: KeyOrder, S: Store, W: Write, L: Listener>(
    alloc: Global,
    store: ReadOnly<S>,
    key: &[u8],
    showing: Showing,
    writer: &mut W,
    listener: &mut L,
) -> (Result<u8, Fault>, ReadOnly<S>)
    ensures told { IfOk result.0 (Gets (order_of K.name K.cmp) (looked_at S.facts store) (looked_at S.facts result.1)
        key.now showing (W.contents writer.old) (W.contents writer.new)) }
    // Over any store, and if the value couldn't be written:
    ensures reads { Reads (looked_at S.facts store) (looked_at S.facts result.1) }
{
    let (answer, store) = read_value::<K, S>(alloc, store, key);
    tell(listener, &answer, &store);
    let status = print_value(alloc, &answer, showing, writer);
    (status, store)
}

/// Prints a line for each of some keys, in their order: its value, or `\N` if it has none. Returns
/// the exit status: 0 if each has a value, 4 if one has none, 1 if one was refused, which ends it,
/// and of which the listener is told. The store comes back; only its reading calls were used. The
/// directory is opened once. `Fault` if a line couldn't be written.
pub fn get_each<K: KeyOrder, S: Store, W: Write, L: Listener>(
    alloc: Global,
    store: ReadOnly<S>,
    keys: &[Bytes],
    form: Form,
    writer: &mut W,
    listener: &mut L,
) -> (Result<u8, Fault>, ReadOnly<S>)
    ensures told { IfOk result.0 (GetsAll (order_of K.name K.cmp) (looked_at S.facts store) (looked_at S.facts result.1)
        keys.now form (W.contents writer.old) (W.contents writer.new)) }
    // Over any store, and if a line couldn't be written:
    ensures reads { Reads (looked_at S.facts store) (looked_at S.facts result.1) }
{
    match Reader::<S, K>::open(alloc, store, cache_blocks()) {
        Ok(mut reader) => {
            let status = print_each(alloc, &mut reader, keys, form, writer, listener);
            (status, reader.into_store())
        }
        Err((error, store)) => {
            tell_error(listener, error, &store);
            (Ok(REFUSED), store)
        }
    }
}

// Prints the lines of keys, up to a refusal.
fn print_each<K: KeyOrder, S: Store, W: Write, L: Listener>(
    alloc: Global,
    reader: &mut Reader<S, K>,
    keys: &[Bytes],
    form: Form,
    writer: &mut W,
    listener: &mut L,
) -> Result<u8, Fault>
    requires stands { IsOpen (order_of K.name K.cmp) S.facts reader.old }
    ensures told { IfOk result (GetsEach (order_of K.name K.cmp) form keys.now 0
        (facts_of S.facts reader.old) (facts_of S.facts reader.new) (W.contents writer.old) (W.contents writer.new)) }
    ensures reads { Reads (facts_of S.facts reader.old) (facts_of S.facts reader.new) }
{
    let mut worst = FOUND;
    for key in keys {
        let one = print_key(alloc, reader, key, form, writer, listener)?;
        if is_refused(one) {
            return Ok(REFUSED);
        }
        worst = worst.max(one);
    }
    Ok(worst)
}

fn is_refused(status: u8) -> bool
    ensures { MatchBool result (status ≡ 1) (status ≡ 1 → ⊥) }
{
    status == REFUSED
}

// Prints the line of one key.
fn print_key<K: KeyOrder, S: Store, W: Write, L: Listener>(
    alloc: Global,
    reader: &mut Reader<S, K>,
    key: &Bytes,
    form: Form,
    writer: &mut W,
    listener: &mut L,
) -> Result<u8, Fault>
    requires stands { IsOpen (order_of K.name K.cmp) S.facts reader.old }
    ensures told { IfOk result (Gets (order_of K.name K.cmp) (facts_of S.facts reader.old) (facts_of S.facts reader.new)
        key.now (EachLine form) (W.contents writer.old) (W.contents writer.new)) }
    ensures stands { IsOpen (order_of K.name K.cmp) S.facts reader.new }
    ensures reads { Reads (facts_of S.facts reader.old) (facts_of S.facts reader.new) }
{
    let answer = reader.get(alloc, key.as_slice());
    tell(listener, &answer, reader.store());
    print_value(alloc, &answer, Showing::EachLine(form), writer)
}

// The value of a key in a directory.
fn read_value<K: KeyOrder, S: Store>(
    alloc: Global,
    store: ReadOnly<S>,
    key: &[u8],
) -> (Result<Option<Bytes>, DbError>, ReadOnly<S>)
    ensures answer { IsRead (order_of K.name K.cmp) (looked_at S.facts store) (looked_at S.facts result.1) key.now result.0 }
    ensures reads { Reads (looked_at S.facts store) (looked_at S.facts result.1) }
{
    match Reader::<S, K>::open(alloc, store, cache_blocks()) {
        Ok(mut reader) => {
            let answer = reader.get(alloc, key);
            (answer, reader.into_store())
        }
        Err((error, store)) => (Err(error), store),
    }
}

// Prints what was read of a key.
fn print_value<W: Write>(
    alloc: Global,
    answer: &Result<Option<Bytes>, DbError>,
    showing: Showing,
    writer: &mut W,
) -> Result<u8, Fault>
    ensures written { OnOk result (Appends (W.contents writer.old) (W.contents writer.new) (value_text showing answer.now)) }
    ensures ended { IfOk result (λ status. status ≡ value_status answer.now) }
{
    let mut text = Vec::new(alloc);
    push_value(&mut text, answer, showing)?;
    write_all(writer, text.as_slice())?;
    Ok(status_of(answer))
}

fn push_value(
    text: &mut Vec<u8>,
    answer: &Result<Option<Bytes>, DbError>,
    showing: Showing,
) -> Result<(), AllocError>
    ensures { OnOk result (text.new.items ≡ text.old.items ++ value_text showing answer.now) }
{
    match answer {
        Ok(None) => push_none(text, showing),
        Ok(Some(value)) => push_some(text, value.as_slice(), showing),
        Err(_) => Ok(()),
    }
}

fn status_of(answer: &Result<Option<Bytes>, DbError>) -> u8
    ensures { result ≡ value_status answer.now }
{
    match answer {
        Ok(Some(_)) => FOUND,
        Ok(None) => NONE,
        Err(_) => REFUSED,
    }
}
