// `get`, `scan` and `export`: the pairs of a database. None takes the lock.

use crate::keys::{form_for, read_key};
use crate::line_counter::LineCounter;
use crate::looking::open;
use crate::saying::{status_of, stop, want, want_key, want_key_line};
use crate::status::DONE;
use crate::task::{Bounds, Lookup, Search};
use crate::telling::Telling;
use browse::{Choice, Form, Showing, Style, range_of};
use coding::Bytes;
use ikey::KeyOrder;
use reader::ReadOnly;
use script::{Fault, read_next_line};
use std::alloc::Global;
use std::io::{BufReader, Read, Write};
use store::FileStore;

// How many bytes of lines of keys are read at once.
const INPUT_BYTES: usize = 65_536;

/// Prints the values of keys, and returns the exit status. The word `-` alone stands for the keys
/// that the lines of the reader spell.
pub fn get<K: KeyOrder, R: Read + Drop, W: Write, F: Write>(
    rt: &HostRuntime,
    folder: &str,
    lookup: &Lookup<'_>,
    reader: R,
    writer: &mut W,
    faults: &mut F,
) -> u8 {
    let Some(first) = lookup.keys.first() else {
        return DONE;
    };
    if lookup.keys.len() > 1 {
        return match keys_of(rt.alloc(), lookup.form, lookup.keys.as_slice(), faults) {
            Ok(keys) => get_each::<K, W, F>(rt, folder, &keys, lookup.form, writer, faults),
            Err(status) => status,
        };
    }
    if *first != "-" {
        return get_one::<K, W, F>(rt, folder, first, lookup, writer, faults);
    }
    if lookup.raw {
        return want(faults, "--raw: one KEY is wanted");
    }
    match keys_of_lines(rt.alloc(), lookup.form, reader, faults) {
        Ok(keys) => get_each::<K, W, F>(rt, folder, &keys, lookup.form, writer, faults),
        Err(status) => status,
    }
}

fn get_one<K: KeyOrder, W: Write, F: Write>(
    rt: &HostRuntime,
    folder: &str,
    word: &str,
    lookup: &Lookup<'_>,
    writer: &mut W,
    faults: &mut F,
) -> u8 {
    let key = match key_of(rt.alloc(), lookup.form, "KEY", word, faults) {
        Ok(key) => key,
        Err(status) => return status,
    };
    let store = match open(rt, folder, faults) {
        Ok(store) => ReadOnly::over(store),
        Err(status) => return status,
    };
    let showing = if lookup.raw {
        Showing::Bytes
    } else {
        Showing::Line(lookup.form)
    };
    let mut telling = Telling::of(folder, faults);
    let found = browse::get::<K, FileStore, W, Telling<'_, F>>(
        rt.alloc(),
        store,
        key.as_slice(),
        showing,
        writer,
        &mut telling,
    );
    telling.end::<K>(rt);
    status_of(found.0, faults)
}

fn get_each<K: KeyOrder, W: Write, F: Write>(
    rt: &HostRuntime,
    folder: &str,
    keys: &[Bytes],
    form: Form,
    writer: &mut W,
    faults: &mut F,
) -> u8 {
    let store = match open(rt, folder, faults) {
        Ok(store) => ReadOnly::over(store),
        Err(status) => return status,
    };
    let mut telling = Telling::of(folder, faults);
    let found = browse::get_each::<K, FileStore, W, Telling<'_, F>>(
        rt.alloc(),
        store,
        keys,
        form,
        writer,
        &mut telling,
    );
    telling.end::<K>(rt);
    status_of(found.0, faults)
}

/// Prints the pairs that are asked for, or how many there are, and returns the exit status.
pub fn scan<K: KeyOrder, W: Write, F: Write>(
    rt: &HostRuntime,
    folder: &str,
    search: &Search<'_>,
    writer: &mut W,
    faults: &mut F,
) -> u8 {
    let form = form_for(search.style);
    let mut choice = match choice_of(rt.alloc(), &search.bounds, form, search.style, faults) {
        Ok(choice) => choice,
        Err(status) => return status,
    };
    choice.most = search.limit;
    choice.backwards = search.reverse;
    if search.count {
        return count_pairs::<K, W, F>(rt, folder, choice, writer, faults);
    }
    print_pairs::<K, W, F>(rt, folder, &choice, writer, faults)
}

/// Prints the pairs within these bounds as lines of an import, and returns the exit status.
pub fn export<K: KeyOrder, W: Write, F: Write>(
    rt: &HostRuntime,
    folder: &str,
    bounds: &Bounds<'_>,
    writer: &mut W,
    faults: &mut F,
) -> u8 {
    match choice_of(rt.alloc(), bounds, Form::Hex, Style::Puts, faults) {
        Ok(choice) => print_pairs::<K, W, F>(rt, folder, &choice, writer, faults),
        Err(status) => status,
    }
}

fn print_pairs<K: KeyOrder, W: Write, F: Write>(
    rt: &HostRuntime,
    folder: &str,
    choice: &Choice,
    writer: &mut W,
    faults: &mut F,
) -> u8 {
    let store = match open(rt, folder, faults) {
        Ok(store) => ReadOnly::over(store),
        Err(status) => return status,
    };
    let mut telling = Telling::of(folder, faults);
    let printed = browse::scan::<K, FileStore, W, Telling<'_, F>>(
        rt.alloc(),
        store,
        choice,
        writer,
        &mut telling,
    );
    telling.end::<K>(rt);
    status_of(printed.0, faults)
}

// Prints how many pairs there are: the lines of their keys are counted, and written nowhere.
fn count_pairs<K: KeyOrder, W: Write, F: Write>(
    rt: &HostRuntime,
    folder: &str,
    choice: Choice,
    writer: &mut W,
    faults: &mut F,
) -> u8 {
    let choice = Choice {
        style: Style::Keys(Form::Hex),
        ..choice
    };
    let mut counter = LineCounter::new();
    let status = print_pairs::<K, LineCounter, F>(rt, folder, &choice, &mut counter, faults);
    if status != DONE {
        return status;
    }
    let count = counter.lines();
    match writeln!(writer, "{count}") {
        Ok(()) => status,
        Err(error) => stop(faults, &Fault::Write(error)),
    }
}

// ---- keys that are asked for

// Which pairs are asked for, all of them forwards, or what is wrong with the bounds.
fn choice_of<F: Write>(
    alloc: Global,
    bounds: &Bounds<'_>,
    form: Form,
    style: Style,
    faults: &mut F,
) -> Result<Choice, u8> {
    let from = key_if_given(alloc, form, "--from", bounds.from, faults)?;
    let to = key_if_given(alloc, form, "--to", bounds.to, faults)?;
    let prefix = key_if_given(alloc, form, "--prefix", bounds.prefix, faults)?;
    match range_of(alloc, bytes_in(&from), bytes_in(&to), bytes_in(&prefix)) {
        Ok(keys) => Ok(Choice {
            keys,
            most: None,
            backwards: false,
            style,
        }),
        Err(_) => Err(stop(faults, &Fault::Memory)),
    }
}

fn bytes_in(key: &Option<Bytes>) -> Option<&[u8]> {
    match key {
        Some(key) => Some(key.as_slice()),
        None => None,
    }
}

fn key_if_given<F: Write>(
    alloc: Global,
    form: Form,
    name: &str,
    word: Option<&str>,
    faults: &mut F,
) -> Result<Option<Bytes>, u8> {
    match word {
        Some(word) => {
            let key = key_of(alloc, form, name, word, faults)?;
            Ok(Some(key))
        }
        None => Ok(None),
    }
}

/// Returns the bytes that a word spells in this form. `Err` is the status if it spells none, which
/// is said of this option or place, or if memory ran out.
pub fn key_of<F: Write>(
    alloc: Global,
    form: Form,
    name: &str,
    word: &str,
    faults: &mut F,
) -> Result<Bytes, u8> {
    match read_key(alloc, form, word.as_bytes()) {
        Ok(Some(key)) => Ok(key),
        Ok(None) => Err(want_key(faults, name, form)),
        Err(_) => Err(stop(faults, &Fault::Memory)),
    }
}

fn keys_of<F: Write>(
    alloc: Global,
    form: Form,
    words: &[&str],
    faults: &mut F,
) -> Result<Vec<Bytes>, u8> {
    let mut keys = Vec::new(alloc);
    for word in words {
        let key = key_of(alloc, form, "KEY", word, faults)?;
        if keys.push(key).is_err() {
            return Err(stop(faults, &Fault::Memory));
        }
    }
    Ok(keys)
}

// The keys that the lines of a reader spell.
fn keys_of_lines<R: Read + Drop, F: Write>(
    alloc: Global,
    form: Form,
    reader: R,
    faults: &mut F,
) -> Result<Vec<Bytes>, u8> {
    let mut input = match BufReader::with_capacity(alloc, INPUT_BYTES, reader) {
        Ok(input) => input,
        Err(error) => return Err(stop(faults, &Fault::Read(error))),
    };
    let mut line = Vec::new(alloc);
    let mut keys = Vec::new(alloc);
    let mut number = 0_u64;
    // A loop without a measure: as many turns as 64 bits count, which no input has.
    for _ in 0..u64::MAX {
        match read_next_line(&mut input, &mut line) {
            Ok(true) => {}
            Ok(false) => return Ok(keys),
            Err(fault) => return Err(stop(faults, &fault)),
        }
        number = number.saturating_add(1);
        let key = key_of_line(alloc, form, line.as_slice(), number, faults)?;
        if keys.push(key).is_err() {
            return Err(stop(faults, &Fault::Memory));
        }
    }
    Ok(keys)
}

fn key_of_line<F: Write>(
    alloc: Global,
    form: Form,
    line: &[u8],
    number: u64,
    faults: &mut F,
) -> Result<Bytes, u8> {
    match read_key(alloc, form, line) {
        Ok(Some(key)) => Ok(key),
        Ok(None) => Err(want_key_line(faults, number, form)),
        Err(_) => Err(stop(faults, &Fault::Memory)),
    }
}
