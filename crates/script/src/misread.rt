//! What is wrong with a line that says no command. For the eye alone: `read_line` decides, and
//! needs none of it.

use crate::verb::{Verb, read_verb};
use crate::word::{read_number, read_small_number};

/// The first word of a line that isn't what belongs there, and what does.
#[derive(Clone, Copy, Debug, PartialEq, Eq)]
pub struct Misread {
    /// Its number, from 1 on: one more than there are words if the line ends too soon.
    pub word: usize,
    /// What belongs there.
    pub wanted: Wanted,
}

/// What belongs in the place of a word.
#[derive(Clone, Copy, Debug, PartialEq, Eq)]
pub enum Wanted {
    /// The name of a command.
    Command,
    /// `put` or `del`, in a batch or an import.
    Operation,
    /// Two hexadecimal digits a byte, or `-` for none.
    Bytes,
    /// A number below 2^64.
    Number,
    /// A number below 2^32.
    SmallNumber,
    /// `all`, or the number of a level.
    Level,
    /// `new` or `any`, or nothing.
    Mode,
    /// Nothing.
    End,
    /// No carriage return at the end of the line.
    NoReturn,
}

/// Returns what is wrong with a line of a script, or `None` if nothing is.
pub fn misread_line(line: &[u8]) -> Option<Misread> {
    misread_from(line, Place::Command)
}

/// Returns what is wrong with a line of an import, or `None` if nothing is.
pub fn misread_operation_line(line: &[u8]) -> Option<Misread> {
    misread_from(line, Place::Alone)
}

// What may stand next, by the words before.
#[derive(Clone, Copy, Debug, PartialEq, Eq)]
enum Place {
    Command,
    Mode,
    // a number and nothing more, or nothing
    PerhapsNumber,
    Number,
    SmallNumber,
    Level,
    // the number of an iterator, and then a key
    Sought,
    // a key, and then perhaps the number of a snapshot
    Got,
    // bytes and nothing more
    Bytes,
    // bytes, and then bytes
    TwoBytes,
    // an operation and nothing more
    Alone,
    // `sync`, an operation, or the end
    Batch,
    // an operation, or the end
    Batched,
    // the key and the value of a put in a batch, and the key of a delete
    BatchedKey,
    BatchedBytes,
    End,
}

fn misread_from(line: &[u8], first: Place) -> Option<Misread> {
    if line.ends_with(b"\r") {
        return Some(Misread {
            word: line.split(|byte| *byte == b' ').count(),
            wanted: Wanted::NoReturn,
        });
    }
    let mut place = first;
    let mut word = 0_usize;
    for text in line.split(|byte| *byte == b' ') {
        word = word.saturating_add(1);
        match after(place, text) {
            Some(next) => place = next,
            None => return Some(misread_at(word, place)),
        }
    }
    if may_end(place) {
        return None;
    }
    Some(misread_at(word.saturating_add(1), place))
}

fn misread_at(word: usize, place: Place) -> Misread {
    Misread {
        word,
        wanted: wanted_at(place),
    }
}

// What may stand after this word, if it belongs here.
fn after(place: Place, word: &[u8]) -> Option<Place> {
    match place {
        Place::Command => Some(behind(read_verb(word)?)),
        Place::Mode => next_if(
            word == b"new".as_slice() || word == b"any".as_slice(),
            Place::End,
        ),
        Place::PerhapsNumber => next_if(read_number(word).is_some(), Place::End),
        Place::Number => next_if(read_number(word).is_some(), Place::End),
        Place::SmallNumber => next_if(read_small_number(word).is_some(), Place::End),
        Place::Level => next_if(is_level(word), Place::End),
        Place::Sought => next_if(read_number(word).is_some(), Place::Bytes),
        Place::Got => next_if(is_byte_string(word), Place::PerhapsNumber),
        Place::Bytes => next_if(is_byte_string(word), Place::End),
        Place::TwoBytes => next_if(is_byte_string(word), Place::Bytes),
        Place::Alone => by_operation(word, Place::TwoBytes, Place::Bytes),
        Place::Batch => {
            if word == b"sync".as_slice() {
                return Some(Place::Batched);
            }
            by_operation(word, Place::BatchedKey, Place::BatchedBytes)
        }
        Place::Batched => by_operation(word, Place::BatchedKey, Place::BatchedBytes),
        Place::BatchedKey => next_if(is_byte_string(word), Place::BatchedBytes),
        Place::BatchedBytes => next_if(is_byte_string(word), Place::Batched),
        Place::End => None,
    }
}

fn next_if(belongs: bool, next: Place) -> Option<Place> {
    if belongs { Some(next) } else { None }
}

fn by_operation(word: &[u8], put: Place, delete: Place) -> Option<Place> {
    if word == b"put".as_slice() {
        return Some(put);
    }
    next_if(word == b"del".as_slice(), delete)
}

// What may stand after the name of a command.
fn behind(verb: Verb) -> Place {
    match verb {
        Verb::Open => Place::Mode,
        Verb::Put => Place::TwoBytes,
        Verb::Del => Place::Bytes,
        Verb::Write => Place::Batch,
        Verb::Get => Place::Got,
        Verb::Iter => Place::PerhapsNumber,
        Verb::Seek => Place::Sought,
        Verb::Work => Place::SmallNumber,
        Verb::Compact => Place::Level,
        Verb::Release | Verb::First | Verb::Last | Verb::Next | Verb::Prev | Verb::Drop => {
            Place::Number
        }
        Verb::Snapshot | Verb::Close => Place::End,
    }
}

fn may_end(place: Place) -> bool {
    match place {
        Place::Mode | Place::PerhapsNumber | Place::Batch | Place::Batched | Place::End => true,
        _ => false,
    }
}

fn wanted_at(place: Place) -> Wanted {
    match place {
        Place::Command => Wanted::Command,
        Place::Mode => Wanted::Mode,
        Place::PerhapsNumber | Place::Number | Place::Sought => Wanted::Number,
        Place::SmallNumber => Wanted::SmallNumber,
        Place::Level => Wanted::Level,
        Place::Got | Place::Bytes | Place::TwoBytes => Wanted::Bytes,
        Place::BatchedKey | Place::BatchedBytes => Wanted::Bytes,
        Place::Alone | Place::Batch | Place::Batched => Wanted::Operation,
        Place::End => Wanted::End,
    }
}

fn is_level(word: &[u8]) -> bool {
    word == b"all".as_slice() || read_small_number(word).is_some()
}

fn is_byte_string(word: &[u8]) -> bool {
    if word == b"-".as_slice() {
        return true;
    }
    !word.is_empty() && word.len() % 2 == 0 && word.iter().all(|byte| byte.is_ascii_hexdigit())
}
