//! Words: numbers, byte strings, and the cutting of a line into words.

ghost use Rattle.std.specs.Prelude.{◌≡◌, ◌≤◌, ℕ, true, false, take, length, IfOk, IfSome};
ghost use Rattle.script.specs.Words.{words_of, texts_of, IsNumber, IsPlain, IsByteString, Reads};

use coding::Bytes;
use hex::FromHexError;
use std::alloc::{AllocError, Global};

/// Returns the words of a line: what stands between its spaces. `Err` if memory ran out.
pub fn split_words(alloc: Global, line: &[u8]) -> Result<Vec<&[u8]>, AllocError>
    ensures { IfOk result (λ words. texts_of words.items ≡ words_of line.now) }
{
    line.split(|byte| *byte == b' ').collect(alloc)
}

/// Puts the words of a line into the room, and returns how many there are, or `None` if they find
/// no room. So most lines take no memory for them.
pub fn few_words<'a>(line: &'a [u8], room: &mut [&'a [u8]]) -> Option<usize>
    ensures within { IfSome result (λ count. count ≤ length room.new) }
    ensures words { IfSome result (λ count. texts_of (take count room.new) ≡ words_of line.now) }
{
    let mut count = 0;
    for word in line.split(|byte| *byte == b' ') {
        if count >= room.len() {
            return None;
        }
        room[count] = word;
        count += 1;
    }
    Some(count)
}

/// Returns the number below 2^64 that a word writes in decimal, with no sign and no leading zero,
/// or `None` if it writes none.
pub fn read_number(word: &[u8]) -> Option<u64>
    ensures { Reads (IsNumber 64 word.now) result }
{
    if has_needless_front(word) {
        return None;
    }
    let Ok(text) = str::from_utf8(word) else {
        return None;
    };
    match text.parse::<u64>() {
        Ok(number) => Some(number),
        Err(_) => None,
    }
}

/// Returns the number below 2^32 that a word writes so, or `None` if it writes none.
pub fn read_small_number(word: &[u8]) -> Option<u32>
    ensures { Reads (IsNumber 32 word.now) result }
{
    let number = read_number(word)?;
    if number >= 1 << 32 {
        return None;
    }
    Some(number as u32)
}

// Whether a number would have a sign, or a leading zero.
fn has_needless_front(word: &[u8]) -> bool
    ensures number { result ≡ true → (number : ℕ) → IsNumber 64 word.now number → ⊥ }
    ensures plain { result ≡ false → IsPlain word.now }
{
    if word.is_empty() {
        return false;
    }
    if word[0] == b'+' {
        return true;
    }
    if word[0] != b'0' {
        return false;
    }
    word.len() > 1
}

/// Returns the bytes that a word writes with two hexadecimal digits each, of either case, or as `-`
/// for none, or `None` if it writes none. `Err` if memory ran out.
pub fn read_bytes(alloc: Global, word: &[u8]) -> Result<Option<Bytes>, AllocError>
    ensures { IfOk result (Reads (IsByteString word.now)) }
{
    if word == b"-".as_slice() {
        return Ok(Some(Bytes::from_vec(Vec::new(alloc))));
    }
    if word.is_empty() {
        return Ok(None);
    }
    match hex::decode(alloc, word) {
        Ok(bytes) => Ok(Some(Bytes::from_vec(bytes))),
        Err(FromHexError::OutOfMemory) => Err(AllocError),
        Err(FromHexError::OddLength) => Ok(None),
        Err(FromHexError::InvalidStringLength) => Ok(None),
        Err(FromHexError::InvalidHexCharacter { c: _, index: _ }) => Ok(None),
    }
}
