//! Texts as they are read.

ghost use Rattle.std.specs.Prelude.{◌≡◌, ◌<◌, ◌≤◌, ◌+◌, ◌*◌, ℕ, List, length, drop, Some, None, IfOk, IfSome, IfNone};
ghost use Rattle.hex.specs.Hex.{hex_digit_value};
ghost use Rattle.texts.specs.Texts.{IsText, behind_backslash, front_of, of_digits};

use std::alloc::{AllocError, Global};

/// Returns the bytes that a text spells: `\\` is a backslash, `\x` with two hexadecimal digits of
/// either case is that byte, and any other byte is itself. `None` if a backslash begins neither.
pub fn read_text(alloc: Global, text: &[u8]) -> Result<Option<Vec<u8>>, AllocError>
    ensures found { IfOk result (λ read. IfSome read (λ bytes. IsText text.now bytes.items)) }
    ensures none { IfOk result (λ read. IfNone read ((bytes : List ℕ) → IsText text.now bytes → ⊥)) }
{
    let mut bytes = Vec::new(alloc);
    let mut at = 0;
    while at < text.len() {
        let Some((byte, used)) = first_of(&text[at..]) else {
            return Ok(None);
        };
        bytes.push(byte)?;
        at += used;
    }
    Ok(Some(bytes))
}

// The byte that the text begins with, and how many bytes of the text it takes.
fn first_of(text: &[u8]) -> Option<(u8, usize)>
    ensures found { IfSome result (λ p. front_of text.now ≡ Some (p.0, drop p.1 text.now)) }
    ensures none { IfNone result (front_of text.now ≡ None) }
    ensures used { IfSome result (λ p. (0 < p.1) × (p.1 ≤ length text.now)) }
{
    let [first, rest @ ..] = text else {
        return None;
    };
    if *first != b'\\' {
        return Some((*first, 1));
    }
    let (byte, used) = escape_of(rest)?;
    Some((byte, used + 1))
}

// The same after a backslash.
fn escape_of(text: &[u8]) -> Option<(u8, usize)>
    ensures found { IfSome result (λ p. behind_backslash text.now ≡ Some (p.0, drop p.1 text.now)) }
    ensures none { IfNone result (behind_backslash text.now ≡ None) }
    ensures used { IfSome result (λ p. (0 < p.1) × (p.1 ≤ length text.now)) }
{
    let [kind, digits @ ..] = text else {
        return None;
    };
    if *kind == b'\\' {
        return Some((b'\\', 1));
    }
    if *kind != b'x' {
        return None;
    }
    let byte = byte_of(digits)?;
    Some((byte, 3))
}

// The byte of the two digits that the text begins with.
fn byte_of(digits: &[u8]) -> Option<u8>
    ensures found { IfSome result (λ byte. of_digits digits.now ≡ Some (byte, drop 2 digits.now)) }
    ensures none { IfNone result (of_digits digits.now ≡ None) }
    ensures used { IfSome result (λ byte. 2 ≤ length digits.now) }
{
    let [high, low, ..] = digits else {
        return None;
    };
    let high = digit_of(*high)?;
    let low = digit_of(*low)?;
    Some(high * 16 + low)
}

// The value of a hexadecimal digit of either case.
fn digit_of(digit: u8) -> Option<u8>
    ensures value { result ≡ hex_digit_value digit }
    ensures range { IfSome result (λ value. value < 16) }
{
    if 65 <= digit && digit <= 70 {
        return Some(digit - 55);
    }
    if 97 <= digit && digit <= 102 {
        return Some(digit - 87);
    }
    if 48 <= digit && digit <= 57 {
        return Some(digit - 48);
    }
    None
}
