//! One entry of a block (LevelDB's table/block_builder.cc).

ghost use Rattle.std.specs.Prelude.{◌≡◌, ◌<◌, ◌≤◌, ◌+◌, ◌-◌, ◌^◌, ◌++◌, List, ℕ, nat_eq, length, take, drop, OnOk, IfNone, IfSome};
ghost use Rattle.std.specs.List.{common_prefix_len};
ghost use Rattle.coding.specs.Fixed.{fixed64};
ghost use Rattle.coding.specs.Varint.{IsVarint};
ghost use Rattle.block.specs.Block.{IsEntry};

use coding::{get_varint32, put_varint32};
use std::alloc::AllocError;

/// Holds an entry that is read. Its key is the first `shared` bytes of the key before it, and
/// `rest`.
#[derive(Clone, Copy, Debug)]
pub struct Entry<'a> {
    pub shared: usize,
    pub rest: &'a [u8],
    pub value: &'a [u8],
}

/// Reads the entry at the front, and returns it with the bytes after it. None: the bytes end too
/// soon, or a length isn't a number of at most 32 bits in its shortest form.
pub fn entry_at(bytes: &[u8]) -> Option<(Entry<'_>, &[u8])>
    ensures found { IfSome result (λ found. (front : List ℕ) × IsEntry found.0.shared found.0.rest.now found.0.value.now front × (bytes.now ≡ front ++ found.1.now)) }
    ensures none { IfNone result ((shared : ℕ) (rest value front behind : List ℕ) → IsEntry shared rest value front → bytes.now ≡ front ++ behind → ⊥) }
{
    let (shared, behind) = length_at(bytes)?;
    let (rest_length, behind) = length_at(behind)?;
    let (value_length, behind) = length_at(behind)?;
    let (rest, behind) = split_front(behind, rest_length)?;
    let (value, behind) = split_front(behind, value_length)?;
    Some((
        Entry {
            shared,
            rest,
            value,
        },
        behind,
    ))
}

// The number of at most 32 bits at the front, and the bytes after it. Mostly it takes one byte.
#[inline(always)]
fn length_at(bytes: &[u8]) -> Option<(usize, &[u8])>
    ensures range { IfSome result (λ found. found.0 < 2 ^ 32) }
    ensures found { IfSome result (λ found. (front : List ℕ) × IsVarint front found.0 × (bytes.now ≡ front ++ found.1.now)) }
    ensures none { IfNone result ((number : ℕ) (front behind : List ℕ) → number < 2 ^ 32 → IsVarint front number → bytes.now ≡ front ++ behind → ⊥) }
{
    match bytes {
        [first, behind @ ..] if *first < 128 => Some((usize::from(*first), behind)),
        _ => long_length_at(bytes),
    }
}

// The same, of however many bytes.
fn long_length_at(bytes: &[u8]) -> Option<(usize, &[u8])>
    ensures range { IfSome result (λ found. found.0 < 2 ^ 32) }
    ensures found { IfSome result (λ found. (front : List ℕ) × IsVarint front found.0 × (bytes.now ≡ front ++ found.1.now)) }
    ensures none { IfNone result ((number : ℕ) (front behind : List ℕ) → number < 2 ^ 32 → IsVarint front number → bytes.now ≡ front ++ behind → ⊥) }
{
    let (number, used) = get_varint32(bytes)?;
    let (_, behind) = bytes.split_at(used);
    Some((number as usize, behind))
}

fn split_front(bytes: &[u8], len: usize) -> Option<(&[u8], &[u8])>
    ensures found { IfSome result (λ found. (bytes.now ≡ found.0.now ++ found.1.now) × (length found.0.now ≡ len)) }
    ensures none { IfNone result (length bytes.now < len) }
{
    if bytes.len() < len {
        return None;
    }
    Some(bytes.split_at(len))
}

/// Writes an entry at the end, or a beginning of it if memory runs out.
pub fn put_entry(
    out: &mut Vec<u8>,
    shared: usize,
    rest: &[u8],
    value: &[u8],
) -> Result<(), AllocError>
    requires shared { shared < 2 ^ 32 }
    requires rest { length rest.now < 2 ^ 32 }
    requires value { length value.now < 2 ^ 32 }
    ensures written { OnOk result ((bytes : List ℕ) × IsEntry shared rest.now value.now bytes × (out.new.items ≡ out.old.items ++ bytes)) }
    ensures front { take (length out.old.items) out.new.items ≡ out.old.items }
{
    put_varint32(out, shared as u32)?;
    put_varint32(out, rest.len() as u32)?;
    put_varint32(out, value.len() as u32)?;
    out.extend_from_slice(rest)?;
    out.extend_from_slice(value)?;
    Ok(())
}

/// Returns how many bytes at the front of the two are the same.
pub fn shared_length(a: &[u8], b: &[u8]) -> usize
    ensures value { result ≡ common_prefix_len nat_eq a.now b.now }
    ensures in_a { result ≤ length a.now }
    ensures in_b { result ≤ length b.now }
{
    // Eight bytes are compared as one number.
    let mut shared = 0;
    while let Some((x, y)) = words_at(a, b, shared) {
        if x != y {
            return shared + shared_in_words(x, y);
        }
        shared += 8;
    }
    shared_from(a, b, shared)
}

// The numbers that the eight bytes from `start` on spell in each, if both have so many.
#[inline(always)]
fn words_at(a: &[u8], b: &[u8], start: usize) -> Option<(u64, u64)>
    ensures first { IfSome result (λ words. (start + 8 ≤ length a.now) × (take 8 (drop start a.now) ≡ fixed64 words.0)) }
    ensures second { IfSome result (λ words. (start + 8 ≤ length b.now) × (take 8 (drop start b.now) ≡ fixed64 words.1)) }
{
    Some((word_at(a, start)?, word_at(b, start)?))
}

// The number that the eight bytes from `start` on spell, the first of which weighs least.
#[inline(always)]
fn word_at(bytes: &[u8], start: usize) -> Option<u64>
    ensures word { IfSome result (λ word. (start + 8 ≤ length bytes.now) × (take 8 (drop start bytes.now) ≡ fixed64 word)) }
{
    let (front, _) = bytes.get(start..)?.split_first_chunk::<8>()?;
    Some(u64::from_le_bytes(*front))
}

// How many bytes are the same before the first that differs: it has the lowest bit that differs.
#[inline(always)]
fn shared_in_words(x: u64, y: u64) -> usize
    requires differ { x ≡ y → ⊥ }
    ensures small { result < 8 }
    ensures value { result ≡ common_prefix_len nat_eq (fixed64 x) (fixed64 y) }
{
    ((x ^ y).trailing_zeros() / 8) as usize
}

// How many bytes are the same if the first `start` are: byte by byte.
fn shared_from(a: &[u8], b: &[u8], start: usize) -> usize
    requires in_a { start ≤ length a.now }
    requires in_b { start ≤ length b.now }
    ensures value { result ≡ start + common_prefix_len nat_eq (drop start a.now) (drop start b.now) }
{
    let mut shared = start;
    while shared < a.len() && shared < b.len() && a[shared] == b[shared] {
        shared += 1;
    }
    shared
}
