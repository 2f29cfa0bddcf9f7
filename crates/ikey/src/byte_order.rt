//! Bytes compared a word at a time.

ghost use Rattle.std.specs.Prelude.{◌≡◌, ◌+◌, ◌<◌, ◌≤◌, ◌++◌, ℕ, min, length, take, drop, get_or, MatchBool, ⊤};
ghost use Rattle.std.specs.Ordering.{nat_cmp};
ghost use Rattle.std.specs.declared.cmp.Ordering.TheVariants.{Less};
ghost use Rattle.std.specs.Cmp.Lexicographic.{slice_cmp};
ghost use Rattle.ikey.specs.Words.{big_endian};

use std::cmp::Ordering;

/// Compares by the first byte that differs; a proper prefix comes first. Eight bytes are compared
/// as one number, the first of which weighs most. So are the last eight that both have, though some
/// of them were compared before: these are equal, and an equal front decides nothing.
#[inline(always)]
pub fn compare_bytes(a: &[u8], b: &[u8]) -> Ordering
    ensures { result ≡ slice_cmp nat_cmp a.now b.now }
{
    if a.len() < 8 || b.len() < 8 {
        return compare_short(a, b);
    }
    let x = word_at(a, 0);
    let y = word_at(b, 0);
    if x < y {
        return Ordering::Less;
    }
    if y < x {
        return Ordering::Greater;
    }
    compare_second(a, b)
}

// The same for less than a word, apart so that callers in hot loops stay small.
#[inline(never)]
fn compare_short(a: &[u8], b: &[u8]) -> Ordering
    ensures { result ≡ slice_cmp nat_cmp a.now b.now }
{
    a.cmp(b)
}

// The same if the first words are equal. Up to sixteen bytes the second word is the last one, so
// that no loop is needed; of longer keys mostly one of two words decides.
#[inline(always)]
fn compare_second(a: &[u8], b: &[u8]) -> Ordering
    requires a_has_word { 8 ≤ length a.now }
    requires b_has_word { 8 ≤ length b.now }
    requires same { take 8 a.now ≡ take 8 b.now }
    ensures { result ≡ slice_cmp nat_cmp a.now b.now }
{
    let last = a.len().min(b.len()) - 8;
    let at = last.min(8);
    let x = word_at(a, at);
    let y = word_at(b, at);
    if x < y {
        return Ordering::Less;
    }
    if y < x {
        return Ordering::Greater;
    }
    if last <= 8 {
        return a.len().cmp(&b.len());
    }
    compare_rest(a, b)
}

// The same if the first two words are equal, and more follows.
#[inline(never)]
fn compare_rest(a: &[u8], b: &[u8]) -> Ordering
    requires a_has_words { 16 ≤ length a.now }
    requires b_has_words { 16 ≤ length b.now }
    requires same { take 16 a.now ≡ take 16 b.now }
    ensures { result ≡ slice_cmp nat_cmp a.now b.now }
{
    let last = a.len().min(b.len()) - 8;
    let mut at = 16;
    while at < last {
        let x = word_at(a, at);
        let y = word_at(b, at);
        if x < y {
            return Ordering::Less;
        }
        if y < x {
            return Ordering::Greater;
        }
        at += 8;
    }
    compare_last(a, b, last)
}

// The same if all before the shorter one's last word is equal.
#[inline(always)]
fn compare_last(a: &[u8], b: &[u8], last: usize) -> Ordering
    requires is_last { last + 8 ≡ min (length a.now) (length b.now) }
    requires same { take last a.now ≡ take last b.now }
    ensures { result ≡ slice_cmp nat_cmp a.now b.now }
{
    let x = word_at(a, last);
    let y = word_at(b, last);
    if x < y {
        return Ordering::Less;
    }
    if y < x {
        return Ordering::Greater;
    }
    a.len().cmp(&b.len())
}

// The number that eight bytes spell. The slice of just eight leaves no test of its length for run
// time.
#[inline(always)]
fn word_at(bytes: &[u8], at: usize) -> u64
    requires { at + 8 ≤ length bytes.now }
    ensures small { (i : ℕ) → get_or bytes.now i 0 < 256 }
    ensures word { result ≡ big_endian 0 (take 8 (drop at bytes.now)) }
{
    let Some((word, _)) = bytes[at..at + 8].split_first_chunk::<8>() else {
        unreachable!()
    };
    u64::from_be_bytes(*word)
}

/// Returns whether the byte of `a` at `shared` is smaller than the first of `rest`: then `a` comes
/// before its first `shared` bytes and `rest`. If one of the two isn't there, false.
#[inline(always)]
pub fn is_less_behind(a: &[u8], shared: usize, rest: &[u8]) -> bool
    ensures { MatchBool result (slice_cmp nat_cmp a.now (take shared a.now ++ rest.now) ≡ Less) ⊤ }
{
    let Some(x) = a.get(shared) else {
        return false;
    };
    let Some(y) = rest.first() else {
        return false;
    };
    *x < *y
}
