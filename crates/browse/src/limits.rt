//! Ranges of keys, in the order of bytes.

ghost use Rattle.std.specs.Prelude.{◌≡◌, ◌<◌, ◌↔◌, ◌&&◌, ℕ, List, All, IfOk, IfSome, IsTrue, Some};
ghost use Rattle.std.specs.Cmp.Lexicographic.{slice_cmp};
ghost use Rattle.std.specs.Ordering.{nat_cmp};
ghost use Rattle.engine.specs.Ranges.{BeginsWith, is_before_end, is_from, is_in_range};
ghost use Rattle.browse.specs.Bounds.{IsAskedFor, given};

use coding::Bytes;
use engine::KeyRange;
use ikey::{Bytewise, KeyOrder};
use std::alloc::{AllocError, Global};
use std::cmp::Ordering;

/// Returns the range of the keys from one on, before another, of those that begin so: each only if
/// it is given, in the order of bytes. `Err` if memory ran out.
pub fn range_of(
    alloc: Global,
    from: Option<&[u8]>,
    to: Option<&[u8]>,
    prefix: Option<&[u8]>,
) -> Result<KeyRange, AllocError>
    ensures { IfOk result (λ keys. (key : List ℕ) → All (λ byte. byte < 256) key →
        IsTrue (is_in_range (slice_cmp nat_cmp) keys key) ↔ IsAskedFor (given from.entry) (given to.entry) (given prefix.entry) key) }
{
    let KeyRange {
        from: first,
        to: end,
    } = keys_beginning(alloc, prefix)?;
    let from = later(alloc, first, from)?;
    let to = earlier(alloc, end, to)?;
    Ok(KeyRange { from, to })
}

// The keys that begin so; all, if nothing is given.
fn keys_beginning(alloc: Global, prefix: Option<&[u8]>) -> Result<KeyRange, AllocError>
    ensures { IfOk result (λ keys. (key : List ℕ) → All (λ byte. byte < 256) key →
        IsTrue (is_in_range (slice_cmp nat_cmp) keys key) ↔ IfSome (given prefix.entry) (λ begins. BeginsWith begins key)) }
{
    match prefix {
        None => Ok(KeyRange::all()),
        Some(prefix) => KeyRange::with_prefix(alloc, prefix),
    }
}

// The later of two starts.
fn later(
    alloc: Global,
    first: Option<Bytes>,
    from: Option<&[u8]>,
) -> Result<Option<Bytes>, AllocError>
    ensures { IfOk result (λ start. (key : List ℕ) → is_from (slice_cmp nat_cmp) start key ≡ is_from (slice_cmp nat_cmp) first key && is_from (slice_cmp nat_cmp) (given from.entry) key) }
{
    let Some(from) = from else {
        return Ok(first);
    };
    let Some(first) = first else {
        return Ok(Some(Bytes::copied_from(alloc, from)?));
    };
    if is_less(first.as_slice(), from) {
        return Ok(Some(Bytes::copied_from(alloc, from)?));
    }
    Ok(Some(first))
}

// The earlier of two ends.
fn earlier(
    alloc: Global,
    end: Option<Bytes>,
    to: Option<&[u8]>,
) -> Result<Option<Bytes>, AllocError>
    ensures { IfOk result (λ bound. (key : List ℕ) → is_before_end (slice_cmp nat_cmp) bound key ≡ is_before_end (slice_cmp nat_cmp) end key && is_before_end (slice_cmp nat_cmp) (given to.entry) key) }
{
    let Some(to) = to else {
        return Ok(end);
    };
    let Some(end) = end else {
        return Ok(Some(Bytes::copied_from(alloc, to)?));
    };
    if is_less(to, end.as_slice()) {
        return Ok(Some(Bytes::copied_from(alloc, to)?));
    }
    Ok(Some(end))
}

// Whether a key comes before another.
fn is_less(key: &[u8], other: &[u8]) -> bool
    ensures { result ≡ is_before_end (slice_cmp nat_cmp) (Some other.now) key.now }
{
    Bytewise::compare(key, other) == Ordering::Less
}
