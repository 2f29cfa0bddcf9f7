//! What is logged, by key, so that the oldest entry of a key is found.

ghost use Rattle.std.specs.Prelude.{◌≡◌, ◌<◌, ◌≤◌, ◌+◌, ℕ, length, slice_index_or, IfOk, MatchBool};
ghost use Rattle.std.specs.declared.cmp.Ordering.TheVariants.{Less};
ghost use Rattle.ikey.specs.Orders.{order_of};
ghost use Rattle.recover.specs.declared.logged.Logged.{Logged as Note};
ghost use Rattle.recover.specs.internal.Merging.{age_cmp, AreByAge, IsLogged, IsOlderThanAll, IsNotOlder};

use crate::comparing::is_less;
use crate::table_entries::is_same;
use ikey::{Entry, KeyOrder};
use std::alloc::{AllocError, Global};
use std::cmp::Ordering;

/// Holds the key of a logged entry, and its sequence number.
#[derive(Clone, Copy)]
pub struct Logged<'a> {
    pub key: &'a [u8],
    pub sequence: u64,
}

/// Sorts the logged entries by key, the older of one key first.
pub fn oldest_first<'a, K: KeyOrder>(
    alloc: Global,
    entries: &'a [Entry],
) -> Result<Vec<Logged<'a>>, AllocError>
    ensures { IfOk result (λ logged. IsLogged (order_of K.name K.cmp) entries.now logged.items) }
{
    let mut logged = Vec::with_capacity(alloc, entries.len())?;
    for entry in entries {
        logged.push(Logged {
            key: entry.key.as_slice(),
            sequence: entry.sequence,
        })?;
    }
    logged.sort_unstable_by(|a, b| compare_logged::<K>(a, b));
    Ok(logged)
}

// By key, then by sequence number.
fn compare_logged<K: KeyOrder>(a: &Logged<'_>, b: &Logged<'_>) -> Ordering
    ensures { result ≡ age_cmp K.cmp a.now b.now }
{
    match K::compare(a.key, b.key) {
        Ordering::Less => Ordering::Less,
        Ordering::Equal => a.sequence.cmp(&b.sequence),
        Ordering::Greater => Ordering::Greater,
    }
}

/// Returns whether an entry of this key and sequence number is older than all that is logged of its
/// key: than the first of them.
pub fn is_older<K: KeyOrder>(logged: &[Logged<'_>], key: &[u8], sequence: u64) -> bool
    requires { AreByAge (order_of K.name K.cmp) logged.now }
    ensures { MatchBool result (IsOlderThanAll logged.now key.now sequence) (IsNotOlder logged.now key.now sequence) }
{
    let Some(first) = logged.get(first_of::<K>(logged, key)) else {
        return true;
    };
    if !is_same(first.key, key) {
        return true;
    }
    sequence < first.sequence
}

// The place of the first one whose key isn't before this one, or their number.
fn first_of<K: KeyOrder>(logged: &[Logged<'_>], key: &[u8]) -> usize
    ensures inside { result ≤ length logged.now }
    ensures front { (i : ℕ) (d : Note) → result ≡ i + 1 → K.cmp (slice_index_or logged.now i d).key.now key.now ≡ Less }
    ensures found { (d : Note) → result < length logged.now → K.cmp (slice_index_or logged.now result d).key.now key.now ≡ Less → ⊥ }
{
    let mut low = 0;
    let mut high = logged.len();
    while low < high {
        let middle = low + (high - low) / 2;
        if is_less::<K>(logged[middle].key, key) {
            low = middle + 1;
        } else {
            high = middle;
        }
    }
    low
}
