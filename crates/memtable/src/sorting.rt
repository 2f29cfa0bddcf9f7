//! The numbers of entries in internal order.

ghost use Rattle.std.specs.Prelude.{◌≡◌, ◌<◌, ◌^◌, length, map, IfOk};
ghost use Rattle.std.specs.List.{AllByRecursion};
ghost use Rattle.memtable.specs.Levels.{count_to};
ghost use Rattle.memtable.specs.Newest.{AllDiffer};
ghost use Rattle.memtable.specs.Order.{ordered, nodes_of};
ghost use Rattle.memtable.specs.internal.Ranks.{HasRank, number_of, ranked_cmp};

use crate::ranked::Ranked;
use ikey::{Entry, Front, KeyOrder};
use std::alloc::{AllocError, Global};
use std::cmp::Ordering;

/// Sorts the numbers of the entries, counted from 1, in internal order. No two entries may have the
/// same user key and sequence number.
pub fn sorted<K: KeyOrder>(alloc: Global, entries: &[Entry]) -> Result<Vec<u32>, AllocError>
    requires few { length entries.now < 2 ^ 32 }
    requires new { AllDiffer entries.now }
    ensures { IfOk result (λ nodes. nodes.items ≡ nodes_of (ordered K.cmp entries.now)) }
{
    let mut ranked = ranked_of(alloc, entries)?;
    ranked.sort_unstable_by(|a, b| compare_ranked::<K>(a, b));
    let nodes = numbers_of(alloc, &ranked)?;
    Ok(nodes)
}

// The entries, in their order.
fn ranked_of(alloc: Global, entries: &[Entry]) -> Result<Vec<Ranked<'_>>, AllocError>
    requires { length entries.now < 2 ^ 32 }
    ensures numbers { IfOk result (λ ranked. map number_of ranked.items ≡ count_to (length entries.now)) }
    ensures entries { IfOk result (λ ranked. AllByRecursion (HasRank entries.now) ranked.items) }
{
    let mut ranked = Vec::with_capacity(alloc, entries.len())?;
    for index in 0..entries.len() {
        let entry = &entries[index];
        let key = entry.key.as_slice();
        ranked.push(Ranked {
            front: Front::of(key),
            key,
            sequence: entry.sequence,
            number: index as u32 + 1,
        })?;
    }
    Ok(ranked)
}

// The fronts decide if they can.
#[inline(always)]
fn compare_ranked<K: KeyOrder>(a: &Ranked<'_>, b: &Ranked<'_>) -> Ordering
    ensures { result ≡ ranked_cmp K.cmp a.now b.now }
{
    match K::compare_fronts(a.front, b.front) {
        Ordering::Less => Ordering::Less,
        Ordering::Equal => compare_keys::<K>(a, b),
        Ordering::Greater => Ordering::Greater,
    }
}

// By user key, and of one user key the newer first.
fn compare_keys<K: KeyOrder>(a: &Ranked<'_>, b: &Ranked<'_>) -> Ordering
    ensures { result ≡ ranked_cmp K.cmp a.now b.now }
{
    match K::compare(a.key, b.key) {
        Ordering::Less => Ordering::Less,
        Ordering::Equal => b.sequence.cmp(&a.sequence),
        Ordering::Greater => Ordering::Greater,
    }
}

fn numbers_of(alloc: Global, ranked: &[Ranked<'_>]) -> Result<Vec<u32>, AllocError>
    ensures { IfOk result (λ numbers. numbers.items ≡ map number_of ranked.now) }
{
    let mut numbers = Vec::with_capacity(alloc, ranked.len())?;
    for one in ranked {
        numbers.push(one.number)?;
    }
    Ok(numbers)
}
