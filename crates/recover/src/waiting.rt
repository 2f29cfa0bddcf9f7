//! Tables in the order of their smallest keys, in which a merge begins them.

ghost use Rattle.std.specs.Prelude.{◌≡◌, length, IfOk};
ghost use Rattle.ikey.specs.Orders.{order_of};
ghost use Rattle.recover.specs.internal.Waiting.{AreSorted, AreWaiting, waiting_cmp};

use edits::PlacedTable;
use ikey::{InternalKey, KeyOrder, unpack};
use std::alloc::{AllocError, Global};
use std::cmp::Ordering;

/// Names a table that a merge has yet to begin: its place in the row, and its smallest key.
#[derive(Clone, Copy)]
pub struct Waiting<'a> {
    pub place: usize,
    pub smallest: InternalKey<'a>,
}

/// Returns the tables by their smallest keys, all levels together. A table whose smallest key is no
/// internal key is left out. For n tables it takes n log n comparisons, and copies no key.
pub fn by_smallest<'a, K: KeyOrder>(
    alloc: Global,
    tables: &'a [PlacedTable],
) -> Result<Vec<Waiting<'a>>, AllocError>
    ensures waiting { IfOk result (λ waiting. AreWaiting tables.now (length tables.now) waiting.items) }
    ensures sorted { IfOk result (λ waiting. AreSorted K.cmp waiting.items) }
{
    let mut waiting = waiting_in(alloc, tables)?;
    waiting.sort_unstable_by(|a, b| compare_waiting::<K>(a, b));
    Ok(waiting)
}

// The same in the order of the row.
fn waiting_in<'a>(alloc: Global, tables: &'a [PlacedTable]) -> Result<Vec<Waiting<'a>>, AllocError>
    ensures { IfOk result (λ waiting. AreWaiting tables.now (length tables.now) waiting.items) }
{
    let mut waiting = Vec::with_capacity(alloc, tables.len())?;
    for place in 0..tables.len() {
        let Some(smallest) = unpack(tables[place].table.smallest.as_slice()) else {
            continue;
        };
        waiting.push(Waiting { place, smallest })?;
    }
    Ok(waiting)
}

// By smallest key: its user key, and of one user key the newer first.
fn compare_waiting<K: KeyOrder>(a: &Waiting<'_>, b: &Waiting<'_>) -> Ordering
    ensures { result ≡ waiting_cmp K.cmp a.now b.now }
{
    match K::compare(a.smallest.user, b.smallest.user) {
        Ordering::Less => Ordering::Less,
        Ordering::Equal => b.smallest.sequence.cmp(&a.smallest.sequence),
        Ordering::Greater => Ordering::Greater,
    }
}
