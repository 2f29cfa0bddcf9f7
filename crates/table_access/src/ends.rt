//! The first and the last block of a table, held against the keys of its version edit.

ghost use Rattle.std.specs.Prelude.{◌≡◌, ℕ, suc, IfOk, MatchBool};
ghost use Rattle.table_access.specs.Ends.{BeginsAt, EndsAt, HasEnds};

use block::{Block, BlockCursor};
use edits::PlacedTable;
use ikey::{Internal, KeyOrder, same_bytes};
use std::alloc::{AllocError, Global};
use std::rc::Rc;

/// Returns whether the block of this index, of so many, begins and ends as the edit says, if it is
/// the first or the last. Of another one no key is compared.
pub fn has_ends<K: KeyOrder>(
    alloc: Global,
    placed: &PlacedTable,
    count: usize,
    index: usize,
    block: &Rc<Block<Internal<K>>>,
) -> Result<bool, AllocError>
    ensures { IfOk result (λ has. MatchBool has (HasEnds placed.now count index block.now.value.pairs)
        (HasEnds placed.now count index block.now.value.pairs → ⊥)) }
{
    if !begins_right(placed, index, block) {
        return Ok(false);
    }
    let ends = ends_right(alloc, placed, count, index, block)?;
    Ok(ends)
}

fn begins_right<K: KeyOrder>(placed: &PlacedTable, index: usize, block: &Block<Internal<K>>) -> bool
    ensures { MatchBool result (index ≡ 0 → BeginsAt placed.now.table.smallest block.now.pairs)
        ((index ≡ 0 → BeginsAt placed.now.table.smallest block.now.pairs) → ⊥) }
{
    if index != 0 {
        return true;
    }
    let Some(first) = block.first_key() else {
        return true;
    };
    same_bytes(first, placed.table.smallest.as_slice())
}

fn ends_right<K: KeyOrder>(
    alloc: Global,
    placed: &PlacedTable,
    count: usize,
    index: usize,
    block: &Rc<Block<Internal<K>>>,
) -> Result<bool, AllocError>
    ensures { IfOk result (λ ends. MatchBool ends (suc index ≡ count → EndsAt placed.now.table.largest block.now.value.pairs)
        ((suc index ≡ count → EndsAt placed.now.table.largest block.now.value.pairs) → ⊥)) }
{
    let Some(last) = count.checked_sub(1) else {
        return Ok(true);
    };
    if index != last {
        return Ok(true);
    }
    let mut cursor = BlockCursor::new(alloc, block.clone()?);
    cursor.last()?;
    if !cursor.stands() {
        return Ok(true);
    }
    Ok(same_bytes(cursor.key(), placed.table.largest.as_slice()))
}
