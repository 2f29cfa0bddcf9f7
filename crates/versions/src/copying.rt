//! Copies of tables' descriptions.

ghost use Rattle.std.specs.Prelude.{◌≡◌, ◌++◌, IfOk, OnOk, filter};
ghost use Rattle.versions.specs.Ranges.{meets};

use crate::key_range::{KeyRange, meets};
use edits::{PlacedTable, copy_of};
use ikey::KeyOrder;
use std::alloc::{AllocError, Global};

/// Copies these tables.
pub fn copies_of(alloc: Global, tables: &[PlacedTable]) -> Result<Vec<PlacedTable>, AllocError>
    ensures { IfOk result (λ copies. copies.items ≡ tables.now) }
{
    let mut copies = Vec::with_capacity(alloc, tables.len())?;
    for placed in tables {
        copies.push(copy_of(alloc, placed)?)?;
    }
    Ok(copies)
}

/// Adds tables like those of these that the range meets.
pub fn push_meeting<K: KeyOrder>(
    alloc: Global,
    copies: &mut Vec<PlacedTable>,
    range: &KeyRange<'_>,
    tables: &[PlacedTable],
) -> Result<(), AllocError>
    ensures { OnOk result (copies.new.items ≡ copies.old.items ++ filter (meets K.cmp range.now.low.now range.now.high.now) tables.now) }
{
    for placed in tables {
        if meets::<K>(range, placed) {
            copies.push(copy_of(alloc, placed)?)?;
        }
    }
    Ok(())
}
