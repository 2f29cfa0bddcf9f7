//! Pairs of keys and values, copied out of blocks.

ghost use Rattle.std.specs.Prelude.{◌≡◌, ◌++◌, ◌∷◌, [], IfOk, OnOk};
ghost use Rattle.table.specs.Views.{pairs_of};

use block::{Block, BlockCursor};
use coding::Bytes;
use ikey::EntryOrder;
use std::alloc::{AllocError, Global};
use std::rc::Rc;

/// Holds a key and a value, as a block has them.
#[derive(Debug, Drop)]
pub struct KeyValue {
    /// In a data block the bytes of an internal key: the user key, and eight bytes with sequence
    /// number and kind.
    pub key: Bytes,
    /// The value of a put, and nothing for a delete.
    pub value: Bytes,
}

/// Returns the pairs of a block, in order.
pub fn pairs_in<O: EntryOrder>(alloc: Global, block: Block<O>) -> Result<Vec<KeyValue>, AllocError>
    ensures { IfOk result (λ found. pairs_of found.items ≡ block.pairs) }
{
    let mut cursor = BlockCursor::new(alloc, Rc::new(alloc, block)?);
    let mut found = Vec::new(alloc);
    cursor.first()?;
    while cursor.stands() {
        push_pair(alloc, &mut found, cursor.key(), cursor.value())?;
        cursor.next()?;
    }
    Ok(found)
}

fn push_pair(
    alloc: Global,
    pairs: &mut Vec<KeyValue>,
    key: &[u8],
    value: &[u8],
) -> Result<(), AllocError>
    ensures { OnOk result (pairs_of pairs.new.items ≡ pairs_of pairs.old.items ++ record { key = key.now; value = value.now } ∷ []) }
{
    let key = Bytes::copied_from(alloc, key)?;
    let value = Bytes::copied_from(alloc, value)?;
    pairs.push(KeyValue { key, value })?;
    Ok(())
}
