//! Finding an entry by its key.

ghost use Rattle.std.specs.Prelude.{◌≡◌, ◌<◌, ◌≤◌, ◌+◌, ℕ, List, length, slice_index_or, IfOk, IfErr, OnOk};
ghost use Rattle.std.specs.List.{flat_map};
ghost use Rattle.ikey.specs.Below.{IsBelowInternal};
ghost use Rattle.ikey.specs.Entries.{Pair};
ghost use Rattle.table.specs.Reading.{Reads, Finds, Answers, Refuses, IsNoted};
ghost use Rattle.table.specs.Refusals.{IsDamaged, IsUnsupported, IsOfOne};
ghost use Rattle.table.specs.Seeking.{IsFirstOf, found_pair};
ghost use Rattle.table.specs.Table.{HasBlock, AreData};
ghost use Rattle.table.specs.declared.handle.Place.{Place as PlaceValue};

use crate::data::read_data;
use crate::handle::{Handle, Place};
use crate::pair::KeyValue;
use block::{Block, BlockCursor};
use coding::{Bytes, DbError};
use ikey::{EntryOrder, Internal, KeyOrder};
use std::alloc::{AllocError, Global};
use std::rc::Rc;
use store::Store;

/// Returns the first entry of these places' blocks that isn't below the target.
pub fn seek_from<K: KeyOrder, S: Store>(
    alloc: Global,
    store: &mut S,
    name: &str,
    known: u64,
    places: &[Place],
    target: &[u8],
) -> Result<Option<KeyValue>, DbError>
    ensures reads { Reads (S.facts store.old) (S.facts store.new) }
    ensures found { IfOk result (λ found. Answers (S.facts store.old) (S.facts store.new) name.now
        (λ file. (blocks : List (List Pair)) → AreData K.cmp file places.now blocks
        → IsFirstOf (IsBelowInternal K.cmp) target.now (flat_map (λ (pairs : List Pair). pairs) blocks) (found_pair found))) }
    ensures stood { OnOk result ((S.facts store.new).failures ≡ (S.facts store.old).failures) }
    ensures noted { IfErr result (λ e. IsNoted name.now e (S.told store.new)) }
    ensures refused { IfErr result (λ e. Refuses e (S.facts store.old) (S.facts store.new) name.now
        (λ file. IsOfOne (IsDamaged K.cmp file) places.now) (λ file. IsOfOne (IsUnsupported file) places.now)) }
{
    for place in places {
        let block = read_data::<K, S>(alloc, store, name, known, place.handle)?;
        if let Some(found) = seek_in::<K>(alloc, block, target)? {
            return Ok(Some(found));
        }
    }
    Ok(None)
}

// The first pair of a block that isn't below the target.
fn seek_in<K: KeyOrder>(
    alloc: Global,
    block: Block<Internal<K>>,
    target: &[u8],
) -> Result<Option<KeyValue>, AllocError>
    ensures { IfOk result (λ found. IsFirstOf (IsBelowInternal K.cmp) target.now block.pairs (found_pair found)) }
{
    let mut cursor = BlockCursor::new(alloc, Rc::new(alloc, block)?);
    cursor.seek(target)?;
    if !cursor.stands() {
        return Ok(None);
    }
    let key = Bytes::copied_from(alloc, cursor.key())?;
    let value = Bytes::copied_from(alloc, cursor.value())?;
    Ok(Some(KeyValue { key, value }))
}
