//! The index, which bounds and finds the data blocks (LevelDB's `doc/table_format.md`, "index
//! block").

ghost use Rattle.std.specs.Prelude.{◌≡◌, ◌<◌, ◌^◌, ℕ, List, length, IfOk, IfErr, OnOk};
ghost use Rattle.coding.specs.Errors.{RefusesOnly};
ghost use Rattle.block.specs.Block.{IsBlock, Refuses as RefusesBlock};
ghost use Rattle.ikey.specs.Below.{IsBelowInternal};
ghost use Rattle.ikey.specs.Entries.{Pair};
ghost use Rattle.table.specs.Frame.{ArePlaces, HasIndex};
ghost use Rattle.table.specs.Reading.{Reads, Finds, Refuses, IsNoted};
ghost use Rattle.table.specs.Refusals.{IsUnsupported};
ghost use Rattle.table.specs.declared.handle.Place.{Place as PlaceValue};

use crate::handle::{Handle, Place, whole_handle};
use crate::noting::refuse_block;
use crate::reading::read_stored;
use block::{Block, BlockCursor};
use coding::{Bytes, Damage, DbError, ReadError};
use ikey::{Internal, KeyOrder};
use std::alloc::Global;
use std::rc::Rc;
use store::Store;

// The places that the pairs of an index block are.
fn places_in<K: KeyOrder>(alloc: Global, block: Block<Internal<K>>) -> Result<Vec<Place>, ReadError>
    ensures found { IfOk result (λ places. ArePlaces block.pairs places.items) }
    ensures refused { IfErr result (λ e. RefusesOnly e ((places : List PlaceValue) → ArePlaces block.pairs places → ⊥)) }
{
    let mut cursor = BlockCursor::new(alloc, Rc::new(alloc, block)?);
    let mut places = Vec::new(alloc);
    cursor.first()?;
    while cursor.stands() {
        let Some(handle) = whole_handle(cursor.value()) else {
            return Err(ReadError::Corrupt(Damage::Number));
        };
        let key = Bytes::copied_from(alloc, cursor.key())?;
        places.push(Place { key, handle })?;
        cursor.next()?;
    }
    Ok(places)
}

// The same of the bytes of an index block.
fn open_places<K: KeyOrder>(alloc: Global, bytes: Vec<u8>) -> Result<Vec<Place>, ReadError>
    ensures found { IfOk result (λ places. (pairs : List Pair) × IsBlock (IsBelowInternal K.cmp) bytes.items pairs × ArePlaces pairs places.items) }
    ensures refused { IfErr result (λ e. RefusesBlock e
        ((pairs : List Pair) (places : List PlaceValue) → IsBlock (IsBelowInternal K.cmp) bytes.items pairs → ArePlaces pairs places → ⊥) (2 ^ 30 < length bytes.items)) }
{
    let block = Block::<Internal<K>>::open(alloc, bytes)?;
    match places_in::<K>(alloc, block) {
        Ok(places) => Ok(places),
        Err(e) => Err(e),
    }
}

/// Reads the index. Corrupt and Unsupported as `read_stored`; Corrupt too if the block is no index.
pub fn read_places<K: KeyOrder, S: Store>(
    alloc: Global,
    store: &mut S,
    name: &str,
    known: u64,
    index: Handle,
) -> Result<Vec<Place>, DbError>
    ensures reads { Reads (S.facts store.old) (S.facts store.new) }
    ensures found { IfOk result (λ places. Finds (S.facts store.old) (S.facts store.new) name.now (λ file. HasIndex K.cmp file index places.items × (IsUnsupported file index → ⊥))) }
    ensures stood { OnOk result ((S.facts store.new).failures ≡ (S.facts store.old).failures) }
    ensures noted { IfErr result (λ e. IsNoted name.now e (S.told store.new)) }
    ensures refused { IfErr result (λ e. Refuses e (S.facts store.old) (S.facts store.new) name.now
        (λ file. ((places : List PlaceValue) → HasIndex K.cmp file index places → ⊥) × (IsUnsupported file index → ⊥)) (λ file. IsUnsupported file index)) }
{
    let bytes = read_stored(alloc, store, name, known, index, Vec::new(alloc))?;
    match open_places::<K>(alloc, bytes) {
        Ok(places) => Ok(places),
        Err(e) => Err(refuse_block(store, name, index.offset, e)),
    }
}
