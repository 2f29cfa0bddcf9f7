//! Data blocks, read from a store (LevelDB's `doc/table_format.md`, "data block").

ghost use Rattle.std.specs.Prelude.{◌≡◌, ◌<◌, ◌≤◌, ◌^◌, ◌++◌, ℕ, List, length, map, IfOk, IfErr, OnOk, MatchBool, option_copied};
ghost use Rattle.std.specs.List.{flat_map};
ghost use Rattle.block.specs.Block.{IsBlock, Refuses as RefusesBlock};
ghost use Rattle.ikey.specs.Below.{IsBelowInternal};
ghost use Rattle.ikey.specs.Entries.{Pair};
ghost use Rattle.table.specs.Intact.{AreWithin, BeginsWithKey};
ghost use Rattle.table.specs.Reading.{Reads, Finds, Answers, Refuses, IsNoted};
ghost use Rattle.table.specs.Refusals.{IsDamaged, IsUnsupported, IsOfOne};
ghost use Rattle.table.specs.Table.{HasBlock, AreData, IsTable, ArePairs};
ghost use Rattle.table.specs.Views.{pairs_of};
ghost use Rattle.table.specs.declared.handle.Place.{Place as PlaceValue};

use crate::handle::{Handle, Place};
use crate::noting::{note_parts, refuse_block};
use crate::pair::{KeyValue, pairs_in};
use crate::reading::read_stored;
use block::{Block, Bounds};
use coding::{Damage, DbError, FileKind};
use ikey::{Internal, KeyOrder, unpack};
use std::alloc::{AllocError, Global};
use store::{Store, Why};

/// Reads the data block at a handle. Corrupt and Unsupported as `read_stored`; Corrupt too if the
/// keys don't rise.
pub fn read_data<K: KeyOrder, S: Store>(
    alloc: Global,
    store: &mut S,
    name: &str,
    known: u64,
    handle: Handle,
) -> Result<Block<Internal<K>>, DbError>
    ensures reads { Reads (S.facts store.old) (S.facts store.new) }
    ensures found { IfOk result (λ block. Finds (S.facts store.old) (S.facts store.new) name.now (λ file. HasBlock K.cmp file handle block.pairs)) }
    ensures short { OnOk result (handle.size ≤ 2 ^ 30) }
    ensures stood { OnOk result ((S.facts store.new).failures ≡ (S.facts store.old).failures) }
    ensures noted { IfErr result (λ e. IsNoted name.now e (S.told store.new)) }
    ensures refused { IfErr result (λ e. Refuses e (S.facts store.old) (S.facts store.new) name.now
        (λ file. IsDamaged K.cmp file handle) (λ file. IsUnsupported file handle)) }
{
    let bytes = read_stored(alloc, store, name, known, handle, Vec::new(alloc))?;
    match Block::<Internal<K>>::open(alloc, bytes) {
        Ok(block) => Ok(block),
        Err(e) => Err(refuse_block(store, name, handle.offset, e)),
    }
}

/// Reads the data block of a place, after one of this bound, into `room` if it fits. Corrupt and
/// Unsupported as `read_data`; Corrupt too if a key is no internal key, isn't above that bound, or
/// is above its own.
pub fn read_within<K: KeyOrder, S: Store>(
    alloc: Global,
    store: &mut S,
    name: &str,
    known: u64,
    place: &Place,
    floor: Option<&[u8]>,
    room: Vec<u8>,
) -> Result<Block<Internal<K>>, DbError>
    ensures reads { Reads (S.facts store.old) (S.facts store.new) }
    ensures found { IfOk result (λ block. Finds (S.facts store.old) (S.facts store.new) name.now (λ file. HasBlock K.cmp file place.now.handle block.pairs)) }
    ensures within { IfOk result (λ block. AreWithin K.cmp (option_copied floor.entry) place.now.key block.pairs) }
    ensures stood { OnOk result ((S.facts store.new).failures ≡ (S.facts store.old).failures) }
    ensures noted { IfErr result (λ e. IsNoted name.now e (S.told store.new)) }
    ensures refused { IfErr result (λ e. Refuses e (S.facts store.old) (S.facts store.new) name.now
        (λ file. ((pairs : List Pair) → HasBlock K.cmp file place.now.handle pairs → AreWithin K.cmp (option_copied floor.entry) place.now.key pairs → ⊥)
        × (IsUnsupported file place.now.handle → ⊥)) (λ file. IsUnsupported file place.now.handle)) }
{
    let bytes = read_stored(alloc, store, name, known, place.handle, room)?;
    let bounds = Bounds {
        floor,
        most: place.key.as_slice(),
    };
    let block = match Block::<Internal<K>>::open_between(alloc, bytes, bounds) {
        Ok(block) => block,
        Err(e) => return Err(refuse_block(store, name, place.handle.offset, e)),
    };
    if !begins_with_key::<K>(&block) {
        let at = Some(place.handle.offset);
        note_parts(store, name, at, Why::KeyKind);
        return Err(DbError::Corrupt(FileKind::Table, Damage::Kind));
    }
    Ok(block)
}

// Whether its first key is an internal key, if it has one.
fn begins_with_key<K: KeyOrder>(block: &Block<Internal<K>>) -> bool
    ensures { MatchBool result (BeginsWithKey block.now.pairs) (BeginsWithKey block.now.pairs → ⊥) }
{
    match block.first_key() {
        None => true,
        Some(key) => match unpack(key) {
            Some(_) => true,
            None => false,
        },
    }
}

/// Reads the pairs of the data blocks of these places, in order.
pub fn read_all<K: KeyOrder, S: Store>(
    alloc: Global,
    store: &mut S,
    name: &str,
    known: u64,
    places: &[Place],
) -> Result<Vec<KeyValue>, DbError>
    ensures reads { Reads (S.facts store.old) (S.facts store.new) }
    ensures found { IfOk result (λ found. Answers (S.facts store.old) (S.facts store.new) name.now
        (λ file. (blocks : List (List Pair)) → AreData K.cmp file places.now blocks → pairs_of found.items ≡ flat_map (λ (pairs : List Pair). pairs) blocks)) }
    ensures stood { OnOk result ((S.facts store.new).failures ≡ (S.facts store.old).failures) }
    ensures noted { IfErr result (λ e. IsNoted name.now e (S.told store.new)) }
    ensures refused { IfErr result (λ e. Refuses e (S.facts store.old) (S.facts store.new) name.now
        (λ file. IsOfOne (IsDamaged K.cmp file) places.now) (λ file. IsOfOne (IsUnsupported file) places.now)) }
{
    let mut found = Vec::new(alloc);
    for place in places {
        let block = read_data::<K, S>(alloc, store, name, known, place.handle)?;
        push_pairs(alloc, &mut found, block)?;
    }
    Ok(found)
}

// Adds the pairs of a block at the end.
fn push_pairs<K: KeyOrder>(
    alloc: Global,
    found: &mut Vec<KeyValue>,
    block: Block<Internal<K>>,
) -> Result<(), AllocError>
    ensures { OnOk result (pairs_of found.new.items ≡ pairs_of found.old.items ++ block.pairs) }
{
    let mut pairs = pairs_in(alloc, block)?;
    found.append(&mut pairs)?;
    Ok(())
}
