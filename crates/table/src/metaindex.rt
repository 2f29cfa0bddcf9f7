//! The metaindex, which names the filter block (LevelDB's `doc/table_format.md`, "metaindex").

ghost use Rattle.std.specs.Prelude.{◌≡◌, ◌<◌, ◌^◌, ℕ, List, Option, length, IfOk, IfErr, OnOk};
ghost use Rattle.coding.specs.Errors.{RefusesOnly};
ghost use Rattle.block.specs.Block.{IsBlock, Refuses as RefusesBlock};
ghost use Rattle.filter.specs.Blocks.{IsFilterBlock};
ghost use Rattle.ikey.specs.Below.{IsBelowPlain};
ghost use Rattle.ikey.specs.Entries.{Pair};
ghost use Rattle.table.specs.Frame.{NamesFilter, HasMetaindex, HasFilter};
ghost use Rattle.table.specs.Reading.{Reads, Finds, Refuses, IsNoted};
ghost use Rattle.table.specs.Refusals.{IsUnsupported, IsFilterUnsupported};
ghost use Rattle.table.specs.Stored.{IsStored};
ghost use Rattle.table.specs.Views.{pairs_of};
ghost use Rattle.table.specs.declared.handle.Handle.{Handle as HandleValue};

use crate::handle::{Handle, whole_handle};
use crate::noting::{refuse_block, refuse_filter};
use crate::pair::{KeyValue, pairs_in};
use crate::reading::read_stored;
use block::Block;
use coding::{Damage, DbError, ReadError};
use filter::FilterBlock;
use ikey::Plain;
use std::alloc::Global;
use store::Store;

/// Names the filter block in the metaindex.
pub const FILTER_NAME: &str = "filter.leveldb.BuiltinBloomFilter2";

// The handle of the filter block, if the metaindex names one. Other names count for nothing.
fn find_filter(pairs: &[KeyValue]) -> Result<Option<Handle>, Damage>
    ensures found { IfOk result (λ filter. NamesFilter (pairs_of pairs.now) filter) }
    ensures refused { IfErr result (λ _. (filter : Option HandleValue) → NamesFilter (pairs_of pairs.now) filter → ⊥) }
{
    for pair in pairs {
        if pair.key.as_slice() == FILTER_NAME.as_bytes() {
            return match whole_handle(pair.value.as_slice()) {
                Some(handle) => Ok(Some(handle)),
                None => Err(Damage::Number),
            };
        }
    }
    Ok(None)
}

// The same of the bytes of a metaindex block.
fn named_filter(alloc: Global, bytes: Vec<u8>) -> Result<Option<Handle>, ReadError>
    ensures found { IfOk result (λ filter. (pairs : List Pair) × IsBlock IsBelowPlain bytes.items pairs × NamesFilter pairs filter) }
    ensures refused { IfErr result (λ e. RefusesBlock e
        ((pairs : List Pair) (filter : Option HandleValue) → IsBlock IsBelowPlain bytes.items pairs → NamesFilter pairs filter → ⊥) (2 ^ 30 < length bytes.items)) }
{
    let pairs = pairs_in(alloc, Block::<Plain>::open(alloc, bytes)?)?;
    match find_filter(&pairs) {
        Ok(filter) => Ok(filter),
        Err(what) => Err(ReadError::Corrupt(what)),
    }
}

// Reads the metaindex.
fn read_metaindex<S: Store>(
    alloc: Global,
    store: &mut S,
    name: &str,
    known: u64,
    metaindex: Handle,
) -> Result<Option<Handle>, DbError>
    ensures reads { Reads (S.facts store.old) (S.facts store.new) }
    ensures found { IfOk result (λ filter. Finds (S.facts store.old) (S.facts store.new) name.now (λ file. HasMetaindex file metaindex filter × (IsUnsupported file metaindex → ⊥))) }
    ensures stood { OnOk result ((S.facts store.new).failures ≡ (S.facts store.old).failures) }
    ensures noted { IfErr result (λ e. IsNoted name.now e (S.told store.new)) }
    ensures refused { IfErr result (λ e. Refuses e (S.facts store.old) (S.facts store.new) name.now
        (λ file. ((filter : Option HandleValue) → HasMetaindex file metaindex filter → ⊥) × (IsUnsupported file metaindex → ⊥))
        (λ file. IsUnsupported file metaindex)) }
{
    let bytes = read_stored(alloc, store, name, known, metaindex, Vec::new(alloc))?;
    match named_filter(alloc, bytes) {
        Ok(filter) => Ok(filter),
        Err(e) => Err(refuse_block(store, name, metaindex.offset, e)),
    }
}

// Reads the filter block at a handle.
fn read_filter_block<S: Store>(
    alloc: Global,
    store: &mut S,
    name: &str,
    known: u64,
    handle: Handle,
) -> Result<FilterBlock, DbError>
    ensures reads { Reads (S.facts store.old) (S.facts store.new) }
    ensures found { IfOk result (λ filter. Finds (S.facts store.old) (S.facts store.new) name.now (λ file. IsStored file handle filter × IsFilterBlock filter × (IsUnsupported file handle → ⊥))) }
    ensures stood { OnOk result ((S.facts store.new).failures ≡ (S.facts store.old).failures) }
    ensures noted { IfErr result (λ e. IsNoted name.now e (S.told store.new)) }
    ensures refused { IfErr result (λ e. Refuses e (S.facts store.old) (S.facts store.new) name.now
        (λ file. ((filter : List ℕ) → IsStored file handle filter × IsFilterBlock filter → ⊥) × (IsUnsupported file handle → ⊥))
        (λ file. IsUnsupported file handle)) }
{
    let bytes = read_stored(alloc, store, name, known, handle, Vec::new(alloc))?;
    match FilterBlock::open(bytes) {
        Ok(filter) => Ok(filter),
        Err(e) => Err(refuse_filter(store, name, handle.offset, e)),
    }
}

/// Reads the metaindex, and the filter block that it names, if it names one. Corrupt and
/// Unsupported as `read_stored`; Corrupt too if a block isn't what it should be.
pub fn read_filter<S: Store>(
    alloc: Global,
    store: &mut S,
    name: &str,
    known: u64,
    metaindex: Handle,
) -> Result<(Option<Handle>, Option<FilterBlock>), DbError>
    ensures reads { Reads (S.facts store.old) (S.facts store.new) }
    ensures found { IfOk result (λ found. Finds (S.facts store.old) (S.facts store.new) name.now
        (λ file. HasMetaindex file metaindex found.0 × HasFilter file found.0 found.1 × (IsFilterUnsupported file metaindex → ⊥))) }
    ensures stood { OnOk result ((S.facts store.new).failures ≡ (S.facts store.old).failures) }
    ensures noted { IfErr result (λ e. IsNoted name.now e (S.told store.new)) }
    ensures refused { IfErr result (λ e. Refuses e (S.facts store.old) (S.facts store.new) name.now
        (λ file. ((handle : Option HandleValue) (filter : Option (List ℕ)) → HasMetaindex file metaindex handle × HasFilter file handle filter → ⊥)
        × (IsFilterUnsupported file metaindex → ⊥)) (λ file. IsFilterUnsupported file metaindex)) }
{
    let Some(handle) = read_metaindex(alloc, store, name, known, metaindex)? else {
        return Ok((None, None));
    };
    let filter = read_filter_block(alloc, store, name, known, handle)?;
    Ok((Some(handle), Some(filter)))
}
