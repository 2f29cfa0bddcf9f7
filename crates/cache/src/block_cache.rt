//! Blocks that were read, up to a number of them.

ghost use Rattle.std.specs.Prelude.{◌≡◌, ◌⊎◌, Contains, IfOk, IfErr, IsSome};
ghost use Rattle.cache.specs.Blocks.{IsBlockPut, IsOf, KeptBlock, answer_if, blocks_when_used, kept_at};
ghost use Rattle.cache.specs.Holding.{BlocksLast};
ghost use Rattle.cache.specs.Shared.{blocks_in};

use crate::read_block::ReadBlock;
use crate::slot::Slot;
use block::Block;
use coding::DbError;
use ikey::{Internal, KeyOrder};
use lru::LruCache;
use std::alloc::{AllocError, AllocFailed, Global};
use std::marker::Model;
use std::num::NonZeroUsize;
use std::rc::Rc;
use store::Store;
use table::Table;

// What a cache answers to a block that is put into it: the one that went for it, if one did.
type Pushed<K> = Result<
    Option<(Slot, Rc<Block<Internal<K>>>)>,
    AllocFailed<(Slot, Rc<Block<Internal<K>>>)>,
>;

/// Holds blocks that were read, up to a number of them, by the number of their table and their
/// index in it (LevelDB's util/cache.cc). If there are too many, the least recently used goes. Its
/// memory is kept, unless somebody still reads it: the next block is read into it. Contracts see
/// the blocks that are kept, the most recently used first, and how many there may be.
#[derive(Drop)]
pub struct BlockCache<K: KeyOrder> {
    // None where nothing is ever kept.
    blocks: Option<LruCache<Slot, Rc<Block<Internal<K>>>>>,
    // The memory of a block that went, for the next one.
    spare: Option<Vec<u8>>,
}

impl<K: KeyOrder> Model for BlockCache<K> {
    ghost use Rattle.cache.specs.Blocks.{BlockCache as Kept};
    ghost use Rattle.cache.specs.Shared.{blocks_of};

    ghost Value = { Kept };

    ghost view = { λ c. blocks_of c.blocks };
}

impl<K: KeyOrder> BlockCache<K> {
    ghost use Rattle.std.specs.Prelude.{◌≡◌, ◌==◌, ◌≤◌, ◌⊎◌, ℕ, List, Option, [], length, IsTrue, Contains, IfOk, IfErr, OnOk, IsSome, MatchOption};
    ghost use Rattle.std.specs.NonZero.{non_zero_usize_get};
    ghost use Rattle.ikey.specs.Entries.{Pair};
    ghost use Rattle.table.specs.Intact.{IsTornAt, IsUnsupportedAt};
    ghost use Rattle.table.specs.Reading.{Reads, Refuses};
    ghost use Rattle.cache.specs.Holding.{HoldsBlocks, HasContent, IsBlockOf};
    ghost use Rattle.cache.specs.Blocks.{KeptBlock, answer_of, answer_if, blocks_when_used, kept_at, Hits, IsAnswered, IsAnswerPut, IsBlockPut, IsOf};

    /// Makes a cache that keeps nothing, and takes no memory: what a database that isn't open has.
    pub fn none() -> Self
        ensures empty { result.blocks ≡ [] }
        ensures capacity { result.capacity ≡ 0 }
    {
        BlockCache {
            blocks: None,
            spare: None,
        }
    }

    /// Makes a cache that keeps at most so many blocks, and none yet.
    pub fn new(alloc: Global, capacity: NonZeroUsize) -> Result<Self, AllocError>
        ensures empty { IfOk result (λ cache. cache.blocks ≡ []) }
        ensures capacity { IfOk result (λ cache. cache.capacity ≡ non_zero_usize_get capacity) }
    {
        let blocks = LruCache::sparse(alloc, capacity)?;
        Ok(BlockCache {
            blocks: Some(blocks),
            spare: None,
        })
    }

    /// Returns how many blocks are kept.
    pub fn len(&self) -> usize
        ensures length { result ≡ length self.now.blocks }
        ensures fits { result ≤ self.now.capacity }
    {
        match &self.blocks {
            None => 0,
            Some(blocks) => blocks.len(),
        }
    }

    /// Returns whether no block is kept.
    pub fn is_empty(&self) -> bool
        ensures { result ≡ (length self.now.blocks == 0) }
    {
        self.len() == 0
    }

    /// Returns the block of an index of the table of this number: the one that is kept, or else
    /// what the reader answers. A block that is read is kept if there is memory to keep it.
    /// OutOfMemory also comes for a kept block that has as many owners as can be counted.
    pub fn fetch<Source, R: ReadBlock<K, Source>>(
        &mut self,
        alloc: Global,
        source: &mut Source,
        reader: &R,
        file: u64,
        index: usize,
    ) -> Result<Rc<Block<Internal<K>>>, DbError>
        // A kept block is answered, and the source isn't asked. Else the answer is the reader's.
        ensures answer { MatchOption (kept_at self.old.blocks file index)
            (R.reads reader.now source.old source.new index (answer_of result))
            (λ pairs. Hits pairs (answer_of result) × (source.new ≡ source.old)) }
        // What is kept was kept before, or is what was answered. So an error isn't kept.
        ensures kept { (kept : KeptBlock) → Contains self.new.blocks kept → Contains self.old.blocks kept ⊎ IsAnswered kept file index (answer_of result) }
        // The block goes first, so that the last one is dropped if there are too many.
        ensures order { MatchOption (kept_at self.old.blocks file index)
            (IsAnswerPut file index (answer_of result) self.old.capacity (blocks_when_used file index self.old.blocks) self.new.blocks)
            (λ _. self.new.blocks ≡ blocks_when_used file index self.old.blocks) }
        ensures capacity { self.new.capacity ≡ self.old.capacity }
    {
        if let Some(block) = self.find(file, index)? {
            return Ok(block);
        }
        let room = self.take_spare(alloc);
        let block = reader.read(alloc, source, index, room)?;
        self.keep(file, index, &block);
        Ok(block)
    }

    /// Returns the data block of an index of this open table, which has this number, by `fetch`.
    /// Corrupt and Unsupported as `Table::block_at`.
    pub fn read_block<S: Store>(
        &mut self,
        alloc: Global,
        store: &mut S,
        table: &Table<K>,
        file: u64,
        index: usize,
    ) -> Result<Rc<Block<Internal<K>>>, DbError>
        ensures reads { Reads (S.facts store.old) (S.facts store.new) }
        // If each kept block is that of its table, the one that is answered is too, and so is each
        // that is kept afterwards.
        ensures found { (content : ℕ → Option (List ℕ)) → HoldsBlocks K.cmp content self.old.blocks → HasContent K.cmp content file (S.facts store.old) table.now
            → IsTrue (S.facts store.new).faithful → IfOk (answer_of result) (λ pairs. IsBlockOf K.cmp content file index pairs) }
        ensures holds { (content : ℕ → Option (List ℕ)) → HoldsBlocks K.cmp content self.old.blocks → HasContent K.cmp content file (S.facts store.old) table.now
            → IsTrue (S.facts store.new).faithful → HoldsBlocks K.cmp content self.new.blocks }
        // What is kept was kept before, or is of this table.
        ensures kept { (kept : KeptBlock) → Contains self.new.blocks kept → Contains self.old.blocks kept ⊎ (kept.file ≡ file) }
        ensures stood { OnOk result ((S.facts store.new).failures ≡ (S.facts store.old).failures) }
        ensures refused { IfErr (answer_of result) (λ e. Refuses e (S.facts store.old) (S.facts store.new) table.now.name
            (λ bytes. IsTornAt K.cmp bytes table.now.frame.places index) (λ bytes. IsUnsupportedAt bytes table.now.frame.places index)) }
        ensures capacity { self.new.capacity ≡ self.old.capacity }
    {
        self.fetch(alloc, store, table, file, index)
    }

    // The block that is kept.
    fn find(
        &mut self,
        file: u64,
        index: usize,
    ) -> Result<Option<Rc<Block<Internal<K>>>>, AllocError>
        ensures found { IfOk result (λ found. kept_at self.old.blocks file index ≡ answer_if found) }
        ensures refused { IfErr result (λ _. IsSome (kept_at self.old.blocks file index)) }
        ensures kept { (kept : KeptBlock) → Contains self.new.blocks kept → Contains self.old.blocks kept }
        ensures order { self.new.blocks ≡ blocks_when_used file index self.old.blocks }
        ensures capacity { self.new.capacity ≡ self.old.capacity }
    {
        let Some(blocks) = &mut self.blocks else {
            return Ok(None);
        };
        find_in(blocks, file, index)
    }

    // Memory for a block: that of the one that went last, if it is there.
    fn take_spare(&mut self, alloc: Global) -> Vec<u8>
        ensures { self.new ≡ self.old }
    {
        match self.spare.take() {
            Some(room) => room,
            None => Vec::new(alloc),
        }
    }

    // Keeps the block, if there is memory for it, and the memory of the one that goes for it.
    fn keep(&mut self, file: u64, index: usize, block: &Rc<Block<Internal<K>>>)
        ensures kept { (kept : KeptBlock) → Contains self.new.blocks kept → Contains self.old.blocks kept ⊎ IsOf kept file index block.now.value.pairs }
        ensures order { IsBlockPut file index block.now.value.pairs self.old.capacity self.old.blocks self.new.blocks }
        ensures capacity { self.new.capacity ≡ self.old.capacity }
    {
        let Some(blocks) = &mut self.blocks else {
            return;
        };
        self.spare = keep_in(blocks, file, index, block);
    }
}

// The block that is kept.
fn find_in<K: KeyOrder>(
    blocks: &mut LruCache<Slot, Rc<Block<Internal<K>>>>,
    file: u64,
    index: usize,
) -> Result<Option<Rc<Block<Internal<K>>>>, AllocError>
    ensures found { IfOk result (λ found. kept_at (blocks_in blocks.old.entries) file index ≡ answer_if found) }
    ensures refused { IfErr result (λ _. IsSome (kept_at (blocks_in blocks.old.entries) file index)) }
    ensures kept { (kept : KeptBlock) → Contains (blocks_in blocks.new.entries) kept → Contains (blocks_in blocks.old.entries) kept }
    ensures order { blocks_in blocks.new.entries ≡ blocks_when_used file index (blocks_in blocks.old.entries) }
    ensures capacity { blocks.new.cap ≡ blocks.old.cap }
{
    let slot = Slot { file, index };
    let Some(shared) = blocks.get(&slot) else {
        return Ok(None);
    };
    let block = shared.clone()?;
    Ok(Some(block))
}

// Keeps the block, if there is memory for it, and answers the memory of the one that goes for it.
fn keep_in<K: KeyOrder>(
    blocks: &mut LruCache<Slot, Rc<Block<Internal<K>>>>,
    file: u64,
    index: usize,
    block: &Rc<Block<Internal<K>>>,
) -> Option<Vec<u8>>
    ensures kept { (kept : KeptBlock) → Contains (blocks_in blocks.new.entries) kept → Contains (blocks_in blocks.old.entries) kept ⊎ IsOf kept file index block.now.value.pairs }
    ensures order { IsBlockPut file index block.now.value.pairs blocks.old.cap (blocks_in blocks.old.entries) (blocks_in blocks.new.entries) }
    ensures capacity { blocks.new.cap ≡ blocks.old.cap }
{
    let slot = Slot { file, index };
    let Ok(block) = block.clone() else {
        return None;
    };
    let pushed = blocks.push(slot, block);
    memory_of(pushed)
}

// The memory of the block that went for another, unless somebody else reads it.
fn memory_of<K: KeyOrder>(pushed: Pushed<K>) -> Option<Vec<u8>> {
    let Ok(Some((_, block))) = pushed else {
        return None;
    };
    let Ok(block) = Rc::try_unwrap(block) else {
        return None;
    };
    Some(block.into_memory())
}

/// Proves that what is kept stays right while tables come into use under new numbers and go out of
/// use.
pub fn blocks_last()
    ensures { BlocksLast }
{}
