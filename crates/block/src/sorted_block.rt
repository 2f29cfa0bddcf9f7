//! A block that is read.

ghost use Rattle.std.specs.Prelude.{◌≡◌, ◌⊎◌, List, ℕ, MatchBool, option_copied};
ghost use Rattle.std.specs.Option.{ForSome};
ghost use Rattle.ikey.specs.Entries.{Pair};
ghost use Rattle.block.specs.Block.{IsBlock};

use crate::checking::check_entries;
use crate::entry::entry_at;
use crate::trailer::parts_of;
use coding::{Damage, Feature, ReadError};
use ikey::EntryOrder;
use std::alloc::Global;
use std::marker::{Model, PhantomData};

/// Caps the bytes of a block that is read: a longer one isn't supported.
pub const MAX_BLOCK_LENGTH: usize = 1 << 30;

/// Holds the bounds of the keys of a block: above the first, if there is one, and not above the
/// second.
#[derive(Clone, Copy, Debug)]
pub struct Bounds<'a> {
    pub floor: Option<&'a [u8]>,
    pub most: &'a [u8],
}

/// Holds a block, checked once when it is opened, whose keys rise in the order O. Contracts see the
/// bytes of its entries and the list of its pairs.
#[derive(Drop)]
pub struct Block<O: EntryOrder> {
    pub(crate) bytes: Vec<u8>,
    // where the entries end
    pub(crate) body_length: usize,
    order: PhantomData<O>,
}

impl<O: EntryOrder> Model for Block<O> {
    ghost use Rattle.std.specs.Prelude.{take};
    ghost use Rattle.block.specs.Reading.{Contents};

    ghost Value = { Contents };

    ghost use Rattle.block.specs.Reading.{contents};
    ghost use Rattle.block.specs.Opened.{IsOpened};

    ghost view = { λ b. contents (take b.body_length b.bytes.items) };

    ghost invariant = { λ b. IsOpened O.below b.bytes.items b.body_length };
}

impl<O: EntryOrder> Block<O> {
    ghost use Rattle.std.specs.Prelude.{◌≡◌, ◌<◌, ◌≤◌, ◌^◌, List, ℕ, [], None, length, IfOk, IfErr, MatchBool, MatchOption, option_copied};
    ghost use Rattle.ikey.specs.Entries.{Pair};
    ghost use Rattle.block.specs.Block.{IsBlock, Refuses, AreAbove, last_key_from};
    ghost use Rattle.block.specs.Bounds.{AreBetween, IsFirstKey};
    ghost use Rattle.block.specs.Reading.{pairs_of};
    ghost use Rattle.block.specs.Spots.{HasRestarts};

    /// Opens the block that all of the bytes are. Corrupt: they are no block in the order O
    /// (LevelDB's doc/table_format.md). Unsupported: there are more than `MAX_BLOCK_LENGTH`. It
    /// also fails out of memory for a key that is checked.
    pub fn open(alloc: Global, bytes: Vec<u8>) -> Result<Self, ReadError>
        // The bytes are the encoding of what is read.
        ensures found { IfOk result (λ block. IsBlock O.below bytes.items block.pairs) }
        ensures short { IfOk result (λ _. length bytes.items ≤ 2 ^ 30) }
        // Bytes that are refused are no block, or pass the limit.
        ensures refused { IfErr result (λ e. Refuses e ((pairs : List Pair) → IsBlock O.below bytes.items pairs → ⊥) (2 ^ 30 < length bytes.items)) }
    {
        let (block, _) = Self::open_with_last(alloc, bytes)?;
        Ok(block)
    }

    /// Opens it the same way, if its keys lie between these bounds. Corrupt also if one doesn't.
    pub fn open_between(
        alloc: Global,
        bytes: Vec<u8>,
        bounds: Bounds<'_>,
    ) -> Result<Self, ReadError>
        ensures found { IfOk result (λ block. IsBlock O.below bytes.items block.pairs) }
        ensures between { IfOk result (λ block. AreBetween O.below (option_copied bounds.entry.floor) bounds.entry.most.now block.pairs) }
        ensures short { IfOk result (λ _. length bytes.items ≤ 2 ^ 30) }
        ensures refused { IfErr result (λ e. Refuses e
            ((pairs : List Pair) → IsBlock O.below bytes.items pairs → AreBetween O.below (option_copied bounds.entry.floor) bounds.entry.most.now pairs → ⊥)
            (2 ^ 30 < length bytes.items)) }
    {
        let (block, last) = Self::open_with_last(alloc, bytes)?;
        if !block.lies_between(&last, bounds) {
            return Err(ReadError::Corrupt(Damage::Order));
        }
        Ok(block)
    }

    /// Returns the first key, if there is an entry.
    pub fn first_key(&self) -> Option<&[u8]>
        ensures { MatchOption result (self.now.pairs ≡ []) (λ key. IsFirstKey key.now self.now.pairs) }
    {
        let (body, _) = self.parts();
        match entry_at(body) {
            Some((first, _)) => Some(first.rest),
            None => None,
        }
    }

    // Whether all keys lie between the bounds, of which the last is this one.
    fn lies_between(&self, last: &[u8], bounds: Bounds<'_>) -> bool
        requires rises { AreAbove O.below None self.now.pairs }
        requires ends { last_key_from [] self.now.pairs ≡ last.now }
        ensures { MatchBool result (AreBetween O.below (option_copied bounds.entry.floor) bounds.entry.most.now self.now.pairs)
            (AreBetween O.below (option_copied bounds.entry.floor) bounds.entry.most.now self.now.pairs → ⊥) }
    {
        let Some(first) = self.first_key() else {
            return true;
        };
        if !is_above::<O>(bounds.floor, first) {
            return false;
        }
        is_at_most::<O>(last, bounds.most)
    }

    // The block, and its last key, which has no bytes if there is no entry.
    fn open_with_last(alloc: Global, bytes: Vec<u8>) -> Result<(Self, Vec<u8>), ReadError>
        ensures found { IfOk result (λ opened. IsBlock O.below bytes.items opened.0.pairs) }
        ensures last { IfOk result (λ opened. last_key_from [] opened.0.pairs ≡ opened.1.items) }
        ensures short { IfOk result (λ _. length bytes.items ≤ 2 ^ 30) }
        ensures refused { IfErr result (λ e. Refuses e ((pairs : List Pair) → IsBlock O.below bytes.items pairs → ⊥) (2 ^ 30 < length bytes.items)) }
    {
        if bytes.len() > MAX_BLOCK_LENGTH {
            return Err(ReadError::Unsupported(Feature::BlockSize));
        }
        let (body_length, last) = {
            let Some((body, restarts)) = parts_of(&bytes) else {
                return Err(ReadError::Corrupt(Damage::Length));
            };
            let last = check_entries::<O>(alloc, body, restarts)?;
            (body.len(), last)
        };
        let block = Block {
            bytes,
            body_length,
            order: PhantomData,
        };
        Ok((block, last))
    }

    /// Returns the memory of a block that nobody reads any more, with whatever is in it.
    pub fn into_memory(self) -> Vec<u8> {
        self.bytes
    }

    // The bytes of the entries and those of the restarts.
    pub(crate) fn parts(&self) -> (&[u8], &[u8])
        ensures body { result.0.now ≡ self.now.body }
        ensures pairs { self.now.pairs ≡ pairs_of self.now.body }
        ensures restarts { HasRestarts self.now.body result.1.now }
        ensures some { 4 ≤ length result.1.now }
        ensures rises { AreAbove O.below None self.now.pairs }
    {
        let (front, _) = self.bytes.split_at(self.bytes.len() - 4);
        front.split_at(self.body_length)
    }
}

// Whether a key is above the bound, if there is one.
fn is_above<O: EntryOrder>(floor: Option<&[u8]>, key: &[u8]) -> bool
    ensures { MatchBool result (ForSome (option_copied floor.entry) (λ (bound : List ℕ). O.below bound key.now))
        (ForSome (option_copied floor.entry) (λ (bound : List ℕ). O.below bound key.now) → ⊥) }
{
    match floor {
        None => true,
        Some(bound) => O::is_below(bound, key),
    }
}

// Whether it isn't above the bound.
fn is_at_most<O: EntryOrder>(key: &[u8], most: &[u8]) -> bool
    ensures { MatchBool result ((key.now ≡ most.now) ⊎ O.below key.now most.now) ((key.now ≡ most.now) ⊎ O.below key.now most.now → ⊥) }
{
    if key == most {
        return true;
    }
    O::is_below(key, most)
}

/// Proves that no bytes are the encoding of two lists of pairs.
pub fn one_block<O: EntryOrder>()
    ensures { (bytes : List ℕ) (pairs others : List Pair) → IsBlock O.below bytes pairs → IsBlock O.below bytes others → pairs ≡ others }
{}
