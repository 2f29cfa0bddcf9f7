//! Building a block.

ghost use Rattle.std.specs.Prelude.{◌≡◌, ◌<◌, ◌≤◌, ◌^◌, ◌++◌, ◌∷◌, [], List, ℕ, nat_eq, if◌then◌else◌, length, OnOk, OnErr};
ghost use Rattle.std.specs.List.{common_prefix_len};
ghost use Rattle.block.specs.Block.{IsEntry as IsEntryOf};
ghost use Rattle.block.specs.Built.{restart_of};

use crate::entry::{put_entry, shared_length};
use crate::trailer::put_trailer;
use ikey::EntryOrder;
use std::alloc::{AllocError, Global};
use std::marker::{Model, PhantomData};

/// Builds a block of entries whose keys rise in the order O (LevelDB's table/block_builder.cc).
/// Contracts see the restart interval and the list of pairs that were added.
#[derive(Drop)]
pub struct BlockBuilder<O: EntryOrder> {
    out: Vec<u8>,
    // the restart points after the first one, which is 0
    restarts: Vec<u32>,
    last_key: Vec<u8>,
    // how many entries there are
    count: usize,
    interval: usize,
    order: PhantomData<O>,
}

impl<O: EntryOrder> Model for BlockBuilder<O> {
    ghost use Rattle.block.specs.Written.{Added};

    ghost Value = { Added };

    ghost use Rattle.block.specs.Reading.{pairs_of};
    ghost use Rattle.block.specs.Built.{IsBuilt};

    ghost view = { λ b. record { interval = b.interval; pairs = pairs_of b.out.items } };

    ghost invariant = { λ b. IsBuilt O.below b.out.items b.restarts.items b.last_key.items b.count b.interval };
}

impl<O: EntryOrder> BlockBuilder<O> {
    ghost use Rattle.std.specs.Prelude.{◌≡◌, ◌<◌, ◌≤◌, ◌+◌, ◌^◌, List, ℕ, [], ◌∷◌, ◌++◌, length, IfOk, OnOk, OnErr, MatchBool};
    ghost use Rattle.std.specs.Option.{ForSome};
    ghost use Rattle.ikey.specs.Entries.{Pair};
    ghost use Rattle.block.specs.Block.{IsBlock};
    ghost use Rattle.block.specs.Written.{Added, IsWritten, last_key, key_behind};
    ghost use Rattle.block.specs.Built.{written_length};

    /// Begins a block without entries, with a restart point every `interval` entries. It takes no
    /// memory.
    pub fn new(alloc: Global, interval: usize) -> Self
        requires { 0 < interval }
        ensures { result ≡ record { interval = interval; pairs = [] } }
    {
        BlockBuilder {
            out: Vec::new(alloc),
            restarts: Vec::new(alloc),
            last_key: Vec::new(alloc),
            count: 0,
            interval,
            order: PhantomData,
        }
    }

    /// Begins the same in the memory of a vector, whose bytes are dropped: so one block is built in
    /// the memory of another that was written.
    pub fn reusing(alloc: Global, interval: usize, room: Vec<u8>) -> Self
        requires { 0 < interval }
        ensures { result ≡ record { interval = interval; pairs = [] } }
    {
        let mut out = room;
        out.clear();
        BlockBuilder {
            out,
            ..BlockBuilder::new(alloc, interval)
        }
    }

    /// Returns whether the key is above the last one that was added, so that `add` may be called
    /// with it.
    pub fn is_above_last(&self, key: &[u8]) -> bool
        ensures { MatchBool result (ForSome (last_key self.now.pairs) (λ last. O.below last key.now)) (ForSome (last_key self.now.pairs) (λ last. O.below last key.now) → ⊥) }
    {
        if self.count == 0 {
            return true;
        }
        O::is_below(&self.last_key, key)
    }

    /// Adds an entry, whose key is above the last one, at the end. It shares as much of the key
    /// before as it can, and nothing if it is a restart point. An `Err` changes nothing.
    pub fn add(&mut self, key: &[u8], value: &[u8]) -> Result<(), AllocError>
        requires rises { ForSome (last_key self.old.pairs) (λ last. O.below last key.now) }
        requires room { written_length self.old + length key.now + length value.now ≤ 2 ^ 31 }
        ensures ok { OnOk result (self.new ≡ record self.old { pairs = self.old.pairs ++ record { key = key.now; value = value.now } ∷ [] }) }
        ensures err { OnErr result (self.new ≡ self.old) }
    {
        let is_restart = self.count % self.interval == 0;
        let shared = shared_by(is_restart, &self.last_key, key);
        let (_, rest) = key.split_at(shared);
        // Nothing after the entry can fail.
        let missing = key.len().saturating_sub(self.last_key.len());
        self.last_key.reserve(missing)?;
        push_entry(
            &mut self.out,
            &mut self.restarts,
            is_restart,
            self.count == 0,
            shared,
            rest,
            value,
        )?;
        self.last_key.truncate(shared);
        self.last_key.extend_from_slice(rest)?;
        self.count += 1;
        Ok(())
    }

    /// Returns whether no entry was added.
    pub fn is_empty(&self) -> bool
        ensures { MatchBool result (self.now.pairs ≡ []) (self.now.pairs ≡ [] → ⊥) }
    {
        self.out.is_empty()
    }

    /// Returns the key of the last entry, or no bytes before the first.
    pub fn last_key(&self) -> &[u8]
        ensures { result.now ≡ key_behind [] self.now.pairs }
    {
        self.last_key.as_slice()
    }

    /// Returns how many bytes `finish` would give now.
    pub fn size(&self) -> usize
        ensures range { result < 2 ^ 32 }
        ensures size { result ≡ written_length self.now }
        ensures written { (bytes : List ℕ) → IsWritten self.now.interval self.now.pairs bytes → result ≡ length bytes }
    {
        self.out.len() + 4 * self.restarts.len() + 8
    }

    /// Returns the bytes of the block of the pairs that were added, which may be none. An `Err`
    /// loses them.
    pub fn finish(self) -> Result<Vec<u8>, AllocError>
        ensures block { IfOk result (λ bytes. IsBlock O.below bytes.items self.pairs) }
        ensures written { IfOk result (λ bytes. IsWritten self.interval self.pairs bytes.items) }
    {
        let mut out = self.out;
        put_trailer(&mut out, &self.restarts)?;
        Ok(out)
    }
}

// Adds an entry, and its offset to the restart points if it is one and not the first. An `Err`
// changes nothing.
fn push_entry(
    out: &mut Vec<u8>,
    restarts: &mut Vec<u32>,
    is_restart: bool,
    is_first: bool,
    shared: usize,
    rest: &[u8],
    value: &[u8],
) -> Result<(), AllocError>
    requires out { length out.old.items < 2 ^ 32 }
    requires shared { shared < 2 ^ 32 }
    requires rest { length rest.now < 2 ^ 32 }
    requires value { length value.now < 2 ^ 32 }
    ensures entry { OnOk result ((bytes : List ℕ) × IsEntryOf shared rest.now value.now bytes × (out.new.items ≡ out.old.items ++ bytes)) }
    ensures restarts { OnOk result (restarts.new.items ≡ restarts.old.items ++ restart_of is_restart is_first (length out.old.items)) }
    ensures out_stays { OnErr result (out.new.items ≡ out.old.items) }
    ensures restarts_stay { OnErr result (restarts.new.items ≡ restarts.old.items) }
{
    let start = out.len();
    put_entry_or_nothing(out, shared, rest, value)?;
    if is_restart && !is_first {
        let pushed = push_restart(restarts, start as u32);
        if pushed.is_err() {
            out.truncate(start);
            return pushed;
        }
    }
    Ok(())
}

// How much of the previous key an entry shares.
fn shared_by(is_restart: bool, previous: &[u8], key: &[u8]) -> usize
    ensures value { result ≡ (if is_restart then 0 else common_prefix_len nat_eq previous.now key.now) }
    ensures in_previous { result ≤ length previous.now }
    ensures in_key { result ≤ length key.now }
{
    if is_restart {
        0
    } else {
        shared_length(previous, key)
    }
}

fn put_entry_or_nothing(
    out: &mut Vec<u8>,
    shared: usize,
    rest: &[u8],
    value: &[u8],
) -> Result<(), AllocError>
    requires shared { shared < 2 ^ 32 }
    requires rest { length rest.now < 2 ^ 32 }
    requires value { length value.now < 2 ^ 32 }
    ensures ok { OnOk result ((bytes : List ℕ) × IsEntryOf shared rest.now value.now bytes × (out.new.items ≡ out.old.items ++ bytes)) }
    ensures err { OnErr result (out.new.items ≡ out.old.items) }
{
    let start = out.len();
    let put = put_entry(out, shared, rest, value);
    if put.is_err() {
        out.truncate(start);
    }
    put
}

fn push_restart(restarts: &mut Vec<u32>, restart: u32) -> Result<(), AllocError>
    ensures ok { OnOk result (restarts.new.items ≡ restarts.old.items ++ restart ∷ []) }
    ensures err { OnErr result (restarts.new.items ≡ restarts.old.items) }
{
    restarts.push(restart)?;
    Ok(())
}
