//! A cursor over a memtable (LevelDB's db/memtable.cc, MemTableIterator).

ghost use Rattle.std.specs.Prelude.{◌≡◌, ◌<◌, ◌^◌, ◌++◌, List, nat_lt, OnOk, IfSome};
ghost use Rattle.ikey.specs.Entries.{internal_key_of, internal_entry_of};
ghost use Rattle.ikey.specs.Keys.{IsKey, tag_of};
ghost use Rattle.ikey.specs.KeyViews.{key_of};
ghost use Rattle.memtable.specs.Order.{Placed, ordered};
ghost use Rattle.memtable.specs.Places.{IsPlace, first_of, last_of, up_to};
ghost use Rattle.memtable.specs.Slots.{entry_seen};
ghost use Rattle.cursor.specs.Places.{is_below as is_entry_below};
ghost use Rattle.table_access.specs.Memory.{IsSeen, IsFrom};

use coding::{DbError, put_fixed64};
use cursor::Cursor;
use ikey::{InternalKey, KeyOrder, Kind, unpack};
use memtable::{EntryRef, MemTable, Node};
use std::alloc::{AllocError, Global};
use std::cmp::Ordering;
use std::marker::{Model, PhantomData};
use std::mem;

/// Holds a cursor over the entries of a memtable up to a sequence number; those above it are
/// stepped over. Contracts see the sequence number, the node on which it stands, if it stands on
/// one, and the internal key at hand. Entries that are added later don't change its list if their
/// sequence numbers are greater.
#[derive(Drop)]
pub struct MemoryCursor<K: KeyOrder> {
    sequence: u64,
    node: Option<Node>,
    // the internal key of the node's entry
    key: Vec<u8>,
    // room for the next one, so that a failed growth changes nothing
    spare: Vec<u8>,
    order: PhantomData<K>,
}

impl<K: KeyOrder> Model for MemoryCursor<K> {
    ghost use Rattle.table_access.specs.Memory.{MemoryPlace};

    ghost Value = { MemoryPlace };

    ghost use Rattle.std.specs.Prelude.{◌<◌, ◌^◌};

    ghost view = { λ c. record { sequence = c.sequence; node = c.node; key = c.key.items } };

    ghost invariant = { λ c. c.sequence < 2 ^ 56 };
}

impl<K: KeyOrder> MemoryCursor<K> {
    ghost use Rattle.std.specs.Prelude.{◌≡◌, ◌<◌, ◌^◌, ◌++◌, List, ℕ, [], None, Some, length, IfSome, IfErr, OnOk, OnErr};
    ghost use Rattle.coding.specs.declared.error.DbError.TheVariants.{OutOfMemory};
    ghost use Rattle.memtable.specs.Order.{Placed, ordered};
    ghost use Rattle.memtable.specs.Places.{IsPlace, first_of, last_of, up_to};
    ghost use Rattle.cursor.specs.Places.{Listed, within, index_before};
    ghost use Rattle.cursor.specs.Moves.{after_move};
    ghost use Rattle.cursor.specs.Merging.{listed};
    ghost use Rattle.table_access.specs.Memory.{ListsMemory, seen_entries, IsSeen, IsKeyAt};

    /// Makes a cursor over the entries up to the sequence number, which is below `SEQUENCE_END`. It
    /// stands nowhere, and takes no memory.
    pub fn new(alloc: Global, sequence: u64) -> Self
        requires { sequence < 2 ^ 56 }
        ensures { result ≡ record { sequence = sequence; node = None; key = [] } }
    {
        MemoryCursor {
            sequence,
            node: None,
            key: Vec::new(alloc),
            spare: Vec::new(alloc),
            order: PhantomData,
        }
    }

    /// Proves that a cursor that stands nowhere, as a new one does, stands for what is seen of any
    /// memtable at its sequence number.
    pub fn begins(&self, table: &MemTable<K>)
        requires { self.now.node ≡ None }
        ensures { ListsMemory K.cmp self.now table.now (listed (seen_entries K.cmp table.now.inserts self.now.sequence) None) }
    {
        let _ = self;
        table.rises();
    }

    // Stands on the first entry that is seen from this node on.
    fn stand_from(&mut self, table: &MemTable<K>, node: Option<Node>) -> Result<(), DbError>
        requires { IfSome node (IsPlace table.now.inserts) }
        ensures moves { (front back : List Placed) (at : Listed) → ordered K.cmp table.now.inserts ≡ front ++ back
            → node ≡ first_of back → ListsMemory K.cmp self.old table.now at
            → ListsMemory K.cmp self.new table.now
            (after_move result (λ at. within at.entries (length (up_to self.old.sequence front))) at) }
        ensures sequence { self.new.sequence ≡ self.old.sequence }
        ensures refused { IfErr result (λ e. e ≡ OutOfMemory) }
    {
        let seen = seen_from(table, self.sequence, node);
        self.stand_on(table, seen)
    }

    // Stands on the last entry that is seen up to this node.
    fn stand_back(&mut self, table: &MemTable<K>, node: Option<Node>) -> Result<(), DbError>
        requires { IfSome node (IsPlace table.now.inserts) }
        ensures moves { (front back : List Placed) (at : Listed) → ordered K.cmp table.now.inserts ≡ front ++ back
            → node ≡ last_of front → ListsMemory K.cmp self.old table.now at
            → ListsMemory K.cmp self.new table.now (after_move result (λ at. index_before (length (up_to self.old.sequence front))) at) }
        ensures sequence { self.new.sequence ≡ self.old.sequence }
        ensures refused { IfErr result (λ e. e ≡ OutOfMemory) }
    {
        let seen = seen_back(table, self.sequence, node);
        self.stand_on(table, seen)
    }

    // Stands on a node, or nowhere, with the key of its entry at hand.
    fn stand_on(&mut self, table: &MemTable<K>, node: Option<Node>) -> Result<(), DbError>
        requires { IfSome node (IsSeen table.now.inserts self.old.sequence) }
        ensures node { OnOk result (self.new.node ≡ node) }
        ensures key { OnOk result (IfSome node (IsKeyAt table.now.inserts self.new.key)) }
        ensures stayed { OnErr result (self.new ≡ self.old) }
        ensures sequence { self.new.sequence ≡ self.old.sequence }
        ensures refused { IfErr result (λ e. e ≡ OutOfMemory) }
    {
        let Some(place) = node else {
            self.node = None;
            return Ok(());
        };
        pack_into(&mut self.spare, table.entry(place))?;
        mem::swap(&mut self.key, &mut self.spare);
        self.node = Some(place);
        Ok(())
    }

    // The node on which the cursor stands, if the table has it.
    fn place_in(&self, table: &MemTable<K>) -> Option<Node>
        ensures place { IfSome result (IsPlace table.now.inserts) }
        ensures found { (node : ℕ) → self.now.node ≡ Some node → IsPlace table.now.inserts node → result ≡ Some node }
    {
        let node = self.node?;
        let number = node.number() as usize;
        if number == 0 || table.len() < number {
            return None;
        }
        Some(node)
    }
}

impl<K: KeyOrder> Cursor<K, MemTable<K>> for MemoryCursor<K> {
    ghost use Rattle.std.specs.Prelude.{is_some};
    ghost use Rattle.std.proofs.Common.{◌∙◌, refl};
    ghost use Rattle.table_access.specs.Memory.{memory_facts, ListsMemory, KeepsMemory};
    ghost use Rattle.table_access.specs.MemoryLists.{is_placed, is_inside, lists_kept};

    ghost facts = { λ source. memory_facts };

    ghost lists = { λ cursor source at. ListsMemory K.cmp cursor source at };

    ghost keeps = { λ cursor old new. KeepsMemory K.cmp cursor old new };

    ghost stands = { λ cursor. is_some cursor.node };

    ghost limited = { λ cursor source. ⊥ };

    ghost torn = { λ cursor source cut. ⊥ };

    ghost leaves = { λ numbers old new. old.inserts ≡ new.inserts };

    ghost over = { λ cursor number. ⊥ };

    fn first(&mut self, alloc: Global, source: &mut MemTable<K>) -> Result<(), DbError> {
        let node = source.first();
        self.stand_from(source, node)
    }

    fn last(&mut self, alloc: Global, source: &mut MemTable<K>) -> Result<(), DbError> {
        let node = source.last();
        self.stand_back(source, node)
    }

    fn seek(
        &mut self,
        alloc: Global,
        source: &mut MemTable<K>,
        target: &[u8],
    ) -> Result<(), DbError> {
        let Some(key) = unpack(target) else {
            return Ok(());
        };
        let node = first_from(source, &key);
        self.stand_from(source, node)
    }

    fn next(&mut self, alloc: Global, source: &mut MemTable<K>) -> Result<(), DbError> {
        let Some(place) = self.place_in(source) else {
            return Ok(());
        };
        let node = source.next(place);
        self.stand_from(source, node)
    }

    fn prev(&mut self, alloc: Global, source: &mut MemTable<K>) -> Result<(), DbError> {
        let Some(place) = self.place_in(source) else {
            return Ok(());
        };
        let node = source.prev(place);
        self.stand_back(source, node)
    }

    fn stands(&self) -> bool {
        self.node.is_some()
    }

    fn key<'a>(&'a self, source: &'a MemTable<K>) -> &'a [u8] {
        self.key.as_slice()
    }

    fn value<'a>(&'a self, source: &'a MemTable<K>) -> &'a [u8] {
        let Some(place) = self.place_in(source) else {
            return &[];
        };
        match source.entry(place).value {
            Some(value) => value,
            None => &[],
        }
    }

    ghost rises = { λ cursor source at h. h.rises };

    ghost placed = { λ cursor source at h. is_placed cursor.node cursor.key _ at.place h.place };

    ghost inside = { λ cursor source at index h e. is_inside K.cmp cursor _ at index h e };

    ghost kept = { λ cursor old new at k h. lists_kept K.cmp cursor _ _ at k h };

    ghost still = { λ cursor source. refl };

    ghost onward = { λ cursor first second third k l. k ∙ l };

    ghost limits_kept = { λ cursor old new k l. l };

    ghost torn_kept = { λ cursor old new cut k t. t };

    ghost torn_same = { λ cursor source at a b h same t. t };

    ghost leaves_still = { λ numbers source. refl };

    ghost leaves_onward = { λ numbers first second third k l. k ∙ l };

    ghost leaves_more = { λ fewer more old new less k. k };
}

// The first node from this one on whose entry is up to the sequence number.
fn seen_from<K: KeyOrder>(table: &MemTable<K>, sequence: u64, node: Option<Node>) -> Option<Node>
    requires { IfSome node (IsPlace table.now.inserts) }
    ensures first { (front back : List Placed) → ordered K.cmp table.now.inserts ≡ front ++ back → node ≡ first_of back
        → result ≡ first_of (up_to sequence back) }
    ensures seen { IfSome result (IsSeen table.now.inserts sequence) }
{
    let mut at = node;
    for _ in 0..table.len() {
        let Some(place) = at else {
            return None;
        };
        if table.entry(place).sequence <= sequence {
            return Some(place);
        }
        at = table.next(place);
    }
    None
}

// The last node up to this one whose entry is up to the sequence number.
fn seen_back<K: KeyOrder>(table: &MemTable<K>, sequence: u64, node: Option<Node>) -> Option<Node>
    requires { IfSome node (IsPlace table.now.inserts) }
    ensures last { (front back : List Placed) → ordered K.cmp table.now.inserts ≡ front ++ back → node ≡ last_of front
        → result ≡ last_of (up_to sequence front) }
    ensures seen { IfSome result (IsSeen table.now.inserts sequence) }
{
    let mut at = node;
    for _ in 0..table.len() {
        let Some(place) = at else {
            return None;
        };
        if table.entry(place).sequence <= sequence {
            return Some(place);
        }
        at = table.prev(place);
    }
    None
}

// The place of the first entry whose internal key isn't below this one. The table is searched by
// user key and sequence number. So what it finds may be the put of a sequence number whose delete
// is sought, which comes before that.
fn first_from<K: KeyOrder>(table: &MemTable<K>, key: &InternalKey<'_>) -> Option<Node>
    ensures from { IsFrom K.cmp (key_of key.now) (ordered K.cmp table.now.inserts) result }
    ensures place { IfSome result (IsPlace table.now.inserts) }
{
    table.rises();
    let place = table.seek(key.user, key.sequence)?;
    if is_below::<K>(table.entry(place), key) {
        return table.next(place);
    }
    Some(place)
}

// Whether the entry's internal key comes before this one.
fn is_below<K: KeyOrder>(entry: EntryRef<'_>, key: &InternalKey<'_>) -> bool
    ensures { result ≡ is_entry_below K.cmp (key_of key.now) (internal_entry_of (entry_seen entry.entry)) }
{
    match K::compare(entry.key, key.user) {
        Ordering::Less => true,
        Ordering::Equal => is_newer(entry, key),
        Ordering::Greater => false,
    }
}

// The same of an entry of the same user key.
fn is_newer(entry: EntryRef<'_>, key: &InternalKey<'_>) -> bool
    ensures { result ≡ nat_lt (tag_of (key_of key.now)) (tag_of (internal_key_of (entry_seen entry.entry))) }
{
    match key.sequence.cmp(&entry.sequence) {
        Ordering::Less => true,
        Ordering::Equal => key.kind == Kind::Delete && entry.value.is_some(),
        Ordering::Greater => false,
    }
}

// Makes a buffer the internal key of an entry.
fn pack_into(buffer: &mut Vec<u8>, entry: EntryRef<'_>) -> Result<(), AllocError>
    requires { entry.sequence < 2 ^ 56 }
    ensures { OnOk result (IsKey buffer.new.items (internal_key_of (entry_seen entry.entry))) }
{
    let kind = match entry.value {
        Some(_) => 1,
        None => 0,
    };
    buffer.clear();
    buffer.extend_from_slice(entry.key)?;
    put_fixed64(buffer, entry.sequence * 256 + kind)
}
