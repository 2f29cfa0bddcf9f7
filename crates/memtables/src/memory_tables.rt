//! The memtables of an open database (LevelDB's db/memtable.h, and db/db_impl.h, DBImpl::mem_
//! and DBImpl::imm_).

ghost use Rattle.std.specs.Prelude.{◌≡◌, ◌++◌, ◌∷◌, [], ◌⊎◌, Some, IfOk, IfSome, MatchBool, sum_by};
ghost use Rattle.coding.specs.declared.error.DbError.TheVariants.{Corrupt};
ghost use Rattle.coding.specs.declared.error.FileKind.TheVariants.{Log};
ghost use Rattle.coding.specs.declared.error.Damage.TheVariants.{Missing};
ghost use Rattle.ikey.specs.Sources.{IsAnswer};
ghost use Rattle.memtables.specs.Memories.{operation_bytes};

use crate::motion::{Motion, go};
use crate::users::Users;
use batch::Operation;
use coding::{Bytes, Damage, DbError, FileKind};
use ikey::{Entry, KeyOrder, newest_in_front, unseen_in_front};
use memtable::MemTable;
use std::alloc::{AllocError, Global};
use std::collections::BTreeMap;
use std::marker::Model;
use std::mem;
use table_access::MemoryCursor;

/// Holds the memtables of an open database. Writes go to the current one. The sealed one, if there
/// is one, waits to be written into a table file. One that was written stays as long as an open
/// iterator reads it. Each is known under a generation, a number that rises by one whenever the
/// current one is sealed. No entry is above the last sequence number that is used.
#[derive(Drop)]
pub struct MemoryTables<K: KeyOrder> {
    current: MemTable<K>,
    last: u64,
    // that of the current table
    generation: u64,
    sealed: Option<u64>,
    // the sealed table among them
    older: BTreeMap<u64, MemTable<K>>,
}

impl<K: KeyOrder> Model for MemoryTables<K> {
    ghost use Rattle.memtables.specs.Memories.{Memories, AreMemories};

    ghost Value = { Memories };

    ghost view = { λ m. record {
      current = m.current;
      last = m.last;
      generation = m.generation;
      sealed = m.sealed;
      older =
          m.older.entries;
    } };

    ghost invariant = { λ m. AreMemories
        (record { current = m.current; last = m.last; generation = m.generation; sealed = m.sealed; older = m.older.entries }) };
}

impl<K: KeyOrder> MemoryTables<K> {
    ghost use Rattle.std.specs.Prelude.{◌≡◌, ◌==◌, ◌+◌, ◌-◌, ◌++◌, ◌∷◌, [], ◌<◌, ◌≤◌, ◌^◌};
    ghost use Rattle.std.specs.Prelude.{length, is_some, None, Some, IfOk, IfErr, OnOk, OnErr};
    ghost use Rattle.std.specs.Option.{option_copied};
    ghost use Rattle.cursor.specs.Moves.{Moves, Refuses};
    ghost use Rattle.cursor.specs.Places.{Listed};
    ghost use Rattle.ikey.specs.Sources.{IsAnswer};
    ghost use Rattle.memtables.specs.Changes.{DropsSealed, IsRemembered, IsSealed, IsUsed, HasMoreEntries, KeepsUsed};
    ghost use Rattle.memtables.specs.Memories.{AreMemories, HasRoom, IsAlone, Memories, logged_in};
    ghost use Rattle.memtables.specs.Memories.{operation_bytes, sealed_in, sealed_inserts, table_in};
    ghost use Rattle.memtables.specs.Motions.{LeadsCut, LeadsMotion, MayGo};
    ghost use Rattle.memtables.specs.Places.{LeavesMemories, ListsMemoryTable, StaysInMemories};
    ghost use Rattle.memtable.specs.Contents.{size_of};
    ghost use Rattle.recover.specs.Entries.{RiseAbove, greatest, made_entry, entries_of};
    ghost use Rattle.table_access.specs.Memory.{memory_facts};

    /// Makes a current table without entries, and no other; no sequence number is used. It takes no
    /// memory.
    pub fn empty(alloc: Global) -> Self
        ensures inserts { result.current.inserts ≡ [] }
        ensures last { result.last ≡ 0 }
        ensures alone { IsAlone result }
    {
        MemoryTables {
            current: MemTable::new(alloc),
            last: 0,
            generation: 0,
            sealed: None,
            older: BTreeMap::new(alloc),
        }
    }

    /// Makes a current table of these entries, whose sequence numbers rise, with the last one used,
    /// and no other table.
    pub fn of(alloc: Global, entries: &[Entry], last: u64) -> Result<Self, AllocError>
        requires rising { RiseAbove 0 entries.now }
        requires bounded { greatest entries.now ≤ last }
        requires fits { last < 2 ^ 56 }
        ensures { IfOk result (λ memories. (memories.current.inserts ≡ entries.now) × (memories.last ≡ last) × IsAlone memories) }
    {
        Ok(MemoryTables {
            current: MemTable::of(alloc, entries)?,
            last,
            generation: 0,
            sealed: None,
            older: BTreeMap::new(alloc),
        })
    }

    /// Returns the last sequence number that is used.
    pub fn last(&self) -> u64
        ensures is { result ≡ self.now.last }
        ensures fits { self.now.last < 2 ^ 56 }
    {
        self.last
    }

    /// Proves what is bounded. No entry is above the last sequence number. The older tables, the
    /// sealed one among them, have lower generations. The current table's entries are newer than
    /// the sealed one's.
    pub fn are_bounded(&self)
        ensures { AreMemories self.now }
    {
        let _ = &self.current;
    }

    /// Returns the generation of the current table.
    pub fn generation(&self) -> u64
        ensures is { result ≡ self.now.generation }
        ensures there { table_in self.now result ≡ Some self.now.current }
    {
        self.generation
    }

    /// Returns the generation of the sealed table, if one is sealed.
    pub fn sealed_generation(&self) -> Option<u64>
        ensures { result ≡ self.now.sealed }
    {
        self.sealed
    }

    /// Returns the size of the current table: the sum over its entries of key length, value length
    /// and 8.
    pub fn size(&self) -> usize
        ensures { result ≡ size_of self.now.current.inserts }
    {
        self.current.size()
    }

    /// Returns whether the current table has no entries.
    pub fn is_empty(&self) -> bool
        ensures { result ≡ (length self.now.current.inserts == 0) }
    {
        self.current.is_empty()
    }

    /// Returns a copy of what the newest entry of a user key up to a sequence number put, among
    /// those of the current table and of the sealed one. None: no entry of the key is up to it.
    /// `Some(None)`: the key was deleted. The current table is searched first, since its entries
    /// are the newer ones.
    pub fn value(
        &self,
        alloc: Global,
        key: &[u8],
        sequence: u64,
    ) -> Result<Option<Option<Bytes>>, AllocError>
        ensures { IfOk result (λ answer. IsAnswer (logged_in self.now) sequence key.now answer) }
    {
        // Laws, for the proof alone.
        newest_in_front();
        unseen_in_front();
        self.are_bounded();
        if let Some(found) = value_in(alloc, &self.current, key, sequence)? {
            return Ok(Some(found));
        }
        match self.sealed() {
            None => Ok(None),
            Some(table) => value_in(alloc, table, key, sequence),
        }
    }

    /// Makes room for the entries of a batch in the current table.
    pub fn reserve(&mut self, operations: &[Operation]) -> Result<(), AllocError>
        ensures left { LeavesMemories self.old self.new }
        ensures others { self.new ≡ record self.old { current = self.new.current } }
        ensures room { OnOk result (HasRoom self.new operations.now) }
    {
        let Some(bytes) = bytes_of(operations) else {
            return Err(AllocError);
        };
        self.current.reserve(operations.len(), bytes)?;
        Ok(())
    }

    /// Adds the entries of a batch to the current table, under the next sequence numbers, in room
    /// that is there. It takes no memory, and can't fail.
    pub fn add_batch(&mut self, operations: &[Operation])
        requires room { HasRoom self.old operations.now }
        requires fits { self.old.last + length operations.now < 2 ^ 56 }
        ensures written { HasMoreEntries self.old self.new (entries_of (self.old.last + 1) operations.now) }
        ensures last { self.new.last ≡ self.old.last + length operations.now }
    {
        for operation in operations {
            self.add_operation(operation);
        }
    }

    /// Seals the current table, which is then the sealed one under the generation that it has, and
    /// begins an empty one of the next generation. The last sequence number stays. Out of memory:
    /// nothing has changed. A generation of 2^64 is answered as out of memory.
    pub fn seal(&mut self, alloc: Global) -> Result<(), AllocError>
        requires { self.old.sealed ≡ None }
        ensures ok { OnOk result (IsSealed self.old self.new) }
        ensures err { OnErr result (self.new ≡ self.old) }
        ensures inserts { OnOk result (sealed_inserts self.new ≡ self.old.current.inserts) }
    {
        let Some(next) = self.generation.checked_add(1) else {
            return Err(AllocError);
        };
        let table = mem::replace(&mut self.current, MemTable::new(alloc));
        match self.older.insert(self.generation, table) {
            Ok(_) => {
                self.sealed = Some(self.generation);
                self.generation = next;
                Ok(())
            }
            Err(refused) => {
                let (_, table) = refused.value;
                self.current = table;
                Err(AllocError)
            }
        }
    }

    /// Takes back a seal after which nothing was written: the sealed table is the current one
    /// again. It takes no memory. If something was written since, or no table is sealed, nothing
    /// happens.
    pub fn unseal(&mut self)
        ensures left { (before : Memories) → IsSealed before self.old → LeavesMemories before self.new }
        ensures last { self.new.last ≡ self.old.last }
        ensures logged { logged_in self.new ≡ logged_in self.old }
    {
        let Some(generation) = self.sealed else {
            return;
        };
        if generation.checked_add(1) != Some(self.generation) {
            return;
        }
        if !self.is_empty() {
            return;
        }
        if let Some(table) = self.older.remove(&generation) {
            self.current = table;
            self.generation = generation;
            let _ = self.sealed.take();
        }
    }

    /// Returns the sealed table, if one is sealed.
    pub fn sealed(&self) -> Option<&MemTable<K>>
        ensures { option_copied result ≡ sealed_in self.now }
    {
        self.older.get(&self.sealed?)
    }

    /// Records that a table file has the entries of the sealed table: none is sealed any more. The
    /// table stays for its readers, until it is dropped or forgotten.
    pub fn flushed(&mut self)
        ensures { DropsSealed self.old self.new }
    {
        self.sealed = None;
    }

    /// Drops the older table of a generation, if there is one that isn't sealed. It takes no
    /// memory.
    pub fn forget(&mut self, generation: u64)
        ensures { KeepsUsed (IsRemembered generation self.old) self.old self.new }
    {
        if self.sealed != Some(generation) {
            let _ = self.older.remove(&generation);
        }
    }

    /// Drops the older tables that none of these users reads and that aren't sealed. It takes no
    /// memory.
    pub fn drop_unused<U: Users>(&mut self, users: &U)
        ensures { KeepsUsed (IsUsed (U.names users.now) self.old) self.old self.new }
    {
        let sealed = self.sealed;
        self.older
            .retain(|generation, _| is_used(users, sealed, *generation));
    }

    /// Returns the table of a generation, if it is there.
    pub fn table(&self, generation: u64) -> Option<&MemTable<K>>
        ensures { option_copied result ≡ table_in self.now generation }
    {
        if generation == self.generation {
            return Some(&self.current);
        }
        self.older.get(&generation)
    }

    /// Moves a cursor over the table of a generation. The entries stay. Corrupt: there is no such
    /// table.
    pub(crate) fn move_cursor(
        &mut self,
        alloc: Global,
        generation: u64,
        cursor: &mut MemoryCursor<K>,
        motion: Motion<'_>,
    ) -> Result<(), DbError>
        requires { MayGo motion (is_some cursor.old.node) }
        ensures moves { LeadsMotion K.cmp motion.entry (Moves (λ memories. memory_facts)
            (λ place memories at. ListsMemoryTable K.cmp generation place memories at) cursor.old cursor.new self.old self.new result) }
        ensures stays { StaysInMemories K.cmp cursor.old cursor.new self.old self.new }
        ensures refused { IfErr result (λ e. Refuses e memory_facts memory_facts (LeadsCut motion.entry
            (λ cut. (at : Listed) → ListsMemoryTable K.cmp generation cursor.old self.old at → ⊥)) ⊥) }
    {
        if generation == self.generation {
            return go(cursor, alloc, &mut self.current, motion);
        }
        match self.older.get_mut(&generation) {
            Some(table) => go(cursor, alloc, table, motion),
            None => Err(missing_table()),
        }
    }

    // Adds the entry of an operation.
    fn add_operation(&mut self, operation: &Operation)
        requires entry_room { 0 < self.old.current.entry_room }
        requires byte_room { operation_bytes operation.now ≤ self.old.current.byte_room }
        requires fits { self.old.last + 1 < 2 ^ 56 }
        ensures written { HasMoreEntries self.old self.new (made_entry (self.old.last + 1) operation.now ∷ []) }
        ensures last { self.new.last ≡ self.old.last + 1 }
        ensures entry_room { self.new.current.entry_room ≡ self.old.current.entry_room - 1 }
        ensures byte_room { self.new.current.byte_room ≡ self.old.current.byte_room - operation_bytes operation.now }
    {
        self.last += 1;
        match operation {
            Operation::Put(key, value) => {
                self.current
                    .insert(key.as_slice(), self.last, Some(value.as_slice()))
            }
            Operation::Delete(key) => self.current.insert(key.as_slice(), self.last, None),
        }
    }
}

// Why a cursor over a table that isn't there is refused: the entries of the log that it was made
// for aren't in memory.
fn missing_table() -> DbError
    ensures { result ≡ Corrupt Log Missing }
{
    DbError::Corrupt(FileKind::Log, Damage::Missing)
}

// Whether the table of a generation is sealed, or read by these users.
fn is_used<U: Users>(users: &U, sealed: Option<u64>, generation: u64) -> bool
    ensures { MatchBool result ((sealed ≡ Some generation) ⊎ U.names users.now generation)
        ((sealed ≡ Some generation) ⊎ U.names users.now generation → ⊥) }
{
    sealed == Some(generation) || users.names(generation)
}

// What the newest entry of a user key up to a sequence number put into this table.
fn value_in<K: KeyOrder>(
    alloc: Global,
    table: &MemTable<K>,
    key: &[u8],
    sequence: u64,
) -> Result<Option<Option<Bytes>>, AllocError>
    ensures { IfOk result (λ answer. IsAnswer table.now.inserts sequence key.now answer) }
{
    match table.get(key, sequence) {
        None => Ok(None),
        Some(None) => Ok(Some(None)),
        Some(Some(value)) => Ok(Some(Some(Bytes::copied_from(alloc, value)?))),
    }
}

// How many bytes the keys and values of the operations have; None if that passes 64 bits.
fn bytes_of(operations: &[Operation]) -> Option<usize>
    ensures { IfSome result (λ bytes. bytes ≡ sum_by operation_bytes operations.now) }
{
    let mut bytes: usize = 0;
    for operation in operations {
        bytes = bytes.checked_add(bytes_in(operation))?;
    }
    Some(bytes)
}

fn bytes_in(operation: &Operation) -> usize
    ensures { result ≡ operation_bytes operation.now }
{
    match operation {
        Operation::Put(key, value) => key.as_slice().len() + value.as_slice().len(),
        Operation::Delete(key) => key.as_slice().len(),
    }
}
