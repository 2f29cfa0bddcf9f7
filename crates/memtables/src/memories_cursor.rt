//! A cursor over one of the memtables of an open database (LevelDB's db/memtable.cc,
//! MemTableIterator).

use crate::memory_tables::MemoryTables;
use crate::motion::Motion;
use coding::DbError;
use cursor::Cursor;
use ikey::KeyOrder;
use memtable::MemTable;
use std::alloc::Global;
use std::marker::Model;
use table_access::MemoryCursor;

/// Holds a cursor over the memtable of a generation, whichever it is by then: the current one, the
/// sealed one, or one that is kept for readers. It lists that table's entries up to a sequence
/// number. If the table isn't there, it lists nothing, and a move answers Corrupt.
#[derive(Drop)]
pub struct MemoriesCursor<K: KeyOrder> {
    generation: u64,
    cursor: MemoryCursor<K>,
}

impl<K: KeyOrder> Model for MemoriesCursor<K> {
    ghost use Rattle.memtables.specs.Places.{MemoriesPlace};

    ghost Value = { MemoriesPlace };

    ghost view = { λ c. record { generation = c.generation; place = c.cursor } };
}

impl<K: KeyOrder> MemoriesCursor<K> {
    ghost use Rattle.std.specs.Prelude.{◌≡◌, ◌<◌, ◌^◌, [], Some, None};
    ghost use Rattle.cursor.specs.Merging.{listed};
    ghost use Rattle.memtables.specs.Memories.{table_in};
    ghost use Rattle.memtables.specs.Places.{ListsMemories};
    ghost use Rattle.memtable.specs.Contents.{Contents};
    ghost use Rattle.table_access.specs.Memory.{seen_entries};

    /// Makes a cursor over the table of this generation, up to the sequence number, which is below
    /// `SEQUENCE_END`. It stands nowhere, and takes no memory.
    pub fn new(alloc: Global, generation: u64, sequence: u64) -> Self
        requires { sequence < 2 ^ 56 }
        ensures { result ≡ record { generation = generation; place = record { sequence = sequence; node = None; key = [] } } }
    {
        MemoriesCursor {
            generation,
            cursor: MemoryCursor::new(alloc, sequence),
        }
    }

    /// Proves that a cursor that stands nowhere, as a new one does, lists what is seen of the table
    /// of its generation at its sequence number.
    pub fn begins(&self, source: &MemoryTables<K>)
        requires { self.now.place.node ≡ None }
        ensures { (table : Contents) → table_in source.now self.now.generation ≡ Some table
            → ListsMemories K.cmp self.now source.now (listed (seen_entries K.cmp table.inserts self.now.place.sequence) None) }
    {
        if let Some(table) = source.table(self.generation) {
            self.cursor.begins(table);
        }
    }
}

impl<K: KeyOrder> Cursor<K, MemoryTables<K>> for MemoriesCursor<K> {
    ghost use Rattle.std.specs.Prelude.{is_some};
    ghost use Rattle.std.proofs.Common.{◌∙◌, refl};
    ghost use Rattle.memtables.specs.Places.{ListsMemories, KeepsMemories, LeavesMemories};
    ghost use Rattle.memtables.specs.PlaceLaws.{lists_rise, placed_there, inside_there, kept_there, left_there, left_onward};
    ghost use Rattle.table_access.specs.Memory.{memory_facts};

    ghost facts = { λ source. memory_facts };

    ghost lists = { λ cursor source at. ListsMemories K.cmp cursor source at };

    ghost keeps = { λ cursor old new. KeepsMemories K.cmp cursor old new };

    ghost stands = { λ cursor. is_some cursor.place.node };

    ghost limited = { λ cursor source. ⊥ };

    ghost torn = { λ cursor source cut. ⊥ };

    ghost leaves = { λ numbers old new. LeavesMemories old new };

    ghost over = { λ cursor number. ⊥ };

    fn first(&mut self, alloc: Global, source: &mut MemoryTables<K>) -> Result<(), DbError> {
        source.move_cursor(alloc, self.generation, &mut self.cursor, Motion::First)
    }

    fn last(&mut self, alloc: Global, source: &mut MemoryTables<K>) -> Result<(), DbError> {
        source.move_cursor(alloc, self.generation, &mut self.cursor, Motion::Last)
    }

    fn seek(
        &mut self,
        alloc: Global,
        source: &mut MemoryTables<K>,
        target: &[u8],
    ) -> Result<(), DbError> {
        source.move_cursor(
            alloc,
            self.generation,
            &mut self.cursor,
            Motion::Seek(target),
        )
    }

    fn next(&mut self, alloc: Global, source: &mut MemoryTables<K>) -> Result<(), DbError> {
        source.move_cursor(alloc, self.generation, &mut self.cursor, Motion::Next)
    }

    fn prev(&mut self, alloc: Global, source: &mut MemoryTables<K>) -> Result<(), DbError> {
        source.move_cursor(alloc, self.generation, &mut self.cursor, Motion::Prev)
    }

    fn stands(&self) -> bool {
        Cursor::<K, MemTable<K>>::stands(&self.cursor)
    }

    fn key<'a>(&'a self, source: &'a MemoryTables<K>) -> &'a [u8] {
        match source.table(self.generation) {
            Some(table) => self.cursor.key(table),
            None => &[],
        }
    }

    fn value<'a>(&'a self, source: &'a MemoryTables<K>) -> &'a [u8] {
        match source.table(self.generation) {
            Some(table) => self.cursor.value(table),
            None => &[],
        }
    }

    ghost rises = { λ cursor source at h. lists_rise K.cmp cursor source at h };

    ghost placed = { λ cursor source at h. placed_there K.cmp cursor source at h };

    ghost inside = { λ cursor source at index h e. inside_there K.cmp cursor source at index h e };

    ghost kept = { λ cursor old new at k h. kept_there K.cmp cursor old new at k h };

    ghost still = { λ cursor source. refl };

    ghost onward = { λ cursor first second third k l. k ∙ l };

    ghost limits_kept = { λ cursor old new k l. l };

    ghost torn_kept = { λ cursor old new cut k t. t };

    ghost torn_same = { λ cursor source at a b h same t. t };

    ghost leaves_still = { λ numbers source. left_there source };

    ghost leaves_onward = { λ numbers first second third k l. left_onward first second third k l };

    ghost leaves_more = { λ fewer more old new less k. k };
}
