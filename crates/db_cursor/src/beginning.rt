//! The cursors over the memtables and the tables of a version (LevelDB's db/version_set.cc,
//! Version::AddIterators).

ghost use Rattle.std.specs.Prelude.{◌≡◌, ◌<◌, ◌≤◌, ◌+◌, ◌^◌, ◌++◌, ◌∷◌, ℕ, [], Some, None, length, map, OnOk, IfOk};
ghost use Rattle.cursor.specs.Merging.{listed};
ghost use Rattle.memtables.specs.Memories.{table_in};
ghost use Rattle.memtables.specs.Places.{ListsMemories};
ghost use Rattle.memtable.specs.Contents.{Contents};
ghost use Rattle.db_cursor.specs.Rows.{IsGenerationOf};
ghost use Rattle.db_cursor.specs.internal.Rows.{OfMemory};
ghost use Rattle.db_cursor.specs.internal.Rows.{below, deeper_ranges, memory_spots};
ghost use Rattle.db_cursor.specs.internal.Rows.{newest_ranges, place_in, range_kept, spot_of, spots_of};
ghost use Rattle.table_access.specs.Memory.{seen_entries};
ghost use Rattle.versions.specs.Levels.{tables_at};

use crate::source_cursor::SourceCursor;
use edits::LEVELS;
use ikey::KeyOrder;
use level_cursor::RowCursor;
use memtables::{MemoriesCursor, MemoryTables};
use std::alloc::{AllocError, Global};
use std::rc::Rc;
use versions::Version;

/// Adds a cursor over the current memtable, and one over the sealed one, if there is one, up to a
/// sequence number.
pub fn add_memory<K: KeyOrder>(
    alloc: Global,
    cursors: &mut Vec<SourceCursor<K>>,
    memory: &MemoryTables<K>,
    sequence: u64,
) -> Result<(), AllocError>
    requires { sequence < 2 ^ 56 }
    ensures spots { OnOk result
        (map spot_of cursors.new.items ≡ map spot_of cursors.old.items ++ memory_spots sequence memory.now.generation memory.now.sealed) }
    ensures lists { OnOk result ((generation : ℕ) (table : Contents) → IsGenerationOf memory.now.generation memory.now.sealed generation
        → table_in memory.now generation ≡ Some table
        → ListsMemories K.cmp (place_in sequence generation) memory.now (listed (seen_entries K.cmp table.inserts sequence) None)) }
{
    add_table(alloc, cursors, memory, memory.generation(), sequence)?;
    let Some(sealed) = memory.sealed_generation() else {
        return Ok(());
    };
    add_table(alloc, cursors, memory, sealed, sequence)?;
    Ok(())
}

// Adds a cursor over the memtable of a generation.
fn add_table<K: KeyOrder>(
    alloc: Global,
    cursors: &mut Vec<SourceCursor<K>>,
    memory: &MemoryTables<K>,
    generation: u64,
    sequence: u64,
) -> Result<(), AllocError>
    requires { sequence < 2 ^ 56 }
    ensures spots { OnOk result (map spot_of cursors.new.items ≡ map spot_of cursors.old.items ++ OfMemory
        (place_in sequence generation) ∷ []) }
    ensures lists { OnOk result ((table : Contents) → table_in memory.now generation ≡ Some table
        → ListsMemories K.cmp (place_in sequence generation) memory.now (listed (seen_entries K.cmp table.inserts sequence) None)) }
{
    let cursor = MemoriesCursor::new(alloc, generation, sequence);
    cursor.begins(memory);
    cursors.push(SourceCursor::Memory(cursor))?;
    Ok(())
}

/// Adds a cursor for each table of level 0, from the one of the highest number down.
pub fn add_newest<K: KeyOrder>(
    cursors: &mut Vec<SourceCursor<K>>,
    version: &Rc<Version<K>>,
) -> Result<(), AllocError>
    ensures { OnOk result (map spot_of cursors.new.items ≡ map spot_of cursors.old.items
        ++ spots_of version.now.value.tables (newest_ranges (length (tables_at 0 version.now.value.tables)))) }
{
    let mut index = version.level(0).len();
    while index > 0 {
        index -= 1;
        add_row(cursors, version, index, index + 1)?;
    }
    Ok(())
}

/// Adds a cursor for each deeper level that has tables.
pub fn add_levels<K: KeyOrder>(
    cursors: &mut Vec<SourceCursor<K>>,
    version: &Rc<Version<K>>,
) -> Result<(), AllocError>
    ensures { OnOk result (map spot_of cursors.new.items ≡ map spot_of cursors.old.items
        ++ spots_of version.now.value.tables (deeper_ranges version.now.value.tables 6)) }
{
    // No index into them passes what a slice can have.
    let _tables = version.tables();
    let mut level = 1;
    let mut from = version.level(0).len();
    while level < LEVELS {
        let end = from + version.level(level).len();
        add_row(cursors, version, from, end)?;
        from = end;
        level += 1;
    }
    Ok(())
}

// Adds a cursor over the tables from one index to another, if there are any.
fn add_row<K: KeyOrder>(
    cursors: &mut Vec<SourceCursor<K>>,
    version: &Rc<Version<K>>,
    from: usize,
    end: usize,
) -> Result<(), AllocError>
    requires below { from ≤ end }
    requires within { end ≤ length version.now.value.tables }
    ensures { OnOk result (map spot_of cursors.new.items ≡ map spot_of cursors.old.items ++ spots_of version.now.value.tables
        (range_kept from end)) }
{
    if from == end {
        return Ok(());
    }
    let row = RowCursor::over(version.clone()?, from, end);
    cursors.push(SourceCursor::Row(row))?;
    Ok(())
}
