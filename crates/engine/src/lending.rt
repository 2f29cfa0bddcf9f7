//! What a session lends while no database is open: its store, of which nothing is kept in memory.

ghost use Rattle.std.specs.Prelude.{◌≡◌, []};
ghost use Rattle.memtables.specs.Memories.{IsAlone};

use db_cursor::Sources;
use ikey::KeyOrder;
use memtables::MemoryTables;
use std::alloc::Global;
use store::Store;
use table_access::Tables;

/// Makes sources of a store with nothing kept beside it. It takes no memory.
pub fn sources_over<K: KeyOrder, S: Store>(alloc: Global, store: S) -> Sources<K, S>
    ensures { result.tables.store ≡ store }
{
    Sources {
        tables: Tables::over(store),
        memory: MemoryTables::empty(alloc),
    }
}

/// Forgets all that is kept beside the store.
pub fn forget<K: KeyOrder, S: Store>(alloc: Global, source: &mut Sources<K, S>)
    ensures store { source.new.tables.store ≡ source.old.tables.store }
    ensures tables { (source.new.tables.tables.tables ≡ []) × (source.new.tables.blocks.blocks ≡ []) }
    ensures memory { IsAlone source.new.memory × (source.new.memory.current.inserts ≡ []) }
{
    source.tables.end();
    source.memory = MemoryTables::empty(alloc);
}

/// Returns the store alone.
pub fn store_in<K: KeyOrder, S: Store>(source: Sources<K, S>) -> S
    ensures { result ≡ source.tables.store }
{
    let Sources { tables, memory: _ } = source;
    let Tables {
        store,
        tables: _,
        blocks: _,
    } = tables;
    store
}
