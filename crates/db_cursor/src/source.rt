//! What an open database reads.

use ikey::KeyOrder;
use memtables::MemoryTables;
use store::{HasStore, Store};
use table_access::Tables;

/// Holds what an open database reads: its store with what is kept of its tables, and its memtables.
#[derive(Drop)]
pub struct Sources<K: KeyOrder, S> {
    pub tables: Tables<K, S>,
    pub memory: MemoryTables<K>,
}

/// A compaction writes its tables to the store, and leaves what is kept of others.
impl<K: KeyOrder, S: Store> HasStore<S> for Sources<K, S> {
    ghost use Rattle.std.proofs.Common.{refl};
    ghost use Rattle.table_access.specs.Tables.{KeepsOf, seen_through};

    ghost store_of = { λ source. source.tables.store };

    ghost with_store = { λ source store. record source { tables = record source.tables { store = store } } };

    ghost gathers = { λ source number. KeepsOf (seen_through S.facts source.tables) number };

    fn store_mut(&mut self) -> &mut S {
        let tables = &mut self.tables;
        &mut tables.store
    }

    ghost replaced = { λ source store. refl };

    ghost apart = { λ source store number kept. kept };
}
