//! Files of tables, and sources that read them.

use crate::entries::{Row, entries_of, write};
use crate::layouts::{TableRow, placed};
use cache::{BlockCache, TableCache};
use coding::{Bytes, DbError};
use ikey::Bytewise;
use std::alloc::Global;
use std::num::NonZeroUsize;
use store::{FaultStore, MemStore, Store};
use table_access::{TableCursor, Tables, table_value};

/// The name of a table's file, and its entries.
pub type File = (&'static str, &'static [Row]);

// Writes a table of which blocks are ended by so many bytes.
fn put_file(
    alloc: Global,
    store: &mut MemStore,
    file: &File,
    block_bytes: usize,
) -> Result<u64, DbError> {
    let entries = entries_of(alloc, file.1)?;
    write::<Bytewise, MemStore>(alloc, store, file.0, block_bytes, &entries)
}

/// Makes a store with these tables.
pub fn stored(alloc: Global, files: &[File], block_bytes: usize) -> Result<MemStore, DbError> {
    let mut store = MemStore::new(alloc);
    for file in files {
        put_file(alloc, &mut store, file, block_bytes)?;
    }
    Ok(store)
}

/// Returns the same, of which calls are counted from then on.
pub fn counted(alloc: Global, files: &[File], block_bytes: usize) -> Result<FaultStore, DbError> {
    Ok(FaultStore::new(stored(alloc, files, block_bytes)?, None))
}

/// Makes a store that is read through caches of so many tables and so many blocks, which is more
/// than none.
pub fn cached<S: Store + Drop>(
    alloc: Global,
    store: S,
    tables: usize,
    blocks: usize,
) -> Result<Tables<Bytewise, S>, DbError> {
    let mut source = Tables::over(store);
    if let Some(capacity) = NonZeroUsize::new(tables) {
        source.tables = TableCache::new(alloc, capacity)?;
    }
    if let Some(capacity) = NonZeroUsize::new(blocks) {
        source.blocks = BlockCache::new(alloc, capacity)?;
    }
    Ok(source)
}

/// Returns whether what was found of a key is this: nothing, a delete or a put of these bytes.
pub fn is_value(found: &Option<Option<Bytes>>, wanted: Option<Option<&[u8]>>) -> bool {
    match (found, wanted) {
        (None, None) => true,
        (Some(None), Some(None)) => true,
        (Some(Some(value)), Some(Some(bytes))) => value.as_slice() == bytes,
        _ => false,
    }
}

/// Opens a cursor over a table, whose number isn't 0.
pub fn opened<S: Store>(
    alloc: Global,
    source: &mut Tables<Bytewise, S>,
    row: &TableRow,
) -> Result<TableCursor<Bytewise>, DbError> {
    let placed = placed(alloc, row)?;
    if placed.table.number == 0 {
        return Err(DbError::BadLine);
    }
    TableCursor::open(alloc, source, &placed)
}

/// Returns what the newest entry of a user key up to a sequence number put in such a table.
pub fn value_in<S: Store>(
    alloc: Global,
    source: &mut Tables<Bytewise, S>,
    row: &TableRow,
    key: &[u8],
    sequence: u32,
) -> Result<Option<Option<Bytes>>, DbError> {
    let placed = placed(alloc, row)?;
    if placed.table.number == 0 {
        return Err(DbError::BadLine);
    }
    table_value(alloc, source, &placed, key, u64::from(sequence))
}
