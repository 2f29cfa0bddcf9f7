// Versions as the tests make them, of tables that need not be there.
ghost use Rattle.std.specs.Prelude.{◌≡◌, length, IfOk};

use coding::{Bytes, DbError};
use edits::{Layout, PlacedTable, TableFile};
use ikey::{Bytewise, Kind, pack};
use std::alloc::{AllocError, Global};
use versions::Version;

/// A table by its level, number and size, its first user key and sequence number, and its last.
#[derive(Clone, Copy)]
pub struct TableRow(
    pub u32,
    pub u64,
    pub u64,
    pub &'static [u8],
    pub u32,
    pub &'static [u8],
    pub u32,
);

/// A level, and the user key and the sequence number of its compact pointer.
pub type Pointer = (u32, &'static [u8], u32);

pub fn key_of(alloc: Global, user: &[u8], sequence: u32) -> Result<Bytes, AllocError> {
    Ok(Bytes::from_vec(pack(alloc, user, u64::from(sequence), Kind::Put)?))
}

pub fn placed(alloc: Global, row: &TableRow) -> Result<PlacedTable, AllocError> {
    let TableRow(level, number, size, first, first_sequence, last, last_sequence) = *row;
    let smallest = key_of(alloc, first, first_sequence)?;
    let largest = key_of(alloc, last, last_sequence)?;
    Ok(PlacedTable {
        level,
        table: TableFile {
            number,
            size,
            smallest,
            largest,
        },
    })
}

fn tables_of(alloc: Global, rows: &[TableRow]) -> Result<Vec<PlacedTable>, AllocError> {
    let mut tables = Vec::new(alloc);
    for row in rows {
        tables.push(placed(alloc, row)?)?;
    }
    Ok(tables)
}

// No compact pointer but this one.
fn pointers_of(alloc: Global, pointer: Option<Pointer>) -> Result<Vec<Option<Bytes>>, AllocError>
    ensures { IfOk result (λ pointers. length pointers.items ≡ 7) }
{
    let mut pointers = Vec::new(alloc);
    for level in 0..7 {
        pointers.push(pointer_at(alloc, level, pointer)?)?;
    }
    Ok(pointers)
}

fn pointer_at(
    alloc: Global,
    level: u32,
    pointer: Option<Pointer>,
) -> Result<Option<Bytes>, AllocError> {
    match pointer {
        Some((own, user, sequence)) if own == level => Ok(Some(key_of(alloc, user, sequence)?)),
        Some(_) => Ok(None),
        None => Ok(None),
    }
}

pub fn layout_of(
    alloc: Global,
    rows: &[TableRow],
    pointer: Option<Pointer>,
) -> Result<Layout, AllocError>
    ensures { IfOk result (λ layout. length layout.compact_pointers.items ≡ 7) }
{
    let tables = tables_of(alloc, rows)?;
    Ok(Layout {
        log_number: 0,
        previous_log_number: 0,
        next_file_number: 100,
        last_sequence: 100,
        compact_pointers: pointers_of(alloc, pointer)?,
        tables,
    })
}

/// Returns the version of these tables, which can stand in one.
pub fn version_of(
    alloc: Global,
    rows: &[TableRow],
    pointer: Option<Pointer>,
) -> Result<Version<Bytewise>, DbError> {
    let layout = layout_of(alloc, rows, pointer)?;
    match Version::new(alloc, &layout) {
        Ok(version) => Ok(version),
        Err(_) => Err(DbError::BadLine),
    }
}
