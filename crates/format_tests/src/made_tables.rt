// Memtables that are made of all their entries at once, beside ones that are filled.

ghost use Rattle.std.specs.Prelude.{IfOk};
ghost use Rattle.memtable.specs.Newest.{AllDiffer};

use coding::Bytes;
use ikey::{Bytewise, Entry};
use memtable::MemTable;
use std::alloc::{AllocError, Global};
use std::test::*;

// One front may be that of several keys, and one key that of several entries.
const KEYS: [&[u8]; 9] = [
    b"b",
    b"a",
    b"0123456789abcdefz",
    b"",
    b"0123456789abcdef",
    b"b",
    b"0123456789abcdefa",
    b"a\x00",
    b"b",
];

// The numbers of the entries in their order: of one key the newest first.
const ORDER: [u32; 9] = [4, 5, 7, 3, 2, 8, 9, 6, 1];

fn entries_of(alloc: Global, keys: &[&[u8]]) -> Result<Vec<Entry>, AllocError>
    ensures { IfOk result (λ entries. AllDiffer entries.items) }
{
    let mut entries = Vec::new(alloc);
    for index in 0..keys.len() {
        entries.push(Entry {
            key: Bytes::copied_from(alloc, keys[index])?,
            sequence: index as u64,
            value: None,
        })?;
    }
    Ok(entries)
}

fn made_at_once(alloc: Global, keys: &[&[u8]]) -> Result<MemTable<Bytewise>, AllocError> {
    let entries = entries_of(alloc, keys)?;
    MemTable::of(alloc, &entries)
}

fn filled(alloc: Global, keys: &[&[u8]]) -> Result<MemTable<Bytewise>, AllocError> {
    let mut table = MemTable::new(alloc);
    let mut sequence: u64 = 0;
    for key in keys {
        table.reserve(1, key.len())?;
        if !table.contains(key, sequence) {
            table.insert(key, sequence, None);
        }
        sequence = sequence.saturating_add(1);
    }
    Ok(table)
}

// Whether the nodes are walked in this order, from the front on.
fn is_walked(table: &MemTable<Bytewise>, order: &[u32]) -> bool {
    let mut at = table.first();
    for number in order {
        let Some(node) = at else {
            return false;
        };
        if node.number() != *number {
            return false;
        }
        at = table.next(node);
    }
    at.is_none()
}

// The second level has the fourth node and the eighth, and the third one none.
fn stand_on_levels(table: &MemTable<Bytewise>) -> bool {
    table.node_after(0, 0) == 4 && table.node_after(0, 1) == 4 && table.node_after(0, 2) == 0
}

#[test]
fn a_table_made_at_once_is_walked_in_order(rt: HostRuntime) -> Result<(), Fail> {
    let table = made_at_once(rt.alloc(), &KEYS)?;
    assert!(rt; is_walked(&table, &ORDER) && stand_on_levels(&table));
    Ok(())
}

#[test]
fn so_is_one_that_was_filled(rt: HostRuntime) -> Result<(), Fail> {
    let table = filled(rt.alloc(), &KEYS)?;
    assert!(rt; is_walked(&table, &ORDER) && stand_on_levels(&table));
    Ok(())
}

// ---- further writes

fn goes_on(alloc: Global) -> Result<bool, AllocError> {
    let mut table = made_at_once(alloc, &KEYS)?;
    table.reserve(1, 1)?;
    if table.contains(b"c", 9) {
        return Ok(false);
    }
    table.insert(b"c", 9, None);
    Ok(matches!(table.last(), Some(node) if node.number() == 10))
}

#[test]
fn a_table_made_at_once_takes_further_entries(rt: HostRuntime) {
    assert_eq!(rt; goes_on(rt.alloc()), Ok(true));
}
