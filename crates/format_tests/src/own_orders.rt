// A custom order: numbers as keys, by their value. `docs/ORDERS.md` explains it line by line.

ghost use Rattle.std.specs.Prelude.{codes, length};
ghost use Rattle.std.proofs.Common.{lit<};
ghost use Rattle.std.specs.Ordering.{nat_cmp, on, then_cmp};
ghost use Rattle.std.specs.Cmp.{nat_cmp_total, on_total, then_total};
ghost use Rattle.std.specs.Cmp.Lexicographic.{slice_cmp, nat_list_cmp_total};
ghost use Rattle.format_tests.specs.ShorterFirst.{shorter_first_exact};

use ikey::KeyOrder;
use memtable::MemTable;
use std::alloc::{AllocError, Global};
use std::cmp::Ordering;
use std::test::*;

// The shorter key first, and of one length the first byte that differs decides. So numbers without
// a zero in front, in decimal as in big-endian bytes, stand by their value.
struct ShorterFirst;

impl KeyOrder for ShorterFirst {
    ghost name = { codes "example.ShorterFirst" };

    ghost cmp = { then_cmp (on length nat_cmp) (slice_cmp nat_cmp) };

    fn name() -> &'static str {
        "example.ShorterFirst"
    }

    fn compare(a: &[u8], b: &[u8]) -> Ordering {
        match a.len().cmp(&b.len()) {
            Ordering::Less => Ordering::Less,
            Ordering::Equal => a.cmp(b),
            Ordering::Greater => Ordering::Greater,
        }
    }

    ghost total = { then_total (on_total length nat_cmp_total) nat_list_cmp_total };

    ghost exact = { shorter_first_exact };

    ghost name_fits = { lit< tt };
}

const WRITTEN: [&[u8]; 9] = [
    b"100",
    b"9",
    b"",
    b"10",
    b"99",
    b"2",
    b"1000",
    b"\x01\x00\x00",
    b"\xff\xff",
];

// The same by length: the empty key, the numbers of one digit, of two and so on.
const SORTED: [&[u8]; 9] = [
    b"",
    b"2",
    b"9",
    b"10",
    b"99",
    b"\xff\xff",
    b"\x01\x00\x00",
    b"100",
    b"1000",
];

fn table_of(alloc: Global, keys: &[&[u8]]) -> Result<MemTable<ShorterFirst>, AllocError> {
    let mut table = MemTable::new(alloc);
    for key in keys {
        table.reserve(1, key.len())?;
        if !table.contains(key, 1) {
            table.insert(key, 1, None);
        }
    }
    Ok(table)
}

fn is_walked(table: &MemTable<ShorterFirst>, keys: &[&[u8]]) -> bool {
    let mut at = table.first();
    for key in keys {
        let Some(node) = at else {
            return false;
        };
        if table.entry(node).key != *key {
            return false;
        }
        at = table.next(node);
    }
    at.is_none()
}

// The first key that doesn't come before this one.
fn is_sought(table: &MemTable<ShorterFirst>, key: &[u8], wanted: &[u8]) -> bool {
    match table.seek(key, 1) {
        Some(node) => table.entry(node).key == wanted,
        None => false,
    }
}

#[test]
fn numbers_are_sorted_by_their_value(rt: HostRuntime) -> Result<(), Fail> {
    let table = table_of(rt.alloc(), &WRITTEN)?;
    assert!(rt; is_walked(&table, &SORTED));
    assert!(rt; is_sought(&table, b"11", b"99"));
    assert!(rt; is_sought(&table, b"101", b"1000"));
    assert!(rt; table.seek(b"9999", 1).is_none());
    Ok(())
}
