ghost use Rattle.std.specs.Prelude.{◌<◌, ◌^◌, All, IfOk, length};
ghost use Rattle.edits.specs.Edit.{IsInternal, IsProper, IsInOrder};
ghost use Rattle.edits.specs.declared.field.Field.TheVariants.{NewFile};

use coding::{Bytes, Damage, Feature, ReadError};
use edits::{
    Edit, Field, FileName, Layout, PlacedTable, TableFile, decode_edit, encode_edit, fold_edits,
    layouts_are_kept, parse_name, print_name, snapshot_edit,
};
use std::alloc::{AllocError, Global};
use std::test::*;

const COMPARATOR: &[u8] = b"leveldb.BytewiseComparator";

// The internal key of put(61) at sequence number 1.
const KEY: [u8; 9] = [0x61, 1, 1, 0, 0, 0, 0, 0, 0];

// The edit of a flush: log 3, next file 5, last sequence number 1, and the table 4 of 176 bytes at
// level 0.
const FLUSH: [u8; 31] = [
    0x02, 0x03, 0x03, 0x05, 0x04, 0x01, 0x07, 0x00, 0x04, 0xB0, 0x01, 0x09, 0x61, 0x01, 0x01, 0, 0,
    0, 0, 0, 0, 0x09, 0x61, 0x01, 0x01, 0, 0, 0, 0, 0, 0,
];

fn key(alloc: Global) -> Result<Bytes, AllocError>
    ensures { IfOk result (λ key. (length key < 2 ^ 32) × IsInternal key) }
{
    Ok(Bytes::copied_from(alloc, &KEY)?)
}

fn flushed(alloc: Global) -> Result<PlacedTable, AllocError>
    ensures { IfOk result (λ placed. IsProper (NewFile placed)) }
{
    let smallest = key(alloc)?;
    let largest = key(alloc)?;
    Ok(PlacedTable {
        level: 0,
        table: TableFile {
            number: 4,
            size: 176,
            smallest,
            largest,
        },
    })
}

// The first edit of an empty database: log 2, next file 3, no sequence number used.
fn first_edit(alloc: Global) -> Result<Edit, AllocError>
    ensures proper { IfOk result (λ edit. All IsProper edit) }
    ensures order { IfOk result (λ edit. IsInOrder edit) }
{
    let mut edit = Edit::new(alloc);
    edit.push(Field::Comparator(Bytes::copied_from(alloc, COMPARATOR)?))?;
    edit.push(Field::LogNumber(2))?;
    edit.push(Field::NextFileNumber(3))?;
    edit.push(Field::LastSequence(0))?;
    Ok(edit)
}

#[test]
fn first_edit_has_34_bytes(rt: HostRuntime) -> Result<(), Fail> {
    let alloc = rt.alloc();
    let bytes = encode_edit(alloc, &first_edit(alloc)?)?;
    assert_eq!(rt; bytes.len(), 34);
    assert!(rt; bytes.starts_with(&[1, 0x1A]));
    assert!(rt; bytes.ends_with(b"leveldb.BytewiseComparator\x02\x02\x03\x03\x04\x00"));
    Ok(())
}

// One field of each tag.
fn edit_of_every_tag(alloc: Global) -> Result<Edit, AllocError>
    ensures proper { IfOk result (λ edit. All IsProper edit) }
    ensures order { IfOk result (λ edit. IsInOrder edit) }
{
    let mut edit = Edit::new(alloc);
    edit.push(Field::Comparator(Bytes::copied_from(alloc, b"c")?))?;
    edit.push(Field::LogNumber(3))?;
    edit.push(Field::NextFileNumber(5))?;
    edit.push(Field::LastSequence(1))?;
    edit.push(Field::CompactPointer(1, key(alloc)?))?;
    edit.push(Field::DeletedFile(2, 300))?;
    edit.push(Field::NewFile(flushed(alloc)?))?;
    edit.push(Field::PreviousLogNumber(2))?;
    Ok(edit)
}

#[test]
fn every_tag_is_written(rt: HostRuntime) -> Result<(), Fail> {
    let alloc = rt.alloc();
    let bytes = encode_edit(alloc, &edit_of_every_tag(alloc)?)?;
    assert!(rt;
        bytes.starts_with(&[
            1, 1, b'c', 2, 3, 3, 5, 4, 1, 5, 1, 9, b'a', 1, 1, 0, 0, 0, 0, 0, 0, 6, 2, 0xAC, 2, 7,
            0, 4, 0xB0, 1, 9, b'a'
        ])
    );
    assert!(rt; bytes.ends_with(&[1, 1, 0, 0, 0, 0, 0, 0, 9, 2]));
    assert_eq!(rt; bytes.len(), 52);
    let again = decode_edit(alloc, &bytes)
        .ok()
        .ok_or("the bytes are an edit")?;
    assert_eq!(rt; again.fields().len(), 8);
    Ok(())
}

// The bytes of the edit that leaves alone what these bytes leave.
fn snapshot_of(alloc: Global, bytes: &[u8], previous_log_number: u64) -> Result<Vec<u8>, Fail> {
    let Ok(edit) = decode_edit(alloc, bytes) else {
        return Err(Fail::from("the bytes are no edit"));
    };
    let edits = [edit];
    let Ok(layout) = fold_edits(alloc, COMPARATOR, &edits) else {
        return Err(Fail::from("the edit leaves no layout"));
    };
    // Laws, for the proof alone.
    layouts_are_kept();
    let snapshot = snapshot_edit(alloc, COMPARATOR, 7, previous_log_number, 9, 5, &layout)?;
    Ok(encode_edit(alloc, &snapshot)?)
}

// Two pointers, with the keys of p and q, and two tables, with keys of no user key, out of order.
const MIXED: &[u8] =
    b"\x02\x03\x05\x02\x09p\x01\x01\0\0\0\0\0\0\x03\x05\x05\0\x09q\x01\x01\0\0\0\0\0\0\
    \x07\x01\x06\x01\x08\0\x01\0\0\0\0\0\0\x08\0\0\0\0\0\0\0\0\
    \x07\0\x08\x01\x08\0\x01\0\0\0\0\0\0\x08\0\0\0\0\0\0\0\0\x04\x01";

// What an edit says that repeats them.
const SORTED: &[u8] =
    b"\x02\x07\x03\x09\x04\x05\x05\0\x09q\x01\x01\0\0\0\0\0\0\x05\x02\x09p\x01\x01\0\0\0\0\0\0\
    \x07\0\x08\x01\x08\0\x01\0\0\0\0\0\0\x08\0\0\0\0\0\0\0\0\
    \x07\x01\x06\x01\x08\0\x01\0\0\0\0\0\0\x08\0\0\0\0\0\0\0\0\x09\x06";

#[test]
fn snapshot_repeats_the_layout(rt: HostRuntime) -> Result<(), Fail> {
    let alloc = rt.alloc();
    let name = b"\x01\x1Aleveldb.BytewiseComparator";
    let bytes = snapshot_of(alloc, &FLUSH, 0)?;
    assert!(rt; bytes.starts_with(name));
    assert!(rt;
        bytes.ends_with(
            b"\x02\x07\x03\x09\x04\x05\x07\x00\x04\xB0\x01\x09a\x01\x01\0\0\0\0\0\0\x09a\x01\x01\0\0\0\0\0\0"
        )
    );
    assert_eq!(rt; bytes.len(), 28 + 31);
    let bytes = snapshot_of(alloc, MIXED, 6)?;
    assert!(rt; bytes.starts_with(name));
    assert!(rt; bytes.ends_with(SORTED));
    assert_eq!(rt; bytes.len(), 28 + 76);
    Ok(())
}

// The layout that these edits leave, under the order of this name.
fn layout_of(alloc: Global, comparator: &[u8], edits: &[&[u8]]) -> Result<Layout, ReadError> {
    let mut read = Vec::new(alloc);
    for bytes in edits {
        read.push(decode_edit(alloc, bytes)?)?;
    }
    fold_edits(alloc, comparator, &read)
}

fn is_flushed(placed: &PlacedTable) -> bool {
    placed.level == 0
        && placed.table.number == 4
        && placed.table.size == 176
        && placed.table.smallest.as_slice() == KEY.as_slice()
        && placed.table.largest.as_slice() == KEY.as_slice()
}

// Whether this is what the flush alone leaves.
fn is_left_by_the_flush(layout: &Layout) -> bool {
    layout.log_number == 3
        && layout.previous_log_number == 0
        && layout.next_file_number == 5
        && layout.last_sequence == 1
        && layout.compact_pointers.len() == 7
        && matches!(layout.tables.as_slice(), [placed] if is_flushed(placed))
}

fn is_corrupt(alloc: Global, bytes: &[u8]) -> bool {
    matches!(decode_edit(alloc, bytes), Err(ReadError::Corrupt(_)))
}

fn has_fields(alloc: Global, bytes: &[u8], count: usize) -> bool {
    matches!(decode_edit(alloc, bytes), Ok(edit) if edit.fields().len() == count)
}

#[test]
fn flush_edit_is_read_and_cut_ones_are_corrupt(rt: HostRuntime) {
    let alloc = rt.alloc();
    assert!(rt; has_fields(alloc, &FLUSH, 4));
    assert!(rt;
        matches!(layout_of(alloc, COMPARATOR, &[&FLUSH]), Ok(layout) if is_left_by_the_flush(&layout))
    );
    for end in 1..31 {
        assert!(rt;
            end == 2 || end == 4 || end == 6 || is_corrupt(alloc, &FLUSH[..end]),
            "cut at {end}"
        );
    }
}

const MALFORMED: [&[u8]; 25] = [
    // tags that there are none of
    &[0],
    &[8],
    &[8, 1],
    &[10, 1],
    // a number that is cut, or longer than it has to be
    &[2],
    &[2, 0x80],
    &[2, 0x80, 0],
    // levels above 6
    &[5, 7, 8, 1, 1, 0, 0, 0, 0, 0, 0],
    &[6, 7, 1],
    &[
        7, 7, 4, 1, 8, 1, 1, 0, 0, 0, 0, 0, 0, 8, 1, 1, 0, 0, 0, 0, 0, 0,
    ],
    // a new file numbered 0
    &[
        7, 0, 0, 1, 8, 1, 1, 0, 0, 0, 0, 0, 0, 8, 1, 1, 0, 0, 0, 0, 0, 0,
    ],
    // a last sequence number of 2^56
    &[4, 0x80, 0x80, 0x80, 0x80, 0x80, 0x80, 0x80, 0x80, 1],
    // strings that are cut
    &[1, 2, b'c'],
    &[
        7, 0, 4, 1, 8, 1, 1, 0, 0, 0, 0, 0, 0, 9, 1, 1, 0, 0, 0, 0, 0, 0,
    ],
    // keys that are no internal keys: of no byte, of seven, and of an unknown kind
    &[5, 0, 0],
    &[5, 0, 7, 1, 1, 0, 0, 0, 0, 0],
    &[5, 0, 8, 2, 1, 0, 0, 0, 0, 0, 0],
    &[7, 0, 4, 1, 0, 8, 1, 1, 0, 0, 0, 0, 0, 0],
    &[
        7, 0, 4, 1, 7, 1, 1, 0, 0, 0, 0, 0, 8, 1, 1, 0, 0, 0, 0, 0, 0,
    ],
    &[
        7, 0, 4, 1, 8, 2, 1, 0, 0, 0, 0, 0, 0, 8, 1, 1, 0, 0, 0, 0, 0, 0,
    ],
    &[7, 0, 4, 1, 8, 1, 1, 0, 0, 0, 0, 0, 0, 0],
    &[
        7, 0, 4, 1, 8, 1, 1, 0, 0, 0, 0, 0, 0, 7, 1, 1, 0, 0, 0, 0, 0,
    ],
    &[
        7, 0, 4, 1, 8, 1, 1, 0, 0, 0, 0, 0, 0, 8, 2, 1, 0, 0, 0, 0, 0, 0,
    ],
    // a number of 2^64
    &[3, 0x80, 0x80, 0x80, 0x80, 0x80, 0x80, 0x80, 0x80, 0x80, 2],
    // a number past the reading limit before a field that is cut
    &[
        6, 0, 0x80, 0x80, 0x80, 0x80, 0x80, 0x80, 0x80, 0x80, 0x40, 2,
    ],
];

#[test]
fn malformed_edits_are_corrupt(rt: HostRuntime) {
    for bytes in MALFORMED {
        assert!(rt; is_corrupt(rt.alloc(), bytes), "{bytes:?}");
    }
}

const UNSUPPORTED: [&[u8]; 2] = [
    &[
        7, 0, 0x80, 0x80, 0x80, 0x80, 0x80, 0x80, 0x80, 0x80, 0x40, 0, 8, 1, 1, 0, 0, 0, 0, 0, 0,
        8, 1, 1, 0, 0, 0, 0, 0, 0,
    ],
    &[6, 0, 0x80, 0x80, 0x80, 0x80, 0x80, 0x80, 0x80, 0x80, 0x40],
];

const SUPPORTED: [&[u8]; 6] = [
    &[],
    &[5, 6, 8, 1, 0xFF, 0xFF, 0xFF, 0xFF, 0xFF, 0xFF, 0xFF],
    &[6, 0, 0xFF, 0xFF, 0xFF, 0xFF, 0xFF, 0xFF, 0xFF, 0xFF, 0x3F],
    &[4, 0xFF, 0xFF, 0xFF, 0xFF, 0xFF, 0xFF, 0xFF, 0x7F],
    &[2, 0xFF, 0xFF, 0xFF, 0xFF, 0xFF, 0xFF, 0xFF, 0xFF, 0xFF, 1],
    &[6, 0, 0],
];

fn has_great_number(alloc: Global, bytes: &[u8]) -> bool {
    matches!(
        decode_edit(alloc, bytes),
        Err(ReadError::Unsupported(Feature::TableNumber))
    )
}

#[test]
fn table_numbers_from_2_to_the_62_on_are_unsupported(rt: HostRuntime) {
    for bytes in UNSUPPORTED {
        assert!(rt; has_great_number(rt.alloc(), bytes), "{bytes:?}");
    }
    for bytes in SUPPORTED {
        assert!(rt; decode_edit(rt.alloc(), bytes).is_ok(), "{bytes:?}");
    }
}

const NUMBERS: &[u8] = &[2, 9, 3, 10, 4, 1];

const TWO: &[u8] = &[
    7, 1, 5, 1, 8, 1, 1, 0, 0, 0, 0, 0, 0, 8, 1, 1, 0, 0, 0, 0, 0, 0, 7, 0, 4, 1, 8, 1, 1, 0, 0, 0,
    0, 0, 0, 8, 1, 1, 0, 0, 0, 0, 0, 0,
];

// The new file stands before the deleted one.
const MOVED: &[u8] = &[
    7, 2, 5, 1, 8, 1, 1, 0, 0, 0, 0, 0, 0, 8, 1, 1, 0, 0, 0, 0, 0, 0, 6, 1, 5,
];

const DOUBLED: &[u8] = &[
    7, 3, 4, 1, 8, 1, 1, 0, 0, 0, 0, 0, 0, 8, 1, 1, 0, 0, 0, 0, 0, 0,
];

const OTHER_ORDER: &[u8] = &[1, 1, b'c'];

const OUR_ORDER: &[u8] = b"\x01\x1Aleveldb.BytewiseComparator";

// The log numbers, the current one first, and the level and the number of each table; or the
// refusal.
type Left = Result<(u64, u64, &'static [(u32, u64)]), ReadError>;

const ORDER: Left = Err(ReadError::Corrupt(Damage::Order));

const MISSING: Left = Err(ReadError::Corrupt(Damage::Missing));

const COMPARATORS: Left = Err(ReadError::Unsupported(Feature::Comparator));

// Edits, and what they leave.
const FOLDED: [(&[&[u8]], Left); 15] = [
    (&[NUMBERS, &[], &[]], Ok((9, 0, &[]))),
    (&[NUMBERS, &[9, 3], &[2, 11]], Ok((11, 3, &[]))),
    (&[NUMBERS, &[2, 5, 2, 4], OUR_ORDER], Ok((4, 0, &[]))),
    (&[NUMBERS, TWO, &[]], Ok((9, 0, &[(0, 4), (1, 5)]))),
    (&[NUMBERS, TWO, MOVED], Ok((9, 0, &[(0, 4), (2, 5)]))),
    (&[TWO, NUMBERS, &[6, 0, 4]], Ok((9, 0, &[(1, 5)]))),
    (&[NUMBERS, TWO, DOUBLED], ORDER),
    (&[NUMBERS, TWO, TWO], ORDER),
    (&[NUMBERS, TWO, &[6, 0, 5]], MISSING),
    (&[NUMBERS, MOVED, &[]], MISSING),
    (&[&[2, 9, 3, 10], TWO, &[]], MISSING),
    (&[&[2, 9, 4, 1], TWO, &[]], MISSING),
    (&[&[3, 10, 4, 1], TWO, &[]], MISSING),
    (&[NUMBERS, OTHER_ORDER, OUR_ORDER], COMPARATORS),
    (&[OTHER_ORDER, &[], &[]], COMPARATORS),
];

fn have_numbers(tables: &[PlacedTable], numbers: &[(u32, u64)]) -> bool {
    tables.len() == numbers.len()
        && tables.iter().zip(numbers).all(|(placed, (level, number))| {
            placed.level == *level && placed.table.number == *number
        })
}

fn is_left(left: &Result<Layout, ReadError>, wanted: &Left) -> bool {
    match (left, wanted) {
        (Ok(layout), Ok((log, previous, tables))) => layout.log_number == *log
            && layout.previous_log_number == *previous
            && have_numbers(&layout.tables, tables),
        (Err(refusal), Err(wanted)) => refusal == wanted,
        (Ok(_), Err(_)) => false,
        (Err(_), Ok(_)) => false,
    }
}

#[test]
fn edits_fold_to_the_layout(rt: HostRuntime) {
    for (edits, wanted) in FOLDED {
        assert!(rt;
            is_left(&layout_of(rt.alloc(), COMPARATOR, edits), &wanted),
            "{edits:?}"
        );
    }
}

// The same under the order `c`, which isn't that of edits that name none.
const FOLDED_UNDER_C: [(&[&[u8]], Left); 6] = [
    (&[NUMBERS, &[], &[]], COMPARATORS),
    (&[NUMBERS, TWO, MOVED], COMPARATORS),
    (&[NUMBERS, OUR_ORDER, &[]], COMPARATORS),
    (&[OTHER_ORDER, OUR_ORDER, NUMBERS], COMPARATORS),
    (&[NUMBERS, &[], OTHER_ORDER], Ok((9, 0, &[]))),
    (&[OTHER_ORDER, NUMBERS, TWO], Ok((9, 0, &[(0, 4), (1, 5)]))),
];

#[test]
fn edits_without_a_name_are_of_the_order_of_bytes(rt: HostRuntime) {
    for (edits, wanted) in FOLDED_UNDER_C {
        assert!(rt;
            is_left(&layout_of(rt.alloc(), b"c", edits), &wanted),
            "{edits:?}"
        );
    }
}

const NAMES: [(&str, FileName); 11] = [
    ("CURRENT", FileName::Current),
    ("LOCK", FileName::Lock),
    ("000005.log", FileName::Log(5)),
    ("000007.ldb", FileName::Table(7)),
    ("000007.sst", FileName::OldTable(7)),
    ("MANIFEST-000004", FileName::Manifest(4)),
    ("000004.dbtmp", FileName::Temporary(4)),
    ("999999.log", FileName::Log(999_999)),
    ("1000000.log", FileName::Log(1_000_000)),
    ("MANIFEST-1234567", FileName::Manifest(1_234_567)),
    ("18446744073709551615.ldb", FileName::Table(u64::MAX)),
];

fn is_name(alloc: Global, name: &str, file: FileName) -> bool {
    parse_name(name.as_bytes()) == Some(file)
        && matches!(print_name(alloc, file), Ok(printed) if printed.as_str() == name)
}

#[test]
fn names_are_read_as_they_are_written(rt: HostRuntime) {
    for (name, file) in NAMES {
        assert!(rt; is_name(rt.alloc(), name, file), "{name}");
    }
}

const NO_NAMES: [&[u8]; 26] = [
    b"18446744073709551616.log",
    b"99999999999999999999.log",
    b"0000005.log",
    b"00005.log",
    b"000000.log",
    b"MANIFEST-000000",
    b"MANIFEST-4",
    b"MANIFEST-0000004",
    b"MANIFEST-000004x",
    b"MANIFEST-",
    b"manifest-000004",
    b"000005.LOG",
    b"000005.logx",
    b"000005.lo",
    b"000005",
    b"000005log",
    b"00a005.log",
    b"-00005.log",
    b" 000005.log",
    b"000005.log ",
    b".log",
    b".sst",
    b"LOCK ",
    b"CURRENT.dbtmp",
    b"LOG",
    b"",
];

#[test]
fn other_names_have_no_known_shape(rt: HostRuntime) {
    for name in NO_NAMES {
        assert!(rt; parse_name(name).is_none(), "{name:?}");
    }
}
