use coding::{DbError, ReadError};
use filter::{
    Bloom, FilterBlock, FilterBuilder, added_is_admitted, built_in_is_admitted, hash, one_filter,
    written_is_read,
};
use std::alloc::Global;
use std::test::*;

const HASHES: [(&[u8], u32); 5] = [
    (b"", 0xBC9F_1D34),
    (b"\x61", 0x286E_9DB0),
    (b"\x62", 0xEF13_45C4),
    (b"\xC3\x97", 0x5B66_3814),
    (b"\x61\0", 0x3186_5D38),
];

// Keys, their filter, and a key that it denies. Key `61 00` has the bits 56, 59, 62, 1, 4 and 7, of
// which neither `61` nor `62` has bit 56, the lowest of the last byte.
const FILTERS: [(&[&[u8]], &[u8], &[u8]); 3] = [
    (
        &[b"\x61"],
        &[8, 0x10, 0x20, 0x40, 0x80, 0, 1, 0, 6],
        b"\x62",
    ),
    (
        &[b"\x61", b"\x62"],
        &[0x18, 0x30, 0x60, 0xC0, 0x80, 1, 3, 0, 6],
        b"\x61\0",
    ),
    (&[], &[], b"\x61"),
];

// Filters, and whether they admit all keys, or none: too short ones none, those of more than 30
// bits a key all.
const PLAIN: [(&[u8], bool); 8] = [
    (&[], false),
    (&[6], false),
    (&[31], false),
    (&[0, 30], false),
    (&[0, 31], true),
    (&[0, 0xFF], true),
    (&[0xFF, 30], true),
    (&[0, 0], true),
];

#[test]
fn hashes_are_those_of_leveldb(rt: HostRuntime) {
    for (key, wanted) in HASHES {
        assert_eq!(rt; hash(key), wanted, "{key:?}");
    }
}

// Whether the keys have this filter, which admits each.
fn is_filter(alloc: Global, keys: &[&[u8]], filter: &[u8]) -> bool {
    matches!(Bloom::build(alloc, keys), Ok(built) if built.as_slice() == filter)
        && keys.iter().all(|key| Bloom::may_hold(filter, key))
}

#[test]
fn filters_admit_their_keys_and_deny_others(rt: HostRuntime) {
    for (keys, filter, other) in FILTERS {
        assert!(rt; is_filter(rt.alloc(), keys, filter), "{filter:?}");
        assert!(rt; !Bloom::may_hold(filter, other), "{filter:?}");
    }
    for (filter, is_admitted) in PLAIN {
        assert!(rt;
            Bloom::may_hold(filter, b"") == is_admitted
                && Bloom::may_hold(filter, b"\x61") == is_admitted,
            "{filter:?}"
        );
    }
    // Laws, for the proof alone.
    built_in_is_admitted();
    one_filter();
}

// Where the blocks of keys begin, the bytes of the filter block, or how many they are, and offsets
// with a key each and whether it may be held there.
const BLOCKS: [(&[(u64, &[u8])], &[u8], usize, &[(u64, &[u8], bool)]); 3] = [
    (
        &[],
        b"\0\0\0\0\x0b",
        5,
        &[
            (0, b"", true),
            (0, b"\x61", true),
            (2047, b"\x61", true),
            (2048, b"", true),
            (u64::MAX, b"\x61", true),
        ],
    ),
    (
        &[(0, b"\x61")],
        b"\x08\x10\x20\x40\x80\0\x01\0\x06\0\0\0\0\x09\0\0\0\x0b",
        18,
        &[
            (0, b"\x61", true),
            (2047, b"\x62", false),
            (2048, b"\x62", true),
        ],
    ),
    (
        &[(100, b"a"), (6200, b"b")],
        b"",
        9 + 9 + 4 * 4 + 5,
        &[
            (100, b"a", true),
            (2048, b"a", false),
            (6200, b"b", true),
            (u64::MAX, b"c", true),
        ],
    ),
];

fn block_of(alloc: Global, keys: &[(u64, &[u8])]) -> Result<Vec<u8>, DbError> {
    let mut builder = FilterBuilder::new(alloc);
    for (offset, key) in keys {
        builder.add(*offset, key)?;
    }
    builder.finish(alloc)
}

fn answers(block: &FilterBlock, asked: &[(u64, &[u8], bool)]) -> bool {
    asked.iter().all(|(offset, key, wanted)| block.may_hold(*offset, key) == *wanted)
}

#[test]
fn filter_blocks_are_built_and_asked(rt: HostRuntime) -> Result<(), Fail> {
    for (keys, front, length, asked) in BLOCKS {
        let bytes = block_of(rt.alloc(), keys)?;
        assert!(rt;
            bytes.len() == length && bytes.starts_with(front),
            "{front:?}"
        );
        assert!(rt;
            matches!(FilterBlock::open(bytes), Ok(block) if answers(&block, asked)),
            "{front:?}"
        );
    }
    // Laws, for the proof alone.
    written_is_read();
    added_is_admitted();
    Ok(())
}

const DAMAGED: [&[u8]; 11] = [
    b"",
    b"\x0b",
    b"\0\0\0\x0b",
    // another base
    b"\0\0\0\0\x0a",
    b"\0\0\0\0\x0c",
    // an array that begins after the block, or one byte too late
    b"\x09\0\0\0\x0b",
    b"\x01\0\0\0\x0b",
    // two bytes of an array whose offsets have four each
    b"\0\0\0\0\0\0\x0b",
    // an offset after the array's own, and one after the next
    b"\x01\0\0\0\0\0\0\0\x0b",
    b"\x05\0\0\0\0\0\0\0\x0b",
    b"\0\x01\0\0\0\0\0\0\0\x01\0\0\0\x0b",
];

#[test]
fn damaged_blocks_are_refused(rt: HostRuntime) -> Result<(), Fail> {
    for bytes in DAMAGED {
        let block = FilterBlock::open(Vec::from_slice(rt.alloc(), bytes)?);
        assert!(rt; matches!(&block, Err(ReadError::Corrupt(_))), "{bytes:?}");
    }
    Ok(())
}
