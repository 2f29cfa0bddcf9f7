use coding::{
    Bytes, Damage, DbError, Feature, FileKind, ReadError, crc32c, get_fixed32, get_fixed64,
    get_string, get_varint32, get_varint64, mask, one_varint, put_fixed32, put_fixed64, put_string,
    put_varint32, put_varint64, unmask,
};
use std::alloc::{AllocError, AllocFailed, Global};
use std::test::*;

// The bytes 0, 1, .. 31.
const RISING: &[u8] =
    b"\0\x01\x02\x03\x04\x05\x06\x07\x08\x09\x0a\x0b\x0c\x0d\x0e\x0f\x10\x11\x12\x13\x14\x15\x16\x17\x18\x19\x1a\x1b\x1c\x1d\x1e\x1f";

const FALLING: &[u8] =
    b"\x1f\x1e\x1d\x1c\x1b\x1a\x19\x18\x17\x16\x15\x14\x13\x12\x11\x10\x0f\x0e\x0d\x0c\x0b\x0a\x09\x08\x07\x06\x05\x04\x03\x02\x01\0";

// Values of RFC 3720, section B.4, and of LevelDB's util/crc32c_test.cc.
const CHECKSUMS: [(&[u8], u32); 5] = [
    (b"123456789", 0xE306_9283),
    (&[0; 32], 0x8A91_36AA),
    (&[0xFF; 32], 0x62A8_AB43),
    (RISING, 0x46DD_794E),
    (FALLING, 0x113F_DB5C),
];

#[test]
fn checksum_is_that_of_the_standard(rt: HostRuntime) {
    for (bytes, crc) in CHECKSUMS {
        assert_eq!(rt; crc32c(bytes, &[]), crc);
    }
}

// Two parts, their checksum and its stored form. Among them are the fragment's type before a write
// batch that puts `1` under `a` at sequence number 1, and before the version edit of a new
// database.
const STORED: [(&[u8], &[u8], u32, &[u8]); 5] = [
    (b"123456789", b"", 0xE306_9283, b"\xe5\xb0\x8a\xc7"),
    (b"\x02", b"", 0xB346_23A6, b"\x64\x51\xd0\xe9"),
    (
        b"\0\0\0\0\x01\0\0\0",
        b"\0",
        0x83F4_070F,
        b"\xc0\xf2\xa1\xb0",
    ),
    (
        b"\x01",
        b"\x01\0\0\0\0\0\0\0\x01\0\0\0\x01\x01a\x011",
        0xDA88_BB7A,
        b"\xe9\x9f\x78\x19",
    ),
    (
        b"\x01",
        b"\x01\x1aleveldb.BytewiseComparator\x02\x02\x03\x03\x04\x00",
        0x9DBD_DCBD,
        b"\x53\x26\xfe\x5b",
    ),
];

fn is_stored(crc: u32, stored: &[u8]) -> bool {
    matches!(get_fixed32(stored), Some(word) if word == mask(crc) && unmask(word) == crc)
}

#[test]
fn checksum_is_stored_masked_low_byte_first(rt: HostRuntime) {
    for (front, back, crc, stored) in STORED {
        assert!(rt;
            crc32c(front, back) == crc && is_stored(crc, stored),
            "{stored:?}"
        );
    }
}

// More than two blocks of sixteen bytes.
const TEXT: &[u8] = b"a text of more than two blocks of sixteen bytes";

#[test]
fn checksum_is_one_wherever_the_bytes_are_parted(rt: HostRuntime) {
    let whole = crc32c(TEXT, &[]);
    for at in 0..=TEXT.len() {
        let (front, back) = TEXT.split_at(at);
        assert_eq!(rt; crc32c(front, back), whole, "parted at {at}");
    }
}

const FIXED32: [(u32, &[u8]); 3] = [
    (0, &[0; 4]),
    (0x0403_0201, &[1, 2, 3, 4]),
    (u32::MAX, &[0xFF; 4]),
];

const FIXED64: [(u64, &[u8]); 3] = [
    (0, &[0; 8]),
    (0x0807_0605_0403_0201, &[1, 2, 3, 4, 5, 6, 7, 8]),
    (u64::MAX, &[0xFF; 8]),
];

// Whether the number is written as the bytes, and read from them, and with a byte after them.
fn is_fixed32(alloc: Global, value: u32, bytes: &[u8]) -> Result<bool, AllocError> {
    let mut out = Vec::new(alloc);
    put_fixed32(&mut out, value)?;
    let is_written = out.as_slice() == bytes;
    out.extend_from_slice(&[9])?;
    Ok(is_written && get_fixed32(&out) == Some(value) && get_fixed32(bytes) == Some(value))
}

fn is_fixed64(alloc: Global, value: u64, bytes: &[u8]) -> Result<bool, AllocError> {
    let mut out = Vec::new(alloc);
    put_fixed64(&mut out, value)?;
    let is_written = out.as_slice() == bytes;
    out.extend_from_slice(&[9])?;
    Ok(is_written && get_fixed64(&out) == Some(value) && get_fixed64(bytes) == Some(value))
}

#[test]
fn fixed_numbers_are_written_and_read(rt: HostRuntime) {
    for (value, bytes) in FIXED32 {
        assert_eq!(rt; is_fixed32(rt.alloc(), value, bytes), Ok(true), "{value}");
    }
    for (value, bytes) in FIXED64 {
        assert_eq!(rt; is_fixed64(rt.alloc(), value, bytes), Ok(true), "{value}");
    }
    assert!(rt; get_fixed32(&[1, 2, 3]).is_none() && get_fixed64(&[1, 2, 3, 4, 5, 6, 7]).is_none());
}

// Numbers and their shortest encodings: those that fit 32 bits are read and written at both widths.
const VARINTS: [(u64, &[u8]); 8] = [
    (0, &[0]),
    (127, &[0x7F]),
    (128, &[0x80, 1]),
    (300, &[0xAC, 2]),
    (16_383, &[0xFF, 0x7F]),
    (16_384, &[0x80, 0x80, 1]),
    (0xFFFF_FFFF, &[0xFF, 0xFF, 0xFF, 0xFF, 0x0F]),
    (
        u64::MAX,
        &[0xFF, 0xFF, 0xFF, 0xFF, 0xFF, 0xFF, 0xFF, 0xFF, 0xFF, 1],
    ),
];

fn is_varint32(alloc: Global, value: u32, bytes: &[u8]) -> Result<bool, AllocError> {
    let mut out = Vec::new(alloc);
    put_varint32(&mut out, value)?;
    Ok(out.as_slice() == bytes && get_varint32(bytes) == Some((value, bytes.len())))
}

// Read with a byte after it.
fn is_varint64(alloc: Global, value: u64, bytes: &[u8]) -> Result<bool, AllocError> {
    let mut out = Vec::new(alloc);
    put_varint64(&mut out, value)?;
    let is_written = out.as_slice() == bytes;
    out.extend_from_slice(&[7])?;
    Ok(is_written && get_varint64(&out) == Some((value, bytes.len())))
}

#[test]
fn varints_are_written_and_read(rt: HostRuntime) {
    for (value, bytes) in VARINTS {
        assert_eq!(rt; is_varint64(rt.alloc(), value, bytes), Ok(true), "{value}");
        if let Ok(value) = u32::try_from(value) {
            assert_eq!(rt; is_varint32(rt.alloc(), value, bytes), Ok(true), "{value}");
        }
    }
    // Laws, for the proof alone.
    one_varint();
}

// No shortest encodings of numbers of 32 bits, and what they are at 64.
const NO_VARINTS: [(&[u8], Option<(u64, usize)>); 9] = [
    (&[], None),
    (&[0xAC], None),
    (&[0x80, 0], None),
    (&[0xAC, 0x82, 0], None),
    (&[0xFF, 0xFF, 0xFF, 0xFF, 0x10], Some((0x1_0FFF_FFFF, 5))),
    (&[0xFF, 0xFF, 0xFF, 0xFF, 0xFF], None),
    (&[0x80, 0x80, 0x80, 0x80, 0x80, 1], Some((1 << 35, 6))),
    (
        &[0xFF, 0xFF, 0xFF, 0xFF, 0xFF, 0xFF, 0xFF, 0xFF, 0xFF, 2],
        None,
    ),
    (
        &[
            0x80, 0x80, 0x80, 0x80, 0x80, 0x80, 0x80, 0x80, 0x80, 0x80, 1,
        ],
        None,
    ),
];

#[test]
fn only_the_shortest_varint_that_fits_is_read(rt: HostRuntime) {
    for (bytes, long) in NO_VARINTS {
        assert!(rt;
            get_varint32(bytes).is_none() && get_varint64(bytes) == long,
            "{bytes:?}"
        );
    }
}

// Strings and their encodings: the length, and the bytes.
const STRINGS: [(&[u8], &[u8]); 2] = [(b"key", b"\x03key"), (b"", b"\0")];

const NO_STRINGS: [&[u8]; 5] = [b"", b"\x03ke", b"\xac", b"\x80\x00", b"\x83\x00key"];

// Whether the string, of at most 300 bytes, is written so, and read with a byte after it.
fn is_string(alloc: Global, text: &[u8], length: usize, front: &[u8]) -> Result<bool, AllocError> {
    if text.len() > 300 {
        return Ok(false);
    }
    let mut out = Vec::new(alloc);
    put_string(&mut out, text)?;
    let is_written = out.len() == length && out.starts_with(front);
    out.extend_from_slice(&[7])?;
    Ok(is_written && matches!(get_string(&out), Some((read, [7])) if read == text))
}

#[test]
fn strings_are_written_and_read(rt: HostRuntime) {
    for (text, bytes) in STRINGS {
        assert_eq!(rt;
            is_string(rt.alloc(), text, bytes.len(), bytes),
            Ok(true),
            "{text:?}"
        );
    }
    assert_eq!(rt;
        is_string(rt.alloc(), &[0x61; 300], 302, b"\xac\x02aaa"),
        Ok(true)
    );
    for bytes in NO_STRINGS {
        assert!(rt; get_string(bytes).is_none(), "{bytes:?}");
    }
}

const REFUSALS: [(DbError, u8, &str); 20] = [
    (DbError::OutOfMemory, 1, "OutOfMemory"),
    (DbError::Io, 2, "Io"),
    (DbError::NoDatabase, 3, "NoDatabase"),
    (DbError::Exists, 4, "Exists"),
    (
        DbError::Corrupt(FileKind::Log, Damage::Checksum),
        5,
        "Corrupt",
    ),
    (DbError::Unsupported(Feature::BlockType), 6, "Unsupported"),
    (DbError::Broken, 7, "Broken"),
    (DbError::NoSnapshot, 8, "NoSnapshot"),
    (DbError::NoIterator, 9, "NoIterator"),
    (DbError::NoPlace, 10, "NoPlace"),
    (DbError::KeyTooLong, 11, "KeyTooLong"),
    (DbError::ValueTooLong, 12, "ValueTooLong"),
    (DbError::BatchTooLarge, 13, "BatchTooLarge"),
    (DbError::SequenceFull, 14, "SequenceFull"),
    (DbError::NumbersSpent, 15, "NumbersSpent"),
    (DbError::NotOpen, 16, "NotOpen"),
    (DbError::AlreadyOpen, 17, "AlreadyOpen"),
    (DbError::Locked, 18, "Locked"),
    (DbError::BadLevel, 19, "BadLevel"),
    (DbError::BadLine, 20, "BadLine"),
];

const PRINTED: [(DbError, &str); 3] = [
    (
        DbError::Corrupt(FileKind::Log, Damage::Checksum),
        "a file is damaged: Log, Checksum",
    ),
    (
        DbError::Unsupported(Feature::BlockType),
        "not supported: BlockType",
    ),
    (DbError::Locked, "another holds the lock"),
];

fn is_named(refusal: &DbError, number: u8, name: &str) -> bool {
    refusal.number() == number && refusal.name() == name
}

fn prints(alloc: Global, refusal: &DbError, text: &str) -> bool {
    matches!(format!(in alloc; "{refusal}"), Ok(said) if said.as_str() == text)
}

#[test]
fn refusals_have_their_numbers_and_names(rt: HostRuntime) {
    for (refusal, number, name) in REFUSALS {
        assert!(rt; is_named(&refusal, number, name), "{name}");
    }
}

#[test]
fn a_refusal_prints_its_cause(rt: HostRuntime) {
    for (refusal, text) in PRINTED {
        assert!(rt; prints(rt.alloc(), &refusal, text), "{text}");
    }
}

#[test]
fn refused_growth_is_out_of_memory(rt: HostRuntime) {
    let refused: DbError = AllocError.into();
    let unread: ReadError = AllocError.into();
    let value_back: DbError = AllocFailed { value: 7u8 }.into();
    let value_unread: ReadError = AllocFailed { value: 7u8 }.into();
    assert!(rt; refused == DbError::OutOfMemory && value_back == DbError::OutOfMemory);
    assert!(rt; unread == ReadError::Memory && value_unread == ReadError::Memory);
}

// Whether the string has these bytes.
fn has_bytes(string: &Bytes, bytes: &[u8]) -> bool {
    string.as_slice() == bytes
        && string.len() == bytes.len()
        && string.is_empty() == bytes.is_empty()
}

fn is_copied(alloc: Global, bytes: &[u8]) -> bool {
    matches!(Bytes::copied_from(alloc, bytes), Ok(copied) if has_bytes(&copied, bytes))
}

// Whether the string of a vector of these bytes gives them back.
fn is_given_back(alloc: Global, bytes: &[u8]) -> Result<bool, AllocError> {
    let taken = Bytes::from_vec(Vec::from_slice(alloc, bytes)?);
    Ok(taken.into_vec().as_slice() == bytes)
}

// Whether a copy of the first and the string of a vector of the second are equal.
fn are_equal(alloc: Global, first: &[u8], second: &[u8]) -> Result<bool, AllocError> {
    let copied = Bytes::copied_from(alloc, first)?;
    let taken = Bytes::from_vec(Vec::from_slice(alloc, second)?);
    Ok(copied == taken)
}

const BYTE_STRINGS: [&[u8]; 3] = [b"key", b"key\0", b""];

#[test]
fn byte_strings_are_their_bytes(rt: HostRuntime) -> Result<(), Fail> {
    for bytes in BYTE_STRINGS {
        assert!(rt; is_copied(rt.alloc(), bytes), "{bytes:?}");
        assert!(rt; is_given_back(rt.alloc(), bytes)?, "{bytes:?}");
        assert_eq!(rt;
            are_equal(rt.alloc(), b"key", bytes)?,
            bytes == b"key".as_slice()
        );
    }
    Ok(())
}
