use coding::{Damage, ReadError, crc32c, mask, put_fixed32};
use logfile::{LogWriter, Tail, judge_block, read_log};
use std::alloc::{AllocError, Global};
use std::test::*;

// A write batch: put `a` = `1` at sequence number 1.
const BATCH: &[u8] = b"\x01\0\0\0\0\0\0\0\x01\0\0\0\x01\x01a\x011";

// The log of that record: the checksum, the length and the type, and the batch.
const ONE: &[u8; 24] = b"\xe9\x9f\x78\x19\x11\0\x01\x01\0\0\0\0\0\0\0\x01\0\0\0\x01\x01a\x011";

// An empty fragment that begins a record.
const EMPTY_FIRST: &[u8] = b"\x64\x51\xd0\xe9\0\0\x02";

// Records, each of so many of one byte, and where each ends.
type Records = &'static [(u8, usize, usize)];

// The records of the example in LevelDB's doc/log_format.md.
const DOCUMENT: Records = &[(7, 1000, 1007), (7, 97_270, 98_298), (7, 8000, 106_311)];

// The second begins where the block has just room for a header.
const AT_SEVEN: Records = &[(7, 32_754, 32_761), (7, 3, 32_778)];

const LENGTHS: Records = &[
    (1, 0, 7),
    (2, 1, 15),
    (3, 1000, 1022),
    (4, 32_754, 33_790),
    (5, 97_270, 131_088),
];

// Where a header stands, its type and its length.
const DOCUMENT_HEADERS: [(usize, u8, u16); 5] = [
    (0, 1, 1000),
    (1007, 2, 31_754),
    (32_768, 3, 32_761),
    (65_536, 4, 32_755),
    (98_304, 1, 8000),
];

fn append(log: &mut Vec<u8>, alloc: Global, payload: &[u8]) -> Result<(), Fail> {
    let bytes = LogWriter::encode(alloc, log.len() as u64, payload)?;
    log.extend_from_slice(&bytes)?;
    Ok(())
}

// The log of the records, where each ends as it says.
fn log_of(alloc: Global, records: Records) -> Result<Vec<u8>, Fail> {
    let mut log = Vec::new(alloc);
    for (byte, length, end) in records {
        append(&mut log, alloc, &vec![in alloc; *byte; *length]?)?;
        if log.len() != *end {
            return Err(Fail::from("a record ends elsewhere"));
        }
    }
    Ok(log)
}

// Whether the header there says this type and length.
fn has_header(log: &[u8], offset: usize, kind: u8, length: u16) -> bool {
    let [low, high] = length.to_le_bytes();
    matches!(log.get(offset..), Some([_, _, _, _, a, b, c, ..]) if *a == low && *b == high && *c == kind)
}

// Whether these are the first records.
fn are_first(found: &[Vec<u8>], records: Records, count: usize) -> bool {
    found.len() == count
        && found.iter().zip(records).all(|(found, (byte, length, _))| {
            found.len() == *length && found.iter().all(|it| it == byte)
        })
}

// Whether the log has the first records and this tail.
fn reads(alloc: Global, log: &[u8], records: Records, count: usize, tail: Tail) -> bool {
    matches!(read_log(alloc, log), Ok((found, end)) if end == tail && are_first(&found, records, count))
}

#[test]
fn a_batch_is_one_fragment(rt: HostRuntime) {
    assert!(rt;
        matches!(LogWriter::encode(rt.alloc(), 0, BATCH), Ok(log) if log.as_slice() == ONE.as_slice())
    );
    assert!(rt;
        matches!(read_log(rt.alloc(), ONE), Ok((records, Tail::Clean)) if matches!(records.as_slice(), [record] if record.as_slice() == BATCH))
    );
    for end in 0..24 {
        let tail = if end == 0 { Tail::Clean } else { Tail::Torn };
        assert!(rt;
            reads(rt.alloc(), &ONE[..end], &[], 0, tail),
            "cut at {end}"
        );
    }
}

// Where the example's log is cut, the whole records before, and the tail: whole, after the zeros at
// the block's end, within them, and before them.
const CUTS: [(usize, usize, Tail); 4] = [
    (106_311, 3, Tail::Clean),
    (98_304, 2, Tail::Clean),
    (98_301, 2, Tail::Torn),
    (98_298, 2, Tail::Clean),
];

#[test]
fn three_records_lie_as_in_the_format_document(rt: HostRuntime) -> Result<(), Fail> {
    let mut log = log_of(rt.alloc(), DOCUMENT)?;
    for (offset, kind, length) in DOCUMENT_HEADERS {
        assert!(rt; has_header(&log, offset, kind, length), "at {offset}");
    }
    assert!(rt; matches!(log.get(98_298..98_304), Some([0, 0, 0, 0, 0, 0])));
    for (end, count, tail) in CUTS {
        log.truncate(end);
        assert!(rt;
            reads(rt.alloc(), &log, DOCUMENT, count, tail),
            "cut at {end}"
        );
    }
    Ok(())
}

#[test]
fn at_seven_bytes_left_a_record_begins_with_an_empty_fragment(rt: HostRuntime) -> Result<(), Fail> {
    let log = log_of(rt.alloc(), AT_SEVEN)?;
    assert!(rt; matches!(log.get(32_761..32_768), Some(bytes) if bytes == EMPTY_FIRST));
    assert!(rt; has_header(&log, 32_768, 4, 3));
    assert!(rt; reads(rt.alloc(), &log, AT_SEVEN, 2, Tail::Clean));
    Ok(())
}

// Where the log ends, the record's length, how much it adds, and where the header of its first
// fragment is among that. The cases: with room, at seven bytes left, at six bytes left, at one, and
// at none.
const ADDED: [(u64, usize, usize, usize); 12] = [
    (0, 0, 7, 0),
    (32_761, 0, 7, 0),
    (32_762, 0, 13, 6),
    (65_535, 0, 8, 1),
    (65_536, 0, 7, 0),
    (0, 1000, 1007, 0),
    (1007, 97_270, 97_291, 0),
    (98_298, 8000, 8013, 6),
    (0, 32_761, 32_768, 0),
    (0, 32_762, 32_776, 0),
    (32_761, 3, 17, 0),
    (32_762, 3, 16, 6),
];

// Whether a record of that length adds so much, in a vector whose room was taken once, and, where
// it has no bytes, is an empty full fragment.
fn adds(alloc: Global, position: u64, payload: &[u8], added: usize, offset: usize) -> bool {
    matches!(
        LogWriter::encode(alloc, position, payload),
        Ok(bytes) if bytes.len() == added && bytes.capacity() == added && (!payload.is_empty() || has_header(&bytes, offset, 1, 0))
    )
}

#[test]
fn the_room_for_the_bytes_is_taken_once(rt: HostRuntime) -> Result<(), Fail> {
    let payload = vec![in rt.alloc(); 7u8; 97_270]?;
    for (position, length, added, offset) in ADDED {
        let record = payload.get(..length).ok_or("too few bytes")?;
        assert!(rt;
            adds(rt.alloc(), position, record, added, offset),
            "{length} at {position}"
        );
    }
    Ok(())
}

// Where a record or a block of that log ends.
const BOUNDARIES: [usize; 9] = [
    7, 15, 1022, 32_768, 33_790, 65_536, 98_304, 131_072, 131_088,
];

// Whether the log that is cut there has the records that end before, and is torn but at a record's
// end.
fn reads_before(alloc: Global, log: &[u8]) -> bool {
    let end = log.len();
    let count = LENGTHS
        .iter()
        .filter(|(_, _, behind)| *behind <= end)
        .count();
    let is_clean = end == 0 || LENGTHS.iter().any(|(_, _, behind)| *behind == end);
    let tail = if is_clean { Tail::Clean } else { Tail::Torn };
    reads(alloc, log, LENGTHS, count, tail)
}

// Up to nine bytes before and after.
#[test]
fn a_cut_log_has_the_records_before_the_cut(rt: HostRuntime) -> Result<(), Fail> {
    let log = log_of(rt.alloc(), LENGTHS)?;
    for boundary in BOUNDARIES {
        for end in boundary.saturating_sub(9)..=boundary + 9 {
            let cut = log.get(..end).unwrap_or(&log);
            assert!(rt; reads_before(rt.alloc(), cut), "cut at {end}");
        }
    }
    Ok(())
}

const THREE: [&[u8]; 3] = [BATCH, b"", b"\x01\x02\x03"];

// Whether the log of those records, with these bits of a byte changed, is read as fewer of them, or
// refused.
fn makes_no_others(alloc: Global, log: &[u8], index: usize, bits: u8) -> bool {
    let Ok(mut changed) = Vec::from_slice(alloc, log) else {
        return false;
    };
    if let Some(byte) = changed.get_mut(index) {
        *byte ^= bits;
    }
    match read_log(alloc, &changed) {
        Ok((records, _)) => records.len() < 3
            && records
                .iter()
                .zip(THREE)
                .all(|(found, it)| found.as_slice() == it),
        Err(refusal) => matches!(refusal, ReadError::Corrupt(_)),
    }
}

#[test]
fn a_changed_byte_never_makes_other_records(rt: HostRuntime) -> Result<(), Fail> {
    let mut log = Vec::new(rt.alloc());
    for payload in THREE {
        append(&mut log, rt.alloc(), payload)?;
    }
    for index in 0..41 {
        for bits in 1..=255 {
            assert!(rt;
                makes_no_others(rt.alloc(), &log, index, bits),
                "{bits} at {index}"
            );
        }
    }
    Ok(())
}

// Part of a header; a header whose data is cut off, of which just the length counts, whatever the
// checksum and the type say; a record's beginning without its end.
const TORN: [&[u8]; 4] = [
    b"\0\0\0",
    b"\0\0\0\0\x01\0\x04",
    b"\0\0\0\0\x01\0\x09",
    EMPTY_FIRST,
];

// A checksum of zeros, a length past the block, two beginnings, a whole record after one, and that
// record with another last byte.
const DAMAGED: [(&[u8], Damage); 5] = [
    (b"\0\0\0\0\0\0\0", Damage::Checksum),
    (b"\0\0\0\0\xff\xff\x01", Damage::Length),
    (
        b"\x64\x51\xd0\xe9\0\0\x02\x64\x51\xd0\xe9\0\0\x02",
        Damage::Order,
    ),
    (
        b"\x64\x51\xd0\xe9\0\0\x02\xe9\x9f\x78\x19\x11\0\x01\x01\0\0\0\0\0\0\0\x01\0\0\0\x01\x01a\x011",
        Damage::Order,
    ),
    (
        b"\x64\x51\xd0\xe9\0\0\x02\xe9\x9f\x78\x19\x11\0\x01\x01\0\0\0\0\0\0\0\x01\0\0\0\x01\x01a\x012",
        Damage::Checksum,
    ),
];

// A middle and an end with no beginning, and types that aren't known.
const ALONE: [(u8, Damage); 4] = [
    (3, Damage::Order),
    (4, Damage::Order),
    (0, Damage::Kind),
    (5, Damage::Kind),
];

fn is_refused(alloc: Global, log: &[u8], damage: Damage) -> bool {
    matches!(read_log(alloc, log), Err(ReadError::Corrupt(what)) if what == damage)
}

// A fragment of one byte of data, of any type.
fn fragment_of(alloc: Global, kind: u8) -> Result<Vec<u8>, AllocError> {
    let mut bytes = Vec::new(alloc);
    put_fixed32(&mut bytes, mask(crc32c(&[kind], &[7])))?;
    bytes.extend_from_slice(&[1, 0, kind, 7])?;
    Ok(bytes)
}

#[test]
fn damaged_logs_are_corrupt(rt: HostRuntime) -> Result<(), Fail> {
    let alloc = rt.alloc();
    for bytes in TORN {
        assert!(rt; reads(alloc, bytes, &[], 0, Tail::Torn), "{bytes:?}");
    }
    for (bytes, damage) in DAMAGED {
        assert!(rt; is_refused(alloc, bytes, damage), "{bytes:?}");
    }
    for (kind, damage) in ALONE {
        assert!(rt;
            is_refused(alloc, &fragment_of(alloc, kind)?, damage),
            "type {kind}"
        );
    }
    // Zeros at a block's end that aren't.
    let mut padded = LogWriter::encode(alloc, 0, &vec![in alloc; 7u8; 32_755]?)?;
    padded.extend_from_slice(&[0, 0, 1])?;
    assert!(rt; is_refused(alloc, &padded, Damage::Padding));
    Ok(())
}

// What may be a block of a log by itself, whole or cut off, where fragments stand in any order; and
// what is none.
const BLOCKS: [(&[u8], Option<Damage>); 8] = [
    (b"", None),
    (ONE, None),
    (EMPTY_FIRST, None),
    (b"\x64\x51\xd0\xe9\0\0\x02\x64\x51\xd0\xe9\0\0\x02", None),
    (b"\0\0\0", None),
    (b"\0\0\0\0\x01\0\x09", None),
    (b"\0\0\0\0\0\0\0", Some(Damage::Checksum)),
    (b"\0\0\0\0\xff\xff\x01", Some(Damage::Length)),
];

fn is_judged(alloc: Global, block: &[u8], fault: Option<Damage>) -> bool {
    match judge_block(alloc, block) {
        Ok(()) => fault.is_none(),
        Err(ReadError::Corrupt(what)) => fault == Some(what),
        Err(_) => false,
    }
}

#[test]
fn a_block_is_judged_by_itself(rt: HostRuntime) {
    for (block, fault) in BLOCKS {
        assert!(rt; is_judged(rt.alloc(), block, fault), "{block:?}");
    }
}
