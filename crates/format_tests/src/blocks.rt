ghost use Rattle.std.specs.Prelude.{◌<◌};

use block::{Block, BlockBuilder, BlockCursor, one_block};
use coding::ReadError;
use ikey::{Bytewise, EntryOrder, Internal, Plain};
use std::alloc::{AllocError, Global};
use std::rc::Rc;
use std::test::*;

type Pair = (&'static [u8], &'static [u8]);

// A move of a cursor.
enum Move {
    First,
    Last,
    Next,
    Prev,
    Seek(&'static [u8]),
}

// Moves, and the pair that the cursor stands on after each.
type Moves = &'static [(Move, Option<Pair>)];

// The block of the pairs `abc` = `1` and `abd` = `2`.
const TWO: [u8; 20] = [
    0, 3, 1, 0x61, 0x62, 0x63, 0x31, 2, 1, 1, 0x64, 0x32, 0, 0, 0, 0, 1, 0, 0, 0,
];

// Adds a pair where it may be added.
fn add<O: EntryOrder>(builder: &mut BlockBuilder<O>, key: &[u8], value: &[u8]) -> bool {
    if !builder.is_above_last(key)
        || builder.size() >= 1 << 30
        || key.len() >= 1 << 29
        || value.len() >= 1 << 29
    {
        return false;
    }
    builder.add(key, value).is_ok()
}

fn opened<O: EntryOrder>(alloc: Global, bytes: &[u8]) -> Result<BlockCursor<O>, Fail> {
    let block = Block::<O>::open(alloc, Vec::from_slice(alloc, bytes)?)
        .ok()
        .ok_or("a block")?;
    Ok(BlockCursor::new(alloc, Rc::new(alloc, block)?))
}

fn is_corrupt<O: EntryOrder>(alloc: Global, bytes: &[u8]) -> bool {
    let Ok(bytes) = Vec::from_slice(alloc, bytes) else {
        return false;
    };
    matches!(&Block::<O>::open(alloc, bytes), Err(ReadError::Corrupt(_)))
}

// Makes a move; a step only where the cursor stands.
fn make<O: EntryOrder>(cursor: &mut BlockCursor<O>, step: &Move) -> Result<(), AllocError> {
    match step {
        Move::First => cursor.first(),
        Move::Last => cursor.last(),
        Move::Seek(target) => cursor.seek(target),
        Move::Next => next(cursor),
        Move::Prev => prev(cursor),
    }
}

fn next<O: EntryOrder>(cursor: &mut BlockCursor<O>) -> Result<(), AllocError> {
    if !cursor.stands() {
        return Ok(());
    }
    cursor.next()
}

fn prev<O: EntryOrder>(cursor: &mut BlockCursor<O>) -> Result<(), AllocError> {
    if !cursor.stands() {
        return Ok(());
    }
    cursor.prev()
}

fn is_on<O: EntryOrder>(cursor: &BlockCursor<O>, key: &[u8], value: &[u8]) -> bool {
    cursor.stands() && cursor.key() == key && cursor.value() == value
}

fn moves<O: EntryOrder>(cursor: &mut BlockCursor<O>, steps: Moves) -> bool {
    for (step, wanted) in steps {
        let made = make(cursor, step);
        let is_there = match wanted {
            Some((key, value)) => is_on(cursor, key, value),
            None => !cursor.stands(),
        };
        if made.is_err() || !is_there {
            return false;
        }
    }
    true
}

const TWO_MOVES: Moves = &[
    (Move::First, Some((b"abc", b"1"))),
    (Move::Next, Some((b"abd", b"2"))),
    (Move::Prev, Some((b"abc", b"1"))),
    (Move::Prev, None),
    (Move::Last, Some((b"abd", b"2"))),
    (Move::Next, None),
];

// The bytes of the two pairs in a new block.
fn bytes_of_two(empty: BlockBuilder<Plain>) -> Result<Option<Vec<u8>>, AllocError> {
    let mut builder = empty;
    let size_before = builder.size();
    let is_first = add(&mut builder, b"abc", b"1");
    let rises = !builder.is_above_last(b"abc") && !builder.is_above_last(b"abb");
    let is_second = add(&mut builder, b"abd", b"2");
    let size = builder.size();
    let bytes = builder.finish()?;
    if is_first && rises && is_second && size_before == 8 && size == 20 {
        Ok(Some(bytes))
    } else {
        Ok(None)
    }
}

// Builds the block, and once more in the memory of the first.
fn builds_two(alloc: Global) -> Result<bool, AllocError> {
    let Some(first) = bytes_of_two(BlockBuilder::new(alloc, 16))? else {
        return Ok(false);
    };
    let is_two = first.as_slice() == TWO.as_slice();
    let Some(second) = bytes_of_two(BlockBuilder::reusing(alloc, 16, first))? else {
        return Ok(false);
    };
    Ok(is_two && second.as_slice() == TWO.as_slice())
}

#[test]
fn two_entries_share_their_front(rt: HostRuntime) -> Result<(), Fail> {
    assert!(rt; builds_two(rt.alloc())?);
    let mut cursor = opened::<Plain>(rt.alloc(), &TWO)?;
    assert!(rt; !cursor.stands());
    assert!(rt; moves(&mut cursor, TWO_MOVES));
    // Laws, for the proof alone.
    one_block::<Plain>();
    Ok(())
}

type Front = (&'static [u8], &'static [u8], &'static [u8]);

// Two keys, and the block of both without values. They share 7, 8, 9, 15, 16 and 17 bytes, 3 and 15
// before others that are the same, and the whole of the first.
#[rattlefmt::skip]
const FRONTS: [Front; 10] = [
    (b"abcdefgx", b"abcdefgy", b"\0\x08\0abcdefgx\x07\x01\0y\0\0\0\0\x01\0\0\0"),
    (b"abcdefghx", b"abcdefghy", b"\0\x09\0abcdefghx\x08\x01\0y\0\0\0\0\x01\0\0\0"),
    (b"abcdefghix", b"abcdefghiy", b"\0\x0a\0abcdefghix\x09\x01\0y\0\0\0\0\x01\0\0\0"),
    (b"abcdefghijklmnox", b"abcdefghijklmnoy", b"\0\x10\0abcdefghijklmnox\x0f\x01\0y\0\0\0\0\x01\0\0\0"),
    (b"abcdefghijklmnopx", b"abcdefghijklmnopy", b"\0\x11\0abcdefghijklmnopx\x10\x01\0y\0\0\0\0\x01\0\0\0"),
    (b"abcdefghijklmnopqx", b"abcdefghijklmnopqy", b"\0\x12\0abcdefghijklmnopqx\x11\x01\0y\0\0\0\0\x01\0\0\0"),
    (b"abcXefghijklmnop", b"abcYefghijklmnop", b"\0\x10\0abcXefghijklmnop\x03\x0d\0Yefghijklmnop\0\0\0\0\x01\0\0\0"),
    (b"abcdefghijklmnoXqrstuvwx", b"abcdefghijklmnoYqrstuvwx", b"\0\x18\0abcdefghijklmnoXqrstuvwx\x0f\x09\0Yqrstuvwx\0\0\0\0\x01\0\0\0"),
    (b"abcdefgh", b"abcdefghi", b"\0\x08\0abcdefgh\x08\x01\0i\0\0\0\0\x01\0\0\0"),
    (b"abcdefghijklmnop", b"abcdefghijklmnopq", b"\0\x10\0abcdefghijklmnop\x10\x01\0q\0\0\0\0\x01\0\0\0"),
];

fn has_bytes(alloc: Global, first: &[u8], second: &[u8], block: &[u8]) -> Result<bool, AllocError> {
    let mut builder = BlockBuilder::<Plain>::new(alloc, 16);
    let is_added = add(&mut builder, first, b"") && add(&mut builder, second, b"");
    let bytes = builder.finish()?;
    Ok(is_added && bytes.as_slice() == block)
}

#[test]
fn fronts_of_any_length_are_shared(rt: HostRuntime) -> Result<(), Fail> {
    for (first, second, block) in FRONTS {
        assert!(rt; has_bytes(rt.alloc(), first, second, block)?, "{second:?}");
        let mut cursor = opened::<Plain>(rt.alloc(), block)?;
        cursor.last()?;
        assert!(rt; is_on(&cursor, second, b""), "{second:?}");
    }
    Ok(())
}

// The block of the keys 0 to 16 without values.
const SEVENTEEN: &[u8] =
    b"\0\x01\0\x00\0\x01\0\x01\0\x01\0\x02\0\x01\0\x03\0\x01\0\x04\0\x01\0\x05\0\x01\0\x06\0\x01\0\x07\0\x01\0\x08\0\x01\0\x09\0\x01\0\x0a\0\x01\0\x0b\0\x01\0\x0c\0\x01\0\x0d\0\x01\0\x0e\0\x01\0\x0f\0\x01\0\x10\0\0\0\0\x40\0\0\0\x02\0\0\0";

const SEVENTEEN_MOVES: Moves = &[
    (Move::Seek(b"\x0f"), Some((b"\x0f", b""))),
    (Move::Seek(b"\x0f\0"), Some((b"\x10", b""))),
    (Move::Seek(b"\x10"), Some((b"\x10", b""))),
    (Move::Seek(b"\x11"), None),
];

#[test]
fn seventeen_entries_have_two_restarts(rt: HostRuntime) -> Result<(), Fail> {
    let mut builder = BlockBuilder::<Plain>::new(rt.alloc(), 16);
    for key in 0..17u8 {
        assert!(rt; add(&mut builder, &[key], b""));
    }
    assert_eq!(rt; builder.finish()?.as_slice(), SEVENTEEN);
    let mut cursor = opened::<Plain>(rt.alloc(), SEVENTEEN)?;
    assert!(rt; moves(&mut cursor, SEVENTEEN_MOVES));
    Ok(())
}

// Entries by their numbers: the keys are odd, so that there are keys between.
fn key_of(number: u32) -> [u8; 4] {
    number.to_be_bytes()
}

fn is_at(cursor: &BlockCursor<Plain>, index: u16) -> bool {
    is_on(
        cursor,
        &key_of(2 * u32::from(index) + 1),
        &index.to_be_bytes(),
    )
}

// A cursor over so many entries.
fn odd_numbers(alloc: Global, count: u16, interval: usize) -> Result<BlockCursor<Plain>, Fail>
    requires { 0 < interval }
{
    let mut builder = BlockBuilder::<Plain>::new(alloc, interval);
    for index in 0..count {
        if !add(
            &mut builder,
            &key_of(2 * u32::from(index) + 1),
            &index.to_be_bytes(),
        ) {
            return Err(Fail::from("an entry isn't added"));
        }
    }
    let size = builder.size();
    let bytes = builder.finish()?;
    if bytes.len() != size {
        return Err(Fail::from("the size is another"));
    }
    opened::<Plain>(alloc, &bytes)
}

fn walks_up(cursor: &mut BlockCursor<Plain>, count: u16) -> Result<bool, AllocError> {
    cursor.first()?;
    for index in 0..count {
        if !is_at(cursor, index) {
            return Ok(false);
        }
        next(cursor)?;
    }
    Ok(!cursor.stands())
}

fn walks_down(cursor: &mut BlockCursor<Plain>, count: u16) -> Result<bool, AllocError> {
    cursor.last()?;
    for index in (0..count).rev() {
        if !is_at(cursor, index) {
            return Ok(false);
        }
        prev(cursor)?;
    }
    Ok(!cursor.stands())
}

// Whether a seek of that number leads to the entry of this index, or to none where there are fewer.
fn seeks(
    cursor: &mut BlockCursor<Plain>,
    number: u32,
    index: u16,
    count: u16,
) -> Result<bool, AllocError> {
    cursor.seek(&key_of(number))?;
    if index < count {
        return Ok(is_at(cursor, index));
    }
    Ok(!cursor.stands())
}

// Seeks below, at and above the key of this entry, and goes on from there both ways.
fn goes_on(cursor: &mut BlockCursor<Plain>, index: u16, count: u16) -> Result<bool, AllocError> {
    let number = 2 * u32::from(index);
    let is_found = seeks(cursor, number + 1, index, count)?
        && seeks(cursor, number + 2, index.saturating_add(1), count)?;
    let is_below = seeks(cursor, number, index, count)?;
    prev(cursor)?;
    let is_before = cursor.stands() == (index > 0);
    cursor.seek(&key_of(number))?;
    next(cursor)?;
    Ok(is_found && is_below && is_before && cursor.stands() == (index.saturating_add(1) < count))
}

// How many entries, and how many to a restart.
const SIZES: [(u16, usize); 8] = [
    (0, 1),
    (1, 1),
    (2, 1),
    (1000, 1),
    (0, 16),
    (1, 16),
    (2, 16),
    (1000, 16),
];

#[test]
fn blocks_of_any_length_are_walked_and_sought(rt: HostRuntime) -> Result<(), Fail> {
    for (count, interval) in SIZES {
        let mut cursor = odd_numbers(rt.alloc(), count, interval)?;
        assert!(rt;
            walks_up(&mut cursor, count)? && walks_down(&mut cursor, count)?,
            "{count} by {interval}"
        );
        for index in 0..count {
            assert!(rt; goes_on(&mut cursor, index, count)?, "{index} of {count}");
        }
        assert!(rt;
            seeks(&mut cursor, 0, 0, count)? && seeks(&mut cursor, u32::MAX, count, count)?,
            "{count} by {interval}"
        );
    }
    Ok(())
}

const DAMAGED: [&[u8]; 13] = [
    b"\0\0\0",
    b"\0\0\0\0\0\0\0\0",
    b"\xff\xff\xff\xff",
    b"\x01\x01\0a\0\0\0\0\x01\0\0\0",
    b"\0\x05\0a\0\0\0\0\x01\0\0\0",
    b"\0\x01\0a\x01\0\0\0\x01\0\0\0",
    b"\0\x01\0b\0\x01\0a\0\0\0\0\x01\0\0\0",
    // the same key twice
    b"\0\x01\0a\0\x01\0a\0\0\0\0\x01\0\0\0",
    // a length in more bytes than it needs
    b"\x80\0\x01\0a\0\0\0\0\x01\0\0\0",
    // a length of more than 32 bits
    b"\x80\x80\x80\x80\x10\x01\0a\0\0\0\0\x01\0\0\0",
    // a restart at the end of the entries, and one that stands twice
    b"\0\x01\0a\0\0\0\0\x04\0\0\0\x02\0\0\0",
    b"\0\x01\0a\0\0\0\0\0\0\0\0\x02\0\0\0",
    // without entries, another restart than the one at 0
    b"\x01\0\0\0\x01\0\0\0",
];

const TO_NONE: Moves = &[(Move::First, None)];

#[test]
fn malformed_blocks_are_refused(rt: HostRuntime) -> Result<(), Fail> {
    for bytes in DAMAGED {
        assert!(rt; is_corrupt::<Plain>(rt.alloc(), bytes), "{bytes:?}");
    }
    for end in 0..20 {
        assert!(rt;
            is_corrupt::<Plain>(rt.alloc(), &TWO[..end]),
            "cut to {end}"
        );
    }
    let mut empty = opened::<Plain>(rt.alloc(), b"\0\0\0\0\x01\0\0\0")?;
    assert!(rt; moves(&mut empty, TO_NONE));
    Ok(())
}

// The keys of a delete of `a` at sequence number 2 and of a put at 1.
const NEWER: &[u8] = b"a\0\x02\0\0\0\0\0\0";

const OLDER: &[u8] = b"a\x01\x01\0\0\0\0\0\0";

const OLDER_ALONE: &[u8] = b"\0\x09\x01a\x01\x01\0\0\0\0\0\01\0\0\0\0\x01\0\0\0";

const BOTH: Moves = &[
    (Move::First, Some((NEWER, b""))),
    (Move::Seek(OLDER), Some((OLDER, b"1"))),
];

const TO_A: Moves = &[(Move::First, Some((b"a", b"")))];

// The block of the older key alone, which has no place for the newer one any more.
fn older_alone(alloc: Global) -> Result<bool, AllocError> {
    let mut builder = BlockBuilder::<Internal<Bytewise>>::new(alloc, 16);
    let is_added = add(&mut builder, OLDER, b"1");
    let is_above = builder.is_above_last(NEWER);
    let bytes = builder.finish()?;
    Ok(is_added && !is_above && bytes.as_slice() == OLDER_ALONE)
}

fn both(alloc: Global) -> Result<Vec<u8>, AllocError> {
    let mut builder = BlockBuilder::<Internal<Bytewise>>::new(alloc, 16);
    add(&mut builder, NEWER, b"");
    add(&mut builder, OLDER, b"1");
    builder.finish()
}

// Whether moves of a cursor over the block of these bytes lead where they say.
fn leads(alloc: Global, bytes: &[u8], steps: Moves) -> Result<bool, Fail> {
    let mut cursor = opened::<Internal<Bytewise>>(alloc, bytes)?;
    Ok(moves(&mut cursor, steps))
}

#[test]
fn internal_keys_are_ordered_by_what_they_mean(rt: HostRuntime) -> Result<(), Fail> {
    let alloc = rt.alloc();
    assert!(rt; older_alone(alloc)?);
    assert!(rt; leads(alloc, &both(alloc)?, BOTH)?);
    // Bytes that are no internal key stand alone.
    assert!(rt; leads(alloc, b"\0\x01\0a\0\0\0\0\x01\0\0\0", TO_A)?);
    assert!(rt; is_corrupt::<Internal<Bytewise>>(alloc, &TWO));
    Ok(())
}
