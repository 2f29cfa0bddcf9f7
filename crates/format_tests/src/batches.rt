use batch::{Batch, Operation, encode_operations, refusal};
use coding::{Bytes, Damage, DbError, ReadError, SEQUENCE_END};
use std::alloc::{AllocError, Global};
use std::test::*;

// What a batch has: keys, each with its value, or with none where it is deleted.
type Given = (&'static [u8], Option<&'static [u8]>);

// Put `a` = `1` at sequence number 1.
const ONE_PUT: [u8; 17] = [1, 0, 0, 0, 0, 0, 0, 0, 1, 0, 0, 0, 1, 1, 0x61, 1, 0x31];

// Sequence numbers, operations and their bytes. The last sequence number is 2^56 - 1: a batch of
// one operation may have it.
const ENCODED: [(u64, &[Given], &[u8]); 5] = [
    (1, &[(b"a", Some(b"1"))], &ONE_PUT),
    (
        300,
        &[(b"a", Some(b"1")), (b"a", None), (b"", Some(b"2"))],
        b"\x2c\x01\0\0\0\0\0\0\x03\0\0\0\x01\x01a\x011\0\x01a\x01\0\x012",
    ),
    (0, &[], &[0; 12]),
    (
        SEQUENCE_END - 1,
        &[],
        b"\xff\xff\xff\xff\xff\xff\xff\0\0\0\0\0",
    ),
    (
        SEQUENCE_END - 1,
        &[(b"a", Some(b"1"))],
        b"\xff\xff\xff\xff\xff\xff\xff\0\x01\0\0\0\x01\x01a\x011",
    ),
];

fn push(batch: &mut Batch, key: &[u8], value: Option<&[u8]>) -> Result<(), DbError> {
    match value {
        Some(value) => batch.put(key, value),
        None => batch.delete(key),
    }
}

fn batch_of(alloc: Global, given: &[Given]) -> Result<Batch, DbError> {
    let mut batch = Batch::new(alloc);
    for (key, value) in given {
        push(&mut batch, key, *value)?;
    }
    Ok(batch)
}

fn is_given(operation: &Operation, given: &Given) -> bool {
    match operation {
        Operation::Put(key, value) => key.as_slice() == given.0
            && given.1 == Some(value.as_slice()),
        Operation::Delete(key) => key.as_slice() == given.0 && given.1.is_none(),
    }
}

// Whether operations in no batch are encoded so, in a vector whose room was taken once.
fn is_encoded_loose(alloc: Global, sequence: u64, operations: &[Operation], bytes: &[u8]) -> bool {
    if refusal(operations).is_some()
        || sequence >= SEQUENCE_END
        || operations.len() as u64 > SEQUENCE_END - sequence
    {
        return false;
    }
    matches!(encode_operations(alloc, sequence, operations), Ok(out) if out.as_slice() == bytes && out.capacity() == out.len())
}

// Whether the batch is encoded so, in a vector whose room was taken once.
fn is_encoded(alloc: Global, sequence: u64, batch: &Batch, bytes: &[u8]) -> bool {
    if sequence >= SEQUENCE_END || batch.ops().len() as u64 > SEQUENCE_END - sequence {
        return false;
    }
    matches!(batch.encode(alloc, sequence), Ok(out) if out.as_slice() == bytes && out.capacity() == out.len())
}

// Whether the bytes are read as these operations.
fn is_decoded(alloc: Global, sequence: u64, given: &[Given], batch: &Batch, bytes: &[u8]) -> bool {
    let Ok((first, decoded)) = Batch::decode(alloc, bytes) else {
        return false;
    };
    let is_same = decoded.ops() == batch.ops();
    let operations = decoded.into_operations();
    first == sequence
        && is_same
        && operations.len() == given.len()
        && operations
            .iter()
            .zip(given)
            .all(|(operation, given)| is_given(operation, given))
        && is_encoded_loose(alloc, sequence, &operations, bytes)
}

#[test]
fn batches_are_encoded_and_decoded(rt: HostRuntime) -> Result<(), Fail> {
    let alloc = rt.alloc();
    for (sequence, given, bytes) in ENCODED {
        let batch = batch_of(alloc, given)?;
        assert!(rt; is_encoded(alloc, sequence, &batch, bytes), "{bytes:?}");
        assert!(rt;
            is_decoded(alloc, sequence, given, &batch, bytes),
            "{bytes:?}"
        );
    }
    Ok(())
}

#[test]
fn other_operations_differ(rt: HostRuntime) -> Result<(), Fail> {
    let one = batch_of(rt.alloc(), &[(b"a", Some(b"1"))])?;
    let other = batch_of(rt.alloc(), &[(b"a", None)])?;
    assert!(rt; one.ops() != other.ops());
    Ok(())
}

// The beginning of a batch whose first value has 300 bytes: their number is the two bytes AC 02.
const LONG_FRONT: [u8; 18] = [1, 0, 0, 0, 0, 0, 0, 0, 1, 0, 0, 0, 1, 1, 0x61, 0xAC, 2, 7];

// Whether the encoding has this length and takes no room to spare, and how it begins.
fn has_length(alloc: Global, batch: &Batch, length: usize, front: &[u8]) -> bool {
    if batch.ops().len() > 4 {
        return false;
    }
    matches!(batch.encode(alloc, 1), Ok(out) if out.len() == length && out.capacity() == length && out.starts_with(front))
}

#[test]
fn long_values_have_long_lengths(rt: HostRuntime) -> Result<(), Fail> {
    let alloc = rt.alloc();
    let value = vec![in alloc; 7u8; 16_384]?;
    let mut batch = Batch::new(alloc);
    batch.put(b"a", &value[..300])?;
    assert!(rt; has_length(alloc, &batch, 12 + 1 + 2 + 2 + 300, &LONG_FRONT));
    batch.put(b"a", &value)?;
    batch.put(b"b", &value[..127])?;
    batch.delete(b"a")?;
    assert!(rt;
        has_length(
            alloc,
            &batch,
            317 + (1 + 2 + 3 + 16_384) + (1 + 2 + 1 + 127) + (1 + 2),
            &[]
        )
    );
    Ok(())
}

// Where a byte of that put stands, what it becomes, and the damage that it makes. The cases: a
// sequence number of 2^56; a count of none, of two and of 2^24 + 1; a kind that isn't known; a
// delete; lengths past the end.
const CHANGES: [(usize, u8, Damage); 9] = [
    (7, 1, Damage::Number),
    (8, 0, Damage::Length),
    (8, 2, Damage::Length),
    (11, 1, Damage::Length),
    (12, 2, Damage::Kind),
    (12, 0, Damage::Length),
    (13, 4, Damage::Length),
    (15, 2, Damage::Length),
    (15, 0x81, Damage::Length),
];

// More operations than there are bytes, and one of three past the last sequence number.
const DAMAGED: [(&[u8], Damage); 2] = [
    (b"\0\0\0\0\0\0\0\0\xff\xff\xff\xff", Damage::Length),
    (
        b"\xfe\xff\xff\xff\xff\xff\xff\0\x03\0\0\0\x01\x01a\x011\0\x01a\x01\0\x012",
        Damage::Number,
    ),
];

fn is_refused(alloc: Global, bytes: &[u8], damage: Damage) -> bool {
    matches!(Batch::decode(alloc, bytes), Err(ReadError::Corrupt(what)) if what == damage)
}

fn changed(index: usize, byte: u8) -> [u8; 17] {
    let mut bytes = ONE_PUT;
    if let Some(changed) = bytes.get_mut(index) {
        *changed = byte;
    }
    bytes
}

#[test]
fn damaged_batches_are_corrupt(rt: HostRuntime) {
    for end in 0..17 {
        assert!(rt;
            is_refused(rt.alloc(), &ONE_PUT[..end], Damage::Length),
            "cut at {end}"
        );
    }
    for (index, byte, damage) in CHANGES {
        assert!(rt;
            is_refused(rt.alloc(), &changed(index, byte), damage),
            "{byte} at {index}"
        );
    }
    for (bytes, damage) in DAMAGED {
        assert!(rt; is_refused(rt.alloc(), bytes, damage), "{damage:?}");
    }
}

fn refuses(batch: &mut Batch, key: &[u8], value: Option<&[u8]>, error: DbError) -> bool {
    push(batch, key, value) == Err(error)
}

// Keys and values as long as may be are taken, and longer ones refused, the key first.
fn are_long_ones_refused(batch: &mut Batch, key: &[u8], value: &[u8]) -> bool {
    refuses(batch, key, None, DbError::KeyTooLong)
        && refuses(batch, key, Some(b""), DbError::KeyTooLong)
        && refuses(batch, b"a", Some(value), DbError::ValueTooLong)
        && refuses(batch, key, Some(value), DbError::KeyTooLong)
        && batch.ops().len() == 2
}

#[test]
fn long_keys_and_values_are_refused(rt: HostRuntime) -> Result<(), Fail> {
    let key = vec![in rt.alloc(); 7u8; 65_536]?;
    let value = vec![in rt.alloc(); 0u8; 268_435_457]?;
    let mut batch = Batch::new(rt.alloc());
    batch.delete(&key[1..])?;
    batch.put(&key[1..], b"")?;
    assert!(rt; are_long_ones_refused(&mut batch, &key, &value));
    Ok(())
}

// A put, which is made once more where there is no memory for it.
fn persistent_put(batch: &mut Batch, key: &[u8], value: &[u8]) -> Result<(), DbError> {
    match batch.put(key, value) {
        Err(DbError::OutOfMemory) => batch.put(key, value),
        other => other,
    }
}

fn longest_value(alloc: Global) -> Result<Vec<u8>, AllocError> {
    match vec![in alloc; 0u8; 268_435_456] {
        Ok(value) => Ok(value),
        Err(_) => vec![in alloc; 0u8; 268_435_456],
    }
}

// To be run with each allocation failing in turn: one that is made for the second value would be
// answered otherwise.
#[test]
fn a_second_longest_value_is_refused_before_it_is_copied(rt: HostRuntime) -> Result<(), Fail> {
    let value = longest_value(rt.alloc())?;
    let mut batch = Batch::new(rt.alloc());
    assert_eq!(rt; persistent_put(&mut batch, b"a", &value), Ok(()));
    assert!(rt; refuses(&mut batch, b"b", Some(&value), DbError::BatchTooLarge));
    assert_eq!(rt; batch.ops().len(), 1);
    Ok(())
}

// A batch of as many deletes as may be.
fn full_batch(alloc: Global) -> Result<Batch, DbError> {
    let mut batch = Batch::new(alloc);
    for _ in 0..1_048_576 {
        batch.delete(b"")?;
    }
    Ok(batch)
}

fn is_full(batch: &mut Batch) -> bool {
    refuses(batch, b"", None, DbError::BatchTooLarge)
        && refuses(batch, b"", Some(b""), DbError::BatchTooLarge)
        && refusal(batch.ops()).is_none()
}

// Whether the operations are refused with one more, and a long key is refused after one of them.
fn are_refused(
    alloc: Global,
    operations: &mut Vec<Operation>,
    key: Vec<u8>,
) -> Result<bool, DbError> {
    operations.push(Operation::Delete(Bytes::from_vec(Vec::new(alloc))))?;
    let are_many = refusal(operations) == Some(DbError::BatchTooLarge);
    operations.truncate(1);
    operations.push(Operation::Delete(Bytes::from_vec(key)))?;
    Ok(are_many && refusal(operations) == Some(DbError::KeyTooLong))
}

#[test]
fn a_batch_has_at_most_1_048_576_operations(rt: HostRuntime) -> Result<(), Fail> {
    let mut batch = full_batch(rt.alloc())?;
    assert!(rt; is_full(&mut batch));
    let key = vec![in rt.alloc(); 7u8; 65_536]?;
    assert!(rt; are_refused(rt.alloc(), &mut batch.into_operations(), key)?);
    Ok(())
}
