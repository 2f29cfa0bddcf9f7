use coding::{Bytes, SEQUENCE_END};
use ikey::{
    Bytewise, Entry, EntryOrder, Front, Internal, InternalKey, KeyOrder, Kind, Plain, ReverseBytes,
    all_come_before, answered_in_row, compare_keys, first_found, newest_in_front, none_found,
    one_key, pack, same_bytes, same_view, searched_by_two, searched_when_grown,
    searched_when_replaced, seek_key, sorted_in_row, sought_in_order, unpack, unseen_in_front,
};
use std::alloc::{AllocError, Global};
use std::cmp::Ordering;
use std::test::*;

// Keys and their bytes.
const PACKED: [(&[u8], u64, Kind, &[u8]); 3] = [
    (b"a", 1, Kind::Put, b"a\x01\x01\0\0\0\0\0\0"),
    (
        b"b",
        SEQUENCE_END - 1,
        Kind::Put,
        b"b\x01\xff\xff\xff\xff\xff\xff\xff",
    ),
    (b"", 0x0102, Kind::Delete, b"\0\x02\x01\0\0\0\0\0"),
];

const NO_KEYS: [&[u8]; 4] = [
    b"",
    b"\x01\0\0\0\0\0\0",
    b"\x02\0\0\0\0\0\0\0",
    b"a\xff\0\0\0\0\0\0\0",
];

// Whether the key has these bytes, both ways.
fn is_packed(alloc: Global, key: InternalKey<'_>, bytes: &[u8]) -> bool {
    key.sequence < SEQUENCE_END
        && unpack(bytes) == Some(key)
        && matches!(pack(alloc, key.user, key.sequence, key.kind), Ok(packed) if packed.as_slice() == bytes)
}

#[test]
fn internal_keys_have_the_bytes_of_the_format(rt: HostRuntime) {
    for (user, sequence, kind, bytes) in PACKED {
        let key = InternalKey {
            user,
            sequence,
            kind,
        };
        assert!(rt; is_packed(rt.alloc(), key, bytes), "{key:?}");
    }
    for bytes in NO_KEYS {
        assert!(rt; unpack(bytes).is_none(), "{bytes:?}");
    }
    // Laws, for the proof alone.
    one_key();
}

// The bytes of internal keys in their order: the user keys up, the newer write first.
const ORDERED: [&[u8]; 9] = [
    b"\0\0\0\0\0\0\0\0",
    b"a\0\x2c\x01\0\0\0\0\0",
    b"a\x01\x07\0\0\0\0\0\0",
    b"a\0\x07\0\0\0\0\0\0",
    b"a\x01\0\0\0\0\0\0\0",
    b"a\0\x01\x84\x03\0\0\0\0\0",
    b"ab\x01\x01\0\0\0\0\0\0",
    b"b\x01\x08\0\0\0\0\0\0",
    b"\xff\x01\x02\0\0\0\0\0\0",
];

// Whether bytes are ordered so, and so are the keys that they are.
fn are_so(a: &[u8], b: &[u8], order: Ordering) -> bool {
    compare_keys::<Bytewise>(a, b) == Some(order)
        && Internal::<Bytewise>::is_below(a, b) == (order == Ordering::Less)
        && matches!((unpack(a), unpack(b)), (Some(a), Some(b)) if a.cmp(&b) == order)
}

// Whether bytes that are no internal key are neither below nor above these.
fn is_apart(a: &[u8], short: &[u8]) -> bool {
    compare_keys::<Bytewise>(a, short).is_none()
        && !Internal::<Bytewise>::is_below(a, short)
        && !Internal::<Bytewise>::is_below(short, a)
}

#[test]
fn user_keys_rise_and_sequences_fall(rt: HostRuntime) {
    for (i, a) in ORDERED.iter().enumerate() {
        for (k, b) in ORDERED.iter().enumerate() {
            assert!(rt; are_so(a, b, i.cmp(&k)), "{i} and {k}");
        }
        assert!(rt; is_apart(a, b"short"), "{i}");
    }
}

// Those of seven bytes and more are each the front of the next, and then each once more with
// another last byte.
const RISING: [&[u8]; 30] = [
    b"",
    b"\0",
    b"\0\0",
    b"\x01",
    b"abcdefg",
    b"abcdefgh",
    b"abcdefghi",
    b"abcdefghijklmno",
    b"abcdefghijklmnop",
    b"abcdefghijklmnopq",
    b"abcdefghijklmnopqrstuvw",
    b"abcdefghijklmnopqrstuvwx",
    b"abcdefghijklmnopqrstuvwxy",
    b"abcdefghijklmnopqrstuvwxyzabcdefg",
    b"abcdefghijklmnopqrstuvwxyzabcdefghijklmn",
    b"abcdefghijklmnopqrstuvwxyzabcdefghijklm\xff",
    b"abcdefghijklmnopqrstuvwxyzabcdef\xff",
    b"abcdefghijklmnopqrstuvwx\xff",
    b"abcdefghijklmnopqrstuvw\xff",
    b"abcdefghijklmnopqrstuv\xff",
    b"abcdefghijklmnop\xff",
    b"abcdefghijklmno\xff",
    b"abcdefghijklmn\xff",
    b"abcdefgh\xff",
    b"abcdefg\xff",
    b"abcdef\xff",
    b"\x7f\xff",
    b"\x80",
    b"\xff",
    b"\xff\0",
];

#[test]
fn bytes_are_ordered_by_the_first_that_differs(rt: HostRuntime) {
    assert_eq!(rt; Bytewise::name(), "leveldb.BytewiseComparator");
    for (i, a) in RISING.iter().enumerate() {
        for (k, b) in RISING.iter().enumerate() {
            assert!(rt;
                Bytewise::compare(a, b) == i.cmp(&k)
                    && Plain::is_below(a, b) == (i < k)
                    && same_bytes(a, b) == (i == k),
                "{i} and {k}"
            );
        }
    }
}

// Two keys, and what their first sixteen bytes tell.
const FRONTS: [(&[u8], &[u8], Ordering); 9] = [
    (b"", b"", Ordering::Equal),
    (b"", b"\0", Ordering::Equal),
    (b"a", b"", Ordering::Greater),
    (b"a\xff", b"b", Ordering::Less),
    (b"abcdefgh", b"abcdefgh\0\x01", Ordering::Less),
    (b"abcdefghijklmno", b"abcdefghijklmnop", Ordering::Less),
    (b"abcdefghijklmnop", b"abcdefghijklmnopq", Ordering::Equal),
    (b"abcdefghijklmnopz", b"abcdefghijklmnopa", Ordering::Equal),
    (
        b"\x80bcdefghijklmnopq",
        b"\x7fbcdefghijklmnop",
        Ordering::Greater,
    ),
];

fn fronts_tell(a: &[u8], b: &[u8], told: Ordering) -> bool {
    Bytewise::compare_fronts(Front::of(a), Front::of(b)) == told
        && ReverseBytes::compare_fronts(Front::of(b), Front::of(a)) == told
}

#[test]
fn fronts_are_of_sixteen_bytes(rt: HostRuntime) {
    for (a, b, told) in FRONTS {
        assert!(rt; fronts_tell(a, b, told), "{a:?} {b:?}");
    }
}

// A key, how much of it the next one shares, and the next one's rest. Then what a quick comparison
// says of both as plain byte strings and as internal keys.
const LOOKS: [(&[u8], usize, &[u8], bool, bool); 6] = [
    (
        b"ab\x01\x07\0\0\0\0\0\0",
        1,
        b"c\x01\x07\0\0\0\0\0\0",
        true,
        true,
    ),
    (
        b"ab\x01\x07\0\0\0\0\0\0",
        1,
        b"b\x01\x08\0\0\0\0\0\0",
        false,
        false,
    ),
    (
        b"ab\0\x07\0\0\0\0\0\0",
        2,
        b"\x01\x07\0\0\0\0\0\0",
        true,
        false,
    ),
    (
        b"b\x01\x07\0\0\0\0\0\0",
        0,
        b"a\x01\x07\0\0\0\0\0\0",
        false,
        false,
    ),
    (b"short", 1, b"t", true, false),
    (b"ab", 2, b"c", false, false),
];

fn looks_so(a: &[u8], shared: usize, rest: &[u8], plain: bool, internal: bool) -> bool {
    Plain::is_plainly_below(a, shared, rest) == plain
        && Bytewise::is_plainly_below(a, shared, rest) == plain
        && Internal::<Bytewise>::is_plainly_below(a, shared, rest) == internal
}

#[test]
fn a_quick_look_sees_one_byte(rt: HostRuntime) {
    for (a, shared, rest, plain, internal) in LOOKS {
        assert!(rt;
            looks_so(a, shared, rest, plain, internal),
            "{a:?} {rest:?}"
        );
    }
}

// Keys, and how the first key of `a` at sequence number 7 stands to each.
const SEEK_KEY: &[u8] = b"a\x01\x07\0\0\0\0\0\0";

const SOUGHT: [(&[u8], Ordering); 4] = [
    (b"a\0\x08\0\0\0\0\0\0", Ordering::Greater),
    (b"a\x01\x07\0\0\0\0\0\0", Ordering::Equal),
    (b"a\0\x07\0\0\0\0\0\0", Ordering::Less),
    (b"a\x01\x06\0\0\0\0\0\0", Ordering::Less),
];

#[test]
fn a_seek_key_stands_in_front_of_what_is_visible(rt: HostRuntime) {
    assert!(rt; matches!(seek_key(rt.alloc(), b"a", 7), Ok(key) if key.as_slice() == SEEK_KEY));
    for (key, order) in SOUGHT {
        assert_eq!(rt; compare_keys::<Bytewise>(SEEK_KEY, key), Some(order));
    }
}

// The entry of `a` at sequence number 1.
fn entry_of(alloc: Global, value: Option<Bytes>) -> Result<Entry, AllocError> {
    let key = Bytes::copied_from(alloc, b"a")?;
    Ok(Entry {
        key,
        sequence: 1,
        value,
    })
}

fn has_key(alloc: Global, entry: &Entry, kind: Kind, bytes: &[u8]) -> bool {
    entry.sequence < SEQUENCE_END
        && entry.kind() == kind
        && matches!(entry.internal_key(alloc), Ok(key) if key.as_slice() == bytes)
}

#[test]
fn entries_have_the_internal_key_of_their_write(rt: HostRuntime) -> Result<(), Fail> {
    let alloc = rt.alloc();
    let put = entry_of(alloc, Some(Bytes::from_vec(Vec::new(alloc))))?;
    let delete = entry_of(alloc, None)?;
    assert!(rt; has_key(alloc, &put, Kind::Put, b"a\x01\x01\0\0\0\0\0\0"));
    assert!(rt; has_key(alloc, &delete, Kind::Delete, b"a\0\x01\0\0\0\0\0\0"));
    assert!(rt; put == put && put != delete);
    Ok(())
}

// Keys in their order, the last four with numbers that no eight bytes hold.
#[rattlefmt::skip]
const RISING_KEYS: [InternalKey<'static>; 12] = [
    InternalKey { user: b"", sequence: 0, kind: Kind::Delete },
    InternalKey { user: b"a", sequence: 300, kind: Kind::Delete },
    InternalKey { user: b"a", sequence: 7, kind: Kind::Put },
    InternalKey { user: b"a", sequence: 7, kind: Kind::Delete },
    InternalKey { user: b"a", sequence: 0, kind: Kind::Put },
    InternalKey { user: b"a\0", sequence: 900, kind: Kind::Put },
    InternalKey { user: b"ab", sequence: 1, kind: Kind::Put },
    InternalKey { user: b"b", sequence: SEQUENCE_END - 1, kind: Kind::Put },
    InternalKey { user: b"\xff", sequence: u64::MAX, kind: Kind::Put },
    InternalKey { user: b"\xff", sequence: u64::MAX, kind: Kind::Delete },
    InternalKey { user: b"\xff", sequence: SEQUENCE_END, kind: Kind::Put },
    InternalKey { user: b"\xff\0", sequence: u64::MAX, kind: Kind::Put },
];

fn compare_so(a: &InternalKey<'_>, b: &InternalKey<'_>, order: Ordering) -> bool {
    a.cmp(b) == order
        && a.partial_cmp(b) == Some(order)
        && (a < b) == (order == Ordering::Less)
        && (a == b) == (order == Ordering::Equal)
}

#[test]
fn keys_compare_as_they_stand(rt: HostRuntime) {
    for (i, a) in RISING_KEYS.iter().enumerate() {
        for (k, b) in RISING_KEYS.iter().enumerate() {
            assert!(rt; compare_so(a, b, i.cmp(&k)), "{i} and {k}");
        }
    }
}

#[test]
fn keys_are_sorted_into_their_order(rt: HostRuntime) -> Result<(), Fail> {
    let mut keys = Vec::from_slice(rt.alloc(), &RISING_KEYS)?;
    keys.reverse();
    keys.sort()?;
    assert!(rt; keys.as_slice() == RISING_KEYS.as_slice());
    Ok(())
}

#[test]
fn laws_are_called() {
    // Laws, for the proof alone.
    newest_in_front();
    unseen_in_front();
    first_found();
    none_found();
    searched_by_two();
    searched_when_grown();
    searched_when_replaced();
    same_view();
    sought_in_order();
    all_come_before();
    sorted_in_row();
    answered_in_row();
}
