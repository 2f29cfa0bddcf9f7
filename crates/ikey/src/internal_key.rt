//! Internal keys (LevelDB's db/dbformat.h).

ghost use Rattle.std.specs.Prelude.{◌≡◌, ◌<◌, ◌^◌, ◌++◌, List, ℕ, IfOk, IfSome, MatchOption, ⊤};
ghost use Rattle.std.specs.Cmp.{IsTotalOrder};
ghost use Rattle.ikey.specs.Keys as keys;
ghost use Rattle.ikey.specs.Keys.{Key, IsKey, key_cmp, IsFirstKey};
ghost use Rattle.ikey.specs.declared.internal_key.Kind.{Kind as KindValue};
ghost use Rattle.ikey.specs.KeyViews.{key_of};

use crate::key_order::KeyOrder;
use coding::{get_fixed64, put_fixed64};
use std::alloc::{AllocError, Global};
use std::cmp::Ordering;

// The bytes of the sequence number and the kind, which follow a user key.
const TAG_LENGTH: usize = 8;

/// Tells what an entry does to its user key (LevelDB's db/dbformat.h, ValueType).
#[derive(Clone, Copy, Debug, PartialEq, Eq)]
pub enum Kind {
    /// It takes the key away. Its number in a file is 0.
    Delete,
    /// It gives the key a value. Its number in a file is 1.
    Put,
}

/// Holds a user key with the sequence number and the kind of one write to it.
#[derive(Clone, Copy, Debug, PartialEq, Eq)]
pub struct InternalKey<'a> {
    pub user: &'a [u8],
    pub sequence: u64,
    pub kind: Kind,
}

/// Returns the bytes of an internal key: the user key, and eight bytes with the sequence number and
/// the kind (LevelDB's db/dbformat.h, AppendInternalKey). It fails only out of memory.
pub fn pack(alloc: Global, user: &[u8], sequence: u64, kind: Kind) -> Result<Vec<u8>, AllocError>
    requires { sequence < 2 ^ 56 }
    ensures { IfOk result (λ bytes. IsKey bytes.items (record { user = user.now; sequence = sequence; kind = kind })) }
{
    let mut bytes = Vec::with_capacity(alloc, user.len() + TAG_LENGTH)?;
    bytes.extend_from_slice(user)?;
    put_fixed64(&mut bytes, tag_of(sequence, kind))?;
    Ok(bytes)
}

fn tag_of(sequence: u64, kind: Kind) -> u64
    requires { sequence < 2 ^ 56 }
    ensures { result ≡ keys.tag sequence kind }
{
    match kind {
        Kind::Delete => sequence * 256,
        Kind::Put => sequence * 256 + 1,
    }
}

/// Returns the internal key that the bytes are; its user key is a part of them (LevelDB's
/// db/dbformat.h, ParseInternalKey). None: there are fewer than eight bytes, or the kind is neither
/// 0 nor 1. Callers make that Corrupt.
pub fn unpack(bytes: &[u8]) -> Option<InternalKey<'_>>
    ensures range { IfSome result (λ key. key.sequence < 2 ^ 56) }
    ensures found { IfSome result (λ key. IsKey bytes.now (key_of key)) }
    ensures none { MatchOption result ((key : Key) → IsKey bytes.now key → ⊥) (λ _. ⊤) }
{
    if bytes.len() < TAG_LENGTH {
        return None;
    }
    let (user, behind) = bytes.split_at(bytes.len() - TAG_LENGTH);
    let tag = get_fixed64(behind)?;
    let kind = kind_of(tag % 256)?;
    Some(InternalKey {
        user,
        sequence: tag / 256,
        kind,
    })
}

fn kind_of(number: u64) -> Option<Kind>
    ensures { MatchOption result ((kind : KindValue) → keys.kind_number kind ≡ number → ⊥) (λ kind. keys.kind_number kind ≡ number) }
{
    match number {
        0 => Some(Kind::Delete),
        1 => Some(Kind::Put),
        _ => None,
    }
}

/// Compares two internal keys by their bytes: the user keys up, and then the newer one first
/// (LevelDB's db/dbformat.cc, InternalKeyComparator). None: one of them is no internal key.
pub fn compare_keys<K: KeyOrder>(a: &[u8], b: &[u8]) -> Option<Ordering>
    ensures { MatchOption result
        ((k l : Key) → IsKey a.now k → IsKey b.now l → ⊥)
        (λ order. (k l : Key) × IsKey a.now k × IsKey b.now l × (order ≡ key_cmp K.cmp k l)) }
{
    let a = unpack(a)?;
    let b = unpack(b)?;
    match K::compare(a.user, b.user) {
        Ordering::Equal => Some(tag_of(b.sequence, b.kind).cmp(&tag_of(a.sequence, a.kind))),
        decided => Some(decided),
    }
}

/// Returns the first internal key of this user key whose sequence number is at most `sequence`, in
/// whatever order of user keys (LevelDB's db/dbformat.cc, LookupKey). It fails only out of memory.
pub fn seek_key(alloc: Global, user: &[u8], sequence: u64) -> Result<Vec<u8>, AllocError>
    requires { sequence < 2 ^ 56 }
    ensures { IfOk result (λ bytes. IsFirstKey user.now sequence bytes.items) }
{
    pack(alloc, user, sequence, Kind::Put)
}

/// Proves that no bytes are two internal keys.
pub fn one_key()
    ensures { (bytes : List ℕ) (k l : Key) → IsKey bytes k → IsKey bytes l → k ≡ l }
{}
