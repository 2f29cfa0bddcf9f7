//! Looking for the next pair that is visible at a sequence number, either way.

ghost use Rattle.std.specs.Prelude.{◌≡◌, ◌<◌, ℕ, Bool, true, List, IsTrue, IfOk, IfErr, OnOk, MatchResult, MatchBool};
ghost use Rattle.std.specs.Option.{option_copied};
ghost use Rattle.ikey.specs.Entries.{InternalEntry};
ghost use Rattle.ikey.specs.Keys.{Key, IsKey};
ghost use Rattle.ikey.specs.KeyViews.{key_of as key_view};
ghost use Rattle.table.specs.Reading.{IsStill};
ghost use Rattle.cursor.specs.Places.{within, index_before};
ghost use Rattle.cursor.specs.Moves.{RefusesMoves};
ghost use Rattle.cursor.specs.Merging.{listed};
ghost use Rattle.cursor.specs.Searches.{Wanders, SearchesOn, AnswersOn, LooksOn, Hidden, SearchesBack};
ghost use Rattle.cursor.specs.Searches.{AnswersBack, LooksBack, HasPassedNone, RefusesKey, below_bound};
ghost use Rattle.cursor.specs.Searches.{hides_now, hidden_now};

use crate::copying::copy_to;
use crate::cursor::Cursor;
use coding::{Damage, DbError, FileKind};
use ikey::{InternalKey, KeyOrder, Kind, same_bytes, unpack};
use std::alloc::{AllocError, Global};
use std::cmp::Ordering;

/// Holds a user key, and a value.
#[derive(Drop)]
pub struct Found {
    pub key: Vec<u8>,
    pub value: Vec<u8>,
}

impl Found {
    /// Makes one that has found nothing yet.
    pub fn new(alloc: Global) -> Self {
        Found {
            key: Vec::new(alloc),
            value: Vec::new(alloc),
        }
    }
}

/// Goes on from the cursor's entry to the first that is visible: the newest of its user key up to
/// the sequence number, and a put. With `hides`, the hidden user key is passed over. The buffer
/// has the user key that was found: each entry that may be it is copied there, and nothing else.
/// More entries than 2^64, which no store holds, are too much for memory.
pub fn find_on<K: KeyOrder, S, C: Cursor<K, S>>(
    cursor: &mut C,
    alloc: Global,
    source: &mut S,
    sequence: u64,
    hides: bool,
    hidden: &[u8],
    found: &mut Vec<u8>,
) -> Result<bool, DbError>
    ensures found { IsTrue (C.facts source.new).faithful → IfOk result
        (λ has. (entries : List InternalEntry) (test : List ℕ → Bool) (index : ℕ)
        → C.lists cursor.old source.old (listed entries (within entries index))
        → SearchesOn K.cmp entries sequence test index hides hidden.now
        → AnswersOn K.cmp C.lists cursor.new source.new entries sequence test found.new.items has) }
    ensures stands { IfOk result (λ has. has ≡ true → C.stands cursor.new ≡ true) }
    ensures wanders { Wanders C.facts C.lists C.keeps C.limited C.torn C.leaves C.over cursor.old cursor.new source.old source.new }
    ensures still { IsStill (C.facts source.old) (C.facts source.new) result }
    ensures refused { RefusesMoves C.facts C.lists C.limited C.torn cursor.old source.old source.new result }
{
    let mut holds = false;
    'search: for _ in 0..u64::MAX {
        if !cursor.stands() {
            return Ok(false);
        }
        let key = cursor.key(source);
        if look_on(key, sequence, hides, hidden, &mut holds, found)? {
            return Ok(true);
        }
        cursor.next(alloc, source)?;
    }
    Err(DbError::OutOfMemory)
}

// Whether the entry of this key is the one that is looked for. If not, it may hide the older ones
// of its user key: then the buffer holds that key, as it does once an entry is found.
fn look_on(
    bytes: &[u8],
    sequence: u64,
    hides: bool,
    hidden: &[u8],
    holds: &mut bool,
    found: &mut Vec<u8>,
) -> Result<bool, DbError>
    ensures looks { IfOk result (λ has. (key : Key) → IsKey bytes.now key
        → LooksOn key sequence (hides_now holds.old hides) (hidden_now holds.old hidden.now found.old.items)
        (hides_now holds.new hides) (hidden_now holds.new hidden.now found.new.items) has) }
    ensures held { IfOk result (λ has. has ≡ true → holds.new ≡ true) }
    ensures refused { IfErr result (λ e. RefusesKey e bytes.now) }
{
    let key = key_of(bytes)?;
    if key.sequence > sequence {
        return Ok(false);
    }
    if is_hidden(hides, hidden, *holds, found.as_slice(), key.user) {
        return Ok(false);
    }
    copy_to(found, key.user)?;
    *holds = true;
    match key.kind {
        Kind::Put => Ok(true),
        Kind::Delete => Ok(false),
    }
}

// Whether this user key is the one that was deleted last, or, if none was, the hidden one.
fn is_hidden(hides: bool, hidden: &[u8], holds: bool, found: &[u8], user: &[u8]) -> bool
    ensures { MatchBool result
        (Hidden (hides_now holds hides) (hidden_now holds hidden.now found.now) user.now)
        (Hidden (hides_now holds hides) (hidden_now holds hidden.now found.now) user.now → ⊥) }
{
    if holds {
        return same_bytes(found, user);
    }
    if !hides {
        return false;
    }
    same_bytes(hidden, user)
}

/// Goes back from the cursor's entry to the newest entry, up to the sequence number, of the
/// greatest user key that has a put there, and further to the last entry of a lower user key.
/// Entries whose user key isn't below the bound are passed over.
pub fn find_back<K: KeyOrder, S, C: Cursor<K, S>>(
    cursor: &mut C,
    alloc: Global,
    source: &mut S,
    sequence: u64,
    bound: Option<&[u8]>,
    found: &mut Found,
) -> Result<bool, DbError>
    ensures found { IsTrue (C.facts source.new).faithful → IfOk result
        (λ has. (entries : List InternalEntry) (index : ℕ) → C.lists cursor.old source.old (listed entries (index_before index))
        → HasPassedNone entries sequence (below_bound K.cmp (option_copied bound.entry)) index
        → AnswersBack K.cmp C.lists cursor.new source.new entries sequence
        (below_bound K.cmp (option_copied bound.entry)) found.new.key.items found.new.value.items has) }
    ensures wanders { Wanders C.facts C.lists C.keeps C.limited C.torn C.leaves C.over cursor.old cursor.new source.old source.new }
    ensures still { IsStill (C.facts source.old) (C.facts source.new) result }
    ensures refused { RefusesMoves C.facts C.lists C.limited C.torn cursor.old source.old source.new result }
{
    let mut has = false;
    'search: for _ in 0..u64::MAX {
        if !cursor.stands() {
            return Ok(has);
        }
        if look_back::<K>(
            cursor.key(source),
            cursor.value(source),
            sequence,
            bound,
            &mut has,
            found,
        )? {
            return Ok(true);
        }
        cursor.prev(alloc, source)?;
    }
    Err(DbError::OutOfMemory)
}

// Whether the search ends at the entry of this key and value: before the user key that was found.
// If not, it may be found itself, or hide what was found.
fn look_back<K: KeyOrder>(
    bytes: &[u8],
    value: &[u8],
    sequence: u64,
    bound: Option<&[u8]>,
    has: &mut bool,
    found: &mut Found,
) -> Result<bool, DbError>
    ensures looks { IfOk result (λ ends. (key : Key) → IsKey bytes.now key
        → LooksBack key value.now sequence (below_bound K.cmp
        (option_copied bound.entry)) has.old found.old.key.items found.old.value.items has.new found.new.key.items
        found.new.value.items ends) }
    ensures refused { IfErr result (λ e. RefusesKey e bytes.now) }
{
    let key = key_of(bytes)?;
    if is_other(*has, found.key.as_slice(), key.user) {
        return Ok(true);
    }
    if key.sequence > sequence {
        return Ok(false);
    }
    if !is_below::<K>(key.user, bound) {
        return Ok(false);
    }
    match key.kind {
        Kind::Put => {
            copy_to(&mut found.key, key.user)?;
            copy_to(&mut found.value, value)?;
            *has = true;
            Ok(false)
        }
        Kind::Delete => {
            *has = false;
            Ok(false)
        }
    }
}

// Whether a user key was found, and this is another.
fn is_other(has: bool, found: &[u8], user: &[u8]) -> bool
    ensures { MatchBool result ((has ≡ true) × (user.now ≡ found.now → ⊥)) (has ≡ true → user.now ≡ found.now) }
{
    if !has {
        return false;
    }
    !same_bytes(found, user)
}

fn is_below<K: KeyOrder>(user: &[u8], bound: Option<&[u8]>) -> bool
    ensures { result ≡ below_bound K.cmp (option_copied bound.entry) user.now }
{
    match bound {
        None => true,
        Some(bound) => match K::compare(user, bound) {
            Ordering::Less => true,
            Ordering::Equal => false,
            Ordering::Greater => false,
        },
    }
}

// The internal key that a cursor's bytes are. A table's block may have bytes that are none.
fn key_of(bytes: &[u8]) -> Result<InternalKey<'_>, DbError>
    ensures key { IfOk result (λ key. IsKey bytes.now (key_view key)) }
    ensures refused { IfErr result (λ e. RefusesKey e bytes.now) }
{
    match unpack(bytes) {
        Some(key) => Ok(key),
        None => Err(DbError::Corrupt(FileKind::Table, Damage::Kind)),
    }
}
