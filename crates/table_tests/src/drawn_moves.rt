// Drawn moves over merges of drawn lists, and over what of them is visible at a sequence number,
// beside a sorted list and a place in it. Also how many moves of the lists' cursors those of a
// merge take.
ghost use Rattle.std.specs.Prelude.{◌≡◌, true, OnOk};
ghost use Rattle.cursor.specs.Walks.{value_at_hand};

use coding::{Bytes, DbError};
use cursor::{Cursor, ListCursor, Merge, Visible};
use ikey::{Bytewise, KeyOrder, Kind, pack};
use std::alloc::{AllocError, Global};
use std::test::*;
use store::{MemStore, Store};
use table::KeyValue;

// A store, and how many moves were asked of cursors over it.
#[derive(Drop)]
struct Counted<S> {
    store: S,
    moves: u64,
}

// A list's cursor whose moves are counted.
#[derive(Drop)]
struct CountedCursor<K: KeyOrder> {
    list: ListCursor<K>,
}

impl<K: KeyOrder, S: Store> Cursor<K, Counted<S>> for CountedCursor<K> {
    ghost use Rattle.std.specs.Prelude.{is_some};
    ghost use Rattle.cursor.specs.Single.{ListsPairs};
    ghost use Rattle.std.proofs.Common.{ap};

    ghost facts = { λ source. S.facts source.store };

    ghost lists = { λ cursor source at. ListsPairs K.cmp cursor.list at };

    ghost keeps = { λ cursor old new. Unit {0} };

    ghost stands = { λ cursor. is_some cursor.list.place };

    ghost limited = { λ cursor source. ⊥ };

    ghost torn = { λ cursor source cut. ⊥ };

    ghost leaves = { λ numbers old new. Unit {0} };

    ghost over = { λ cursor number. ⊥ };

    fn first(&mut self, alloc: Global, source: &mut Counted<S>) -> Result<(), DbError> {
        source.moves = source.moves.saturating_add(1);
        self.list.first(alloc, &mut source.store)
    }

    fn last(&mut self, alloc: Global, source: &mut Counted<S>) -> Result<(), DbError> {
        source.moves = source.moves.saturating_add(1);
        self.list.last(alloc, &mut source.store)
    }

    fn seek(
        &mut self,
        alloc: Global,
        source: &mut Counted<S>,
        target: &[u8],
    ) -> Result<(), DbError> {
        source.moves = source.moves.saturating_add(1);
        self.list.seek(alloc, &mut source.store, target)
    }

    fn next(&mut self, alloc: Global, source: &mut Counted<S>) -> Result<(), DbError> {
        source.moves = source.moves.saturating_add(1);
        self.list.next(alloc, &mut source.store)
    }

    fn prev(&mut self, alloc: Global, source: &mut Counted<S>) -> Result<(), DbError> {
        source.moves = source.moves.saturating_add(1);
        self.list.prev(alloc, &mut source.store)
    }

    fn stands(&self) -> bool {
        <ListCursor<K> as Cursor<K, S>>::stands(&self.list)
    }

    fn key<'a>(&'a self, source: &'a Counted<S>) -> &'a [u8] {
        self.list.key(&source.store)
    }

    fn value<'a>(&'a self, source: &'a Counted<S>) -> &'a [u8] {
        self.list.value(&source.store)
    }

    ghost rises = { λ cursor source at h. h.rises };

    ghost placed = { λ cursor source at h. ap is_some h.place };

    ghost inside = { λ cursor source at index h e. h.inside index e };

    ghost kept = { λ cursor old new at k h. h };

    ghost still = { λ cursor source. tt };

    ghost onward = { λ cursor first second third k l. tt };

    ghost limits_kept = { λ cursor old new k l. l };

    ghost torn_kept = { λ cursor old new cut k t. t };

    ghost torn_same = { λ cursor source at a b h same t. t };

    ghost leaves_still = { λ numbers source. tt };

    ghost leaves_onward = { λ numbers first second third k l. tt };

    ghost leaves_more = { λ fewer more old new less k. tt };
}

// ---- entries by their numbers, which rise as the keys do: three sequence numbers of each user
// key, the newest first

const NUMBERS: u8 = 60;

// Every fifth entry is a delete.
fn kind_of(number: u8) -> Kind {
    if number.is_multiple_of(5) {
        return Kind::Delete;
    }
    Kind::Put
}

fn key_of(alloc: Global, number: u8) -> Result<Vec<u8>, AllocError> {
    let age = number % 3;
    pack(alloc, &[number / 3], u64::from(9 - age), kind_of(number))
}

fn pair_of(alloc: Global, number: u8) -> Result<KeyValue, AllocError> {
    Ok(KeyValue {
        key: Bytes::from_vec(key_of(alloc, number)?),
        value: Bytes::copied_from(alloc, &[number])?,
    })
}

// ---- what is drawn

// The next number of an xorshift.
fn drawn_after(drawn: u64) -> u64 {
    let mut next = drawn;
    next ^= next << 13;
    next ^= next >> 7;
    next ^= next << 17;
    next
}

#[derive(Clone, Copy, Debug, PartialEq, Eq)]
enum Turn {
    First,
    Last,
    Seek(u8),
    Next,
    Prev,
}

fn turn_of(drawn: u64) -> Turn {
    let number = (drawn >> 8) % 64;
    match drawn % 16 {
        0 => Turn::First,
        1 => Turn::Last,
        2 | 3 => Turn::Seek(number as u8),
        4..10 => Turn::Next,
        _ => Turn::Prev,
    }
}

// The list that has each number, of so many, or their count, where none has it.
fn owners_of(alloc: Global, seed: u64, lists: u8) -> Result<Vec<u8>, AllocError> {
    let mut owners = Vec::new(alloc);
    let mut drawn = seed;
    for _ in 0..NUMBERS {
        drawn = drawn_after(drawn);
        let owner = (drawn >> 20) % (u64::from(lists) + 1);
        owners.push((owner % 256) as u8)?;
    }
    Ok(owners)
}

// The numbers that lists of these indexes have.
fn numbers_of(alloc: Global, owners: &[u8], first: u8, end: u8) -> Result<Vec<u8>, AllocError> {
    let mut numbers = Vec::new(alloc);
    let mut number = 0u8;
    for owner in owners {
        if first <= *owner && *owner < end {
            numbers.push(number)?;
        }
        number = number.wrapping_add(1);
    }
    Ok(numbers)
}

// Those that are visible at sequence number 8: of each user key the newest but the first, where
// that isn't a delete.
fn visible_of(alloc: Global, numbers: &[u8]) -> Result<Vec<u8>, AllocError> {
    let mut visible = Vec::new(alloc);
    let mut decided = None;
    for number in numbers {
        let user = *number / 3;
        if *number % 3 == 0 || decided == Some(user) {
            continue;
        }
        decided = Some(user);
        if kind_of(*number) == Kind::Put {
            visible.push(*number)?;
        }
    }
    Ok(visible)
}

fn cursor_of(alloc: Global, numbers: &[u8]) -> Result<CountedCursor<Bytewise>, AllocError> {
    let mut pairs = Vec::new(alloc);
    for number in numbers {
        pairs.push(pair_of(alloc, *number)?)?;
    }
    Ok(CountedCursor {
        list: ListCursor::new(pairs),
    })
}

type Merged = Merge<Bytewise, CountedCursor<Bytewise>>;

fn merge_of(alloc: Global, owners: &[u8], lists: u8) -> Result<Merged, AllocError> {
    let mut cursors = Vec::new(alloc);
    for list in 0..lists {
        let numbers = numbers_of(alloc, owners, list, list + 1)?;
        cursors.push(cursor_of(alloc, &numbers)?)?;
    }
    Merge::new(alloc, cursors)
}

// ---- moves of the plain list

// The index, if the list has it.
fn within(numbers: &[u8], index: usize) -> Option<usize> {
    if index < numbers.len() {
        return Some(index);
    }
    None
}

// The index of the first number from one on, or their count.
fn first_from(numbers: &[u8], low: u8) -> usize {
    for (index, number) in numbers.iter().enumerate() {
        if *number >= low {
            return index;
        }
    }
    numbers.len()
}

fn place_after(numbers: &[u8], place: Option<usize>, turn: Turn) -> Option<usize> {
    match turn {
        Turn::First => within(numbers, 0),
        Turn::Last => numbers.len().checked_sub(1),
        Turn::Seek(low) => within(numbers, first_from(numbers, low)),
        Turn::Next => within(numbers, place?.saturating_add(1)),
        Turn::Prev => place?.checked_sub(1),
    }
}

fn number_at(numbers: &[u8], place: Option<usize>) -> Option<u8> {
    numbers.get(place?).copied()
}

// ---- a merge beside the list

fn step<C: Cursor<Bytewise, Source>>(
    cursor: &mut C,
    alloc: Global,
    source: &mut Source,
    turn: Turn,
) -> Result<(), DbError> {
    match turn {
        Turn::First => cursor.first(alloc, source),
        Turn::Last => cursor.last(alloc, source),
        Turn::Seek(low) => {
            let target = key_of(alloc, low)?;
            cursor.seek(alloc, source, &target)
        }
        Turn::Next => {
            if !cursor.stands() {
                return Ok(());
            }
            cursor.next(alloc, source)
        }
        Turn::Prev => {
            if !cursor.stands() {
                return Ok(());
            }
            cursor.prev(alloc, source)
        }
    }
}

// Whether the cursor stands on the entry of this number, or nowhere if there is none.
fn is_at<C: Cursor<Bytewise, Source>>(
    cursor: &C,
    alloc: Global,
    source: &Source,
    number: Option<u8>,
) -> Result<bool, AllocError> {
    let Some(number) = number else {
        return Ok(!cursor.stands());
    };
    if !cursor.stands() {
        return Ok(false);
    }
    let key = key_of(alloc, number)?;
    Ok(
        cursor.key(source) == key.as_slice()
            && matches!(cursor.value(source), [only] if *only == number),
    )
}

// Whether all cursors stand ahead of the merge's entry after this turn, and not behind it.
fn leads_ahead(turn: Turn) -> bool {
    match turn {
        Turn::First => true,
        Turn::Last => false,
        Turn::Seek(_) => true,
        Turn::Next => true,
        Turn::Prev => false,
    }
}

fn is_step(turn: Turn) -> bool {
    turn == Turn::Next || turn == Turn::Prev
}

type Source = Counted<MemStore>;

#[derive(Drop)]
struct Beside {
    merge: Merged,
    source: Source,
    lists: u8,
    // whether the last turn led ahead
    is_ahead: bool,
    // the numbers that the lists have, and the index of the one at hand
    numbers: Vec<u8>,
    place: Option<usize>,
}

impl Beside {
    fn drawn(alloc: Global, seed: u64, lists: u8) -> Result<Self, AllocError> {
        let owners = owners_of(alloc, seed, lists)?;
        Ok(Beside {
            merge: merge_of(alloc, &owners, lists)?,
            source: Counted {
                store: MemStore::new(alloc),
                moves: 0,
            },
            lists,
            is_ahead: true,
            numbers: numbers_of(alloc, &owners, 0, lists)?,
            place: None,
        })
    }

    // A step in the direction of the last turn moves the one cursor that it leaves, any other turn
    // each of them.
    fn most_moves(&self, turn: Turn) -> u64 {
        if is_step(turn) && leads_ahead(turn) == self.is_ahead {
            return 1;
        }
        u64::from(self.lists)
    }

    // Takes the turn, and answers whether the merge stands where the list does then, and moved as
    // few cursors as it can.
    fn take(&mut self, alloc: Global, turn: Turn) -> Result<bool, DbError> {
        let most = self.source.moves.saturating_add(self.most_moves(turn));
        step(&mut self.merge, alloc, &mut self.source, turn)?;
        self.place = place_after(&self.numbers, self.place, turn);
        self.is_ahead = leads_ahead(turn);
        let number = number_at(&self.numbers, self.place);
        let is_there = is_at(&self.merge, alloc, &self.source, number)?;
        Ok(is_there && self.source.moves <= most)
    }
}

// ---- what is visible of a merge beside its list

fn walk<C: Cursor<Bytewise, Source>>(
    visible: &mut Visible<Bytewise, C>,
    alloc: Global,
    source: &mut Source,
    turn: Turn,
) -> Result<(), DbError>
    ensures { OnOk result (visible.new.stands ≡ true → value_at_hand C.stands visible.new ≡ true) }
{
    match turn {
        Turn::First => visible.first(alloc, source),
        Turn::Last => visible.last(alloc, source),
        Turn::Seek(low) => visible.seek(alloc, source, &[low / 3]),
        Turn::Next => {
            if !visible.stands() {
                return Ok(());
            }
            visible.next(alloc, source)
        }
        Turn::Prev => {
            if !visible.stands() {
                return Ok(());
            }
            visible.prev(alloc, source)
        }
    }
}

// Whether the pair at hand is that of the entry of this number.
fn shows<C: Cursor<Bytewise, Source>>(
    visible: &Visible<Bytewise, C>,
    source: &Source,
    number: Option<u8>,
) -> bool
    requires { visible.now.stands ≡ true → value_at_hand C.stands visible.now ≡ true }
{
    if !visible.stands() {
        return number.is_none();
    }
    let Some(number) = number else {
        return false;
    };
    matches!(visible.key(), [only] if *only == number / 3)
        && matches!(visible.value(source), [only] if *only == number)
}

// A turn to an entry, as one to the newest of its user key.
fn to_user_key(turn: Turn) -> Turn {
    if let Turn::Seek(low) = turn {
        return Turn::Seek(low - low % 3);
    }
    turn
}

#[derive(Drop)]
struct VisibleBeside {
    visible: Visible<Bytewise, Merged>,
    source: Source,
    numbers: Vec<u8>,
    place: Option<usize>,
}

impl VisibleBeside {
    fn drawn(alloc: Global, seed: u64, lists: u8) -> Result<Self, AllocError> {
        let beside = Beside::drawn(alloc, seed, lists)?;
        let numbers = visible_of(alloc, &beside.numbers)?;
        Ok(VisibleBeside {
            visible: Visible::new(alloc, beside.merge, 8),
            source: beside.source,
            numbers,
            place: None,
        })
    }

    // Takes the turn, and answers whether the pair is shown at which the list stands then.
    fn take(&mut self, alloc: Global, turn: Turn) -> Result<bool, DbError> {
        self.place = place_after(&self.numbers, self.place, to_user_key(turn));
        let number = number_at(&self.numbers, self.place);
        walk(&mut self.visible, alloc, &mut self.source, turn)?;
        Ok(shows(&self.visible, &self.source, number))
    }
}

// ---- the runs

const TURNS: u16 = 1_000;

// The first of a thousand drawn turns of a merge that goes wrong, by its number.
fn first_wrong(alloc: Global, seed: u64, lists: u8) -> Result<Option<(u16, Turn)>, DbError> {
    let mut beside = Beside::drawn(alloc, seed, lists)?;
    let mut drawn = seed;
    for number in 0..TURNS {
        drawn = drawn_after(drawn);
        if !beside.take(alloc, turn_of(drawn))? {
            return Ok(Some((number, turn_of(drawn))));
        }
    }
    Ok(None)
}

// The same of what is visible.
fn first_wrongly_shown(
    alloc: Global,
    seed: u64,
    lists: u8,
) -> Result<Option<(u16, Turn)>, DbError> {
    let mut beside = VisibleBeside::drawn(alloc, seed, lists)?;
    let mut drawn = seed;
    for number in 0..TURNS {
        drawn = drawn_after(drawn);
        if !beside.take(alloc, turn_of(drawn))? {
            return Ok(Some((number, turn_of(drawn))));
        }
    }
    Ok(None)
}

// A seed, and the number of lists.
const DRAWN: [(u64, u8); 8] = [
    (11, 0),
    (12, 1),
    (13, 2),
    (14, 2),
    (15, 3),
    (16, 4),
    (17, 7),
    (18, 20),
];

#[test]
fn drawn_turns_of_a_merge_lead_where_those_of_its_list_do(rt: HostRuntime) -> Result<(), Fail> {
    for (seed, lists) in DRAWN {
        let wrong = first_wrong(rt.alloc(), seed, lists)?;
        assert_eq!(rt; wrong, None, "seed {seed}, {lists} lists");
    }
    Ok(())
}

#[test]
fn drawn_turns_show_what_is_visible(rt: HostRuntime) -> Result<(), Fail> {
    for (seed, lists) in DRAWN {
        let wrong = first_wrongly_shown(rt.alloc(), seed, lists)?;
        assert_eq!(rt; wrong, None, "seed {seed}, {lists} lists");
    }
    Ok(())
}
