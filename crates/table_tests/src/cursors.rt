//! Cursors over lists: their merge, and what is visible of it.
ghost use Rattle.std.specs.Prelude.{◌≡◌, true, OnOk};
ghost use Rattle.cursor.specs.Walks.{value_at_hand};

use crate::entries::{Row, entries_of};
use crate::walks::{Pair, Turn, first_apart, first_elsewhere};
use coding::DbError;
use cursor::{
    Cursor, ListCursor, Merge, Visible, each_list_has_a_view, lists_have_a_union, merge_begins,
    views_agree,
};
use ikey::{Bytewise, Kind};
use std::alloc::Global;
use std::test::*;
use store::MemStore;

const PUT: Kind = Kind::Put;

// The entries of each of three children, in the order of internal keys. The value is the child.
const CHILDREN: [&[Row]; 3] = [
    &[
        (b"a", 4, Kind::Delete, b"\0"),
        (b"b", 3, Kind::Delete, b"\0"),
        (b"b", 2, PUT, b"\0"),
        (b"c", 7, PUT, b"\0"),
        (b"e", 2, Kind::Delete, b"\0"),
    ],
    &[
        (b"a", 9, PUT, b"\x01"),
        (b"d", 5, PUT, b"\x01"),
        (b"e", 9, PUT, b"\x01"),
    ],
    &[
        (b"a", 1, PUT, b"\x02"),
        (b"ba", 8, PUT, b"\x02"),
        (b"c", 6, PUT, b"\x02"),
    ],
];

// Those of all.
const ENTRIES: [Row; 11] = [
    (b"a", 9, PUT, b"\x01"),
    (b"a", 4, Kind::Delete, b"\0"),
    (b"a", 1, PUT, b"\x02"),
    (b"b", 3, Kind::Delete, b"\0"),
    (b"b", 2, PUT, b"\0"),
    (b"ba", 8, PUT, b"\x02"),
    (b"c", 7, PUT, b"\0"),
    (b"c", 6, PUT, b"\x02"),
    (b"d", 5, PUT, b"\x01"),
    (b"e", 9, PUT, b"\x01"),
    (b"e", 2, Kind::Delete, b"\0"),
];

// Each turn, and the ends.
#[rattlefmt::skip]
const TURNS: [Turn; 24] = [
    Turn::First, Turn::Next, Turn::Next, Turn::Prev, Turn::Next, Turn::Next, Turn::Prev, Turn::Prev, Turn::Prev, Turn::Prev,
    Turn::Last, Turn::Prev, Turn::Next, Turn::Next,
    Turn::Seek(b"b", 5, PUT), Turn::Prev, Turn::Next,
    Turn::Seek(b"a", 2, PUT), Turn::Next, Turn::Next, Turn::Next,
    Turn::Seek(b"f", 0, PUT), Turn::Last, Turn::Next,
];

// What a walk at sequence number 8 shows after each turn: a user key and a value. The deletes hide
// `a` and `b`, and `e` is too new.
#[rattlefmt::skip]
const SHOWN: [(Turn, Option<(&[u8], u8)>); 19] = [
    (Turn::First, Some((b"ba", 2))), (Turn::Next, Some((b"c", 0))), (Turn::Prev, Some((b"ba", 2))), (Turn::Next, Some((b"c", 0))),
    (Turn::Next, Some((b"d", 1))), (Turn::Next, None), (Turn::Prev, None),
    (Turn::Last, Some((b"d", 1))), (Turn::Prev, Some((b"c", 0))), (Turn::Next, Some((b"d", 1))), (Turn::Prev, Some((b"c", 0))),
    (Turn::Prev, Some((b"ba", 2))), (Turn::Prev, None),
    (Turn::Seek(b"a", 0, PUT), Some((b"ba", 2))), (Turn::Seek(b"c", 0, PUT), Some((b"c", 0))), (Turn::Prev, Some((b"ba", 2))),
    (Turn::Seek(b"d", 0, PUT), Some((b"d", 1))), (Turn::Next, None), (Turn::Seek(b"e", 0, PUT), None),
];

fn list_of(alloc: Global, entries: &[Row]) -> Result<ListCursor<Bytewise>, DbError> {
    Ok(ListCursor::new(entries_of(alloc, entries)?))
}

fn lists_of(alloc: Global) -> Result<Vec<ListCursor<Bytewise>>, DbError> {
    let mut cursors = Vec::new(alloc);
    for entries in CHILDREN {
        cursors.push(list_of(alloc, entries)?)?;
    }
    Ok(cursors)
}

fn merge_of(alloc: Global) -> Result<Merge<Bytewise, ListCursor<Bytewise>>, DbError> {
    Ok(Merge::new(alloc, lists_of(alloc)?)?)
}

// The first turn that leads the merge elsewhere than one list of all.
fn apart_from_the_union(alloc: Global) -> Result<Option<usize>, DbError> {
    let mut store = MemStore::new(alloc);
    let mut merge = Merge::new(alloc, lists_of(alloc)?)?;
    merge_begins::<Bytewise, MemStore, ListCursor<Bytewise>>(&merge, &store);
    first_apart(
        &mut merge,
        alloc,
        &mut store,
        entries_of(alloc, &ENTRIES)?,
        &TURNS,
    )
}

#[test]
fn a_merge_walks_as_the_union(rt: HostRuntime) {
    assert_eq!(rt; apart_from_the_union(rt.alloc()), Ok(None));
}

// The last child's list.
const LISTED: [(Turn, Option<Pair>); 3] = [
    (
        Turn::Seek(b"b", 9, PUT),
        Some((b"ba\x01\x08\0\0\0\0\0\0", b"\x02")),
    ),
    (Turn::Prev, Some((b"a\x01\x01\0\0\0\0\0\0", b"\x02"))),
    (Turn::Prev, None),
];

fn elsewhere_in_a_list(alloc: Global) -> Result<Option<usize>, DbError> {
    let mut store = MemStore::new(alloc);
    let mut list = list_of(alloc, CHILDREN[2])?;
    first_elsewhere(&mut list, alloc, &mut store, &LISTED)
}

#[test]
fn a_list_is_walked_both_ways(rt: HostRuntime) {
    assert_eq!(rt; elsewhere_in_a_list(rt.alloc()), Ok(None));
}

type Walk = Visible<Bytewise, Merge<Bytewise, ListCursor<Bytewise>>>;

fn walk<C: Cursor<Bytewise, MemStore>>(
    visible: &mut Visible<Bytewise, C>,
    alloc: Global,
    store: &mut MemStore,
    turn: Turn,
) -> Result<(), DbError>
    ensures { OnOk result (visible.new.stands ≡ true → value_at_hand C.stands visible.new ≡ true) }
{
    match turn {
        Turn::First => visible.first(alloc, store),
        Turn::Last => visible.last(alloc, store),
        Turn::Seek(user, _, _) => visible.seek(alloc, store, user),
        Turn::Next => {
            if !visible.stands() {
                return Ok(());
            }
            visible.next(alloc, store)
        }
        Turn::Prev => {
            if !visible.stands() {
                return Ok(());
            }
            visible.prev(alloc, store)
        }
    }
}

// Whether that is the pair at hand.
fn shows<C: Cursor<Bytewise, MemStore>>(
    visible: &Visible<Bytewise, C>,
    store: &MemStore,
    shown: Option<(&[u8], u8)>,
) -> bool
    requires { visible.now.stands ≡ true → value_at_hand C.stands visible.now ≡ true }
{
    if !visible.stands() {
        return shown.is_none();
    }
    let Some((key, value)) = shown else {
        return false;
    };
    visible.key() == key && matches!(visible.value(store), [only] if *only == value)
}

fn walks_to(
    visible: &mut Walk,
    alloc: Global,
    store: &mut MemStore,
    turn: Turn,
    shown: Option<(&[u8], u8)>,
) -> Result<bool, DbError> {
    walk(visible, alloc, store, turn)?;
    Ok(shows(visible, store, shown))
}

// The first turn of an iteration over the merge after which something else is shown.
fn shown_elsewhere(alloc: Global) -> Result<Option<usize>, DbError> {
    let mut store = MemStore::new(alloc);
    let mut visible = Visible::new(alloc, merge_of(alloc)?, 8);
    visible.begins(&store);
    for (place, (turn, shown)) in SHOWN.iter().enumerate() {
        if !walks_to(&mut visible, alloc, &mut store, *turn, *shown)? {
            return Ok(Some(place));
        }
    }
    Ok(None)
}

#[test]
fn a_walk_shows_what_is_visible(rt: HostRuntime) {
    // Laws, for the proof alone.
    lists_have_a_union::<Bytewise>();
    each_list_has_a_view::<Bytewise>();
    views_agree::<Bytewise>();
    assert_eq!(rt; shown_elsewhere(rt.alloc()), Ok(None));
}
