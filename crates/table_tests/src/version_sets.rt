// What a version tells of its tables, and which compactions it plans.
use crate::layouts::{Pointer, TableRow, key_of, layout_of, placed, version_of};
use coding::DbError;
use edits::{Edit, Field, PlacedTable};
use ikey::{Bytewise, KeyOrder};
use std::alloc::{AllocError, Global};
use std::test::*;
use versions::{
    JobPlan, Version, covers, inputs_in_order, one_more_edit, one_user_key, plans_of_tables,
    searches_reach, user_of,
};

// The numbers of the inputs, the output level, and the largest user key of the moved pointer.
type Plan = (&'static [u64], u32, Option<&'static [u8]>);

// What is asked of a version, and what it answers.
#[derive(Clone, Copy)]
enum Look {
    // the tables of a level, by their numbers
    Level(u32, &'static [u64]),
    All(&'static [u64]),
    // the one table of a level in which a user key and a sequence number are sought
    Found(u32, &'static [u8], u32, Option<u64>),
    // the next table in which that is sought, from a place on, and its place
    Searched(&'static [u8], u32, usize, Option<(u64, usize)>),
    // whether no table below a level has a user key
    Free(u32, &'static [u8], bool),
    // whether each table of a level has a user key, or none has
    Covered(u32, &'static [u8], bool),
    // the user key of a level's compact pointer
    Points(u32, Option<&'static [u8]>),
    // the compaction that is wanted, where level 0 is full with so many files, and level 1 with so
    // many bytes
    Picks(u64, u64, Option<Plan>),
    // the compaction of a level, or of all
    PlansLevel(u32, Option<Plan>),
    PlansAll(Option<Plan>),
}

fn have_numbers(tables: &[PlacedTable], numbers: &[u64]) -> bool {
    for (placed, number) in tables.iter().zip(numbers) {
        if placed.table.number != *number {
            return false;
        }
    }
    tables.len() == numbers.len()
}

fn is_user(key: Option<&[u8]>, user: Option<&[u8]>) -> bool {
    match (key, user) {
        (Some(key), Some(user)) => user_of(key) == user,
        (None, None) => true,
        (Some(_), None) => false,
        (None, Some(_)) => false,
    }
}

fn pointer_of(plan: &JobPlan) -> Option<&[u8]> {
    match &plan.compact_pointer {
        Some(key) => Some(key.as_slice()),
        None => None,
    }
}

fn is_plan(found: Option<JobPlan>, wanted: Option<Plan>) -> bool {
    match (found, wanted) {
        (Some(plan), Some((inputs, level, user))) => {
            have_numbers(&plan.inputs, inputs)
                && plan.output_level == level
                && is_user(pointer_of(&plan), user)
        }
        (None, None) => true,
        (Some(_), None) => false,
        (None, Some(_)) => false,
    }
}

fn is_found(
    alloc: Global,
    version: &Version<Bytewise>,
    level: u32,
    target: (&[u8], u32),
    number: Option<u64>,
) -> Result<bool, DbError> {
    let key = key_of(alloc, target.0, target.1)?;
    if level == 0 || level >= 7 {
        return Ok(false);
    }
    Ok(match version.find(level, key.as_slice()) {
        Some(placed) => Some(placed.table.number) == number,
        None => number.is_none(),
    })
}

fn is_searched(
    alloc: Global,
    version: &Version<Bytewise>,
    target: (&[u8], u32),
    from: usize,
    wanted: Option<(u64, usize)>,
) -> Result<bool, DbError> {
    let key = key_of(alloc, target.0, target.1)?;
    Ok(match version.next_searched(key.as_slice(), from) {
        Some((place, placed)) => Some((placed.table.number, place)) == wanted,
        None => wanted.is_none(),
    })
}

fn are_covered(version: &Version<Bytewise>, level: u32, user: &[u8], wanted: bool) -> bool {
    if level >= 7 {
        return false;
    }
    for placed in version.level(level) {
        if covers::<Bytewise>(placed, user) != wanted {
            return false;
        }
    }
    true
}

fn is_picked(
    alloc: Global,
    version: &Version<Bytewise>,
    files: u64,
    bytes: u64,
    wanted: Option<Plan>,
) -> Result<bool, DbError> {
    if files == 0 || bytes > 1 << 40 {
        return Ok(false);
    }
    Ok(is_plan(version.pick(alloc, files, bytes)?, wanted))
}

fn is_planned(
    alloc: Global,
    version: &Version<Bytewise>,
    level: u32,
    wanted: Option<Plan>,
) -> Result<bool, DbError> {
    if level >= 6 {
        return Ok(false);
    }
    Ok(is_plan(version.plan_level(alloc, level)?, wanted))
}

fn is_so(alloc: Global, version: &Version<Bytewise>, look: Look) -> Result<bool, DbError> {
    match look {
        Look::Level(level, numbers) => {
            Ok(level < 7 && have_numbers(version.level(level), numbers))
        }
        Look::All(numbers) => Ok(have_numbers(version.tables(), numbers)),
        Look::Found(level, user, sequence, number) => {
            is_found(alloc, version, level, (user, sequence), number)
        }
        Look::Searched(user, sequence, from, wanted) => {
            is_searched(alloc, version, (user, sequence), from, wanted)
        }
        Look::Free(level, user, free) => {
            Ok(0 < level && level < 7 && version.is_free_below(level, user) == free)
        }
        Look::Covered(level, user, wanted) => Ok(are_covered(version, level, user, wanted)),
        Look::Points(level, user) => Ok(is_user(version.compact_pointer(level), user)),
        Look::Picks(files, bytes, wanted) => is_picked(alloc, version, files, bytes, wanted),
        Look::PlansLevel(level, wanted) => is_planned(alloc, version, level, wanted),
        Look::PlansAll(wanted) => Ok(is_plan(version.plan_all(alloc)?, wanted)),
    }
}

// The first look that isn't so, by its place.
fn first_wrong(
    alloc: Global,
    version: &Version<Bytewise>,
    looks: &[Look],
) -> Result<Option<usize>, DbError> {
    for (place, look) in looks.iter().enumerate() {
        if !is_so(alloc, version, *look)? {
            return Ok(Some(place));
        }
    }
    Ok(None)
}

// Tables, a compact pointer, and looks at their version.
type Case = (&'static [TableRow], Option<Pointer>, &'static [Look]);

// Four tables of level 2, of which two share the user key `c`.
const LEVEL_2: [TableRow; 4] = [
    TableRow(2, 11, 60, b"a", 5, b"b", 5),
    TableRow(2, 12, 60, b"c", 9, b"c", 5),
    TableRow(2, 13, 60, b"c", 4, b"e", 5),
    TableRow(2, 14, 60, b"g", 5, b"h", 5),
];

#[rattlefmt::skip]
const CASES: [Case; 16] = [
    // Tables stand by number in level 0 and by key below.
    (
        &[
            TableRow(0, 7, 1, b"a", 9, b"z", 9), TableRow(0, 9, 1, b"b", 9, b"c", 9), TableRow(1, 2, 1, b"m", 5, b"p", 5),
            TableRow(1, 4, 1, b"a", 5, b"c", 5), TableRow(1, 6, 1, b"c", 4, b"d", 5), TableRow(2, 3, 1, b"k", 1, b"k", 1),
        ],
        None,
        &[Look::Level(0, &[7, 9]), Look::Level(1, &[4, 6, 2]), Look::Level(2, &[3]), Look::Level(3, &[]), Look::All(&[7, 9, 4, 6, 2, 3])],
    ),
    // One table of a level is found.
    (
        &[TableRow(1, 2, 1, b"a", 9, b"c", 6), TableRow(1, 3, 1, b"c", 5, b"d", 5), TableRow(1, 4, 1, b"f", 5, b"g", 5)],
        None,
        &[
            Look::Found(1, b"", 1, Some(2)), Look::Found(1, b"c", 7, Some(2)), Look::Found(1, b"c", 6, Some(2)), Look::Found(1, b"c", 5, Some(3)),
            Look::Found(1, b"e", 5, Some(4)), Look::Found(1, b"g", 5, Some(4)), Look::Found(1, b"g", 4, None),
        ],
    ),
    // Tables are searched from the newest down.
    (
        &[
            TableRow(0, 7, 1, b"a", 9, b"z", 9), TableRow(0, 8, 1, b"d", 9, b"e", 9), TableRow(0, 9, 1, b"b", 9, b"c", 9),
            TableRow(1, 2, 1, b"a", 5, b"c", 5), TableRow(2, 3, 1, b"d", 5, b"f", 5), TableRow(6, 4, 1, b"c", 4, b"d", 4),
        ],
        None,
        &[
            Look::Searched(b"c", 9, 0, Some((9, 0))), Look::Searched(b"c", 9, 1, Some((7, 2))), Look::Searched(b"c", 9, 3, Some((2, 3))),
            Look::Searched(b"c", 9, 4, Some((4, 8))), Look::Searched(b"c", 9, 9, None),
        ],
    ),
    // Keys are free below a level.
    (
        &[
            TableRow(0, 9, 1, b"a", 9, b"z", 9), TableRow(1, 2, 1, b"a", 9, b"c", 6), TableRow(2, 3, 1, b"d", 5, b"f", 5),
            TableRow(3, 4, 1, b"h", 5, b"h", 4), TableRow(3, 5, 1, b"h", 3, b"k", 3),
        ],
        None,
        &[
            Look::Free(1, b"b", true), Look::Free(1, b"d", false), Look::Free(1, b"f", false), Look::Free(2, b"f", true),
            Look::Free(2, b"h", false), Look::Free(2, b"k", false), Look::Free(3, b"h", true),
            Look::Covered(0, b"a", true), Look::Covered(1, b"c", true), Look::Covered(1, b"d", false),
        ],
    ),
    // Nothing is picked where no level needs it.
    (&[], None, &[Look::Picks(2, 1, None), Look::PlansAll(None)]),
    (
        &[
            TableRow(0, 9, 1000, b"a", 9, b"z", 9), TableRow(1, 2, 60, b"a", 5, b"c", 5), TableRow(1, 3, 40, b"e", 5, b"f", 5),
            TableRow(2, 4, 1000, b"a", 3, b"z", 3), TableRow(6, 5, 1_000_000_000, b"a", 1, b"z", 1),
        ],
        None,
        &[Look::Picks(2, 100, None)],
    ),
    // Level 0 is compacted whole and first.
    (
        &[
            TableRow(0, 8, 1, b"c", 9, b"d", 9), TableRow(0, 9, 1, b"h", 9, b"k", 9), TableRow(1, 2, 60, b"a", 5, b"b", 5),
            TableRow(1, 3, 60, b"b", 4, b"c", 5), TableRow(1, 4, 60, b"e", 5, b"f", 5), TableRow(1, 5, 60, b"l", 5, b"m", 5),
        ],
        None,
        &[Look::Picks(2, 1, Some((&[8, 9, 2, 3, 4], 1, None)))],
    ),
    // Compactions begin after the pointer.
    (&LEVEL_2, None, &[Look::Picks(4, 23, Some((&[11], 3, Some(b"b")))), Look::Picks(2, 24, None)]),
    (&LEVEL_2, Some((2, b"a", 1)), &[Look::Picks(4, 23, Some((&[11], 3, Some(b"b"))))]),
    (
        &LEVEL_2,
        Some((2, b"b", 5)),
        &[
            Look::Picks(4, 23, Some((&[12, 13], 3, Some(b"e")))),
            // Levels are planned whole.
            Look::PlansLevel(2, Some((&[11, 12, 13, 14], 3, None))),
            Look::PlansLevel(1, None),
            Look::PlansAll(Some((&[11, 12, 13, 14], 6, None))),
        ],
    ),
    (&LEVEL_2, Some((2, b"c", 5)), &[Look::Picks(4, 23, Some((&[12, 13], 3, Some(b"e"))))]),
    (&LEVEL_2, Some((2, b"e", 4)), &[Look::Picks(4, 23, Some((&[14], 3, Some(b"h"))))]),
    (&LEVEL_2, Some((2, b"h", 5)), &[Look::Picks(4, 23, Some((&[11], 3, Some(b"b"))))]),
    (&LEVEL_2, Some((1, b"h", 5)), &[Look::Picks(4, 23, Some((&[11], 3, Some(b"b"))))]),
    // The next level widens the range.
    (
        &[
            TableRow(1, 2, 60, b"d", 15, b"f", 15), TableRow(1, 3, 60, b"h", 15, b"h", 11), TableRow(1, 4, 60, b"h", 10, b"k", 15),
            TableRow(2, 5, 1, b"a", 5, b"c", 5), TableRow(2, 6, 1, b"c", 4, b"d", 5), TableRow(2, 7, 1, b"f", 5, b"g", 5),
            TableRow(2, 8, 1, b"g", 4, b"h", 5), TableRow(2, 9, 1, b"m", 4, b"n", 5),
        ],
        None,
        &[Look::Picks(2, 100, Some((&[2, 5, 6, 7, 8], 2, Some(b"f"))))],
    ),
    // What deeper tables cover is not free.
    (
        &[TableRow(2, 4, 176, b"b", 1, b"d", 1)],
        None,
        &[Look::Free(1, b"b", false), Look::Free(1, b"a", true)],
    ),
];

// The first look of a case that isn't so.
fn wrong_in(alloc: Global, case: &Case) -> Result<Option<usize>, DbError> {
    let version = version_of(alloc, case.0, case.1)?;
    first_wrong(alloc, &version, case.2)
}

#[test]
fn versions_tell_of_their_tables(rt: HostRuntime) {
    for (place, case) in CASES.iter().enumerate() {
        assert_eq!(rt; wrong_in(rt.alloc(), case), Ok(None), "{place}");
    }
    // Laws, for the proof alone.
    searches_reach();
    one_user_key();
    one_more_edit();
}

// ---- what can't stand in a version

const REFUSED: [[TableRow; 2]; 4] = [
    [
        TableRow(1, 2, 1, b"a", 5, b"c", 5),
        TableRow(1, 3, 1, b"c", 5, b"d", 5),
    ],
    [
        TableRow(1, 2, 1, b"a", 5, b"c", 5),
        TableRow(1, 3, 1, b"b", 5, b"b", 5),
    ],
    [
        TableRow(1, 2, 1, b"a", 5, b"c", 5),
        TableRow(2, 2, 1, b"b", 5, b"b", 5),
    ],
    [
        TableRow(1, 2, 1, b"c", 5, b"a", 5),
        TableRow(2, 3, 1, b"b", 5, b"b", 5),
    ],
];

fn is_refused(alloc: Global, rows: &[TableRow]) -> Result<bool, AllocError> {
    let layout = layout_of(alloc, rows, None)?;
    Ok(Version::<Bytewise>::new(alloc, &layout).is_err())
}

#[test]
fn overlapping_tables_are_refused(rt: HostRuntime) {
    for rows in &REFUSED {
        assert_eq!(rt; is_refused(rt.alloc(), rows), Ok(true));
    }
}

// ---- edits

const BEFORE: [TableRow; 3] = [
    TableRow(1, 2, 1, b"a", 9, b"b", 9),
    TableRow(1, 4, 1, b"c", 9, b"d", 9),
    TableRow(2, 3, 1, b"b", 5, b"c", 5),
];

// The edit of a compaction of tables 2 and 3 into 7 and 8.
fn compaction(alloc: Global) -> Result<Edit, AllocError> {
    let mut edit = Edit::new(alloc);
    edit.push(Field::CompactPointer(1, key_of(alloc, b"c", 5)?))?;
    edit.push(Field::DeletedFile(1, 2))?;
    edit.push(Field::DeletedFile(2, 3))?;
    edit.push(Field::NewFile(placed(alloc, &TableRow(2, 7, 1, b"b", 9, b"c", 9))?))?;
    edit.push(Field::NewFile(placed(alloc, &TableRow(2, 8, 1, b"a", 9, b"a", 9))?))?;
    Ok(edit)
}

// The version after it, if the edit fits.
fn compacted(alloc: Global, version: &Version<Bytewise>) -> Result<Version<Bytewise>, DbError> {
    let edit = compaction(alloc)?;
    match version.after(alloc, edit.fields()) {
        Ok(after) => Ok(after),
        Err(_) => Err(DbError::BadLine),
    }
}

const UNCHANGED: [Look; 2] = [Look::All(&[2, 4, 3]), Look::Points(1, None)];

const CHANGED: [Look; 3] = [
    Look::All(&[4, 8, 7]),
    Look::Points(1, Some(b"c")),
    Look::Points(2, Some(b"q")),
];

// Whether the edit leaves another version, which it doesn't fit again.
fn is_changed(alloc: Global, version: &Version<Bytewise>) -> Result<bool, DbError> {
    let after = compacted(alloc, version)?;
    Ok(first_wrong(alloc, &after, &CHANGED)?.is_none() && compacted(alloc, &after).is_err())
}

fn is_left(alloc: Global) -> Result<bool, DbError> {
    let version = version_of(alloc, &BEFORE, Some((2, b"q", 1)))?;
    Ok(is_changed(alloc, &version)? && first_wrong(alloc, &version, &UNCHANGED)?.is_none())
}

#[test]
fn an_edit_leaves_another_version(rt: HostRuntime) {
    assert_eq!(rt; is_left(rt.alloc()), Ok(true));
}

// ---- the inputs of a compaction

const WITH_LEVEL_3: [TableRow; 5] = [
    TableRow(1, 2, 60, b"a", 15, b"z", 15),
    TableRow(2, 11, 60, b"a", 5, b"b", 5),
    TableRow(2, 13, 60, b"c", 4, b"e", 5),
    TableRow(3, 3, 60, b"d", 1, b"g", 1),
    TableRow(3, 4, 60, b"k", 1, b"m", 1),
];

// The version over the inputs of the compaction of all of level 2.
fn over_level_2<K: KeyOrder>(alloc: Global, version: &Version<K>) -> Result<Version<K>, DbError> {
    // Laws, for the proof alone.
    plans_of_tables();
    inputs_in_order();
    let _tables = version.tables();
    match version.plan_level(alloc, 2)? {
        Some(plan) => Ok(Version::over_inputs(alloc, &plan)?),
        None => Err(DbError::BadLine),
    }
}

const OF_INPUTS: [Look; 2] = [Look::All(&[11, 13, 3]), Look::Points(2, None)];

fn has_inputs(alloc: Global) -> Result<bool, DbError> {
    let version = version_of(alloc, &WITH_LEVEL_3, Some((2, b"b", 5)))?;
    let inputs = over_level_2(alloc, &version)?;
    Ok(first_wrong(alloc, &inputs, &OF_INPUTS)?.is_none())
}

#[test]
fn inputs_stand_in_a_version_of_their_own(rt: HostRuntime) {
    assert_eq!(rt; has_inputs(rt.alloc()), Ok(true));
}
