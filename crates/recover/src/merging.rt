//! The tables of a directory, all in one reading: merged, their entries tell which table is older
//! than it has to be.

ghost use Rattle.std.specs.Prelude.{◌≡◌, ◌<◌, ◌+◌, List, true, length, Some, slice_get, IfOk, IfErr, OnOk, MatchBool};
ghost use Rattle.ikey.specs.Orders.{order_of};
ghost use Rattle.ikey.specs.declared.entry.Entry.{Entry};
ghost use Rattle.recover.specs.internal.Walking.{stamp};
ghost use Rattle.recover.specs.internal.Merging.{IsNoNewer, IsHeadBefore, IsLeastOf, MayComeNext, BreaksNext, IsEnded, IsPut};
ghost use Rattle.recover.specs.internal.Merging.{IsLogged, IsOldEntry, IsWithin, Misplaces};

use crate::comparing::is_in_front;
use crate::logged::{Logged, is_older};
use crate::noting::{note_file, note_sequence};
use crate::report::TableSummary;
use crate::table_entries::is_same;
use crate::waiting::{Waiting, by_smallest};
use crate::walking::{Head, TableWalk};
use coding::{Damage, DbError, FileKind};
use edits::PlacedTable;
use ikey::{InternalKey, KeyOrder};
use std::alloc::{AllocError, Global};
use store::{Store, Why};

/// Holds what the entries of tables are held against: the tables' levels and keys, what is logged,
/// and the recorded sequence number.
#[derive(Clone, Copy)]
pub struct Against<'a> {
    pub tables: &'a [PlacedTable],
    pub logged: &'a [Logged<'a>],
    pub recorded: u64,
}

// A table that is being read, or that was read to its end.
#[derive(Drop)]
struct Lane<K: KeyOrder> {
    // its place among the tables, and its level
    place: usize,
    level: u32,
    walk: TableWalk<K>,
    stands: bool,
}

// The entry that came last, if one did, and whose it was.
#[derive(Drop)]
struct Last {
    some: bool,
    head: Head,
    place: usize,
    level: u32,
}

/// Holds the tables in the middle of their reading.
#[derive(Drop)]
pub struct Merge<K: KeyOrder> {
    // whether each of the tables was begun
    begun: Vec<bool>,
    lanes: Vec<Lane<K>>,
    last: Last,
    // the name of the file of each of the tables, once it was begun
    names: Vec<String>,
    /// What is reported of each of the tables, once it was read.
    pub summaries: Vec<TableSummary>,
}

impl<K: KeyOrder> Merge<K> {
    ghost use Rattle.std.specs.Prelude.{◌≡◌, None, Some, true, IfOk, IfErr, OnOk, length, slice_set};
    ghost use Rattle.ikey.specs.Orders.{order_of};
    ghost use Rattle.recover.specs.internal.Merging.{IsLeastOf};
    ghost use Rattle.recover.specs.internal.MergeSteps.{IsAgainst, FitsTables, IsFresh, StandsMid, StandsRead, TellsMerge};
    ghost use Rattle.recover.specs.internal.MergeSteps.{RefusesMerge, CanBegin, AllBeginFrom, HasEnded, IsNext};
    ghost use Rattle.recover.specs.internal.Parts.{IsUnchanged};
    ghost use Rattle.recover.specs.internal.Waiting.{AreSorted, AreWaiting};
    ghost use Rattle.recover.specs.Reading.{IsStill};

    /// Begins a merge that has read none of the tables.
    pub fn new(alloc: Global, tables: &[PlacedTable]) -> Result<Self, AllocError>
        ensures fits { IfOk result (λ merge. FitsTables tables.now merge) }
        ensures fresh { IfOk result (λ merge. IsFresh tables.now merge) }
    {
        let lanes = Vec::new(alloc);
        let mut begun = Vec::new(alloc);
        let mut summaries = Vec::new(alloc);
        let mut names = Vec::new(alloc);
        for placed in tables {
            begun.push(false)?;
            summaries.push(TableSummary {
                level: placed.level,
                number: placed.table.number,
                entries: 0,
            })?;
            names.push(String::new(alloc))?;
        }
        Ok(Merge {
            begun,
            lanes,
            last: Last {
                some: false,
                head: Head::new(alloc),
                place: 0,
                level: 0,
            },
            names,
            summaries,
        })
    }

    /// Reads all of the tables, none of which was begun.
    pub fn run<S: Store>(
        &mut self,
        alloc: Global,
        store: &mut S,
        against: Against<'_>,
    ) -> Result<(), DbError>
        requires sound { IsAgainst (order_of K.name K.cmp) against }
        requires fits { FitsTables against.tables.now self.old }
        requires fresh { IsFresh against.tables.now self.old }
        ensures store { IsUnchanged (S.facts store.old) (S.facts store.new) }
        ensures still { IsStill (S.facts store.old) (S.facts store.new) result }
        ensures told { IfErr result (λ e. TellsMerge e (order_of K.name K.cmp) (S.facts store.old) (S.facts store.new) against.entry) }
        ensures refused { IfErr result (λ e. RefusesMerge e (order_of K.name K.cmp) (S.facts store.old) (S.facts store.new) against.entry) }
        ensures found { OnOk result (StandsRead (order_of K.name K.cmp) (S.facts store.old) (S.facts store.new) against.entry self.new) }
    {
        let waiting = by_smallest::<K>(alloc, against.tables)?;
        self.begin_all(alloc, store, against, &waiting)?;
        self.run_until(alloc, store, against, None)?;
        Ok(())
    }

    // Begins the tables in this order, each as soon as all entries before its smallest key have
    // passed.
    fn begin_all<S: Store>(
        &mut self,
        alloc: Global,
        store: &mut S,
        against: Against<'_>,
        waiting: &[Waiting<'_>],
    ) -> Result<(), DbError>
        requires sound { IsAgainst (order_of K.name K.cmp) against }
        requires fits { FitsTables against.tables.now self.old }
        requires fresh { IsFresh against.tables.now self.old }
        requires waiting { AreWaiting against.tables.now (length against.tables.now) waiting.now }
        requires sorted { AreSorted K.cmp waiting.now }
        ensures store { IsUnchanged (S.facts store.old) (S.facts store.new) }
        ensures still { IsStill (S.facts store.old) (S.facts store.new) result }
        ensures told { IfErr result (λ e.
            TellsMerge e (order_of K.name K.cmp) (S.facts store.old) (S.facts store.new) against.entry) }
        ensures refused { IfErr result (λ e.
            RefusesMerge e (order_of K.name K.cmp) (S.facts store.old) (S.facts store.new) against.entry) }
        ensures fits { OnOk result (FitsTables against.entry.tables.now self.new) }
        ensures found { OnOk result
            (StandsMid (order_of K.name K.cmp) (S.facts store.old) (S.facts store.new) against.entry self.new) }
        ensures begun { OnOk result
            (AllBeginFrom (order_of K.name K.cmp) against.entry.tables.now self.new.begun.items None) }
    {
        for next in waiting {
            self.run_until(alloc, store, against, Some(next.smallest))?;
            self.begin(alloc, store, against, next.place)?;
        }
        Ok(())
    }

    // Passes all entries that come before this key, or all.
    fn run_until<S: Store>(
        &mut self,
        alloc: Global,
        store: &mut S,
        against: Against<'_>,
        bound: Option<InternalKey<'_>>,
    ) -> Result<(), DbError>
        requires sound { IsAgainst (order_of K.name K.cmp) against }
        requires fits { FitsTables against.tables.now self.old }
        requires mid { StandsMid (order_of K.name K.cmp) (S.facts store.old) (S.facts store.old) against self.old }
        requires bound { AllBeginFrom (order_of K.name K.cmp) against.tables.now self.old.begun.items bound }
        ensures store { IsUnchanged (S.facts store.old) (S.facts store.new) }
        ensures still { IsStill (S.facts store.old) (S.facts store.new) result }
        ensures told { IfErr result (λ e. TellsMerge e (order_of K.name K.cmp) (S.facts store.old) (S.facts store.new) against.entry) }
        ensures refused { IfErr result (λ e. RefusesMerge e (order_of K.name K.cmp) (S.facts store.old) (S.facts store.new) against.entry) }
        ensures fits { OnOk result (FitsTables against.entry.tables.now self.new) }
        ensures found { OnOk result (StandsMid (order_of K.name K.cmp) (S.facts store.old) (S.facts store.new) against.entry self.new) }
        ensures begun { OnOk result (self.new.begun.items ≡ self.old.begun.items) }
        ensures ended { OnOk result (HasEnded bound.entry self.new.lanes.items) }
    {
        for _ in 0..u64::MAX {
            let Some(index) = least::<K>(&self.lanes) else {
                return Ok(());
            };
            if !is_within::<K>(&self.lanes[index].walk.head, bound) {
                return Ok(());
            }
            self.pass(alloc, store, against, index)?;
        }
        Err(DbError::OutOfMemory)
    }

    // Begins the table of this place.
    fn begin<S: Store>(
        &mut self,
        alloc: Global,
        store: &mut S,
        against: Against<'_>,
        place: usize,
    ) -> Result<(), DbError>
        requires sound { IsAgainst (order_of K.name K.cmp) against }
        requires fits { FitsTables against.tables.now self.old }
        requires mid { StandsMid (order_of K.name K.cmp) (S.facts store.old) (S.facts store.old) against self.old }
        requires waits { CanBegin against.tables.now self.old.begun.items place }
        ensures store { IsUnchanged (S.facts store.old) (S.facts store.new) }
        ensures still { IsStill (S.facts store.old) (S.facts store.new) result }
        ensures told { IfErr result (λ e. TellsMerge e (order_of K.name K.cmp) (S.facts store.old) (S.facts store.new) against.entry) }
        ensures refused { IfErr result (λ e. RefusesMerge e (order_of K.name K.cmp) (S.facts store.old) (S.facts store.new) against.entry) }
        ensures fits { OnOk result (FitsTables against.entry.tables.now self.new) }
        ensures found { OnOk result (StandsMid (order_of K.name K.cmp) (S.facts store.old) (S.facts store.new) against.entry self.new) }
        ensures begun { OnOk result (self.new.begun.items ≡ slice_set self.old.begun.items place true) }
    {
        let placed = placed_at(against.tables, place);
        let walk = TableWalk::<K>::begin(alloc, store, placed)?;
        let name = String::from_str(alloc, walk.name.as_str())?;
        let lane = Lane {
            place,
            level: placed.level,
            walk,
            stands: true,
        };
        put_lane(&mut self.lanes, lane)?;
        put_name(&mut self.names, place, name);
        self.begun[place] = true;
        Ok(())
    }

    // Passes the entry of this lane, which is the least of all.
    fn pass<S: Store>(
        &mut self,
        alloc: Global,
        store: &mut S,
        against: Against<'_>,
        index: usize,
    ) -> Result<(), DbError>
        requires sound { IsAgainst (order_of K.name K.cmp) against }
        requires fits { FitsTables against.tables.now self.old }
        requires mid { StandsMid (order_of K.name K.cmp) (S.facts store.old) (S.facts store.old) against self.old }
        requires least { IsLeastOf (order_of K.name K.cmp) self.old.lanes.items (length self.old.lanes.items) (Some index) }
        requires next { IsNext (order_of K.name K.cmp) against.tables.now self.old index }
        ensures store { IsUnchanged (S.facts store.old) (S.facts store.new) }
        ensures still { IsStill (S.facts store.old) (S.facts store.new) result }
        ensures told { IfErr result (λ e. TellsMerge e (order_of K.name K.cmp) (S.facts store.old) (S.facts store.new) against.entry) }
        ensures refused { IfErr result (λ e. RefusesMerge e (order_of K.name K.cmp) (S.facts store.old) (S.facts store.new) against.entry) }
        ensures fits { OnOk result (FitsTables against.entry.tables.now self.new) }
        ensures found { OnOk result (StandsMid (order_of K.name K.cmp) (S.facts store.old) (S.facts store.new) against.entry self.new) }
        ensures begun { OnOk result (self.new.begun.items ≡ self.old.begun.items) }
    {
        let lane = &mut self.lanes[index];
        judge(store, against, &self.names, &self.last, lane)?;
        set_last(&mut self.last, lane)?;
        let placed = placed_at(against.tables, lane.place);
        if lane.walk.go_on(alloc, store, placed)? {
            return Ok(());
        }
        lane.stands = false;
        self.summaries[lane.place].entries = lane.walk.passed;
        Ok(())
    }
}

// The lane whose key is the least, if one stands on any.
fn least<K: KeyOrder>(lanes: &[Lane<K>]) -> Option<usize>
    ensures { IsLeastOf (order_of K.name K.cmp) lanes.now (length lanes.now) result }
{
    let mut best: Option<usize> = None;
    for index in 0..lanes.len() {
        best = better::<K>(lanes, index, best);
    }
    best
}

// The lane at this index, if its key is less than that of the best of the lanes before it; else
// that best one.
fn better<K: KeyOrder>(lanes: &[Lane<K>], index: usize, best: Option<usize>) -> Option<usize>
    requires { index < length lanes.now }
    ensures { IsLeastOf (order_of K.name K.cmp) lanes.now index best → IsLeastOf (order_of K.name K.cmp) lanes.now (index + 1) result }
{
    let lane = &lanes[index];
    if !lane.stands {
        return best;
    }
    let Some(at) = best else {
        return Some(index);
    };
    let Some(other) = lanes.get(at) else {
        return Some(index);
    };
    if is_head_before::<K>(&lane.walk.head, &other.walk.head) {
        return Some(index);
    }
    best
}

// Whether the key at hand comes before the other.
fn is_head_before<K: KeyOrder>(a: &Head, b: &Head) -> bool
    ensures { MatchBool result (IsHeadBefore (order_of K.name K.cmp) a.now b.now) (IsHeadBefore (order_of K.name K.cmp) a.now b.now → ⊥) }
{
    is_in_front::<K>(a.user.as_slice(), a.sequence, b.user.as_slice(), b.sequence)
}

// Whether the key at hand comes before the bound, if there is one.
fn is_within<K: KeyOrder>(head: &Head, bound: Option<InternalKey<'_>>) -> bool
    ensures { MatchBool result (IsWithin (order_of K.name K.cmp) head.now bound.entry)
        (IsWithin (order_of K.name K.cmp) head.now bound.entry → ⊥) }
{
    match bound {
        None => true,
        Some(key) => {
            is_in_front::<K>(head.user.as_slice(), head.sequence, key.user, key.sequence)
        }
    }
}

// Replaces a lane that has ended, or adds one after all.
fn put_lane<K: KeyOrder>(lanes: &mut Vec<Lane<K>>, lane: Lane<K>) -> Result<(), AllocError>
    ensures { IfOk result (λ _. IsPut lanes.old.items lane lanes.new.items) }
{
    match ended_lane::<K>(lanes) {
        Some(index) => lanes[index] = lane,
        None => lanes.push(lane)?,
    }
    Ok(())
}

// The first lane that has ended, if one has.
fn ended_lane<K: KeyOrder>(lanes: &[Lane<K>]) -> Option<usize>
    ensures { IsEnded lanes.now result }
{
    for index in 0..lanes.len() {
        if !lanes[index].stands {
            return Some(index);
        }
    }
    None
}

// Keeps the name of the file of the table at a place of the row, which outlasts its lane.
fn put_name(names: &mut Vec<String>, place: usize, name: String) {
    if let Some(kept) = names.get_mut(place) {
        *kept = name;
    }
}

fn set_last<K: KeyOrder>(last: &mut Last, lane: &Lane<K>) -> Result<(), AllocError>
    ensures some { OnOk result (last.new.some ≡ true) }
    ensures user { OnOk result (last.new.head.user.items ≡ lane.now.walk.head.user.items) }
    ensures sequence { OnOk result (last.new.head.sequence ≡ lane.now.walk.head.sequence) }
    ensures place { OnOk result (last.new.place ≡ lane.now.place) }
    ensures level { OnOk result (last.new.level ≡ lane.now.level) }
{
    last.head
        .set(lane.walk.head.user.as_slice(), lane.walk.head.sequence)?;
    last.some = true;
    last.place = lane.place;
    last.level = lane.level;
    Ok(())
}

// Whether the entry at which a lane stands may be there in a consistent directory. It must be
// recorded, be older than what is logged of its key, and be the next one of its key that may come.
fn judge<K: KeyOrder, S: Store>(
    store: &mut S,
    against: Against<'_>,
    names: &[String],
    last: &Last,
    lane: &Lane<K>,
) -> Result<(), DbError>
    ghost entries: { List Entry }
    requires { IsLogged (order_of K.name K.cmp) entries against.logged.now }
    ensures same { S.facts store.new ≡ S.facts store.old }
    ensures old { OnOk result (IsOldEntry entries against.entry.recorded
        (stamp lane.now.walk.head.user.items lane.now.walk.head.sequence)) }
    ensures next { OnOk result (MayComeNext last.now lane.now) }
    ensures refused { IfErr result (λ error. Misplaces entries against.entry.recorded last.now lane.now error) }
{
    let head = &lane.walk.head;
    let name = lane.walk.name.as_str();
    if head.sequence > against.recorded {
        note_sequence(store, name, head.sequence, against.recorded);
        return Err(DbError::Corrupt(FileKind::Table, Damage::Number));
    }
    if !is_older::<K>(against.logged, head.user.as_slice(), head.sequence) {
        note_file(store, name, Why::Age);
        return Err(DbError::Corrupt(FileKind::Log, Damage::Order));
    }
    if !may_come(last, lane) {
        note_file(store, name_of_older(names, last, lane), Why::Age);
        return Err(DbError::Corrupt(FileKind::Table, Damage::Order));
    }
    Ok(())
}

// Whether the entry at which a lane stands may come after the last one; that it doesn't stand
// before it is known. If it has the same key, it must be older, and its table must not be one that
// has to be newer.
fn may_come<K: KeyOrder>(last: &Last, lane: &Lane<K>) -> bool
    ensures { MatchBool result (MayComeNext last.now lane.now) (BreaksNext last.now lane.now) }
{
    if !last.some {
        return true;
    }
    if !is_same(last.head.user.as_slice(), lane.walk.head.user.as_slice()) {
        return true;
    }
    if lane.walk.head.sequence >= last.head.sequence {
        return false;
    }
    is_no_newer(last.level, last.place, lane.level, lane.place)
}

// Whether of two tables, each by its level and its place in the row, the second isn't one that has
// to be newer.
fn is_no_newer(level: u32, place: usize, other_level: u32, other: usize) -> bool
    ensures { MatchBool result (IsNoNewer level place other_level other) (IsNoNewer level place other_level other → ⊥) }
{
    if level != other_level {
        return level < other_level;
    }
    if level > 0 {
        return true;
    }
    other <= place
}

// The table at a place of the row.
fn placed_at(tables: &[PlacedTable], place: usize) -> &PlacedTable
    requires { place < length tables.now }
    ensures { slice_get tables.now place ≡ Some result.now }
{
    &tables[place]
}

// The name of the file of that one of two tables that has to be older.
fn name_of_older<'a, K: KeyOrder>(names: &'a [String], last: &Last, lane: &'a Lane<K>) -> &'a str {
    if is_no_newer(last.level, last.place, lane.level, lane.place) {
        return lane.walk.name.as_str();
    }
    match names.get(last.place) {
        Some(name) => name.as_str(),
        None => "",
    }
}
