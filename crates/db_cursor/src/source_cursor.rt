//! One of the cursors that a scan merges (LevelDB's db/db_impl.cc, DBImpl::NewInternalIterator).

use crate::source::Sources;
use coding::DbError;
use cursor::Cursor;
use ikey::KeyOrder;
use level_cursor::RowCursor;
use memtables::{MemoriesCursor, MemoryTables};
use std::alloc::Global;
use store::Store;
use table_access::Tables;

/// Holds a cursor over one of the memtables of an open database, or over a sequence of tables of a
/// version.
#[derive(Drop)]
pub enum SourceCursor<K: KeyOrder> {
    Memory(MemoriesCursor<K>),
    Row(RowCursor<K>),
}

impl<K: KeyOrder, S: Store> Cursor<K, Sources<K, S>> for SourceCursor<K> {
    ghost use Rattle.db_cursor.specs.Places.{GoesOver, ListsSource, KeepsSource, LimitedSource, LeavesSource, TornSource, source_stands};
    ghost use Rattle.db_cursor.specs.internal.SourceLaws.{source_rises, source_placed, source_inside, source_kept, source_still};
    ghost use Rattle.db_cursor.specs.internal.SourceLaws.{source_onward, source_limits, source_left, source_left_more, source_left_on, source_same, source_torn};
    ghost use Rattle.db_cursor.specs.Whole.{whole_in};

    ghost facts = { λ source. S.facts source.tables.store };

    ghost lists = { λ cursor source at. ListsSource K.cmp cursor (whole_in S.facts source) at };

    ghost keeps = { λ cursor old new. KeepsSource K.cmp cursor (whole_in S.facts old) (whole_in S.facts new) };

    ghost stands = { λ cursor. source_stands cursor };

    ghost limited = { λ cursor source. LimitedSource K.cmp cursor (whole_in S.facts source) };

    ghost torn = { λ cursor source cut. TornSource K.cmp cursor (whole_in S.facts source) cut };

    ghost leaves = { λ numbers old new. LeavesSource K.cmp numbers (whole_in S.facts old) (whole_in S.facts new) };

    ghost over = { λ cursor number. GoesOver cursor number };

    fn first(&mut self, alloc: Global, source: &mut Sources<K, S>) -> Result<(), DbError> {
        match self {
            SourceCursor::Memory(cursor) => cursor.first(alloc, &mut source.memory),
            SourceCursor::Row(cursor) => cursor.first(alloc, &mut source.tables),
        }
    }

    fn last(&mut self, alloc: Global, source: &mut Sources<K, S>) -> Result<(), DbError> {
        match self {
            SourceCursor::Memory(cursor) => cursor.last(alloc, &mut source.memory),
            SourceCursor::Row(cursor) => cursor.last(alloc, &mut source.tables),
        }
    }

    fn seek(
        &mut self,
        alloc: Global,
        source: &mut Sources<K, S>,
        target: &[u8],
    ) -> Result<(), DbError> {
        match self {
            SourceCursor::Memory(cursor) => cursor.seek(alloc, &mut source.memory, target),
            SourceCursor::Row(cursor) => cursor.seek(alloc, &mut source.tables, target),
        }
    }

    fn next(&mut self, alloc: Global, source: &mut Sources<K, S>) -> Result<(), DbError> {
        match self {
            SourceCursor::Memory(cursor) => cursor.next(alloc, &mut source.memory),
            SourceCursor::Row(cursor) => cursor.next(alloc, &mut source.tables),
        }
    }

    fn prev(&mut self, alloc: Global, source: &mut Sources<K, S>) -> Result<(), DbError> {
        match self {
            SourceCursor::Memory(cursor) => cursor.prev(alloc, &mut source.memory),
            SourceCursor::Row(cursor) => cursor.prev(alloc, &mut source.tables),
        }
    }

    fn stands(&self) -> bool {
        match self {
            SourceCursor::Memory(cursor) => Cursor::<K, MemoryTables<K>>::stands(cursor),
            SourceCursor::Row(cursor) => Cursor::<K, Tables<K, S>>::stands(cursor),
        }
    }

    fn key<'a>(&'a self, source: &'a Sources<K, S>) -> &'a [u8] {
        match self {
            SourceCursor::Memory(cursor) => cursor.key(&source.memory),
            SourceCursor::Row(cursor) => cursor.key(&source.tables),
        }
    }

    fn value<'a>(&'a self, source: &'a Sources<K, S>) -> &'a [u8] {
        match self {
            SourceCursor::Memory(cursor) => cursor.value(&source.memory),
            SourceCursor::Row(cursor) => cursor.value(&source.tables),
        }
    }

    ghost rises = { λ cursor source at h. source_rises K.cmp cursor _ at h };

    ghost placed = { λ cursor source at h. source_placed K.cmp cursor _ at h };

    ghost inside = { λ cursor source at index h e. source_inside K.cmp cursor _ at index h e };

    ghost kept = { λ cursor old new at k h. source_kept K.cmp cursor _ _ at k h };

    ghost still = { λ cursor source. source_still K.cmp cursor _ };

    ghost onward = { λ cursor first second third k l. source_onward K.cmp cursor _ _ _ k l };

    ghost limits_kept = { λ cursor old new k l. source_limits K.cmp cursor _ _ k l };

    ghost torn_kept = { λ cursor old new cut k t. source_torn K.cmp cursor _ _ cut k t };

    ghost torn_same = { λ cursor source at a b h same t. source_same K.cmp cursor _ at a b h same t };

    ghost leaves_still = { λ numbers source. source_left K.cmp _ };

    ghost leaves_onward = { λ numbers first second third k l. source_left_on K.cmp _ _ _ k l };

    ghost leaves_more = { λ fewer more old new less k. source_left_more K.cmp _ _ less k };
}
