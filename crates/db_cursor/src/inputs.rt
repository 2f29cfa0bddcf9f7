//! What a compaction reads (LevelDB's db/version_set.cc, VersionSet::MakeInputIterator).

ghost use Rattle.std.specs.Prelude.{◌≡◌, ℕ, None, IfOk};
ghost use Rattle.compact.specs.Merging.{AreDisjoint, ReadsApart};
ghost use Rattle.compact.specs.Outputs.{IsToCome};
ghost use Rattle.cursor.specs.declared.merge.Merge.{Merge};
ghost use Rattle.ikey.specs.Orders.{order_of};
ghost use Rattle.level_cursor.specs.InRows.{ListsNumber};
ghost use Rattle.db_cursor.specs.internal.Inputs.{BeginsMerge, MayBeginMerge, MergeIsKept};
ghost use Rattle.db_cursor.specs.Inputs.{KeepsMerge, ReadsNoMemory};
ghost use Rattle.db_cursor.specs.Places.{OneGoesOver};
ghost use Rattle.db_cursor.specs.Whole.{whole_in};
ghost use Rattle.db_cursor.specs.declared.source.Sources.{Sources};
ghost use Rattle.db_cursor.specs.declared.source_cursor.SourceCursor.{SourceCursor};
ghost use Rattle.table_access.specs.Tables.{KeepsOf, seen_through};

use crate::beginning::{add_levels, add_newest};
use crate::source_cursor::SourceCursor;
use cursor::{Merge, lists_have_a_union};
use ikey::KeyOrder;
use level_cursor::row_begins;
use std::alloc::{AllocError, Global};
use std::rc::Rc;
use store::Store;
use table_access::sound_lasts;
use versions::Version;

/// Merges the entries of all tables of a version into one list: a cursor over each table of level
/// 0, and one over each deeper level. It stands nowhere; nothing is read, and no table is opened.
pub fn merge_tables<K: KeyOrder>(
    alloc: Global,
    version: &Rc<Version<K>>,
) -> Result<Merge<K, SourceCursor<K>>, AllocError>
    ensures nowhere { IfOk result (λ merge. merge.current ≡ None) }
    ensures over { IfOk result (λ merge. (number : ℕ) → OneGoesOver merge.children.items number
        → ListsNumber version.now.value.tables number) }
    ensures no_memory { IfOk result (λ merge. ReadsNoMemory K.cmp merge) }
    ensures may { IfOk result (λ merge. MayBeginMerge (order_of K.name K.cmp) version.now.value.tables merge) }
    ensures begins { IfOk result (λ merge. BeginsMerge (order_of K.name K.cmp) version.now.value.tables merge) }
{
    // Laws, for the proof alone.
    lists_have_a_union::<K>();
    row_begins::<K>();
    // They are in order.
    let _tables = version.tables();
    let mut cursors = Vec::new(alloc);
    add_newest(&mut cursors, version)?;
    add_levels(&mut cursors, version)?;
    Ok(Merge::new(alloc, cursors)?)
}

/// Proves that a merge over tables alone stays where it is while their files do.
pub fn merge_stays<K: KeyOrder>()
    ensures { (merge : Merge K (SourceCursor K K.KeyOrder)) → MergeIsKept K.cmp merge }
{}

/// Proves that a merge that reads no memtable reads none after a move, since it reads of each
/// source what it read before.
pub fn moves_read_no_memory<K: KeyOrder, S: Store>()
    ensures { (source : Sources K S) (old new : Merge K (SourceCursor K K.KeyOrder))
        → ((s t : Sources K S) → KeepsMerge K.cmp old (whole_in S.facts s) (whole_in S.facts t)
        → KeepsMerge K.cmp new (whole_in S.facts s) (whole_in S.facts t))
        → ReadsNoMemory K.cmp old → ReadsNoMemory K.cmp new }
{}

/// Proves that tables that a compaction writes are apart from those that a merge reads that goes
/// over tables of lower numbers alone.
pub fn inputs_read_apart<K: KeyOrder, S: Store>()
    ensures { (merge : Merge K (SourceCursor K K.KeyOrder)) (next : ℕ) → ReadsNoMemory K.cmp merge
        → AreDisjoint (OneGoesOver merge.children.items) (IsToCome next)
        → ReadsApart S.facts (λ source. source.tables.store)
        (λ source store. record source { tables = record source.tables { store = store } })
        (λ (source : Sources K S) number. KeepsOf (seen_through S.facts source.tables) number)
        (λ merge old new. KeepsMerge K.cmp merge (whole_in S.facts old) (whole_in S.facts new))
        merge (IsToCome next) }
{
    // Laws, for the proof alone.
    sound_lasts();
}
