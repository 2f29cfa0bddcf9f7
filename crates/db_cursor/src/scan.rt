//! A walk over the pairs of a view (LevelDB's db/db_iter.cc over db/db_impl.cc,
//! DBImpl::NewInternalIterator).

use crate::beginning::{add_levels, add_memory, add_newest};
use crate::source::Sources;
use crate::source_cursor::SourceCursor;
use coding::{Bytes, DbError};
use cursor::{Merge, Visible, each_list_has_a_view, lists_have_a_union, views_agree};
use ikey::KeyOrder;
use level_cursor::row_begins;
use std::alloc::{AllocError, Global};
use std::rc::Rc;
use store::Store;
use versions::Version;

/// Holds an iteration over the pairs of a view, in the order of their keys. Which tables it reads
/// is said by its cursors as they are, and by the version that it was made over. Who removes files
/// asks for both.
#[derive(Drop)]
pub struct Scan<K: KeyOrder> {
    walk: Visible<K, Merge<K, SourceCursor<K>>>,
    // the tables that it goes over
    version: Rc<Version<K>>,
    // the generations of the memtables that it reads
    generation: u64,
    sealed: Option<u64>,
}

impl<K: KeyOrder> Scan<K> {
    ghost use Rattle.std.specs.Prelude.{◌≡◌, ◌<◌, ◌^◌, ℕ, List, false, min, true, IfOk, MatchBool};
    ghost use Rattle.cursor.specs.Views.{Walked, walk_first, walk_last, walk_next, walk_prev, walk_to};
    ghost use Rattle.cursor.specs.Walks.{key_before};
    ghost use Rattle.ikey.specs.Orders.{order_of};
    ghost use Rattle.level_cursor.specs.InRows.{ListsNumber};
    ghost use Rattle.db_cursor.specs.Pairs.{pair_on};
    ghost use Rattle.db_cursor.specs.internal.Scanning.{IsScanned, IntactScans, MayBeIsKept, ReadsAs, ScanIsKept, ScanPastLimit, TakesBack, has_pair};
    ghost use Rattle.db_cursor.specs.Scans.{BeginsScan, MayBeScan, MayBeginScan, reads_memory, reads_table, tables_of};
    ghost use Rattle.db_cursor.specs.Whole.{whole_in};
    ghost use Rattle.versions.specs.Levels as versions;

    /// Makes a scan over what the entries of the memtables and of a version's tables put, up to a
    /// sequence number and up to the last one used. It stands nowhere; nothing is read, and no
    /// table is opened. It reads no other tables than the version's.
    pub fn over<S: Store>(
        alloc: Global,
        source: &Sources<K, S>,
        version: &Rc<Version<K>>,
        sequence: u64,
    ) -> Result<Self, AllocError>
        ensures nowhere { IfOk result (λ scan. scan.walk.stands ≡ false) }
        ensures sequence { IfOk result (λ scan. scan.walk.sequence ≡ min sequence source.now.memory.last) }
        ensures tables { IfOk result (λ scan. tables_of scan ≡ version.now.value.tables) }
        ensures within { IfOk result (λ scan. (number : ℕ) → reads_table scan number → ListsNumber version.now.value.tables number) }
        ensures may { IfOk result (λ scan. MayBeginScan (order_of K.name K.cmp) version.now.value.tables sequence
            (whole_in S.facts source.now) scan) }
        ensures begins { IfOk result (λ scan. BeginsScan (order_of K.name K.cmp) version.now.value.tables sequence
            (whole_in S.facts source.now) scan) }
    {
        // Laws, for the proof alone.
        lists_have_a_union::<K>();
        each_list_has_a_view::<K>();
        views_agree::<K>();
        row_begins::<K>();
        // For the proof alone: they are in order.
        let _tables = version.tables();
        source.memory.are_bounded();
        let sequence = sequence.min(source.memory.last());
        let mut cursors = Vec::new(alloc);
        add_memory(alloc, &mut cursors, &source.memory, sequence)?;
        add_newest(&mut cursors, version)?;
        add_levels(&mut cursors, version)?;
        let merge = Merge::new(alloc, cursors)?;
        Ok(Scan {
            walk: Visible::new(alloc, merge, sequence),
            version: version.clone()?,
            generation: source.memory.generation(),
            sealed: source.memory.sealed_generation(),
        })
    }

    /// Moves to the pair of the least key, or nowhere if there is none. If the source is faithful,
    /// `Corrupt` comes only from a torn block to which it came. `Unsupported` comes from such a
    /// block too, or from a table file that passes a limit of reading.
    pub fn first<S: Store>(
        &mut self,
        alloc: Global,
        source: &mut Sources<K, S>,
    ) -> Result<(), DbError>
        ensures { IsScanned K.cmp walk_first (whole_in S.facts source.old) (whole_in S.facts source.new) self.old self.new result }
    {
        self.walk.first(alloc, source)
    }

    /// Moves to the pair of the greatest key, or nowhere if there is none.
    pub fn last<S: Store>(
        &mut self,
        alloc: Global,
        source: &mut Sources<K, S>,
    ) -> Result<(), DbError>
        ensures { IsScanned K.cmp walk_last (whole_in S.facts source.old) (whole_in S.facts source.new) self.old self.new result }
    {
        self.walk.last(alloc, source)
    }

    /// Moves to the pair of the first key that isn't below the target, or nowhere if there is none.
    pub fn seek<S: Store>(
        &mut self,
        alloc: Global,
        source: &mut Sources<K, S>,
        target: &[u8],
    ) -> Result<(), DbError>
        ensures { IsScanned K.cmp (walk_to K.cmp target.now) (whole_in S.facts source.old)
            (whole_in S.facts source.new) self.old self.new result }
    {
        self.walk.seek(alloc, source, target)
    }

    /// Moves to the next pair, or nowhere if there is none.
    pub fn next<S: Store>(
        &mut self,
        alloc: Global,
        source: &mut Sources<K, S>,
    ) -> Result<(), DbError>
        requires { self.old.walk.stands ≡ true }
        ensures { IsScanned K.cmp walk_next (whole_in S.facts source.old) (whole_in S.facts source.new) self.old self.new result }
    {
        self.walk.next(alloc, source)
    }

    /// Moves to the previous pair, or nowhere if there is none.
    pub fn prev<S: Store>(
        &mut self,
        alloc: Global,
        source: &mut Sources<K, S>,
    ) -> Result<(), DbError>
        requires { self.old.walk.stands ≡ true }
        ensures { IsScanned K.cmp walk_prev (whole_in S.facts source.old) (whole_in S.facts source.new) self.old self.new result }
    {
        self.walk.prev(alloc, source)
    }

    /// Takes back the last move, if it succeeded: the scan stands again where it stood before, on a
    /// pair or nowhere. It takes no memory. The pair can be asked for again only after the next
    /// move.
    pub fn take_back(&mut self, stood: bool)
        ensures cursor { self.new.walk.cursor ≡ self.old.walk.cursor }
        ensures sequence { self.new.walk.sequence ≡ self.old.walk.sequence }
        ensures reads_as { ReadsAs self.old self.new }
        ensures within { (number : ℕ) → reads_table self.new number → reads_table self.old number }
        ensures stands { self.new.walk.stands ≡ stood }
        ensures key { self.new.walk.here.key.items ≡ key_before self.old.walk }
        ensures back { TakesBack K.cmp stood self.old self.new }
    {
        self.walk.take_back(stood);
    }

    /// Returns whether the scan stands on a pair.
    pub fn stands(&self) -> bool
        ensures { result ≡ self.now.walk.stands }
    {
        self.walk.stands()
    }

    /// Returns a copy of the pair on which the scan stands, after a move that succeeded, or None if
    /// it stands nowhere.
    pub fn pair<S: Store>(
        &self,
        alloc: Global,
        source: &Sources<K, S>,
    ) -> Result<Option<(Bytes, Bytes)>, AllocError>
        requires { self.now.walk.stands ≡ true → has_pair self.now ≡ true }
        ensures { IfOk result (λ pair. (at : Walked) → MayBeScan K.cmp self.now (whole_in S.facts source.now) at → pair ≡ pair_on at) }
    {
        if !self.walk.stands() {
            return Ok(None);
        }
        let key = Bytes::copied_from(alloc, self.walk.key())?;
        let value = Bytes::copied_from(alloc, self.walk.value(source))?;
        Ok(Some((key, value)))
    }

    /// Returns whether the scan reads the memtable of this generation.
    pub fn reads(&self, generation: u64) -> bool
        ensures { MatchBool result (reads_memory self.now generation) (reads_memory self.now generation → ⊥) }
    {
        generation == self.generation || self.sealed == Some(generation)
    }

    /// Returns whether its version has the table of this number.
    pub fn has_table(&self, number: u64) -> bool
        ensures { MatchBool result (versions.HasNumber number (tables_of self.now)) (versions.HasNumber number (tables_of self.now) → ⊥) }
    {
        self.version.has_number(number)
    }

    /// Proves that a scan stays where it is while what it reads is kept.
    pub fn stays(&self)
        ensures { ScanIsKept K.cmp self.now }
    {
        let _ = self;
    }

    /// Proves that each list of pairs that its tables may have stays too.
    pub fn may_stay(&self)
        ensures { MayBeIsKept K.cmp self.now }
    {
        let _ = self;
    }

    /// Proves that if no block is torn, that is the list that they have.
    pub fn is_intact(&self)
        ensures { IntactScans K.cmp self.now }
    {
        let _ = self;
    }

    /// Proves that a scan that passes a limit of reading goes over a table whose file does.
    pub fn past_limit(&self)
        ensures { ScanPastLimit K.cmp self.now }
    {
        let _ = self;
    }
}
