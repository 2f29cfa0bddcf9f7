//! A reader: the pairs of a directory, which it leaves as it is.

ghost use Rattle.std.specs.Prelude.{◌≡◌};

use crate::beginning::begin;
use crate::movement::Movement;
use crate::moving::move_iterator;
use crate::read_only::ReadOnly;
use crate::reading::value_of;
use coding::{Bytes, DbError};
use db_cursor::{Scan, Sources};
use ikey::{KeyOrder, same_view};
use memtables::MemoryTables;
use std::alloc::{AllocError, Global};
use std::num::NonZeroUsize;
use std::rc::Rc;
use store::{Store, Trouble};
use table_access::Tables;
use version_laws::version_of_directory;
use versions::Version;

/// Holds a database that is only read: the map that its directory had at its last sequence number
/// when it was opened. `K` is the order of its user keys. No lock is taken and no file is changed.
/// What another process writes meanwhile isn't seen. If it removes a file that is still to be read,
/// the call fails.
#[derive(Drop)]
pub struct Reader<S, K: KeyOrder> {
    source: Sources<K, ReadOnly<S>>,
    version: Rc<Version<K>>,
}

/// Holds an iteration over the pairs of a reader's map, in the order of their keys. It stands
/// nowhere at first.
#[derive(Drop)]
pub struct ReaderWalk<K: KeyOrder> {
    scan: Scan<K>,
}

impl<S: Store, K: KeyOrder> Reader<S, K> {
    ghost use Rattle.std.specs.Prelude.{IsTrue, true, OnOk, IfOk, IfErr};
    ghost use Rattle.std.specs.FinMap.{get};
    ghost use Rattle.std.specs.NonZero.{non_zero_usize_get};
    ghost use Rattle.ikey.specs.Orders.{order_of};
    ghost use Rattle.ikey.specs.Views.{Contents, IsView};
    ghost use Rattle.recover.specs.Directory.{Directory, IsConsistent, entries_in, used_in};
    ghost use Rattle.recover.specs.Reading.{IsErrorCounted, Recovers};
    ghost use Rattle.recover.specs.declared.reading.Recovered.{Recovered};
    ghost use Rattle.table.specs.Reading.{Reads};
    ghost use Rattle.db_cursor.specs.declared.scan.Scan.{Scan};
    ghost use Rattle.reader.specs.Refusals.{RefusesReader};
    ghost use Rattle.reader.specs.internal.Motions.{motion_of};
    ghost use Rattle.reader.specs.Moving.{BeginsWalk, IsMoved, KeepsMayBe, KeepsWalks, MayBeginWalk};
    ghost use Rattle.reader.specs.ReadOnly.{looked_at};
    ghost use Rattle.reader.specs.Readers.{facts_of, whole_of, scan_of, store_of, last_of};
    ghost use Rattle.reader.specs.Readers.{IsOpened, RefusesGet, ShowsMap, KeepsMaps, KeepsMayMaps, MayShowMap};

    /// Reads `CURRENT`, the MANIFEST and the logs, and sees that each table is there with its
    /// length. `NoDatabase` for an empty directory, Corrupt and Unsupported as an open of a
    /// database. It asks for no lock and draws no number. So many blocks are kept in memory, as
    /// they are read. An error returns the store.
    pub fn open(
        alloc: Global,
        store: ReadOnly<S>,
        cache_blocks: NonZeroUsize,
    ) -> Result<Self, (DbError, ReadOnly<S>)>
        // While the store is faithful, it shows the map of the directory, wherever that is
        // consistent.
        ensures shows { IfOk result (λ reader. IsTrue (facts_of S.facts reader).faithful → (d : Directory) (map : Contents)
            → IsConsistent (order_of K.name K.cmp) (looked_at S.facts store).files d → IsView (entries_in d) (used_in d) map
            → ShowsMap (order_of K.name K.cmp) S.facts reader map) }
        // Whatever its tables hold: its version and its logs' entries are those of the directory.
        // It keeps as many blocks as it was told.
        ensures holds { IfOk result (IsOpened (order_of K.name K.cmp) S.facts
            (looked_at S.facts store).files (non_zero_usize_get cache_blocks)) }
        ensures found { IfOk result (λ reader. IsTrue (facts_of S.facts reader).faithful
            → (recovered : Recovered) × Recovers (order_of K.name K.cmp) (looked_at S.facts store).files recovered) }
        ensures refused { IfErr result (λ e. RefusesReader (order_of K.name K.cmp) e.0 (looked_at S.facts store) (looked_at S.facts e.1)) }
        // Over any store:
        ensures counted { IfErr result (λ e. IsErrorCounted e.0 (looked_at S.facts store) (looked_at S.facts e.1)) }
        ensures stood { IfOk result (λ reader. (facts_of S.facts reader).failures ≡ (looked_at S.facts store).failures) }
        ensures reads { IfOk result (λ reader. Reads (looked_at S.facts store) (facts_of S.facts reader)) }
        ensures left { IfErr result (λ e. Reads (looked_at S.facts store) (looked_at S.facts e.1)) }
    {
        let mut source = sources_over(alloc, store);
        match begin::<K, ReadOnly<S>>(alloc, &mut source, cache_blocks) {
            Ok(version) => Ok(Reader { source, version }),
            Err(error) => Err((error, store_in(source))),
        }
    }

    /// Returns the value of a user key.
    pub fn get(&mut self, alloc: Global, key: &[u8]) -> Result<Option<Bytes>, DbError>
        // While the store is faithful, it is that of the map that is shown.
        ensures found { IfOk result (λ value. IsTrue (facts_of S.facts self.new).faithful → (map : Contents)
            → ShowsMap (order_of K.name K.cmp) S.facts self.old map → value ≡ get map key.now) }
        // The same for each map that its tables may have, as far as their blocks tell.
        ensures may { IfOk result (λ value. IsTrue (facts_of S.facts self.new).faithful → (map : Contents)
            → MayShowMap (order_of K.name K.cmp) S.facts self.old map → value ≡ get map key.now) }
        ensures may_show { KeepsMayMaps (order_of K.name K.cmp) S.facts self.old self.new }
        ensures may_walk { IsTrue (facts_of S.facts self.new).faithful → (scan : Scan K K.KeyOrder)
            → KeepsMayBe K.cmp scan (whole_of S.facts self.old) (whole_of S.facts self.new) }
        ensures shows { KeepsMaps (order_of K.name K.cmp) S.facts self.old self.new }
        ensures walks { IsTrue (facts_of S.facts self.new).faithful → (scan : Scan K K.KeyOrder)
            → KeepsWalks K.cmp scan (whole_of S.facts self.old) (whole_of S.facts self.new) }
        ensures refused { IfErr result (RefusesGet (order_of K.name K.cmp) S.facts self.old self.new) }
        // Over any store:
        ensures reads { Reads (facts_of S.facts self.old) (facts_of S.facts self.new) }
        ensures stood { OnOk result ((facts_of S.facts self.new).failures ≡ (facts_of S.facts self.old).failures) }
    {
        value_of(alloc, &mut self.source, &self.version, key)
    }

    /// Makes an iteration over all pairs of the map. Nothing is read.
    pub fn walk(&self, alloc: Global) -> Result<ReaderWalk<K>, AllocError>
        ensures begins { IfOk result (λ walk. (map : Contents) → ShowsMap (order_of K.name K.cmp) S.facts self.now map
            → BeginsWalk K.cmp true map (whole_of S.facts self.now) (scan_of walk)) }
        ensures may { IfOk result (λ walk. (map : Contents) → MayShowMap (order_of K.name K.cmp) S.facts self.now map
            → MayBeginWalk K.cmp map (whole_of S.facts self.now) (scan_of walk)) }
    {
        // Laws, for the proof alone.
        same_view();
        version_of_directory();
        let last = self.source.memory.last();
        let scan = Scan::over(alloc, &self.source, &self.version, last)?;
        Ok(ReaderWalk { scan })
    }

    /// Moves an iteration, and returns a copy of the pair on which it stands then, or None if there
    /// is none. `NoPlace`: a step of one that stands nowhere. A move that fails leaves it where it
    /// stood.
    pub fn go(
        &mut self,
        alloc: Global,
        walk: &mut ReaderWalk<K>,
        movement: Movement<'_>,
    ) -> Result<Option<(Bytes, Bytes)>, DbError>
        ensures moved { IsMoved K.cmp (motion_of movement.entry) (whole_of S.facts self.old) (whole_of S.facts self.new) (scan_of walk.old) (scan_of walk.new) result }
        ensures may_show { KeepsMayMaps (order_of K.name K.cmp) S.facts self.old self.new }
        ensures may_walk { IsTrue (facts_of S.facts self.new).faithful → (scan : Scan K K.KeyOrder)
            → KeepsMayBe K.cmp scan (whole_of S.facts self.old) (whole_of S.facts self.new) }
        ensures shows { KeepsMaps (order_of K.name K.cmp) S.facts self.old self.new }
        ensures walks { IsTrue (facts_of S.facts self.new).faithful → (scan : Scan K K.KeyOrder)
            → KeepsWalks K.cmp scan (whole_of S.facts self.old) (whole_of S.facts self.new) }
    {
        move_iterator(alloc, &mut self.source, &mut walk.scan, movement)
    }

    /// Returns the last sequence number that was used.
    pub fn last_sequence(&self) -> u64
        ensures { result ≡ last_of self.now }
    {
        self.source.memory.last()
    }

    /// Returns the store.
    pub fn store(&self) -> &ReadOnly<S>
        ensures { result.now ≡ store_of self.now }
    {
        &self.source.tables.store
    }

    /// Returns why a call failed, beside the error itself: the last note that the store took. It
    /// has the file, the place in it, what was found, what was wanted, and the system's error. It
    /// may be of an earlier failure, or empty. Its text is a line without the file's name.
    pub fn trouble(&self) -> Trouble
        ensures { result ≡ S.told (store_of self.now).inner }
    {
        self.source.tables.store.noted()
    }

    /// Returns the store, and drops all that was kept.
    pub fn into_store(self) -> ReadOnly<S>
        ensures { result ≡ store_of self }
    {
        let Reader { source, version: _ } = self;
        store_in(source)
    }
}

// A store with nothing beside it. It takes no memory.
fn sources_over<K: KeyOrder, S: Store>(alloc: Global, store: S) -> Sources<K, S>
    ensures { result.tables.store ≡ store }
{
    Sources {
        tables: Tables::over(store),
        memory: MemoryTables::empty(alloc),
    }
}

// The store alone.
fn store_in<K: KeyOrder, S: Store>(source: Sources<K, S>) -> S
    ensures { result ≡ source.tables.store }
{
    let Sources { tables, memory: _ } = source;
    let Tables {
        store,
        tables: _,
        blocks: _,
    } = tables;
    store
}
