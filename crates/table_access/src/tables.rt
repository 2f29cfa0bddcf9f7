//! A store whose tables are read through caches (LevelDB's db/table_cache.cc).

ghost use Rattle.table_access.specs.Tables.{EmptyIsSound, SoundLasts, SoundStays};

use block::Block;
use cache::{BlockCache, TableCache};
use coding::DbError;
use ikey::{Internal, KeyOrder};
use std::alloc::{AllocError, Global};
use std::num::NonZeroUsize;
use std::rc::Rc;
use store::Store;
use table::Table;

// How many tables stay open: LevelDB's `max_open_files`, 1000, less ten for its other files
// (db/db_impl.cc, `TableCacheSize`).
const OPEN_TABLES: usize = 990;

/// Holds a store, with the tables that stay open and the blocks that were read.
#[derive(Drop)]
pub struct Tables<K: KeyOrder, S> {
    pub store: S,
    pub tables: TableCache<K>,
    pub blocks: BlockCache<K>,
}

impl<K: KeyOrder, S: Store> Tables<K, S> {
    ghost use Rattle.std.specs.Prelude.{◌≡◌, ◌<◌, [], IsTrue, IfSome, IfOk, IfErr, OnOk, OnErr};
    ghost use Rattle.std.specs.NonZero.{non_zero_usize_get};
    ghost use Rattle.cache.specs.Blocks.{answer_of};
    ghost use Rattle.cache.specs.Tables.{HitsTable, RefusesTable, kept_table_at, table_answer_of};
    ghost use Rattle.table_access.specs.Tables.{Carries, HasIntact, HasSoundTable, IsBlockDamaged, IsBlockUnsupported, IsOpenFrame};
    ghost use Rattle.table_access.specs.Tables.{Knows, Only, SaysOf, open_tables, seen_through};
    ghost use Rattle.table.specs.Reading.{HasFile};
    ghost use Rattle.table.specs.Refusals.{IsFrameDamaged, IsFrameUnsupported};

    /// Wraps this store, and keeps nothing of it: no table stays open and no block in memory, until
    /// `begin`.
    pub fn over(store: S) -> Self
        ensures store { result.store ≡ store }
        ensures tables { result.tables.tables ≡ [] }
        ensures blocks { result.blocks.blocks ≡ [] }
        ensures capacity { (result.tables.capacity ≡ 0) × (result.blocks.capacity ≡ 0) }
    {
        Tables {
            store,
            tables: TableCache::none(),
            blocks: BlockCache::none(),
        }
    }

    /// Begins to keep what is read: at most 990 open tables, and so many blocks. Nothing that was
    /// kept before stays.
    pub fn begin(&mut self, alloc: Global, blocks: NonZeroUsize) -> Result<(), AllocError>
        ensures store { self.new.store ≡ self.old.store }
        ensures tables { OnOk result (self.new.tables.tables ≡ []) }
        ensures blocks { OnOk result (self.new.blocks.blocks ≡ []) }
        ensures capacity { OnOk result ((self.new.tables.capacity ≡ open_tables) × (self.new.blocks.capacity ≡ non_zero_usize_get blocks)) }
        ensures refused { OnErr result (self.new ≡ self.old) }
    {
        let Some(open) = NonZeroUsize::new(OPEN_TABLES) else {
            unreachable!()
        };
        let tables = TableCache::new(alloc, open)?;
        let blocks = BlockCache::new(alloc, blocks)?;
        self.tables = tables;
        self.blocks = blocks;
        Ok(())
    }

    /// Releases what was kept, and keeps nothing until `begin`.
    pub fn end(&mut self)
        ensures store { self.new.store ≡ self.old.store }
        ensures tables { self.new.tables.tables ≡ [] }
        ensures blocks { self.new.blocks.blocks ≡ [] }
        ensures capacity { (self.new.tables.capacity ≡ 0) × (self.new.blocks.capacity ≡ 0) }
    {
        self.tables = TableCache::none();
        self.blocks = BlockCache::none();
    }

    /// Returns the open table of this number, as `TableCache::get_table`.
    pub fn get_table(&mut self, alloc: Global, number: u64) -> Result<Rc<Table<K>>, DbError>
        requires { 0 < number }
        ensures carries { Carries K.cmp (Only number) (seen_through S.facts self.old) (seen_through S.facts self.new) }
        ensures found { IfOk (table_answer_of result) (λ table. SaysOf K.cmp (seen_through S.facts self.old) (seen_through S.facts self.new)
            number (λ file. HasFile (S.facts self.new.store) table.name file × IsOpenFrame K.cmp file table.frame)) }
        // If the table is kept it is answered, and the store isn't asked.
        ensures hit { IfSome (kept_table_at self.old.tables.tables number)
            (λ table. HitsTable table (table_answer_of result) × (self.new.store ≡ self.old.store)) }
        ensures blocks { self.new.blocks ≡ self.old.blocks }
        ensures known { OnOk result (IsTrue (S.facts self.new.store).faithful → Knows (seen_through S.facts self.old) number) }
        ensures stood { OnOk result ((S.facts self.new.store).failures ≡ (S.facts self.old.store).failures) }
        ensures refused { IfErr (table_answer_of result) (λ e. RefusesTable e (S.facts self.old.store) (S.facts self.new.store) number
            (IsFrameDamaged K.cmp) IsFrameUnsupported) }
    {
        self.tables.get_table(alloc, &mut self.store, number)
    }

    /// Returns the data block of an index of the table of this number, as `get_table` and
    /// `BlockCache::read_block`.
    pub fn read_block(
        &mut self,
        alloc: Global,
        number: u64,
        index: usize,
    ) -> Result<Rc<Block<Internal<K>>>, DbError>
        requires { 0 < number }
        ensures carries { Carries K.cmp (Only number) (seen_through S.facts self.old) (seen_through S.facts self.new) }
        ensures found { IfOk (answer_of result) (λ pairs. SaysOf K.cmp (seen_through S.facts self.old) (seen_through S.facts self.new)
            number (HasIntact K.cmp index pairs)) }
        ensures stood { OnOk result ((S.facts self.new.store).failures ≡ (S.facts self.old.store).failures) }
        // What it says of a table that the store has, it says where what is kept is right.
        ensures refused { IfErr (answer_of result) (λ e. RefusesTable e (S.facts self.old.store) (S.facts self.new.store) number
            (λ file. HasSoundTable K.cmp (seen_through S.facts self.old) number file → IsBlockDamaged K.cmp index file)
            (λ file. HasSoundTable K.cmp (seen_through S.facts self.old) number file → IsBlockUnsupported K.cmp index file)) }
    {
        let table = self.get_table(alloc, number)?;
        self.blocks
            .read_block(alloc, &mut self.store, &table, number, index)
    }
}

/// Proves that if nothing is kept, all that is kept is right.
pub fn empty_is_sound()
    ensures { EmptyIsSound }
{}

/// Proves that what is kept stays right while tables are written under numbers of which nothing is
/// kept, and while tables are removed.
pub fn sound_lasts()
    ensures { SoundLasts }
{}

/// Proves that what is kept stays right while the files of tables stay.
pub fn sound_stays()
    ensures { SoundStays }
{}
