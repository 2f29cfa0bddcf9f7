//! Work until there is none, and as much as keeps up with what is written.

ghost use Rattle.std.specs.Prelude.{◌≡◌, None, Some, length, nat_lt, if◌then◌else◌, MatchBool, MatchResult, OnOk};
ghost use Rattle.ikey.specs.Orders.{order_of};

use crate::db::Db;
use crate::work::Progress;
use batch::Batch;
use coding::DbError;
use edits::LEVELS;
use ikey::KeyOrder;
use std::alloc::Global;
use store::Store;

// How many entries of work each written operation adds, since an entry is merged a few times on its
// way down the levels. An operation adds more if level 0 has twice as many tables as start a
// compaction: LevelDB slows writes down there (its db/dbformat.h, kL0_SlowdownWritesTrigger).
const SHARE: u32 = 6;

const LARGE_SHARE: u32 = 24;

// Operations add their work by groups of so many, or of this part of a memtable. Each piece of work
// lists the folder, which costs more than a write.
const GROUP: u64 = 64;

const PARTS: u64 = 16;

// Caps the operations that are counted when a batch's share of the work is computed.
const MOST_OPERATIONS: usize = 1 << 20;

/// Tells whether work keeps up with what is written.
#[derive(Clone, Copy, Debug, PartialEq, Eq)]
pub enum Pace {
    /// The memtable that takes writes has fewer than `write_buffer` bytes, and level 0 at most
    /// three times `level0_files` tables.
    KeepsUp,
    /// Work failed for this. What was written is there.
    Refused(DbError),
}

impl<S: Store, K: KeyOrder> Db<S, K> {
    ghost use Rattle.engine.specs.Losses.{DbLoses, DbLosesWrite};
    ghost use Rattle.engine.specs.Reopening.{DbKeepsFound};
    ghost use Rattle.engine.specs.Pace.{HasKeptUp, OnlyDraws, OnlyWorks, WorksAtPace, WritesAtPace};
    ghost use Rattle.engine.specs.Pacing.{CanNotWait, CanWait, CatchesUp, EndsGroup, IsBehind, WorksOff, WritesAndWorks, share_for};
    ghost use Rattle.engine.specs.StandsDb.{FollowsDb, KeepsOpening, db_ids_of, db_options_of, open_by};
    ghost use Rattle.engine.specs.Stops.{DbStops, DbStopsWrite};
    ghost use Rattle.engine.specs.Working.{HasNoWork};
    ghost use Rattle.engine.specs.declared.pace.Pace.TheVariants.{KeepsUp};
    ghost use Rattle.versions.specs.Levels.{tables_at};

    /// Works until nothing is left to do, by pieces of so many entries. Then no compaction is under
    /// way, no level wants one (so level 0 has fewer files than `level0_files`), and memory has
    /// less than `write_buffer` bytes. What was done before an error stays done.
    pub fn settle(&mut self, alloc: Global, budget: u32) -> Result<(), DbError>
        ensures step { FollowsDb (order_of K.name K.cmp) S.facts self.old self.new
            (λ m n. MatchResult result (λ done. OnlyDraws m n) (λ e. OnlyWorks m n)) }
        // Over any store:
        ensures settled { OnOk result (HasNoWork (db_options_of self.new) (open_by self.new)) }
        // It is calls of `work`, each with this budget.
        ensures does { WorksOff (order_of K.name K.cmp) S.facts budget self.old self.new result }
        ensures ids { db_ids_of self.new ≡ db_ids_of self.old }
        ensures opening { KeepsOpening self.old self.new }
        // A process crash in its middle leaves what was written, and a power loss a prefix of it.
        ensures stops { DbStops (order_of K.name K.cmp) S.facts self.old self.new }
        ensures loses { DbLoses (order_of K.name K.cmp) S.facts self.old self.new }
        ensures found { DbKeepsFound (order_of K.name K.cmp) S.facts self.old self.new }
    {
        for _ in 0..u64::MAX {
            match self.work(alloc, budget) {
                Ok(Progress::Worked) => continue,
                Ok(Progress::Idle) => return Ok(()),
                Err(error) => return Err(error),
            }
        }
        Err(DbError::OutOfMemory)
    }

    /// Returns how many tables a level has, from 0 to 6, or `None` for another one.
    pub fn tables_in(&self, level: u32) -> Option<usize>
        ensures { result ≡ (if nat_lt level 7 then Some (length (tables_at level (open_by self.now).tables)) else None) }
    {
        if level >= LEVELS {
            return None;
        }
        Some(self.state.version.level(level).len())
    }

    /// Writes a batch, as `write` does, and then does some of the work, until work keeps up. So a
    /// caller needs no `work` beside it, and memory and level 0 are bounded; the call takes longer
    /// instead. (LevelDB's db/db_impl.cc, DBImpl::MakeRoomForWrite, waits there.) It fails as
    /// `write` does; if only the work fails, the batch is written and the `Pace` says so.
    pub fn write_and_work(
        &mut self,
        alloc: Global,
        batch: &Batch,
        sync: bool,
    ) -> Result<Pace, DbError>
        ensures step { FollowsDb (order_of K.name K.cmp) S.facts self.old self.new (λ m n. WritesAtPace m batch.now sync result n) }
        // Over any store:
        ensures kept { result ≡ Ok KeepsUp → HasKeptUp (db_options_of self.new) (open_by self.new) }
        // It is a call of `write`. Where a group ends, or work has fallen behind, calls of `work`
        // with its share follow.
        ensures does { WritesAndWorks (order_of K.name K.cmp) S.facts batch.now sync self.old self.new result }
        ensures ids { db_ids_of self.new ≡ db_ids_of self.old }
        ensures opening { KeepsOpening self.old self.new }
        // After a process crash in its middle the files hold what was written, with the batch as a
        // whole or without it. After a power loss they hold a prefix of that.
        ensures stops { DbStopsWrite (order_of K.name K.cmp) S.facts batch.now self.old self.new }
        ensures loses { DbLosesWrite (order_of K.name K.cmp) S.facts batch.now self.old self.new }
        ensures found { DbKeepsFound (order_of K.name K.cmp) S.facts self.old self.new }
    {
        let last = self.source.memory.last();
        let size = self.source.memory.size();
        self.write(alloc, batch, sync)?;
        if self.can_wait(last, size) {
            return Ok(Pace::KeepsUp);
        }
        let share = self.share_of(batch.ops().len());
        Ok(self.keep_up(alloc, share))
    }

    /// Works by pieces of so many entries, one at least, until work keeps up with what was written.
    /// A memtable that is sealed is written into a table in the same call: otherwise the next write
    /// would have to sync its log.
    pub fn keep_up(&mut self, alloc: Global, budget: u32) -> Pace
        ensures step { FollowsDb (order_of K.name K.cmp) S.facts self.old self.new (WorksAtPace result) }
        // Over any store:
        ensures kept { result ≡ KeepsUp → HasKeptUp (db_options_of self.new) (open_by self.new) }
        ensures flushed { result ≡ KeepsUp → (open_by self.new).memory.sealed ≡ None }
        // It is calls of `work`, each with this budget, and none more than it needs.
        ensures does { CatchesUp (order_of K.name K.cmp) S.facts budget self.old self.new result }
        ensures ids { db_ids_of self.new ≡ db_ids_of self.old }
        ensures opening { KeepsOpening self.old self.new }
        ensures stops { DbStops (order_of K.name K.cmp) S.facts self.old self.new }
        ensures loses { DbLoses (order_of K.name K.cmp) S.facts self.old self.new }
        ensures found { DbKeepsFound (order_of K.name K.cmp) S.facts self.old self.new }
    {
        for _ in 0..u64::MAX {
            match self.work(alloc, budget) {
                Ok(Progress::Idle) => return Pace::KeepsUp,
                Err(error) => return Pace::Refused(error),
                Ok(Progress::Worked) => {}
            }
            if self.can_rest() {
                return Pace::KeepsUp;
            }
        }
        Pace::Refused(DbError::OutOfMemory)
    }

    // Whether it has kept up, and no memtable waits for its table.
    fn can_rest(&self) -> bool
        ensures { MatchBool result (HasKeptUp (db_options_of self.now) (open_by self.now) × ((open_by self.now).memory.sealed ≡ None))
            (IsBehind (db_options_of self.now) (open_by self.now)) }
    {
        if self.source.memory.sealed_generation().is_some() {
            return false;
        }
        self.has_kept_up()
    }

    fn has_kept_up(&self) -> bool
        ensures { MatchBool result (HasKeptUp (db_options_of self.now) (open_by self.now)) (HasKeptUp (db_options_of self.now) (open_by self.now) → ⊥) }
    {
        if self.source.memory.size() as u64 >= self.options.write_buffer() {
            return false;
        }
        self.state.version.level(0).len() as u64 <= 3 * self.options.level0_files()
    }

    // Whether a batch that was written brings no work along. Before it the last sequence number was
    // this one, and the memtable had so many bytes.
    fn can_wait(&self, last: u64, size: usize) -> bool
        ensures { MatchBool result (CanWait (db_options_of self.now) last size (open_by self.now))
            (CanNotWait (db_options_of self.now) last size (open_by self.now)) }
    {
        if self.ends_a_group(last, size) {
            return false;
        }
        self.has_kept_up()
    }

    // Whether a group has ended since.
    fn ends_a_group(&self, last: u64, size: usize) -> bool
        ensures { MatchBool result (EndsGroup (db_options_of self.now) last size (open_by self.now))
            (EndsGroup (db_options_of self.now) last size (open_by self.now) → ⊥) }
    {
        if last / GROUP != self.source.memory.last() / GROUP {
            return true;
        }
        let part = (self.options.write_buffer() / PARTS).max(1);
        size as u64 / part != self.source.memory.size() as u64 / part
    }

    // How many entries of work so many operations add, and at least a group.
    fn share_of(&self, operations: usize) -> u32
        ensures { result ≡ share_for (db_options_of self.now) (open_by self.now) operations }
    {
        let counted = operations.clamp(GROUP as usize, MOST_OPERATIONS) as u32;
        if (self.state.version.level(0).len() as u64) < 2 * self.options.level0_files() {
            return SHARE * counted;
        }
        LARGE_SHARE * counted
    }
}
