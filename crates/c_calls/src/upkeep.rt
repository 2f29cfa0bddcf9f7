// Merging, and what there is of it.

ghost use Rattle.std.specs.Prelude.{◌≡◌};
ghost use Rattle.c_calls.specs.Calls.{AllServed, CompactServed, LevelServed, SettleServed, WorkServed, bytewise};
ghost use Rattle.c_calls.specs.Told.{TablesTold};
ghost use Rattle.engine.specs.StandsDb.{open_by};

use crate::codes::{status, tell_progress};
use crate::handle::Handle;
use std::alloc::Global;
use store::Store;

/// The level that stands for all of them.
const ALL_LEVELS: u32 = 7;

impl<S: Store> Handle<S> {
    /// Works on a piece of so many entries, and tells whether there was nothing to do.
    pub fn work(&mut self, alloc: Global, budget: u32, idle: &mut u32) -> i32
        ensures { WorkServed bytewise S.facts budget idle.new self.old.db self.new.db result }
    {
        let answer = self.db.work(alloc, budget);
        tell_progress(answer, idle)
    }

    /// Works until there is nothing left to do.
    pub fn settle(&mut self, alloc: Global, budget: u32) -> i32
        ensures { SettleServed bytewise S.facts self.old.db self.new.db result }
    {
        let answer = self.db.settle(alloc, budget);
        status(answer)
    }

    /// Compacts a level into the next one, or all of them.
    pub fn compact(&mut self, alloc: Global, level: u32) -> i32
        ensures { CompactServed bytewise S.facts level self.old.db self.new.db result }
    {
        if level == ALL_LEVELS {
            return self.compact_all(alloc);
        }
        self.compact_level(alloc, level)
    }

    fn compact_all(&mut self, alloc: Global) -> i32
        ensures { AllServed bytewise S.facts self.old.db self.new.db result }
    {
        let answer = self.db.compact_all(alloc);
        status(answer)
    }

    fn compact_level(&mut self, alloc: Global, level: u32) -> i32
        ensures { LevelServed bytewise S.facts level self.old.db self.new.db result }
    {
        let answer = self.db.compact_level(alloc, level);
        status(answer)
    }

    /// How many tables a level has, or -1 where there is no such level.
    pub fn tables(&self, level: u32) -> i64
        ensures { TablesTold level (open_by self.now.db).tables result }
    {
        match self.db.tables_in(level) {
            Some(count) => i64::try_from(count).unwrap_or(i64::MAX),
            None => -1,
        }
    }
}
