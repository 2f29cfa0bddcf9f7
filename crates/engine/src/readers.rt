//! Which tables and memtables an open database still reads.

ghost use Rattle.std.specs.Prelude.{MatchBool};
ghost use Rattle.engine.specs.InUse.{AnyIterator, IsJobTable, IsMemoryUsed, IsTableUsed};
ghost use Rattle.db_cursor.specs.Scans.{tables_of};
ghost use Rattle.versions.specs.Levels.{HasNumber};

use crate::state::DbState;
use db_cursor::Scan;
use directory_writes::LiveTables;
use ikey::KeyOrder;
use memtables::Users;
use std::collections::BTreeMap;

impl<K: KeyOrder> LiveTables for DbState<K> {
    ghost has = { λ state number. IsTableUsed state.version.value.tables state.job state.iterators number };

    fn has_table(&self, number: u64) -> bool {
        if self.version.has_number(number) {
            return true;
        }
        if is_table_read(&self.iterators, number) {
            return true;
        }
        self.is_job_table(number)
    }
}

impl<K: KeyOrder> Users for DbState<K> {
    ghost names = { λ state generation. IsMemoryUsed state.iterators generation };

    fn names(&self, generation: u64) -> bool {
        is_memory_read(&self.iterators, generation)
    }
}

impl<K: KeyOrder> DbState<K> {
    // Whether the compaction under way goes over the table of this number, or has written it.
    fn is_job_table(&self, number: u64) -> bool
        ensures { MatchBool result (IsJobTable self.now.job number) (IsJobTable self.now.job number → ⊥) }
    {
        let Some(work) = &self.job else {
            return false;
        };
        if work.reads(number) {
            return true;
        }
        work.writes(number)
    }
}

// Whether the version of an open iterator has the table of this number.
fn is_table_read<K: KeyOrder>(iterators: &BTreeMap<u64, Scan<K>>, number: u64) -> bool
    ensures { MatchBool result (AnyIterator iterators.now (λ scan. HasNumber number (tables_of scan)))
        (AnyIterator iterators.now (λ scan. HasNumber number (tables_of scan)) → ⊥) }
{
    for scan in iterators.values() {
        if scan.has_table(number) {
            return true;
        }
    }
    false
}

// Whether an open iterator reads the memtable of this generation.
fn is_memory_read<K: KeyOrder>(iterators: &BTreeMap<u64, Scan<K>>, generation: u64) -> bool
    ensures { MatchBool result (IsMemoryUsed iterators.now generation) (IsMemoryUsed iterators.now generation → ⊥) }
{
    for scan in iterators.values() {
        if scan.reads(generation) {
            return true;
        }
    }
    false
}
