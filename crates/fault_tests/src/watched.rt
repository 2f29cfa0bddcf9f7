//! A store in memory that fails where it is planned. It knows which of its calls failed, and what
//! was synced before what.
ghost use Rattle.std.specs.Prelude.{◌≡◌};
ghost use Rattle.store.specs.FaultFacts.{fault_facts};

use std::alloc::Global;
use store::{FaultStore, MemStore, Plan, Store, StoreError, Trouble};

/// What was appended and isn't synced yet, of the last file of each kind.
#[derive(Clone, Copy)]
struct Unsynced {
    table: bool,
    manifest: bool,
    temporary: bool,
}

/// Holds files in memory, of which one call fails. It takes no memory of its own.
#[derive(Drop)]
pub struct WatchedStore {
    inner: FaultStore,
    failed_writes: u64,
    unsynced: Unsynced,
    is_early: bool,
}

impl WatchedStore {
    /// Wraps these files, with the failure that is planned.
    pub fn new(inner: MemStore, plan: Option<Plan>) -> Self {
        WatchedStore {
            inner: FaultStore::new(inner, plan),
            failed_writes: 0,
            unsynced: Unsynced {
                table: false,
                manifest: false,
                temporary: false,
            },
            is_early: false,
        }
    }

    /// Returns how many calls there were so far.
    pub fn calls(&self) -> u64 {
        self.inner.calls()
    }

    /// Returns how many of them failed that make or fill a file, sync it, or give it another name.
    pub fn failed_writes(&self) -> u64 {
        self.failed_writes
    }

    /// Returns whether an edit was appended before the sync of the table that it names, or CURRENT
    /// was replaced before that of the MANIFEST or of itself.
    pub fn is_early(&self) -> bool {
        self.is_early
    }

    /// Returns the files as they are now, in a copy with its lock free.
    pub fn remains(&self) -> Result<MemStore, StoreError> {
        self.inner.remains()
    }

    /// Returns the files as they are now.
    pub fn into_inner(self) -> MemStore {
        self.inner.into_inner()
    }

    // Counts a failure.
    fn note(&mut self, answer: Result<(), StoreError>) -> Result<(), StoreError>
        ensures inner { self.new.inner ≡ self.old.inner }
        ensures answer { result ≡ answer }
    {
        if matches!(answer, Err(StoreError::Device)) {
            self.failed_writes = self.failed_writes.saturating_add(1);
        }
        answer
    }

    // Notes that the last file of a kind has bytes that aren't synced, or has none.
    fn mark(&mut self, name: &str, is_unsynced: bool)
        ensures { self.new.inner ≡ self.old.inner }
    {
        if name.ends_with(".ldb") {
            self.unsynced.table = is_unsynced;
        } else if name.starts_with("MANIFEST-") {
            self.unsynced.manifest = is_unsynced;
        } else if name.ends_with(".dbtmp") {
            self.unsynced.temporary = is_unsynced;
        }
    }

    fn note_append(&mut self, name: &str)
        ensures { self.new.inner ≡ self.old.inner }
    {
        if name.starts_with("MANIFEST-") && self.unsynced.table {
            self.is_early = true;
        }
        self.mark(name, true);
    }

    fn note_rename(&mut self)
        ensures { self.new.inner ≡ self.old.inner }
    {
        if self.unsynced.manifest || self.unsynced.temporary {
            self.is_early = true;
        }
    }
}

impl Store for WatchedStore {
    ghost use Rattle.std.specs.Prelude.{false};

    ghost facts = { λ w. record (fault_facts w.inner) { faithful = false } };

    ghost told = { λ w. w.inner.inner.noted };

    fn failures(&self) -> u64 {
        self.inner.failures()
    }

    fn write_failures(&self) -> u64 {
        self.inner.write_failures()
    }

    fn list(&mut self, alloc: Global) -> Result<Vec<String>, StoreError> {
        self.inner.list(alloc)
    }

    fn len(&mut self, name: &str) -> Result<u64, StoreError> {
        self.inner.len(name)
    }

    fn read_at(
        &mut self,
        alloc: Global,
        name: &str,
        offset: u64,
        count: usize,
    ) -> Result<Vec<u8>, StoreError> {
        self.inner.read_at(alloc, name, offset, count)
    }

    fn create(&mut self, name: &str) -> Result<(), StoreError> {
        self.mark(name, false);
        let answer = self.inner.create(name);
        self.note(answer)
    }

    fn append(&mut self, name: &str, bytes: &[u8]) -> Result<(), StoreError> {
        self.note_append(name);
        let answer = self.inner.append(name, bytes);
        self.note(answer)
    }

    fn sync(&mut self, name: &str) -> Result<(), StoreError> {
        self.mark(name, false);
        let answer = self.inner.sync(name);
        self.note(answer)
    }

    fn rename(&mut self, from: &str, to: &str) -> Result<(), StoreError> {
        self.note_rename();
        let answer = self.inner.rename(from, to);
        self.note(answer)
    }

    fn remove(&mut self, name: &str) -> Result<(), StoreError> {
        self.inner.remove(name)
    }

    fn lock(&mut self) -> Result<bool, StoreError> {
        self.inner.lock()
    }

    fn unlock(&mut self) -> Result<(), StoreError> {
        self.inner.unlock()
    }

    fn note(&mut self, trouble: Trouble) {
        self.inner.note(trouble);
    }

    fn noted(&self) -> Trouble {
        self.inner.noted()
    }

    fn synced_law(&self) {
        self.inner.synced_law();
    }
}
