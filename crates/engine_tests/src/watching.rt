//! A store in memory that counts what is asked of it, and can be told to answer otherwise.
ghost use Rattle.std.specs.Prelude.{◌≡◌};
ghost use Rattle.store.specs.MemFacts.{mem_facts};

use std::alloc::Global;
use std::cell::Cell;
use store::{MemStore, Store, StoreError, Trouble};

/// Holds files in memory. It counts the calls, but for those of the lock, the reads of tables, and
/// the bytes that all reads gave. One call may fail, a byte of what it returns be another one than
/// was written, and files not be removed: so it isn't faithful.
#[derive(Drop)]
pub struct WatchedStore {
    inner: MemStore,
    refused: u64,
    calls: u64,
    table_reads: u64,
    bytes_read: u64,
    changed: Cell<Option<(u64, u8)>>,
    keeps: Cell<bool>,
    noted: Trouble,
}

impl WatchedStore {
    /// Wraps these files, of which nothing was read yet.
    pub fn new(inner: MemStore) -> Self {
        WatchedStore::refusing(inner, 0)
    }

    /// Wraps the same, but the call of this number, from 1 on, changes nothing and answers that the
    /// device failed.
    pub fn refusing(inner: MemStore, refused: u64) -> Self {
        WatchedStore {
            inner,
            refused,
            calls: 0,
            table_reads: 0,
            bytes_read: 0,
            changed: Cell::new(None),
            keeps: Cell::new(false),
            noted: Trouble::none(),
        }
    }

    /// Returns how many calls there were so far.
    pub fn calls(&self) -> u64 {
        self.calls
    }

    /// Returns how many reads of tables there were.
    pub fn table_reads(&self) -> u64 {
        self.table_reads
    }

    /// Returns how many bytes all reads gave together.
    pub fn bytes_read(&self) -> u64 {
        self.bytes_read
    }

    /// Gives each table this byte at this offset from now on.
    pub fn change(&self, offset: u64, byte: u8) {
        self.changed.set(Some((offset, byte)));
    }

    /// Lets no file be removed from now on, or each.
    pub fn keep_files(&self, keeps: bool) {
        self.keeps.set(keeps);
    }

    /// Returns the files as they are now.
    pub fn into_inner(self) -> MemStore {
        self.inner
    }

    // Counts a call, and says whether it is the one that is refused.
    fn is_refused(&mut self) -> bool
        ensures { self.new.inner ≡ self.old.inner }
    {
        self.calls = self.calls.saturating_add(1);
        self.calls == self.refused
    }

    // Puts the changed byte into what was read from an offset on, where it lies there.
    fn put_changed(&self, offset: u64, read: &mut [u8]) {
        let Some((place, byte)) = self.changed.get() else {
            return;
        };
        let Some(index) = place.checked_sub(offset) else {
            return;
        };
        if let Some(found) = read.get_mut(index as usize) {
            *found = byte;
        }
    }

    // Counts what was read.
    fn count_read(&mut self, name: &str, offset: u64, read: &mut [u8])
        ensures { self.new.inner ≡ self.old.inner }
    {
        self.bytes_read = self.bytes_read.saturating_add(read.len() as u64);
        if name.ends_with(".ldb") {
            self.table_reads = self.table_reads.saturating_add(1);
            self.put_changed(offset, read);
        }
    }
}

impl Store for WatchedStore {
    ghost use Rattle.std.specs.Prelude.{false};

    ghost facts = { λ w. record (mem_facts w.inner) { faithful = false } };

    ghost told = { λ w. w.noted };

    // Where a call is refused, a file that isn't there is removed, or synced by one that writes,
    // which fails and is counted.

    fn failures(&self) -> u64 {
        self.inner.failures()
    }

    fn write_failures(&self) -> u64 {
        self.inner.write_failures()
    }

    fn list(&mut self, alloc: Global) -> Result<Vec<String>, StoreError> {
        if self.is_refused() {
            self.inner.remove("")?;
        }
        self.inner.list(alloc)
    }

    fn len(&mut self, name: &str) -> Result<u64, StoreError> {
        if self.is_refused() {
            self.inner.remove("")?;
        }
        self.inner.len(name)
    }

    fn read_at(
        &mut self,
        alloc: Global,
        name: &str,
        offset: u64,
        count: usize,
    ) -> Result<Vec<u8>, StoreError> {
        if self.is_refused() {
            self.inner.remove("")?;
        }
        let mut read = self.inner.read_at(alloc, name, offset, count)?;
        self.count_read(name, offset, read.as_mut_slice());
        Ok(read)
    }

    fn create(&mut self, name: &str) -> Result<(), StoreError> {
        if self.is_refused() {
            return self.inner.sync("");
        }
        self.inner.create(name)
    }

    fn append(&mut self, name: &str, bytes: &[u8]) -> Result<(), StoreError> {
        if self.is_refused() {
            return self.inner.sync("");
        }
        self.inner.append(name, bytes)
    }

    fn sync(&mut self, name: &str) -> Result<(), StoreError> {
        if self.is_refused() {
            return self.inner.sync("");
        }
        self.inner.sync(name)
    }

    fn rename(&mut self, from: &str, to: &str) -> Result<(), StoreError> {
        if self.is_refused() {
            return self.inner.sync("");
        }
        self.inner.rename(from, to)
    }

    fn remove(&mut self, name: &str) -> Result<(), StoreError> {
        if self.is_refused() || self.keeps.get() {
            return self.inner.remove("");
        }
        self.inner.remove(name)
    }

    fn lock(&mut self) -> Result<bool, StoreError> {
        self.inner.lock()
    }

    fn unlock(&mut self) -> Result<(), StoreError> {
        self.inner.unlock()
    }

    fn note(&mut self, trouble: Trouble) {
        self.noted = trouble.behind(self.noted);
    }

    fn noted(&self) -> Trouble {
        self.noted
    }

    fn synced_law(&self) {
        self.inner.synced_law();
    }
}
