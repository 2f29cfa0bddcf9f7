// No memory is taken for bytes that aren't there.
ghost use Rattle.store.specs.MemFacts.{mem_facts};

use crate::files::{NAME, ONE_ENTRY, changed, store_with};
use coding::DbError;
use ikey::Bytewise;
use std::alloc::Global;
use std::test::*;
use store::{MemStore, Store, StoreError, Trouble};
use table::Table;

// A store that notes the most bytes that were asked for at once.
#[derive(Drop)]
struct Watched {
    inner: MemStore,
    most: usize,
}

impl Store for Watched {
    ghost use Rattle.store.specs.MemFacts.{mem_facts};

    ghost facts = { λ w. mem_facts w.inner };

    ghost told = { λ w. w.inner.noted };

    fn failures(&self) -> u64 {
        self.inner.failures()
    }

    fn write_failures(&self) -> u64 {
        self.inner.write_failures()
    }

    fn list(&mut self, alloc: Global) -> Result<Vec<String>, StoreError> {
        self.inner.list(alloc)
    }

    fn len(&mut self, name: &str) -> Result<u64, StoreError> {
        self.inner.len(name)
    }

    fn read_at(
        &mut self,
        alloc: Global,
        name: &str,
        offset: u64,
        count: usize,
    ) -> Result<Vec<u8>, StoreError> {
        self.most = self.most.max(count);
        self.inner.read_at(alloc, name, offset, count)
    }

    fn create(&mut self, name: &str) -> Result<(), StoreError> {
        self.inner.create(name)
    }

    fn append(&mut self, name: &str, bytes: &[u8]) -> Result<(), StoreError> {
        self.inner.append(name, bytes)
    }

    fn sync(&mut self, name: &str) -> Result<(), StoreError> {
        self.inner.sync(name)
    }

    fn rename(&mut self, from: &str, to: &str) -> Result<(), StoreError> {
        self.inner.rename(from, to)
    }

    fn remove(&mut self, name: &str) -> Result<(), StoreError> {
        self.inner.remove(name)
    }

    fn lock(&mut self) -> Result<bool, StoreError> {
        self.inner.lock()
    }

    fn unlock(&mut self) -> Result<(), StoreError> {
        self.inner.unlock()
    }

    fn note(&mut self, trouble: Trouble) {
        self.inner.note(trouble);
    }

    fn noted(&self) -> Trouble {
        self.inner.noted()
    }

    fn synced_law(&self) {
        self.inner.synced_law();
    }
}

// More bytes than the 176 of the file, up to more than is read of any, and the footer's handles
// that say so of the metaindex, which begins the file. After it comes that of the index.
#[rattlefmt::skip]
const SIZES: [(u64, &[u8; 40]); 5] = [
    (172, b"\0\xac\x01\x65\x16\0\0\0\0\0\0\0\0\0\0\0\0\0\0\0\0\0\0\0\0\0\0\0\0\0\0\0\0\0\0\0\0\0\0\0"),
    (1 << 20, b"\0\x80\x80\x40\x65\x16\0\0\0\0\0\0\0\0\0\0\0\0\0\0\0\0\0\0\0\0\0\0\0\0\0\0\0\0\0\0\0\0\0\0"),
    (1 << 30, b"\0\x80\x80\x80\x80\x04\x65\x16\0\0\0\0\0\0\0\0\0\0\0\0\0\0\0\0\0\0\0\0\0\0\0\0\0\0\0\0\0\0\0\0"),
    ((1 << 30) + 1, b"\0\x81\x80\x80\x80\x04\x65\x16\0\0\0\0\0\0\0\0\0\0\0\0\0\0\0\0\0\0\0\0\0\0\0\0\0\0\0\0\0\0\0\0"),
    (u64::MAX, b"\0\xff\xff\xff\xff\xff\xff\xff\xff\xff\x01\x65\x16\0\0\0\0\0\0\0\0\0\0\0\0\0\0\0\0\0\0\0\0\0\0\0\0\0\0\0"),
];

// Whether the table of one entry with such a footer is refused, and no more than the footer was
// read.
fn is_not_read(alloc: Global, handles: &[u8]) -> Result<bool, StoreError> {
    let inner = changed(alloc, 128, 168, handles)?;
    let mut store = Watched { inner, most: 0 };
    let table = Table::<Bytewise>::open(alloc, &mut store, NAME);
    Ok(store.most == 48 && matches!(table, Err(DbError::Corrupt(_, _))))
}

#[test]
fn sizes_beyond_the_file_take_no_memory(rt: HostRuntime) -> Result<(), Fail> {
    for (size, handles) in SIZES {
        assert_eq!(rt; is_not_read(rt.alloc(), handles), Ok(true), "{size}");
    }
    Ok(())
}
