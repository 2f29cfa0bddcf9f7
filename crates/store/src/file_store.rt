// A store over a folder of the system.
ghost use Rattle.std.specs.Prelude.{◌≡◌, ◌≢◌, ◌<◌, ◌≤◌, ◌+◌, IfOk, OnOk, IfErr, None, [], true, false};
ghost use Rattle.std.specs.FinMap.{empty};
ghost use Rattle.store.specs.Counted.{with_failed};
ghost use Rattle.store.specs.FileFacts.{counted_facts};
ghost use Rattle.store.specs.Calls.{Counts};

use crate::counters::{Counters, Failed};
use crate::doubts::{Doubts, sync_file};
use crate::failure::{Failure, Unlisted};
use crate::folder::Folder;
use crate::{ShortName, Store, StoreError, Trouble, Why};
use std::alloc::Global;

/// Keeps its files in a folder of the system. It promises what every store promises, and nothing of
/// the bytes: the device may return what was never written.
///
/// **Files kept open.** A file that a call names stays open, so a later call on it is one call of
/// the system. A read across its end is two. So is a read of more than 1 MiB, which asks for the
/// length before it takes memory. At most 800 files stay open, and those used longest ago are
/// closed for the next. If the system has no room for one more file, all are closed, the call is
/// tried once more, and half as many stay open from then on.
///
/// **Other processes** may change the folder while this store doesn't hold the lock. So no file
/// stays open past `unlock`, past a `lock` that takes the lock, or past a `list` without the lock.
///
/// **Names.** Only plain files count, and links to one under a database's names. `list` neither
/// follows a link with another name nor lists it. It answers Device if a name isn't UTF-8, or if
/// what has a database's name can't be looked at, as a link to itself. If a folder, a pipe or a
/// link to nothing has a numbered name, `list` has the temporary file of that number, so that no
/// file is given this number. `remove` of that one answers Ok.
///
/// **Links.** A table is read through a link. `create`, `append` and `lock` follow none: they
/// answer Device, so nothing outside the folder is made, extended or emptied. `rename` and
/// `remove` act on the link itself.
///
/// **Syncs.** `sync` is `fdatasync` of that file. The first one after `create`, `rename`, `remove`
/// or a new lock makes the folder's entries durable before that. If a sync fails, the system may
/// have dropped what it couldn't write, and answer Ok to the next one. So the next sync of that
/// file, by this store or by another process, writes it anew (`sync_file` in doubts.rt).
///
/// **The lock** is one of `fcntl` on `LOCK`, as LevelDB's own (`LockOrUnlock` in
/// util/env_posix.cc), so the two keep each other out. A store that is dropped releases it. It is
/// taken by `sqlite_std_file`, the one crate of the toolchain that takes such a lock and may be
/// used. That crate makes an empty `LOCK-wal` beside it, which is removed again. A file of that
/// name that has bytes stays as it is. If a folder or a link has it, the lock can't be taken.
///
/// **Errors.** An error of the system is Memory only if it is one and nothing was changed. Once
/// 2^64 - 1 failures were counted, Device would promise one more. Such a failure is answered by
/// Memory, or by Ok if Memory may not be the answer, as for `sync`.
#[derive(Drop)]
pub struct FileStore {
    folder: Folder,
    doubts: Doubts,
    locked: bool,
    counters: Counters,
    noted: Trouble,
}

impl FileStore {
    /// Opens a folder that exists. Missing if nothing is at the path. Device if something else
    /// than a folder is there, or one that this process may not open.
    pub fn open(rt: &HostRuntime, folder: &str) -> Result<FileStore, StoreError>
        ensures { IfOk result (λ store. counted_facts store.locked store.counters ≡ record { files = empty; synced = λ name. None; calls = []; faithful = false; locked = false; failures = 0; write_failures = 0; denials = 0 }) }
    {
        let folder = match Folder::open(rt, folder) {
            Ok(folder) => folder,
            Err(failure) => return Err(failure.error),
        };
        Ok(FileStore {
            folder,
            doubts: Doubts::none(rt.alloc()),
            locked: false,
            counters: Counters::new(),
            noted: Trouble::none(),
        })
    }
}

impl Store for FileStore {
    ghost facts = { λ store. counted_facts store.locked store.counters };

    ghost told = { λ store. store.noted };

    fn failures(&self) -> u64 {
        self.counters.failures()
    }

    fn write_failures(&self) -> u64 {
        self.counters.write_failures()
    }

    fn list(&mut self, alloc: Global) -> Result<Vec<String>, StoreError> {
        match self.folder.list(alloc) {
            Ok(names) => match self.doubts.see(&self.folder, names.as_slice()) {
                Ok(()) => Ok(names),
                Err(_) => Err(StoreError::Memory),
            },
            Err(Unlisted { failure, name }) => {
                let error = changing(failure.error);
                self.keep_at(why_unlisted(failure), name, error, failure);
                Err(refused(&mut self.counters, Failed::Other, error))
            }
        }
    }

    fn len(&mut self, name: &str) -> Result<u64, StoreError> {
        match self.folder.len(name) {
            Ok(len) => Ok(len),
            Err(failure) => {
                self.keep(Why::Length, name, failure.error, failure);
                Err(refused(&mut self.counters, Failed::Other, failure.error))
            }
        }
    }

    fn read_at(
        &mut self,
        alloc: Global,
        name: &str,
        offset: u64,
        count: usize,
    ) -> Result<Vec<u8>, StoreError> {
        self.read_into(alloc, name, offset, count, Vec::new(alloc))
    }

    fn read_into(
        &mut self,
        alloc: Global,
        name: &str,
        offset: u64,
        count: usize,
        room: Vec<u8>,
    ) -> Result<Vec<u8>, StoreError> {
        match self.folder.read_into(alloc, name, offset, count, room) {
            Ok(bytes) => Ok(bytes),
            Err(failure) => {
                self.keep(Why::Read, name, failure.error, failure);
                Err(refused(&mut self.counters, Failed::Other, failure.error))
            }
        }
    }

    fn create(&mut self, name: &str) -> Result<(), StoreError> {
        match self.folder.create(name) {
            Ok(()) => Ok(()),
            Err(failure) => {
                let error = changing(failure.error);
                self.keep(Why::Create, name, error, failure);
                Err(refused(&mut self.counters, Failed::Write, error))
            }
        }
    }

    fn append(&mut self, name: &str, bytes: &[u8]) -> Result<(), StoreError> {
        match self.folder.append(name, bytes) {
            Ok(()) => Ok(()),
            Err(failure) => {
                let error = changing(failure.error);
                self.keep(Why::Append, name, error, failure);
                Err(refused(&mut self.counters, Failed::Write, error))
            }
        }
    }

    fn sync(&mut self, name: &str) -> Result<(), StoreError> {
        match sync_file(&mut self.folder, &mut self.doubts, name) {
            Ok(()) => Ok(()),
            Err(failure) => {
                self.keep(Why::Sync, name, StoreError::Device, failure);
                self.counters.fail(Failed::Write)
            }
        }
    }

    fn rename(&mut self, from: &str, to: &str) -> Result<(), StoreError> {
        match self.folder.rename(from, to) {
            Ok(()) => Ok(()),
            Err(failure) => {
                let error = changing(failure.error);
                self.keep(Why::Rename, from, error, failure);
                Err(refused(&mut self.counters, Failed::Write, error))
            }
        }
    }

    fn remove(&mut self, name: &str) -> Result<(), StoreError> {
        match self.folder.remove(name) {
            Ok(()) => Ok(()),
            Err(failure) => {
                self.keep(Why::Remove, name, StoreError::Device, failure);
                self.counters.fail(Failed::Other)
            }
        }
    }

    fn lock(&mut self) -> Result<bool, StoreError> {
        match self.folder.lock() {
            Ok(true) => {
                self.locked = true;
                Ok(true)
            }
            Ok(false) => self.counters.deny(),
            Err(failure) => {
                let error = changing(failure.error);
                self.keep(Why::Lock, "LOCK", error, failure);
                Err(refused(&mut self.counters, Failed::Other, error))
            }
        }
    }

    fn unlock(&mut self) -> Result<(), StoreError> {
        self.folder.unlock();
        self.locked = false;
        Ok(())
    }

    fn note(&mut self, trouble: Trouble) {
        self.noted = trouble.behind(self.noted);
    }

    fn noted(&self) -> Trouble {
        self.noted
    }

    fn synced_law(&self) {}
}

impl FileStore {
    // Notes a failure of the device, with what the system told.
    fn keep(&mut self, why: Why, name: &str, error: StoreError, failure: Failure)
        ensures locked { self.new.locked ≡ self.old.locked }
        ensures counters { self.new.counters ≡ self.old.counters }
    {
        self.keep_at(why, ShortName::of(name), error, failure);
    }

    // The same, by the first bytes of the name.
    fn keep_at(&mut self, why: Why, name: ShortName, error: StoreError, failure: Failure)
        ensures locked { self.new.locked ≡ self.old.locked }
        ensures counters { self.new.counters ≡ self.old.counters }
    {
        if error == StoreError::Device {
            let why = failure.why.unwrap_or(why);
            let code = failure.code;
            let trouble = Trouble {
                code,
                name,
                ..Trouble::of(why, "")
            };
            self.noted = trouble.behind(self.noted);
        }
    }
}

// Why a folder wasn't listed: if the system gave no number, one of its names isn't UTF-8.
fn why_unlisted(failure: Failure) -> Why {
    match failure.code {
        Some(_) => Why::List,
        None => Why::NotUtf8,
    }
}

// The error of a call that isn't to answer Missing.
fn changing(error: StoreError) -> StoreError
    ensures missing { result ≢ StoreError.Missing }
    ensures memory { result ≡ StoreError.Memory → error ≡ StoreError.Memory }
{
    match error {
        StoreError::Missing => StoreError::Device,
        other => other,
    }
}

// Counts an error that is Device. If no further failure can be counted, the answer is Memory
// instead.
fn refused(counters: &mut Counters, call: Failed, error: StoreError) -> StoreError
    ensures denials { counters.new.denials ≡ counters.old.denials }
    ensures device { result ≡ StoreError.Device → counters.new.failures ≡ counters.old.failures + 1 }
    ensures others { result ≢ StoreError.Device → counters.new.failures ≡ counters.old.failures }
    ensures writes { result ≡ StoreError.Device → counters.new.write_failures ≡ with_failed call counters.old.write_failures }
    ensures unwritten { result ≢ StoreError.Device → counters.new.write_failures ≡ counters.old.write_failures }
    ensures missing { error ≢ StoreError.Missing → result ≢ StoreError.Missing }
{
    match error {
        StoreError::Device => match counters.fail(call) {
            Ok(()) => StoreError::Memory,
            Err(error) => error,
        },
        other => other,
    }
}
