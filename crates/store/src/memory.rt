// A store in memory, which is faithful.
ghost use Rattle.std.specs.Prelude.{◌≡◌, ◌≢◌, ◌+◌, ◌++◌, ◌≤◌, ◌^◌, [], List, ℕ, Some, None, true, false, take, drop, length, IfOk, OnOk, OnErr, IfErr, IsSome, IfSome, if◌then◌else◌};
ghost use Rattle.std.specs.FinMap as map;
ghost use Rattle.std.specs.FinMap.{insert};
ghost use Rattle.store.specs.Calls.{Notes};
ghost use Rattle.store.specs.Files.{LockFile, Locks, Renames, made_if_missing, with_synced, renamed};
ghost use Rattle.store.specs.Counted.{with_failed};
ghost use Rattle.store.specs.MemFile.{front_of, synced_bytes};
ghost use Rattle.store.specs.MemStore.{files_of, synced_of};
ghost use Rattle.store.specs.Past.{Holds};

use crate::counters::{Counters, Failed};
use crate::mem_file::MemFile;
use crate::past::{Past, keep, make_room, room_for};
use crate::{Store, StoreError, Trouble};
use std::alloc::{AllocError, Global};
use std::collections::BTreeMap;
use std::mem;

const LOCK: &str = "LOCK";

/// Keeps files in memory. It is faithful, and a call that it refuses has changed nothing.
///
/// One bound on that: a call that must answer Device also raises the count of failures, and the
/// counter has 64 bits. From failure number 2^64 - 1 on nothing is claimed of what it returns.
///
/// Each call that changes something leaves what undoes it, so that the facts have what each call
/// found. No byte is copied for that. An append keeps the length that the file had. A file that was
/// removed or replaced is itself kept, so its bytes stay in memory as long as the store. Each call
/// takes a copy of its names. A `copy` begins anew.
///
/// Room for the undo is made before a call acts. If there is none the call answers Memory. Only
/// `sync` and `remove` never do so: they have failed, and have changed nothing.
#[derive(Drop)]
pub struct MemStore {
    alloc: Global,
    files: BTreeMap<String, MemFile>,
    past: Vec<Past>,
    locked: bool,
    counters: Counters,
    noted: Trouble,
}

impl MemStore {
    ghost use Rattle.store.specs.MemFacts.{mem_facts};
    ghost use Rattle.std.specs.FinMap.{empty};

    /// Returns an empty directory.
    pub fn new(alloc: Global) -> Self
        ensures { mem_facts result ≡ record { files = empty; synced = λ name. None; calls = []; faithful = true; locked = false; failures = 0; write_failures = 0; denials = 0 } }
    {
        MemStore {
            alloc,
            files: BTreeMap::new(alloc),
            past: Vec::new(alloc),
            locked: false,
            counters: Counters::new(),
            noted: Trouble::none(),
        }
    }

    /// Returns a directory with a copy of each file, synced as it is here, its lock free and its
    /// counts 0. Neither the calls made here come along nor the files that they removed.
    pub fn copy(&self) -> Result<MemStore, StoreError>
        ensures copied { IfOk result (λ copy. mem_facts copy ≡ record (mem_facts self.now) { calls = []; faithful = true; locked = false; failures = 0; write_failures = 0; denials = 0 }) }
        ensures memory { IfErr result (λ error. error ≡ StoreError.Memory) }
    {
        let files = self.files.clone()?;
        Ok(MemStore::of(self.alloc, files))
    }

    // A directory that begins with these files.
    fn of(alloc: Global, files: BTreeMap<String, MemFile>) -> MemStore
        ensures { mem_facts result ≡ record { files = files_of files.entries; synced = synced_of files.entries; calls = []; faithful = true; locked = false; failures = 0; write_failures = 0; denials = 0 } }
    {
        MemStore {
            alloc,
            files,
            past: Vec::new(alloc),
            locked: false,
            counters: Counters::new(),
            noted: Trouble::none(),
        }
    }

    // Answers Device for a call that failed, and counts it. If no further failure can be counted
    // it answers Ok.
    pub(crate) fn fail(&mut self, call: Failed) -> Result<(), StoreError>
        ensures files { self.new ≡ record self.old { counters = self.new.counters } }
        ensures denials { self.new.counters.denials ≡ self.old.counters.denials }
        ensures counted { OnErr result (self.new.counters.failures ≡ self.old.counters.failures + 1) }
        ensures writes { OnErr result (self.new.counters.write_failures ≡ with_failed call self.old.counters.write_failures) }
        ensures unwritten { OnOk result (self.new.counters.write_failures ≡ self.old.counters.write_failures) }
        ensures device { IfErr result (λ error. error ≡ StoreError.Device) }
        ensures full { OnOk result ((self.new.counters.failures ≡ self.old.counters.failures) × (2 ^ 64 ≤ self.new.counters.failures + 1)) }
    {
        self.counters.fail(call)
    }

    // Denies the lock and counts it, or answers Memory if no further denial can be counted.
    pub(crate) fn deny(&mut self) -> Result<bool, StoreError>
        ensures files { self.new ≡ record self.old { counters = self.new.counters } }
        ensures failures { self.new.counters.failures ≡ self.old.counters.failures }
        ensures writes { self.new.counters.write_failures ≡ self.old.counters.write_failures }
        ensures counted { IfOk result (λ taken. (taken ≡ false) × (self.new.counters.denials ≡ self.old.counters.denials + 1)) }
        ensures memory { IfErr result (λ error. (error ≡ StoreError.Memory) × (self.new.counters.denials ≡ self.old.counters.denials)) }
    {
        self.counters.deny()
    }

    // Makes the lock's file if it is missing, and leaves the lock as it is.
    pub(crate) fn make_lock_file(&mut self) -> Result<(), StoreError>
        ensures rest { self.new ≡ record self.old { files = self.new.files; past = self.new.past } }
        ensures ok { OnOk result (Locks (mem_facts self.old).files (mem_facts self.new).files) }
        ensures err { OnErr result ((mem_facts self.new).files ≡ (mem_facts self.old).files) }
        ensures synced { (mem_facts self.new).synced ≡ (mem_facts self.old).synced }
        ensures calls { Notes (mem_facts self.old) (mem_facts self.new) result LockFile }
        ensures memory { IfErr result (λ error. error ≡ StoreError.Memory) }
    {
        make_room(&mut self.past)?;
        let made = make_if_missing(&mut self.files, self.alloc, LOCK)?;
        // With the file there no file has changed, and there is nothing to undo.
        if !made {
            return Ok(());
        }
        keep(&mut self.past, Past::Locked);
        Ok(())
    }
}

impl Store for MemStore {
    ghost use Rattle.store.specs.MemFacts.{mem_facts};

    ghost facts = { mem_facts };

    ghost told = { λ store. store.noted };

    fn failures(&self) -> u64 {
        self.counters.failures()
    }

    fn write_failures(&self) -> u64 {
        self.counters.write_failures()
    }

    fn list(&mut self, alloc: Global) -> Result<Vec<String>, StoreError> {
        let mut names = Vec::new(alloc);
        for name in self.files.keys() {
            names.push(String::from_str(alloc, name.as_str())?)?;
        }
        Ok(names)
    }

    fn len(&mut self, name: &str) -> Result<u64, StoreError> {
        match self.files.get(name) {
            None => Err(StoreError::Missing),
            Some(file) => Ok(file.bytes().len() as u64),
        }
    }

    fn read_at(
        &mut self,
        alloc: Global,
        name: &str,
        offset: u64,
        count: usize,
    ) -> Result<Vec<u8>, StoreError> {
        match self.files.get(name) {
            None => Err(StoreError::Missing),
            Some(file) => Ok(part(Vec::new(alloc), file.bytes(), offset as usize, count)?),
        }
    }

    fn read_into(
        &mut self,
        _alloc: Global,
        name: &str,
        offset: u64,
        count: usize,
        room: Vec<u8>,
    ) -> Result<Vec<u8>, StoreError> {
        match self.files.get(name) {
            None => Err(StoreError::Missing),
            Some(file) => Ok(part(room, file.bytes(), offset as usize, count)?),
        }
    }

    fn create(&mut self, name: &str) -> Result<(), StoreError> {
        let known = room_for(&mut self.past, self.alloc, name)?;
        let held = put(&mut self.files, self.alloc, name, MemFile::new(self.alloc))?;
        keep(&mut self.past, Past::Made(known, held));
        Ok(())
    }

    fn append(&mut self, name: &str, bytes: &[u8]) -> Result<(), StoreError> {
        if !self.files.contains_key(name) {
            return self.fail(Failed::Write);
        }
        let known = room_for(&mut self.past, self.alloc, name)?;
        let length = add_bytes(&mut self.files, name, bytes)?;
        keep(&mut self.past, Past::Grown(known, length));
        Ok(())
    }

    fn sync(&mut self, name: &str) -> Result<(), StoreError> {
        if !self.files.contains_key(name) {
            return self.fail(Failed::Write);
        }
        let Ok(known) = room_for(&mut self.past, self.alloc, name) else {
            return self.fail(Failed::Write);
        };
        let count = sync_file(&mut self.files, name);
        keep(&mut self.past, Past::Kept(known, count));
        Ok(())
    }

    fn rename(&mut self, from: &str, to: &str) -> Result<(), StoreError> {
        if !self.files.contains_key(from) {
            return self.fail(Failed::Write);
        }
        if from == to {
            return Ok(());
        }
        let known = room_for(&mut self.past, self.alloc, from)?;
        let known_to = String::from_str(self.alloc, to)?;
        // A file to replace comes first: after it nothing more can run out of memory.
        let made = make_if_missing(&mut self.files, self.alloc, to)?;
        let held = move_file(&mut self.files, from, to);
        let held = unless(made, held);
        keep(&mut self.past, Past::Moved(known, known_to, held));
        Ok(())
    }

    fn remove(&mut self, name: &str) -> Result<(), StoreError> {
        let Ok(known) = room_for(&mut self.past, self.alloc, name) else {
            return self.fail(Failed::Other);
        };
        let Some(file) = self.files.remove(name) else {
            return self.fail(Failed::Other);
        };
        keep(&mut self.past, Past::Taken(known, file));
        Ok(())
    }

    fn lock(&mut self) -> Result<bool, StoreError> {
        if self.locked {
            return self.deny();
        }
        self.make_lock_file()?;
        self.locked = true;
        Ok(true)
    }

    fn unlock(&mut self) -> Result<(), StoreError> {
        self.locked = false;
        Ok(())
    }

    fn note(&mut self, trouble: Trouble) {
        self.noted = trouble.behind(self.noted);
    }

    fn noted(&self) -> Trouble {
        self.noted
    }

    fn synced_law(&self) {}
}

// Puts a file under a name, and answers the one that had it.
fn put(
    files: &mut BTreeMap<String, MemFile>,
    alloc: Global,
    name: &str,
    file: MemFile,
) -> Result<Option<MemFile>, AllocError>
    ensures ok { OnOk result (files_of files.new.entries ≡ insert (files_of files.old.entries) name.now file.bytes) }
    ensures synced { OnOk result (synced_of files.new.entries ≡ with_synced (synced_of files.old.entries) name.now (synced_bytes file)) }
    ensures held { IfOk result (Holds (record { files = files_of files.old.entries; synced = synced_of files.old.entries }) name.now) }
    ensures err { OnErr result (files.new.entries ≡ files.old.entries) }
{
    let name = String::from_str(alloc, name)?;
    let held = files.insert(name, file)?;
    Ok(held)
}

// Makes an empty file if there is none, and answers whether it did.
fn make_if_missing(
    files: &mut BTreeMap<String, MemFile>,
    alloc: Global,
    name: &str,
) -> Result<bool, AllocError>
    ensures ok { OnOk result (files_of files.new.entries ≡ made_if_missing (files_of files.old.entries) name.now) }
    ensures synced { OnOk result (synced_of files.new.entries ≡ synced_of files.old.entries) }
    ensures made { IfOk result (λ made. map.contains_key (files_of files.old.entries) name.now ≡ (if made then false else true)) }
    ensures err { OnErr result (files.new.entries ≡ files.old.entries) }
{
    if files.contains_key(name) {
        return Ok(false);
    }
    put(files, alloc, name, MemFile::new(alloc))?;
    Ok(true)
}

// Moves a file to another name, and answers the file that this replaced.
fn move_file(files: &mut BTreeMap<String, MemFile>, from: &str, to: &str) -> Option<MemFile>
    ensures moved { (bytes : List ℕ) → map.get (files_of files.old.entries) from.now ≡ Some bytes → IsSome (map.get (files_of files.old.entries) to.now)
        → from.now ≢ to.now → files_of files.new.entries ≡ insert (map.remove (files_of files.old.entries) from.now) to.now bytes }
    ensures synced { IsSome (map.get (files_of files.old.entries) from.now) → IsSome (map.get (files_of files.old.entries) to.now)
        → from.now ≢ to.now → synced_of files.new.entries ≡ renamed (synced_of files.old.entries) from.now to.now }
    ensures held { IsSome (map.get (files_of files.old.entries) from.now) → from.now ≢ to.now
        → Holds (record { files = files_of files.old.entries; synced = synced_of files.old.entries }) to.now result }
{
    let Some(file) = files.remove(from) else {
        return None;
    };
    if let Some(place) = files.get_mut(to) {
        return Some(mem::replace(place, file));
    }
    None
}

// The file that was replaced, unless it was made for that alone.
fn unless(made: bool, held: Option<MemFile>) -> Option<MemFile>
    ensures { result ≡ (if made then None else held) }
{
    if made {
        return None;
    }
    held
}

// Adds bytes to a file that is there, and answers how many it had.
fn add_bytes(
    files: &mut BTreeMap<String, MemFile>,
    name: &str,
    bytes: &[u8],
) -> Result<usize, AllocError>
    ensures ok { IfOk result (λ count. (before : List ℕ) → map.get (files_of files.old.entries) name.now ≡ Some before
        → (count ≡ length before) × (files_of files.new.entries ≡ insert (files_of files.old.entries) name.now (before ++ bytes.now))) }
    ensures synced { synced_of files.new.entries ≡ synced_of files.old.entries }
    ensures err { OnErr result (files_of files.new.entries ≡ files_of files.old.entries) }
{
    match files.get_mut(name) {
        None => Ok(0),
        Some(file) => {
            let count = file.bytes().len();
            file.append(bytes)?;
            Ok(count)
        }
    }
}

// Takes what a file has now for synced, and answers how many of its bytes were.
fn sync_file(files: &mut BTreeMap<String, MemFile>, name: &str) -> Option<usize>
    ensures files { files_of files.new.entries ≡ files_of files.old.entries }
    ensures synced { synced_of files.new.entries ≡ with_synced (synced_of files.old.entries) name.now (map.get (files_of files.old.entries) name.now) }
    ensures count { (bytes : List ℕ) → map.get (files_of files.old.entries) name.now ≡ Some bytes → synced_of files.old.entries name.now ≡ front_of bytes result }
{
    match files.get_mut(name) {
        None => None,
        Some(file) => {
            let count = file.synced_length();
            file.sync();
            count
        }
    }
}

// The bytes from an offset on, `count` of them or up to the end. They replace those of `room`.
fn part(room: Vec<u8>, file: &[u8], offset: usize, count: usize) -> Result<Vec<u8>, AllocError>
    ensures { IfOk result (λ read. read.items ≡ take count (drop offset file.now)) }
{
    let start = offset.min(file.len());
    let rest = &file[start..];
    let len = count.min(rest.len());
    let mut read = room;
    read.clear();
    read.extend_from_slice(&rest[..len])?;
    Ok(read)
}
