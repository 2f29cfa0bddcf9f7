// How far a task over a whole directory is, said to a person who waits for it.

use std::alloc::Global;
use std::io::Write;
use std::time::Instant;
use store::{Store, StoreError, Trouble};

/// A folder, and whether somebody watches what is done with it.
#[derive(Clone, Copy)]
pub struct Target<'a> {
    pub folder: &'a str,
    pub watched: bool,
}

/// The files of a store. With a meter, standard error says how much was read and written: after a
/// second, and then each time that as much time again has passed. Each call is the store's own.
#[derive(Drop)]
pub struct Watched<S> {
    inner: S,
    meter: Option<Meter>,
}

/// How much was read and written, and since when.
#[derive(Drop)]
pub struct Meter {
    rt: HostRuntime,
    started: Instant,
    // the second after which the next line is due
    due: u64,
    read: u64,
    written: u64,
    // of how many bytes, if the task is to read these
    total: Option<u64>,
}

const MEGABYTE: u64 = 1_000_000;

impl Meter {
    /// Returns one that has read nothing yet, of so many bytes if they are to be read; `None` if
    /// there is no clock.
    pub fn new(rt: &HostRuntime, total: Option<u64>) -> Option<Meter> {
        let Ok(started) = Instant::now(rt) else {
            return None;
        };
        let Ok(rt) = rt.clone() else {
            return None;
        };
        Some(Meter {
            rt,
            started,
            due: 1,
            read: 0,
            written: 0,
            total,
        })
    }

    fn count_read(&mut self, bytes: u64) {
        self.read = self.read.saturating_add(bytes);
        self.say_if_due();
    }

    fn count_written(&mut self, bytes: u64) {
        self.written = self.written.saturating_add(bytes);
        self.say_if_due();
    }

    // Says how far that is, if a line is due.
    fn say_if_due(&mut self) {
        let Ok(passed) = self.started.elapsed(&self.rt) else {
            return;
        };
        let seconds = passed.as_secs();
        if seconds < self.due {
            return;
        }
        self.due = seconds.saturating_add(seconds);
        self.say(seconds);
    }

    // (a file that is read twice counts twice, and never as more than there is)
    fn say(&self, seconds: u64) {
        let read = self.read / MEGABYTE;
        let written = self.written / MEGABYTE;
        let mut said = self.rt.stderr();
        let _ = match self.total {
            Some(total) => {
                let total = total / MEGABYTE;
                let read = read.min(total);
                writeln!(said, "ldbtool: {read} of {total} MB read after {seconds} s")
            }
            None => writeln!(
                said,
                "ldbtool: {read} MB read and {written} MB written after {seconds} s"
            ),
        };
    }
}

impl<S: Store> Watched<S> {
    /// Returns these files, with a meter or without.
    pub fn over(inner: S, meter: Option<Meter>) -> Self {
        Watched { inner, meter }
    }
}

/// Returns how many bytes the files of a store have together: 0 if they can't be listed.
pub fn bytes_of<S: Store>(alloc: Global, store: &mut S) -> u64 {
    let Ok(names) = store.list(alloc) else {
        return 0;
    };
    let mut bytes: u64 = 0;
    for name in &names {
        if let Ok(length) = store.len(name.as_str()) {
            bytes = bytes.saturating_add(length);
        }
    }
    bytes
}

impl<S: Store> Store for Watched<S> {
    ghost facts = { λ watched. S.facts watched.inner };

    ghost told = { λ watched. S.told watched.inner };

    fn failures(&self) -> u64 {
        self.inner.failures()
    }

    fn write_failures(&self) -> u64 {
        self.inner.write_failures()
    }

    fn list(&mut self, alloc: Global) -> Result<Vec<String>, StoreError> {
        self.inner.list(alloc)
    }

    fn len(&mut self, name: &str) -> Result<u64, StoreError> {
        self.inner.len(name)
    }

    fn read_at(
        &mut self,
        alloc: Global,
        name: &str,
        offset: u64,
        count: usize,
    ) -> Result<Vec<u8>, StoreError> {
        self.read_into(alloc, name, offset, count, Vec::new(alloc))
    }

    fn read_into(
        &mut self,
        alloc: Global,
        name: &str,
        offset: u64,
        count: usize,
        room: Vec<u8>,
    ) -> Result<Vec<u8>, StoreError> {
        let read = self.inner.read_into(alloc, name, offset, count, room)?;
        if let Some(meter) = &mut self.meter {
            meter.count_read(read.len() as u64);
        }
        Ok(read)
    }

    fn create(&mut self, name: &str) -> Result<(), StoreError> {
        self.inner.create(name)
    }

    fn append(&mut self, name: &str, bytes: &[u8]) -> Result<(), StoreError> {
        self.inner.append(name, bytes)?;
        if let Some(meter) = &mut self.meter {
            meter.count_written(bytes.len() as u64);
        }
        Ok(())
    }

    fn sync(&mut self, name: &str) -> Result<(), StoreError> {
        self.inner.sync(name)
    }

    fn rename(&mut self, from: &str, to: &str) -> Result<(), StoreError> {
        self.inner.rename(from, to)
    }

    fn remove(&mut self, name: &str) -> Result<(), StoreError> {
        self.inner.remove(name)
    }

    fn lock(&mut self) -> Result<bool, StoreError> {
        self.inner.lock()
    }

    fn unlock(&mut self) -> Result<(), StoreError> {
        self.inner.unlock()
    }

    fn note(&mut self, trouble: Trouble) {
        self.inner.note(trouble);
    }

    fn noted(&self) -> Trouble {
        self.inner.noted()
    }

    fn synced_law(&self) {
        self.inner.synced_law();
    }
}
