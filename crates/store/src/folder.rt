// A folder of the system, with one call of the system for each call of a store, but for the lock.
//
// Nothing is counted in this file: a failure says what the system answered, and `file_store`
// decides what that is to a store.

ghost use Rattle.std.specs.Prelude.{◌≤◌, length, IfOk};

mod owner;

use crate::failure::{Failure, Unlisted, is_full};
use crate::identity::Identity;
use crate::names::{CURRENT, LOCK, is_of_database, number_in, temporary};
use crate::{StoreError, Why};
use sqlite_std_file::{OpenError, Unknown};
use std::alloc::{AllocError, Global};
use std::collections::{BTreeMap, BTreeSet};
use std::fs::{self, DirEntry, File, OpenFile, OpenOptions, ReadDir};
use std::io::{self, ErrorKind, Write};
use std::os::fd::AsRawFd;
use std::os::unix::fs::FileExt;

// What is made beside the lock's file as that is locked, and removed again.
const LOCK_LOG: &str = "LOCK-wal";

// How many files are kept open. LevelDB's own limit is 1,000, and a process mostly has 1,024
// descriptors. If it has fewer, the system says so.
const OPEN_FILES: usize = 800;

// A read of more bytes asks for the file's length first, so that it takes no more memory than its
// answer.
const LARGE_READ: usize = 1 << 20;

// So does a read from this offset on: the system takes no range that ends past byte 2^63.
const FAR_OFFSET: u64 = 1 << 62;

// A file that is kept open: for reads alone, or for appends too.
#[derive(Drop)]
struct KeptFile {
    file: File,
    appends: bool,
    // when it was used last, as the number of uses of kept files up to then
    used: u64,
}

// A folder, and the files of it that are open.
#[derive(Drop)]
pub struct Folder {
    rt: HostRuntime,
    // ends in a slash
    path: String,
    folder: File,
    kept: BTreeMap<String, KeptFile>,
    // how many of them there may be
    most: usize,
    // how often one was used
    uses: u64,
    // the names that the last list had for something else than a file
    taken: BTreeSet<String>,
    // the files that the last list saw, if it was one without the lock
    seen: BTreeMap<String, Identity>,
    lock: Option<sqlite_std_file::File>,
    // whether a name was made, moved or removed since the folder was last synced
    names_changed: bool,
}

impl Folder {
    /// Opens the folder at a path. Missing if nothing is there, Device if it is no folder that can
    /// be opened.
    pub fn open(rt: &HostRuntime, path: &str) -> Result<Folder, Failure> {
        if !fs::metadata(rt, path)?.is_dir() {
            return Err(Failure::untold(StoreError::Device));
        }
        let folder = fs::open(rt, path)?;
        let mut with_slash = String::from_str(rt.alloc(), path)?;
        with_slash.push('/')?;
        Ok(Folder {
            rt: rt.clone()?,
            path: with_slash,
            folder,
            kept: BTreeMap::new(rt.alloc()),
            most: OPEN_FILES,
            uses: 0,
            taken: BTreeSet::new(rt.alloc()),
            seen: BTreeMap::new(rt.alloc()),
            lock: None,
            names_changed: false,
        })
    }

    /// Lists the plain files, and under a database's names the links to one. If something else has
    /// such a name, as a folder or a link to nothing, the temporary file of its number is listed
    /// instead: so no file is given this number. Removing that one does nothing.
    ///
    /// Device if a name isn't UTF-8, or if what has a database's name can't be looked at. Without
    /// the lock it forgets first what was known of the folder. From then on a file of a database
    /// is read only if it is the one that the list saw. Costs a call of the system for each name.
    pub fn list(&mut self, alloc: Global) -> Result<Vec<String>, Unlisted> {
        // without the lock others may have changed everything
        if self.lock.is_none() {
            self.begin()?;
        }
        self.taken.clear();
        let mut names = Vec::new(alloc);
        for entry in self.entries()? {
            let entry = entry?;
            let name = entry.file_name();
            if self.is_file(&entry)? {
                names.push(String::from_str(alloc, name)?)?;
            } else if let Some(digits) = number_in(name) {
                names.push(temporary(alloc, digits)?)?;
                let _ = self.taken.insert(temporary(self.rt.alloc(), digits)?)?;
            }
        }
        Ok(names)
    }

    /// Returns how many bytes a file has. Missing if there is none.
    pub fn len(&mut self, name: &str) -> Result<u64, Failure> {
        Ok(self.kept_file(name, false)?.metadata()?.len())
    }

    /// Reads so many bytes from an offset on, or up to the end, into the memory of `room` if they
    /// fit. Missing if there is no such file.
    pub fn read_into(
        &mut self,
        alloc: Global,
        name: &str,
        offset: u64,
        count: usize,
        room: Vec<u8>,
    ) -> Result<Vec<u8>, Failure> {
        // mostly the file is open: its name is looked up once
        let uses = self.count_use();
        if let Some(kept) = self.kept.get_mut(name) {
            kept.used = uses;
            return read_from(alloc, &kept.file, offset, count, room);
        }
        let file = self.kept_file(name, false)?;
        read_from(alloc, file, offset, count, room)
    }

    /// Makes an empty file, or empties the one that is there. Fails if a link has the name. A new
    /// file costs one call of the system.
    pub fn create(&mut self, name: &str) -> Result<(), Failure> {
        let path = self.path_of(name)?;
        self.forget(name);
        let file = self.make(path.as_str())?;
        // The file is made: if no memory is left to keep it open, the next call opens it again.
        let _ = self.keep(name, file, true);
        Ok(())
    }

    /// Adds bytes at the end. Once it writes, a failure is Device, since it may have written some
    /// of them. Fails if a link has the name.
    pub fn append(&mut self, name: &str, bytes: &[u8]) -> Result<(), Failure> {
        // Counts no use, which is faster: a log is closed only if hundreds of files are opened
        // after it, and is then opened again.
        if let Some(kept) = self.kept.get(name) {
            if kept.appends {
                return append_to(&kept.file, bytes);
            }
        }
        let file = self.kept_file(name, true)?;
        append_to(file, bytes)
    }

    /// Syncs a file, and before it the folder if its names changed. LevelDB does so before it
    /// syncs its MANIFEST (`SyncDirIfManifest` in util/env_posix.cc): what a file says of others
    /// is on disk only after their names.
    pub fn sync(&mut self, name: &str) -> Result<(), Failure> {
        if self.names_changed {
            self.folder.sync_all()?;
            self.names_changed = false;
        }
        self.kept_file(name, false)?.sync_data()?;
        Ok(())
    }

    /// Gives a file another name, and replaces a file or link that has it. Device if it wasn't
    /// done, or may not have been.
    pub fn rename(&mut self, from: &str, to: &str) -> Result<(), Failure> {
        let from_path = self.path_of(from)?;
        let to_path = self.path_of(to)?;
        self.forget(from);
        self.forget(to);
        fs::rename(&self.rt, from_path.as_str(), to_path.as_str()).map_err(Failure::of_device)
    }

    /// Removes a file, or a link. Device if it wasn't done, or may not have been.
    pub fn remove(&mut self, name: &str) -> Result<(), Failure> {
        let path = self.path_of(name)?;
        self.forget(name);
        match fs::remove_file(&self.rt, path.as_str()) {
            Ok(()) => Ok(()),
            Err(error) if error.kind() == ErrorKind::NotFound && self.taken.contains(name) => {
                Ok(())
            }
            Err(error) => Err(Failure::of_device(error)),
        }
    }

    /// Takes the lock, and says whether this process holds it now and didn't before. If so,
    /// nothing is known of the folder any more: whoever held the lock before may have changed
    /// everything. Fails if a link has the name of the lock's file.
    pub fn lock(&mut self) -> Result<bool, Failure> {
        if self.lock.is_some() {
            return Ok(false);
        }
        // first, so that the process has room for what is opened next
        self.kept.clear();
        let path = self.path_of(LOCK)?;
        let log = self.path_of(LOCK_LOG)?;
        self.see_no_link(path.as_str())?;
        // the kit makes an empty file of this name: one that has bytes is somebody else's
        let is_of_others = match fs::metadata(&self.rt, log.as_str()) {
            Ok(found) => found.len() > 0,
            Err(_) => false,
        };
        let files = match sqlite_std_file::open(&self.rt, path.as_str(), Unknown) {
            Ok(files) => files,
            Err(OpenError::Busy) => return Ok(false),
            Err(OpenError::Io(error)) => return Err(Failure::of_device(error)),
            Err(_) => return Err(Failure::untold(StoreError::Device)),
        };
        if !is_of_others {
            fs::remove_file(&self.rt, log.as_str()).map_err(Failure::of_device)?;
        }
        self.begin().map_err(Failure::of_device)?;
        self.lock = Some(files.db);
        Ok(true)
    }

    /// Releases the lock: the system does so as its file is closed. No other file stays open
    /// either.
    pub fn unlock(&mut self) {
        self.kept.clear();
        self.lock = None;
    }

    // Forgets what was known of the folder. No file stays open, the folder is opened anew, and its
    // names count as changed since it was synced.
    fn begin(&mut self) -> io::Result<()> {
        self.kept.clear();
        self.taken.clear();
        self.seen.clear();
        self.most = OPEN_FILES;
        self.names_changed = true;
        self.folder = fs::open(&self.rt, self.path.as_str())?;
        Ok(())
    }

    // Forgets what was known of the file of a name, which is about to change.
    fn forget(&mut self, name: &str) {
        self.kept.remove(name);
        self.seen.remove(name);
        self.names_changed = true;
    }

    // The path of a name, or Missing if no file of the folder can have it.
    fn path_of(&self, name: &str) -> Result<String, Failure> {
        let is_folder = name.is_empty() || name == "." || name == "..";
        if is_folder || name.contains('/') || name.contains('\0') {
            return Err(Failure::untold(StoreError::Missing));
        }
        let mut path = String::from_str(self.rt.alloc(), self.path.as_str())?;
        path.push_str(name)?;
        Ok(path)
    }

    // What is in the folder, of any kind.
    fn entries(&mut self) -> io::Result<ReadDir<HostRuntime, Global>> {
        match fs::read_dir(&self.rt, self.path.as_str()) {
            Ok(entries) => Ok(entries),
            Err(error) if self.makes_room(&error) => fs::read_dir(&self.rt, self.path.as_str()),
            Err(error) => Err(error),
        }
    }

    // Whether a plain file has this name. Under a database's name a link to one counts too, and
    // what can't be looked at is told by its name. A link with any other name isn't followed.
    fn is_file(&mut self, entry: &DirEntry<HostRuntime, Global>) -> Result<bool, Unlisted> {
        let name = entry.file_name();
        // a file that is open was seen to be plain
        if self.kept.contains_key(name) {
            return Ok(true);
        }
        if is_of_database(name) {
            return match self.see(name, entry.path().as_str()) {
                Ok(is_file) => Ok(is_file),
                Err(failure) => Err(Unlisted::at(name, failure)),
            };
        }
        match fs::symlink_metadata(&self.rt, entry.path().as_str()) {
            Ok(found) => Ok(found.is_file()),
            Err(error) if error.kind() == ErrorKind::OutOfMemory => Err(Unlisted::from(error)),
            Err(_) => Ok(false),
        }
    }

    // Whether a plain file is at a path, or a link to one. Without the lock it is remembered.
    fn see(&mut self, name: &str, path: &str) -> Result<bool, Failure> {
        let found = match fs::metadata(&self.rt, path) {
            Ok(found) => found,
            Err(error) if error.kind() == ErrorKind::NotFound => return Ok(false),
            Err(error) => return Err(Failure::from(error)),
        };
        if found.is_file() && self.lock.is_none() {
            let name = String::from_str(self.rt.alloc(), name)?;
            let _ = self.seen.insert(name, Identity::of(&found))?;
        }
        Ok(found.is_file())
    }

    // Sees that a file which was opened to be read is the one that the list saw. If it saw none of
    // this name, CURRENT must still be the one that was read: then nobody has begun anew since.
    fn see_same(&mut self, name: &str, file: &File) -> Result<(), Failure> {
        if self.seen.is_empty() {
            return Ok(());
        }
        let found = Identity::of(&file.metadata()?);
        let is_same = match self.seen.get_mut(name) {
            Some(seen) if name == CURRENT => {
                *seen = found;
                true
            }
            Some(seen) => *seen == found,
            None => self.has_same_current()?,
        };
        if is_same {
            Ok(())
        } else {
            Err(Failure::because(Why::Replaced))
        }
    }

    // Whether CURRENT is the file that was read, or none was seen.
    fn has_same_current(&self) -> Result<bool, Failure> {
        let Some(seen) = self.seen.get(CURRENT) else {
            return Ok(true);
        };
        let path = self.path_of(CURRENT)?;
        match fs::metadata(&self.rt, path.as_str()) {
            Ok(found) => Ok(*seen == Identity::of(&found)),
            Err(error) if error.kind() == ErrorKind::NotFound => Ok(false),
            Err(error) => Err(Failure::from(error)),
        }
    }

    // Whether a plain file is at a path, or a link to one.
    fn is_plain(&self, path: &str) -> io::Result<bool> {
        match fs::metadata(&self.rt, path) {
            Ok(found) => Ok(found.is_file()),
            Err(error) if error.kind() == ErrorKind::NotFound => Ok(false),
            Err(error) => Err(error),
        }
    }

    // The file of a name, opened if it isn't open yet.
    fn kept_file(&mut self, name: &str, appends: bool) -> Result<&File, Failure> {
        let uses = self.count_use();
        let is_kept = match self.kept.get_mut(name) {
            Some(kept) => {
                kept.used = uses;
                kept.appends || !appends
            }
            None => false,
        };
        if !is_kept {
            self.open_file(name, appends)?;
        }
        match self.kept.get(name) {
            Some(kept) => Ok(&kept.file),
            None => Err(Failure::untold(StoreError::Device)),
        }
    }

    // Opens a file that is there, which changes nothing.
    fn open_file(&mut self, name: &str, appends: bool) -> Result<(), Failure> {
        let path = self.path_of(name)?;
        let mut options = OpenOptions::new();
        options.read(true).append(appends);
        let file = if appends {
            self.open_itself(&options, path.as_str())?
        } else if self.is_plain(path.as_str())? {
            self.open_with(&options, path.as_str())?
        } else {
            return Err(self.missing(name));
        };
        self.see_same(name, &file)?;
        Ok(self.keep(name, file, appends)?)
    }

    // The failure of a name that no plain file has: what the list saw is gone, and perhaps what it
    // didn't see is, if CURRENT is another one by now.
    fn missing(&self, name: &str) -> Failure {
        if self.seen.contains_key(name) {
            return Failure::because(Why::Gone);
        }
        match self.has_same_current() {
            Ok(true) => Failure::untold(StoreError::Missing),
            Ok(false) => Failure::because(Why::Gone),
            Err(failure) => failure,
        }
    }

    // Makes a file, or empties the one that has the name. No link is followed: the system makes
    // nothing new at a name that one has.
    fn make(&mut self, path: &str) -> Result<File, Failure> {
        let mut options = OpenOptions::new();
        options.read(true).write(true).create_new(true);
        match self.open_with(&options, path) {
            Ok(file) => Ok(file),
            Err(error) if error.kind() == ErrorKind::AlreadyExists => match self.empty(path) {
                Err(failure) if failure.error == StoreError::Missing => {
                    Err(Failure::of_device(error))
                }
                emptied => emptied,
            },
            Err(error) => Err(Failure::of_device(error)),
        }
    }

    // Empties a file that is there.
    fn empty(&mut self, path: &str) -> Result<File, Failure> {
        let mut options = OpenOptions::new();
        options.read(true).write(true);
        let file = self.open_itself(&options, path)?;
        file.set_len(0).map_err(Failure::of_device)?;
        Ok(file)
    }

    // Opens a plain file for a call that changes it, and none that a link leads to. The kit has no
    // O_NOFOLLOW, so what was opened is compared with what has the name.
    fn open_itself(&mut self, options: &OpenOptions, path: &str) -> Result<File, Failure> {
        let named = fs::symlink_metadata(&self.rt, path)?;
        if named.is_symlink() {
            return Err(Failure::because(Why::Link));
        }
        if !named.is_file() {
            return Err(Failure::untold(StoreError::Missing));
        }
        let file = self.open_with(options, path)?;
        if Identity::of(&file.metadata()?) == Identity::of(&named) {
            Ok(file)
        } else {
            Err(Failure::because(Why::Link))
        }
    }

    // Sees that no link is at a path.
    fn see_no_link(&self, path: &str) -> Result<(), Failure> {
        match fs::symlink_metadata(&self.rt, path) {
            Ok(found) if found.is_symlink() => Err(Failure::because(Why::Link)),
            Ok(_) => Ok(()),
            Err(error) if error.kind() == ErrorKind::NotFound => Ok(()),
            Err(error) => Err(Failure::from(error)),
        }
    }

    // Opens a file. If the system has no room for one more, closes those that were kept and tries
    // once more.
    fn open_with(&mut self, options: &OpenOptions, path: &str) -> io::Result<File> {
        match open_once(&self.rt, options, path) {
            Ok(file) => Ok(file),
            Err(error) if self.makes_room(&error) => open_once(&self.rt, options, path),
            Err(error) => Err(error),
        }
    }

    // Whether this error says that no more files can be open, and some that were kept are closed
    // now. From then on half as many are kept, so that the process has room for others.
    fn makes_room(&mut self, error: &io::Error) -> bool {
        if !is_full(error) || self.kept.is_empty() {
            return false;
        }
        self.most = self.kept.len() / 2;
        self.kept.clear();
        true
    }

    // Keeps a file open. If the most are open, closes those that were used longest ago.
    fn keep(&mut self, name: &str, file: File, appends: bool) -> Result<(), AllocError> {
        let name = String::from_str(self.rt.alloc(), name)?;
        let used = self.count_use();
        if self.kept.len() >= self.most {
            self.let_go()?;
        }
        self.kept.insert(
            name,
            KeptFile {
                file,
                appends,
                used,
            },
        )?;
        Ok(())
    }

    // Counts one more use of a kept file, and answers how many there are.
    fn count_use(&mut self) -> u64 {
        self.uses = self.uses.wrapping_add(1);
        self.uses
    }

    // Closes an eighth of the kept files, and one at least: those that were used longest ago.
    // Closes many at a time, since it looks at all.
    fn let_go(&mut self) -> Result<(), AllocError> {
        let mut uses = Vec::with_capacity(self.rt.alloc(), self.kept.len())?;
        for kept in self.kept.values() {
            uses.push(kept.used)?;
        }
        uses.sort_unstable();
        if let Some(last) = uses.get(uses.len() / 8) {
            let last = *last;
            self.kept.retain(|_, kept| last < kept.used);
        }
        Ok(())
    }
}

// Opens a file, and not as one of the standard streams if those were closed: what is printed must
// not land in it.
fn open_once(rt: &HostRuntime, options: &OpenOptions, path: &str) -> io::Result<File> {
    let file = options.open(rt, path)?;
    if file.as_raw_fd() > 2 {
        Ok(file)
    } else {
        file.try_clone()
    }
}

// The bytes of a file from an offset on, so many of them or up to its end.
fn read_from(
    alloc: Global,
    file: &File,
    offset: u64,
    count: usize,
    room: Vec<u8>,
) -> Result<Vec<u8>, Failure> {
    let count = count_within(file, offset, count)?;
    let mut bytes = with_length(alloc, count, room)?;
    let read = fill(file, bytes.as_mut_slice(), offset)?;
    bytes.truncate(read);
    Ok(bytes)
}

// So many bytes, whatever they are: in the memory of `room` if they fit and fill three quarters of
// it, so that little is wasted. New memory is a sixteenth more, so that the next block fits too,
// which seldom has the same length.
fn with_length(alloc: Global, count: usize, room: Vec<u8>) -> Result<Vec<u8>, AllocError> {
    let capacity = room.capacity();
    if count <= capacity && capacity - capacity / 4 <= count {
        return cut_to(count, room);
    }
    drop(room);
    cut_to(
        count,
        Vec::with_capacity(alloc, count.saturating_add(count / 16))?,
    )
}

// The first bytes, so many of them, with zeros after them if they are fewer: what is overwritten
// isn't zeroed first.
fn cut_to(count: usize, mut bytes: Vec<u8>) -> Result<Vec<u8>, AllocError> {
    bytes.resize(count, 0)?;
    Ok(bytes)
}

// Adds bytes at the end of a file, or some of them.
fn append_to(mut file: &File, bytes: &[u8]) -> Result<(), Failure> {
    file.write_all(bytes).map_err(Failure::of_device)
}

// How many bytes to read: no more than are there, if the count is large or the offset far out.
fn count_within(file: &File, offset: u64, count: usize) -> io::Result<usize> {
    if count <= LARGE_READ && offset < FAR_OFFSET {
        return Ok(count);
    }
    let rest = file.metadata()?.len().saturating_sub(offset);
    Ok(count.min(rest as usize))
}

// Reads from an offset on until the buffer is full or the file ends, and says how many bytes came.
fn fill(file: &File, buffer: &mut [u8], offset: u64) -> io::Result<usize>
    ensures { IfOk result (λ read. read ≤ length buffer.new) }
{
    let mut read = 0;
    for _ in 0..u64::MAX {
        if read == buffer.len() {
            break;
        }
        match file.read_at(&mut buffer[read..], offset.saturating_add(read as u64)) {
            Ok(0) => break,
            Ok(count) => read += count,
            Err(error) if error.kind() == ErrorKind::Interrupted => {}
            Err(error) => return Err(error),
        }
    }
    Ok(read)
}
