// Opening and closing.

ghost use Rattle.std.specs.Prelude.{◌≡◌, pos, IfOk, None};
ghost use Rattle.wachuspi.specs.Handles.{folder_facts};
ghost use Rattle.wachuspi.specs.Opening.{IsFolderCode, KeptTold, OpenTold, StoreTold, unread};

use crate::crossing::{COptions, CTrouble};
use crate::databases::Database;
use crate::held::Held;
use c_calls::{CLOSED, Handle, MISUSED, mode_of, number_of, open};
use coding::DbError;
use engine::{Mode, OpenError, Options};
use host_runtime::host_runtime;
use std::alloc::Global;
use std::str;
use store::{FileStore, Store, StoreError, Trouble, Why};

// Counts up where an export or a struct of the header changes.
const VERSION: u32 = 1;

/// The version of the interface.
#[unsafe(no_mangle)]
pub extern "C" fn wch_version() -> u32 {
    VERSION
}

/// Fills in LevelDB's defaults.
#[unsafe(no_mangle)]
pub extern "C" fn wch_default_options(options: &mut COptions) {
    *options = COptions::usual();
}

/// Why a folder wasn't opened.
#[derive(Clone, Copy)]
pub enum NotOpened {
    /// The path isn't UTF-8.
    NotUtf8,
    Memory,
    Missing,
    Device,
}

/// The files of a folder.
pub fn open_folder(path: &[u8]) -> Result<FileStore, NotOpened>
    ensures { IfOk result (λ store. folder_facts store ≡ unread) }
{
    let Ok(path) = str::from_utf8(path) else {
        return Err(NotOpened::NotUtf8);
    };
    match FileStore::open(&host_runtime(), path) {
        Ok(store) => Ok(store),
        Err(StoreError::Memory) => Err(NotOpened::Memory),
        Err(StoreError::Missing) => Err(NotOpened::Missing),
        Err(StoreError::Device) => Err(NotOpened::Device),
    }
}

/// Tells why a folder wasn't opened.
pub fn tell_folder(alloc: Global, why: NotOpened, trouble: &mut CTrouble) -> i32
    ensures { IsFolderCode result }
{
    match why {
        NotOpened::NotUtf8 => {
            trouble.say("the path isn't UTF-8, and the library opens no other");
            MISUSED
        }
        NotOpened::Memory => number_of(DbError::OutOfMemory),
        NotOpened::Missing => {
            trouble.tell(alloc, Trouble::of(Why::Missing, ""));
            number_of(DbError::NoDatabase)
        }
        NotOpened::Device => {
            trouble.tell(alloc, Trouble::of(Why::List, ""));
            number_of(DbError::Io)
        }
    }
}

// Tells of a misuse.
fn misused(words: &str, trouble: &mut CTrouble) -> i32
    ensures { result ≡ pos 64 }
{
    trouble.say(words);
    MISUSED
}

/// Opens the database of a folder into a closed handle.
#[unsafe(no_mangle)]
pub extern "C" fn wch_open(
    alloc: Global,
    path: &[u8],
    options: &COptions,
    mode: u32,
    db: &mut Database,
    trouble: &mut CTrouble,
) -> i32
    ensures opened { OpenTold mode options.now db.old.slot.held db.new.slot.held result }
{
    *trouble = CTrouble::none();
    if db.holds {
        return misused("the handle has an open database", trouble);
    }
    let Some(options) = options.checked() else {
        return misused("an option is out of its range", trouble);
    };
    let Some(mode) = mode_of(mode) else {
        return misused("a mode is 0, 1 or 2", trouble);
    };
    match open_folder(path) {
        Ok(store) => open_store(alloc, store, options, mode, db, trouble),
        Err(why) => tell_folder(alloc, why, trouble),
    }
}

fn open_store(
    alloc: Global,
    store: FileStore,
    options: Options,
    mode: Mode,
    db: &mut Database,
    trouble: &mut CTrouble,
) -> i32
    requires none { db.old.slot.held ≡ None }
    requires unread { folder_facts store ≡ unread }
    ensures { StoreTold mode options db.new.slot.held result }
{
    match open(alloc, store, options, mode) {
        Ok(handle) => keep_open(alloc, handle, db),
        Err(refused) => {
            let OpenError { error, store } = refused;
            trouble.tell(alloc, store.noted());
            number_of(error)
        }
    }
}

fn keep_open(alloc: Global, handle: Handle<FileStore>, db: &mut Database) -> i32
    requires { db.old.slot.held ≡ None }
    ensures { KeptTold handle db.new.slot.held result }
{
    if db.fill(alloc, handle) {
        0
    } else {
        number_of(DbError::OutOfMemory)
    }
}

/// Closes a database.
#[unsafe(no_mangle)]
pub extern "C" fn wch_close(alloc: Global, db: &mut Database) -> i32
    ensures closed { db.new.slot.held ≡ None }
{
    let Some(held) = db.take(alloc) else {
        return CLOSED;
    };
    let Held { handle } = Box::into_inner(held);
    let _store = handle.close();
    0
}
