// A folder that no handle has, and the names of answers.

ghost use Rattle.std.specs.Prelude.{◌≡◌};
ghost use Rattle.c_calls.specs.Calls.{bytewise};
ghost use Rattle.c_calls.specs.Folders.{CheckServed, MendServed, bytewise_name};
ghost use Rattle.wachuspi.specs.Handles.{folder_facts};
ghost use Rattle.wachuspi.specs.Opening.{FolderTold, unread};

use crate::crossing::CTrouble;
use crate::exports::opens::{open_folder, tell_folder};
use c_calls::{
    CLOSED, CutFile, MISUSED, NOT_FOUND, WORK_REFUSED, check_store, copy_into, mend_store,
};
use std::alloc::Global;
use store::{FileStore, Store};

/// Tells whether a folder is a consistent database.
#[unsafe(no_mangle)]
pub extern "C" fn wch_check(alloc: Global, path: &[u8], trouble: &mut CTrouble) -> i32
    ensures checked { FolderTold (λ old new code. CheckServed bytewise old new code) result }
{
    *trouble = CTrouble::none();
    match open_folder(path) {
        Ok(store) => check_files(alloc, store, trouble),
        Err(why) => tell_folder(alloc, why, trouble),
    }
}

fn check_files(alloc: Global, mut store: FileStore, trouble: &mut CTrouble) -> i32
    requires { folder_facts store ≡ unread }
    ensures { FolderTold (λ old new code. CheckServed bytewise old new code) result }
{
    let code = check_store(alloc, &mut store);
    if code > 0 {
        trouble.tell(alloc, store.noted());
    }
    code
}

/// Cuts off what a power loss left of the MANIFEST and the logs of a folder, or only says what it
/// would cut off.
#[unsafe(no_mangle)]
pub extern "C" fn wch_mend(
    alloc: Global,
    path: &[u8],
    flags: u32,
    cuts: &mut [CutFile],
    count: &mut usize,
    trouble: &mut CTrouble,
) -> i32
    ensures mended { FolderTold (λ old new code.
        MendServed bytewise_name flags cuts.old cuts.new count.new old new code) result }
{
    *trouble = CTrouble::none();
    *count = 0;
    match open_folder(path) {
        Ok(store) => mend_files(alloc, store, flags, cuts, count, trouble),
        Err(why) => tell_folder(alloc, why, trouble),
    }
}

fn mend_files(
    alloc: Global,
    mut store: FileStore,
    flags: u32,
    cuts: &mut [CutFile],
    count: &mut usize,
    trouble: &mut CTrouble,
) -> i32
    requires { folder_facts store ≡ unread }
    ensures { FolderTold (λ old new code.
        MendServed bytewise_name flags cuts.old cuts.new count.new old new code) result }
{
    let code = mend_store(alloc, &mut store, flags, cuts, count);
    if code > 0 {
        trouble.tell(alloc, store.noted());
    }
    code
}

/// Copies the name of an answer into the caller's room, and answers its length.
#[unsafe(no_mangle)]
pub extern "C" fn wch_explain(code: i32, room: &mut [u8]) -> usize {
    let name = name_of(code).as_bytes();
    copy_into(name, room);
    name.len()
}

fn name_of(code: i32) -> &'static str {
    match code {
        0 => "Ok",
        NOT_FOUND => "NotFound",
        MISUSED => "Misused",
        CLOSED => "Closed",
        _ if code >= WORK_REFUSED => refusal_of(code - WORK_REFUSED),
        _ => refusal_of(code),
    }
}

// The name of a refusal (`DbError::name`).
fn refusal_of(number: i32) -> &'static str {
    match number {
        1 => "OutOfMemory",
        2 => "Io",
        3 => "NoDatabase",
        4 => "Exists",
        5 => "Corrupt",
        6 => "Unsupported",
        7 => "Broken",
        8 => "NoSnapshot",
        9 => "NoIterator",
        10 => "NoPlace",
        11 => "KeyTooLong",
        12 => "ValueTooLong",
        13 => "BatchTooLarge",
        14 => "SequenceFull",
        15 => "NumbersSpent",
        18 => "Locked",
        19 => "BadLevel",
        _ => "Unknown",
    }
}
