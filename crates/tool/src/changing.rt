// The tasks that write to a folder.

ghost use Rattle.std.specs.Prelude.{◌≡◌, IfOk};
ghost use Rattle.tool.specs.OneWrite.{del_script_of, put_script_of};

use crate::finding::key_of;
use crate::looking::open;
use crate::mend::mend_first;
use crate::progress::{Meter, Target, Watched};
use crate::saying::{no_folder_made, status_of, stop};
use crate::status::{DONE, FAILED, MISUSED, STRICT};
use crate::task::{Named, Numbers, Pair, Pieces, Turns};
use crate::telling::Telling;
use engine::{Options, Session};
use ikey::KeyOrder;
use script::{Ended, Fault, Importing, Way, drive_in, push_bytes};
use std::alloc::{AllocError, Global};
use std::fs;
use std::io::{self, Read, Write};
use std::num::TryFromIntError;
use store::FileStore;

// A folder that is written, and perhaps watched.
type Folder = Watched<FileStore>;

/// Runs a script, and returns the exit status.
pub fn run<K: KeyOrder, R: Read + Drop, W: Write, F: Write>(
    rt: &HostRuntime,
    folder: &str,
    numbers: Numbers,
    turns: Turns,
    reader: R,
    writer: &mut W,
    faults: &mut F,
) -> u8 {
    let unwatched = Target {
        folder,
        watched: false,
    };
    let mut session = match begin::<K, F>(rt, unwatched, numbers, turns.mends, faults) {
        Ok(session) => session,
        Err(status) => return status,
    };
    let way = Way {
        strict: turns.strict,
        works: turns.works,
    };
    let mut telling = Telling::of(folder, faults);
    let done = drive_in(rt.alloc(), &mut session, way, reader, writer, &mut telling);
    telling.end::<K>(rt);
    match done {
        Ok(Ended::Whole) => DONE,
        Ok(Ended::Refused) => STRICT,
        Err(fault) => stop(faults, &fault),
    }
}

/// Writes the operations of lines, and returns the exit status.
pub fn import<K: KeyOrder, R: Read + Drop, W: Write, F: Write>(
    rt: &HostRuntime,
    target: Target<'_>,
    numbers: Numbers,
    pieces: Pieces,
    reader: R,
    writer: &mut W,
    faults: &mut F,
) -> u8 {
    let Some(how) = Importing::new(pieces.batch, pieces.sync) else {
        return MISUSED;
    };
    if pieces.create {
        if let Err(status) = make_folder(rt, target.folder, faults) {
            return status;
        }
    }
    let mut session = match begin::<K, F>(rt, target, numbers, pieces.mends, faults) {
        Ok(session) => session,
        Err(status) => return status,
    };
    let mut telling = Telling::of(target.folder, faults);
    let done = script::import(rt.alloc(), &mut session, &how, reader, writer, &mut telling);
    telling.end::<K>(rt);
    status_of(done, faults)
}

/// Merges the tables of a level into the next, or all of them, and returns the exit status.
pub fn compact<K: KeyOrder, W: Write, F: Write>(
    rt: &HostRuntime,
    target: Target<'_>,
    numbers: Numbers,
    level: Option<u64>,
    mends: bool,
    writer: &mut W,
    faults: &mut F,
) -> u8 {
    let Ok(level) = small_level(level) else {
        return MISUSED;
    };
    let mut session = match begin::<K, F>(rt, target, numbers, mends, faults) {
        Ok(session) => session,
        Err(status) => return status,
    };
    let mut telling = Telling::of(target.folder, faults);
    let done = script::compact(rt.alloc(), &mut session, level, writer, &mut telling);
    telling.end::<K>(rt);
    status_of(done, faults)
}

/// Puts a pair into the database that is there, or into a new one, syncs it, and returns the exit
/// status. Nothing is printed; a refusal is said.
pub fn put<K: KeyOrder, F: Write>(
    rt: &HostRuntime,
    folder: &str,
    pair: &Pair<'_>,
    faults: &mut F,
) -> u8 {
    let alloc = rt.alloc();
    let key = match key_of(alloc, pair.form, "KEY", pair.key, faults) {
        Ok(key) => key,
        Err(status) => return status,
    };
    let value = match key_of(alloc, pair.form, "VALUE", pair.value, faults) {
        Ok(value) => value,
        Err(status) => return status,
    };
    match put_script(alloc, key.as_slice(), value.as_slice()) {
        Ok(script) => give::<K, F>(rt, folder, script.as_slice(), faults),
        Err(_) => stop(faults, &Fault::Memory),
    }
}

/// Deletes a key of the database that is there, syncs that, and returns the exit status. Nothing is
/// printed; a refusal is said.
pub fn del<K: KeyOrder, F: Write>(
    rt: &HostRuntime,
    folder: &str,
    named: &Named<'_>,
    faults: &mut F,
) -> u8 {
    let alloc = rt.alloc();
    let key = match key_of(alloc, named.form, "KEY", named.key, faults) {
        Ok(key) => key,
        Err(status) => return status,
    };
    match del_script(alloc, key.as_slice()) {
        Ok(script) => give::<K, F>(rt, folder, script.as_slice(), faults),
        Err(_) => stop(faults, &Fault::Memory),
    }
}

// The script that puts a pair.
fn put_script(alloc: Global, key: &[u8], value: &[u8]) -> Result<Vec<u8>, AllocError>
    ensures { IfOk result (λ script. script.items ≡ put_script_of key.now value.now) }
{
    let mut script = Vec::new(alloc);
    script.extend_from_slice(b"open any\nwrite sync put ")?;
    push_bytes(&mut script, key)?;
    script.push(b' ')?;
    push_bytes(&mut script, value)?;
    script.extend_from_slice(b"\nclose\n")?;
    Ok(script)
}

// The script that deletes a key.
fn del_script(alloc: Global, key: &[u8]) -> Result<Vec<u8>, AllocError>
    ensures { IfOk result (λ script. script.items ≡ del_script_of key.now) }
{
    let mut script = Vec::new(alloc);
    script.extend_from_slice(b"open\nwrite sync del ")?;
    push_bytes(&mut script, key)?;
    script.extend_from_slice(b"\nclose\n")?;
    Ok(script)
}

// Runs a script that a command consists of, up to its first refusal. Its answers go nowhere.
fn give<K: KeyOrder, F: Write>(
    rt: &HostRuntime,
    folder: &str,
    script: &[u8],
    faults: &mut F,
) -> u8 {
    let store = match open(rt, folder, faults) {
        Ok(store) => Watched::over(store, None),
        Err(status) => return status,
    };
    let mut session = new_session::<K>(rt.alloc(), store, Options::default());
    let way = Way {
        strict: true,
        works: false,
    };
    let mut answers = Vec::new(rt.alloc());
    let mut telling = Telling::of_one(folder, faults);
    let done = drive_in(
        rt.alloc(),
        &mut session,
        way,
        script,
        &mut answers,
        &mut telling,
    );
    telling.end::<K>(rt);
    match done {
        Ok(Ended::Whole) => DONE,
        Ok(Ended::Refused) => FAILED,
        Err(fault) => stop(faults, &fault),
    }
}

// Makes the folder if it isn't there. `Err` is the status if it can't be made, which is said.
fn make_folder<F: Write>(rt: &HostRuntime, folder: &str, faults: &mut F) -> Result<(), u8> {
    match fs::create_dir(rt, folder) {
        Ok(()) => Ok(()),
        Err(error) => {
            if error.kind() == io::ErrorKind::AlreadyExists {
                return Ok(());
            }
            Err(no_folder_made(faults, folder, &error))
        }
    }
}

// A level as the database numbers it.
fn small_level(level: Option<u64>) -> Result<Option<u32>, TryFromIntError> {
    match level {
        Some(level) => {
            let level = u32::try_from(level)?;
            Ok(Some(level))
        }
        None => Ok(None),
    }
}

// A session over the folder, whose files are mended first or not. `Err` is the status if it can't
// be opened or mended, which is said.
fn begin<K: KeyOrder, F: Write>(
    rt: &HostRuntime,
    target: Target<'_>,
    numbers: Numbers,
    mends: bool,
    faults: &mut F,
) -> Result<Session<Folder, K>, u8> {
    let Some(options) = numbers.options() else {
        return Err(MISUSED);
    };
    let mut store = open(rt, target.folder, faults)?;
    if mends {
        mend_first::<K, F>(rt, target.folder, &mut store, faults)?;
    }
    let meter = if target.watched {
        Meter::new(rt, None)
    } else {
        None
    };
    Ok(new_session::<K>(rt.alloc(), Watched::over(store, meter), options))
}

// A session is made here alone.
fn new_session<K: KeyOrder>(alloc: Global, store: Folder, options: Options) -> Session<Folder, K> {
    Session::new(alloc, store, options)
}
