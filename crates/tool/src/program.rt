// The program, over streams that are handed in.

use crate::changing::{compact, del, import, put, run};
use crate::finding::{export, get, scan};
use crate::looking::{check_folder, dump_folder, dump_sound_files, stats_folder};
use crate::mend::mend_folder;
use crate::progress::Target;
use crate::saying::{greet, greet_import, refuse};
use crate::task::{OrderName, Task};
use crate::words::settings;
use ikey::{Bytewise, KeyOrder, ReverseBytes};
use std::io::{Read, Write};

/// Which streams are a terminal, so that somebody watches.
#[derive(Clone, Copy, Debug, PartialEq, Eq)]
pub struct Terminals {
    /// Standard input, at which a script is typed.
    pub input: bool,
    /// Standard error.
    pub faults: bool,
}

/// Does what the words ask for, of which the first is the program's name, and returns the exit
/// status; `version` is what `--version` says after that name. What has no place on `writer` is
/// said on `faults`. If somebody watches, a check, dump, import or compaction that takes longer
/// than a second says there how far it is, a check ends with sums, and typed lines begin with a
/// word on them.
pub fn start<R: Read + Drop, W: Write, F: Write>(
    rt: &HostRuntime,
    words: &[String],
    version: &str,
    terminals: Terminals,
    reader: R,
    writer: &mut W,
    faults: &mut F,
) -> u8 {
    let task = match settings(rt.alloc(), words, version) {
        Ok(task) => task,
        Err(misuse) => return refuse(rt.alloc(), &misuse, writer, faults),
    };
    // An order is chosen here alone.
    match task.place().order {
        OrderName::Bytes => {
            perform::<Bytewise, R, W, F>(rt, &task, terminals, reader, writer, faults)
        }
        OrderName::Reverse => {
            perform::<ReverseBytes, R, W, F>(rt, &task, terminals, reader, writer, faults)
        }
    }
}

// Does the task over a database whose keys are in the order `K`.
fn perform<K: KeyOrder, R: Read + Drop, W: Write, F: Write>(
    rt: &HostRuntime,
    task: &Task<'_>,
    terminals: Terminals,
    reader: R,
    writer: &mut W,
    faults: &mut F,
) -> u8 {
    let folder = task.place().folder;
    let target = Target {
        folder,
        watched: terminals.faults,
    };
    let typed = terminals.input && terminals.faults;
    match task {
        Task::Get(_, lookup) => get::<K, R, W, F>(rt, folder, lookup, reader, writer, faults),
        Task::Scan(_, search) => scan::<K, W, F>(rt, folder, search, writer, faults),
        Task::Export(_, bounds) => export::<K, W, F>(rt, folder, bounds, writer, faults),
        Task::Check(_, keep_going) => {
            check_folder::<K, W, F>(rt, target, *keep_going, writer, faults)
        }
        Task::Stats(_, json) => stats_folder::<K, W, F>(rt, folder, *json, writer, faults),
        Task::Dump(_, notation, false) => {
            dump_folder::<K, W, F>(rt, target, *notation, writer, faults)
        }
        Task::Dump(_, notation, true) => {
            dump_sound_files::<K, W, F>(rt, target, *notation, writer, faults)
        }
        Task::Run(_, numbers, turns) => {
            if typed {
                greet(faults);
            }
            run::<K, R, W, F>(rt, folder, *numbers, *turns, reader, writer, faults)
        }
        Task::Import(_, numbers, pieces) => {
            if typed {
                greet_import(faults);
            }
            import::<K, R, W, F>(rt, target, *numbers, *pieces, reader, writer, faults)
        }
        Task::Compact(_, numbers, level, mends) => {
            compact::<K, W, F>(rt, target, *numbers, *level, *mends, writer, faults)
        }
        Task::Mend(_, mending) => mend_folder::<K, W, F>(rt, folder, *mending, writer, faults),
        Task::Put(_, pair) => put::<K, F>(rt, folder, pair, faults),
        Task::Del(_, named) => del::<K, F>(rt, folder, named, faults),
    }
}
