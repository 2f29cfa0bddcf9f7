// What `stats` and `dump --keep-going` print of a directory in memory.
use crate::browsing::written;
use browse::Form;
use coding::DbError;
use ikey::Bytewise;
use script::Nobody;
use std::alloc::Global;
use store::{MemStore, Store};
use tool::{Notation, dump_sound, stats};

// Which call, the file of the directory that is damaged, the exit status, what is printed and
// whether something is said of a file.
struct Case {
    call: Call,
    damaged: &'static str,
    status: u8,
    text: &'static [u8],
    says: bool,
}

#[derive(Clone, Copy)]
enum Call {
    Stats(bool),
    DumpSound,
}

#[rattlefmt::skip]
const CASES: &[Case] = &[
    Case { call: Call::Stats(false), damaged: "", status: 0, text: b"comparator leveldb.BytewiseComparator\nrecorded-sequence 6\nnext-file 9\nlevel 0 files 3 bytes 555\nlevel 1 files 0 bytes 0\nlevel 2 files 0 bytes 0\nlevel 3 files 0 bytes 0\nlevel 4 files 0 bytes 0\nlevel 5 files 0 bytes 0\nlevel 6 files 0 bytes 0\nlog 7 bytes 52\nlog 9 bytes 22\n", says: false },
    Case { call: Call::Stats(true), damaged: "", status: 0, text: b"{\"comparator\":\"leveldb.BytewiseComparator\",\"recorded-sequence\":6,\"next-file\":9}\n{\"level\":0,\"files\":3,\"bytes\":555,\"due\":false}\n{\"level\":1,\"files\":0,\"bytes\":0,\"due\":false}\n{\"level\":2,\"files\":0,\"bytes\":0,\"due\":false}\n{\"level\":3,\"files\":0,\"bytes\":0,\"due\":false}\n{\"level\":4,\"files\":0,\"bytes\":0,\"due\":false}\n{\"level\":5,\"files\":0,\"bytes\":0,\"due\":false}\n{\"level\":6,\"files\":0,\"bytes\":0,\"due\":false}\n{\"log\":7,\"bytes\":52}\n{\"log\":9,\"bytes\":22}\n", says: false },
    Case { call: Call::Stats(true), damaged: "CURRENT", status: 1, text: b"", says: false },
    Case { call: Call::DumpSound, damaged: "", status: 0, text: b"table 0 4 62 1 put 6e6f\ntable 0 6 - 2 put 30\ntable 0 6 6261 3 put -\ntable 0 8 61 4 put 31\ntable 0 8 64 5 put 32\nlog 7 62 6 put 5c207e7f0a\nlog 7 ff 7 put 00\nlog 9 64 8 delete\n", says: false },
    Case { call: Call::DumpSound, damaged: "000006.ldb", status: 1, text: b"table 0 4 62 1 put 6e6f\ntable 0 8 61 4 put 31\ntable 0 8 64 5 put 32\nlog 7 62 6 put 5c207e7f0a\nlog 7 ff 7 put 00\nlog 9 64 8 delete\n", says: true },
    Case { call: Call::DumpSound, damaged: "CURRENT", status: 1, text: b"refused 5 Corrupt\n", says: true },
];

// The directory, with a byte more at the end of the file of this name.
fn directory(alloc: Global, damaged: &str) -> Result<MemStore, DbError> {
    let mut store = written::<Bytewise>(alloc)?;
    if !damaged.is_empty() {
        let _ = store.append(damaged, b"\x01");
    }
    Ok(store)
}

// What a call printed, its exit status, and whether it said something.
#[derive(Drop)]
struct Said {
    status: u8,
    printed: Vec<u8>,
    says: bool,
}

fn answer_of(alloc: Global, case: &Case) -> Result<Option<Said>, DbError> {
    let mut store = directory(alloc, case.damaged)?;
    let mut printed = Vec::new(alloc);
    let mut faults = Vec::new(alloc);
    let done = match case.call {
        Call::Stats(json) => {
            stats::<Bytewise, MemStore, Vec<u8>, Nobody>(
                alloc,
                &mut store,
                &mut printed,
                json,
                &mut Nobody,
            )
        }
        Call::DumpSound => dump_sound::<Bytewise, MemStore, Vec<u8>, Vec<u8>>(
            alloc,
            &mut store,
            &mut printed,
            Notation::Words(Form::Hex),
            "DIR",
            &mut faults,
        ),
    };
    let says = !faults.is_empty();
    Ok(
        done.ok().map(|status| Said {
            status,
            printed,
            says,
        }),
    )
}

fn is_so(alloc: Global, case: &Case) -> bool {
    match answer_of(alloc, case) {
        Ok(Some(said)) => {
            said.status == case.status
                && said.printed.as_slice() == case.text
                && said.says == case.says
        }
        _ => false,
    }
}

#[test]
fn directories_are_looked_over_and_sound_files_are_dumped(rt: HostRuntime) {
    for case in CASES {
        assert!(rt; is_so(rt.alloc(), case), "{:?}", case.damaged);
    }
}
