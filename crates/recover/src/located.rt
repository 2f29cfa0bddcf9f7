//! Where a log, or a MANIFEST, which has the form of one, is damaged. For the eye alone: it is
//! looked for once more where the bytes were refused, by readers that need none of it.

use batch::Batch;
use coding::{Damage, crc32c, get_fixed32, mask};
use edits::decode_edit;
use logfile::read_log;
use std::alloc::Global;
use store::{Trouble, Why};

// How many bytes a block of a log has, and a header.
const BLOCK: usize = 32_768;

const HEADER: usize = 7;

// What stands at a place of a log.
#[derive(Clone, Copy)]
enum Seen {
    // its end, or what that cuts off
    End,
    // zeros up to the end of a block
    Zeros,
    // a fragment: its type, and how many bytes it has
    Fragment(u8, usize),
    // a fault
    Fault(Fault),
}

// A fault of a fragment, with what was found and what was wanted.
#[derive(Clone, Copy)]
struct Fault {
    why: Why,
    found: u64,
    wanted: u64,
}

/// Finds the first fault in the fragments of a log, whose blocks begin where the bytes do. A wrong
/// order of the fragments of one record is looked for only if that is the damage that was found.
pub fn fault_in(name: &str, bytes: &[u8], what: Damage) -> Trouble {
    let mut at = 0_usize;
    let mut inside = false;
    for _ in 0..u64::MAX {
        match seen_at(bytes, at) {
            Seen::End => return Trouble::none(),
            Seen::Zeros => at = block_behind(at),
            Seen::Fault(fault) => return trouble_of(name, at, fault),
            Seen::Fragment(kind, length) => {
                if what == Damage::Order && continues(kind) != inside {
                    return trouble_of(name, at, fault_of(Why::FragmentOrder, kind));
                }
                inside = is_continued(kind);
                at = at.saturating_add(length);
            }
        }
    }
    Trouble::none()
}

fn trouble_of(name: &str, at: usize, fault: Fault) -> Trouble {
    let trouble = Trouble::of(fault.why, name).at(at as u64);
    match fault.why {
        Why::Padding | Why::FragmentOrder => trouble,
        _ => trouble.found(fault.found, fault.wanted),
    }
}

fn fault_of(why: Why, found: u8) -> Fault {
    Fault {
        why,
        found: u64::from(found),
        wanted: 4,
    }
}

// Where the next block begins.
fn block_behind(at: usize) -> usize {
    at.saturating_add(BLOCK - at % BLOCK)
}

fn seen_at(bytes: &[u8], at: usize) -> Seen {
    let room = BLOCK - at % BLOCK;
    let Some(rest) = bytes.get(at..) else {
        return Seen::End;
    };
    let here = &rest[..rest.len().min(room)];
    if room < HEADER {
        return seen_behind_all(here);
    }
    let [a, b, c, d, low, high, kind, behind @ ..] = here else {
        return Seen::End;
    };
    let stored = u32::from_le_bytes([*a, *b, *c, *d]);
    let length = usize::from(u16::from_le_bytes([*low, *high]));
    if HEADER + length > room {
        return Seen::Fault(Fault {
            why: Why::FragmentLength,
            found: length as u64,
            wanted: (room - HEADER) as u64,
        });
    }
    match behind.get(..length) {
        Some(data) => judged(*kind, stored, data),
        None => Seen::End,
    }
}

// The last bytes of a block, where no fragment begins.
fn seen_behind_all(here: &[u8]) -> Seen {
    if here.iter().all(|byte| *byte == 0) {
        return Seen::Zeros;
    }
    Seen::Fault(fault_of(Why::Padding, 0))
}

// A whole fragment.
fn judged(kind: u8, stored: u32, data: &[u8]) -> Seen {
    let found = mask(crc32c(&[kind], data));
    if stored != found {
        return Seen::Fault(Fault {
            why: Why::FragmentChecksum,
            found: u64::from(found),
            wanted: u64::from(stored),
        });
    }
    if kind == 0 || kind > 4 {
        return Seen::Fault(fault_of(Why::FragmentType, kind));
    }
    Seen::Fragment(kind, HEADER + data.len())
}

// Whether a fragment of this type goes on with a record: MIDDLE and LAST.
fn continues(kind: u8) -> bool {
    kind == 3 || kind == 4
}

// Whether the record goes on in a later fragment: FIRST and MIDDLE.
fn is_continued(kind: u8) -> bool {
    kind == 2 || kind == 3
}

// Where the record of this number, from 0 on, begins in a log that has no fault.
fn record_at(bytes: &[u8], number: usize) -> u64 {
    let mut at = 0_usize;
    let mut left = number;
    for _ in 0..u64::MAX {
        match seen_at(bytes, at) {
            Seen::End | Seen::Fault(_) => break,
            Seen::Zeros => at = block_behind(at),
            Seen::Fragment(kind, length) => {
                if left == 0 {
                    break;
                }
                if !is_continued(kind) {
                    left -= 1;
                }
                at = at.saturating_add(length);
            }
        }
    }
    at as u64
}

/// Says what is wrong with a log of batches, whose sequence numbers must be above this one.
pub fn batch_trouble(alloc: Global, name: &str, bytes: &[u8], last: u64, what: Damage) -> Trouble {
    let Ok((records, _)) = read_log(alloc, bytes) else {
        return fault_in(name, bytes, what);
    };
    let mut last = last;
    for (number, record) in records.iter().enumerate() {
        let Ok((sequence, batch)) = Batch::decode(alloc, record) else {
            return Trouble::of(Why::Batch, name).at(record_at(bytes, number));
        };
        let count = batch.into_operations().len() as u64;
        if count == 0 {
            continue;
        }
        if sequence <= last {
            let least = last.saturating_add(1);
            return Trouble::of(Why::Sequence, name)
                .at(record_at(bytes, number))
                .found(sequence, least);
        }
        last = sequence.saturating_add(count.saturating_sub(1));
    }
    Trouble::none()
}

/// Says what is wrong with a MANIFEST whose bytes are damaged.
pub fn manifest_trouble(alloc: Global, name: &str, bytes: &[u8], what: Damage) -> Trouble {
    let Ok((records, _)) = read_log(alloc, bytes) else {
        return fault_in(name, bytes, what);
    };
    for (number, record) in records.iter().enumerate() {
        if decode_edit(alloc, record).is_err() {
            return Trouble::of(Why::Edit, name).at(record_at(bytes, number));
        }
    }
    Trouble::of(Why::Edits, name)
}
