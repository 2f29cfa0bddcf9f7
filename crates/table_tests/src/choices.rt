// The choice of entries, beside what must be kept of them, said plainly.
use crate::compactions::{Deeper, is_rising};
use coding::SEQUENCE_END;
use compact::{Choice, Selection};
use ikey::{Bytewise, Kind};
use std::alloc::{AllocError, Global};
use std::test::*;

#[derive(Clone, Copy, PartialEq, Eq)]
struct Put {
    key: u8,
    sequence: u64,
    kind: Kind,
}

// A newer one of its key is there, up to the snapshot.
fn is_hidden(puts: &[Put], snapshot: u64, put: Put) -> bool {
    for other in puts {
        if other.key == put.key && other.sequence > put.sequence && other.sequence <= snapshot {
            return true;
        }
    }
    false
}

// One of the snapshots sees it and no newer one of its key.
fn is_visible(puts: &[Put], snapshots: &[u64], put: Put) -> bool {
    for snapshot in snapshots {
        if put.sequence <= *snapshot && !is_hidden(puts, *snapshot, put) {
            return true;
        }
    }
    false
}

// An older one of its key put something that one of the snapshots sees.
fn hides_a_put(puts: &[Put], snapshots: &[u64], put: Put) -> bool {
    for other in puts {
        if other.key == put.key
            && other.sequence < put.sequence
            && other.kind == Kind::Put
            && is_visible(puts, snapshots, *other)
        {
            return true;
        }
    }
    false
}

fn is_needed(puts: &[Put], snapshots: &[u64], deeper: Deeper, put: Put) -> bool {
    is_visible(puts, snapshots, put)
        && (put.kind == Kind::Put || deeper.has(put.key) || hides_a_put(puts, snapshots, put))
}

// What happened under the sequence number: nothing, a put or a delete of `a`, a put or a delete of
// `b`.
fn put_of(case: u32, sequence: u64) -> Option<Put> {
    let (key, kind) = match case {
        1 => (b'a', Kind::Put),
        2 => (b'a', Kind::Delete),
        3 => (b'b', Kind::Put),
        4 => (b'b', Kind::Delete),
        _ => return None,
    };
    Some(Put {
        key,
        sequence,
        kind,
    })
}

fn push(puts: &mut Vec<Put>, key: u8, digit: u32, sequence: u64) -> Result<(), AllocError> {
    match put_of(digit, sequence) {
        Some(put) if put.key == key => Ok(puts.push(put)?),
        Some(_) => Ok(()),
        None => Ok(()),
    }
}

// The versions of a key, the newest first: the digits of the case to the base 5 say what happened
// under each sequence number.
fn push_puts(puts: &mut Vec<Put>, case: u32, key: u8) -> Result<(), AllocError> {
    push(puts, key, case / 125 % 5, 4)?;
    push(puts, key, case / 25 % 5, 3)?;
    push(puts, key, case / 5 % 5, 2)?;
    push(puts, key, case % 5, 1)
}

fn needed_of(
    alloc: Global,
    came: &[Put],
    snapshots: &[u64],
    deeper: Deeper,
) -> Result<Vec<Put>, AllocError> {
    let mut needed = Vec::new(alloc);
    for put in came {
        if is_needed(came, snapshots, deeper, *put) {
            needed.push(*put)?;
        }
    }
    Ok(needed)
}

fn write(chosen: &mut Vec<Put>, released: &[u64], put: Put) -> Result<(), AllocError> {
    for sequence in released {
        chosen.push(Put {
            key: put.key,
            sequence: *sequence,
            kind: Kind::Delete,
        })?;
    }
    chosen.push(put)?;
    Ok(())
}

// Takes an entry.
fn choose(
    selection: &mut Selection,
    chosen: &mut Vec<Put>,
    deeper: &Deeper,
    put: Put,
) -> Result<(), AllocError> {
    if put.sequence >= SEQUENCE_END {
        return Err(AllocError);
    }
    let key: &[u8] = if put.key == b'a' { b"a" } else { b"b" };
    match selection.take::<Bytewise, Deeper>(key, put.sequence, put.kind, deeper)? {
        Choice::Leave => Ok(()),
        Choice::Write => write(chosen, selection.released(), put),
    }
}

// Whether after each entry those are chosen that must be kept of all that came.
fn chooses(
    alloc: Global,
    puts: &[Put],
    snapshots: &[u64],
    deeper: Deeper,
) -> Result<bool, AllocError> {
    if !is_rising(snapshots) {
        return Ok(false);
    }
    let mut selection = Selection::new(alloc, snapshots)?;
    let mut chosen = Vec::new(alloc);
    for (place, put) in puts.iter().enumerate() {
        choose(&mut selection, &mut chosen, &deeper, *put)?;
        let came = puts.get(..place.saturating_add(1)).unwrap_or(&[]);
        if chosen != needed_of(alloc, came, snapshots, deeper)? {
            return Ok(false);
        }
    }
    Ok(true)
}

// Each set of sequence numbers up to 4 that has 4.
#[rattlefmt::skip]
const SNAPSHOTS: [&[u64]; 16] = [
    &[4], &[0, 4], &[1, 4], &[0, 1, 4], &[2, 4], &[0, 2, 4], &[1, 2, 4], &[0, 1, 2, 4],
    &[3, 4], &[0, 3, 4], &[1, 3, 4], &[0, 1, 3, 4], &[2, 3, 4], &[0, 2, 3, 4], &[1, 2, 3, 4], &[0, 1, 2, 3, 4],
];

const DEEPER: [Deeper; 4] = [
    Deeper { a: false, b: false },
    Deeper { a: true, b: false },
    Deeper { a: false, b: true },
    Deeper { a: true, b: true },
];

fn chooses_over_any(alloc: Global, puts: &[Put], snapshots: &[u64]) -> Result<bool, AllocError> {
    for deeper in DEEPER {
        if !chooses(alloc, puts, snapshots, deeper)? {
            return Ok(false);
        }
    }
    Ok(true)
}

// Whether it is so at each set of snapshots.
fn chooses_in_case(alloc: Global, case: u32) -> Result<bool, AllocError> {
    let mut puts = Vec::new(alloc);
    push_puts(&mut puts, case, b'a')?;
    push_puts(&mut puts, case, b'b')?;
    for snapshots in SNAPSHOTS {
        if !chooses_over_any(alloc, &puts, snapshots)? {
            return Ok(false);
        }
    }
    Ok(true)
}

#[test]
fn what_must_be_kept_is_chosen_and_nothing_else(rt: HostRuntime) {
    for case in 0..625 {
        assert!(rt;
            matches!(chooses_in_case(rt.alloc(), case), Ok(true)),
            "case {case}"
        );
    }
}
