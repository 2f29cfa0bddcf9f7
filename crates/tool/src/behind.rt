// The whole records that stand in a log after a place where it is damaged. For the eye alone.

use coding::{crc32c, mask};

// How many bytes a block of a log has, and a header.
const BLOCK: usize = 32_768;

const HEADER: usize = 7;

// How many bytes are summed at most. What is no record is hardly ever summed.
const SUMMED: usize = 1 << 28;

/// How many whole records there are, and whether all were looked for.
#[derive(Clone, Copy)]
pub struct Whole {
    pub records: u64,
    pub is_all: bool,
}

// What was found so far.
#[derive(Drop)]
struct Search {
    records: u64,
    // whether the first part of a record was the last that was found
    inside: bool,
    // how many bytes may still be summed
    left: usize,
}

/// Counts the whole records of a log after this place. Each byte is tried as the begin of a
/// fragment, since a hole may have taken the header that says where the next one is.
pub fn whole_records(bytes: &[u8], at: usize) -> Whole {
    let mut search = Search {
        records: 0,
        inside: false,
        left: SUMMED,
    };
    let mut passed = at.saturating_add(1);
    for place in at..bytes.len() {
        if place >= passed {
            passed = place.saturating_add(passed_at(bytes, place, &mut search));
        }
    }
    Whole {
        records: search.records,
        is_all: search.left > 0,
    }
}

// How many bytes are passed from this place on: a whole fragment, or one byte.
fn passed_at(bytes: &[u8], place: usize, search: &mut Search) -> usize {
    let room = BLOCK - place % BLOCK;
    let Some(rest) = bytes.get(place..) else {
        return 1;
    };
    let here = &rest[..rest.len().min(room)];
    let [a, b, c, d, low, high, kind, behind @ ..] = here else {
        return 1;
    };
    let length = usize::from(u16::from_le_bytes([*low, *high]));
    if *kind == 0 || *kind > 4 || length > search.left {
        return 1;
    }
    let Some(data) = behind.get(..length) else {
        return 1;
    };
    search.left = search.left.saturating_sub(length);
    if u32::from_le_bytes([*a, *b, *c, *d]) != mask(crc32c(&[*kind], data)) {
        return 1;
    }
    take(search, *kind);
    HEADER + length
}

// Takes a whole fragment in: FULL, FIRST, MIDDLE or LAST.
fn take(search: &mut Search, kind: u8) {
    if kind == 1 || kind == 4 && search.inside {
        search.records = search.records.saturating_add(1);
    }
    search.inside = kind == 2 || kind == 3 && search.inside;
}
