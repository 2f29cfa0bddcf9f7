// That tables and their blocks have the sizes that the options ask for.
use super::*;
use batch::Operation;
use coding::Bytes;
use engine::Mode;
use std::test::Fail;

// How many entries are written, each with a key of one byte and a value of a hundred.
const ENTRIES: u8 = 60;

fn operations(alloc: Global) -> Result<Vec<Operation>, DbError> {
    let mut operations = Vec::new(alloc);
    for byte in 0..ENTRIES {
        let key = Bytes::copied_from(alloc, &[byte])?;
        let value = Bytes::copied_from(alloc, &[byte; 100])?;
        operations.push(Operation::Put(key, value))?;
    }
    Ok(operations)
}

// How many table files there are, and how many bytes they have in all.
fn tables_in(alloc: Global, store: &mut MemStore) -> Result<(usize, u64), DbError> {
    let mut found = (0_usize, 0_u64);
    for name in listed(alloc, store)?.iter() {
        if !name.as_bytes().ends_with(b".ldb") {
            continue;
        }
        match store.len(name.as_str()) {
            Ok(length) => found = (found.0.saturating_add(1), found.1.saturating_add(length)),
            Err(_) => return Err(DbError::Io),
        }
    }
    Ok(found)
}

// The tables after one batch of all entries, which is flushed, and then compacted if asked.
fn tables_after(alloc: Global, sizes: Sizes, compacts: bool) -> Result<(usize, u64), Fail> {
    let mut session = session(alloc, MemStore::new(alloc), sizes)?;
    let ops = [
        Op::Open(Mode::New),
        Op::Write(operations(alloc)?, false),
        Op::Work(1),
        Op::Work(1),
    ];
    let mut answers = Vec::new(alloc);
    given_all(alloc, &mut session, &ops, &mut answers)?;
    if compacts {
        given(alloc, &mut session, &Op::CompactAll);
    }
    // (which removes obsolete files)
    given(alloc, &mut session, &Op::Work(1));
    let mut store = session.into_store();
    Ok(tables_in(alloc, &mut store)?)
}

// Options, whether all is compacted, how many tables there are then, and the least and the most
// bytes that they have. With a block for each entry they have a third more.
const CASES: &[(Sizes, bool, usize, u64, u64)] = &[
    (EAGER, false, 1, 6_500, 7_500),
    (
        [1, 1, 2_097_152, 4, 10_485_760, 1_024],
        false,
        1,
        8_500,
        10_000,
    ),
    (EAGER, true, 1, 6_500, 7_500),
    (
        [1, 1, 2_097_152, 4, 10_485_760, 1_024],
        true,
        1,
        8_500,
        10_000,
    ),
    (
        [1, 4_096, 1, 4, 10_485_760, 1_024],
        true,
        60,
        10_000,
        20_000,
    ),
];

#[test]
fn tables_and_blocks_are_as_large_as_the_options_say(rt: HostRuntime) -> Result<(), Fail> {
    for (sizes, compacts, files, least, most) in CASES {
        let (found, bytes) = tables_after(rt.alloc(), *sizes, *compacts)?;
        assert_eq!(rt; found, *files, "{sizes:?}");
        assert!(rt;
            *least <= bytes && bytes <= *most,
            "{sizes:?}: {bytes} bytes"
        );
    }
    Ok(())
}
