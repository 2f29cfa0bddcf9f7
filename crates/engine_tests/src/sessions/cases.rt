// Sessions one after the other over one store, and what each of them leaves.
use super::*;
use recover::{Report, TableSummary};

pub struct Case {
    pub name: &'static str,
    pub sizes: Sizes,
    // what is there at first
    pub files: Files<'static>,
    pub parts: &'static [Part],
}

// A session over what the one before has left.
pub struct Part {
    pub script: &'static [Line<'static>],
    pub left: &'static [Left],
}

// What is left.
pub enum Left {
    // These are the names of all files, in order and each ended by a semicolon.
    Names(&'static str),
    // The file of this name has these bytes and no more.
    Bytes(&'static str, &'static [u8]),
    // A check finds the directory consistent, with these tables: the level and the number of each,
    // and how many entries it has.
    Tables(&'static [(u32, u64, u64)]),
    // A check finds that this is the last sequence number used.
    LastSequence(u64),
    // A check refuses the directory so.
    Refused(DbError),
}

fn has_bytes(alloc: Global, store: &mut MemStore, name: &str, bytes: &[u8]) -> bool {
    matches!(store.read_at(alloc, name, 0, 1 << 20), Ok(read) if read.as_slice() == bytes)
}

fn has_names(alloc: Global, store: &mut MemStore, wanted: &str) -> bool {
    matches!(names_of(alloc, store), Ok(names) if names.as_str() == wanted)
}

fn are(tables: &[TableSummary], wanted: &[(u32, u64, u64)]) -> bool {
    if tables.len() != wanted.len() {
        return false;
    }
    tables.iter().zip(wanted).all(|(table, one)| (table.level, table.number, table.entries) == *one)
}

fn tells_tables(report: &Report, tables: &[(u32, u64, u64)]) -> bool {
    matches!(report, Report::Good(summary) if are(&summary.tables, tables))
}

pub fn has_tables(alloc: Global, store: &mut MemStore, tables: &[(u32, u64, u64)]) -> bool {
    matches!(checked(alloc, store), Ok(report) if tells_tables(&report, tables))
}

fn tells_last(report: &Report, sequence: u64) -> bool {
    matches!(report, Report::Good(summary) if summary.last_sequence == sequence)
}

fn is_last(alloc: Global, store: &mut MemStore, sequence: u64) -> bool {
    matches!(checked(alloc, store), Ok(report) if tells_last(&report, sequence))
}

fn is_refused(alloc: Global, store: &mut MemStore, refusal: DbError) -> bool {
    matches!(checked(alloc, store), Err(error) if error == refusal)
}

fn is_left(alloc: Global, store: &mut MemStore, left: &Left) -> bool {
    match left {
        Left::Names(names) => has_names(alloc, store, *names),
        Left::Bytes(name, bytes) => has_bytes(alloc, store, *name, *bytes),
        Left::Tables(tables) => has_tables(alloc, store, *tables),
        Left::LastSequence(sequence) => is_last(alloc, store, *sequence),
        Left::Refused(refusal) => is_refused(alloc, store, *refusal),
    }
}

fn assert_left(rt: &(impl Abort + AllocGlobal), store: &mut MemStore, name: &str, left: &[Left]) {
    for (number, one) in left.iter().enumerate() {
        assert!(rt;
            is_left(rt.alloc(), store, one),
            "{name}: what is left, {number}"
        );
    }
    assert!(rt; is_free(store), "{name}: the lock");
}

// Runs a part over a store, and gives the store back.
fn after_part(
    rt: &(impl Abort + AllocGlobal),
    store: MemStore,
    case: &Case,
    part: &Part,
) -> Result<MemStore, Fail> {
    let mut store = after_script(rt, store, case.sizes, part.script)?;
    assert_left(rt, &mut store, case.name, part.left);
    Ok(store)
}

fn assert_case(rt: &(impl Abort + AllocGlobal), case: &Case) -> Result<(), Fail> {
    let mut store = directory(rt.alloc(), case.files)?;
    for part in case.parts {
        store = after_part(rt, store, case, part)?;
    }
    Ok(())
}

pub fn assert_cases(rt: &(impl Abort + AllocGlobal), cases: &[Case]) -> Result<(), Fail> {
    for case in cases {
        assert_case(rt, case)?;
    }
    Ok(())
}
