//! Directories whose MANIFEST and logs a power loss left with zeros.
use coding::{Damage, DbError, FileKind};
use ikey::Bytewise;
use mending::{Ends, Plan, mend, plan_cuts};
use std::alloc::{AllocError, Global};
use std::test::*;
use store::{Extent, Fault, FaultStore, MemStore, Plan as FaultPlan, Store, StoreError};

// A MANIFEST of one edit: LevelDB's order, log 3, no previous log, next file 4, no sequence number.
const MANIFEST: &[u8] =
    b"4x\xa5A$\0\x01\x01\x1aleveldb.BytewiseComparator\x02\x03\x09\0\x03\x04\x04\0";

// A log of one write batch: put `a` = `1` at sequence number 1.
const ONE: &[u8] = b"\xe9\x9f\x78\x19\x11\0\x01\x01\0\0\0\0\0\0\0\x01\0\0\0\x01\x01a\x011";

// The same with one bit of its key flipped.
const FLIPPED: &[u8] = b"\xe9\x9f\x78\x19\x11\0\x01\x01\0\0\0\0\0\0\0\x01\0\0\0\x01\x01c\x011";

// What reached the disk of it, and of it without its last four bytes.
const BEGUN: &[u8] = b"\xe9\x9f\x78\x19\x11\0\x01\x01\0\0";

const SHORT: &[u8] = b"\xe9\x9f\x78\x19\x11\0\x01\x01\0\0\0\0\0\0\0\x01\0\0\0\x01";

// Parts of a file: bytes, and how many zeros stand behind them.
type Parts = &'static [(&'static [u8], usize)];

// The parts of the MANIFEST and of the log, which ends are cut, and how many bytes of both are
// left. None: it is refused.
type Case = (Parts, Parts, Ends, Option<(usize, usize)>);

const ZEROS: &[Case] = &[
    (&[(MANIFEST, 0)], &[(ONE, 0)], Ends::Zeros, Some((43, 24))),
    (&[(MANIFEST, 0)], &[], Ends::Zeros, Some((43, 0))),
    (
        &[(MANIFEST, 0)],
        &[(ONE, 0), (BEGUN, 0)],
        Ends::Zeros,
        Some((43, 34)),
    ),
    (&[(MANIFEST, 0)], &[(ONE, 30)], Ends::Zeros, Some((43, 24))),
    (
        &[(MANIFEST, 0)],
        &[(ONE, 33_000)],
        Ends::Zeros,
        Some((43, 24)),
    ),
    (
        &[(MANIFEST, 0)],
        &[(ONE, 0), (SHORT, 4)],
        Ends::Zeros,
        Some((43, 24)),
    ),
    (
        &[(MANIFEST, 0)],
        &[(ONE, 0), (SHORT, 90)],
        Ends::Zeros,
        Some((43, 24)),
    ),
    (&[(MANIFEST, 40)], &[(ONE, 0)], Ends::Zeros, Some((43, 24))),
    (
        &[(MANIFEST, 9)],
        &[(ONE, 0), (ONE, 8)],
        Ends::Zeros,
        Some((43, 48)),
    ),
];

const HOLES: &[Case] = &[
    (&[(MANIFEST, 0)], &[(ONE, 488), (ONE, 0)], Ends::Zeros, None),
    (
        &[(MANIFEST, 0)],
        &[(ONE, 488), (ONE, 0)],
        Ends::Holes,
        Some((43, 24)),
    ),
    (
        &[(MANIFEST, 0)],
        &[(ONE, 0), (SHORT, 468), (ONE, 0)],
        Ends::Holes,
        Some((43, 24)),
    ),
    (&[(MANIFEST, 0)], &[(ONE, 30)], Ends::Holes, Some((43, 24))),
    (&[(MANIFEST, 0)], &[(ONE, 0)], Ends::Holes, Some((43, 24))),
];

const DAMAGED: &[Case] = &[
    (
        &[(MANIFEST, 0)],
        &[(ONE, 0), (FLIPPED, 0), (ONE, 0)],
        Ends::Zeros,
        None,
    ),
    (
        &[(MANIFEST, 0)],
        &[(ONE, 0), (FLIPPED, 0), (ONE, 0)],
        Ends::Holes,
        None,
    ),
    (
        &[(MANIFEST, 40)],
        &[(FLIPPED, 0), (ONE, 0)],
        Ends::Zeros,
        None,
    ),
    (
        &[(MANIFEST, 0)],
        &[(ONE, 0), (FLIPPED, 0)],
        Ends::Zeros,
        None,
    ),
    (
        &[(MANIFEST, 0)],
        &[(ONE, 0), (FLIPPED, 0)],
        Ends::Holes,
        None,
    ),
];

fn joined(alloc: Global, parts: Parts) -> Result<Vec<u8>, AllocError> {
    let mut bytes = Vec::new(alloc);
    for (part, zeros) in parts {
        bytes.extend_from_slice(part)?;
        let length = bytes.len().saturating_add(*zeros);
        bytes.resize(length, 0)?;
    }
    Ok(bytes)
}

fn put(store: &mut MemStore, name: &str, bytes: &[u8]) -> Result<(), StoreError> {
    store.create(name)?;
    store.append(name, bytes)
}

// A directory of these: `CURRENT` names the MANIFEST, and the log 1 isn't in use.
fn directory(alloc: Global, manifest: &[u8], log: &[u8]) -> Result<MemStore, StoreError> {
    let mut store = MemStore::new(alloc);
    put(&mut store, "CURRENT", b"MANIFEST-000002\n")?;
    put(&mut store, "MANIFEST-000002", manifest)?;
    put(&mut store, "000001.log", FLIPPED)?;
    put(&mut store, "000003.log", log)?;
    Ok(store)
}

fn holds(
    alloc: Global,
    store: &mut MemStore,
    name: &str,
    bytes: &[u8],
) -> Result<bool, StoreError> {
    let count = bytes.len().saturating_add(1);
    Ok(store.read_at(alloc, name, 0, count)?.as_slice() == bytes)
}

// Whether these are the files, besides `LOCK` if it is there.
fn is_left(
    alloc: Global,
    store: &mut MemStore,
    manifest: &[u8],
    log: &[u8],
) -> Result<bool, StoreError> {
    let mut others: usize = 0;
    for name in &store.list(alloc)? {
        if name.as_str() != "LOCK" {
            others = others.saturating_add(1);
        }
    }
    Ok(
        others == 4
            && holds(alloc, store, "CURRENT", b"MANIFEST-000002\n")?
            && holds(alloc, store, "MANIFEST-000002", manifest)?
            && holds(alloc, store, "000001.log", FLIPPED)?
            && holds(alloc, store, "000003.log", log)?,
    )
}

// Whether the plan cuts a file of so many bytes behind so many of them, or not if all stay.
fn cuts(plan: &Plan, whole: usize, left: usize) -> bool {
    let most = whole.saturating_sub(left) as u64;
    let found = plan.cuts.iter().any(|cut| {
        cut.length == whole as u64 && cut.front.len() == left && cut.zeros <= most
    });
    found == (left < whole)
}

// Whether the files are cut so, and need nothing more.
fn is_mended(
    alloc: Global,
    store: &mut MemStore,
    plan: &Plan,
    files: (Vec<u8>, Vec<u8>),
    left: (usize, usize),
) -> Result<bool, StoreError> {
    let (mut manifest, mut log) = files;
    let is_planned = cuts(plan, manifest.len(), left.0) && cuts(plan, log.len(), left.1);
    manifest.truncate(left.0);
    log.truncate(left.1);
    Ok(is_planned && is_left(alloc, store, &manifest, &log)?)
}

fn mends(alloc: Global, case: &Case) -> Result<bool, StoreError> {
    let (manifest, log, ends, left) = case;
    let manifest = joined(alloc, manifest)?;
    let log = joined(alloc, log)?;
    let mut store = directory(alloc, &manifest, &log)?;
    match (mend::<Bytewise, MemStore>(alloc, &mut store, *ends), left) {
        (Ok(plan), Some(left)) => is_mended(alloc, &mut store, &plan, (manifest, log), *left),
        (Err(DbError::Corrupt(FileKind::Log, Damage::Checksum)), None) => {
            is_left(alloc, &mut store, &manifest, &log)
        }
        _ => Ok(false),
    }
}

// The number of the first case that isn't as it says.
fn first_wrong(alloc: Global, cases: &[Case]) -> Result<Option<usize>, StoreError> {
    for (number, case) in cases.iter().enumerate() {
        if !mends(alloc, case)? {
            return Ok(Some(number));
        }
    }
    Ok(None)
}

#[test]
fn zeros_at_an_end_are_cut_off(rt: HostRuntime) {
    assert_eq!(rt; first_wrong(rt.alloc(), ZEROS), Ok(None));
}

#[test]
fn holes_are_cut_off_if_asked_for(rt: HostRuntime) {
    assert_eq!(rt; first_wrong(rt.alloc(), HOLES), Ok(None));
}

#[test]
fn other_damage_is_refused_and_nothing_changed(rt: HostRuntime) {
    assert_eq!(rt; first_wrong(rt.alloc(), DAMAGED), Ok(None));
}

// A directory whose MANIFEST and log are both cut.
fn broken(alloc: Global) -> Result<MemStore, StoreError> {
    let manifest = joined(alloc, &[(MANIFEST, 40)])?;
    let log = joined(alloc, &[(ONE, 0), (SHORT, 90)])?;
    directory(alloc, &manifest, &log)
}

fn mends_all(alloc: Global, store: &mut MemStore) -> Result<bool, StoreError> {
    Ok(
        mend::<Bytewise, MemStore>(alloc, store, Ends::Zeros).is_ok()
            && is_left(alloc, store, MANIFEST, ONE)?,
    )
}

// Whether mending that stops in this call is finished by mending again.
fn goes_on(alloc: Global, call: u64, extent: Extent) -> Result<bool, StoreError> {
    let fault = Fault::Stop(extent);
    let mut store = FaultStore::new(broken(alloc)?, Some(FaultPlan { call, fault }));
    let done = mend::<Bytewise, FaultStore>(alloc, &mut store, Ends::Zeros);
    let mut left = store.remains()?;
    Ok(done.is_ok() == (store.calls() < call) && mends_all(alloc, &mut left)?)
}

// The first call in which a stop leaves what isn't mended afterwards.
fn first_stuck(alloc: Global) -> Result<Option<u64>, StoreError> {
    for call in 1..24 {
        for extent in [Extent::Before, Extent::After, Extent::Part(10)] {
            if !goes_on(alloc, call, extent)? {
                return Ok(Some(call));
            }
        }
    }
    Ok(None)
}

#[test]
fn a_stop_at_each_call_is_mended_later(rt: HostRuntime) {
    assert_eq!(rt; first_stuck(rt.alloc()), Ok(None));
}

// Whether a plan says what is cut of each file, and changes nothing.
fn is_only_planned(alloc: Global) -> Result<bool, StoreError> {
    let mut store = broken(alloc)?;
    let Ok(plan) = plan_cuts::<Bytewise, MemStore>(alloc, &mut store, Ends::Zeros) else {
        return Ok(false);
    };
    let files = (
        joined(alloc, &[(MANIFEST, 40)])?,
        joined(alloc, &[(ONE, 0), (SHORT, 90)])?,
    );
    Ok(
        plan.manifest == Some(2)
            && plan.cuts.len() == 2
            && cuts(&plan, files.0.len(), 43)
            && cuts(&plan, files.1.len(), 24)
            && is_left(alloc, &mut store, &files.0, &files.1)?,
    )
}

#[test]
fn a_plan_changes_nothing(rt: HostRuntime) {
    assert_eq!(rt; is_only_planned(rt.alloc()), Ok(true));
}

// Whether a directory without `CURRENT` stays as it is.
fn is_let_alone(alloc: Global) -> Result<bool, StoreError> {
    let mut store = MemStore::new(alloc);
    put(&mut store, "000003.log", FLIPPED)?;
    Ok(
        matches!(
        mend::<Bytewise, MemStore>(alloc, &mut store, Ends::Holes),
        Ok(plan) if plan.manifest.is_none() && plan.cuts.is_empty()
    ) && holds(alloc, &mut store, "000003.log", FLIPPED)?,
    )
}

#[test]
fn nothing_is_mended_without_a_current(rt: HostRuntime) {
    assert_eq!(rt; is_let_alone(rt.alloc()), Ok(true));
}
