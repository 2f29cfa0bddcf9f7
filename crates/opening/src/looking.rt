//! What a directory holds, and what is in memory of it, before anything is done to it. This is the
//! half of an open that only reads (LevelDB's db/db_impl.cc, DBImpl::Recover).

ghost use Rattle.std.specs.Prelude.{◌≡◌, ◌≤◌, ◌<◌, ◌^◌, IfOk, IfErr, IfSome, IsTrue};
ghost use Rattle.coding.specs.declared.error.DbError.TheVariants.{OutOfMemory};
ghost use Rattle.edits.specs.Snapshot.{IsKept};
ghost use Rattle.ikey.specs.Orders.{order_of};
ghost use Rattle.recover.specs.Reading.{ReadsDirectory, IsCounted, IsListing, RefusesDirectory, IsBeyondReading};
ghost use Rattle.recover.specs.Entries.{RiseAbove, greatest};
ghost use Rattle.recover.specs.Ranges.{HaveRanges};
ghost use Rattle.versions.specs.Levels.{AreInOrder, HasLayout};
ghost use Rattle.opening.specs.Looking.{IsFound, IsProper, IsDamaged, RefusesLook, IsSealedOf};

use coding::{Damage, DbError, FileKind, ReadError};
use edits::Layout;
use ikey::{Entry, KeyOrder};
use memtables::MemoryTables;
use recover::{Listing, Recovered, list_directory, read_directory};
use std::alloc::{AllocError, Global};
use std::rc::Rc;
use store::Store;
use versions::Version;

/// Reads what is there: `None` if the directory is empty. No table is read. Corrupt: as
/// `read_directory`, and if there is a log or a table but no `CURRENT`. Unsupported: as
/// `read_directory`.
pub fn look<K: KeyOrder, S: Store>(
    alloc: Global,
    store: &mut S,
) -> Result<Option<Recovered>, DbError>
    ensures store { ReadsDirectory (S.facts store.old) (S.facts store.new) result }
    ensures counted { IsCounted (S.facts store.old) (S.facts store.new) result }
    ensures found { IfOk result (λ found. IsTrue (S.facts store.new).faithful → IsFound (order_of K.name K.cmp) (S.facts store.old).files found) }
    ensures proper { IfOk result (λ found. IfSome found (IsProper (order_of K.name K.cmp))) }
    ensures refused { IfErr result (λ error. RefusesLook (order_of K.name K.cmp) error (S.facts store.old) (S.facts store.new)) }
{
    let listing = list_directory(alloc, store)?;
    look_at::<K, S>(alloc, store, &listing)
}

/// Reads the same of a directory that was listed.
pub fn look_at<K: KeyOrder, S: Store>(
    alloc: Global,
    store: &mut S,
    listing: &Listing,
) -> Result<Option<Recovered>, DbError>
    ensures store { ReadsDirectory (S.facts store.old) (S.facts store.new) result }
    ensures counted { IsCounted (S.facts store.old) (S.facts store.new) result }
    ensures found { IfOk result (λ found. IsTrue (S.facts store.new).faithful → IsListing (S.facts store.old).files listing.now
        → IsFound (order_of K.name K.cmp) (S.facts store.old).files found) }
    ensures proper { IfOk result (λ found. IfSome found (IsProper (order_of K.name K.cmp))) }
    ensures refused { IfErr result (λ error. RefusesDirectory error (S.facts store.old) (S.facts store.new)
        (IsListing (S.facts store.old).files listing.now → IsDamaged (order_of K.name K.cmp) (S.facts store.old).files)
        (IsBeyondReading (order_of K.name K.cmp) (S.facts store.old).files)) }
{
    if listing.has_current {
        let recovered = read_directory::<K, S>(alloc, store, listing)?;
        return Ok(Some(recovered));
    }
    // An empty directory has neither a table nor a log.
    if listing.has_table {
        return Err(DbError::Corrupt(FileKind::Directory, Damage::Missing));
    }
    if !listing.logs.is_empty() {
        return Err(DbError::Corrupt(FileKind::Directory, Damage::Missing));
    }
    Ok(None)
}

/// Makes memtables of the entries of these logs, with the last sequence number used. They are
/// sealed if there are some, since nothing more is written to them. Logs of 2^32 entries, or of as
/// many bytes of keys and values, are answered as out of memory; a flush keeps the database's own
/// far below that.
pub fn sealed_memory<K: KeyOrder>(
    alloc: Global,
    entries: &[Entry],
    used: u64,
) -> Result<MemoryTables<K>, AllocError>
    requires rising { RiseAbove 0 entries.now }
    requires bounded { greatest entries.now ≤ used }
    requires fits { used < 2 ^ 56 }
    ensures { IfOk result (λ memory. IsSealedOf memory entries.now used) }
{
    let mut memory = MemoryTables::of(alloc, entries, used)?;
    if !entries.is_empty() {
        memory.seal(alloc)?;
    }
    Ok(memory)
}

/// Makes the version that has the tables of a layout. Tables whose ranges are in order make one, so
/// that it fails only out of memory.
pub fn version_of<K: KeyOrder>(alloc: Global, layout: &Layout) -> Result<Rc<Version<K>>, DbError>
    requires kept { IsKept layout.now }
    requires ranges { HaveRanges (order_of K.name K.cmp) layout.now.tables.items }
    ensures found { IfOk result (λ version. HasLayout layout.now.tables.items layout.now.compact_pointers.items version.value) }
    ensures order { IfOk result (λ version. AreInOrder K.cmp version.value.tables) }
    ensures memory { IfErr result (λ error. error ≡ OutOfMemory) }
{
    let version = match Version::<K>::new(alloc, layout) {
        Ok(version) => version,
        Err(ReadError::Memory) => return Err(DbError::OutOfMemory),
        Err(ReadError::Corrupt(what)) => return Err(DbError::Corrupt(FileKind::Manifest, what)),
        Err(ReadError::Unsupported(what)) => return Err(DbError::Unsupported(what)),
    };
    // For the proof alone: the tables are in order.
    let _tables = version.tables();
    let shared = Rc::new(alloc, version)?;
    Ok(shared)
}
