//! What an open finds (LevelDB's db/db_impl.cc, DBImpl::Recover).

ghost use Rattle.std.specs.Prelude.{◌≡◌, [], IfOk, IfErr, IsTrue};
ghost use Rattle.ikey.specs.Orders.{order_of};
ghost use Rattle.store.specs.Files.{Files};
ghost use Rattle.edits.specs.Snapshot.{IsKept};
ghost use Rattle.recover.specs.Reading.{ReadsDirectory, IsCounted, IsListing};
ghost use Rattle.recover.specs.Directory.{IsEmpty};
ghost use Rattle.opening.specs.internal.Opening.{Finds, IsUsable, AllowsFiles, RefusesOpen, RefusesEmpty};

use crate::looking::look_at;
use coding::DbError;
use edits::{Layout, NUMBER_END};
use ikey::{Entry, KeyOrder};
use machine::Mode;
use recover::{Listing, LogSummary, first_number, list_directory};
use std::alloc::{AllocError, Global};
use store::Store;

/// Holds what an open found, and the file number that it draws.
#[derive(Drop)]
pub struct Found {
    /// The layout; one of nothing if there is no database.
    pub layout: Layout,
    /// The entries of the logs in use, as they were written.
    pub entries: Vec<Entry>,
    /// What is reported of each of these logs.
    pub logs: Vec<LogSummary>,
    /// The last sequence number used.
    pub used: u64,
    /// The number of the new MANIFEST; the new log has the next one.
    pub number: u64,
}

/// Reads what is there, if the mode allows it. No table is read. `NoDatabase`: the directory is
/// empty and a database is wanted. `Exists`: it has `CURRENT` and none is wanted. `NumbersSpent`:
/// the new numbers would be 2^62 or more. Corrupt: as `read_directory`, and in every mode if there
/// is a log or a table but no `CURRENT`. Unsupported: as `read_directory`.
pub fn find<K: KeyOrder, S: Store>(
    alloc: Global,
    store: &mut S,
    mode: Mode,
) -> Result<Found, DbError>
    ensures store { ReadsDirectory (S.facts store.old) (S.facts store.new) result }
    ensures counted { IsCounted (S.facts store.old) (S.facts store.new) result }
    ensures found { IfOk result (λ found. IsTrue (S.facts store.new).faithful
        → Finds (order_of K.name K.cmp) (S.facts store.old).files found) }
    ensures usable { IfOk result (IsUsable (order_of K.name K.cmp)) }
    ensures allowed { IfOk result (λ found. IsTrue (S.facts store.new).faithful → AllowsFiles mode (S.facts store.old).files) }
    ensures refused { IfErr result (λ error. RefusesOpen (order_of K.name K.cmp) mode error (S.facts store.old) (S.facts store.new)) }
{
    let listing = list_directory(alloc, store)?;
    if listing.has_current {
        if mode == Mode::New {
            return Err(DbError::Exists);
        }
    }
    let Some(recovered) = look_at::<K, S>(alloc, store, &listing)? else {
        return find_none::<K>(alloc, &listing, mode);
    };
    if recovered.next_number >= NUMBER_END - 1 {
        return Err(DbError::NumbersSpent);
    }
    Ok(Found {
        layout: recovered.layout,
        entries: recovered.entries,
        logs: recovered.logs,
        used: recovered.used,
        number: recovered.next_number,
    })
}

// What an open finds in an empty directory.
fn find_none<K: KeyOrder>(alloc: Global, listing: &Listing, mode: Mode) -> Result<Found, DbError>
    ensures found { IfOk result (λ found. (files : Files) → IsListing files listing.now → IsEmpty files → Finds (order_of K.name K.cmp) files found) }
    ensures usable { IfOk result (IsUsable (order_of K.name K.cmp)) }
    ensures allowed { IfOk result (λ found. (files : Files) → IsEmpty files → AllowsFiles mode files) }
    ensures refused { IfErr result (λ error. RefusesEmpty mode error listing.now) }
{
    if mode == Mode::Existing {
        return Err(DbError::NoDatabase);
    }
    let number = first_number(listing);
    if number >= NUMBER_END - 1 {
        return Err(DbError::NumbersSpent);
    }
    Ok(Found {
        layout: empty_layout(alloc)?,
        entries: Vec::new(alloc),
        logs: Vec::new(alloc),
        used: 0,
        number,
    })
}

// The layout of no edits.
fn empty_layout(alloc: Global) -> Result<Layout, AllocError>
    ensures kept { IfOk result IsKept }
    ensures tables { IfOk result (λ layout. layout.tables.items ≡ []) }
{
    // One for each of the seven levels.
    let compact_pointers = Vec::from_array(alloc, [None, None, None, None, None, None, None])?;
    Ok(Layout {
        log_number: 0,
        previous_log_number: 0,
        next_file_number: 0,
        last_sequence: 0,
        compact_pointers,
        tables: Vec::new(alloc),
    })
}
