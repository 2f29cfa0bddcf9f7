//! Calls of the store, with the database's errors.

ghost use Rattle.std.specs.Prelude.{◌≡◌, ◌⊎◌, ℕ, List, [], None, IfErr, IsTrue, OnOk};
ghost use Rattle.std.specs.FinMap.{insert};
ghost use Rattle.coding.specs.declared.error.DbError.TheVariants.{OutOfMemory, Io};
ghost use Rattle.recover.specs.Reading.{IsCounted};
ghost use Rattle.store.specs.Calls.{Adds, FailsAsWrite, Idles};
ghost use Rattle.store.specs.Files.{AppendsBeginning, Creation};
ghost use Rattle.store.specs.Losses.{CarriesBut, PutsSynced, behind_sync};
ghost use Rattle.store.specs.Stops.{LeavesOnly, WritesOnly};
ghost use Rattle.directory_writes.specs.internal.Calls.{Touches, IsRefusalOf, Creates, AppendsSynced};

use coding::DbError;
use store::{Store, StoreError};

/// Returns why a call failed that doesn't look for a file.
pub fn refusal_of(error: StoreError) -> DbError
    ensures { IsRefusalOf error result }
{
    match error {
        StoreError::Memory => DbError::OutOfMemory,
        StoreError::Missing => DbError::Io,
        StoreError::Device => DbError::Io,
    }
}

/// Makes an empty file.
pub fn create_file<S: Store>(store: &mut S, name: &str) -> Result<(), DbError>
    ensures call { Touches (S.facts store.old) (S.facts store.new) }
    ensures fails { FailsAsWrite (S.facts store.old) (S.facts store.new) }
    ensures counted { IsCounted (S.facts store.old) (S.facts store.new) result }
    ensures refused { IfErr result (λ error. (error ≡ OutOfMemory) ⊎ (error ≡ Io)) }
    ensures creates { Creates (S.facts store.old) (S.facts store.new) name.now result }
    ensures stops { IsTrue (S.facts store.new).faithful → LeavesOnly (S.facts store.old) (S.facts store.new)
        (λ files. (files ≡ (S.facts store.old).files) ⊎ (files ≡ insert (S.facts store.old).files name.now [])) }
    ensures only { IsTrue (S.facts store.new).faithful → WritesOnly (S.facts store.old) (S.facts store.new) (λ (q : List ℕ). q ≡ name.now) }
    ensures noted { IsTrue (S.facts store.new).faithful → Idles (S.facts store.old) (S.facts store.new)
        ⊎ Adds (S.facts store.old) (S.facts store.new) (Creation name.now) }
    ensures unsynced { IsTrue (S.facts store.new).faithful → OnOk result ((S.facts store.new).synced name.now ≡ None) }
{
    match store.create(name) {
        Ok(()) => Ok(()),
        Err(error) => Err(refusal_of(error)),
    }
}

/// Appends bytes to a file, and syncs it.
pub fn append_synced<S: Store>(store: &mut S, name: &str, bytes: &[u8]) -> Result<(), DbError>
    ensures call { Touches (S.facts store.old) (S.facts store.new) }
    ensures fails { FailsAsWrite (S.facts store.old) (S.facts store.new) }
    ensures counted { IsCounted (S.facts store.old) (S.facts store.new) result }
    ensures refused { IfErr result (λ error. (error ≡ OutOfMemory) ⊎ (error ≡ Io)) }
    ensures appends { AppendsSynced (S.facts store.old) (S.facts store.new) name.now bytes.now result }
    ensures stops { IsTrue (S.facts store.new).faithful → LeavesOnly (S.facts store.old) (S.facts store.new)
        (λ files. AppendsBeginning (S.facts store.old).files files name.now bytes.now) }
    ensures carries { IsTrue (S.facts store.new).faithful → CarriesBut (S.facts store.old) (S.facts store.new) (λ (q : List ℕ). ⊥) }
    ensures puts { IsTrue (S.facts store.new).faithful → PutsSynced (S.facts store.old) (S.facts store.new) name.now bytes.now }
    ensures ends { IsTrue (S.facts store.new).faithful → OnOk result (behind_sync [] (S.facts store.new).calls ≡ []) }
{
    if let Err(error) = store.append(name, bytes) {
        return Err(refusal_of(error));
    }
    if let Err(error) = store.sync(name) {
        return Err(refusal_of(error));
    }
    Ok(())
}
