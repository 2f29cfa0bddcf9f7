//! Writing a table file to a store.

ghost use Rattle.std.specs.Prelude.{◌≡◌, ◌<◌, [], List, IsTrue, IfErr, OnOk};
ghost use Rattle.std.specs.FinMap.{get};
ghost use Rattle.coding.specs.declared.error.DbError.TheVariants.{Io};
ghost use Rattle.store.specs.Losses.{behind_sync};
ghost use Rattle.table.specs.Reading.{HasFile};
ghost use Rattle.table.specs.Steps.{Appended};
ghost use Rattle.table.specs.Writing.{Writes, WriteRefuses};

use crate::reading::refusal;
use coding::DbError;
use store::{Store, StoreError};

/// Creates the file, or empties the one that is there.
pub fn create<S: Store>(store: &mut S, name: &str) -> Result<(), DbError>
    ensures writes { Writes (S.facts store.old) (S.facts store.new) name.now }
    ensures created { OnOk result (IsTrue (S.facts store.new).faithful → HasFile (S.facts store.new) name.now []) }
    ensures stood { OnOk result ((S.facts store.new).failures ≡ (S.facts store.old).failures) }
    ensures refused { IfErr result (λ e. WriteRefuses e (S.facts store.old) (S.facts store.new) ⊥) }
{
    match store.create(name) {
        Ok(()) => Ok(()),
        Err(e) => Err(refusal(e)),
    }
}

/// Writes bytes at the end of the file. If it fails, it may have written a beginning of them.
pub fn append<S: Store>(store: &mut S, name: &str, bytes: &[u8]) -> Result<(), DbError>
    ensures writes { Writes (S.facts store.old) (S.facts store.new) name.now }
    ensures appended { OnOk result (Appended (S.facts store.old) (S.facts store.new) name.now bytes.now) }
    ensures stood { OnOk result ((S.facts store.new).failures ≡ (S.facts store.old).failures) }
    ensures refused { IfErr result (λ e. WriteRefuses e (S.facts store.old) (S.facts store.new) ⊥) }
{
    match store.append(name, bytes) {
        Ok(()) => Ok(()),
        Err(e) => Err(refusal(e)),
    }
}

/// Syncs the file of a table as it is now. Io: that failed.
pub fn sync<S: Store>(store: &mut S, name: &str) -> Result<(), DbError>
    ensures writes { Writes (S.facts store.old) (S.facts store.new) name.now }
    ensures files { IsTrue (S.facts store.new).faithful → (S.facts store.new).files ≡ (S.facts store.old).files }
    ensures synced { OnOk result (IsTrue (S.facts store.new).faithful → (S.facts store.new).synced name.now ≡ get (S.facts store.new).files name.now) }
    ensures ends { IsTrue (S.facts store.new).faithful → OnOk result (behind_sync [] (S.facts store.new).calls ≡ []) }
    ensures stood { OnOk result ((S.facts store.new).failures ≡ (S.facts store.old).failures) }
    ensures refused { IfErr result (λ e. (e ≡ Io) × ((S.facts store.old).failures < (S.facts store.new).failures)) }
{
    match store.sync(name) {
        Ok(()) => Ok(()),
        Err(StoreError::Memory) => unreachable!(),
        Err(StoreError::Missing) => unreachable!(),
        Err(StoreError::Device) => Err(DbError::Io),
    }
}
