//! The store's calls by which an open writes, with the database's errors.

ghost use Rattle.std.specs.Prelude.{◌≡◌, ◌≢◌, ◌⊎◌, IsTrue, List, [], OnOk, ℕ, false};
ghost use Rattle.std.specs.FinMap.{contains_key};
ghost use Rattle.edits.specs.Names.{name_of};
ghost use Rattle.edits.specs.declared.names.FileName.TheVariants.{Current};
ghost use Rattle.store.specs.Losses.{LosesOnly, StaysNamed, behind_sync};
ghost use Rattle.store.specs.Stops.{LeavesOnly, WritesOnly};
ghost use Rattle.opening.specs.internal.Calls.{KeepsOthers, Writes, MakesCurrent, SetsCurrent};
ghost use Rattle.opening.specs.Durable.{SyncsOnly};
ghost use Rattle.opening.specs.Losses.{LeavesUncut};
ghost use Rattle.opening.specs.internal.Durable.{WritesSynced, MakesSynced};
ghost use Rattle.opening.specs.internal.Renewing.{SetsThen, SetsWhole, StartsNew};

use coding::DbError;
use directory_writes::{create_file, refusal_of};
use store::Store;

/// Writes a file anew, and syncs it.
pub fn write_file<S: Store>(store: &mut S, name: &str, bytes: &[u8]) -> Result<(), DbError>
    ensures files { Writes (S.facts store.old) (S.facts store.new) name.now bytes.now result }
    ensures synced { WritesSynced (S.facts store.old) (S.facts store.new) name.now bytes.now result }
    ensures stops { IsTrue (S.facts store.new).faithful → WritesOnly (S.facts store.old) (S.facts store.new) (λ (q : List ℕ). q ≡ name.now) }
    ensures ends { IsTrue (S.facts store.new).faithful → OnOk result (behind_sync [] (S.facts store.new).calls ≡ []) }
    ensures starts { IsTrue (S.facts store.new).faithful → contains_key (S.facts store.old).files name.now ≡ false
        → StartsNew (S.facts store.old) (S.facts store.new) name.now }
{
    create_file(store, name)?;
    if let Err(error) = store.append(name, bytes) {
        return Err(refusal_of(error));
    }
    if let Err(error) = store.sync(name) {
        return Err(refusal_of(error));
    }
    Ok(())
}

/// Writes `CURRENT` by way of a temporary file that takes its name, and syncs that, so that what
/// the earlier `CURRENT` named may be removed. (LevelDB's db/filename.cc, SetCurrentFile, leaves
/// that to the order in which names reach the disk.)
pub fn make_current<S: Store>(store: &mut S, temporary: &str, bytes: &[u8]) -> Result<(), DbError>
    ensures files { MakesCurrent (S.facts store.old) (S.facts store.new) temporary.now bytes.now result }
    ensures synced { MakesSynced (S.facts store.old) (S.facts store.new) temporary.now bytes.now result }
    ensures stops { IsTrue (S.facts store.new).faithful → LeavesOnly (S.facts store.old) (S.facts store.new)
        (λ files. KeepsOthers (S.facts store.old).files files temporary.now
        ⊎ SetsCurrent (S.facts store.old).files files temporary.now bytes.now) }
    ensures ends { IsTrue (S.facts store.new).faithful → OnOk result (behind_sync [] (S.facts store.new).calls ≡ []) }
    // So does a power loss, if it truncates no file that was there.
    ensures loses { IsTrue (S.facts store.new).faithful → temporary.now ≢ name_of Current → ((name : List ℕ) → StaysNamed (S.facts store.old) name)
        → LosesOnly (S.facts store.old) (S.facts store.new) (λ lost. LeavesUncut (S.facts store.old) lost
        → KeepsOthers (S.facts store.old).files lost temporary.now ⊎ SetsCurrent (S.facts store.old).files lost temporary.now bytes.now) }
    // Call by call, and all of it if it succeeds.
    ensures sets { IsTrue (S.facts store.new).faithful → temporary.now ≢ name_of Current
        → SetsThen (S.facts store.old) (S.facts store.new) temporary.now bytes.now (λ last. last ≡ (S.facts store.new)) }
    ensures whole { IsTrue (S.facts store.new).faithful → temporary.now ≢ name_of Current
        → OnOk result (SetsWhole (S.facts store.old) (S.facts store.new) temporary.now bytes.now) }
{
    write_file(store, temporary, bytes)?;
    if let Err(error) = store.rename(temporary, "CURRENT") {
        return Err(refusal_of(error));
    }
    if let Err(error) = store.sync("CURRENT") {
        return Err(refusal_of(error));
    }
    Ok(())
}
