//! Puts other bytes in the place of a file, by way of a temporary file.

ghost use Rattle.std.specs.Prelude.{◌≡◌, ◌⊎◌, ℕ, List, IfErr, IsTrue, OnOk};
ghost use Rattle.store.specs.Stops.{LeavesOnly, WritesOnly};
ghost use Rattle.mending.specs.Calls.{RefusesMend};
ghost use Rattle.mending.specs.Losing.{HaveNamesStayed, IsDurable, LosesBy, MayReplaceWhole};
ghost use Rattle.mending.specs.Replacing.{MayReplace, Replaces, Writes, refusal_for};

use coding::DbError;
use store::{Store, StoreError};

/// Replaces the bytes of a file: writes them to a temporary file, syncs that, renames it over the
/// other, and syncs that, too. A crash or a power loss in between leaves the old bytes or the new
/// ones.
pub fn replace_file<S: Store>(
    store: &mut S,
    temporary: &str,
    name: &str,
    bytes: &[u8],
) -> Result<(), DbError>
    ensures writes { Writes (S.facts store.old) (S.facts store.new) }
    ensures refused { IfErr result (λ error. RefusesMend error (S.facts store.old) (S.facts store.new) ⊥ ⊥) }
    ensures replaced { IsTrue (S.facts store.new).faithful → OnOk result
        (Replaces (S.facts store.old).files (S.facts store.new).files temporary.now name.now bytes.now) }
    ensures stops { IsTrue (S.facts store.new).faithful → LeavesOnly (S.facts store.old) (S.facts store.new)
        (λ files. MayReplace (S.facts store.old).files files temporary.now name.now bytes.now) }
    // A power loss at any moment leaves the old bytes, or as much of them as one left before; or
    // the new ones, all of them. After an Ok it leaves the new ones.
    ensures loses { IsTrue (S.facts store.new).faithful → HaveNamesStayed (S.facts store.old)
        → LosesBy (S.facts store.old) (S.facts store.new)
        (λ before lost. MayReplaceWhole before lost temporary.now name.now bytes.now) }
    ensures durable { IsTrue (S.facts store.new).faithful
        → OnOk result (IsDurable (S.facts store.new) name.now bytes.now) }
{
    // A law, for the proof alone.
    store.synced_law();
    write_file(store, temporary, bytes)?;
    if let Err(error) = store.rename(temporary, name) {
        return Err(refusal_of(error));
    }
    if let Err(error) = store.sync(name) {
        return Err(refusal_of(error));
    }
    Ok(())
}

// Writes the temporary file anew, and syncs it.
fn write_file<S: Store>(store: &mut S, temporary: &str, bytes: &[u8]) -> Result<(), DbError>
    ensures writes { Writes (S.facts store.old) (S.facts store.new) }
    ensures refused { IfErr result (λ error. RefusesMend error (S.facts store.old) (S.facts store.new) ⊥ ⊥) }
    ensures written { IsTrue (S.facts store.new).faithful
        → OnOk result (IsDurable (S.facts store.new) temporary.now bytes.now) }
    ensures only { IsTrue (S.facts store.new).faithful
        → WritesOnly (S.facts store.old) (S.facts store.new) (λ (q : List ℕ). q ≡ temporary.now) }
{
    if let Err(error) = store.create(temporary) {
        return Err(refusal_of(error));
    }
    if let Err(error) = store.append(temporary, bytes) {
        return Err(refusal_of(error));
    }
    if let Err(error) = store.sync(temporary) {
        return Err(refusal_of(error));
    }
    Ok(())
}

// Returns why a call was refused that doesn't look for a file.
fn refusal_of(error: StoreError) -> DbError
    ensures { result ≡ refusal_for error }
{
    match error {
        StoreError::Memory => DbError::OutOfMemory,
        StoreError::Missing => DbError::Io,
        StoreError::Device => DbError::Io,
    }
}
