//! What cursors over the memtables read after the tables have changed.

ghost use Rattle.std.specs.Prelude.{◌≡◌, ◌≤◌, ◌<◌, ℕ, List, IsSome};
ghost use Rattle.std.specs.List.{AllByRecursion};
ghost use Rattle.ikey.specs.declared.entry.Entry.{Entry};
ghost use Rattle.memtables.specs.Changes.{DropsSealed, IsSealed, HasMoreEntries};
ghost use Rattle.memtables.specs.Memories.{Memories, older_at, table_in};
ghost use Rattle.memtables.specs.Places.{MemoriesPlace, KeepsMemories, LeavesMemories};

use ikey::KeyOrder;
use table_access::later_inserts_are_kept;

/// Proves that a cursor's list stays while entries above its sequence number are written, its table
/// is sealed or flushed, and other tables are dropped, and over the moves of all cursors.
pub fn changes_are_kept<K: KeyOrder>()
    ensures written { (cursor : MemoriesPlace) (old new : Memories) (more : List Entry) (sequence : ℕ)
        → cursor.place.sequence ≤ sequence → AllByRecursion (λ (entry : Entry). sequence < entry.sequence) more → HasMoreEntries old new more
        → KeepsMemories K.cmp cursor old new }
    ensures sealed { (cursor : MemoriesPlace) (old new : Memories) → IsSome (table_in old cursor.generation) → IsSealed old new
        → KeepsMemories K.cmp cursor old new }
    ensures flushed { (cursor : MemoriesPlace) (old new : Memories) → DropsSealed old new → KeepsMemories K.cmp cursor old new }
    ensures dropped { (cursor : MemoriesPlace) (old new : Memories) → new ≡ record old { older = new.older }
        → older_at new.older cursor.generation ≡ older_at old.older cursor.generation → KeepsMemories K.cmp cursor old new }
    ensures left { (cursor : MemoriesPlace) (old new : Memories) → LeavesMemories old new → KeepsMemories K.cmp cursor old new }
{
    // Laws, for the proof alone.
    later_inserts_are_kept::<K>();
}
