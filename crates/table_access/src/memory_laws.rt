//! Laws of what is seen of a memtable.

ghost use Rattle.std.specs.Prelude.{◌≡◌, ◌<◌, ◌≤◌, ◌++◌, ℕ, List, map};
ghost use Rattle.std.specs.List.{AllByRecursion};
ghost use Rattle.std.specs.declared.cmp.Ordering.{Ordering};
ghost use Rattle.ikey.specs.declared.entry.Entry.{Entry};
ghost use Rattle.ikey.specs.Entries.{entry_of};
ghost use Rattle.ikey.specs.Views.{Contents as View, IsView};
ghost use Rattle.memtable.specs.Contents.{Contents};
ghost use Rattle.table_access.specs.Memory.{MemoryPlace, KeepsMemory, seen_entries};

use ikey::KeyOrder;

/// Proves that what a reader at a sequence number sees of the inserts, it sees of the entries that
/// a cursor lists.
pub fn seen_entries_have_the_view()
    ensures { (cmp : List ℕ → List ℕ → Ordering) (inserts : List Entry) (sequence : ℕ) (view : View) → IsView inserts sequence view
        → IsView (map entry_of (seen_entries cmp inserts sequence)) sequence view }
{}

/// Proves that a cursor's list stays while entries of greater sequence numbers are added.
pub fn later_inserts_are_kept<K: KeyOrder>()
    ensures { (cursor : MemoryPlace) (old new : Contents) (more : List Entry) (sequence : ℕ) → cursor.sequence ≤ sequence
        → AllByRecursion (λ (entry : Entry). sequence < entry.sequence) more → new.inserts ≡ old.inserts ++ more
        → KeepsMemory K.cmp cursor old new }
{}

/// Proves that what leaves the lists of all cursors leaves the inserts.
pub fn kept_for_all_is_same<K: KeyOrder>()
    ensures { (old new : Contents) → ((cursor : MemoryPlace) → KeepsMemory K.cmp cursor old new) → old.inserts ≡ new.inserts }
{}
