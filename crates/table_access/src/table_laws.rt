//! Laws of what tables tell of keys.

ghost use Rattle.std.specs.Prelude.{ℕ, List, Option, map};
ghost use Rattle.edits.specs.declared.field.PlacedTable.{PlacedTable};
ghost use Rattle.ikey.specs.Entries.{InternalEntry, entry_of};
ghost use Rattle.table_access.specs.Possible.{MayHave};
ghost use Rattle.table_access.specs.Telling.{TellsOfKey};
ghost use Rattle.table_access.specs.Values.{IsLookUp};
ghost use Rattle.table.specs.Frame.{Frame, IsFrame};

use ikey::KeyOrder;

/// Proves that what a table's filter or its blocks tell of a key is what the key has in each list
/// that the table may be. So it holds of the table before it was damaged, if that had the blocks
/// that are intact.
pub fn told_for_all<K: KeyOrder>()
    ensures { (placed : PlacedTable) (file : List ℕ) (frame : Frame) (entries : List InternalEntry) (key : List ℕ) (sequence : ℕ) (value : Option (Option (List ℕ)))
        → IsFrame K.cmp file frame → MayHave K.cmp placed file frame entries → TellsOfKey K.cmp placed key sequence value file
        → IsLookUp (map entry_of entries) sequence key value }
{}
