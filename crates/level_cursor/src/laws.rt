//! Laws of cursors over rows of tables.

ghost use Rattle.std.specs.Prelude.{◌≡◌, List, None, map};
ghost use Rattle.cursor.specs.Merging.{listed};
ghost use Rattle.ikey.specs.Entries.{InternalEntry, entry_of};
ghost use Rattle.ikey.specs.Orders.{order_of};
ghost use Rattle.ikey.specs.Sources.{AreInRow, joined};
ghost use Rattle.recover.specs.Tables.{TableContent};
ghost use Rattle.level_cursor.specs.declared.row_cursor.RowCursor.{RowCursor};
ghost use Rattle.level_cursor.specs.Rows.{ListsRow, MayBeTables, rows_tables};
ghost use Rattle.version_laws.specs.Places.{lists_of};
ghost use Rattle.table_access.specs.Tables.{IsSound, Seen};

use ikey::KeyOrder;

/// Proves that a cursor over tables whose entries lie in a row begins with their list, whichever
/// entries they may have, and stands nowhere.
pub fn row_begins<K: KeyOrder>()
    ensures { (source : Seen) (contents : List TableContent) → IsSound K.cmp source
        → MayBeTables (order_of K.name K.cmp) source.facts.files contents → AreInRow (order_of K.name K.cmp) (lists_of contents)
        → (entries : List InternalEntry) × (map entry_of entries ≡ joined (lists_of contents))
        × ((cursor : RowCursor K K.KeyOrder) → rows_tables cursor ≡ map (λ content. content.placed) contents → cursor.here ≡ None
        → ListsRow K.cmp source cursor (listed entries None)) }
{}
