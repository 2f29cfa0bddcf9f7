//! Where a cursor over a row stands.

ghost use Rattle.std.specs.Prelude.{◌<◌, ◌+◌, ◌^◌};

use ikey::KeyOrder;
use table_access::TableCursor;

/// Holds a cursor in one of the consecutive tables.
#[derive(Drop)]
pub struct InTable<K: KeyOrder> {
    /// The index of the table among those of the row.
    pub index: usize,
    ghost fits: { index + 1 < 2 ^ 64 },
    pub cursor: TableCursor<K>,
}
