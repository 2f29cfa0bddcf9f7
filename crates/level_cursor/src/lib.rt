//! A cursor over tables in a row, as those of a level below 0 lie (LevelDB's db/version_set.cc,
//! LevelFileNumIterator, under table/two_level_iterator.cc).
#![tactic(auto)]

mod in_table;
mod laws;
mod row_cursor;
mod row_search;

pub use in_table::InTable;
pub use laws::row_begins;
pub use row_cursor::RowCursor;
