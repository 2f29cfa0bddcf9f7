//! Cursors: a sorted list of entries and a place in it (LevelDB's include/leveldb/iterator.h). They
//! go over lists in memory, over several cursors merged, and over the pairs that are visible at a
//! sequence number.
#![tactic(auto)]

mod child;
mod children;
mod copying;
mod cursor;
mod laws;
mod list_cursor;
mod merge;
mod scanning;
mod standing;
mod stepping;
mod visible;
mod walking;

pub use copying::copy_to;
pub use cursor::Cursor;
pub use laws::{each_list_has_a_view, lists_have_a_union, views_agree};
pub use list_cursor::ListCursor;
pub use merge::{Merge, merge_begins};
pub use visible::Visible;
