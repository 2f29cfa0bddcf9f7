//! What a read goes over: memtables, and a store's tables with what is kept of them in memory,
//! each under a cursor.
#![tactic(auto)]

mod ends;
mod in_block;
mod memory_cursor;
mod memory_laws;
mod newest;
mod table_cursor;
mod table_laws;
mod table_search;
mod tables;

pub use memory_cursor::MemoryCursor;
pub use memory_laws::{kept_for_all_is_same, later_inserts_are_kept, seen_entries_have_the_view};
pub use newest::table_value;
pub use table_cursor::TableCursor;
pub use table_laws::told_for_all;
pub use tables::{Tables, empty_is_sound, sound_lasts, sound_stays};
