//! The memtables of an open database: the one that writes go to, the one that is sealed until a
//! table file has its entries, and those that open iterators still read.
#![tactic(auto)]

mod laws;
mod memories_cursor;
mod memory_tables;
mod motion;
mod users;

pub use laws::changes_are_kept;
pub use memories_cursor::MemoriesCursor;
pub use memory_tables::MemoryTables;
pub use users::Users;
