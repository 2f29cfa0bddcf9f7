//! What the iterators of a database go over: its memtables and the tables of a version, merged into
//! one list. What a compaction goes over: those tables alone.
#![tactic(auto)]

mod beginning;
mod inputs;
mod laws;
mod scan;
mod source;
mod source_cursor;

pub use inputs::{inputs_read_apart, merge_stays, merge_tables, moves_read_no_memory};
pub use laws::{origin_stays, origins_fit, same_origin, writes_are_kept};
pub use scan::Scan;
pub use source::Sources;
pub use source_cursor::SourceCursor;
