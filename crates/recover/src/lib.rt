//! What the files of a database mean (LevelDB's doc/impl.md).
#![tactic(auto)]

mod checking;
mod comparing;
mod files;
mod laws;
mod listing;
mod located;
mod log_files;
mod logged;
mod manifest;
mod merging;
mod noting;
mod origins;
mod overview;
mod ranges;
mod reading;
mod replay;
mod report;
mod table_entries;
mod tables;
mod waiting;
mod walking;

pub use checking::check;
pub use laws::{
    append_law, appendable_law, begin_log_law, beyond_law, closed_law, compaction_law,
    distinct_law, edit_law, empty_law, extend_law, failed_append_law, failed_edit_law,
    failed_extend_law, flush_law, free_change_law, new_log_law, number_law, one_directory,
    one_manifest, recovered_law, reopen_law, same_manifest_law, unread_law,
};
pub use listing::{Listing, first_number, list_directory};
pub use origins::{Origin, file_entries};
pub use overview::{LogLength, Overview, overview_of};
pub use reading::{Recovered, read_directory};
pub use report::{LogSummary, Report, Summary, TableSummary};
pub use tables::{FoundTable, find_table};
