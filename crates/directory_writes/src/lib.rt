//! What an open database does to its directory while it serves (LevelDB's doc/impl.md). It appends
//! edits to the MANIFEST, begins logs, writes its memory into tables, and removes obsolete files.
#![tactic(auto)]

mod calls;
mod compaction_edits;
mod differing;
mod flush;
mod flush_edits;
mod install;
mod job_writes;
mod level0;
mod log_file;
mod manifest;
mod planned;
mod removal;

pub use calls::{create_file, refusal_of};
pub use compaction_edits::{
    deep_law, job_apart_law, job_done_law, job_folds_law, job_put_law, outputs_law, replaces_law,
    unused_law,
};
pub use differing::{
    append_edit_each_law, appends_each_law, each_file_law, free_each_law, free_file_law,
    one_change_law, same_change_law, same_file_law, writes_each_law, writes_tables_each_law,
};
pub use flush::{FlushError, FlushPlan, Flushed, flush_memory};
pub use flush_edits::flush_edit;
pub use install::{Installed, install_job};
pub use job_writes::{
    free_number_law, job_writes_each_law, job_writes_law, merging_each_law, same_outputs_law,
};
pub use level0::write_level0;
pub use log_file::begin_log;
pub use manifest::{CurrentManifest, append_edit};
pub use planned::{
    closed_plan_law, flushed_plan_law, own_sequences_law, planned_apart_law, planned_law,
};
pub use removal::{LiveTables, Removal, remove_files};
