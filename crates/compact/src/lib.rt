//! Compaction: which entries of some tables have to be kept, and jobs that write them into new
//! tables (LevelDB's doc/impl.md, "Compactions").
#![tactic(auto)]

mod chosen;
mod deeper;
mod job;
mod job_edit;
mod laws;
mod new_table;
mod outputs;
mod selection;

pub use deeper::{DeeperFiles, FilesBelow};
pub use job::{Job, Progress};
pub use laws::{
    needed_is_needed, one_choice, pairs_are_left, still_numbered, views_are_kept, views_are_of_sets,
};
pub use selection::{Choice, Selection};
