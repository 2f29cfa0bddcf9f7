//! A compaction that is under way over what an open database reads. It is begun, goes on by steps
//! with a budget of entries, and lives on while others write, read and flush (LevelDB's
//! db/db_impl.cc, DBImpl::BackgroundCompaction).
#![tactic(auto)]

mod laws;
mod naming;
mod open_job;

pub use laws::{may_run_stays, running_stays, running_stays_beside};
pub use open_job::OpenJob;
