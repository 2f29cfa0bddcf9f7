//! Log files (LevelDB's doc/log_format.md): blocks of 32,768 bytes, which hold the fragments of
//! records. That document calls a fragment a record, and a record a user record.
#![tactic(auto)]

mod appending;
mod blocks;
mod fragment;
mod joining;
mod kind;
mod mending;
mod reading;
mod record;
mod writing;

pub use appending::{appended, beginnings, failed_append, one_writing, written_length};
pub use blocks::judge_block;
pub use mending::{
    broken_at, cut_is_no_log, front_of, holed, longest_front, most_records, whole_front, zeroed,
};
pub use reading::{each_block, faults_are_real, one_kind_of_fault, one_reading, read_log};
pub use record::Tail;
pub use writing::LogWriter;
