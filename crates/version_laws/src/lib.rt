//! What a search through the tables of a version tells of all entries (LevelDB's db/version_set.cc,
//! Version::Get).
#![tactic(auto)]

mod laws;

pub use laws::{
    answered_place, goes_on, has_ended, is_found, memory_in_front, passed_place, searched_table,
    version_fits, version_is_kept, version_of_directory, version_of_part,
};
