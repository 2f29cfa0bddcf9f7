//! A get through the tables of a version, read through caches (LevelDB's db/version_set.cc,
//! Version::Get).
#![tactic(auto)]

mod get;

pub use get::value_in_tables;
