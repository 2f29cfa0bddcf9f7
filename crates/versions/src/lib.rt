//! The tables of a database by level, and what to compact (LevelDB's doc/impl.md, and its
//! db/version_set.h and db/version_set.cc).
#![tactic(auto)]

mod applying;
mod choosing;
mod copying;
mod key_range;
mod laws;
mod level_uses;
mod live;
mod numbers;
mod ordering;
mod plan;
mod planning;
mod pointers;
mod run;
mod search;
mod searching;
mod user_key;
mod version;

pub use laws::{inputs_in_order, one_more_edit, plans_of_tables, searches_reach};
pub use level_uses::{LevelUse, uses_of_levels};
pub use live::LiveNumbers;
pub use plan::JobPlan;
pub use searching::covers;
pub use user_key::{one_user_key, user_of};
pub use version::Version;
