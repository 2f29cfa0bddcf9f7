//! Version edits, the layout that the edits of a MANIFEST leave, and the names of files
//! (LevelDB's doc/impl.md, its db/version_edit.cc and db/filename.cc).
#![tactic(auto)]

mod field;
mod folding;
mod layout;
mod names;
mod numbers;
mod reading;
mod snapshot;
mod spelling;
mod table_set;
mod tables;
mod version_edit;
mod writing;

pub use field::{Field, PlacedTable, TableFile};
pub use folding::{fold_edits, one_layout};
pub use layout::{LEVELS, Layout};
pub use names::{FileName, one_name, parse_name, print_name};
pub use numbers::{FileNumbers, NUMBER_END};
pub use reading::decode_edit;
pub use snapshot::{layouts_are_kept, snapshot_edit};
pub use tables::copy_of;
pub use version_edit::{Edit, one_edit};
pub use writing::encode_edit;
