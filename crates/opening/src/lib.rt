//! What an open finds in a directory and what it writes there, before there is a database. No
//! contract here names an open one (LevelDB's db/db_impl.cc, DBImpl::Recover and DBImpl::NewDB).
#![tactic(auto)]

mod beginning;
mod directory;
mod files;
mod finding;
mod laws;
mod looking;
mod rewriting;

pub use beginning::{Begun, begin};
pub use directory::{CurrentLog, DirectoryState};
pub use laws::{cut_each_law, cut_law, kept_each_law, kept_law, refused_each_law, spared_law};
pub use looking::{look, look_at, sealed_memory, version_of};
