//! A database that is looked at: its directory is read, and nothing in it is changed; begin at
//! reader.rt.
#![tactic(auto)]

mod beginning;
mod movement;
mod moving;
mod read_only;
mod reader;
mod reading;

pub use movement::Movement;
pub use moving::move_iterator;
pub use read_only::ReadOnly;
pub use reader::{Reader, ReaderWalk};
