//! What C may ask of an open database, over any store. Each call returns a number, and copies what
//! it read into the caller's bytes. The crate `wachuspi` exports these calls.
#![tactic(auto)]

mod codes;
mod filling;
mod folders;
mod handle;
mod moves;
mod opens;
mod room;
mod standings;
mod upkeep;
mod writes;

pub use codes::{
    CLOSED, MISUSED, NOT_FOUND, SYNC, WORK, WORK_REFUSED, number_of, snapshot_of, status,
};
pub use filling::Filled;
pub use folders::{CutFile, check_store, mend_store};
pub use handle::Handle;
pub use moves::Motion;
pub use opens::{mode_of, open};
pub use room::{Pair, copy_into};
pub use writes::{delete_into, put_into};
