//! A directory of named files, by the calls that a database makes of it.
#![tactic(auto)]

mod counters;
mod doubts;
mod error;
mod failure;
mod fault_store;
mod file_store;
mod folder;
mod has_store;
mod identity;
mod laws;
mod mem_file;
mod memory;
mod names;
mod past;
mod store;
mod trouble;
mod words;

pub use error::StoreError;
pub use fault_store::{Extent, Fault, FaultStore, Plan};
pub use file_store::FileStore;
pub use has_store::HasStore;
pub use laws::{left_now, left_since, lost_since};
pub use memory::MemStore;
pub use store::Store;
pub use trouble::{ShortName, Trouble, Why};
