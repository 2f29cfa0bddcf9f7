//! What a power loss that left zeros leaves of an open database, once it is mended.
#![tactic(auto)]

mod laws;

pub use laws::{mended_cut, mended_ends};
