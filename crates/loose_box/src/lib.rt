//! A box as its pointer: what a struct that crosses to C keeps of a value that C can't look into.
#![tactic(auto)]

mod loose;

pub use loose::Loose;
