//! The abstract machine that a database is: a map and the batches that were written, its commands
//! and what they are answered. Nothing runs here; the crates above are proved to answer as it does.
#![tactic(auto)]

mod command;

pub use command::{Answer, Mode, Op};
