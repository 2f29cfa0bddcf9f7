//! Mends the MANIFEST and the logs of a database that a power loss left with zeros: each is cut
//! behind its last whole fragment. Nothing else is repaired.
#![tactic(auto)]

mod applying;
mod calls;
mod cutting;
mod ends;
mod finding;
mod layout;
mod planning;
mod replacing;

pub use applying::mend;
pub use cutting::{again, keeps_records, one_front};
pub use ends::Ends;
pub use finding::Cut;
pub use planning::{Plan, plan_cuts};
