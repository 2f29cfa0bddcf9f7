//! Write batches: operations that are applied together, and their bytes (LevelDB's
//! db/write_batch.cc).
#![tactic(auto)]

mod limits;
mod operation;
mod reading;
mod write_batch;
mod writing;

pub use limits::{refusal, refusal_with_one_more};
pub use operation::Operation;
pub use write_batch::{Batch, one_batch};
pub use writing::{encode_operations, encode_operations_into, encoding_length};
