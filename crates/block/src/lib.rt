//! Blocks of entries whose keys rise, each key stored without the front that it shares with the one
//! before (LevelDB's doc/table_format.md, table/block_builder.cc and table/block.cc).
#![tactic(auto)]

mod block_builder;
mod block_cursor;
mod checking;
mod entry;
mod sorted_block;
mod trailer;

pub use block_builder::BlockBuilder;
pub use block_cursor::BlockCursor;
pub use sorted_block::{Block, Bounds, MAX_BLOCK_LENGTH, one_block};
