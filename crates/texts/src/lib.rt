//! Byte strings as text that comes back: written with escapes, and read from them.
#![tactic(auto)]

mod law;
mod objects;
mod reading;
mod writing;

pub use law::{json_is_read, texts_are_read, words_are_read};
pub use objects::{push_key_object, push_pair_object};
pub use reading::read_text;
pub use writing::{push_text, push_word};
