//! Scripts: lines of text that say commands of a database, and the lines that answer them.
#![tactic(auto)]

mod answer;
mod arguments;
mod batch_words;
mod compaction;
mod fault;
mod gathered;
mod import_options;
mod importing;
mod input;
mod line;
mod listener;
mod misread;
mod output;
mod run;
mod steps;
mod verb;
mod way;
mod word;

pub use answer::{answer_line, bytes_text, push_bytes};
pub use compaction::compact;
pub use fault::Fault;
pub use import_options::Importing;
pub use importing::import;
pub use input::read_next_line;
pub use line::{one_command, read_line, read_operation_line};
pub use listener::{Listener, Nobody, Refusal};
pub use misread::{Misread, Wanted, misread_line, misread_operation_line};
pub use output::{show, write_all};
pub use run::{drive, drive_in};
pub use way::{Ended, Way};
pub use word::read_bytes;
