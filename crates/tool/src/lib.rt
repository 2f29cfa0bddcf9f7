//! What `ldbtool` does: it reads the command line, and does the task over a folder, with streams
//! that are handed in.
#![tactic(auto)]

mod arguments;
mod behind;
mod changing;
mod command_line;
mod counts;
mod cuts;
mod each_file;
mod entry_line;
mod finding;
mod help;
mod hints;
mod inspect;
mod keys;
mod line_counter;
mod looking;
mod mend;
mod program;
mod progress;
mod reasons;
mod report;
mod saying;
mod status;
mod sums;
mod task;
mod telling;
mod unmendable;
mod why;
mod words;
mod zeros;

pub use counts::stats;
pub use cuts::{make_cuts, show_cuts};
pub use each_file::dump_sound;
pub use inspect::{check, dump};
pub use program::{Terminals, start};
pub use saying::refuse_words;
pub use task::{
    Bounds, Lookup, Mending, Named, Notation, Numbers, OrderName, Pair, Pieces, Place, Search,
    Task, Turns,
};
pub use words::{Misuse, settings};
