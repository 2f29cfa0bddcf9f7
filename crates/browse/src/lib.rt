//! The pairs of a directory as text: the values of keys, and the pairs of a range. Nothing is
//! changed. Begin at scanning.rt.
#![tactic(auto)]

mod choice;
mod ending;
mod form;
mod getting;
mod limits;
mod line;
mod printing;
mod refusal;
mod scanning;
mod showing;
mod style;
mod walking;

pub use choice::Choice;
pub use form::{Form, push_digits, push_in_form};
pub use getting::{get, get_each};
pub use limits::range_of;
pub use line::puts_are_read;
pub use scanning::scan;
pub use showing::Showing;
pub use style::Style;
