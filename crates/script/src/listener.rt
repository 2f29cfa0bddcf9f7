//! Who is told of what was refused, beside its answer line.

use crate::misread::Misread;
use coding::DbError;
use engine::Answer;
use store::{Store, Trouble};

/// A refusal, and the line that met it.
#[derive(Clone, Copy, Debug, PartialEq, Eq)]
pub struct Refusal {
    /// The number of the line, from 1 on, or `None` if no line asked for it, as for the open before
    /// an import.
    pub line: Option<u64>,
    /// The refusal.
    pub error: DbError,
    /// What is wrong with the line, if it is `BadLine`.
    pub misread: Option<Misread>,
}

/// Who is told of refusals as they are answered. What it does with them changes no answer.
pub trait Listener {
    /// Hears of each refusal, in their order, with the note that the store took last: it may be of
    /// an earlier refusal, or of none. A refusal of the work that a line brought along comes after
    /// that of the line, under the line's number.
    fn refused(&mut self, refusal: &Refusal, noted: Trouble);
}

/// Nobody, who is told nothing.
#[derive(Clone, Copy, Debug, Drop, PartialEq, Eq)]
pub struct Nobody;

impl Listener for Nobody {
    fn refused(&mut self, refusal: &Refusal, noted: Trouble) {
        let _ = refusal;
        let _ = noted;
    }
}

/// Tells of a line that says no command, and of what is wrong with it.
pub fn tell_of_bad_line<L: Listener>(listener: &mut L, number: u64, misread: Option<Misread>) {
    let refusal = Refusal {
        line: Some(number),
        error: DbError::BadLine,
        misread,
    };
    listener.refused(&refusal, Trouble::none());
}

/// Tells of an answer over this store that is a refusal, of a line or of none.
pub fn tell_of_answer<L: Listener, S: Store>(
    listener: &mut L,
    line: Option<u64>,
    answer: &Answer,
    store: &S,
) {
    match answer {
        Answer::Refused(error) => {
            let refusal = Refusal {
                line,
                error: *error,
                misread: None,
            };
            listener.refused(&refusal, store.noted());
        }
        Answer::Done => {}
        Answer::Value(_) => {}
        Answer::Snapshot(_) => {}
        Answer::Iterator(_) => {}
        Answer::Pair(_) => {}
        Answer::Worked => {}
        Answer::Idle => {}
    }
}
