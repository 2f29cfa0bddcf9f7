//! Who is told of a refusal.

use coding::DbError;
use script::{Listener, Refusal};
use store::Store;

/// Tells the listener of an answer over this store, if it is a refusal.
pub fn tell<T, L: Listener, S: Store>(listener: &mut L, answer: &Result<T, DbError>, store: &S) {
    match answer {
        Ok(_) => {}
        Err(error) => tell_error(listener, *error, store),
    }
}

/// Tells the listener of a refusal over this store.
pub fn tell_error<L: Listener, S: Store>(listener: &mut L, error: DbError, store: &S) {
    let refusal = Refusal {
        line: None,
        error,
        misread: None,
    };
    listener.refused(&refusal, store.noted());
}
