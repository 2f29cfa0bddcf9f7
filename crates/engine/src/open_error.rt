//! A refused open, which returns the store.

ghost use Rattle.std.specs.Prelude.{◌≡◌};

use coding::DbError;
use std::error::Error;
use std::fmt;

/// Holds why no database was opened, and the store in which it was to be. In a function that
/// returns a `DbError` or any error, `?` keeps the reason and drops the store, which releases its
/// lock. A `match` has both.
#[derive(Drop)]
pub struct OpenError<S> {
    /// Why it wasn't opened.
    pub error: DbError,
    /// The store that was handed in.
    pub store: S,
}

impl<S> fmt::Debug for OpenError<S> {
    fn fmt<W: fmt::Write>(&self, f: &mut fmt::Formatter<W>) -> fmt::Result {
        write!(f, "{:?}", self.error)
    }
}

impl<S> fmt::Display for OpenError<S> {
    fn fmt<W: fmt::Write>(&self, f: &mut fmt::Formatter<W>) -> fmt::Result {
        write!(f, "{}", self.error)
    }
}

impl<S: Drop> Error for OpenError<S> {}

impl<S: Drop> From<OpenError<S>> for DbError {
    ghost from_gives = { λ refused error. error ≡ refused.error };

    fn from(refused: OpenError<S>) -> DbError {
        let OpenError { error, store: _ } = refused;
        error
    }
}
