//! What a job borrows: it reads its inputs from it, and writes its outputs to the store of it.

ghost use Rattle.std.specs.Prelude.{◌≡◌, ℕ};

/// Gives cursors and has a store, beside which it may keep more, as caches. Whoever writes new
/// files borrows the store alone, and leaves the rest as it is.
pub trait HasStore<S> {
    ghost use Rattle.std.specs.Borrow.{sem, Lends};

    /// The store that the source has.
    ghost store_of: { Self → S };

    /// The source with another store, and all else as it is.
    ghost with_store: { Self → S → Self };

    /// Something is kept beside the store of the table of this number.
    ghost gathers: { Self → ℕ → Type 0 };

    /// Returns its store.
    fn store_mut(&mut self) -> &mut S
        ensures* lends { sem 𝓛 (Lends Self.row S.row self.entry result (with_store self.entry.now)) }
        ensures value { result.now ≡ store_of self.old };

    /// Another store is the one that it has then.
    ghost replaced: { (source : Self) (store : S) → store_of (with_store source store) ≡ store };

    /// It has no more of any table beside it.
    ghost apart: { (source : Self) (store : S) (number : ℕ) → gathers (with_store source store) number → gathers source number };
}
