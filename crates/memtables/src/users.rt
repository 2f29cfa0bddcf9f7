//! Who reads which memtable.

ghost use Rattle.std.specs.Prelude.{ℕ, MatchBool};

/// Tells which memtables are read, as the open iterators of a database do: it knows their
/// generations.
pub trait Users {
    /// It reads the table of this generation.
    ghost names: { Self → ℕ → Type 0 };

    /// Returns whether the memtable of this generation is read.
    fn names(&self, generation: u64) -> bool
        ensures { MatchBool result (names self.now generation) (names self.now generation → ⊥) };
}
