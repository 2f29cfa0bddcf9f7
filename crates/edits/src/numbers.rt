//! Numbers of new files.

ghost use Rattle.std.specs.Prelude.{◌≡◌, ◌<◌, ◌≤◌, ◌+◌, ◌^◌, MatchResult};
ghost use Rattle.coding.specs.declared.error.DbError.TheVariants.{NumbersSpent};

use coding::DbError;

/// Limits the numbers of new files: they are below this (LevelDB has no such bound).
pub const NUMBER_END: u64 = 1 << 62;

/// Draws numbers for new files, each once (LevelDB's db/version_set.h, VersionSet::NewFileNumber).
#[derive(Clone, Copy, Debug)]
pub struct FileNumbers {
    /// The number of the next file.
    pub next: u64,
    /// Numbers are from 1 on.
    ghost in_range: { (0 < next) × (next < 2 ^ 64) },
}

impl FileNumbers {
    /// Draws the number of a new file. NumbersSpent: it would be 2^62 or more.
    pub fn draw(&mut self) -> Result<u64, DbError>
        ensures { MatchResult result
            (λ number. (number ≡ self.old.next) × (self.new.next ≡ number + 1) × (number < 2 ^ 62) × (0 < number))
            (λ e. (e ≡ NumbersSpent) × (self.new.next ≡ self.old.next) × (2 ^ 62 ≤ self.old.next)) }
    {
        let number = self.next;
        if number >= NUMBER_END {
            return Err(DbError::NumbersSpent);
        }
        self.next = number + 1;
        Ok(number)
    }
}
