//! The files below the output level of a compaction.

ghost use Rattle.std.specs.Prelude.{◌≡◌, ◌<◌, List, ℕ, Bool};
ghost use Rattle.compact.specs.Deeper.{is_covered_below};

use ikey::KeyOrder;
use versions::Version;

/// Tells which user keys the files below the output level of a compaction may have: a delete of
/// another key need not be kept for their sake (LevelDB's db/version_set.cc,
/// Compaction::IsBaseLevelForKey).
pub trait DeeperFiles {
    ghost covers: { Self → List ℕ → Bool };

    /// Returns whether the key stands in the range of one of the files.
    fn covers(&self, user: &[u8]) -> bool
        ensures { result ≡ covers self.now user.now };
}

/// Holds the tables of a version below a level, which is that to which a compaction of the version
/// writes.
#[derive(Drop)]
pub struct FilesBelow<'a, K: KeyOrder> {
    /// The version.
    pub version: &'a Version<K>,
    /// The level, from 1 to 6.
    pub level: u32,
    ghost in_range: { (0 < level) × (level < 7) },
}

impl<K: KeyOrder> DeeperFiles for FilesBelow<'_, K> {
    ghost covers = { λ files. is_covered_below K.cmp files.level files.version.now.tables };

    fn covers(&self, user: &[u8]) -> bool {
        !self.version.is_free_below(self.level, user)
    }
}
