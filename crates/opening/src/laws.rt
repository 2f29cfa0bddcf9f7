//! What a power loss leaves.

ghost use Rattle.opening.specs.internal.OpenedEach.{RefusedEachLaw};
ghost use Rattle.opening.specs.Losses.{CutEachLaw, CutLaw, KeptEachLaw, KeptLaw, SparedLaw};

use recover::free_change_law;

/// Proves that each power loss until the next call leaves the same directory, if all that the
/// directory reads is synced.
pub fn kept_law()
    ensures { KeptLaw }
{
    free_change_law();
}

/// Proves what a power loss leaves if all but the logs is synced and each file that the directory
/// reads keeps a beginning. The directory is consistent. Its logs may have lost batches from their
/// ends, or be gone, but lose no batch that was synced.
pub fn cut_law()
    ensures { CutLaw }
{}

/// Proves that a power loss leaves that, if the calls since the last sync spared what the directory
/// reads.
pub fn spared_law()
    ensures { SparedLaw }
{}

/// Proves the same of each directory that differs in tables alone, if all that it reads is synced.
pub fn kept_each_law()
    ensures { KeptEachLaw }
{
    free_change_law();
}

/// Proves the same of each, if all but the logs is.
pub fn cut_each_law()
    ensures { CutEachLaw }
{}

/// Proves that an open that is refused, but as damaged, would be refused so over each directory
/// that differs in tables alone.
pub fn refused_each_law()
    ensures { RefusedEachLaw }
{}
