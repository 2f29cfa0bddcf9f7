//! Laws of scans, and of what they go over.

ghost use Rattle.db_cursor.specs.Origins.{OriginLaw, OriginStaysLaw, SameOriginLaw};
ghost use Rattle.db_cursor.specs.internal.Scanning.{WritesAreKept};

use ikey::KeyOrder;
use memtables::changes_are_kept;

/// Proves that what is written above a scan's sequence number leaves what the scan reads.
pub fn writes_are_kept<K: KeyOrder>()
    ensures { WritesAreKept K.cmp }
{
    // Laws, for the proof alone.
    changes_are_kept::<K>();
}

/// Proves that tables that may have come from those of a version may have its contents.
pub fn origins_fit()
    ensures { OriginLaw }
{}

/// Proves that a file may have come from itself, and so has each table that two directories have
/// alike.
pub fn same_origin()
    ensures { SameOriginLaw }
{}

/// Proves that a table comes from the same as long as both directories keep its file.
pub fn origin_stays()
    ensures { OriginStaysLaw }
{}
