//! What a process crash may leave.

ghost use Rattle.store.specs.Losses.{LostSinceLaw};
ghost use Rattle.store.specs.Stops.{LeftNowLaw, LeftSinceLaw, LeftBothLaw};

/// States a law: a crash now leaves the files as they are now, and nothing else.
pub fn left_now()
    ensures { LeftNowLaw }
{}

/// States a law: a crash since an earlier moment leaves what is there now, or what it may leave in
/// the middle of a call since then.
pub fn left_since()
    ensures since { LeftSinceLaw }
    ensures both { LeftBothLaw }
{}

/// States a law: what a power loss since a moment may leave, one since an earlier moment may leave.
pub fn lost_since()
    ensures { LostSinceLaw }
{}
