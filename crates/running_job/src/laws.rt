//! What other calls of an open database leave of a compaction that is under way.

ghost use Rattle.ikey.specs.Orders.{order_of};
ghost use Rattle.running_job.specs.declared.open_job.OpenJob.{OpenJob};
ghost use Rattle.running_job.specs.internal.Staying.{MayRunStays, RunningStays, RunningStaysBeside};

use ikey::KeyOrder;

/// Proves that a job goes on over what others have left of its tables, while they wrote, read,
/// flushed or removed files.
pub fn running_stays<K: KeyOrder>()
    ensures { (work : OpenJob K K.KeyOrder) → RunningStays (order_of K.name K.cmp) work }
{}

/// Proves that so it does while the directory has the same tables.
pub fn running_stays_beside<K: KeyOrder>()
    ensures { (work : OpenJob K K.KeyOrder) → RunningStaysBeside (order_of K.name K.cmp) work }
{}

/// Proves that and so it does over whichever contents its inputs may have.
pub fn may_run_stays<K: KeyOrder>()
    ensures { (work : OpenJob K K.KeyOrder) → MayRunStays (order_of K.name K.cmp) work }
{}
