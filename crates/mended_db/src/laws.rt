//! Laws of a directory and of a database. A law is the contract of a function that does nothing.

ghost use Rattle.ikey.specs.Orders.{order_of};
ghost use Rattle.mended_db.specs.Cut.{MendedCutLaw};
ghost use Rattle.mended_db.specs.Ends.{DbMendsEnds};

use engine::Db;
use ikey::KeyOrder;
use mended_losses::between_calls;
use opening::{cut_law, spared_law};
use store::Store;

/// Proves that between two calls, of what is kept of a consistent directory, mended files are the
/// directory, of which logs may have lost their last batches: none that was synced.
pub fn mended_cut()
    ensures { MendedCutLaw }
{
    // Laws, for the proof alone.
    spared_law();
    cut_law();
    between_calls();
}

/// Proves that an open database keeps so much of its directory, if logs are synced to the end of a
/// fragment. It does nothing.
pub fn mended_ends<S: Store, K: KeyOrder>(db: &Db<S, K>)
    ensures { DbMendsEnds (order_of K.name K.cmp) S.facts db.now }
{
    // A law, for the proof alone.
    mended_cut();
}
