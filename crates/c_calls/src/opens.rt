// Opening.

ghost use Rattle.std.specs.Prelude.{◌≡◌, [], IfErr, IfOk};
ghost use Rattle.c_calls.specs.Calls.{bytewise};
ghost use Rattle.c_calls.specs.Folders.{Begins, BeginsNot, IsMode};

use crate::handle::Handle;
use engine::{Db, Ids, Mode, OpenError, Options};
use std::alloc::Global;
use store::Store;

/// The mode of a number.
pub fn mode_of(mode: u32) -> Option<Mode>
    ensures { IsMode mode result }
{
    match mode {
        0 => Some(Mode::Existing),
        1 => Some(Mode::New),
        2 => Some(Mode::Any),
        _ => None,
    }
}

/// Opens the database of a store.
pub fn open<S: Store>(
    alloc: Global,
    store: S,
    options: Options,
    mode: Mode,
) -> Result<Handle<S>, OpenError<S>>
    ensures opened { IfOk result (λ handle. Begins bytewise S.facts mode options store handle.db) }
    ensures nowhere { IfOk result (λ handle. handle.iterators.items ≡ []) }
    ensures refused { IfErr result (λ e. BeginsNot bytewise S.facts mode store e.store e.error) }
{
    match Db::open(alloc, store, options, mode, Ids::first()) {
        Ok(db) => Ok(Handle::of(alloc, db)),
        Err(refused) => Err(refused),
    }
}
