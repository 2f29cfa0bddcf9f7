//! New logs.

ghost use Rattle.std.specs.Prelude.{◌≡◌, ◌⊎◌, ℕ, List, None, IfErr, IsTrue, OnOk};
ghost use Rattle.ikey.specs.Orders.{Order};
ghost use Rattle.edits.specs.Names.{name_of};
ghost use Rattle.edits.specs.declared.names.FileName.TheVariants.{Log};
ghost use Rattle.recover.specs.Reading.{IsCounted};
ghost use Rattle.table.specs.Writing.{SyncsOnly};
ghost use Rattle.store.specs.Calls.{Adds, FailsAsWrite, Idles};
ghost use Rattle.store.specs.Files.{Creation};
ghost use Rattle.store.specs.Losses.{CarriesBut};
ghost use Rattle.store.specs.Stops.{LeavesOnly};
ghost use Rattle.directory_writes.specs.Differing.{OfEach, with_files};
ghost use Rattle.directory_writes.specs.internal.Calls.{Touches};
ghost use Rattle.directory_writes.specs.internal.LogFile.{DrawsLog, RefusesLog, BeginsLog, MayHaveLog};

use crate::calls::create_file;
use coding::DbError;
use edits::{FileName, FileNumbers, print_name};
use recover::begin_log_law;
use std::alloc::Global;
use store::Store;

/// Draws a number, makes the empty log of that number, and answers both it and the name of its file
/// (LevelDB's db/db_impl.cc, DBImpl::MakeRoomForWrite). The log is synced with the first record
/// that must be kept. It fails out of memory, with NumbersSpent, or with Io if the store fails:
/// then the log is there or not.
pub fn begin_log<S: Store>(
    alloc: Global,
    store: &mut S,
    numbers: &mut FileNumbers,
) -> Result<(u64, String), DbError>
    ensures call { Touches (S.facts store.old) (S.facts store.new) }
    ensures fails { FailsAsWrite (S.facts store.old) (S.facts store.new) }
    ensures counted { IsCounted (S.facts store.old) (S.facts store.new) result }
    ensures drawn { DrawsLog (S.facts store.old) (S.facts store.new) numbers.old.next numbers.new.next result }
    ensures refused { IfErr result (λ error. RefusesLog error (S.facts store.old) (S.facts store.new) numbers.old.next numbers.new.next) }
    ensures begins { (order : Order) → BeginsLog order (S.facts store.old) (S.facts store.new) numbers.old.next numbers.new.next result }
    ensures begins_each { (order : Order) → OfEach (λ whole after. BeginsLog order (with_files (S.facts store.old) whole)
        (with_files (S.facts store.new) after) numbers.old.next numbers.new.next result) (S.facts store.old).files (S.facts store.new).files }
    ensures synced { IsTrue (S.facts store.new).faithful
        → SyncsOnly (S.facts store.old).synced (S.facts store.new).synced (name_of (Log numbers.old.next)) }
    ensures stops { IsTrue (S.facts store.new).faithful → (order : Order) → LeavesOnly (S.facts store.old) (S.facts store.new)
        (MayHaveLog order (S.facts store.old).files numbers.old.next) }
    ensures stops_each { IsTrue (S.facts store.new).faithful → (order : Order) → LeavesOnly (S.facts store.old) (S.facts store.new)
        (λ files. OfEach (λ whole after. MayHaveLog order whole numbers.old.next after) (S.facts store.old).files files) }
    ensures carries { IsTrue (S.facts store.new).faithful → CarriesBut (S.facts store.old) (S.facts store.new)
        (λ (q : List ℕ). q ≡ name_of (Log numbers.old.next)) }
    ensures noted { IsTrue (S.facts store.new).faithful → Idles (S.facts store.old) (S.facts store.new)
        ⊎ Adds (S.facts store.old) (S.facts store.new) (Creation (name_of (Log numbers.old.next))) }
    ensures unsynced { IsTrue (S.facts store.new).faithful → OnOk result ((S.facts store.new).synced (name_of (Log numbers.old.next)) ≡ None) }
{
    // Laws, for the proof alone.
    begin_log_law();
    let number = numbers.draw()?;
    let name = print_name(alloc, FileName::Log(number))?;
    create_file(store, name.as_str())?;
    Ok((number, name))
}
