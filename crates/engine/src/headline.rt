//! A run over a store, from its files to its files.

ghost use Rattle.std.specs.Prelude.{◌≡◌, ◌++◌, Bool, List, IsTrue, OnOk, OnErr, IfErr};
ghost use Rattle.coding.specs.declared.error.DbError.TheVariants.{OutOfMemory};
ghost use Rattle.ikey.specs.Orders.{Order, order_of};
ghost use Rattle.machine.specs.declared.command.Answer.{Answer};
ghost use Rattle.engine.specs.FromFiles.{EndsEachLaw, EndsLaw, FirstOfMapLaw, StartsEachLaw, StartsLaw};
ghost use Rattle.engine.specs.Headline.{FirstLaw};
ghost use Rattle.engine.specs.Origins.{ComesFrom};
ghost use Rattle.engine.specs.Promised.{Promised};
ghost use Rattle.store.specs.Files.{Files};
ghost use Rattle.engine.specs.Touching.{LeavesStore};

use crate::options::Options;
use crate::session::Session;
use coding::DbError;
use ikey::KeyOrder;
use machine::{Answer, Op};
use recover::{distinct_law, one_manifest};
use std::alloc::Global;
use store::Store;

/// Proves that each directory that is empty or consistent has a first machine, and so has each that
/// `recover::check` finds good. Each directory has one that allows for damage.
pub fn there_is_a_first()
    ensures directory { FirstLaw }
    // It may have each map that the directory shows.
    ensures map { FirstOfMapLaw }
{
    // Laws, for the proof alone.
    distinct_law();
    one_manifest();
}

/// Proves that files come from themselves, as undamaged.
pub fn files_come_from_themselves()
    ensures { (order : Order) (damaged : Bool) (files : Files) → ComesFrom order damaged files files }
{}

/// Proves where the contracts of `Db` and `Session` begin: before the first open they stand for
/// each first machine of their files.
pub fn from_files()
    ensures undamaged { StartsLaw }
    // If tables may be damaged: of each directory from which the files may come.
    ensures each { StartsEachLaw }
{}

/// Proves where they end: the files of a database that was closed are those of the machine at which
/// it ended.
pub fn to_files()
    ensures undamaged { EndsLaw }
    ensures each { EndsEachLaw }
{}

/// Runs commands over a store in which no database is open, and appends their answers to `sink`. A
/// database that is open at the end is closed. If there is no memory for the answers, nothing is
/// done.
pub fn run_over<S: Store, K: KeyOrder>(
    alloc: Global,
    store: S,
    options: Options,
    ops: &[Op],
    sink: &mut Vec<Answer>,
) -> (Result<(), DbError>, S)
    ensures promised { OnOk result.0 ((answers : List Answer) × (sink.new.items ≡ sink.old.items ++ answers)
        × Promised (order_of K.name K.cmp) (S.facts store) (S.facts result.1) ops.now answers) }
    ensures refused { OnErr result.0 ((sink.new.items ≡ sink.old.items) × LeavesStore (S.facts store) (S.facts result.1)) }
    ensures memory { IfErr result.0 (λ error. error ≡ OutOfMemory) }
    ensures faithful { IsTrue (S.facts result.1).faithful → IsTrue (S.facts store).faithful }
{
    // Laws, for the proof alone.
    from_files();
    to_files();
    let mut session: Session<S, K> = Session::new(alloc, store, options);
    let result = session.run(alloc, ops, sink);
    // A law, for the proof alone.
    session.store().synced_law();
    (result, session.into_store())
}
