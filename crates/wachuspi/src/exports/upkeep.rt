// Merging, and what there is of it.

ghost use Rattle.std.specs.Prelude.{◌≡◌};
ghost use Rattle.c_calls.specs.Calls.{CompactServed, SettleServed, WorkServed, bytewise};
ghost use Rattle.wachuspi.specs.Handles.{Keeps, Served, TablesServed, folder_facts};

use crate::crossing::CTrouble;
use crate::databases::Database;
use c_calls::CLOSED;
use std::alloc::Global;

/// Works on a piece of so many entries.
#[unsafe(no_mangle)]
pub extern "C" fn wch_work(alloc: Global, db: &mut Database, budget: u32, idle: &mut u32) -> i32
    ensures served { Served (λ old new code.
        WorkServed bytewise folder_facts budget idle.new old.handle.db new.handle.db code)
        db.old.slot.held db.new.slot.held result }
{
    *idle = 0;
    let Some(mut held) = db.take(alloc) else {
        return CLOSED;
    };
    let code = held.handle.work(alloc, budget, idle);
    db.put(held);
    code
}

/// Works until there is nothing left to do.
#[unsafe(no_mangle)]
pub extern "C" fn wch_settle(alloc: Global, db: &mut Database, budget: u32) -> i32
    ensures served { Served (λ old new code. SettleServed bytewise folder_facts old.handle.db new.handle.db code)
        db.old.slot.held db.new.slot.held result }
{
    let Some(mut held) = db.take(alloc) else {
        return CLOSED;
    };
    let code = held.handle.settle(alloc, budget);
    db.put(held);
    code
}

/// Compacts a level into the next one, or all of them.
#[unsafe(no_mangle)]
pub extern "C" fn wch_compact(alloc: Global, db: &mut Database, level: u32) -> i32
    ensures served { Served (λ old new code. CompactServed bytewise folder_facts level old.handle.db new.handle.db code)
        db.old.slot.held db.new.slot.held result }
{
    let Some(mut held) = db.take(alloc) else {
        return CLOSED;
    };
    let code = held.handle.compact(alloc, level);
    db.put(held);
    code
}

/// How many tables a level has, or -1.
#[unsafe(no_mangle)]
pub extern "C" fn wch_tables(alloc: Global, db: &mut Database, level: u32) -> i64
    ensures kept { db.new.slot.held ≡ db.old.slot.held }
    ensures told { TablesServed level db.old.slot.held result }
{
    let Some(held) = db.take(alloc) else {
        return -1;
    };
    let count = held.handle.tables(level);
    db.put(held);
    count
}

/// Tells the note that was taken last.
#[unsafe(no_mangle)]
pub extern "C" fn wch_last_trouble(alloc: Global, db: &mut Database, trouble: &mut CTrouble) -> i32
    ensures kept { Keeps db.old.slot.held db.new.slot.held result }
{
    *trouble = CTrouble::none();
    let Some(held) = db.take(alloc) else {
        return CLOSED;
    };
    trouble.tell(alloc, held.handle.trouble());
    db.put(held);
    0
}
