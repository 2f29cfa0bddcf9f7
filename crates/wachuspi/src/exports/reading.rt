// Reading.

ghost use Rattle.std.specs.Prelude.{◌≡◌};
ghost use Rattle.c_calls.specs.Calls.{GetServed, ReleaseServed, SnapshotServed, bytewise};
ghost use Rattle.wachuspi.specs.Handles.{Served, folder_facts};

use crate::databases::Database;
use c_calls::CLOSED;
use std::alloc::Global;

/// Copies the value of a key into the caller's room.
#[unsafe(no_mangle)]
pub extern "C" fn wch_get(
    alloc: Global,
    db: &mut Database,
    key: &[u8],
    snapshot: u64,
    room: &mut [u8],
    length: &mut usize,
) -> i32
    ensures served { Served (λ old new code.
        GetServed bytewise folder_facts key.now snapshot room.old room.new length.new old.handle.db new.handle.db code)
        db.old.slot.held db.new.slot.held result }
{
    *length = 0;
    let Some(mut held) = db.take(alloc) else {
        return CLOSED;
    };
    let code = held.handle.get(alloc, key, snapshot, room, length);
    db.put(held);
    code
}

/// Makes a snapshot.
#[unsafe(no_mangle)]
pub extern "C" fn wch_snapshot(alloc: Global, db: &mut Database, id: &mut u64) -> i32
    ensures served { Served (λ old new code.
        SnapshotServed bytewise folder_facts id.old id.new old.handle.db new.handle.db code)
        db.old.slot.held db.new.slot.held result }
{
    let Some(mut held) = db.take(alloc) else {
        return CLOSED;
    };
    let code = held.handle.snapshot(id);
    db.put(held);
    code
}

/// Releases a snapshot.
#[unsafe(no_mangle)]
pub extern "C" fn wch_release(alloc: Global, db: &mut Database, id: u64) -> i32
    ensures served { Served (λ old new code. ReleaseServed bytewise folder_facts id old.handle.db new.handle.db code)
        db.old.slot.held db.new.slot.held result }
{
    let Some(mut held) = db.take(alloc) else {
        return CLOSED;
    };
    let code = held.handle.release(id);
    db.put(held);
    code
}
