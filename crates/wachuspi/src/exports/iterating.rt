// Iterators.

ghost use Rattle.std.specs.Prelude.{◌≡◌, nat_eq, not};
ghost use Rattle.c_calls.specs.Calls.{DropServed, IterServed, MoveServed, bytewise};
ghost use Rattle.c_calls.specs.Filling.{FillServed};
ghost use Rattle.c_calls.specs.Motions.{going, way_of};
ghost use Rattle.c_calls.specs.Standings.{pair_of};
ghost use Rattle.c_calls.specs.Told.{StandingTold};
ghost use Rattle.machine.specs.Causes.{ToFirst, ToLast, ToKey, ToNext, ToPrev};
ghost use Rattle.wachuspi.specs.Handles.{Served, folder_facts};

use crate::databases::Database;
use c_calls::{CLOSED, Filled, Motion, Pair};
use std::alloc::Global;

/// Makes an iterator.
#[unsafe(no_mangle)]
pub extern "C" fn wch_iter_new(alloc: Global, db: &mut Database, snapshot: u64, id: &mut u64) -> i32
    ensures served { Served (λ old new code.
        IterServed bytewise folder_facts snapshot id.old id.new old.handle.db new.handle.db code)
        db.old.slot.held db.new.slot.held result }
{
    let Some(mut held) = db.take(alloc) else {
        return CLOSED;
    };
    let code = held.handle.iter_new(alloc, snapshot, id);
    db.put(held);
    code
}

/// Releases an iterator.
#[unsafe(no_mangle)]
pub extern "C" fn wch_iter_free(alloc: Global, db: &mut Database, id: u64) -> i32
    ensures served { Served (λ old new code. DropServed bytewise folder_facts id old.handle.db new.handle.db code)
        db.old.slot.held db.new.slot.held result }
{
    let Some(mut held) = db.take(alloc) else {
        return CLOSED;
    };
    let code = held.handle.iter_free(id);
    db.put(held);
    code
}

// Moves an iterator.
fn go(
    alloc: Global,
    db: &mut Database,
    id: u64,
    motion: Motion,
    room: &mut [u8],
    pair: &mut Pair,
) -> i32
    ensures served { Served (λ old new code.
        MoveServed bytewise folder_facts id (going motion.entry) room.old room.new pair.new
        old.handle new.handle code)
        db.old.slot.held db.new.slot.held result }
{
    *pair = Pair::none();
    let Some(mut held) = db.take(alloc) else {
        return CLOSED;
    };
    let code = held.handle.go(alloc, id, motion, room, pair);
    db.put(held);
    code
}

/// Moves an iterator to the first pair, and copies it.
#[unsafe(no_mangle)]
pub extern "C" fn wch_iter_first(
    alloc: Global,
    db: &mut Database,
    id: u64,
    room: &mut [u8],
    pair: &mut Pair,
) -> i32
    ensures served { Served (λ old new code.
        MoveServed bytewise folder_facts id ToFirst room.old room.new pair.new old.handle new.handle code)
        db.old.slot.held db.new.slot.held result }
{
    go(alloc, db, id, Motion::First, room, pair)
}

/// Moves an iterator to the last pair, and copies it.
#[unsafe(no_mangle)]
pub extern "C" fn wch_iter_last(
    alloc: Global,
    db: &mut Database,
    id: u64,
    room: &mut [u8],
    pair: &mut Pair,
) -> i32
    ensures served { Served (λ old new code.
        MoveServed bytewise folder_facts id ToLast room.old room.new pair.new old.handle new.handle code)
        db.old.slot.held db.new.slot.held result }
{
    go(alloc, db, id, Motion::Last, room, pair)
}

/// Moves an iterator to the first pair at a key or after it, and copies it.
#[unsafe(no_mangle)]
pub extern "C" fn wch_iter_seek(
    alloc: Global,
    db: &mut Database,
    id: u64,
    key: &[u8],
    room: &mut [u8],
    pair: &mut Pair,
) -> i32
    ensures served { Served (λ old new code.
        MoveServed bytewise folder_facts id (ToKey key.now) room.old room.new pair.new old.handle new.handle code)
        db.old.slot.held db.new.slot.held result }
{
    go(alloc, db, id, Motion::Seek(key), room, pair)
}

/// Moves an iterator to the next pair, and copies it.
#[unsafe(no_mangle)]
pub extern "C" fn wch_iter_next(
    alloc: Global,
    db: &mut Database,
    id: u64,
    room: &mut [u8],
    pair: &mut Pair,
) -> i32
    ensures served { Served (λ old new code.
        MoveServed bytewise folder_facts id ToNext room.old room.new pair.new old.handle new.handle code)
        db.old.slot.held db.new.slot.held result }
{
    go(alloc, db, id, Motion::Next, room, pair)
}

/// Moves an iterator to the pair before, and copies it.
#[unsafe(no_mangle)]
pub extern "C" fn wch_iter_prev(
    alloc: Global,
    db: &mut Database,
    id: u64,
    room: &mut [u8],
    pair: &mut Pair,
) -> i32
    ensures served { Served (λ old new code.
        MoveServed bytewise folder_facts id ToPrev room.old room.new pair.new old.handle new.handle code)
        db.old.slot.held db.new.slot.held result }
{
    go(alloc, db, id, Motion::Prev, room, pair)
}

/// Copies the pair on which an iterator stands.
#[unsafe(no_mangle)]
pub extern "C" fn wch_iter_pair(
    alloc: Global,
    db: &mut Database,
    id: u64,
    room: &mut [u8],
    pair: &mut Pair,
) -> i32
    ensures served { Served (λ old new code.
        StandingTold (pair_of id old.handle.iterators.items) room.old room.new pair.new code × (new ≡ old))
        db.old.slot.held db.new.slot.held result }
{
    *pair = Pair::none();
    let Some(held) = db.take(alloc) else {
        return CLOSED;
    };
    let code = held.handle.iter_pair(id, room, pair);
    db.put(held);
    code
}

/// Copies the pair on which an iterator stands and those after it, or before it.
#[unsafe(no_mangle)]
pub extern "C" fn wch_iter_fill(
    alloc: Global,
    db: &mut Database,
    id: u64,
    backwards: u32,
    room: &mut [u8],
    filled: &mut Filled,
) -> i32
    ensures served { Served (λ old new code.
        FillServed bytewise folder_facts id (way_of (not (nat_eq backwards 0))) room.old room.new filled.new
        old.handle new.handle code) db.old.slot.held db.new.slot.held result }
{
    *filled = Filled::none();
    let Some(mut held) = db.take(alloc) else {
        return CLOSED;
    };
    let code = held.handle.fill(alloc, id, backwards != 0, room, filled);
    db.put(held);
    code
}
