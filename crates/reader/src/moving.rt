//! Moves of an open iterator (LevelDB's include/leveldb/iterator.h and db/db_iter.cc).

ghost use Rattle.std.specs.Prelude.{◌≡◌, true, MatchOption};
ghost use Rattle.db_cursor.specs.Whole.{whole_in};
ghost use Rattle.reader.specs.internal.Iterators.{destination};
ghost use Rattle.reader.specs.Moving.{IsMoved};
ghost use Rattle.machine.specs.Causes.{lacks_place, needs_place};
ghost use Rattle.reader.specs.internal.Motions.{motion_of};
ghost use Rattle.db_cursor.specs.internal.Scanning.{IsScanned};

use crate::movement::Movement;
use coding::{Bytes, DbError};
use db_cursor::{Scan, Sources};
use ikey::KeyOrder;
use std::alloc::Global;
use store::Store;

impl Movement<'_> {
    /// Returns whether it starts from a place.
    pub fn needs_place(&self) -> bool
        ensures { result ≡ needs_place (motion_of self.now) }
    {
        match self {
            Movement::First => false,
            Movement::Last => false,
            Movement::Seek(_) => false,
            Movement::Next => true,
            Movement::Prev => true,
        }
    }
}

/// Moves an iterator, and returns a copy of the pair on which it stands then, or None if there is
/// none. `NoPlace`: a step of an iterator that stands nowhere. If the move or the copy fails, it
/// stays where it stood; a move before a failed copy is taken back.
pub fn move_iterator<K: KeyOrder, S: Store>(
    alloc: Global,
    source: &mut Sources<K, S>,
    scan: &mut Scan<K>,
    movement: Movement<'_>,
) -> Result<Option<(Bytes, Bytes)>, DbError>
    ensures moved { IsMoved K.cmp (motion_of movement.entry) (whole_in S.facts source.old)
        (whole_in S.facts source.new) scan.old scan.new result }
    // If there is no place to step from, nothing is done.
    ensures undone { MatchOption (lacks_place scan.old.walk.stands (motion_of movement.entry)) (Unit {0}) (λ _. source.new ≡ source.old) }
{
    let stood = scan.stands();
    if movement.needs_place() {
        if !stood {
            return Err(DbError::NoPlace);
        }
    }
    move_scan(alloc, source, scan, movement)?;
    let Ok(pair) = scan.pair(alloc, source) else {
        scan.take_back(stood);
        return Err(DbError::OutOfMemory);
    };
    Ok(pair)
}

// Moves a scan. A step starts from a place.
fn move_scan<K: KeyOrder, S: Store>(
    alloc: Global,
    source: &mut Sources<K, S>,
    scan: &mut Scan<K>,
    movement: Movement<'_>,
) -> Result<(), DbError>
    requires { needs_place (motion_of movement) ≡ true → scan.old.walk.stands ≡ true }
    ensures { IsScanned K.cmp (destination K.cmp (motion_of movement.entry)) (whole_in S.facts source.old)
        (whole_in S.facts source.new) scan.old scan.new result }
{
    match movement {
        Movement::First => scan.first(alloc, source),
        Movement::Last => scan.last(alloc, source),
        Movement::Seek(key) => scan.seek(alloc, source, key),
        Movement::Next => scan.next(alloc, source),
        Movement::Prev => scan.prev(alloc, source),
    }
}
