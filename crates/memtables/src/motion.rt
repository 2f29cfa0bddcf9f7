//! Where a cursor goes, so that the table that it goes over is chosen once for all of its moves.

ghost use Rattle.std.specs.Prelude.{IfErr};
ghost use Rattle.cursor.specs.Cuts.{TornAt};
ghost use Rattle.cursor.specs.Moves.{Moves, Refuses, Stays};
ghost use Rattle.memtables.specs.Motions.{LeadsCut, LeadsMotion, MayGo};

use coding::DbError;
use cursor::Cursor;
use ikey::KeyOrder;
use std::alloc::Global;

/// Tells a move of a cursor.
#[derive(Clone, Copy)]
pub enum Motion<'a> {
    First,
    Last,
    /// To an internal key.
    Seek(&'a [u8]),
    Next,
    Prev,
}

/// Moves a cursor.
pub fn go<K: KeyOrder, S, C: Cursor<K, S>>(
    cursor: &mut C,
    alloc: Global,
    source: &mut S,
    motion: Motion<'_>,
) -> Result<(), DbError>
    requires { MayGo motion (C.stands cursor.old) }
    ensures moves { LeadsMotion K.cmp motion.entry (Moves C.facts C.lists cursor.old cursor.new source.old source.new result) }
    ensures stays { Stays C.facts C.keeps C.limited C.torn C.leaves C.over cursor.old cursor.new source.old source.new }
    ensures refused { IfErr result (λ e. Refuses e (C.facts source.old) (C.facts source.new)
        (LeadsCut motion.entry (λ cut. TornAt C.lists C.torn cut cursor.old source.old)) (C.limited cursor.old source.old)) }
{
    match motion {
        Motion::First => cursor.first(alloc, source),
        Motion::Last => cursor.last(alloc, source),
        Motion::Seek(target) => cursor.seek(alloc, source, target),
        Motion::Next => cursor.next(alloc, source),
        Motion::Prev => cursor.prev(alloc, source),
    }
}
