//! Commands that are given to a session one after the other.

ghost use Rattle.std.specs.Prelude.{◌≡◌, MatchBool};
ghost use Rattle.machine.specs.declared.command.Op.TheVariants.{Close};
ghost use Rattle.ikey.specs.Orders.{order_of};
ghost use Rattle.engine.specs.Applied.{Applied, IsShut};
ghost use Rattle.script.specs.Commands.{IsRefusal, status_of as status_value};

use engine::{Answer, Op, Session};
use ikey::KeyOrder;
use std::alloc::Global;
use store::Store;

/// Gives a session one command, and returns its answer.
pub fn give<S: Store, K: KeyOrder>(
    alloc: Global,
    session: &mut Session<S, K>,
    command: &Op,
) -> Answer
    ensures { Applied (order_of K.name K.cmp) S.facts command.now session.old session.new result }
{
    session.apply(alloc, command)
}

/// Closes the database that is open, if one is, and returns the answer, which nobody needs.
pub fn shut<S: Store, K: KeyOrder>(alloc: Global, session: &mut Session<S, K>) -> Answer
    ensures closed { Applied (order_of K.name K.cmp) S.facts Close session.old session.new result }
    ensures shut { IsShut session.new }
{
    give(alloc, session, &Op::Close)
}

/// Returns whether a command was refused.
pub fn is_refusal(answer: &Answer) -> bool
    ensures { MatchBool result (IsRefusal answer.now) (IsRefusal answer.now → ⊥) }
{
    match answer {
        Answer::Refused(_) => true,
        Answer::Done => false,
        Answer::Value(_) => false,
        Answer::Snapshot(_) => false,
        Answer::Iterator(_) => false,
        Answer::Pair(_) => false,
        Answer::Worked => false,
        Answer::Idle => false,
    }
}

/// Returns the exit status of what ended so.
pub fn status_of(ended: &Answer) -> u8
    ensures { result ≡ status_value ended.now }
{
    if is_refusal(ended) { 1 } else { 0 }
}
