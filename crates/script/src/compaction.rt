//! The compaction of a database, from open to close.

ghost use Rattle.std.specs.Prelude.{◌≡◌, ◌⊎◌, ⊤, List, OnErr, IfOk, MatchBool};
ghost use Rattle.ikey.specs.Orders.{order_of};
ghost use Rattle.machine.specs.declared.command.Op.{Op as OpValue};
ghost use Rattle.machine.specs.declared.command.Answer.{Answer as AnswerValue};
ghost use Rattle.machine.specs.declared.command.Answer.TheVariants.{Done, Idle};
ghost use Rattle.engine.specs.Applied.{IsShut};
ghost use Rattle.script.specs.Commands.{GoesOn, IsRefusal};
ghost use Rattle.script.specs.Compacting.{compaction_of as compaction_value, AreWorks, AreCompaction, Compacts, StopsCompaction};

use crate::fault::Fault;
use crate::listener::{Listener, tell_of_answer};
use crate::output::{push_answer, write_all};
use crate::steps::{give, is_refusal, shut, status_of};
use engine::{Answer, Mode, Op, Session};
use ikey::KeyOrder;
use std::alloc::Global;
use std::io::Write;
use store::Store;

// How many entries a piece of work after a compaction has.
const WORK_ENTRIES: u32 = 4_096;

/// Compacts a level, or all of them, of the database that is there, writes `ok` or the line of the
/// refusal, and returns the exit status: 0, or 1 if it was refused. It opens the database,
/// compacts, works until there is no work, and closes it, also after a refusal, of which the
/// listener is told.
///
/// `Fault` if the line couldn't be written or memory ran out for it: all was done then, or refused.
/// (Or work didn't end within as many pieces as 64 bits count.)
pub fn compact<S: Store, K: KeyOrder, W: Write, L: Listener>(
    alloc: Global,
    session: &mut Session<S, K>,
    level: Option<u32>,
    writer: &mut W,
    listener: &mut L,
) -> Result<u8, Fault>
    ensures done { IfOk result (λ status. Compacts (order_of K.name K.cmp) S.facts level session.old session.new (W.contents writer.old) (W.contents writer.new) status) }
    ensures stopped { OnErr result (StopsCompaction (order_of K.name K.cmp) S.facts level session.old session.new (W.contents writer.old) (W.contents writer.new)) }
    ensures shut { IsShut session.new }
{
    let ended = compact_opened(alloc, session, level);
    let _ = shut(alloc, session);
    tell_of_answer(listener, None, &ended, session.store());
    if !is_end(&ended) {
        return Err(Fault::Memory);
    }
    let mut text = Vec::new(alloc);
    push_answer(alloc, &mut text, &ended)?;
    write_all(writer, text.as_slice())?;
    Ok(status_of(&ended))
}

// All but the close. `Worked` says that it came to no end.
fn compact_opened<S: Store, K: KeyOrder>(
    alloc: Global,
    session: &mut Session<S, K>,
    level: Option<u32>,
) -> Answer
    ensures { (commands : List OpValue) × (answers : List AnswerValue) × AreCompaction level commands answers result
        × GoesOn (order_of K.name K.cmp) S.facts session.old session.new commands answers }
{
    let opened = give(alloc, session, &Op::Open(Mode::Existing));
    if is_refusal(&opened) {
        return opened;
    }
    let compacted = give(alloc, session, &compaction_of(level));
    if is_refusal(&compacted) {
        return compacted;
    }
    work_off(alloc, session)
}

fn compaction_of(level: Option<u32>) -> Op
    ensures { result ≡ compaction_value level }
{
    match level {
        Some(level) => Op::CompactLevel(level),
        None => Op::CompactAll,
    }
}

// Works until there is no work: `Done` then, else the refusal. `Worked`: there may be more.
fn work_off<S: Store, K: KeyOrder>(alloc: Global, session: &mut Session<S, K>) -> Answer
    ensures { (commands : List OpValue) × (answers : List AnswerValue) × AreWorks commands answers result
        × GoesOn (order_of K.name K.cmp) S.facts session.old session.new commands answers }
{
    // A loop without a measure: as many turns as 64 bits count.
    for _ in 0..u64::MAX {
        let answer = give(alloc, session, &Op::Work(WORK_ENTRIES));
        if is_refusal(&answer) {
            return answer;
        }
        if is_idle(&answer) {
            return Answer::Done;
        }
    }
    Answer::Worked
}

fn is_idle(answer: &Answer) -> bool
    ensures { MatchBool result (answer.now ≡ Idle) (answer.now ≡ Idle → ⊥) }
{
    match answer {
        Answer::Idle => true,
        Answer::Done => false,
        Answer::Value(_) => false,
        Answer::Snapshot(_) => false,
        Answer::Iterator(_) => false,
        Answer::Pair(_) => false,
        Answer::Worked => false,
        Answer::Refused(_) => false,
    }
}

fn is_end(ended: &Answer) -> bool
    ensures { MatchBool result ((ended.now ≡ Done) ⊎ IsRefusal ended.now) ⊤ }
{
    match ended {
        Answer::Done => true,
        Answer::Refused(_) => true,
        Answer::Idle => false,
        Answer::Value(_) => false,
        Answer::Snapshot(_) => false,
        Answer::Iterator(_) => false,
        Answer::Pair(_) => false,
        Answer::Worked => false,
    }
}
