//! The import of operations, a line each.

ghost use Rattle.std.specs.Prelude.{◌≡◌, ◌≤◌, ◌<◌, ◌*◌, ◌++◌, ◌∷◌, [], length, OnOk, OnErr, IfOk, MatchOption};
ghost use Rattle.std.specs.Io.Buffered.{reader_remaining};
ghost use Rattle.ikey.specs.Orders.{order_of};
ghost use Rattle.machine.specs.declared.command.Mode.TheVariants.{Any};
ghost use Rattle.machine.specs.declared.command.Op.TheVariants.{Open};
ghost use Rattle.machine.specs.declared.command.Answer.TheVariants.{Done};
ghost use Rattle.engine.specs.Applied.{IsShut};
ghost use Rattle.script.specs.Commands.{GoesOn, IsRefusal};
ghost use Rattle.script.specs.Closing.{EndsClosed, TakesClosed};
ghost use Rattle.script.specs.Importing.{EndsImport, EndsRest, HasRoom, Imports, IsBatch, MakesRoom, StopsImport, TakesOperation, TakesRest, TakesSome, WorksBehind, WritesBatch};
ghost use Rattle.script.specs.Importing.{refusal_line, report_of};

use crate::answer::push_with_number;
use crate::fault::Fault;
use crate::gathered::Gathered;
use crate::import_options::Importing;
use crate::input::read_next_line;
use crate::line::read_operation_line;
use crate::listener::{Listener, tell_of_answer, tell_of_bad_line};
use crate::misread::misread_operation_line;
use crate::output::{push_answer, write_all};
use crate::steps::{give, is_refusal, shut, status_of};
use coding::DbError;
use engine::{Answer, Mode, Op, Session};
use ikey::KeyOrder;
use std::alloc::{AllocError, Global};
use std::io::{BufReader, Read, Write};
use store::Store;

// How many bytes of the lines are read at once.
const INPUT_BYTES: usize = 65_536;

/// How many entries of work are done for each operation: each is merged a few times on its way down
/// the levels.
pub const WORK_PER_OPERATION: u32 = 6;

/// Imports lines, each a `put` with a key and a value or a `del` with a key, into the database that
/// is there, or into a new one, and returns the exit status: 0, or 1 if it was refused. It writes
/// the line of the refusal, if there was one, and `taken` with the number of operations that were
/// taken.
///
/// A batch is written once it has as many operations as it may have, or 1 MiB of keys and values,
/// and another line comes; after each one work is done. What waits at the end of the lines is
/// written with sync, and the database is closed. So after status 0 the device has all operations
/// that were taken. A full batch waits so that the last one is never empty.
///
/// The first command that is refused ends it, and so does a line that is none of the two, as
/// `BadLine`. What waits isn't written then. The listener is told of the refusal. On a `Fault` some
/// first lines were taken, and the database is closed too.
pub fn import<S: Store, K: KeyOrder, R: Read + Drop, W: Write, L: Listener>(
    alloc: Global,
    session: &mut Session<S, K>,
    how: &Importing,
    reader: R,
    writer: &mut W,
    listener: &mut L,
) -> Result<u8, Fault>
    ensures done { IfOk result (λ status. Imports (order_of K.name K.cmp) S.facts how.now session.old session.new (R.remaining reader) (W.contents writer.old) (W.contents writer.new) status) }
    ensures stopped { OnErr result (StopsImport (order_of K.name K.cmp) S.facts how.now session.old session.new (R.remaining reader) (W.contents writer.old) (W.contents writer.new)) }
    ensures shut { IsShut session.new }
{
    let mut taken = 0;
    let ended = import_closed(alloc, session, how, reader, &mut taken, listener)?;
    let mut text = Vec::new(alloc);
    push_report(alloc, &mut text, &ended, taken)?;
    write_all(writer, text.as_slice())?;
    Ok(status_of(&ended))
}

// All but the report.
fn import_closed<S: Store, K: KeyOrder, R: Read + Drop, L: Listener>(
    alloc: Global,
    session: &mut Session<S, K>,
    how: &Importing,
    reader: R,
    taken: &mut u64,
    listener: &mut L,
) -> Result<Answer, Fault>
    requires none { taken.old ≡ 0 }
    ensures ended { IfOk result (λ outcome. EndsClosed (order_of K.name K.cmp) S.facts how.now session.old session.new (R.remaining reader) outcome taken.new) }
    ensures stopped { OnErr result (TakesClosed (order_of K.name K.cmp) S.facts how.now session.old session.new (R.remaining reader)) }
    ensures shut { IsShut session.new }
{
    let imported = import_opened(alloc, session, how, reader, taken, listener);
    let _ = shut(alloc, session);
    imported
}

// All but the close.
fn import_opened<S: Store, K: KeyOrder, R: Read + Drop, L: Listener>(
    alloc: Global,
    session: &mut Session<S, K>,
    how: &Importing,
    reader: R,
    taken: &mut u64,
    listener: &mut L,
) -> Result<Answer, Fault>
    requires none { taken.old ≡ 0 }
    ensures ended { IfOk result (λ outcome. EndsImport (order_of K.name K.cmp) S.facts how.now session.old session.new (R.remaining reader) outcome taken.new) }
    ensures stopped { OnErr result (TakesSome (order_of K.name K.cmp) S.facts how.now session.old session.new (R.remaining reader)) }
{
    match open_any(alloc, session) {
        Some(refused) => {
            tell_of_answer(listener, None, &refused, session.store());
            return Ok(refused);
        }
        None => {}
    }
    let mut input = match BufReader::with_capacity(alloc, INPUT_BYTES, reader) {
        Ok(input) => input,
        Err(error) => return Err(Fault::Read(error)),
    };
    let ended = take_lines(alloc, session, how, &mut input, taken, listener)?;
    Ok(ended)
}

// Opens the database that is there, or a new one. Returns the answer if it is a refusal.
fn open_any<S: Store, K: KeyOrder>(alloc: Global, session: &mut Session<S, K>) -> Option<Answer>
    ensures { MatchOption result (GoesOn (order_of K.name K.cmp) S.facts session.old session.new (Open Any ∷ []) (Done ∷ []))
        (λ refused. IsRefusal refused × GoesOn (order_of K.name K.cmp) S.facts session.old session.new (Open Any ∷ []) (refused ∷ [])) }
{
    let opened = give(alloc, session, &Op::Open(Mode::Any));
    if is_refusal(&opened) {
        return Some(opened);
    }
    None
}

// Takes the lines that are left, and writes what waits then.
fn take_lines<S: Store, K: KeyOrder, R: Read, L: Listener>(
    alloc: Global,
    session: &mut Session<S, K>,
    how: &Importing,
    input: &mut BufReader<R>,
    taken: &mut u64,
    listener: &mut L,
) -> Result<Answer, Fault>
    ensures ended { IfOk result (λ outcome. EndsRest (order_of K.name K.cmp) S.facts how.now session.old session.new (reader_remaining R.remaining input.old) taken.old taken.new outcome) }
    ensures stopped { OnErr result (TakesRest (order_of K.name K.cmp) S.facts how.now session.old session.new (reader_remaining R.remaining input.old) taken.old) }
{
    let mut line = Vec::new(alloc);
    let mut gathered = Gathered::with_room(alloc, how.batch())?;
    let mut number = 0_u64;
    // A loop without a measure: as many turns as 64 bits count, which no input has.
    for _ in 0..u64::MAX {
        if !read_next_line(input, &mut line)? {
            let last = write_gathered(alloc, session, how, &mut gathered, true, taken)?;
            tell_of_answer(listener, None, &last, session.store());
            return Ok(last);
        }
        // (a full batch is written only now: after the last line it would be the one with sync)
        let made = make_room(alloc, session, how, &mut gathered, taken)?;
        if is_refusal(&made) {
            tell_of_answer(listener, Some(number), &made, session.store());
            return Ok(made);
        }
        number = number.saturating_add(1);
        if !take_line(alloc, line.as_slice(), &mut gathered)? {
            tell_of_bad_line(listener, number, misread_operation_line(line.as_slice()));
            return Ok(Answer::Refused(DbError::BadLine));
        }
    }
    Err(Fault::Memory)
}

// Writes what waits, if it is a whole batch: `Done`, or why no more is taken.
fn make_room<S: Store, K: KeyOrder>(
    alloc: Global,
    session: &mut Session<S, K>,
    how: &Importing,
    gathered: &mut Gathered,
    taken: &mut u64,
) -> Result<Answer, AllocError>
    requires few { IsBatch how.now.batch gathered.old.operations.items }
    ensures ok { IfOk result (λ outcome. MakesRoom (order_of K.name K.cmp) S.facts how.now session.old session.new
        gathered.old.operations.items gathered.new.operations.items taken.old taken.new outcome) }
    ensures room { OnOk result (HasRoom how.now.batch gathered.new.operations.items) }
    ensures err { OnErr result (session.new ≡ session.old) }
{
    if !gathered.is_full(how.batch()) {
        return Ok(Answer::Done);
    }
    let made = write_gathered(alloc, session, how, gathered, how.sync(), taken)?;
    Ok(made)
}

// Has a line's operation wait after the others. Returns whether it says one.
fn take_line(alloc: Global, line: &[u8], gathered: &mut Gathered) -> Result<bool, AllocError>
    ensures { IfOk result (λ says. TakesOperation line.now gathered.old.operations.items gathered.new.operations.items says) }
{
    let Some(operation) = read_operation_line(alloc, line)? else {
        return Ok(false);
    };
    gathered.push(operation)?;
    Ok(true)
}

// Writes what waits as one batch, and does work after it: `Done`, or the refusal that ended it. If
// memory ran out, nothing is done.
fn write_gathered<S: Store, K: KeyOrder>(
    alloc: Global,
    session: &mut Session<S, K>,
    how: &Importing,
    gathered: &mut Gathered,
    sync: bool,
    taken: &mut u64,
) -> Result<Answer, AllocError>
    requires few { IsBatch how.now.batch gathered.old.operations.items }
    ensures ok { IfOk result (λ outcome. WritesBatch (order_of K.name K.cmp) S.facts how.now.batch sync session.old session.new
        gathered.old.operations.items taken.old taken.new outcome) }
    ensures none { OnOk result (gathered.new.operations.items ≡ []) }
    ensures err { OnErr result (session.new ≡ session.old) }
{
    let count = gathered.count();
    let Some(after) = taken.checked_add(count as u64) else {
        return Err(AllocError);
    };
    let entries = entries_of(how, count);
    let write = gathered.take(alloc, sync);
    let written = give(alloc, session, &write);
    gathered.reuse(write);
    if is_refusal(&written) {
        return Ok(written);
    }
    *taken = after;
    Ok(work_behind_batch(alloc, session, entries))
}

// Does the work after a batch: so many entries, and one more, which writes the table of a memory
// table that these have sealed (but for one that it seals itself, after a compaction's end).
// Otherwise the next batch would sync its log. `Done`, or the first refusal.
fn work_behind_batch<S: Store, K: KeyOrder>(
    alloc: Global,
    session: &mut Session<S, K>,
    entries: u32,
) -> Answer
    ensures { WorksBehind (order_of K.name K.cmp) S.facts entries session.old session.new result }
{
    let worked = give(alloc, session, &Op::Work(entries));
    if is_refusal(&worked) {
        return worked;
    }
    let last = give(alloc, session, &Op::Work(1));
    done_or_refused(last)
}

// How many entries of work are done after so many operations.
fn entries_of(how: &Importing, count: usize) -> u32
    requires few { count ≤ how.now.batch }
    ensures { result ≡ 6 * count }
{
    let _most = how.batch();
    WORK_PER_OPERATION * count as u32
}

// A refusal, or else `Done`.
fn done_or_refused(answer: Answer) -> Answer
    ensures refused { IsRefusal answer → result ≡ answer }
    ensures done { (IsRefusal answer → ⊥) → result ≡ Done }
{
    if is_refusal(&answer) {
        return answer;
    }
    Answer::Done
}

// Appends the line of a refusal, if it is one, and the number of operations that were taken.
fn push_report(
    alloc: Global,
    text: &mut Vec<u8>,
    ended: &Answer,
    taken: u64,
) -> Result<(), AllocError>
    ensures { OnOk result (text.new.items ≡ text.old.items ++ report_of ended.now taken) }
{
    push_refusal_line(alloc, text, ended)?;
    push_with_number(alloc, text, "taken", taken)?;
    text.push(b'\n')?;
    Ok(())
}

fn push_refusal_line(alloc: Global, text: &mut Vec<u8>, ended: &Answer) -> Result<(), AllocError>
    ensures { OnOk result (text.new.items ≡ text.old.items ++ refusal_line ended.now) }
{
    match ended {
        Answer::Refused(_) => push_answer(alloc, text, ended),
        Answer::Done => Ok(()),
        Answer::Value(_) => Ok(()),
        Answer::Snapshot(_) => Ok(()),
        Answer::Iterator(_) => Ok(()),
        Answer::Pair(_) => Ok(()),
        Answer::Worked => Ok(()),
        Answer::Idle => Ok(()),
    }
}
