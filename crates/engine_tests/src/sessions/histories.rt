// A long session of drawn commands beside a plain model, under options so small that compactions
// into several levels run all the time.
mod model;

use super::*;
use engine::Mode;
use model::{KEYS, Model, Step};
use recover::{Report, Summary};
use std::test::Fail;

const SIZES: Sizes = [200, 64, 300, 2, 50, 16];

const COMMANDS: u64 = 4_050;

// Whether the session answers as the model says. Where that says that work was done, there may have
// been none to do.
fn is_answered(
    alloc: Global,
    session: &mut Session<MemStore, Bytewise>,
    step: Result<Step, DbError>,
) -> bool {
    let Ok(Step { op, wanted }) = step else {
        return false;
    };
    let answer = given(alloc, session, &op);
    answer == wanted || answer == Answer::Idle && wanted == Answer::Worked
}

// Gives the drawn commands, and says how many were answered as the model says before one that
// wasn't.
fn drawn(alloc: Global, session: &mut Session<MemStore, Bytewise>, model: &mut Model) -> u64 {
    for number in 0..COMMANDS {
        let step = model.draw_step(alloc);
        if !is_answered(alloc, session, step) {
            return number;
        }
    }
    COMMANDS
}

// Walks over all pairs with a new iterator, and one step further.
fn walks(alloc: Global, session: &mut Session<MemStore, Bytewise>, model: &mut Model) -> bool {
    let step = model.iterate();
    if !is_answered(alloc, session, step) {
        return false;
    }
    for number in 0..=KEYS {
        let step = model.walk(alloc, number);
        if !is_answered(alloc, session, step) {
            return false;
        }
    }
    true
}

// Works until there is no more to do, opens once more, and walks over all pairs.
fn ends(alloc: Global, session: &mut Session<MemStore, Bytewise>, model: &mut Model) -> bool {
    if !model.is_open() && !is_answered(alloc, session, Ok(model.open())) {
        return false;
    }
    rests(alloc, session, 100)
        && is_answered(alloc, session, Ok(model.close()))
        && is_answered(alloc, session, Ok(model.open()))
        && walks(alloc, session, model)
}

// The same as `drawn`, an open in front and the end included.
fn all(alloc: Global, session: &mut Session<MemStore, Bytewise>, model: &mut Model) -> u64 {
    if given(alloc, session, &Op::Open(Mode::Any)) != Answer::Done {
        return 0;
    }
    let answered = drawn(alloc, session, model);
    if answered < COMMANDS || !ends(alloc, session, model) {
        return answered.saturating_add(1);
    }
    answered.saturating_add(2)
}

// How many commands were answered as the model says, the open first and the walk at the end last,
// and what is left.
fn after_history(alloc: Global) -> Result<(u64, MemStore), Fail> {
    let mut model = Model::new(alloc);
    let mut session = session(alloc, MemStore::new(alloc), SIZES)?;
    let answered = all(alloc, &mut session, &mut model);
    Ok((answered, session.into_store()))
}

// Level 0 is below its limit, a deeper one than 1 has tables, and no file is left beside the
// tables, the logs in use, `CURRENT`, `LOCK` and the MANIFEST.
fn are_tidy(files: usize, summary: &Summary) -> bool {
    let tables = &summary.tables;
    let high = count_of(tables, 1).saturating_add(count_of(tables, 0));
    let live = tables.len().saturating_add(summary.logs.len());
    files.checked_sub(3) == Some(live) && count_of(tables, 0) < 2 && high < tables.len()
}

fn tells_tidy(report: &Report, files: usize) -> bool {
    matches!(report, Report::Good(summary) if are_tidy(files, summary))
}

// A check accepts what is left, and it is tidy.
fn is_tidy(alloc: Global, store: &mut MemStore) -> bool {
    let files = files_in(alloc, store);
    matches!(checked(alloc, store), Ok(report) if tells_tidy(&report, files))
}

#[test]
fn drawn_commands_are_answered_as_a_plain_model_says(rt: HostRuntime) -> Result<(), Fail> {
    let (answered, mut files) = after_history(rt.alloc())?;
    assert_eq!(rt; answered, COMMANDS.saturating_add(2));
    assert!(rt; is_tidy(rt.alloc(), &mut files));
    Ok(())
}
