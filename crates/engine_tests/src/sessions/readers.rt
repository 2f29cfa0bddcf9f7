// Readers: they answer as sessions do over the same files, and never ask for more than to read
// them.
ghost use Rattle.std.specs.Prelude.{◌≡◌};
ghost use Rattle.store.specs.MemFacts.{mem_facts};

use super::directories::{OPENINGS, Opening, before};
use super::tables::{
    BESIDE_A_COMPRESSED_BLOCK, BESIDE_DAMAGE, LEVELS, READ, UNFILTERED_AND_COMPRESSED,
    UNFILTERED_AND_DAMAGED,
};
use super::*;
use coding::Bytes;
use reader::{Movement, ReadOnly, Reader, ReaderWalk};
use std::num::NonZeroUsize;
use store::{StoreError, Trouble};

// Files in memory that no call may change: one that would is noted, and fails, since a file is
// removed that isn't there. So is noted what asks for the lock.
#[derive(Drop)]
struct Untouched {
    inner: MemStore,
    asked: u64,
}

impl Untouched {
    fn count(&mut self)
        ensures { self.new.inner ≡ self.old.inner }
    {
        self.asked = self.asked.saturating_add(1);
    }
}

impl Store for Untouched {
    ghost use Rattle.std.specs.Prelude.{false};

    ghost facts = { λ u. record (mem_facts u.inner) { faithful = false } };

    ghost told = { λ u. u.inner.noted };

    fn failures(&self) -> u64 {
        self.inner.failures()
    }

    fn write_failures(&self) -> u64 {
        self.inner.write_failures()
    }

    fn list(&mut self, alloc: Global) -> Result<Vec<String>, StoreError> {
        self.inner.list(alloc)
    }

    fn len(&mut self, name: &str) -> Result<u64, StoreError> {
        self.inner.len(name)
    }

    fn read_at(
        &mut self,
        alloc: Global,
        name: &str,
        offset: u64,
        count: usize,
    ) -> Result<Vec<u8>, StoreError> {
        self.inner.read_at(alloc, name, offset, count)
    }

    fn create(&mut self, _name: &str) -> Result<(), StoreError> {
        self.count();
        self.inner.sync("")
    }

    fn append(&mut self, _name: &str, _bytes: &[u8]) -> Result<(), StoreError> {
        self.count();
        self.inner.sync("")
    }

    fn sync(&mut self, _name: &str) -> Result<(), StoreError> {
        self.count();
        self.inner.sync("")
    }

    fn rename(&mut self, _from: &str, _to: &str) -> Result<(), StoreError> {
        self.count();
        self.inner.sync("")
    }

    fn remove(&mut self, _name: &str) -> Result<(), StoreError> {
        self.count();
        self.inner.remove("")
    }

    fn lock(&mut self) -> Result<bool, StoreError> {
        self.count();
        self.inner.lock()
    }

    fn unlock(&mut self) -> Result<(), StoreError> {
        self.count();
        self.inner.unlock()
    }

    fn note(&mut self, trouble: Trouble) {
        self.inner.note(trouble);
    }

    fn noted(&self) -> Trouble {
        self.inner.noted()
    }

    fn synced_law(&self) {
        self.inner.synced_law();
    }
}

type Looked = Reader<Untouched, Bytewise>;

// A reader of a directory, or why there is none.
fn looked_at(alloc: Global, inner: MemStore) -> Result<Looked, DbError> {
    let blocks = NonZeroUsize::new(4).ok_or(DbError::OutOfMemory)?;
    let store = ReadOnly::over(Untouched { inner, asked: 0 });
    match Reader::open(alloc, store, blocks) {
        Ok(reader) => Ok(reader),
        Err((error, _)) => Err(error),
    }
}

fn pair_answer(pair: Result<Option<(Bytes, Bytes)>, DbError>) -> Answer {
    match pair {
        Ok(pair) => Answer::Pair(pair),
        Err(error) => Answer::Refused(error),
    }
}

fn value_answer(value: Result<Option<Bytes>, DbError>) -> Answer {
    match value {
        Ok(value) => Answer::Value(value),
        Err(error) => Answer::Refused(error),
    }
}

// Nothing is claimed of it, so that a caller's proof needn't read what is claimed of `go`.
fn gone(
    alloc: Global,
    reader: &mut Looked,
    walk: &mut ReaderWalk<Bytewise>,
    movement: Movement<'_>,
) -> Answer {
    pair_answer(reader.go(alloc, walk, movement))
}

// What a session's command is answered by a reader: a get of now, and the moves of the one walk.
fn answer_to(
    alloc: Global,
    reader: &mut Looked,
    walk: &mut ReaderWalk<Bytewise>,
    op: &Op,
) -> Answer {
    match op {
        Op::Open(_) => Answer::Done,
        Op::Iterate(_) => Answer::Iterator(1),
        Op::Get(key, None) => value_answer(reader.get(alloc, key.as_slice())),
        Op::First(_) => gone(alloc, reader, walk, Movement::First),
        Op::Last(_) => gone(alloc, reader, walk, Movement::Last),
        Op::Seek(_, key) => gone(alloc, reader, walk, Movement::Seek(key.as_slice())),
        Op::Next(_) => gone(alloc, reader, walk, Movement::Next),
        Op::Prev(_) => gone(alloc, reader, walk, Movement::Prev),
        _ => Answer::Refused(DbError::BadLine),
    }
}

fn answers_of(
    alloc: Global,
    reader: &mut Looked,
    script: &[Line<'_>],
) -> Result<Vec<Answer>, DbError> {
    let mut walk = reader.walk(alloc)?;
    let mut answers = Vec::new(alloc);
    for (line, _) in script {
        let op = op_of(alloc, *line)?;
        answers.push(answer_to(alloc, reader, &mut walk, &op))?;
    }
    Ok(answers)
}

// Asks a reader of these files all that a script asks, and says how often it would have changed
// something, or asked for the lock.
fn asked_for(
    rt: &(impl Abort + AllocGlobal),
    files: Files<'_>,
    script: &[Line<'_>],
) -> Result<u64, Fail> {
    let mut reader = looked_at(rt.alloc(), directory(rt.alloc(), files)?)?;
    let answers = answers_of(rt.alloc(), &mut reader, script)?;
    assert_answers(rt, &answers, script);
    Ok(reader.into_store().into_inner().asked)
}

// What a directory has, and what is read of it.
const READS: [(Files<'static>, &[Line<'static>]); 3] = [
    (LEVELS, READ),
    (UNFILTERED_AND_DAMAGED, BESIDE_DAMAGE),
    (UNFILTERED_AND_COMPRESSED, BESIDE_A_COMPRESSED_BLOCK),
];

#[test]
fn readers_answer_as_sessions_and_change_nothing(rt: HostRuntime) -> Result<(), Fail> {
    for (files, script) in READS {
        assert_eq!(rt; asked_for(&rt, files, script)?, 0);
    }
    Ok(())
}

// What an open of a reader is answered.
fn opened(alloc: Global, store: MemStore) -> Result<String, AllocError> {
    match looked_at(alloc, store) {
        Ok(_) => String::from_str(alloc, "ok"),
        Err(error) => format!(in alloc; "refused {error:?}"),
    }
}

// What a session answers to its open. Where that makes a database, a reader finds none.
fn answer_of(opening: &Opening) -> &'static str {
    match opening.2 {
        ("open new", "ok") => "refused NoDatabase",
        (_, answer) => answer,
    }
}

fn is_opened_as(alloc: Global, opening: &Opening) -> bool {
    let Ok(store) = before(alloc, opening) else {
        return false;
    };
    matches!(opened(alloc, store), Ok(text) if text.as_str() == answer_of(opening))
}

#[test]
fn readers_are_refused_as_sessions(rt: HostRuntime) -> Result<(), Fail> {
    for opening in OPENINGS {
        assert!(rt; is_opened_as(rt.alloc(), opening), "{:?}", opening.1);
    }
    assert_eq!(rt;
        opened(rt.alloc(), MemStore::new(rt.alloc()))?.as_str(),
        "refused NoDatabase"
    );
    Ok(())
}

fn is_device(answer: Result<(), StoreError>) -> bool {
    matches!(answer, Err(StoreError::Device))
}

// Whether each call that would change something, or asks for the lock, fails and is counted, though
// the store within has the file.
fn refuses(store: &mut ReadOnly<Untouched>) -> bool {
    is_device(store.create("CURRENT"))
        && is_device(store.append("CURRENT", b"x"))
        && is_device(store.sync("CURRENT"))
        && is_device(store.rename("CURRENT", "other"))
        && is_device(store.remove("CURRENT"))
        && matches!(store.lock(), Err(StoreError::Device))
        && store.unlock().is_ok()
        && store.failures() == 6
}

fn asked_behind(alloc: Global) -> Result<(bool, u64), DbError> {
    let inner = directory(alloc, LEVELS)?;
    let mut store = ReadOnly::over(Untouched { inner, asked: 0 });
    let refused = refuses(&mut store);
    Ok((refused, store.into_inner().asked))
}

#[test]
fn a_store_that_is_only_read_hands_no_other_call_on(rt: HostRuntime) {
    assert_eq!(rt; asked_behind(rt.alloc()), Ok((true, 0)));
}
