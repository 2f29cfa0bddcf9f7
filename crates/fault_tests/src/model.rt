//! A plain model of a database over a store that may fail: which answers it may give, and what it
//! holds then.
use crate::lines::{Change, KEYS, Line, Map, Seen};
use coding::DbError;
use engine::Mode;

// How many snapshots, and how many iterators, there may be.
const VIEWS: usize = 4;

#[derive(Clone, Copy)]
struct View {
    pairs: Map,
    place: Option<usize>,
}

#[derive(Clone, Copy, PartialEq)]
enum Standing {
    Closed,
    Open,
    Broken,
}

/// Tells what failed in a call.
#[derive(Clone, Copy, PartialEq)]
pub enum Failed {
    Nothing,
    // a call that makes or fills a file, syncs it, or gives it another name
    Write,
    // another one
    Other,
}

/// Holds one state in which a session may be.
#[derive(Clone, Copy)]
pub struct Model {
    now: Map,
    // as the batch would leave it whose write failed
    doubt: Option<Map>,
    // whether there is a database, where that is known
    made: Option<bool>,
    standing: Standing,
    // whether the lock may still be held
    locked: bool,
    snapshots: [Option<Map>; VIEWS],
    iterators: [Option<View>; VIEWS],
    last_snapshot: usize,
    last_iterator: usize,
}

const EMPTY: Map = [None; KEYS];

const NO_SNAPSHOTS: [Option<Map>; VIEWS] = [None; VIEWS];

const NO_ITERATORS: [Option<View>; VIEWS] = [None; VIEWS];

/// Returns what a map is after a batch.
pub fn written(map: Map, changes: &[Change]) -> Map {
    let mut map = map;
    for change in changes {
        if let Some(value) = map.get_mut(change.0) {
            *value = change.1;
        }
    }
    map
}

/// Returns the value of a key, by its place.
pub fn value_at(map: &Map, place: usize) -> Option<u8> {
    match map.get(place) {
        Some(value) => *value,
        None => None,
    }
}

/// Returns the first place from one on at which a map has a value.
pub fn up_from(map: &Map, low: usize) -> Option<usize> {
    for place in low..KEYS {
        if value_at(map, place).is_some() {
            return Some(place);
        }
    }
    None
}

// The last one before one.
fn down_from(map: &Map, high: usize) -> Option<usize> {
    for place in (0..high).rev() {
        if value_at(map, place).is_some() {
            return Some(place);
        }
    }
    None
}

fn index_of(id: u64) -> usize {
    id.min(VIEWS as u64) as usize
}

impl Model {
    /// Makes a model with no database, and none open.
    pub fn new() -> Self {
        Model {
            now: EMPTY,
            doubt: None,
            made: Some(false),
            standing: Standing::Closed,
            locked: false,
            snapshots: NO_SNAPSHOTS,
            iterators: NO_ITERATORS,
            last_snapshot: 0,
            last_iterator: 0,
        }
    }

    /// Makes an open one that holds this.
    pub fn serving(map: Map) -> Self {
        let mut model = Model::new();
        model.now = map;
        model.made = Some(true);
        model.standing = Standing::Open;
        model
    }

    /// Returns whether it is closed.
    pub fn is_closed(&self) -> bool {
        self.standing == Standing::Closed
    }

    /// Returns whether the files may hold this if the process crashes inside a command, or had
    /// crashed before it.
    pub fn may_hold(&self, line: Line, found: &Map) -> bool {
        let batch = match line {
            Line::Write(changes) => *found == written(self.now, changes),
            _ => false,
        };
        batch || self.holds(found)
    }

    /// Returns whether the files may hold this: what was written, and the batch whose write failed
    /// or not.
    pub fn holds(&self, found: &Map) -> bool {
        *found == self.now || self.doubt == Some(*found)
    }

    /// Returns whether a batch is in doubt though the database was opened again.
    pub fn is_unsettled(&self) -> bool {
        self.standing == Standing::Open && self.doubt.is_some()
    }

    /// Takes what was found, which settles whether the batch counts.
    pub fn settle(&mut self, found: Map) {
        self.now = found;
        self.doubt = None;
    }

    /// Returns the state after a command that was answered so, or none if it may not be: Io comes
    /// if a call failed, and always if one did that writes.
    pub fn after(&self, line: Line, answer: Seen, failed: Failed) -> Option<Model> {
        let is_io = answer == Seen::Refused(DbError::Io);
        if is_io && failed == Failed::Nothing || !is_io && failed == Failed::Write {
            return None;
        }
        match line {
            Line::Open(mode) => self.after_open(mode, answer),
            Line::Close => self.after_close(answer, failed),
            other => self.after_served(other, answer, failed),
        }
    }

    fn unchanged(&self, is_so: bool) -> Option<Model> {
        if is_so { Some(*self) } else { None }
    }

    fn standing(&self, standing: Standing) -> Option<Model> {
        let mut new = *self;
        new.standing = standing;
        Some(new)
    }

    fn after_open(&self, mode: Mode, answer: Seen) -> Option<Model> {
        match (self.standing, answer) {
            (Standing::Closed, _) => self.after_real_open(mode, answer),
            (Standing::Broken, _) => self.unchanged(answer == Seen::Refused(DbError::Broken)),
            (_, _) => self.unchanged(answer == Seen::Refused(DbError::AlreadyOpen)),
        }
    }

    fn after_real_open(&self, mode: Mode, answer: Seen) -> Option<Model> {
        let mut new = *self;
        match answer {
            Seen::Done => {
                let refused = match mode {
                    Mode::New => Some(true),
                    Mode::Existing => Some(false),
                    Mode::Any => None,
                };
                new.made = Some(true);
                new.standing = Standing::Open;
                if refused.is_some() && refused == self.made {
                    None
                } else {
                    Some(new)
                }
            }
            // (it may have come as far as CURRENT)
            Seen::Refused(DbError::Io) => {
                if new.made == Some(false) {
                    new.made = None;
                }
                Some(new)
            }
            Seen::Refused(DbError::Exists) => self.unchanged(
                mode == Mode::New && self.made != Some(false),
            ),
            Seen::Refused(DbError::NoDatabase) => self.unchanged(
                mode == Mode::Existing && self.made != Some(true),
            ),
            Seen::Refused(DbError::Locked) => self.unchanged(self.locked),
            _ => None,
        }
    }

    fn after_close(&self, answer: Seen, failed: Failed) -> Option<Model> {
        if self.standing == Standing::Closed {
            return self.unchanged(answer == Seen::Refused(DbError::NotOpen));
        }
        let mut new = *self;
        new.standing = Standing::Closed;
        new.locked = failed != Failed::Nothing;
        new.snapshots = NO_SNAPSHOTS;
        new.iterators = NO_ITERATORS;
        if answer == Seen::Done {
            Some(new)
        } else {
            None
        }
    }

    // Of every other command.
    fn after_served(&self, line: Line, answer: Seen, failed: Failed) -> Option<Model> {
        match (self.standing, answer) {
            (Standing::Closed, _) => self.unchanged(answer == Seen::Refused(DbError::NotOpen)),
            (Standing::Broken, _) => self.unchanged(answer == Seen::Refused(DbError::Broken)),
            (_, Seen::Refused(DbError::Io)) => self.after_failure(line, failed),
            (_, _) => {
                let mut new = *self;
                if new.serve(line, answer) {
                    Some(new)
                } else {
                    None
                }
            }
        }
    }

    // A failed write breaks the database, also in a step of a compaction. Any other failure leaves
    // it as it was.
    fn after_failure(&self, line: Line, failed: Failed) -> Option<Model> {
        match (line, failed) {
            (Line::Write(changes), Failed::Write) => {
                let mut new = *self;
                new.standing = Standing::Broken;
                new.doubt = Some(written(self.now, changes));
                Some(new)
            }
            (Line::Write(_), _) => None,
            (Line::Snapshot | Line::DropIterator(_), _) => None,
            (Line::Work(_) | Line::CompactLevel(_) | Line::CompactAll, Failed::Write) => {
                self.standing(Standing::Broken)
            }
            (_, Failed::Write) => None,
            (_, _) => Some(*self),
        }
    }

    // Does the command, and says whether the answer is its own.
    fn serve(&mut self, line: Line, answer: Seen) -> bool {
        match line {
            Line::Write(changes) => {
                self.now = written(self.now, changes);
                answer == Seen::Done
            }
            Line::Get(key) => answer == Seen::Value(value_at(&self.now, key)),
            Line::GetAt(key, id) => self.value_then(key, id) == answer,
            Line::Snapshot => self.snapshot() == answer,
            Line::Iterate => self.iterate() == answer,
            Line::Work(_) => matches!(answer, Seen::Worked | Seen::Idle),
            Line::CompactLevel(_) | Line::CompactAll => answer == Seen::Done,
            Line::DropIterator(id) => self.drop_iterator(id) == answer,
            other => self.go(other) == answer,
        }
    }

    fn value_then(&self, key: usize, id: u64) -> Seen {
        match self.snapshots.get(index_of(id)).copied().flatten() {
            Some(map) => Seen::Value(value_at(&map, key)),
            None => Seen::Refused(DbError::NoSnapshot),
        }
    }

    fn snapshot(&mut self) -> Seen {
        self.last_snapshot = self.last_snapshot.saturating_add(1);
        let id = self.last_snapshot;
        if let Some(free) = self.snapshots.get_mut(id) {
            *free = Some(self.now);
        }
        Seen::Snapshot(id as u64)
    }

    fn iterate(&mut self) -> Seen {
        self.last_iterator = self.last_iterator.saturating_add(1);
        let id = self.last_iterator;
        if let Some(free) = self.iterators.get_mut(id) {
            *free = Some(View {
                pairs: self.now,
                place: None,
            });
        }
        Seen::Iterator(id as u64)
    }

    fn drop_iterator(&mut self, id: u64) -> Seen {
        match self.iterators.get_mut(index_of(id)) {
            Some(kept) if kept.is_some() => {
                *kept = None;
                Seen::Done
            }
            _ => Seen::Refused(DbError::NoIterator),
        }
    }

    fn go(&mut self, line: Line) -> Seen {
        match line {
            Line::First(id) => self.go_to(id, 0),
            Line::Seek(id, key) => self.go_to(id, key),
            Line::Next(id) => self.go_on(id, true),
            Line::Prev(id) => self.go_on(id, false),
            _ => Seen::Foreign,
        }
    }

    fn view(&self, id: u64) -> Option<View> {
        self.iterators.get(index_of(id)).copied().flatten()
    }

    // Puts an iterator where its map has a value.
    fn stand(&mut self, id: u64, view: View, place: Option<usize>) -> Seen {
        if let Some(kept) = self.iterators.get_mut(index_of(id)) {
            *kept = Some(View {
                pairs: view.pairs,
                place,
            });
        }
        Seen::Pair(place.map(|it| (it, value_at(&view.pairs, it))))
    }

    fn go_to(&mut self, id: u64, key: usize) -> Seen {
        match self.view(id) {
            Some(view) => self.stand(id, view, up_from(&view.pairs, key)),
            None => Seen::Refused(DbError::NoIterator),
        }
    }

    fn go_on(&mut self, id: u64, up: bool) -> Seen {
        let Some(view) = self.view(id) else {
            return Seen::Refused(DbError::NoIterator);
        };
        match view.place {
            Some(place) if up => self.stand(
                id,
                view,
                up_from(&view.pairs, place.saturating_add(1)),
            ),
            Some(place) => self.stand(id, view, down_from(&view.pairs, place)),
            None => Seen::Refused(DbError::NoPlace),
        }
    }
}
