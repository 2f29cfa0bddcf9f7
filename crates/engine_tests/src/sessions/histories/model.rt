// A plain model of a database, which draws commands and knows their answers.
use batch::Operation;
use coding::{Bytes, DbError};
use engine::{Answer, Mode, Op};
use std::alloc::Global;

// How many keys there are, of a byte each.
pub const KEYS: u8 = 40;

// A command, and its answer.
#[derive(Drop)]
pub struct Step {
    pub op: Op,
    pub wanted: Answer,
}

// A write: its key, its number, and whether it is a put.
#[derive(Clone, Copy)]
struct Written {
    key: u8,
    time: u64,
    is_put: bool,
}

// A snapshot or an iterator: its id, the number of the last write that it sees, and at which key it
// stands, if it does.
#[derive(Clone, Copy)]
struct View {
    id: u64,
    time: u64,
    place: Option<u8>,
}

#[derive(Clone, Copy)]
enum Move {
    First,
    Last,
    Seek(u8),
    Next,
    Prev,
}

// All writes, and the views that live.
#[derive(Drop)]
pub struct Model {
    drawn: u64,
    is_open: bool,
    writes: Vec<Written>,
    time: u64,
    snapshots: Vec<View>,
    iterators: Vec<View>,
    last_snapshot: u64,
    last_iterator: u64,
}

fn key_of(alloc: Global, key: u8) -> Result<Bytes, DbError> {
    Ok(Bytes::copied_from(alloc, &[key])?)
}

// The value of a write.
fn value_of(alloc: Global, time: u64) -> Result<Bytes, DbError> {
    let mut value = vec![in alloc; (time % 256) as u8; (time % 50) as usize]?;
    value.push((time / 256 % 256) as u8)?;
    Ok(Bytes::copied_from(alloc, value.as_slice())?)
}

fn operation_of(alloc: Global, written: Written) -> Result<Operation, DbError> {
    let key = key_of(alloc, written.key)?;
    if written.is_put {
        Ok(Operation::Put(key, value_of(alloc, written.time)?))
    } else {
        Ok(Operation::Delete(key))
    }
}

fn write_of(alloc: Global, written: Written) -> Result<Op, DbError> {
    let operation = operation_of(alloc, written)?;
    Ok(Op::Write(Vec::from_array(alloc, [operation])?, false))
}

fn move_of(alloc: Global, id: u64, by: Move) -> Result<Op, DbError> {
    Ok(match by {
        Move::First => Op::First(id),
        Move::Last => Op::Last(id),
        Move::Seek(key) => Op::Seek(id, key_of(alloc, key)?),
        Move::Next => Op::Next(id),
        Move::Prev => Op::Prev(id),
    })
}

fn done(op: Op) -> Step {
    Step {
        op,
        wanted: Answer::Done,
    }
}

impl Model {
    // A database without an entry, which is open.
    pub fn new(alloc: Global) -> Self {
        Model {
            drawn: 0x9E37_79B9_7F4A_7C15,
            is_open: true,
            writes: Vec::new(alloc),
            time: 0,
            snapshots: Vec::new(alloc),
            iterators: Vec::new(alloc),
            last_snapshot: 0,
            last_iterator: 0,
        }
    }

    // Whether the last command didn't close it.
    pub fn is_open(&self) -> bool {
        self.is_open
    }

    // The next number of an xorshift.
    fn draw(&mut self) -> u64 {
        let mut drawn = self.drawn;
        drawn ^= drawn << 13;
        drawn ^= drawn >> 7;
        drawn ^= drawn << 17;
        self.drawn = drawn;
        drawn
    }

    fn draw_key(&mut self) -> u8 {
        (self.draw() % 40) as u8
    }

    fn draw_snapshot(&mut self) -> Option<View> {
        let place = (self.draw() % 8) as usize;
        self.snapshots.get(place).copied()
    }

    fn draw_iterator(&mut self) -> Option<View> {
        let place = (self.draw() % 4) as usize;
        self.iterators.get(place).copied()
    }

    // The write of a key's value, as one sees it who sees the writes up to a time.
    fn found(&self, key: u8, time: u64) -> Option<u64> {
        for written in self.writes.iter().rev() {
            if written.key == key && written.time <= time {
                return if written.is_put {
                    Some(written.time)
                } else {
                    None
                };
            }
        }
        None
    }

    // The first key from one on that has a value at a time.
    fn up_from(&self, low: u8, time: u64) -> Option<u8> {
        for key in low..KEYS {
            if self.found(key, time).is_some() {
                return Some(key);
            }
        }
        None
    }

    // The last one before one.
    fn down_from(&self, high: u8, time: u64) -> Option<u8> {
        for key in (0..high).rev() {
            if self.found(key, time).is_some() {
                return Some(key);
            }
        }
        None
    }

    // Where a move leads from a key.
    fn place_of(&self, time: u64, by: Move, from: u8) -> Option<u8> {
        match by {
            Move::First => self.up_from(0, time),
            Move::Last => self.down_from(KEYS, time),
            Move::Seek(key) => self.up_from(key, time),
            Move::Next => self.up_from(from.saturating_add(1), time),
            Move::Prev => self.down_from(from, time),
        }
    }

    fn value_at(&self, alloc: Global, key: u8, time: u64) -> Result<Option<Bytes>, DbError> {
        match self.found(key, time) {
            Some(written) => Ok(Some(value_of(alloc, written)?)),
            None => Ok(None),
        }
    }

    fn pair_at(
        &self,
        alloc: Global,
        place: Option<u8>,
        time: u64,
    ) -> Result<Option<(Bytes, Bytes)>, DbError> {
        let Some(key) = place else {
            return Ok(None);
        };
        match self.value_at(alloc, key, time)? {
            Some(value) => Ok(Some((key_of(alloc, key)?, value))),
            None => Ok(None),
        }
    }

    fn write(&mut self, alloc: Global, is_put: bool) -> Result<Step, DbError> {
        let key = self.draw_key();
        let time = self.time.wrapping_add(1);
        let written = Written { key, time, is_put };
        self.time = time;
        self.writes.push(written)?;
        Ok(done(write_of(alloc, written)?))
    }

    // Reads a key, now or at a snapshot.
    fn get(&mut self, alloc: Global, snapshot: Option<View>) -> Result<Step, DbError> {
        let key = self.draw_key();
        let time = match snapshot {
            Some(view) => view.time,
            None => self.time,
        };
        let id = snapshot.map(|view| view.id);
        let value = self.value_at(alloc, key, time)?;
        Ok(Step {
            op: Op::Get(key_of(alloc, key)?, id),
            wanted: Answer::Value(value),
        })
    }

    fn take(&mut self) -> Result<Step, DbError> {
        if self.snapshots.len() >= 6 {
            return Ok(self.release());
        }
        let id = self.last_snapshot.wrapping_add(1);
        self.last_snapshot = id;
        self.snapshots.push(View {
            id,
            time: self.time,
            place: None,
        })?;
        Ok(Step {
            op: Op::Snapshot,
            wanted: Answer::Snapshot(id),
        })
    }

    fn release(&mut self) -> Step {
        let Some(view) = self.draw_snapshot() else {
            return Step {
                op: Op::Release(0),
                wanted: Answer::Refused(DbError::NoSnapshot),
            };
        };
        self.snapshots.retain(|it| it.id != view.id);
        done(Op::Release(view.id))
    }

    // Makes an iterator, now or at a snapshot, where there aren't many.
    pub fn iterate(&mut self) -> Result<Step, DbError> {
        if self.iterators.len() >= 4 {
            return Ok(self.drop_iterator());
        }
        let snapshot = self.draw_snapshot();
        let time = match snapshot {
            Some(view) => view.time,
            None => self.time,
        };
        let id = self.last_iterator.wrapping_add(1);
        self.last_iterator = id;
        self.iterators.push(View {
            id,
            time,
            place: None,
        })?;
        Ok(Step {
            op: Op::Iterate(snapshot.map(|view| view.id)),
            wanted: Answer::Iterator(id),
        })
    }

    fn drop_iterator(&mut self) -> Step {
        let Some(view) = self.draw_iterator() else {
            return Step {
                op: Op::DropIterator(0),
                wanted: Answer::Refused(DbError::NoIterator),
            };
        };
        self.iterators.retain(|it| it.id != view.id);
        done(Op::DropIterator(view.id))
    }

    fn put_place(&mut self, id: u64, place: Option<u8>) {
        for it in self.iterators.iter_mut() {
            if it.id == id {
                it.place = place;
            }
        }
    }

    fn step_from(
        &mut self,
        alloc: Global,
        view: View,
        by: Move,
        from: u8,
    ) -> Result<Answer, DbError> {
        let place = self.place_of(view.time, by, from);
        self.put_place(view.id, place);
        Ok(Answer::Pair(self.pair_at(alloc, place, view.time)?))
    }

    // What a move of an iterator is answered. Without a place there is no step.
    fn moved(&mut self, alloc: Global, view: View, by: Move) -> Result<Answer, DbError> {
        match (by, view.place) {
            (Move::Next, None) => Ok(Answer::Refused(DbError::NoPlace)),
            (Move::Prev, None) => Ok(Answer::Refused(DbError::NoPlace)),
            (_, place) => self.step_from(alloc, view, by, place.unwrap_or(0)),
        }
    }

    fn go(&mut self, alloc: Global, view: View, by: Move) -> Result<Step, DbError> {
        let wanted = self.moved(alloc, view, by)?;
        Ok(Step {
            op: move_of(alloc, view.id, by)?,
            wanted,
        })
    }

    fn draw_move(&mut self) -> Move {
        let key = self.draw_key();
        match self.draw() % 10 {
            0 => Move::First,
            1 => Move::Last,
            2 => Move::Seek(key),
            3..=6 => Move::Next,
            _ => Move::Prev,
        }
    }

    fn move_iterator(&mut self, alloc: Global) -> Result<Step, DbError> {
        let by = self.draw_move();
        let Some(view) = self.draw_iterator() else {
            return Ok(Step {
                op: Op::Next(0),
                wanted: Answer::Refused(DbError::NoIterator),
            });
        };
        self.go(alloc, view, by)
    }

    // The step of this number of an iteration of the first iterator over all pairs.
    pub fn walk(&mut self, alloc: Global, number: u8) -> Result<Step, DbError> {
        let Some(view) = self.iterators.get(0).copied() else {
            return Err(DbError::NoIterator);
        };
        let by = if number == 0 { Move::First } else { Move::Next };
        self.go(alloc, view, by)
    }

    // A piece of work, of so many entries at most.
    fn work(&mut self) -> Step {
        Step {
            op: Op::Work((self.draw() % 4) as u32),
            wanted: Answer::Worked,
        }
    }

    // Compacts a level, or all of them.
    fn compact(&mut self) -> Step {
        let level = (self.draw() % 8) as u32;
        if level < 6 {
            done(Op::CompactLevel(level))
        } else {
            done(Op::CompactAll)
        }
    }

    pub fn close(&mut self) -> Step {
        self.is_open = false;
        self.snapshots.clear();
        self.iterators.clear();
        done(Op::Close)
    }

    pub fn open(&mut self) -> Step {
        self.is_open = true;
        done(Op::Open(Mode::Existing))
    }

    // Draws the next command.
    pub fn draw_step(&mut self, alloc: Global) -> Result<Step, DbError> {
        if !self.is_open {
            return Ok(self.open());
        }
        match self.draw() % 100 {
            0..=29 => self.write(alloc, true),
            30..=39 => self.write(alloc, false),
            40..=44 => self.get(alloc, None),
            45..=51 => {
                let snapshot = self.draw_snapshot();
                self.get(alloc, snapshot)
            }
            52..=54 => self.take(),
            55..=56 => Ok(self.release()),
            57..=59 => self.iterate(),
            60 => Ok(self.drop_iterator()),
            61..=74 => self.move_iterator(alloc),
            75..=97 => Ok(self.work()),
            98 => Ok(self.compact()),
            _ => Ok(self.close()),
        }
    }
}
