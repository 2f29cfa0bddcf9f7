//! Iterations over the pairs whose keys lie in a range, above the iterators of a database.

ghost use Rattle.std.specs.Prelude.{◌≡◌, ◌<◌, ◌↔◌, ◌+◌, ◌++◌, ◌∷◌, [], ℕ, List, All, Some, None, IfOk, IsTrue, OnErr, MatchBool, MatchResult};
ghost use Rattle.std.specs.Cmp.Lexicographic.{slice_cmp};
ghost use Rattle.std.specs.Ordering.{nat_cmp};
ghost use Rattle.ikey.specs.Orders.{order_of};
ghost use Rattle.engine.specs.Ranges.{BeginsWith, is_before_end, is_in_range, prefix_end};

use crate::db::Db;
use coding::{Bytes, DbError};
use ikey::KeyOrder;
use std::alloc::{AllocError, Global};
use std::cmp::Ordering;
use store::Store;

/// Holds a range of keys, in the order of a database: from one on, and before another (LevelDB's
/// include/leveldb/db.h, `Range`). If the first doesn't come before the second, the range has no
/// keys.
#[derive(Debug, Drop)]
pub struct KeyRange {
    /// The first key of the range; `None`: it has no lower end.
    pub from: Option<Bytes>,
    /// The first key after the range; `None`: it has no upper end.
    pub to: Option<Bytes>,
}

impl KeyRange {
    /// Returns the range of all keys.
    pub fn all() -> Self
        ensures { (result.from ≡ None) × (result.to ≡ None) }
    {
        KeyRange {
            from: None,
            to: None,
        }
    }

    /// Returns the range of the keys from this one on.
    pub fn starting_at(alloc: Global, from: &[u8]) -> Result<Self, AllocError>
        ensures { IfOk result (λ keys. (keys.from ≡ Some from.now) × (keys.to ≡ None)) }
    {
        let from = Bytes::copied_from(alloc, from)?;
        Ok(KeyRange {
            from: Some(from),
            to: None,
        })
    }

    /// Returns the range of the keys before this one.
    pub fn ending_before(alloc: Global, to: &[u8]) -> Result<Self, AllocError>
        ensures { IfOk result (λ keys. (keys.from ≡ None) × (keys.to ≡ Some to.now)) }
    {
        let to = Bytes::copied_from(alloc, to)?;
        Ok(KeyRange {
            from: None,
            to: Some(to),
        })
    }

    /// Returns the range of the keys from one on that come before the other.
    pub fn between(alloc: Global, from: &[u8], to: &[u8]) -> Result<Self, AllocError>
        ensures { IfOk result (λ keys. (keys.from ≡ Some from.now) × (keys.to ≡ Some to.now)) }
    {
        let from = Bytes::copied_from(alloc, from)?;
        let to = Bytes::copied_from(alloc, to)?;
        Ok(KeyRange {
            from: Some(from),
            to: Some(to),
        })
    }

    /// Returns the range of the keys that begin so, in the order of bytes: for a database of
    /// `ikey::Bytewise`.
    pub fn with_prefix(alloc: Global, prefix: &[u8]) -> Result<Self, AllocError>
        ensures { IfOk result (λ keys. (key : List ℕ) → All (λ byte. byte < 256) key →
            IsTrue (is_in_range (slice_cmp nat_cmp) keys key) ↔ BeginsWith prefix.now key) }
    {
        // A law, for the proof alone.
        prefix_law();
        let to = behind_prefix(alloc, prefix)?;
        let from = Bytes::copied_from(alloc, prefix)?;
        Ok(KeyRange {
            from: Some(from),
            to,
        })
    }
}

// Proves that a key begins so if it isn't below the prefix, and comes before its end.
fn prefix_law()
    ensures { (prefix key : List ℕ) → All (λ byte. byte < 256) key →
        IsTrue (is_in_range (slice_cmp nat_cmp) (record { from = Some prefix; to = prefix_end prefix }) key) ↔ BeginsWith prefix key }
{}

// What comes first after all keys that begin so, in the order of bytes: `None` if nothing does.
fn behind_prefix(alloc: Global, prefix: &[u8]) -> Result<Option<Bytes>, AllocError>
    ensures { IfOk result (λ end. end ≡ prefix_end prefix.now) }
{
    let mut rest = prefix;
    while let [front @ .., last] = rest {
        if *last < 255 {
            let end = raised(alloc, front, *last)?;
            return Ok(Some(end));
        }
        rest = front;
    }
    Ok(None)
}

// A key with its last byte raised.
fn raised(alloc: Global, front: &[u8], last: u8) -> Result<Bytes, AllocError>
    requires { last < 255 }
    ensures { IfOk result (λ end. end ≡ front.now ++ (last + 1) ∷ []) }
{
    let mut end = Vec::from_slice(alloc, front)?;
    end.push(last + 1)?;
    Ok(Bytes::from_vec(end))
}

/// Tells how far an iteration has come.
#[derive(Clone, Copy, Debug, PartialEq, Eq)]
pub enum Stage {
    /// It hasn't begun.
    Ahead,
    /// Its iterator stands on the pair that came last.
    Within,
    /// All came.
    Over,
}

/// Holds an iteration over the pairs of a range. The database keeps an iterator for it until
/// `Db::range_end` takes it back. It can't be dropped, so that a program which forgets one isn't
/// compiled.
#[derive(Debug)]
pub struct RangeWalk {
    id: u64,
    keys: KeyRange,
    stage: Stage,
}

impl RangeWalk {
    ghost use Rattle.engine.specs.Ranges.{Settles};
    ghost use Rattle.engine.specs.declared.ranges.Stage.TheVariants.{Over};

    /// Forgets an iteration whose database was closed, which released all iterators.
    pub fn forget(self) {
        let RangeWalk {
            id: _,
            keys: _,
            stage: _,
        } = self;
    }

    fn is_over(&self) -> bool
        ensures { MatchBool result (self.now.stage ≡ Over) (self.now.stage ≡ Over → ⊥) }
    {
        match self.stage {
            Stage::Ahead => false,
            Stage::Within => false,
            Stage::Over => true,
        }
    }

    // Takes the pair to which its iterator was moved, if that is one of the range.
    fn settle<K: KeyOrder>(&mut self, found: Option<(Bytes, Bytes)>) -> Option<(Bytes, Bytes)>
        ensures { Settles K.cmp self.old found self.new result }
    {
        let Some((key, value)) = found else {
            self.stage = Stage::Over;
            return None;
        };
        if !is_in_front::<K>(&self.keys, key.as_slice()) {
            self.stage = Stage::Over;
            return None;
        }
        self.stage = Stage::Within;
        Some((key, value))
    }
}

// Whether a key comes before the end of a range.
fn is_in_front<K: KeyOrder>(keys: &KeyRange, key: &[u8]) -> bool
    ensures { result ≡ is_before_end K.cmp keys.now.to key.now }
{
    match &keys.to {
        None => true,
        Some(to) => K::compare(key, to.as_slice()) == Ordering::Less,
    }
}

impl<S: Store, K: KeyOrder> Db<S, K> {
    ghost use Rattle.machine.specs.declared.command.Answer.{Answer};
    ghost use Rattle.machine.specs.Views.{Drops};
    ghost use Rattle.machine.specs.Causes.{ToNext, iterate_cause};
    ghost use Rattle.machine.specs.Walks.{Moves};
    ghost use Rattle.engine.specs.Applied.{DbCaused, DbLeaves};
    ghost use Rattle.engine.specs.Follows.{pair_answer};
    ghost use Rattle.engine.specs.Outcomes.{DbOutcomeOf, MayRefuseIterate, MayRefuseMove};
    ghost use Rattle.engine.specs.Ranges.{Begins, Fills, MayRefuseScan, RefusesScan, SameWalk, Scans, Steps, next_motion};
    ghost use Rattle.engine.specs.StandsDb.{FollowsDb, KeepsOpening, db_ids_of, db_store_of, open_by};

    /// Begins an iteration over the pairs of a range, as they are now or at a snapshot. It takes an
    /// iterator, and goes on seeing the same pairs whatever is written.
    pub fn range(
        &mut self,
        alloc: Global,
        keys: KeyRange,
        snapshot: Option<u64>,
    ) -> Result<RangeWalk, DbError>
        ensures step { FollowsDb (order_of K.name K.cmp) S.facts self.old self.new
            (λ m n. Begins (order_of K.name K.cmp) m keys snapshot result n) }
        // Over any store:
        ensures outcome { DbOutcomeOf MayRefuseIterate S.facts self.old self.new result }
        ensures caused { DbCaused (λ status. iterate_cause status snapshot) self.old self.new result }
        ensures whole { (open_by self.new).broken ≡ (open_by self.old).broken }
        ensures leaves { DbLeaves S.facts self.old self.new }
        ensures ids { OnErr result (db_ids_of self.new ≡ db_ids_of self.old) }
        ensures opening { KeepsOpening self.old self.new }
    {
        match self.iter(alloc, snapshot) {
            Ok(id) => Ok(RangeWalk {
                id,
                keys,
                stage: Stage::Ahead,
            }),
            Err(error) => Err(error),
        }
    }

    /// Returns the next pair of an iteration, or None after the last. An error leaves the iteration
    /// where it was: the next call tries the same pair again.
    pub fn range_next(
        &mut self,
        alloc: Global,
        walk: &mut RangeWalk,
    ) -> Result<Option<(Bytes, Bytes)>, DbError>
        ensures step { FollowsDb (order_of K.name K.cmp) S.facts self.old self.new
            (λ m n. Steps (order_of K.name K.cmp) m walk.old result n walk.new) }
        ensures same { SameWalk walk.old walk.new }
        // Over any store:
        ensures kept { OnErr result (walk.new ≡ walk.old) }
        ensures outcome { DbOutcomeOf (MayRefuseMove ToNext) S.facts self.old self.new result }
        ensures whole { (open_by self.new).broken ≡ (open_by self.old).broken }
        ensures leaves { DbLeaves S.facts self.old self.new }
        ensures ids { db_ids_of self.new ≡ db_ids_of self.old }
        ensures opening { KeepsOpening self.old self.new }
    {
        if walk.is_over() {
            return Ok(None);
        }
        match self.move_walk(alloc, walk) {
            Ok(found) => Ok(walk.settle::<K>(found)),
            Err(error) => Err(error),
        }
    }

    // Moves the iteration's iterator: to the first pair that may be in its range, or to the next.
    fn move_walk(
        &mut self,
        alloc: Global,
        walk: &RangeWalk,
    ) -> Result<Option<(Bytes, Bytes)>, DbError>
        ensures step { FollowsDb (order_of K.name K.cmp) S.facts self.old self.new
            (λ m n. Moves (order_of K.name K.cmp) m walk.now.id (next_motion walk.now.stage walk.now.keys) (pair_answer result) n) }
        ensures outcome { DbOutcomeOf (MayRefuseMove (next_motion walk.now.stage walk.now.keys)) S.facts self.old self.new result }
        ensures whole { (open_by self.new).broken ≡ (open_by self.old).broken }
        ensures leaves { DbLeaves S.facts self.old self.new }
        ensures ids { db_ids_of self.new ≡ db_ids_of self.old }
        ensures opening { KeepsOpening self.old self.new }
    {
        match walk.stage {
            Stage::Ahead => match &walk.keys.from {
                None => self.iter_first(alloc, walk.id),
                Some(from) => self.iter_seek(alloc, walk.id, from.as_slice()),
            },
            Stage::Within => self.iter_next(alloc, walk.id),
            Stage::Over => self.iter_next(alloc, walk.id),
        }
    }

    /// Appends the next pairs of an iteration to `sink`, no more than `limit`. If it fails, the
    /// pairs that came before the error are there too, and the iteration goes on after them.
    pub fn range_fill(
        &mut self,
        alloc: Global,
        walk: &mut RangeWalk,
        limit: usize,
        sink: &mut Vec<(Bytes, Bytes)>,
    ) -> Result<(), DbError>
        ensures step { FollowsDb (order_of K.name K.cmp) S.facts self.old self.new
            (λ m n. Fills (order_of K.name K.cmp) limit m walk.old sink.old.items result n walk.new sink.new.items) }
        ensures same { SameWalk walk.old walk.new }
        // Over any store:
        ensures allowed { MatchResult result (λ x. Unit {0}) (MayRefuseMove ToNext) }
        ensures whole { (open_by self.new).broken ≡ (open_by self.old).broken }
        ensures leaves { DbLeaves S.facts self.old self.new }
        ensures ids { db_ids_of self.new ≡ db_ids_of self.old }
        ensures opening { KeepsOpening self.old self.new }
    {
        for _ in 0..limit {
            if sink.reserve(1).is_err() {
                return Err(DbError::OutOfMemory);
            }
            match self.range_next(alloc, walk) {
                Ok(Some(pair)) => sink.push(pair).unwrap(),
                Ok(None) => return Ok(()),
                Err(error) => return Err(error),
            }
        }
        Ok(())
    }

    /// Ends an iteration, and releases its iterator. It never fails: what a broken database keeps
    /// for it goes when it is closed.
    pub fn range_end(&mut self, walk: RangeWalk)
        ensures step { FollowsDb (order_of K.name K.cmp) S.facts self.old self.new
            (λ m n. (answer : Answer) × Drops m walk.id answer n) }
        // Over any store:
        ensures store { db_store_of self.new ≡ db_store_of self.old }
        ensures whole { (open_by self.new).broken ≡ (open_by self.old).broken }
        ensures ids { db_ids_of self.new ≡ db_ids_of self.old }
        ensures opening { KeepsOpening self.old self.new }
    {
        let RangeWalk {
            id,
            keys: _,
            stage: _,
        } = walk;
        let _ = self.iter_release(id);
    }

    /// Returns the pairs of a range, now or at a snapshot, in their order and no more than `limit`.
    /// All of them are in memory at once. To go on, scan the range that starts after the last key.
    pub fn scan(
        &mut self,
        alloc: Global,
        keys: KeyRange,
        snapshot: Option<u64>,
        limit: usize,
    ) -> Result<Vec<(Bytes, Bytes)>, DbError>
        ensures step { FollowsDb (order_of K.name K.cmp) S.facts self.old self.new
            (λ m n. MatchResult result (λ found. Scans (order_of K.name K.cmp) m keys snapshot limit found.items n)
            (λ e. RefusesScan (order_of K.name K.cmp) m snapshot e n)) }
        // Over any store:
        ensures allowed { MatchResult result (λ x. Unit {0}) MayRefuseScan }
        ensures whole { (open_by self.new).broken ≡ (open_by self.old).broken }
        ensures leaves { DbLeaves S.facts self.old self.new }
        ensures opening { KeepsOpening self.old self.new }
    {
        let mut walk = match self.range(alloc, keys, snapshot) {
            Ok(walk) => walk,
            Err(error) => return Err(error),
        };
        let mut found = Vec::new(alloc);
        let filled = self.range_fill(alloc, &mut walk, limit, &mut found);
        self.range_end(walk);
        match filled {
            Ok(()) => Ok(found),
            Err(error) => Err(error),
        }
    }
}
