//! How an import goes.

ghost use Rattle.std.specs.Prelude.{◌≡◌, ◌≤◌, ◌↔◌, IsSome, IfSome};
ghost use Rattle.script.specs.Importing.{ImportValues};

use std::marker::Model;

// How many operations a batch may have at most.
const MOST_OPERATIONS: u64 = 65_536;

/// How many operations are written as one batch at most, 1 to 65,536, and whether each batch is
/// synced before the next one. (The last one is synced in any case, and with it all before it.)
#[derive(Clone, Copy, Debug, PartialEq, Eq)]
pub struct Importing {
    batch: usize,
    sync: bool,
}

impl Model for Importing {
    ghost Value = { ImportValues };

    ghost view = { λ how. record { batch = how.batch; sync = how.sync } };

    ghost invariant = { λ how. (1 ≤ how.batch) × (how.batch ≤ 65536) };

    ghost inverse = { λ how. record { batch = how.batch; sync = how.sync } };
}

impl Importing {
    /// Returns how an import goes, or `None` if a batch would have no operation, or more than
    /// 65,536.
    pub fn new(batch: u64, sync: bool) -> Option<Self>
        ensures range { IsSome result ↔ ((1 ≤ batch) × (batch ≤ 65536)) }
        ensures kept { IfSome result (λ how. how ≡ record { batch = batch; sync = sync }) }
    {
        if batch < 1 {
            return None;
        }
        if batch > MOST_OPERATIONS {
            return None;
        }
        Some(Importing {
            batch: batch as usize,
            sync,
        })
    }

    /// Returns how many operations a batch has at most.
    pub fn batch(&self) -> usize
        ensures is { result ≡ self.now.batch }
        ensures range { (1 ≤ result) × (result ≤ 65536) }
    {
        self.batch
    }

    /// Returns whether each batch is synced before the next one.
    pub fn sync(&self) -> bool
        ensures { result ≡ self.now.sync }
    {
        self.sync
    }
}
