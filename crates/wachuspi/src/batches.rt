// What C holds of a batch.

ghost use Rattle.std.specs.Prelude.{◌≡◌, IsOkUnless, MatchOption, None, OnErr, OnOk, Some, is_some};
ghost use Rattle.coding.specs.declared.error.DbError.TheVariants.{OutOfMemory};

use crate::batch_slots::BatchSlot;
use batch::Batch;
use coding::DbError;
use loose_box::Loose;
use std::alloc::Global;
use std::mem;

/// A batch; where `holds` isn't set, one without operations (`wch_batch` in the header).
#[repr(C)]
#[derive(Drop)]
pub struct CBatch {
    pub slot: BatchSlot,
    pub holds: bool,
    pub ghost told: { is_some slot.held ≡ holds },
}

impl CBatch {
    /// What holds no batch.
    pub fn empty() -> Self
        ensures { result.slot.held ≡ None }
    {
        CBatch {
            slot: BatchSlot::none(),
            holds: false,
        }
    }

    /// Takes out the batch, and leaves the struct without one.
    pub fn take(&mut self, alloc: Global) -> Option<Box<Batch>>
        ensures taken { MatchOption result (self.old.slot.held ≡ None) (λ held. self.old.slot.held ≡ Some held.value) }
        ensures left { self.new.slot.held ≡ None }
    {
        let CBatch { slot, holds } = mem::replace(self, CBatch::empty());
        if holds {
            return Some(slot.into_loose(alloc).into_box());
        }
        None
    }

    /// Puts a batch in.
    pub fn put(&mut self, held: Box<Batch>)
        ensures { self.new.slot.held ≡ Some held.value }
    {
        *self = CBatch {
            slot: BatchSlot::of(Loose::of(held)),
            holds: true,
        };
    }

    /// Boxes a batch and puts it in. If there is no memory for the box, nothing is held.
    pub fn fill(&mut self, alloc: Global, batch: Batch) -> Result<(), DbError>
        ensures ok { OnOk result (self.new.slot.held ≡ Some batch) }
        ensures err { OnErr result (self.new.slot.held ≡ None) }
        ensures memory { IsOkUnless result OutOfMemory }
    {
        match Box::new(alloc, batch) {
            Ok(held) => {
                self.put(held);
                Ok(())
            }
            Err(_) => {
                *self = CBatch::empty();
                Err(DbError::OutOfMemory)
            }
        }
    }
}
