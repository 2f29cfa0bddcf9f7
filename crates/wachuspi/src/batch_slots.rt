// What C holds of a batch: nothing, or a box by its pointer. `slots` has the same of a database.

ghost use Rattle.std.specs.Prelude.{◌≡◌, IsSome, List, None, Option, Some};
ghost use Rattle.batch.specs.declared.operation.Operation.{Operation};

use batch::Batch;
use loose_box::Loose;
use std::alloc::Global;
use std::marker::Model;

/// A box by its pointer, or nothing.
#[repr(C)]
#[derive(Drop)]
pub struct BatchSlot {
    at: *mut u8,
    pub ghost held: { Option (List Operation) },
}

impl Model for BatchSlot {
    ghost use Rattle.batch.specs.contracts.write_batch.Batch.{the_row};
    ghost use Rattle.wachuspi.specs.Holding.{holds};

    ghost also_owns = { λ s. holds the_row s.at s.held };
}

impl BatchSlot {
    /// What holds nothing.
    pub fn none() -> BatchSlot
        ensures { result.held ≡ None }
    {
        BatchSlot {
            at: std::ptr::null_mut(),
        }
    }

    /// What holds this.
    pub fn of(loose: Loose<Batch, Global>) -> BatchSlot
        ensures { result.held ≡ Some loose.value }
    {
        let Loose { at, alloc: _ } = loose;
        BatchSlot { at: at as *mut u8 }
    }

    /// Hands out what is held.
    pub fn into_loose(self, alloc: Global) -> Loose<Batch, Global>
        requires { IsSome self.held }
        ensures { self.held ≡ Some result.value }
    {
        let BatchSlot { at } = self;
        Loose {
            at: at as *mut Batch,
            alloc,
        }
    }
}
