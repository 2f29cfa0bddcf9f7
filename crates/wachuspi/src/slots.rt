// What C holds of a database: nothing, or a box by its pointer. Of this crate only this file and
// `batch_slots` make or follow a pointer.

ghost use Rattle.std.specs.Prelude.{◌≡◌, IsSome, None, Option, Some};
ghost use Rattle.std.specs.Coded.{coded_option};
ghost use Rattle.wachuspi.specs.contracts.held.Held.{the_row};
ghost use Rattle.wachuspi.specs.declared.held.Held.{Held};

use crate::held::Held;
use loose_box::Loose;
use std::alloc::Global;
use std::marker::Model;

/// A box by its pointer, or nothing.
#[repr(C)]
#[derive(Drop)]
pub struct Slot {
    at: *mut u8,
    pub ghost held: { Option Held } by { coded_option the_row.coded },
}

impl Model for Slot {
    ghost use Rattle.wachuspi.specs.contracts.held.Held.{the_row};
    ghost use Rattle.wachuspi.specs.Holding.{holds};

    ghost also_owns = { λ s. holds the_row s.at s.held };
}

impl Slot {
    /// What holds nothing.
    pub fn none() -> Slot
        ensures { result.held ≡ None }
    {
        Slot {
            at: std::ptr::null_mut(),
        }
    }

    /// What holds this.
    pub fn of(loose: Loose<Held, Global>) -> Slot
        ensures { result.held ≡ Some loose.value }
    {
        let Loose { at, alloc: _ } = loose;
        Slot { at: at as *mut u8 }
    }

    /// Hands out what is held.
    pub fn into_loose(self, alloc: Global) -> Loose<Held, Global>
        requires { IsSome self.held }
        ensures { self.held ≡ Some result.value }
    {
        let Slot { at } = self;
        Loose {
            at: at as *mut Held,
            alloc,
        }
    }
}
