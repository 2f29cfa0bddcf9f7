// What C holds of a database.

ghost use Rattle.std.specs.Prelude.{◌≡◌, MatchBool, MatchOption, None, Some, is_some};

use crate::held::Held;
use crate::slots::Slot;
use c_calls::Handle;
use loose_box::Loose;
use std::alloc::Global;
use std::mem;
use store::FileStore;

/// A database, or none where `holds` isn't set (`wch_db` in the header).
#[repr(C)]
#[derive(Drop)]
pub struct Database {
    pub slot: Slot,
    pub holds: bool,
    pub ghost told: { is_some slot.held ≡ holds },
}

impl Database {
    /// What holds no database.
    pub fn closed() -> Self
        ensures { result.slot.held ≡ None }
    {
        Database {
            slot: Slot::none(),
            holds: false,
        }
    }

    /// Takes out the handle, and leaves the struct closed.
    pub fn take(&mut self, alloc: Global) -> Option<Box<Held>>
        ensures taken { MatchOption result (self.old.slot.held ≡ None) (λ held. self.old.slot.held ≡ Some held.value) }
        ensures left { self.new.slot.held ≡ None }
    {
        let Database { slot, holds } = mem::replace(self, Database::closed());
        if holds {
            return Some(slot.into_loose(alloc).into_box());
        }
        None
    }

    /// Puts a handle in.
    pub fn put(&mut self, held: Box<Held>)
        ensures { self.new.slot.held ≡ Some held.value }
    {
        *self = Database {
            slot: Slot::of(Loose::of(held)),
            holds: true,
        };
    }

    /// Boxes a handle and puts it in; false if there is no memory for the box.
    pub fn fill(&mut self, alloc: Global, handle: Handle<FileStore>) -> bool
        ensures { MatchBool result (self.new.slot.held ≡ Some (record { handle = handle }))
            (self.new.slot.held ≡ self.old.slot.held) }
    {
        match Box::new(alloc, Held { handle }) {
            Ok(held) => {
                self.put(held);
                true
            }
            Err(_) => false,
        }
    }
}
