//! Operations that wait to be written.

ghost use Rattle.std.specs.Prelude.{◌≡◌, ◌-◌, ◌^◌, ◌++◌, ◌∷◌, [], length, min, OnOk, OnErr, IfOk, MatchBool};
ghost use Rattle.script.specs.Importing.{HasRoom, IsFull, bytes_in, bytes_of};
ghost use Rattle.script.specs.Script.{IsWrite};

use batch::Operation;
use engine::Op;
use std::alloc::{AllocError, Global};
use std::mem;

// With how many bytes of keys and values operations are written, though a batch may have more: so
// it stays far below the most bytes of a batch.
const BATCH_BYTES: usize = 1_048_576;

/// Operations that wait to be written together, and how many bytes their keys and values have.
#[derive(Drop)]
pub struct Gathered {
    operations: Vec<Operation>,
    bytes: usize,
    ghost counted: { bytes ≡ min (bytes_of operations.items) (2 ^ 64 - 1) },
}

impl Gathered {
    /// Returns none yet, with room for so many. `Err` if memory ran out.
    pub fn with_room(alloc: Global, most: usize) -> Result<Self, AllocError>
        ensures { IfOk result (λ gathered. gathered.operations.items ≡ []) }
    {
        let operations = Vec::with_capacity(alloc, most)?;
        Ok(Gathered {
            operations,
            bytes: 0,
        })
    }

    /// Returns how many there are.
    pub fn count(&self) -> usize
        ensures { result ≡ length self.now.operations.items }
    {
        self.operations.len()
    }

    /// Adds one after the others. `Err` if memory ran out; the others stay.
    pub fn push(&mut self, operation: Operation) -> Result<(), AllocError>
        ensures ok { OnOk result (self.new.operations.items ≡ self.old.operations.items ++ operation ∷ []) }
        ensures err { OnErr result (self.new.operations.items ≡ self.old.operations.items) }
    {
        let bytes = self.bytes.saturating_add(length_of(&operation));
        self.operations.push(operation)?;
        self.bytes = bytes;
        Ok(())
    }

    /// Returns whether they are a batch, of which this many operations are the most.
    pub fn is_full(&self, most: usize) -> bool
        ensures { MatchBool result (IsFull most self.now.operations.items) (HasRoom most self.now.operations.items) }
    {
        if self.operations.len() >= most {
            return true;
        }
        self.bytes >= BATCH_BYTES
    }

    /// Returns the write of all of them. None waits then.
    pub fn take(&mut self, alloc: Global, sync: bool) -> Op
        ensures write { IsWrite self.old.operations.items sync result }
        ensures none { self.new.operations.items ≡ [] }
    {
        self.bytes = 0;
        let operations = mem::replace(&mut self.operations, Vec::new(alloc));
        Op::Write(operations, sync)
    }

    /// Takes back the memory of a write that was answered, while nothing waits.
    pub fn reuse(&mut self, write: Op)
        requires none { self.old.operations.items ≡ [] }
        ensures none { self.new.operations.items ≡ [] }
    {
        if let Op::Write(mut operations, _) = write {
            operations.clear();
            self.operations = operations;
        }
    }
}

// How many bytes the key and the value of an operation have.
fn length_of(operation: &Operation) -> usize
    ensures { result ≡ min (bytes_in operation.now) (2 ^ 64 - 1) }
{
    match operation {
        Operation::Put(key, value) => key.len().saturating_add(value.len()),
        Operation::Delete(key) => key.len(),
    }
}
