// What a store counts.
ghost use Rattle.std.specs.Prelude.{◌≡◌, ◌+◌, ◌≤◌, ◌^◌, false, IfOk, OnOk, OnErr, IfErr};
ghost use Rattle.store.specs.Counted.{with_failed};

use crate::StoreError;

/// Says which call of a store failed.
#[derive(Clone, Copy, Debug)]
pub enum Failed {
    /// One that makes a file, adds to one, syncs one or renames one.
    Write,
    /// Another.
    Other,
}

/// Counts how often a store failed, how often in a call that writes, and how often it denied the
/// lock.
#[derive(Drop)]
pub struct Counters {
    failures: u64,
    write_failures: u64,
    denials: u64,
    ghost among: { write_failures ≤ failures },
}

impl Counters {
    /// Returns counts of 0: nothing has failed yet.
    pub fn new() -> Self
        ensures failures { result.failures ≡ 0 }
        ensures writes { result.write_failures ≡ 0 }
        ensures denials { result.denials ≡ 0 }
    {
        Counters {
            failures: 0,
            write_failures: 0,
            denials: 0,
        }
    }

    /// Returns how often a call failed.
    pub fn failures(&self) -> u64
        ensures { result ≡ self.now.failures }
    {
        self.failures
    }

    /// Returns how often a call failed that writes.
    pub fn write_failures(&self) -> u64
        ensures { result ≡ self.now.write_failures }
    {
        self.write_failures
    }

    /// Answers Device for a call that failed, and counts it. Once the counter is full, at 2^64 -
    /// 1, it answers Ok instead, since Device would promise a count.
    pub fn fail(&mut self, call: Failed) -> Result<(), StoreError>
        ensures denials { self.new.denials ≡ self.old.denials }
        ensures counted { OnErr result (self.new.failures ≡ self.old.failures + 1) }
        ensures writes { OnErr result (self.new.write_failures ≡ with_failed call self.old.write_failures) }
        ensures unwritten { OnOk result (self.new.write_failures ≡ self.old.write_failures) }
        ensures device { IfErr result (λ error. error ≡ StoreError.Device) }
        ensures full { OnOk result ((self.new.failures ≡ self.old.failures) × (2 ^ 64 ≤ self.new.failures + 1)) }
    {
        if self.failures == u64::MAX {
            return Ok(());
        }
        self.failures += 1;
        match call {
            Failed::Write => {
                self.write_failures += 1;
                Err(StoreError::Device)
            }
            Failed::Other => Err(StoreError::Device),
        }
    }

    /// Denies the lock and counts it, or answers Memory if no further denial can be counted.
    pub fn deny(&mut self) -> Result<bool, StoreError>
        ensures failures { self.new.failures ≡ self.old.failures }
        ensures writes { self.new.write_failures ≡ self.old.write_failures }
        ensures counted { IfOk result (λ held. (held ≡ false) × (self.new.denials ≡ self.old.denials + 1)) }
        ensures memory { IfErr result (λ error. (error ≡ StoreError.Memory) × (self.new.denials ≡ self.old.denials)) }
    {
        if self.denials == u64::MAX {
            return Err(StoreError::Memory);
        }
        self.denials += 1;
        Ok(false)
    }
}
