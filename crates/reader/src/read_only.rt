//! A store that can't be changed.

ghost use Rattle.std.specs.Prelude.{◌≡◌, ◌≤◌};

use std::alloc::Global;
use store::{Store, StoreError, Trouble};

/// Wraps a store of which only the reading calls are used: `list`, `len`, `read_at` and
/// `read_into`. Each call that changes files or asks for the lock fails here, and never comes to
/// the store within. So a holder of it can't change a file, whatever that store is.
#[derive(Drop)]
pub struct ReadOnly<S> {
    inner: S,
    failures: u64,
    write_failures: u64,
    ghost among: { write_failures ≤ failures },
}

impl<S: Store> ReadOnly<S> {
    ghost use Rattle.reader.specs.ReadOnly.{looked_at, IsKeptOut};
    ghost use Rattle.std.specs.Prelude.{◌<◌, ◌+◌, ◌^◌, ◌≢◌, false, Err, IfErr, IsTrue};
    ghost use Rattle.store.specs.declared.error.StoreError.TheVariants.{Device, Missing};

    /// Wraps a store. No call has failed here yet. The store isn't called.
    pub fn over(inner: S) -> Self
        ensures { looked_at S.facts result ≡ record (S.facts inner) { locked = false; failures = 0; write_failures = 0 } }
    {
        ReadOnly {
            inner,
            failures: 0,
            write_failures: 0,
        }
    }

    /// Returns the store within.
    pub fn into_inner(self) -> S
        ensures files { (S.facts result).files ≡ (looked_at S.facts self).files }
        ensures synced { (S.facts result).synced ≡ (looked_at S.facts self).synced }
        ensures faithful { IsTrue (looked_at S.facts self).faithful → IsTrue (S.facts result).faithful }
    {
        self.inner
    }

    // Counts a call that isn't made and that writes nothing, and answers Device. Ok if no further
    // failure can be counted.
    fn refuse(&mut self) -> Result<(), StoreError>
        ensures kept { IsKeptOut self.old self.new result }
        ensures writes { self.new.write_failures ≡ self.old.write_failures }
        ensures device { IfErr result (λ error. error ≡ Device) }
    {
        if self.failures == u64::MAX {
            return Ok(());
        }
        self.failures += 1;
        Err(StoreError::Device)
    }

    // The same of a call that writes, which is counted as a failed write too.
    fn refuse_write(&mut self) -> Result<(), StoreError>
        ensures kept { IsKeptOut self.old self.new result }
        ensures writes { self.new.write_failures + self.old.failures ≡ self.old.write_failures + self.new.failures }
        ensures device { IfErr result (λ error. error ≡ Device) }
    {
        if self.failures == u64::MAX {
            return Ok(());
        }
        self.failures += 1;
        self.write_failures += 1;
        Err(StoreError::Device)
    }

    // The error of a call that isn't made and that writes: Device, which is counted, or Memory if
    // no further failure can be counted.
    fn write_refusal(&mut self) -> StoreError
        ensures kept { IsKeptOut {T = Unit {0}} self.old self.new (Err result) }
        ensures writes { self.new.write_failures + self.old.failures ≡ self.old.write_failures + self.new.failures }
        ensures missing { result ≢ Missing }
    {
        match self.refuse_write() {
            Ok(()) => StoreError::Memory,
            Err(error) => error,
        }
    }

    // The same of one that writes nothing.
    fn refusal(&mut self) -> StoreError
        ensures kept { IsKeptOut {T = Unit {0}} self.old self.new (Err result) }
        ensures writes { self.new.write_failures ≡ self.old.write_failures }
        ensures missing { result ≢ Missing }
    {
        match self.refuse() {
            Ok(()) => StoreError::Memory,
            Err(error) => error,
        }
    }

    // The error of a reading call. A failure of the store within is counted here too.
    fn told(&mut self, error: StoreError) -> StoreError
        ensures inner { self.new.inner ≡ self.old.inner }
        ensures writes { self.new.write_failures ≡ self.old.write_failures }
        ensures device { result ≡ Device → self.old.failures < self.new.failures }
        ensures others { result ≢ Device → self.new.failures ≡ self.old.failures }
        ensures missing { result ≡ Missing → error ≡ Missing }
        // It is handed on, unless no further failure can be counted.
        ensures same { result ≢ error → 2 ^ 64 ≤ self.new.failures + 1 }
    {
        match error {
            StoreError::Device => self.refusal(),
            other => other,
        }
    }
}

impl<S: Store> Store for ReadOnly<S> {
    ghost use Rattle.reader.specs.ReadOnly.{looked_at, IsKeptOut};
    ghost use Rattle.std.specs.Prelude.{◌≡◌, ◌≢◌, ◌+◌, Ok, Err, IsErr, IfErr};
    ghost use Rattle.store.specs.declared.error.StoreError.TheVariants.{Device, Missing};

    ghost facts = { λ store. looked_at S.facts store };

    ghost told = { λ store. S.told store.inner };

    fn failures(&self) -> u64 {
        self.failures
    }

    fn write_failures(&self) -> u64 {
        self.write_failures
    }

    fn list(&mut self, alloc: Global) -> Result<Vec<String>, StoreError> {
        match self.inner.list(alloc) {
            Ok(names) => Ok(names),
            Err(error) => Err(self.told(error)),
        }
    }

    fn len(&mut self, name: &str) -> Result<u64, StoreError> {
        match self.inner.len(name) {
            Ok(len) => Ok(len),
            Err(error) => Err(self.told(error)),
        }
    }

    fn read_at(
        &mut self,
        alloc: Global,
        name: &str,
        offset: u64,
        count: usize,
    ) -> Result<Vec<u8>, StoreError> {
        self.read_into(alloc, name, offset, count, Vec::new(alloc))
    }

    fn read_into(
        &mut self,
        alloc: Global,
        name: &str,
        offset: u64,
        count: usize,
        room: Vec<u8>,
    ) -> Result<Vec<u8>, StoreError> {
        match self.inner.read_into(alloc, name, offset, count, room) {
            Ok(bytes) => Ok(bytes),
            Err(error) => Err(self.told(error)),
        }
    }

    fn create(&mut self, _name: &str) -> Result<(), StoreError>
        ensures kept { IsKeptOut self.old self.new result }
        ensures writes { self.new.write_failures + self.old.failures ≡ self.old.write_failures + self.new.failures }
        ensures missing { result ≢ Err Missing }
    {
        Err(self.write_refusal())
    }

    fn append(&mut self, _name: &str, _bytes: &[u8]) -> Result<(), StoreError>
        ensures kept { IsKeptOut self.old self.new result }
        ensures writes { self.new.write_failures + self.old.failures ≡ self.old.write_failures + self.new.failures }
        ensures missing { result ≢ Err Missing }
    {
        Err(self.write_refusal())
    }

    fn sync(&mut self, _name: &str) -> Result<(), StoreError>
        ensures kept { IsKeptOut self.old self.new result }
        ensures writes { self.new.write_failures + self.old.failures ≡ self.old.write_failures + self.new.failures }
        ensures device { IfErr result (λ error. error ≡ Device) }
    {
        self.refuse_write()
    }

    fn rename(&mut self, _from: &str, _to: &str) -> Result<(), StoreError>
        ensures kept { IsKeptOut self.old self.new result }
        ensures writes { self.new.write_failures + self.old.failures ≡ self.old.write_failures + self.new.failures }
        ensures missing { result ≢ Err Missing }
    {
        Err(self.write_refusal())
    }

    fn remove(&mut self, _name: &str) -> Result<(), StoreError>
        ensures kept { IsKeptOut self.old self.new result }
        ensures writes { self.new.write_failures ≡ self.old.write_failures }
        ensures device { IfErr result (λ error. error ≡ Device) }
    {
        self.refuse()
    }

    fn lock(&mut self) -> Result<bool, StoreError>
        ensures kept { IsKeptOut self.old self.new result }
        ensures writes { self.new.write_failures ≡ self.old.write_failures }
        ensures refused { IsErr result }
        ensures missing { result ≢ Err Missing }
    {
        Err(self.refusal())
    }

    fn unlock(&mut self) -> Result<(), StoreError>
        ensures kept { self.new ≡ self.old }
        ensures done { result ≡ Ok tt }
    {
        Ok(())
    }

    // (a note changes no file, whatever the store within is: it is handed on)
    fn note(&mut self, trouble: Trouble) {
        self.inner.note(trouble);
    }

    fn noted(&self) -> Trouble {
        self.inner.noted()
    }

    fn synced_law(&self) {
        self.inner.synced_law();
    }
}
