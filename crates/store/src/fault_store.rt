// A store in memory that fails where a test asks for it.
ghost use Rattle.std.specs.Prelude.{◌≡◌, ◌≢◌, ◌⊎◌, ◌<◌, ◌+◌, List, ℕ, [], length, take, drop, map, string_bytes, IfOk, IfErr, OnOk, OnErr, Ok, Err, Some, None, IsTrue, IsSome, true, false};
ghost use Rattle.std.specs.FinMap as map;
ghost use Rattle.store.specs.Files.{disk_of, Lists, Appends, AppendsBeginning, Renames, Removes, Locks, MayLock, with_synced, renamed, Creation, Sync, Move, Removal, LockFile};
ghost use Rattle.store.specs.Calls.{Counts, FailsNoWrite, FailsAsWrite, Keeps, KeepsSynced, KeepsCalls, Changes, ChangesSynced, Notes, NotesAppend, NotesSync};
ghost use Rattle.store.specs.MemFacts.{mem_facts};
ghost use Rattle.store.specs.FaultFacts.{fault_facts, standing_of, due, due_behind, next_extent, way_of, is_denial, Proceeds, Fails, error_of, Meets, MeetsAppend, MeetsReading};

use crate::counters::Failed;
use crate::{MemStore, Store, StoreError, Trouble};
use std::alloc::Global;

/// Says how far a call gets that a fault hits.
#[derive(Clone, Copy, Debug)]
pub enum Extent {
    /// Nothing of it is done.
    Before,
    /// It is done, as far as a failed call of a store may be. Nothing is synced, and the lock is
    /// neither taken nor released, though its file is made.
    After,
    /// An append adds this many first bytes, at most all. Any other call does nothing.
    Part(usize),
}

/// A failure that a test asks for.
#[derive(Clone, Copy, Debug)]
pub enum Fault {
    /// The call gets so far, and answers Device.
    Fail(Extent),
    /// A lock is denied. Any other call is done as usual.
    Deny,
    /// The process stops in the call, which gets so far. It and every later call answer Device,
    /// and the later ones do nothing.
    Stop(Extent),
}

/// Says which call a fault hits: the one of this number, counted from 1.
#[derive(Clone, Copy, Debug)]
pub struct Plan {
    /// The number of the call. No call has number 0.
    pub call: u64,
    /// What comes of it.
    pub fault: Fault,
}

// How far a call gets that is done wholly or not at all.
enum Way {
    // It is done, and its answer is the store's.
    Whole,
    // It isn't done, and fails.
    Refused,
    // It is done, and fails.
    Lost,
}

/// Keeps files in memory, counts its calls, and fails one of them as planned. It is faithful as
/// long as the store within is. If the fault lets a call be done and the store within refuses it,
/// the answer is that store's.
#[derive(Drop)]
pub struct FaultStore {
    inner: MemStore,
    plan: Option<Plan>,
    calls: u64,
    stopped: bool,
    acted: bool,
}

impl FaultStore {
    /// Returns a store with these files, whose calls are counted from here on.
    pub fn new(inner: MemStore, plan: Option<Plan>) -> Self
        ensures { standing_of result ≡ record { facts = mem_facts inner; calls = 0; plan = plan; stopped = false; acted = false } }
    {
        FaultStore {
            inner,
            plan,
            calls: 0,
            stopped: false,
            acted: false,
        }
    }

    /// Returns how many calls there were so far, to place a fault after them.
    pub fn calls(&self) -> u64
        ensures { result ≡ (standing_of self.now).calls }
    {
        self.calls
    }

    /// Says whether the call that the fault hit was done, wholly or in part, before it failed.
    pub fn acted(&self) -> bool
        ensures { result ≡ (standing_of self.now).acted }
    {
        self.acted
    }

    /// Returns the files as they are now.
    pub fn into_inner(self) -> MemStore
        ensures { mem_facts result ≡ fault_facts self }
    {
        self.inner
    }

    /// Returns what another process finds after this one: a copy of the files, with the lock free.
    pub fn remains(&self) -> Result<MemStore, StoreError>
        ensures copied { IfOk result (λ copy. mem_facts copy ≡ record (fault_facts self.now) { calls = []; faithful = true; locked = false; failures = 0; write_failures = 0; denials = 0 }) }
        ensures memory { IfErr result (λ error. error ≡ StoreError.Memory) }
    {
        self.inner.copy()
    }

    // The fault of the call that comes now.
    fn due(&self) -> Option<Fault>
        ensures { result ≡ due (standing_of self.now) }
    {
        if self.stopped {
            return Some(Fault::Fail(Extent::Before));
        }
        match self.plan {
            None => None,
            Some(plan) => plan.due_behind(self.calls),
        }
    }

    // Whether that is a denial.
    fn denies(&self) -> bool
        ensures { result ≡ is_denial (due (standing_of self.now)) }
    {
        match self.due() {
            None => false,
            Some(Fault::Fail(_)) => false,
            Some(Fault::Deny) => true,
            Some(Fault::Stop(_)) => false,
        }
    }

    // Counts a call, and answers how far it gets by its fault. None: it is done as usual.
    fn next(&mut self) -> Option<Extent>
        ensures extent { result ≡ next_extent (standing_of self.old) }
        ensures store { self.new ≡ record self.old { calls = self.new.calls; stopped = self.new.stopped } }
        ensures course { Proceeds (standing_of self.old) (standing_of self.new) }
    {
        let fault = self.due();
        self.calls = self.calls.saturating_add(1);
        match fault {
            None => None,
            Some(Fault::Fail(extent)) => Some(extent),
            Some(Fault::Deny) => None,
            Some(Fault::Stop(extent)) => {
                self.stopped = true;
                Some(extent)
            }
        }
    }

    // The same, of a call that is done wholly or not at all.
    fn next_way(&mut self) -> Way
        ensures way { result ≡ way_of (next_extent (standing_of self.old)) }
        ensures store { self.new ≡ record self.old { calls = self.new.calls; stopped = self.new.stopped } }
        ensures course { Proceeds (standing_of self.old) (standing_of self.new) }
    {
        match self.next() {
            None => Way::Whole,
            Some(Extent::Before) => Way::Refused,
            Some(Extent::After) => Way::Lost,
            Some(Extent::Part(_)) => Way::Refused,
        }
    }

    // Answers Device for a call that isn't done, and counts it. If no further failure can be
    // counted it answers Ok.
    fn fail(&mut self, call: Failed) -> Result<(), StoreError>
        ensures store { self.new ≡ record self.old { inner = self.new.inner } }
        ensures fails { Fails (fault_facts self.old) (fault_facts self.new) call (error_of result) }
        ensures memory { result ≢ Err StoreError.Memory }
    {
        self.inner.fail(call)
    }

    // Answers Device for a call that was done, as far as the fault lets it get.
    fn act(&mut self, call: Failed) -> Result<(), StoreError>
        ensures store { self.new ≡ record self.old { inner = self.new.inner; acted = true } }
        ensures fails { Fails (fault_facts self.old) (fault_facts self.new) call (error_of result) }
        ensures memory { result ≢ Err StoreError.Memory }
    {
        self.acted = true;
        self.fail(call)
    }

    // Device, which is counted, or Memory if no further failure can be: of a call that writes
    // nothing.
    fn failure(&mut self) -> StoreError
        ensures store { self.new ≡ record self.old { inner = self.new.inner } }
        ensures fails { Fails (fault_facts self.old) (fault_facts self.new) Failed.Other (Some result) }
    {
        match self.fail(Failed::Other) {
            Ok(()) => StoreError::Memory,
            Err(error) => error,
        }
    }
}

impl Plan {
    // The fault, if it hits the call after so many.
    fn due_behind(self, calls: u64) -> Option<Fault>
        ensures { result ≡ due_behind self calls }
    {
        if self.call.saturating_sub(calls) == 1 {
            return Some(self.fault);
        }
        None
    }
}

impl Store for FaultStore {
    ghost facts = { fault_facts };

    ghost told = { λ store. store.inner.noted };

    fn failures(&self) -> u64 {
        self.inner.failures()
    }

    fn write_failures(&self) -> u64 {
        self.inner.write_failures()
    }

    fn list(&mut self, alloc: Global) -> Result<Vec<String>, StoreError>
        ensures counts { Counts (fault_facts self.old) (fault_facts self.new) result }
        ensures writes { FailsNoWrite (fault_facts self.old) (fault_facts self.new) }
        ensures undenied { (fault_facts self.new).denials ≡ (fault_facts self.old).denials }
        ensures lock { (fault_facts self.new).locked ≡ (fault_facts self.old).locked }
        ensures names { IfOk result (λ names. IsTrue (fault_facts self.new).faithful →
            Lists (fault_facts self.old).files (map string_bytes names.items)) }
        ensures same { Keeps (fault_facts self.old) (fault_facts self.new) }
        ensures synced { KeepsSynced (fault_facts self.old) (fault_facts self.new) }
        ensures calls { KeepsCalls (fault_facts self.old) (fault_facts self.new) }
        ensures missing { result ≢ Err StoreError.Missing }
        ensures course { Proceeds (standing_of self.old) (standing_of self.new) }
        ensures fault { MeetsReading (next_extent (standing_of self.old)) (standing_of self.old) (standing_of self.new) result }
    {
        match self.next() {
            None => self.inner.list(alloc),
            Some(_) => Err(self.failure()),
        }
    }

    fn len(&mut self, name: &str) -> Result<u64, StoreError>
        ensures counts { Counts (fault_facts self.old) (fault_facts self.new) result }
        ensures writes { FailsNoWrite (fault_facts self.old) (fault_facts self.new) }
        ensures undenied { (fault_facts self.new).denials ≡ (fault_facts self.old).denials }
        ensures lock { (fault_facts self.new).locked ≡ (fault_facts self.old).locked }
        ensures length { IfOk result (λ len. IsTrue (fault_facts self.new).faithful →
            (bytes : List ℕ) × (map.get (fault_facts self.old).files name.now ≡ Some bytes) × (len ≡ length bytes)) }
        ensures missing { IsTrue (fault_facts self.new).faithful → result ≡ Err StoreError.Missing →
            map.get (fault_facts self.old).files name.now ≡ None }
        ensures same { Keeps (fault_facts self.old) (fault_facts self.new) }
        ensures synced { KeepsSynced (fault_facts self.old) (fault_facts self.new) }
        ensures calls { KeepsCalls (fault_facts self.old) (fault_facts self.new) }
        ensures course { Proceeds (standing_of self.old) (standing_of self.new) }
        ensures fault { MeetsReading (next_extent (standing_of self.old)) (standing_of self.old) (standing_of self.new) result }
    {
        match self.next() {
            None => self.inner.len(name),
            Some(_) => Err(self.failure()),
        }
    }

    fn read_at(
        &mut self,
        alloc: Global,
        name: &str,
        offset: u64,
        count: usize,
    ) -> Result<Vec<u8>, StoreError>
        ensures counts { Counts (fault_facts self.old) (fault_facts self.new) result }
        ensures writes { FailsNoWrite (fault_facts self.old) (fault_facts self.new) }
        ensures undenied { (fault_facts self.new).denials ≡ (fault_facts self.old).denials }
        ensures lock { (fault_facts self.new).locked ≡ (fault_facts self.old).locked }
        ensures bytes { IfOk result (λ read. IsTrue (fault_facts self.new).faithful →
            (bytes : List ℕ) × (map.get (fault_facts self.old).files name.now ≡ Some bytes) × (read.items ≡ take count (drop offset bytes))) }
        ensures missing { IsTrue (fault_facts self.new).faithful → result ≡ Err StoreError.Missing →
            map.get (fault_facts self.old).files name.now ≡ None }
        ensures same { Keeps (fault_facts self.old) (fault_facts self.new) }
        ensures synced { KeepsSynced (fault_facts self.old) (fault_facts self.new) }
        ensures calls { KeepsCalls (fault_facts self.old) (fault_facts self.new) }
        ensures course { Proceeds (standing_of self.old) (standing_of self.new) }
        ensures fault { MeetsReading (next_extent (standing_of self.old)) (standing_of self.old) (standing_of self.new) result }
    {
        match self.next() {
            None => self.inner.read_at(alloc, name, offset, count),
            Some(_) => Err(self.failure()),
        }
    }

    fn create(&mut self, name: &str) -> Result<(), StoreError>
        ensures counts { Counts (fault_facts self.old) (fault_facts self.new) result }
        ensures writes { FailsAsWrite (fault_facts self.old) (fault_facts self.new) }
        ensures undenied { (fault_facts self.new).denials ≡ (fault_facts self.old).denials }
        ensures lock { (fault_facts self.new).locked ≡ (fault_facts self.old).locked }
        ensures files { Changes (fault_facts self.old) (fault_facts self.new) result
            (λ old new. new ≡ map.insert old name.now [])
            (λ old new. (new ≡ old) ⊎ (new ≡ map.insert old name.now [])) }
        ensures synced { ChangesSynced (fault_facts self.old) (fault_facts self.new) result
            (λ synced. with_synced synced name.now None) (λ old new. new ≡ map.insert old name.now []) }
        ensures calls { Notes (fault_facts self.old) (fault_facts self.new) result (Creation name.now) }
        ensures missing { result ≢ Err StoreError.Missing }
        ensures course { Proceeds (standing_of self.old) (standing_of self.new) }
        ensures fault { Meets (way_of (next_extent (standing_of self.old))) (standing_of self.old) (standing_of self.new) result
            (λ old new. (new.files ≡ map.insert old.files name.now []) × (new.synced ≡ with_synced old.synced name.now None)) }
    {
        match self.next_way() {
            Way::Whole => self.inner.create(name),
            Way::Refused => self.fail(Failed::Write),
            Way::Lost => {
                self.inner.create(name)?;
                self.act(Failed::Write)
            }
        }
    }

    fn append(&mut self, name: &str, bytes: &[u8]) -> Result<(), StoreError>
        ensures counts { Counts (fault_facts self.old) (fault_facts self.new) result }
        ensures writes { FailsAsWrite (fault_facts self.old) (fault_facts self.new) }
        ensures undenied { (fault_facts self.new).denials ≡ (fault_facts self.old).denials }
        ensures lock { (fault_facts self.new).locked ≡ (fault_facts self.old).locked }
        ensures files { Changes (fault_facts self.old) (fault_facts self.new) result
            (λ old new. Appends old new name.now bytes.now)
            (λ old new. AppendsBeginning old new name.now bytes.now) }
        ensures synced { KeepsSynced (fault_facts self.old) (fault_facts self.new) }
        ensures calls { NotesAppend (fault_facts self.old) (fault_facts self.new) result name.now bytes.now }
        ensures absent { IsTrue (fault_facts self.new).faithful → map.get (fault_facts self.old).files name.now ≡ None → result ≡ Err StoreError.Device }
        ensures missing { result ≢ Err StoreError.Missing }
        ensures course { Proceeds (standing_of self.old) (standing_of self.new) }
        ensures fault { MeetsAppend (next_extent (standing_of self.old)) (standing_of self.old) (standing_of self.new) result
            (λ old new. Appends old.files new.files name.now bytes.now × (new.synced ≡ old.synced))
            (λ count old new. Appends old.files new.files name.now (take count bytes.now) × (new.synced ≡ old.synced)) }
    {
        match self.next() {
            None => self.inner.append(name, bytes),
            Some(Extent::Before) => self.fail(Failed::Write),
            Some(Extent::After) => {
                self.inner.append(name, bytes)?;
                self.act(Failed::Write)
            }
            Some(Extent::Part(count)) => {
                let count = count.min(bytes.len());
                self.inner.append(name, &bytes[..count])?;
                self.act(Failed::Write)
            }
        }
    }

    fn sync(&mut self, name: &str) -> Result<(), StoreError>
        ensures counts { Counts (fault_facts self.old) (fault_facts self.new) result }
        ensures writes { FailsAsWrite (fault_facts self.old) (fault_facts self.new) }
        ensures undenied { (fault_facts self.new).denials ≡ (fault_facts self.old).denials }
        ensures lock { (fault_facts self.new).locked ≡ (fault_facts self.old).locked }
        ensures present { IsTrue (fault_facts self.new).faithful → OnOk result (IsSome (map.get (fault_facts self.old).files name.now)) }
        ensures same { Keeps (fault_facts self.old) (fault_facts self.new) }
        ensures synced { IsTrue (fault_facts self.new).faithful → OnOk result ((fault_facts self.new).synced ≡ with_synced (fault_facts self.old).synced name.now (map.get (fault_facts self.old).files name.now)) }
        ensures calls { NotesSync (fault_facts self.old) (fault_facts self.new) result (Sync name.now) }
        ensures unsynced { IsTrue (fault_facts self.new).faithful → OnErr result ((fault_facts self.new).synced ≡ (fault_facts self.old).synced) }
        ensures absent { IsTrue (fault_facts self.new).faithful → map.get (fault_facts self.old).files name.now ≡ None → result ≡ Err StoreError.Device }
        ensures missing { result ≢ Err StoreError.Missing }
        ensures memory { result ≢ Err StoreError.Memory }
        ensures course { Proceeds (standing_of self.old) (standing_of self.new) }
        ensures fault { MeetsReading (next_extent (standing_of self.old)) (standing_of self.old) (standing_of self.new) result }
    {
        match self.next() {
            None => self.inner.sync(name),
            Some(_) => self.fail(Failed::Write),
        }
    }

    fn rename(&mut self, from: &str, to: &str) -> Result<(), StoreError>
        ensures counts { Counts (fault_facts self.old) (fault_facts self.new) result }
        ensures writes { FailsAsWrite (fault_facts self.old) (fault_facts self.new) }
        ensures undenied { (fault_facts self.new).denials ≡ (fault_facts self.old).denials }
        ensures lock { (fault_facts self.new).locked ≡ (fault_facts self.old).locked }
        ensures files { Changes (fault_facts self.old) (fault_facts self.new) result
            (λ old new. Renames old new from.now to.now)
            (λ old new. (new ≡ old) ⊎ Renames old new from.now to.now) }
        ensures synced { ChangesSynced (fault_facts self.old) (fault_facts self.new) result
            (λ synced. renamed synced from.now to.now) (λ old new. Renames old new from.now to.now) }
        ensures calls { Notes (fault_facts self.old) (fault_facts self.new) result (Move from.now to.now) }
        ensures absent { IsTrue (fault_facts self.new).faithful → map.get (fault_facts self.old).files from.now ≡ None → result ≡ Err StoreError.Device }
        ensures missing { result ≢ Err StoreError.Missing }
        ensures course { Proceeds (standing_of self.old) (standing_of self.new) }
        ensures fault { Meets (way_of (next_extent (standing_of self.old))) (standing_of self.old) (standing_of self.new) result
            (λ old new. Renames old.files new.files from.now to.now × (new.synced ≡ renamed old.synced from.now to.now)) }
    {
        match self.next_way() {
            Way::Whole => self.inner.rename(from, to),
            Way::Refused => self.fail(Failed::Write),
            Way::Lost => {
                self.inner.rename(from, to)?;
                self.act(Failed::Write)
            }
        }
    }

    fn remove(&mut self, name: &str) -> Result<(), StoreError>
        ensures counts { Counts (fault_facts self.old) (fault_facts self.new) result }
        ensures writes { FailsNoWrite (fault_facts self.old) (fault_facts self.new) }
        ensures undenied { (fault_facts self.new).denials ≡ (fault_facts self.old).denials }
        ensures lock { (fault_facts self.new).locked ≡ (fault_facts self.old).locked }
        ensures files { Changes (fault_facts self.old) (fault_facts self.new) result
            (λ old new. Removes old new name.now)
            (λ old new. (new ≡ old) ⊎ Removes old new name.now) }
        ensures synced { ChangesSynced (fault_facts self.old) (fault_facts self.new) result
            (λ synced. with_synced synced name.now None) (λ old new. Removes old new name.now) }
        ensures calls { Notes (fault_facts self.old) (fault_facts self.new) result (Removal name.now) }
        ensures absent { IsTrue (fault_facts self.new).faithful → map.get (fault_facts self.old).files name.now ≡ None → result ≡ Err StoreError.Device }
        ensures missing { result ≢ Err StoreError.Missing }
        ensures memory { result ≢ Err StoreError.Memory }
        ensures course { Proceeds (standing_of self.old) (standing_of self.new) }
        ensures fault { Meets (way_of (next_extent (standing_of self.old))) (standing_of self.old) (standing_of self.new) result
            (λ old new. Removes old.files new.files name.now × (new.synced ≡ with_synced old.synced name.now None)) }
    {
        match self.next_way() {
            Way::Whole => self.inner.remove(name),
            Way::Refused => self.fail(Failed::Other),
            Way::Lost => {
                self.inner.remove(name)?;
                self.act(Failed::Other)
            }
        }
    }

    fn lock(&mut self) -> Result<bool, StoreError>
        ensures counts { Counts (fault_facts self.old) (fault_facts self.new) result }
        ensures writes { FailsNoWrite (fault_facts self.old) (fault_facts self.new) }
        ensures undenied { result ≢ Ok false → (fault_facts self.new).denials ≡ (fault_facts self.old).denials }
        ensures denied { result ≡ Ok false → (fault_facts self.old).denials < (fault_facts self.new).denials }
        ensures taken { result ≡ Ok true → (fault_facts self.new).locked ≡ true }
        ensures untaken { result ≢ Ok true → (fault_facts self.new).locked ≡ (fault_facts self.old).locked }
        ensures files { Changes (fault_facts self.old) (fault_facts self.new) result MayLock MayLock }
        ensures synced { KeepsSynced (fault_facts self.old) (fault_facts self.new) }
        ensures calls { Notes (fault_facts self.old) (fault_facts self.new) result LockFile }
        ensures held { IsTrue (fault_facts self.new).faithful → result ≡ Ok true → Locks (fault_facts self.old).files (fault_facts self.new).files }
        ensures missing { result ≢ Err StoreError.Missing }
        ensures course { Proceeds (standing_of self.old) (standing_of self.new) }
        ensures fault { Meets (way_of (next_extent (standing_of self.old))) (standing_of self.old) (standing_of self.new) result
            (λ old new. Locks old.files new.files × (new.synced ≡ old.synced)) }
        ensures denial { IsTrue (is_denial (due (standing_of self.old))) → result ≢ Err StoreError.Memory →
            (result ≡ Ok false) × (disk_of (fault_facts self.new) ≡ disk_of (fault_facts self.old)) × ((fault_facts self.new).calls ≡ (fault_facts self.old).calls) }
    {
        if self.denies() {
            self.next();
            return self.inner.deny();
        }
        match self.next_way() {
            Way::Whole => self.inner.lock(),
            Way::Refused => Err(self.failure()),
            Way::Lost => {
                self.inner.make_lock_file()?;
                self.acted = true;
                Err(self.failure())
            }
        }
    }

    fn unlock(&mut self) -> Result<(), StoreError>
        ensures counts { Counts (fault_facts self.old) (fault_facts self.new) result }
        ensures writes { FailsNoWrite (fault_facts self.old) (fault_facts self.new) }
        ensures undenied { (fault_facts self.new).denials ≡ (fault_facts self.old).denials }
        ensures free { OnOk result ((fault_facts self.new).locked ≡ false) }
        ensures kept { OnErr result ((fault_facts self.new).locked ≡ (fault_facts self.old).locked) }
        ensures same { Keeps (fault_facts self.old) (fault_facts self.new) }
        ensures synced { KeepsSynced (fault_facts self.old) (fault_facts self.new) }
        ensures calls { KeepsCalls (fault_facts self.old) (fault_facts self.new) }
        ensures missing { result ≢ Err StoreError.Missing }
        ensures memory { result ≢ Err StoreError.Memory }
        ensures course { Proceeds (standing_of self.old) (standing_of self.new) }
        ensures fault { MeetsReading (next_extent (standing_of self.old)) (standing_of self.old) (standing_of self.new) result }
    {
        match self.next() {
            None => self.inner.unlock(),
            Some(_) => {
                // Ok, if no further failure can be counted, says that the lock is free.
                self.fail(Failed::Other)?;
                self.inner.unlock()
            }
        }
    }

    fn note(&mut self, trouble: Trouble) {
        self.inner.note(trouble);
    }

    fn noted(&self) -> Trouble {
        self.inner.noted()
    }

    fn synced_law(&self) {
        self.inner.synced_law();
    }
}
