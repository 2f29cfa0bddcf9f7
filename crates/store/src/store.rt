// What a database asks of a directory, and what it may rely on.
ghost use Rattle.std.specs.Prelude.{◌≡◌, ◌≢◌, ◌⊎◌, ◌<◌, List, ℕ, [], length, take, drop, map, string_bytes, IfOk, OnOk, OnErr, None, IsTrue, IsSome, true, false};
ghost use Rattle.std.specs.FinMap as map;
ghost use Rattle.store.specs.Files.{Facts, Lists, Appends, AppendsBeginning, Renames, Removes, Locks, MayLock, with_synced, renamed, Creation, Sync, Move, Removal, LockFile};
ghost use Rattle.store.specs.Losses.{SyncsBeginnings};
ghost use Rattle.store.specs.Troubles.{behind};
ghost use Rattle.store.specs.declared.trouble.Trouble.{Trouble};
ghost use Rattle.store.specs.Calls.{Counts, FailsNoWrite, FailsAsWrite, Keeps, KeepsSynced, KeepsCalls, Changes, ChangesSynced, Notes, NotesAppend, NotesSync};

use crate::{StoreError, Trouble};
use std::alloc::Global;

/// Keeps named files as a database needs them in one directory. Its calls are those of LevelDB's
/// `Env` (include/leveldb/env.h) that a database makes. A name is any text.
///
/// While a store is faithful it returns what was written, and its calls do what their clauses say:
/// an Ok is exact, and files of other names stay. For a store that isn't faithful only those
/// clauses hold that don't ask for it.
///
/// Memory changes nothing, and Device is counted. Only `len`, `read_at` and `read_into` answer
/// Missing. `sync`, `remove` and `unlock` never answer Memory. A call that changes or syncs a file
/// answers Device if that file is missing.
///
/// A file is synced if a sync of it succeeded: the bytes that it had then are on disk. A rename
/// carries them along. LevelDB relies on one thing more, and so does a database over this store: a
/// rename reaches the disk no later than what is synced after it.
///
/// Other processes may change the files while this store doesn't hold the lock. So a store over
/// files that others can reach keeps no file and no fact about one past `unlock`. When `lock`
/// takes the lock, the store sees the files as they are then. `list` without the lock does the
/// same, since every read-only use begins with it.
pub trait Store {
    /// The files, what of them is synced, the calls that changed something, whether it was faithful
    /// so far, whether it holds the lock, and how often it failed, failed in a write, or denied the
    /// lock.
    ghost facts: { Self → Facts };

    /// The note that it took last.
    ghost told: { Self → Trouble };

    /// Returns how often a call failed so far: the failures of the facts. Asks the device nothing.
    fn failures(&self) -> u64
        ensures { result ≡ (facts self.now).failures };

    /// Returns how often a call failed so far that makes, extends, syncs or renames a file: the
    /// failed writes of the facts. Asks the device nothing.
    fn write_failures(&self) -> u64
        ensures { result ≡ (facts self.now).write_failures };

    /// Returns the names of all files, each once, in no order. Without the lock it sees the files
    /// as they are now, whatever the store knew of them.
    fn list(&mut self, alloc: Global) -> Result<Vec<String>, StoreError>
        ensures counts { Counts (facts self.old) (facts self.new) result }
        ensures writes { FailsNoWrite (facts self.old) (facts self.new) }
        ensures undenied { (facts self.new).denials ≡ (facts self.old).denials }
        ensures lock { (facts self.new).locked ≡ (facts self.old).locked }
        ensures names { IfOk result (λ names. IsTrue (facts self.new).faithful →
            Lists (facts self.old).files (map string_bytes names.items)) }
        ensures same { Keeps (facts self.old) (facts self.new) }
        ensures synced { KeepsSynced (facts self.old) (facts self.new) }
        ensures calls { KeepsCalls (facts self.old) (facts self.new) }
        ensures missing { result ≢ Err StoreError.Missing };

    /// Returns the length of a file in bytes, or Missing.
    fn len(&mut self, name: &str) -> Result<u64, StoreError>
        ensures counts { Counts (facts self.old) (facts self.new) result }
        ensures writes { FailsNoWrite (facts self.old) (facts self.new) }
        ensures undenied { (facts self.new).denials ≡ (facts self.old).denials }
        ensures lock { (facts self.new).locked ≡ (facts self.old).locked }
        ensures length { IfOk result (λ len. IsTrue (facts self.new).faithful →
            (bytes : List ℕ) × (map.get (facts self.old).files name.now ≡ Some bytes) × (len ≡ length bytes)) }
        ensures missing { IsTrue (facts self.new).faithful → result ≡ Err StoreError.Missing →
            map.get (facts self.old).files name.now ≡ None }
        ensures same { Keeps (facts self.old) (facts self.new) }
        ensures synced { KeepsSynced (facts self.old) (facts self.new) }
        ensures calls { KeepsCalls (facts self.old) (facts self.new) };

    /// Returns `count` bytes of a file from `offset` on, or fewer if it ends before. Missing if no
    /// file has the name.
    fn read_at(
        &mut self,
        alloc: Global,
        name: &str,
        offset: u64,
        count: usize,
    ) -> Result<Vec<u8>, StoreError>
        ensures counts { Counts (facts self.old) (facts self.new) result }
        ensures writes { FailsNoWrite (facts self.old) (facts self.new) }
        ensures undenied { (facts self.new).denials ≡ (facts self.old).denials }
        ensures lock { (facts self.new).locked ≡ (facts self.old).locked }
        ensures bytes { IfOk result (λ read. IsTrue (facts self.new).faithful →
            (bytes : List ℕ) × (map.get (facts self.old).files name.now ≡ Some bytes) × (read.items ≡ take count (drop offset bytes))) }
        ensures missing { IsTrue (facts self.new).faithful → result ≡ Err StoreError.Missing →
            map.get (facts self.old).files name.now ≡ None }
        ensures same { Keeps (facts self.old) (facts self.new) }
        ensures synced { KeepsSynced (facts self.old) (facts self.new) }
        ensures calls { KeepsCalls (facts self.old) (facts self.new) };

    /// Does the same as `read_at`, in the memory of `room` if the bytes fit. What `room` held is
    /// dropped. A store that can't reuse the memory drops it too.
    fn read_into(
        &mut self,
        alloc: Global,
        name: &str,
        offset: u64,
        count: usize,
        room: Vec<u8>,
    ) -> Result<Vec<u8>, StoreError>
        ensures counts { Counts (facts self.old) (facts self.new) result }
        ensures writes { FailsNoWrite (facts self.old) (facts self.new) }
        ensures undenied { (facts self.new).denials ≡ (facts self.old).denials }
        ensures lock { (facts self.new).locked ≡ (facts self.old).locked }
        ensures bytes { IfOk result (λ read. IsTrue (facts self.new).faithful →
            (bytes : List ℕ) × (map.get (facts self.old).files name.now ≡ Some bytes) × (read.items ≡ take count (drop offset bytes))) }
        ensures missing { IsTrue (facts self.new).faithful → result ≡ Err StoreError.Missing →
            map.get (facts self.old).files name.now ≡ None }
        ensures same { Keeps (facts self.old) (facts self.new) }
        ensures synced { KeepsSynced (facts self.old) (facts self.new) }
        ensures calls { KeepsCalls (facts self.old) (facts self.new) }
    {
        drop(room);
        self.read_at(alloc, name, offset, count)
    }

    /// Makes an empty file, or empties the one that is there. A call that fails with Device may
    /// have done so.
    fn create(&mut self, name: &str) -> Result<(), StoreError>
        ensures counts { Counts (facts self.old) (facts self.new) result }
        ensures writes { FailsAsWrite (facts self.old) (facts self.new) }
        ensures undenied { (facts self.new).denials ≡ (facts self.old).denials }
        ensures lock { (facts self.new).locked ≡ (facts self.old).locked }
        ensures files { Changes (facts self.old) (facts self.new) result
            (λ old new. new ≡ map.insert old name.now [])
            (λ old new. (new ≡ old) ⊎ (new ≡ map.insert old name.now [])) }
        ensures synced { ChangesSynced (facts self.old) (facts self.new) result
            (λ synced. with_synced synced name.now None) (λ old new. new ≡ map.insert old name.now []) }
        ensures calls { Notes (facts self.old) (facts self.new) result (Creation name.now) }
        ensures missing { result ≢ Err StoreError.Missing };

    /// Adds bytes at the end of a file. A call that fails with Device may have added some first
    /// ones.
    fn append(&mut self, name: &str, bytes: &[u8]) -> Result<(), StoreError>
        ensures counts { Counts (facts self.old) (facts self.new) result }
        ensures writes { FailsAsWrite (facts self.old) (facts self.new) }
        ensures undenied { (facts self.new).denials ≡ (facts self.old).denials }
        ensures lock { (facts self.new).locked ≡ (facts self.old).locked }
        ensures files { Changes (facts self.old) (facts self.new) result
            (λ old new. Appends old new name.now bytes.now)
            (λ old new. AppendsBeginning old new name.now bytes.now) }
        ensures synced { KeepsSynced (facts self.old) (facts self.new) }
        ensures calls { NotesAppend (facts self.old) (facts self.new) result name.now bytes.now }
        ensures absent { IsTrue (facts self.new).faithful → map.get (facts self.old).files name.now ≡ None → result ≡ Err StoreError.Device }
        ensures missing { result ≢ Err StoreError.Missing };

    /// Syncs a file: what it holds is on disk afterwards, and the names as they are now.
    fn sync(&mut self, name: &str) -> Result<(), StoreError>
        ensures counts { Counts (facts self.old) (facts self.new) result }
        ensures writes { FailsAsWrite (facts self.old) (facts self.new) }
        ensures undenied { (facts self.new).denials ≡ (facts self.old).denials }
        ensures lock { (facts self.new).locked ≡ (facts self.old).locked }
        ensures present { IsTrue (facts self.new).faithful → OnOk result (IsSome (map.get (facts self.old).files name.now)) }
        ensures same { Keeps (facts self.old) (facts self.new) }
        ensures synced { IsTrue (facts self.new).faithful → OnOk result ((facts self.new).synced ≡ with_synced (facts self.old).synced name.now (map.get (facts self.old).files name.now)) }
        ensures calls { NotesSync (facts self.old) (facts self.new) result (Sync name.now) }
        ensures unsynced { IsTrue (facts self.new).faithful → OnErr result ((facts self.new).synced ≡ (facts self.old).synced) }
        ensures absent { IsTrue (facts self.new).faithful → map.get (facts self.old).files name.now ≡ None → result ≡ Err StoreError.Device }
        ensures missing { result ≢ Err StoreError.Missing }
        ensures memory { result ≢ Err StoreError.Memory };

    /// Gives a file another name, and replaces a file that has it. A call that fails with Device
    /// may have done so.
    fn rename(&mut self, from: &str, to: &str) -> Result<(), StoreError>
        ensures counts { Counts (facts self.old) (facts self.new) result }
        ensures writes { FailsAsWrite (facts self.old) (facts self.new) }
        ensures undenied { (facts self.new).denials ≡ (facts self.old).denials }
        ensures lock { (facts self.new).locked ≡ (facts self.old).locked }
        ensures files { Changes (facts self.old) (facts self.new) result
            (λ old new. Renames old new from.now to.now)
            (λ old new. (new ≡ old) ⊎ Renames old new from.now to.now) }
        ensures synced { ChangesSynced (facts self.old) (facts self.new) result
            (λ synced. renamed synced from.now to.now) (λ old new. Renames old new from.now to.now) }
        ensures calls { Notes (facts self.old) (facts self.new) result (Move from.now to.now) }
        ensures absent { IsTrue (facts self.new).faithful → map.get (facts self.old).files from.now ≡ None → result ≡ Err StoreError.Device }
        ensures missing { result ≢ Err StoreError.Missing };

    /// Removes a file. A call that fails with Device may have done so.
    fn remove(&mut self, name: &str) -> Result<(), StoreError>
        ensures counts { Counts (facts self.old) (facts self.new) result }
        ensures writes { FailsNoWrite (facts self.old) (facts self.new) }
        ensures undenied { (facts self.new).denials ≡ (facts self.old).denials }
        ensures lock { (facts self.new).locked ≡ (facts self.old).locked }
        ensures files { Changes (facts self.old) (facts self.new) result
            (λ old new. Removes old new name.now)
            (λ old new. (new ≡ old) ⊎ Removes old new name.now) }
        ensures synced { ChangesSynced (facts self.old) (facts self.new) result
            (λ synced. with_synced synced name.now None) (λ old new. Removes old new name.now) }
        ensures calls { Notes (facts self.old) (facts self.new) result (Removal name.now) }
        ensures absent { IsTrue (facts self.new).faithful → map.get (facts self.old).files name.now ≡ None → result ≡ Err StoreError.Device }
        ensures missing { result ≢ Err StoreError.Missing }
        ensures memory { result ≢ Err StoreError.Memory };

    /// Takes the lock of the directory, and makes the empty file `LOCK` if it is missing, as
    /// LevelDB does. `false` is a denial, which is counted: somebody holds the lock, perhaps this
    /// store. A call that fails or denies may have made the file. Once the lock is taken the store
    /// sees the files as they are now.
    fn lock(&mut self) -> Result<bool, StoreError>
        ensures counts { Counts (facts self.old) (facts self.new) result }
        ensures writes { FailsNoWrite (facts self.old) (facts self.new) }
        ensures undenied { result ≢ Ok false → (facts self.new).denials ≡ (facts self.old).denials }
        ensures denied { result ≡ Ok false → (facts self.old).denials < (facts self.new).denials }
        ensures taken { result ≡ Ok true → (facts self.new).locked ≡ true }
        ensures untaken { result ≢ Ok true → (facts self.new).locked ≡ (facts self.old).locked }
        ensures files { Changes (facts self.old) (facts self.new) result MayLock MayLock }
        ensures synced { KeepsSynced (facts self.old) (facts self.new) }
        ensures calls { Notes (facts self.old) (facts self.new) result LockFile }
        ensures held { IsTrue (facts self.new).faithful → result ≡ Ok true → Locks (facts self.old).files (facts self.new).files }
        ensures missing { result ≢ Err StoreError.Missing };

    /// Releases the lock, if this store holds it. Others may change the files from then on.
    fn unlock(&mut self) -> Result<(), StoreError>
        ensures counts { Counts (facts self.old) (facts self.new) result }
        ensures writes { FailsNoWrite (facts self.old) (facts self.new) }
        ensures undenied { (facts self.new).denials ≡ (facts self.old).denials }
        ensures free { OnOk result ((facts self.new).locked ≡ false) }
        ensures kept { OnErr result ((facts self.new).locked ≡ (facts self.old).locked) }
        ensures same { Keeps (facts self.old) (facts self.new) }
        ensures synced { KeepsSynced (facts self.old) (facts self.new) }
        ensures calls { KeepsCalls (facts self.old) (facts self.new) }
        ensures missing { result ≢ Err StoreError.Missing }
        ensures memory { result ≢ Err StoreError.Memory };

    /// Takes a note of why a call is refused, and drops an earlier one. No file changes.
    fn note(&mut self, trouble: Trouble)
        ensures same { facts self.new ≡ facts self.old }
        ensures told { told self.new ≡ behind trouble (told self.old) };

    /// Returns the note that was taken last, whether or not a call was refused since.
    fn noted(&self) -> Trouble
        ensures { result ≡ told self.now };

    /// States a law: what is synced of a file is a beginning of what it holds. Does nothing.
    fn synced_law(&self)
        ensures { SyncsBeginnings (facts self.now) };
}
