//! The removal of obsolete files.

ghost use Rattle.std.specs.Prelude.{◌≡◌, ◌⊎◌, ◌↔◌, ◌≤◌, ◌∷◌, ◌++◌, [], ℕ, List, true};
ghost use Rattle.std.specs.FinMap.{contains_key};
ghost use Rattle.std.specs.Prelude.{Contains, IfOk, IfErr, IsTrue, MatchBool, OnOk, map, string_bytes};
ghost use Rattle.ikey.specs.Orders.{Order};
ghost use Rattle.store.specs.Files.{Lists};
ghost use Rattle.edits.specs.Names.{IsFileName, IsNumbered, name_of};
ghost use Rattle.edits.specs.declared.names.FileName.{FileName as FileNameValue};
ghost use Rattle.recover.specs.Directory.{Directory, IsConsistent};
ghost use Rattle.recover.specs.Reading.{ReadsDirectory, IsCounted};
ghost use Rattle.store.specs.Calls.{FailsNoWrite};
ghost use Rattle.store.specs.Stops.{LeavesOnly, WritesOnly};
ghost use Rattle.directory_writes.specs.Differing.{OfEach};
ghost use Rattle.directory_writes.specs.internal.Calls.{Touches};
ghost use Rattle.directory_writes.specs.internal.Removal as removal;
ghost use Rattle.directory_writes.specs.internal.Removal.{AreBoth, AreOfDirectory, AreOlder, AreToClose, HasOlderToo, HasTwo, IsLeft};
ghost use Rattle.directory_writes.specs.Removal.{HasBoth, IsDead, IsLiveAmong, IsLiveFile};
ghost use Rattle.directory_writes.specs.internal.Removal.{KeepsParts, KeepsTable, LeavesFew, ListsToClose, LosesDeadOnly, RefusesList, RemovesNamed, RemovesDead, StaysConsistent};

use coding::DbError;
use edits::{FileName, parse_name};
use recover::free_change_law;
use std::alloc::{AllocError, Global};
use store::{Store, StoreError};
use versions::LiveNumbers;

/// Tells which tables are in use: those of the current version, of open iterators' versions, and
/// those that a compaction under way reads or has written (`engine`'s `readers.rt` answers it).
pub trait LiveTables {
    ghost has: { Self → ℕ → Type 0 };

    /// Returns whether the table of this number is in use.
    fn has_table(&self, number: u64) -> bool
        ensures { MatchBool result (has self.now number) (has self.now number → ⊥) };
}

/// Tells what a removal leaves.
#[derive(Debug, Drop)]
pub struct Removal {
    /// Whether all obsolete files of a known shape are gone.
    pub complete: bool,
    /// The numbers of tables to close, if they are open. Those that aren't in use are listed once
    /// for each of their files that was there. Those that had a file under both names are listed
    /// too.
    pub tables: Vec<u64>,
}

/// Removes each obsolete file of a known shape (LevelDB's db/db_impl.cc,
/// DBImpl::RemoveObsoleteFiles). A file that can't be removed is left for the next time. If a table
/// has files of both names, the newer name is the one that is read: its file goes last, and stays
/// if the table is in use. So nobody reads other bytes under its number. It fails only if the files
/// can't be listed: out of memory, or with Io if the store fails; nothing is removed then.
pub fn remove_files<S: Store, L: LiveTables>(
    alloc: Global,
    store: &mut S,
    numbers: &LiveNumbers,
    live: &L,
) -> Result<Removal, DbError>
    ensures call { Touches (S.facts store.old) (S.facts store.new) }
    ensures fails { FailsNoWrite (S.facts store.old) (S.facts store.new) }
    ensures refused { IfErr result (λ error. RefusesList error (S.facts store.old) (S.facts store.new)) }
    ensures removes { RemovesDead (S.facts store.old) (S.facts store.new)
        (IsLiveAmong (S.facts store.old).files numbers.now (L.has live.now)) result }
    ensures tidy { IsTrue (S.facts store.new).faithful → IfOk result (λ removal. IsTrue removal.complete → (file : FileNameValue) → IsFileName file
        → contains_key (S.facts store.new).files (name_of file) ≡ true → IsLiveAmong (S.facts store.new).files numbers.now (L.has live.now) file) }
    // Newer files wait if an older one couldn't be removed.
    ensures few { OnOk result (LeavesFew (S.facts store.old) (S.facts store.new)
        (IsLiveAmong (S.facts store.old).files numbers.now (L.has live.now))
        (HasOlderToo (S.facts store.old).files) (λ name. contains_key (S.facts store.old).files name ≡ true)) }
    ensures close { IfOk result (λ removal. ListsToClose (S.facts store.old) (S.facts store.new) (L.has live.now) removal.tables.items) }
    ensures tables { IsTrue (S.facts store.new).faithful → (n : ℕ) → IsNumbered n
        → KeepsTable (S.facts store.old) (S.facts store.new) (L.has live.now) n }
    ensures meaning { IsTrue (S.facts store.new).faithful → (order : Order) (d : Directory)
        → IsConsistent order (S.facts store.old).files d → AreOfDirectory numbers.now (L.has live.now) d
        → KeepsParts order (S.facts store.old).files (S.facts store.new).files (L.has live.now) d }
    ensures meaning_each { OfEach (λ whole after. IsTrue (S.facts store.new).faithful → (order : Order) (d : Directory) → IsConsistent order whole d
        → AreOfDirectory numbers.now (L.has live.now) d → KeepsParts order whole after (L.has live.now) d)
        (S.facts store.old).files (S.facts store.new).files }
    ensures stops { IsTrue (S.facts store.new).faithful → LeavesOnly (S.facts store.old) (S.facts store.new)
        (StaysConsistent numbers.now (L.has live.now) (S.facts store.old).files) }
    ensures stops_each { IsTrue (S.facts store.new).faithful → LeavesOnly (S.facts store.old) (S.facts store.new)
        (λ files. OfEach (λ whole after. StaysConsistent numbers.now (L.has live.now) whole after) (S.facts store.old).files files) }
    ensures only { IsTrue (S.facts store.new).faithful → WritesOnly (S.facts store.old) (S.facts store.new)
        (IsDead (IsLiveAmong (S.facts store.old).files numbers.now (L.has live.now))) }
{
    // Laws, for the proof alone.
    free_change_law();
    let names = list_names(alloc, store)?;
    let older = older_tables(alloc, &names)?;
    let both = doubled_tables(alloc, &names, &older)?;
    let tables = tables_to_close(alloc, &names, &both, live)?;
    let complete = remove_listed(store, &names, numbers, live, &both);
    Ok(Removal { complete, tables })
}

// The names of all files.
fn list_names<S: Store>(alloc: Global, store: &mut S) -> Result<Vec<String>, DbError>
    ensures store { ReadsDirectory (S.facts store.old) (S.facts store.new) result }
    ensures counted { IsCounted (S.facts store.old) (S.facts store.new) result }
    ensures names { IfOk result (λ names. IsTrue (S.facts store.new).faithful
        → Lists (S.facts store.old).files (map string_bytes names.items)) }
    ensures refused { IfErr result (λ error. RefusesList error (S.facts store.old) (S.facts store.new)) }
{
    match store.list(alloc) {
        Ok(names) => Ok(names),
        Err(StoreError::Memory) => Err(DbError::OutOfMemory),
        Err(StoreError::Device) => Err(DbError::Io),
        Err(StoreError::Missing) => unreachable!(),
    }
}

// The numbers of the tables that have a file with the older name.
fn older_tables(alloc: Global, names: &[String]) -> Result<Vec<u64>, AllocError>
    ensures { IfOk result (λ numbers. AreOlder (map string_bytes names.now) numbers.items) }
{
    let mut numbers = Vec::new(alloc);
    for name in names {
        push_older(&mut numbers, name.as_bytes())?;
    }
    Ok(numbers)
}

// Takes one more name in.
fn push_older(numbers: &mut Vec<u64>, name: &[u8]) -> Result<(), AllocError>
    ensures { OnOk result ((names : List (List ℕ)) → AreOlder names numbers.old.items
        → AreOlder (names ++ name.now ∷ []) numbers.new.items) }
{
    let Some(file) = parse_name(name) else {
        return Ok(());
    };
    let Some(number) = older_number(file) else {
        return Ok(());
    };
    numbers.push(number)?;
    Ok(())
}

// The number of a table whose file has the older name.
fn older_number(file: FileName) -> Option<u64>
    ensures { result ≡ removal.older_number file }
{
    match file {
        FileName::OldTable(number) => Some(number),
        FileName::Current
        | FileName::Lock
        | FileName::Log(_)
        | FileName::Table(_)
        | FileName::Manifest(_)
        | FileName::Temporary(_) => None,
    }
}

// The numbers of the tables that have a file under both names, where these are the numbers of those
// with the older one.
fn doubled_tables(alloc: Global, names: &[String], older: &[u64]) -> Result<Vec<u64>, AllocError>
    ensures { IfOk result (λ numbers. AreBoth older.now (map string_bytes names.now) numbers.items) }
{
    let mut numbers = Vec::new(alloc);
    for name in names {
        push_doubled(&mut numbers, name.as_bytes(), older)?;
    }
    Ok(numbers)
}

// Takes one more name in.
fn push_doubled(numbers: &mut Vec<u64>, name: &[u8], older: &[u64]) -> Result<(), AllocError>
    ensures { OnOk result ((names : List (List ℕ)) → AreBoth older.now names numbers.old.items
        → AreBoth older.now (names ++ name.now ∷ []) numbers.new.items) }
{
    let Some(file) = parse_name(name) else {
        return Ok(());
    };
    let Some(number) = newer_number(file) else {
        return Ok(());
    };
    if !is_among(number, older) {
        return Ok(());
    }
    numbers.push(number)?;
    Ok(())
}

fn is_among(number: u64, numbers: &[u64]) -> bool
    ensures { MatchBool result (Contains numbers.now number) (Contains numbers.now number → ⊥) }
{
    numbers.contains(&number)
}

// The number of a table whose file has the newer name.
fn newer_number(file: FileName) -> Option<u64>
    ensures { result ≡ removal.newer_number file }
{
    match file {
        FileName::Table(number) => Some(number),
        FileName::Current
        | FileName::Lock
        | FileName::Log(_)
        | FileName::OldTable(_)
        | FileName::Manifest(_)
        | FileName::Temporary(_) => None,
    }
}

// The numbers of the tables that aren't in use, once for each of these names that is their file's,
// and of those that have files of both names.
fn tables_to_close<L: LiveTables>(
    alloc: Global,
    names: &[String],
    both: &[u64],
    live: &L,
) -> Result<Vec<u64>, AllocError>
    ensures { IfOk result (λ numbers. AreToClose (L.has live.now) both.now (map string_bytes names.now) numbers.items) }
{
    let mut numbers = Vec::new(alloc);
    for name in names {
        push_to_close(&mut numbers, name.as_bytes(), both, live)?;
    }
    Ok(numbers)
}

// Takes one more name in.
fn push_to_close<L: LiveTables>(
    numbers: &mut Vec<u64>,
    name: &[u8],
    both: &[u64],
    live: &L,
) -> Result<(), AllocError>
    ensures { OnOk result ((names : List (List ℕ)) → AreToClose (L.has live.now) both.now names numbers.old.items
        → AreToClose (L.has live.now) both.now (names ++ name.now ∷ []) numbers.new.items) }
{
    let Some(file) = parse_name(name) else {
        return Ok(());
    };
    let Some(number) = table_number(file) else {
        return Ok(());
    };
    if stays_open(number, both, live) {
        return Ok(());
    }
    numbers.push(number)?;
    Ok(())
}

// Whether the table is in use and hasn't a file under both names.
fn stays_open<L: LiveTables>(number: u64, both: &[u64], live: &L) -> bool
    ensures { MatchBool result (L.has live.now number × (Contains both.now number → ⊥)) (L.has live.now number × (Contains both.now number → ⊥) → ⊥) }
{
    if is_among(number, both) {
        return false;
    }
    live.has_table(number)
}

// The number of a table, by either name.
fn table_number(file: FileName) -> Option<u64>
    ensures { result ≡ removal.table_number file }
{
    match file {
        FileName::Table(number) => Some(number),
        FileName::OldTable(number) => Some(number),
        FileName::Current
        | FileName::Lock
        | FileName::Log(_)
        | FileName::Manifest(_)
        | FileName::Temporary(_) => None,
    }
}

// Removes each of these that is obsolete, and answers whether all are gone. Of tables that have two
// files the newer ones go last, and only if nothing else is left.
fn remove_listed<S: Store, L: LiveTables>(
    store: &mut S,
    names: &[String],
    numbers: &LiveNumbers,
    live: &L,
    both: &[u64],
) -> bool
    ensures call { Touches (S.facts store.old) (S.facts store.new) }
    ensures fails { FailsNoWrite (S.facts store.old) (S.facts store.new) }
    ensures removes { RemovesNamed (S.facts store.old) (S.facts store.new) (IsLiveFile numbers.now (L.has live.now) (λ n. Contains both.now n))
        (map string_bytes names.now) result }
    ensures few { LeavesFew (S.facts store.old) (S.facts store.new) (IsLiveFile numbers.now (L.has live.now) (λ n. Contains both.now n))
        (HasTwo (λ n. Contains both.now n)) (λ name. Contains (map string_bytes names.now) name) }
    ensures tables { ((n : ℕ) → IsNumbered n → Contains both.now n ↔ HasBoth (S.facts store.old).files n)
        → Lists (S.facts store.old).files (map string_bytes names.now) → IsTrue (S.facts store.new).faithful → (n : ℕ) → IsNumbered n
        → KeepsTable (S.facts store.old) (S.facts store.new) (L.has live.now) n }
    ensures stops { IsTrue (S.facts store.new).faithful → LeavesOnly (S.facts store.old) (S.facts store.new)
        (LosesDeadOnly (S.facts store.old).files (IsLiveFile numbers.now (L.has live.now) (λ n. Contains both.now n))) }
    ensures only { IsTrue (S.facts store.new).faithful → WritesOnly (S.facts store.old) (S.facts store.new)
        (IsDead (IsLiveFile numbers.now (L.has live.now) (λ n. Contains both.now n))) }
{
    if !remove_turn(store, names, numbers, live, both, false) {
        return false;
    }
    remove_turn(store, names, numbers, live, both, true)
}

// Removes the obsolete ones that have this turn, the first or the last. Answers whether they are
// gone.
fn remove_turn<S: Store, L: LiveTables>(
    store: &mut S,
    names: &[String],
    numbers: &LiveNumbers,
    live: &L,
    both: &[u64],
    last: bool,
) -> bool
    ensures call { Touches (S.facts store.old) (S.facts store.new) }
    ensures fails { FailsNoWrite (S.facts store.old) (S.facts store.new) }
    ensures removes { RemovesNamed (S.facts store.old) (S.facts store.new)
        (IsLeft (IsLiveFile numbers.now (L.has live.now) (λ n. Contains both.now n)) (λ n. Contains both.now n) last) (map string_bytes names.now) result }
    ensures few { LeavesFew (S.facts store.old) (S.facts store.new)
        (IsLeft (IsLiveFile numbers.now (L.has live.now) (λ n. Contains both.now n)) (λ n. Contains both.now n) last) (λ _. ⊥) (λ name. Contains (map string_bytes names.now) name) }
    ensures stops { IsTrue (S.facts store.new).faithful → LeavesOnly (S.facts store.old) (S.facts store.new)
        (LosesDeadOnly (S.facts store.old).files (IsLiveFile numbers.now (L.has live.now) (λ n. Contains both.now n))) }
    ensures only { IsTrue (S.facts store.new).faithful → WritesOnly (S.facts store.old) (S.facts store.new)
        (IsDead (IsLiveFile numbers.now (L.has live.now) (λ n. Contains both.now n))) }
{
    let mut gone = true;
    for name in names {
        let removed = remove_dead(store, name.as_str(), numbers, live, both, last);
        gone &= removed;
    }
    gone
}

// Removes the file of this name if it is obsolete and has this turn. Answers whether it is gone
// then.
fn remove_dead<S: Store, L: LiveTables>(
    store: &mut S,
    name: &str,
    numbers: &LiveNumbers,
    live: &L,
    both: &[u64],
    last: bool,
) -> bool
    ensures call { Touches (S.facts store.old) (S.facts store.new) }
    ensures fails { FailsNoWrite (S.facts store.old) (S.facts store.new) }
    ensures removes { RemovesNamed (S.facts store.old) (S.facts store.new)
        (IsLeft (IsLiveFile numbers.now (L.has live.now) (λ n. Contains both.now n)) (λ n. Contains both.now n) last) (name.now ∷ []) result }
    ensures few { LeavesFew (S.facts store.old) (S.facts store.new)
        (IsLeft (IsLiveFile numbers.now (L.has live.now) (λ n. Contains both.now n)) (λ n. Contains both.now n) last) (λ _. ⊥) (λ other. Contains (name.now ∷ []) other) }
    ensures stops { IsTrue (S.facts store.new).faithful → LeavesOnly (S.facts store.old) (S.facts store.new)
        (LosesDeadOnly (S.facts store.old).files (IsLiveFile numbers.now (L.has live.now) (λ n. Contains both.now n))) }
    ensures only { IsTrue (S.facts store.new).faithful → WritesOnly (S.facts store.old) (S.facts store.new)
        (IsDead (IsLiveFile numbers.now (L.has live.now) (λ n. Contains both.now n))) }
{
    let Some(file) = parse_name(name.as_bytes()) else {
        return true;
    };
    if is_live(file, numbers, live, both) {
        return true;
    }
    if has_two(file, both) != last {
        return true;
    }
    store.remove(name).is_ok()
}

// Whether this is the newer file of a table that has two.
fn has_two(file: FileName, both: &[u64]) -> bool
    ensures { MatchBool result (HasTwo (λ n. Contains both.now n) file) (HasTwo (λ n. Contains both.now n) file → ⊥) }
{
    match file {
        FileName::Table(number) => is_among(number, both),
        FileName::Current => false,
        FileName::Lock => false,
        FileName::Log(_) => false,
        FileName::OldTable(_) => false,
        FileName::Manifest(_) => false,
        FileName::Temporary(_) => false,
    }
}

// Whether the file belongs to the open database.
fn is_live<L: LiveTables>(file: FileName, numbers: &LiveNumbers, live: &L, both: &[u64]) -> bool
    ensures { MatchBool result (IsLiveFile numbers.now (L.has live.now) (λ n. Contains both.now n) file)
        (IsLiveFile numbers.now (L.has live.now) (λ n. Contains both.now n) file → ⊥) }
{
    match file {
        FileName::Current => true,
        FileName::Lock => true,
        FileName::Log(number) => is_live_log(number, numbers),
        FileName::Table(number) => live.has_table(number),
        FileName::OldTable(number) => stays_open(number, both, live),
        FileName::Manifest(number) => number == numbers.manifest_number,
        FileName::Temporary(_) => false,
    }
}

// Whether the log of this number belongs to it.
fn is_live_log(number: u64, numbers: &LiveNumbers) -> bool
    ensures { MatchBool result ((numbers.now.log_number ≤ number) ⊎ (number ≡ numbers.now.previous_log_number))
        ((numbers.now.log_number ≤ number) ⊎ (number ≡ numbers.now.previous_log_number) → ⊥) }
{
    number >= numbers.log_number || number == numbers.previous_log_number
}
