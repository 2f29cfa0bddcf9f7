//! The newest entry of a user key in the tables of a version (LevelDB's db/version_set.cc,
//! Version::Get).

ghost use Rattle.std.specs.Prelude.{◌≡◌, ◌<◌, ◌^◌, ◌+◌, length, IfOk, IfErr};
ghost use Rattle.cursor.specs.Moves.{Refuses};
ghost use Rattle.ikey.specs.Orders.{order_of};
ghost use Rattle.version_get.specs.Gets.{TableHasNoEntries, HasNoTablesOf, IsOneTooLong, IsOnlyTooLong, SaysOfAll, SaysOfEach, TableTears, TableTells, TablesTear, TablesTell};
ghost use Rattle.table_access.specs.Tables.{Carries, Only, seen_through};
ghost use Rattle.table_access.specs.Telling.{IfCorrupt};
ghost use Rattle.table.specs.Reading.{IsStill};
ghost use Rattle.versions.specs.Levels.{HasNumber};

use coding::{Bytes, Damage, DbError, FileKind};
use edits::{LEVELS, PlacedTable};
use ikey::{KeyOrder, seek_key};
use std::alloc::Global;
use store::Store;
use table_access::{Tables, table_value, told_for_all};
use versions::Version;

/// Returns what the newest entry of a user key up to a sequence number, below `SEQUENCE_END`, put
/// in the tables of a version. None: they have no such entry. `Some(None)`: it is a delete. Level 0
/// is searched from the newest table down, then each deeper level; the first table that has such an
/// entry ends the search. Corrupt: the source hasn't these tables. Unsupported: as `table_value`.
pub fn value_in_tables<K: KeyOrder, S: Store>(
    alloc: Global,
    source: &mut Tables<K, S>,
    version: &Version<K>,
    key: &[u8],
    sequence: u64,
) -> Result<Option<Option<Bytes>>, DbError>
    requires { sequence < 2 ^ 56 }
    ensures carries { Carries K.cmp (λ number. HasNumber number version.now.tables) (seen_through S.facts source.old)
        (seen_through S.facts source.new) }
    // Whichever contents the tables may have, as far as their blocks tell; and so those that they
    // have.
    ensures may { IfOk result (λ value. SaysOfEach (order_of K.name K.cmp) (seen_through S.facts source.old) (seen_through S.facts source.new)
        version.now.tables key.now sequence value) }
    ensures found { IfOk result (λ value. SaysOfAll (order_of K.name K.cmp) (seen_through S.facts source.old) (seen_through S.facts source.new)
        version.now.tables key.now sequence value) }
    // Whatever their files hold beside: the first of the tables, in the order of the search, that
    // tells anything of the key tells this.
    ensures told { IfOk result (λ value. TablesTell K.cmp (seen_through S.facts source.old) (seen_through S.facts source.new)
        version.now.tables key.now sequence value) }
    // Corrupt only over a table that the search comes to, and in it over its frame or over a block
    // that the search comes to.
    ensures torn { IfErr result (λ e. IfCorrupt e (TablesTear K.cmp (seen_through S.facts source.old) (seen_through S.facts source.new)
        version.now.tables key.now sequence)) }
    ensures still { IsStill (S.facts source.old.store) (S.facts source.new.store) result }
    ensures refused { IfErr result (λ e. Refuses e (S.facts source.old.store) (S.facts source.new.store)
        (HasNoTablesOf (order_of K.name K.cmp) (seen_through S.facts source.old) version.now.tables)
        (IsOneTooLong (order_of K.name K.cmp) (seen_through S.facts source.old) version.now.tables)) }
{
    // Law, for the proof alone.
    told_for_all::<K>();
    let target = seek_key(alloc, key, sequence)?;
    let end = search_end(version);
    let mut from = 0;
    while from < end {
        let Some((place, placed)) = version.next_searched(&target, from) else {
            return Ok(None);
        };
        let found = value_in_table(alloc, source, placed, key, sequence)?;
        if found.is_some() {
            return Ok(found);
        }
        from = place + 1;
    }
    Ok(None)
}

// A number that is above all places of a search.
fn search_end<K: KeyOrder>(version: &Version<K>) -> usize
    ensures is { result ≡ length version.now.tables + 7 }
    ensures range { result < 2 ^ 64 }
{
    version.tables().len() + LEVELS as usize
}

// The same of one of the tables.
fn value_in_table<K: KeyOrder, S: Store>(
    alloc: Global,
    source: &mut Tables<K, S>,
    placed: &PlacedTable,
    key: &[u8],
    sequence: u64,
) -> Result<Option<Option<Bytes>>, DbError>
    requires { sequence < 2 ^ 56 }
    ensures carries { Carries K.cmp (Only placed.now.table.number) (seen_through S.facts source.old) (seen_through S.facts source.new) }
    ensures told { IfOk result (λ value. TableTells K.cmp (seen_through S.facts source.old) (seen_through S.facts source.new)
        key.now sequence placed.now value) }
    ensures torn { IfErr result (λ e. IfCorrupt e (TableTears K.cmp (seen_through S.facts source.old) (seen_through S.facts source.new)
        key.now sequence placed.now)) }
    ensures still { IsStill (S.facts source.old.store) (S.facts source.new.store) result }
    ensures refused { IfErr result (λ e. Refuses e (S.facts source.old.store) (S.facts source.new.store)
        (TableHasNoEntries (order_of K.name K.cmp) (seen_through S.facts source.old) placed.now)
        (IsOnlyTooLong (order_of K.name K.cmp) (seen_through S.facts source.old) placed.now)) }
{
    // No file has the number 0, and the caches aren't asked for it.
    if placed.table.number == 0 {
        return Err(DbError::Corrupt(FileKind::Table, Damage::Missing));
    }
    let value = table_value(alloc, source, placed, key, sequence)?;
    Ok(value)
}
