//! Opening a table by its number (LevelDB's db/table_cache.cc, `FindTable`).

ghost use Rattle.std.specs.Prelude.{◌≡◌, ◌<◌, IfOk, IfErr, OnOk, IsTrue, IsSome, MatchBool, None, string_bytes};
ghost use Rattle.std.specs.FinMap.{get};
ghost use Rattle.table.specs.Reading.{Reads};
ghost use Rattle.cache.specs.Tables.{OpensTable, FindsName, IsNameOf, StopsReading, table_answer_of};

use coding::DbError;
use edits::{FileName, print_name};
use ikey::KeyOrder;
use std::alloc::Global;
use std::rc::Rc;
use store::{Store, StoreError};
use table::Table;

/// Opens the table of this number, in memory of its own, to be shared. Corrupt: it has no file.
/// Corrupt and Unsupported also as `Table::open`.
pub fn open_table<K: KeyOrder, S: Store>(
    alloc: Global,
    store: &mut S,
    number: u64,
) -> Result<Rc<Table<K>>, DbError>
    requires { 0 < number }
    ensures { OpensTable K.cmp (S.facts store.old) (S.facts store.new) number (table_answer_of result) }
{
    let name = table_name(alloc, store, number)?;
    let table = Table::<K>::open(alloc, store, name.as_str())?;
    let shared = Rc::new(alloc, table)?;
    Ok(shared)
}

// The name of the file of the table of this number: the one that ends in `.ldb` if that is there,
// else the one that ends in `.sst`, as older writers named it.
fn table_name<S: Store>(alloc: Global, store: &mut S, number: u64) -> Result<String, DbError>
    requires { 0 < number }
    ensures reads { Reads (S.facts store.old) (S.facts store.new) }
    ensures named { IfOk result (λ name. IsNameOf number (string_bytes name)) }
    ensures found { IfOk result (λ name. FindsName (S.facts store.old) (S.facts store.new) number (string_bytes name)) }
    ensures stood { OnOk result ((S.facts store.new).failures ≡ (S.facts store.old).failures) }
    ensures refused { IfErr result (λ e. StopsReading e (S.facts store.old) (S.facts store.new)) }
{
    let name = print_name(alloc, FileName::Table(number))?;
    if is_there(store, name.as_str())? {
        return Ok(name);
    }
    let old = print_name(alloc, FileName::OldTable(number))?;
    Ok(old)
}

// Whether the store has a file of this name.
fn is_there<S: Store>(store: &mut S, name: &str) -> Result<bool, DbError>
    ensures reads { Reads (S.facts store.old) (S.facts store.new) }
    ensures found { IfOk result (λ there. IsTrue (S.facts store.new).faithful →
        MatchBool there (IsSome (get (S.facts store.old).files name.now)) (get (S.facts store.old).files name.now ≡ None)) }
    ensures stood { OnOk result ((S.facts store.new).failures ≡ (S.facts store.old).failures) }
    ensures refused { IfErr result (λ e. StopsReading e (S.facts store.old) (S.facts store.new)) }
{
    match store.len(name) {
        Ok(_) => Ok(true),
        Err(StoreError::Missing) => Ok(false),
        Err(StoreError::Memory) => Err(DbError::OutOfMemory),
        Err(StoreError::Device) => Err(DbError::Io),
    }
}
