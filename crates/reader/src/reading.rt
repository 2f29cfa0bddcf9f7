//! The value of a key in a directory that is shown.

ghost use Rattle.std.specs.Prelude.{◌≡◌, IfOk, IfErr, OnOk, IsTrue};
ghost use Rattle.std.specs.FinMap.{get};
ghost use Rattle.ikey.specs.Orders.{order_of};
ghost use Rattle.ikey.specs.Views.{Contents};
ghost use Rattle.table.specs.Reading.{Reads};
ghost use Rattle.db_cursor.specs.Whole.{whole_in};
ghost use Rattle.db_cursor.specs.declared.scan.Scan.{Scan};
ghost use Rattle.reader.specs.Moving.{KeepsMayBe, KeepsWalks};
ghost use Rattle.reader.specs.internal.Shows.{KeepsMayShow, KeepsShown, MayShow, Shows};
ghost use Rattle.reader.specs.Refusals.{RefusesRead};

use coding::{Bytes, DbError};
use db_cursor::Sources;
use ikey::{KeyOrder, newest_in_front, same_view, unseen_in_front};
use std::alloc::Global;
use std::rc::Rc;
use store::Store;
use version_get::value_in_tables;
use version_laws::version_of_directory;
use versions::Version;

/// Returns the value of a user key at the last sequence number. The logs answer if the key is seen
/// there, else the tables.
pub fn value_of<K: KeyOrder, S: Store>(
    alloc: Global,
    source: &mut Sources<K, S>,
    version: &Rc<Version<K>>,
    key: &[u8],
) -> Result<Option<Bytes>, DbError>
    ensures found { IfOk result (λ value. IsTrue (S.facts source.new.tables.store).faithful → (map : Contents)
        → Shows (order_of K.name K.cmp) (whole_in S.facts source.old) version.now.value.tables map → value ≡ get map key.now) }
    // So whichever entries the tables may have, as far as their blocks tell.
    ensures may { IfOk result (λ value. IsTrue (S.facts source.new.tables.store).faithful → (map : Contents)
        → MayShow (order_of K.name K.cmp) (whole_in S.facts source.old) version.now.value.tables map → value ≡ get map key.now) }
    ensures may_show { KeepsMayShow (order_of K.name K.cmp) version.now.value.tables (whole_in S.facts source.old) (whole_in S.facts source.new) }
    ensures may_walk { IsTrue (S.facts source.new.tables.store).faithful → (scan : Scan K K.KeyOrder)
        → KeepsMayBe K.cmp scan (whole_in S.facts source.old) (whole_in S.facts source.new) }
    ensures shows { KeepsShown (order_of K.name K.cmp) version.now.value.tables (whole_in S.facts source.old) (whole_in S.facts source.new) }
    ensures walks { IsTrue (S.facts source.new.tables.store).faithful → (scan : Scan K K.KeyOrder)
        → KeepsWalks K.cmp scan (whole_in S.facts source.old) (whole_in S.facts source.new) }
    ensures refused { IfErr result (RefusesRead (order_of K.name K.cmp) version.now.value.tables (whole_in S.facts source.old) (whole_in S.facts source.new)) }
    ensures reads { Reads (S.facts source.old.tables.store) (S.facts source.new.tables.store) }
    ensures stood { OnOk result ((S.facts source.new.tables.store).failures ≡ (S.facts source.old.tables.store).failures) }
{
    // Laws, for the proof alone.
    newest_in_front();
    unseen_in_front();
    same_view();
    version_of_directory();
    let last = source.memory.last();
    if let Some(value) = source.memory.value(alloc, key, last)? {
        return Ok(value);
    }
    match value_in_tables(alloc, &mut source.tables, version, key, last)? {
        Some(value) => Ok(value),
        None => Ok(None),
    }
}
