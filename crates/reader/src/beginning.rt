//! What a reader begins with.

ghost use Rattle.std.specs.Prelude.{◌≡◌, IfOk, IfErr, IsTrue, OnOk};
ghost use Rattle.std.specs.NonZero.{non_zero_usize_get};
ghost use Rattle.ikey.specs.Orders.{order_of};
ghost use Rattle.ikey.specs.Views.{Contents, IsView};
ghost use Rattle.recover.specs.Directory.{Directory, IsConsistent, entries_in, used_in};
ghost use Rattle.recover.specs.Reading.{ReadsDirectory, IsCounted, Recovers};
ghost use Rattle.recover.specs.declared.reading.Recovered.{Recovered};
ghost use Rattle.db_cursor.specs.Whole.{whole_in};
ghost use Rattle.reader.specs.Refusals.{RefusesReader};
ghost use Rattle.reader.specs.internal.Shows.{HoldsRead, Shows};

use coding::DbError;
use db_cursor::Sources;
use ikey::KeyOrder;
use opening::{look, sealed_memory, version_of};
use recover::recovered_law;
use std::alloc::Global;
use std::num::NonZeroUsize;
use std::rc::Rc;
use store::Store;
use table_access::empty_is_sound;
use versions::Version;

/// Reads the directory of a store into memory, but for its tables, and answers its version.
/// `NoDatabase` for an empty one. Nothing that was kept of tables before stays.
pub fn begin<K: KeyOrder, S: Store>(
    alloc: Global,
    source: &mut Sources<K, S>,
    cache_blocks: NonZeroUsize,
) -> Result<Rc<Version<K>>, DbError>
    ensures store { ReadsDirectory (S.facts source.old.tables.store) (S.facts source.new.tables.store) result }
    ensures counted { IsCounted (S.facts source.old.tables.store) (S.facts source.new.tables.store) result }
    ensures found { IfOk result (λ _. IsTrue (S.facts source.new.tables.store).faithful
        → (recovered : Recovered) × Recovers (order_of K.name K.cmp) (S.facts source.old.tables.store).files recovered) }
    ensures holds { IfOk result (λ version. IsTrue (S.facts source.new.tables.store).faithful
        → HoldsRead (order_of K.name K.cmp) (S.facts source.old.tables.store).files (whole_in S.facts source.new) version.value.tables) }
    ensures shows { IfOk result (λ version. IsTrue (S.facts source.new.tables.store).faithful → (d : Directory) (map : Contents)
        → IsConsistent (order_of K.name K.cmp) (S.facts source.old.tables.store).files d → IsView (entries_in d) (used_in d) map
        → Shows (order_of K.name K.cmp) (whole_in S.facts source.new) version.value.tables map) }
    ensures cached { OnOk result (source.new.tables.blocks.capacity ≡ non_zero_usize_get cache_blocks) }
    ensures refused { IfErr result (λ error. RefusesReader (order_of K.name K.cmp) error (S.facts source.old.tables.store) (S.facts source.new.tables.store)) }
{
    // Laws, for the proof alone.
    empty_is_sound();
    recovered_law();
    source.tables.begin(alloc, cache_blocks)?;
    let Some(found) = look::<K, S>(alloc, &mut source.tables.store)? else {
        return Err(DbError::NoDatabase);
    };
    let version = version_of::<K>(alloc, &found.layout)?;
    source.memory = sealed_memory(alloc, &found.entries, found.used)?;
    Ok(version)
}
