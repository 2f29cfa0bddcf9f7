//! A table that is open.

ghost use Rattle.std.specs.Prelude.{◌≡◌, option_copied};
ghost use Rattle.table.specs.Intact.{floor_of as floor_value};
ghost use Rattle.table.specs.Table.{OneTable};

use crate::bounds::{first_place, fronts_of};
use crate::checking::{admits, check_all, check_place};
use crate::data::{read_all, read_within};
use crate::frame::read_ends;
use crate::handle::{Handle, Place};
use crate::index::read_places;
use crate::layout::{all_handles, are_separate, push_places};
use crate::metaindex::read_filter;
use crate::noting::note_parts;
use crate::pair::KeyValue;
use crate::seeking::seek_from;
use block::Block;
use coding::{Damage, DbError, FileKind};
use filter::FilterBlock;
use ikey::{Front, Internal, KeyOrder};
use std::alloc::{AllocError, Global};
use std::marker::{Model, PhantomData};
use std::rc::Rc;
use store::{Store, Why};

/// Holds a table that is open (LevelDB's `doc/table_format.md`), whose user keys are in the order
/// K. Contracts see the name of its file, and what was read of it: its index, and its filter block
/// if it has one.
#[derive(Drop)]
pub struct Table<K: KeyOrder> {
    name: String,
    // how many bytes stand before the footer, in which all blocks are
    before: u64,
    places: Vec<Place>,
    // The fronts of their user keys, which are all that most searches read.
    fronts: Vec<Front>,
    filter: Option<FilterBlock>,
    order: PhantomData<K>,
}

impl<K: KeyOrder> Model for Table<K> {
    ghost use Rattle.std.specs.Prelude.{string_bytes};
    ghost use Rattle.table.specs.Frame.{Opened};

    ghost Value = { Opened };

    ghost view = { λ t. record { name = string_bytes t.name; before = t.before; frame = record { places = t.places.items; filter = t.filter } } };

    ghost use Rattle.table.specs.KeyFronts.{AreFronts};

    ghost invariant = { λ t. AreFronts t.places.items t.fronts.items };
}

impl<K: KeyOrder> Table<K> {
    ghost use Rattle.std.specs.Prelude.{◌≡◌, ◌<◌, ◌≤◌, ◌+◌, ◌^◌, ◌⊎◌, ℕ, List, Option, Some, None, IfOk, IfErr, OnOk, MatchBool, length};
    ghost use Rattle.filter.specs.Hash.{hash_of};
    ghost use Rattle.table.specs.Frame.{Frame, IsFrame, IsOversized, TableAdmits, TableDenies, AnyLong, handles};
    ghost use Rattle.table.specs.Blocks.{IsCheckedAt, IsWrongAt};
    ghost use Rattle.table.specs.Intact.{IsIntact, IsTornAt, IsUnsupportedAt};
    ghost use Rattle.table.specs.Reading.{Reads, Finds, Answers, Refuses, IsNoted};
    ghost use Rattle.table.specs.Refusals.{IsDamaged, IsUnsupported, IsOfOne, IsOfOneFrom, IsFirstPlace, IsWrong, AreEmpty, IsFrameDamaged, IsFrameUnsupported};
    ghost use Rattle.ikey.specs.Entries.{InternalEntry, Pair};
    ghost use Rattle.table.specs.Table.{HasBlock, IsTable, ArePairs};
    ghost use Rattle.ikey.specs.Keys.{Key, IsKey};
    ghost use Rattle.table.specs.Seeking.{IsFirstFrom, pairs_found, entry_list};
    ghost use Rattle.table.specs.Views.{pairs_of};

    /// Reads footer, metaindex, filter block and index of a file. Corrupt: they are no frame of a
    /// table. Unsupported: one of these blocks has a type other than 0 or more than 2^30 bytes.
    pub fn open<S: Store>(alloc: Global, store: &mut S, name: &str) -> Result<Self, DbError>
        ensures reads { Reads (S.facts store.old) (S.facts store.new) }
        ensures name { IfOk result (λ table. table.name ≡ name.now) }
        ensures found { IfOk result (λ table. Finds (S.facts store.old) (S.facts store.new) name.now (λ file. IsFrame K.cmp file table.frame)) }
        ensures before { IfOk result (λ table. Finds (S.facts store.old) (S.facts store.new) name.now (λ file. table.before + 48 ≡ length file)) }
        ensures supported { OnOk result (Answers (S.facts store.old) (S.facts store.new) name.now (λ file. IsFrameUnsupported file → ⊥)) }
        ensures stood { OnOk result ((S.facts store.new).failures ≡ (S.facts store.old).failures) }
        ensures noted { IfErr result (λ e. IsNoted name.now e (S.told store.new)) }
        ensures told { IfErr result (λ e. Refuses e (S.facts store.old) (S.facts store.new) name.now (IsFrameDamaged K.cmp) IsFrameUnsupported) }
        // A frame is refused only if one of its blocks is too long.
        ensures refused { IfErr result (λ e. Refuses e (S.facts store.old) (S.facts store.new) name.now
            (λ file. (frame : Frame) → IsFrame K.cmp file frame → ⊥) (λ file. (frame : Frame) (is : IsFrame K.cmp file frame) → IsOversized K.cmp file frame is)) }
    {
        let ends = read_ends(alloc, store, name)?;
        let (named, filter) = read_filter(alloc, store, name, ends.before, ends.footer.metaindex)?;
        let places = read_places::<K, S>(alloc, store, name, ends.before, ends.footer.index)?;
        let mut handles = all_handles(alloc, ends.footer, named, &places)?;
        if !are_separate(ends.before, &mut handles) {
            note_parts(store, name, None, Why::BlockOverlap);
            return Err(DbError::Corrupt(FileKind::Table, Damage::Order));
        }
        let fronts = fronts_of(alloc, &places)?;
        let name = String::from_str(alloc, name)?;
        Ok(Table {
            name,
            before: ends.before,
            places,
            fronts,
            filter,
            order: PhantomData,
        })
    }

    /// Returns the handles of the data blocks, in order.
    pub fn index(&self, alloc: Global) -> Result<Vec<Handle>, AllocError>
        ensures { IfOk result (λ found. found.items ≡ handles self.now.frame) }
    {
        let mut found = Vec::new(alloc);
        push_places(&mut found, &self.places)?;
        Ok(found)
    }

    /// Returns the data blocks, in order: of each a key that bounds it, and where it is.
    pub fn places(&self) -> &[Place]
        ensures { result.now ≡ self.now.frame.places }
    {
        &self.places
    }

    /// Returns the index of the first data block that can have an entry whose internal key isn't
    /// below the target, or their number.
    pub fn first_place(&self, target: &[u8]) -> usize
        ensures { IsFirstPlace K.cmp target.now self.now.frame.places result }
    {
        first_place::<K>(&self.places, &self.fronts, target)
    }

    /// Reads the data block of this index, and checks it against its place. It is read into `room`
    /// if it fits, whose own bytes are dropped. Corrupt: there is no such block, or its checksum,
    /// its restart points or the order of its keys is wrong. A key that is no internal key, isn't
    /// above the bound of the place before, or is above its own bound is Corrupt too. Unsupported:
    /// the block has a type other than 0 or more than 2^30 bytes.
    pub fn block_at<S: Store>(
        &self,
        alloc: Global,
        store: &mut S,
        index: usize,
        room: Vec<u8>,
    ) -> Result<Block<Internal<K>>, DbError>
        ensures reads { Reads (S.facts store.old) (S.facts store.new) }
        ensures found { IfOk result (λ block. Finds (S.facts store.old) (S.facts store.new) self.now.name
            (λ file. IsIntact K.cmp file self.now.frame.places index block.pairs)) }
        ensures stood { OnOk result ((S.facts store.new).failures ≡ (S.facts store.old).failures) }
        ensures noted { IfErr result (λ e. index < length self.now.frame.places → IsNoted self.now.name e (S.told store.new)) }
        ensures refused { IfErr result (λ e. Refuses e (S.facts store.old) (S.facts store.new) self.now.name
            (λ file. IsTornAt K.cmp file self.now.frame.places index) (λ file. IsUnsupportedAt file self.now.frame.places index)) }
    {
        let Some(place) = self.places.get(index) else {
            return Err(DbError::Corrupt(FileKind::Table, Damage::Missing));
        };
        let floor = floor_of(&self.places, index);
        match read_within::<K, S>(alloc, store, &self.name, self.before, place, floor, room) {
            Ok(block) => Ok(block),
            Err(e) => Err(e),
        }
    }

    /// Reads the entries, in order, as the bytes of their internal keys and their values. What
    /// bounds, filter and the order of the blocks say isn't checked. Corrupt and Unsupported as
    /// `read_data`.
    pub fn entries<S: Store>(&self, alloc: Global, store: &mut S) -> Result<Vec<KeyValue>, DbError>
        ensures reads { Reads (S.facts store.old) (S.facts store.new) }
        ensures found { IfOk result (λ found. Answers (S.facts store.old) (S.facts store.new) self.now.name
            (λ file. (entries : List InternalEntry) → IsFrame K.cmp file self.now.frame → IsTable K.cmp file entries → ArePairs (pairs_of found.items) entries)) }
        ensures stood { OnOk result ((S.facts store.new).failures ≡ (S.facts store.old).failures) }
        ensures noted { IfErr result (λ e. IsNoted self.now.name e (S.told store.new)) }
        ensures told { IfErr result (λ e. Refuses e (S.facts store.old) (S.facts store.new) self.now.name
            (λ file. IsOfOne (IsDamaged K.cmp file) self.now.frame.places) (λ file. IsOfOne (IsUnsupported file) self.now.frame.places)) }
        // A table is refused only if one of its blocks is too long.
        ensures refused { IfErr result (λ e. Refuses e (S.facts store.old) (S.facts store.new) self.now.name
            (λ file. (entries : List InternalEntry) → IsFrame K.cmp file self.now.frame → IsTable K.cmp file entries → ⊥)
            (λ file. (entries : List InternalEntry) → IsFrame K.cmp file self.now.frame → IsTable K.cmp file entries → AnyLong (handles self.now.frame))) }
    {
        match read_all::<K, S>(alloc, store, &self.name, self.before, &self.places) {
            Ok(found) => Ok(found),
            Err(e) => Err(e),
        }
    }

    /// Reads the entries as `entries`, and checks all else that makes the file a table. There is
    /// one at least, their keys are internal keys, each is within the bounds of its block, and its
    /// filter admits it. Corrupt: that isn't so. Corrupt and Unsupported also as `read_data`.
    pub fn check_entries<S: Store>(
        &self,
        alloc: Global,
        store: &mut S,
    ) -> Result<Vec<KeyValue>, DbError>
        ensures reads { Reads (S.facts store.old) (S.facts store.new) }
        ensures found { IfOk result (λ found. Answers (S.facts store.old) (S.facts store.new) self.now.name
            (λ file. IsFrame K.cmp file self.now.frame → (entries : List InternalEntry) × IsTable K.cmp file entries × ArePairs (pairs_of found.items) entries)) }
        ensures stood { OnOk result ((S.facts store.new).failures ≡ (S.facts store.old).failures) }
        ensures noted { IfErr result (λ e. IsNoted self.now.name e (S.told store.new)) }
        ensures told { IfErr result (λ e. Refuses e (S.facts store.old) (S.facts store.new) self.now.name
            (λ file. IsWrong K.cmp file self.now.frame.filter None self.now.frame.places ⊎ AreEmpty K.cmp file self.now.frame.places)
            (λ file. IsOfOne (IsUnsupported file) self.now.frame.places)) }
        // A table is refused only if one of its blocks is too long.
        ensures refused { IfErr result (λ e. Refuses e (S.facts store.old) (S.facts store.new) self.now.name
            (λ file. (entries : List InternalEntry) → IsFrame K.cmp file self.now.frame → IsTable K.cmp file entries → ⊥)
            (λ file. (entries : List InternalEntry) → IsFrame K.cmp file self.now.frame → IsTable K.cmp file entries → AnyLong (handles self.now.frame))) }
        // Over any store there is an entry.
        ensures sound { IfOk result (λ found. (0 < length found.items)) }
    {
        let found = check_all::<K, S>(
            alloc,
            store,
            &self.name,
            self.before,
            &self.places,
            &self.filter,
        )?;
        if found.is_empty() {
            note_parts(store, &self.name, None, Why::NoEntries);
            return Err(DbError::Corrupt(FileKind::Table, Damage::Missing));
        }
        Ok(found)
    }

    /// Reads the data block of this index, and checks all that makes it the block of a table. Its
    /// keys are internal keys, each is within the bounds of the block, and the filter admits it.
    /// Corrupt: that isn't so, or there is no such block. Corrupt and Unsupported also as
    /// `read_data`.
    pub fn check_block<S: Store>(
        &self,
        alloc: Global,
        store: &mut S,
        index: usize,
    ) -> Result<Rc<Block<Internal<K>>>, DbError>
        ensures reads { Reads (S.facts store.old) (S.facts store.new) }
        ensures found { IfOk result (λ block. Finds (S.facts store.old) (S.facts store.new) self.now.name
            (λ file. IsCheckedAt K.cmp file self.now.frame index block.value.pairs)) }
        ensures stood { OnOk result ((S.facts store.new).failures ≡ (S.facts store.old).failures) }
        ensures noted { IfErr result (λ e. index < length self.now.frame.places → IsNoted self.now.name e (S.told store.new)) }
        ensures refused { IfErr result (λ e. Refuses e (S.facts store.old) (S.facts store.new) self.now.name
            (λ file. IsWrongAt K.cmp file self.now.frame index) (λ file. IsUnsupportedAt file self.now.frame.places index)) }
    {
        let Some(place) = self.places.get(index) else {
            return Err(DbError::Corrupt(FileKind::Table, Damage::Missing));
        };
        let floor = floor_of(&self.places, index);
        match check_place::<K, S>(
            alloc,
            store,
            &self.name,
            self.before,
            place,
            floor,
            &self.filter,
        ) {
            Ok(block) => Ok(block),
            Err(e) => Err(e),
        }
    }

    /// Returns the first entry whose internal key isn't below the target, an internal key, as the
    /// bytes of its key and its value, if there is one. It reads only blocks that can have it.
    /// Corrupt and Unsupported as `read_data`.
    pub fn seek<S: Store>(
        &self,
        alloc: Global,
        store: &mut S,
        target: &[u8],
    ) -> Result<Option<KeyValue>, DbError>
        ensures reads { Reads (S.facts store.old) (S.facts store.new) }
        ensures found { IfOk result (λ found. Answers (S.facts store.old) (S.facts store.new) self.now.name
            (λ file. (entries : List InternalEntry) (key : Key) → IsFrame K.cmp file self.now.frame → IsTable K.cmp file entries → IsKey target.now key
            → (at : Option InternalEntry) × IsFirstFrom K.cmp key entries at × ArePairs (pairs_found found) (entry_list at))) }
        ensures stood { OnOk result ((S.facts store.new).failures ≡ (S.facts store.old).failures) }
        ensures noted { IfErr result (λ e. IsNoted self.now.name e (S.told store.new)) }
        ensures told { IfErr result (λ e. Refuses e (S.facts store.old) (S.facts store.new) self.now.name
            (λ file. IsOfOneFrom K.cmp target.now (IsDamaged K.cmp file) self.now.frame.places)
            (λ file. IsOfOneFrom K.cmp target.now (IsUnsupported file) self.now.frame.places)) }
        // A table is refused only if one of its blocks is too long.
        ensures refused { IfErr result (λ e. Refuses e (S.facts store.old) (S.facts store.new) self.now.name
            (λ file. (entries : List InternalEntry) → IsFrame K.cmp file self.now.frame → IsTable K.cmp file entries → ⊥)
            (λ file. (entries : List InternalEntry) → IsFrame K.cmp file self.now.frame → IsTable K.cmp file entries → AnyLong (handles self.now.frame))) }
    {
        let start = first_place::<K>(&self.places, &self.fronts, target);
        let places = &self.places[start..];
        match seek_from::<K, S>(alloc, store, &self.name, self.before, places, target) {
            Ok(found) => Ok(found),
            Err(e) => Err(e),
        }
    }

    /// Returns false only if the data block at this handle doesn't hold the user key. It returns
    /// true for every key that the block holds, and for a few that it doesn't. Without a filter
    /// block: true.
    pub fn admits(&self, handle: Handle, key: &[u8]) -> bool
        ensures { MatchBool result (TableAdmits self.now.frame.filter handle.offset (hash_of key.now))
            (TableDenies self.now.frame.filter handle.offset (hash_of key.now)) }
    {
        admits(&self.filter, handle.offset, key)
    }
}

// The bound of the place before the one of this index.
fn floor_of(places: &[Place], index: usize) -> Option<&[u8]>
    ensures { option_copied result ≡ floor_value places.now index }
{
    let before = index.checked_sub(1)?;
    let place = places.get(before)?;
    Some(place.key.as_slice())
}

/// Proves that no file is two tables.
pub fn one_table()
    ensures { OneTable }
{}
