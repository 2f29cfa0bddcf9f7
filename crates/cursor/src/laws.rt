//! Laws of merged lists, and of what is visible at a sequence number.

ghost use Rattle.std.specs.Prelude.{◌≡◌, ◌↔◌, ℕ, List, Some, map, slice_get};
ghost use Rattle.std.specs.FinMap.{get};
ghost use Rattle.ikey.specs.Entries.{InternalEntry, Pair, entry_of};
ghost use Rattle.ikey.specs.Views.{Contents, IsView};
ghost use Rattle.cursor.specs.Merging.{IsUnion};
ghost use Rattle.cursor.specs.Places.{Rises};
ghost use Rattle.cursor.specs.Sharing.{ShareNoKey};
ghost use Rattle.cursor.specs.Views.{IsViewList, HasPair};

use ikey::KeyOrder;

/// Proves that the pairs of entries' view as a list are what their view as a map has.
pub fn views_agree<K: KeyOrder>()
    ensures { (entries : List InternalEntry) (sequence : ℕ) (pairs : List Pair) (contents : Contents)
        → IsViewList K.cmp entries sequence pairs → IsView (map entry_of entries) sequence contents
        → (pair : Pair) → HasPair pairs pair ↔ (get contents pair.key ≡ Some pair.value) }
{}

/// Proves that each list of entries whose keys rise has a view as a list.
pub fn each_list_has_a_view<K: KeyOrder>()
    ensures { (entries : List InternalEntry) (sequence : ℕ) → Rises K.cmp entries → (pairs : List Pair)
        × IsViewList K.cmp entries sequence pairs }
{}

/// Proves that lists whose keys rise, and of which no two share an internal key, have a union.
pub fn lists_have_a_union<K: KeyOrder>()
    ensures { (lists : List (List InternalEntry)) → ((i : ℕ) (list : List InternalEntry) → slice_get lists i ≡ Some list
        → Rises K.cmp list) → ShareNoKey lists → (union : List InternalEntry) × IsUnion K.cmp lists union }
{}
