//! Entries in several sources that are searched one after the other.

ghost use Rattle.ikey.specs.Sources.{FrontLaw, BehindLaw, FoundLaw, MissedLaw, ByTwoLaw, GrownLaw, ReplacedLaw, SameViewLaw, SoughtLaw, AllBeforeLaw, RowLaw, RowAnswerLaw};

/// Proves that the newest entry of a source is that of both, if the source is newer than the other.
pub fn newest_in_front()
    ensures { FrontLaw }
{}

/// Proves that a key that isn't seen in the first source has the value that it has in the later
/// one.
pub fn unseen_in_front()
    ensures { BehindLaw }
{}

/// Proves that of sources each of which is newer than the later ones, the first that has an answer
/// answers for all.
pub fn first_found()
    ensures { FoundLaw }
{}

/// Proves that a key that is seen in no source has no value.
pub fn none_found()
    ensures { MissedLaw }
{}

/// Proves that sources may be compared by two.
pub fn searched_by_two()
    ensures { ByTwoLaw }
{}

/// Proves that what is written may go into the first source.
pub fn searched_when_grown()
    ensures { GrownLaw }
{}

/// Proves that a source may be replaced by one with the same entries.
pub fn searched_when_replaced()
    ensures { ReplacedLaw }
{}

/// Proves that the same entries have the same views.
pub fn same_view()
    ensures { SameViewLaw }
{}

/// Proves that a search in a sorted source ends at the newest entry of the key, if it is seen.
pub fn sought_in_order()
    ensures { SoughtLaw }
{}

/// Proves that a search in a sorted source that ends after all entries has seen none of the key.
pub fn all_come_before()
    ensures { AllBeforeLaw }
{}

/// Proves that consecutive sorted sources are a sorted one.
pub fn sorted_in_row()
    ensures { RowLaw }
{}

/// Proves that a search in the first of them that doesn't end before what is sought is a search in
/// all.
pub fn answered_in_row()
    ensures { RowAnswerLaw }
{}
