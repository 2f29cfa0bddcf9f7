//! What a search by places tells of the sources.

ghost use Rattle.version_laws.specs.Laws.{FitLaw, SearchedLaw, AnsweredLaw, PassedLaw, StepLaw, TableFoundLaw, EndLaw, MemoryLaw, VersionLaw, PartLaw, KeptLaw};

/// Proves that contents that a version has fit it, and it has no others.
pub fn version_fits()
    ensures { FitLaw }
{}

/// Proves that a table that is searched at a place is one of the version's.
pub fn searched_table()
    ensures { SearchedLaw }
{}

/// Proves that what a table that is searched at a place answers, the source of the place answers.
pub fn answered_place()
    ensures { AnsweredLaw }
{}

/// Proves that a place at which no table is searched has nothing that is seen.
pub fn passed_place()
    ensures { PassedLaw }
{}

/// Proves that a search goes on after a table in which the key isn't seen.
pub fn goes_on()
    ensures { StepLaw }
{}

/// Proves that the first table in which the key is seen answers for all.
pub fn is_found()
    ensures { TableFoundLaw }
{}

/// Proves that a search that ends has seen the key in none.
pub fn has_ended()
    ensures { EndLaw }
{}

/// Proves that the entries of a consistent directory lie in its last log, the logs before it, and
/// its tables, each newer than the next.
pub fn memory_in_front()
    ensures { MemoryLaw }
{}

/// Proves that a version that lists the tables of a consistent directory has them.
pub fn version_of_directory()
    ensures { VersionLaw }
{}

/// Proves that a version that lists some of them has these.
pub fn version_of_part()
    ensures { PartLaw }
{}

/// Proves that a version keeps its tables while their files stay.
pub fn version_is_kept()
    ensures { KeptLaw }
{}
