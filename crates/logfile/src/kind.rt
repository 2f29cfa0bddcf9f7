//! The types of fragments (LevelDB's doc/log_format.md: FULL 1, FIRST 2, MIDDLE 3, LAST 4).

ghost use Rattle.std.specs.Prelude.{◌≡◌, MatchOption};
ghost use Rattle.logfile.specs.Kinds.{number_of_kind};
ghost use Rattle.logfile.specs.declared.kind.Kind.{Kind as KindValue};

/// Which part of a record a fragment is.
#[derive(Clone, Copy, Debug, PartialEq, Eq)]
pub enum Kind {
    /// The whole record.
    Full,
    /// Its beginning.
    First,
    /// Neither its beginning nor its end.
    Middle,
    /// Its end.
    Last,
}

/// Returns the number that stands for the type.
pub fn number_of(kind: Kind) -> u8
    ensures { result ≡ number_of_kind kind }
{
    match kind {
        Kind::Full => 1,
        Kind::First => 2,
        Kind::Middle => 3,
        Kind::Last => 4,
    }
}

/// Returns the type that the number stands for, or None if there is none.
pub fn kind_of(number: u8) -> Option<Kind>
    ensures { MatchOption result ((kind : KindValue) → number_of_kind kind ≡ number → ⊥) (λ kind. number_of_kind kind ≡ number) }
{
    match number {
        1 => Some(Kind::Full),
        2 => Some(Kind::First),
        3 => Some(Kind::Middle),
        4 => Some(Kind::Last),
        _ => None,
    }
}
