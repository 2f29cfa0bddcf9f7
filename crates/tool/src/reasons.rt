// The words of a refusal: what should have been there.

use coding::{Damage, DbError, Feature, FileKind};
use script::Wanted;
use std::fmt;

/// Shows a refusal on one line: its number, its name, and what should have been there.
#[derive(Clone, Copy)]
pub struct Reason(pub DbError);

impl fmt::Display for Reason {
    fn fmt<W: fmt::Write>(&self, f: &mut fmt::Formatter<W>) -> fmt::Result {
        write!(f, "refused {} {}: ", self.0.number(), self.0.name())?;
        match self.0 {
            DbError::Corrupt(kind, damage) => write_damage(f, kind, damage),
            DbError::Unsupported(feature) => f.write_str(feature_words(feature)),
            error => write!(f, "{error}"),
        }
    }
}

fn write_damage<W: fmt::Write>(
    f: &mut fmt::Formatter<W>,
    kind: FileKind,
    damage: Damage,
) -> fmt::Result {
    match kind {
        FileKind::Current => f.write_str("CURRENT doesn't name a MANIFEST"),
        FileKind::Manifest => write!(f, "the MANIFEST {}", damage_words(damage)),
        FileKind::Log => write!(f, "a log {}", damage_words(damage)),
        FileKind::Table => write!(f, "a table {}", damage_words(damage)),
        FileKind::Directory => f.write_str("a table or a log is there, but no CURRENT"),
    }
}

fn damage_words(damage: Damage) -> &'static str {
    match damage {
        Damage::Length => "ends too soon, or a length in it is wrong",
        Damage::Checksum => "has a checksum that doesn't fit its bytes",
        Damage::Kind => "has a tag or a type that the format doesn't know",
        Damage::Number => "has a number that is out of its range or not in its shortest form",
        Damage::Order => "has parts that aren't in the order they must have",
        Damage::Padding => "has other bytes where zeros must be",
        Damage::Missing => "isn't there, or lacks a field that it must have",
    }
}

fn feature_words(feature: Feature) -> &'static str {
    match feature {
        Feature::BlockType => "a table has a compressed block",
        Feature::Comparator => "the keys are in another order",
        Feature::BlockSize => "a table has a block of more than 2^30 bytes",
        Feature::TableNumber => "a table has a number of 2^62 or more",
        Feature::Tables => "there are tables",
    }
}

/// Returns what should stand in the place of a word of a script.
pub fn wanted_words(wanted: Wanted) -> &'static str {
    match wanted {
        Wanted::Command => "the name of a command is wanted",
        Wanted::Operation => "put or del is wanted",
        Wanted::Bytes => "two hexadecimal digits a byte are wanted, or - for none",
        Wanted::Number => "a number below 2^64 is wanted",
        Wanted::SmallNumber => "a number below 2^32 is wanted",
        Wanted::Level => "all or the number of a level is wanted",
        Wanted::Mode => "new, any or nothing more is wanted",
        Wanted::End => "nothing more is wanted",
        Wanted::NoReturn => "the line ends with a carriage return: a newline alone is wanted",
    }
}
