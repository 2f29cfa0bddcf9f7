//! Which pairs are asked for, and how.

ghost use Rattle.std.specs.Prelude.{◌≡◌, None};
ghost use Rattle.browse.specs.declared.style.Style.TheVariants.{Puts};

use crate::style::Style;
use engine::KeyRange;

/// Which pairs are asked for, in which order, and as which lines.
#[derive(Debug, Drop)]
pub struct Choice {
    /// Those whose keys lie here.
    pub keys: KeyRange,
    /// No more than so many; `None` for all. Backwards they are the last ones.
    pub most: Option<u64>,
    /// From the last key to the first.
    pub backwards: bool,
    pub style: Style,
}

impl Choice {
    ghost use Rattle.std.specs.Prelude.{false};

    /// Returns all pairs, as the lines of a script that puts them into an empty database.
    pub fn of_all_puts() -> Self
        ensures keys { (result.keys.from ≡ None) × (result.keys.to ≡ None) }
        ensures most { result.most ≡ None }
        ensures forwards { result.backwards ≡ false }
        ensures style { result.style ≡ Puts }
    {
        Choice {
            keys: KeyRange::all(),
            most: None,
            backwards: false,
            style: Style::Puts,
        }
    }
}
