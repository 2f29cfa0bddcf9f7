//! The order of internal keys where user keys are ordered by their bytes (LevelDB's db/dbformat.cc,
//! InternalKeyComparator over util/comparator.cc, BytewiseComparator).

ghost use Rattle.std.specs.Prelude.{◌≡◌, refl};
ghost use Rattle.std.specs.Cmp.{partial_order_from_agreeing_total};
ghost use Rattle.std.specs.Ordering.{nat_cmp, as_partial_cmp};
ghost use Rattle.ikey.specs.Keys.{kind_number, tag_of};
ghost use Rattle.ikey.specs.KeyViews.{key_of};
ghost use Rattle.ikey.specs.BytewiseKeys.{bytewise_cmp, bytewise_total, bytewise_ties};

use crate::internal_key::{InternalKey, Kind};
use crate::key_order::{Bytewise, KeyOrder};
use std::cmp::Ordering;

impl Ord for InternalKey<'_> {
    ghost cmp = { bytewise_cmp };

    ghost total = { bytewise_total };

    ghost matches_partial_cmp = { λ a b. refl };

    ghost matches_eq = { bytewise_ties };

    fn cmp(&self, other: &InternalKey<'_>) -> Ordering {
        match Bytewise::compare(self.user, other.user) {
            Ordering::Less => Ordering::Less,
            Ordering::Equal => newer_first(self, other),
            Ordering::Greater => Ordering::Greater,
        }
    }
}

impl PartialOrd for InternalKey<'_> {
    ghost partial_cmp = { as_partial_cmp bytewise_cmp };

    ghost laws = { partial_order_from_agreeing_total bytewise_cmp bytewise_total (λ a b. refl) bytewise_ties };

    fn partial_cmp(&self, other: &InternalKey<'_>) -> Option<Ordering> {
        Some(self.cmp(other))
    }
}

// The newer write first, and of one sequence number a put before a delete, as their numbers in
// eight bytes fall. The same holds if the sequence number doesn't fit into these.
fn newer_first(a: &InternalKey<'_>, b: &InternalKey<'_>) -> Ordering
    ensures { result ≡ nat_cmp (tag_of (key_of b.now)) (tag_of (key_of a.now)) }
{
    match b.sequence.cmp(&a.sequence) {
        Ordering::Less => Ordering::Less,
        Ordering::Equal => number_of(b.kind).cmp(&number_of(a.kind)),
        Ordering::Greater => Ordering::Greater,
    }
}

fn number_of(kind: Kind) -> u8
    ensures { result ≡ kind_number kind }
{
    match kind {
        Kind::Delete => 0,
        Kind::Put => 1,
    }
}
