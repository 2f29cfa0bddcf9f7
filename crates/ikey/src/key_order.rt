//! The order of user keys, which a database is told (LevelDB's include/leveldb/comparator.h).

ghost use Rattle.std.specs.Prelude.{◌≡◌, ◌<◌, ◌^◌, ◌++◌, List, ℕ, length, take, codes, MatchBool, ⊤};
ghost use Rattle.std.proofs.Common.{lit<};
ghost use Rattle.std.specs.Ordering.{nat_cmp};
ghost use Rattle.std.specs.declared.cmp.Ordering.{Ordering};
ghost use Rattle.std.specs.declared.cmp.Ordering.TheVariants.{Less};
ghost use Rattle.std.specs.Cmp.{IsTotalOrder};
ghost use Rattle.std.specs.Cmp.Lexicographic.{slice_cmp, nat_list_cmp_total};
ghost use Rattle.std.specs.FinMap.{IsAntisymmetric, slice_cmp-IsAntisymmetric, nat_cmp-IsAntisymmetric};
ghost use Rattle.ikey.specs.Fronts.{Decides};

use crate::byte_order::{compare_bytes, is_less_behind};
use crate::front::Front;
use std::cmp::Ordering;

/// Orders byte strings totally, with the name under which a database records the order.
pub trait KeyOrder {
    ghost name: { List ℕ };

    ghost cmp: { List ℕ → List ℕ → Ordering };

    /// Returns the name that a MANIFEST records. A database under another name has another order.
    fn name() -> &'static str
        ensures { result.now ≡ name };

    /// Compares two user keys.
    fn compare(a: &[u8], b: &[u8]) -> Ordering
        ensures { result ≡ cmp a.now b.now };

    /// Compares with the first byte of `rest` alone. True says that `a` is below the key of its
    /// first `shared` bytes and `rest`. False says nothing; an order without such a comparison says
    /// that.
    fn is_plainly_below(a: &[u8], shared: usize, rest: &[u8]) -> bool
        ensures { MatchBool result (cmp a.now (take shared a.now ++ rest.now) ≡ Less) ⊤ }
    {
        false
    }

    /// Compares the fronts of two keys. Less and Greater say how the keys compare, and also how
    /// they do after a common prefix. Equal says nothing; an order without such a comparison says
    /// that.
    fn compare_fronts(a: Front, b: Front) -> Ordering
        ensures { Decides cmp a b result }
    {
        Ordering::Equal
    }

    ghost total: { IsTotalOrder cmp };

    /// Only equal bytes compare as equal.
    ghost exact: { IsAntisymmetric cmp };

    /// A version edit can hold the name.
    ghost name_fits: { length name < 2 ^ 32 };
}

/// Orders by the first byte that differs; a proper prefix comes first. It compares words of eight
/// bytes.
pub struct Bytewise;

impl KeyOrder for Bytewise {
    ghost name = { codes "leveldb.BytewiseComparator" };

    ghost cmp = { slice_cmp nat_cmp };

    fn name() -> &'static str {
        "leveldb.BytewiseComparator"
    }

    fn compare(a: &[u8], b: &[u8]) -> Ordering {
        compare_bytes(a, b)
    }

    #[inline(always)]
    fn is_plainly_below(a: &[u8], shared: usize, rest: &[u8]) -> bool {
        is_less_behind(a, shared, rest)
    }

    #[inline(always)]
    fn compare_fronts(a: Front, b: Front) -> Ordering {
        a.compare_bytes(b)
    }

    ghost total = { nat_list_cmp_total };

    ghost exact = { slice_cmp-IsAntisymmetric nat_cmp-IsAntisymmetric };

    ghost name_fits = { lit< tt };
}
