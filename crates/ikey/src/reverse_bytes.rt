//! The byte order turned round.

ghost use Rattle.std.specs.Prelude.{codes};
ghost use Rattle.std.proofs.Common.{lit<};
ghost use Rattle.std.proofs.lemmas.Cmp.{back_total};
ghost use Rattle.std.specs.Ordering.{nat_cmp, flip_args};
ghost use Rattle.std.specs.Cmp.Lexicographic.{slice_cmp, nat_list_cmp_total};
ghost use Rattle.std.proofs.Common.{sym};
ghost use Rattle.std.specs.FinMap.{slice_cmp-IsAntisymmetric, nat_cmp-IsAntisymmetric};

use crate::byte_order::compare_bytes;
use crate::front::Front;
use crate::key_order::KeyOrder;
use std::cmp::Ordering;

/// Orders by the first byte that differs, the greater one first; a proper prefix comes last.
pub struct ReverseBytes;

impl KeyOrder for ReverseBytes {
    ghost name = { codes "ldbtool.ReverseBytewiseComparator" };

    ghost cmp = { flip_args (slice_cmp nat_cmp) };

    fn name() -> &'static str {
        "ldbtool.ReverseBytewiseComparator"
    }

    fn compare(a: &[u8], b: &[u8]) -> Ordering {
        compare_bytes(b, a)
    }

    #[inline(always)]
    fn compare_fronts(a: Front, b: Front) -> Ordering {
        b.compare_bytes(a)
    }

    ghost total = { back_total nat_list_cmp_total };

    ghost exact = { λ a b same. sym (slice_cmp-IsAntisymmetric nat_cmp-IsAntisymmetric b a same) };

    ghost name_fits = { lit< tt };
}
